//! The small forms as scripts of the language: which statements their lines are, and that their texts spell these.
#![tactic(auto)]

mod laws;

pub use laws::{
    page_scripts_spell_their_lines, scripts_of_pages_spell_their_lines,
    userscripts_spell_their_lines,
};
