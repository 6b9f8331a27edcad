//! Reads the tokens of a script (ECMAScript, 13 to 16).
#![tactic(auto)]

mod bodies;
mod declarations;
mod entry;
mod functions;
mod if_while;
mod level;
mod lists;
mod loops;
mod members;
mod operators;
mod parts;
mod return_throw;
mod statements;
mod suffixes;
mod try_catch;
mod updates;

pub use entry::parse;
pub use js_reference_parser::{
    scripts_are_read_one_way, tokens_of_a_text_end_well, wider_limits_keep_scripts,
};
pub use js_syntax::{ParseFault, ParseKind};
