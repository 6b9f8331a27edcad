//! Functions as they are called: each with the names and the functions that its body declares, which are looked for once.
#![tactic(auto)]

mod code;
mod declared;

pub use code::Code;
