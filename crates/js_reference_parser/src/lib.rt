//! The model of the parser: an executable grammar, read from left to right up to the first token that no form
//! takes (ECMAScript, 13 to 16), and its laws: it reads what the grammar says, and stops at the first fault.
//!
//! `specs` has the readers, `proofs` the laws. The code does nothing: its contracts are the laws that
//! others may use.
#![tactic(auto)]

mod laws;

pub use laws::{scripts_are_read_one_way, tokens_of_a_text_end_well, wider_limits_keep_scripts};
