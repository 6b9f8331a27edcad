//! The metadata block of a userscript: what it is called, when it starts, what it may use, and which addresses it runs on.
#![tactic(auto)]

mod blanks;
mod block;
mod laws;
mod lines;
mod meta;
mod words;

pub use block::{MetaFault, read_block};
pub use laws::{a_block_has_at_most_one_answer, blocks_are_read_one_way, same_blocks_select_alike};
pub use meta::{Grant, Meta, RunAt, grants, selects};

#[cfg(test)]
mod tests;
