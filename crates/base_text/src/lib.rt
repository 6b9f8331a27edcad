//! The texts that every other crate passes round, the answer that no memory was found, and the
//! operators on primitive values.
#![tactic(auto)]

mod memory;
mod number;
mod operators;
#[cfg(test)]
mod tests;
mod text;

pub use memory::{Mem, NoMemory, OrMemory};
pub use number::MAX_SAFE_INTEGER;
pub use operators::{BinaryOp, UnaryOp};
pub use text::{SOURCE_LIMIT, TEXT_LIMIT, Text, TextFault};
