//! The operators of scripts on primitive values, with the fault where one has no result; and ToBoolean, ToString and
//! ToPropertyKey of a primitive value (ECMAScript, 7.1 and 13).
#![tactic(auto)]

mod arithmetic;
mod fault;
mod laws;
mod numeral;
mod one_operand;
mod primitive;
#[cfg(test)]
mod tests;
mod two_operands;

pub use fault::OpFault;
pub use laws::{numbers_are_spelled_by_the_grammar, quotients_are_exact};
pub use one_operand::unary;
pub use primitive::{Primitive, same, to_boolean, to_key, to_text};
pub use two_operands::binary;
