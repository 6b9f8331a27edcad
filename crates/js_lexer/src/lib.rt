//! Reads the tokens of a script (ECMAScript, 12 Lexical Grammar).
#![tactic(auto)]

mod escapes;
mod laws;
mod numbers;
mod punctuators;
mod runs;
mod scalars;
mod string_literals;
#[cfg(test)]
mod tests;
mod token_at_front;
mod tokens;

pub use js_syntax::{LexFault, LexKind};
pub use laws::{texts_have_one_list_of_tokens, texts_have_tokens_or_one_fault};
pub use tokens::lex;
