//! The tokens and the syntax trees of a script, and the grammars that say which of them a text spells.
#![tactic(auto)]

mod limits;
mod parse_fault;
mod shared;
mod symbol;
mod token;
mod token_fault;
mod tree;

pub use limits::{CHAIN_LIMIT, LEVEL_LIMIT};
pub use parse_fault::{ParseFault, ParseKind};
pub use shared::Shared;
pub use symbol::{Symbol, is_reserved_word, number_of};
pub use token::{Token, TokenKind, Tokens};
pub use token_fault::{LexFault, LexKind};
pub use tree::{
    Catch, Declaration, Expr, ForStart, ForTarget, Function, Property, Script, Stmt, Stmts,
    UpdateOp,
};
