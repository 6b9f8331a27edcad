//! The leaves of the parser: what it does with tokens, symbols, names and trees before any form has a
//! part one level deeper (ECMAScript, 13 to 16).
#![tactic(auto)]

mod cursor;
pub mod make;
mod names;
mod targets;
mod words;

pub use cursor::{Cursor, Failed, place};
pub use names::{member_of, name, parameters};
pub use targets::{accept, begin_assign, eat_postfix, sees_postfix};
pub use words::{Set, has, is};
