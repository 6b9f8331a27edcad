//! `return` and `throw` (ECMAScript, 14.10 and 14.14).
ghost use Rattle.js_syntax.specs.declared.limits.TheConstants.{CHAIN_LIMIT};
ghost use Rattle.js_cursor.specs.Reads.{Reads};
ghost use Rattle.js_reference_parser.specs.StatementsModel as spec;

use crate::level::{Form, Level, Nests, Part};
use js_cursor::{Cursor, Failed};
use js_syntax::{Expr, ParseKind, Property, Stmt, Symbol};
use sqlite_items::Boxed;
use std::alloc::Global;

impl<
    E: Fn(Global, &mut Cursor<'_>, usize, Part) -> Result<Boxed<Expr>, Failed>,
    M: Fn(Global, &mut Cursor<'_>, usize) -> Result<Property, Failed>,
    S: Fn(Global, &mut Cursor<'_>, usize, Form, bool, bool) -> Result<Stmt, Failed>,
> Level<E, M, S> {
    /// Parses the rest of a `return` statement, which a line end ends.
    #[tactic(auto, unfolding(js_reference_parser::specs::StatementsModel::return_statement))]
    pub fn return_statement(&self, tokens: &mut Cursor<'_>) -> Result<Stmt, Failed>
        requires { ⟦<Self as Nests>⟧.nests self.now }
        ensures { Reads (spec.return_statement CHAIN_LIMIT self.now.left (spec.within CHAIN_LIMIT self.now.left) tokens.old) result tokens.new }
    {
        if tokens.ends_line() {
            return Ok(Stmt::Return(None));
        }
        if let Some(_) = tokens.eat(Symbol::Semicolon) {
            return Ok(Stmt::Return(None));
        }
        let value = self.assign(tokens, true)?;
        tokens.ends()?;
        Ok(Stmt::Return(Some(value.into_inner())))
    }

    /// Parses the rest of a `throw` statement, whose value begins on the same line.
    #[tactic(auto, unfolding(js_reference_parser::specs::StatementsModel::throw))]
    pub fn throw(&self, tokens: &mut Cursor<'_>) -> Result<Stmt, Failed>
        requires { ⟦<Self as Nests>⟧.nests self.now }
        ensures { Reads (spec.throw CHAIN_LIMIT self.now.left (spec.within CHAIN_LIMIT self.now.left) tokens.old) result tokens.new }
    {
        let is_over = tokens.ends_line();
        if is_over {
            return Err(Failed::Fault(ParseKind::Unexpected));
        }
        let value = self.assign(tokens, true)?;
        tokens.ends()?;
        Ok(Stmt::Throw(value.into_inner()))
    }
}
