//! `if` and `while` (ECMAScript, 14.6 and 14.7.3).
ghost use Rattle.js_syntax.specs.declared.limits.TheConstants.{CHAIN_LIMIT};
ghost use Rattle.js_cursor.specs.Reads.{Reads};
ghost use Rattle.js_reference_parser.specs.StatementsModel as spec;

use crate::level::{Form, Level, Nests, Part};
use js_cursor::{Cursor, Failed};
use js_syntax::{Expr, Property, Stmt, Symbol};
use sqlite_items::Boxed;
use std::alloc::Global;

impl<
    E: Fn(Global, &mut Cursor<'_>, usize, Part) -> Result<Boxed<Expr>, Failed>,
    M: Fn(Global, &mut Cursor<'_>, usize) -> Result<Property, Failed>,
    S: Fn(Global, &mut Cursor<'_>, usize, Form, bool, bool) -> Result<Stmt, Failed>,
> Level<E, M, S> {
    /// An expression in brackets.
    #[tactic(auto, unfolding(js_reference_parser::specs::StatementsModel::condition))]
    pub fn condition(&self, tokens: &mut Cursor<'_>) -> Result<Boxed<Expr>, Failed>
        requires { ⟦<Self as Nests>⟧.nests self.now }
        ensures { Reads (spec.condition CHAIN_LIMIT self.now.left (spec.within CHAIN_LIMIT self.now.left) tokens.old) result tokens.new }
    {
        tokens.expect(Symbol::OpenParen)?;
        let value = self.assign(tokens, true)?;
        tokens.expect(Symbol::CloseParen)?;
        Ok(value)
    }

    /// The `else` of the nearest `if`, where it has one.
    #[tactic(auto, unfolding(js_reference_parser::specs::StatementsModel::else_clause))]
    pub fn else_clause(
        &self,
        tokens: &mut Cursor<'_>,
        in_function: bool,
        in_loop: bool,
    ) -> Result<Option<Boxed<Stmt>>, Failed>
        requires { ⟦<Self as Nests>⟧.nests self.now }
        ensures { Reads (spec.else_clause (spec.within CHAIN_LIMIT self.now.left) in_function in_loop tokens.old) result tokens.new }
    {
        if let Some(_) = tokens.eat(Symbol::Else) {
            let statement = self.stmt(tokens, in_function, in_loop)?;
            return Ok(Some(Boxed::new(self.alloc, statement)?));
        }
        Ok(None)
    }

    /// Parses the rest of an `if` statement; the keyword is already consumed.
    #[tactic(auto, unfolding(js_reference_parser::specs::StatementsModel::if_statement))]
    pub fn if_statement(
        &self,
        tokens: &mut Cursor<'_>,
        in_function: bool,
        in_loop: bool,
    ) -> Result<Stmt, Failed>
        requires { ⟦<Self as Nests>⟧.nests self.now }
        ensures { Reads (spec.if_statement CHAIN_LIMIT self.now.left (spec.within CHAIN_LIMIT self.now.left) in_function in_loop tokens.old) result tokens.new }
    {
        let test = self.condition(tokens)?;
        let then = self.stmt(tokens, in_function, in_loop)?;
        let then = Boxed::new(self.alloc, then)?;
        let other = self.else_clause(tokens, in_function, in_loop)?;
        Ok(Stmt::If(test.into_inner(), then, other))
    }

    /// Parses the rest of a `while` statement; the keyword is already consumed.
    #[tactic(auto, unfolding(js_reference_parser::specs::StatementsModel::while_statement))]
    pub fn while_statement(
        &self,
        tokens: &mut Cursor<'_>,
        in_function: bool,
    ) -> Result<Stmt, Failed>
        requires { ⟦<Self as Nests>⟧.nests self.now }
        ensures { Reads (spec.while_statement CHAIN_LIMIT self.now.left (spec.within CHAIN_LIMIT self.now.left) in_function tokens.old) result tokens.new }
    {
        let test = self.condition(tokens)?;
        let body = self.stmt(tokens, in_function, true)?;
        let body = Boxed::new(self.alloc, body)?;
        Ok(Stmt::While(test.into_inner(), body))
    }
}
