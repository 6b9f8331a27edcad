//! Statements one after another, and blocks (ECMAScript, 14.2).
ghost use Rattle.js_syntax.specs.declared.limits.TheConstants.{CHAIN_LIMIT};
ghost use Rattle.js_cursor.specs.Reads.{Reads};
ghost use Rattle.js_reference_parser.specs.StatementsModel as spec;
ghost use Rattle.js_syntax.specs.Words.{closes_body};
ghost use Rattle.js_reference_parser.specs.ExpressionsModel.{each};

use crate::level::{Form, Level, Nests, Part};
use js_cursor::{Cursor, Failed};
use js_syntax::{Expr, Property, Stmt, Symbol};
use sqlite_items::{Boxed, Items};
use std::alloc::Global;

impl<
    E: Fn(Global, &mut Cursor<'_>, usize, Part) -> Result<Boxed<Expr>, Failed>,
    M: Fn(Global, &mut Cursor<'_>, usize) -> Result<Property, Failed>,
    S: Fn(Global, &mut Cursor<'_>, usize, Form, bool, bool) -> Result<Stmt, Failed>,
> Level<E, M, S> {
    /// The statements one level deeper, up to a token that closes them.
    #[tactic(auto, unfolding(js_reference_parser::specs::ExpressionsModel::each, js_combinators::specs::Readers::repeat, js_combinators::specs::Readers::rounds))]
    pub fn statements(
        &self,
        tokens: &mut Cursor<'_>,
        in_function: bool,
        in_loop: bool,
    ) -> Result<Items<Stmt>, Failed>
        requires { ⟦<Self as Nests>⟧.nests self.now }
        ensures { Reads (each closes_body ((spec.within CHAIN_LIMIT self.now.left).stmt in_function in_loop) tokens.old) result tokens.new }
    {
        let mut found = Items::new(self.alloc);
        for _turn in 0..tokens.left() {
            if tokens.closes_body() {
                return Ok(found);
            }
            let item = self.stmt(tokens, in_function, in_loop)?;
            found.push(item)?;
        }
        Ok(found)
    }

    /// A block behind its first brace.
    #[tactic(auto, unfolding(js_reference_parser::specs::StatementsModel::block_rest))]
    pub fn block_rest(
        &self,
        tokens: &mut Cursor<'_>,
        in_function: bool,
        in_loop: bool,
    ) -> Result<Stmt, Failed>
        requires { ⟦<Self as Nests>⟧.nests self.now }
        ensures { Reads (spec.block_rest (spec.within CHAIN_LIMIT self.now.left) in_function in_loop tokens.old) result tokens.new }
    {
        let body = self.statements(tokens, in_function, in_loop)?;
        tokens.expect(Symbol::CloseBrace)?;
        Ok(Stmt::Block(body))
    }

    /// A block of this level.
    #[tactic(auto, unfolding(js_reference_parser::specs::StatementsModel::block))]
    pub fn block(
        &self,
        tokens: &mut Cursor<'_>,
        in_function: bool,
        in_loop: bool,
    ) -> Result<Stmt, Failed>
        requires { ⟦<Self as Nests>⟧.nests self.now }
        ensures { Reads (spec.block (spec.within CHAIN_LIMIT self.now.left) in_function in_loop tokens.old) result tokens.new }
    {
        tokens.expect(Symbol::OpenBrace)?;
        self.block_rest(tokens, in_function, in_loop)
    }
}
