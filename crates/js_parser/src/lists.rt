//! Lists of arguments, elements and members, whose parts are one level deeper (ECMAScript, 13.2.4, 13.2.5, 13.3.8).
ghost use Rattle.js_syntax.specs.declared.limits.TheConstants.{CHAIN_LIMIT};
ghost use Rattle.std.specs.Prelude.{true};
ghost use Rattle.js_syntax.specs.Symbols.{is};
ghost use Rattle.js_combinators.specs.Readers.{repeat};
ghost use Rattle.js_cursor.specs.Reads.{Reads};
ghost use Rattle.js_reference_parser.specs.ExpressionsModel as ex;
ghost use Rattle.js_reference_parser.specs.StatementsModel as spec;

use crate::level::{Form, Level, Nests, Part};
use js_cursor::{Cursor, Failed};
use js_syntax::{Expr, Property, Stmt, Symbol};
use sqlite_items::{Boxed, Items};
use std::alloc::Global;

impl<
    E: Fn(Global, &mut Cursor<'_>, usize, Part) -> Result<Boxed<Expr>, Failed>,
    M: Fn(Global, &mut Cursor<'_>, usize) -> Result<Property, Failed>,
    S: Fn(Global, &mut Cursor<'_>, usize, Form, bool, bool) -> Result<Stmt, Failed>,
> Level<E, M, S> {
    #[tactic(auto, unfolding(js_combinators::specs::Readers::repeat, js_combinators::specs::Readers::rounds))]
    fn more_exprs(
        &self,
        tokens: &mut Cursor<'_>,
        mut found: Items<Expr>,
    ) -> Result<Items<Expr>, Failed>
        requires { ⟦<Self as Nests>⟧.nests self.now }
        ensures { Reads (repeat ex.not_comma (ex.next_item ((spec.within CHAIN_LIMIT self.now.left).expr true)) found tokens.old) result tokens.new }
    {
        for _turn in 0..tokens.left() {
            if let Some(_) = tokens.eat(Symbol::Comma) {
                let item = self.expr(tokens, true)?;
                found.push(item.into_inner())?;
            } else {
                return Ok(found);
            }
        }
        Ok(found)
    }

    /// Expressions with commas between.
    #[tactic(auto, unfolding(js_reference_parser::specs::ExpressionsModel::separated))]
    pub fn exprs(&self, tokens: &mut Cursor<'_>) -> Result<Items<Expr>, Failed>
        requires { ⟦<Self as Nests>⟧.nests self.now }
        ensures { Reads (ex.separated ((spec.within CHAIN_LIMIT self.now.left).expr true) tokens.old) result tokens.new }
    {
        let first = self.expr(tokens, true)?;
        let mut found = Items::new(self.alloc);
        found.push(first.into_inner())?;
        self.more_exprs(tokens, found)
    }

    #[tactic(auto, unfolding(js_reference_parser::specs::ExpressionsModel::each, js_reference_parser::specs::ExpressionsModel::entry, js_combinators::specs::Readers::repeat, js_combinators::specs::Readers::rounds))]
    fn each_element(&self, tokens: &mut Cursor<'_>) -> Result<Items<Expr>, Failed>
        requires { ⟦<Self as Nests>⟧.nests self.now }
        ensures { Reads (ex.each (is Symbol.CloseBracket) (ex.entry Symbol.CloseBracket ((spec.within CHAIN_LIMIT self.now.left).expr true)) tokens.old)
            result tokens.new }
    {
        let mut found = Items::new(self.alloc);
        for _turn in 0..tokens.left() {
            if tokens.stops(Symbol::CloseBracket) {
                return Ok(found);
            }
            let item = self.expr(tokens, true)?;
            found.push(item.into_inner())?;
            tokens.part(Symbol::CloseBracket)?;
        }
        Ok(found)
    }

    /// The elements of an array, and the bracket behind them.
    #[tactic(auto, unfolding(js_reference_parser::specs::ExpressionsModel::listed))]
    pub fn elements(&self, tokens: &mut Cursor<'_>) -> Result<Items<Expr>, Failed>
        requires { ⟦<Self as Nests>⟧.nests self.now }
        ensures { Reads (ex.listed Symbol.CloseBracket ((spec.within CHAIN_LIMIT self.now.left).expr true) tokens.old) result tokens.new }
    {
        let found = self.each_element(tokens)?;
        tokens.expect(Symbol::CloseBracket)?;
        Ok(found)
    }

    #[tactic(auto, unfolding(js_reference_parser::specs::ExpressionsModel::each, js_reference_parser::specs::ExpressionsModel::entry, js_combinators::specs::Readers::repeat, js_combinators::specs::Readers::rounds))]
    fn each_member(&self, tokens: &mut Cursor<'_>) -> Result<Items<Property>, Failed>
        requires { ⟦<Self as Nests>⟧.nests self.now }
        ensures { Reads (ex.each (is Symbol.CloseBrace) (ex.entry Symbol.CloseBrace (spec.within CHAIN_LIMIT self.now.left).member) tokens.old)
            result tokens.new }
    {
        let mut found = Items::new(self.alloc);
        for _turn in 0..tokens.left() {
            if tokens.stops(Symbol::CloseBrace) {
                return Ok(found);
            }
            let item = self.member_below(tokens)?;
            found.push(item)?;
            tokens.part(Symbol::CloseBrace)?;
        }
        Ok(found)
    }

    /// The members of an object literal, and the brace behind them.
    #[tactic(auto, unfolding(js_reference_parser::specs::ExpressionsModel::listed))]
    pub fn members(&self, tokens: &mut Cursor<'_>) -> Result<Items<Property>, Failed>
        requires { ⟦<Self as Nests>⟧.nests self.now }
        ensures { Reads (ex.listed Symbol.CloseBrace (spec.within CHAIN_LIMIT self.now.left).member tokens.old) result tokens.new }
    {
        let found = self.each_member(tokens)?;
        tokens.expect(Symbol::CloseBrace)?;
        Ok(found)
    }
}
