//! Declarations of variables and functions (ECMAScript, 14.3 and 15.2).
ghost use Rattle.js_syntax.specs.declared.limits.TheConstants.{CHAIN_LIMIT};
ghost use Rattle.js_cursor.specs.Reads.{Reads};
ghost use Rattle.js_reference_parser.specs.StatementsModel as spec;
ghost use Rattle.js_combinators.specs.Readers.{repeat};
ghost use Rattle.js_reference_parser.specs.ExpressionsModel.{not_comma, next_item};

use crate::level::{Form, Level, Nests, Part};
use js_cursor::{Cursor, Failed, name};
use js_syntax::{Declaration, Expr, Property, Shared, Stmt, Symbol};
use sqlite_items::{Boxed, Items};
use std::alloc::Global;

impl<
    E: Fn(Global, &mut Cursor<'_>, usize, Part) -> Result<Boxed<Expr>, Failed>,
    M: Fn(Global, &mut Cursor<'_>, usize) -> Result<Property, Failed>,
    S: Fn(Global, &mut Cursor<'_>, usize, Form, bool, bool) -> Result<Stmt, Failed>,
> Level<E, M, S> {
    /// A name, and the value that it begins with.
    #[tactic(auto, unfolding(js_reference_parser::specs::StatementsModel::declared))]
    pub fn declared(&self, tokens: &mut Cursor<'_>, in_allowed: bool) -> Result<Declaration, Failed>
        requires { ⟦<Self as Nests>⟧.nests self.now }
        ensures { Reads (spec.declared CHAIN_LIMIT self.now.left (spec.within CHAIN_LIMIT self.now.left) in_allowed tokens.old) result tokens.new }
    {
        let name = name(tokens)?;
        if let Some(_) = tokens.eat(Symbol::Assign) {
            let value = self.assign(tokens, in_allowed)?;
            let value = Some(value.into_inner());
            return Ok(Declaration { name, value });
        }
        Ok(Declaration { name, value: None })
    }

    /// The declarations after the first, each after a comma.
    #[tactic(auto, unfolding(js_combinators::specs::Readers::repeat, js_combinators::specs::Readers::rounds))]
    pub fn more_declared(
        &self,
        tokens: &mut Cursor<'_>,
        in_allowed: bool,
        mut found: Items<Declaration>,
    ) -> Result<Items<Declaration>, Failed>
        requires { ⟦<Self as Nests>⟧.nests self.now }
        ensures { Reads (repeat not_comma
            (next_item (spec.declared CHAIN_LIMIT self.now.left (spec.within CHAIN_LIMIT self.now.left) in_allowed)) found tokens.old) result tokens.new }
    {
        for _turn in 0..tokens.left() {
            if let Some(_) = tokens.eat(Symbol::Comma) {
                let item = self.declared(tokens, in_allowed)?;
                found.push(item)?;
            } else {
                return Ok(found);
            }
        }
        Ok(found)
    }

    /// Parses the rest of a `var` statement; the keyword is already consumed.
    #[tactic(auto, unfolding(js_reference_parser::specs::StatementsModel::variables, js_reference_parser::specs::ExpressionsModel::separated))]
    pub fn variables(&self, tokens: &mut Cursor<'_>) -> Result<Stmt, Failed>
        requires { ⟦<Self as Nests>⟧.nests self.now }
        ensures { Reads (spec.variables CHAIN_LIMIT self.now.left (spec.within CHAIN_LIMIT self.now.left) tokens.old) result tokens.new }
    {
        let first = self.declared(tokens, true)?;
        let mut found = Items::new(self.alloc);
        found.push(first)?;
        let all = self.more_declared(tokens, true, found)?;
        tokens.ends()?;
        Ok(Stmt::Var(all))
    }

    /// Parses the rest of a function declaration; the keyword is already consumed.
    #[tactic(auto, unfolding(js_reference_parser::specs::StatementsModel::function_declared))]
    pub fn function_declared(&self, tokens: &mut Cursor<'_>) -> Result<Stmt, Failed>
        requires { ⟦<Self as Nests>⟧.nests self.now }
        ensures { Reads (spec.function_declared (spec.within CHAIN_LIMIT self.now.left) tokens.old) result tokens.new }
    {
        let name = name(tokens)?;
        let function = self.lambda(tokens, Some(name))?;
        Ok(Stmt::Function(Shared::new(self.alloc, function)?))
    }
}
