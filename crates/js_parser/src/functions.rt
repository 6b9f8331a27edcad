//! Functions and their bodies.
ghost use Rattle.js_syntax.specs.declared.limits.TheConstants.{CHAIN_LIMIT};
ghost use Rattle.js_cursor.specs.Reads.{Reads};
ghost use Rattle.js_reference_parser.specs.ExpressionsModel as ex;
ghost use Rattle.js_reference_parser.specs.StatementsModel as spec;

use crate::level::{Form, Level, Nests, Part};
use base_text::Text;
use js_cursor::{Cursor, Failed, Set, parameters};
use js_syntax::{Expr, Function, Property, Stmt, Symbol};
use sqlite_items::{Boxed, Items};
use std::alloc::Global;

impl<
    E: Fn(Global, &mut Cursor<'_>, usize, Part) -> Result<Boxed<Expr>, Failed>,
    M: Fn(Global, &mut Cursor<'_>, usize) -> Result<Property, Failed>,
    S: Fn(Global, &mut Cursor<'_>, usize, Form, bool, bool) -> Result<Stmt, Failed>,
> Level<E, M, S> {
    /// The body of a function.
    #[tactic(auto, unfolding(js_reference_parser::specs::ExpressionsModel::body))]
    pub fn body(&self, tokens: &mut Cursor<'_>) -> Result<Items<Stmt>, Failed>
        requires { ⟦<Self as Nests>⟧.nests self.now }
        ensures { Reads (ex.body (spec.within CHAIN_LIMIT self.now.left) tokens.old) result tokens.new }
    {
        tokens.expect(Symbol::OpenBrace)?;
        let all = self.statements(tokens, true, false)?;
        tokens.expect(Symbol::CloseBrace)?;
        Ok(all)
    }

    /// A function from its parameters on.
    #[tactic(auto, unfolding(js_reference_parser::specs::ExpressionsModel::lambda))]
    pub fn lambda(&self, tokens: &mut Cursor<'_>, name: Option<Text>) -> Result<Function, Failed>
        requires { ⟦<Self as Nests>⟧.nests self.now }
        ensures { Reads (ex.lambda (spec.within CHAIN_LIMIT self.now.left) name tokens.old) result tokens.new }
    {
        tokens.expect(Symbol::OpenParen)?;
        let params = parameters(self.alloc, tokens)?;
        let body = self.body(tokens)?;
        Ok(Function { name, params, body })
    }

    /// A function from its name on, which may be left out.
    #[tactic(auto, unfolding(js_reference_parser::specs::ExpressionsModel::named))]
    pub fn named(&self, tokens: &mut Cursor<'_>) -> Result<Function, Failed>
        requires { ⟦<Self as Nests>⟧.nests self.now }
        ensures { Reads (ex.named (spec.within CHAIN_LIMIT self.now.left) tokens.old) result tokens.new }
    {
        match tokens.eat_any(Set::Names) {
            Some(token) => {
                let name = token.text.share()?;
                self.lambda(tokens, Some(name))
            }
            None => self.lambda(tokens, None),
        }
    }
}
