//! Members of object literals.
ghost use Rattle.js_syntax.specs.declared.limits.TheConstants.{CHAIN_LIMIT};
ghost use Rattle.js_cursor.specs.Reads.{Reads};
ghost use Rattle.js_reference_parser.specs.ExpressionsModel as ex;
ghost use Rattle.js_parser.specs.ExpressionPartsModel as model;
ghost use Rattle.js_reference_parser.specs.StatementsModel as spec;

use crate::level::{Form, Level, Nests, Part};
use js_cursor::{Cursor, Failed, Set, name};
use js_syntax::{Expr, Function, ParseKind, Property, Shared, Stmt, Symbol, Token};
use sqlite_items::{Boxed, Items};
use std::alloc::Global;

impl<
    E: Fn(Global, &mut Cursor<'_>, usize, Part) -> Result<Boxed<Expr>, Failed>,
    M: Fn(Global, &mut Cursor<'_>, usize) -> Result<Property, Failed>,
    S: Fn(Global, &mut Cursor<'_>, usize, Form, bool, bool) -> Result<Stmt, Failed>,
> Level<E, M, S> {
    #[tactic(auto, unfolding(js_reference_parser::specs::ExpressionsModel::valued))]
    fn valued(&self, tokens: &mut Cursor<'_>, key: &Token) -> Result<Property, Failed>
        requires { ⟦<Self as Nests>⟧.nests self.now }
        ensures { Reads (ex.valued CHAIN_LIMIT self.now.left (spec.within CHAIN_LIMIT self.now.left) key.now.text tokens.old) result tokens.new }
    {
        let value = self.assign(tokens, true)?;
        let key = key.text.share()?;
        Ok(Property::Value(key, value.into_inner()))
    }

    #[tactic(auto, unfolding(js_reference_parser::specs::ExpressionsModel::getter))]
    fn getter(&self, tokens: &mut Cursor<'_>, key: &Token) -> Result<Property, Failed>
        requires { ⟦<Self as Nests>⟧.nests self.now }
        ensures { Reads (ex.getter (spec.within CHAIN_LIMIT self.now.left) key.now.text tokens.old) result tokens.new }
    {
        tokens.expect(Symbol::OpenParen)?;
        tokens.expect(Symbol::CloseParen)?;
        let body = self.body(tokens)?;
        let key = key.text.share()?;
        let params = Items::new(self.alloc);
        let function = Function {
            name: None,
            params,
            body,
        };
        Ok(Property::Get(key, Shared::new(self.alloc, function)?))
    }

    #[tactic(auto, unfolding(js_reference_parser::specs::ExpressionsModel::setter))]
    fn setter(&self, tokens: &mut Cursor<'_>, key: &Token) -> Result<Property, Failed>
        requires { ⟦<Self as Nests>⟧.nests self.now }
        ensures { Reads (ex.setter (spec.within CHAIN_LIMIT self.now.left) key.now.text tokens.old) result tokens.new }
    {
        tokens.expect(Symbol::OpenParen)?;
        let param = name(tokens)?;
        tokens.expect(Symbol::CloseParen)?;
        let body = self.body(tokens)?;
        let key = key.text.share()?;
        let mut params = Items::new(self.alloc);
        params.push(param)?;
        let function = Function {
            name: None,
            params,
            body,
        };
        Ok(Property::Set(key, Shared::new(self.alloc, function)?))
    }

    /// What stands behind a `get`, which is a key where a colon follows.
    #[tactic(auto, using(js_reference_parser::proofs::Begun::taken, js_reference_parser::proofs::Begun::passed, js_reference_parser::proofs::Begun::refused))]
    fn after_get(&self, tokens: &mut Cursor<'_>, word: &Token) -> Result<Property, Failed>
        requires { ⟦<Self as Nests>⟧.nests self.now }
        ensures { Reads (ex.after_get CHAIN_LIMIT self.now.left (spec.within CHAIN_LIMIT self.now.left) word.now.text tokens.old) result tokens.new }
    {
        if let Some(_) = tokens.eat(Symbol::Colon) {
            return self.valued(tokens, word);
        }
        if let Some(key) = tokens.begin_any(self.left, Set::Keys)? {
            return self.getter(tokens, key);
        }
        Err(Failed::Fault(ParseKind::Unexpected))
    }

    /// What stands behind a `set`, which is a key where a colon follows.
    #[tactic(auto, using(js_reference_parser::proofs::Begun::taken, js_reference_parser::proofs::Begun::passed, js_reference_parser::proofs::Begun::refused))]
    fn after_set(&self, tokens: &mut Cursor<'_>, word: &Token) -> Result<Property, Failed>
        requires { ⟦<Self as Nests>⟧.nests self.now }
        ensures { Reads (ex.after_set CHAIN_LIMIT self.now.left (spec.within CHAIN_LIMIT self.now.left) word.now.text tokens.old) result tokens.new }
    {
        if let Some(_) = tokens.eat(Symbol::Colon) {
            return self.valued(tokens, word);
        }
        if let Some(key) = tokens.begin_any(self.left, Set::Keys)? {
            return self.setter(tokens, key);
        }
        Err(Failed::Fault(ParseKind::Unexpected))
    }

    fn keyed(&self, tokens: &mut Cursor<'_>, key: &Token) -> Result<Property, Failed>
        requires { ⟦<Self as Nests>⟧.nests self.now }
        ensures { Reads (model.keyed CHAIN_LIMIT self.now.left (spec.within CHAIN_LIMIT self.now.left) key.now.text tokens.old) result tokens.new }
    {
        tokens.expect(Symbol::Colon)?;
        self.valued(tokens, key)
    }

    /// A member of an object literal.
    #[tactic(auto, unfolding(js_reference_parser::specs::ExpressionsModel::member))]
    pub fn member(&self, tokens: &mut Cursor<'_>) -> Result<Property, Failed>
        requires { ⟦<Self as Nests>⟧.nests self.now }
        ensures { Reads (ex.member CHAIN_LIMIT self.now.left (spec.within CHAIN_LIMIT self.now.left) tokens.old) result tokens.new }
    {
        if let Some(word) = tokens.eat(Symbol::Get) {
            return self.after_get(tokens, word);
        }
        if let Some(word) = tokens.eat(Symbol::Set) {
            return self.after_set(tokens, word);
        }
        if let Some(key) = tokens.eat_any(Set::PlainKeys) {
            return self.keyed(tokens, key);
        }
        Err(Failed::Fault(ParseKind::Unexpected))
    }
}
