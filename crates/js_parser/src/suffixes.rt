//! Primary expressions, member access and calls (ECMAScript, 13.2, 13.3).
ghost use Rattle.js_syntax.specs.declared.limits.TheConstants.{CHAIN_LIMIT};
ghost use Rattle.std.specs.Prelude.{true};
ghost use Rattle.js_syntax.specs.Symbols.{is, among};
ghost use Rattle.js_combinators.specs.Readers.{chain};
ghost use Rattle.js_cursor.specs.Reads.{Reads};
ghost use Rattle.js_cursor.specs.Sets.{symbols_of};
ghost use Rattle.js_reference_parser.specs.ExpressionsModel as ex;
ghost use Rattle.js_parser.specs.ExpressionPartsModel as model;
ghost use Rattle.js_reference_parser.specs.StatementsModel as spec;

use crate::level::{Form, Level, Nests, Part, refuse_part};
use js_cursor::{Cursor, Failed, Set, is, make, member_of};
use js_syntax::{CHAIN_LIMIT, Expr, ParseKind, Property, Shared, Stmt, Symbol, Token};
use sqlite_items::{Boxed, Items};
use std::alloc::Global;

impl<
    E: Fn(Global, &mut Cursor<'_>, usize, Part) -> Result<Boxed<Expr>, Failed>,
    M: Fn(Global, &mut Cursor<'_>, usize) -> Result<Property, Failed>,
    S: Fn(Global, &mut Cursor<'_>, usize, Form, bool, bool) -> Result<Stmt, Failed>,
> Level<E, M, S> {
    fn closed_exprs(&self, tokens: &mut Cursor<'_>) -> Result<Items<Expr>, Failed>
        requires { ⟦<Self as Nests>⟧.nests self.now }
        ensures { Reads (model.some_arguments (spec.within CHAIN_LIMIT self.now.left) tokens.old) result tokens.new }
    {
        let all = self.exprs(tokens)?;
        tokens.expect(Symbol::CloseParen)?;
        Ok(all)
    }

    /// The arguments of a call, and the bracket behind them.
    #[tactic(auto, unfolding(js_reference_parser::specs::ExpressionsModel::arguments, js_combinators::specs::Readers::above))]
    pub fn arguments(&self, tokens: &mut Cursor<'_>) -> Result<Items<Expr>, Failed>
        requires { ⟦<Self as Nests>⟧.nests self.now }
        ensures { Reads (ex.arguments self.now.left (spec.within CHAIN_LIMIT self.now.left) tokens.old) result tokens.new }
    {
        if let Some(_) = tokens.eat(Symbol::CloseParen) {
            return Ok(Items::new(self.alloc));
        }
        if self.left == 0 {
            return Err(refuse_part(tokens.sees_any(Set::ExprFirsts)));
        }
        self.closed_exprs(tokens)
    }

    /// An expression one level deeper, and a token that closes it.
    pub fn closed(&self, tokens: &mut Cursor<'_>, close: Symbol) -> Result<Boxed<Expr>, Failed>
        requires { ⟦<Self as Nests>⟧.nests self.now }
        ensures { Reads (ex.closed close ((spec.within CHAIN_LIMIT self.now.left).expr true) tokens.old) result tokens.new }
    {
        let inner = self.expr(tokens, true)?;
        tokens.expect(close)?;
        Ok(inner)
    }

    fn array(&self, tokens: &mut Cursor<'_>) -> Result<Boxed<Expr>, Failed>
        requires { ⟦<Self as Nests>⟧.nests self.now }
        ensures { Reads (model.array_of (spec.within CHAIN_LIMIT self.now.left) tokens.old) result tokens.new }
    {
        let all = self.elements(tokens)?;
        Ok(Boxed::new(self.alloc, Expr::Array(all))?)
    }

    fn object(&self, tokens: &mut Cursor<'_>) -> Result<Boxed<Expr>, Failed>
        requires { ⟦<Self as Nests>⟧.nests self.now }
        ensures { Reads (model.object_of (spec.within CHAIN_LIMIT self.now.left) tokens.old) result tokens.new }
    {
        let all = self.members(tokens)?;
        Ok(Boxed::new(self.alloc, Expr::Object(all))?)
    }

    fn function(&self, tokens: &mut Cursor<'_>) -> Result<Boxed<Expr>, Failed>
        requires { ⟦<Self as Nests>⟧.nests self.now }
        ensures { Reads (model.function_of (spec.within CHAIN_LIMIT self.now.left) tokens.old) result tokens.new }
    {
        let function = self.named(tokens)?;
        let function = Shared::new(self.alloc, function)?;
        Ok(Boxed::new(self.alloc, Expr::Function(function))?)
    }

    /// An array, an object or a function.
    #[tactic(auto, using(js_reference_parser::proofs::Begun::taken, js_reference_parser::proofs::Begun::passed, js_reference_parser::proofs::Begun::refused))]
    fn literal(&self, tokens: &mut Cursor<'_>) -> Result<Boxed<Expr>, Failed>
        requires { ⟦<Self as Nests>⟧.nests self.now }
        ensures { Reads (model.literal self.now.left (spec.within CHAIN_LIMIT self.now.left) tokens.old) result tokens.new }
    {
        if let Some(_) = tokens.eat(Symbol::OpenBracket) {
            return self.array(tokens);
        }
        if let Some(_) = tokens.eat(Symbol::OpenBrace) {
            return self.object(tokens);
        }
        if let Some(_) = tokens.begin(self.left, Symbol::Function)? {
            return self.function(tokens);
        }
        Err(Failed::Fault(ParseKind::Unexpected))
    }

    /// An expression that is none of smaller ones with an operator or a suffix.
    #[tactic(auto, unfolding(js_reference_parser::specs::ExpressionsModel::primary), using(js_reference_parser::proofs::Begun::taken, js_reference_parser::proofs::Begun::passed, js_reference_parser::proofs::Begun::refused))]
    pub fn primary(&self, tokens: &mut Cursor<'_>) -> Result<Boxed<Expr>, Failed>
        requires { ⟦<Self as Nests>⟧.nests self.now }
        ensures { Reads (ex.primary self.now.left (spec.within CHAIN_LIMIT self.now.left) tokens.old) result tokens.new }
    {
        if let Some(token) = tokens.eat_any(Set::Leaves) {
            return Ok(Boxed::new(self.alloc, make::leaf(token)?)?);
        }
        if let Some(_) = tokens.begin(self.left, Symbol::OpenParen)? {
            return self.closed(tokens, Symbol::CloseParen);
        }
        self.literal(tokens)
    }

    #[tactic(auto, unfolding(js_reference_parser::specs::ExpressionsModel::new))]
    fn new(&self, tokens: &mut Cursor<'_>) -> Result<Boxed<Expr>, Failed>
        requires { ⟦<Self as Nests>⟧.nests self.now }
        ensures { Reads (ex.new self.now.left (spec.within CHAIN_LIMIT self.now.left) tokens.old) result tokens.new }
    {
        let callee = self.callee_below(tokens)?;
        let given = match tokens.eat(Symbol::OpenParen) {
            Some(_) => self.arguments(tokens)?,
            None => Items::new(self.alloc),
        };
        Ok(Boxed::new(self.alloc, Expr::New(callee, given))?)
    }

    /// What suffixes follow.
    #[tactic(auto, unfolding(js_reference_parser::specs::ExpressionsModel::base), using(js_reference_parser::proofs::Begun::taken, js_reference_parser::proofs::Begun::passed, js_reference_parser::proofs::Begun::refused))]
    fn base(&self, tokens: &mut Cursor<'_>) -> Result<Boxed<Expr>, Failed>
        requires { ⟦<Self as Nests>⟧.nests self.now }
        ensures { Reads (ex.base self.now.left (spec.within CHAIN_LIMIT self.now.left) tokens.old) result tokens.new }
    {
        if let Some(_) = tokens.begin(self.left, Symbol::New)? {
            return self.new(tokens);
        }
        self.primary(tokens)
    }

    #[tactic(auto, unfolding(js_reference_parser::specs::ExpressionsModel::index_of))]
    fn index_of(&self, tokens: &mut Cursor<'_>, object: Boxed<Expr>) -> Result<Boxed<Expr>, Failed>
        requires { ⟦<Self as Nests>⟧.nests self.now }
        ensures { Reads (ex.index_of (spec.within CHAIN_LIMIT self.now.left) object tokens.old) result tokens.new }
    {
        let place = self.closed(tokens, Symbol::CloseBracket)?;
        Ok(Boxed::new(self.alloc, Expr::Index(object, place))?)
    }

    #[tactic(auto, unfolding(js_reference_parser::specs::ExpressionsModel::call_of))]
    fn call_of(&self, tokens: &mut Cursor<'_>, callee: Boxed<Expr>) -> Result<Boxed<Expr>, Failed>
        requires { ⟦<Self as Nests>⟧.nests self.now }
        ensures { Reads (ex.call_of self.now.left (spec.within CHAIN_LIMIT self.now.left) callee tokens.old) result tokens.new }
    {
        let given = self.arguments(tokens)?;
        Ok(Boxed::new(self.alloc, Expr::Call(callee, given))?)
    }

    /// The suffix that begins with this token.
    #[tactic(auto, unfolding(js_reference_parser::specs::ExpressionsModel::suffix))]
    pub fn suffix(
        &self,
        tokens: &mut Cursor<'_>,
        object: Boxed<Expr>,
        token: &Token,
    ) -> Result<Boxed<Expr>, Failed>
        requires { ⟦<Self as Nests>⟧.nests self.now }
        ensures { Reads (ex.suffix self.now.left (spec.within CHAIN_LIMIT self.now.left) object token.now tokens.old) result tokens.new }
    {
        let symbol = token.symbol();
        if is(symbol, Symbol::Dot) {
            return member_of(self.alloc, tokens, object);
        }
        if is(symbol, Symbol::OpenBracket) {
            return self.index_of(tokens, object);
        }
        self.call_of(tokens, object)
    }

    /// The suffixes that begin with one of these.
    #[tactic(auto, unfolding(js_combinators::specs::Readers::chain))]
    pub fn chain(
        &self,
        tokens: &mut Cursor<'_>,
        of: Set,
        mut found: Boxed<Expr>,
    ) -> Result<Boxed<Expr>, Failed>
        requires { ⟦<Self as Nests>⟧.nests self.now }
        ensures { Reads (chain CHAIN_LIMIT (ex.denied self.now.left) (among (symbols_of of))
            (ex.suffix self.now.left (spec.within CHAIN_LIMIT self.now.left)) found tokens.old) result tokens.new }
    {
        for _link in 0..CHAIN_LIMIT {
            tokens.undenied(self.left)?;
            if let Some(token) = tokens.eat_any(of) {
                found = self.suffix(tokens, found, token)?;
            } else {
                return Ok(found);
            }
        }
        if tokens.sees_any(of) {
            return Err(Failed::Fault(ParseKind::TooDeep));
        }
        Ok(found)
    }

    /// An expression with its members, elements and calls.
    #[tactic(auto, unfolding(js_reference_parser::specs::ExpressionsModel::suffixed))]
    pub fn suffixed(&self, tokens: &mut Cursor<'_>) -> Result<Boxed<Expr>, Failed>
        requires { ⟦<Self as Nests>⟧.nests self.now }
        ensures { Reads (ex.suffixed CHAIN_LIMIT self.now.left (spec.within CHAIN_LIMIT self.now.left) tokens.old) result tokens.new }
    {
        let first = self.base(tokens)?;
        self.chain(tokens, Set::Suffixes, first)
    }

    /// What a `new` is applied to.
    #[tactic(auto, unfolding(js_reference_parser::specs::ExpressionsModel::callee))]
    pub fn callee(&self, tokens: &mut Cursor<'_>) -> Result<Boxed<Expr>, Failed>
        requires { ⟦<Self as Nests>⟧.nests self.now }
        ensures { Reads (ex.callee CHAIN_LIMIT self.now.left (spec.within CHAIN_LIMIT self.now.left) tokens.old) result tokens.new }
    {
        let first = self.base(tokens)?;
        self.chain(tokens, Set::MemberSuffixes, first)
    }
}
