//! Operators, the conditional and assignment (ECMAScript, 13.4 to 13.15).
ghost use Rattle.js_syntax.specs.declared.limits.TheConstants.{CHAIN_LIMIT};
ghost use Rattle.std.specs.Prelude.{◌≡◌, None};
ghost use Rattle.js_syntax.specs.Symbols.{among, next, sees};
ghost use Rattle.js_syntax.specs.Words as words;
ghost use Rattle.js_combinators.specs.Readers.{chain};
ghost use Rattle.js_cursor.specs.Reads.{Begins, Reads, Takes};
ghost use Rattle.js_reference_parser.specs.ExpressionsModel as ex;
ghost use Rattle.js_parser.specs.ExpressionPartsModel as model;
ghost use Rattle.js_reference_parser.specs.StatementsModel as spec;

use crate::level::{Form, Level, Nests, Part};
use js_cursor::{Cursor, Failed, Set, begin_assign, eat_postfix, make};
use js_syntax::{CHAIN_LIMIT, Expr, ParseKind, Property, Stmt, Symbol, Token};
use sqlite_items::Boxed;
use std::alloc::Global;

/// How many levels of left chains there are, strongest first.
const LEVELS_OF_CHAINS: u8 = 6;

impl<
    E: Fn(Global, &mut Cursor<'_>, usize, Part) -> Result<Boxed<Expr>, Failed>,
    M: Fn(Global, &mut Cursor<'_>, usize) -> Result<Property, Failed>,
    S: Fn(Global, &mut Cursor<'_>, usize, Form, bool, bool) -> Result<Stmt, Failed>,
> Level<E, M, S> {
    /// An expression with suffixes, and a `++` or `--` behind it.
    #[tactic(auto, unfolding(js_reference_parser::specs::ExpressionsModel::postfix))]
    pub fn postfix(&self, tokens: &mut Cursor<'_>) -> Result<Boxed<Expr>, Failed>
        requires { ⟦<Self as Nests>⟧.nests self.now }
        ensures { Reads (ex.postfix CHAIN_LIMIT self.now.left (spec.within CHAIN_LIMIT self.now.left) tokens.old) result tokens.new }
    {
        let operand = self.suffixed(tokens)?;
        match eat_postfix(tokens, operand.get()) {
            Some(token) => {
                let operator = make::update_of(token.symbol());
                Ok(Boxed::new(self.alloc, Expr::Postfix(operator, operand))?)
            }
            None => Ok(operand),
        }
    }

    fn prefixed_by(&self, tokens: &mut Cursor<'_>, token: &Token) -> Result<Boxed<Expr>, Failed>
        requires { ⟦<Self as Nests>⟧.nests self.now }
        ensures { Reads (model.prefixed_by (spec.within CHAIN_LIMIT self.now.left) token.now tokens.old) result tokens.new }
    {
        let operand = self.operand(tokens)?;
        Ok(Boxed::new(self.alloc, make::prefixed(token.symbol(), operand))?)
    }

    fn updated_by(&self, tokens: &mut Cursor<'_>, token: &Token) -> Result<Boxed<Expr>, Failed>
        requires { ⟦<Self as Nests>⟧.nests self.now }
        ensures { Reads (model.updated_by (spec.within CHAIN_LIMIT self.now.left) token.now tokens.old) result tokens.new }
    {
        let operand = self.target(tokens)?;
        let operator = make::update_of(token.symbol());
        Ok(Boxed::new(self.alloc, Expr::Prefix(operator, operand))?)
    }

    /// An operand with a `++` or `--` before it or behind it, or alone.
    #[tactic(auto, using(js_reference_parser::proofs::Begun::taken, js_reference_parser::proofs::Begun::passed, js_reference_parser::proofs::Begun::refused))]
    fn updated(&self, tokens: &mut Cursor<'_>) -> Result<Boxed<Expr>, Failed>
        requires { ⟦<Self as Nests>⟧.nests self.now }
        ensures { Reads (model.updated CHAIN_LIMIT self.now.left (spec.within CHAIN_LIMIT self.now.left) tokens.old) result tokens.new }
    {
        if let Some(token) = tokens.begin_any(self.left, Set::Updates)? {
            return self.updated_by(tokens, token);
        }
        self.postfix(tokens)
    }

    /// An operand, with the operators before it.
    #[tactic(auto, unfolding(js_reference_parser::specs::ExpressionsModel::unary), using(js_reference_parser::proofs::Begun::taken, js_reference_parser::proofs::Begun::passed, js_reference_parser::proofs::Begun::refused))]
    pub fn unary(&self, tokens: &mut Cursor<'_>) -> Result<Boxed<Expr>, Failed>
        requires { ⟦<Self as Nests>⟧.nests self.now }
        ensures { Reads (ex.unary CHAIN_LIMIT self.now.left (spec.within CHAIN_LIMIT self.now.left) tokens.old) result tokens.new }
    {
        if let Some(token) = tokens.begin_any(self.left, Set::Prefixes)? {
            return self.prefixed_by(tokens, token);
        }
        self.updated(tokens)
    }

    /// Operands with operators of this number of levels between.
    #[cycle(binary)]
    #[tactic(auto, unfolding(js_reference_parser::specs::ExpressionsModel::binary, js_reference_parser::specs::ExpressionsModel::chained))]
    fn binary(
        &self,
        tokens: &mut Cursor<'_>,
        in_allowed: bool,
        levels: u8,
    ) -> Result<Boxed<Expr>, Failed>
        requires { ⟦<Self as Nests>⟧.nests self.now }
        ensures { Reads (ex.binary CHAIN_LIMIT self.now.left (spec.within CHAIN_LIMIT self.now.left) in_allowed levels tokens.old) result tokens.new }
    {
        if levels == 0 {
            return self.unary(tokens);
        }
        let first = self.binary(tokens, in_allowed, levels - 1)?;
        self.operations(tokens, in_allowed, levels - 1, first)
    }

    /// The operators of one level, and the operands behind them.
    #[cycle(binary)]
    #[tactic(auto, unfolding(js_combinators::specs::Readers::chain))]
    fn operations(
        &self,
        tokens: &mut Cursor<'_>,
        in_allowed: bool,
        level: u8,
        mut found: Boxed<Expr>,
    ) -> Result<Boxed<Expr>, Failed>
        requires { ⟦<Self as Nests>⟧.nests self.now }
        ensures { Reads (chain CHAIN_LIMIT None (among (words.operators in_allowed level))
            (ex.operand_of (ex.binary CHAIN_LIMIT self.now.left (spec.within CHAIN_LIMIT self.now.left) in_allowed level)) found tokens.old) result tokens.new }
    {
        for _link in 0..CHAIN_LIMIT {
            if let Some(token) = tokens.eat_any(Set::Operators(in_allowed, level)) {
                let operand = self.binary(tokens, in_allowed, level)?;
                let operation = make::operation(token.symbol(), found, operand);
                found = Boxed::new(self.alloc, operation)?;
            } else {
                return Ok(found);
            }
        }
        if tokens.sees_any(Set::Operators(in_allowed, level)) {
            return Err(Failed::Fault(ParseKind::TooDeep));
        }
        Ok(found)
    }

    #[tactic(auto, unfolding(js_reference_parser::specs::ExpressionsModel::else_branch))]
    fn else_branch(
        &self,
        tokens: &mut Cursor<'_>,
        in_allowed: bool,
        test: Boxed<Expr>,
        then: Boxed<Expr>,
    ) -> Result<Boxed<Expr>, Failed>
        requires { ⟦<Self as Nests>⟧.nests self.now }
        ensures { Reads (ex.else_branch (spec.within CHAIN_LIMIT self.now.left) in_allowed test then tokens.old) result tokens.new }
    {
        let other = self.expr(tokens, in_allowed)?;
        Ok(Boxed::new(self.alloc, Expr::Conditional(test, then, other))?)
    }

    fn then_branch(&self, tokens: &mut Cursor<'_>, in_allowed: bool) -> Result<Boxed<Expr>, Failed>
        requires { ⟦<Self as Nests>⟧.nests self.now }
        ensures { Reads (ex.closed Symbol.Colon ((spec.within CHAIN_LIMIT self.now.left).expr in_allowed) tokens.old) result tokens.new }
    {
        let then = self.expr(tokens, in_allowed)?;
        tokens.expect(Symbol::Colon)?;
        Ok(then)
    }

    #[tactic(auto, unfolding(js_reference_parser::specs::ExpressionsModel::conditional_branches))]
    fn conditional_branches(
        &self,
        tokens: &mut Cursor<'_>,
        in_allowed: bool,
        test: Boxed<Expr>,
    ) -> Result<Boxed<Expr>, Failed>
        requires { ⟦<Self as Nests>⟧.nests self.now }
        ensures { Reads (ex.conditional_branches (spec.within CHAIN_LIMIT self.now.left) in_allowed test tokens.old) result tokens.new }
    {
        let then = self.then_branch(tokens, in_allowed)?;
        self.else_branch(tokens, in_allowed, test, then)
    }

    #[tactic(auto, using(js_reference_parser::proofs::Begun::taken, js_reference_parser::proofs::Begun::passed, js_reference_parser::proofs::Begun::refused))]
    fn conditional_tail(
        &self,
        tokens: &mut Cursor<'_>,
        in_allowed: bool,
        test: Boxed<Expr>,
    ) -> Result<Boxed<Expr>, Failed>
        requires { ⟦<Self as Nests>⟧.nests self.now }
        ensures { Reads (model.conditional_tail self.now.left (spec.within CHAIN_LIMIT self.now.left) in_allowed test tokens.old) result tokens.new }
    {
        if let Some(_) = tokens.begin(self.left, Symbol::Question)? {
            return self.conditional_branches(tokens, in_allowed, test);
        }
        Ok(test)
    }

    /// A conditional expression (ECMAScript, 13.14), or its first operand alone.
    #[tactic(auto, unfolding(js_reference_parser::specs::ExpressionsModel::conditional))]
    fn conditional(&self, tokens: &mut Cursor<'_>, in_allowed: bool) -> Result<Boxed<Expr>, Failed>
        requires { ⟦<Self as Nests>⟧.nests self.now }
        ensures { Reads (ex.conditional CHAIN_LIMIT self.now.left (spec.within CHAIN_LIMIT self.now.left) in_allowed tokens.old) result tokens.new }
    {
        let test = self.binary(tokens, in_allowed, LEVELS_OF_CHAINS)?;
        self.conditional_tail(tokens, in_allowed, test)
    }

    fn assigned(
        &self,
        tokens: &mut Cursor<'_>,
        in_allowed: bool,
        target: Boxed<Expr>,
        token: &Token,
    ) -> Result<Boxed<Expr>, Failed>
        requires { ⟦<Self as Nests>⟧.nests self.now }
        ensures { Reads (model.assigned (spec.within CHAIN_LIMIT self.now.left) in_allowed target token.now tokens.old) result tokens.new }
    {
        let value = self.expr(tokens, in_allowed)?;
        Ok(Boxed::new(self.alloc, make::assignment(token.symbol(), target, value))?)
    }

    #[tactic(auto, using(js_reference_parser::proofs::Begun::taken, js_reference_parser::proofs::Begun::passed, js_reference_parser::proofs::Begun::refused))]
    fn assignment_tail(
        &self,
        tokens: &mut Cursor<'_>,
        in_allowed: bool,
        target: Boxed<Expr>,
    ) -> Result<Boxed<Expr>, Failed>
        requires { ⟦<Self as Nests>⟧.nests self.now }
        ensures { Reads (model.assignment_tail self.now.left (spec.within CHAIN_LIMIT self.now.left) in_allowed target tokens.old) result tokens.new }
    {
        if let Some(token) = begin_assign(tokens, self.left, target.get())? {
            return self.assigned(tokens, in_allowed, target, token);
        }
        Ok(target)
    }

    /// An expression.
    #[tactic(auto, unfolding(js_reference_parser::specs::ExpressionsModel::assign))]
    pub fn assign(&self, tokens: &mut Cursor<'_>, in_allowed: bool) -> Result<Boxed<Expr>, Failed>
        requires { ⟦<Self as Nests>⟧.nests self.now }
        ensures { Reads (ex.assign CHAIN_LIMIT self.now.left (spec.within CHAIN_LIMIT self.now.left) in_allowed tokens.old) result tokens.new }
    {
        let target = self.conditional(tokens, in_allowed)?;
        self.assignment_tail(tokens, in_allowed, target)
    }
}
