//! The operand of a prefix `++` or `--` (ECMAScript, 13.4.4).
ghost use Rattle.js_syntax.specs.declared.limits.TheConstants.{CHAIN_LIMIT};
ghost use Rattle.js_cursor.specs.Reads.{Reads};
ghost use Rattle.js_reference_parser.specs.ExpressionsModel as ex;
ghost use Rattle.js_reference_parser.specs.StatementsModel as spec;

use crate::level::{Form, Level, Nests, Part};
use js_cursor::{Cursor, Failed, Set, accept};
use js_syntax::{CHAIN_LIMIT, Expr, ParseKind, Property, Stmt, Symbol};
use sqlite_items::Boxed;
use std::alloc::Global;

/// How many of the suffixes may be calls.
const CALLS: usize = CHAIN_LIMIT - 1;

impl<
    E: Fn(Global, &mut Cursor<'_>, usize, Part) -> Result<Boxed<Expr>, Failed>,
    M: Fn(Global, &mut Cursor<'_>, usize) -> Result<Property, Failed>,
    S: Fn(Global, &mut Cursor<'_>, usize, Form, bool, bool) -> Result<Stmt, Failed>,
> Level<E, M, S> {
    #[tactic(auto, unfolding(js_reference_parser::specs::ExpressionsModel::new_with_arguments))]
    fn new_with_arguments(&self, tokens: &mut Cursor<'_>) -> Result<Boxed<Expr>, Failed>
        requires { ⟦<Self as Nests>⟧.nests self.now }
        ensures { Reads (ex.new_with_arguments self.now.left (spec.within CHAIN_LIMIT self.now.left) tokens.old) result tokens.new }
    {
        let callee = self.new_target_below(tokens)?;
        tokens.expect(Symbol::OpenParen)?;
        let given = self.arguments(tokens)?;
        Ok(Boxed::new(self.alloc, Expr::New(callee, given))?)
    }

    #[tactic(auto, unfolding(js_reference_parser::specs::ExpressionsModel::target_base), using(js_reference_parser::proofs::Begun::taken, js_reference_parser::proofs::Begun::passed, js_reference_parser::proofs::Begun::refused))]
    fn target_base(&self, tokens: &mut Cursor<'_>) -> Result<Boxed<Expr>, Failed>
        requires { ⟦<Self as Nests>⟧.nests self.now }
        ensures { Reads (ex.target_base self.now.left (spec.within CHAIN_LIMIT self.now.left) tokens.old) result tokens.new }
    {
        if let Some(_) = tokens.begin(self.left, Symbol::New)? {
            return self.new_with_arguments(tokens);
        }
        self.primary(tokens)
    }

    /// What a `new` is applied to here.
    #[tactic(auto, unfolding(js_reference_parser::specs::ExpressionsModel::new_target))]
    pub fn new_target(&self, tokens: &mut Cursor<'_>) -> Result<Boxed<Expr>, Failed>
        requires { ⟦<Self as Nests>⟧.nests self.now }
        ensures { Reads (ex.new_target CHAIN_LIMIT self.now.left (spec.within CHAIN_LIMIT self.now.left) tokens.old) result tokens.new }
    {
        let first = self.target_base(tokens)?;
        self.chain(tokens, Set::MemberSuffixes, first)
    }

    #[tactic(auto, unfolding(js_reference_parser::specs::ExpressionsModel::target_chain))]
    fn past_suffixes(
        &self,
        tokens: &mut Cursor<'_>,
        found: Boxed<Expr>,
    ) -> Result<Boxed<Expr>, Failed>
        requires { ⟦<Self as Nests>⟧.nests self.now }
        ensures { Reads (ex.target_chain 0 self.now.left (spec.within CHAIN_LIMIT self.now.left) found tokens.old) result tokens.new }
    {
        if tokens.sees_any(Set::Suffixes) {
            return Err(Failed::Fault(ParseKind::TooDeep));
        }
        accept(tokens, found)
    }

    /// The 64th suffix of an update target may be `.` or `[ ]` but not a call.
    #[tactic(auto, unfolding(js_reference_parser::specs::ExpressionsModel::target_chain), using(js_combinators::proofs::Loops::deny_passes, js_reference_parser::proofs::Links::denied))]
    fn last_suffix(
        &self,
        tokens: &mut Cursor<'_>,
        found: Boxed<Expr>,
    ) -> Result<Boxed<Expr>, Failed>
        requires { ⟦<Self as Nests>⟧.nests self.now }
        ensures { Reads (ex.target_chain 1 self.now.left (spec.within CHAIN_LIMIT self.now.left) found tokens.old) result tokens.new }
    {
        tokens.undenied(self.left)?;
        if let Some(token) = tokens.eat_any(Set::MemberSuffixes) {
            let found = self.suffix(tokens, found, token)?;
            return self.past_suffixes(tokens, found);
        }
        if tokens.sees(Symbol::OpenParen) {
            return Err(Failed::Fault(ParseKind::TooDeep));
        }
        accept(tokens, found)
    }

    #[tactic(auto, unfolding(js_reference_parser::specs::ExpressionsModel::target_chain))]
    fn target_suffixes(
        &self,
        tokens: &mut Cursor<'_>,
        mut found: Boxed<Expr>,
    ) -> Result<Boxed<Expr>, Failed>
        requires { ⟦<Self as Nests>⟧.nests self.now }
        ensures { Reads (ex.target_chain CHAIN_LIMIT self.now.left (spec.within CHAIN_LIMIT self.now.left) found tokens.old) result tokens.new }
    {
        for _link in 0..CALLS {
            tokens.undenied(self.left)?;
            if let Some(token) = tokens.eat_any(Set::Suffixes) {
                found = self.suffix(tokens, found, token)?;
            } else {
                return accept(tokens, found);
            }
        }
        self.last_suffix(tokens, found)
    }

    /// The name or member after a prefix `++` or `--`.
    #[tactic(auto, unfolding(js_reference_parser::specs::ExpressionsModel::update_target))]
    pub fn update_target(&self, tokens: &mut Cursor<'_>) -> Result<Boxed<Expr>, Failed>
        requires { ⟦<Self as Nests>⟧.nests self.now }
        ensures { Reads (ex.update_target CHAIN_LIMIT self.now.left (spec.within CHAIN_LIMIT self.now.left) tokens.old) result tokens.new }
    {
        let first = self.target_base(tokens)?;
        self.target_suffixes(tokens, first)
    }
}
