//! The forms at one level. The parts one level deeper are read by function values, so that each form is
//! proved by itself.
ghost use Rattle.js_syntax.specs.declared.limits.TheConstants.{CHAIN_LIMIT};
ghost use Rattle.std.specs.Prelude.{◌≡◌, ℕ, if◌then◌else◌};
ghost use Rattle.js_cursor.specs.Reads.{Reads};
ghost use Rattle.js_parser.specs.Nests.{Deeper};
ghost use Rattle.js_reference_parser.specs.StatementsModel as spec;

use js_cursor::{Cursor, Failed};
use js_syntax::{Expr, ParseKind, Property, Stmt};
use sqlite_items::Boxed;
use std::alloc::Global;

/// Which part of an expression is read one level deeper.
#[derive(Clone, Copy)]
pub enum Part {
    /// An expression, where `in` is an operator or not.
    Whole(bool),
    /// The operand of an operator before it.
    Operand,
    /// The operand of a `++` or `--` before it.
    Target,
    /// What a `new` is applied to.
    Callee,
    /// What a `new` is applied to in the operand of a `++` or `--` before it.
    NewTarget,
}

/// Which kind of statement is read one level deeper.
#[derive(Clone, Copy)]
pub enum Form {
    /// Any statement.
    Any,
    /// A block.
    Block,
}

/// The readers of what stands one level deeper, and how many levels deeper a part of it may go.
#[derive(Clone, Copy)]
pub struct Level<E, M, S> {
    pub alloc: Global,
    /// How many levels deeper a part may go.
    pub left: usize,
    /// Reads a part of an expression.
    pub expr: E,
    /// Reads a member of an object literal.
    pub member: M,
    /// Reads a statement, in a function or not, and in a loop of it or not.
    pub stmt: S,
}

/// Readers of what stands one level deeper. A clause can name what they promise where it is a member of
/// a trait that has a method.
pub trait Nests {
    /// They read it as the grammar says.
    ghost nests: { Self → Type 0 };

    ghost levels: { Self → ℕ };

    /// How many levels deeper a part of it may go.
    fn left(&self) -> usize
        ensures { result ≡ levels self.now };
}

impl<
    E: Fn(Global, &mut Cursor<'_>, usize, Part) -> Result<Boxed<Expr>, Failed>,
    M: Fn(Global, &mut Cursor<'_>, usize) -> Result<Property, Failed>,
    S: Fn(Global, &mut Cursor<'_>, usize, Form, bool, bool) -> Result<Stmt, Failed>,
> Nests for Level<E, M, S> {
    ghost nests = { λ l. Deeper l.left (E.pre l.expr) (E.post l.expr) (M.pre l.member) (M.post l.member) (S.pre l.stmt) (S.post l.stmt) };

    ghost levels = { λ l. l.left };

    fn left(&self) -> usize {
        self.left
    }
}

/// The fault at a part past the last level.
pub fn refuse_part(begins: bool) -> Failed
    ensures { result ≡ (if begins then Failed.Fault ParseKind.TooDeep else Failed.Fault ParseKind.Unexpected) }
{
    if begins {
        Failed::Fault(ParseKind::TooDeep)
    } else {
        Failed::Fault(ParseKind::Unexpected)
    }
}

impl<
    E: Fn(Global, &mut Cursor<'_>, usize, Part) -> Result<Boxed<Expr>, Failed>,
    M: Fn(Global, &mut Cursor<'_>, usize) -> Result<Property, Failed>,
    S: Fn(Global, &mut Cursor<'_>, usize, Form, bool, bool) -> Result<Stmt, Failed>,
> Level<E, M, S> {
    /// An expression one level deeper.
    pub fn expr(&self, tokens: &mut Cursor<'_>, in_allowed: bool) -> Result<Boxed<Expr>, Failed>
        requires { ⟦<Self as Nests>⟧.nests self.now }
        ensures { Reads ((spec.within CHAIN_LIMIT self.now.left).expr in_allowed tokens.old) result tokens.new }
    {
        (self.expr)(self.alloc, tokens, self.left, Part::Whole(in_allowed))
    }

    /// The operand of an operator before it, one level deeper.
    pub fn operand(&self, tokens: &mut Cursor<'_>) -> Result<Boxed<Expr>, Failed>
        requires { ⟦<Self as Nests>⟧.nests self.now }
        ensures { Reads ((spec.within CHAIN_LIMIT self.now.left).operand tokens.old) result tokens.new }
    {
        (self.expr)(self.alloc, tokens, self.left, Part::Operand)
    }

    /// The operand of a `++` or `--` before it, one level deeper.
    pub fn target(&self, tokens: &mut Cursor<'_>) -> Result<Boxed<Expr>, Failed>
        requires { ⟦<Self as Nests>⟧.nests self.now }
        ensures { Reads ((spec.within CHAIN_LIMIT self.now.left).target tokens.old) result tokens.new }
    {
        (self.expr)(self.alloc, tokens, self.left, Part::Target)
    }

    /// What a `new` is applied to, one level deeper.
    pub fn callee_below(&self, tokens: &mut Cursor<'_>) -> Result<Boxed<Expr>, Failed>
        requires { ⟦<Self as Nests>⟧.nests self.now }
        ensures { Reads ((spec.within CHAIN_LIMIT self.now.left).callee tokens.old) result tokens.new }
    {
        (self.expr)(self.alloc, tokens, self.left, Part::Callee)
    }

    /// What a `new` is applied to in the operand of a `++` or `--`, one level deeper.
    pub fn new_target_below(&self, tokens: &mut Cursor<'_>) -> Result<Boxed<Expr>, Failed>
        requires { ⟦<Self as Nests>⟧.nests self.now }
        ensures { Reads ((spec.within CHAIN_LIMIT self.now.left).new_target tokens.old) result tokens.new }
    {
        (self.expr)(self.alloc, tokens, self.left, Part::NewTarget)
    }

    /// A member of an object literal, one level deeper.
    pub fn member_below(&self, tokens: &mut Cursor<'_>) -> Result<Property, Failed>
        requires { ⟦<Self as Nests>⟧.nests self.now }
        ensures { Reads ((spec.within CHAIN_LIMIT self.now.left).member tokens.old) result tokens.new }
    {
        (self.member)(self.alloc, tokens, self.left)
    }

    /// A statement one level deeper.
    pub fn stmt(
        &self,
        tokens: &mut Cursor<'_>,
        in_function: bool,
        in_loop: bool,
    ) -> Result<Stmt, Failed>
        requires { ⟦<Self as Nests>⟧.nests self.now }
        ensures { Reads ((spec.within CHAIN_LIMIT self.now.left).stmt in_function in_loop tokens.old) result tokens.new }
    {
        (self.stmt)(
            self.alloc,
            tokens,
            self.left,
            Form::Any,
            in_function,
            in_loop,
        )
    }

    /// A block one level deeper.
    pub fn block_below(
        &self,
        tokens: &mut Cursor<'_>,
        in_function: bool,
        in_loop: bool,
    ) -> Result<Stmt, Failed>
        requires { ⟦<Self as Nests>⟧.nests self.now }
        ensures { Reads ((spec.within CHAIN_LIMIT self.now.left).block in_function in_loop tokens.old) result tokens.new }
    {
        (self.stmt)(
            self.alloc,
            tokens,
            self.left,
            Form::Block,
            in_function,
            in_loop,
        )
    }
}
