//! The syntax trees of scripts (ECMAScript, 13 to 15). Lists, boxes and shared parts are those that
//! contracts see as what they hold.

use crate::shared::Shared;
use base_text::{BinaryOp, Text, UnaryOp};
use sqlite_items::{Boxed, Items};

/// `++` or `--`.
#[derive(Clone, Copy, Debug, PartialEq, Eq)]
pub enum UpdateOp {
    /// `++`
    Increment,
    /// `--`
    Decrement,
}

/// An expression (ECMAScript, 13).
#[cycle(tree)]
#[derive(Drop)]
pub enum Expr {
    /// `this`
    This,
    /// A name.
    Name(Text),
    /// A number from 0 to 9007199254740991.
    Number(i64),
    /// A text.
    Str(Text),
    /// `true` or `false`
    Bool(bool),
    /// `null`
    Null,
    /// `[a, b]`
    Array(Items<Expr>),
    /// `{a: b, get c() { }}`
    Object(Items<Property>),
    /// `function f(a) { }`, with or without a name
    Function(Shared<Function>),
    /// `a.b`
    Member(Boxed<Expr>, Text),
    /// `a[b]`
    Index(Boxed<Expr>, Boxed<Expr>),
    /// `a(b, c)`
    Call(Boxed<Expr>, Items<Expr>),
    /// `new a(b, c)`, and `new a` with no arguments
    New(Boxed<Expr>, Items<Expr>),
    /// `++a`
    Prefix(UpdateOp, Boxed<Expr>),
    /// `a++`
    Postfix(UpdateOp, Boxed<Expr>),
    /// `!a`
    Unary(UnaryOp, Boxed<Expr>),
    /// `delete a`
    Delete(Boxed<Expr>),
    /// `a + b`
    Binary(BinaryOp, Boxed<Expr>, Boxed<Expr>),
    /// `a in b`
    In(Boxed<Expr>, Boxed<Expr>),
    /// `a instanceof b`
    InstanceOf(Boxed<Expr>, Boxed<Expr>),
    /// `a && b`
    And(Boxed<Expr>, Boxed<Expr>),
    /// `a || b`
    Or(Boxed<Expr>, Boxed<Expr>),
    /// `a ? b : c`
    Conditional(Boxed<Expr>, Boxed<Expr>, Boxed<Expr>),
    /// `a = b`, where `a` is a name or a member
    Assign(Boxed<Expr>, Boxed<Expr>),
    /// `a += b`, where `a` is a name or a member
    AssignBy(BinaryOp, Boxed<Expr>, Boxed<Expr>),
}

/// A member of an object literal, under its key: a number's key is its decimal digits.
#[cycle(tree)]
#[derive(Drop)]
pub enum Property {
    /// `a: b`
    Value(Text, Expr),
    /// `get a() { }`
    Get(Text, Shared<Function>),
    /// `set a(b) { }`
    Set(Text, Shared<Function>),
}

/// A function's name, where it has one, the names of its parameters, and its body.
#[cycle(tree)]
#[derive(Drop)]
pub struct Function {
    pub name: Option<Text>,
    pub params: Items<Text>,
    pub body: Items<Stmt>,
}

/// A declared name, and the value that it begins with.
#[cycle(tree)]
#[derive(Drop)]
pub struct Declaration {
    pub name: Text,
    pub value: Option<Expr>,
}

/// What stands first in the head of a `for`.
#[cycle(tree)]
#[derive(Drop)]
pub enum ForStart {
    /// Nothing.
    Nothing,
    /// `var a = b, c`
    Var(Items<Declaration>),
    /// An expression.
    Expression(Expr),
}

/// What a `for` over keys sets to each key.
#[cycle(tree)]
#[derive(Drop)]
pub enum ForTarget {
    /// `var a`
    Var(Text),
    /// A name or a member.
    Expression(Expr),
}

/// `catch (a) { }`: the name and the block.
#[cycle(tree)]
#[derive(Drop)]
pub struct Catch {
    pub name: Text,
    pub block: Boxed<Stmt>,
}

/// A statement (ECMAScript, 14). The blocks of a `try` are statements too.
#[cycle(tree)]
#[derive(Drop)]
pub enum Stmt {
    /// `{ }`
    Block(Items<Stmt>),
    /// `var a = b, c;`
    Var(Items<Declaration>),
    /// `function f(a) { }`
    Function(Shared<Function>),
    /// `;`
    Empty,
    /// `a;`
    Expression(Expr),
    /// `if (a) b else c`
    If(Expr, Boxed<Stmt>, Option<Boxed<Stmt>>),
    /// `while (a) b`
    While(Expr, Boxed<Stmt>),
    /// `for (a; b; c) d`
    For(ForStart, Option<Expr>, Option<Expr>, Boxed<Stmt>),
    /// `for (a in b) c`
    ForIn(ForTarget, Expr, Boxed<Stmt>),
    /// `break;`
    Break,
    /// `continue;`
    Continue,
    /// `return a;`
    Return(Option<Expr>),
    /// `throw a;`
    Throw(Expr),
    /// `try { } catch (a) { } finally { }`
    Try(Boxed<Stmt>, Option<Catch>, Option<Boxed<Stmt>>),
}

/// Statements in order, which contracts see as their list.
pub type Stmts = Items<Stmt>;

/// A script (ECMAScript, 16.1).
#[derive(Drop)]
pub struct Script {
    pub body: Items<Stmt>,
}
