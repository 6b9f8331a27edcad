//! The operators that work on primitive values, so that the syntax and the evaluation of a script
//! name them alike.

/// An operator between two operands (ECMAScript: equality, relational, additive and multiplicative
/// operators).
#[derive(Clone, Copy, Debug, PartialEq, Eq)]
pub enum BinaryOp {
    /// `===`
    Same,
    /// `!==`
    NotSame,
    /// `==`
    Equal,
    /// `!=`
    NotEqual,
    /// `<`
    Less,
    /// `>`
    Greater,
    /// `<=`
    AtMost,
    /// `>=`
    AtLeast,
    /// `+`
    Add,
    /// `-`
    Subtract,
    /// `*`
    Multiply,
    /// `/`
    Divide,
    /// `%`
    Remain,
}

/// An operator before its one operand (ECMAScript: unary operators).
#[derive(Clone, Copy, Debug, PartialEq, Eq)]
pub enum UnaryOp {
    /// `typeof`
    TypeOf,
    /// `!`
    Not,
    /// `+`
    Plus,
    /// `-`
    Minus,
}
