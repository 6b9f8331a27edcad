//! Trees of one token, and trees made of their parts (ECMAScript, 13).
ghost use Rattle.std.specs.Prelude.{◌≡◌, IfOk};
ghost use Rattle.js_syntax.specs.Symbols.{symbol_of};
ghost use Rattle.js_syntax.specs.Words as words;

use base_text::{BinaryOp, Mem, UnaryOp};
use js_syntax::{Expr, Symbol, Token, UpdateOp, number_of};
use sqlite_items::Boxed;

/// Whether it is a name or a member, which can be assigned.
#[tactic(auto, unfolding(js_syntax::specs::Words::is_target))]
pub fn is_target(value: &Expr) -> bool
    ensures { result ≡ words.is_target value.now }
{
    match value {
        Expr::Name(_) | Expr::Member(_, _) | Expr::Index(_, _) => true,
        _ => false,
    }
}

/// The expression that a token alone is.
pub fn leaf(token: &Token) -> Mem<Expr>
    ensures { IfOk result (λ e. e ≡ words.leaf_of (symbol_of token.now) token.now.text) }
{
    match token.symbol() {
        Symbol::Number => match number_of(token.text.as_str()) {
            Some(n) => Ok(Expr::Number(n as i64)),
            None => Ok(Expr::Number(0)),
        },
        Symbol::Str => Ok(Expr::Str(token.text.share()?)),
        Symbol::This => Ok(Expr::This),
        Symbol::True => Ok(Expr::Bool(true)),
        Symbol::False => Ok(Expr::Bool(false)),
        Symbol::Null => Ok(Expr::Null),
        _ => Ok(Expr::Name(token.text.share()?)),
    }
}

/// Which of `++` and `--` a symbol is.
pub fn update_of(symbol: Symbol) -> UpdateOp
    ensures { result ≡ words.update_of symbol }
{
    match symbol {
        Symbol::Decrement => UpdateOp::Decrement,
        _ => UpdateOp::Increment,
    }
}

/// An operator before its operand, but for `++` and `--`.
pub fn prefixed(symbol: Symbol, operand: Boxed<Expr>) -> Expr
    ensures { result ≡ words.prefixed symbol operand }
{
    match symbol {
        Symbol::Delete => Expr::Delete(operand),
        Symbol::TypeOf => Expr::Unary(UnaryOp::TypeOf, operand),
        Symbol::Not => Expr::Unary(UnaryOp::Not, operand),
        Symbol::Plus => Expr::Unary(UnaryOp::Plus, operand),
        _ => Expr::Unary(UnaryOp::Minus, operand),
    }
}

/// An operator between two operands.
pub fn operation(symbol: Symbol, left: Boxed<Expr>, right: Boxed<Expr>) -> Expr
    ensures { result ≡ words.operation symbol left right }
{
    match symbol {
        Symbol::Star => Expr::Binary(BinaryOp::Multiply, left, right),
        Symbol::Slash => Expr::Binary(BinaryOp::Divide, left, right),
        Symbol::Percent => Expr::Binary(BinaryOp::Remain, left, right),
        Symbol::Plus => Expr::Binary(BinaryOp::Add, left, right),
        Symbol::Minus => Expr::Binary(BinaryOp::Subtract, left, right),
        Symbol::Less => Expr::Binary(BinaryOp::Less, left, right),
        Symbol::Greater => Expr::Binary(BinaryOp::Greater, left, right),
        Symbol::AtMost => Expr::Binary(BinaryOp::AtMost, left, right),
        Symbol::AtLeast => Expr::Binary(BinaryOp::AtLeast, left, right),
        Symbol::InstanceOf => Expr::InstanceOf(left, right),
        Symbol::In => Expr::In(left, right),
        Symbol::Same => Expr::Binary(BinaryOp::Same, left, right),
        Symbol::NotSame => Expr::Binary(BinaryOp::NotSame, left, right),
        Symbol::Equal => Expr::Binary(BinaryOp::Equal, left, right),
        Symbol::NotEqual => Expr::Binary(BinaryOp::NotEqual, left, right),
        Symbol::And => Expr::And(left, right),
        _ => Expr::Or(left, right),
    }
}

/// `a = b`, or an assignment that combines with an operator.
pub fn assignment(symbol: Symbol, target: Boxed<Expr>, value: Boxed<Expr>) -> Expr
    ensures { result ≡ words.assignment symbol target value }
{
    match symbol {
        Symbol::AddBy => Expr::AssignBy(BinaryOp::Add, target, value),
        Symbol::SubtractBy => Expr::AssignBy(BinaryOp::Subtract, target, value),
        Symbol::MultiplyBy => Expr::AssignBy(BinaryOp::Multiply, target, value),
        Symbol::DivideBy => Expr::AssignBy(BinaryOp::Divide, target, value),
        Symbol::RemainBy => Expr::AssignBy(BinaryOp::Remain, target, value),
        _ => Expr::Assign(target, value),
    }
}
