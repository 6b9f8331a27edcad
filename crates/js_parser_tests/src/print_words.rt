//! The words and leaves of a printed tree.

use base_text::{BinaryOp, Mem, Text, UnaryOp};
use js_syntax::{Expr, UpdateOp};
use std::alloc::Global;
use std::string::String;

pub fn binary(op: BinaryOp) -> &'static str {
    match op {
        BinaryOp::Same => " === ",
        BinaryOp::NotSame => " !== ",
        BinaryOp::Equal => " == ",
        BinaryOp::NotEqual => " != ",
        BinaryOp::Less => " < ",
        BinaryOp::Greater => " > ",
        BinaryOp::AtMost => " <= ",
        BinaryOp::AtLeast => " >= ",
        BinaryOp::Add => " + ",
        BinaryOp::Subtract => " - ",
        BinaryOp::Multiply => " * ",
        BinaryOp::Divide => " / ",
        BinaryOp::Remain => " % ",
    }
}

pub fn assignment(op: BinaryOp) -> &'static str {
    match op {
        BinaryOp::Add => " += ",
        BinaryOp::Subtract => " -= ",
        BinaryOp::Multiply => " *= ",
        BinaryOp::Divide => " /= ",
        BinaryOp::Remain => " %= ",
        _ => " ?= ",
    }
}

pub fn unary(op: UnaryOp) -> &'static str {
    match op {
        UnaryOp::TypeOf => "typeof ",
        UnaryOp::Not => "!",
        UnaryOp::Plus => "+",
        UnaryOp::Minus => "-",
    }
}

pub fn update(op: UpdateOp) -> &'static str {
    match op {
        UpdateOp::Increment => "++",
        UpdateOp::Decrement => "--",
    }
}

/// Whether it stands without brackets before a suffix.
pub fn is_base(e: &Expr) -> bool {
    match e {
        Expr::This | Expr::Name(_) | Expr::Str(_) | Expr::Bool(_) | Expr::Null => true,
        Expr::Array(_) => true,
        Expr::Member(_, _) | Expr::Index(_, _) | Expr::Call(_, _) => true,
        _ => false,
    }
}

/// Whether it stands without brackets behind a `new`.
pub fn is_callee(e: &Expr) -> bool {
    match e {
        Expr::Call(_, _) => false,
        _ => is_base(e),
    }
}

/// Whether it stands without brackets beside an operator.
pub fn is_operand(e: &Expr) -> bool {
    match e {
        Expr::Number(_) | Expr::Object(_) | Expr::Function(_) | Expr::New(_, _) => true,
        _ => is_base(e),
    }
}

pub fn leaf(alloc: Global, out: &mut String, e: &Expr) -> Mem<()> {
    match e {
        Expr::This => out.push_str("this")?,
        Expr::Name(name) => out.push_str(name.as_str())?,
        Expr::Number(n) => {
            let digits = format!(in alloc; "{n}")?;
            out.push_str(&digits)?;
        }
        Expr::Str(text) => {
            out.push('\'')?;
            out.push_str(text.as_str())?;
            out.push('\'')?;
        }
        Expr::Bool(true) => out.push_str("true")?,
        Expr::Bool(false) => out.push_str("false")?,
        _ => out.push_str("null")?,
    }
    Ok(())
}

pub fn names(out: &mut String, all: &[Text]) -> Mem<()> {
    for (i, name) in all.iter().enumerate() {
        if i > 0 {
            out.push_str(", ")?;
        }
        out.push_str(name.as_str())?;
    }
    Ok(())
}
