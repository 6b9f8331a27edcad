//! Prints a tree as a text, with brackets round each operand that is an operation.
ghost use Rattle.std.specs.Prelude.{◌<◌, IfOk};

use crate::print_words::{
    assignment, binary, is_base, is_callee, is_operand, leaf, names, unary, update,
};
use base_text::{Mem, NoMemory};
use js_syntax::{Catch, Declaration, Expr, ForStart, ForTarget, Function, Property, Stmt};
use std::alloc::Global;
use std::string::String;

/// One less of the levels that may still be printed.
fn below(left: u32) -> Mem<u32>
    ensures { IfOk result (λ n. n < left) }
{
    match left {
        0 => Err(NoMemory),
        _ => Ok(left - 1),
    }
}

/// In brackets, unless it may stand bare.
#[cycle(print)]
fn bracketed(alloc: Global, out: &mut String, e: &Expr, bare: bool, left: u32) -> Mem<()> {
    let left = below(left)?;
    if bare {
        return expr(alloc, out, e, left);
    }
    out.push('(')?;
    expr(alloc, out, e, left)?;
    out.push(')')?;
    Ok(())
}

#[cycle(print)]
fn operand(alloc: Global, out: &mut String, e: &Expr, left: u32) -> Mem<()> {
    let left = below(left)?;
    bracketed(alloc, out, e, is_operand(e), left)
}

#[cycle(print)]
fn base(alloc: Global, out: &mut String, e: &Expr, left: u32) -> Mem<()> {
    let left = below(left)?;
    bracketed(alloc, out, e, is_base(e), left)
}

#[cycle(print)]
fn infix(alloc: Global, out: &mut String, a: &Expr, op: &str, b: &Expr, left: u32) -> Mem<()> {
    let left = below(left)?;
    operand(alloc, out, a, left)?;
    out.push_str(op)?;
    operand(alloc, out, b, left)
}

#[cycle(print)]
fn prefix(alloc: Global, out: &mut String, op: &str, a: &Expr, left: u32) -> Mem<()> {
    let left = below(left)?;
    out.push_str(op)?;
    operand(alloc, out, a, left)
}

#[cycle(print)]
fn exprs(alloc: Global, out: &mut String, all: &[Expr], left: u32) -> Mem<()> {
    let left = below(left)?;
    for (i, item) in all.iter().enumerate() {
        if i > 0 {
            out.push_str(", ")?;
        }
        expr(alloc, out, item, left)?;
    }
    Ok(())
}

#[cycle(print)]
fn property(alloc: Global, out: &mut String, m: &Property, left: u32) -> Mem<()> {
    let left = below(left)?;
    match m {
        Property::Value(key, value) => {
            out.push_str(key.as_str())?;
            out.push_str(": ")?;
            expr(alloc, out, value, left)
        }
        Property::Get(key, code) => {
            out.push_str("get ")?;
            out.push_str(key.as_str())?;
            lambda(alloc, out, code.get(), left)
        }
        Property::Set(key, code) => {
            out.push_str("set ")?;
            out.push_str(key.as_str())?;
            lambda(alloc, out, code.get(), left)
        }
    }
}

#[cycle(print)]
fn properties(alloc: Global, out: &mut String, all: &[Property], left: u32) -> Mem<()> {
    let left = below(left)?;
    for (i, item) in all.iter().enumerate() {
        if i > 0 {
            out.push_str(", ")?;
        }
        property(alloc, out, item, left)?;
    }
    Ok(())
}

/// Parameters and body.
#[cycle(print)]
fn lambda(alloc: Global, out: &mut String, code: &Function, left: u32) -> Mem<()> {
    let left = below(left)?;
    out.push('(')?;
    names(out, code.params.as_slice())?;
    out.push_str(") ")?;
    block_statement(alloc, out, code.body.as_slice(), left)
}

#[cycle(print)]
fn function(alloc: Global, out: &mut String, code: &Function, left: u32) -> Mem<()> {
    let left = below(left)?;
    out.push_str("function ")?;
    if let Some(name) = &code.name {
        out.push_str(name.as_str())?;
    }
    lambda(alloc, out, code, left)
}

/// An operation.
#[cycle(print)]
fn operation(alloc: Global, out: &mut String, e: &Expr, left: u32) -> Mem<()> {
    let left = below(left)?;
    match e {
        Expr::Prefix(op, a) => prefix(alloc, out, update(*op), a.get(), left),
        Expr::Postfix(op, a) => {
            operand(alloc, out, a.get(), left)?;
            out.push_str(update(*op))?;
            Ok(())
        }
        Expr::Unary(op, a) => prefix(alloc, out, unary(*op), a.get(), left),
        Expr::Delete(a) => prefix(alloc, out, "delete ", a.get(), left),
        Expr::Binary(op, a, b) => infix(alloc, out, a.get(), binary(*op), b.get(), left),
        Expr::In(a, b) => infix(alloc, out, a.get(), " in ", b.get(), left),
        Expr::InstanceOf(a, b) => infix(alloc, out, a.get(), " instanceof ", b.get(), left),
        Expr::And(a, b) => infix(alloc, out, a.get(), " && ", b.get(), left),
        Expr::Or(a, b) => infix(alloc, out, a.get(), " || ", b.get(), left),
        Expr::Conditional(a, b, c) => {
            infix(alloc, out, a.get(), " ? ", b.get(), left)?;
            prefix(alloc, out, " : ", c.get(), left)
        }
        Expr::Assign(a, b) => infix(alloc, out, a.get(), " = ", b.get(), left),
        Expr::AssignBy(op, a, b) => infix(alloc, out, a.get(), assignment(*op), b.get(), left),
        _ => leaf(alloc, out, e),
    }
}

#[cycle(print)]
fn arguments(alloc: Global, out: &mut String, all: &[Expr], left: u32) -> Mem<()> {
    let left = below(left)?;
    out.push('(')?;
    exprs(alloc, out, all, left)?;
    out.push(')')?;
    Ok(())
}

#[cycle(print)]
fn expr(alloc: Global, out: &mut String, e: &Expr, left: u32) -> Mem<()> {
    let left = below(left)?;
    match e {
        Expr::Array(all) => {
            out.push('[')?;
            exprs(alloc, out, all.as_slice(), left)?;
            out.push(']')?;
            Ok(())
        }
        Expr::Object(all) => {
            out.push('{')?;
            properties(alloc, out, all.as_slice(), left)?;
            out.push('}')?;
            Ok(())
        }
        Expr::Function(code) => function(alloc, out, code.get(), left),
        Expr::Member(object, name) => {
            base(alloc, out, object.get(), left)?;
            out.push('.')?;
            out.push_str(name.as_str())?;
            Ok(())
        }
        Expr::Index(object, place) => {
            base(alloc, out, object.get(), left)?;
            out.push('[')?;
            expr(alloc, out, place.get(), left)?;
            out.push(']')?;
            Ok(())
        }
        Expr::Call(callee, given) => {
            base(alloc, out, callee.get(), left)?;
            arguments(alloc, out, given.as_slice(), left)
        }
        Expr::New(callee, given) => {
            out.push_str("new ")?;
            bracketed(alloc, out, callee.get(), is_callee(callee.get()), left)?;
            arguments(alloc, out, given.as_slice(), left)
        }
        _ => operation(alloc, out, e, left),
    }
}

#[cycle(print)]
fn declarations(alloc: Global, out: &mut String, all: &[Declaration], left: u32) -> Mem<()> {
    let left = below(left)?;
    out.push_str("var ")?;
    for (i, item) in all.iter().enumerate() {
        if i > 0 {
            out.push_str(", ")?;
        }
        out.push_str(item.name.as_str())?;
        if let Some(value) = &item.value {
            prefix(alloc, out, " = ", value, left)?;
        }
    }
    Ok(())
}

#[cycle(print)]
fn start(alloc: Global, out: &mut String, a: &ForStart, left: u32) -> Mem<()> {
    let left = below(left)?;
    match a {
        ForStart::Nothing => Ok(()),
        ForStart::Var(all) => declarations(alloc, out, all.as_slice(), left),
        ForStart::Expression(value) => operand(alloc, out, value, left),
    }
}

#[cycle(print)]
fn target(alloc: Global, out: &mut String, a: &ForTarget, left: u32) -> Mem<()> {
    let left = below(left)?;
    match a {
        ForTarget::Var(name) => {
            out.push_str("var ")?;
            out.push_str(name.as_str())?;
            Ok(())
        }
        ForTarget::Expression(value) => expr(alloc, out, value, left),
    }
}

#[cycle(print)]
fn optional(alloc: Global, out: &mut String, a: &Option<Expr>, left: u32) -> Mem<()> {
    let left = below(left)?;
    match a {
        None => Ok(()),
        Some(value) => expr(alloc, out, value, left),
    }
}

/// A word, an expression where there is one, and a semicolon.
#[cycle(print)]
fn ended(alloc: Global, out: &mut String, word: &str, a: &Option<Expr>, left: u32) -> Mem<()> {
    let left = below(left)?;
    out.push_str(word)?;
    if let Some(value) = a {
        prefix_plain(alloc, out, value, left)?;
    }
    out.push(';')?;
    Ok(())
}

/// A blank and an expression.
#[cycle(print)]
fn prefix_plain(alloc: Global, out: &mut String, value: &Expr, left: u32) -> Mem<()> {
    let left = below(left)?;
    out.push(' ')?;
    expr(alloc, out, value, left)
}

/// A word and an expression in brackets.
#[cycle(print)]
fn headed(alloc: Global, out: &mut String, word: &str, test: &Expr, left: u32) -> Mem<()> {
    let left = below(left)?;
    out.push_str(word)?;
    out.push_str(" (")?;
    expr(alloc, out, test, left)?;
    out.push_str(") ")?;
    Ok(())
}

/// Statements in braces.
#[cycle(print)]
fn block_statement(alloc: Global, out: &mut String, all: &[Stmt], left: u32) -> Mem<()> {
    let left = below(left)?;
    out.push('{')?;
    for item in all.iter() {
        out.push(' ')?;
        stmt(alloc, out, item, left)?;
    }
    out.push_str(" }")?;
    Ok(())
}

/// An `if`. One without `else` in one with it stands between `<` and `>`.
#[cycle(print)]
fn if_statement(
    alloc: Global,
    out: &mut String,
    test: &Expr,
    then: &Stmt,
    else_clause: Option<&Stmt>,
    left: u32,
) -> Mem<()> {
    let left = below(left)?;
    headed(alloc, out, "if", test, left)?;
    match else_clause {
        None => stmt(alloc, out, then, left),
        Some(other) => {
            let open = matches!(then, Stmt::If(_, _, None));
            out.push_str(if open { "<" } else { "" })?;
            stmt(alloc, out, then, left)?;
            out.push_str(if open { "> else " } else { " else " })?;
            stmt(alloc, out, other, left)
        }
    }
}

#[cycle(print)]
fn catch(alloc: Global, out: &mut String, handler: &Catch, left: u32) -> Mem<()> {
    let left = below(left)?;
    out.push_str(" catch (")?;
    out.push_str(handler.name.as_str())?;
    out.push_str(") ")?;
    stmt(alloc, out, handler.block.get(), left)
}

/// A statement that has a statement as its part.
#[cycle(print)]
fn nested(alloc: Global, out: &mut String, x: &Stmt, left: u32) -> Mem<()> {
    let left = below(left)?;
    match x {
        Stmt::If(test, then, else_clause) => {
            let other = match else_clause {
                None => None,
                Some(other) => Some(other.get()),
            };
            if_statement(alloc, out, test, then.get(), other, left)
        }
        Stmt::While(test, body) => {
            headed(alloc, out, "while", test, left)?;
            stmt(alloc, out, body.get(), left)
        }
        Stmt::For(first, test, step, body) => {
            out.push_str("for (")?;
            start(alloc, out, first, left)?;
            out.push_str("; ")?;
            optional(alloc, out, test, left)?;
            out.push_str("; ")?;
            optional(alloc, out, step, left)?;
            out.push_str(") ")?;
            stmt(alloc, out, body.get(), left)
        }
        Stmt::ForIn(first, object, body) => {
            out.push_str("for (")?;
            target(alloc, out, first, left)?;
            out.push_str(" in ")?;
            expr(alloc, out, object, left)?;
            out.push_str(") ")?;
            stmt(alloc, out, body.get(), left)
        }
        _ => Ok(()),
    }
}

#[cycle(print)]
fn try_statement(
    alloc: Global,
    out: &mut String,
    tried: &Stmt,
    handler: &Option<Catch>,
    last: Option<&Stmt>,
    left: u32,
) -> Mem<()> {
    let left = below(left)?;
    out.push_str("try ")?;
    stmt(alloc, out, tried, left)?;
    if let Some(found) = handler {
        catch(alloc, out, found, left)?;
    }
    if let Some(block) = last {
        out.push_str(" finally ")?;
        stmt(alloc, out, block, left)?;
    }
    Ok(())
}

#[cycle(print)]
pub fn stmt(alloc: Global, out: &mut String, x: &Stmt, left: u32) -> Mem<()> {
    let left = below(left)?;
    match x {
        Stmt::Block(body) => block_statement(alloc, out, body.as_slice(), left),
        Stmt::Var(all) => {
            declarations(alloc, out, all.as_slice(), left)?;
            out.push(';')?;
            Ok(())
        }
        Stmt::Function(code) => function(alloc, out, code.get(), left),
        Stmt::Empty => Ok(out.push(';')?),
        Stmt::Expression(value) => {
            expr(alloc, out, value, left)?;
            out.push(';')?;
            Ok(())
        }
        Stmt::Break => Ok(out.push_str("break;")?),
        Stmt::Continue => Ok(out.push_str("continue;")?),
        Stmt::Return(value) => ended(alloc, out, "return", value, left),
        Stmt::Throw(value) => {
            out.push_str("throw")?;
            prefix_plain(alloc, out, value, left)?;
            out.push(';')?;
            Ok(())
        }
        Stmt::Try(tried, handler, last) => {
            let block = match last {
                None => None,
                Some(block) => Some(block.get()),
            };
            try_statement(alloc, out, tried.get(), handler, block, left)
        }
        _ => nested(alloc, out, x, left),
    }
}
