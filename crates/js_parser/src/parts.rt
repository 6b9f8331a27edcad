//! The parts one level deeper, down to the last level: each form calls these in turn.
ghost use Rattle.js_syntax.specs.declared.limits.TheConstants.{CHAIN_LIMIT};
ghost use Rattle.js_syntax.specs.Symbols.{next, sees, among};
ghost use Rattle.std.specs.Prelude.{◌≡◌};
ghost use Rattle.js_cursor.specs.Reads.{Reads};
ghost use Rattle.js_parser.specs.Nests.{part_of, form_of};
ghost use Rattle.js_parser.specs.Parts.{begins_part, begins_form};
ghost use Rattle.js_reference_parser.specs.StatementsModel as spec;

use crate::level::{Form, Level, Part, refuse_part};
use js_cursor::{Cursor, Failed, Set};
use js_syntax::{Expr, Property, Stmt, Symbol};
use sqlite_items::Boxed;
use std::alloc::Global;

/// Whether such a part begins here.
pub fn begins_part(tokens: &Cursor<'_>, part: Part) -> bool
    ensures { result ≡ sees (begins_part part) (next tokens.now) }
{
    match part {
        Part::Whole(_) | Part::Operand => tokens.sees_any(Set::ExprFirsts),
        Part::Target | Part::Callee | Part::NewTarget => tokens.sees_any(Set::BaseFirsts),
    }
}

/// Whether such a statement begins here.
pub fn begins_form(tokens: &Cursor<'_>, form: Form, in_function: bool, in_loop: bool) -> bool
    ensures { result ≡ sees (begins_form form in_function in_loop) (next tokens.now) }
{
    match form {
        Form::Any => tokens.begins_stmt(in_function, in_loop),
        Form::Block => tokens.sees(Symbol::OpenBrace),
    }
}

/// A part of an expression, of at most this number of levels.
#[cycle(parts)]
pub fn expr(
    alloc: Global,
    tokens: &mut Cursor<'_>,
    levels: usize,
    part: Part,
) -> Result<Boxed<Expr>, Failed>
    ensures { Reads (part_of (spec.within CHAIN_LIMIT levels) part tokens.old) result tokens.new }
{
    if levels == 0 {
        return Err(refuse_part(begins_part(tokens, part)));
    }
    let level = Level {
        alloc,
        left: levels - 1,
        expr,
        member,
        stmt,
    };
    match part {
        Part::Whole(in_allowed) => level.assign(tokens, in_allowed),
        Part::Operand => level.unary(tokens),
        Part::Target => level.update_target(tokens),
        Part::Callee => level.callee(tokens),
        Part::NewTarget => level.new_target(tokens),
    }
}

/// A member of an object literal, of at most this number of levels.
#[cycle(parts)]
pub fn member(alloc: Global, tokens: &mut Cursor<'_>, levels: usize) -> Result<Property, Failed>
    ensures { Reads ((spec.within CHAIN_LIMIT levels).member tokens.old) result tokens.new }
{
    if levels == 0 {
        return Err(refuse_part(tokens.sees_any(Set::MemberFirsts)));
    }
    Level {
        alloc,
        left: levels - 1,
        expr,
        member,
        stmt,
    }
    .member(tokens)
}

/// A statement, of at most this number of levels.
#[cycle(parts)]
pub fn stmt(
    alloc: Global,
    tokens: &mut Cursor<'_>,
    levels: usize,
    form: Form,
    in_function: bool,
    in_loop: bool,
) -> Result<Stmt, Failed>
    ensures { Reads (form_of (spec.within CHAIN_LIMIT levels) form in_function in_loop tokens.old) result tokens.new }
{
    if levels == 0 {
        return Err(refuse_part(begins_form(tokens, form, in_function, in_loop)));
    }
    let level = Level {
        alloc,
        left: levels - 1,
        expr,
        member,
        stmt,
    };
    match form {
        Form::Any => level.statement(tokens, in_function, in_loop),
        Form::Block => level.block(tokens, in_function, in_loop),
    }
}
