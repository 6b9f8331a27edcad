//! What a body declares, found by one walk over its statements, so that no call has to walk it.

ghost use Rattle.std.specs.Prelude.{◌≡◌, ◌++◌, OnOk, IfOk};
ghost use Rattle.std.specs.List.{flat_map};
ghost use Rattle.js_semantics.specs.Bodies.{functions, handler, inner, names_of, optional, own_functions, own_names, start_names, target_names, var_names};
ghost use Rattle.js_syntax.specs.declared.tree.ForStart.{out-ForStart};
ghost use Rattle.js_syntax.specs.declared.tree.ForTarget.{out-ForTarget};
ghost use Rattle.js_syntax.specs.declared.tree.Stmt.{out-Stmt};
ghost use Rattle.js_code.specs.Walks.{names_within, functions_within};

use base_text::{Mem, Text};
use js_syntax::{Catch, Declaration, ForStart, ForTarget, Function, LEVEL_LIMIT, Shared, Stmt};
use sqlite_items::{Boxed, Items};
use std::alloc::Global;

/// The names that `var` declares, and the functions, each in the order of their statements.
#[derive(Drop)]
pub struct Declared {
    pub names: Items<Text>,
    pub functions: Items<Shared<Function>>,
}

/// What the statements of a body declare.
pub fn declared_in(alloc: Global, body: &[Stmt]) -> Mem<Declared>
    ensures names { IfOk result (λ found. found.names ≡ var_names body.now) }
    ensures functions { IfOk result (λ found. found.functions ≡ functions body.now) }
{
    let mut found = Declared {
        names: Items::new(alloc),
        functions: Items::new(alloc),
    };
    each(&mut found, body, LEVEL_LIMIT)?;
    Ok(found)
}

/// Adds what statements declare, with those in them, so many levels deep.
#[cycle(walk)]
fn each(found: &mut Declared, statements: &[Stmt], levels: usize) -> Mem<()>
    ensures names { OnOk result (found.new.names ≡ found.old.names ++ flat_map (names_within levels) statements.now) }
    ensures functions { OnOk result (found.new.functions ≡ found.old.functions ++ flat_map (functions_within levels) statements.now) }
{
    for statement in statements {
        within(found, statement, levels)?;
    }
    Ok(())
}

/// Adds what a statement declares, with those in it, so many levels deep.
#[cycle(walk)]
fn within(found: &mut Declared, statement: &Stmt, levels: usize) -> Mem<()>
    ensures names { OnOk result (found.new.names ≡ found.old.names ++ names_within levels statement.now) }
    ensures functions { OnOk result (found.new.functions ≡ found.old.functions ++ functions_within levels statement.now) }
{
    if levels == 0 {
        return Ok(());
    }
    own(found, statement)?;
    below(found, statement, levels - 1)
}

/// Adds what the statements in a statement declare, so many levels deep.
#[cycle(walk)]
fn below(found: &mut Declared, statement: &Stmt, levels: usize) -> Mem<()>
    ensures names { OnOk result (found.new.names ≡ found.old.names ++ flat_map (names_within levels) (inner (out-Stmt statement.now))) }
    ensures functions { OnOk result (found.new.functions
        ≡ found.old.functions ++ flat_map (functions_within levels) (inner (out-Stmt statement.now))) }
{
    match statement {
        Stmt::Block(statements) => each(found, statements.as_slice(), levels),
        Stmt::If(_, body, other) => {
            within(found, body.get(), levels)?;
            perhaps(found, other, levels)
        }
        Stmt::While(_, body) => within(found, body.get(), levels),
        Stmt::For(_, _, _, body) => within(found, body.get(), levels),
        Stmt::ForIn(_, _, body) => within(found, body.get(), levels),
        Stmt::Try(body, catch, last) => {
            within(found, body.get(), levels)?;
            caught(found, catch, levels)?;
            perhaps(found, last, levels)
        }
        Stmt::Var(_)
        | Stmt::Function(_)
        | Stmt::Empty
        | Stmt::Expression(_)
        | Stmt::Break
        | Stmt::Continue
        | Stmt::Return(_)
        | Stmt::Throw(_) => Ok(()),
    }
}

/// Adds what a statement that may be missing declares.
#[cycle(walk)]
fn perhaps(found: &mut Declared, statement: &Option<Boxed<Stmt>>, levels: usize) -> Mem<()>
    ensures names { OnOk result (found.new.names ≡ found.old.names ++ flat_map (names_within levels) (optional statement.now)) }
    ensures functions { OnOk result (found.new.functions
        ≡ found.old.functions ++ flat_map (functions_within levels) (optional statement.now)) }
{
    match statement {
        Some(statement) => within(found, statement.get(), levels),
        None => Ok(()),
    }
}

/// Adds what the block of a `catch` that may be missing declares.
#[cycle(walk)]
fn caught(found: &mut Declared, catch: &Option<Catch>, levels: usize) -> Mem<()>
    ensures names { OnOk result (found.new.names ≡ found.old.names ++ flat_map (names_within levels) (handler catch.now)) }
    ensures functions { OnOk result (found.new.functions
        ≡ found.old.functions ++ flat_map (functions_within levels) (handler catch.now)) }
{
    match catch {
        Some(catch) => within(found, catch.block.get(), levels),
        None => Ok(()),
    }
}

/// Adds what a statement declares itself.
fn own(found: &mut Declared, statement: &Stmt) -> Mem<()>
    ensures names { OnOk result (found.new.names ≡ found.old.names ++ own_names (out-Stmt statement.now)) }
    ensures functions { OnOk result (found.new.functions ≡ found.old.functions ++ own_functions (out-Stmt statement.now)) }
{
    match statement {
        Stmt::Var(declarations) => named(&mut found.names, declarations.as_slice()),
        Stmt::For(start, _, _, _) => started(&mut found.names, start),
        Stmt::ForIn(target, _, _) => targeted(&mut found.names, target),
        Stmt::Function(function) => Ok(found.functions.push(function.share()?)?),
        Stmt::Block(_)
        | Stmt::Empty
        | Stmt::Expression(_)
        | Stmt::If(_, _, _)
        | Stmt::While(_, _)
        | Stmt::Break
        | Stmt::Continue
        | Stmt::Return(_)
        | Stmt::Throw(_)
        | Stmt::Try(_, _, _) => Ok(()),
    }
}

/// Adds declared names.
fn named(names: &mut Items<Text>, declarations: &[Declaration]) -> Mem<()>
    ensures { OnOk result (names.new ≡ names.old ++ names_of declarations.now) }
{
    for declaration in declarations {
        names.push(declaration.name.share()?)?;
    }
    Ok(())
}

/// Adds the names that stand first in the head of a `for`.
fn started(names: &mut Items<Text>, start: &ForStart) -> Mem<()>
    ensures { OnOk result (names.new ≡ names.old ++ start_names (out-ForStart start.now)) }
{
    match start {
        ForStart::Var(declarations) => named(names, declarations.as_slice()),
        ForStart::Nothing | ForStart::Expression(_) => Ok(()),
    }
}

/// Adds the name that a `for` over keys declares.
fn targeted(names: &mut Items<Text>, target: &ForTarget) -> Mem<()>
    ensures { OnOk result (names.new ≡ names.old ++ target_names (out-ForTarget target.now)) }
{
    match target {
        ForTarget::Var(name) => Ok(names.push(name.share()?)?),
        ForTarget::Expression(_) => Ok(()),
    }
}
