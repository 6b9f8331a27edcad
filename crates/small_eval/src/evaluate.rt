//! How a script's lines run (ECMAScript, by form); each expression and statement is charged when it begins.

ghost use Rattle.std.specs.Prelude.{◌≡◌, ◌≢◌, ◌<◌, ◌≤◌, ◌+◌, ◌*◌, ◌^◌, ◌++◌, List, ℕ, length, OnOk, IfOk};
ghost use Rattle.base_text.specs.Scalars.{utf8_len};
ghost use Rattle.door.specs.declared.marks.Mark.{Mark};
ghost use Rattle.door.specs.declared.values.Actor.{Actor as AnyActor};
ghost use Rattle.small_forms.specs.Scripts.{AreLines, IsSum, sum_of};
ghost use Rattle.js_semantics.specs.Intrinsics.{Setup};
ghost use Rattle.small_meaning.specs.Rows.{Cont, Lone, added, addition_row, argument_units, call_units, joined_row, line_row, lines_row, log_row, part_row, plus_row, text_of, text_units, title_row};
ghost use Rattle.small_meaning.specs.Reached.{HasReached};
ghost use Rattle.small_eval.specs.Continuations.{Continues, ContinuesWithLine, NotOutOfMemory, HasMet, IsSmall, IsText, MeetsNothing};
ghost use Rattle.small_eval.specs.Heads.{IsHeaded};
ghost use Rattle.small_eval.specs.Worlds.{IsSound, PreservesRest};

use crate::ask::{ask_document, ask_log, ask_set_title, ask_title};
use crate::exit::{Exit, charge};
use crate::world::World;
use base_text::{Mem, Text, TextFault};
use door::{Actor, ErrorKind, Zone};
use small_forms::{Line, Part, Sum};
use small_meaning::Prim;
use std::alloc::Global;

/// Evaluates a part of a sum.
fn part(
    alloc: Global,
    world: &mut World,
    actor: Actor,
    fuel: &mut u32,
    part: &Part,
) -> Result<Prim, Exit>
    requires sound { IsSound world.old }
    requires room { length world.old.journal.marks + fuel.old < world.old.journal.limit }
    ensures own { (s : Setup) (c : Cont) → HasReached s actor world.old.journal.marks (part_row part.now c fuel.old) → Continues s actor world.new.journal.marks fuel.new c result }
    ensures same { NotOutOfMemory result → MeetsNothing actor world.old.journal.marks world.new.journal.marks }
    ensures keeps { NotOutOfMemory result → PreservesRest actor world.old world.new fuel.old fuel.new }
    ensures small { IfOk result (λ value. IsSmall 1 value) }
{
    match part {
        Part::Title => title(alloc, world, actor, fuel),
        Part::Number(number) => {
            charge(fuel, 1)?;
            Ok(Prim::Number(u32::from(*number)))
        }
        Part::Quoted(text) => {
            charge(fuel, 1)?;
            Ok(Prim::Str(text.share()?))
        }
    }
}

/// Evaluates `document.title`.
fn title(alloc: Global, world: &mut World, actor: Actor, fuel: &mut u32) -> Result<Prim, Exit>
    requires sound { IsSound world.old }
    requires room { length world.old.journal.marks + fuel.old < world.old.journal.limit }
    ensures own { (s : Setup) (c : Cont) → HasReached s actor world.old.journal.marks (part_row Part.Title c fuel.old) → Continues s actor world.new.journal.marks fuel.new c result }
    ensures same { NotOutOfMemory result → MeetsNothing actor world.old.journal.marks world.new.journal.marks }
    ensures keeps { NotOutOfMemory result → PreservesRest actor world.old world.new fuel.old fuel.new }
    ensures small { IfOk result (λ value. IsSmall 1 value) }
{
    charge(fuel, 1)?;
    ask_document(alloc, world, actor, fuel)?;
    let text = ask_title(alloc, world, actor, fuel)?;
    Ok(Prim::Str(text))
}

/// The units of a text that is made: one for each started 64 bytes.
pub fn text_units(text: &Text) -> u32
    ensures { result ≡ text_units text.now }
{
    (text.as_str().len() as u32).div_ceil(64)
}

/// A value as a text (ECMAScript, ToString).
pub fn text_of(alloc: Global, value: &Prim) -> Mem<Text>
    ensures { IfOk result (λ text. text ≡ text_of value.now) }
{
    match value {
        Prim::Number(number) => Text::decimal(alloc, i64::from(*number)),
        Prim::Str(text) => text.share(),
    }
}

/// Joins two texts.
fn join(alloc: Global, fuel: &mut u32, left: &Text, right: &Text) -> Result<Prim, Exit>
    ensures own { (s : Setup) (i : AnyActor) (marks : List Mark) (c : Cont) → HasReached s i marks (joined_row (left.now ++ right.now) c fuel.old) → Continues s i marks fuel.new c result }
    ensures fuel { fuel.new ≤ fuel.old }
    ensures small { IfOk result (λ value. IsSmall 0 value) }
{
    match left.join(alloc, right) {
        Ok(text) => {
            charge(fuel, text_units(&text))?;
            Ok(Prim::Str(text))
        }
        Err(TextFault::TooLong) => Err(Exit::Throw(ErrorKind::TooLong)),
        Err(TextFault::NoMemory) => Err(Exit::NoMemory),
    }
}

/// Adds two values, or joins their texts (ECMAScript, The Addition Operator).
fn plus(alloc: Global, fuel: &mut u32, left: &Prim, right: &Prim) -> Result<Prim, Exit>
    requires small_left { IsSmall 7 left.now }
    requires small_right { IsSmall 1 right.now }
    ensures own { (s : Setup) (i : AnyActor) (marks : List Mark) (c : Cont) → HasReached s i marks (plus_row left.now right.now c fuel.old) → Continues s i marks fuel.new c result }
    ensures fuel { fuel.new ≤ fuel.old }
    ensures small { (parts : ℕ) → IsSmall parts left.now → IfOk result (λ value. IsSmall (parts + 1) value) }
{
    match (left, right) {
        (Prim::Number(a), Prim::Number(b)) => Ok(Prim::Number(*a + *b)),
        (Prim::Number(_), Prim::Str(_)) => join_values(alloc, fuel, left, right),
        (Prim::Str(_), _) => join_values(alloc, fuel, left, right),
    }
}

/// Joins the texts of two values, of which one is a text.
fn join_values(alloc: Global, fuel: &mut u32, left: &Prim, right: &Prim) -> Result<Prim, Exit>
    requires text { IsText left.now right.now }
    ensures own { (s : Setup) (i : AnyActor) (marks : List Mark) (c : Cont) → HasReached s i marks (plus_row left.now right.now c fuel.old) → Continues s i marks fuel.new c result }
    ensures fuel { fuel.new ≤ fuel.old }
    ensures small { IfOk result (λ value. IsSmall 0 value) }
{
    let left = text_of(alloc, left)?;
    let right = text_of(alloc, right)?;
    join(alloc, fuel, &left, &right)
}

/// Evaluates a sum from its first part on.
fn addition(
    alloc: Global,
    world: &mut World,
    actor: Actor,
    fuel: &mut u32,
    first: &Part,
    more: &[Part],
) -> Result<Prim, Exit>
    requires sound { IsSound world.old }
    requires few { length more.now ≤ 7 }
    requires room { length world.old.journal.marks + fuel.old < world.old.journal.limit }
    ensures own { (s : Setup) (c : Cont) → HasReached s actor world.old.journal.marks (addition_row (added (Lone first.now) more.now) c fuel.old) → Continues s actor world.new.journal.marks fuel.new c result }
    ensures same { NotOutOfMemory result → MeetsNothing actor world.old.journal.marks world.new.journal.marks }
    ensures keeps { NotOutOfMemory result → PreservesRest actor world.old world.new fuel.old fuel.new }
    ensures small { IfOk result (λ value. IsSmall (length more.now + 1) value) }
{
    let Some((last, before)) = more.split_last() else {
        return part(alloc, world, actor, fuel, first);
    };
    charge(fuel, 1)?;
    let left = addition(alloc, world, actor, fuel, first, before)?;
    let right = part(alloc, world, actor, fuel, last)?;
    plus(alloc, fuel, &left, &right)
}

/// Runs a line that logs a sum.
fn log_line(
    alloc: Global,
    world: &mut World,
    actor: Actor,
    zone: Zone,
    fuel: &mut u32,
    sum: &Sum,
) -> Result<(), Exit>
    requires sound { IsSound world.old }
    requires few { length sum.now.more ≤ 7 }
    requires room { length world.old.journal.marks + fuel.old < world.old.journal.limit }
    ensures own { (s : Setup) (c : Cont) → HasReached s actor world.old.journal.marks (log_row zone sum.now c fuel.old) → ContinuesWithLine s actor world.new.journal.marks fuel.new c result }
    ensures keeps { NotOutOfMemory result → PreservesRest actor world.old world.new fuel.old fuel.new }
{
    charge(fuel, call_units(zone))?;
    let value = addition(alloc, world, actor, fuel, &sum.first, sum.more.as_slice())?;
    let text = text_of(alloc, &value)?;
    charge(fuel, text_units(&text))?;
    ask_log(alloc, world, actor, zone, fuel, &text)
}

/// The statement, the call, and the name and the member that are called.
fn call_units(zone: Zone) -> u32
    ensures { result ≡ call_units zone }
{
    match zone {
        Zone::Page => 4,
        Zone::Host | Zone::XrayScript | Zone::PlainScript => 3,
    }
}

/// The units of a text that is made of an argument; a text is handed on.
fn argument_units(value: &Prim, text: &Text) -> u32
    requires { text.now ≡ text_of value.now }
    ensures { result ≡ argument_units value.now }
{
    match value {
        Prim::Number(_) => text_units(text),
        Prim::Str(_) => 0,
    }
}

/// Runs a line that writes a sum into the title.
fn title_line(
    alloc: Global,
    world: &mut World,
    actor: Actor,
    fuel: &mut u32,
    sum: &Sum,
) -> Result<(), Exit>
    requires sound { IsSound world.old }
    requires headed { IsHeaded world.old.tree }
    requires guest { actor.0 ≢ 0 }
    requires few { length sum.now.more ≤ 7 }
    requires room { length world.old.journal.marks + fuel.old < world.old.journal.limit }
    requires limit { world.old.journal.limit < 2 ^ 30 }
    ensures own { (s : Setup) (c : Cont) → HasReached s actor world.old.journal.marks (title_row sum.now c fuel.old) → ContinuesWithLine s actor world.new.journal.marks fuel.new c result }
    ensures keeps { NotOutOfMemory result → PreservesRest actor world.old world.new fuel.old fuel.new }
{
    charge(fuel, 2)?;
    ask_document(alloc, world, actor, fuel)?;
    let value = addition(alloc, world, actor, fuel, &sum.first, sum.more.as_slice())?;
    let text = text_of(alloc, &value)?;
    charge(fuel, argument_units(&value, &text))?;
    ask_set_title(alloc, world, actor, fuel, &text)
}

/// Runs a line.
fn line(
    alloc: Global,
    world: &mut World,
    actor: Actor,
    zone: Zone,
    fuel: &mut u32,
    line: &Line,
) -> Result<(), Exit>
    requires sound { IsSound world.old }
    requires headed { IsHeaded world.old.tree }
    requires guest { actor.0 ≢ 0 }
    requires adds { IsSum (sum_of line.now) }
    requires room { length world.old.journal.marks + fuel.old < world.old.journal.limit }
    requires limit { world.old.journal.limit < 2 ^ 30 }
    ensures own { (s : Setup) (c : Cont) → HasReached s actor world.old.journal.marks (line_row zone line.now c fuel.old) → ContinuesWithLine s actor world.new.journal.marks fuel.new c result }
    ensures keeps { NotOutOfMemory result → PreservesRest actor world.old world.new fuel.old fuel.new }
{
    match line {
        Line::Log(sum) => log_line(alloc, world, actor, zone, fuel, sum),
        Line::SetTitle(sum) => title_line(alloc, world, actor, fuel, sum),
    }
}

/// Runs the lines in order.
pub fn lines(
    alloc: Global,
    world: &mut World,
    actor: Actor,
    zone: Zone,
    fuel: &mut u32,
    lines: &[Line],
) -> Result<(), Exit>
    requires sound { IsSound world.old }
    requires headed { IsHeaded world.old.tree }
    requires guest { actor.0 ≢ 0 }
    requires adds { AreLines lines.now }
    requires room { length world.old.journal.marks + fuel.old < world.old.journal.limit }
    requires limit { world.old.journal.limit < 2 ^ 30 }
    ensures own { (s : Setup) (c : Cont) → HasReached s actor world.old.journal.marks (lines_row zone lines.now c fuel.old) → ContinuesWithLine s actor world.new.journal.marks fuel.new c result }
    ensures keeps { NotOutOfMemory result → PreservesRest actor world.old world.new fuel.old fuel.new }
{
    for next in lines {
        line(alloc, world, actor, zone, fuel, next)?;
    }
    Ok(())
}
