//! How a script is entered.

ghost use Rattle.std.specs.Prelude.{◌≡◌, ◌≢◌, ◌≤◌, ◌<◌, ◌+◌, ◌^◌, ◌++◌, codes, List, IfOk, OnOk, length};
ghost use Rattle.door.specs.declared.marks.Mark.{Mark as AnyMark};
ghost use Rattle.solo_model.specs.Closed.{Setups};
ghost use Rattle.small_meaning.specs.Errors.{error_text};
ghost use Rattle.solo_model.specs.Lawful.{IsEntry};
ghost use Rattle.small_meaning.specs.Rows.{Reads, outcome_of};
ghost use Rattle.small_eval.specs.Continuations.{Adds, NotOutOfMemory};
ghost use Rattle.small_eval.specs.Heads.{IsHeaded};
ghost use Rattle.small_eval.specs.Idle.{AreIdle};
ghost use Rattle.small_eval.specs.Outcomes.{done_of};
ghost use Rattle.small_eval.specs.Worlds.{IsSound};
ghost use Rattle.small_eval.specs.Bounds.{ENTRY_MARKS};

use crate::evaluate::lines;
use crate::exit::Exit;
use crate::world::{World, note};
use base_text::{Mem, NoMemory, Text, TextFault};
use door::{Actor, Entry, ErrorKind, FUEL_LIMIT, Mark, Outcome, Zone};
use small_forms::{Line, text_of};
use std::alloc::Global;

/// An error as a text (ECMAScript, Error.prototype.toString).
fn error_text(alloc: Global, reason: &ErrorKind) -> Mem<Text>
    ensures { IfOk result (λ text. text ≡ error_text reason.now) }
{
    match reason {
        ErrorKind::Hierarchy => text_of(alloc, b"HierarchyRequestError: cannot insert here"),
        ErrorKind::NotFound => text_of(alloc, b"NotFoundError: not a child"),
        ErrorKind::InvalidState => text_of(alloc, b"InvalidStateError: cannot dispatch now"),
        ErrorKind::Syntax => text_of(alloc, b"SyntaxError: bad selector"),
        ErrorKind::InvalidCharacter => text_of(alloc, b"InvalidCharacterError: bad name"),
        ErrorKind::Limit => text_of(alloc, b"RangeError: limit reached"),
        ErrorKind::TooDeep => text_of(alloc, b"RangeError: tree too deep"),
        ErrorKind::TooLong => text_of(alloc, b"RangeError: text too long"),
        ErrorKind::Range => text_of(alloc, b"RangeError: out of range"),
        ErrorKind::Kind => text_of(alloc, b"TypeError: wrong kind of value"),
        ErrorKind::Denied => text_of(alloc, b"Error: Permission denied to access property"),
        ErrorKind::Crossing(message) => crossing_text(alloc, message),
    }
}

/// The text of an error that says why a value can't cross.
fn crossing_text(alloc: Global, message: &Text) -> Mem<Text>
    ensures { IfOk result (λ text. text ≡ codes "Error: " ++ message.now) }
{
    match text_of(alloc, b"Error: ")?.join(alloc, message) {
        Ok(text) => Ok(text),
        // no value crosses yet, so no message is that long
        Err(TextFault::TooLong | TextFault::NoMemory) => Err(NoMemory),
    }
}

/// How an entry ended.
fn outcome(alloc: Global, ended: &Result<(), Exit>) -> Mem<Outcome>
    ensures outcome { IfOk result (λ outcome. outcome ≡ outcome_of (done_of ended.now)) }
    ensures goes { OnOk result (NotOutOfMemory ended.now) }
{
    match ended {
        Ok(()) => Ok(Outcome::Done),
        Err(Exit::Throw(reason)) => Ok(Outcome::Throw(error_text(alloc, reason)?)),
        Err(Exit::Halt(stop)) => Ok(Outcome::Stop(*stop)),
        Err(Exit::NoMemory) => Err(NoMemory),
    }
}

/// A script is entered with its text, runs the lines that the text is read as, and is left.
pub fn enter(
    alloc: Global,
    world: &mut World,
    actor: Actor,
    zone: Zone,
    text: &Text,
    script: &[Line],
) -> Mem<()>
    requires sound { IsSound world.old }
    requires headed { IsHeaded world.old.tree }
    requires guest { actor.0 ≢ 0 }
    requires reads { Reads zone text.now script.now }
    requires room { length world.old.journal.marks + ENTRY_MARKS ≤ world.old.journal.limit }
    requires limit { world.old.journal.limit < 2 ^ 30 }
    ensures entry { OnOk result ((marks : List AnyMark) × Adds world.old.journal world.new.journal marks × IsEntry actor text.now marks × (length marks ≤ ENTRY_MARKS)) }
    ensures sound { OnOk result (IsSound world.new) }
    ensures headed { OnOk result (IsHeaded world.new.tree) }
    ensures own { OnOk result (world.new.own ≡ world.old.own) }
    ensures idle { (setups : Setups) → (setups actor).zone ≡ zone → AreIdle setups world.old.journal.marks → OnOk result (AreIdle setups world.new.journal.marks) }
{
    note(world, Mark::Enter(actor, Entry::Script(text.share()?)))?;
    let mut fuel = FUEL_LIMIT;
    let ended = lines(alloc, world, actor, zone, &mut fuel, script);
    let outcome = outcome(alloc, &ended)?;
    note(world, Mark::Leave(actor, outcome, FUEL_LIMIT - fuel))
}
