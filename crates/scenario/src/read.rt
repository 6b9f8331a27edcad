//! From the bytes of a scenario to its lines.
ghost use Rattle.std.specs.Prelude.{◌≡◌, ◌↔◌, ◌≤◌, ◌+◌, ℕ, List, length, IsTrue, IfOk, OnOk};
ghost use Rattle.std.specs.List.{All};
ghost use Rattle.std.specs.Str.Lines.{lines};
ghost use Rattle.base_text.specs.Answers.{IfFault, FaultOrMemory};
ghost use Rattle.base_text.specs.declared.text.TheConstants.{TEXT_LIMIT};
ghost use Rattle.scenario.specs.Lines.{IsSkipped, IsFaultyLine};
ghost use Rattle.scenario.specs.Parts.{Pushes, texts};
ghost use Rattle.scenario.specs.Scenarios.{SayAll, FailsFirst, IsScenario, IsRefused};
ghost use Rattle.scenario.specs.declared.fault.EventsFault.{EventsFault};
ghost use Rattle.scenario.specs.declared.line.Line.{Line};
ghost use Rattle.scenario.specs.declared.line.TheConstants.{SCENARIO_LIMIT};

use crate::fault::{EventsFault, EventsKind};
use crate::fields::read_line;
use crate::line::{Line, SCENARIO_LIMIT};
use base_text::{Mem, OrMemory};
use std::alloc::Global;

/// Whether a line is empty or begins with `#`.
fn is_skipped(line: &str) -> bool
    ensures { IsTrue result ↔ IsSkipped line.now }
{
    match line.as_bytes() {
        [] => true,
        [first, ..] => *first == b'#',
    }
}

/// Adds what a line says, unless it is skipped.
fn push_line(
    alloc: Global,
    line: &str,
    number: u32,
    read: &mut Vec<Line>,
) -> Result<(), OrMemory<EventsFault>>
    requires { length line.now ≤ TEXT_LIMIT }
    ensures ok { OnOk result (Pushes number line.now read.old.items read.new.items) }
    ensures fault { IfFault result (IsFaultyLine number line.now) }
{
    if is_skipped(line) {
        return Ok(());
    }
    match read_line(alloc, line, number) {
        Ok(line) => Ok(read.push(line)?),
        Err(OrMemory::Fault(kind)) => Err(OrMemory::Fault(EventsFault { line: number, kind })),
        Err(OrMemory::NoMemory) => Err(OrMemory::NoMemory),
    }
}

/// What the lines say.
fn read_lines(alloc: Global, lines: &[&str]) -> Result<Vec<Line>, OrMemory<EventsFault>>
    requires count { length lines.now ≤ SCENARIO_LIMIT + 1 }
    requires short { All (λ line. length line.now ≤ TEXT_LIMIT) lines.now }
    ensures ok { IfOk result (λ read. SayAll 1 (texts lines.now) read.items) }
    ensures fault { IfFault result (FailsFirst 1 (texts lines.now)) }
{
    let mut read = Vec::new(alloc);
    for i in 0..lines.len() {
        push_line(alloc, lines[i], i as u32 + 1, &mut read)?;
    }
    Ok(read)
}

/// The lines of a text.
fn lines_of<'a>(alloc: Global, s: &'a str) -> Mem<Vec<&'a str>>
    ensures exact { IfOk result (λ all. texts all.items ≡ lines s.now) }
    ensures count { IfOk result (λ all. length all.items ≤ length s.now + 1) }
    ensures short { IfOk result (λ all. All (λ line. length line.now ≤ length s.now) all.items) }
{
    Ok(s.lines().collect(alloc)?)
}

/// What the lines of a scenario say, in order; empty lines and those that begin with `#` say nothing.
///
/// A fault is that of the first faulty line, of several of one line the first in the list of
/// [`EventsKind`]. A file over 262,144 bytes is `TooLong`, and else one that isn't UTF-8 `NotUtf8`, both at
/// the line 0.
pub fn read_events(alloc: Global, bytes: &[u8]) -> Result<Vec<Line>, OrMemory<EventsFault>>
    // What is read is what the bytes say.
    ensures ok { IfOk result (λ read. IsScenario bytes.now read.items) }
    // What they say is read.
    ensures only { (read : List Line) → IsScenario bytes.now read → IfOk result (λ all. all.items ≡ read) }
    // Bytes that say something aren't refused.
    ensures taken { (read : List Line) → IsScenario bytes.now read → IfFault result (λ fault. ⊥) }
    // A refusal is the bytes' fault.
    ensures fault { IfFault result (IsRefused bytes.now) }
    // Bytes with a fault are refused with it.
    ensures first { (fault : EventsFault) → IsRefused bytes.now fault → FaultOrMemory result fault }
{
    if bytes.len() > SCENARIO_LIMIT {
        return Err(OrMemory::Fault(EventsFault {
            line: 0,
            kind: EventsKind::TooLong,
        }));
    }
    let Ok(s) = str::from_utf8(bytes) else {
        return Err(OrMemory::Fault(EventsFault {
            line: 0,
            kind: EventsKind::NotUtf8,
        }));
    };
    let lines = lines_of(alloc, s)?;
    read_lines(alloc, lines.as_slice())
}
