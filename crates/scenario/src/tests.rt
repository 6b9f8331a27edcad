//! Scenario files, and what their lines say or which fault they have. Expected values are counted by hand from the
//! table of lines.

use crate::EventsKind::{BadNumber, BadSelector, BadVerb, MissingField, NotUtf8, TooLong};
use crate::{EventsFault, EventsKind, Line, SCENARIO_LIMIT, read_events};
use base_text::{OrMemory, Text};
use dom_query::{Selector, parse_selector};
use std::alloc::Global;
use std::process::Abort;
use std::test::Fail;
use std::time::Instant;

/// A line's number, its verb, its selector, and its text, name or number.
type Said = (u32, &'static str, &'static str, &'static str);

/// Whether a selector is the one that a text spells.
fn is_selector(alloc: Global, selector: &Selector, spelled: &str) -> Result<bool, Fail> {
    let want = parse_selector(alloc, &Text::of(alloc, spelled)?)?;
    let want = format!(in alloc; "{want:?}")?;
    let got = format!(in alloc; "{selector:?}")?;
    Ok(got.as_str() == want.as_str())
}

/// Whether a line says this.
fn says(alloc: Global, line: &Line, said: &Said) -> Result<bool, Fail> {
    let (number, verb, selector, value) = *said;
    match line {
        Line::Click(n, s) => {
            Ok(*n == number && verb == "click" && is_selector(alloc, s, selector)?)
        }
        Line::Input(n, s, text) => Ok(
            *n == number
                && verb == "input"
                && text.as_str() == value
                && is_selector(alloc, s, selector)?,
        ),
        Line::Event(n, s, name) => Ok(
            *n == number
                && verb == "event"
                && name.as_str() == value
                && is_selector(alloc, s, selector)?,
        ),
        Line::Tick(n, count) => {
            let digits = Text::decimal(alloc, i64::from(*count))?;
            Ok(*n == number && verb == "tick" && digits.as_str() == value)
        }
    }
}

/// Whether lines say this, one by one.
fn all_say(alloc: Global, lines: &[Line], said: &[Said]) -> Result<bool, Fail> {
    if lines.len() != said.len() {
        return Ok(false);
    }
    for i in 0..lines.len() {
        if !says(alloc, &lines[i], &said[i])? {
            return Ok(false);
        }
    }
    Ok(true)
}

/// The fault of a file, if it has one.
fn fault_of(alloc: Global, bytes: &[u8]) -> Option<OrMemory<EventsFault>> {
    read_events(alloc, bytes).err()
}

fn at(line: u32, kind: EventsKind) -> Option<OrMemory<EventsFault>> {
    Some(OrMemory::Fault(EventsFault { line, kind }))
}

#[test]
fn files_that_are_read(rt: HostRuntime) -> Result<(), Fail> {
    let alloc = rt.alloc();
    let rows: [(&str, &[Said]); 34] = [
        ("", &[]),
        ("\n", &[]),
        ("\r\n\r\n\n", &[]),
        ("#", &[]),
        ("# click p\n#\n#tick 01", &[]),
        ("click p", &[(1, "click", "p", "")]),
        ("click p\n", &[(1, "click", "p", "")]),
        ("click p\r\n", &[(1, "click", "p", "")]),
        ("\n\nclick p\n\n", &[(3, "click", "p", "")]),
        ("#a\r\n\r\nclick #b\r\n", &[(3, "click", "#b", "")]),
        ("click  p", &[(1, "click", "p", "")]),
        ("click   p  ", &[(1, "click", "p", "")]),
        ("click p\r", &[(1, "click", "p", "")]),
        ("click div p, #a.b", &[(1, "click", "div p,#a.b", "")]),
        ("click [a=\"x y\"]", &[(1, "click", "[a='x y']", "")]),
        ("click é", &[(1, "click", "é", "")]),
        ("input p ", &[(1, "input", "p", "")]),
        ("input p x", &[(1, "input", "p", "x")]),
        ("input p  ", &[(1, "input", "p", " ")]),
        ("input p  x y ", &[(1, "input", "p", " x y ")]),
        ("input p é😀\tz", &[(1, "input", "p", "é😀\tz")]),
        ("input p x\r\n", &[(1, "input", "p", "x")]),
        ("input p x\r\r\n", &[(1, "input", "p", "x\r")]),
        ("input p x\r", &[(1, "input", "p", "x\r")]),
        ("input p x\ry\n", &[(1, "input", "p", "x\ry")]),
        ("input p \r\n", &[(1, "input", "p", "")]),
        ("event p x", &[(1, "event", "p", "x")]),
        ("event p,a é\t#", &[(1, "event", "p, a", "é\t#")]),
        ("event #a.b click\n", &[(1, "event", "#a.b", "click")]),
        ("event p x\r", &[(1, "event", "p", "x\r")]),
        ("tick 0", &[(1, "tick", "", "0")]),
        (
            "tick 7\r\ntick 10\n",
            &[(1, "tick", "", "7"), (2, "tick", "", "10")],
        ),
        ("tick 999999999", &[(1, "tick", "", "999999999")]),
        ("tick 1000000000", &[(1, "tick", "", "1000000000")]),
    ];
    for (file, said) in rows {
        let lines = read_events(alloc, file.as_bytes())?;
        assert!(rt; all_say(alloc, lines.as_slice(), said)?, "{file:?}");
    }
    let lines = read_events(
        alloc,
        b"click #b\ntick 100\n\n#\ninput #b a b\r\nevent body go\ntick 500",
    )?;
    let said: [Said; 5] = [
        (1, "click", "#b", ""),
        (2, "tick", "", "100"),
        (5, "input", "#b", "a b"),
        (6, "event", "body", "go"),
        (7, "tick", "", "500"),
    ];
    assert!(rt; all_say(alloc, lines.as_slice(), &said)?);
    Ok(())
}

#[test]
fn files_that_are_refused(rt: HostRuntime) {
    let alloc = rt.alloc();
    for (file, line, kind) in [
        // The verb runs to the first space or the line's end.
        ("jump", 1, BadVerb),
        ("click body\njump", 2, BadVerb),
        (" ", 1, BadVerb),
        (" click p", 1, BadVerb),
        ("Click p", 1, BadVerb),
        ("clicks p", 1, BadVerb),
        ("clic p", 1, BadVerb),
        ("click\tp", 1, BadVerb),
        ("tick\r", 1, BadVerb),
        (" # a", 1, BadVerb),
        ("\u{feff}click p", 1, BadVerb),
        ("menu a b", 1, BadVerb),
        ("#\n\n\r\nx y\ntick 1", 4, BadVerb),
        // A field isn't there.
        ("click", 1, MissingField),
        ("click\r\n", 1, MissingField),
        ("click ", 1, MissingField),
        ("input", 1, MissingField),
        ("input ", 1, MissingField),
        ("input p", 1, MissingField),
        ("input [", 1, MissingField),
        ("input  p x", 1, MissingField),
        ("event", 1, MissingField),
        ("event p", 1, MissingField),
        ("event p ", 1, MissingField),
        ("event  x", 1, MissingField),
        ("event p a b", 1, MissingField),
        ("event p  a", 1, MissingField),
        ("event p a ", 1, MissingField),
        ("event [ a b", 1, MissingField),
        ("tick", 1, MissingField),
        ("tick ", 1, MissingField),
        ("tick 1\ntick 2\ntick", 3, MissingField),
        // SELECTOR is no selector.
        ("click [", 1, BadSelector),
        ("click  ", 1, BadSelector),
        ("click p >a", 1, BadSelector),
        ("input [ x", 1, BadSelector),
        ("input a, b", 1, BadSelector),
        ("input [a='x y'] z", 1, BadSelector),
        ("event . x", 1, BadSelector),
        ("tick 1\n\nclick p,", 3, BadSelector),
        // N is no number within the limit.
        ("tick 01", 1, BadNumber),
        ("tick 00", 1, BadNumber),
        ("tick +1", 1, BadNumber),
        ("tick -1", 1, BadNumber),
        ("tick  1", 1, BadNumber),
        ("tick 1 ", 1, BadNumber),
        ("tick 1\r", 1, BadNumber),
        ("tick 1.0", 1, BadNumber),
        ("tick x", 1, BadNumber),
        ("tick 1000000001", 1, BadNumber),
        ("tick 4294967296", 1, BadNumber),
        ("tick 99999999999999999999", 1, BadNumber),
        ("click p\ntick +", 2, BadNumber),
        // The first faulty line counts, whatever its kind.
        ("tick x\njump", 1, BadNumber),
        ("click [\nevent", 1, BadSelector),
        ("\n# x\nclick\nclick [\njump\ntick 01", 3, MissingField),
    ] {
        assert_eq!(rt;
            fault_of(alloc, file.as_bytes()),
            at(line, kind),
            "{file:?}"
        );
    }
}

/// A file of one `input` line with as many bytes.
fn file_of(alloc: Global, count: usize) -> Result<Vec<u8>, Fail> {
    let mut bytes = Vec::new(alloc);
    for byte in b"input p " {
        bytes.push(*byte)?;
    }
    for _ in bytes.len()..count {
        bytes.push(b'x')?;
    }
    Ok(bytes)
}

#[test]
fn whole_files_are_refused(rt: HostRuntime) -> Result<(), Fail> {
    let alloc = rt.alloc();
    for (file, want) in [
        (&b"\xFF"[..], at(0, NotUtf8)),
        (b"click p\n\xC3", at(0, NotUtf8)),
        (b"jump\n\xED\xA0\x80\n", at(0, NotUtf8)),
        (b"# \xF0\x9F\x98\x80\n", None),
    ] {
        assert_eq!(rt; fault_of(alloc, file), want, "{file:?}");
    }
    assert_eq!(rt; SCENARIO_LIMIT, 262_144);
    let whole = read_events(alloc, file_of(alloc, 262_144)?.as_slice())?;
    assert!(rt; whole.len() == 1);
    assert!(rt; matches!(&whole[0], Line::Input(1, _, text) if text.count() == 262_136));
    let mut long = file_of(alloc, 262_145)?;
    assert!(rt; long.len() == 262_145);
    assert_eq!(rt; fault_of(alloc, long.as_slice()), at(0, TooLong));
    long[262_144] = 0xFF;
    assert_eq!(rt; fault_of(alloc, long.as_slice()), at(0, TooLong));
    assert_eq!(rt; fault_of(alloc, &long[1..]), at(0, NotUtf8));
    let empty = vec![in alloc; b'\n'; 262_144]?;
    assert_eq!(rt; read_events(alloc, empty.as_slice())?.len(), 0);
    let mut last = empty;
    assert!(rt; last.len() == 262_144);
    last[262_143] = b'x';
    assert_eq!(rt; fault_of(alloc, last.as_slice()), at(262_144, BadVerb));
    Ok(())
}

/// A file that begins so and has as many of these pieces as the limit takes.
fn full_of(alloc: Global, begin: &str, piece: &str) -> Result<Vec<u8>, Fail> {
    let mut bytes = Vec::new(alloc);
    bytes.extend_from_slice(begin.as_bytes())?;
    for _ in 0..SCENARIO_LIMIT {
        if SCENARIO_LIMIT.saturating_sub(bytes.len()) < piece.len() {
            break;
        }
        bytes.extend_from_slice(piece.as_bytes())?;
    }
    Ok(bytes)
}

/// The times are for `bench/run`.
#[test]
fn full_files_are_read(rt: HostRuntime) -> Result<(), Fail> {
    let alloc = rt.alloc();
    for (begin, piece, want) in [
        ("", "\n", 0),
        ("", "# a comment\n", 0),
        ("", "tick 1\n", 37_449),
        ("", "click p\n", 32_768),
        ("", "input p x\n", 26_214),
        ("", "event p x\n", 26_214),
        ("click p", "p", 1),
        ("click p", ",p", 1),
        ("input p ", "x", 1),
    ] {
        let file = full_of(alloc, begin, piece)?;
        let began = Instant::now(&rt)?;
        let read = read_events(alloc, file.as_slice())?.len();
        let took = began.elapsed(&rt)?.as_micros();
        assert_eq!(rt; read, want, "{piece:?}");
        println!(rt;
            "bench: scenario of {} bytes, {begin:?} and then {piece:?} again and again: {took} us",
            file.len()
        )?;
    }
    Ok(())
}
