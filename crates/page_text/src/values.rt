//! Reading the bytes of a text or of a value.

ghost use Rattle.std.specs.Prelude.{◌≡◌, ◌≢◌, ◌++◌, ℕ, [], List, None, Some, drop, length, true, false, MatchOption, IfNone, IfOk, IfSome};
ghost use Rattle.page_text.specs.Bytes.{lowered};
ghost use Rattle.page_text.specs.Outcomes.{Gives, checked};
ghost use Rattle.std.specs.String.{string_bytes};
ghost use Rattle.page_text.specs.ValuesModel.{Leaves, ReadsEntity, entity_at, read_value, spells, unescaped, with_line_ends};

use crate::faults::{Failed, PageKind};
use crate::scan::{Stop, scan, sees};
use base_text::{Mem, NoMemory, TEXT_LIMIT, Text};
use std::alloc::{AllocError, Global};

/// What follows a word at the front of a text.
pub(crate) fn after<'a>(text: &'a str, word: &str) -> Option<&'a str>
    ensures { MatchOption result (spells word.now text.now ≡ false) (Leaves word.now text.now) }
{
    text.strip_prefix(word)
}

/// The text with each CR LF and each CR as LF.
pub(crate) fn with_line_ends(alloc: Global, raw: &str) -> Result<String, AllocError>
    ensures { IfOk result (λ t. string_bytes t ≡ with_line_ends raw.now) }
{
    let mut read = String::new(alloc);
    let mut rest = raw;
    loop {
        let (line, end) = scan(rest, Stop::AtByte(b'\r'));
        read.push_str(line)?;
        match after(end, "\r") {
            None => return Ok(read),
            Some(next) => {
                if !sees(b'\n', next.as_bytes()) {
                    read.push('\n')?;
                }
                rest = next;
            }
        }
    }
}

/// The character of the entity at the front of a text, and what follows it.
fn entity(text: &str) -> Option<(char, &str)>
    ensures { MatchOption result (entity_at text.now ≡ None) (λ x. ReadsEntity text.now x.0 x.1.now) }
{
    if let Some(rest) = after(text, "&amp;") {
        return Some(('&', rest));
    }
    if let Some(rest) = after(text, "&lt;") {
        return Some(('<', rest));
    }
    if let Some(rest) = after(text, "&gt;") {
        return Some(('>', rest));
    }
    if let Some(rest) = after(text, "&quot;") {
        return Some(('"', rest));
    }
    if let Some(rest) = after(text, "&apos;") {
        return Some(('\'', rest));
    }
    None
}

/// The text with each entity as its character.
fn unescaped(alloc: Global, raw: &str) -> Result<String, AllocError>
    ensures { IfOk result (λ t. string_bytes t ≡ unescaped raw.now) }
{
    let mut read = String::new(alloc);
    let mut rest = raw;
    loop {
        let (plain, special) = scan(rest, Stop::AtByte(b'&'));
        read.push_str(plain)?;
        let Some(next) = after(special, "&") else {
            return Ok(read);
        };
        match entity(special) {
            None => {
                read.push('&')?;
                rest = next;
            }
            Some((c, behind)) => {
                read.push(c)?;
                rest = behind;
            }
        }
    }
}

/// The text of these bytes, which are read from `at` on; `TooLong` at `at` exactly over the limit.
#[tactic(auto, unfolding(crate::specs::Outcomes::checked))]
fn checked<'a>(alloc: Global, read: &str, at: &'a str) -> Result<Text, Failed<'a>>
    ensures { Gives (λ t. t) result (checked read.now at.now) }
{
    if read.len() > TEXT_LIMIT {
        return Err(Failed::Fault(PageKind::TooLong, at));
    }
    match Text::of(alloc, read) {
        Ok(text) => Ok(text),
        Err(_) => Err(Failed::Memory),
    }
}

/// A text as it stands in script, style or a comment.
pub(crate) fn raw_text<'a>(alloc: Global, raw: &str, at: &'a str) -> Result<Text, Failed<'a>>
    ensures { Gives (λ t. t) result (checked (with_line_ends raw.now) at.now) }
{
    let read = with_line_ends(alloc, raw)?;
    checked(alloc, &read, at)
}

/// A text or a value with entities.
pub(crate) fn value<'a>(alloc: Global, raw: &str, at: &'a str) -> Result<Text, Failed<'a>>
    ensures { Gives (λ t. t) result (checked (read_value raw.now) at.now) }
{
    let lines = with_line_ends(alloc, raw)?;
    let read = unescaped(alloc, &lines)?;
    checked(alloc, &read, at)
}

/// A name in lower case.
pub(crate) fn name<'a>(alloc: Global, raw: &str, at: &'a str) -> Result<Text, Failed<'a>>
    ensures { Gives (λ t. t) result (checked (lowered raw.now) at.now) }
{
    let read = raw.to_ascii_lowercase(alloc)?;
    checked(alloc, &read, at)
}

/// The empty text.
pub(crate) fn no_text(alloc: Global) -> Mem<Text>
    ensures { IfOk result (λ t. t ≡ []) }
{
    match Text::of(alloc, "") {
        Ok(text) => Ok(text),
        Err(_) => Err(NoMemory),
    }
}
