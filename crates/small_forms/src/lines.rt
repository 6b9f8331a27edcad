//! Readers of the lines of scripts.

ghost use Rattle.base_text.specs.declared.text.TheConstants.{SOURCE_LIMIT};
ghost use Rattle.small_forms.specs.Readers.{IsLogger, ends_sum};
ghost use Rattle.small_forms.specs.Scripts.{AreLines, IsPageScript, IsSum, line_text, page_script_text, sum_of, sum_text, userscript_line};
ghost use Rattle.small_forms.specs.declared.script.Line.{Line as OneLine};
ghost use Rattle.small_forms.specs.declared.script.Sum.{Sum as OneSum};
ghost use Rattle.std.specs.Prelude.{◌≡◌, ◌≢◌, ◌≤◌, ◌++◌, List, ℕ, length, IfNone, IfOk, IfSome, IsTrue};
ghost use Rattle.std.specs.List.{flat_map};

use crate::bytes::after;
use crate::script::{Line, Lines, Sum};
use crate::sums::sum_in;
use base_text::Mem;
use std::alloc::Global;

/// The lines of a userscript, each with its LF.
pub fn userscript_lines_in(alloc: Global, bytes: &[u8]) -> Mem<Option<Lines>>
    requires { length bytes.now ≤ SOURCE_LIMIT }
    ensures some { IfOk result (λ found. IfSome found (λ lines. AreLines lines × (bytes.now ≡ flat_map userscript_line lines))) }
    ensures none { IfOk result (λ found. IfNone found ((lines : List OneLine) → AreLines lines → bytes.now ≢ flat_map userscript_line lines)) }
{
    let mut lines = Lines::new(alloc);
    let mut rest = bytes;
    while !rest.is_empty() {
        let Some((line, end)) = line_in(alloc, rest, b"GM_log")? else {
            return Ok(None);
        };
        let Some(left) = after(end, b"\n") else {
            return Ok(None);
        };
        lines.push(line)?;
        rest = left;
    }
    Ok(Some(lines))
}

/// The lines of the text of a script element, each but the last with its LF.
pub fn page_lines_in(alloc: Global, bytes: &[u8]) -> Mem<Option<Lines>>
    requires { length bytes.now ≤ SOURCE_LIMIT }
    ensures some { IfOk result (λ found. IfSome found (λ lines. IsPageScript bytes.now lines)) }
    ensures none { IfOk result (λ found. IfNone found ((lines : List OneLine) → IsPageScript bytes.now lines → ⊥)) }
{
    let mut lines = Lines::new(alloc);
    if bytes.is_empty() {
        return Ok(Some(lines));
    }
    let mut rest = bytes;
    loop {
        let Some((line, end)) = line_in(alloc, rest, b"console.log")? else {
            return Ok(None);
        };
        lines.push(line)?;
        if end.is_empty() {
            return Ok(Some(lines));
        }
        let Some(left) = after(end, b"\n") else {
            return Ok(None);
        };
        rest = left;
    }
}

/// The line at the front, and what follows it.
fn line_in<'a>(alloc: Global, bytes: &'a [u8], logger: &[u8]) -> Mem<Option<(Line, &'a [u8])>>
    requires short { length bytes.now ≤ SOURCE_LIMIT }
    requires logger { IsLogger logger.now }
    ensures some { IfOk result (λ found. IfSome found (λ p. (bytes.now ≡ line_text logger.now p.0 ++ p.1.now) × IsSum (sum_of p.0))) }
    ensures none { IfOk result (λ found. IfNone found ((line : OneLine) (rest : List ℕ) → IsSum (sum_of line) → bytes.now ≢ line_text logger.now line ++ rest)) }
{
    if let Some(value) = after(bytes, b"document.title = ") {
        let Some((sum, rest)) = ended_sum(alloc, value, b";")? else {
            return Ok(None);
        };
        return Ok(Some((Line::SetTitle(sum), rest)));
    }
    let Some(call) = after(bytes, logger) else {
        return Ok(None);
    };
    let Some(argument) = after(call, b"(") else {
        return Ok(None);
    };
    let Some((sum, rest)) = ended_sum(alloc, argument, b");")? else {
        return Ok(None);
    };
    Ok(Some((Line::Log(sum), rest)))
}

/// The sum at the front that this end follows, and what follows both.
fn ended_sum<'a>(alloc: Global, bytes: &'a [u8], end: &[u8]) -> Mem<Option<(Sum, &'a [u8])>>
    requires short { length bytes.now ≤ SOURCE_LIMIT }
    requires end { IsTrue (ends_sum end.now) }
    ensures some { IfOk result (λ found. IfSome found (λ p. (bytes.now ≡ sum_text p.0 ++ (end.now ++ p.1.now)) × IsSum p.0)) }
    ensures none { IfOk result (λ found. IfNone found ((sum : OneSum) (rest : List ℕ) → IsSum sum → bytes.now ≢ sum_text sum ++ (end.now ++ rest))) }
{
    let Some((sum, rest)) = sum_in(alloc, bytes)? else {
        return Ok(None);
    };
    let Some(left) = after(rest, end) else {
        return Ok(None);
    };
    Ok(Some((sum, left)))
}
