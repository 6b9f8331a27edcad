//! A text cut into parts.
ghost use Rattle.std.specs.Prelude.{◌≡◌, ◌<◌, ◌≤◌, length, IfOk};
ghost use Rattle.std.specs.Str.{chars};
ghost use Rattle.base_text.specs.declared.text.TheConstants.{SOURCE_LIMIT};
ghost use Rattle.js_semantics.specs.Texts.{parts_of, singles};

use crate::scalars::{single, split_first, text_of};
use crate::search::split_at_first;
use base_text::{Mem, Text};
use door::Texts;
use std::alloc::Global;

/// What stands between the places of a separator; its single scalars where the separator is empty (22.1.3.23
/// String.prototype.split).
#[tactic(auto, using(crate::proofs::PartsBetween::parts_of_none))]
pub fn split(alloc: Global, text: &Text, separator: &Text) -> Mem<Texts>
    ensures { IfOk result (λ parts. parts ≡ parts_of separator.now text.now) }
{
    if separator.count() == 0 {
        singles(alloc, text.as_str())
    } else {
        parts_between(alloc, text.as_str(), separator.as_str())
    }
}

/// Its scalars as texts.
fn singles(alloc: Global, s: &str) -> Mem<Texts>
    ensures { IfOk result (λ parts. parts ≡ singles (chars s.now)) }
{
    let mut parts = Texts::new(alloc);
    let mut rest = s;
    while let Some((scalar, after)) = split_first(rest) {
        let part = single(alloc, scalar)?;
        parts.push(part)?;
        rest = after;
    }
    Ok(parts)
}

/// What stands between the places of a separator.
fn parts_between(alloc: Global, s: &str, separator: &str) -> Mem<Texts>
    requires some { 0 < length (chars separator.now) }
    requires within { length s.now ≤ SOURCE_LIMIT }
    ensures { IfOk result (λ parts. parts ≡ parts_of (chars separator.now) (chars s.now)) }
{
    let mut parts = Texts::new(alloc);
    let mut rest = s;
    while let Some((before, after)) = split_at_first(rest, separator) {
        let part = text_of(alloc, before)?;
        parts.push(part)?;
        rest = after;
    }
    let last = text_of(alloc, rest)?;
    parts.push(last)?;
    Ok(parts)
}
