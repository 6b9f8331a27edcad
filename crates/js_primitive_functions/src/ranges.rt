//! Parts of a text between two places.
ghost use Rattle.std.specs.Prelude.{◌≡◌, length, IfOk};
ghost use Rattle.js_semantics.specs.Texts.{clamped, from_end, ordered_part, part};

use crate::places::{clamped, from_end};
use base_text::{Mem, Text};
use std::alloc::Global;

/// The scalars from one place up to another, where negative places count from the end; both are from 0 on and not past
/// the end, and there are none where the second isn't after the first (22.1.3.22 String.prototype.slice).
pub fn slice(alloc: Global, text: &Text, from: i64, to: i64) -> Mem<Text>
    ensures { IfOk result (λ t. t ≡ part text.now (from_end from (length text.now)) (from_end to (length text.now))) }
{
    let from = from_end(from, text.count());
    let to = from_end(to, text.count());
    text.cut(alloc, from, to.max(from))
}

/// The scalars between two places, of which the smaller one comes first; both are from 0 on and not past the end
/// (22.1.3.24 String.prototype.substring).
pub fn substring(alloc: Global, text: &Text, from: i64, to: i64) -> Mem<Text>
    ensures { IfOk result (λ t. t ≡ ordered_part text.now (clamped from (length text.now)) (clamped to (length text.now))) }
{
    let from = clamped(from, text.count());
    let to = clamped(to, text.count());
    text.cut(alloc, from.min(to), from.max(to))
}
