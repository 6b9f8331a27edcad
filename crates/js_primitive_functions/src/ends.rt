//! White space and line ends taken off the ends of a text.
ghost use Rattle.std.specs.Prelude.{◌≡◌, ◌≤◌, length, reverse, IfOk};
ghost use Rattle.std.specs.Str.{chars};
ghost use Rattle.js_ops.specs.Numerals.{is_blank};
ghost use Rattle.js_semantics.specs.Texts.{trimmed_front};

use crate::scalars::{split_first, split_last, text_of};
use base_text::{Mem, Text};
use std::alloc::Global;

/// The text without white space and line ends at both ends (22.1.3.32 String.prototype.trim).
pub fn trim(alloc: Global, text: &Text) -> Mem<Text>
    ensures { IfOk result (λ t. t ≡ reverse (trimmed_front (reverse (trimmed_front text.now)))) }
{
    text_of(alloc, trim_end(trim_start(text.as_str())))
}

#[tactic(auto, using(crate::proofs::TrimmedEnds::blank_first, crate::proofs::TrimmedEnds::trimmed_first, crate::proofs::TrimmedEnds::trimmed_none))]
fn trim_start(s: &str) -> &str
    ensures scalars { chars result.now ≡ trimmed_front (chars s.now) }
    ensures within { length result.now ≤ length s.now }
{
    let mut rest = s;
    while let Some((scalar, others)) = split_first(rest) {
        if !is_blank(scalar) {
            return rest;
        }
        rest = others;
    }
    rest
}

#[tactic(auto, using(crate::proofs::TrimmedEnds::blank_last, crate::proofs::TrimmedEnds::trimmed_last, crate::proofs::TrimmedEnds::trimmed_whole))]
fn trim_end(s: &str) -> &str
    ensures scalars { chars result.now ≡ reverse (trimmed_front (reverse (chars s.now))) }
    ensures within { length result.now ≤ length s.now }
{
    let mut rest = s;
    while let Some((scalar, others)) = split_last(rest) {
        if !is_blank(scalar) {
            return rest;
        }
        rest = others;
    }
    rest
}

/// White space and line ends (12.2 White Space, 12.3 Line Terminators).
fn is_blank(scalar: char) -> bool
    ensures { result ≡ is_blank scalar }
{
    matches!(
        scalar,
        '\t' | '\n'
            | '\u{b}'
            | '\u{c}'
            | '\r'
            | ' '
            | '\u{a0}'
            | '\u{2028}'
            | '\u{2029}'
            | '\u{feff}'
    )
}
