//! Single scalars of a text.
ghost use Rattle.std.specs.Prelude.{◌≡◌, ◌∷◌, [], ◌++◌, ◌≤◌, ◌<◌, length, IfOk, IfSome, MatchOption};
ghost use Rattle.std.specs.Str.{chars};
ghost use Rattle.base_text.specs.declared.text.TheConstants.{SOURCE_LIMIT};
ghost use Rattle.js_semantics.specs.Texts.{scalar_at, scalar_or_none};

use base_text::{Mem, NoMemory, SOURCE_LIMIT, Text, TextFault};
use std::alloc::Global;

/// The scalar at a place, counted from 0; none before the front and from the end on (22.1.3.3
/// String.prototype.charCodeAt).
pub fn char_code_at(text: &Text, place: i64) -> Option<char>
    ensures { result ≡ scalar_at text.now place }
{
    if place < 0 || place >= i64::from(text.count()) {
        return None;
    }
    text.scalar(place as u32)
}

/// The text of the one scalar at a place, or the empty text where there is none (22.1.3.2 String.prototype.charAt).
pub fn char_at(alloc: Global, text: &Text, place: i64) -> Mem<Text>
    ensures { IfOk result (λ t. t ≡ scalar_or_none (scalar_at text.now place)) }
{
    match char_code_at(text, place) {
        Some(scalar) => single(alloc, scalar),
        None => text_of(alloc, ""),
    }
}

/// The text of one scalar.
pub(crate) fn single(alloc: Global, scalar: char) -> Mem<Text>
    ensures { IfOk result (λ t. t ≡ scalar ∷ []) }
{
    let mut bytes = [0; 4];
    let text = scalar.encode_utf8(&mut bytes);
    text_of(alloc, text)
}

/// The text of a part of a text.
pub(crate) fn text_of(alloc: Global, s: &str) -> Mem<Text>
    requires { length s.now ≤ SOURCE_LIMIT }
    ensures { IfOk result (λ t. t ≡ chars s.now) }
{
    match Text::source(alloc, s) {
        Ok(text) => Ok(text),
        Err(TextFault::NoMemory) => Err(NoMemory),
        Err(TextFault::TooLong) => unreachable!(),
    }
}

/// How many scalars a part of a text has.
pub(crate) fn scalar_count(s: &str) -> u32
    requires { length s.now ≤ SOURCE_LIMIT }
    ensures exact { result ≡ length (chars s.now) }
    ensures within { result ≤ length s.now }
{
    if s.is_ascii() {
        return s.len() as u32;
    }
    s.chars().count() as u32
}

/// The first scalar of a part of a text, and what follows it.
pub(crate) fn split_first(s: &str) -> Option<(char, &str)>
    ensures cases { MatchOption result (chars s.now ≡ []) (λ p. chars s.now ≡ p.0 ∷ chars p.1.now) }
    ensures shorter { IfSome result (λ p. length p.1.now < length s.now) }
{
    let mut scalars = s.chars();
    match scalars.next() {
        Some(first) => Some((first, scalars.as_str())),
        None => None,
    }
}

/// The last scalar of a part of a text, and what stands before it.
pub(crate) fn split_last(s: &str) -> Option<(char, &str)>
    ensures cases { MatchOption result (chars s.now ≡ []) (λ p. chars s.now ≡ chars p.1.now ++ p.0 ∷ []) }
    ensures shorter { IfSome result (λ p. length p.1.now < length s.now) }
{
    let mut scalars = s.chars();
    match scalars.next_back() {
        Some(last) => Some((last, scalars.as_str())),
        None => None,
    }
}
