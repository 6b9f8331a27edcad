//! The first place of a text in another.
ghost use Rattle.std.specs.Prelude.{◌≡◌, ◌≤◌, drop, length, suc, ◌+◌, None, IfSome, MatchOption};
ghost use Rattle.std.specs.Str.{chars, IsUtf8};
ghost use Rattle.base_text.specs.declared.text.TheConstants.{SOURCE_LIMIT};
ghost use Rattle.js_semantics.specs.Texts.{clamped, first_place};
ghost use Rattle.js_primitive_functions.specs.Splits.{SplitsAtFirst};

use crate::places::clamped;
use crate::scalars::{scalar_count, split_first};
use base_text::Text;

/// The first place at or after another at which a text stands, counted in scalars. A place below 0 counts as 0, and from
/// past the end there is none (22.1.3.9 String.prototype.indexOf).
pub fn index_of(text: &Text, wanted: &Text, from: i64) -> Option<u32>
    ensures { result ≡ first_place wanted.now (clamped from (suc (length text.now))) 0 text.now }
{
    let end = text.count();
    let start = clamped(from, end + 1);
    if start > end {
        return None;
    }
    let Some((before, _)) = split_at_first(rest_from(text, start), wanted.as_str()) else {
        return None;
    };
    Some(start + scalar_count(before))
}

/// What stands before the first place of a text in another, and what follows it.
pub(crate) fn split_at_first<'a>(s: &'a str, wanted: &str) -> Option<(&'a str, &'a str)>
    ensures cases { MatchOption result (first_place (chars wanted.now) 0 0 (chars s.now) ≡ None)
        (λ p. SplitsAtFirst (chars s.now) (chars wanted.now) (chars p.0.now) (chars p.1.now)) }
    ensures within { IfSome result (λ p. length p.0.now + (length wanted.now + length p.1.now) ≡ length s.now) }
    ensures texts { IfSome result (λ p. IsUtf8 p.0.now × IsUtf8 p.1.now) }
{
    match s.find(wanted) {
        Some(at) => Some((&s[..at], &s[at + wanted.len()..])),
        None => None,
    }
}

/// What stands from a place on.
fn rest_from(text: &Text, place: u32) -> &str
    requires { place ≤ length text.now }
    ensures scalars { chars result.now ≡ drop place text.now }
    ensures within { length result.now ≤ SOURCE_LIMIT }
{
    let whole = text.as_str();
    if text.count() as usize == whole.len() {
        &whole[place as usize..]
    } else {
        after_scalars(whole, place)
    }
}

/// What follows so many scalars.
fn after_scalars(s: &str, count: u32) -> &str
    requires { count ≤ length (chars s.now) }
    ensures scalars { chars result.now ≡ drop count (chars s.now) }
    ensures within { length result.now ≤ length s.now }
{
    let mut rest = s;
    let mut left = count;
    while left > 0 {
        let Some((_, after)) = split_first(rest) else {
            return rest;
        };
        rest = after;
        left -= 1;
    }
    rest
}
