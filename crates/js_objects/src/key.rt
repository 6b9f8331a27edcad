//! What a key is of an array: one of its places, its length, or another (ECMAScript, 10.4.2).

ghost use Rattle.std.specs.Prelude.{◌≡◌, ◌<◌, ◌≤◌, ◌^◌, ◌-◌, IfSome, IfNone, Some, None, if◌then◌else◌, length, slice_index_or};
ghost use Rattle.std.specs.Fmt.{decimal};
ghost use Rattle.std.specs.Str.{bytes_eq};
ghost use Rattle.js_semantics.specs.Properties.{place_spelled, number_spelled, length_key, MAX_NUMBER};

use base_text::{MAX_SAFE_INTEGER, Text};

/// The most digits that a place has.
const MOST_DIGITS: u32 = 16;

/// The place that a key spells, without a text of it.
pub(crate) fn place_of(key: &Text) -> Option<u64>
    ensures { result ≡ place_spelled key.now }
{
    if key.count() > MOST_DIGITS {
        return None;
    }
    match number_of(key) {
        Some(number) => place_if_spelled(number, key),
        None => None,
    }
}

fn place_if_spelled(number: u64, key: &Text) -> Option<u64>
    ensures { result ≡ (if bytes_eq (decimal number) key.now then Some number else None) }
{
    if is_spelled(number, key) {
        Some(number)
    } else {
        None
    }
}

/// The number of a key's digits, up to the greatest.
fn number_of(key: &Text) -> Option<u64>
    ensures some { IfSome result (λ n. (n ≡ number_spelled 0 key.now) × (n ≤ MAX_NUMBER)) }
    ensures none { IfNone result (MAX_NUMBER < number_spelled 0 key.now) }
{
    let count = key.count();
    let mut number: u64 = 0;
    for at in 0..count {
        number = number * 10 + scalar_at(key, at).saturating_sub(48);
        if number > MAX_SAFE_INTEGER as u64 {
            return None;
        }
    }
    Some(number)
}

/// Whether a key is the digits of a number, looked at from the last one.
fn is_spelled(number: u64, key: &Text) -> bool
    ensures { result ≡ bytes_eq (decimal number) key.now }
{
    let mut rest = number;
    let mut left = key.count();
    while left > 0 {
        left -= 1;
        if scalar_at(key, left) != 48 + rest % 10 {
            return false;
        }
        if rest < 10 {
            return left == 0;
        }
        rest /= 10;
    }
    false
}

fn scalar_at(key: &Text, at: u32) -> u64
    requires { at < length key.now }
    ensures exact { result ≡ slice_index_or key.now at 0 }
    ensures bound { result < 2 ^ 32 }
{
    match key.scalar(at) {
        Some(scalar) => scalar as u64,
        None => 0,
    }
}

/// Whether a key names the length.
pub(crate) fn is_length(key: &Text) -> bool
    ensures { result ≡ bytes_eq key.now length_key }
{
    key.as_str() == "length"
}
