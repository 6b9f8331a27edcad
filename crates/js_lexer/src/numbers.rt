//! Numeric literals (ECMAScript, 12.9.3).

ghost use Rattle.std.specs.Prelude.{◌≡◌, ◌≤◌, ◌<◌, length};
ghost use Rattle.js_lexer.specs.RunsModel as read;
ghost use Rattle.js_syntax.specs.TokenSpelling.{begins_hexadecimal};

use crate::scalars::is_hexadecimal;
use base_text::MAX_SAFE_INTEGER;

/// One more than the greatest number, to which every number over it is cut.
const TOO_WIDE: u64 = MAX_SAFE_INTEGER as u64 + 1;

/// The number that the digits at the front write, and what follows them.
#[tactic(auto, unfolding(crate::specs::RunsModel::digits_from))]
pub fn digits(mut text: &[char], radix: u32) -> (u64, &[char])
    requires low { 2 ≤ radix }
    requires high { radix ≤ 16 }
    ensures { (result.0, result.1.now) ≡ read.digits_from radix 0 text.entry.now }
{
    let mut number = 0;
    while let [c, rest @ ..] = text {
        let Some(digit) = c.to_digit(radix) else {
            return (number, text);
        };
        number = (number * u64::from(radix) + u64::from(digit)).min(TOO_WIDE);
        text = rest;
    }
    (number, text)
}

fn begins_hexadecimal(text: &[char]) -> bool
    ensures { result ≡ begins_hexadecimal text.now }
{
    matches!(text, ['x', digit, ..] if is_hexadecimal(*digit))
}

/// The number that begins with this digit, and what follows it.
#[tactic(auto, unfolding(crate::specs::RunsModel::numeral))]
pub fn numeral(text: &[char]) -> (u64, &[char])
    ensures { (result.0, result.1.now) ≡ read.numeral text.now }
{
    match text {
        ['0', rest @ ..] if begins_hexadecimal(rest) => digits(&rest[1..], 16),
        ['0', rest @ ..] => (0, rest),
        [] => (0, text),
        _ => digits(text, 10),
    }
}
