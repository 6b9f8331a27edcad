//! The number that a text spells.
ghost use Rattle.std.specs.Prelude.{◌≡◌, ℕ, ◌+◌, ◌*◌, ◌^◌, ◌<◌, List, ◌∷◌, SomeIff, if◌then◌else◌};
ghost use Rattle.std.specs.Char.{is_ascii_digit};
ghost use Rattle.js_ops.specs.Numbers.{number};
ghost use Rattle.js_ops.specs.Numerals.{is_blank, number_spelled, signed};
ghost use Rattle.js_ops.specs.Operators.{spelled};
ghost use Rattle.js_ops.specs.Reading.{answer_from};

use crate::arithmetic::number;
use crate::fault::OpFault;
use crate::primitive::Primitive;
use base_text::{MAX_SAFE_INTEGER, Text};

/// How far a text is read, from its front.
#[derive(Clone, Copy)]
enum Reading {
    /// Through white space at most.
    Start,
    /// Through a `-`.
    Minus,
    /// Through digits.
    Digits { minus: bool, value: u64 },
    /// Through the white space after the digits.
    End { minus: bool, value: u64 },
    /// Through what no number of a script begins with.
    Lost,
}

/// The number that the text spells: `Range` where it spells none, or one out of range.
pub(crate) fn number_spelled(text: &Text) -> Result<Primitive, OpFault>
    ensures { result ≡ spelled (number_spelled text.now) }
{
    let mut reading = Reading::Start;
    for c in text.as_str().chars() {
        reading = read_on(reading, c);
    }
    match reading {
        Reading::Digits { minus, value } => signed(minus, value),
        Reading::End { minus, value } => signed(minus, value),
        _ => Err(OpFault::Range),
    }
}

/// Reads one scalar more.
fn read_on(reading: Reading, c: char) -> Reading
    ensures { (rest : List ℕ) → answer_from result rest ≡ answer_from reading (c ∷ rest) }
{
    match reading {
        Reading::Start => start_on(c),
        Reading::Minus => digit_on(true, 0, c),
        Reading::Digits { minus, value } => digits_on(minus, value, c),
        Reading::End { .. } if is_blank(c) => reading,
        _ => Reading::Lost,
    }
}

fn start_on(c: char) -> Reading
    ensures { (rest : List ℕ) → answer_from result rest ≡ answer_from Reading.Start (c ∷ rest) }
{
    if is_blank(c) {
        Reading::Start
    } else if c == '-' {
        Reading::Minus
    } else {
        digit_on(false, 0, c)
    }
}

fn digits_on(minus: bool, value: u64, c: char) -> Reading
    ensures { (rest : List ℕ) → answer_from result rest ≡ answer_from (Reading.Digits minus value) (c ∷ rest) }
{
    if is_blank(c) {
        Reading::End { minus, value }
    } else {
        digit_on(minus, value, c)
    }
}

/// Reads a digit more, and nothing else.
fn digit_on(minus: bool, value: u64, c: char) -> Reading
    ensures { (rest : List ℕ) → answer_from result rest
        ≡ (if is_ascii_digit c then answer_from (Reading.Digits minus value) (c ∷ rest) else Err OpFault.Range) }
{
    if !c.is_ascii_digit() {
        return Reading::Lost;
    }
    match with_digit(value, c as u64 - 48) {
        Some(value) => Reading::Digits { minus, value },
        None => Reading::Lost,
    }
}

/// The number with a digit more, if it is within 64 bits.
fn with_digit(value: u64, digit: u64) -> Option<u64>
    ensures { SomeIff result (10 * value + digit < 2 ^ 64) (10 * value + digit) }
{
    value.checked_mul(10)?.checked_add(digit)
}

/// White space and line ends (ECMAScript 12.2, 12.3).
fn is_blank(c: char) -> bool
    ensures { result ≡ is_blank c }
{
    matches!(
        c,
        '\t' | '\n'
            | '\u{b}'
            | '\u{c}'
            | '\r'
            | ' '
            | '\u{a0}'
            | '\u{2028}'
            | '\u{2029}'
            | '\u{feff}'
    )
}

fn signed(minus: bool, value: u64) -> Result<Primitive, OpFault>
    ensures { result ≡ number (signed minus value) }
{
    if value > MAX_SAFE_INTEGER as u64 {
        return Err(OpFault::Range);
    }
    let n = value as i64;
    number(if minus { -n } else { n })
}
