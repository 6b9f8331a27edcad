//! The value of a string literal, with its escapes (ECMAScript, 12.9.4).

ghost use Rattle.std.specs.Prelude.{◌≡◌, ◌≤◌, ◌<◌, length, option_map, encode_utf8_all, IfOk, IsTrue};
ghost use Rattle.std.specs.String.{string_bytes};
ghost use Rattle.js_lexer.specs.StringLiteralsModel as read;
ghost use Rattle.js_lexer.specs.AnswersModel.{IsDecoded};
ghost use Rattle.js_syntax.specs.TokenScalars as spec;
ghost use Rattle.js_syntax.specs.TokenTexts as text;

use crate::numbers::digits;
use crate::scalars::{is_decimal, is_line_end};
use std::alloc::{AllocError, Global};

/// A scalar or none, and what follows.
pub type Given<'a> = (Option<char>, &'a [char]);

/// This count of hexadecimal digits: the number, and what follows.
#[tactic(auto, unfolding(crate::specs::StringLiteralsModel::run_of))]
fn run_of(count: usize, text: &[char]) -> Option<(u64, &[char])>
    ensures { option_map (λ p. (p.0, p.1.now)) result ≡ read.run_of count text.now }
{
    if text.len() < count {
        return None;
    }
    let (number, left) = digits(&text[..count], 16);
    if left.is_empty() {
        Some((number, &text[count..]))
    } else {
        None
    }
}

/// One to six hexadecimal digits up to the brace: the number, and what follows.
#[tactic(auto, unfolding(crate::specs::StringLiteralsModel::braced))]
fn braced(text: &[char]) -> Option<(u64, &[char])>
    ensures { option_map (λ p. (p.0, p.1.now)) result ≡ read.braced text.now }
{
    let (number, left) = digits(text, 16);
    if left.len() > text.len() {
        return None;
    }
    match (text.len() - left.len(), left) {
        (1..=6, ['}', rest @ ..]) => Some((number, rest)),
        _ => None,
    }
}

/// After `\u`: the number, which may be half of a pair, and what follows.
#[tactic(auto, unfolding(crate::specs::StringLiteralsModel::unicode))]
fn unicode(text: &[char]) -> Option<(u32, &[char])>
    ensures { option_map (λ p. (p.0, p.1.now)) result ≡ read.unicode text.now }
{
    let (number, rest) = match text {
        ['{', digits @ ..] => braced(digits)?,
        _ => run_of(4, text)?,
    };
    if number <= 0x10FFFF {
        Some((number as u32, rest))
    } else {
        None
    }
}

fn is_high_surrogate(number: u32) -> bool
    ensures { result ≡ spec.is_high_surrogate number }
{
    0xD800 <= number && number <= 0xDBFF
}

fn is_low_surrogate(number: u32) -> bool
    ensures { result ≡ spec.is_low_surrogate number }
{
    0xDC00 <= number && number <= 0xDFFF
}

/// The scalar of a surrogate pair, whose second half has to follow here.
#[tactic(auto, unfolding(crate::specs::StringLiteralsModel::second_half))]
fn second_half(high: u32, text: &[char]) -> Option<Given<'_>>
    requires { IsTrue (spec.is_high_surrogate high) }
    ensures { option_map (λ p. (p.0, p.1.now)) result ≡ read.second_half high text.now }
{
    let ['\\', 'u', digits @ ..] = text else {
        return None;
    };
    let (low, rest) = unicode(digits)?;
    if !is_low_surrogate(low) {
        return None;
    }
    let scalar = char::from_u32((high - 0xD800) * 0x400 + (low - 0xDC00) + 0x1_0000)?;
    Some((Some(scalar), rest))
}

#[tactic(auto, unfolding(crate::specs::StringLiteralsModel::second_half))]
fn unicode_given(text: &[char]) -> Option<Given<'_>>
    ensures { option_map (λ p. (p.0, p.1.now)) result ≡ read.unicode_given (read.unicode text.now) }
{
    let (number, rest) = unicode(text)?;
    if is_high_surrogate(number) {
        return second_half(number, rest);
    }
    let scalar = char::from_u32(number)?;
    Some((Some(scalar), rest))
}

fn byte_given(text: &[char]) -> Option<Given<'_>>
    ensures { option_map (λ p. (p.0, p.1.now)) result ≡ read.byte_given (read.run_of 2 text.now) }
{
    let (number, rest) = run_of(2, text)?;
    let scalar = char::from_u32(number as u32)?;
    Some((Some(scalar), rest))
}

fn control(c: char) -> Option<char>
    ensures { result ≡ text.control c }
{
    match c {
        'n' => Some('\n'),
        't' => Some('\t'),
        'r' => Some('\r'),
        'b' => Some('\u{8}'),
        'f' => Some('\u{C}'),
        'v' => Some('\u{B}'),
        _ => None,
    }
}

fn past_line_feed(text: &[char]) -> &[char]
    ensures { result.now ≡ read.past_line_feed text.now }
{
    match text {
        ['\n', rest @ ..] => rest,
        _ => text,
    }
}

fn begins_decimal(text: &[char]) -> bool
    ensures { result ≡ read.begins_decimal text.now }
{
    matches!(text, [c, ..] if is_decimal(*c))
}

/// What a backslash before this gives, and what follows; none where that is no escape.
#[tactic(auto, unfolding(crate::specs::StringLiteralsModel::escape))]
fn escape(text: &[char]) -> Option<Given<'_>>
    ensures { option_map (λ p. (p.0, p.1.now)) result ≡ read.escape text.now }
{
    let [c, rest @ ..] = text else {
        return None;
    };
    match *c {
        'x' => byte_given(rest),
        'u' => unicode_given(rest),
        '\r' => Some((None, past_line_feed(rest))),
        c if is_line_end(c) => Some((None, rest)),
        '0' if !begins_decimal(rest) => Some((Some('\0'), rest)),
        c if is_decimal(c) => None,
        c => Some((Some(control(c).unwrap_or(c)), rest)),
    }
}

/// The scalar or escape at the front.
#[tactic(auto, unfolding(crate::specs::StringLiteralsModel::one))]
fn one(text: &[char]) -> Option<Given<'_>>
    ensures { option_map (λ p. (p.0, p.1.now)) result ≡ read.one text.now }
{
    match text {
        [] => None,
        ['\\', rest @ ..] => escape(rest),
        [c, rest @ ..] => Some((Some(*c), rest)),
    }
}

/// The value that a text spells, up to an escape that is none, and what is left from there on.
pub fn decode<'a>(alloc: Global, mut body: &'a [char]) -> Result<(String, &'a [char]), AllocError>
    ensures { IfOk result (λ p. IsDecoded (read.decode (length body.entry.now) body.entry.now) (string_bytes p.0) p.1.now) }
{
    let mut value = String::new(alloc);
    while let Some((given, rest)) = one(body) {
        if let Some(c) = given {
            value.push(c)?;
        }
        body = rest;
    }
    Ok((value, body))
}
