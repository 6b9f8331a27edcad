//! Readers of sums and of their parts, from the front of bytes.

ghost use Rattle.base_text.specs.declared.text.TheConstants.{SOURCE_LIMIT};
ghost use Rattle.small_forms.specs.Bytes.{are_in, stops};
ghost use Rattle.small_forms.specs.Readers.{ends_sum, is_followed};
ghost use Rattle.small_forms.specs.Scripts.{IsPart, IsSum, part_text, sum_text};
ghost use Rattle.small_forms.specs.declared.script.Part.{Part as OnePart};
ghost use Rattle.small_forms.specs.declared.script.Sum.{Sum as OneSum};
ghost use Rattle.small_forms.specs.declared.bytes.Class.TheVariants.{AlphanumericOrBlank, Digit};
ghost use Rattle.std.specs.Prelude.{◌≡◌, ◌≢◌, ◌≤◌, ◌++◌, List, ℕ, length, IfNone, IfOk, IfSome, IsTrue};
ghost use Rattle.std.specs.Fmt.{decimal};

use crate::ascii::source_of;
use crate::bytes::{Class, after, front, number_in};
use crate::limits::ADDED_LIMIT;
use crate::script::{Part, Parts, Sum};
use base_text::Mem;
use std::alloc::Global;

/// The sum at the front, and what follows it.
pub fn sum_in(alloc: Global, bytes: &[u8]) -> Mem<Option<(Sum, &[u8])>>
    requires { length bytes.now ≤ SOURCE_LIMIT }
    ensures some { IfOk result (λ found. IfSome found (λ p. (bytes.now ≡ sum_text p.0 ++ p.1.now) × IsSum p.0 × IsTrue (ends_sum p.1.now))) }
    ensures none { IfOk result (λ found. IfNone found ((sum : OneSum) (rest : List ℕ) → IsSum sum → IsTrue (ends_sum rest) → bytes.now ≢ sum_text sum ++ rest)) }
{
    let Some((first, mut rest)) = part_in(alloc, bytes)? else {
        return Ok(None);
    };
    let mut more = Parts::new(alloc);
    while let Some(added) = after(rest, b" + ") {
        if more.len() == ADDED_LIMIT {
            return Ok(None);
        }
        let Some((part, left)) = part_in(alloc, added)? else {
            return Ok(None);
        };
        more.push(part)?;
        rest = left;
    }
    if is_end(rest) {
        Ok(Some((Sum { first, more }, rest)))
    } else {
        Ok(None)
    }
}

/// Whether a sum may end before these.
fn is_end(rest: &[u8]) -> bool
    ensures { result ≡ ends_sum rest.now }
{
    match rest {
        [] => false,
        [first, ..] => *first == b')' || *first == b';',
    }
}

/// The part of a sum at the front, and what follows it.
fn part_in(alloc: Global, bytes: &[u8]) -> Mem<Option<(Part, &[u8])>>
    requires { length bytes.now ≤ SOURCE_LIMIT }
    ensures some { IfOk result (λ found. IfSome found (λ p. (bytes.now ≡ part_text p.0 ++ p.1.now) × IsPart p.0 × IsTrue (is_followed p.0 p.1.now))) }
    ensures none { IfOk result (λ found. IfNone found ((part : OnePart) (rest : List ℕ) → IsPart part → IsTrue (is_followed part rest) → bytes.now ≢ part_text part ++ rest)) }
{
    if let Some(rest) = after(bytes, b"document.title") {
        return Ok(Some((Part::Title, rest)));
    }
    if let Some((number, rest)) = number_at_front(bytes) {
        return Ok(Some((Part::Number(number), rest)));
    }
    let Some((inside, rest)) = quoted_at_front(bytes) else {
        return Ok(None);
    };
    let text = source_of(alloc, inside)?;
    Ok(Some((Part::Quoted(text), rest)))
}

/// The number at the front, and what follows it.
fn number_at_front(bytes: &[u8]) -> Option<(u16, &[u8])>
    ensures some { IfSome result (λ p. (bytes.now ≡ decimal p.0 ++ p.1.now) × (p.0 ≤ 999) × IsTrue (stops Digit p.1.now)) }
    ensures none { IfNone result ((n : ℕ) (rest : List ℕ) → n ≤ 999 → IsTrue (stops Digit rest) → bytes.now ≢ decimal n ++ rest) }
{
    let (digits, rest) = front(bytes, Class::Digit);
    let Some(number) = number_in(digits) else {
        return None;
    };
    if number <= 999 {
        Some((number, rest))
    } else {
        None
    }
}

/// The characters of the quoted text at the front, and what follows it.
fn quoted_at_front(bytes: &[u8]) -> Option<(&[u8], &[u8])>
    ensures some { IfSome result (λ p. (bytes.now ≡ part_text (OnePart.Quoted p.0.now) ++ p.1.now) × IsTrue (are_in AlphanumericOrBlank p.0.now)) }
    ensures none { IfNone result ((text rest : List ℕ) → IsTrue (are_in AlphanumericOrBlank text) → bytes.now ≢ part_text (OnePart.Quoted text) ++ rest) }
{
    let Some(quoted) = after(bytes, b"\"") else {
        return None;
    };
    let (inside, end) = front(quoted, Class::AlphanumericOrBlank);
    let Some(rest) = after(end, b"\"") else {
        return None;
    };
    Some((inside, rest))
}
