//! A part of a text replaced by another.
ghost use Rattle.std.specs.Prelude.{◌≡◌, ◌<◌, ◌++◌, ◌↔◌, ◌+◌, ◌≤◌, length, string_bytes, IfOk, IsErrOf};
ghost use Rattle.std.specs.Str.{chars};
ghost use Rattle.base_text.specs.Scalars.{utf8_len};
ghost use Rattle.base_text.specs.declared.text.TheConstants.{TEXT_LIMIT};
ghost use Rattle.js_semantics.specs.Texts.{first_place, replaced};

use crate::search::split_at_first;
use base_text::{TEXT_LIMIT, Text, TextFault};
use std::alloc::{AllocError, Global};

/// The text with another in the first place of a text in it, or as it is where there is no such place (22.1.3.19
/// String.prototype.replace).
///
/// `TooLong` exactly where it would have over 262,144 bytes.
pub fn replace(alloc: Global, text: &Text, wanted: &Text, by: &Text) -> Result<Text, TextFault>
    ensures ok { IfOk result (λ t. t ≡ replaced text.now wanted.now by.now (first_place wanted.now 0 0 text.now)) }
    ensures too_long { IsErrOf result TextFault.TooLong
        ↔ (TEXT_LIMIT < utf8_len (replaced text.now wanted.now by.now (first_place wanted.now 0 0 text.now))) }
{
    match split_at_first(text.as_str(), wanted.as_str()) {
        Some((before, after)) => joined(alloc, before, by.as_str(), after),
        None => kept(text),
    }
}

/// The same text.
fn kept(text: &Text) -> Result<Text, TextFault>
    ensures ok { IfOk result (λ t. t ≡ text.now) }
    ensures too_long { IsErrOf result TextFault.TooLong ↔ (TEXT_LIMIT < utf8_len text.now) }
{
    if text.as_str().len() > TEXT_LIMIT {
        return Err(TextFault::TooLong);
    }
    Ok(text.share()?)
}

/// Three texts, one after the other.
fn joined(alloc: Global, first: &str, second: &str, third: &str) -> Result<Text, TextFault>
    requires { length first.now + (length second.now + length third.now) ≤ 2097152 }
    ensures ok { IfOk result (λ t. t ≡ chars first.now ++ (chars second.now ++ chars third.now)) }
    ensures too_long { IsErrOf result TextFault.TooLong
        ↔ (TEXT_LIMIT < length first.now + (length second.now + length third.now)) }
{
    if first.len() + second.len() + third.len() > TEXT_LIMIT {
        return Err(TextFault::TooLong);
    }
    let whole = all_three(alloc, first, second, third)?;
    Text::of(alloc, whole.as_str())
}

fn all_three(alloc: Global, first: &str, second: &str, third: &str) -> Result<String, AllocError>
    requires { length first.now + (length second.now + length third.now) ≤ TEXT_LIMIT }
    ensures { IfOk result (λ t. string_bytes t ≡ first.now ++ (second.now ++ third.now)) }
{
    let mut whole = String::with_capacity(alloc, first.len() + second.len() + third.len())?;
    whole.push_str(first)?;
    whole.push_str(second)?;
    whole.push_str(third)?;
    Ok(whole)
}
