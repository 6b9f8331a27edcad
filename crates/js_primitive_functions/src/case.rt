//! The case of ASCII letters.
ghost use Rattle.std.specs.Prelude.{◌≡◌, map, IfOk};
ghost use Rattle.js_semantics.specs.Texts.{lower, upper};

use crate::scalars::text_of;
use base_text::{Mem, Text};
use std::alloc::Global;

/// The text with its ASCII letters in lower case (22.1.3.28 String.prototype.toLowerCase).
#[tactic(auto, using(crate::proofs::LetterCases::lower_chars))]
pub fn to_lower_case(alloc: Global, text: &Text) -> Mem<Text>
    ensures { IfOk result (λ t. t ≡ map lower text.now) }
{
    let lower = text.as_str().to_ascii_lowercase(alloc)?;
    text_of(alloc, lower.as_str())
}

/// The text with its ASCII letters in upper case (22.1.3.30 String.prototype.toUpperCase).
#[tactic(auto, using(crate::proofs::LetterCases::upper_chars))]
pub fn to_upper_case(alloc: Global, text: &Text) -> Mem<Text>
    ensures { IfOk result (λ t. t ≡ map upper text.now) }
{
    let upper = text.as_str().to_ascii_uppercase(alloc)?;
    text_of(alloc, upper.as_str())
}
