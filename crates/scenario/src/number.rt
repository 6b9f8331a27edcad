//! The number of a `tick` line.
ghost use Rattle.std.specs.Prelude.{ℕ, ◌↔◌, IsTrue, MatchOption};
ghost use Rattle.scenario.specs.Lines.{IsTick};
ghost use Rattle.scenario.specs.Parts.{IsPlain};

use crate::line::TICK_LIMIT;

/// Whether bytes begin with no sign, and with no zero before others.
fn is_plain(bytes: &[u8]) -> bool
    ensures { IsTrue result ↔ IsPlain bytes.now }
{
    match bytes {
        [] => false,
        [digit] => *digit != b'+',
        [first, ..] => *first != b'0' && *first != b'+',
    }
}

/// The number that a text spells, without a leading zero and within the limit.
pub(crate) fn tick_of(s: &str) -> Option<u32>
    ensures { MatchOption result ((n : ℕ) → IsTick s.now n → ⊥) (λ n. IsTick s.now n) }
{
    if !is_plain(s.as_bytes()) {
        return None;
    }
    let Ok(n) = s.parse::<u32>() else {
        return None;
    };
    if n > TICK_LIMIT {
        return None;
    }
    Some(n)
}
