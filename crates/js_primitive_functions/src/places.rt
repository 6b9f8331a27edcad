//! Places of scalars in a text, from the numbers that a script gives.
ghost use Rattle.std.specs.Prelude.{◌≡◌, ◌≤◌};
ghost use Rattle.js_semantics.specs.Texts.{clamped, from_end};

/// The place, but from 0 on and not past the end.
pub(crate) fn clamped(place: i64, end: u32) -> u32
    ensures exact { result ≡ clamped place end }
    ensures within { result ≤ end }
{
    if place < 0 {
        0
    } else if place > i64::from(end) {
        end
    } else {
        place as u32
    }
}

/// The place, where a negative one counts from the end; from 0 on and not past the end.
pub(crate) fn from_end(place: i64, end: u32) -> u32
    ensures exact { result ≡ from_end place end }
    ensures within { result ≤ end }
{
    if place >= 0 {
        return clamped(place, end);
    }
    let back = place.unsigned_abs();
    if back > u64::from(end) {
        0
    } else {
        end - back as u32
    }
}
