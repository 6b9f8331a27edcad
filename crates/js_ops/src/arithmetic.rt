//! The arithmetic of whole numbers from -(2^53 - 1) to 2^53 - 1.
ghost use Rattle.std.specs.Prelude.{◌≡◌};
ghost use Rattle.js_ops.specs.Numbers.{difference, number, opposite, product, quotient, remainder, sum};

use crate::fault::OpFault;
use crate::primitive::Primitive;
use base_text::MAX_SAFE_INTEGER;

/// The number, if it is in range.
pub(crate) fn number(n: i64) -> Result<Primitive, OpFault>
    ensures { result ≡ number n }
{
    if -MAX_SAFE_INTEGER <= n && n <= MAX_SAFE_INTEGER {
        Ok(Primitive::Number(n))
    } else {
        Err(OpFault::Range)
    }
}

pub(crate) fn sum(a: i64, b: i64) -> Result<Primitive, OpFault>
    ensures { result ≡ sum a b }
{
    match a.checked_add(b) {
        Some(n) => number(n),
        None => Err(OpFault::Range),
    }
}

pub(crate) fn difference(a: i64, b: i64) -> Result<Primitive, OpFault>
    ensures { result ≡ difference a b }
{
    match a.checked_sub(b) {
        Some(n) => number(n),
        None => Err(OpFault::Range),
    }
}

pub(crate) fn product(a: i64, b: i64) -> Result<Primitive, OpFault>
    ensures { result ≡ product a b }
{
    match a.checked_mul(b) {
        Some(n) => number(n),
        None => Err(OpFault::Range),
    }
}

/// The quotient, if the division is exact.
pub(crate) fn quotient(a: i64, b: i64) -> Result<Primitive, OpFault>
    ensures { result ≡ quotient a b }
{
    if b == 0 || a.wrapping_rem(b) != 0 {
        return Err(OpFault::Range);
    }
    match a.checked_div(b) {
        Some(n) => number(n),
        None => Err(OpFault::Range),
    }
}

/// The remainder, with the sign of the dividend.
pub(crate) fn remainder(a: i64, b: i64) -> Result<Primitive, OpFault>
    ensures { result ≡ remainder a b }
{
    if b == 0 {
        return Err(OpFault::Range);
    }
    number(a.wrapping_rem(b))
}

/// The number with the other sign.
pub(crate) fn opposite(n: i64) -> Result<Primitive, OpFault>
    ensures { result ≡ opposite n }
{
    match n.checked_neg() {
        Some(m) => number(m),
        None => Err(OpFault::Range),
    }
}
