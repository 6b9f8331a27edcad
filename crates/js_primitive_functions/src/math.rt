//! Functions of numbers.
ghost use Rattle.std.specs.Prelude.{◌≡◌, ◌≢◌, pos, unsigned_abs, int_div, MatchOption};
ghost use Rattle.js_ops.specs.Primitives.{IsPrimitive};
ghost use Rattle.js_ops.specs.declared.primitive.Primitive.TheVariants.{Number};

/// The number without its sign (21.3.2.1 Math.abs).
pub fn abs(n: i64) -> i64
    requires { IsPrimitive (Number n) }
    ensures { result ≡ pos (unsigned_abs n) }
{
    if n < 0 { -n } else { n }
}

/// The quotient, cut towards 0; none exactly where the divisor is 0 (`Math.div`, this project's own).
pub fn div(a: i64, b: i64) -> Option<i64>
    requires { IsPrimitive (Number a) }
    ensures { MatchOption result (b ≡ pos 0) (λ q. (b ≢ pos 0) × (q ≡ int_div a b)) }
{
    if b == 0 {
        return None;
    }
    Some(a / b)
}
