//! The operators between two operands.
ghost use Rattle.std.specs.Prelude.{◌≡◌, ℤ, IfOk, MatchResult};
ghost use Rattle.std.specs.Cmp.Lexicographic.{slice_cmp};
ghost use Rattle.std.specs.Ordering.{nat_cmp};
ghost use Rattle.js_ops.specs.Numbers.{Answer};
ghost use Rattle.js_ops.specs.Operators.{added, Answers, binary_of, joined, on_numbers, order_of};
ghost use Rattle.js_ops.specs.Primitives.{IsPrimitive};

use crate::arithmetic::{difference, product, quotient, remainder, sum};
use crate::fault::OpFault;
use crate::primitive::{Primitive, equal, same, to_text};
use base_text::{BinaryOp, Text, TextFault};
use std::alloc::Global;
use std::cmp::Ordering;

/// What the operator gives between two values, of which no one is converted but by `+`.
///
/// `Kind` where it doesn't take such operands: `+` takes two numbers, or a text and a primitive value, and joins their
/// texts; `- * / %` take two numbers; `< > <= >=` two numbers, or two texts, which go by their scalars. `Range` where
/// the number is out of range, where the divisor is 0, and where a division leaves something. `TooLong` where the
/// joined text has over 262,144 bytes. A remainder has the sign of the left operand.
pub fn binary(
    alloc: Global,
    op: BinaryOp,
    a: &Primitive,
    b: &Primitive,
) -> Result<Primitive, OpFault>
    ensures row { Answers (binary_of op a.now b.now) result }
    ensures in_range { IfOk result IsPrimitive }
{
    match op {
        BinaryOp::Same => Ok(Primitive::Bool(same(a, b))),
        BinaryOp::NotSame => Ok(Primitive::Bool(!same(a, b))),
        BinaryOp::Equal => Ok(Primitive::Bool(equal(a, b))),
        BinaryOp::NotEqual => Ok(Primitive::Bool(!equal(a, b))),
        BinaryOp::Less => Ok(Primitive::Bool(order(a, b)?.is_lt())),
        BinaryOp::Greater => Ok(Primitive::Bool(order(a, b)?.is_gt())),
        BinaryOp::AtMost => Ok(Primitive::Bool(order(a, b)?.is_le())),
        BinaryOp::AtLeast => Ok(Primitive::Bool(order(a, b)?.is_ge())),
        BinaryOp::Add => add(alloc, a, b),
        BinaryOp::Subtract => {
            let (x, y) = numbers(a, b)?;
            difference(x, y)
        }
        BinaryOp::Multiply => {
            let (x, y) = numbers(a, b)?;
            product(x, y)
        }
        BinaryOp::Divide => {
            let (x, y) = numbers(a, b)?;
            quotient(x, y)
        }
        BinaryOp::Remain => {
            let (x, y) = numbers(a, b)?;
            remainder(x, y)
        }
    }
}

/// The sum of two numbers, or the text of both where one of them is a text.
fn add(alloc: Global, a: &Primitive, b: &Primitive) -> Result<Primitive, OpFault>
    ensures { Answers (added a.now b.now) result }
{
    match (a, b) {
        (Primitive::Number(x), Primitive::Number(y)) => sum(*x, *y),
        (Primitive::Str(s), _) => join(alloc, s, &to_text(alloc, b)?),
        (_, Primitive::Str(t)) => join(alloc, &to_text(alloc, a)?, t),
        _ => Err(OpFault::Kind),
    }
}

fn join(alloc: Global, s: &Text, t: &Text) -> Result<Primitive, OpFault>
    ensures { Answers (joined s.now t.now) result }
{
    match s.join(alloc, t) {
        Ok(both) => Ok(Primitive::Str(both)),
        Err(TextFault::TooLong) => Err(OpFault::TooLong),
        Err(TextFault::NoMemory) => Err(OpFault::NoMemory),
    }
}

/// Both operands as numbers.
fn numbers(a: &Primitive, b: &Primitive) -> Result<(i64, i64), OpFault>
    ensures { (f : ℤ → ℤ → Answer) → MatchResult result (λ both. on_numbers f a.now b.now ≡ f both.0 both.1)
        (λ e. on_numbers f a.now b.now ≡ Err e) }
{
    match (a, b) {
        (Primitive::Number(x), Primitive::Number(y)) => Ok((*x, *y)),
        _ => Err(OpFault::Kind),
    }
}

/// The order of two numbers or of two texts.
fn order(a: &Primitive, b: &Primitive) -> Result<Ordering, OpFault>
    ensures { MatchResult result (λ o. order_of a.now b.now ≡ Some o)
        (λ e. (order_of a.now b.now ≡ None) × (e ≡ OpFault.Kind)) }
{
    match (a, b) {
        (Primitive::Number(x), Primitive::Number(y)) => Ok(x.cmp(y)),
        (Primitive::Str(s), Primitive::Str(t)) => Ok(order_of_texts(s, t)),
        _ => Err(OpFault::Kind),
    }
}

fn order_of_texts(s: &Text, t: &Text) -> Ordering
    ensures { result ≡ slice_cmp nat_cmp s.now t.now }
{
    s.as_str().chars().cmp(t.as_str().chars())
}
