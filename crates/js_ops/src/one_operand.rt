//! The operators before their operand.
ghost use Rattle.std.specs.Prelude.{◌≡◌, IfOk};
ghost use Rattle.js_ops.specs.Operators.{Answers, negated, number_of, unary_of};
ghost use Rattle.js_ops.specs.Primitives.{IsPrimitive};

use crate::arithmetic::{number, opposite};
use crate::fault::OpFault;
use crate::numeral::number_spelled;
use crate::primitive::{Primitive, to_boolean, type_name};
use base_text::UnaryOp;
use std::alloc::Global;

/// What the operator gives of a value.
///
/// `typeof` names its type, and `!` is true where ToBoolean is false. `-` takes a number, else it is `Kind`. `+` gives a
/// number itself, 0 or 1 of a boolean, and the number that a text spells: `-` or nothing and then decimal digits, with
/// white space and line ends around them; of undefined and null it is `Kind`. `Range` where a text spells no number or
/// the number is out of range.
pub fn unary(alloc: Global, op: UnaryOp, a: &Primitive) -> Result<Primitive, OpFault>
    ensures row { Answers (unary_of op a.now) result }
    ensures in_range { IfOk result IsPrimitive }
{
    match op {
        UnaryOp::TypeOf => Ok(Primitive::Str(type_name(alloc, a)?)),
        UnaryOp::Not => Ok(Primitive::Bool(!to_boolean(a))),
        UnaryOp::Plus => to_number(a),
        UnaryOp::Minus => negate(a),
    }
}

/// The number that a value is (ECMAScript 7.1.4 ToNumber).
fn to_number(a: &Primitive) -> Result<Primitive, OpFault>
    ensures { result ≡ number_of a.now }
{
    match a {
        Primitive::Undefined => Err(OpFault::Kind),
        Primitive::Null => Err(OpFault::Kind),
        Primitive::Bool(b) => Ok(Primitive::Number(i64::from(*b))),
        Primitive::Number(n) => number(*n),
        Primitive::Str(t) => number_spelled(t),
    }
}

fn negate(a: &Primitive) -> Result<Primitive, OpFault>
    ensures { result ≡ negated a.now }
{
    match a {
        Primitive::Number(n) => opposite(*n),
        _ => Err(OpFault::Kind),
    }
}
