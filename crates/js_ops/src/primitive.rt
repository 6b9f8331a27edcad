//! Primitive values: ToBoolean, ToString and ToPropertyKey of each, and the two equalities (ECMAScript, 7.1 and 7.2).
ghost use Rattle.std.specs.Prelude.{◌≡◌, ◌≤◌, ◌↔◌, length, IsTrue, IfOk, codes};
ghost use Rattle.std.specs.Str.{chars};
ghost use Rattle.base_text.specs.declared.text.TheConstants.{TEXT_LIMIT};
ghost use Rattle.js_ops.specs.Primitives.{is_equal, is_same, key_of, text_of, boolean_of, type_of};

use base_text::{Mem, NoMemory, Text, TextFault};
use std::alloc::Global;

/// A primitive value (ECMAScript 6.1).
///
/// A number is whole, from -(2^53 - 1) to 2^53 - 1: each that an operator gives is so, and there is no -0.
#[derive(Debug, Drop)]
pub enum Primitive {
    /// `undefined`
    Undefined,
    /// `null`
    Null,
    /// `true` or `false`
    Bool(bool),
    /// A whole number.
    Number(i64),
    /// A text.
    Str(Text),
}

/// Whether both are of one kind and the same value, as `===` tells it (7.2.15 IsStrictlyEqual).
pub fn same(a: &Primitive, b: &Primitive) -> bool
    ensures row { result ≡ is_same a.now b.now }
    ensures equal { IsTrue result ↔ (a.now ≡ b.now) }
{
    match (a, b) {
        (Primitive::Undefined, Primitive::Undefined) => true,
        (Primitive::Null, Primitive::Null) => true,
        (Primitive::Bool(x), Primitive::Bool(y)) => x == y,
        (Primitive::Number(x), Primitive::Number(y)) => x == y,
        (Primitive::Str(s), Primitive::Str(t)) => s == t,
        _ => false,
    }
}

/// Whether they are equal, as `==` tells it: as [`same`] does, but null equals undefined.
pub(crate) fn equal(a: &Primitive, b: &Primitive) -> bool
    ensures { result ≡ is_equal a.now b.now }
{
    match (a, b) {
        (Primitive::Undefined, Primitive::Null) => true,
        (Primitive::Null, Primitive::Undefined) => true,
        _ => same(a, b),
    }
}

/// Whether it counts as true: undefined, null, false, 0 and the empty text do not (7.1.2 ToBoolean).
pub fn to_boolean(a: &Primitive) -> bool
    ensures { result ≡ boolean_of a.now }
{
    match a {
        Primitive::Undefined => false,
        Primitive::Null => false,
        Primitive::Bool(b) => *b,
        Primitive::Number(n) => *n != 0,
        Primitive::Str(t) => t.count() != 0,
    }
}

/// Its text: its word, its decimal digits with `-` before them where it is below 0, or itself (7.1.17 ToString).
pub fn to_text(alloc: Global, a: &Primitive) -> Mem<Text>
    ensures { IfOk result (λ t. t ≡ text_of a.now) }
{
    match a {
        Primitive::Undefined => word(alloc, "undefined"),
        Primitive::Null => word(alloc, "null"),
        Primitive::Bool(true) => word(alloc, "true"),
        Primitive::Bool(false) => word(alloc, "false"),
        Primitive::Number(n) => Text::decimal(alloc, *n),
        Primitive::Str(t) => t.share(),
    }
}

/// The key that it is as a name of a property: its text (7.1.19 ToPropertyKey).
pub fn to_key(alloc: Global, a: &Primitive) -> Mem<Text>
    ensures { IfOk result (λ t. t ≡ key_of a.now) }
{
    to_text(alloc, a)
}

/// The name of its type (13.5.3 The typeof Operator).
pub(crate) fn type_name(alloc: Global, a: &Primitive) -> Mem<Text>
    ensures { IfOk result (λ t. t ≡ type_of a.now) }
{
    match a {
        Primitive::Undefined => word(alloc, "undefined"),
        Primitive::Null => word(alloc, "object"),
        Primitive::Bool(_) => word(alloc, "boolean"),
        Primitive::Number(_) => word(alloc, "number"),
        Primitive::Str(_) => word(alloc, "string"),
    }
}

/// The text of a word.
fn word(alloc: Global, word: &str) -> Mem<Text>
    requires { length word.now ≤ TEXT_LIMIT }
    ensures { IfOk result (λ t. t ≡ chars word.now) }
{
    match Text::of(alloc, word) {
        Ok(text) => Ok(text),
        Err(TextFault::NoMemory) => Err(NoMemory),
        Err(TextFault::TooLong) => unreachable!(),
    }
}
