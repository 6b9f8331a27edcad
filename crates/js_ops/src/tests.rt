//! The operators' table on values from outside: ECMAScript's answers, and this project's own where they differ.
use crate::{OpFault, Primitive, binary, same, to_boolean, to_key, to_text, unary};
use base_text::{BinaryOp, NoMemory, Text, UnaryOp};
use std::alloc::Global;
use std::test::Fail;

/// A primitive value as a row writes it.
#[derive(Clone, Copy, Debug, PartialEq)]
enum Row<'a> {
    Undefined,
    Null,
    Bool(bool),
    Number(i64),
    Str(&'a str),
}

const MAX: i64 = 9_007_199_254_740_991;

fn primitive(alloc: Global, row: Row<'_>) -> Result<Primitive, Fail> {
    Ok(match row {
        Row::Undefined => Primitive::Undefined,
        Row::Null => Primitive::Null,
        Row::Bool(b) => Primitive::Bool(b),
        Row::Number(n) => Primitive::Number(n),
        Row::Str(t) => Primitive::Str(Text::of(alloc, t)?),
    })
}

fn row_of(answer: &Result<Primitive, OpFault>) -> Result<Row<'_>, OpFault> {
    match answer {
        Ok(Primitive::Undefined) => Ok(Row::Undefined),
        Ok(Primitive::Null) => Ok(Row::Null),
        Ok(Primitive::Bool(b)) => Ok(Row::Bool(*b)),
        Ok(Primitive::Number(n)) => Ok(Row::Number(*n)),
        Ok(Primitive::Str(t)) => Ok(Row::Str(t.as_str())),
        Err(fault) => Err(*fault),
    }
}

#[test]
fn numbers_are_reckoned_with(rt: HostRuntime) -> Result<(), Fail> {
    let alloc = rt.alloc();
    let range = Err(OpFault::Range);
    for (a, op, b, answer) in [
        (1, BinaryOp::Add, 2, Ok(3)),
        (MAX, BinaryOp::Add, 0, Ok(MAX)),
        (MAX, BinaryOp::Add, 1, range),
        (-MAX, BinaryOp::Add, -1, range),
        (5, BinaryOp::Subtract, 7, Ok(-2)),
        (-MAX, BinaryOp::Subtract, 1, range),
        (3, BinaryOp::Multiply, -4, Ok(-12)),
        (0, BinaryOp::Multiply, -5, Ok(0)),
        (
            94_906_265,
            BinaryOp::Multiply,
            94_906_265,
            Ok(9_007_199_136_250_225),
        ),
        (94_906_266, BinaryOp::Multiply, 94_906_266, range),
        (4_294_967_296, BinaryOp::Multiply, 4_294_967_296, range),
        (6, BinaryOp::Divide, 3, Ok(2)),
        (-6, BinaryOp::Divide, 3, Ok(-2)),
        (MAX, BinaryOp::Divide, -1, Ok(-MAX)),
        (0, BinaryOp::Divide, 5, Ok(0)),
        (7, BinaryOp::Divide, 2, range),
        (1, BinaryOp::Divide, 0, range),
        (0, BinaryOp::Divide, 0, range),
        (7, BinaryOp::Remain, 3, Ok(1)),
        (-7, BinaryOp::Remain, 3, Ok(-1)),
        (7, BinaryOp::Remain, -3, Ok(1)),
        (-7, BinaryOp::Remain, -3, Ok(-1)),
        (-6, BinaryOp::Remain, 3, Ok(0)),
        (5, BinaryOp::Remain, 0, range),
    ] {
        let told = binary(alloc, op, &Primitive::Number(a), &Primitive::Number(b));
        assert_eq!(rt;
            row_of(&told),
            answer.map(|n| Row::Number(n)),
            "{a} {op:?} {b}"
        );
    }
    Ok(())
}

#[test]
fn texts_are_joined(rt: HostRuntime) -> Result<(), Fail> {
    let alloc = rt.alloc();
    for (a, b, answer) in [
        (Row::Str("a"), Row::Number(1), Ok(Row::Str("a1"))),
        (Row::Number(-7), Row::Str(""), Ok(Row::Str("-7"))),
        (Row::Str("a"), Row::Undefined, Ok(Row::Str("aundefined"))),
        (Row::Null, Row::Str("a"), Ok(Row::Str("nulla"))),
        (Row::Bool(true), Row::Str("é"), Ok(Row::Str("trueé"))),
        (Row::Str("1"), Row::Str("2"), Ok(Row::Str("12"))),
        (Row::Bool(true), Row::Number(1), Err(OpFault::Kind)),
        (Row::Undefined, Row::Number(1), Err(OpFault::Kind)),
        (Row::Null, Row::Bool(false), Err(OpFault::Kind)),
    ] {
        let told = binary(
            alloc,
            BinaryOp::Add,
            &primitive(alloc, a)?,
            &primitive(alloc, b)?,
        );
        assert_eq!(rt; row_of(&told), answer, "{a:?} + {b:?}");
    }
    let mut whole = Text::of(alloc, "ab")?;
    for _ in 0..17 {
        whole = whole.join(alloc, &whole)?;
    }
    let (whole, empty, one) = (
        Primitive::Str(whole),
        primitive(alloc, Row::Str(""))?,
        Primitive::Number(1),
    );
    assert!(rt; binary(alloc, BinaryOp::Add, &whole, &empty).is_ok());
    assert_eq!(rt;
        row_of(&binary(alloc, BinaryOp::Add, &whole, &one)),
        Err(OpFault::TooLong)
    );
    assert_eq!(rt;
        row_of(&binary(alloc, BinaryOp::Add, &one, &whole)),
        Err(OpFault::TooLong)
    );
    Ok(())
}

#[test]
fn values_are_compared(rt: HostRuntime) -> Result<(), Fail> {
    let alloc = rt.alloc();
    let kind = Err(OpFault::Kind);
    for (a, op, b, answer) in [
        (Row::Number(1), BinaryOp::Less, Row::Number(2), Ok(true)),
        (Row::Number(-1), BinaryOp::Less, Row::Number(-2), Ok(false)),
        (Row::Number(2), BinaryOp::AtMost, Row::Number(2), Ok(true)),
        (Row::Number(2), BinaryOp::Greater, Row::Number(2), Ok(false)),
        (Row::Number(2), BinaryOp::AtLeast, Row::Number(3), Ok(false)),
        (Row::Str("b"), BinaryOp::Less, Row::Str("ab"), Ok(false)),
        (Row::Str("ab"), BinaryOp::Less, Row::Str("b"), Ok(true)),
        (Row::Str("10"), BinaryOp::Less, Row::Str("9"), Ok(true)),
        (Row::Str("Z"), BinaryOp::Greater, Row::Str("a"), Ok(false)),
        (Row::Str("a"), BinaryOp::AtLeast, Row::Str("a"), Ok(true)),
        (Row::Str(""), BinaryOp::AtMost, Row::Str("a"), Ok(true)),
        (
            Row::Str("\u{FFFF}"),
            BinaryOp::Less,
            Row::Str("\u{10000}"),
            Ok(true),
        ),
        (Row::Number(1), BinaryOp::Less, Row::Str("2"), kind),
        (Row::Null, BinaryOp::AtLeast, Row::Number(0), kind),
        (Row::Bool(false), BinaryOp::Less, Row::Bool(true), kind),
        (Row::Undefined, BinaryOp::AtMost, Row::Undefined, kind),
        (Row::Str("5"), BinaryOp::Subtract, Row::Number(2), kind),
        (Row::Number(1), BinaryOp::Multiply, Row::Bool(true), kind),
        (Row::Null, BinaryOp::Divide, Row::Number(0), kind),
        (Row::Number(1), BinaryOp::Remain, Row::Undefined, kind),
        (Row::Null, BinaryOp::Equal, Row::Undefined, Ok(true)),
        (Row::Undefined, BinaryOp::Equal, Row::Null, Ok(true)),
        (Row::Undefined, BinaryOp::NotEqual, Row::Null, Ok(false)),
        (Row::Null, BinaryOp::Equal, Row::Number(0), Ok(false)),
        (Row::Number(1), BinaryOp::Equal, Row::Str("1"), Ok(false)),
        (
            Row::Number(0),
            BinaryOp::NotEqual,
            Row::Bool(false),
            Ok(true),
        ),
        (Row::Str("é"), BinaryOp::Equal, Row::Str("é"), Ok(true)),
        (Row::Null, BinaryOp::Same, Row::Undefined, Ok(false)),
        (Row::Null, BinaryOp::NotSame, Row::Undefined, Ok(true)),
    ] {
        let told = binary(alloc, op, &primitive(alloc, a)?, &primitive(alloc, b)?);
        assert_eq!(rt;
            row_of(&told),
            answer.map(|b| Row::Bool(b)),
            "{a:?} {op:?} {b:?}"
        );
    }
    Ok(())
}

#[test]
fn the_same_is_of_one_kind(rt: HostRuntime) -> Result<(), Fail> {
    let alloc = rt.alloc();
    let all = [
        Row::Undefined,
        Row::Null,
        Row::Bool(false),
        Row::Bool(true),
        Row::Number(0),
        Row::Number(1),
        Row::Str(""),
        Row::Str("1"),
    ];
    for (i, a) in all.into_iter().enumerate() {
        for (k, b) in all.into_iter().enumerate() {
            assert_eq!(rt;
                same(&primitive(alloc, a)?, &primitive(alloc, b)?),
                i == k,
                "{a:?} and {b:?}"
            );
        }
    }
    Ok(())
}

#[test]
fn a_value_has_a_boolean_a_type_and_a_text(rt: HostRuntime) -> Result<(), Fail> {
    let alloc = rt.alloc();
    for (a, is_true, name, text) in [
        (Row::Undefined, false, "undefined", "undefined"),
        (Row::Null, false, "object", "null"),
        (Row::Bool(false), false, "boolean", "false"),
        (Row::Bool(true), true, "boolean", "true"),
        (Row::Number(0), false, "number", "0"),
        (Row::Number(-12), true, "number", "-12"),
        (Row::Number(-MAX), true, "number", "-9007199254740991"),
        (Row::Str(""), false, "string", ""),
        (Row::Str("0"), true, "string", "0"),
        (Row::Str("é "), true, "string", "é "),
    ] {
        let value = primitive(alloc, a)?;
        assert_eq!(rt; to_boolean(&value), is_true, "{a:?}");
        assert_eq!(rt;
            row_of(&unary(alloc, UnaryOp::Not, &value)),
            Ok(Row::Bool(!is_true))
        );
        assert_eq!(rt;
            row_of(&unary(alloc, UnaryOp::TypeOf, &value)),
            Ok(Row::Str(name))
        );
        assert_eq!(rt; to_text(alloc, &value)?.as_str(), text);
        assert_eq!(rt; to_key(alloc, &value)?.as_str(), text);
    }
    assert_eq!(rt; OpFault::from(NoMemory), OpFault::NoMemory);
    Ok(())
}

#[test]
fn a_sign_stands_before_its_operand(rt: HostRuntime) -> Result<(), Fail> {
    let alloc = rt.alloc();
    let (range, kind) = (Err(OpFault::Range), Err(OpFault::Kind));
    for (op, a, answer) in [
        (UnaryOp::Minus, Row::Number(5), Ok(-5)),
        (UnaryOp::Minus, Row::Number(0), Ok(0)),
        (UnaryOp::Minus, Row::Number(-MAX), Ok(MAX)),
        (UnaryOp::Minus, Row::Str("5"), kind),
        (UnaryOp::Minus, Row::Bool(true), kind),
        (UnaryOp::Minus, Row::Undefined, kind),
        (UnaryOp::Plus, Row::Undefined, kind),
        (UnaryOp::Plus, Row::Null, kind),
        (UnaryOp::Plus, Row::Bool(false), Ok(0)),
        (UnaryOp::Plus, Row::Bool(true), Ok(1)),
        (UnaryOp::Plus, Row::Number(-5), Ok(-5)),
        (UnaryOp::Plus, Row::Str("12"), Ok(12)),
        (UnaryOp::Plus, Row::Str(" \n-12\t\r"), Ok(-12)),
        (UnaryOp::Plus, Row::Str("007"), Ok(7)),
        (UnaryOp::Plus, Row::Str("-0"), Ok(0)),
        (
            UnaryOp::Plus,
            Row::Str("\u{FEFF}\u{2028}\u{A0}5\u{2029}\u{B}\u{C}"),
            Ok(5),
        ),
        (UnaryOp::Plus, Row::Str("9007199254740991"), Ok(MAX)),
        (UnaryOp::Plus, Row::Str("-9007199254740991"), Ok(-MAX)),
        (UnaryOp::Plus, Row::Str("9007199254740992"), range),
        (UnaryOp::Plus, Row::Str("-9007199254740992"), range),
        (UnaryOp::Plus, Row::Str("18446744073709551617"), range),
        (UnaryOp::Plus, Row::Str(""), range),
        (UnaryOp::Plus, Row::Str(" "), range),
        (UnaryOp::Plus, Row::Str("-"), range),
        (UnaryOp::Plus, Row::Str("--1"), range),
        (UnaryOp::Plus, Row::Str("- 1"), range),
        (UnaryOp::Plus, Row::Str("+1"), range),
        (UnaryOp::Plus, Row::Str("1 2"), range),
        (UnaryOp::Plus, Row::Str("1-"), range),
        (UnaryOp::Plus, Row::Str("1.5"), range),
        (UnaryOp::Plus, Row::Str("1e3"), range),
        (UnaryOp::Plus, Row::Str("0x10"), range),
        (UnaryOp::Plus, Row::Str("\u{2003}5"), range),
        (UnaryOp::Plus, Row::Str("\u{663}"), range),
    ] {
        let told = unary(alloc, op, &primitive(alloc, a)?);
        assert_eq!(rt;
            row_of(&told),
            answer.map(|n| Row::Number(n)),
            "{op:?} {a:?}"
        );
    }
    Ok(())
}
