//! What no contract says: that the calls succeed with ample memory, and that the definitions mean what
//! was meant, on texts whose tokens or fault were found by hand.
ghost use Rattle.std.specs.Prelude.{◌≤◌, length};
ghost use Rattle.base_text.specs.declared.text.TheConstants.{SOURCE_LIMIT};

use crate::{LexFault, LexKind, lex};
use base_text::{NoMemory, OrMemory, SOURCE_LIMIT};
use js_syntax::{Token, TokenKind};
use std::alloc::Global;
use std::test::Fail;

fn letter(kind: TokenKind) -> char {
    match kind {
        TokenKind::Name => 'N',
        TokenKind::Word => 'W',
        TokenKind::Number => 'D',
        TokenKind::Str => 'S',
        TokenKind::Punct => 'P',
        TokenKind::End => 'E',
    }
}

/// A token as `KIND(TEXT)FROM..TO`, with `/` before it where a line ended.
fn described(alloc: Global, token: &Token) -> Result<String, Fail> {
    let line = if token.line_before { "/" } else { "" };
    let (kind, text) = (letter(token.kind), token.text.as_str());
    let (from, to) = (token.from, token.to);
    Ok(format!(in alloc; "{line}{kind}({text}){from}..{to}")?)
}

fn lexed(alloc: Global, text: &str) -> Result<String, Fail>
    requires { length text.now ≤ SOURCE_LIMIT }
{
    let tokens = match lex(alloc, text) {
        Ok(tokens) => tokens,
        Err(OrMemory::Fault(fault)) => {
            let (kind, at) = (fault.kind, fault.at);
            return Ok(format!(in alloc; "{kind:?} {at}")?);
        }
        Err(OrMemory::NoMemory) => return Err(Fail::from(NoMemory)),
    };
    let mut all = String::new(alloc);
    for token in tokens.as_slice() {
        if !all.is_empty() {
            all.push(' ')?;
        }
        all.push_str(&described(alloc, token)?)?;
    }
    Ok(all)
}

#[test]
fn names_numbers_and_gaps(rt: HostRuntime) -> Result<(), Fail> {
    for (text, want) in [
        ("", "E()0..0"),
        ("a", "N(a)0..1 E()1..1"),
        ("$_a1 _$ é", "N($_a1)0..4 N(_$)5..7 N(é)8..10 E()10..10"),
        ("break breaks", "W(break)0..5 N(breaks)6..12 E()12..12"),
        (
            "yield lets let",
            "W(yield)0..5 N(lets)6..10 W(let)11..14 E()14..14",
        ),
        (
            "in instanceof of",
            "W(in)0..2 W(instanceof)3..13 N(of)14..16 E()16..16",
        ),
        ("a\u{301}", "N(a\u{301})0..3 E()3..3"),
        ("Return return", "N(Return)0..6 W(return)7..13 E()13..13"),
        ("0", "D(0)0..1 E()1..1"),
        (
            "10 9007199254740991",
            "D(10)0..2 D(9007199254740991)3..19 E()19..19",
        ),
        ("0xff 0xFF", "D(255)0..4 D(255)5..9 E()9..9"),
        ("0x0010", "D(16)0..6 E()6..6"),
        ("0x1fffffffffffff", "D(9007199254740991)0..16 E()16..16"),
        (
            "1+2-0;",
            "D(1)0..1 P(+)1..2 D(2)2..3 P(-)3..4 D(0)4..5 P(;)5..6 E()6..6",
        ),
        ("\t\u{B}\u{C} \u{A0}\u{FEFF}a", "N(a)9..10 E()10..10"),
        ("é\na", "N(é)0..2 /N(a)3..4 E()4..4"),
        ("a\r\nb", "N(a)0..1 /N(b)3..4 E()4..4"),
        ("a\rb", "N(a)0..1 /N(b)2..3 E()3..3"),
        ("a\u{2028}b", "N(a)0..1 /N(b)4..5 E()5..5"),
        ("x\n", "N(x)0..1 /E()2..2"),
        ("\na b", "/N(a)1..2 N(b)3..4 E()4..4"),
        ("// a\nb", "/N(b)5..6 E()6..6"),
        ("//", "E()2..2"),
        ("/* */b", "N(b)5..6 E()6..6"),
        ("/*\n*/b", "/N(b)5..6 E()6..6"),
        ("a/*\u{2029}*/b", "N(a)0..1 /N(b)8..9 E()9..9"),
        ("/***/a", "N(a)5..6 E()6..6"),
        ("/**/", "E()4..4"),
        ("a//b\r\nc", "N(a)0..1 /N(c)6..7 E()7..7"),
        ("/* // */a", "N(a)8..9 E()9..9"),
        ("/*/ */a", "N(a)6..7 E()7..7"),
        ("/= /", "P(/=)0..2 P(/)3..4 E()4..4"),
        ("a/b", "N(a)0..1 P(/)1..2 N(b)2..3 E()3..3"),
    ] {
        assert!(rt; text.len() <= SOURCE_LIMIT);
        assert_eq!(rt; lexed(rt.alloc(), text)?.as_str(), want);
    }
    Ok(())
}

#[test]
fn punctuators_and_texts(rt: HostRuntime) -> Result<(), Fail> {
    for (text, want) in [
        (
            "=== !== == != <= >= && || ++ -- += -= *= /= %=",
            "P(===)0..3 P(!==)4..7 P(==)8..10 P(!=)11..13 P(<=)14..16 P(>=)17..19 P(&&)20..22 P(||)23..25 P(++)26..28 P(--)29..31 P(+=)32..34 P(-=)35..37 P(*=)38..40 P(/=)41..43 P(%=)44..46 E()46..46",
        ),
        (
            "{}()[];,.<>+-*/%!?:=",
            "P({)0..1 P(})1..2 P(()2..3 P())3..4 P([)4..5 P(])5..6 P(;)6..7 P(,)7..8 P(.)8..9 P(<)9..10 P(>)10..11 P(+)11..12 P(-)12..13 P(*)13..14 P(/)14..15 P(%)15..16 P(!)16..17 P(?)17..18 P(:)18..19 P(=)19..20 E()20..20",
        ),
        ("====", "P(===)0..3 P(=)3..4 E()4..4"),
        ("!===", "P(!==)0..3 P(=)3..4 E()4..4"),
        ("!=a", "P(!=)0..2 N(a)2..3 E()3..3"),
        ("!a", "P(!)0..1 N(a)1..2 E()2..2"),
        ("+++", "P(++)0..2 P(+)2..3 E()3..3"),
        ("---", "P(--)0..2 P(-)2..3 E()3..3"),
        ("a<=b", "N(a)0..1 P(<=)1..3 N(b)3..4 E()4..4"),
        (">==", "P(>=)0..2 P(=)2..3 E()3..3"),
        ("&&", "P(&&)0..2 E()2..2"),
        ("||", "P(||)0..2 E()2..2"),
        ("*==", "P(*=)0..2 P(=)2..3 E()3..3"),
        ("% =", "P(%)0..1 P(=)2..3 E()3..3"),
        ("'a' \"b\"", "S(a)0..3 S(b)4..7 E()7..7"),
        ("''", "S()0..2 E()2..2"),
        ("'\"' \"'\"", "S(\")0..3 S(')4..7 E()7..7"),
        (
            "'\\n\\t\\r\\b\\f\\v\\0'",
            "S(\n\t\r\u{8}\u{C}\u{B}\0)0..16 E()16..16",
        ),
        ("'\\x41\\x7e'", "S(A~)0..10 E()10..10"),
        ("'\\u0041\\u{41}\\u{00041}'", "S(AAA)0..23 E()23..23"),
        ("'\\uD83D\\uDE00'", "S(😀)0..14 E()14..14"),
        ("'\\u{D83D}\\u{DE00}'", "S(😀)0..18 E()18..18"),
        ("'\\uD83D\\u{de00}'", "S(😀)0..16 E()16..16"),
        ("'\\u{10FFFF}'", "S(\u{10FFFF})0..12 E()12..12"),
        ("'\\q\\'\\\\\\\"'", "S(q'\\\")0..10 E()10..10"),
        ("'a\\\nb'", "S(ab)0..6 E()6..6"),
        ("'a\\\r\nb'", "S(ab)0..7 E()7..7"),
        ("'a\\\rb'", "S(ab)0..6 E()6..6"),
        ("'a\\\u{2028}b'", "S(ab)0..8 E()8..8"),
        ("'\u{2028}'", "S(\u{2028})0..5 E()5..5"),
        ("'\\0a'", "S(\0a)0..5 E()5..5"),
        ("'é'a", "S(é)0..4 N(a)4..5 E()5..5"),
        ("'//'", "S(//)0..4 E()4..4"),
        ("'\\\\';", "S(\\)0..4 P(;)4..5 E()5..5"),
    ] {
        assert!(rt; text.len() <= SOURCE_LIMIT);
        assert_eq!(rt; lexed(rt.alloc(), text)?.as_str(), want);
    }
    Ok(())
}

#[test]
fn faults(rt: HostRuntime) -> Result<(), Fail> {
    for (text, want) in [
        ("1.5", "BadScalar 1"),
        ("1.", "BadScalar 1"),
        ("'a", "UnclosedText 0"),
        ("/*", "UnclosedComment 0"),
        ("a /* b *", "UnclosedComment 2"),
        ("/*/", "UnclosedComment 0"),
        ("0x1g", "BadScalar 3"),
        ("0x", "BadScalar 1"),
        ("0X1", "BadScalar 1"),
        ("08", "BadScalar 1"),
        ("1a", "BadScalar 1"),
        ("1_", "BadScalar 1"),
        ("1é", "BadScalar 1"),
        ("9007199254740992", "WideNumber 0"),
        ("a 9007199254740992", "WideNumber 2"),
        ("99999999999999999999a", "WideNumber 0"),
        ("0x20000000000000", "WideNumber 0"),
        ("@", "BadScalar 0"),
        ("#", "BadScalar 0"),
        ("&", "BadScalar 0"),
        ("&&&", "BadScalar 2"),
        ("|", "BadScalar 0"),
        ("`", "BadScalar 0"),
        ("a\\b", "BadScalar 1"),
        ("é@", "BadScalar 2"),
        ("a\u{85}", "BadScalar 1"),
        ("\u{301}a", "BadScalar 0"),
        ("1\u{301}", "BadScalar 1"),
        ("a\n\n@", "BadScalar 3"),
        ("/*é*/@", "BadScalar 6"),
        ("'\\x4'", "BadScalar 1"),
        ("'\\xg1'", "BadScalar 1"),
        ("'\\u004'", "BadScalar 1"),
        ("'\\u{}'", "BadScalar 1"),
        ("'\\u{0000041}'", "BadScalar 1"),
        ("'\\u{110000}'", "BadScalar 1"),
        ("'\\u{41'", "BadScalar 1"),
        ("'\\uD83D'", "BadScalar 1"),
        ("'\\uDE00'", "BadScalar 1"),
        ("'\\uD83Da'", "BadScalar 1"),
        ("'\\uD83D\\uD83D\\uDE00'", "BadScalar 1"),
        ("'a\\uDE00\\uD83D'", "BadScalar 2"),
        ("'\\uD83D\\x41'", "BadScalar 1"),
        ("'\\1'", "BadScalar 1"),
        ("'\\9'", "BadScalar 1"),
        ("'\\00'", "BadScalar 1"),
        ("'é\\1'", "BadScalar 3"),
        ("a 'b\\x'", "BadScalar 4"),
        ("'\\1", "UnclosedText 0"),
        ("'a\n'", "UnclosedText 0"),
        ("'a\r'", "UnclosedText 0"),
        ("'a\\", "UnclosedText 0"),
        ("'a\\'", "UnclosedText 0"),
        ("\"'", "UnclosedText 0"),
        ("'a\\\r\n", "UnclosedText 0"),
        ("é 'é", "UnclosedText 3"),
    ] {
        assert!(rt; text.len() <= SOURCE_LIMIT);
        assert_eq!(rt; lexed(rt.alloc(), text)?.as_str(), want, "in {text}");
    }
    Ok(())
}

/// A text between quotes or a name: `before`, so many letters, and `after`.
fn long(alloc: Global, before: &str, count: usize, after: &str) -> Result<String, Fail> {
    let mut text = String::from_str(alloc, before)?;
    let letters = String::from_utf8(vec![in alloc; b'a'; count]?)?;
    text.push_str(&letters)?;
    text.push_str(after)?;
    Ok(text)
}

#[test]
fn limits_count_bytes(rt: HostRuntime) -> Result<(), Fail> {
    let alloc = rt.alloc();
    for (before, count, after, want) in [
        ("", 262_144, "", None),
        ("", 262_145, "", Some((0, LexKind::TooLong))),
        (" ", 262_145, " ", Some((1, LexKind::TooLong))),
        ("'", 262_144, "'", None),
        ("'", 262_145, "'", Some((0, LexKind::TooLong))),
        ("'é", 262_142, "'", None),
        ("'é", 262_143, "'", Some((0, LexKind::TooLong))),
        ("'\\u00e9", 262_143, "'", Some((0, LexKind::TooLong))),
        ("'", 262_145, "", Some((0, LexKind::UnclosedText))),
        ("'", 262_145, "\\1'", Some((0, LexKind::TooLong))),
        ("'", 262_144, "\\1a'", Some((262_145, LexKind::BadScalar))),
        ("'\\1", 262_145, "'", Some((1, LexKind::BadScalar))),
        ("//", 1_048_574, "", None),
        ("/*", 1_048_574, "", Some((0, LexKind::UnclosedComment))),
    ] {
        let text = long(alloc, before, count, after)?;
        assert!(rt; text.len() <= SOURCE_LIMIT);
        let fault = match lex(alloc, &text) {
            Ok(_) => None,
            Err(OrMemory::Fault(LexFault { at, kind })) => Some((at, kind)),
            Err(OrMemory::NoMemory) => return Err(Fail::from(NoMemory)),
        };
        assert_eq!(rt; fault, want, "{before} {count} {after}");
    }
    Ok(())
}
