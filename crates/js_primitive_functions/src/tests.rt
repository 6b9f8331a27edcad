//! The functions of texts and numbers on usual and extreme arguments, by ECMAScript and this project's documents.
use crate::{
    abs, char_at, char_code_at, div, index_of, replace, slice, split, substring, to_lower_case,
    to_upper_case, trim,
};
use base_text::{Text, TextFault};
use std::alloc::Global;
use std::test::Fail;

/// The number past which a script has none.
const MOST: i64 = 9_007_199_254_740_991;

fn text(alloc: Global, s: &str) -> Result<Text, Fail> {
    Ok(Text::of(alloc, s)?)
}

/// A text of 262,144 bytes: a scalar of four bytes, and letters after it.
fn longest(alloc: Global) -> Result<Text, Fail> {
    let letters = "a".repeat(alloc, 262_140)?;
    Ok(text(alloc, "😀")?.join(alloc, &text(alloc, letters.as_str())?)?)
}

#[test]
fn scalars_are_read_by_their_places(rt: HostRuntime) -> Result<(), Fail> {
    let alloc = rt.alloc();
    for (whole, place, scalar, one) in [
        ("", 0, None, ""),
        ("", -1, None, ""),
        ("abc", 0, Some('a'), "a"),
        ("abc", 2, Some('c'), "c"),
        ("abc", 3, None, ""),
        ("abc", -1, None, ""),
        ("abc", MOST, None, ""),
        ("abc", -MOST, None, ""),
        ("abc", 4_294_967_296, None, ""),
        ("x😀y", 1, Some('😀'), "😀"),
        ("x😀y", 2, Some('y'), "y"),
        ("x😀y", 3, None, ""),
    ] {
        let whole = text(alloc, whole)?;
        assert_eq!(rt; char_code_at(&whole, place), scalar, "{whole:?} at {place}");
        assert_eq!(rt;
            char_at(alloc, &whole, place)?.as_str(),
            one,
            "{whole:?} at {place}"
        );
    }
    Ok(())
}

#[test]
fn first_places_are_found(rt: HostRuntime) -> Result<(), Fail> {
    let alloc = rt.alloc();
    for (whole, wanted, from, place) in [
        ("", "", 0, Some(0)),
        ("", "", 1, None),
        ("", "a", 0, None),
        ("abcb", "b", 0, Some(1)),
        ("abcb", "b", 1, Some(1)),
        ("abcb", "b", 2, Some(3)),
        ("abcb", "b", 4, None),
        ("abcb", "b", -1, Some(1)),
        ("abcb", "b", -MOST, Some(1)),
        ("abcb", "b", MOST, None),
        ("abcb", "bc", 0, Some(1)),
        ("abcb", "abcbc", 0, None),
        ("abcb", "", 2, Some(2)),
        ("abcb", "", 4, Some(4)),
        ("abcb", "", 5, None),
        ("aaab", "aab", 0, Some(1)),
        ("é😀é😀", "😀", 0, Some(1)),
        ("é😀é😀", "😀", 2, Some(3)),
        ("é😀é😀", "é", 1, Some(2)),
        ("é😀é😀", "", 3, Some(3)),
        ("é😀é😀", "", 5, None),
        ("a😀b", "b", 2, Some(2)),
    ] {
        let found = index_of(&text(alloc, whole)?, &text(alloc, wanted)?, from);
        assert_eq!(rt; found, place, "{wanted} in {whole} from {from}");
    }
    Ok(())
}

#[test]
fn parts_are_cut_out(rt: HostRuntime) -> Result<(), Fail> {
    let alloc = rt.alloc();
    for (whole, from, to, sliced, between) in [
        ("", 0, 0, "", ""),
        ("", -1, 1, "", ""),
        ("abcde", 0, 5, "abcde", "abcde"),
        ("abcde", 1, 3, "bc", "bc"),
        ("abcde", 3, 1, "", "bc"),
        ("abcde", -2, 5, "de", "abcde"),
        ("abcde", -2, -1, "d", ""),
        ("abcde", 0, -1, "abcd", ""),
        ("abcde", 2, -1, "cd", "ab"),
        ("abcde", -9, 2, "ab", "ab"),
        ("abcde", 5, 9, "", ""),
        ("abcde", 4, MOST, "e", "e"),
        ("abcde", -MOST, MOST, "abcde", "abcde"),
        ("abcde", MOST, -MOST, "", "abcde"),
        ("abcde", 4_294_967_297, 2, "", "cde"),
        ("x😀é", 1, 3, "😀é", "😀é"),
        ("x😀é", -1, 3, "é", "x😀é"),
        ("x😀é", 2, 1, "", "😀"),
    ] {
        let whole = text(alloc, whole)?;
        assert_eq!(rt;
            slice(alloc, &whole, from, to)?.as_str(),
            sliced,
            "{whole:?} {from} {to}"
        );
        assert_eq!(rt;
            substring(alloc, &whole, from, to)?.as_str(),
            between,
            "{whole:?} {from} {to}"
        );
    }
    Ok(())
}

#[test]
fn texts_are_split(rt: HostRuntime) -> Result<(), Fail> {
    let alloc = rt.alloc();
    for (whole, separator, parts) in [
        ("", "", ""),
        ("", ",", "[]"),
        ("a,b,c", ",", "[a][b][c]"),
        (",a,,b,", ",", "[][a][][b][]"),
        ("a,b", ";", "[a,b]"),
        ("a,b", "a,b", "[][]"),
        ("a,b", "a,bc", "[a,b]"),
        ("aaa", "aa", "[][a]"),
        ("a--b", "--", "[a][b]"),
        ("abc", "", "[a][b][c]"),
        ("é😀", "", "[é][😀]"),
        ("é😀é", "😀", "[é][é]"),
        ("é😀é", "é", "[][😀][]"),
    ] {
        let mut shown = String::new(alloc);
        let all = split(alloc, &text(alloc, whole)?, &text(alloc, separator)?)?;
        for part in all.as_slice() {
            shown.push('[')?;
            shown.push_str(part.as_str())?;
            shown.push(']')?;
        }
        assert_eq!(rt; shown.as_str(), parts, "{whole} by {separator}");
    }
    Ok(())
}

#[test]
fn the_first_is_replaced(rt: HostRuntime) -> Result<(), Fail> {
    let alloc = rt.alloc();
    for (whole, wanted, by, replaced) in [
        ("", "", "", ""),
        ("", "", "x", "x"),
        ("", "a", "x", ""),
        ("aa", "a", "b", "ba"),
        ("abc", "c", "", "ab"),
        ("abc", "", "x", "xabc"),
        ("abc", "d", "x", "abc"),
        ("abc", "abc", "$&", "$&"),
        ("é😀é", "😀", "ab", "éabé"),
        ("é😀é", "é", "😀", "😀😀é"),
    ] {
        let whole = text(alloc, whole)?;
        let made = replace(alloc, &whole, &text(alloc, wanted)?, &text(alloc, by)?)?;
        assert_eq!(rt; made.as_str(), replaced, "{wanted} in {whole:?} by {by}");
    }
    Ok(())
}

#[test]
fn ends_and_cases_change(rt: HostRuntime) -> Result<(), Fail> {
    let alloc = rt.alloc();
    for (whole, trimmed, lower, upper) in [
        ("", "", "", ""),
        (" ", "", " ", " "),
        (" aB c ", "aB c", " ab c ", " AB C "),
        (
            "\t\n\u{b}\u{c}\r \u{a0}\u{2028}\u{2029}\u{feff}",
            "",
            "\t\n\u{b}\u{c}\r \u{a0}\u{2028}\u{2029}\u{feff}",
            "\t\n\u{b}\u{c}\r \u{a0}\u{2028}\u{2029}\u{feff}",
        ),
        (
            "\u{85}a\u{1680}",
            "\u{85}a\u{1680}",
            "\u{85}a\u{1680}",
            "\u{85}A\u{1680}",
        ),
        ("@AZ[`az{", "@AZ[`az{", "@az[`az{", "@AZ[`AZ{"),
        ("éÉß😀", "éÉß😀", "éÉß😀", "éÉß😀"),
        (
            "\u{feff}é😀\u{2028}",
            "é😀",
            "\u{feff}é😀\u{2028}",
            "\u{feff}é😀\u{2028}",
        ),
    ] {
        let whole = text(alloc, whole)?;
        assert_eq!(rt; trim(alloc, &whole)?.as_str(), trimmed, "{whole:?}");
        assert_eq!(rt; to_lower_case(alloc, &whole)?.as_str(), lower, "{whole:?}");
        assert_eq!(rt; to_upper_case(alloc, &whole)?.as_str(), upper, "{whole:?}");
    }
    Ok(())
}

#[test]
fn the_longest_texts_are_taken(rt: HostRuntime) -> Result<(), Fail> {
    let alloc = rt.alloc();
    let (empty, one, two) = (text(alloc, "")?, text(alloc, "a")?, text(alloc, "aa")?);
    let whole = longest(alloc)?;
    let end = 262_141;
    assert_eq!(rt; whole.as_str().len(), 262_144);
    assert_eq!(rt; char_code_at(&whole, end - 1), Some('a'));
    assert_eq!(rt; char_code_at(&whole, end), None);
    assert_eq!(rt; index_of(&whole, &two, end - 2), Some(262_139));
    assert_eq!(rt; index_of(&whole, &two, end - 1), None);
    assert_eq!(rt; index_of(&whole, &empty, end), Some(262_141));
    assert!(rt; slice(alloc, &whole, -end, end)? == whole);
    assert!(rt; trim(alloc, &whole)? == whole);
    assert!(rt; replace(alloc, &whole, &one, &one)? == whole);
    assert!(rt; replace(alloc, &whole, &whole, &one)? == one);
    assert_eq!(rt;
        replace(alloc, &whole, &one, &two).err(),
        Some(TextFault::TooLong)
    );
    assert_eq!(rt;
        replace(alloc, &whole, &empty, &one).err(),
        Some(TextFault::TooLong)
    );
    assert_eq!(rt; split(alloc, &whole, &whole)?.len(), 2);
    Ok(())
}

#[test]
fn numbers_are_whole(rt: HostRuntime) {
    for (a, size) in [(0, 0), (4, 4), (-4, 4), (MOST, MOST), (-MOST, MOST)] {
        assert_eq!(rt; abs(a), size, "{a}");
    }
    for (a, b, quotient) in [
        (7, 2, Some(3)),
        (-7, 2, Some(-3)),
        (7, -2, Some(-3)),
        (-7, -2, Some(3)),
        (0, -5, Some(0)),
        (5, 0, None),
        (0, 0, None),
        (1, MOST, Some(0)),
        (MOST, 1, Some(MOST)),
        (-MOST, -1, Some(MOST)),
    ] {
        assert_eq!(rt; div(a, b), quotient, "{a} by {b}");
    }
}
