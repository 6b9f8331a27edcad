//! What no contract says: that each call succeeds with ample memory, on values from outside.
use crate::{BinaryOp, NoMemory, OrMemory, SOURCE_LIMIT, TEXT_LIMIT, Text, TextFault, UnaryOp};
use std::alloc::{AllocError, AllocFailed, Global};
use std::cmp::Ordering;
use std::test::Fail;

fn letters(alloc: Global, count: usize) -> Result<String, Fail> {
    Ok(String::from_utf8(vec![in alloc; b'a'; count]?)?)
}

#[test]
fn scalars_have_places(rt: HostRuntime) -> Result<(), Fail> {
    let alloc = rt.alloc();
    for (whole, count, at, scalar) in [
        ("", 0, 0, None),
        ("abc", 3, 0, Some('a')),
        ("abc", 3, 2, Some('c')),
        ("abc", 3, 3, None),
        ("abc", 3, u32::MAX, None),
        ("aé∷", 3, 0, Some('a')),
        ("aé∷", 3, 1, Some('é')),
        ("aé∷", 3, 2, Some('∷')),
        ("aé∷", 3, 3, None),
        ("aé∷", 3, 5, None),
        ("😀", 1, 0, Some('😀')),
        ("😀", 1, 1, None),
    ] {
        let text = Text::of(alloc, whole)?;
        assert_eq!(rt; text.as_str(), whole);
        assert_eq!(rt; text.count(), count);
        assert_eq!(rt; text.scalar(at), scalar, "at {at}");
    }
    Ok(())
}

#[test]
fn a_cut_is_part_of_the_text(rt: HostRuntime) -> Result<(), Fail> {
    let alloc = rt.alloc();
    for (whole, from, to, part) in [
        ("", 0, 0, ""),
        ("abcdef", 0, 6, "abcdef"),
        ("abcdef", 1, 4, "bcd"),
        ("abcdef", 6, 6, ""),
        ("aé∷", 0, 1, "a"),
        ("aé∷", 1, 3, "é∷"),
        ("aé∷", 2, 2, ""),
        ("x😀y", 1, 2, "😀"),
    ] {
        let text = Text::of(alloc, whole)?;
        assert!(rt; from <= to && to <= text.count());
        let cut = text.cut(alloc, from, to)?;
        assert_eq!(rt; cut.as_str(), part);
        assert_eq!(rt; cut.count(), to - from, "{whole} from {from} to {to}");
    }
    Ok(())
}

#[test]
fn texts_are_joined_and_shared(rt: HostRuntime) -> Result<(), Fail> {
    let alloc = rt.alloc();
    for (left, right, both, third) in [
        ("", "", "", None),
        ("", "é", "é", None),
        ("ab", "cd", "abcd", Some('c')),
        ("ab", "é", "abé", Some('é')),
        ("aé", "∷b", "aé∷b", Some('∷')),
    ] {
        let joined = Text::of(alloc, left)?.join(alloc, &Text::of(alloc, right)?)?;
        assert_eq!(rt; joined.as_str(), both);
        assert_eq!(rt; joined.scalar(2), third);
        assert!(rt; joined == Text::source(alloc, both)?);
        assert!(rt; joined.share()? == joined && joined.clone()? == joined);
    }
    Ok(())
}

#[test]
fn limits_count_bytes(rt: HostRuntime) -> Result<(), Fail> {
    let alloc = rt.alloc();
    assert_eq!(rt; (TEXT_LIMIT, SOURCE_LIMIT), (262_144, 1_048_576));
    let too_long = Some(TextFault::TooLong);
    for (length, of, source) in [
        (262_144, None, None),
        (262_145, too_long, None),
        (1_048_576, too_long, None),
        (1_048_577, too_long, too_long),
    ] {
        let whole = letters(alloc, length)?;
        assert_eq!(rt;
            Text::of(alloc, whole.as_str()).err(),
            of,
            "of {length} bytes"
        );
        assert_eq!(rt;
            Text::source(alloc, whole.as_str()).err(),
            source,
            "source of {length} bytes"
        );
    }
    let mut half = Text::of(alloc, "éé")?;
    for _ in 0..15 {
        half = half.join(alloc, &half)?;
    }
    let whole = half.join(alloc, &half)?;
    assert_eq!(rt; (whole.as_str().len(), whole.count()), (262_144, 131_072));
    assert_eq!(rt; whole.join(alloc, &Text::of(alloc, "")?).err(), None);
    assert_eq!(rt; whole.join(alloc, &Text::of(alloc, "a")?).err(), too_long);
    assert_eq!(rt; Text::of(alloc, "a")?.join(alloc, &whole).err(), too_long);
    Ok(())
}

#[test]
fn numbers_are_decimal(rt: HostRuntime) -> Result<(), Fail> {
    let alloc = rt.alloc();
    for (number, digits) in [
        (0, "0"),
        (-12, "-12"),
        (9_007_199_254_740_991, "9007199254740991"),
        (i64::MAX, "9223372036854775807"),
        (i64::MIN, "-9223372036854775808"),
    ] {
        let text = Text::decimal(alloc, number)?;
        assert_eq!(rt; text.as_str(), digits);
        assert_eq!(rt; text.count() as usize, digits.len());
    }
    Ok(())
}

#[test]
fn order_is_by_bytes(rt: HostRuntime) -> Result<(), Fail> {
    let alloc = rt.alloc();
    for (left, right, order) in [
        ("", "a", Ordering::Less),
        ("Z", "a", Ordering::Less),
        ("ab", "a", Ordering::Greater),
        ("z", "é", Ordering::Less),
        ("\u{FFFF}", "\u{10000}", Ordering::Less),
        ("é∷", "é∷", Ordering::Equal),
    ] {
        let (left, right) = (Text::of(alloc, left)?, Text::of(alloc, right)?);
        assert_eq!(rt; left.cmp(&right), order, "{left:?} and {right:?}");
        assert_eq!(rt; left.partial_cmp(&right), Some(order));
        assert_eq!(rt; left == right, order == Ordering::Equal);
    }
    Ok(())
}

#[test]
fn debug_is_that_of_the_str(rt: HostRuntime) -> Result<(), Fail> {
    let text = Text::of(rt.alloc(), "a\"é\n")?;
    assert_eq!(rt;
        format!(in rt.alloc(); "{text:?}")?.as_str(),
        "\"a\\\"é\\n\""
    );
    Ok(())
}

#[test]
fn want_of_memory_is_one_answer(rt: HostRuntime) {
    assert_eq!(rt; NoMemory::from(AllocError), NoMemory);
    assert_eq!(rt; TextFault::from(AllocError), TextFault::NoMemory);
    assert_eq!(rt; TextFault::from(NoMemory), TextFault::NoMemory);
    assert_eq!(rt; OrMemory::<TextFault>::from(AllocError), OrMemory::NoMemory);
    assert_eq!(rt; OrMemory::<TextFault>::from(NoMemory), OrMemory::NoMemory);
    assert_eq!(rt;
        OrMemory::<TextFault>::from(AllocFailed { value: 7u8 }),
        OrMemory::NoMemory
    );
    assert_ne!(rt; OrMemory::Fault(TextFault::NoMemory), OrMemory::NoMemory);
    assert_ne!(rt; BinaryOp::Same, BinaryOp::Equal);
    assert_ne!(rt; UnaryOp::Plus, UnaryOp::Minus);
}
