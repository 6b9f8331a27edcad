//! Texts, keys and values as long as they may be, and one byte longer.
use super::{answer, block, read};
use base_text::{SOURCE_LIMIT, TEXT_LIMIT};
use std::alloc::{AllocError, Global};
use std::test::Fail;

/// `front`, `x` so often that it comes to `count` bytes beyond `front`, and `back`.
fn filled(alloc: Global, front: &str, count: usize, back: &str) -> Result<String, AllocError> {
    let mut text = String::new(alloc);
    text.push_str(front)?;
    for _ in 0..count {
        text.push_str("x")?;
    }
    text.push_str(back)?;
    Ok(text)
}

#[test]
fn values(rt: HostRuntime) -> Result<(), Fail> {
    let alloc = rt.alloc();
    let lines = filled(alloc, "// @name ", TEXT_LIMIT, "")?;
    let meta = read(
        &rt,
        alloc,
        block(alloc, lines.as_str())?.as_str(),
        Vec::new(alloc),
    )?;
    assert_eq!(rt; meta.name.count(), 262144);
    for (front, expected) in [
        ("// @name ", "NoName"),
        ("// @name a\n// @run-at ", "a||End|||||"),
        ("// @name a\n// @grant ", "a||End|||||"),
        ("// @name a\n// @match ", "a||End|||||"),
        ("// @name a\n// @name ", "a||End|||||"),
        ("// @name a\n// @version ", "a||End|||||"),
    ] {
        let lines = filled(alloc, front, TEXT_LIMIT + 1, " ")?;
        let found = answer(&rt, alloc, block(alloc, lines.as_str())?.as_str())?;
        assert_eq!(rt; found.as_str(), expected, "{front}");
    }
    Ok(())
}

#[test]
fn keys(rt: HostRuntime) -> Result<(), Fail> {
    let alloc = rt.alloc();
    for (count, kept) in [(TEXT_LIMIT, 1), (TEXT_LIMIT + 1, 0)] {
        let lines = filled(alloc, "// @name a\n// @", count, " b")?;
        let meta = read(
            &rt,
            alloc,
            block(alloc, lines.as_str())?.as_str(),
            Vec::new(alloc),
        )?;
        assert_eq!(rt; meta.others.len(), kept, "{count}");
    }
    Ok(())
}

#[test]
fn the_longest_userscript(rt: HostRuntime) -> Result<(), Fail> {
    let alloc = rt.alloc();
    let front = block(alloc, "// @name a")?;
    let text = filled(alloc, front.as_str(), SOURCE_LIMIT - 48, "")?;
    assert_eq!(rt; text.len(), SOURCE_LIMIT);
    let found = answer(&rt, alloc, text.as_str())?;
    assert_eq!(rt; found.as_str(), "a||End|||||");
    Ok(())
}
