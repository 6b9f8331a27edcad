//! Pages at the limits and beyond, and pages that aren't UTF-8.

use crate::builds::{first_fault, read};
use std::alloc::{AllocError, Global};
use std::process::Abort;
use std::test::Fail;

/// `before`, then `part` so many times, then `after`.
fn repeated(
    alloc: Global,
    before: &str,
    part: &str,
    count: u32,
    after: &str,
) -> Result<String, AllocError> {
    let mut page = String::from_str(alloc, before)?;
    for _ in 0..count {
        page.push_str(part)?;
    }
    page.push_str(after)?;
    Ok(page)
}

/// The first row, from 0, whose page doesn't give its fault, or itself where none is named.
fn first_wrong(
    rt: &impl Abort,
    alloc: Global,
    rows: &[(&str, &str, u32, &str, &str)],
) -> Result<Option<usize>, Fail> {
    for (i, (before, part, count, after, want)) in rows.iter().enumerate() {
        let page = repeated(alloc, before, part, *count, after)?;
        let got = read(rt, alloc, page.as_bytes())?;
        let want = if *want == "" { page.as_str() } else { *want };
        if got.as_str() != want {
            return Ok(Some(i));
        }
    }
    Ok(None)
}

#[test]
fn limits_of_depth(rt: HostRuntime) -> Result<(), Fail> {
    let ends = repeated(rt.alloc(), "", "</a>", 256, "")?;
    let inner = repeated(rt.alloc(), "<br>", "</a>", 255, "")?;
    let whole = [
        ("", "<a>", 256, ends.as_str(), ""),
        ("", "<a>", 255, inner.as_str(), ""),
    ];
    assert_eq!(rt; first_wrong(&rt, rt.alloc(), &whole)?, None);
    const ROWS: &[(&str, &str, u32, &str, &str)] = &[
        ("", "<a>", 257, "", "TooDeep 768"),
        ("", "<a>", 256, "<!--b-->", "TooDeep 768"),
        ("", "<a>", 256, "b", "TooDeep 768"),
        ("", "<a>", 256, "<br>", "TooDeep 768"),
        ("", "<a>", 256, "</b>", "WrongEnd 768"),
        ("", "<a>", 256, "", "Unclosed 765"),
        ("", "<a>", 255, "<script>b</script>", "TooDeep 773"),
        ("", "<a>", 255, "<title></title></b>", "WrongEnd 780"),
        ("<!--\u{e9}-->", "<a>", 257, "", "TooDeep 777"),
        ("<!--\u{1f600}-->", "<a>", 256, "\u{e9}", "TooDeep 779"),
    ];
    assert_eq!(rt; first_wrong(&rt, rt.alloc(), ROWS)?, None);
    Ok(())
}

#[test]
fn limits_of_texts(rt: HostRuntime) -> Result<(), Fail> {
    const ROWS: &[(&str, &str, u32, &str, &str)] = &[
        ("<p>", "a", 262_144, "</p>", ""),
        ("<p>", "a", 262_145, "</p>", "TooLong 3"),
        ("<p>", "&lt;", 262_144, "</p>", ""),
        ("<p>", "&lt;", 262_145, "</p>", "TooLong 3"),
        ("<p>", "\u{e9}", 131_072, "</p>", ""),
        ("<p>\u{1f600}<br>", "\u{e9}", 131_073, "</p>", "TooLong 11"),
        ("<p>", "a\r\n", 131_073, "</p>", "TooLong 3"),
        ("<title>", "a", 262_144, "</title>", ""),
        ("<title>", "a", 262_145, "</title>", "TooLong 7"),
        ("<style>", "a", 262_144, "</style>", ""),
        ("<style>", "\r\n", 262_145, "</style>", "TooLong 7"),
        ("<script>", "a", 262_145, "</script>", "TooLong 8"),
        ("<textarea>", "&gt;", 262_144, "</textarea>", ""),
        ("<textarea>", "&gt;", 262_145, "</textarea>", "TooLong 10"),
        ("<!--", "a", 262_144, "-->", ""),
        ("<!--", "a", 262_145, "-->", "TooLong 0"),
    ];
    assert_eq!(rt; first_wrong(&rt, rt.alloc(), ROWS)?, None);
    Ok(())
}

#[test]
fn limits_of_names_and_values(rt: HostRuntime) -> Result<(), Fail> {
    let end = repeated(rt.alloc(), "></", "a", 262_144, ">")?;
    let whole = [("<", "a", 262_144, end.as_str(), "")];
    assert_eq!(rt; first_wrong(&rt, rt.alloc(), &whole)?, None);
    const ROWS: &[(&str, &str, u32, &str, &str)] = &[
        ("<", "a", 262_144, "/>", "Unclosed 0"),
        ("<", "a", 262_145, "", "TooLong 1"),
        ("<p ", "a", 262_144, "=\"\"></p>", ""),
        ("<p ", "a", 262_145, "></p>", "TooLong 3"),
        ("<p a=\"", "b", 262_144, "\"></p>", ""),
        ("<p a='", "b", 262_145, "'></p>", "TooLong 6"),
        ("<p a=\"", "&amp;", 262_144, "\"></p>", ""),
        ("<p a='", "&amp;", 262_145, "'></p>", "TooLong 6"),
        ("<p a=", "b", 262_145, "></p>", "TooLong 5"),
        ("<p \u{e9}=", "b", 262_145, "></p>", "TooLong 6"),
    ];
    assert_eq!(rt; first_wrong(&rt, rt.alloc(), ROWS)?, None);
    Ok(())
}

#[test]
fn limits_of_nodes_and_pages(rt: HostRuntime) -> Result<(), Fail> {
    const ROWS: &[(&str, u32, &str, &str)] = &[
        ("<!---->", 99_999, "", ""),
        ("<!---->", 100_000, "", "TooLong 699993"),
        ("<!---->", 99_998, "<p></p>", ""),
        ("<!---->", 99_998, "<p>a</p>", "TooLong 699989"),
        ("<!---->", 99_998, "<title>a</title>", "TooLong 699993"),
        ("                ", 262_144, "", ""),
        ("                ", 262_144, "<", "TooLong 4194304"),
    ];
    for (part, count, after, want) in ROWS {
        let page = repeated(rt.alloc(), "", part, *count, after)?;
        let got = first_fault(rt.alloc(), page.as_bytes())?;
        assert_eq!(rt; got.as_str(), *want, "{count} of {part}");
    }
    Ok(())
}

/// Fifteen comments of 262,144 bytes each and one of 262,131, their marks counted.
fn longest(alloc: Global, after: &str) -> Result<String, AllocError> {
    let comment = repeated(alloc, "<!--", "a", 262_137, "-->")?;
    let last = repeated(alloc, "<!--", "a", 262_124, "-->")?;
    let mut page = repeated(alloc, "<html>", comment.as_str(), 15, last.as_str())?;
    page.push_str("</html>")?;
    page.push_str(after)?;
    Ok(page)
}

#[test]
fn the_longest_page(rt: HostRuntime) -> Result<(), Fail> {
    let page = longest(rt.alloc(), "")?;
    assert_eq!(rt; page.len(), 4_194_304);
    assert!(rt; read(&rt, rt.alloc(), page.as_bytes())? == page);
    let longer = longest(rt.alloc(), "\n")?;
    let fault = read(&rt, rt.alloc(), longer.as_bytes())?;
    assert_eq!(rt; fault.as_str(), "TooLong 4194304");
    Ok(())
}

#[test]
fn pages_that_are_not_utf8(rt: HostRuntime) -> Result<(), Fail> {
    let rows = [
        (b"<\xff".as_slice(), "NotUtf8 1"),
        (b"\x80", "NotUtf8 0"),
        (b"\xef\xbb", "NotUtf8 0"),
        (b"x\xff", "NotUtf8 1"),
        (b"<a>\xe2\x82", "NotUtf8 3"),
        (b"<a>\xed\xa0\x80</a>", "NotUtf8 3"),
        (b"<a>\xc3\xa9\xf0\x9f\x98\x80\xf8", "NotUtf8 9"),
        (b"<a></a>\xc0", "NotUtf8 7"),
    ];
    for (page, want) in rows {
        let got = read(&rt, rt.alloc(), page)?;
        assert_eq!(rt; got.as_str(), want);
    }
    Ok(())
}

/// A page of 4,194,304 bytes: spaces, and then these bytes.
fn full(alloc: Global, end: &[u8]) -> Result<Vec<u8>, AllocError> {
    let mut page = Vec::new(alloc);
    for _ in end.len()..4_194_304 {
        page.push(b' ')?;
    }
    page.extend_from_slice(end)?;
    Ok(page)
}

#[test]
fn faults_at_the_last_places(rt: HostRuntime) -> Result<(), Fail> {
    let deep = repeated(rt.alloc(), "", "<a>", 256, "b")?;
    let rows = [
        (b"x".as_slice(), "BadTag 4194303"),
        (b"\xff", "NotUtf8 4194303"),
        (b"<a", "Unclosed 4194302"),
        (b"</a>", "WrongEnd 4194300"),
        (deep.as_bytes(), "TooDeep 4194303"),
    ];
    for (end, want) in rows {
        let page = full(rt.alloc(), end)?;
        let got = first_fault(rt.alloc(), &page)?;
        assert_eq!(rt; got.as_str(), want);
    }
    Ok(())
}
