//! What no clause says: that each call succeeds with ample memory, on forms just inside and just outside.

use crate::{Line, Lines, Page, page_in, userscript_in};
use std::alloc::{AllocError, Global};
use std::test::Fail;

const BLOCK_END: &str = "\n// @grant GM_log\n// ==/UserScript==\n";

const EIGHT: &str = "1 + 2 + 3 + 4 + 5 + 6 + 7 + 8";

/// What stands for a userscript of another name or text than was read.
const UNLIKE: (usize, usize) = (usize::MAX, 0);

fn joined(alloc: Global, parts: &[&str]) -> Result<Vec<u8>, AllocError> {
    let mut bytes = Vec::new(alloc);
    for part in parts {
        bytes.extend_from_slice(part.as_bytes())?;
    }
    Ok(bytes)
}

/// How many lines there are, and how many parts they have together.
fn shape(lines: &Lines) -> (usize, usize) {
    let mut parts: usize = 0;
    for line in lines.as_slice() {
        let sum = match line {
            Line::Log(sum) => sum,
            Line::SetTitle(sum) => sum,
        };
        parts = parts.saturating_add(1).saturating_add(sum.more.len());
    }
    (lines.len(), parts)
}

/// The shape of the userscript of this name and body.
fn userscript<'x>(
    alloc: Global,
    name: &'x str,
    body: &'x str,
) -> Result<Option<(usize, usize)>, Fail> {
    let bytes = joined(
        alloc,
        &["// ==UserScript==\n// @name ", name, BLOCK_END, body],
    )?;
    let Some(script) = userscript_in(alloc, &bytes)? else {
        return Ok(None);
    };
    if script.text.as_str().as_bytes() == bytes.as_slice() && script.name.as_str() == name {
        Ok(Some(shape(&script.lines)))
    } else {
        Ok(Some(UNLIKE))
    }
}

#[test]
fn userscripts_are_told_from_others(rt: HostRuntime) -> Result<(), Fail> {
    let alloc = rt.alloc();
    for (body, told) in [
        ("", Some((0, 0))),
        ("GM_log(0);\n", Some((1, 1))),
        ("GM_log(999);\n", Some((1, 1))),
        ("GM_log(1000);\n", None),
        ("GM_log(01);\n", None),
        ("GM_log(\"\");\n", Some((1, 1))),
        ("GM_log(\"a\tb 1\");\n", Some((1, 1))),
        ("GM_log(\"a-b\");\n", None),
        ("GM_log(\"é\");\n", None),
        ("GM_log(1 + 2 + \"a\" + 3);\n", Some((1, 4))),
        ("GM_log(1 +2);\n", None),
        ("GM_log(1 + );\n", None),
        ("GM_log();\n", None),
        ("GM_log(1;\n", None),
        ("GM_log(document.title2);\n", None),
        ("document.title = document.title + 0;\n", Some((1, 2))),
        ("document.title = 1);\n", None),
        (
            "document.title = 1;\nGM_log(document.title);\n",
            Some((2, 2)),
        ),
        ("console.log(1);\n", None),
        ("GM_log(1);", None),
        ("GM_log(1);\n\n", None),
        ("GM_log(1);\r\n", None),
    ] {
        assert_eq!(rt; userscript(alloc, "a1", body)?, told, "{body}");
    }
    for name in ["", "a b", "a_b", "é", "a\n"] {
        assert_eq!(rt; userscript(alloc, name, "")?, None, "{name}");
    }
    Ok(())
}

/// The page of this title and body.
fn page_of(alloc: Global, title: &str, body: &[&str]) -> Result<Option<Page>, Fail> {
    let mut bytes = joined(
        alloc,
        &["<html><head><title>", title, "</title></head><body>"],
    )?;
    for part in body {
        bytes.extend_from_slice(part.as_bytes())?;
    }
    bytes.extend_from_slice(b"</body></html>")?;
    Ok(page_in(alloc, &bytes)?)
}

/// The shape of the only script element of a page, where it has this text.
fn element_shape(page: &Page, text: &str) -> Option<(usize, usize)> {
    match page.scripts.as_slice() {
        [script] if script.text.as_str() == text => Some(shape(&script.lines)),
        _ => None,
    }
}

#[test]
fn page_scripts_are_told_from_others(rt: HostRuntime) -> Result<(), Fail> {
    let alloc = rt.alloc();
    for (script, told) in [
        ("", Some((0, 0))),
        ("console.log(1);", Some((1, 1))),
        ("console.log(1);\n", None),
        ("\nconsole.log(1);", None),
        ("console.log(1);console.log(2);", None),
        (
            "console.log(\"a\tb\");\ndocument.title = \"\" + 0;",
            Some((2, 3)),
        ),
        ("console.log(1);\n\nconsole.log(2);", None),
        ("console.log(\"<\");", None),
        ("console.log(\"é\");", None),
        ("console.log(00);", None),
        ("GM_log(1);", None),
    ] {
        let page = page_of(alloc, "Hi", &["<script>", script, "</script>"])?;
        assert_eq!(rt; page.is_some(), told.is_some(), "{script}");
        if let Some(page) = page {
            assert_eq!(rt; element_shape(&page, script), told, "{script}");
        }
    }
    Ok(())
}

#[test]
fn titles_are_told_from_others(rt: HostRuntime) -> Result<(), Fail> {
    let alloc = rt.alloc();
    for (title, told) in [
        ("Hi", true),
        ("a b\tc1", true),
        ("", false),
        ("a  b", false),
        (" a", false),
        ("a ", false),
        ("é", false),
    ] {
        let page = page_of(alloc, title, &[])?;
        assert_eq!(rt; page.is_some(), told, "{title}");
        if let Some(page) = page {
            assert_eq!(rt; page.title.as_str(), title);
        }
    }
    Ok(())
}

#[test]
fn bodies_are_told_from_others(rt: HostRuntime) -> Result<(), Fail> {
    let alloc = rt.alloc();
    let blocks = "<p id=\"p\"></p><div id=\"d\"></div>";
    let script = "<script></script>";
    for (body, told) in [
        (["", "", "", "", ""], Some((false, 0))),
        ([blocks, "", "", "", ""], Some((true, 0))),
        ([blocks, script, "", "", ""], Some((true, 1))),
        ([script, blocks, "", "", ""], None),
        ([blocks, blocks, "", "", ""], None),
        ([script, script, script, script, ""], Some((false, 4))),
        ([script, script, script, script, script], None),
        ([script, " ", script, "", ""], None),
        (["<SCRIPT></SCRIPT>", "", "", "", ""], None),
        (["<script>", "", "", "", ""], None),
    ] {
        let page = page_of(alloc, "Hi", body.as_slice())?;
        assert_eq!(rt; page.map(|page| (page.blocks, page.scripts.len())), told);
    }
    Ok(())
}

#[test]
fn sizes_are_told_to_the_byte(rt: HostRuntime) -> Result<(), Fail> {
    let alloc = rt.alloc();
    for (parts, told) in [("", Some((1, 8))), (" + 9", None)] {
        let body = format!(in alloc; "GM_log({EIGHT}{parts});\n")?;
        assert_eq!(rt; userscript(alloc, "a", &body)?, told);
        let script = format!(in alloc; "<script>console.log({EIGHT}{parts});</script>")?;
        assert_eq!(rt; page_of(alloc, "Hi", &[&script])?.is_some(), told.is_some());
    }
    for (letters, told) in [(947, Some((1, 1))), (948, None)] {
        let inside = String::from_utf8(vec![in alloc; b'a'; letters]?)?;
        let body = format!(in alloc; "GM_log(\"{inside}\");\n")?;
        assert_eq!(rt; userscript(alloc, "a", &body)?, told, "{letters}");
    }
    for (letters, told) in [(65_447, true), (65_448, false)] {
        let inside = String::from_utf8(vec![in alloc; b'a'; letters]?)?;
        let page = page_of(
            alloc,
            "Hi",
            &["<script>console.log(\"", &inside, "\");</script>"],
        )?;
        assert_eq!(rt; page.is_some(), told, "{letters}");
    }
    Ok(())
}
