//! Where the block is.
use super::answer;
use crate::blocks_are_read_one_way;
use std::test::Fail;

#[test]
fn texts_without_a_block(rt: HostRuntime) -> Result<(), Fail> {
    let alloc = rt.alloc();
    for text in [
        "",
        "\n",
        "GM_log(1);\n",
        "// @name a\n",
        "// ==/UserScript==\n",
        "/ / ==UserScript==\n// ==/UserScript==\n",
        "// == UserScript ==\n// ==/UserScript==\n",
        "// ==userscript==\n// ==/UserScript==\n",
        "// ==UserScript==x\n// ==/UserScript==\n",
        "// ==UserScript== x\n// ==/UserScript==\n",
        "x // ==UserScript==\n// ==/UserScript==\n",
        "/// ==UserScript==\n// ==/UserScript==\n",
        "/* ==UserScript== */\n// ==/UserScript==\n",
        "//\u{a0}==UserScript==\n// ==/UserScript==\n",
        "\u{feff}// ==UserScript==\n// ==/UserScript==\n",
        "\u{b}// ==UserScript==\n// ==/UserScript==\n",
        "// ==UserScript==\r// @name a\r// ==/UserScript==\r",
        "// ==UserScript==\r\r\n// @name a\n// ==/UserScript==\n",
    ] {
        let found = answer(&rt, alloc, text)?;
        assert_eq!(rt; found.as_str(), "NoBlock", "{text}");
    }
    Ok(())
}

#[test]
fn blocks_without_an_end(rt: HostRuntime) -> Result<(), Fail> {
    let alloc = rt.alloc();
    for text in [
        "// ==UserScript==",
        "// ==UserScript==\n// @name a\n",
        "// ==UserScript==\n// @run-at x\n",
        "// ==/UserScript==\n// ==UserScript==\n// @name a\n",
        "// ==UserScript==\n// @name a\n// ==UserScript==\n",
        "// ==UserScript==\n// @name a\n// == /UserScript==\n",
        "// ==UserScript==\n// @name a\n// ==/UserScript== x\n",
        "// ==UserScript==\n// @name a\n// ==/UserScript==\r",
    ] {
        let found = answer(&rt, alloc, text)?;
        assert_eq!(rt; found.as_str(), "NoEnd", "{text}");
    }
    blocks_are_read_one_way();
    Ok(())
}

#[test]
fn blocks_between_other_lines(rt: HostRuntime) -> Result<(), Fail> {
    let alloc = rt.alloc();
    for (text, expected) in [
        (
            "// ==UserScript==\n// @name a\n// ==/UserScript==",
            "a||End|||||",
        ),
        (
            "//==UserScript==\n//@name a\n//==/UserScript==\n",
            "a||End|||||",
        ),
        (
            " \t// \t==UserScript==\t \n// @name a\n\t//\t==/UserScript== ",
            "a||End|||||",
        ),
        (
            "// ==UserScript==\r\n// @name a\r\n// ==/UserScript==\r\n",
            "a||End|||||",
        ),
        (
            "// @name b\n// ==UserScript==\n// @name a\n// ==/UserScript==\n// @name c\n",
            "a||End|||||",
        ),
        (
            "// ==UserScript==\n// @name a\n// ==/UserScript==\n// ==UserScript==\n// @name b\n// ==/UserScript==\n",
            "a||End|||||",
        ),
        (
            "// ==UserScript==\n// ==UserScript==\n// @name a\n// ==/UserScript==\n",
            "a||End|||||",
        ),
        (
            "// ==/UserScript==\n// ==UserScript==\n// @name a\n// ==/UserScript==\n",
            "a||End|||||",
        ),
        (
            "\n\n// ==UserScript==\n\n// @run-at x\n// ==/UserScript==\n",
            "BadRunAt(5)",
        ),
        (
            "\r\n// ==UserScript==\r\n// @grant x\r\n// ==/UserScript==\r\n",
            "BadGrant(3)",
        ),
        (
            "// ==UserScript==\n// @name a\r\r\n// ==/UserScript==\n",
            "a\r||End|||||",
        ),
        ("// ==UserScript==\n// ==/UserScript==\n", "NoName"),
    ] {
        let found = answer(&rt, alloc, text)?;
        assert_eq!(rt; found.as_str(), expected, "{text}");
    }
    Ok(())
}
