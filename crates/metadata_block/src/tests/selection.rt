//! Which addresses select a userscript, and the set of its grants.
use super::{block, read};
use crate::{grants, selects};
use door::GrantSet;
use std::alloc::Global;
use std::process::Abort;
use std::test::Fail;
use url_rules::read_address;

/// Whether a block with a name and these lines is selected by the address.
fn answer(rt: &impl Abort, alloc: Global, lines: &str, address: &str) -> Result<bool, Fail> {
    let text = block(alloc, lines)?;
    let meta = read(rt, alloc, text.as_str(), Vec::new(alloc))?;
    Ok(selects(alloc, &meta, &read_address(alloc, address)?)?)
}

#[test]
fn addresses(rt: HostRuntime) -> Result<(), Fail> {
    let alloc = rt.alloc();
    for (lines, address, expected) in [
        ("// @name a", "data:,x", true),
        ("// @name a\n// @exclude data:*", "data:,x", false),
        ("// @name a\n// @exclude data:*", "http://a/", true),
        ("// @name a\n// @include http://a/*", "http://a/x", true),
        ("// @name a\n// @include http://a/*", "http://b/x", false),
        (
            "// @name a\n// @include http://a/*\n// @include http://b/*",
            "http://b/x",
            true,
        ),
        ("// @name a\n// @match http://a/*", "http://a/x", true),
        ("// @name a\n// @match http://a/*", "http://b/x", false),
        (
            "// @name a\n// @match http://a/*\n// @match http://b/*",
            "http://b/x",
            true,
        ),
        (
            "// @name a\n// @include http://a/*\n// @match http://b/*",
            "http://a/x",
            true,
        ),
        (
            "// @name a\n// @include http://a/*\n// @match http://b/*",
            "http://b/x",
            true,
        ),
        (
            "// @name a\n// @include http://a/*\n// @match http://b/*",
            "http://c/x",
            false,
        ),
        (
            "// @name a\n// @include *\n// @exclude */private/*",
            "http://a/private/1",
            false,
        ),
        (
            "// @name a\n// @include *\n// @exclude */private/*",
            "http://a/privates/1",
            true,
        ),
        (
            "// @name a\n// @match <all_urls>\n// @exclude x\n// @exclude /a/",
            "http://a/",
            false,
        ),
        ("// @name a\n// @include http://a/x", "http://a/x#y", true),
        ("// @name a\n// @include http://a/x", "http://a/x?y", false),
        ("// @name a\n// @include", "http://a/", false),
    ] {
        let found = answer(&rt, alloc, lines, address)?;
        assert_eq!(rt; found, expected, "{lines} on {address}");
    }
    Ok(())
}

/// The flags of a set, in the order of its fields.
fn flags(set: GrantSet) -> [bool; 7] {
    [
        set.no_grant,
        set.unsafe_window,
        set.get_value,
        set.set_value,
        set.delete_value,
        set.list_values,
        set.log,
    ]
}

#[test]
fn sets_of_grants(rt: HostRuntime) -> Result<(), Fail> {
    let alloc = rt.alloc();
    for (lines, expected) in [
        (
            "// @name a",
            [false, false, false, false, false, false, false],
        ),
        (
            "// @name a\n// @grant none",
            [true, false, false, false, false, false, false],
        ),
        (
            "// @name a\n// @grant unsafeWindow",
            [false, true, false, false, false, false, false],
        ),
        (
            "// @name a\n// @grant GM_getValue",
            [false, false, true, false, false, false, false],
        ),
        (
            "// @name a\n// @grant GM_setValue",
            [false, false, false, true, false, false, false],
        ),
        (
            "// @name a\n// @grant GM_deleteValue",
            [false, false, false, false, true, false, false],
        ),
        (
            "// @name a\n// @grant GM_listValues",
            [false, false, false, false, false, true, false],
        ),
        (
            "// @name a\n// @grant GM_log",
            [false, false, false, false, false, false, true],
        ),
        (
            "// @name a\n// @grant GM_log\n// @grant unsafeWindow\n// @grant GM_log",
            [false, true, false, false, false, false, true],
        ),
    ] {
        let text = block(alloc, lines)?;
        let meta = read(&rt, alloc, text.as_str(), Vec::new(alloc))?;
        assert_eq!(rt; flags(grants(&meta)), expected, "{lines}");
    }
    Ok(())
}
