//! What the lines of a block say, and the first of them that is refused. The first line of each row is line 2.
use super::{answer, block, read};
use crate::MetaFault;
use std::test::Fail;

#[test]
fn names_and_other_pairs(rt: HostRuntime) -> Result<(), Fail> {
    let alloc = rt.alloc();
    for (lines, expected) in [
        ("// @name a", "a||End|||||"),
        ("//@name a", "a||End|||||"),
        ("//\t@name\ta\t", "a||End|||||"),
        ("// @name   a  b \t", "a  b||End|||||"),
        ("// @name a // @name b", "a // @name b||End|||||"),
        ("// @name \u{a0}é", "\u{a0}é||End|||||"),
        ("// @name a\n// @name b", "b||End|||||"),
        (
            "// @name a\n\nx\n// x\n//\n// @\n// @ y\nvar x = 1;",
            "a||End|||||",
        ),
        (
            "// @name a\n // @name b\n/ @name c\n// name d",
            "a||End|||||",
        ),
        (
            "// @name a\n/// @name b\n// x @name c\n//// @name d",
            "a||End|||||",
        ),
        ("// @namespace n\n// @name a", "a|n|End|||||"),
        (
            "// @namespace n\n// @name a\n// @namespace m",
            "a|m|End|||||",
        ),
        ("// @namespace n\n// @name a\n// @namespace", "a||End|||||"),
        ("// @name a\n// @version 1", "a||End|||||version=1 "),
        (
            "// @version 2\n// @name a\n// @version 1\n// @description d d",
            "a||End|||||version=2 version=1 description=d d ",
        ),
        ("// @Name b\n// @name a", "a||End|||||Name=b "),
        (
            "// @name a\n// @name: b\n// @@name c",
            "a||End|||||name:=b @name=c ",
        ),
        ("// @name a\n// @x\n// @é ü", "a||End|||||x= é=ü "),
        ("// @name\u{a0}b\n// @name a", "a||End|||||name\u{a0}b= "),
        (
            "// @name a\n// @runat x\n// @includes x",
            "a||End|||||runat=x includes=x ",
        ),
        ("// @name", "NoName"),
        ("// @name \t ", "NoName"),
        ("// @name a\n// @name", "NoName"),
        ("// @Name a", "NoName"),
        (" // @name a", "NoName"),
        ("// @ name a", "NoName"),
        ("// @namespace n", "NoName"),
        ("// @version 1", "NoName"),
    ] {
        let found = answer(&rt, alloc, block(alloc, lines)?.as_str())?;
        assert_eq!(rt; found.as_str(), expected, "{lines}");
    }
    Ok(())
}

#[test]
fn moments_and_grants(rt: HostRuntime) -> Result<(), Fail> {
    let alloc = rt.alloc();
    for (lines, expected) in [
        ("// @name a\n// @run-at document-start", "a||Start|||||"),
        ("// @name a\n// @run-at document-end", "a||End|||||"),
        ("// @run-at \tdocument-idle \n// @name a", "a||Idle|||||"),
        (
            "// @name a\n// @run-at document-start\n// @run-at document-idle",
            "a||Idle|||||",
        ),
        (
            "// @name a\n// @run-at document-idle\n// @run-at document-end",
            "a||End|||||",
        ),
        ("// @name a\n// @run-at", "BadRunAt(3)"),
        ("// @name a\n// @run-at Document-End", "BadRunAt(3)"),
        ("// @name a\n// @run-at document-end x", "BadRunAt(3)"),
        (
            "// @run-at later\n// @run-at document-end\n// @name a",
            "BadRunAt(2)",
        ),
        (
            "// @run-at document-end\n// @run-at later\n// @name a",
            "BadRunAt(3)",
        ),
        ("// @name a\n// @grant none", "a||End|NoGrant ||||"),
        (
            "// @name a\n// @grant unsafeWindow",
            "a||End|UnsafeWindow ||||",
        ),
        (
            "// @name a\n// @grant GM_getValue\n// @grant GM_setValue",
            "a||End|GetValue SetValue ||||",
        ),
        (
            "// @grant GM_deleteValue\n// @grant GM_listValues\n// @grant GM_log\n// @name a",
            "a||End|DeleteValue ListValues Log ||||",
        ),
        (
            "// @name a\n// @grant GM_log\n// @grant GM_log",
            "a||End|Log Log ||||",
        ),
        (
            "// @name a\n// @grant none\n// @grant none",
            "a||End|NoGrant NoGrant ||||",
        ),
        ("// @name a\n// @grant", "BadGrant(3)"),
        ("// @name a\n// @grant GM_openInTab", "BadGrant(3)"),
        ("// @name a\n// @grant None", "BadGrant(3)"),
        ("// @name a\n// @grant GM_log GM_getValue", "BadGrant(3)"),
        (
            "// @name a\n// @grant none\n// @grant GM_log",
            "BadGrant(4)",
        ),
        (
            "// @name a\n// @grant GM_log\n// @grant none",
            "BadGrant(4)",
        ),
        (
            "// @name a\n// @grant none\n// @grant none\n// @grant unsafeWindow",
            "BadGrant(5)",
        ),
        (
            "// @grant GM_log\n// @grant GM_getValue\n// @name a\n// @grant none",
            "BadGrant(5)",
        ),
    ] {
        let found = answer(&rt, alloc, block(alloc, lines)?.as_str())?;
        assert_eq!(rt; found.as_str(), expected, "{lines}");
    }
    Ok(())
}

#[test]
fn rules_and_first_faults(rt: HostRuntime) -> Result<(), Fail> {
    let alloc = rt.alloc();
    for (lines, expected) in [
        (
            "// @name a\n// @include http://a/*\n// @include *",
            "a||End||http://a/* * |||",
        ),
        ("// @name a\n// @include", "a||End|| |||"),
        (
            "// @name a\n// @include /\n// @include //",
            "a||End||/ REGEX |||",
        ),
        ("// @name a\n// @include /a b/", "a||End||REGEX |||"),
        (
            "// @name a\n// @exclude *\n// @exclude /a/",
            "a||End|||* REGEX ||",
        ),
        (
            "// @match <all_urls>\n// @name a\n// @match *://*/*",
            "a||End||||ALL MATCH |",
        ),
        (
            "// @name a\n// @exclude x\n// @match http://a/\n// @include y\n// @z",
            "a||End||y |x |MATCH |z= ",
        ),
        ("// @name a\n// @include /(/", "BadRule(3)"),
        ("// @name a\n// @exclude /[/", "BadRule(3)"),
        ("// @name a\n// @include /(a{1000}){1000}/", "BadRule(3)"),
        ("// @name a\n// @match", "BadRule(3)"),
        ("// @name a\n// @match *", "BadRule(3)"),
        ("// @name a\n// @match /a/", "BadRule(3)"),
        ("// @name a\n// @match http://a:1/", "BadRule(3)"),
        ("// @run-at x\n// @grant x\n// @match x", "BadRunAt(2)"),
        ("// @grant x\n// @match x\n// @run-at x", "BadGrant(2)"),
        ("// @match x\n// @run-at x\n// @grant x", "BadRule(2)"),
        ("// @name\n// @x\n// @grant x\n// @grant y", "BadGrant(4)"),
        ("// @run-at x", "BadRunAt(2)"),
        ("// @exclude /(/\n// @name a", "BadRule(2)"),
    ] {
        let found = answer(&rt, alloc, block(alloc, lines)?.as_str())?;
        assert_eq!(rt; found.as_str(), expected, "{lines}");
    }
    Ok(())
}

#[test]
fn rules_that_are_too_big(rt: HostRuntime) -> Result<(), Fail> {
    let alloc = rt.alloc();
    let text = block(
        alloc,
        "// @name a\n// @include /a/\n// @include b\n// @exclude /c/",
    )?;
    for (call, expected) in [
        (0, None),
        (1, Some(MetaFault::BadRule(3))),
        (2, Some(MetaFault::BadRule(5))),
        (3, None),
    ] {
        let found = read(&rt, alloc, text.as_str(), vec![in alloc; call]?).err();
        assert_eq!(rt; found, expected, "{call}");
    }
    Ok(())
}
