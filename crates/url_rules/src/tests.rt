//! Rules with addresses that they fit or don't, values that are refused, and texts that are no address.
//!
//! What an address looks like when it is serialized is the URL Standard's.
ghost use Rattle.std.specs.Prelude.{length, ◌≤◌};

use crate::{
    AddressFault, BuildFault, Patterns, RegexPatterns, Rule, RuleFault, RuleKind, fits,
    read_address, read_rule, rules_are_read_one_way, same_rules_fit_alike,
};
use base_text::TEXT_LIMIT;
use door::ADDRESS_LIMIT;
use std::alloc::Global;
use std::process::Abort;
use std::test::Fail;
use url::ParseError;

/// Reads a value, where the listed calls of the patterns answer that it is too big.
fn read(
    rt: &impl Abort,
    alloc: Global,
    kind: RuleKind,
    value: &str,
    failing: Vec<u32>,
) -> Result<Rule, RuleFault> {
    assert!(rt; value.len() <= TEXT_LIMIT);
    read_rule(alloc, &mut RegexPatterns::new(failing), kind, value)
}

/// Whether the rule fits the address.
fn answer(
    rt: &impl Abort,
    alloc: Global,
    kind: RuleKind,
    value: &str,
    address: &str,
) -> Result<bool, Fail> {
    let rule = read(rt, alloc, kind, value, Vec::new(alloc))?;
    let address = read_address(alloc, address)?;
    Ok(fits(alloc, &rule, &address)?)
}

#[test]
fn globs_that_fit(rt: HostRuntime) -> Result<(), Fail> {
    let alloc = rt.alloc();
    for (value, address) in [
        ("http://a.example/*", "http://a.example/x?y#z"),
        ("http://a.example/x", "http://a.example/x#z"),
        ("http://a.example/x", "http://a.example/x#"),
        ("http://a.example/x?y", "http://a.example/x?y"),
        ("http://a.example/x?", "http://a.example/x?"),
        ("http://a.example/", "http://a.example"),
        ("http://a.example/", "HTTP://A.EXAMPLE/"),
        ("http://a.example/", "http://a.example:80/"),
        ("https://a.example/", "https://a.example:443/"),
        ("http://a.example:8080/", "http://a.example:8080/"),
        ("http://u:p@a.example/", "http://u:p@a.example/"),
        ("http://*@a.example/", "http://u@a.example/"),
        ("http://[::1]/", "http://[0:0:0:0:0:0:0:1]/"),
        ("http://[::1]:81/", "http://[::1]:81/"),
        ("http://127.0.0.1/", "http://0x7f.1/"),
        ("http://xn--bcher-kva.example/", "http://bücher.example/"),
        ("http://a.example/%C3%A9", "http://a.example/é"),
        ("http://a.example/?q=%20x", "http://a.example/?q= x"),
        ("http://a.example/b", "http://a.example/c/../b"),
        ("http://*.example/", "http://a.example/"),
        ("http://*.example/", "http://a.b.example/"),
        ("*/private/*", "http://a.example/private/1"),
        ("*a*b*c*", "http://abc/"),
        ("file:///a/x", "file:///a/x"),
        ("file:///a/x", "file://localhost/a/x"),
        ("file:///*", "file:///a/x"),
        ("mailto:*", "mailto:a@b"),
        ("about:blank", "about:blank"),
        ("*", "http://a.example/"),
        ("*", "data:,x"),
        ("**", "data:,x"),
        ("data:,x", "data:,x"),
        ("data:,x*", "data:,x"),
        ("*data:,x", "data:,x"),
        ("data:*,x", "data:,x"),
        ("data:,*x*", "data:,x"),
        ("*x", "data:,x"),
    ] {
        assert!(rt;
            answer(&rt, alloc, RuleKind::Glob, value, address)?,
            "{value} on {address}"
        );
    }
    Ok(())
}

#[test]
fn globs_that_do_not_fit(rt: HostRuntime) -> Result<(), Fail> {
    let alloc = rt.alloc();
    for (value, address) in [
        ("", "data:,x"),
        ("/", "http://a.example/"),
        ("data:,xx*", "data:,x"),
        ("*y", "data:,x"),
        ("*c*b*a*", "http://abc/"),
        ("http://a.example", "http://a.example"),
        ("http://A.example/", "http://a.example/"),
        ("http://a.example/x", "http://a.example/x?y"),
        ("http://a.example/x", "http://a.example/x?"),
        ("http://a.example/x?y", "http://a.example/xy"),
        ("http://a.example/x#z", "http://a.example/x#z"),
        ("http://a.example/", "http://a.example:8080/"),
        ("http://a.example/", "http://u:p@a.example/"),
        ("http://a.example/", "https://a.example/"),
        ("http://bücher.example/", "http://bücher.example/"),
        ("http://a.example/é", "http://a.example/é"),
        ("*/private/*", "http://a.example/privates/1"),
        ("file:///a/x", "file:///a/x/y"),
    ] {
        assert!(rt;
            !answer(&rt, alloc, RuleKind::Glob, value, address)?,
            "{value} on {address}"
        );
    }
    Ok(())
}

#[test]
fn regular_expressions(rt: HostRuntime) -> Result<(), Fail> {
    let alloc = rt.alloc();
    for (value, address, expected) in [
        (
            "/^https?:\\/\\/[a-z]+\\.example\\/$/",
            "https://b.example/",
            true,
        ),
        (
            "/^https?:\\/\\/[a-z]+\\.example\\/$/",
            "ftp://b.example/",
            false,
        ),
        ("/b\\.ex/", "https://b.example/", true),
        ("/B\\.EX/", "https://b.example/", false),
        ("//", "data:,x", true),
        ("/x$/", "data:,x#y", true),
        ("/y$/", "data:,x#y", false),
        ("/\\?q/", "http://a.example/?q", true),
        ("/\\/\\/a/", "http://a.example/", true),
        ("/a/b/", "http://a/b", true),
        ("/^data:,(x|y)$/", "data:,y", true),
        ("/^data:,(x|y)$/", "data:,z", false),
    ] {
        let found = answer(&rt, alloc, RuleKind::Glob, value, address)?;
        assert_eq!(rt; found, expected, "{value} on {address}");
    }
    Ok(())
}

#[test]
fn match_patterns_that_fit(rt: HostRuntime) -> Result<(), Fail> {
    let alloc = rt.alloc();
    for (value, address) in [
        ("*://*.a.example/p/*", "https://a.example/p/1"),
        ("*://*.a.example/p/*", "https://x.a.example/p/"),
        ("*://*.a.example/p/*", "http://y.x.a.example/p/1"),
        ("<all_urls>", "file:///var/x"),
        ("<all_urls>", "http://a.example/"),
        ("<all_urls>", "https://a.example/"),
        ("<all_urls>", "ftp://a.example/"),
        ("http://a.example/*", "http://a.example:8080/x"),
        ("https://a.example/*", "https://a.example:444/"),
        ("ftp://a.example/*", "ftp://a.example/x"),
        ("*://a.example/", "http://a.example/"),
        ("*://a.example/", "https://a.example/"),
        ("*://*/*", "http://[::1]/"),
        ("http://*/", "http://127.0.0.1/"),
        ("http://127.0.0.1/", "http://127.1/"),
        ("http://A.EXAMPLE/", "http://a.example/"),
        ("http://*.A.example/", "http://x.a.example/"),
        ("*://*.example/*", "http://example/"),
        ("http://xn--bcher-kva.example/", "http://bücher.example/"),
        ("http://a.example/", "http://a.example"),
        ("http://a.example/", "http://u:p@a.example/"),
        ("http://a.example/x?y", "http://a.example/x?y#z"),
        ("http://a.example/x*", "http://a.example/x?y"),
        ("http://a.example/*y", "http://a.example/x?y"),
        ("http://a.example//x", "http://a.example//x"),
        ("http://a.example/:8080", "http://a.example/:8080"),
        ("file:///a/*", "file:///a/x"),
        ("file://*/a/*", "file:///a/x"),
        ("file://h.example/a", "file://h.example/a"),
    ] {
        assert!(rt;
            answer(&rt, alloc, RuleKind::Pattern, value, address)?,
            "{value} on {address}"
        );
    }
    Ok(())
}

#[test]
fn match_patterns_that_do_not_fit(rt: HostRuntime) -> Result<(), Fail> {
    let alloc = rt.alloc();
    for (value, address) in [
        ("*://*.a.example/p/*", "https://xa.example/p/1"),
        ("*://*.a.example/p/*", "ftp://a.example/p/1"),
        ("*://*.a.example/p/*", "https://a.example/q/1"),
        ("*://a.example/", "file:///"),
        ("*://a.example/", "http://x.a.example/"),
        ("<all_urls>", "data:,x"),
        ("<all_urls>", "about:blank"),
        ("<all_urls>", "ws://a.example/"),
        ("http://a.example/*", "https://a.example/x"),
        ("ftp://a.example/*", "http://a.example/x"),
        ("http://a.example/", "http://a.example/x"),
        ("http://a.example/x", "http://a.example/x?y"),
        ("http://a.example/x?y", "http://a.example/xy"),
        ("http://a.example./", "http://a.example/"),
        ("file:///a", "file://h.example/a"),
        ("file:///a/*", "http://a.example/a/x"),
    ] {
        assert!(rt;
            !answer(&rt, alloc, RuleKind::Pattern, value, address)?,
            "{value} on {address}"
        );
    }
    Ok(())
}

#[test]
fn values_that_are_no_match_pattern(rt: HostRuntime) -> Result<(), Fail> {
    let alloc = rt.alloc();
    for value in [
        "",
        "*",
        "x",
        "/a/",
        "http",
        "http:",
        "http:/a/",
        "http://",
        "://a/",
        "**://a/",
        "data:,x",
        "file://",
        "file:/x",
        "http://a:1/",
        "http://a.example:8080/*",
        "http:///x",
        "https:///x",
        "ftp:///x",
        "*:///x",
        "http://a.example",
        "HTTP://a.example/",
        "ws://a.example/",
        "httpx://a.example/",
        "http://a b/",
        "http://a_b/",
        "http://u@a.example/",
        "http://*a.example/",
        "http://a.*/",
        "http://*./",
        "http://*.*/",
        "http://**/",
        "http://[::1]/",
        "http://bücher.example/",
        "<all_urls",
        "<all_urls> ",
        "<ALL_URLS>",
        " http://a.example/",
    ] {
        let refused = read(&rt, alloc, RuleKind::Pattern, value, Vec::new(alloc)).err();
        assert_eq!(rt; refused, Some(RuleFault::BadPattern), "{value}");
    }
    Ok(())
}

/// `/`, as many `(`, `a`, as many `)`, `/`.
fn nested(alloc: Global, depth: usize) -> Result<String, Fail> {
    let mut value = String::new(alloc);
    value.push_str("/")?;
    for _ in 0..depth {
        value.push_str("(")?;
    }
    value.push_str("a")?;
    for _ in 0..depth {
        value.push_str(")")?;
    }
    value.push_str("/")?;
    Ok(value)
}

#[test]
fn regular_expressions_that_are_refused(rt: HostRuntime) -> Result<(), Fail> {
    let alloc = rt.alloc();
    for (value, fault) in [
        ("/(/", RuleFault::PatternSyntax),
        ("/[/", RuleFault::PatternSyntax),
        ("/*/", RuleFault::PatternSyntax),
        ("/a{2,1}/", RuleFault::PatternSyntax),
        ("/\\/", RuleFault::PatternSyntax),
        ("/(?<=a)b/", RuleFault::PatternSyntax),
        ("/(a)\\1/", RuleFault::PatternSyntax),
        ("/(a{1000}){1000}/", RuleFault::PatternTooBig),
    ] {
        let refused = read(&rt, alloc, RuleKind::Glob, value, Vec::new(alloc)).err();
        assert_eq!(rt; refused, Some(fault), "{value}");
    }
    let deep = nested(alloc, 300)?;
    let refused = read(&rt, alloc, RuleKind::Glob, deep.as_str(), Vec::new(alloc)).err();
    assert_eq!(rt; refused, Some(RuleFault::PatternSyntax));
    let flat = nested(alloc, 100)?;
    assert!(rt; read(&rt, alloc, RuleKind::Glob, flat.as_str(), Vec::new(alloc)).is_ok());
    Ok(())
}

#[test]
fn listed_calls_are_too_big(rt: HostRuntime) -> Result<(), Fail> {
    let alloc = rt.alloc();
    let mut patterns = RegexPatterns::new(vec![in alloc; 2, 3]?);
    for (source, fault) in [
        ("a", None),
        ("a", Some(BuildFault::TooBig)),
        ("(", Some(BuildFault::TooBig)),
        ("(", Some(BuildFault::Syntax)),
        ("a", None),
    ] {
        assert_eq!(rt; patterns.build(alloc, source).err(), fault, "{source}");
    }
    let refused = read(&rt, alloc, RuleKind::Glob, "/a/", vec![in alloc; 1]?).err();
    assert_eq!(rt; refused, Some(RuleFault::PatternTooBig));
    assert!(rt; read(&rt, alloc, RuleKind::Glob, "a", vec![in alloc; 1]?).is_ok());
    assert!(rt;
        read(
            &rt,
            alloc,
            RuleKind::Pattern,
            "http://a/",
            vec![in alloc; 1]?
        )
        .is_ok()
    );
    Ok(())
}

#[test]
fn addresses(rt: HostRuntime) -> Result<(), Fail> {
    let alloc = rt.alloc();
    for (text, fault) in [
        ("", ParseError::RelativeUrlWithoutBase),
        ("x", ParseError::RelativeUrlWithoutBase),
        ("http://", ParseError::EmptyHost),
        ("http://[1/", ParseError::InvalidIpv6Address),
        ("http://a:99999/", ParseError::InvalidPort),
        ("//a.example/", ParseError::RelativeUrlWithoutBase),
    ] {
        assert_eq!(rt;
            read_address(alloc, text).err(),
            Some(AddressFault::Parse(fault)),
            "{text}"
        );
    }
    let mut long = String::new(alloc);
    long.push_str("data:,")?;
    for _ in 6..ADDRESS_LIMIT {
        long.push_str("x")?;
    }
    let address = read_address(alloc, long.as_str())?;
    assert_eq!(rt; address.as_str().len(), ADDRESS_LIMIT);
    rules_are_read_one_way();
    same_rules_fit_alike(&address);
    long.push_str("x")?;
    assert_eq!(rt;
        read_address(alloc, long.as_str()).err(),
        Some(AddressFault::TooLong(8193))
    );
    Ok(())
}
