//! Texts at the limits and past them.
use crate::told::read;
use base_text::SOURCE_LIMIT;
use js_syntax::{ParseFault, ParseKind};
use std::alloc::Global;
use std::string::String;
use std::test::Fail;

/// So many of one text, another, and so many of a third.
fn nested(
    alloc: Global,
    before: &str,
    count: usize,
    middle: &str,
    after: &str,
) -> Result<String, Fail> {
    let mut text = String::new(alloc);
    for _ in 0..count {
        text.push_str(before)?;
    }
    text.push_str(middle)?;
    for _ in 0..count {
        text.push_str(after)?;
    }
    Ok(text)
}

/// The place of the first token that is too deep; none where the text is a script.
fn too_deep(alloc: Global, text: &str) -> Result<Option<u32>, Fail> {
    if text.len() > SOURCE_LIMIT {
        return Ok(Some(u32::MAX));
    }
    match read(alloc, text)? {
        Some(Ok(_)) => Ok(None),
        Some(
            Err(
                ParseFault {
                    at,
                    kind: ParseKind::TooDeep,
                },
            ),
        ) => Ok(Some(at)),
        _ => Ok(Some(u32::MAX)),
    }
}

/// At most so many nest; with one more the fault is at this place.
#[test]
fn levels(rt: HostRuntime) -> Result<(), Fail> {
    for (before, middle, after, most, at) in [
        ("(", "1", ")", 63u8, 63u32),
        ("[", "", "]", 64, 64),
        ("[", "a", "]", 63, 64),
        ("{", "", "}", 64, 64),
        ("{", "a", "}", 63, 64),
        ("if(a)", ";", "", 63, 315),
        ("if(a);else ", ";", "", 63, 693),
        ("while(a)", ";", "", 63, 504),
        ("for(;;)", ";", "", 63, 441),
        ("for(a in b)", ";", "", 63, 693),
        ("function f(){", "", "}", 63, 819),
        ("!", "a", "", 63, 63),
        ("typeof ", "a", "", 63, 441),
        ("delete ", "a", "", 63, 441),
        ("+ ", "a", "", 63, 126),
        ("a=", "a", "", 63, 127),
        ("a?a:", "a", "", 63, 253),
        ("a?", "a", ":a", 63, 127),
        ("a(", "", ")", 64, 128),
        ("a(", "a", ")", 63, 128),
        ("a[", "a", "]", 63, 127),
        ("new ", "a", "", 63, 252),
        ("try{", "", "}finally{}", 32, 128),
        ("!", "!function(){}", "", 61, 63),
        ("!", "++a", "", 62, 63),
        ("!", "{get a(){}}", "", 61, 67),
        ("!", "{set a(b){}}", "", 61, 67),
        ("!", "{get:a}", "", 62, 64),
    ] {
        let alloc = rt.alloc();
        let most = usize::from(most);
        let text = nested(alloc, before, most, middle, after)?;
        assert_eq!(rt; too_deep(alloc, &text)?, None, "{before} {middle}");
        let text = nested(alloc, before, most + 1, middle, after)?;
        assert_eq!(rt; too_deep(alloc, &text)?, Some(at), "{before} {middle}");
    }
    Ok(())
}

/// Behind a first part, at most so many more; with one more the fault is at this place.
#[test]
fn links(rt: HostRuntime) -> Result<(), Fail> {
    for (first, link, last, most, at) in [
        ("a", "+a", "", 64u8, 129u32),
        ("a", "*a", "", 64, 129),
        ("a", "<a", "", 64, 129),
        ("a", "==a", "", 64, 193),
        ("a", "&&a", "", 64, 193),
        ("a", "||a", "", 64, 193),
        ("a", "\n+a", "", 64, 194),
        ("a", "+a*a", "", 64, 257),
        ("a", ".b", "", 64, 129),
        ("a", "()", "", 64, 129),
        ("a", "[b]", "", 64, 193),
        ("new a", ".b", "", 64, 133),
        ("++a", ".b", "", 64, 131),
        ("++a", ".b", "()", 62, 129),
        ("++a", ".b", "().b", 62, 129),
        ("new a", ".b", "().b", 64, 133),
    ] {
        let alloc = rt.alloc();
        let most = usize::from(most);
        // A call is no target, so with one behind it the text is no script, and nothing in it too deep.
        let fits = if last == "()" { Some(u32::MAX) } else { None };
        let mut text = String::from_str(alloc, first)?;
        text.push_str(&nested(alloc, link, most, last, "")?)?;
        assert_eq!(rt; too_deep(alloc, &text)?, fits, "{first} {link}");
        let mut text = String::from_str(alloc, first)?;
        text.push_str(&nested(alloc, link, most + 1, last, "")?)?;
        assert_eq!(rt; too_deep(alloc, &text)?, Some(at), "{first} {link}");
    }
    Ok(())
}

/// Properties, and a `try` where one level is left for it.
#[test]
fn mixed(rt: HostRuntime) -> Result<(), Fail> {
    let alloc = rt.alloc();
    for (before, count, middle, after, want) in [
        ("{a:", 62usize, "{}", "}", None),
        ("{a:", 63, "{}", "}", Some(189u32)),
    ] {
        let mut text = String::from_str(alloc, "x=")?;
        text.push_str(&nested(alloc, before, count, middle, after)?)?;
        assert_eq!(rt; too_deep(alloc, &text)?, want, "{count} {middle}");
    }
    let mut text = String::from_str(alloc, "{")?;
    text.push_str(&nested(alloc, "try{", 32, "", "}finally{}")?)?;
    text.push('}')?;
    assert_eq!(rt; too_deep(alloc, &text)?, Some(125));
    let mut text = String::from_str(alloc, "(a")?;
    text.push_str(&nested(alloc, "+a", 64, ")", "+a")?)?;
    assert_eq!(rt; too_deep(alloc, &text)?, None);
    Ok(())
}

/// The first fault of a text; none where it is a script, has no tokens or is too long.
fn fault_of(alloc: Global, text: &str) -> Result<Option<ParseFault>, Fail> {
    if text.len() > SOURCE_LIMIT {
        return Ok(None);
    }
    match read(alloc, text)? {
        Some(Err(fault)) => Ok(Some(fault)),
        _ => Ok(None),
    }
}

/// A function of 30,000 parameters, and of another.
fn parameters(alloc: Global, last: &str) -> Result<String, Fail> {
    let mut text = String::from_str(alloc, "function f(")?;
    for number in 0..30_000u32 {
        text.push_str(&format!(in alloc; "a{number},")?)?;
    }
    text.push_str(last)?;
    text.push_str("){}")?;
    Ok(text)
}

/// Very many parameters are told apart, and a name that stands twice is the fault.
#[test]
fn many_parameters(rt: HostRuntime) -> Result<(), Fail> {
    let alloc = rt.alloc();
    let text = parameters(alloc, "b")?;
    assert_eq!(rt; too_deep(alloc, &text)?, None);
    let text = parameters(alloc, "a0")?;
    let twice = ParseFault {
        at: 198_901,
        kind: ParseKind::Unexpected,
    };
    assert_eq!(rt; fault_of(alloc, &text)?, Some(twice));
    Ok(())
}
