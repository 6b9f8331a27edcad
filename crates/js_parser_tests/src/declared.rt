//! What the bodies of scripts and functions declare, each function's name with `()`.
ghost use Rattle.std.specs.Prelude.{◌≤◌, length};
ghost use Rattle.base_text.specs.declared.text.TheConstants.{SOURCE_LIMIT};

use crate::told::read;
use base_text::{Mem, SOURCE_LIMIT, Text};
use js_code::Code;
use std::alloc::Global;
use std::string::String;
use std::test::Fail;

fn word(out: &mut String, name: &Text) -> Mem<()> {
    if !out.is_empty() {
        out.push(' ')?;
    }
    Ok(out.push_str(name.as_str())?)
}

fn listed(alloc: Global, code: &Code) -> Mem<String> {
    let mut out = String::new(alloc);
    for name in code.names() {
        word(&mut out, name)?;
    }
    for function in code.functions() {
        if let Some(name) = &function.get().name {
            word(&mut out, name)?;
            out.push_str("()")?;
        }
    }
    Ok(out)
}

/// What the script that is spelled declares.
fn script(alloc: Global, text: &str) -> Result<Option<Code>, Fail>
    requires { length text.now ≤ SOURCE_LIMIT }
{
    match read(alloc, text)? {
        Some(Ok(script)) => Ok(Some(Code::of_script(alloc, script)?)),
        _ => Ok(None),
    }
}

#[test]
fn scripts(rt: HostRuntime) -> Result<(), Fail> {
    for (text, want) in [
        ("", ""),
        ("a; b = c;", ""),
        ("var a, b = 1; var c;", "a b c"),
        ("{ var a; { { var b; } var c; } }", "a b c"),
        ("if (a) var b;", "b"),
        ("if (a) var b; else { var c; }", "b c"),
        ("while (a) { var b; }", "b"),
        ("for (var a = 1, b; c; ) { var d; }", "a b d"),
        ("for (; ; ) var a;", "a"),
        ("for (a = 1; ; ) var b;", "b"),
        ("for (var a in b) { var c; }", "a c"),
        ("for (a.b in c) var d;", "d"),
        ("try { var a; } catch (b) { var c; }", "a c"),
        ("try { var a; } finally { var b; }", "a b"),
        (
            "try { var a; } catch (b) { var c; } finally { var d; } var e;",
            "a c d e",
        ),
        (
            "try { function f() { } } catch (a) { { function g() { } } }",
            "f() g()",
        ),
        ("function f(a) { var b; function g() { } }", "f()"),
        ("var a = function f() { var b; };", "a"),
        ("a = {get b() { var c; }, d: function () { var e; }};", ""),
        ("function f() { } var a; function g() { }", "a f() g()"),
        (
            "var a; { var a; } function f() { } var f; function f() { }",
            "a a f f() f()",
        ),
    ] {
        assert!(rt; text.len() <= SOURCE_LIMIT);
        match script(rt.alloc(), text)? {
            Some(code) => assert_eq!(rt; listed(rt.alloc(), &code)?.as_str(), want),
            None => assert!(rt; false),
        }
    }
    Ok(())
}

// The first function that a script declares.
#[test]
fn functions(rt: HostRuntime) -> Result<(), Fail> {
    for (text, name, want) in [
        ("function f(a) { }", "f", ""),
        (
            "function f(a) { var b; function g() { var c; } }",
            "f",
            "b g()",
        ),
        (
            "{ function f() { for (var a in b) { function g() { } } } }",
            "f",
            "a g()",
        ),
    ] {
        assert!(rt; text.len() <= SOURCE_LIMIT);
        let Some(whole) = script(rt.alloc(), text)? else {
            assert!(rt; false);
            return Ok(());
        };
        let Some(first) = whole.functions().first() else {
            assert!(rt; false);
            return Ok(());
        };
        let code = Code::new(rt.alloc(), first.share()?)?;
        assert!(rt; matches!(&code.function().name, Some(given) if given.as_str() == name));
        assert_eq!(rt; listed(rt.alloc(), &code)?.as_str(), want);
    }
    Ok(())
}
