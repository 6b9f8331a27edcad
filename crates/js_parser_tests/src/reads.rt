//! Texts that are scripts, and what they are read as.
use crate::told::told;
use base_text::SOURCE_LIMIT;
use std::test::Fail;

#[test]
fn statements(rt: HostRuntime) -> Result<(), Fail> {
    for (text, want) in [
        ("", ""),
        (";", ";"),
        ("a", "a;"),
        ("a;b", "a; b;"),
        ("{}", "{ }"),
        ("{a}", "{ a; }"),
        ("{a\nb;}", "{ a; b; }"),
        ("{{};}", "{ { } ; }"),
        ("var a", "var a;"),
        ("var a = 1, b, c = 2;", "var a = 1, b, c = 2;"),
        ("var get, set", "var get, set;"),
        ("function f() {}", "function f() { }"),
        (
            "function f(a, b) { return a }",
            "function f(a, b) { return a; }",
        ),
        ("function f(){} f()", "function f() { } f();"),
        ("function get(set) {}", "function get(set) { }"),
        ("if (a) b; else c", "if (a) b; else c;"),
        ("if (a) if (b) c; else d", "if (a) if (b) c; else d;"),
        (
            "if (a) if (b) c; else d; else e",
            "if (a) if (b) c; else d; else e;",
        ),
        (
            "if (a) while (b) if (c) d; else e",
            "if (a) while (b) if (c) d; else e;",
        ),
        ("if (a) {} else {}", "if (a) { } else { }"),
        ("if (a);", "if (a) ;"),
        ("while (a) b", "while (a) b;"),
        (
            "while (a) { break; continue }",
            "while (a) { break; continue; }",
        ),
        ("while (a) var b", "while (a) var b;"),
        ("for (;;) ;", "for (; ; ) ;"),
        ("for (a; b; c) d", "for (a; b; c) d;"),
        ("for (a\n;\n;\n) b", "for (a; ; ) b;"),
        ("for (a = 1; a < 2; a++) b", "for ((a = 1); a < 2; a++) b;"),
        ("for (var a = 1, b; ; ) c", "for (var a = 1, b; ; ) c;"),
        ("for (var a in b) c", "for (var a in b) c;"),
        ("for (a in b) c", "for (a in b) c;"),
        ("for (a.b in c) d", "for (a.b in c) d;"),
        ("for (a[b] in c) d", "for (a[b] in c) d;"),
        ("for (a().b in c) d", "for (a().b in c) d;"),
        ("for ((a) in b) c", "for (a in b) c;"),
        ("for ((a in b); ; ) c", "for ((a in b); ; ) c;"),
        (
            "for (var a = (b in c); ; ) d",
            "for (var a = (b in c); ; ) d;",
        ),
        ("for (a[b in c]; ; ) d", "for (a[b in c]; ; ) d;"),
        ("for (a; b in c; d in e) f", "for (a; b in c; d in e) f;"),
        ("for (a in b in c) d", "for (a in b in c) d;"),
        (
            "while (a) for (b in c) continue",
            "while (a) for (b in c) continue;",
        ),
        ("function f() { return; }", "function f() { return; }"),
        ("function f() { return }", "function f() { return; }"),
        (
            "function f() { while (a) { return b } }",
            "function f() { while (a) { return b; } }",
        ),
        ("throw a", "throw a;"),
        ("try {} catch (a) {}", "try { } catch (a) { }"),
        ("try {} finally {}", "try { } finally { }"),
        (
            "try {} catch (a) {} finally {}",
            "try { } catch (a) { } finally { }",
        ),
        (
            "while (a) try { break } finally {}",
            "while (a) try { break; } finally { }",
        ),
    ] {
        assert!(rt; text.len() <= SOURCE_LIMIT);
        assert_eq!(rt; told(rt.alloc(), text)?.as_str(), want, "of {text}");
    }
    Ok(())
}

#[test]
fn semicolons(rt: HostRuntime) -> Result<(), Fail> {
    for (text, want) in [
        ("a\nb", "a; b;"),
        ("a\n;", "a;"),
        ("a\n;b", "a; b;"),
        ("a /*\n*/ b", "a; b;"),
        ("var a\nb", "var a; b;"),
        ("var a\n= 1", "var a = 1;"),
        ("var a\n, b", "var a, b;"),
        ("var a = 1\n, b", "var a = 1, b;"),
        ("var a\n(b)", "var a; b;"),
        ("var a\n;", "var a;"),
        ("var a\n+ b", "var a; +b;"),
        ("var a = b\n(c)", "var a = b(c);"),
        ("a = b\n(c)", "a = b(c);"),
        ("a\n[b]", "a[b];"),
        ("a\n.b", "a.b;"),
        ("a\n+b", "a + b;"),
        ("a\n-b", "a - b;"),
        ("a\n? b : c", "a ? b : c;"),
        ("a\n= b", "a = b;"),
        ("a\nin b", "a in b;"),
        ("a\n!b", "a; !b;"),
        ("a\n++b", "a; ++b;"),
        ("a\n++\nb", "a; ++b;"),
        ("a\n--b", "a; --b;"),
        ("a++\nb", "a++; b;"),
        ("a++\n(b)", "a++; b;"),
        ("a--\n[b]", "a--; [b];"),
        ("(a++)\n(b)", "(a++)(b);"),
        ("if (a) b\nelse c", "if (a) b; else c;"),
        ("function f() { return\n1 }", "function f() { return; 1; }"),
        ("function f() { return 1\n}", "function f() { return 1; }"),
        ("function f() { return\n; }", "function f() { return; ; }"),
        (
            "function f() { return 1\n+ 2 }",
            "function f() { return 1 + 2; }",
        ),
        ("while (a) { break\n; }", "while (a) { break; ; }"),
        ("while (a) { break\nb }", "while (a) { break; b; }"),
        ("while (a) { continue\nb }", "while (a) { continue; b; }"),
        ("while (a) { continue }", "while (a) { continue; }"),
        ("throw a\nb", "throw a; b;"),
        ("{ throw a }", "{ throw a; }"),
    ] {
        assert!(rt; text.len() <= SOURCE_LIMIT);
        assert_eq!(rt; told(rt.alloc(), text)?.as_str(), want, "of {text}");
    }
    Ok(())
}

#[test]
fn operators(rt: HostRuntime) -> Result<(), Fail> {
    for (text, want) in [
        ("a = b = c", "a = (b = c);"),
        ("a += b", "a += b;"),
        ("a -= b", "a -= b;"),
        ("a *= b", "a *= b;"),
        ("a /= b", "a /= b;"),
        ("a %= b", "a %= b;"),
        ("a.b = c", "a.b = c;"),
        ("(a) = 1", "a = 1;"),
        ("a ? b : c ? d : e", "a ? b : (c ? d : e);"),
        ("a ? b ? c : d : e", "a ? (b ? c : d) : e;"),
        ("a ? b = c : d = e", "a ? (b = c) : (d = e);"),
        ("a + b * c", "a + (b * c);"),
        ("a * b + c", "(a * b) + c;"),
        ("(a + b) * c", "(a + b) * c;"),
        ("a + b + c", "(a + b) + c;"),
        ("a - b - c", "(a - b) - c;"),
        ("a - (b - c)", "a - (b - c);"),
        ("a / b % c", "(a / b) % c;"),
        ("a || b && c", "a || (b && c);"),
        ("a && b || c", "(a && b) || c;"),
        ("a == b < c", "a == (b < c);"),
        ("a < b + c", "a < (b + c);"),
        ("a === b !== c", "(a === b) !== c;"),
        ("a == b && c != d", "(a == b) && (c != d);"),
        ("a < b > c <= d >= e", "(((a < b) > c) <= d) >= e;"),
        ("a in b instanceof c", "(a in b) instanceof c;"),
        ("!a", "!a;"),
        ("-a * b", "(-a) * b;"),
        ("- -a", "-(-a);"),
        ("+a", "+a;"),
        ("typeof a == b", "(typeof a) == b;"),
        ("typeof typeof a", "typeof (typeof a);"),
        ("delete a.b", "delete a.b;"),
        ("!a.b", "!a.b;"),
        ("-a++", "-(a++);"),
        ("a++", "a++;"),
        ("(a)--", "a--;"),
        ("++a", "++a;"),
        ("--a.b[c]", "--a.b[c];"),
        ("++a().b", "++a().b;"),
        ("++new a().b", "++(new a()).b;"),
    ] {
        assert!(rt; text.len() <= SOURCE_LIMIT);
        assert_eq!(rt; told(rt.alloc(), text)?.as_str(), want, "of {text}");
    }
    Ok(())
}

#[test]
fn primaries(rt: HostRuntime) -> Result<(), Fail> {
    for (text, want) in [
        ("this", "this;"),
        ("true", "true;"),
        ("false", "false;"),
        ("null", "null;"),
        ("9007199254740991", "9007199254740991;"),
        ("\"a\"", "'a';"),
        ("get = set", "get = set;"),
        ("((a))", "a;"),
        ("a.b.c", "a.b.c;"),
        ("a.if.get", "a.if.get;"),
        ("a[b][c]", "a[b][c];"),
        ("a(b, c)(d)", "a(b, c)(d);"),
        ("a()", "a();"),
        ("'a'.b", "'a'.b;"),
        ("new a", "new a();"),
        ("new a.b", "new a.b();"),
        ("new a().b", "(new a()).b;"),
        ("new a(b)(c)", "(new a(b))(c);"),
        ("new new a()()", "new (new a())();"),
        ("new new a", "new (new a())();"),
        ("new (a())", "new (a())();"),
        ("new a[b](c)", "new a[b](c);"),
        ("new a\n(b)", "new a(b);"),
        ("[]", "[];"),
        ("[a, b]", "[a, b];"),
        ("[a,]", "[a];"),
        ("a = {}", "a = {};"),
        ("({})", "{};"),
        (
            "a = {b: 1, 'c': 2, 3: d, if: e, get: f, set: g}",
            "a = {b: 1, c: 2, 3: d, if: e, get: f, set: g};",
        ),
        (
            "a = {get b() { return 1 }, set b(c) {}}",
            "a = {get b() { return 1; }, set b(c) { }};",
        ),
        (
            "a = {get get() {}, set set(set) {}}",
            "a = {get get() { }, set set(set) { }};",
        ),
        (
            "a = {get 'x'() {}, set 1(b) {}}",
            "a = {get x() { }, set 1(b) { }};",
        ),
        ("a = {b: 1,}", "a = {b: 1};"),
        ("a = {b: c = d}", "a = {b: c = d};"),
        ("a = function () {}", "a = function () { };"),
        ("a = function b(c, d) {}", "a = function b(c, d) { };"),
        ("(function () {})()", "(function () { })();"),
    ] {
        assert!(rt; text.len() <= SOURCE_LIMIT);
        assert_eq!(rt; told(rt.alloc(), text)?.as_str(), want, "of {text}");
    }
    Ok(())
}
