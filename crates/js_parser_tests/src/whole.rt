//! Whole scripts, each printed as it was written.
use crate::told::told;
use base_text::SOURCE_LIMIT;
use std::test::Fail;

#[test]
fn scripts(rt: HostRuntime) -> Result<(), Fail> {
    for text in [
        "var title = document.title; GM_log(title); GM_log(42); GM_log('done');",
        "function F() { this.k = 1; } F.prototype.m = function () { return this.k + 1; }; console.log((new F()).m());",
        "try { throw 1; } finally { console.log('f'); }",
        "while (true) { }",
        "null.x;",
        "for (var i = 0; i < 10; i++) { if ((i % 2) === 0) continue; sum += i; }",
        "for (var key in object) if (object.hasOwnProperty(key)) keys.push(key);",
        "function fact(n) { if (n <= 1) return 1; return n * fact(n - 1); }",
        "var all = [], last = {a: 1, b: [2, 3], c: function (x) { return x; }};",
        "var point = {x: 0, get double() { return this.x * 2; }, set double(v) { this.x = (v / 2); }};",
        "try { f(); } catch (e) { if (e instanceof TypeError) log(e.message); else throw e; } finally { done = true; }",
        "(function () { var hidden = 0; window.count = function () { return ++hidden; }; })();",
        "if (a) { b(); } else if (c) { d(); } else { e(); }",
        "while (node) { if (node.id === wanted) break; node = node.next; }",
        "var kind = (typeof x), gone = (delete o.p), flag = (!((a && b) || c));",
        "a = (b ? c : (d ? e : f)); g = h(i)(j);",
        "document.addEventListener('DOMContentLoaded', function (event) { event.target.title += '!'; }, false);",
        "for (; ; ) { try { next(); } catch (stop) { break; } }",
        "outer(inner(1, 2)[3].four, (new Thing(5)).six, -7, (8 - 9) - (-10));",
        "function g() { return; } function h() { ; { } } g(); h()[0](1)('two').three--;",
        "switched = (('k' in o) && (!('l' in o))); n = ((n % 3) * (n - 1)); --o.k[n];",
    ] {
        assert!(rt; text.len() <= SOURCE_LIMIT);
        assert_eq!(rt; told(rt.alloc(), text)?.as_str(), text);
    }
    Ok(())
}
