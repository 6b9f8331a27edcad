//! Whole pages as people write them.

use crate::builds::read;
use std::alloc::{AllocError, Global};
use std::test::Fail;

/// These texts one after the other.
fn joined(alloc: Global, parts: &[&str]) -> Result<String, AllocError> {
    let mut whole = String::new(alloc);
    for part in parts {
        whole.push_str(part)?;
    }
    Ok(whole)
}

#[test]
fn a_page_with_two_scripts(rt: HostRuntime) -> Result<(), Fail> {
    let document =
        "<html><body><script src=\"a.js\"></script><script>document.title = \"x\";</script></body></html>";
    let page = joined(rt.alloc(), &["<!DOCTYPE html>", document])?;
    let want = joined(
        rt.alloc(),
        &["[a.js]", document, "{document.title = \"x\";}", document],
    )?;
    let got = read(&rt, rt.alloc(), page.as_bytes())?;
    assert_eq!(rt; got.as_str(), want.as_str());
    Ok(())
}

#[test]
fn a_page_with_a_list(rt: HostRuntime) -> Result<(), Fail> {
    let page =
        "<html><head><title>gen 2</title></head><body><ul><li id=\"i1\">1</li><li id=\"i2\">2</li></ul></body></html>";
    let got = read(&rt, rt.alloc(), page.as_bytes())?;
    assert_eq!(rt; got.as_str(), page);
    Ok(())
}

/// What stands before the script of a page of a shop.
const SHOP: &str = "<html>
<head><title>Shop</title></head>
<body>
<div class=\"ad\">A</div>
<div class=\"item ad\">B</div>
<p id=\"n\">0</p>
<button id=\"b\">+</button>
";

/// The text of its script.
const SHOP_SCRIPT: &str = "
var n = 0;
document.getElementById(\"b\").addEventListener(\"click\", function (e) {
  n += 1;
  document.getElementById(\"n\").textContent = \"\" + n;
});
";

#[test]
fn a_page_over_many_lines(rt: HostRuntime) -> Result<(), Fail> {
    let front = joined(rt.alloc(), &[SHOP, "<script>", SHOP_SCRIPT, "</script>"])?;
    let front = front.as_str();
    let back = "\n</body>\n</html>";
    let page = joined(rt.alloc(), &["<!DOCTYPE html>\n", front, back, "\n"])?;
    let want = joined(
        rt.alloc(),
        &[front, "</body></html>{", SHOP_SCRIPT, "}", front, back],
    )?;
    let got = read(&rt, rt.alloc(), page.as_bytes())?;
    assert_eq!(rt; got.as_str(), want.as_str());
    Ok(())
}
