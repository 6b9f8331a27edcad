//! The form of page that is read until pages are read by the whole page grammar.

ghost use Rattle.small_forms.specs.Pages.{ArePageScripts, IsPage, IsTitle, blocks_text, element_text, texts_of_scripts};
ghost use Rattle.small_forms.specs.Readers.{are_ascii};
ghost use Rattle.small_forms.specs.Scripts.{IsPageScript};
ghost use Rattle.small_forms.specs.declared.limits.TheConstants.{PAGE_SCRIPT_LIMIT, SMALL_PAGE_LIMIT};
ghost use Rattle.small_forms.specs.declared.page.Page.{Page as OnePage};
ghost use Rattle.small_forms.specs.declared.page.PageScript.{PageScript as OneScript};
ghost use Rattle.small_forms.specs.declared.script.Line.{Line};
ghost use Rattle.std.specs.Prelude.{◌≡◌, ◌≢◌, ◌≤◌, ◌++◌, List, ℕ, codes, false, length, IfNone, IfOk, IfSome, IsTrue, true};
ghost use Rattle.std.specs.List.{flat_map, list_all};
ghost use Rattle.std.specs.Char.{is_ascii};

use crate::ascii::text_of;
use crate::bytes::{Class, after, are_runs, front};
use crate::limits::{PAGE_SCRIPT_LIMIT, SMALL_PAGE_LIMIT};
use crate::lines::page_lines_in;
use crate::script::Lines;
use base_text::{Mem, Text};
use std::alloc::Global;

/// A script element of a page.
#[derive(Debug, Drop)]
pub struct PageScript {
    /// The text in it.
    pub text: Text,
    /// The lines that the text is read as.
    pub lines: Lines,
}

/// Script elements in order.
pub type PageScripts = door::List<PageScript>;

/// A page of the form that is read.
#[derive(Debug, Drop)]
pub struct Page {
    /// The text of its title element.
    pub title: Text,
    /// Whether its body begins with the paragraph `p` and the division `d`.
    pub blocks: bool,
    /// Its script elements.
    pub scripts: PageScripts,
}

/// The page of a file's bytes. `None` exactly where they aren't of the form that is read yet.
pub fn page_in(alloc: Global, bytes: &[u8]) -> Mem<Option<Page>>
    ensures some { IfOk result (λ found. IfSome found (λ page. IsPage bytes.now page)) }
    ensures none { IfOk result (λ found. IfNone found ((page : OnePage) → IsPage bytes.now page → ⊥)) }
    ensures ascii { IfOk result (λ found. IfSome found (λ page. IsTrue (list_all is_ascii page.title) × IsTrue (are_ascii (texts_of_scripts page.scripts)))) }
{
    if bytes.len() > SMALL_PAGE_LIMIT {
        return Ok(None);
    }
    let Some((title, body)) = title_in(bytes) else {
        return Ok(None);
    };
    let (blocks, rest) = blocks_in(body);
    let Some(scripts) = scripts_in(alloc, rest)? else {
        return Ok(None);
    };
    let title = text_of(alloc, title)?;
    Ok(Some(Page {
        title,
        blocks,
        scripts,
    }))
}

/// The title, and what follows the start of the body.
fn title_in(bytes: &[u8]) -> Option<(&[u8], &[u8])>
    ensures some { IfSome result (λ p. IsTitle p.0.now × (bytes.now ≡ codes "<html><head><title>" ++ (p.0.now ++ (codes "</title></head><body>" ++ p.1.now)))) }
    ensures none { IfNone result ((title rest : List ℕ) → IsTitle title → bytes.now ≢ codes "<html><head><title>" ++ (title ++ (codes "</title></head><body>" ++ rest))) }
{
    let Some(head) = after(bytes, b"<html><head><title>") else {
        return None;
    };
    let (title, end) = front(head, Class::AlphanumericOrBlank);
    let Some(body) = after(end, b"</title></head><body>") else {
        return None;
    };
    if are_runs(title, Class::Alphanumeric, Class::Blank) {
        Some((title, body))
    } else {
        None
    }
}

/// Whether the paragraph and the division stand at the front, and what follows.
fn blocks_in(body: &[u8]) -> (bool, &[u8])
    ensures whole { body.now ≡ blocks_text result.0 ++ result.1.now }
    ensures only { result.0 ≡ false → (rest : List ℕ) → body.now ≢ blocks_text true ++ rest }
{
    match after(body, b"<p id=\"p\"></p><div id=\"d\"></div>") {
        Some(rest) => (true, rest),
        None => (false, body),
    }
}

/// The script elements with which a page ends.
fn scripts_in(alloc: Global, bytes: &[u8]) -> Mem<Option<PageScripts>>
    requires { length bytes.now ≤ SMALL_PAGE_LIMIT }
    ensures some { IfOk result (λ found. IfSome found (λ scripts. (bytes.now ≡ flat_map element_text scripts ++ codes "</body></html>") × ArePageScripts scripts × (length scripts ≤ PAGE_SCRIPT_LIMIT))) }
    ensures none { IfOk result (λ found. IfNone found ((scripts : List OneScript) → ArePageScripts scripts → length scripts ≤ PAGE_SCRIPT_LIMIT → bytes.now ≢ flat_map element_text scripts ++ codes "</body></html>")) }
{
    let mut scripts = PageScripts::new(alloc);
    let mut rest = bytes;
    while let Some(inside) = after(rest, b"<script>") {
        if scripts.len() == PAGE_SCRIPT_LIMIT {
            return Ok(None);
        }
        let Some((script, left)) = script_in(alloc, inside)? else {
            return Ok(None);
        };
        scripts.push(script)?;
        rest = left;
    }
    if rest == b"</body></html>".as_slice() {
        Ok(Some(scripts))
    } else {
        Ok(None)
    }
}

/// The script element of what is inside it, and what follows the element.
fn script_in(alloc: Global, inside: &[u8]) -> Mem<Option<(PageScript, &[u8])>>
    requires { length inside.now ≤ SMALL_PAGE_LIMIT }
    ensures some { IfOk result (λ found. IfSome found (λ p. (inside.now ≡ p.0.text ++ (codes "</script>" ++ p.1.now)) × IsPageScript p.0.text p.0.lines)) }
    ensures none { IfOk result (λ found. IfNone found ((text rest : List ℕ) (lines : List Line) → IsPageScript text lines → inside.now ≢ text ++ (codes "</script>" ++ rest))) }
{
    let (script, end) = front(inside, Class::RawText);
    let Some(left) = after(end, b"</script>") else {
        return Ok(None);
    };
    let Some(lines) = page_lines_in(alloc, script)? else {
        return Ok(None);
    };
    let text = text_of(alloc, script)?;
    Ok(Some((PageScript { text, lines }, left)))
}

/// A law: the text of a script element determines its lines.
pub fn page_scripts_are_read_one_way()
    ensures { (text : List ℕ) (lines more : List Line) → IsPageScript text lines → IsPageScript text more → lines ≡ more }
{}

/// A law: the bytes of a page determine the page.
pub fn pages_are_read_one_way()
    ensures { (bytes : List ℕ) (page other : OnePage) → IsPage bytes page → IsPage bytes other → page ≡ other }
{}

/// A law: the text of a script element is ASCII, and each of its lines has a character at least.
pub fn page_scripts_are_ascii()
    ensures text { (text : List ℕ) (lines : List Line) → IsPageScript text lines → IsTrue (list_all is_ascii text) }
    ensures lines { (text : List ℕ) (lines : List Line) → IsPageScript text lines → length lines ≤ length text }
{}

/// A law: a page, its title and the texts of its script elements are ASCII.
pub fn pages_are_ascii()
    ensures bytes { (bytes : List ℕ) (page : OnePage) → IsPage bytes page → IsTrue (list_all is_ascii bytes) }
    ensures title { (bytes : List ℕ) (page : OnePage) → IsPage bytes page → IsTrue (list_all is_ascii page.title) }
    ensures scripts { (bytes : List ℕ) (page : OnePage) → IsPage bytes page → IsTrue (are_ascii (texts_of_scripts page.scripts)) }
{}
