//! The document's title, read from its tree.

ghost use Rattle.std.specs.Prelude.{◌≡◌, ◌<◌, ◌≤◌, ◌^◌, MatchOption, ◌∷◌, ◌++◌, List, ℕ, OnOk, IfOk, IfSome, IsErrOf, codes, length, encode_utf8_all};
ghost use Rattle.std.specs.String.{string_bytes};
ghost use Rattle.base_text.specs.Scalars.{utf8_len};
ghost use Rattle.base_text.specs.declared.text.TheConstants.{TEXT_LIMIT};
ghost use Rattle.dom_semantics.specs.Forest.{child_text, form_at, is_tagged, own_text};
ghost use Rattle.dom_semantics.specs.Titles.{title_element, title_of, title_refusal, titled};
ghost use Rattle.dom_semantics.specs.Whitespace.{collapsed, is_white_space};
ghost use Rattle.dom_semantics.specs.Changes.{text_refusal, with_text};
ghost use Rattle.small_eval.specs.Heads.{IsHeaded};
ghost use Rattle.small_eval.specs.Words.{Reads, begun_by, kept, spaced};

use base_text::{Mem, NoMemory, Text, TextFault};
use dom_tree::{NodeForm, NodeId, Tree, TreeFault};
use door::{Actor, ErrorKind};
use std::alloc::Global;

/// A text as it is stripped and collapsed, as far as it was read.
#[derive(Drop)]
struct Words {
    text: String,
    /// Whether a word stands before.
    begun: bool,
    /// Whether white space stands between.
    gap: bool,
}

fn is_white_space(c: char) -> bool
    ensures { result ≡ is_white_space c }
{
    matches!(c, '\t' | '\n' | '\u{c}' | '\r' | ' ')
}

/// Adds a scalar of a word, after a space where one stands between two words.
fn push_spaced(text: &mut String, between: bool, c: char) -> Mem<()>
    ensures { OnOk result (string_bytes text.new ≡ string_bytes text.old ++ encode_utf8_all (spaced between c)) }
{
    if !between {
        text.push(c)?;
        return Ok(());
    }
    text.push(' ')?;
    text.push(c)?;
    Ok(())
}

/// Reads one scalar more.
fn push(words: &mut Words, c: char) -> Mem<()>
    ensures text { OnOk result (string_bytes words.new.text ≡ string_bytes words.old.text ++ encode_utf8_all (kept words.old.begun words.old.gap c)) }
    ensures begun { OnOk result (words.new.begun ≡ begun_by words.old.begun c) }
    ensures gap { OnOk result (words.new.gap ≡ is_white_space c) }
{
    if is_white_space(c) {
        words.gap = true;
        return Ok(());
    }
    let between = words.begun && words.gap;
    words.begun = true;
    words.gap = false;
    push_spaced(&mut words.text, between, c)
}

/// Reads a text more.
fn push_all(words: &mut Words, text: &Text) -> Mem<()>
    ensures { OnOk result ((done : List ℕ) × (string_bytes words.new.text ≡ string_bytes words.old.text ++ encode_utf8_all done)
        × Reads words.old.begun words.old.gap text.now words.new.begun words.new.gap done) }
{
    for c in text.as_str().chars() {
        push(words, c)?;
    }
    Ok(())
}

fn is_title(tree: &Tree, node: NodeId) -> bool
    requires { node.0 < length tree.now }
    ensures { result ≡ is_tagged (codes "title") (form_at tree.now node.0) }
{
    match tree.form(node) {
        Some(NodeForm::Element(tag)) => tag.as_str() == "title",
        _ => false,
    }
}

/// The title element: the first in tree order.
pub fn title_element(tree: &Tree) -> Option<u32>
    ensures found { result ≡ title_element tree.now }
    ensures known { IfSome result (λ n. n < length tree.now) }
{
    let _some = tree.count();
    match tree.find(NodeId(0), |n| is_title(tree, n)) {
        Some(title) => Some(title.0),
        None => None,
    }
}

/// The document's title, stripped and collapsed, or the empty text where there is no title element.
///
/// `TooLong` only where it has over 262,144 bytes.
pub fn title_of(alloc: Global, tree: &Tree) -> Result<Text, TextFault>
    ensures ok { IfOk result (λ text. text ≡ title_of tree.now) }
    ensures short { IfOk result (λ text. utf8_len text ≤ TEXT_LIMIT) }
    ensures too_long { IsErrOf result TextFault.TooLong → TEXT_LIMIT < utf8_len (title_of tree.now) }
{
    match title_element(tree) {
        Some(node) => told(alloc, tree, node),
        None => Text::of(alloc, ""),
    }
}

/// The texts directly in a node, stripped and collapsed as one text.
fn told(alloc: Global, tree: &Tree, node: u32) -> Result<Text, TextFault>
    requires { node < length tree.now }
    ensures ok { IfOk result (λ text. text ≡ collapsed (child_text tree.now node)) }
    ensures short { IfOk result (λ text. utf8_len text ≤ TEXT_LIMIT) }
    ensures too_long { IsErrOf result TextFault.TooLong → TEXT_LIMIT < utf8_len (collapsed (child_text tree.now node)) }
{
    match words_in(alloc, tree, node) {
        Ok(words) => Text::of(alloc, words.text.as_str()),
        Err(NoMemory) => Err(TextFault::NoMemory),
    }
}

fn words_in(alloc: Global, tree: &Tree, node: u32) -> Mem<Words>
    requires { node < length tree.now }
    ensures { IfOk result (λ words. string_bytes words.text ≡ encode_utf8_all (collapsed (child_text tree.now node))) }
{
    let mut words = Words {
        text: String::new(alloc),
        begun: false,
        gap: false,
    };
    for child in tree.children(NodeId(node)) {
        push_own(&mut words, tree, *child)?;
    }
    Ok(words)
}

/// Reads the text that a node itself is.
fn push_own(words: &mut Words, tree: &Tree, node: u32) -> Mem<()>
    requires { node < length tree.now }
    ensures { OnOk result ((done : List ℕ) × (string_bytes words.new.text ≡ string_bytes words.old.text ++ encode_utf8_all done)
        × Reads words.old.begun words.old.gap (own_text (form_at tree.now node)) words.new.begun words.new.gap done) }
{
    match tree.form(NodeId(node)) {
        Some(NodeForm::Str(text)) => push_all(words, text),
        _ => Ok(()),
    }
}

/// Writes the title, and answers why it wasn't written, if so (HTML, document.title).
pub fn set_title(tree: &mut Tree, maker: Actor, text: &Text) -> Mem<Option<ErrorKind>>
    requires headed { IsHeaded tree.old }
    requires room { length tree.old < 2 ^ 31 }
    ensures refusal { IfOk result (λ refusal. refusal ≡ title_refusal tree.old maker text.now) }
    ensures tree { IfOk result (λ refusal. MatchOption refusal (tree.new ≡ titled tree.old maker text.now) (λ _. tree.new ≡ tree.old)) }
{
    match title_element(tree) {
        Some(node) => replace_text(tree, maker, node, text),
        None => unreachable!(),
    }
}

/// Replaces the text of a node, and answers why it wasn't replaced, if so.
fn replace_text(tree: &mut Tree, maker: Actor, node: u32, text: &Text) -> Mem<Option<ErrorKind>>
    requires known { node < length tree.old }
    requires plain { 0 < node }
    requires room { length tree.old < 2 ^ 31 }
    ensures refusal { IfOk result (λ refusal. refusal ≡ text_refusal tree.old maker node text.now) }
    ensures tree { IfOk result (λ refusal. MatchOption refusal (tree.new ≡ with_text tree.old maker node text.now) (λ _. tree.new ≡ tree.old)) }
{
    match tree.set_text(maker, NodeId(node), text) {
        Ok(()) => Ok(None),
        Err(TreeFault::NodeLimit) => Ok(Some(ErrorKind::Limit)),
        Err(TreeFault::TooDeep) => Ok(Some(ErrorKind::TooDeep)),
        Err(TreeFault::NoMemory) => Err(NoMemory),
        Err(TreeFault::Hierarchy | TreeFault::NotFound | TreeFault::TooLong) => unreachable!(),
    }
}
