//! From a node back to its text.

ghost use Rattle.std.specs.Prelude.{◌≡◌, ◌<◌, ◌++◌, ℕ, codes, encode_utf8_all, length, IfOk, OnOk};
ghost use Rattle.std.specs.List.{flat_map};
ghost use Rattle.dom_semantics.specs.Forest.{Forest, IsForest, attributes_of, form_at};
ghost use Rattle.page_text.specs.Printed as spec;
ghost use Rattle.page_text.specs.Around.{back_of, front_of, has_inside};

use crate::writes::{is_named, is_void};
use base_text::{Mem, NoMemory, Text};
use dom_tree::{NodeForm, NodeId, TREE_LEVELS, Tree};
use std::alloc::Global;

/// The text of a node and all below it, in UTF-8 (HTML, Serializing HTML fragments).
///
/// The node has to be one of this tree. An element is `<tag`, ` name="value"` for each attribute in
/// order, `>`, its children and `</tag>`; a void one has neither children nor an end tag printed. A
/// text has `&amp;`, `&lt;` and `&gt;`, and stands raw where its parent is `script` or `style`, also
/// where it is printed by itself. A value has `&amp;` and `&quot;`. A comment is `<!--`, its text
/// and `-->`. The document is its children. The only error is want of memory.
pub fn print(alloc: Global, tree: &Tree, node: NodeId) -> Mem<Vec<u8>>
    requires { node.0 < length tree.now }
    ensures ok { IfOk result (λ out. out.items ≡ encode_utf8_all (spec.printed tree.now node.0)) }
{
    let mut out = Vec::new(alloc);
    push_node(&mut out, tree, node.0, TREE_LEVELS)?;
    Ok(out)
}

fn push(out: &mut Vec<u8>, bytes: &[u8]) -> Mem<()>
    ensures { OnOk result (out.new.items ≡ out.old.items ++ bytes.now) }
{
    out.extend_from_slice(bytes)?;
    Ok(())
}

/// Adds a node and all below it, for so many levels.
fn push_node(out: &mut Vec<u8>, tree: &Tree, node: u32, levels: u32) -> Mem<()>
    requires { node < length tree.now }
    ensures { OnOk result (out.new.items ≡ out.old.items ++ encode_utf8_all (spec.printed_levels levels tree.now node)) }
{
    if levels == 0 {
        return Ok(());
    }
    push_front(out, tree, node)?;
    if has_inside(tree, node) {
        for child in tree.children(NodeId(node)) {
            push_node(out, tree, *child, levels - 1)?;
        }
    }
    push_back(out, tree, node)?;
    Ok(())
}

/// Whether the children of a node are printed.
fn has_inside(tree: &Tree, node: u32) -> bool
    requires { node < length tree.now }
    ensures { result ≡ has_inside (form_at tree.now node) }
{
    match tree.form(NodeId(node)) {
        None => true,
        Some(NodeForm::Element(tag)) => !is_void(tag),
        Some(NodeForm::Str(_) | NodeForm::Comment(_)) => false,
    }
}

/// Whether the texts directly in a node stand raw.
fn has_raw_texts(tree: &Tree, node: NodeId) -> bool
    requires { node.0 < length tree.now }
    ensures { result ≡ spec.has_raw_texts (form_at tree.now node.0) }
{
    match tree.form(node) {
        Some(NodeForm::Element(tag)) => is_named("script", tag) || is_named("style", tag),
        _ => false,
    }
}

/// Whether the text that a node is stands raw.
fn stands_raw(tree: &Tree, node: u32) -> bool
    requires { node < length tree.now }
    ensures { result ≡ spec.stands_raw tree.now node }
{
    match tree.parent(NodeId(node)) {
        None => false,
        Some(parent) => has_raw_texts(tree, parent),
    }
}

/// What stands before the children of a node.
fn push_front(out: &mut Vec<u8>, tree: &Tree, node: u32) -> Mem<()>
    requires { node < length tree.now }
    ensures { OnOk result (out.new.items ≡ out.old.items ++ encode_utf8_all (front_of (spec.stands_raw tree.now node) (form_at tree.now node) (attributes_of tree.now node))) }
{
    match tree.form(NodeId(node)) {
        None => Ok(()),
        Some(NodeForm::Element(tag)) => push_start_tag(out, tree, node, tag),
        Some(NodeForm::Str(text)) => push_text(out, stands_raw(tree, node), text),
        Some(NodeForm::Comment(text)) => push_comment(out, text),
    }
}

/// What stands after the children of a node.
fn push_back(out: &mut Vec<u8>, tree: &Tree, node: u32) -> Mem<()>
    requires { node < length tree.now }
    ensures { OnOk result (out.new.items ≡ out.old.items ++ encode_utf8_all (back_of (form_at tree.now node))) }
{
    match tree.form(NodeId(node)) {
        Some(NodeForm::Element(tag)) if !is_void(tag) => push_end_tag(out, tag),
        _ => Ok(()),
    }
}

fn push_start_tag(out: &mut Vec<u8>, tree: &Tree, node: u32, tag: &Text) -> Mem<()>
    requires { node < length tree.now }
    ensures { OnOk result (out.new.items ≡ out.old.items ++ encode_utf8_all (spec.start_tag tag.now (attributes_of tree.now node))) }
{
    push(out, b"<")?;
    push(out, tag.as_str().as_bytes())?;
    push_attributes(out, tree, node)?;
    push(out, b">")
}

fn push_end_tag(out: &mut Vec<u8>, tag: &Text) -> Mem<()>
    ensures { OnOk result (out.new.items ≡ out.old.items ++ encode_utf8_all (spec.end_tag tag.now)) }
{
    push(out, b"</")?;
    push(out, tag.as_str().as_bytes())?;
    push(out, b">")
}

/// Adds the attributes of a node. No memory holds so many that their numbers end.
fn push_attributes(out: &mut Vec<u8>, tree: &Tree, node: u32) -> Mem<()>
    requires { node < length tree.now }
    ensures { OnOk result (out.new.items ≡ out.old.items ++ encode_utf8_all (flat_map spec.shown_attribute (attributes_of tree.now node))) }
{
    for i in 0..u32::MAX {
        match tree.attr_at(NodeId(node), i) {
            None => return Ok(()),
            Some((name, value)) => push_attribute(out, name, value)?,
        }
    }
    Err(NoMemory)
}

fn push_attribute(out: &mut Vec<u8>, name: &Text, value: &Text) -> Mem<()>
    ensures { OnOk result (out.new.items ≡ out.old.items ++ encode_utf8_all (spec.shown_attribute (name.now, value.now))) }
{
    push(out, b" ")?;
    push(out, name.as_str().as_bytes())?;
    push(out, b"=\"")?;
    push_value(out, value)?;
    push(out, b"\"")
}

/// Each byte below 128 is a scalar of its own, and no other byte has an entity.
fn push_value(out: &mut Vec<u8>, value: &Text) -> Mem<()>
    ensures { OnOk result (out.new.items ≡ out.old.items ++ encode_utf8_all (flat_map spec.value_scalar value.now)) }
{
    for byte in value.as_str().as_bytes() {
        push_value_byte(out, *byte)?;
    }
    Ok(())
}

fn push_value_byte(out: &mut Vec<u8>, byte: u8) -> Mem<()>
    ensures { OnOk result (out.new.items ≡ out.old.items ++ spec.value_scalar byte) }
{
    match byte {
        b'&' => push(out, b"&amp;"),
        b'"' => push(out, b"&quot;"),
        _ => push(out, &[byte]),
    }
}

fn push_text(out: &mut Vec<u8>, raw: bool, text: &Text) -> Mem<()>
    ensures { OnOk result (out.new.items ≡ out.old.items ++ encode_utf8_all (spec.shown_text raw text.now)) }
{
    if raw {
        return push(out, text.as_str().as_bytes());
    }
    push_escaped(out, text)
}

/// Each byte below 128 is a scalar of its own, and no other byte has an entity.
fn push_escaped(out: &mut Vec<u8>, text: &Text) -> Mem<()>
    ensures { OnOk result (out.new.items ≡ out.old.items ++ encode_utf8_all (flat_map spec.text_scalar text.now)) }
{
    for byte in text.as_str().as_bytes() {
        push_text_byte(out, *byte)?;
    }
    Ok(())
}

fn push_text_byte(out: &mut Vec<u8>, byte: u8) -> Mem<()>
    ensures { OnOk result (out.new.items ≡ out.old.items ++ spec.text_scalar byte) }
{
    match byte {
        b'&' => push(out, b"&amp;"),
        b'<' => push(out, b"&lt;"),
        b'>' => push(out, b"&gt;"),
        _ => push(out, &[byte]),
    }
}

fn push_comment(out: &mut Vec<u8>, text: &Text) -> Mem<()>
    ensures { OnOk result (out.new.items ≡ out.old.items ++ encode_utf8_all (spec.shown_comment text.now)) }
{
    push(out, b"<!--")?;
    push(out, text.as_str().as_bytes())?;
    push(out, b"-->")
}

/// The text of a node of a forest is its own around the whole texts of its children: none is cut.
pub fn a_node_is_printed_whole()
    ensures { (f : Forest) (n : ℕ) → IsForest f → spec.IsPrintedWhole f n }
{}
