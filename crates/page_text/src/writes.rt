//! The requests that build the nodes of a page.

ghost use Rattle.std.specs.Prelude.{◌≡◌, ◌++◌, ◌∷◌, [], None, Some, map, IfOk, OnOk, codes, MatchOption};
ghost use Rattle.page_text.specs.Nodes as nodes;

use crate::scan::Raw;
use crate::tags::Attribute;
use base_text::{Mem, Text};
use door::{DOCUMENT, Kind, List, Member, Request, Thing, Value, Values};
use std::alloc::Global;

/// Requests in order.
pub type Requests = List<Request>;

fn element(number: u32) -> Thing
    ensures { result ≡ nodes.thing_of Kind.Element number }
{
    Thing {
        kind: Kind::Element,
        number,
    }
}

fn one(alloc: Global, value: Value) -> Mem<Values>
    ensures { IfOk result (λ values. values ≡ value ∷ []) }
{
    let mut values = Values::new(alloc);
    values.push(value)?;
    Ok(values)
}

fn append(alloc: Global, writes: &mut Requests, parent: Thing, child: Thing) -> Mem<()>
    ensures { OnOk result (writes.new ≡ writes.old ++ nodes.appended parent child ∷ []) }
{
    let arguments = one(alloc, Value::Thing(child))?;
    writes.push(Request::Native(Member::NodeAppendChild, parent, arguments))
}

/// The requests for a text.
pub(crate) fn push_text(
    alloc: Global,
    writes: &mut Requests,
    number: u32,
    parent: Thing,
    content: Text,
) -> Mem<()>
    ensures { OnOk result (writes.new ≡ writes.old ++ nodes.text_writes number parent content) }
{
    let arguments = one(alloc, Value::Str(content))?;
    writes.push(Request::Native(Member::DocumentCreateTextNode, DOCUMENT, arguments))?;
    let child = Thing {
        kind: Kind::Str,
        number,
    };
    append(alloc, writes, parent, child)
}

/// The requests for a comment.
pub(crate) fn push_comment(
    alloc: Global,
    writes: &mut Requests,
    number: u32,
    parent: Thing,
    content: Text,
) -> Mem<()>
    ensures { OnOk result (writes.new ≡ writes.old ++ nodes.comment_writes number parent content) }
{
    let arguments = one(alloc, Value::Str(content))?;
    writes.push(Request::Native(Member::DocumentCreateComment, DOCUMENT, arguments))?;
    let child = Thing {
        kind: Kind::Comment,
        number,
    };
    append(alloc, writes, parent, child)
}

fn attribute(alloc: Global, number: u32, attribute: &Attribute) -> Mem<Request>
    ensures { IfOk result (λ r. r ≡ nodes.attribute_write number attribute.now) }
{
    let mut arguments = one(alloc, Value::Str(attribute.name.share()?))?;
    arguments.push(Value::Str(attribute.value.share()?))?;
    Ok(Request::Native(Member::ElementSetAttribute, element(number), arguments))
}

fn push_attributes(
    alloc: Global,
    writes: &mut Requests,
    number: u32,
    attributes: &[Attribute],
) -> Mem<()>
    ensures { OnOk result (writes.new ≡ writes.old ++ map (nodes.attribute_write number) attributes.now) }
{
    for one in attributes {
        writes.push(attribute(alloc, number, one)?)?;
    }
    Ok(())
}

/// The requests for an element.
pub(crate) fn push_element(
    alloc: Global,
    writes: &mut Requests,
    number: u32,
    parent: Thing,
    name: Text,
    attributes: &[Attribute],
) -> Mem<()>
    ensures { OnOk result (writes.new ≡ writes.old ++ nodes.element_writes number parent name attributes.now) }
{
    let arguments = one(alloc, Value::Str(name))?;
    writes.push(Request::Native(Member::DocumentCreateElement, DOCUMENT, arguments))?;
    push_attributes(alloc, writes, number, attributes)?;
    append(alloc, writes, parent, element(number))
}

pub(crate) fn is_named(word: &str, name: &Text) -> bool
    ensures { result ≡ nodes.is_named word.now name.now }
{
    name.as_str() == word
}

/// Whether an element of this name has no content (HTML, Void elements).
pub(crate) fn is_void(name: &Text) -> bool
    ensures { result ≡ nodes.is_void name.now }
{
    is_named("area", name)
        || is_named("base", name)
        || is_named("br", name)
        || is_named("col", name)
        || is_named("embed", name)
        || is_named("hr", name)
        || is_named("img", name)
        || is_named("input", name)
        || is_named("link", name)
        || is_named("meta", name)
        || is_named("source", name)
        || is_named("track", name)
        || is_named("wbr", name)
}

/// Whether the content of an element of this name is one text, and of what kind.
pub(crate) fn raw_of(name: &Text) -> Option<Raw>
    ensures { result ≡ nodes.raw_of name.now }
{
    if is_named("script", name) {
        Some(Raw::Script)
    } else if is_named("style", name) {
        Some(Raw::Style)
    } else if is_named("title", name) {
        Some(Raw::Title)
    } else if is_named("textarea", name) {
        Some(Raw::Textarea)
    } else {
        None
    }
}

/// The value of the attribute of this name.
pub(crate) fn value_of<'b>(word: &str, attributes: &'b [Attribute]) -> Option<&'b Text>
    ensures { MatchOption result (nodes.value_of word.now attributes.now ≡ None) (λ v. nodes.value_of word.now attributes.now ≡ Some v.now) }
{
    for one in attributes {
        if is_named(word, &one.name) {
            return Some(&one.value);
        }
    }
    None
}

fn is_script_type(found: &Text) -> bool
    ensures { result ≡ nodes.is_script_type (Some found.now) }
{
    let found = found.as_str();
    found == ""
        || found.eq_ignore_ascii_case("text/javascript")
        || found.eq_ignore_ascii_case("application/javascript")
}

/// Whether a script element of these attributes is run.
pub(crate) fn is_runnable(attributes: &[Attribute]) -> bool
    ensures { result ≡ nodes.is_runnable attributes.now }
{
    match value_of("src", attributes) {
        Some(_) => false,
        None => match value_of("type", attributes) {
            None => true,
            Some(found) => is_script_type(found),
        },
    }
}
