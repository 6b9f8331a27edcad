//! Whether a selector takes an element (Selectors Level 4, 17 Evaluating Selectors).

ghost use Rattle.std.specs.Prelude.{◌≡◌, ◌<◌, length, reverse};
ghost use Rattle.std.specs.Option.{option_copied};
ghost use Rattle.std.specs.Str.{bytes_eq, chars};
ghost use Rattle.dom_semantics.specs.Forest.{attribute_in, up_from, DEPTH_LIMIT};
ghost use Rattle.dom_semantics.specs.SelectorNames as names;
ghost use Rattle.dom_semantics.specs.Whitespace.{is_white_space};
ghost use Rattle.dom_semantics.specs.SelectorFits as spec;
ghost use Rattle.dom_query.specs.WordsModel as words;
ghost use Prim.Native.Nat.{suc};

use crate::selector::Selector;
use base_text::Text;
use dom_semantics::{Compound, Part, TagTest};
use dom_tree::{NodeForm, NodeId, TREE_LEVELS, Tree};

/// Whether two names are the same but for the case of ASCII letters.
pub(crate) fn is_same_name(a: &Text, b: &Text) -> bool
    ensures { result ≡ names.is_same_name a.now b.now }
{
    a.as_str().eq_ignore_ascii_case(b.as_str())
}

fn fits_tag(test: &Option<TagTest>, tag: &Text) -> bool
    ensures { result ≡ spec.fits_tag test.now tag.now }
{
    match test {
        Some(TagTest::Named(name)) => is_same_name(name, tag),
        Some(TagTest::Any) => true,
        None => true,
    }
}

/// Whether a text is this one.
pub(crate) fn is_text(text: &Text, s: &str) -> bool
    ensures { result ≡ bytes_eq text.now (chars s.now) }
{
    text.as_str() == s
}

/// The value of the first attribute of a name.
fn value_of<'a>(attributes: &'a [(Text, Text)], name: &str) -> Option<&'a Text>
    ensures { option_copied result ≡ attribute_in (chars name.now) attributes.now }
{
    for attribute in attributes {
        if is_text(&attribute.0, name) {
            return Some(&attribute.1);
        }
    }
    None
}

/// Whether the attribute id is this text.
pub(crate) fn has_id(id: &Text, attributes: &[(Text, Text)]) -> bool
    ensures { result ≡ spec.has_id id.now attributes.now }
{
    match value_of(attributes, "id") {
        Some(value) => *value == *id,
        None => false,
    }
}

fn is_white_space_byte(b: u8) -> bool
    ensures { result ≡ is_white_space b }
{
    matches!(b, b'\t' | b'\n' | 12 | b'\r' | b' ')
}

/// What follows the first part of a text between white space, from that on.
#[tactic(auto, unfolding(crate::specs::WordsModel::after_word))]
fn after_word(mut text: &[u8]) -> &[u8]
    ensures { result.now ≡ words.after_word text.entry.now }
{
    while let [b, rest @ ..] = text {
        if is_white_space_byte(*b) {
            return text;
        }
        text = rest;
    }
    text
}

/// Whether a word is one of the parts of a text between white space.
fn has_word(word: &[u8], text: &[u8]) -> bool
    ensures { result ≡ spec.has_word word.now text.now }
{
    let mut left = text;
    loop {
        let rest = after_word(left);
        let (first, _) = left.split_at(left.len() - rest.len());
        if first == word {
            return true;
        }
        match rest {
            [] => return false,
            [_, more @ ..] => left = more,
        }
    }
}

/// Whether the name is one of the words of the attribute class.
fn has_class(name: &Text, attributes: &[(Text, Text)]) -> bool
    ensures { result ≡ spec.has_class name.now attributes.now }
{
    match value_of(attributes, "class") {
        Some(value) => has_word(name.as_str().as_bytes(), value.as_str().as_bytes()),
        None => false,
    }
}

fn has_name(name: &Text, attributes: &[(Text, Text)]) -> bool
    ensures { result ≡ spec.has_name name.now attributes.now }
{
    attributes
        .iter()
        .any(|attribute| is_same_name(name, &attribute.0))
}

fn has_value(name: &Text, value: &Text, attributes: &[(Text, Text)]) -> bool
    ensures { result ≡ spec.has_value name.now value.now attributes.now }
{
    attributes.iter().any(|attribute| is_same_name(name, &attribute.0) && attribute.1 == *value)
}

fn fits_part(part: &Part, attributes: &[(Text, Text)]) -> bool
    ensures { result ≡ spec.fits_part part.now attributes.now }
{
    match part {
        Part::Id(name) => has_id(name, attributes),
        Part::Class(name) => has_class(name, attributes),
        Part::Has(name) => has_name(name, attributes),
        Part::Is(name, value) => has_value(name, value, attributes),
    }
}

fn fits_parts(parts: &[Part], attributes: &[(Text, Text)]) -> bool
    ensures { result ≡ spec.fits_parts parts.now attributes.now }
{
    parts.iter().all(|part| fits_part(part, attributes))
}

fn fits_compound(tree: &Tree, compound: &Compound, n: NodeId) -> bool
    requires { n.0 < length tree.now }
    ensures { result ≡ spec.fits_compound tree.now compound.now n.0 }
{
    match tree.form(n) {
        Some(NodeForm::Element(tag)) => {
            fits_tag(&compound.tag, tag)
                && fits_parts(compound.parts.as_slice(), tree.attributes(n))
        }
        _ => false,
    }
}

/// Whether the compounds, the last one first, fit ancestors of a node one above the other, within so
/// many steps upwards. To take the nearest ancestor that fits loses nothing.
fn fits_above(tree: &Tree, compounds: &[Compound], n: NodeId, steps: u32) -> bool
    requires { n.0 < length tree.now }
    ensures { result ≡ spec.fits_among tree.now (reverse compounds.now) (up_from steps tree.now n.0) }
{
    let [outer @ .., nearest] = compounds else {
        return true;
    };
    if steps == 0 {
        return false;
    }
    let Some(parent) = tree.parent(n) else {
        return false;
    };
    if fits_compound(tree, nearest, parent) {
        fits_above(tree, outer, parent, steps - 1)
    } else {
        fits_above(tree, compounds, parent, steps - 1)
    }
}

/// The most ancestors of a node, and one.
fn most_steps() -> u32
    ensures { result ≡ suc DEPTH_LIMIT }
{
    TREE_LEVELS
}

fn fits_chain(tree: &Tree, chain: &[Compound], n: NodeId) -> bool
    requires { n.0 < length tree.now }
    ensures { result ≡ spec.fits_chain tree.now chain.now n.0 }
{
    match chain {
        [] => false,
        [outer @ .., last] => {
            fits_compound(tree, last, n) && fits_above(tree, outer, n, most_steps())
        }
    }
}

/// Whether one of the chains fits the node.
pub(crate) fn fits(tree: &Tree, s: &Selector, n: NodeId) -> bool
    requires { n.0 < length tree.now }
    ensures { result ≡ spec.fits tree.now s.now n.0 }
{
    for chain in s.chains.as_slice() {
        if fits_chain(tree, chain.as_slice(), n) {
            return true;
        }
    }
    false
}
