//! What a search of a tree lists.

ghost use Rattle.std.specs.Prelude.{◌≡◌, ◌<◌, length, IfOk};
ghost use Rattle.dom_semantics.specs.Forest.{form_at};
ghost use Rattle.dom_tree.specs.Ids.{number_of, numbers_of};
ghost use Rattle.dom_semantics.specs.Queries as spec;

use crate::fits::{fits, is_same_name, is_text};
use crate::selector::Selector;
use crate::walk::{descendants, first_of_id};
use base_text::{Mem, Text};
use dom_tree::{NodeForm, NodeId, Tree};
use std::alloc::Global;

/// The proper descendants of a node that a selector takes, in tree order (DOM, scope-match a selectors
/// string). Ancestors are looked for in the whole tree, also above the root of the search.
pub fn select(alloc: Global, tree: &Tree, root: NodeId, s: &Selector) -> Mem<Vec<NodeId>>
    requires { root.0 < length tree.now }
    ensures { IfOk result (λ nodes. numbers_of nodes.items ≡ spec.selected tree.now root.0 s.now) }
{
    let below = descendants(alloc, tree, root)?;
    let mut found = Vec::new(alloc);
    for n in &below {
        if fits(tree, s, NodeId(*n)) {
            found.push(NodeId(*n))?;
        }
    }
    Ok(found)
}

/// The document, which each tree has.
fn document(tree: &Tree) -> NodeId
    ensures number { result.0 ≡ 0 }
    ensures known { result.0 < length tree.now }
{
    let _count = tree.count();
    NodeId(0)
}

/// The first element of the document in tree order whose attribute id is this text, if there is one
/// (DOM, Interface NonElementParentNode). An empty attribute gives no id, so no element has the empty
/// one. It takes no memory.
pub fn by_id(tree: &Tree, id: &Text) -> Option<NodeId>
    ensures { number_of result ≡ spec.first_of_id tree.now id.now }
{
    first_of_id(tree, id, document(tree))
}

fn is_of_tag(tree: &Tree, tag: &Text, n: NodeId) -> bool
    requires { n.0 < length tree.now }
    ensures { result ≡ spec.is_of_tag tag.now (form_at tree.now n.0) }
{
    match tree.form(n) {
        Some(NodeForm::Element(name)) => is_text(tag, "*") || is_same_name(tag, name),
        _ => false,
    }
}

/// The proper descendants of a node of a tag, in tree order, and for `*` all elements among them (DOM,
/// list of elements with qualified name). Tags are compared in ASCII lower case.
pub fn by_tag(alloc: Global, tree: &Tree, root: NodeId, tag: &Text) -> Mem<Vec<NodeId>>
    requires { root.0 < length tree.now }
    ensures { IfOk result (λ nodes. numbers_of nodes.items ≡ spec.tagged tree.now root.0 tag.now) }
{
    let below = descendants(alloc, tree, root)?;
    let mut found = Vec::new(alloc);
    for n in &below {
        if is_of_tag(tree, tag, NodeId(*n)) {
            found.push(NodeId(*n))?;
        }
    }
    Ok(found)
}
