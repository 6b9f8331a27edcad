//! Going through a tree in tree order (DOM, Trees).

ghost use Rattle.std.specs.Prelude.{◌≡◌, ◌<◌, [], ◌∷◌, ◌++◌, length, IfOk, All};
ghost use Rattle.std.specs.List.{find};
ghost use Rattle.dom_semantics.specs.Forest.{descendants_of, tree_order};
ghost use Rattle.dom_tree.specs.Ids.{number_of};
ghost use Rattle.dom_semantics.specs.Queries.{is_of_id};

use crate::fits::has_id;
use base_text::{Mem, Text};
use dom_tree::{NodeForm, NodeId, Tree};
use std::alloc::Global;

/// Adds a node to those that were found.
fn add(mut found: Vec<u32>, n: u32) -> Mem<Vec<u32>>
    ensures { IfOk result (λ nodes. nodes.items ≡ found.items ++ n ∷ []) }
{
    found.push(n)?;
    Ok(found)
}

/// The proper descendants of a node in tree order.
pub(crate) fn descendants(alloc: Global, tree: &Tree, root: NodeId) -> Mem<Vec<u32>>
    requires { root.0 < length tree.now }
    ensures list { IfOk result (λ nodes. nodes.items ≡ descendants_of tree.now root.0) }
    ensures known { IfOk result (λ nodes. All (λ n. n < length tree.now) nodes.items) }
{
    tree.try_fold_descendants(root, Vec::new(alloc), |found, n| add(found, n.0))
}

fn is_of_id(tree: &Tree, id: &Text, n: NodeId) -> bool
    requires { n.0 < length tree.now }
    ensures { result ≡ is_of_id tree.now id.now n.0 }
{
    match tree.form(n) {
        Some(NodeForm::Element(_)) => id.count() != 0 && has_id(id, tree.attributes(n)),
        _ => false,
    }
}

/// The first element with an id among a node and its descendants.
pub(crate) fn first_of_id(tree: &Tree, id: &Text, n: NodeId) -> Option<NodeId>
    requires { n.0 < length tree.now }
    ensures { number_of result ≡ find (λ m. is_of_id tree.now id.now m) (tree_order tree.now n.0) }
{
    tree.find(n, |m| is_of_id(tree, id, m))
}
