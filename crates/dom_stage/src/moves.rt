//! Nodes as values, and the moves from one to another.

ghost use Rattle.std.specs.Prelude.{◌≡◌, ◌<◌, ◌∷◌, suc, ℕ, length, map, All, IfOk, IfSome, None};
ghost use Rattle.dom_semantics.specs.Forest.{DEPTH_LIMIT, is_among, up_from};
ghost use Rattle.dom_semantics.specs.NodeReplies as node;
ghost use Rattle.dom_semantics.specs.Things as things;
ghost use Rattle.dom_tree.specs.Ids.{number_of};

use base_text::Mem;
use dom_tree::{NodeForm, NodeId, TREE_LEVELS, Tree};
use door::{Kind, Thing, Value, Values};
use std::alloc::Global;

/// The kind of a node.
pub fn node_kind(tree: &Tree, n: NodeId) -> Kind
    requires { n.0 < length tree.now }
    ensures { result ≡ (things.node_thing tree.now n.0).kind }
{
    match tree.form(n) {
        None => Kind::Document,
        Some(NodeForm::Element(_)) => Kind::Element,
        Some(NodeForm::Str(_)) => Kind::Str,
        Some(NodeForm::Comment(_)) => Kind::Comment,
    }
}

/// A node as a value.
pub fn node_value(tree: &Tree, n: NodeId) -> Value
    requires { n.0 < length tree.now }
    ensures { result ≡ things.node_value tree.now n.0 }
{
    Value::Thing(Thing {
        kind: node_kind(tree, n),
        number: n.0,
    })
}

/// A node as a value, or null.
pub fn node_or_null(tree: &Tree, n: Option<NodeId>) -> Value
    requires { IfSome n (λ m. m.0 < length tree.now) }
    ensures { result ≡ things.node_or_null tree.now (number_of n) }
{
    match n {
        Some(n) => node_value(tree, n),
        None => Value::Null,
    }
}

/// These nodes as values.
pub fn node_values(alloc: Global, tree: &Tree, numbers: &[u32]) -> Mem<Values>
    requires { All (λ n. n < length tree.now) numbers.now }
    ensures { IfOk result (λ vs. vs ≡ map (things.node_value tree.now) numbers.now) }
{
    let mut values = Values::new(alloc);
    for n in numbers {
        values.push(node_value(tree, NodeId(*n)))?;
    }
    Ok(values)
}

/// The last of these.
pub fn last_in(numbers: &[u32]) -> Option<u32>
    ensures exact { result ≡ node.last_in numbers.now }
    ensures known { (limit : ℕ) → All (λ n. n < limit) numbers.now → IfSome result (λ n. n < limit) }
{
    let count = numbers.len();
    if count == 0 {
        return None;
    }
    Some(numbers[count - 1])
}

/// What stands before a number among these.
pub fn before_in(n: u32, numbers: &[u32]) -> Option<u32>
    ensures exact { result ≡ node.before_in n None numbers.now }
    ensures known { (limit : ℕ) → All (λ n. n < limit) numbers.now → IfSome result (λ n. n < limit) }
{
    let mut before = None;
    for c in numbers {
        if n == *c {
            return before;
        }
        before = Some(*c);
    }
    None
}

/// One more than the most nodes above one.
pub fn path_limit() -> u32
    ensures { result ≡ suc DEPTH_LIMIT }
{
    TREE_LEVELS
}

/// Whether a node is another, or among at most `limit` nodes above it.
pub fn is_at_or_above(tree: &Tree, a: u32, n: NodeId, limit: u32) -> bool
    requires { n.0 < length tree.now }
    ensures { result ≡ is_among a (n.0 ∷ up_from limit tree.now n.0) }
{
    if a == n.0 {
        return true;
    }
    if limit == 0 {
        return false;
    }
    match tree.parent(n) {
        Some(parent) => is_at_or_above(tree, a, parent, limit - 1),
        None => false,
    }
}
