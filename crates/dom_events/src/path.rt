//! The path of an event, and the visits along it (DOM, 2.9 Dispatching events, dispatch, step 5).

ghost use Rattle.std.specs.Prelude.{◌≡◌, ◌<◌, ◌++◌, ℕ, length, map, reverse, suc, true, false, IfOk, OnOk};
ghost use Rattle.dom_semantics.specs.Forest.{DEPTH_LIMIT, up_from, last_of};
ghost use Rattle.dom_semantics.specs.Things as things;
ghost use Rattle.dom_semantics.specs.Walks as spec;
ghost use Rattle.dom_events.specs.Targets.{HasTarget};

use base_text::Mem;
use dom_semantics::Visit;
use dom_tree::{NodeForm, NodeId, Tree};
use door::{DEPTH_LIMIT as LIMIT, Kind, Thing, WINDOW};
use std::alloc::Global;

/// A node as a thing.
fn node_thing(tree: &Tree, node: NodeId) -> Thing
    requires { node.0 < length tree.now }
    ensures { result ≡ things.node_thing tree.now node.0 }
{
    let kind = match tree.form(node) {
        None => Kind::Document,
        Some(NodeForm::Element(_)) => Kind::Element,
        Some(NodeForm::Str(_)) => Kind::Str,
        Some(NodeForm::Comment(_)) => Kind::Comment,
    };
    Thing {
        kind,
        number: node.0,
    }
}

/// Whether things of this kind are nodes.
fn is_node_kind(kind: Kind) -> bool
    ensures { result ≡ things.is_node_kind kind }
{
    match kind {
        Kind::Window | Kind::Event => false,
        Kind::Document | Kind::Element | Kind::Str | Kind::Comment => true,
    }
}

/// One more than the most nodes above one.
fn path_limit() -> u32
    ensures { result ≡ suc DEPTH_LIMIT }
{
    LIMIT + 1
}

/// Adds at most `limit` nodes above one, upwards, and answers the last of them.
fn add_ancestors(tree: &Tree, node: NodeId, limit: u32, path: &mut Vec<Thing>) -> Mem<u32>
    requires { node.0 < length tree.now }
    ensures path { OnOk result (path.new.items ≡ path.old.items ++ map (things.node_thing tree.now) (up_from limit tree.now node.0)) }
    ensures root { IfOk result (λ root. root ≡ last_of node.0 (up_from limit tree.now node.0)) }
{
    if limit == 0 {
        return Ok(node.0);
    }
    match tree.parent(node) {
        Some(parent) => {
            path.push(node_thing(tree, parent))?;
            add_ancestors(tree, parent, limit - 1, path)
        }
        None => Ok(node.0),
    }
}

/// What is above a target, upwards.
fn above(alloc: Global, tree: &Tree, target: Thing) -> Mem<Vec<Thing>>
    requires { HasTarget tree.now target }
    ensures { IfOk result (λ path. path.items ≡ spec.above tree.now target) }
{
    let mut path = Vec::new(alloc);
    if !is_node_kind(target.kind) {
        return Ok(path);
    }
    let root = add_ancestors(tree, NodeId(target.number), path_limit(), &mut path)?;
    if root == 0 {
        path.push(WINDOW)?;
    }
    Ok(path)
}

/// Adds the visits of a path from its end down, for capturing listeners.
fn add_capturing(path: &[Thing], visits: &mut Vec<Visit>) -> Mem<()>
    ensures { OnOk result (visits.new.items ≡ visits.old.items ++ map (spec.visit_of 1 true) (reverse path.now)) }
{
    if let Some((current, rest)) = path.split_first() {
        add_capturing(rest, visits)?;
        visits.push(Visit {
            current: *current,
            phase: 1,
            capture: true,
        })?;
    }
    Ok(())
}

/// Adds the visits of a path upwards, for listeners that don't capture.
fn add_bubbling(path: &[Thing], visits: &mut Vec<Visit>) -> Mem<()>
    ensures { OnOk result (visits.new.items ≡ visits.old.items ++ map (spec.visit_of 3 false) path.now) }
{
    if let Some((current, rest)) = path.split_first() {
        visits.push(Visit {
            current: *current,
            phase: 3,
            capture: false,
        })?;
        add_bubbling(rest, visits)?;
    }
    Ok(())
}

/// A visit at the target.
fn at_target(target: Thing, capture: bool) -> Visit
    ensures { result ≡ spec.visit_of 2 capture target }
{
    Visit {
        current: target,
        phase: 2,
        capture,
    }
}

/// The visits of a walk in order.
pub(crate) fn visits(alloc: Global, tree: &Tree, target: Thing, bubbles: bool) -> Mem<Vec<Visit>>
    requires { HasTarget tree.now target }
    ensures { IfOk result (λ visits. visits.items ≡ spec.visits_of tree.now target bubbles) }
{
    let path = above(alloc, tree, target)?;
    let mut visits = Vec::new(alloc);
    add_capturing(&path, &mut visits)?;
    visits.push(at_target(target, true))?;
    visits.push(at_target(target, false))?;
    if bubbles {
        add_bubbling(&path, &mut visits)?;
    }
    Ok(visits)
}
