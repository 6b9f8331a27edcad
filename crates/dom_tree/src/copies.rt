//! The copies of a node and of all below it, before they join the tree (DOM, Interface Node, clone a
//! node).

ghost use Rattle.std.specs.Prelude.{◌≡◌, ◌<◌, ◌+◌, ◌^◌, [], ◌∷◌, ◌++◌, length, OnOk};
ghost use Rattle.dom_semantics.specs.Forest.{in_order};
ghost use Rattle.dom_semantics.specs.Changes.{copied};
ghost use Rattle.dom_tree.specs.Ancestors.{AreNodes};
ghost use Rattle.dom_tree.specs.Copies.{parents_of_copies};

use crate::node::Stored;
use crate::node_changes::set_children;
use base_text::Mem;
use door::Actor;
use std::alloc::Global;

/// Copies of nodes, which get the numbers after all nodes of the tree, and the parent of each.
#[derive(Debug, Drop)]
pub struct Copies {
    pub nodes: Vec<Stored>,
    pub parents: Vec<Option<u32>>,
}

impl Copies {
    /// No copies.
    pub fn new(alloc: Global) -> Copies
        ensures nodes { result.nodes.items ≡ [] }
        ensures parents { result.parents.items ≡ [] }
    {
        Copies {
            nodes: Vec::new(alloc),
            parents: Vec::new(alloc),
        }
    }

    /// Adds one copy with its parent.
    fn push(&mut self, node: Stored, parent: Option<u32>) -> Mem<()>
        ensures nodes { OnOk result (self.new.nodes.items ≡ self.old.nodes.items ++ node ∷ []) }
        ensures parents { OnOk result (self.new.parents.items ≡ self.old.parents.items ++ parent ∷ []) }
    {
        self.nodes.push(node)?;
        self.parents.push(parent)?;
        Ok(())
    }
}

/// Adds the copies of a node and of all below it, for so many levels, in tree order.
pub fn copy_below(
    alloc: Global,
    nodes: &[Stored],
    maker: Actor,
    n: u32,
    parent: Option<u32>,
    levels: u32,
    copies: &mut Copies,
) -> Mem<()>
    requires known { AreNodes nodes.now }
    requires node { n < length nodes.now }
    requires room { length nodes.now + length copies.old.nodes.items + length (in_order levels nodes.now n) < 2 ^ 32 }
    ensures nodes { OnOk result (copies.new.nodes.items ≡ copies.old.nodes.items ++ copied levels nodes.now maker (length nodes.now + length copies.old.nodes.items) n) }
    ensures parents { OnOk result (copies.new.parents.items ≡ copies.old.parents.items ++ parents_of_copies levels nodes.now parent (length nodes.now + length copies.old.nodes.items) n) }
{
    if levels == 0 {
        return Ok(());
    }
    let node = &nodes[n as usize];
    let place = copies.nodes.len();
    let number = (nodes.len() + place) as u32;
    copies.push(node.copied(alloc, maker)?, parent)?;
    let mut children = Vec::new(alloc);
    for child in node.children() {
        children.push((nodes.len() + copies.nodes.len()) as u32)?;
        copy_below(
            alloc,
            nodes,
            maker,
            *child,
            Some(number),
            levels - 1,
            copies,
        )?;
    }
    set_children(&mut copies.nodes, place, children);
    Ok(())
}
