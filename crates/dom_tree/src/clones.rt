//! Copies of nodes (DOM, Interface Node, cloneNode).

ghost use Rattle.std.specs.Prelude.{◌≡◌, ◌<◌, ◌≤◌, ◌+◌, ◌^◌, length, nat_le, if◌then◌else◌, IfOk, OnOk, OnErr, MatchResult};
ghost use Rattle.dom_semantics.specs.Forest.{made_by, tree_order, NODE_LIMIT};
ghost use Rattle.dom_semantics.specs.Changes.{cloned, cloned_alone, cloned_deep, clone_refusal};
ghost use Rattle.dom_tree.specs.Refused.{Refuses};

use crate::copies::{Copies, copy_below};
use crate::counts::count_of;
use crate::form::{NodeId, TreeFault};
use crate::limits::{depth_limit, node_limit};
use crate::node_changes::{add_node, add_nodes};
use crate::tree::Tree;
use base_text::Mem;
use door::Actor;

impl Tree {
    /// Copies a node with its form and its attributes in order, and where `deep` all below it too (DOM,
    /// clone a node). The copies get the next numbers in tree order and belong to the maker; the first,
    /// whose number is answered, has no parent.
    ///
    /// `NodeLimit` exactly where the maker would have over `NODE_LIMIT` nodes. A call that is refused changes
    /// nothing, also where no memory is found.
    pub fn clone_node(&mut self, maker: Actor, n: NodeId, deep: bool) -> Result<NodeId, TreeFault>
        requires known { n.0 < length self.old }
        requires plain { 0 < n.0 }
        requires room { length self.old < 2 ^ 31 }
        ensures id { IfOk result (λ id. id.0 ≡ length self.old) }
        ensures ok { OnOk result (self.new ≡ cloned self.old maker n.0 deep) }
        ensures err { OnErr result (self.new ≡ self.old) }
        ensures refused { Refuses result (clone_refusal self.old maker n.0 deep) }
    {
        let id = self.nodes.len() as u32;
        if !self.has_room(maker, n.0, deep) {
            return Err(TreeFault::NodeLimit);
        }
        if deep {
            self.clone_deep(maker, n.0)?;
        } else {
            self.clone_alone(maker, n.0)?;
        }
        Ok(NodeId(id))
    }

    /// Whether a maker may have the copies too.
    fn has_room(&self, maker: Actor, n: u32, deep: bool) -> bool
        requires { n < length self.now }
        ensures { result ≡ nat_le (made_by self.now maker + (if deep then length (tree_order self.now n) else 1)) NODE_LIMIT }
    {
        let room = node_limit().saturating_sub(count_of(&self.counts, maker));
        if deep { self.fits(n, room) } else { room > 0 }
    }

    /// Whether a node and its descendants are no more than so many.
    fn fits(&self, n: u32, room: u32) -> bool
        requires { n < length self.now }
        ensures { result ≡ nat_le (length (tree_order self.now n)) room }
    {
        match one_less(room) {
            Ok(left) => self
                .try_fold_descendants(NodeId(n), left, |left, _| one_less(left))
                .is_ok(),
            Err(_) => false,
        }
    }

    /// Copies a node without its children.
    fn clone_alone(&mut self, maker: Actor, n: u32) -> Mem<()>
        requires known { n < length self.old }
        requires plain { 0 < n }
        requires room { length self.old < 2 ^ 31 }
        requires count { made_by self.old maker < NODE_LIMIT }
        ensures ok { OnOk result (self.new ≡ cloned_alone self.old maker n) }
        ensures err { OnErr result (self.new ≡ self.old) }
    {
        let copy = self.nodes[n as usize].copied(self.alloc, maker)?;
        add_node(
            &mut self.nodes,
            &mut self.parents,
            &mut self.counts,
            maker,
            copy,
        )?;
        Ok(())
    }

    /// Copies a node and all below it. The copies join the tree once they are all made, so that a call
    /// that finds no memory leaves none.
    fn clone_deep(&mut self, maker: Actor, n: u32) -> Mem<()>
        requires known { n < length self.old }
        requires plain { 0 < n }
        requires room { length self.old < 2 ^ 31 }
        requires count { made_by self.old maker + length (tree_order self.old n) ≤ NODE_LIMIT }
        ensures ok { OnOk result (self.new ≡ cloned_deep self.old maker n) }
        ensures err { OnErr result (self.new ≡ self.old) }
    {
        let mut copies = Copies::new(self.alloc);
        let levels = depth_limit() + 1;
        copy_below(self.alloc, &self.nodes, maker, n, None, levels, &mut copies)?;
        add_nodes(
            &mut self.nodes,
            &mut self.parents,
            &mut self.counts,
            maker,
            &mut copies,
        )?;
        Ok(())
    }
}

/// Room for one node less, if there is room for one.
fn one_less(room: u32) -> Result<u32, ()>
    ensures { MatchResult result (λ left. left + 1 ≡ room) (λ _. room ≡ 0) }
{
    if room == 0 {
        return Err(());
    }
    Ok(room - 1)
}
