//! The text of a node (DOM, get and set text content).

ghost use Rattle.std.specs.Prelude.{◌≡◌, ◌<◌, ◌^◌, ◌∷◌, [], ℕ, true, false, length, IsTrue, OnOk, OnErr, IfOk, slice_index_or, if◌then◌else◌};
ghost use Rattle.dom_semantics.specs.Forest.{is_among, is_element, takes_children, form_at, depth_of, made_by, Written, DEPTH_LIMIT, NODE_LIMIT};
ghost use Rattle.dom_semantics.specs.Changes.{with_text, text_refusal, with_children, created, is_empty};
ghost use Rattle.dom_tree.specs.Refused.{Refuses};

use crate::counts::count_of;
use crate::form::{NodeForm, NodeId, TreeFault};
use crate::inserts::has_room_below;
use crate::limits::node_limit;
use crate::node::Stored;
use crate::node_changes::{add_node, set_children, set_data};
use crate::tree::Tree;
use base_text::{Mem, Text};
use door::Actor;
use std::alloc::Global;

impl Tree {
    /// Replaces the data of a text or a comment, or the children of an element by one new text of the
    /// maker, and by none where the text is empty. The children that were are roots then.
    ///
    /// Where a text has to be made: `NodeLimit` exactly where the maker has `NODE_LIMIT` nodes, and then
    /// `TooDeep` exactly where the text would be over `DEPTH_LIMIT` steps below its root. A call that is refused
    /// changes nothing.
    pub fn set_text(&mut self, maker: Actor, node: NodeId, t: &Text) -> Result<(), TreeFault>
        requires known { node.0 < length self.old }
        requires plain { 0 < node.0 }
        requires room { length self.old < 2 ^ 31 }
        ensures ok { OnOk result (self.new ≡ with_text self.old maker node.0 t.now) }
        ensures err { OnErr result (self.new ≡ self.old) }
        ensures refused { Refuses result (text_refusal self.old maker node.0 t.now) }
    {
        if !self.nodes[node.0 as usize].is_element() {
            let text = t.share()?;
            set_data(&mut self.nodes, node.0 as usize, text);
            return Ok(());
        }
        if t.count() == 0 {
            self.drop_children(node.0);
            return Ok(());
        }
        self.replace_children(maker, node.0, t)
    }

    /// Takes all children out of a node.
    fn drop_children(&mut self, node: u32)
        requires { node < length self.old }
        ensures { self.new ≡ with_children self.old node [] }
    {
        let at = node as usize;
        orphan(&mut self.parents, self.nodes[at].children());
        set_children(&mut self.nodes, at, Vec::new(self.alloc));
    }

    /// Replaces the children of a node by one new text.
    fn replace_children(&mut self, maker: Actor, node: u32, t: &Text) -> Result<(), TreeFault>
        requires known { node < length self.old }
        requires element { IsTrue (is_element (form_at self.old node)) }
        requires text { is_empty t.now ≡ false }
        requires room { length self.old < 2 ^ 31 }
        ensures ok { OnOk result (self.new ≡ with_text self.old maker node t.now) }
        ensures err { OnErr result (self.new ≡ self.old) }
        ensures refused { Refuses result (text_refusal self.old maker node t.now) }
    {
        if count_of(&self.counts, maker) >= node_limit() {
            return Err(TreeFault::NodeLimit);
        }
        if !has_room_below(&self.nodes, &self.parents, node) {
            return Err(TreeFault::TooDeep);
        }
        self.put_text(maker, node, t)?;
        Ok(())
    }

    /// Puts one new text in place of the children of a node.
    fn put_text(&mut self, maker: Actor, node: u32, t: &Text) -> Mem<()>
        requires known { node < length self.old }
        requires holder { IsTrue (takes_children (form_at self.old node)) }
        requires depth { depth_of self.old node < DEPTH_LIMIT }
        requires room { length self.old < 2 ^ 31 }
        requires count { made_by self.old maker < NODE_LIMIT }
        ensures ok { OnOk result (self.new ≡ with_children (created self.old maker (Written t.now)) node (length self.old ∷ [])) }
        ensures err { OnErr result (self.new ≡ self.old) }
    {
        let id = self.nodes.len() as u32;
        let only = one_number(self.alloc, id)?;
        let text = Stored::new(self.alloc, maker, Some(NodeForm::Str(t.share()?)));
        add_node(
            &mut self.nodes,
            &mut self.parents,
            &mut self.counts,
            maker,
            text,
        )?;
        let at = node as usize;
        orphan(&mut self.parents, self.nodes[at].children());
        set_children(&mut self.nodes, at, only);
        self.parents[id as usize] = Some(node);
        Ok(())
    }
}

/// Takes the parents of these nodes away.
fn orphan(parents: &mut [Option<u32>], numbers: &[u32])
    requires { (n : ℕ) → is_among n numbers.now ≡ true → n < length parents.old }
    ensures { (n : ℕ) → slice_index_or parents.new n None ≡ (if is_among n numbers.now then None else slice_index_or parents.old n None) }
{
    for n in numbers {
        parents[*n as usize] = None;
    }
}

fn one_number(alloc: Global, n: u32) -> Mem<Vec<u32>>
    ensures { IfOk result (λ numbers. numbers.items ≡ n ∷ []) }
{
    let mut numbers = Vec::new(alloc);
    numbers.push(n)?;
    Ok(numbers)
}
