//! Making nodes, moving them and taking them out (DOM, Mutation algorithms).

ghost use Rattle.std.specs.Prelude.{◌≡◌, ◌<◌, ◌^◌, length, IfOk, OnOk, OnErr};
ghost use Rattle.dom_semantics.specs.Changes.{created, create_refusal, inserted, insert_refusal, removed, remove_refusal};
ghost use Rattle.dom_tree.specs.Forms.{form_of};
ghost use Rattle.dom_tree.specs.Ids.{number_of};
ghost use Rattle.dom_tree.specs.Refused.{Refuses, NeedsNone};

use crate::counts::count_of;
use crate::form::{NodeForm, NodeId, TreeFault};
use crate::inserts::{check_insert, has_child, is_itself, number_of};
use crate::limits::node_limit;
use crate::node::Stored;
use crate::node_changes::{add_node, move_node, remove_node};
use crate::tree::Tree;
use door::Actor;

impl Tree {
    /// Makes a node of a maker, which has no parent and no children, and answers the next number.
    ///
    /// `NodeLimit` exactly where the maker has `NODE_LIMIT` nodes. A call that is refused changes nothing.
    pub fn create(&mut self, maker: Actor, form: NodeForm) -> Result<NodeId, TreeFault>
        requires { length self.old < 2 ^ 31 }
        ensures id { IfOk result (λ id. id.0 ≡ length self.old) }
        ensures ok { OnOk result (self.new ≡ created self.old maker (form_of form)) }
        ensures err { OnErr result (self.new ≡ self.old) }
        ensures refused { Refuses result (create_refusal self.old maker) }
    {
        if count_of(&self.counts, maker) >= node_limit() {
            return Err(TreeFault::NodeLimit);
        }
        let id = self.nodes.len() as u32;
        let node = Stored::new(self.alloc, maker, Some(form));
        add_node(
            &mut self.nodes,
            &mut self.parents,
            &mut self.counts,
            maker,
            node,
        )?;
        Ok(NodeId(id))
    }

    /// Moves a node below a parent, before one of its children or last (DOM, insert). Before itself
    /// nothing changes.
    ///
    /// The first of: `Hierarchy` exactly where the parent is a text or a comment, or the node is the
    /// parent or above it; `NotFound` exactly where `before` isn't a child of the parent; `Hierarchy`
    /// exactly where the node is the document, or the parent is the document and the node is a text, or
    /// an element while the document has an element as a child, itself included; `TooDeep` exactly where
    /// a node would be over `DEPTH_LIMIT` steps below its root. A call that is refused changes nothing.
    pub fn insert(
        &mut self,
        parent: NodeId,
        node: NodeId,
        before: Option<NodeId>,
    ) -> Result<(), TreeFault>
        requires parent { parent.0 < length self.old }
        requires node { node.0 < length self.old }
        ensures ok { OnOk result (self.new ≡ inserted self.old parent.0 node.0 (number_of before)) }
        ensures err { OnErr result (self.new ≡ self.old) }
        ensures refused { Refuses result (insert_refusal self.old parent.0 node.0 (number_of before)) }
    {
        let before = number_of(before);
        check_insert(&self.nodes, &self.parents, parent.0, node.0, before)?;
        if is_itself(node.0, before) {
            return Ok(());
        }
        let old = self.parents[node.0 as usize];
        move_node(&mut self.nodes, old, parent.0, node.0, before)?;
        self.parents[node.0 as usize] = Some(parent.0);
        Ok(())
    }

    /// Takes a node out of its parent (DOM, remove). It takes no memory.
    ///
    /// `NotFound` exactly where the node isn't a child of that parent; then nothing changes.
    pub fn remove(&mut self, parent: NodeId, node: NodeId) -> Result<(), TreeFault>
        requires parent { parent.0 < length self.old }
        requires node { node.0 < length self.old }
        ensures ok { OnOk result (self.new ≡ removed self.old node.0) }
        ensures err { OnErr result (self.new ≡ self.old) }
        ensures refused { Refuses result (remove_refusal self.old parent.0 node.0) }
        ensures memory { NeedsNone result }
    {
        if !has_child(&self.nodes, parent.0, node.0) {
            return Err(TreeFault::NotFound);
        }
        remove_node(&mut self.nodes, parent.0, node.0);
        self.parents[node.0 as usize] = None;
        Ok(())
    }
}
