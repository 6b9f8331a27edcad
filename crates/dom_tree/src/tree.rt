//! The tree, and what it is asked without being changed.

ghost use Rattle.std.specs.Prelude.{◌≡◌, ◌↔◌, ◌<◌, ◌^◌, IsTrue, IsNone, IfOk, length, slice_get, All};
ghost use Rattle.std.specs.Option.{option_copied};
ghost use Rattle.dom_semantics.specs.Forest.{IsForest, new_forest, form_at, attributes_of, attribute_of, children_of, parent_of, first_child_of, next_sibling_of, is_element};
ghost use Rattle.dom_tree.specs.Forms.{form_or_document, pair_copied};
ghost use Rattle.dom_tree.specs.Ids.{number_of};

use crate::form::{NodeForm, NodeId};
use crate::node::Stored;
use crate::numbers::number_after;
use base_text::{Mem, Text};
use door::Actor;
use std::alloc::Global;
use std::marker::Model;

/// The nodes of a document, some in its tree and some in trees of their own (DOM, Node trees).
///
/// A node that a call names has to be one of this tree.
#[derive(Debug, Drop)]
pub struct Tree {
    pub(crate) nodes: Vec<Stored>,
    /// The parent of each node, so that a step upwards costs nothing.
    pub(crate) parents: Vec<Option<u32>>,
    pub(crate) counts: Vec<(Actor, u32)>,
    pub(crate) alloc: Global,
}

impl Model for Tree {
    ghost use Rattle.std.specs.Prelude.{List};
    ghost use Rattle.dom_semantics.specs.Forest.{Node};

    ghost Value = { List Node };

    ghost use Rattle.dom_tree.specs.Tree.{IsTree};

    ghost view = { λ t. t.nodes.items };

    ghost invariant = { λ t. IsTree t.nodes.items t.parents.items t.counts.items };
}

impl Tree {
    /// The document alone, node 0, which the host made.
    pub fn new(alloc: Global) -> Mem<Tree>
        ensures { IfOk result (λ tree. tree ≡ new_forest) }
    {
        let mut nodes = Vec::new(alloc);
        nodes.push(Stored::new(alloc, Actor(0), None))?;
        let mut parents = Vec::new(alloc);
        parents.push(None)?;
        let mut counts = Vec::new(alloc);
        counts.push((Actor(0), 1))?;
        Ok(Tree {
            nodes,
            parents,
            counts,
            alloc,
        })
    }

    /// A law: the nodes are a forest.
    pub fn is_a_forest(&self)
        ensures { IsForest self.now }
    {
        let _ = &self.nodes;
    }

    /// How many nodes there are, the document among them.
    pub fn count(&self) -> u32
        ensures exact { result ≡ length self.now }
        ensures some { 0 < result }
    {
        self.nodes.len() as u32
    }

    /// The parent of a node.
    pub fn parent(&self, n: NodeId) -> Option<NodeId>
        requires { n.0 < length self.now }
        ensures { number_of result ≡ parent_of self.now n.0 }
    {
        let parent = self.parents[n.0 as usize]?;
        Some(NodeId(parent))
    }

    /// The first child of a node.
    pub fn first_child(&self, n: NodeId) -> Option<NodeId>
        requires { n.0 < length self.now }
        ensures { number_of result ≡ first_child_of self.now n.0 }
    {
        let child = self.nodes[n.0 as usize].children().first()?;
        Some(NodeId(*child))
    }

    /// The children of a node in order, by number.
    pub fn children(&self, n: NodeId) -> &[u32]
        requires { n.0 < length self.now }
        ensures list { result.now ≡ children_of self.now n.0 }
        ensures known { All (λ c. c < length self.now) result.now }
    {
        self.nodes[n.0 as usize].children()
    }

    /// The child after a node of its parent.
    pub fn next_sibling(&self, n: NodeId) -> Option<NodeId>
        requires { n.0 < length self.now }
        ensures { number_of result ≡ next_sibling_of self.now n.0 }
    {
        let parent = self.parents[n.0 as usize]?;
        let sibling = number_after(self.nodes[parent as usize].children(), n.0)?;
        Some(NodeId(sibling))
    }

    /// What a node is; none exactly for the document.
    pub fn form(&self, n: NodeId) -> Option<&NodeForm>
        requires { n.0 < length self.now }
        ensures form { form_or_document (option_copied result) ≡ form_at self.now n.0 }
        ensures document { IsNone result ↔ (n.0 ≡ 0) }
    {
        self.nodes[n.0 as usize].form()
    }

    /// The value of an element's attribute.
    pub fn attr(&self, node: NodeId, name: &Text) -> Option<&Text>
        requires known { node.0 < length self.now }
        requires element { IsTrue (is_element (form_at self.now node.0)) }
        ensures { option_copied result ≡ attribute_of self.now node.0 name.now }
    {
        self.nodes[node.0 as usize].attribute(name)
    }

    /// The name and the value of the attribute at a place, from 0.
    pub fn attr_at(&self, n: NodeId, i: u32) -> Option<(&Text, &Text)>
        requires { n.0 < length self.now }
        ensures { pair_copied result ≡ slice_get (attributes_of self.now n.0) i }
    {
        self.nodes[n.0 as usize].attribute_at(i as usize)
    }
}
