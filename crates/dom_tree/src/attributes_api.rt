//! The attributes of an element (DOM, Interface Element).

ghost use Rattle.std.specs.Prelude.{◌≡◌, ◌<◌, length, IsTrue, OnOk, OnErr};
ghost use Rattle.dom_semantics.specs.Forest.{form_at, is_element, attributes_of, has_name};
ghost use Rattle.dom_semantics.specs.Changes.{with_attribute, without_attribute};

use crate::form::NodeId;
use crate::node_changes::{drop_attribute, set_attribute};
use crate::tree::Tree;
use base_text::{Mem, Text};

impl Tree {
    /// The attributes of a node in order, each by its name and its value. It takes no memory.
    pub fn attributes(&self, n: NodeId) -> &[(Text, Text)]
        requires { n.0 < length self.now }
        ensures { result.now ≡ attributes_of self.now n.0 }
    {
        self.nodes[n.0 as usize].attributes()
    }

    /// Sets the attribute of a name, which goes last where it is new (DOM, set an attribute value). A
    /// call that finds no memory changes nothing.
    pub fn set_attr(&mut self, node: NodeId, name: &Text, value: &Text) -> Mem<()>
        requires known { node.0 < length self.old }
        requires element { IsTrue (is_element (form_at self.old node.0)) }
        ensures ok { OnOk result (self.new ≡ with_attribute self.old node.0 name.now value.now) }
        ensures err { OnErr result (self.new ≡ self.old) }
    {
        set_attribute(&mut self.nodes, node.0 as usize, name, value)?;
        Ok(())
    }

    /// Drops the attribute of a name, and answers whether there was one (DOM, remove an attribute by
    /// name). It takes no memory.
    pub fn drop_attr(&mut self, node: NodeId, name: &Text) -> bool
        requires known { node.0 < length self.old }
        requires element { IsTrue (is_element (form_at self.old node.0)) }
        ensures dropped { self.new ≡ without_attribute self.old node.0 name.now }
        ensures there { result ≡ has_name name.now (attributes_of self.old node.0) }
    {
        drop_attribute(&mut self.nodes, node.0 as usize, name)
    }
}
