//! A node as the tree keeps it, which contracts see as a node of the forest.

ghost use Rattle.std.specs.Prelude.{◌≡◌, ◌↔◌, [], ◌∷◌, ◌++◌, true, IsTrue, IfOk, OnOk, OnErr, slice_get};
ghost use Rattle.std.specs.Option.{option_copied};
ghost use Rattle.dom_semantics.specs.Forest.{new_node, is_document, is_element, is_text, takes_children, is_among, attribute_in, has_name};
ghost use Rattle.dom_semantics.specs.Changes.{without, placed, set_in, dropped_from};
ghost use Rattle.dom_tree.specs.Forms.{form_or_document, pair_copied, data_in, is_comment};

use crate::attributes::{drop_name, place_of, set_value, shared};
use crate::form::NodeForm;
use crate::numbers::{put, shift, take_out};
use base_text::{Mem, Text};
use door::Actor;
use std::alloc::Global;
use std::marker::Model;

/// A node. The document has no form; children stand by their numbers.
#[derive(Debug, Drop)]
pub struct Stored {
    maker: Actor,
    form: Option<NodeForm>,
    attributes: Vec<(Text, Text)>,
    children: Vec<u32>,
}

impl Model for Stored {
    ghost use Rattle.dom_semantics.specs.Forest.{Node};

    ghost Value = { Node };

    ghost use Rattle.dom_tree.specs.Forms.{form_or_document};

    ghost view = { λ n. record { maker = n.maker; form = form_or_document n.form; attributes = n.attributes.items; children = n.children.items } };
}

impl Stored {
    /// A node as it is made, which takes no memory.
    pub fn new(alloc: Global, maker: Actor, form: Option<NodeForm>) -> Stored
        ensures { result ≡ new_node maker (form_or_document form) }
    {
        Stored {
            maker,
            form,
            attributes: Vec::new(alloc),
            children: Vec::new(alloc),
        }
    }

    /// The same node once more, of another maker and without its children.
    pub fn copied(&self, alloc: Global, maker: Actor) -> Mem<Stored>
        ensures { IfOk result (λ copy. copy ≡ record self.now { maker = maker; children = [] }) }
    {
        let form = match &self.form {
            Some(form) => Some(form.share()?),
            None => None,
        };
        Ok(Stored {
            maker,
            form,
            attributes: shared(alloc, &self.attributes)?,
            children: Vec::new(alloc),
        })
    }

    /// What it is, and none for the document.
    pub fn form(&self) -> Option<&NodeForm>
        ensures { self.now.form ≡ form_or_document (option_copied result) }
    {
        self.form.as_ref()
    }

    /// Whether it is the document.
    pub fn is_document(&self) -> bool
        ensures { result ≡ is_document self.now.form }
    {
        self.form.is_none()
    }

    /// Whether it is an element.
    pub fn is_element(&self) -> bool
        ensures { result ≡ is_element self.now.form }
    {
        matches!(self.form, Some(NodeForm::Element(_)))
    }

    /// Whether it is a text.
    pub fn is_text(&self) -> bool
        ensures { result ≡ is_text self.now.form }
    {
        matches!(self.form, Some(NodeForm::Str(_)))
    }

    /// Whether it may have children.
    pub fn takes_children(&self) -> bool
        ensures { result ≡ takes_children self.now.form }
    {
        self.is_document() || self.is_element()
    }

    /// Its children in order.
    pub fn children(&self) -> &[u32]
        ensures { result.now ≡ self.now.children }
    {
        self.children.as_slice()
    }

    /// Puts a child before another, or last where none is named.
    pub fn put_child(&mut self, child: u32, before: Option<u32>) -> Mem<()>
        ensures ok { OnOk result (self.new ≡ record self.old { children = placed child before self.old.children }) }
        ensures err { OnErr result (self.new ≡ self.old) }
    {
        put(&mut self.children, child, before)
    }

    /// Moves a child before another, or to the end.
    pub fn shift_child(&mut self, child: u32, before: Option<u32>)
        requires { is_among child self.old.children ≡ true }
        ensures { self.new ≡ record self.old { children = placed child before (without child self.old.children) } }
    {
        shift(&mut self.children, child, before);
    }

    /// Takes a child out.
    pub fn drop_child(&mut self, child: u32)
        ensures { self.new ≡ record self.old { children = without child self.old.children } }
    {
        take_out(&mut self.children, child);
    }

    /// Gives it these children.
    pub fn set_children(&mut self, children: Vec<u32>)
        ensures { self.new ≡ record self.old { children = children.items } }
    {
        self.children = children;
    }

    /// Replaces the data of a text or a comment; any other node stays as it is.
    pub fn set_data(&mut self, text: Text)
        ensures { self.new ≡ record self.old { form = data_in self.old.form text } }
    {
        if self.is_text() {
            self.form = Some(NodeForm::Str(text));
        } else if self.is_comment() {
            self.form = Some(NodeForm::Comment(text));
        }
    }

    /// Whether it is a comment.
    fn is_comment(&self) -> bool
        ensures { result ≡ is_comment self.now.form }
    {
        matches!(self.form, Some(NodeForm::Comment(_)))
    }

    /// Its attributes in order.
    pub fn attributes(&self) -> &[(Text, Text)]
        ensures { result.now ≡ self.now.attributes }
    {
        self.attributes.as_slice()
    }

    /// The name and the value of the attribute at a place, from 0.
    pub fn attribute_at(&self, at: usize) -> Option<(&Text, &Text)>
        ensures { pair_copied result ≡ slice_get self.now.attributes at }
    {
        let attribute = self.attributes.get(at)?;
        Some((&attribute.0, &attribute.1))
    }

    /// The value of the attribute of a name.
    pub fn attribute(&self, name: &Text) -> Option<&Text>
        ensures { option_copied result ≡ attribute_in name.now self.now.attributes }
    {
        let at = place_of(&self.attributes, name)?;
        let attribute = &self.attributes[at];
        Some(&attribute.1)
    }

    /// Sets the attribute of a name, which goes last where it is new.
    pub fn set_attribute(&mut self, name: &Text, value: &Text) -> Mem<()>
        ensures ok { OnOk result (self.new ≡ record self.old { attributes = set_in name.now value.now self.old.attributes }) }
        ensures err { OnErr result (self.new ≡ self.old) }
    {
        set_value(&mut self.attributes, name, value)
    }

    /// Drops the attribute of a name, and answers whether there was one.
    pub fn drop_attribute(&mut self, name: &Text) -> bool
        ensures dropped { self.new ≡ record self.old { attributes = dropped_from name.now self.old.attributes } }
        ensures there { result ≡ has_name name.now self.old.attributes }
    {
        drop_name(&mut self.attributes, name)
    }
}
