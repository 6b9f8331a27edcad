//! The text in a node (DOM, get text content).

ghost use Rattle.std.specs.Prelude.{◌≡◌, ◌<◌, ◌≤◌, length, OnOk, IfOk, IfErr};
ghost use Rattle.std.specs.String.{string_bytes};
ghost use Rattle.base_text.specs.declared.text.TheConstants.{TEXT_LIMIT};
ghost use Rattle.dom_semantics.specs.Forest.{descendant_text, form_at, own_text, text_of};
ghost use Rattle.dom_semantics.specs.Changes.{read_refusal};
ghost use Rattle.dom_tree.specs.Refused.{IsDue};
ghost use Rattle.dom_tree.specs.Texts.{FitsText, Gathers};

use crate::form::{NodeForm, NodeId, TreeFault};
use crate::tree::Tree;
use base_text::{TEXT_LIMIT, Text, TextFault};

impl Tree {
    /// The data of a text or a comment, and of any other node all texts below it, joined.
    ///
    /// `TooLong` exactly where that has over `TEXT_LIMIT` bytes, unless no memory was found.
    pub fn text_of(&self, node: NodeId) -> Result<Text, TreeFault>
        requires { node.0 < length self.now }
        ensures ok { IfOk result (λ t. t ≡ text_of self.now node.0) }
        ensures short { OnOk result (read_refusal self.now node.0 ≡ None) }
        ensures refused { IfErr result (λ fault. IsDue fault (read_refusal self.now node.0)) }
    {
        match self.text_at(node) {
            Ok(text) => Ok(text),
            Err(TextFault::TooLong) => Err(TreeFault::TooLong),
            Err(TextFault::NoMemory) => Err(TreeFault::NoMemory),
        }
    }

    /// The text in a node.
    fn text_at(&self, node: NodeId) -> Result<Text, TextFault>
        requires { node.0 < length self.now }
        ensures { FitsText result (text_of self.now node.0) }
    {
        match self.form(node) {
            Some(NodeForm::Str(text)) => short(text),
            Some(NodeForm::Comment(text)) => short(text),
            Some(NodeForm::Element(_)) => self.joined(node),
            None => self.joined(node),
        }
    }

    /// All texts below a node, joined.
    fn joined(&self, node: NodeId) -> Result<Text, TextFault>
        requires { node.0 < length self.now }
        ensures { FitsText result (descendant_text self.now node.0) }
    {
        let none = String::new(self.alloc);
        match self.try_fold_descendants(node, none, |text, n| self.gather(text, n)) {
            Ok(text) => Text::of(self.alloc, &text),
            Err(fault) => Err(fault),
        }
    }

    /// Adds the text that a node itself is.
    fn gather(&self, text: String, n: NodeId) -> Result<String, TextFault>
        requires known { n.0 < length self.now }
        requires short { length (string_bytes text) ≤ TEXT_LIMIT }
        ensures { Gathers (λ t. string_bytes t) text result (own_text (form_at self.now n.0)) }
    {
        match self.form(n) {
            Some(NodeForm::Str(own)) => add(text, own),
            _ => Ok(text),
        }
    }
}

/// The same text, if it isn't longer than a text may be.
fn short(text: &Text) -> Result<Text, TextFault>
    ensures { FitsText result text.now }
{
    if text.as_str().len() > TEXT_LIMIT {
        return Err(TextFault::TooLong);
    }
    Ok(text.share()?)
}

fn add(mut text: String, own: &Text) -> Result<String, TextFault>
    requires { length (string_bytes text) ≤ TEXT_LIMIT }
    ensures { Gathers (λ t. string_bytes t) text result own.now }
{
    let own = own.as_str();
    if text.len() + own.len() > TEXT_LIMIT {
        return Err(TextFault::TooLong);
    }
    text.push_str(own)?;
    Ok(text)
}
