//! Members of Node (DOM, 4.4 Interface Node).

ghost use Rattle.std.specs.Prelude.{◌≡◌, ◌<◌, ◌^◌, ◌∷◌, length, Bool, IfOk, OnErr, []};
ghost use Rattle.door.specs.declared.values.Actor.{Actor as AnyActor};
ghost use Rattle.door.specs.declared.values.Value.TheVariants as value;
ghost use Rattle.dom_semantics.specs.Forest as forest;
ghost use Rattle.dom_semantics.specs.NodeReplies as node;
ghost use Rattle.dom_semantics.specs.Reply.{Is};
ghost use Rattle.dom_semantics.specs.Stage.{Origin};
ghost use Rattle.dom_semantics.specs.Stores.{Stores};
ghost use Rattle.dom_stage.specs.Held.{stage_of};

use crate::moves::{
    before_in, is_at_or_above, last_in, node_or_null, node_value, node_values, path_limit,
};
use crate::refusals::refused;
use crate::stage::Stage;
use base_text::{Mem, Text};
use dom_tree::{NodeForm, NodeId};
use door::{Actor, Answer, DOCUMENT, Thing, Value};

impl Stage {
    /// `nodeType`.
    pub fn node_type(&self, thing: Thing) -> Answer
        requires { thing.number < length self.now.nodes }
        ensures { (given : Origin) (stores : Stores) (i : AnyActor) → Is (node.type_row given (stage_of self.now stores) i thing []) result (stage_of self.now stores) }
    {
        let number = match self.tree.form(NodeId(thing.number)) {
            None => 9,
            Some(NodeForm::Element(_)) => 1,
            Some(NodeForm::Str(_)) => 3,
            Some(NodeForm::Comment(_)) => 8,
        };
        Answer::Value(Value::Number(number))
    }

    /// `parentNode`.
    pub fn parent_node(&self, thing: Thing) -> Answer
        requires { thing.number < length self.now.nodes }
        ensures { (given : Origin) (stores : Stores) (i : AnyActor) → Is (node.move_row forest.parent_of given (stage_of self.now stores) i thing []) result (stage_of self.now stores) }
    {
        let n = self.tree.parent(NodeId(thing.number));
        Answer::Value(node_or_null(&self.tree, n))
    }

    /// `firstChild`.
    pub fn first_child(&self, thing: Thing) -> Answer
        requires { thing.number < length self.now.nodes }
        ensures { (given : Origin) (stores : Stores) (i : AnyActor) → Is (node.move_row forest.first_child_of given (stage_of self.now stores) i thing []) result (stage_of self.now stores) }
    {
        self.tree.is_a_forest();
        let n = self.tree.first_child(NodeId(thing.number));
        Answer::Value(node_or_null(&self.tree, n))
    }

    /// `lastChild`.
    pub fn last_child(&self, thing: Thing) -> Answer
        requires { thing.number < length self.now.nodes }
        ensures { (given : Origin) (stores : Stores) (i : AnyActor) → Is (node.move_row node.last_child_of given (stage_of self.now stores) i thing []) result (stage_of self.now stores) }
    {
        match last_in(self.tree.children(NodeId(thing.number))) {
            Some(n) => Answer::Value(node_value(&self.tree, NodeId(n))),
            None => Answer::Value(Value::Null),
        }
    }

    /// `previousSibling`.
    pub fn previous_sibling(&self, thing: Thing) -> Answer
        requires { thing.number < length self.now.nodes }
        ensures { (given : Origin) (stores : Stores) (i : AnyActor) → Is (node.move_row node.previous_sibling_of given (stage_of self.now stores) i thing []) result (stage_of self.now stores) }
    {
        let Some(parent) = self.tree.parent(NodeId(thing.number)) else {
            return Answer::Value(Value::Null);
        };
        match before_in(thing.number, self.tree.children(parent)) {
            Some(n) => Answer::Value(node_value(&self.tree, NodeId(n))),
            None => Answer::Value(Value::Null),
        }
    }

    /// `nextSibling`.
    pub fn next_sibling(&self, thing: Thing) -> Answer
        requires { thing.number < length self.now.nodes }
        ensures { (given : Origin) (stores : Stores) (i : AnyActor) → Is (node.move_row forest.next_sibling_of given (stage_of self.now stores) i thing []) result (stage_of self.now stores) }
    {
        self.tree.is_a_forest();
        let n = self.tree.next_sibling(NodeId(thing.number));
        Answer::Value(node_or_null(&self.tree, n))
    }

    /// `ownerDocument`.
    pub fn owner_document(&self, thing: Thing) -> Answer
        requires { thing.number < length self.now.nodes }
        ensures { (given : Origin) (stores : Stores) (i : AnyActor) → Is (node.owner_row given (stage_of self.now stores) i thing []) result (stage_of self.now stores) }
    {
        if self.tree.form(NodeId(thing.number)).is_none() {
            return Answer::Value(Value::Null);
        }
        Answer::Value(Value::Thing(DOCUMENT))
    }

    /// `childNodes`.
    pub fn child_nodes(&self, thing: Thing) -> Mem<Answer>
        requires { thing.number < length self.now.nodes }
        ensures { (given : Origin) (stores : Stores) (i : AnyActor) → IfOk result (λ a. Is (node.child_nodes_row given (stage_of self.now stores) i thing []) a (stage_of self.now stores)) }
    {
        let numbers = self.tree.children(NodeId(thing.number));
        Ok(Answer::List(node_values(self.alloc, &self.tree, numbers)?))
    }

    /// `contains`.
    pub fn contains(&self, thing: Thing, other: Thing) -> Answer
        requires other { other.number < length self.now.nodes }
        ensures { (given : Origin) (stores : Stores) (i : AnyActor) → Is (node.contains_row given (stage_of self.now stores) i thing (value.Thing other ∷ [])) result (stage_of self.now stores) }
    {
        Answer::Value(Value::Bool(is_at_or_above(
            &self.tree,
            thing.number,
            NodeId(other.number),
            path_limit(),
        )))
    }

    /// `textContent`.
    pub fn text_content(&self, thing: Thing) -> Mem<Answer>
        requires { thing.number < length self.now.nodes }
        ensures { (given : Origin) (stores : Stores) (i : AnyActor) → IfOk result (λ a. Is (node.text_row given (stage_of self.now stores) i thing []) a (stage_of self.now stores)) }
    {
        let n = NodeId(thing.number);
        if self.tree.form(n).is_none() {
            return Ok(Answer::Value(Value::Null));
        }
        match self.tree.text_of(n) {
            Ok(text) => Ok(Answer::Value(Value::Str(text))),
            Err(fault) => refused(fault),
        }
    }

    /// `textContent=`.
    pub fn set_text_content(&mut self, actor: Actor, thing: Thing, text: &Text) -> Mem<Answer>
        requires node { thing.number < length self.old.nodes }
        requires room { length self.old.nodes < 2 ^ 31 }
        ensures exact { (given : Origin) (stores : Stores) → IfOk result (λ a. Is (node.set_text_row given (stage_of self.old stores) actor thing (value.Str text.now ∷ [])) a (stage_of self.new stores)) }
        ensures only { self.new ≡ record self.old { nodes = self.new.nodes } }
        ensures err { OnErr result (self.new ≡ self.old) }
    {
        let n = NodeId(thing.number);
        if self.tree.form(n).is_none() {
            return Ok(Answer::Value(Value::Undefined));
        }
        match self.tree.set_text(actor, n, text) {
            Ok(()) => Ok(Answer::Value(Value::Undefined)),
            Err(fault) => refused(fault),
        }
    }

    /// `appendChild`.
    pub fn append_child(&mut self, thing: Thing, child: Thing) -> Mem<Answer>
        requires parent { thing.number < length self.old.nodes }
        requires child { child.number < length self.old.nodes }
        ensures exact { (given : Origin) (stores : Stores) (i : AnyActor) → IfOk result (λ a. Is (node.append_row given (stage_of self.old stores) i thing (value.Thing child ∷ [])) a (stage_of self.new stores)) }
        ensures only { self.new ≡ record self.old { nodes = self.new.nodes } }
        ensures err { OnErr result (self.new ≡ self.old) }
    {
        match self
            .tree
            .insert(NodeId(thing.number), NodeId(child.number), None)
        {
            Ok(()) => Ok(Answer::Value(Value::Thing(child))),
            Err(fault) => refused(fault),
        }
    }

    /// `insertBefore` a child.
    pub fn insert_before(&mut self, thing: Thing, child: Thing, before: Thing) -> Mem<Answer>
        requires parent { thing.number < length self.old.nodes }
        requires child { child.number < length self.old.nodes }
        ensures exact { (given : Origin) (stores : Stores) (i : AnyActor) → IfOk result (λ a. Is (node.insert_row given (stage_of self.old stores) i thing (value.Thing child ∷ (value.Thing before ∷ []))) a (stage_of self.new stores)) }
        ensures only { self.new ≡ record self.old { nodes = self.new.nodes } }
        ensures err { OnErr result (self.new ≡ self.old) }
    {
        match self.tree.insert(
            NodeId(thing.number),
            NodeId(child.number),
            Some(NodeId(before.number)),
        ) {
            Ok(()) => Ok(Answer::Value(Value::Thing(child))),
            Err(fault) => refused(fault),
        }
    }

    /// `removeChild`.
    pub fn remove_child(&mut self, thing: Thing, child: Thing) -> Mem<Answer>
        requires parent { thing.number < length self.old.nodes }
        requires child { child.number < length self.old.nodes }
        ensures exact { (given : Origin) (stores : Stores) (i : AnyActor) → IfOk result (λ a. Is (node.remove_child_row given (stage_of self.old stores) i thing (value.Thing child ∷ [])) a (stage_of self.new stores)) }
        ensures only { self.new ≡ record self.old { nodes = self.new.nodes } }
        ensures err { OnErr result (self.new ≡ self.old) }
    {
        match self.tree.remove(NodeId(thing.number), NodeId(child.number)) {
            Ok(()) => Ok(Answer::Value(Value::Thing(child))),
            Err(fault) => refused(fault),
        }
    }

    /// `cloneNode`.
    pub fn clone_node(&mut self, actor: Actor, thing: Thing, deep: bool) -> Mem<Answer>
        requires node { thing.number < length self.old.nodes }
        requires plain { 0 < thing.number }
        requires room { length self.old.nodes < 2 ^ 31 }
        ensures exact { (given : Origin) (stores : Stores) → IfOk result (λ a. Is (node.clone_row given (stage_of self.old stores) actor thing (value.Bool deep ∷ [])) a (stage_of self.new stores)) }
        ensures only { self.new ≡ record self.old { nodes = self.new.nodes } }
        ensures err { OnErr result (self.new ≡ self.old) }
    {
        match self.tree.clone_node(actor, NodeId(thing.number), deep) {
            Ok(copy) => Ok(Answer::Value(node_value(&self.tree, copy))),
            Err(fault) => refused(fault),
        }
    }
}
