//! Members of Document by which nodes are made (DOM, 4.5 Interface Document).

ghost use Rattle.std.specs.Prelude.{◌≡◌, ◌<◌, ◌^◌, ◌∷◌, length, IfOk, OnErr, []};
ghost use Rattle.door.specs.declared.values.Thing.{Thing as AnyThing};
ghost use Rattle.door.specs.declared.values.Value.TheVariants as value;
ghost use Rattle.dom_semantics.specs.DocumentReplies as document;
ghost use Rattle.dom_semantics.specs.Forest.{Noted, Written};
ghost use Rattle.dom_semantics.specs.Reply.{Is};
ghost use Rattle.dom_semantics.specs.Stage.{Origin};
ghost use Rattle.dom_semantics.specs.Stores.{Stores};
ghost use Rattle.dom_stage.specs.Held.{stage_of};

use crate::refusals::refused;
use crate::stage::Stage;
use base_text::{Mem, Text};
use dom_tree::NodeForm;
use door::{Actor, Answer, Kind, Thing, Value};

impl Stage {
    /// `createTextNode`.
    pub fn create_text_node(&mut self, actor: Actor, text: &Text) -> Mem<Answer>
        requires room { length self.old.nodes < 2 ^ 31 }
        ensures exact { (given : Origin) (stores : Stores) (thing : AnyThing) → IfOk result (λ a. Is (document.create_row Written given (stage_of self.old stores) actor thing (value.Str text.now ∷ [])) a (stage_of self.new stores)) }
        ensures only { self.new ≡ record self.old { nodes = self.new.nodes } }
        ensures err { OnErr result (self.new ≡ self.old) }
    {
        match self.tree.create(actor, NodeForm::Str(text.share()?)) {
            Ok(n) => Ok(Answer::Value(Value::Thing(Thing {
                kind: Kind::Str,
                number: n.0,
            }))),
            Err(fault) => refused(fault),
        }
    }

    /// `createComment`.
    pub fn create_comment(&mut self, actor: Actor, text: &Text) -> Mem<Answer>
        requires room { length self.old.nodes < 2 ^ 31 }
        ensures exact { (given : Origin) (stores : Stores) (thing : AnyThing) → IfOk result (λ a. Is (document.create_row Noted given (stage_of self.old stores) actor thing (value.Str text.now ∷ [])) a (stage_of self.new stores)) }
        ensures only { self.new ≡ record self.old { nodes = self.new.nodes } }
        ensures err { OnErr result (self.new ≡ self.old) }
    {
        match self.tree.create(actor, NodeForm::Comment(text.share()?)) {
            Ok(n) => Ok(Answer::Value(Value::Thing(Thing {
                kind: Kind::Comment,
                number: n.0,
            }))),
            Err(fault) => refused(fault),
        }
    }
}
