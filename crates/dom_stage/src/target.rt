//! Members of EventTarget (DOM, 2.7 Interface EventTarget).

ghost use Rattle.std.specs.Prelude.{◌≡◌, ◌<◌, ◌-◌, ◌^◌, ◌∷◌, Bool, IfOk, OnErr, []};
ghost use Rattle.door.specs.declared.values.Actor.{Actor as AnyActor};
ghost use Rattle.door.specs.declared.values.Shape.{Shape};
ghost use Rattle.door.specs.declared.values.Value.TheVariants as value;
ghost use Rattle.dom_semantics.specs.Reply.{Is};
ghost use Rattle.dom_semantics.specs.Stage.{Origin};
ghost use Rattle.dom_semantics.specs.Stores.{Stores};
ghost use Rattle.dom_semantics.specs.TargetReplies as target;
ghost use Rattle.dom_stage.specs.Held.{stage_of};

use crate::stage::Stage;
use base_text::{Mem, NoMemory, Text};
use dom_events::{Listener, ListenerFault};
use door::{Actor, Answer, ErrorKind, Thing, Value};

impl Stage {
    /// `addEventListener` of a callback, by its place.
    pub fn add_event_listener(
        &mut self,
        actor: Actor,
        thing: Thing,
        kind: &Text,
        place: u32,
        capture: bool,
    ) -> Mem<Answer>
        requires room { self.old.listeners.given < 2 ^ 32 - 1 }
        ensures exact { (given : Origin) (stores : Stores) (owner : AnyActor) (shape : Shape) (waived : Bool) → IfOk result (λ a. Is (target.add_listener_row given (stage_of self.old stores) actor thing (value.Str kind.now ∷ (value.Cell owner place shape waived ∷ (value.Bool capture ∷ [])))) a (stage_of self.new stores)) }
        ensures only { self.new ≡ record self.old { listeners = self.new.listeners } }
        ensures err { OnErr result (self.new ≡ self.old) }
    {
        let listener = Listener {
            owner: actor,
            target: thing,
            kind: kind.share()?,
            callback: place,
            capture,
        };
        match self.listeners.add(listener) {
            Ok(()) => Ok(Answer::Value(Value::Undefined)),
            Err(ListenerFault::ListenerLimit) => Ok(Answer::Throw(ErrorKind::Limit)),
            Err(ListenerFault::NoMemory) => Err(NoMemory),
        }
    }

    /// `removeEventListener` of a callback, by its place.
    pub fn remove_event_listener(
        &mut self,
        actor: Actor,
        thing: Thing,
        kind: &Text,
        place: u32,
        capture: bool,
    ) -> Mem<Answer>
        ensures exact { (given : Origin) (stores : Stores) (owner : AnyActor) (shape : Shape) (waived : Bool) → IfOk result (λ a. Is (target.remove_listener_row given (stage_of self.old stores) actor thing (value.Str kind.now ∷ (value.Cell owner place shape waived ∷ (value.Bool capture ∷ [])))) a (stage_of self.new stores)) }
        ensures only { self.new ≡ record self.old { listeners = self.new.listeners } }
        ensures err { OnErr result (self.new ≡ self.old) }
    {
        let listener = Listener {
            owner: actor,
            target: thing,
            kind: kind.share()?,
            callback: place,
            capture,
        };
        self.listeners.remove(&listener);
        Ok(Answer::Value(Value::Undefined))
    }
}
