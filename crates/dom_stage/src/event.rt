//! Members of Event and its constructors (DOM, 2.2 Interface Event, 2.4 Interface CustomEvent).

ghost use Rattle.std.specs.Prelude.{◌≡◌, ◌<◌, ◌-◌, ◌^◌, ◌∷◌, length, IfOk, OnErr, []};
ghost use Rattle.door.specs.declared.values.Actor.{Actor as AnyActor};
ghost use Rattle.door.specs.declared.values.Thing.{Thing as AnyThing};
ghost use Rattle.door.specs.declared.values.Value.TheVariants as value;
ghost use Rattle.dom_semantics.specs.EventReplies as event;
ghost use Rattle.dom_semantics.specs.Events.{event_prevented};
ghost use Rattle.dom_semantics.specs.Reply.{Is};
ghost use Rattle.dom_semantics.specs.Stage.{Origin};
ghost use Rattle.dom_semantics.specs.Stores.{Stores};
ghost use Rattle.dom_semantics.specs.Things as things;
ghost use Rattle.dom_stage.specs.Events as read;
ghost use Rattle.dom_stage.specs.Held.{stage_of};

use crate::stage::Stage;
use base_text::{Mem, Text};
use dom_semantics::{EventForm, Flag};
use door::{Actor, Answer, Kind, Thing, Value};

/// A thing as a value, or null.
fn thing_or_null(thing: Option<Thing>) -> Value
    ensures { result ≡ things.thing_or_null thing }
{
    match thing {
        Some(thing) => Value::Thing(thing),
        None => Value::Null,
    }
}

impl Stage {
    /// `new Event` and `new CustomEvent`.
    pub fn new_event(
        &mut self,
        actor: Actor,
        kind: &Text,
        bubbles: bool,
        cancelable: bool,
        detail: Value,
    ) -> Mem<Answer>
        requires room { length self.old.events < 2 ^ 32 - 1 }
        ensures exact { (given : Origin) (stores : Stores) (thing : AnyThing) → IfOk result (λ a. Is (event.new_event_row given (stage_of self.old stores) actor thing (value.Str kind.now ∷ (value.Bool bubbles ∷ (value.Bool cancelable ∷ (detail ∷ []))))) a (stage_of self.new stores)) }
        ensures only { self.new ≡ record self.old { events = self.new.events } }
        ensures err { OnErr result (self.new ≡ self.old) }
    {
        let form = EventForm {
            kind: kind.share()?,
            bubbles,
            cancelable,
            trusted: actor.0 == 0,
            detail,
        };
        let number = self.events.create(form)?;
        Ok(Answer::Value(Value::Thing(Thing {
            kind: Kind::Event,
            number,
        })))
    }

    /// `type`.
    pub fn event_type(&self, thing: Thing) -> Mem<Answer>
        requires { thing.number < length self.now.events }
        ensures { (given : Origin) (stores : Stores) (i : AnyActor) → IfOk result (λ a. Is (event.read_row read.kind given (stage_of self.now stores) i thing []) a (stage_of self.now stores)) }
    {
        let kind = self.events.at(thing.number).form.kind.share()?;
        Ok(Answer::Value(Value::Str(kind)))
    }

    /// `target`.
    pub fn event_target(&self, thing: Thing) -> Answer
        requires { thing.number < length self.now.events }
        ensures { (given : Origin) (stores : Stores) (i : AnyActor) → Is (event.read_row read.target given (stage_of self.now stores) i thing []) result (stage_of self.now stores) }
    {
        Answer::Value(thing_or_null(self.events.target(thing.number)))
    }

    /// `currentTarget`.
    pub fn event_current_target(&self, thing: Thing) -> Answer
        requires { thing.number < length self.now.events }
        ensures { (given : Origin) (stores : Stores) (i : AnyActor) → Is (event.read_row read.current given (stage_of self.now stores) i thing []) result (stage_of self.now stores) }
    {
        Answer::Value(thing_or_null(self.events.current(thing.number)))
    }

    /// `eventPhase`.
    pub fn event_phase(&self, thing: Thing) -> Answer
        requires { thing.number < length self.now.events }
        ensures { (given : Origin) (stores : Stores) (i : AnyActor) → Is (event.read_row read.phase given (stage_of self.now stores) i thing []) result (stage_of self.now stores) }
    {
        Answer::Value(Value::Number(i64::from(self.events.phase(thing.number))))
    }

    /// `bubbles`.
    pub fn event_bubbles(&self, thing: Thing) -> Answer
        requires { thing.number < length self.now.events }
        ensures { (given : Origin) (stores : Stores) (i : AnyActor) → Is (event.read_row read.bubbles given (stage_of self.now stores) i thing []) result (stage_of self.now stores) }
    {
        Answer::Value(Value::Bool(self.events.at(thing.number).form.bubbles))
    }

    /// `cancelable`.
    pub fn event_cancelable(&self, thing: Thing) -> Answer
        requires { thing.number < length self.now.events }
        ensures { (given : Origin) (stores : Stores) (i : AnyActor) → Is (event.read_row read.cancelable given (stage_of self.now stores) i thing []) result (stage_of self.now stores) }
    {
        Answer::Value(Value::Bool(self.events.at(thing.number).form.cancelable))
    }

    /// `defaultPrevented`.
    pub fn event_default_prevented(&self, thing: Thing) -> Answer
        requires { thing.number < length self.now.events }
        ensures { (given : Origin) (stores : Stores) (i : AnyActor) → Is (event.read_row read.prevented given (stage_of self.now stores) i thing []) result (stage_of self.now stores) }
    {
        Answer::Value(Value::Bool(self.events.at(thing.number).prevented))
    }

    /// `isTrusted`.
    pub fn event_is_trusted(&self, thing: Thing) -> Answer
        requires { thing.number < length self.now.events }
        ensures { (given : Origin) (stores : Stores) (i : AnyActor) → Is (event.read_row read.trusted given (stage_of self.now stores) i thing []) result (stage_of self.now stores) }
    {
        Answer::Value(Value::Bool(self.events.at(thing.number).form.trusted))
    }

    /// `preventDefault`.
    pub fn prevent_default(&mut self, thing: Thing) -> Answer
        requires { thing.number < length self.old.events }
        ensures exact { (given : Origin) (stores : Stores) (i : AnyActor) → Is (event.change_row event_prevented given (stage_of self.old stores) i thing []) result (stage_of self.new stores) }
        ensures only { self.new ≡ record self.old { events = self.new.events } }
    {
        if self.events.at(thing.number).form.cancelable {
            self.events.raise(thing.number, Flag::Prevented);
        }
        Answer::Value(Value::Undefined)
    }

    /// `stopPropagation`.
    pub fn stop_propagation(&mut self, thing: Thing) -> Answer
        requires { thing.number < length self.old.events }
        ensures exact { (given : Origin) (stores : Stores) (i : AnyActor) → Is (event.change_row read.stopped given (stage_of self.old stores) i thing []) result (stage_of self.new stores) }
        ensures only { self.new ≡ record self.old { events = self.new.events } }
    {
        self.events.raise(thing.number, Flag::Stop);
        Answer::Value(Value::Undefined)
    }

    /// `stopImmediatePropagation`.
    pub fn stop_immediate_propagation(&mut self, thing: Thing) -> Answer
        requires { thing.number < length self.old.events }
        ensures exact { (given : Origin) (stores : Stores) (i : AnyActor) → Is (event.change_row read.stopped_now given (stage_of self.old stores) i thing []) result (stage_of self.new stores) }
        ensures only { self.new ≡ record self.old { events = self.new.events } }
    {
        self.events.raise(thing.number, Flag::StopNow);
        Answer::Value(Value::Undefined)
    }
}
