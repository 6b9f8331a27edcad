//! Members of Window (HTML, 7.2.2 The Window object, 8.6 Timers).

ghost use Rattle.std.specs.Prelude.{◌≡◌, ◌<◌, ◌^◌, ◌∷◌, IfOk, OnErr, pos, []};
ghost use Rattle.door.specs.declared.values.Actor.{Actor as AnyActor};
ghost use Rattle.door.specs.declared.values.Shape.{Shape};
ghost use Rattle.door.specs.declared.values.Thing.{Thing as AnyThing};
ghost use Rattle.door.specs.declared.values.Value.{Value as AnyValue};
ghost use Rattle.door.specs.declared.values.Value.TheVariants as value;
ghost use Rattle.std.specs.Prelude.{Bool};
ghost use Rattle.dom_semantics.specs.Reply.{Is};
ghost use Rattle.dom_semantics.specs.Stage.{Origin};
ghost use Rattle.dom_semantics.specs.Stores.{Stores};
ghost use Rattle.dom_semantics.specs.Timers.{delay_of, next_number};
ghost use Rattle.dom_semantics.specs.WindowReplies as window;
ghost use Rattle.dom_stage.specs.Held.{stage_of};

use crate::stage::Stage;
use base_text::{Mem, NoMemory};
use door::{Actor, Answer, DOCUMENT, ErrorKind, Value, WINDOW};
use timers::TimerFault;

impl Stage {
    /// `document`.
    pub fn document(&self) -> Answer
        ensures { (given : Origin) (stores : Stores) (i : AnyActor) (thing : AnyThing) → Is (window.document_row given (stage_of self.now stores) i thing []) result (stage_of self.now stores) }
    {
        let _same = &self.address;
        Answer::Value(Value::Thing(DOCUMENT))
    }

    /// `window` and `self`.
    pub fn window(&self) -> Answer
        ensures { (given : Origin) (stores : Stores) (i : AnyActor) (thing : AnyThing) → Is (window.window_row given (stage_of self.now stores) i thing []) result (stage_of self.now stores) }
    {
        let _same = &self.address;
        Answer::Value(Value::Thing(WINDOW))
    }

    /// `setTimeout` of a callback, by its place, and of a delay in milliseconds that is read already.
    pub fn set_timeout(&mut self, actor: Actor, place: u32, delay: u32) -> Mem<Answer>
        requires clock { self.old.timers.clock < 2 ^ 63 }
        requires number { next_number self.old.timers actor < 2 ^ 32 }
        ensures exact { (given : Origin) (stores : Stores) (thing : AnyThing) (owner : AnyActor) (shape : Shape) (waived : Bool) (ms : AnyValue) → delay_of ms ≡ delay → IfOk result (λ a. Is (window.set_timeout_row given (stage_of self.old stores) actor thing (value.Cell owner place shape waived ∷ (ms ∷ []))) a (stage_of self.new stores)) }
        ensures only { self.new ≡ record self.old { timers = self.new.timers } }
        ensures err { OnErr result (self.new ≡ self.old) }
    {
        match self.timers.set(actor, delay, place) {
            Ok(number) => Ok(Answer::Value(Value::Number(i64::from(number)))),
            Err(TimerFault::TimerLimit) => Ok(Answer::Throw(ErrorKind::Limit)),
            Err(TimerFault::NoMemory) => Err(NoMemory),
        }
    }

    /// `clearTimeout` of a number.
    pub fn clear_timeout(&mut self, actor: Actor, number: u32) -> Answer
        ensures exact { (given : Origin) (stores : Stores) (thing : AnyThing) → Is (window.clear_timeout_row given (stage_of self.old stores) actor thing (value.Number (pos number) ∷ [])) result (stage_of self.new stores) }
        ensures only { self.new ≡ record self.old { timers = self.new.timers } }
    {
        self.timers.clear(actor, number);
        Answer::Value(Value::Undefined)
    }
}
