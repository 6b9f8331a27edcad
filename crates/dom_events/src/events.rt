//! Events under the numbers of their making (DOM, 2.2 Interface Event): their fields, flags and dispatch.

ghost use Rattle.std.specs.Prelude.{◌≡◌, ◌↔◌, ◌<◌, ◌-◌, ◌^◌, ◌++◌, ◌∷◌, length, true, IfOk, OnOk, OnErr, IsErrOf, []};
ghost use Rattle.dom_semantics.specs.Events as spec;
ghost use Rattle.dom_semantics.specs.Walks.{walk_begun};
ghost use Rattle.dom_semantics.specs.declared.events.Flag.TheVariants.{Prevented as ThePrevented};
ghost use Rattle.dom_events.specs.Flags as flags;
ghost use Rattle.dom_events.specs.Progress.{going};
ghost use Rattle.dom_events.specs.Targets.{HasTarget};

use crate::path::visits;
use crate::walk::Walk;
use base_text::{Mem, NoMemory};
use dom_semantics::{Event, EventForm, Flag, Visit};
use dom_tree::Tree;
use door::Thing;
use std::alloc::{AllocFailed, Global};
use std::marker::Model;

/// Why an event isn't dispatched.
#[derive(Clone, Copy, Debug, PartialEq, Eq)]
pub enum EventFault {
    /// It is in dispatch.
    Busy,
    /// There was no memory for its walk.
    NoMemory,
}

impl From<NoMemory> for EventFault {
    ghost use Rattle.std.specs.Prelude.{◌≡◌};
    ghost use Rattle.dom_events.specs.declared.events.EventFault.TheVariants.{NoMemory};

    ghost from_gives = { λ _ e. e ≡ NoMemory };

    fn from(_error: NoMemory) -> EventFault {
        EventFault::NoMemory
    }
}

/// Events in the order of their making, which contracts see as their list.
#[derive(Debug, Drop)]
pub struct Events {
    pub(crate) events: Vec<Event>,
}

impl Model for Events {
    ghost use Rattle.std.specs.Prelude.{List};
    ghost use Rattle.dom_semantics.specs.declared.events.Event.{Event};

    ghost Value = { List Event };

    ghost view = { λ e. e.events.items };
}

impl Events {
    /// None yet. It takes no memory.
    pub fn new(alloc: Global) -> Events
        ensures { result ≡ [] }
    {
        Events {
            events: Vec::new(alloc),
        }
    }

    /// The event of a number.
    pub fn at(&self, event: u32) -> &Event
        requires { event < length self.now }
        ensures { result.now ≡ spec.event_at self.now event }
    {
        &self.events[event as usize]
    }

    /// Makes an event, and answers its number (DOM, inner event creation steps). Where there is no memory, nothing
    /// changes.
    pub fn create(&mut self, e: EventForm) -> Mem<u32>
        requires { length self.old < 2 ^ 32 - 1 }
        ensures ok { OnOk result (self.new ≡ self.old ++ spec.new_event e ∷ []) }
        ensures number { IfOk result (λ n. n ≡ length self.old) }
        ensures err { OnErr result (self.new ≡ self.old) }
    {
        let number = self.events.len() as u32;
        self.events.push(Event {
            form: e,
            stop: false,
            stop_now: false,
            prevented: false,
            in_dispatch: false,
            target: None,
            current: None,
            phase: 0,
        })?;
        Ok(number)
    }

    /// Begins the walk of an event at a target (DOM, dispatchEvent and dispatch). A script's dispatch makes the event
    /// untrusted. It is refused as Busy exactly where the event is in dispatch, and as NoMemory where there was no
    /// memory for the walk; a refusal changes nothing.
    pub fn begin(
        &mut self,
        alloc: Global,
        tree: &Tree,
        event: u32,
        target: Thing,
        by_script: bool,
    ) -> Result<Walk, EventFault>
        requires event { event < length self.old }
        requires target { HasTarget tree.now target }
        ensures walk { IfOk result (λ w. w ≡ going (walk_begun tree.now event target (spec.event_at self.old event).form.bubbles)) }
        ensures events { OnOk result (self.new ≡ spec.with_event self.old event (spec.event_begun target by_script (spec.event_at self.old event))) }
        ensures err { OnErr result (self.new ≡ self.old) }
        ensures busy { IsErrOf result EventFault.Busy ↔ ((spec.event_at self.old event).in_dispatch ≡ true) }
    {
        if self.events[event as usize].in_dispatch {
            return Err(EventFault::Busy);
        }
        let bubbles = self.events[event as usize].form.bubbles;
        let visits = visits(alloc, tree, target, bubbles)?;
        let begun = &mut self.events[event as usize];
        begun.form.trusted = begun.form.trusted && !by_script;
        begun.in_dispatch = true;
        begun.target = Some(target);
        Ok(Walk::new(alloc, event, target, visits))
    }

    /// What the event was made with; whether it is trusted may have changed since.
    pub fn form(&self, event: u32) -> &EventForm
        requires { event < length self.now }
        ensures { result.now ≡ (spec.event_at self.now event).form }
    {
        &self.events[event as usize].form
    }

    /// Its target, from its first dispatch on.
    pub fn target(&self, event: u32) -> Option<Thing>
        requires { event < length self.now }
        ensures { result ≡ (spec.event_at self.now event).target }
    {
        self.events[event as usize].target
    }

    /// The thing whose listener runs.
    pub fn current(&self, event: u32) -> Option<Thing>
        requires { event < length self.now }
        ensures { result ≡ (spec.event_at self.now event).current }
    {
        self.events[event as usize].current
    }

    /// Its phase: 1 capturing, 2 at the target, 3 bubbling, 0 where no listener of it runs (DOM, eventPhase).
    pub fn phase(&self, event: u32) -> u32
        requires { event < length self.now }
        ensures { result ≡ (spec.event_at self.now event).phase }
    {
        self.events[event as usize].phase
    }

    /// Whether it is in dispatch.
    pub fn in_dispatch(&self, event: u32) -> bool
        requires { event < length self.now }
        ensures { result ≡ (spec.event_at self.now event).in_dispatch }
    {
        self.events[event as usize].in_dispatch
    }

    /// Whether a flag is set.
    pub fn flag(&self, event: u32, f: Flag) -> bool
        requires { event < length self.now }
        ensures { result ≡ flags.flag_of f (spec.event_at self.now event) }
    {
        let event = &self.events[event as usize];
        match f {
            Flag::Stop => event.stop,
            Flag::StopNow => event.stop_now,
            Flag::Prevented => event.prevented,
        }
    }

    /// Sets a flag. Prevented is set only on a cancelable event. It takes no memory.
    pub fn raise(&mut self, event: u32, f: Flag)
        requires event { event < length self.old }
        requires cancelable { f ≡ ThePrevented → (spec.event_at self.old event).form.cancelable ≡ true }
        ensures { self.new ≡ spec.with_event self.old event (flags.raised f (spec.event_at self.old event)) }
    {
        let event = &mut self.events[event as usize];
        match f {
            Flag::Stop => event.stop = true,
            Flag::StopNow => event.stop_now = true,
            Flag::Prevented => event.prevented = true,
        }
    }

    /// A listener is called at a visit.
    pub(crate) fn visit(&mut self, event: u32, visit: Visit)
        requires { event < length self.old }
        ensures { self.new ≡ spec.with_event self.old event (spec.event_visiting visit (spec.event_at self.old event)) }
    {
        let event = &mut self.events[event as usize];
        event.current = Some(visit.current);
        event.phase = visit.phase;
    }

    /// Its walk has ended.
    pub(crate) fn end(&mut self, event: u32)
        requires { event < length self.old }
        ensures { self.new ≡ spec.with_event self.old event (spec.event_ended (spec.event_at self.old event)) }
    {
        let event = &mut self.events[event as usize];
        event.stop = false;
        event.stop_now = false;
        event.in_dispatch = false;
        event.current = None;
        event.phase = 0;
    }
}
