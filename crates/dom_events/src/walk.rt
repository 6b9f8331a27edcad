//! The walk of an event along its path (DOM, 2.9 Dispatching events): which listener is called next.

ghost use Rattle.std.specs.Prelude.{◌≡◌, ◌<◌, ◌≤◌, ◌+◌, ℕ, List, drop, length, option_map, position, OnErr, IfOk, IfSome, Ok, None, true, false, []};
ghost use Rattle.std.specs.declared.option.Option.{Option};
ghost use Rattle.dom_semantics.specs.declared.listeners.Visit.{Visit as AnyVisit};
ghost use Rattle.dom_semantics.specs.Events as event;
ghost use Rattle.dom_semantics.specs.Walks as spec;
ghost use Rattle.dom_events.specs.Progress.{going};
ghost use Rattle.dom_events.specs.Steps.{Steps, Proceeds, Ends, came_step, found_at};
ghost use Rattle.dom_semantics.specs.Walks.{is_number};

use crate::events::Events;
use crate::listeners::Listeners;
use crate::same::is_for;
use base_text::{Mem, Text};
use dom_semantics::{Due, Event, Registration, Visit};
use door::Thing;
use std::alloc::Global;
use std::marker::Model;

/// A walk: what is left of it, which contracts see as `Walk` of the definitions, and whether it has ended.
#[derive(Debug, Drop)]
pub struct Walk {
    event: u32,
    here: Visit,
    /// The numbers of the registrations that were copied at this visit, and how many had their turn.
    copied: Vec<u32>,
    at: usize,
    /// All visits, and how many have begun.
    visits: Vec<Visit>,
    next: usize,
    ended: bool,
    alloc: Global,
}

impl Model for Walk {
    ghost use Rattle.std.specs.Prelude.{drop, length, ◌≤◌};
    ghost use Rattle.dom_events.specs.Progress.{Progress};

    ghost Value = { Progress };

    ghost view = { λ w. record { left = record { event = w.event; here = w.here; copied = drop w.at w.copied.items; ahead = drop w.next w.visits.items }; ended = w.ended } };

    ghost invariant = { λ w. (w.at ≤ length w.copied.items) × (w.next ≤ length w.visits.items) };
}

impl Walk {
    /// Before the first of these visits.
    pub(crate) fn new(alloc: Global, event: u32, target: Thing, visits: Vec<Visit>) -> Walk
        ensures { result ≡ going (record { event = event; here = spec.visit_of 0 false target; copied = []; ahead = visits.items }) }
    {
        Walk {
            event,
            here: Visit {
                current: target,
                phase: 0,
                capture: false,
            },
            copied: Vec::new(alloc),
            at: 0,
            visits,
            next: 0,
            ended: false,
            alloc,
        }
    }

    /// The event that walks.
    pub fn event(&self) -> u32
        ensures { result ≡ self.now.left.event }
    {
        self.event
    }

    /// Advances to the listener that is due, if there is one.
    fn step(&mut self, registered: &[Registration], event: &Event) -> Mem<Option<Due>>
        ensures ok { IfOk result (λ due. Steps (spec.step_of registered.now event.now self.old.left) due self.old self.new) }
        ensures err { OnErr result (self.new ≡ self.old) }
    {
        if event.stop_now {
            return Ok(None);
        }
        if let Some((place, due)) = first_registered(
            registered,
            &self.copied[self.at..],
            self.here,
        ) {
            self.at += place + 1;
            return Ok(Some(due));
        }
        if event.stop {
            return Ok(None);
        }
        self.step_along(registered, &event.form.kind)
    }

    /// The same at the first visit ahead where one is due.
    fn step_along(&mut self, registered: &[Registration], kind: &Text) -> Mem<Option<Due>>
        ensures ok { IfOk result (λ due. Steps (spec.step_along registered.now kind.now self.old.left.event self.old.left.ahead) due self.old self.new) }
        ensures err { OnErr result (self.new ≡ self.old) }
    {
        match first_visit(self.alloc, registered, kind, &self.visits[self.next..])? {
            Some(came) => {
                self.here = came.due.visit;
                self.copied = came.copied;
                self.at = came.at + 1;
                self.next += came.place + 1;
                Ok(Some(came.due))
            }
            None => Ok(None),
        }
    }
}

/// The first visit where a listener is due: the visit's place, the numbers that were
/// copied there, the place among them, and what is due.
#[derive(Drop)]
pub(crate) struct Came {
    place: usize,
    copied: Vec<u32>,
    at: usize,
    due: Due,
}

/// The first of these visits at which a listener is due.
fn first_visit(
    alloc: Global,
    registered: &[Registration],
    kind: &Text,
    visits: &[Visit],
) -> Mem<Option<Came>>
    ensures found { IfOk result (λ came. (event : ℕ) → spec.step_along registered.now kind.now event visits.now ≡ option_map (came_step event visits.now) came) }
    ensures within { IfOk result (λ came. IfSome came (λ c. (c.place < length visits.now) × (c.at < length c.copied.items))) }
{
    for place in 0..visits.len() {
        let visit = visits[place];
        let copied = copied_at(alloc, registered, kind, visit)?;
        if let Some((at, due)) = first_registered(registered, &copied, visit) {
            return Ok(Some(Came {
                place,
                copied,
                at,
                due,
            }));
        }
    }
    Ok(None)
}

/// The numbers of the registrations that are copied at a visit.
fn copied_at(alloc: Global, registered: &[Registration], kind: &Text, visit: Visit) -> Mem<Vec<u32>>
    ensures { IfOk result (λ copied. copied.items ≡ spec.copied_at registered.now kind.now visit) }
{
    let mut copied = Vec::new(alloc);
    for a in registered {
        if is_for(kind, visit, &a.listener) {
            copied.push(a.number)?;
        }
    }
    Ok(copied)
}

/// The first of these registrations that hasn't been removed, by its place among them, and what is due there.
fn first_registered(
    registered: &[Registration],
    numbers: &[u32],
    here: Visit,
) -> Option<(usize, Due)>
    ensures found { spec.found_among registered.now here numbers.now ≡ option_map (found_at numbers.now) result }
    ensures within { IfSome result (λ r. r.0 < length numbers.now) }
    ensures visit { IfSome result (λ r. r.1.visit ≡ here) }
{
    for place in 0..numbers.len() {
        if let Some(at) = place_of(registered, numbers[place]) {
            return Some((place, due_at(here, &registered[at])));
        }
    }
    None
}

fn place_of(registered: &[Registration], number: u32) -> Option<usize>
    ensures { result ≡ position (is_number number) registered.now }
{
    registered.iter().position(|a| a.number == number)
}

fn due_at(here: Visit, a: &Registration) -> Due
    ensures { result ≡ spec.due_at here a.now }
{
    Due {
        owner: a.listener.owner,
        callback: a.listener.callback,
        visit: here,
    }
}

/// Advances to the listener that is due: the event's current target and phase become those of its visit.
/// At the end of the walk there is none, and the event's flags are cleared (DOM, dispatch, steps 6 to 10). A walk that
/// has ended stays at its end: a further call answers None and changes nothing. Where there is no memory, nothing
/// changes. Each visit costs the registered listeners of the page.
pub fn next_listener(
    walk: &mut Walk,
    listeners: &Listeners,
    events: &mut Events,
) -> Mem<Option<Due>>
    requires { walk.old.left.event < length events.old }
    ensures ok { walk.old.ended ≡ false → IfOk result (λ due. Proceeds (spec.step_of listeners.now.registered (event.event_at events.old walk.old.left.event) walk.old.left) due walk.old walk.new events.old events.new) }
    ensures ended { walk.old.ended ≡ false → IfOk result (λ due. Ends (spec.step_of listeners.now.registered (event.event_at events.old walk.old.left.event) walk.old.left) due (event.event_at events.new walk.old.left.event)) }
    ensures again { walk.old.ended ≡ true → (result ≡ Ok None) × (walk.new ≡ walk.old) × (events.new ≡ events.old) }
    ensures err { OnErr result (walk.new ≡ walk.old) }
    ensures events { OnErr result (events.new ≡ events.old) }
{
    if walk.ended {
        return Ok(None);
    }
    let number = walk.event();
    match walk.step(listeners.as_slice(), events.at(number))? {
        Some(due) => {
            events.visit(number, due.visit);
            Ok(Some(due))
        }
        None => {
            walk.ended = true;
            events.end(number);
            Ok(None)
        }
    }
}
