//! Event listener lists (DOM, 2.7 Interface EventTarget): what is registered, and the calls that change it.

ghost use Rattle.std.specs.Prelude.{◌≡◌, ◌↔◌, ◌<◌, ◌-◌, ◌^◌, true, OnOk, OnErr, IsOk, IsErrOf};
ghost use Rattle.std.specs.declared.option.Option.TheVariants.{Some};
ghost use Rattle.door.specs.declared.requests.ErrorKind.TheVariants.{Limit};
ghost use Rattle.dom_semantics.specs.Listeners as spec;

use crate::same::is_same_listener;
use dom_semantics::{Listener, Registration};
use door::{Actor, LISTENER_LIMIT};
use std::alloc::{AllocFailed, Global};
use std::marker::Model;

/// Why a listener isn't added.
#[derive(Clone, Copy, Debug, PartialEq, Eq)]
pub enum ListenerFault {
    /// Its owner has as many as the limit.
    ListenerLimit,
    /// There was no memory for it.
    NoMemory,
}

impl<T: Drop> From<AllocFailed<T>> for ListenerFault {
    ghost use Rattle.std.specs.Prelude.{◌≡◌};
    ghost use Rattle.dom_events.specs.declared.listeners.ListenerFault.TheVariants.{NoMemory};

    ghost from_gives = { λ _ e. e ≡ NoMemory };

    fn from(_error: AllocFailed<T>) -> ListenerFault {
        ListenerFault::NoMemory
    }
}

/// The registered listeners, in the order of their adding. Contracts see it as `Listeners` of the
/// definitions.
#[derive(Debug, Drop)]
pub struct Listeners {
    registered: Vec<Registration>,
    pub(crate) given: u32,
}

impl Model for Listeners {
    ghost use Rattle.dom_semantics.specs.Listeners as spec;

    ghost Value = { spec.Listeners };

    ghost view = { λ l. record { registered = l.registered.items; given = l.given } };
}

impl Listeners {
    /// None yet. It takes no memory.
    pub fn new(alloc: Global) -> Listeners
        ensures { result ≡ spec.no_listeners }
    {
        Listeners {
            registered: Vec::new(alloc),
            given: 0,
        }
    }

    /// Adds a listener at the end (DOM, add an event listener). Where an equal one is registered, it isn't refused, and
    /// nothing changes. It is refused as ListenerLimit exactly where its owner has 10,000 and no equal one is
    /// registered, and as NoMemory where there was no memory; a refusal changes nothing.
    pub fn add(&mut self, l: Listener) -> Result<(), ListenerFault>
        requires { self.old.given < 2 ^ 32 - 1 }
        ensures ok { OnOk result (self.new ≡ spec.listener_added self.old l) }
        ensures err { OnErr result (self.new ≡ self.old) }
        ensures limit { IsErrOf result ListenerFault.ListenerLimit ↔ (spec.add_refusal self.old l ≡ Some Limit) }
        ensures again { spec.is_registered self.old.registered l ≡ true → IsOk result }
    {
        if is_registered(&self.registered, &l) {
            return Ok(());
        }
        if !has_room(&self.registered, l.owner) {
            return Err(ListenerFault::ListenerLimit);
        }
        self.registered.push(Registration {
            number: self.given,
            listener: l,
        })?;
        self.given += 1;
        Ok(())
    }

    /// Removes the equal listener, and answers whether there was one (DOM, remove an event listener). It takes no
    /// memory.
    pub fn remove(&mut self, l: &Listener) -> bool
        ensures removed { self.new ≡ spec.listener_removed self.old l.now }
        ensures there { result ≡ spec.is_registered self.old.registered l.now }
    {
        let there = is_registered(&self.registered, l);
        self.registered
            .retain(|a| !is_same_listener(&a.listener, l));
        there
    }

    /// All that are registered, in order.
    pub fn as_slice(&self) -> &[Registration]
        ensures { result.now ≡ self.now.registered }
    {
        self.registered.as_slice()
    }
}

/// Whether an equal listener is registered.
fn is_registered(registered: &[Registration], l: &Listener) -> bool
    ensures { result ≡ spec.is_registered registered.now l.now }
{
    registered.iter().any(|a| is_same_listener(&a.listener, l))
}

/// Whether an owner has fewer listeners than the limit.
fn has_room(registered: &[Registration], owner: Actor) -> bool
    ensures { result ≡ spec.has_room registered.now owner }
{
    let mut count = 0;
    for a in registered {
        if a.listener.owner.0 == owner.0 {
            count += 1;
        }
    }
    count < LISTENER_LIMIT as usize
}
