//! The actors of a run beside the host, in the order of their making.

ghost use Rattle.std.specs.Prelude.{◌≡◌, ◌+◌, ◌≤◌, ◌++◌, ◌∷◌, [], length, OnOk, OnErr, IfOk};
ghost use Rattle.std.specs.Option.{option_copied};
ghost use Rattle.compartments.specs.Actors.{zone_at, principal_at};

use crate::principals::Principal;
use base_text::Mem;
use door::{Actor, USERSCRIPT_LIMIT, Zone};
use std::alloc::Global;
use std::marker::Model;

/// What an actor is, and on whose behalf it acts.
#[derive(Debug, Drop)]
pub struct Compartment {
    pub zone: Zone,
    pub principal: Principal,
}

/// The actors beside the host, which contracts see as the list of their compartments: the page first, and then its
/// userscripts. There are at most as many as the page and the userscripts of a run.
#[derive(Debug, Drop)]
pub struct Compartments {
    all: Vec<Compartment>,
}

impl Model for Compartments {
    ghost use Rattle.std.specs.Prelude.{List, ◌+◌, ◌≤◌, length};
    ghost use Rattle.door.specs.declared.limits.TheConstants.{USERSCRIPT_LIMIT};
    ghost use Rattle.compartments.specs.declared.compartments.Compartment.{Compartment as AnyCompartment};

    ghost Value = { List AnyCompartment };

    ghost view = { λ c. c.all.items };

    ghost invariant = { λ c. length c.all.items ≤ USERSCRIPT_LIMIT + 1 };
}

impl Compartments {
    /// No actor beside the host. It takes no memory.
    pub fn new(alloc: Global) -> Compartments
        ensures { result ≡ [] }
    {
        Compartments {
            all: Vec::new(alloc),
        }
    }

    /// Adds the next actor, and answers its number, which counts from 1. Where there was no memory for it, nothing is
    /// changed.
    pub fn add(&mut self, zone: Zone, principal: Principal) -> Mem<Actor>
        requires { length self.old ≤ USERSCRIPT_LIMIT }
        ensures ok { OnOk result (self.new ≡ self.old ++ record { zone = zone; principal = principal } ∷ []) }
        ensures number { IfOk result (λ a. a.0 ≡ length self.old + 1) }
        ensures err { OnErr result (self.new ≡ self.old) }
    {
        self.all.push(Compartment { zone, principal })?;
        Ok(Actor(self.all.len() as u32))
    }

    /// How many actors there are beside the host. It takes no memory.
    pub fn count(&self) -> u32
        ensures exact { result ≡ length self.now }
        ensures limit { result ≤ USERSCRIPT_LIMIT + 1 }
    {
        self.all.len() as u32
    }

    /// The zone of an actor; none exactly where there is no such actor. The host is there from the start. It takes no
    /// memory.
    pub fn zone(&self, actor: Actor) -> Option<Zone>
        ensures { result ≡ zone_at self.now actor }
    {
        if actor.0 == 0 {
            return Some(Zone::Host);
        }
        self.all.get(actor.0 as usize - 1).map(|c| c.zone)
    }

    /// The principal of an actor; none exactly where there is no such actor, and for the host, which acts for itself.
    /// It takes no memory.
    pub fn principal(&self, actor: Actor) -> Option<&Principal>
        ensures { option_copied result ≡ principal_at self.now actor }
    {
        if actor.0 == 0 {
            return None;
        }
        self.all.get(actor.0 as usize - 1).map(|c| &c.principal)
    }
}
