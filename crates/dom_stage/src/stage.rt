//! What the stage holds.

ghost use Rattle.std.specs.Prelude.{◌≡◌, ◌+◌, ◌++◌, ◌∷◌, length, IfOk, OnOk, OnErr, []};
ghost use Rattle.dom_stage.specs.Held.{at_start};

use base_text::{Mem, Text};
use dom_events::{Events, Listeners};
use dom_semantics::{Owner, Readiness};
use dom_tree::Tree;
use door::{Actor, List};
use gm_store::Stores;
use std::alloc::Global;
use std::marker::Model;
use timers::Timers;

/// All that scripts can ask about. Contracts see it as `Held`.
#[derive(Drop)]
pub struct Stage {
    pub(crate) alloc: Global,
    pub(crate) address: Text,
    pub(crate) owners: List<Owner>,
    pub(crate) tree: Tree,
    pub(crate) listeners: Listeners,
    pub(crate) events: Events,
    pub(crate) timers: Timers,
    pub(crate) readiness: Readiness,
    pub(crate) stores: Stores,
    /// The actors of the dispatches that haven't come back, the innermost first.
    pub(crate) dispatching: Vec<Actor>,
    /// The actors of the dispatches that were made in this turn.
    pub(crate) dispatched: Vec<Actor>,
}

impl Model for Stage {
    ghost use Rattle.dom_stage.specs.Held.{Held, held_code};

    ghost Value = { Held };

    ghost coded = { held_code };

    ghost view = { λ s. record {
      address = s.address;
      owners = s.owners;
      nodes = s.tree;
      listeners = s.listeners;
      events = s.events;
      timers = s.timers;
      readiness = s.readiness;
      stores = s.stores;
      dispatching = s.dispatching.items;
      dispatched = s.dispatched.items;
    } };
}

impl Stage {
    /// The stage before anything, of a page of this address and with what is kept.
    pub fn new(alloc: Global, address: &Text, stores: Stores) -> Mem<Stage>
        ensures { IfOk result (λ s. s ≡ at_start address.now stores) }
    {
        Ok(Stage {
            alloc,
            address: address.share()?,
            owners: List::new(alloc),
            tree: Tree::new(alloc)?,
            listeners: Listeners::new(alloc),
            events: Events::new(alloc),
            timers: Timers::new(alloc),
            readiness: Readiness::Loading,
            stores,
            dispatching: Vec::new(alloc),
            dispatched: Vec::new(alloc),
        })
    }

    /// The next userscript's values are those under this namespace and name; actors from 2 on are userscripts.
    pub fn add_owner(&mut self, actor: Actor, namespace: &Text, name: &Text) -> Mem<()>
        requires { actor.0 ≡ 2 + length self.old.owners }
        ensures ok { OnOk result (self.new ≡ record self.old { owners = self.old.owners ++ record { namespace = namespace.now; name = name.now } ∷ [] }) }
        ensures err { OnErr result (self.new ≡ self.old) }
    {
        let _next = actor;
        let owner = Owner {
            namespace: namespace.share()?,
            name: name.share()?,
        };
        self.owners.push(owner)
    }

    /// The document's nodes. It takes no memory.
    pub fn tree(&self) -> &Tree
        ensures { result.now ≡ self.now.nodes }
    {
        &self.tree
    }

    /// What userscripts keep. It takes no memory.
    pub fn stores(&self) -> &Stores
        ensures { result.now ≡ self.now.stores }
    {
        &self.stores
    }
}
