//! The names of a scope and their values (ECMAScript, 9.1.1.1 Declarative Environment Records).

ghost use Rattle.std.specs.Prelude.{◌≡◌, [], OnOk, OnErr};
ghost use Rattle.std.specs.Option.{option_copied};
ghost use Rattle.js_objects.specs.SlotsModel.{name_index, name_in, name_put};

use crate::values::Slot;
use base_text::{Mem, Text};
use std::alloc::Global;
use std::marker::Model;

/// A name of a scope, and its value.
#[derive(Drop)]
pub struct Binding {
    pub name: Text,
    pub value: Slot,
}

/// Names and their values, in order of their adding. Contracts see them as their list.
#[derive(Drop)]
pub struct Bindings {
    bound: Vec<Binding>,
}

impl Model for Bindings {
    ghost use Rattle.std.specs.Prelude.{List};
    ghost use Rattle.js_objects.specs.declared.bindings.Binding.{Binding};

    ghost Value = { List Binding };

    ghost view = { λ b. b.bound.items };
}

impl Bindings {
    /// None yet.
    pub(crate) fn new(alloc: Global) -> Bindings
        ensures { result ≡ [] }
    {
        Bindings {
            bound: Vec::new(alloc),
        }
    }

    /// The value of a name.
    pub(crate) fn find(&self, name: &Text) -> Option<&Slot>
        ensures { option_copied result ≡ name_in name.now self.now }
    {
        let at = place_among(&self.bound, name);
        if at < self.bound.len() {
            Some(&self.bound[at].value)
        } else {
            None
        }
    }

    /// A name's value: in the place of one that stands, or last.
    pub(crate) fn put(&mut self, name: &Text, value: Slot) -> Mem<()>
        ensures ok { OnOk result (self.new ≡ name_put name.now value self.old) }
        ensures err { OnErr result (self.new ≡ self.old) }
    {
        let at = place_among(&self.bound, name);
        if at < self.bound.len() {
            self.bound[at].value = value;
            return Ok(());
        }
        let name = name.share()?;
        self.bound.push(Binding { name, value })?;
        Ok(())
    }
}

/// Where a name stands, and the number of names where it doesn't.
fn place_among(bound: &[Binding], name: &Text) -> usize
    ensures { result ≡ name_index name.now bound.now }
{
    for (at, x) in bound.iter().enumerate() {
        if x.name == *name {
            return at;
        }
    }
    bound.len()
}
