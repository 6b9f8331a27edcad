//! The properties of a cell under their keys, in order of insertion (ECMAScript, 10.1).

ghost use Rattle.std.specs.Prelude.{◌≡◌, ◌++◌, [], OnOk, OnErr, is_some};
ghost use Rattle.std.specs.Option.{option_copied};
ghost use Rattle.js_objects.specs.SlotsModel.{index_of, prop_in, put_in, taken_from, enumerable_in, prop_enumerable};

use crate::values::Prop;
use base_text::{Mem, Text};
use std::alloc::Global;
use std::marker::Model;

/// A property under its key.
#[derive(Drop)]
pub struct KeyedProp {
    pub key: Text,
    pub prop: Prop,
}

/// Properties in order of insertion. Contracts see them as their list.
#[derive(Drop)]
pub struct Slots {
    props: Vec<KeyedProp>,
}

impl Model for Slots {
    ghost use Rattle.std.specs.Prelude.{List};
    ghost use Rattle.js_objects.specs.declared.slots.KeyedProp.{KeyedProp};

    ghost Value = { List KeyedProp };

    ghost view = { λ s. s.props.items };
}

impl Slots {
    /// None yet.
    pub(crate) fn new(alloc: Global) -> Slots
        ensures { result ≡ [] }
    {
        Slots {
            props: Vec::new(alloc),
        }
    }

    /// The property under a key.
    pub(crate) fn find(&self, key: &Text) -> Option<&Prop>
        ensures { option_copied result ≡ prop_in key.now self.now }
    {
        let at = place_among(&self.props, key);
        if at < self.props.len() {
            Some(&self.props[at].prop)
        } else {
            None
        }
    }

    /// A property under a key: in the place of one that stands, or last.
    pub(crate) fn put(&mut self, key: &Text, prop: Prop) -> Mem<()>
        ensures ok { OnOk result (self.new ≡ put_in key.now prop self.old) }
        ensures err { OnErr result (self.new ≡ self.old) }
    {
        let at = place_among(&self.props, key);
        if at < self.props.len() {
            self.props[at].prop = prop;
            return Ok(());
        }
        let key = key.share()?;
        self.props.push(KeyedProp { key, prop })?;
        Ok(())
    }

    /// Takes the property under a key out, and answers whether there was one.
    pub(crate) fn take(&mut self, key: &Text) -> bool
        ensures there { result ≡ is_some (prop_in key.now self.old) }
        ensures rest { self.new ≡ taken_from key.now self.old }
    {
        let at = place_among(&self.props, key);
        if at < self.props.len() {
            self.props.remove(at);
            true
        } else {
            false
        }
    }

    /// Adds the enumerable keys in order.
    pub(crate) fn push_keys(&self, keys: &mut Vec<Text>) -> Mem<()>
        ensures { OnOk result (keys.new.items ≡ keys.old.items ++ enumerable_in self.now) }
    {
        push_enumerable(&self.props, keys)
    }
}

/// Where a key stands, and the number of properties where it doesn't.
fn place_among(props: &[KeyedProp], key: &Text) -> usize
    ensures { result ≡ index_of key.now props.now }
{
    for (at, x) in props.iter().enumerate() {
        if x.key == *key {
            return at;
        }
    }
    props.len()
}

fn push_enumerable(props: &[KeyedProp], keys: &mut Vec<Text>) -> Mem<()>
    ensures { OnOk result (keys.new.items ≡ keys.old.items ++ enumerable_in props.now) }
{
    for x in props {
        if is_enumerable(&x.prop) {
            keys.push(x.key.share()?)?;
        }
    }
    Ok(())
}

fn is_enumerable(prop: &Prop) -> bool
    ensures { result ≡ prop_enumerable prop.now }
{
    match prop {
        Prop::Slot { enumerable, .. } => *enumerable,
        Prop::Accessor { enumerable, .. } => *enumerable,
    }
}
