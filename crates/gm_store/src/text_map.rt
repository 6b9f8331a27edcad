//! A finite map from texts, so that contracts speak of maps and no longer of trees.
ghost use Rattle.std.specs.Prelude.{◌≡◌, option_map, OnOk, OnErr, IfOk};
ghost use Rattle.std.specs.Option.{option_copied};
ghost use Rattle.std.specs.FinMap as map;
ghost use Rattle.base_text.specs.Scalars.{text_cmp};

use base_text::{Mem, Text};
use std::alloc::Global;
use std::collections::BTreeMap;
use std::collections::btree_map::Iter;
use std::marker::Model;

/// A finite map from texts, in byte order of its keys, which contracts see as the map.
#[derive(Drop)]
pub struct TextMap<V> {
    pub(crate) tree: BTreeMap<Text, V>,
}

impl<V> Model for TextMap<V> {
    ghost use Rattle.std.specs.FinMap as map;
    ghost use Rattle.std.specs.Coded.{coded_ℕ, coded_list};
    ghost use Rattle.base_text.specs.Scalars.{text_cmp};

    ghost Value = { map.FinMap text_cmp V };

    ghost coded = { map.code (coded_list coded_ℕ) V.code };

    ghost view = { λ a. map.from_entries a.tree.entries };
}

impl<V> TextMap<V> {
    ghost use Rattle.std.specs.Borrow.{LendsIf, sem};
    ghost use Rattle.std.specs.Option.{option_copied_mut};
    ghost use Rattle.gm_store.specs.contracts.text_map.TextMap.{the_row};

    /// The empty map.
    pub fn new(alloc: Global) -> TextMap<V>
        ensures { result ≡ map.empty }
    {
        TextMap {
            tree: BTreeMap::new(alloc),
        }
    }

    /// The value at a key.
    pub fn get(&self, key: &Text) -> Option<&V>
        ensures { option_copied result ≡ map.get self.now key.now }
    {
        self.tree.get(key)
    }

    /// The value at a key, to be changed.
    pub fn get_mut(&mut self, key: &Text) -> Option<&mut V>
        ensures* writes_back { sem 𝓛 (LendsIf (the_row V.row) V.row self.entry result (map.insert self.old key.now) self.old) }
        ensures value { option_copied_mut result ≡ map.get self.old key.now }
    {
        self.tree.get_mut(key)
    }

    /// The keys with their values, in byte order of the keys.
    pub fn iter(&self) -> Iter<'_, Text, V>
        ensures { result ≡ map.entries self.now }
    {
        self.tree.iter()
    }

    /// The keys, in byte order.
    pub fn keys(&self, alloc: Global) -> Mem<Vec<Text>>
        ensures { IfOk result (λ keys. keys.items ≡ map.keys self.now) }
    {
        let mut keys = Vec::new(alloc);
        for (key, _) in self.iter() {
            keys.push(key.share()?)?;
        }
        Ok(keys)
    }

    /// How many keys there are.
    pub fn len(&self) -> usize
        ensures { result ≡ map.len self.now }
    {
        self.tree.len()
    }

    /// Puts a value at a key, and answers the one that was there.
    pub fn insert(&mut self, key: Text, value: V) -> Mem<Option<V>>
    where
        V: Drop,
        ensures before { IfOk result (λ before. before ≡ map.get self.old key) }
        ensures ok { OnOk result (self.new ≡ map.insert self.old key value) }
        ensures err { OnErr result (self.new ≡ self.old) }
    {
        Ok(self.tree.insert(key, value)?)
    }

    /// Takes a key and its value away, and answers the value.
    pub fn remove(&mut self, key: &Text) -> Option<V>
        ensures before { result ≡ map.get self.old key.now }
        ensures after { self.new ≡ map.remove self.old key.now }
    {
        self.tree.remove(key)
    }
}
