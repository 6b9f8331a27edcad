//! What all scripts keep, and the calls that read and change it.
ghost use Rattle.base_text.specs.Scalars.{text_cmp};
ghost use Rattle.base_text.specs.declared.memory.OrMemory.TheVariants.{Fault};
ghost use Rattle.gm_store.specs.Limits.{IsShort, KeptFits};
ghost use Rattle.gm_store.specs.Maps.{values_in, value_at, with_value, without_value};
ghost use Rattle.gm_store.specs.Stored.{Loads, IsRefused};
ghost use Rattle.gm_store.specs.Written.{stored_text, LoadsBack};
ghost use Rattle.std.specs.FinMap as map;
ghost use Rattle.std.specs.List.Sorted.{IsStrictlySortedBy};
ghost use Rattle.std.specs.Option.{option_copied};
ghost use Rattle.std.specs.Prelude.{◌≡◌, ◌≤◌, ◌↔◌, is_some, unwrap_or, OnOk, OnErr, IfOk, IsErrOf};

use crate::load::{Misread, read_stored};
use crate::text_map::TextMap;
use crate::written::stored_value;
use base_text::{Mem, NoMemory, OrMemory, Text};
use dom_semantics::{Kept, VALUE_LIMIT};
use serde_json::Value;
use std::alloc::Global;
use std::marker::Model;

/// Why a value isn't set.
#[derive(Clone, Copy, Debug, PartialEq, Eq)]
pub enum SetFault {
    /// The name is new, and the script keeps 1,000 values.
    ValueLimit,
    /// No memory was found.
    NoMemory,
}

impl From<NoMemory> for SetFault {
    ghost use Rattle.std.specs.Prelude.{◌≡◌};
    ghost use Rattle.gm_store.specs.declared.stores.SetFault.TheVariants.{NoMemory};

    ghost from_gives = { λ _ e. e ≡ NoMemory };

    fn from(_error: NoMemory) -> SetFault {
        SetFault::NoMemory
    }
}

/// Why bytes aren't loaded, for another reason than memory.
#[derive(Clone, Copy, Debug, PartialEq, Eq, Drop)]
pub enum StoreKind {
    /// They are no JSON text.
    NotJson,
    /// They are a JSON text, and not of the stored form.
    BadShape,
}

/// Why bytes aren't loaded.
pub type StoreFault = OrMemory<StoreKind>;

/// The values of one script.
pub(crate) type Values = TextMap<Kept>;

/// The values of the scripts of one namespace.
pub(crate) type Names = TextMap<Values>;

/// The values of all scripts, a finite map for each namespace and name of a script.
///
/// Contracts see the finite maps. All names and values are within their limits.
#[derive(Drop)]
pub struct Stores {
    pub(crate) alloc: Global,
    pub(crate) scripts: TextMap<Names>,
}

impl Model for Stores {
    ghost use Rattle.std.specs.Coded.{coded_ℕ, coded_list};
    ghost use Rattle.std.specs.FinMap as map;
    ghost use Rattle.gm_store.specs.Maps.{Maps};
    ghost use Rattle.gm_store.specs.Limits.{MapsFit};
    ghost use Rattle.dom_semantics.specs.contracts.kept.Kept as kept;

    ghost Value = { Maps };

    ghost coded = { map.code (coded_list coded_ℕ) (map.code (coded_list coded_ℕ) (map.code (coded_list coded_ℕ) kept.the_row.coded)) };

    ghost view = { λ a. a.scripts };

    ghost invariant = { λ a. MapsFit (map.entries a.scripts) };
}

impl Stores {
    /// Nothing kept.
    pub fn new(alloc: Global) -> Stores
        ensures { result ≡ map.empty }
    {
        Stores {
            alloc,
            scripts: TextMap::new(alloc),
        }
    }

    /// The stores that these bytes are the text of, as `text` writes it or with other blanks, another
    /// order of members and scripts, and scripts without values.
    ///
    /// `NotJson` exactly where the bytes are no JSON text, in the reading of `serde_json`. `BadShape`
    /// exactly where they are the text of a JSON value that isn't of the stored form.
    pub fn load(alloc: Global, bytes: &[u8]) -> Result<Stores, StoreFault>
        ensures ok { IfOk result (λ m. Loads bytes.now m) }
        ensures not_json { IsErrOf result (Fault StoreKind.NotJson) → IsRefused bytes.now StoreKind.NotJson }
        ensures bad_shape { IsErrOf result (Fault StoreKind.BadShape) → IsRefused bytes.now StoreKind.BadShape }
    {
        let value = match Value::from_slice(alloc, bytes) {
            Ok(value) => value,
            Err(e) => {
                return Err(if e.is_memory() {
                    OrMemory::NoMemory
                } else {
                    OrMemory::Fault(StoreKind::NotJson)
                });
            }
        };
        match read_stored(alloc, &value) {
            Ok(scripts) => Ok(Stores { alloc, scripts }),
            Err(Misread::Shape) => Err(OrMemory::Fault(StoreKind::BadShape)),
            Err(Misread::NoMemory) => Err(OrMemory::NoMemory),
        }
    }

    /// The value that a script keeps under the name `key`; `None` exactly where there is none.
    pub fn get(&self, namespace: &Text, name: &Text, key: &Text) -> Option<&Kept>
        ensures { option_copied result ≡ value_at self.now namespace.now name.now key.now }
    {
        let Some(names) = self.scripts.get(namespace) else {
            return None;
        };
        let Some(values) = names.get(name) else {
            return None;
        };
        values.get(key)
    }

    /// Deletes the value that a script keeps under the name `key`, and answers whether there was one.
    ///
    /// What is kept for a script that keeps nothing isn't changed.
    pub fn delete(&mut self, namespace: &Text, name: &Text, key: &Text) -> bool
        ensures found { result ≡ is_some (value_at self.old namespace.now name.now key.now) }
        ensures after { self.new ≡ without_value self.old namespace.now name.now key.now }
    {
        let Some(names) = self.scripts.get_mut(namespace) else {
            return false;
        };
        let Some(values) = names.get_mut(name) else {
            return false;
        };
        values.remove(key).is_some()
    }

    /// The names of the values of a script, in byte order.
    pub fn names(&self, namespace: &Text, name: &Text) -> Mem<Vec<Text>>
        ensures all { IfOk result (λ keys. keys.items ≡ map.keys (values_in self.now namespace.now name.now)) }
        ensures order { IfOk result (λ keys. IsStrictlySortedBy text_cmp keys.items) }
    {
        let Some(names) = self.scripts.get(namespace) else {
            return Ok(Vec::new(self.alloc));
        };
        let Some(values) = names.get(name) else {
            return Ok(Vec::new(self.alloc));
        };
        values.keys(self.alloc)
    }

    /// The one text of the stores: compact JSON, members in byte order of their keys, the scripts that
    /// keep a value by namespace and then by name in byte order, and no line end.
    pub fn text(&self) -> Mem<Vec<u8>>
        ensures text { IfOk result (λ t. t.items ≡ stored_text self.now) }
        ensures loads { IfOk result (λ t. LoadsBack t.items self.now) }
    {
        let value = stored_value(self.alloc, &self.scripts)?;
        Ok(value.to_vec(self.alloc)?)
    }

    /// Sets the value that a script keeps under the name `key`.
    ///
    /// `ValueLimit` exactly where the name is new and the script keeps 1,000 values. Nothing changes
    /// where the call is refused.
    pub fn set(
        &mut self,
        namespace: &Text,
        name: &Text,
        key: &Text,
        v: Kept,
    ) -> Result<(), SetFault>
        requires namespace { IsShort namespace.now }
        requires name { IsShort name.now }
        requires key { IsShort key.now }
        requires value { KeptFits v }
        ensures ok { OnOk result (self.new ≡ with_value self.old namespace.now name.now key.now v) }
        ensures limit { IsErrOf result SetFault.ValueLimit
            ↔ ((value_at self.old namespace.now name.now key.now ≡ None)
            × (VALUE_LIMIT ≤ map.len (values_in self.old namespace.now name.now))) }
        ensures err { OnErr result (self.new ≡ self.old) }
    {
        let alloc = self.alloc;
        let Some(names) = self.scripts.get_mut(namespace) else {
            add_names(alloc, &mut self.scripts, namespace, name, key, v)?;
            return Ok(());
        };
        set_in_namespace(alloc, names, name, key, v)
    }
}

/// A map with one key.
fn one_value(alloc: Global, key: &Text, v: Kept) -> Mem<Values>
    ensures { IfOk result (λ values. values ≡ map.insert map.empty key.now v) }
{
    let mut values = Values::new(alloc);
    drop(values.insert(key.share()?, v)?);
    Ok(values)
}

/// A map with one script that has one key.
fn one_script(alloc: Global, name: &Text, key: &Text, v: Kept) -> Mem<Names>
    ensures { IfOk result (λ names. names
        ≡ map.insert map.empty name.now (map.insert map.empty key.now v)) }
{
    let values = one_value(alloc, key, v)?;
    let mut names = Names::new(alloc);
    drop(names.insert(name.share()?, values)?);
    Ok(names)
}

/// Adds a namespace with one script that has one key.
fn add_names(
    alloc: Global,
    scripts: &mut TextMap<Names>,
    namespace: &Text,
    name: &Text,
    key: &Text,
    v: Kept,
) -> Mem<()>
    ensures ok { OnOk result (scripts.new ≡ map.insert scripts.old namespace.now
        (map.insert map.empty name.now (map.insert map.empty key.now v))) }
    ensures err { OnErr result (scripts.new ≡ scripts.old) }
{
    let names = one_script(alloc, name, key, v)?;
    let place = namespace.share()?;
    drop(scripts.insert(place, names)?);
    Ok(())
}

/// Adds a script that has one key.
fn add_values(alloc: Global, names: &mut Names, name: &Text, key: &Text, v: Kept) -> Mem<()>
    ensures ok { OnOk result (names.new
        ≡ map.insert names.old name.now (map.insert map.empty key.now v)) }
    ensures err { OnErr result (names.new ≡ names.old) }
{
    let values = one_value(alloc, key, v)?;
    let place = name.share()?;
    drop(names.insert(place, values)?);
    Ok(())
}

/// Sets a value of a script of the namespace.
fn set_in_namespace(
    alloc: Global,
    names: &mut Names,
    name: &Text,
    key: &Text,
    v: Kept,
) -> Result<(), SetFault>
    ensures ok { OnOk result (names.new ≡ map.insert names.old name.now
        (map.insert (unwrap_or (map.get names.old name.now) map.empty) key.now v)) }
    ensures limit { IsErrOf result SetFault.ValueLimit
        ↔ ((map.get (unwrap_or (map.get names.old name.now) map.empty) key.now ≡ None)
        × (VALUE_LIMIT ≤ map.len (unwrap_or (map.get names.old name.now) map.empty))) }
    ensures err { OnErr result (names.new ≡ names.old) }
{
    let Some(values) = names.get_mut(name) else {
        add_values(alloc, names, name, key, v)?;
        return Ok(());
    };
    set_value(values, key, v)
}

/// Sets a value of a script.
fn set_value(values: &mut Values, key: &Text, v: Kept) -> Result<(), SetFault>
    ensures ok { OnOk result (values.new ≡ map.insert values.old key.now v) }
    ensures limit { IsErrOf result SetFault.ValueLimit
        ↔ ((map.get values.old key.now ≡ None) × (VALUE_LIMIT ≤ map.len values.old)) }
    ensures err { OnErr result (values.new ≡ values.old) }
{
    if values.len() >= VALUE_LIMIT && values.get(key).is_none() {
        return Err(SetFault::ValueLimit);
    }
    let place = key.share()?;
    drop(values.insert(place, v)?);
    Ok(())
}
