//! Reads the stored form out of a JSON value.
ghost use Rattle.base_text.specs.declared.text.TheConstants.{TEXT_LIMIT};
ghost use Rattle.dom_semantics.specs.declared.kept.Kept.{Kept};
ghost use Rattle.gm_store.specs.Limits.{IsShort};
ghost use Rattle.gm_store.specs.Maps.{Values, Maps, names_in, with_values};
ghost use Rattle.gm_store.specs.Stored.{IsKept, AreValues, HasValues, AddsScript, AddsScripts, IsStored};
ghost use Rattle.serde_json.specs.Data.{string, number, unsigned};
ghost use Rattle.serde_json.specs.Find.{get};
ghost use Rattle.serde_json.specs.View.{view, items_view, members_view};
ghost use Rattle.std.specs.FinMap as fin;
ghost use Rattle.std.specs.Prelude.{◌≡◌, ◌↔◌, IsTrue, ◌<◌, ℕ, List, Some, true, false, length, OnOk, IfOk, IsErrOf, encode_utf8_all};

use crate::stores::{Names, Values};
use crate::text_map::TextMap;
use base_text::{MAX_SAFE_INTEGER, NoMemory, Text, TextFault};
use dom_semantics::{Kept, VALUE_LIMIT};
use serde_json::{Map, Value};
use std::alloc::Global;

/// Why a JSON value isn't read.
#[derive(Clone, Copy, Debug, PartialEq, Eq)]
pub(crate) enum Misread {
    /// It isn't of the stored form.
    Shape,
    /// No memory was found.
    NoMemory,
}

impl From<NoMemory> for Misread {
    ghost use Rattle.std.specs.Prelude.{◌≡◌};
    ghost use Rattle.gm_store.specs.declared.load.Misread.TheVariants.{NoMemory};

    ghost from_gives = { λ _ e. e ≡ NoMemory };

    fn from(_error: NoMemory) -> Misread {
        Misread::NoMemory
    }
}

/// A text within the limit of texts.
fn short_text(alloc: Global, s: &str) -> Result<Text, Misread>
    ensures ok { IfOk result (λ t. (s.now ≡ encode_utf8_all t) × IsShort t) }
    ensures bad { IsErrOf result Misread.Shape → TEXT_LIMIT < length s.now }
{
    match Text::of(alloc, s) {
        Ok(text) => Ok(text),
        Err(TextFault::TooLong) => Err(Misread::Shape),
        Err(TextFault::NoMemory) => Err(Misread::NoMemory),
    }
}

/// A kept value.
fn read_kept(alloc: Global, value: &Value) -> Result<Kept, Misread>
    ensures ok { IfOk result (λ v. IsKept (view value.now) v) }
    ensures bad { IsErrOf result Misread.Shape → (v : Kept) → IsKept (view value.now) v → ⊥ }
{
    if let Some(s) = value.as_str() {
        return Ok(Kept::Str(short_text(alloc, s)?));
    }
    if let Some(b) = value.as_bool() {
        return Ok(Kept::Bool(b));
    }
    let Some(n) = value.as_i64() else {
        return Err(Misread::Shape);
    };
    if n > MAX_SAFE_INTEGER || n < -MAX_SAFE_INTEGER {
        return Err(Misread::Shape);
    }
    Ok(Kept::Number(n))
}

/// The values of a script.
fn read_values(alloc: Global, members: &Map<String, Value>) -> Result<Values, Misread>
    ensures ok { IfOk result (λ values. AreValues (members_view members.now.entries) values) }
    ensures bad { IsErrOf result Misread.Shape
        → (values : Values) → AreValues (members_view members.now.entries) values → ⊥ }
{
    if members.len() > VALUE_LIMIT {
        return Err(Misread::Shape);
    }
    let mut values = Values::new(alloc);
    for (key, value) in members {
        let kept = read_kept(alloc, value)?;
        let key = short_text(alloc, key.as_str())?;
        drop(values.insert(key, kept)?);
    }
    Ok(values)
}

/// A member that is a text.
fn text_member(alloc: Global, value: &Value, name: &str) -> Result<Text, Misread>
    ensures ok { IfOk result (λ t. IsShort t
        × (get name.now (view value.now) ≡ Some (string (encode_utf8_all t)))) }
    ensures bad { IsErrOf result Misread.Shape → (t : List ℕ) → IsShort t
        → get name.now (view value.now) ≡ Some (string (encode_utf8_all t)) → ⊥ }
{
    let Some(member) = value.get(name) else {
        return Err(Misread::Shape);
    };
    let Some(s) = member.as_str() else {
        return Err(Misread::Shape);
    };
    short_text(alloc, s)
}

/// Adds a script, unless there is one of its namespace and name.
fn add_script(
    alloc: Global,
    scripts: &mut TextMap<Names>,
    namespace: Text,
    name: Text,
    values: Values,
) -> Result<(), Misread>
    ensures ok { OnOk result ((fin.contains_key (names_in scripts.old namespace) name ≡ false)
        × (scripts.new ≡ with_values scripts.old namespace name values)) }
    ensures bad { IsErrOf result Misread.Shape
        → fin.contains_key (names_in scripts.old namespace) name ≡ true }
{
    let Some(names) = scripts.get_mut(&namespace) else {
        let mut names = Names::new(alloc);
        drop(names.insert(name, values)?);
        drop(scripts.insert(namespace, names)?);
        return Ok(());
    };
    if names.get(&name).is_some() {
        return Err(Misread::Shape);
    }
    drop(names.insert(name, values)?);
    Ok(())
}

/// Adds the script that a JSON value stands for.
fn read_script(alloc: Global, value: &Value, scripts: &mut TextMap<Names>) -> Result<(), Misread>
    ensures ok { OnOk result (AddsScript (view value.now) scripts.old scripts.new) }
    ensures bad { IsErrOf result Misread.Shape
        → (m : Maps) → AddsScript (view value.now) scripts.old m → ⊥ }
{
    let Some(members) = value.as_object() else {
        return Err(Misread::Shape);
    };
    if members.len() != 3 {
        return Err(Misread::Shape);
    }
    let namespace = text_member(alloc, value, "namespace")?;
    let name = text_member(alloc, value, "name")?;
    let values = values_member(alloc, value)?;
    add_script(alloc, scripts, namespace, name, values)
}

/// The member `values`.
fn values_member(alloc: Global, value: &Value) -> Result<Values, Misread>
    ensures ok { IfOk result (λ values. HasValues (view value.now) values) }
    ensures bad { IsErrOf result Misread.Shape
        → (values : Values) → HasValues (view value.now) values → ⊥ }
{
    let Some(member) = value.get("values") else {
        return Err(Misread::Shape);
    };
    let Some(members) = member.as_object() else {
        return Err(Misread::Shape);
    };
    read_values(alloc, members)
}

/// Adds the scripts of the array.
fn read_scripts(alloc: Global, list: &[Value], scripts: &mut TextMap<Names>) -> Result<(), Misread>
    ensures ok { OnOk result (AddsScripts (items_view list.now) scripts.old scripts.new) }
    ensures bad { IsErrOf result Misread.Shape
        → (m : Maps) → AddsScripts (items_view list.now) scripts.old m → ⊥ }
{
    for value in list {
        read_script(alloc, value, scripts)?;
    }
    Ok(())
}

/// Whether it is the number 1.
fn is_one(value: &Value) -> bool
    ensures { IsTrue result ↔ (view value.now ≡ number (unsigned 1)) }
{
    match value.as_u64() {
        Some(n) => n == 1,
        None => false,
    }
}

/// The maps that a JSON value stands for.
pub(crate) fn read_stored(alloc: Global, value: &Value) -> Result<TextMap<Names>, Misread>
    ensures ok { IfOk result (λ m. IsStored (view value.now) m) }
    ensures bad { IsErrOf result Misread.Shape
        → (m : Maps) → IsStored (view value.now) m → ⊥ }
{
    let Some(members) = value.as_object() else {
        return Err(Misread::Shape);
    };
    if members.len() != 2 {
        return Err(Misread::Shape);
    }
    let Some(form) = value.get("form") else {
        return Err(Misread::Shape);
    };
    if !is_one(form) {
        return Err(Misread::Shape);
    }
    let Some(stores) = value.get("stores") else {
        return Err(Misread::Shape);
    };
    let Some(list) = stores.as_array() else {
        return Err(Misread::Shape);
    };
    let mut scripts = TextMap::new(alloc);
    read_scripts(alloc, list.as_slice(), &mut scripts)?;
    Ok(scripts)
}
