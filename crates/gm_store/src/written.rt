//! Makes the JSON value of the stored form.
ghost use Rattle.gm_store.specs.Written.{kept_data};
ghost use Rattle.gm_store.specs.WrittenModel.{values_members, script_model, names_model, scripts_model, stored_model, views};
ghost use Rattle.serde_json.specs.Data.{object, no_members};
ghost use Rattle.serde_json.specs.View.{view};
ghost use Rattle.std.specs.FinMap as fin;
ghost use Rattle.std.specs.Prelude.{◌≡◌, ◌++◌, OnOk, IfOk};

use crate::stores::{Names, Values};
use crate::text_map::TextMap;
use base_text::{Mem, Text};
use dom_semantics::Kept;
use serde_json::{Map, Value, put};
use std::alloc::Global;

/// A value as JSON.
fn kept_value(alloc: Global, kept: &Kept) -> Mem<Value>
    ensures { IfOk result (λ v. view v ≡ kept_data kept.now) }
{
    match kept {
        Kept::Str(text) => Ok(Value::try_from_str(alloc, text.as_str())?),
        Kept::Bool(b) => Ok(Value::from(*b)),
        Kept::Number(n) => Ok(Value::from(*n)),
    }
}

/// The values of a script as an object.
fn values_object(alloc: Global, values: &Values) -> Mem<Value>
    ensures { IfOk result (λ v. view v ≡ object (values_members (fin.entries values.now) no_members)) }
{
    let mut members = Map::new(alloc);
    for (key, kept) in values.iter() {
        put(&mut members, alloc, key.as_str(), kept_value(alloc, kept)?)?;
    }
    Ok(Value::Object(members))
}

/// A script as an object.
fn script_value(alloc: Global, namespace: &Text, name: &Text, values: &Values) -> Mem<Value>
    ensures { IfOk result (λ v. view v ≡ script_model namespace.now name.now values.now) }
{
    let mut members = Map::new(alloc);
    put(
        &mut members,
        alloc,
        "name",
        Value::try_from_str(alloc, name.as_str())?,
    )?;
    put(
        &mut members,
        alloc,
        "namespace",
        Value::try_from_str(alloc, namespace.as_str())?,
    )?;
    put(&mut members, alloc, "values", values_object(alloc, values)?)?;
    Ok(Value::Object(members))
}

/// Adds the scripts of a namespace that keep a value.
fn push_names(alloc: Global, namespace: &Text, names: &Names, out: &mut Vec<Value>) -> Mem<()>
    ensures { OnOk result (views out.new.items
        ≡ views out.old.items ++ names_model namespace.now (fin.entries names.now)) }
{
    for (name, values) in names.iter() {
        if values.len() != 0 {
            out.push(script_value(alloc, namespace, name, values)?)?;
        }
    }
    Ok(())
}

/// All scripts that keep a value.
fn scripts_list(alloc: Global, scripts: &TextMap<Names>) -> Mem<Vec<Value>>
    ensures { IfOk result (λ list. views list.items ≡ scripts_model (fin.entries scripts.now)) }
{
    let mut list = Vec::new(alloc);
    for (namespace, names) in scripts.iter() {
        push_names(alloc, namespace, names, &mut list)?;
    }
    Ok(list)
}

/// The stored form as JSON.
pub(crate) fn stored_value(alloc: Global, scripts: &TextMap<Names>) -> Mem<Value>
    ensures { IfOk result (λ v. view v ≡ stored_model scripts.now) }
{
    let list = scripts_list(alloc, scripts)?;
    let mut members = Map::new(alloc);
    put(&mut members, alloc, "form", Value::from(1u64))?;
    put(&mut members, alloc, "stores", Value::Array(list))?;
    Ok(Value::Object(members))
}
