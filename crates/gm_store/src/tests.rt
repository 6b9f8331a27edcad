//! Texts of the stored form and what they keep, from this project's documents, RFC 8259 and the
//! behaviour of `serde_json`; and that each call succeeds.
ghost use Rattle.gm_store.specs.Limits.{IsShort, KeptFits};
ghost use Rattle.std.specs.Prelude.{IfOk};

mod limits;
mod loaded;
mod memory;
mod refused;

use crate::{Kept, SetFault, StoreFault, StoreKind, Stores};
use base_text::{OrMemory, Text};
use std::alloc::Global;
use std::process::Abort;
use std::test::Fail;

/// The bytes are no JSON text.
const NOT_JSON: StoreFault = OrMemory::Fault(StoreKind::NotJson);

/// The bytes are a JSON text of another shape.
const BAD_SHAPE: StoreFault = OrMemory::Fault(StoreKind::BadShape);

/// A value as a table spells it.
#[derive(Clone, Copy)]
enum Plain {
    Str(&'static str),
    Bool(bool),
    Number(i64),
}

/// A namespace, the name of a script, the name of a value, and the value.
type Entry = (&'static str, &'static str, &'static str, Plain);

fn text(alloc: Global, s: &str) -> Result<Text, Fail>
    ensures { IfOk result (λ t. IsShort t) }
{
    Ok(Text::of(alloc, s)?)
}

/// Whether the stores keep this value.
fn keeps(alloc: Global, stores: &Stores, entry: Entry) -> Result<bool, Fail> {
    let (namespace, name, key, plain) = entry;
    let kept = stores.get(
        &text(alloc, namespace)?,
        &text(alloc, name)?,
        &text(alloc, key)?,
    );
    Ok(match (kept, plain) {
        (Some(Kept::Str(t)), Plain::Str(s)) => t.as_str() == s,
        (Some(Kept::Bool(a)), Plain::Bool(b)) => *a == b,
        (Some(Kept::Number(a)), Plain::Number(b)) => *a == b,
        _ => false,
    })
}

/// How many values the script of an entry keeps.
fn count_beside(alloc: Global, stores: &Stores, entry: Entry) -> Result<usize, Fail> {
    let (namespace, name, _, _) = entry;
    Ok(
        stores
            .names(&text(alloc, namespace)?, &text(alloc, name)?)?
            .len(),
    )
}

/// Sets a value.
fn set(
    alloc: Global,
    stores: &mut Stores,
    at: (&str, &str, &str),
    value: Kept,
) -> Result<Option<SetFault>, Fail>
    requires { KeptFits value }
{
    let namespace = text(alloc, at.0)?;
    let name = text(alloc, at.1)?;
    let key = text(alloc, at.2)?;
    Ok(stores.set(&namespace, &name, &key, value).err())
}

/// Deletes a value, and answers whether it was there.
fn delete(alloc: Global, stores: &mut Stores, at: (&str, &str, &str)) -> Result<bool, Fail> {
    let namespace = text(alloc, at.0)?;
    let name = text(alloc, at.1)?;
    let key = text(alloc, at.2)?;
    Ok(stores.delete(&namespace, &name, &key))
}

/// Whether a script has exactly these names, in this order.
fn has_names(
    alloc: Global,
    stores: &Stores,
    namespace: &str,
    name: &str,
    expected: &[&str],
) -> Result<bool, Fail> {
    let names = stores.names(&text(alloc, namespace)?, &text(alloc, name)?)?;
    Ok(
        names.len() == expected.len()
            && names
                .iter()
                .zip(expected)
                .all(|(found, one)| found.as_str() == *one),
    )
}

/// Whether the stores are written as this text, which is loaded again as the same.
fn is_written(alloc: Global, stores: &Stores, expected: &str) -> Result<bool, Fail> {
    let once = stores.text()?;
    let twice = Stores::load(alloc, expected.as_bytes())?.text()?;
    Ok(once.as_slice() == expected.as_bytes() && twice.as_slice() == expected.as_bytes())
}

const EMPTY: &str = r#"{"form":1,"stores":[]}"#;

const LEFT: &str =
    r#"{"form":1,"stores":[{"name":"a","namespace":"","values":{"k":1}},{"name":"b","namespace":"n","values":{"j":true}}]}"#;

fn fill(rt: &impl Abort, alloc: Global, stores: &mut Stores) -> Result<(), Fail> {
    assert!(rt; is_written(alloc, stores, EMPTY)?);
    let x = text(alloc, "x")?;
    assert!(rt; set(alloc, stores, ("", "a", "k"), Kept::Number(1))?.is_none());
    assert!(rt; set(alloc, stores, ("n", "b", "k"), Kept::Str(x))?.is_none());
    assert!(rt; set(alloc, stores, ("n", "b", "j"), Kept::Bool(true))?.is_none());
    assert!(rt; has_names(alloc, stores, "n", "b", ["j", "k"].as_slice())?);
    Ok(())
}

fn delete_one(rt: &impl Abort, alloc: Global, stores: &mut Stores) -> Result<(), Fail> {
    for (at, stood) in [
        (("n", "b", "k"), true),
        (("n", "b", "k"), false),
        (("n", "a", "k"), false),
        (("b", "a", "k"), false),
    ] {
        assert_eq!(rt; delete(alloc, stores, at)?, stood);
    }
    assert!(rt; keeps(alloc, stores, ("", "a", "k", Plain::Number(1)))?);
    assert!(rt; has_names(alloc, stores, "n", "b", ["j"].as_slice())?);
    assert!(rt; has_names(alloc, stores, "n", "a", [].as_slice())?);
    assert!(rt; is_written(alloc, stores, LEFT)?);
    Ok(())
}

fn delete_all(rt: &impl Abort, alloc: Global, stores: &mut Stores) -> Result<(), Fail> {
    assert!(rt; delete(alloc, stores, ("", "a", "k"))?);
    assert!(rt; delete(alloc, stores, ("n", "b", "j"))?);
    assert!(rt; is_written(alloc, stores, EMPTY)?);
    Ok(())
}

/// The members of two scripts are told apart, set and deleted.
#[test]
fn two_scripts(rt: HostRuntime) -> Result<(), Fail> {
    let mut stores = Stores::new(rt.alloc());
    fill(&rt, rt.alloc(), &mut stores)?;
    delete_one(&rt, rt.alloc(), &mut stores)?;
    delete_all(&rt, rt.alloc(), &mut stores)
}
