//! That a call that found no memory says so, changes nothing, and succeeds when it is made again. Run
//! it with each allocation failing in turn.
ghost use Rattle.gm_store.specs.Limits.{IsShort};
ghost use Rattle.std.specs.Prelude.{IfOk};

use super::{BAD_SHAPE, NOT_JSON};
use crate::{Kept, SetFault, StoreFault, Stores};
use base_text::{Mem, OrMemory, Text, TextFault};
use std::alloc::Global;
use std::test::Fail;

fn text_again(alloc: Global, s: &str) -> Result<Text, Fail>
    ensures { IfOk result (λ t. IsShort t) }
{
    match Text::of(alloc, s) {
        Err(TextFault::NoMemory) => Ok(Text::of(alloc, s)?),
        once => Ok(once?),
    }
}

fn loaded_again(alloc: Global, bytes: &[u8]) -> Result<Stores, StoreFault> {
    match Stores::load(alloc, bytes) {
        Err(OrMemory::NoMemory) => Stores::load(alloc, bytes),
        once => once,
    }
}

fn written_again(stores: &Stores) -> Mem<Vec<u8>> {
    match stores.text() {
        Err(_) => stores.text(),
        once => once,
    }
}

/// Sets a number, once more where the first call found no memory.
fn set_again(alloc: Global, stores: &mut Stores, at: (&str, &str, &str)) -> Result<(), Fail> {
    let namespace = text_again(alloc, at.0)?;
    let name = text_again(alloc, at.1)?;
    let key = text_again(alloc, at.2)?;
    match stores.set(&namespace, &name, &key, Kept::Number(2)) {
        Err(SetFault::NoMemory) => Ok(stores.set(&namespace, &name, &key, Kept::Number(2))?),
        once => Ok(once?),
    }
}

/// The faults of texts of another shape and of no JSON.
#[test]
fn one_failed_allocation_changes_no_fault(rt: HostRuntime) {
    let alloc = rt.alloc();
    for (bytes, fault) in [
        (b"{\"form\":1,\"stores\":[1]}".as_slice(), BAD_SHAPE),
        (b"{\"form\":1,\"stores\":[1]".as_slice(), NOT_JSON),
    ] {
        assert_eq!(rt; loaded_again(alloc, bytes).err(), Some(fault));
    }
}

fn names_again(alloc: Global, stores: &Stores) -> Result<usize, Fail> {
    let namespace = text_again(alloc, "")?;
    let name = text_again(alloc, "a")?;
    match stores.names(&namespace, &name) {
        Err(_) => Ok(stores.names(&namespace, &name)?.len()),
        Ok(names) => Ok(names.len()),
    }
}

const READ: &str = r#"{"form":1,"stores":[{"name":"a","namespace":"","values":{"k":1,"j":"x"}}]}"#;

const WRITTEN: &str =
    r#"{"form":1,"stores":[{"name":"a","namespace":"","values":{"i":2,"j":"x","k":2}},{"name":"b","namespace":"","values":{"k":2}},{"name":"a","namespace":"n","values":{"k":2}}]}"#;

#[test]
fn one_failed_allocation_changes_no_answer(rt: HostRuntime) -> Result<(), Fail> {
    let alloc = rt.alloc();
    let mut stores = loaded_again(alloc, READ.as_bytes())?;
    for at in [
        ("", "a", "k"),
        ("", "a", "i"),
        ("", "b", "k"),
        ("n", "a", "k"),
    ] {
        set_again(alloc, &mut stores, at)?;
    }
    assert_eq!(rt; names_again(alloc, &stores)?, 3);
    assert!(rt; written_again(&stores)?.as_slice() == WRITTEN.as_bytes());
    Ok(())
}
