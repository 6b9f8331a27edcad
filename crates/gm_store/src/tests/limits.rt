//! Texts at the limits of values, of bytes and of nesting.
use super::{BAD_SHAPE, NOT_JSON, delete, set, text};
use crate::{Kept, SetFault, StoreFault, Stores, VALUE_LIMIT};
use std::alloc::Global;
use std::process::Abort;
use std::test::Fail;

/// `s`, this many times.
fn repeated(alloc: Global, s: &str, count: usize) -> Result<String, Fail> {
    let mut whole = String::new(alloc);
    for _ in 0..count {
        whole.push_str(s)?;
    }
    Ok(whole)
}

/// The stored form of one script with these members in its values.
fn stored(alloc: Global, namespace: &str, name: &str, values: &str) -> Result<String, Fail> {
    Ok(format!(in alloc;
        "{{\"form\":1,\"stores\":[{{\"name\":\"{name}\",\"namespace\":\"{namespace}\",\"values\":{{{values}}}}}]}}"
    )?)
}

/// This many members, all of other keys.
fn members(alloc: Global, count: usize) -> Result<String, Fail> {
    let mut whole = String::new(alloc);
    for n in 0..count {
        let comma = if n == 0 { "" } else { "," };
        whole.push_str(format!(in alloc; "{comma}\"k{n}\":{n}")?.as_str())?;
    }
    Ok(whole)
}

/// Why a script of that many members, and one more, isn't loaded.
fn load_fault(alloc: Global, count: usize, more: &str) -> Result<Option<StoreFault>, Fail> {
    let values = format!(in alloc; "{}{more}", members(alloc, count)?)?;
    let bytes = stored(alloc, "", "a", values.as_str())?;
    Ok(Stores::load(alloc, bytes.as_bytes()).err())
}

#[test]
fn a_thousand_values_are_loaded(rt: HostRuntime) -> Result<(), Fail> {
    assert_eq!(rt; VALUE_LIMIT, 1000);
    for (count, more, fault) in [
        (1000, "", None),
        (1001, "", Some(BAD_SHAPE)),
        (1000, ",\"k7\":0", None),
        (1000, ",\"K7\":0", Some(BAD_SHAPE)),
    ] {
        assert_eq!(rt;
            load_fault(rt.alloc(), count, more)?,
            fault,
            "{count}{more}"
        );
    }
    Ok(())
}

/// How many values script `a` keeps.
fn count(alloc: Global, stores: &Stores) -> Result<usize, Fail> {
    Ok(stores.names(&text(alloc, "")?, &text(alloc, "a")?)?.len())
}

#[test]
fn a_thousand_values_are_written(rt: HostRuntime) -> Result<(), Fail> {
    let alloc = rt.alloc();
    let bytes = stored(alloc, "", "a", members(alloc, 1000)?.as_str())?;
    let stores = Stores::load(alloc, bytes.as_bytes())?;
    assert_eq!(rt; count(alloc, &stores)?, 1000);
    let one = stores.text()?;
    assert_eq!(rt; one.len(), bytes.len());
    assert!(rt; Stores::load(alloc, one.as_slice())?.text()?.as_slice() == one.as_slice());
    Ok(())
}

/// Sets a number under `k` and this number, and answers whether it is taken.
fn is_set(alloc: Global, stores: &mut Stores, n: usize) -> Result<bool, Fail> {
    let key = format!(in alloc; "k{n}")?;
    Ok(set(alloc, stores, ("", "a", key.as_str()), Kept::Number(7))?.is_none())
}

/// Where script `a` keeps 1,000 values, one more is refused, and nothing else is.
fn one_more(rt: &impl Abort, alloc: Global, stores: &mut Stores) -> Result<(), Fail> {
    let full = stores.text()?;
    assert_eq!(rt;
        set(alloc, stores, ("", "a", "more"), Kept::Number(1))?,
        Some(SetFault::ValueLimit)
    );
    assert!(rt; stores.text()?.as_slice() == full.as_slice());
    for at in [("", "a", "k7"), ("", "b", "more"), ("b", "a", "more")] {
        assert!(rt; set(alloc, stores, at, Kept::Number(1))?.is_none());
    }
    Ok(())
}

/// Where one of 1,000 values is deleted, one more is taken, and then none.
fn one_less(rt: &impl Abort, alloc: Global, stores: &mut Stores) -> Result<(), Fail> {
    assert!(rt; delete(alloc, stores, ("", "a", "k8"))?);
    assert!(rt; set(alloc, stores, ("", "a", "more"), Kept::Number(1))?.is_none());
    assert_eq!(rt;
        set(alloc, stores, ("", "a", "k8"), Kept::Number(1))?,
        Some(SetFault::ValueLimit)
    );
    assert_eq!(rt; count(alloc, stores)?, 1000);
    Ok(())
}

#[test]
fn a_thousand_values_are_set(rt: HostRuntime) -> Result<(), Fail> {
    let mut stores = Stores::new(rt.alloc());
    for n in 0..1000 {
        assert!(rt; is_set(rt.alloc(), &mut stores, n)?);
    }
    one_more(&rt, rt.alloc(), &mut stores)?;
    one_less(&rt, rt.alloc(), &mut stores)
}

/// The fault of a text, or that it is written as it was read.
fn fault_of(rt: &impl Abort, alloc: Global, bytes: &[u8]) -> Result<Option<StoreFault>, Fail> {
    match Stores::load(alloc, bytes) {
        Err(fault) => Ok(Some(fault)),
        Ok(stores) => {
            assert!(rt; stores.text()?.as_slice() == bytes);
            Ok(None)
        }
    }
}

/// The four places of a text in the stored form.
fn places(
    rt: &impl Abort,
    alloc: Global,
    long: &str,
    fault: Option<StoreFault>,
) -> Result<(), Fail> {
    let value = format!(in alloc; "\"k\":\"{long}\"")?;
    let name = format!(in alloc; "\"{long}\":1")?;
    for (namespace, script, values) in [
        ("", "a", value.as_str()),
        ("", "a", name.as_str()),
        (long, "a", "\"k\":1"),
        ("", long, "\"k\":1"),
    ] {
        let bytes = stored(alloc, namespace, script, values)?;
        assert_eq!(rt; fault_of(rt, alloc, bytes.as_bytes())?, fault);
    }
    Ok(())
}

#[test]
fn texts_have_a_limit(rt: HostRuntime) -> Result<(), Fail> {
    let alloc = rt.alloc();
    for (part, times, fault) in [
        ("ab", 131_072, None),
        ("é", 131_072, None),
        ("abc", 87_382, Some(BAD_SHAPE)),
    ] {
        places(&rt, alloc, repeated(alloc, part, times)?.as_str(), fault)?;
    }
    Ok(())
}

/// `serde_json` reads 127 arrays in one another.
#[test]
fn nesting_has_a_limit(rt: HostRuntime) -> Result<(), Fail> {
    let alloc = rt.alloc();
    for (levels, fault) in [(127, BAD_SHAPE), (128, NOT_JSON)] {
        let bytes = format!(in alloc;
            "{}{}",
            repeated(alloc, "[", levels)?,
            repeated(alloc, "]", levels)?
        )?;
        assert_eq!(rt;
            Stores::load(alloc, bytes.as_bytes()).err(),
            Some(fault),
            "{levels}"
        );
    }
    Ok(())
}
