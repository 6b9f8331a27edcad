//! What a dispatch costs: times for `bench/run`, each of as many calls as there have to be.
use crate::*;
use base_text::Text;
use dom_tree::{NodeForm, NodeId, Tree};
use door::{DOCUMENT, Kind, PAGE, Thing, Value, WINDOW};
use std::alloc::Global;
use std::process::Abort;
use std::test::Fail;
use std::time::Instant;

/// The last element of the document.
const LAST: Thing = Thing {
    kind: Kind::Element,
    number: 198,
};

fn element(number: u32) -> Thing {
    Thing {
        kind: Kind::Element,
        number,
    }
}

/// A document with 198 elements, each in the one before: the path of the last one has 200 things.
fn tall(rt: &impl Abort, alloc: Global) -> Result<Tree, Fail> {
    let mut tree = Tree::new(alloc)?;
    for parent in 0..198 {
        assert!(rt; tree.count() < 1_000_000);
        let node = tree.create(PAGE, NodeForm::Element(Text::of(alloc, "p")?))?;
        assert!(rt; parent < tree.count() && node.0 < tree.count());
        tree.insert(NodeId(parent), node, None)?;
    }
    Ok(tree)
}

fn listen(
    rt: &impl Abort,
    alloc: Global,
    listeners: &mut Listeners,
    kind: &str,
    (callback, target, capture): (u32, Thing, bool),
) -> Result<(), Fail> {
    assert!(rt; listeners.given < 1_000_000);
    listeners.add(Listener {
        owner: PAGE,
        target,
        kind: Text::of(alloc, kind)?,
        callback,
        capture,
    })?;
    Ok(())
}

/// As many listeners of another type.
fn others(rt: &impl Abort, alloc: Global, count: u32) -> Result<Listeners, Fail> {
    let mut listeners = Listeners::new(alloc);
    for callback in 0..count {
        let other = (callback, LAST, false);
        listen(rt, alloc, &mut listeners, "keyup", other)?;
    }
    Ok(listeners)
}

/// Five listeners along the path.
fn five(rt: &impl Abort, alloc: Global, listeners: &mut Listeners) -> Result<(), Fail> {
    for one in [
        (1, WINDOW, true),
        (2, element(100), true),
        (3, LAST, false),
        (4, element(50), false),
        (5, DOCUMENT, false),
    ] {
        listen(rt, alloc, listeners, "click", one)?;
    }
    Ok(())
}

/// One event, which bubbles.
fn event(alloc: Global) -> Result<Events, Fail> {
    let mut events = Events::new(alloc);
    events.create(EventForm {
        kind: Text::of(alloc, "click")?,
        bubbles: true,
        cancelable: false,
        trusted: false,
        detail: Value::Null,
    })?;
    Ok(events)
}

/// How many calls the walk of the event makes from the last element, 1,000 at most.
fn calls(
    rt: &impl Abort,
    alloc: Global,
    tree: &Tree,
    listeners: &Listeners,
    events: &mut Events,
) -> Result<u32, Fail> {
    assert!(rt; 0 < events.events.len() && 198 < tree.count());
    let mut walk = events.begin(alloc, tree, 0, LAST, true)?;
    for calls in 0..1_000 {
        assert!(rt; (walk.event() as usize) < events.events.len());
        if next_listener(&mut walk, listeners, events)?.is_none() {
            return Ok(calls);
        }
    }
    Ok(1_000)
}

/// How many calls as many walks make.
fn all_calls(
    rt: &impl Abort,
    alloc: Global,
    tree: &Tree,
    listeners: &Listeners,
    count: u32,
) -> Result<u32, Fail> {
    let mut events = event(alloc)?;
    let mut all = 0u32;
    for _ in 0..count {
        all = all.saturating_add(calls(rt, alloc, tree, listeners, &mut events)?);
    }
    Ok(all)
}

#[test]
fn dispatches_over_a_path_of_200(rt: HostRuntime) -> Result<(), Fail> {
    let alloc = rt.alloc();
    let tree = tall(&rt, alloc)?;
    for (count, other, want) in [(10_000, 0, 50_000), (100, 1_000, 500)] {
        let mut listeners = others(&rt, alloc, other)?;
        five(&rt, alloc, &mut listeners)?;
        let began = Instant::now(&rt)?;
        let made = all_calls(&rt, alloc, &tree, &listeners, count)?;
        let took = began.elapsed(&rt)?.as_micros();
        assert_eq!(rt; made, want);
        println!(rt;
            "bench: {count} dispatches, path of 200, 5 listeners, {other} of another type: {took} us"
        )?;
    }
    Ok(())
}
