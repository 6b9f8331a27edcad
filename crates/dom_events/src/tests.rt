//! What no clause says: that each call succeeds while there is memory. The order is that of DOM, 2.9 Dispatching events.
use crate::*;
use base_text::Text;
use dom_tree::{NodeForm, NodeId, Tree};
use door::{Actor, DOCUMENT, Kind, PAGE, Thing, Value};
use std::alloc::Global;
use std::process::Abort;
use std::test::Fail;

const ELEMENT: Thing = Thing {
    kind: Kind::Element,
    number: 1,
};

fn make(rt: &impl Abort, tree: &mut Tree, parent: u32, form: NodeForm) -> Result<(), Fail> {
    assert!(rt; tree.count() < 1_000_000);
    let node = tree.create(PAGE, form)?;
    assert!(rt; parent < tree.count() && node.0 < tree.count());
    tree.insert(NodeId(parent), node, None)?;
    Ok(())
}

/// A document, an element in it, and a text in that.
fn page(rt: &impl Abort, alloc: Global) -> Result<Tree, Fail> {
    let mut tree = Tree::new(alloc)?;
    make(rt, &mut tree, 0, NodeForm::Element(Text::of(alloc, "p")?))?;
    make(rt, &mut tree, 1, NodeForm::Str(Text::of(alloc, "one")?))?;
    Ok(tree)
}

fn listener(alloc: Global, target: Thing, callback: u32) -> Result<Listener, Fail> {
    Ok(Listener {
        owner: PAGE,
        target,
        kind: Text::of(alloc, "click")?,
        callback,
        capture: false,
    })
}

fn add(rt: &impl Abort, listeners: &mut Listeners, l: Listener) -> Result<(), Fail> {
    assert!(rt; listeners.given < 1_000_000);
    listeners.add(l)?;
    Ok(())
}

/// Two of the element, of which one is added twice, and between them one of the document.
fn listeners(rt: &impl Abort, alloc: Global) -> Result<Listeners, Fail> {
    let mut listeners = Listeners::new(alloc);
    for (target, callback, count) in [
        (ELEMENT, 7, 1),
        (DOCUMENT, 9, 2),
        (ELEMENT, 7, 2),
        (ELEMENT, 8, 3),
    ] {
        add(rt, &mut listeners, listener(alloc, target, callback)?)?;
        assert_eq!(rt; listeners.as_slice().len(), count);
    }
    Ok(listeners)
}

fn create(rt: &impl Abort, alloc: Global, events: &mut Events) -> Result<u32, Fail> {
    assert!(rt; events.events.len() < 1_000_000);
    Ok(events.create(EventForm {
        kind: Text::of(alloc, "click")?,
        bubbles: true,
        cancelable: false,
        trusted: false,
        detail: Value::Null,
    })?)
}

fn begin(
    rt: &impl Abort,
    alloc: Global,
    events: &mut Events,
    tree: &Tree,
    event: u32,
) -> Result<Walk, EventFault> {
    assert!(rt; (event as usize) < events.events.len());
    assert!(rt; 1 < tree.count());
    events.begin(alloc, tree, event, ELEMENT, true)
}

/// The callback that is called next, and its phase.
fn next(
    rt: &impl Abort,
    walk: &mut Walk,
    listeners: &Listeners,
    events: &mut Events,
) -> Result<Option<(u32, u32)>, Fail> {
    assert!(rt; (walk.event() as usize) < events.events.len());
    let due = next_listener(walk, listeners, events)?;
    Ok(due.map(|d| (d.callback, d.visit.phase)))
}

fn stop(rt: &impl Abort, events: &mut Events, event: u32) {
    assert!(rt; (event as usize) < events.events.len());
    events.raise(event, Flag::Stop);
}

/// The callbacks and phases of a whole walk, during which the event is busy, and may be stopped at each call.
fn walks(
    rt: &impl Abort,
    alloc: Global,
    tree: &Tree,
    listeners: &Listeners,
    events: &mut Events,
    stops: bool,
    wants: &[Option<(u32, u32)>],
) -> Result<(), Fail> {
    let mut walk = begin(rt, alloc, events, tree, 0)?;
    assert_eq!(rt;
        begin(rt, alloc, events, tree, 0).err(),
        Some(EventFault::Busy)
    );
    for want in wants {
        assert_eq!(rt; next(rt, &mut walk, listeners, events)?, *want);
        if stops {
            stop(rt, events, 0);
        }
    }
    Ok(())
}

fn remove_twice(rt: &impl Abort, listeners: &mut Listeners, l: &Listener) {
    assert!(rt; listeners.remove(l));
    assert!(rt; !listeners.remove(l));
}

#[test]
fn listeners_are_called_along_the_path(rt: HostRuntime) -> Result<(), Fail> {
    let alloc = rt.alloc();
    let tree = page(&rt, alloc)?;
    let mut listeners = listeners(&rt, alloc)?;
    let mut events = Events::new(alloc);
    assert_eq!(rt; create(&rt, alloc, &mut events)?, 0);
    for (stops, wants) in [
        (false, &[Some((7, 2)), Some((8, 2)), Some((9, 3)), None][..]),
        (true, &[Some((7, 2)), Some((8, 2)), None][..]),
    ] {
        walks(&rt, alloc, &tree, &listeners, &mut events, stops, wants)?;
    }
    remove_twice(&rt, &mut listeners, &listener(alloc, ELEMENT, 7)?);
    Ok(())
}

/// Whether a listener of an owner is refused because of the limit.
fn is_over(
    rt: &impl Abort,
    alloc: Global,
    listeners: &mut Listeners,
    owner: Actor,
    callback: u32,
) -> Result<bool, Fail> {
    let mut l = listener(alloc, ELEMENT, callback)?;
    l.owner = owner;
    assert!(rt; listeners.given < 1_000_000);
    Ok(listeners.add(l) == Err(ListenerFault::ListenerLimit))
}

#[test]
fn ten_thousand_of_an_owner_are_registered(rt: HostRuntime) -> Result<(), Fail> {
    let alloc = rt.alloc();
    let mut listeners = Listeners::new(alloc);
    for callback in 0..10_000 {
        add(&rt, &mut listeners, listener(alloc, ELEMENT, callback)?)?;
    }
    for (owner, callback, over, count) in [
        (PAGE, 10_000, true, 10_000),
        (PAGE, 9_999, false, 10_000),
        (Actor(2), 10_000, false, 10_001),
        (PAGE, 10_000, true, 10_001),
    ] {
        assert_eq!(rt; is_over(&rt, alloc, &mut listeners, owner, callback)?, over);
        assert_eq!(rt; listeners.as_slice().len(), count);
    }
    assert!(rt; listeners.remove(&listener(alloc, ELEMENT, 0)?));
    assert!(rt; !is_over(&rt, alloc, &mut listeners, PAGE, 10_000)?);
    assert!(rt; is_over(&rt, alloc, &mut listeners, PAGE, 0)?);
    Ok(())
}
