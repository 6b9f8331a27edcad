//! Walks, and the listeners that they call: phases, what is changed while they go, and the event after each. What is
//! wanted is that of DOM, 2.9 Dispatching events, followed by hand.
mod changes;
mod paths;
mod stops;

use crate::*;
use base_text::Text;
use dom_tree::{NodeForm, NodeId, Tree};
use door::{Kind, PAGE, Thing, Value};
use std::alloc::Global;
use std::process::Abort;
use std::test::Fail;

const HTML: Thing = Thing {
    kind: Kind::Element,
    number: 1,
};

const BODY: Thing = Thing {
    kind: Kind::Element,
    number: 2,
};

const P: Thing = Thing {
    kind: Kind::Element,
    number: 3,
};

/// Text in the p.
const TEXT: Thing = Thing {
    kind: Kind::Str,
    number: 4,
};

/// An element outside the document, and one in it.
const DIV: Thing = Thing {
    kind: Kind::Element,
    number: 5,
};

const SPAN: Thing = Thing {
    kind: Kind::Element,
    number: 6,
};

/// A listener: its callback, its target, and whether it captures.
type Heard = (u32, Thing, bool);

/// A call: the callback, the phase, and the thing whose listener it is.
type Call = (u32, u32, Thing);

/// A walk: where the event is dispatched and whether it bubbles, the listeners in the order of their adding, what the
/// callbacks do, where the callback 0 acts before the walk, and the calls.
type Row<'a> = (Thing, bool, &'a [Heard], &'a [(u32, Act)], &'a [Call]);

/// What a callback does.
#[derive(Clone, Copy)]
enum Act {
    Stop,
    StopNow,
    Add(Heard),
    Remove(Heard),
    /// The same event is dispatched, which is refused.
    Again,
    /// Another event is dispatched at a thing, with as many of these calls.
    Other(Thing, usize, [Call; 3]),
}

/// The document with html, body, p and a text, one in the other, and outside it a div with a span.
fn grown(rt: &impl Abort, alloc: Global) -> Result<Tree, Fail> {
    let mut tree = Tree::new(alloc)?;
    for (parent, tag) in [
        (0, "html"),
        (1, "body"),
        (2, "p"),
        (3, ""),
        (9, "div"),
        (5, "span"),
    ] {
        assert!(rt; tree.count() < 1_000_000);
        let form = if tag == "" {
            NodeForm::Str(Text::of(alloc, "one")?)
        } else {
            NodeForm::Element(Text::of(alloc, tag)?)
        };
        let node = tree.create(PAGE, form)?;
        if parent < 9 {
            assert!(rt; parent < tree.count() && node.0 < tree.count());
            tree.insert(NodeId(parent), node, None)?;
        }
    }
    Ok(tree)
}

fn listener(alloc: Global, heard: Heard) -> Result<Listener, Fail> {
    let (callback, target, capture) = heard;
    Ok(Listener {
        owner: PAGE,
        target,
        kind: Text::of(alloc, "click")?,
        callback,
        capture,
    })
}

fn add(
    rt: &impl Abort,
    alloc: Global,
    listeners: &mut Listeners,
    heard: Heard,
) -> Result<(), Fail> {
    assert!(rt; listeners.given < 1_000_000);
    listeners.add(listener(alloc, heard)?)?;
    Ok(())
}

fn create(rt: &impl Abort, alloc: Global, events: &mut Events, bubbles: bool) -> Result<u32, Fail> {
    assert!(rt; events.events.len() < 1_000_000);
    Ok(events.create(EventForm {
        kind: Text::of(alloc, "click")?,
        bubbles,
        cancelable: false,
        trusted: true,
        detail: Value::Null,
    })?)
}

fn begin(
    rt: &impl Abort,
    alloc: Global,
    events: &mut Events,
    tree: &Tree,
    event: u32,
    target: Thing,
) -> Result<Walk, EventFault> {
    assert!(rt; (event as usize) < events.events.len());
    assert!(rt; target.number < tree.count());
    events.begin(alloc, tree, event, target, true)
}

fn next(
    rt: &impl Abort,
    walk: &mut Walk,
    listeners: &Listeners,
    events: &mut Events,
) -> Result<Option<Call>, Fail> {
    assert!(rt; (walk.event() as usize) < events.events.len());
    let due = next_listener(walk, listeners, events)?;
    Ok(due.map(|d| (d.callback, d.visit.phase, d.visit.current)))
}

/// Whether an event in dispatch is at a call, or where there is none, is in no dispatch and has no flag.
fn is_at(rt: &impl Abort, events: &Events, event: u32, call: Option<Call>) -> bool {
    assert!(rt; (event as usize) < events.events.len());
    let ended = !events.in_dispatch(event)
        && !events.flag(event, Flag::Stop)
        && !events.flag(event, Flag::StopNow);
    match call {
        Some((_, phase, current)) => {
            !ended && events.phase(event) == phase && events.current(event) == Some(current)
        }
        None => ended && events.phase(event) == 0 && events.current(event) == None,
    }
}

fn raise(rt: &impl Abort, events: &mut Events, event: u32, now: bool) {
    assert!(rt; (event as usize) < events.events.len());
    if now {
        events.raise(event, Flag::StopNow);
    } else {
        events.raise(event, Flag::Stop);
    }
}

/// Whether a new event's walk has just these calls, where callbacks do nothing.
fn plays_plain(
    rt: &impl Abort,
    alloc: Global,
    tree: &Tree,
    listeners: &Listeners,
    events: &mut Events,
    target: Thing,
    calls: &[Call],
) -> Result<bool, Fail> {
    let event = create(rt, alloc, events, true)?;
    let mut walk = begin(rt, alloc, events, tree, event, target)?;
    for call in calls {
        if next(rt, &mut walk, listeners, events)? != Some(*call) {
            return Ok(false);
        }
    }
    Ok(next(rt, &mut walk, listeners, events)? == None && is_at(rt, events, event, None))
}

/// Does what one callback does; whether it went as wanted.
fn play_act(
    rt: &impl Abort,
    alloc: Global,
    tree: &Tree,
    listeners: &mut Listeners,
    events: &mut Events,
    act: Act,
) -> Result<bool, Fail> {
    match act {
        Act::Stop => raise(rt, events, 0, false),
        Act::StopNow => raise(rt, events, 0, true),
        Act::Add(heard) => add(rt, alloc, listeners, heard)?,
        Act::Remove(heard) => return Ok(listeners.remove(&listener(alloc, heard)?)),
        Act::Again => {
            return Ok(begin(rt, alloc, events, tree, 0, P).err() == Some(EventFault::Busy));
        }
        Act::Other(target, count, calls) => {
            assert!(rt; count <= calls.len());
            return plays_plain(rt, alloc, tree, listeners, events, target, &calls[..count]);
        }
    }
    Ok(true)
}

/// Does what a callback does, in order.
fn acts(
    rt: &impl Abort,
    alloc: Global,
    tree: &Tree,
    listeners: &mut Listeners,
    events: &mut Events,
    all: &[(u32, Act)],
    callback: u32,
) -> Result<bool, Fail> {
    for (who, what) in all {
        if *who == callback && !play_act(rt, alloc, tree, listeners, events, *what)? {
            return Ok(false);
        }
    }
    Ok(true)
}

/// Whether a walk makes the calls of its row, and stays at its end then.
fn plays(rt: &impl Abort, alloc: Global, tree: &Tree, row: &Row) -> Result<bool, Fail> {
    let (target, bubbles, heard, all, calls) = *row;
    let mut listeners = Listeners::new(alloc);
    let mut events = Events::new(alloc);
    for one in heard {
        add(rt, alloc, &mut listeners, *one)?;
    }
    create(rt, alloc, &mut events, bubbles)?;
    let mut right = acts(rt, alloc, tree, &mut listeners, &mut events, all, 0)?;
    let mut walk = begin(rt, alloc, &mut events, tree, 0, target)?;
    for call in calls {
        let due = next(rt, &mut walk, &listeners, &mut events)?;
        right = right && due == Some(*call) && is_at(rt, &events, 0, due);
        right = right && acts(rt, alloc, tree, &mut listeners, &mut events, all, call.0)?;
    }
    Ok(right && stays_at_end(rt, &mut walk, &listeners, &mut events)?)
}

/// Whether no listener of the first event is due, asked twice.
fn stays_at_end(
    rt: &impl Abort,
    walk: &mut Walk,
    listeners: &Listeners,
    events: &mut Events,
) -> Result<bool, Fail> {
    for _ in 0..2 {
        if next(rt, walk, listeners, events)? != None || !is_at(rt, events, 0, None) {
            return Ok(false);
        }
    }
    Ok(true)
}

/// The place of the first row whose walk goes another way; the number of rows where none does.
fn first_wrong(rt: &impl Abort, alloc: Global, rows: &[Row]) -> Result<usize, Fail> {
    let tree = grown(rt, alloc)?;
    for at in 0..rows.len() {
        if !plays(rt, alloc, &tree, &rows[at])? {
            return Ok(at);
        }
    }
    Ok(rows.len())
}
