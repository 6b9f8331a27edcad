//! Listeners and what a walk calls (DOM, 2.7 Interface EventTarget, 2.9 Dispatching events), as plain values, so that
//! the definitions and the code speak of one type.

use base_text::Text;
use door::{Actor, Thing};

/// A listener. Its callback goes by its place among the owner's proper cells.
#[derive(Debug, Drop, PartialEq, Eq)]
pub struct Listener {
    pub owner: Actor,
    pub target: Thing,
    /// The type of the events that it listens for.
    pub kind: Text,
    pub callback: u32,
    pub capture: bool,
}

/// A listener in the event listener list of its target, with the number of its adding, which tells it from an equal
/// one that was removed and added again.
#[derive(Debug, Drop)]
pub struct Registration {
    pub number: u32,
    pub listener: Listener,
}

/// One visit of a walk: a thing of the path, and which of its listeners run there.
#[derive(Clone, Copy, Debug, PartialEq, Eq)]
pub struct Visit {
    pub current: Thing,
    /// 1 capturing, 2 at the target, 3 bubbling.
    pub phase: u32,
    pub capture: bool,
}

/// The listener that a walk calls next, and where.
#[derive(Clone, Copy, Debug, PartialEq, Eq)]
pub struct Due {
    pub owner: Actor,
    pub callback: u32,
    pub visit: Visit,
}
