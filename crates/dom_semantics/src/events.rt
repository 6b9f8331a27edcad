//! Events (DOM, 2.2 Interface Event), as plain values, so that the definitions and the code speak of one type.

use base_text::Text;
use door::{Thing, Value};

/// What an event is made with.
#[derive(Debug, Drop)]
pub struct EventForm {
    /// Its type.
    pub kind: Text,
    pub bubbles: bool,
    pub cancelable: bool,
    /// Whether the host made it and no script has dispatched it.
    pub trusted: bool,
    pub detail: Value,
}

/// The flags that listeners raise (DOM, 2.2: stop propagation flag, stop immediate propagation flag, canceled flag).
#[derive(Clone, Copy, Debug, PartialEq, Eq)]
pub enum Flag {
    /// The walk visits no further thing of the path.
    Stop,
    /// No further listener is called.
    StopNow,
    /// The default is prevented.
    Prevented,
}

/// An event in its present state.
#[derive(Debug, Drop)]
pub struct Event {
    pub form: EventForm,
    pub stop: bool,
    pub stop_now: bool,
    pub prevented: bool,
    pub in_dispatch: bool,
    pub target: Option<Thing>,
    /// The thing whose listener runs.
    pub current: Option<Thing>,
    /// 0 none, 1 capturing, 2 at the target, 3 bubbling.
    pub phase: u32,
}
