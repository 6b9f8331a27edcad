//! Timers (HTML, 8.6 Timers), as plain values, so that the definitions and the code speak of one type.

use door::Actor;

/// This project's own: the longest delay in milliseconds.
pub const DELAY_LIMIT: u32 = 1_000_000_000;

/// A timer that waits. Its callback goes by its place among the actor's proper cells.
#[derive(Clone, Copy, Debug, PartialEq, Eq)]
pub struct Timer {
    pub actor: Actor,
    /// Its number among the actor's, from 1.
    pub number: u32,
    pub callback: u32,
    /// The clock at which it runs, in milliseconds of the counted clock.
    pub due: u64,
}
