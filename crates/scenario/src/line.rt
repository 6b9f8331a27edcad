//! What a line of a scenario says, and the limits of scenarios.

use base_text::Text;
use dom_query::Selector;

/// The most bytes of a scenario.
pub const SCENARIO_LIMIT: usize = 262_144;

/// The most milliseconds of one `tick` line.
pub const TICK_LIMIT: u32 = 1_000_000_000;

/// What a line says. Each has the line's number in the file first, from 1 over all lines.
#[derive(Debug, Drop)]
pub enum Line {
    /// `click SELECTOR`
    Click(u32, Selector),
    /// `input SELECTOR TEXT`
    Input(u32, Selector, Text),
    /// `event SELECTOR NAME`
    Event(u32, Selector, Text),
    /// `tick N`
    Tick(u32, u32),
}

/// The word that a line begins with.
#[derive(Clone, Copy, Debug, PartialEq, Eq)]
pub(crate) enum Verb {
    Click,
    Input,
    Event,
    Tick,
}
