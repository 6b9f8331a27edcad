//! Reads the lines of a scenario: which events the host sends, and how far it moves the clock.
#![tactic(auto)]

mod fault;
mod fields;
mod laws;
mod line;
mod number;
mod read;
#[cfg(test)]
mod tests;

pub use fault::{EventsFault, EventsKind};
pub use laws::{a_scenario_has_one_reading, some_scenarios_are_read_so};
pub use line::{Line, SCENARIO_LIMIT, TICK_LIMIT};
pub use read::read_events;
