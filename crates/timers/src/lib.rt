//! Timers that wait for the host's clock (HTML, 8.6 Timers).
#![tactic(auto)]

mod numbers;
mod timers;

pub use timers::{DueTimer, TimerFault, Timers};

#[cfg(test)]
mod tests;
