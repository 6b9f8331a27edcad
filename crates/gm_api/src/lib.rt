//! What a call of a function for userscripts does, so that the kinds of its arguments are judged in
//! one place.
#![tactic(auto)]

mod steps;
#[cfg(test)]
mod tests;

pub use steps::{GmStep, decide};
