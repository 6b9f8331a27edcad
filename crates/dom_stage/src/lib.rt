//! The stage of a run: document, events, listeners, timers and store, and the true answer to each request.
#![tactic(auto)]

mod document;
mod event;
mod moves;
mod node;
mod refusals;
mod stage;
mod target;
mod window;

pub use stage::Stage;

#[cfg(test)]
mod tests;
