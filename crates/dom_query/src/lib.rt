//! Searching a tree: selectors, ids and tags.
#![tactic(auto)]

mod built;
mod fault;
mod fits;
mod kind;
mod laws;
mod parse;
mod queries;
mod selector;
mod state;
mod walk;

pub use fault::SelectorFault;
pub use laws::selectors_have_a_reading;
pub use parse::parse_selector;
pub use queries::{by_id, by_tag, select};
pub use selector::Selector;
