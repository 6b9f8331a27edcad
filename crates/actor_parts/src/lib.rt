//! What of the heap is the machine of one actor, and how each call of the heap changes it. These are definitions, in
//! `specs/`; the functions here are their laws.
#![tactic(auto)]

mod laws;

pub use laws::{added_cells_leave_names, parts_are_read, parts_are_written};
