//! Journals of small runs are right by the whole definitions. These are definitions and laws; the functions here do
//! nothing.
#![tactic(auto)]

mod laws;

pub use laws::{
    small_givens_are_given, small_runs_are_right, small_runs_are_right_so_far,
    small_runs_have_one_document,
};
