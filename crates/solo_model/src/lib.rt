//! What the marks of a run mean: the document after them, the true answers, what one actor sees of them, and what
//! a script does by itself, given only what it is shown. These are definitions, in `specs/`; the functions here
//! carry the laws about them.
#![tactic(auto)]

mod determinism;
mod facts;
mod laws;

pub use determinism::{entries_go_on_one_way, scripts_have_no_fault, tokens_have_one_first_fault};
pub use facts::{
    acts_are_computed, orders_are_computed, runs_are_computed, truths_are_computed,
    views_are_computed, ways_out_are_computed,
};
pub use laws::{
    equal_shows_give_equal_deeds, equal_shows_of_a_run_give_equal_deeds,
    genuine_journals_name_no_cell_of_the_host, lawful_journals_end, names_tell_what_they_name,
    no_line_sets_the_clock_back, reached_machines_act_alone, the_closed_front_is_the_longest,
    the_closed_front_of_a_run_is_the_longest,
};
