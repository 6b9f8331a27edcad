//! Tables of trees, selectors and pages, with what is wanted of each found by hand: the tests of the crates of the
//! document, in a crate of their own so that none of them is proved twice.
#![tactic(auto)]

#[cfg(test)]
mod builds;
#[cfg(test)]
mod limit_tests;
#[cfg(test)]
mod page_tests;
#[cfg(test)]
mod print_tests;
#[cfg(test)]
mod query_tests;
#[cfg(test)]
mod tree_steps;
#[cfg(test)]
mod tree_tests;
#[cfg(test)]
mod worked_tests;
