//! The actors of a run, each in its zone and under its principal, and how one sees what another owns.
#![tactic(auto)]

mod compartments;
mod looks;
mod principals;

pub use compartments::{Compartment, Compartments};
pub use door::Zone;
pub use looks::{looks_follow_rights, policy};
pub use principals::{Principal, principals_are_ordered, subsumes};

#[cfg(test)]
mod tests;
