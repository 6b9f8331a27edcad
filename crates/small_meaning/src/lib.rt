//! What the small forms of scripts mean, row by row, and that it is what the language says of them.
#![tactic(auto)]

mod laws;
mod prim;

pub use laws::small_solos_are_solos;
pub use prim::Prim;
