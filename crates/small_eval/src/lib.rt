//! Runs a page and its userscripts in the forms that are read today: the world of a run is its journal and the document that the journal makes.
#![tactic(auto)]

mod ask;
mod build;
mod entry;
mod evaluate;
mod event;
mod exit;
mod lists;
mod page;
mod run;
mod title;
mod world;

pub use run::play;
pub use world::World;
