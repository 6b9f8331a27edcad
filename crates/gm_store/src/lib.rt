//! What userscripts keep from run to run: one finite map for each script, so that none sees the values
//! of another, and the text that the maps are kept as.
#![tactic(auto)]

mod laws;
mod load;
mod stores;
#[cfg(test)]
mod tests;
mod text_map;
mod written;

pub use dom_semantics::{Kept, VALUE_LIMIT};
pub use laws::{
    maps_are_kept_as_on_the_stage, stored_texts_are_read_one_way,
    stores_that_keep_the_same_have_one_text, written_texts_load_as_the_same_maps,
};
pub use stores::{SetFault, StoreFault, StoreKind, Stores};
