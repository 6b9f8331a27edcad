//! The cells of all actors on one heap: objects, scopes and wrappers, each owned by one actor.
#![tactic(auto)]

mod bindings;
mod cell;
mod elements;
mod heap;
mod key;
mod owner;
mod slots;
mod values;

pub use bindings::{Binding, Bindings};
pub use cell::Cell;
pub use elements::Elements;
pub use heap::Heap;
pub use owner::{Owner, StandardPrototype};
pub use slots::{KeyedProp, Slots};
pub use values::{CellId, Form, HeapFault, PLACE_LIMIT, Prop, Slot, Standard};
