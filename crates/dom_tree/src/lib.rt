//! The document as a tree of nodes that are named by number, which contracts see as the forest of `dom_semantics`.
#![tactic(auto)]

mod ancestors;
mod attributes;
mod attributes_api;
mod changes;
mod clones;
mod copies;
mod counts;
mod form;
mod inserts;
mod levels;
mod limits;
mod node;
mod node_changes;
mod numbers;
mod text_content;
mod texts;
mod tree;
mod tree_order;

pub use form::{NodeForm, NodeId, TreeFault};
pub use limits::TREE_LEVELS;
pub use tree::Tree;
