//! How many levels the tree under a node has.

ghost use Rattle.std.specs.Prelude.{◌≡◌, ◌<◌, length};
ghost use Rattle.dom_semantics.specs.Forest.{has_levels};
ghost use Rattle.dom_tree.specs.Ancestors.{AreNodes};

use crate::node::Stored;

/// Whether the tree under a node, with itself, has at most so many levels.
pub fn fits_levels(nodes: &[Stored], n: u32, levels: u32) -> bool
    requires known { AreNodes nodes.now }
    requires node { n < length nodes.now }
    ensures { result ≡ has_levels levels nodes.now n }
{
    if levels == 0 {
        return false;
    }
    for child in nodes[n as usize].children() {
        if !fits_levels(nodes, *child, levels - 1) {
            return false;
        }
    }
    true
}
