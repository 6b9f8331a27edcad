//! The limits of a tree as `door` has them, in the words of the definitions.

ghost use Rattle.std.specs.Prelude.{◌≡◌, ◌<◌, ◌^◌};
ghost use Rattle.dom_semantics.specs.Forest as forest;

use door::{DEPTH_LIMIT, NODE_LIMIT};

/// The most levels of a tree: the root is one, and no node is over `DEPTH_LIMIT` steps below it.
pub const TREE_LEVELS: u32 = DEPTH_LIMIT + 1;

/// The most steps of a node below its root.
pub fn depth_limit() -> u32
    ensures exact { result ≡ forest.DEPTH_LIMIT }
    ensures small { result < 2 ^ 20 }
{
    DEPTH_LIMIT
}

/// The most nodes of one maker.
pub fn node_limit() -> u32
    ensures exact { result ≡ forest.NODE_LIMIT }
    ensures small { result < 2 ^ 20 }
{
    NODE_LIMIT
}
