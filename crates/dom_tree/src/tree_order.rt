//! The one way through a tree, in tree order (DOM, Trees).

ghost use Rattle.std.specs.Prelude.{◌≡◌, ◌<◌, ℕ, true, false, IfSome, MatchResult, length};
ghost use Rattle.std.specs.List.{flat_map};
ghost use Rattle.dom_semantics.specs.Forest.{children_of, descendants_of, in_order, tree_order};
ghost use Rattle.dom_tree.specs.Ancestors.{AreNodes};
ghost use Rattle.dom_tree.specs.Folds.{Finds, MayFold, TryFolds};
ghost use Rattle.dom_tree.specs.Ids.{node_id, number_of};

use crate::form::NodeId;
use crate::limits::depth_limit;
use crate::node::Stored;
use crate::tree::Tree;

impl Tree {
    /// Folds the descendants of a node in tree order by a step, and answers its first fault, if it has one.
    pub fn try_fold_descendants<B, E, F: Fn(B, NodeId) -> Result<B, E>>(
        &self,
        node: NodeId,
        init: B,
        step: F,
    ) -> Result<B, E>
        requires known { node.0 < length self.now }
        requires callable { MayFold (F.pre step) (F.post step) self.now init (descendants_of self.now node.0) }
        ensures { TryFolds (F.post step) self.now init (descendants_of self.now node.0) result }
    {
        fold_below(&self.nodes, node.0, depth_limit(), init, &step)
    }

    /// The first in tree order that passes among a node and its descendants.
    pub fn find<P: Fn(NodeId) -> bool>(&self, node: NodeId, passes: P) -> Option<NodeId>
        requires known { node.0 < length self.now }
        requires callable { (n : ℕ) → n < length self.now → P.pre passes (node_id n) }
        ensures first { Finds (P.post passes) self.now (tree_order self.now node.0) (number_of result) }
        ensures known { IfSome result (λ n. n.0 < length self.now) }
    {
        if passes(node) {
            return Some(node);
        }
        match self.try_fold_descendants(node, (), |_, n| end_at(&passes, n)) {
            Ok(_) => None,
            Err(found) => Some(found),
        }
    }
}

/// Ends a fold at a node that passes.
fn end_at<P: Fn(NodeId) -> bool>(passes: &P, n: NodeId) -> Result<(), NodeId>
    requires { P.pre passes.now n }
    ensures { MatchResult result (λ _. P.post passes.now n false) (λ found. P.post passes.now n true × (found ≡ n)) }
{
    if passes(n) {
        return Err(n);
    }
    Ok(())
}

/// Folds what is below a node in tree order, for so many levels.
fn fold_below<B, E, F: Fn(B, NodeId) -> Result<B, E>>(
    nodes: &[Stored],
    n: u32,
    levels: u32,
    init: B,
    step: &F,
) -> Result<B, E>
    requires known { AreNodes nodes.now }
    requires node { n < length nodes.now }
    requires callable { MayFold (F.pre step.now) (F.post step.now) nodes.now init (flat_map (λ child. in_order levels nodes.now child) (children_of nodes.now n)) }
    ensures { TryFolds (F.post step.now) nodes.now init (flat_map (λ child. in_order levels nodes.now child) (children_of nodes.now n)) result }
{
    if levels == 0 {
        return Ok(init);
    }
    let mut folded = init;
    for child in nodes[n as usize].children() {
        folded = step(folded, NodeId(*child))?;
        folded = fold_below(nodes, *child, levels - 1, folded, step)?;
    }
    Ok(folded)
}
