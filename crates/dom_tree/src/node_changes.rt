//! Changes of one node among all, as the forest has them.

ghost use Rattle.std.specs.Prelude.{◌≡◌, ◌<◌, ◌+◌, ◌^◌, true, [], ◌∷◌, ◌++◌, OnOk, OnErr, length};
ghost use Rattle.dom_semantics.specs.Forest.{IsForest, form_at, parent_of, is_among, is_child, children_of, attributes_of, has_name};
ghost use Rattle.dom_semantics.specs.Changes.{with_children, with_attributes, with_attribute, without_attribute, with_form, without, placed, removed, moved};
ghost use Rattle.door.specs.declared.values.Actor.{Actor as AnyActor};
ghost use Rattle.dom_tree.specs.Counts.{count_in, IsRaised};
ghost use Rattle.dom_tree.specs.Forms.{data_in};

use crate::copies::Copies;
use crate::counts::{make_room, raise};
use crate::node::Stored;
use base_text::{Mem, Text};
use door::Actor;

/// Puts a child before another, or last.
pub fn put_child(nodes: &mut [Stored], at: usize, child: u32, before: Option<u32>) -> Mem<()>
    requires { at < length nodes.old }
    ensures ok { OnOk result (nodes.new ≡ with_children nodes.old at (placed child before (children_of nodes.old at))) }
    ensures err { OnErr result (nodes.new ≡ nodes.old) }
{
    nodes[at].put_child(child, before)
}

/// Moves a child before another, or to the end.
pub fn shift_child(nodes: &mut [Stored], at: usize, child: u32, before: Option<u32>)
    requires within { at < length nodes.old }
    requires child { is_child nodes.old at child ≡ true }
    ensures { nodes.new ≡ with_children nodes.old at (placed child before (without child (children_of nodes.old at))) }
{
    nodes[at].shift_child(child, before);
}

/// Takes a child out.
pub fn drop_child(nodes: &mut [Stored], at: usize, child: u32)
    requires { at < length nodes.old }
    ensures { nodes.new ≡ with_children nodes.old at (without child (children_of nodes.old at)) }
{
    nodes[at].drop_child(child);
}

/// Gives a node these children.
pub fn set_children(nodes: &mut [Stored], at: usize, children: Vec<u32>)
    requires { at < length nodes.old }
    ensures { nodes.new ≡ with_children nodes.old at children.items }
{
    nodes[at].set_children(children);
}

/// Replaces the data of a text or a comment.
pub fn set_data(nodes: &mut [Stored], at: usize, text: Text)
    requires { at < length nodes.old }
    ensures { nodes.new ≡ with_form nodes.old at (data_in (form_at nodes.old at) text) }
{
    nodes[at].set_data(text);
}

/// Sets the attribute of a name.
pub fn set_attribute(nodes: &mut [Stored], at: usize, name: &Text, value: &Text) -> Mem<()>
    requires { at < length nodes.old }
    ensures ok { OnOk result (nodes.new ≡ with_attribute nodes.old at name.now value.now) }
    ensures err { OnErr result (nodes.new ≡ nodes.old) }
{
    nodes[at].set_attribute(name, value)
}

/// Drops the attribute of a name, and answers whether there was one.
pub fn drop_attribute(nodes: &mut [Stored], at: usize, name: &Text) -> bool
    requires { at < length nodes.old }
    ensures dropped { nodes.new ≡ without_attribute nodes.old at name.now }
    ensures there { result ≡ has_name name.now (attributes_of nodes.old at) }
{
    nodes[at].drop_attribute(name)
}

/// Takes a node out of its parent.
pub fn remove_node(nodes: &mut [Stored], parent: u32, node: u32)
    requires forest { IsForest nodes.old }
    requires from { parent_of nodes.old node ≡ Some parent }
    requires known { parent < length nodes.old }
    ensures { nodes.new ≡ removed nodes.old node }
{
    drop_child(nodes, parent as usize, node);
}

/// Moves a node from the parent that it has, if any, below another, before that child or last.
pub fn move_node(
    nodes: &mut [Stored],
    old: Option<u32>,
    parent: u32,
    node: u32,
    before: Option<u32>,
) -> Mem<()>
    requires forest { IsForest nodes.old }
    requires from { parent_of nodes.old node ≡ old }
    requires known { parent < length nodes.old }
    ensures ok { OnOk result (nodes.new ≡ moved (removed nodes.old node) parent node before) }
    ensures err { OnErr result (nodes.new ≡ nodes.old) }
{
    let at = parent as usize;
    let Some(from) = old else {
        return put_child(nodes, at, node, before);
    };
    if from == parent {
        shift_child(nodes, at, node, before);
        return Ok(());
    }
    put_child(nodes, at, node, before)?;
    drop_child(nodes, from as usize, node);
    Ok(())
}

/// Adds a node of a maker, which has no parent, and counts it.
pub fn add_node(
    nodes: &mut Vec<Stored>,
    parents: &mut Vec<Option<u32>>,
    counts: &mut Vec<(Actor, u32)>,
    maker: Actor,
    node: Stored,
) -> Mem<()>
    requires { count_in counts.old.items maker + 1 < 2 ^ 32 }
    ensures nodes { OnOk result (nodes.new.items ≡ nodes.old.items ++ node ∷ []) }
    ensures parents { OnOk result (parents.new.items ≡ parents.old.items ++ None ∷ []) }
    ensures counts { OnOk result (IsRaised counts.old.items counts.new.items maker 1) }
    ensures no_nodes { OnErr result (nodes.new.items ≡ nodes.old.items) }
    ensures no_parents { OnErr result (parents.new.items ≡ parents.old.items) }
    ensures no_counts { OnErr result ((other : AnyActor) → count_in counts.new.items other ≡ count_in counts.old.items other) }
{
    nodes.reserve(1)?;
    parents.reserve(1)?;
    make_room(counts, maker)?;
    nodes.push(node)?;
    parents.push(None)?;
    raise(counts, maker, 1);
    Ok(())
}

/// Adds nodes of one maker with their parents, and counts them.
pub fn add_nodes(
    nodes: &mut Vec<Stored>,
    parents: &mut Vec<Option<u32>>,
    counts: &mut Vec<(Actor, u32)>,
    maker: Actor,
    more: &mut Copies,
) -> Mem<()>
    requires { count_in counts.old.items maker + length more.old.nodes.items < 2 ^ 32 }
    ensures nodes { OnOk result (nodes.new.items ≡ nodes.old.items ++ more.old.nodes.items) }
    ensures parents { OnOk result (parents.new.items ≡ parents.old.items ++ more.old.parents.items) }
    ensures counts { OnOk result (IsRaised counts.old.items counts.new.items maker (length more.old.nodes.items)) }
    ensures no_nodes { OnErr result (nodes.new.items ≡ nodes.old.items) }
    ensures no_parents { OnErr result (parents.new.items ≡ parents.old.items) }
    ensures no_counts { OnErr result ((other : AnyActor) → count_in counts.new.items other ≡ count_in counts.old.items other) }
{
    let count = more.nodes.len() as u32;
    nodes.reserve(more.nodes.len())?;
    parents.reserve(more.parents.len())?;
    make_room(counts, maker)?;
    nodes.append(&mut more.nodes)?;
    parents.append(&mut more.parents)?;
    raise(counts, maker, count);
    Ok(())
}
