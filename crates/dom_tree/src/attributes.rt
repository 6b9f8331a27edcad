//! Attributes in order, by name and value.

ghost use Rattle.std.specs.Prelude.{◌≡◌, IfOk, OnOk, OnErr, position};
ghost use Rattle.dom_semantics.specs.Forest.{has_name};
ghost use Rattle.dom_semantics.specs.Changes.{set_in, dropped_from};
ghost use Rattle.dom_tree.specs.Places.{is_named};

use base_text::{Mem, Text};
use std::alloc::Global;

/// The place of the first attribute of a name.
pub fn place_of(attributes: &[(Text, Text)], name: &Text) -> Option<usize>
    ensures { result ≡ position (is_named name.now) attributes.now }
{
    attributes.iter().position(|attribute| attribute.0 == *name)
}

/// Sets the attribute of a name, which goes last where it is new.
pub fn set_value(attributes: &mut Vec<(Text, Text)>, name: &Text, value: &Text) -> Mem<()>
    ensures ok { OnOk result (attributes.new.items ≡ set_in name.now value.now attributes.old.items) }
    ensures err { OnErr result (attributes.new.items ≡ attributes.old.items) }
{
    let value = value.share()?;
    match place_of(attributes, name) {
        Some(at) => attributes[at].1 = value,
        None => attributes.push((name.share()?, value))?,
    }
    Ok(())
}

/// Drops the attributes of a name, and answers whether there was one.
pub fn drop_name(attributes: &mut Vec<(Text, Text)>, name: &Text) -> bool
    ensures dropped { attributes.new.items ≡ dropped_from name.now attributes.old.items }
    ensures there { result ≡ has_name name.now attributes.old.items }
{
    let there = place_of(attributes, name).is_some();
    attributes.retain(|attribute| attribute.0 != *name);
    there
}

/// The same attributes once more.
pub fn shared(alloc: Global, attributes: &[(Text, Text)]) -> Mem<Vec<(Text, Text)>>
    ensures { IfOk result (λ copy. copy.items ≡ attributes.now) }
{
    let mut copy = Vec::new(alloc);
    for attribute in attributes {
        copy.push((attribute.0.share()?, attribute.1.share()?))?;
    }
    Ok(copy)
}
