//! What the host makes of a page: each request stands in the journal, and the document goes along.

ghost use Rattle.std.specs.Prelude.{◌≡◌, ◌<◌, ◌≤◌, ◌+◌, ◌^◌, [], ◌∷◌, ◌++◌, codes, None, length, IfOk, IsTrue, OnOk};
ghost use Rattle.std.specs.List.{list_all};
ghost use Rattle.std.specs.Char.{is_ascii};
ghost use Rattle.base_text.specs.declared.text.TheConstants.{TEXT_LIMIT};
ghost use Rattle.dom_semantics.specs.Changes.{create_refusal, created, with_attribute};
ghost use Rattle.dom_semantics.specs.Forest.{Tagged, Written, form_at, is_element, the_host};
ghost use Rattle.door.specs.declared.marks.Mark.TheVariants.{Build};
ghost use Rattle.door.specs.declared.values.Kind.TheVariants.{Element};
ghost use Rattle.dom_tree.specs.Forms.{form_of};
ghost use Rattle.solo_model.specs.Things.{thing_of};
ghost use Rattle.solo_model.specs.Lawful.{is_node, placed};
ghost use Rattle.solo_model.specs.Stage.{HasRow};
ghost use Rattle.small_eval.specs.Builds.{HasBuilt, HasRoom, IsMaking, appended};
ghost use Rattle.small_eval.specs.Continuations.{Adds};
ghost use Rattle.small_eval.specs.Heads.{IsHeaded};
ghost use Rattle.small_eval.specs.Pieces.{appends, creates, element_writes, identified_writes, identifies, text_writes, writes};
ghost use Rattle.small_eval.specs.Worlds.{IsSound};
ghost use Rattle.door.specs.declared.limits.TheConstants.{NODE_LIMIT};

use crate::lists::{one, two};
use crate::world::{World, note};
use base_text::{Mem, NoMemory, Text};
use dom_tree::{NodeForm, NodeId, Tree, TreeFault};
use door::{DOCUMENT, HOST, Kind, Mark, Member, Request, Thing, Value};
use small_forms::text_of;
use std::alloc::Global;

/// The number among the page's own nodes of the next that is made.
pub fn next_number(world: &World) -> u32
    requires { length world.now.own.items ≤ NODE_LIMIT }
    ensures { result ≡ length world.now.own.items }
{
    world.own.len() as u32
}

/// A node of the page under its number among all.
fn place(world: &World, thing: Thing) -> Thing
    requires sound { IsSound world.now }
    requires node { IsTrue (is_node thing.kind) }
    requires known { thing.number < length world.now.own.items }
    ensures placed { result ≡ placed world.now.tree thing }
{
    Thing {
        kind: thing.kind,
        number: world.own[thing.number as usize],
    }
}

/// The host makes a node.
fn make(tree: &mut Tree, form: NodeForm) -> Mem<()>
    requires short { length tree.old < 2 ^ 31 }
    requires may { create_refusal tree.old the_host ≡ None }
    ensures tree { OnOk result (tree.new ≡ created tree.old the_host (form_of form)) }
{
    match tree.create(HOST, form) {
        Ok(_) => Ok(()),
        Err(TreeFault::NoMemory) => Err(NoMemory),
        Err(
            TreeFault::NodeLimit
            | TreeFault::Hierarchy
            | TreeFault::NotFound
            | TreeFault::TooDeep
            | TreeFault::TooLong,
        ) => unreachable!(),
    }
}

/// The host makes a node by this request.
fn create(world: &mut World, request: Request, form: NodeForm) -> Mem<()>
    requires room { HasRoom 1 1 world.old }
    requires row { HasRow request }
    requires makes { IsMaking request (form_of form) }
    ensures added { OnOk result (Adds world.old.journal world.new.journal (Build request ∷ [])) }
    ensures sound { OnOk result (IsSound world.new) }
    ensures tree { OnOk result (world.new.tree ≡ created world.old.tree the_host (form_of form)) }
    ensures own { OnOk result (world.new.own.items ≡ world.old.own.items ++ length world.old.tree ∷ []) }
{
    let number = world.tree.count();
    world.own.push(number)?;
    make(&mut world.tree, form)?;
    note(world, Mark::Build(request))?;
    Ok(())
}

/// The host makes an element of a tag.
fn create_element(alloc: Global, world: &mut World, tag: &Text) -> Mem<()>
    requires room { HasRoom 1 1 world.old }
    ensures built { OnOk result (HasBuilt (creates tag.now ∷ []) 1 world.old world.new) }
    ensures tree { OnOk result (world.new.tree ≡ created world.old.tree the_host (Tagged tag.now)) }
    ensures own { OnOk result (world.new.own.items ≡ world.old.own.items ++ length world.old.tree ∷ []) }
{
    let arguments = one(alloc, Value::Str(tag.share()?))?;
    let request = Request::Native(Member::DocumentCreateElement, DOCUMENT, arguments);
    create(world, request, NodeForm::Element(tag.share()?))?;
    Ok(())
}

/// The host makes a text.
fn create_text(alloc: Global, world: &mut World, text: &Text) -> Mem<()>
    requires room { HasRoom 1 1 world.old }
    ensures built { OnOk result (HasBuilt (writes text.now ∷ []) 1 world.old world.new) }
    ensures tree { OnOk result (world.new.tree ≡ created world.old.tree the_host (Written text.now)) }
{
    let arguments = one(alloc, Value::Str(text.share()?))?;
    let request = Request::Native(Member::DocumentCreateTextNode, DOCUMENT, arguments);
    create(world, request, NodeForm::Str(text.share()?))?;
    Ok(())
}

/// The child goes last into the parent; where that is refused, nothing changes.
fn put_last(world: &mut World, parent: u32, child: u32) -> Mem<()>
    requires parent { parent < length world.old.tree }
    requires child { child < length world.old.tree }
    ensures tree { OnOk result (world.new ≡ record world.old { tree = appended world.old.tree parent child }) }
{
    match world.tree.insert(NodeId(parent), NodeId(child), None) {
        Ok(()) => Ok(()),
        Err(TreeFault::Hierarchy | TreeFault::NotFound | TreeFault::TooDeep) => Ok(()),
        Err(TreeFault::NoMemory) => Err(NoMemory),
        Err(TreeFault::NodeLimit | TreeFault::TooLong) => unreachable!(),
    }
}

/// The host puts a node last into another; both go by their numbers among the page's own nodes.
fn append(alloc: Global, world: &mut World, parent: Thing, child: Thing) -> Mem<()>
    requires room { HasRoom 1 0 world.old }
    requires parent { IsTrue (is_node parent.kind) × (parent.number < length world.old.own.items) }
    requires child { IsTrue (is_node child.kind) × (child.number < length world.old.own.items) }
    ensures built { OnOk result (HasBuilt (appends parent child ∷ []) 0 world.old world.new) }
    ensures headed { 3 < parent.number → 3 < child.number → IsHeaded world.old.tree → OnOk result (IsHeaded world.new.tree) }
{
    let parent = place(world, parent);
    let child = place(world, child);
    let arguments = one(alloc, Value::Thing(child))?;
    let request = Request::Native(Member::NodeAppendChild, parent, arguments);
    put_last(world, parent.number, child.number)?;
    note(world, Mark::Build(request))?;
    Ok(())
}

/// The host builds an element of a tag, last in this parent.
pub fn build_element(alloc: Global, world: &mut World, tag: &[u8], parent: Thing) -> Mem<()>
    requires room { HasRoom 2 1 world.old }
    requires tag { IsTrue (list_all is_ascii tag.now) × (length tag.now ≤ TEXT_LIMIT) }
    requires parent { IsTrue (is_node parent.kind) × (parent.number < length world.old.own.items) }
    ensures built { OnOk result (HasBuilt (element_writes (length world.old.own.items) tag.now parent) 1 world.old world.new) }
    ensures headed { 3 < parent.number → 3 < length world.old.own.items → IsHeaded world.old.tree → OnOk result (IsHeaded world.new.tree) }
{
    let child = Thing {
        kind: Kind::Element,
        number: next_number(world),
    };
    let tag = text_of(alloc, tag)?;
    create_element(alloc, world, &tag)?;
    append(alloc, world, parent, child)?;
    Ok(())
}

/// The host sets the id of an element, which goes by its number among the page's own nodes.
fn identify(alloc: Global, world: &mut World, number: u32, id: &Text) -> Mem<()>
    requires room { HasRoom 1 0 world.old }
    requires known { number < length world.old.own.items }
    requires element { IsTrue (is_element (form_at world.old.tree (placed world.old.tree (thing_of Element number)).number)) }
    ensures built { OnOk result (HasBuilt (identifies number id.now ∷ []) 0 world.old world.new) }
    ensures headed { 3 < number → IsHeaded world.old.tree → OnOk result (IsHeaded world.new.tree) }
{
    let element = place(
        world,
        Thing {
            kind: Kind::Element,
            number,
        },
    );
    let name = text_of(alloc, b"id")?;
    let arguments = two(alloc, Value::Str(name.share()?), Value::Str(id.share()?))?;
    let request = Request::Native(Member::ElementSetAttribute, element, arguments);
    world.tree.set_attr(NodeId(element.number), &name, id)?;
    note(world, Mark::Build(request))?;
    Ok(())
}

/// The host builds an element of a tag with an id, last in this parent.
pub fn build_identified(
    alloc: Global,
    world: &mut World,
    tag: &[u8],
    id: &[u8],
    parent: Thing,
) -> Mem<()>
    requires room { HasRoom 3 1 world.old }
    requires tag { IsTrue (list_all is_ascii tag.now) × (length tag.now ≤ TEXT_LIMIT) }
    requires id { IsTrue (list_all is_ascii id.now) × (length id.now ≤ TEXT_LIMIT) }
    requires parent { IsTrue (is_node parent.kind) × (parent.number < length world.old.own.items) }
    ensures built { OnOk result (HasBuilt (identified_writes (length world.old.own.items) tag.now id.now parent) 1 world.old world.new) }
    ensures headed { 3 < parent.number → 3 < length world.old.own.items → IsHeaded world.old.tree → OnOk result (IsHeaded world.new.tree) }
{
    let number = next_number(world);
    let child = Thing {
        kind: Kind::Element,
        number,
    };
    let tag = text_of(alloc, tag)?;
    let id = text_of(alloc, id)?;
    create_element(alloc, world, &tag)?;
    identify(alloc, world, number, &id)?;
    append(alloc, world, parent, child)?;
    Ok(())
}

/// The host builds a text, last in this parent.
pub fn build_text(alloc: Global, world: &mut World, text: &Text, parent: Thing) -> Mem<()>
    requires room { HasRoom 2 1 world.old }
    requires parent { IsTrue (is_node parent.kind) × (parent.number < length world.old.own.items) }
    ensures built { OnOk result (HasBuilt (text_writes (length world.old.own.items) text.now parent) 1 world.old world.new) }
    ensures headed { 3 < parent.number → 3 < length world.old.own.items → IsHeaded world.old.tree → OnOk result (IsHeaded world.new.tree) }
{
    let child = Thing {
        kind: Kind::Str,
        number: next_number(world),
    };
    create_text(alloc, world, text)?;
    append(alloc, world, parent, child)?;
    Ok(())
}
