//! How the host builds the pieces of a page.

ghost use Rattle.std.specs.Prelude.{◌≡◌, ◌<◌, length, OnOk};
ghost use Rattle.solo_model.specs.Stage.{stage_of, start};
ghost use Rattle.small_eval.specs.Builds.{HasBuilt, HasRoom};
ghost use Rattle.small_eval.specs.Heads.{IsHeaded};
ghost use Rattle.small_eval.specs.Pieces.{block_writes, head_writes, script_writes};
ghost use Rattle.small_eval.specs.Turns.{block_nodes, script_nodes};

use crate::build::{build_element, build_identified, build_text, next_number};
use crate::world::World;
use base_text::{Mem, Text};
use door::{DOCUMENT, Kind, Thing};
use std::alloc::Global;

const HTML: Thing = Thing {
    kind: Kind::Element,
    number: 1,
};

const HEAD: Thing = Thing {
    kind: Kind::Element,
    number: 2,
};

const TITLE: Thing = Thing {
    kind: Kind::Element,
    number: 3,
};

const BODY: Thing = Thing {
    kind: Kind::Element,
    number: 5,
};

/// The page up to its open body.
pub fn build_head(alloc: Global, world: &mut World, title: &Text) -> Mem<()>
    requires room { HasRoom 10 5 world.old }
    requires first { (length world.old.own.items ≡ 1) × (stage_of world.old.journal.marks ≡ start) }
    ensures built { OnOk result (HasBuilt (head_writes title.now) 5 world.old world.new) }
    ensures headed { OnOk result (IsHeaded world.new.tree) }
{
    build_element(alloc, world, b"html", DOCUMENT)?;
    build_element(alloc, world, b"head", HTML)?;
    build_element(alloc, world, b"title", HEAD)?;
    build_text(alloc, world, title, TITLE)?;
    build_element(alloc, world, b"body", HTML)?;
    Ok(())
}

/// The paragraph and the division, where the page has them.
pub fn build_blocks(alloc: Global, world: &mut World, blocks: bool) -> Mem<()>
    requires room { HasRoom 6 2 world.old }
    requires body { length world.old.own.items ≡ 6 }
    ensures built { OnOk result (HasBuilt (block_writes blocks) (block_nodes blocks) world.old world.new) }
    ensures headed { IsHeaded world.old.tree → OnOk result (IsHeaded world.new.tree) }
{
    if !blocks {
        return Ok(());
    }
    build_identified(alloc, world, b"p", b"p", BODY)?;
    build_identified(alloc, world, b"div", b"d", BODY)?;
    Ok(())
}

/// A script element, with its text in it where it isn't empty.
pub fn build_script(alloc: Global, world: &mut World, text: &Text) -> Mem<()>
    requires room { HasRoom 4 2 world.old }
    requires body { 5 < length world.old.own.items }
    ensures built { OnOk result (HasBuilt (script_writes (length world.old.own.items) text.now) (script_nodes text.now) world.old world.new) }
    ensures headed { IsHeaded world.old.tree → OnOk result (IsHeaded world.new.tree) }
{
    let script = Thing {
        kind: Kind::Element,
        number: next_number(world),
    };
    build_element(alloc, world, b"script", BODY)?;
    if text.count() == 0 {
        return Ok(());
    }
    build_text(alloc, world, text, script)?;
    Ok(())
}
