//! The world: the journal, and the document that its marks make.

ghost use Rattle.std.specs.Prelude.{◌≡◌, ◌<◌, [], ◌∷◌, ◌++◌, length, OnOk, OnErr, IfOk};
ghost use Rattle.door.specs.declared.limits.TheConstants.{MARK_LIMIT};
ghost use Rattle.door.specs.declared.marks.Mark.TheVariants.{Turn};
ghost use Rattle.solo_model.specs.Closed.{Setups};
ghost use Rattle.small_eval.specs.Continuations.{Adds};
ghost use Rattle.small_eval.specs.Idle.{AreIdle};
ghost use Rattle.small_eval.specs.Worlds.{IsReady, IsSound};

use base_text::{Mem, NoMemory};
use dom_tree::Tree;
use door::{Journal, JournalFault, MARK_LIMIT, Mark, Task};
use std::alloc::Global;

/// The journal of a run, and the document as its marks make it.
#[derive(Drop)]
pub struct World {
    /// The marks so far.
    pub journal: Journal,
    /// The document's nodes.
    pub tree: Tree,
    /// The page's own nodes by their numbers among all, in the order of their making.
    pub own: Vec<u32>,
    /// How many events were made.
    pub events: u32,
}

impl World {
    /// The document alone, before the first mark.
    pub fn new(alloc: Global) -> Mem<World>
        ensures sound { IfOk result (λ world. IsSound world) }
        ensures journal { IfOk result (λ world. world.journal ≡ record { marks = []; limit = MARK_LIMIT }) }
        ensures own { IfOk result (λ world. world.own.items ≡ 0 ∷ []) }
    {
        let tree = Tree::new(alloc)?;
        let mut own = Vec::new(alloc);
        own.push(0)?;
        Ok(World {
            journal: Journal::new(alloc, MARK_LIMIT),
            tree,
            own,
            events: 0,
        })
    }
}

/// The next turn begins.
pub fn turn(world: &mut World, task: Task) -> Mem<()>
    requires sound { IsSound world.old }
    requires room { length world.old.journal.marks < world.old.journal.limit }
    ensures added { OnOk result (Adds world.old.journal world.new.journal (Turn task ∷ [])) }
    ensures sound { OnOk result (IsSound world.new) }
    ensures same { OnOk result ((world.new.tree ≡ world.old.tree) × (world.new.own ≡ world.old.own)) }
    ensures idle { (setups : Setups) → AreIdle setups world.old.journal.marks → OnOk result (AreIdle setups world.new.journal.marks) }
{
    note(world, Mark::Turn(task))?;
    Ok(())
}

/// Adds a mark for which the document is ready, to a journal that has room for it.
pub fn note(world: &mut World, mark: Mark) -> Mem<()>
    requires ready { IsReady world.old mark }
    requires room { length world.old.journal.marks < world.old.journal.limit }
    ensures ok { OnOk result (world.new ≡ record world.old { journal = record world.old.journal { marks = world.old.journal.marks ++ mark ∷ [] } }) }
    ensures err { OnErr result (world.new ≡ world.old) }
    ensures sound { OnOk result (IsSound world.new) }
{
    match world.journal.push(mark) {
        Ok(()) => Ok(()),
        Err(JournalFault::NoMemory) => Err(NoMemory),
        Err(JournalFault::Full) => unreachable!(),
    }
}
