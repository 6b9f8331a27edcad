//! Laws of the part of one actor, as the contracts of functions that do nothing.

ghost use Rattle.actor_parts.specs.AddLaws.{AddLaws};
ghost use Rattle.actor_parts.specs.ReadLaws.{Reads};
ghost use Rattle.actor_parts.specs.WriteLaws.{WriteLaws};

/// What is read of a cell is what its owner's machine has under its name.
pub fn parts_are_read()
    ensures { Reads }
{}

/// A cell that is written, by `define`, `remove`, `set_proto` or `scope_set`, is written in its owner's machine as the rows
/// of the language write it, and no other actor's machine changes.
pub fn parts_are_written()
    ensures { WriteLaws }
{}

/// Where a cell is added to a disciplined heap, each cell that was there is in its owner's machine what it was.
pub fn added_cells_leave_names()
    ensures { AddLaws }
{}
