//! How a run is played: the pieces of the page, DOMContentLoaded, the userscripts, load.

ghost use Rattle.std.specs.Prelude.{◌≡◌, ◌≤◌, ◌<◌, ◌+◌, [], ◌∷◌, ◌++◌, codes, length, slice_get, List, ℕ, IfOk, IsTrue, OnOk, Some, true, false};
ghost use Rattle.std.specs.List.{list_all};
ghost use Rattle.std.specs.Char.{is_ascii};
ghost use Rattle.base_text.specs.declared.text.TheConstants.{TEXT_LIMIT};
ghost use Rattle.door.specs.declared.requests.Request.{Request as AnyRequest};
ghost use Rattle.door.specs.declared.marks.Mark.{Mark as AnyMark};
ghost use Rattle.door.specs.declared.marks.Task.{Task as AnyTask};
ghost use Rattle.door.specs.declared.marks.Task.TheVariants.{Start as StartTask, Piece as PieceTask};
ghost use Rattle.door.specs.declared.zones.Zone.TheVariants.{Page as PageZone, XrayScript};
ghost use Rattle.small_forms.specs.declared.limits.TheConstants.{PAGE_SCRIPT_LIMIT};
ghost use Rattle.small_forms.specs.Pages.{ArePageScripts};
ghost use Rattle.small_forms.specs.Scripts.{IsPageScript, IsUserscript};
ghost use Rattle.solo_model.specs.Closed.{Setups};
ghost use Rattle.solo_model.specs.Lawful.{AreTurns, Input, IsLawful, IsTurn, host_event, numbered};
ghost use Rattle.solo_model.specs.Things.{the_page, userscript};
ghost use Rattle.small_eval.specs.Builds.{HasRoom};
ghost use Rattle.small_eval.specs.Heads.{IsHeaded};
ghost use Rattle.small_eval.specs.Idle.{AreIdle};
ghost use Rattle.small_eval.specs.Pieces.{pieces_of, script_writes};
ghost use Rattle.small_eval.specs.Turns.{AreUserscripts, HasGone, IsBuilding, IsGoing, file_texts, script_nodes};
ghost use Rattle.small_eval.specs.Worlds.{IsSound};
ghost use Rattle.small_eval.specs.Bounds.{LOAD_MARKS, PAGE_MARKS, PAGE_NODES, SCRIPT_MARKS, START_MARKS};
ghost use Rattle.door.specs.declared.limits.TheConstants.{MARK_LIMIT, USERSCRIPT_LIMIT};

use crate::entry::enter;
use crate::event::host_event;
use crate::page::{build_blocks, build_head, build_script};
use crate::world::{World, turn};
use base_text::Mem;
use door::{Actor, DOCUMENT, PAGE, Task, Thing, WINDOW, Zone};
use small_forms::{Page, PageScript, ScriptFile, Userscript};
use std::alloc::Global;

/// The end of a piece: its script element is built, its script runs, and the next piece begins.
fn end_piece(alloc: Global, world: &mut World, n: u32, script: &PageScript) -> Mem<()>
    requires room { HasRoom SCRIPT_MARKS 2 world.old }
    requires headed { IsHeaded world.old.tree }
    requires body { 5 < length world.old.own.items }
    requires few { n < 100 }
    requires reads { IsPageScript script.now.text script.now.lines }
    ensures lawful { (input : Input) (tasks : List AnyTask) (begun : List AnyRequest) → IsBuilding input tasks n begun world.old.journal.marks
        → slice_get input.pieces n ≡ Some (record { writes = begun ++ script_writes (length world.old.own.items) script.now.text; script = Some script.now.text })
        → OnOk result (IsBuilding input (tasks ++ PieceTask n ∷ []) (n + 1) [] world.new.journal.marks) }
    ensures gone { OnOk result (HasGone SCRIPT_MARKS (script_nodes script.now.text) world.old world.new) }
    ensures headed { OnOk result (IsHeaded world.new.tree) }
    ensures idle { (setups : Setups) → (setups the_page).zone ≡ PageZone → AreIdle setups world.old.journal.marks → OnOk result (AreIdle setups world.new.journal.marks) }
{
    build_script(alloc, world, &script.text)?;
    enter(
        alloc,
        world,
        PAGE,
        Zone::Page,
        &script.text,
        script.lines.as_slice(),
    )?;
    turn(world, Task::Piece(n + 1))?;
    Ok(())
}

/// The pieces of the page, one after another.
fn play_pieces(alloc: Global, world: &mut World, page: &Page) -> Mem<()>
    requires sound { IsSound world.old }
    requires first { world.old.journal ≡ record { marks = []; limit = MARK_LIMIT } }
    requires own { world.old.own.items ≡ 0 ∷ [] }
    requires scripts { ArePageScripts page.now.scripts × (length page.now.scripts ≤ PAGE_SCRIPT_LIMIT) }
    ensures lawful { (input : Input) → input.pieces ≡ pieces_of page.now → OnOk result (AreTurns input [] (numbered PieceTask 0 input.pieces) world.new.journal.marks) }
    ensures going { OnOk result (IsGoing PAGE_MARKS PAGE_NODES world.new) }
    ensures idle { (setups : Setups) → (setups the_page).zone ≡ PageZone → AreIdle setups world.old.journal.marks → OnOk result (AreIdle setups world.new.journal.marks) }
{
    turn(world, Task::Piece(0))?;
    build_head(alloc, world, &page.title)?;
    build_blocks(alloc, world, page.blocks)?;
    let mut n = 0;
    for script in page.scripts.as_slice() {
        end_piece(alloc, world, n, script)?;
        n += 1;
    }
    Ok(())
}

/// The turn of an event.
fn play_event(
    alloc: Global,
    world: &mut World,
    task: Task,
    kind: &[u8],
    bubbles: bool,
    target: Thing,
) -> Mem<()>
    requires room { HasRoom 4 0 world.old }
    requires headed { IsHeaded world.old.tree }
    requires kind { IsTrue (list_all is_ascii kind.now) × (length kind.now ≤ TEXT_LIMIT) }
    ensures lawful { (input : Input) (tasks : List AnyTask) → ((before : List AnyMark) → IsTurn input before task (host_event before kind.now bubbles target)) → AreTurns input [] tasks world.old.journal.marks
        → OnOk result (AreTurns input [] (tasks ++ task ∷ []) world.new.journal.marks) }
    ensures gone { OnOk result (HasGone 4 0 world.old world.new) }
    ensures headed { OnOk result (IsHeaded world.new.tree) }
    ensures idle { (setups : Setups) → AreIdle setups world.old.journal.marks → OnOk result (AreIdle setups world.new.journal.marks) }
{
    turn(world, task)?;
    host_event(alloc, world, kind, bubbles, target)?;
    Ok(())
}

/// The turn of a userscript.
fn play_start(alloc: Global, world: &mut World, n: u32, script: &Userscript) -> Mem<()>
    requires room { HasRoom SCRIPT_MARKS 0 world.old }
    requires headed { IsHeaded world.old.tree }
    requires few { n < 100 }
    requires reads { IsUserscript script.now.text script.now.name script.now.lines }
    ensures lawful { (input : Input) (tasks : List AnyTask) → slice_get input.starts n ≡ Some script.now.text → AreTurns input [] tasks world.old.journal.marks
        → OnOk result (AreTurns input [] (tasks ++ StartTask n ∷ []) world.new.journal.marks) }
    ensures gone { OnOk result (HasGone SCRIPT_MARKS 0 world.old world.new) }
    ensures headed { OnOk result (IsHeaded world.new.tree) }
    ensures idle { (setups : Setups) → (setups (userscript n)).zone ≡ XrayScript → AreIdle setups world.old.journal.marks → OnOk result (AreIdle setups world.new.journal.marks) }
{
    turn(world, Task::Start(n))?;
    enter(
        alloc,
        world,
        Actor(n + 2),
        Zone::XrayScript,
        &script.text,
        script.lines.as_slice(),
    )?;
    Ok(())
}

/// The turns of the userscripts.
fn play_starts(alloc: Global, world: &mut World, scripts: &[ScriptFile]) -> Mem<()>
    requires going { IsGoing START_MARKS PAGE_NODES world.old }
    requires scripts { AreUserscripts scripts.now × (length scripts.now ≤ USERSCRIPT_LIMIT) }
    ensures lawful { (input : Input) (tasks : List AnyTask) → input.starts ≡ file_texts scripts.now → AreTurns input [] tasks world.old.journal.marks
        → OnOk result (AreTurns input [] (tasks ++ numbered StartTask 0 input.starts) world.new.journal.marks) }
    ensures going { OnOk result (IsGoing LOAD_MARKS PAGE_NODES world.new) }
    ensures idle { (setups : Setups) → ((n : ℕ) → (setups (userscript n)).zone ≡ XrayScript) → AreIdle setups world.old.journal.marks → OnOk result (AreIdle setups world.new.journal.marks) }
{
    let mut n = 0;
    for file in scripts {
        play_start(alloc, world, n, &file.script)?;
        n += 1;
    }
    Ok(())
}

/// A run of a page with these userscripts, in the order of their start.
pub fn play(alloc: Global, page: &Page, scripts: &[ScriptFile]) -> Mem<World>
    requires page { ArePageScripts page.now.scripts × (length page.now.scripts ≤ PAGE_SCRIPT_LIMIT) }
    requires scripts { AreUserscripts scripts.now × (length scripts.now ≤ USERSCRIPT_LIMIT) }
    ensures lawful { IfOk result (λ world. IsLawful (record { pieces = pieces_of page.now; starts = file_texts scripts.now }) world.journal.marks) }
    ensures sound { IfOk result (λ world. IsSound world) }
    ensures limit { IfOk result (λ world. world.journal.limit ≡ MARK_LIMIT) }
    ensures idle { (setups : Setups) → (setups the_page).zone ≡ PageZone → ((n : ℕ) → (setups (userscript n)).zone ≡ XrayScript) → IfOk result (λ world. AreIdle setups world.journal.marks) }
{
    let mut world = World::new(alloc)?;
    play_pieces(alloc, &mut world, page)?;
    play_event(
        alloc,
        &mut world,
        Task::Ready,
        b"DOMContentLoaded",
        true,
        DOCUMENT,
    )?;
    play_starts(alloc, &mut world, scripts)?;
    play_event(alloc, &mut world, Task::Load, b"load", false, WINDOW)?;
    Ok(world)
}
