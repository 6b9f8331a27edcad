//! How the host makes an event and dispatches it, where nobody listens.

ghost use Rattle.std.specs.Prelude.{◌≡◌, ◌≤◌, ◌<◌, ◌^◌, [], ◌∷◌, length, IfOk, IsTrue, OnOk, false};
ghost use Rattle.std.specs.List.{list_all};
ghost use Rattle.std.specs.Char.{is_ascii};
ghost use Rattle.base_text.specs.declared.text.TheConstants.{TEXT_LIMIT};
ghost use Rattle.door.specs.declared.members.Member.TheVariants.{NewEvent};
ghost use Rattle.door.specs.declared.requests.Request.TheVariants.{Native};
ghost use Rattle.door.specs.declared.values.Value.TheVariants.{Str as StrValue, Bool as BoolValue, Null as NullValue};
ghost use Rattle.door.specs.declared.marks.Mark.TheVariants.{Build};
ghost use Rattle.solo_model.specs.Closed.{Setups};
ghost use Rattle.solo_model.specs.Lawful.{host_event};
ghost use Rattle.solo_model.specs.Things.{the_window};
ghost use Rattle.small_eval.specs.Builds.{HasRoom};
ghost use Rattle.small_eval.specs.Continuations.{Adds};
ghost use Rattle.small_eval.specs.Idle.{AreIdle};
ghost use Rattle.small_eval.specs.Worlds.{IsSound};

use crate::world::{World, note};
use base_text::Mem;
use door::{Answer, HOST, Mark, Member, Request, Thing, Value, Values, WINDOW};
use small_forms::text_of;
use std::alloc::Global;

/// The type of an event, its flags, and no detail.
fn flags(alloc: Global, kind: Value, bubbles: bool) -> Mem<Values>
    ensures { IfOk result (λ values. values ≡ kind ∷ (BoolValue bubbles ∷ (BoolValue false ∷ (NullValue ∷ [])))) }
{
    let mut values = Values::new(alloc);
    values.push(kind)?;
    values.push(Value::Bool(bubbles))?;
    values.push(Value::Bool(false))?;
    values.push(Value::Null)?;
    Ok(values)
}

/// The host makes an event, which isn't cancelable.
fn make_event(alloc: Global, world: &mut World, kind: &[u8], bubbles: bool) -> Mem<()>
    requires room { HasRoom 1 0 world.old }
    requires few { world.old.events < 2 ^ 31 }
    requires kind { IsTrue (list_all is_ascii kind.now) × (length kind.now ≤ TEXT_LIMIT) }
    ensures added { OnOk result (Adds world.old.journal world.new.journal (Build (Native NewEvent the_window (StrValue kind.now ∷ (BoolValue bubbles ∷ (BoolValue false ∷ (NullValue ∷ []))))) ∷ [])) }
    ensures sound { OnOk result (IsSound world.new) }
    ensures same { OnOk result ((world.new.tree ≡ world.old.tree) × (world.new.own ≡ world.old.own)) }
{
    let arguments = flags(alloc, Value::Str(text_of(alloc, kind)?), bubbles)?;
    let request = Request::Native(Member::NewEvent, WINDOW, arguments);
    world.events += 1;
    note(world, Mark::Build(request))?;
    Ok(())
}

/// The host makes an event and dispatches it at this target; nobody listens, and it isn't cancelable,
/// so it comes back true (DOM, Dispatching events).
pub fn host_event(
    alloc: Global,
    world: &mut World,
    kind: &[u8],
    bubbles: bool,
    target: Thing,
) -> Mem<()>
    requires room { HasRoom 3 0 world.old }
    requires kind { IsTrue (list_all is_ascii kind.now) × (length kind.now ≤ TEXT_LIMIT) }
    ensures added { OnOk result (Adds world.old.journal world.new.journal (host_event world.old.journal.marks kind.now bubbles target)) }
    ensures sound { OnOk result (IsSound world.new) }
    ensures same { OnOk result ((world.new.tree ≡ world.old.tree) × (world.new.own ≡ world.old.own)) }
    ensures idle { (setups : Setups) → AreIdle setups world.old.journal.marks → OnOk result (AreIdle setups world.new.journal.marks) }
{
    let number = world.events;
    make_event(alloc, world, kind, bubbles)?;
    note(world, Mark::Dispatch(HOST, number, target))?;
    note(world, Mark::Back(HOST, Answer::Value(Value::Bool(true))))?;
    Ok(())
}
