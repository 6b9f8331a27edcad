//! The requests of a script, each answered by the document as it stands.

ghost use Rattle.std.specs.Prelude.{◌≡◌, ◌≢◌, ◌<◌, ◌^◌, ◌≤◌, ◌+◌, [], ◌∷◌, ◌++◌, List, ℕ, length, OnOk, OnErr, IfOk};
ghost use Rattle.door.specs.declared.values.Thing.{Thing as AnyThing};
ghost use Rattle.door.specs.declared.requests.Request.{Request as AnyRequest};
ghost use Rattle.door.specs.declared.requests.Answer.{Answer as AnyAnswer};
ghost use Rattle.door.specs.declared.requests.Request.TheVariants.{Native};
ghost use Rattle.door.specs.declared.members.Member.TheVariants.{DocumentSetTitle, DocumentTitle};
ghost use Rattle.door.specs.declared.values.Value.TheVariants.{Str as StrValue};
ghost use Rattle.solo_model.specs.Things.{the_window};
ghost use Rattle.small_eval.specs.Heads.{IsHeaded};
ghost use Rattle.door.specs.declared.marks.Mark.TheVariants.{Ask as AskMark};
ghost use Rattle.solo_model.specs.View.{meets_answer, met_of, named_answer, named_request};
ghost use Rattle.js_semantics.specs.Solo.{Program, Asks};
ghost use Rattle.js_semantics.specs.Intrinsics.{Setup};
ghost use Rattle.small_meaning.specs.Rows.{Bare, Cont, ask, document_row, log_member, with_nothing, with_text, with_title};
ghost use Rattle.small_meaning.specs.Reached.{HasReached};
ghost use Rattle.small_eval.specs.Continuations.{ContinuesWithUnit, ContinuesWithText, NotOutOfMemory, HasMet, MeetsNothing, document_for};
ghost use Rattle.small_eval.specs.Worlds.{IsReady, IsSound, PreservesRest};

use crate::exit::{Exit, charge};
use crate::lists::one;
use crate::title::{set_title, title_of};
use crate::world::{World, note};
use base_text::{Mem, Text, TextFault};
use door::{
    Actor, Answer, DOCUMENT, ErrorKind, Mark, Member, Request, Value, Values, WINDOW, Zone, share,
};
use std::alloc::Global;

/// A request of a script stands in the journal with its answer.
pub fn tell(world: &mut World, actor: Actor, request: Request, given: Answer) -> Mem<()>
    requires ready { IsReady world.old (AskMark actor request given) }
    requires room { length world.old.journal.marks < world.old.journal.limit }
    ensures ok { OnOk result (world.new ≡ record world.old { journal = record world.old.journal { marks = world.old.journal.marks ++ AskMark actor request given ∷ [] } }) }
    ensures err { OnErr result (world.new ≡ world.old) }
    ensures sound { OnOk result (IsSound world.new) }
    ensures met { OnOk result (met_of actor world.new.journal.marks ≡ meets_answer actor (met_of actor world.old.journal.marks) given) }
    ensures own { (s : Setup) (asked : AnyRequest) (k : AnyAnswer → Program Bare) → named_request actor (met_of actor world.old.journal.marks) request ≡ asked → HasReached s actor world.old.journal.marks (Asks asked k)
        → OnOk result (HasReached s actor world.new.journal.marks (k (named_answer actor (meets_answer actor (met_of actor world.old.journal.marks) given) given))) }
{
    note(world, Mark::Ask(actor, request, given))
}

/// The script asks for the document.
pub fn ask_document(
    alloc: Global,
    world: &mut World,
    actor: Actor,
    fuel: &mut u32,
) -> Result<(), Exit>
    requires sound { IsSound world.old }
    requires room { length world.old.journal.marks + fuel.old < world.old.journal.limit }
    ensures own { (s : Setup) (k : AnyThing → ℕ → Program Bare) (c : Cont) → HasReached s actor world.old.journal.marks (document_row k c fuel.old) → ContinuesWithUnit s actor world.new.journal.marks fuel.new (k (document_for actor world.new.journal.marks)) c result }
    ensures met { OnOk result (HasMet actor world.new.journal.marks) }
    ensures same { NotOutOfMemory result → MeetsNothing actor world.old.journal.marks world.new.journal.marks }
    ensures keeps { NotOutOfMemory result → PreservesRest actor world.old world.new fuel.old fuel.new }
{
    charge(fuel, 1)?;
    charge(fuel, 1)?;
    let request = Request::Native(Member::WindowDocument, WINDOW, Values::new(alloc));
    let given = Answer::Value(Value::Thing(DOCUMENT));
    tell(world, actor, request, given)?;
    Ok(())
}

/// The script asks for the document's title.
pub fn ask_title(
    alloc: Global,
    world: &mut World,
    actor: Actor,
    fuel: &mut u32,
) -> Result<Text, Exit>
    requires sound { IsSound world.old }
    requires met { HasMet actor world.old.journal.marks }
    requires room { length world.old.journal.marks + fuel.old < world.old.journal.limit }
    ensures own { (s : Setup) (k : List ℕ → ℕ → Program Bare) (c : Cont) → HasReached s actor world.old.journal.marks (ask (Native DocumentTitle (document_for actor world.old.journal.marks) []) (with_text k c) c fuel.old)
        → ContinuesWithText s actor world.new.journal.marks fuel.new k c result }
    ensures same { NotOutOfMemory result → MeetsNothing actor world.old.journal.marks world.new.journal.marks }
    ensures keeps { NotOutOfMemory result → PreservesRest actor world.old world.new fuel.old fuel.new }
{
    charge(fuel, 1)?;
    let request = Request::Native(Member::DocumentTitle, DOCUMENT, Values::new(alloc));
    match title_of(alloc, &world.tree) {
        Ok(text) => {
            tell(
                world,
                actor,
                request,
                Answer::Value(Value::Str(text.share()?)),
            )?;
            Ok(text)
        }
        Err(TextFault::TooLong) => {
            tell(world, actor, request, Answer::Throw(ErrorKind::TooLong))?;
            Err(Exit::Throw(ErrorKind::TooLong))
        }
        Err(TextFault::NoMemory) => Err(Exit::NoMemory),
    }
}

/// The member of the window that logs for a script.
fn log_member(zone: Zone) -> Member
    ensures { result ≡ log_member zone }
{
    match zone {
        Zone::Page => Member::ConsoleLog,
        Zone::Host | Zone::XrayScript | Zone::PlainScript => Member::GmLog,
    }
}

/// The script logs a text.
pub fn ask_log(
    alloc: Global,
    world: &mut World,
    actor: Actor,
    zone: Zone,
    fuel: &mut u32,
    text: &Text,
) -> Result<(), Exit>
    requires sound { IsSound world.old }
    requires room { length world.old.journal.marks + fuel.old < world.old.journal.limit }
    ensures own { (s : Setup) (k : ℕ → Program Bare) (c : Cont) → HasReached s actor world.old.journal.marks (ask (Native (log_member zone) the_window (StrValue text.now ∷ [])) (with_nothing k) c fuel.old)
        → ContinuesWithUnit s actor world.new.journal.marks fuel.new k c result }
    ensures same { NotOutOfMemory result → MeetsNothing actor world.old.journal.marks world.new.journal.marks }
    ensures keeps { NotOutOfMemory result → PreservesRest actor world.old world.new fuel.old fuel.new }
{
    charge(fuel, 1)?;
    let arguments = one(alloc, Value::Str(text.share()?))?;
    let request = Request::Native(log_member(zone), WINDOW, arguments);
    tell(world, actor, request, Answer::Value(Value::Undefined))?;
    Ok(())
}

/// The script writes the document's title.
pub fn ask_set_title(
    alloc: Global,
    world: &mut World,
    actor: Actor,
    fuel: &mut u32,
    text: &Text,
) -> Result<(), Exit>
    requires sound { IsSound world.old }
    requires headed { IsHeaded world.old.tree }
    requires guest { actor.0 ≢ 0 }
    requires met { HasMet actor world.old.journal.marks }
    requires room { length world.old.journal.marks + fuel.old < world.old.journal.limit }
    requires limit { world.old.journal.limit < 2 ^ 30 }
    ensures own { (s : Setup) (k : ℕ → Program Bare) (c : Cont) → HasReached s actor world.old.journal.marks (ask (Native DocumentSetTitle (document_for actor world.old.journal.marks) (StrValue text.now ∷ [])) (with_title k c) c fuel.old)
        → ContinuesWithUnit s actor world.new.journal.marks fuel.new k c result }
    ensures same { NotOutOfMemory result → MeetsNothing actor world.old.journal.marks world.new.journal.marks }
    ensures keeps { NotOutOfMemory result → PreservesRest actor world.old world.new fuel.old fuel.new }
{
    charge(fuel, 1)?;
    let arguments = one(alloc, Value::Str(text.share()?))?;
    let request = Request::Native(Member::DocumentSetTitle, DOCUMENT, arguments);
    match set_title(&mut world.tree, actor, text)? {
        None => {
            tell(world, actor, request, Answer::Value(Value::Undefined))?;
            Ok(())
        }
        Some(reason) => {
            tell(world, actor, request, Answer::Throw(share(&reason)?))?;
            Err(Exit::Throw(reason))
        }
    }
}
