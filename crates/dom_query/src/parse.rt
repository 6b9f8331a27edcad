//! Reading a selector.

ghost use Rattle.std.specs.Prelude.{◌≡◌, ◌≤◌, ℕ, List, length, IfOk, [], None};
ghost use Rattle.base_text.specs.declared.text.TheConstants.{SOURCE_LIMIT};
ghost use Rattle.std.specs.Str.{chars};
ghost use Rattle.dom_query.specs.Answers.{Chains, IfFault, OkOrMemory, FaultOrMemory};
ghost use Rattle.dom_semantics.specs.SelectorFaults.{IsFault};
ghost use Rattle.dom_semantics.specs.SelectorGrammar.{IsSelector};
ghost use Rattle.dom_query.specs.PlacesModel.{IsPlaced};
ghost use Rattle.dom_query.specs.ReadingModel as spec;

use crate::built::Built;
use crate::fault::SelectorFault;
use crate::kind::{Kind, kind_of};
use crate::selector::Selector;
use crate::state::{State, next};
use base_text::{Mem, Text};
use std::alloc::{AllocError, Global};

fn bad(at: u32) -> SelectorFault
    ensures { result ≡ SelectorFault.BadSelector at }
{
    SelectorFault::BadSelector { at }
}

fn scalars(alloc: Global, s: &str) -> Result<Vec<char>, AllocError>
    ensures { IfOk result (λ all. all.items ≡ chars s.now) }
{
    s.chars().collect(alloc)
}

/// The selector whose last chain is whole.
fn whole(alloc: Global, mut built: Built) -> Mem<Selector>
    ensures { IfOk result (λ chains. chains ≡ (spec.end_chain built).chains) }
{
    built.end_chain(alloc)?;
    Ok(Selector {
        chains: built.chains,
    })
}

/// The selector, where the text may end in this state.
#[tactic(auto, using(crate::proofs::Firsts::stuck_at_end), unfolding(crate::specs::ReadingModel::finish, crate::specs::ReadingModel::build))]
fn finish(
    alloc: Global,
    s: &Text,
    state: State,
    mut built: Built,
) -> Result<Selector, SelectorFault>
    requires { IsPlaced state (length s.now) }
    ensures { spec.Tells (spec.or_stuck [] (spec.finish s.now state (length s.now) built)) (length s.now) result }
{
    let at = s.count();
    match state {
        State::Gap => {}
        State::Name(_, _) => built.build(alloc, s, state, at, Kind::Blank)?,
        State::Whole => built.build(alloc, s, state, at, Kind::Blank)?,
        _ => return Err(bad(at)),
    }
    Ok(whole(alloc, built)?)
}

/// The selector that the scalars of a text spell.
fn read(alloc: Global, s: &Text, text: &[char]) -> Result<Selector, SelectorFault>
    requires { text.now ≡ s.now }
    ensures { spec.Tells (spec.run s.now State.Before 0 spec.no_chains s.now) (length s.now) result }
{
    let mut built = Built::new(alloc);
    let mut state = State::Before;
    for at in 0..s.count() {
        let c = text[at as usize];
        let Some(later) = next(state, at, c) else {
            return Err(bad(at));
        };
        built.build(alloc, s, state, at, kind_of(c))?;
        state = later;
    }
    finish(alloc, s, state, built)
}

/// The selector that a text spells: chains with `,` between, each of compounds with white space
/// between, each of a tag or `*` and parts `#name`, `.name`, `[name]`, `[name=value]`.
///
/// `BadSelector` exactly where it spells none, at the first scalar such that no selector begins with
/// the text through it, or at the text's length.
pub fn parse_selector(alloc: Global, s: &Text) -> Result<Selector, SelectorFault>
    // What is read is spelled so.
    ensures ok { IfOk result (λ chains. IsSelector chains s.now) }
    // What is spelled so is read.
    ensures only { (chains : Chains) → IsSelector chains s.now → OkOrMemory result chains }
    // A refusal is at the first place.
    ensures fault { IfFault result (λ at. IsFault s.now at) }
    // A text that spells none is refused there.
    ensures first { (at : ℕ) → IsFault s.now at → FaultOrMemory result at }
{
    let text = scalars(alloc, s.as_str())?;
    read(alloc, s, &text)
}
