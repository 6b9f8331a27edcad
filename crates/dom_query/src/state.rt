//! Where in a selector a reading stands, and where the next scalar takes it.

ghost use Rattle.std.specs.Prelude.{◌≡◌, ◌<◌, ◌+◌};
ghost use Rattle.base_text.specs.declared.text.TheConstants.{SOURCE_LIMIT};
ghost use Rattle.dom_query.specs.PlacesModel.{IsPlaced, IfPlaced};
ghost use Rattle.dom_query.specs.ReadingModel as spec;

use crate::kind::{Kind, kind_of};
use base_text::SOURCE_LIMIT;

/// What a name stands for.
#[derive(Clone, Copy)]
pub(crate) enum Sort {
    Tag,
    Id,
    Class,
}

/// A part of the text, from a place up to another.
#[derive(Clone, Copy)]
pub(crate) struct Span {
    pub(crate) from: u32,
    pub(crate) to: u32,
}

/// Where a reading stands; numbers are the places where names and values begin.
#[derive(Clone, Copy)]
pub(crate) enum State {
    /// Before a chain.
    Before,
    /// Behind a compound and white space.
    Gap,
    /// Behind `#` or `.`.
    Begun(Sort),
    /// In a tag or the name of a part.
    Name(Sort, u32),
    /// Behind `*` or a part that is whole.
    Whole,
    /// Behind `[`.
    Opened,
    /// In the name of an attribute.
    Attribute(u32),
    /// Behind `=`, with the attribute's name.
    Equals(Span),
    /// In a value in quotes, with the quote.
    Quoted(Span, char, u32),
    /// In a value without quotes.
    Bare(Span, u32),
    /// Behind the quote that closes a value.
    Closing(Span, Span),
}

fn begin_part(kind: Kind) -> Option<State>
    ensures { result ≡ spec.begin_part kind }
{
    match kind {
        Kind::Hash => Some(State::Begun(Sort::Id)),
        Kind::Dot => Some(State::Begun(Sort::Class)),
        Kind::Open => Some(State::Opened),
        _ => None,
    }
}

fn begin_compound(at: u32, kind: Kind) -> Option<State>
    ensures { result ≡ spec.begin_compound at kind }
{
    match kind {
        Kind::Name => Some(State::Name(Sort::Tag, at)),
        Kind::Star => Some(State::Whole),
        _ => begin_part(kind),
    }
}

fn after_part(kind: Kind) -> Option<State>
    ensures { result ≡ spec.after_part kind }
{
    match kind {
        Kind::Blank => Some(State::Gap),
        Kind::Comma => Some(State::Before),
        _ => begin_part(kind),
    }
}

fn if_name(state: State, kind: Kind) -> Option<State>
    ensures { result ≡ spec.if_name state kind }
{
    match kind {
        Kind::Name => Some(state),
        _ => None,
    }
}

fn if_close(kind: Kind) -> Option<State>
    ensures { result ≡ spec.if_close kind }
{
    match kind {
        Kind::Close => Some(State::Whole),
        _ => None,
    }
}

fn next_before(at: u32, kind: Kind) -> Option<State>
    ensures { result ≡ spec.next_before at kind }
{
    match kind {
        Kind::Blank => Some(State::Before),
        _ => begin_compound(at, kind),
    }
}

fn next_gap(at: u32, kind: Kind) -> Option<State>
    ensures { result ≡ spec.next_gap at kind }
{
    match kind {
        Kind::Blank => Some(State::Gap),
        Kind::Comma => Some(State::Before),
        _ => begin_compound(at, kind),
    }
}

fn next_name(state: State, kind: Kind) -> Option<State>
    ensures { result ≡ spec.next_name state kind }
{
    match kind {
        Kind::Name => Some(state),
        _ => after_part(kind),
    }
}

fn next_attribute(from: u32, at: u32, kind: Kind) -> Option<State>
    ensures { result ≡ spec.next_attribute from at kind }
{
    match kind {
        Kind::Name => Some(State::Attribute(from)),
        Kind::Equals => Some(State::Equals(Span { from, to: at })),
        _ => if_close(kind),
    }
}

fn next_equals(name: Span, at: u32, c: char, kind: Kind) -> Option<State>
    requires { at < SOURCE_LIMIT }
    ensures { result ≡ spec.next_equals name at c kind }
{
    match kind {
        Kind::Name => Some(State::Bare(name, at)),
        Kind::Quote => Some(State::Quoted(name, c, at + 1)),
        _ => None,
    }
}

fn next_quoted(name: Span, quote: char, from: u32, at: u32, c: char) -> State
    ensures { result ≡ spec.next_quoted name quote from at c }
{
    if c == quote {
        State::Closing(name, Span { from, to: at })
    } else {
        State::Quoted(name, quote, from)
    }
}

fn next_bare(state: State, kind: Kind) -> Option<State>
    ensures { result ≡ spec.next_bare state kind }
{
    match kind {
        Kind::Name => Some(state),
        _ => if_close(kind),
    }
}

/// The state behind the scalar `c` at the place `at`; none where no selector goes on so.
#[tactic(auto, using(crate::proofs::Placed::next_placed), unfolding(crate::specs::ReadingModel::next))]
pub(crate) fn next(state: State, at: u32, c: char) -> Option<State>
    requires { at < SOURCE_LIMIT }
    ensures exact { result ≡ spec.next state at c }
    ensures placed { IsPlaced state at → IfPlaced result (at + 1) }
{
    let kind = kind_of(c);
    match state {
        State::Before => next_before(at, kind),
        State::Gap => next_gap(at, kind),
        State::Begun(sort) => if_name(State::Name(sort, at), kind),
        State::Name(_, _) => next_name(state, kind),
        State::Whole => after_part(kind),
        State::Opened => if_name(State::Attribute(at), kind),
        State::Attribute(from) => next_attribute(from, at, kind),
        State::Equals(name) => next_equals(name, at, c, kind),
        State::Quoted(name, quote, from) => Some(next_quoted(name, quote, from, at, c)),
        State::Bare(_, _) => next_bare(state, kind),
        State::Closing(_, _) => if_close(kind),
    }
}
