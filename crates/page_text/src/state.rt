//! The state of a reading between two nodes.

ghost use Rattle.std.specs.Prelude.{◌≡◌, ◌<◌, None, Some, IfOk, MatchOption, length, map};
ghost use Rattle.door.specs.declared.limits.TheConstants.{DEPTH_LIMIT, NODE_LIMIT};
ghost use Rattle.page_text.specs.Outcomes.{Gives};
ghost use Rattle.page_text.specs.StepsModel as spec;

use crate::faults::{Failed, PageKind};
use crate::writes::Requests;
use base_text::Text;
use door::{DEPTH_LIMIT, Kind, NODE_LIMIT, Texts, Thing};

/// An open element: the page's text from its start tag on, and its number.
#[derive(Clone, Copy)]
pub(crate) struct Open<'a> {
    pub(crate) start: &'a str,
    /// Its name as it stands in the page.
    pub(crate) tag: &'a str,
    pub(crate) number: u32,
}

/// A reading between two nodes.
#[derive(Drop)]
pub(crate) struct State<'a> {
    /// The text that is left.
    pub(crate) rest: &'a str,
    /// The open elements, the innermost last.
    pub(crate) open_elements: Vec<Open<'a>>,
    /// The next node's number.
    pub(crate) next: u32,
    /// Whether the document's element has begun.
    pub(crate) begun: bool,
    /// What the piece has so far.
    pub(crate) writes: Requests,
    pub(crate) external: Texts,
}

/// What a step came to.
#[derive(Drop)]
pub(crate) enum Step<'a> {
    /// A node, an end tag, or what is dropped.
    Next(State<'a>),
    /// A runnable script, with its text.
    Script(Text, State<'a>),
    /// The page's end.
    End(State<'a>),
}

#[tactic(auto, unfolding(crate::specs::StepsModel::room_at))]
pub(crate) fn room_at<'a>(next: u32, depth: usize, text: &'a str) -> Result<(), Failed<'a>>
    ensures value { Gives (λ _. tt) result (spec.room_at next depth text.now) }
    ensures small { IfOk result (λ _. next < NODE_LIMIT) }
    ensures shallow { IfOk result (λ _. depth < DEPTH_LIMIT) }
{
    if next >= NODE_LIMIT {
        return Err(Failed::Fault(PageKind::TooLong, text));
    }
    if depth >= DEPTH_LIMIT as usize {
        return Err(Failed::Fault(PageKind::TooDeep, text));
    }
    Ok(())
}

pub(crate) fn room<'a>(s: &State<'a>) -> Result<(), Failed<'a>>
    ensures value { Gives (λ _. tt) result (spec.room (spec.state_of s.now)) }
    ensures small { IfOk result (λ _. s.now.next < NODE_LIMIT) }
    ensures shallow { IfOk result (λ _. length s.now.open_elements.items < DEPTH_LIMIT) }
{
    room_at(s.next, s.open_elements.len(), s.rest)
}

pub(crate) fn element(number: u32) -> Thing
    ensures { result ≡ record { kind = Kind.Element; number = number } }
{
    Thing {
        kind: Kind::Element,
        number,
    }
}

pub(crate) fn parent_of(open_elements: &[Open<'_>]) -> Thing
    ensures { result ≡ spec.parent_of (spec.innermost (map spec.open_of open_elements.now)) }
{
    match open_elements.last() {
        None => Thing {
            kind: Kind::Document,
            number: 0,
        },
        Some(innermost) => element(innermost.number),
    }
}

pub(crate) fn innermost_of<'a>(open_elements: &[Open<'a>]) -> Option<Open<'a>>
    ensures { MatchOption result (spec.innermost (map spec.open_of open_elements.now) ≡ None) (λ o. spec.innermost (map spec.open_of open_elements.now) ≡ Some (spec.open_of o)) }
{
    match open_elements.last() {
        None => None,
        Some(innermost) => Some(*innermost),
    }
}

/// The state behind the innermost element's end.
pub(crate) fn without_innermost<'a>(s: State<'a>, rest: &'a str) -> State<'a>
    ensures rest { result.rest.now ≡ rest.now }
    ensures value { spec.state_of result ≡ record (spec.state_of s.entry) { rest = rest.now; open_elements = spec.outer (spec.state_of s.entry).open_elements } }
{
    let State {
        mut open_elements,
        next,
        begun,
        writes,
        external,
        ..
    } = s;
    let _ = open_elements.pop();
    State {
        rest,
        open_elements,
        next,
        begun,
        writes,
        external,
    }
}

pub(crate) fn is_at_top(s: &State<'_>) -> bool
    ensures { result ≡ spec.is_at_top (spec.state_of s.now) }
{
    s.open_elements.len() == 0
}
