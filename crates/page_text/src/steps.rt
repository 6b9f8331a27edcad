//! The step from a state to the next: over a run of text, a comment, a doctype or a tag.

ghost use Rattle.std.specs.Prelude.{◌≡◌, IfOk, drop};
ghost use Rattle.page_text.specs.Bytes as bytes_spec;
ghost use Rattle.page_text.specs.Outcomes.{Answers, Gives, IsLess, IsRest};
ghost use Rattle.page_text.specs.StepsModel as spec;

use crate::elements::first_element;
use crate::faults::{Failed, PageKind};
use crate::front::{Front, front_of};
use crate::scan::{Stop, begins_space, scan};
use crate::state::{State, Step, innermost_of, is_at_top, parent_of, room_at, without_innermost};
use crate::tags::{after_space, comment, doctype, end_tag};
use crate::values::value;
use crate::writes::{push_comment, push_text};
use std::alloc::Global;

/// A run of text.
#[tactic(auto, unfolding(crate::specs::StepsModel::text_step))]
fn text_step<'a>(alloc: Global, s: State<'a>) -> Result<State<'a>, Failed<'a>>
    ensures value { Gives (λ t. spec.state_of t) result (spec.text_step (spec.state_of s.entry)) }
    ensures rest { spec.front_of s.entry.rest.now ≡ spec.run → IfOk result (λ t. IsLess s.entry.rest.now t.rest.now) }
{
    let State {
        rest,
        open_elements,
        next,
        begun,
        mut writes,
        external,
    } = s;
    room_at(next, open_elements.len(), rest)?;
    let (raw, behind) = scan(rest, Stop::AtMarkup);
    let text = value(alloc, raw, rest)?;
    push_text(alloc, &mut writes, next, parent_of(&open_elements), text)?;
    Ok(State {
        rest: behind,
        open_elements,
        next: next + 1,
        begun,
        writes,
        external,
    })
}

/// A comment.
#[tactic(auto, unfolding(crate::specs::StepsModel::comment_step))]
fn comment_step<'a>(alloc: Global, s: State<'a>, inside: &'a str) -> Result<State<'a>, Failed<'a>>
    requires { inside.now ≡ drop 4 s.rest.now }
    ensures value { Gives (λ t. spec.state_of t) result (spec.comment_step (spec.state_of s.entry)) }
    ensures rest { IfOk result (λ t. IsRest inside.now t.rest.now) }
{
    let State {
        rest,
        open_elements,
        next,
        begun,
        mut writes,
        external,
    } = s;
    room_at(next, open_elements.len(), rest)?;
    let (text, behind) = comment(alloc, rest, inside)?;
    push_comment(alloc, &mut writes, next, parent_of(&open_elements), text)?;
    Ok(State {
        rest: behind,
        open_elements,
        next: next + 1,
        begun,
        writes,
        external,
    })
}

/// A doctype.
#[tactic(auto, unfolding(crate::specs::StepsModel::doctype_step))]
fn doctype_step<'a>(s: State<'a>) -> Result<State<'a>, Failed<'a>>
    ensures value { Gives (λ t. spec.state_of t) result (spec.doctype_step (spec.state_of s.entry)) }
    ensures rest { IfOk result (λ t. IsLess s.entry.rest.now t.rest.now) }
{
    let rest = doctype(s.rest)?;
    Ok(State { rest, ..s })
}

/// The innermost open element is ended, where it has this name.
#[tactic(auto, unfolding(crate::specs::StepsModel::ended))]
fn ended<'a>(s: State<'a>, name: &str, behind: &'a str) -> Result<State<'a>, Failed<'a>>
    ensures value { Gives (λ t. spec.state_of t) result (spec.ended (spec.state_of s.entry) (bytes_spec.lowered name.now) behind.now (spec.innermost (spec.state_of s.entry).open_elements)) }
    ensures rest { IfOk result (λ t. t.rest.now ≡ behind.now) }
{
    let rest = s.rest;
    match innermost_of(&s.open_elements) {
        None => Err(Failed::Fault(PageKind::WrongEnd, rest)),
        Some(innermost) => {
            if !innermost.tag.eq_ignore_ascii_case(name) {
                return Err(Failed::Fault(PageKind::WrongEnd, rest));
            }
            Ok(without_innermost(s, behind))
        }
    }
}

/// An end tag.
#[tactic(auto, unfolding(crate::specs::StepsModel::end_step))]
fn end_step<'a>(s: State<'a>) -> Result<State<'a>, Failed<'a>>
    ensures value { Gives (λ t. spec.state_of t) result (spec.end_step (spec.state_of s.entry)) }
    ensures rest { IfOk result (λ t. IsLess s.entry.rest.now t.rest.now) }
{
    let (name, behind) = end_tag(s.rest)?;
    ended(s, name, behind)
}

fn at_end<'a>(s: State<'a>) -> Result<Step<'a>, Failed<'a>>
    ensures { Gives (λ x. spec.step_of x) result (spec.at_end (spec.state_of s.entry) (spec.innermost (spec.state_of s.entry).open_elements)) }
{
    match innermost_of(&s.open_elements) {
        None => Ok(Step::End(s)),
        Some(innermost) => Err(Failed::Fault(PageKind::Unclosed, innermost.start)),
    }
}

/// A run of text, or white space at the top.
fn at_text<'a>(alloc: Global, s: State<'a>) -> Result<Step<'a>, Failed<'a>>
    ensures value { Gives (λ x. spec.step_of x) result (spec.at_text (spec.state_of s.entry)) }
    ensures rest { spec.front_of s.entry.rest.now ≡ spec.run → IfOk result (λ x. IsLess s.entry.rest.now (spec.rest_of x)) }
{
    if !is_at_top(&s) {
        return Ok(Step::Next(text_step(alloc, s)?));
    }
    if !begins_space(s.rest.as_bytes()) {
        return Err(Failed::Fault(PageKind::BadTag, s.rest));
    }
    let rest = after_space(s.rest);
    Ok(Step::Next(State { rest, ..s }))
}

fn at_doctype<'a>(s: State<'a>) -> Result<Step<'a>, Failed<'a>>
    ensures value { Gives (λ x. spec.step_of x) result (spec.at_doctype (spec.state_of s.entry)) }
    ensures rest { IfOk result (λ x. IsLess s.entry.rest.now (spec.rest_of x)) }
{
    if !is_at_top(&s) || s.begun {
        return Err(Failed::Fault(PageKind::BadTag, s.rest));
    }
    Ok(Step::Next(doctype_step(s)?))
}

fn at_comment<'a>(alloc: Global, s: State<'a>, inside: &'a str) -> Result<Step<'a>, Failed<'a>>
    requires { inside.now ≡ drop 4 s.rest.now }
    ensures value { Gives (λ x. spec.step_of x) result (spec.next_of (spec.comment_step (spec.state_of s.entry))) }
    ensures rest { IfOk result (λ x. IsRest inside.now (spec.rest_of x)) }
{
    Ok(Step::Next(comment_step(alloc, s, inside)?))
}

fn at_end_tag<'a>(s: State<'a>) -> Result<Step<'a>, Failed<'a>>
    ensures value { Gives (λ x. spec.step_of x) result (spec.next_of (spec.end_step (spec.state_of s.entry))) }
    ensures rest { IfOk result (λ x. IsLess s.entry.rest.now (spec.rest_of x)) }
{
    Ok(Step::Next(end_step(s)?))
}

/// The step from a state.
pub(crate) fn next_step<'a>(alloc: Global, s: State<'a>) -> Result<Step<'a>, Failed<'a>>
    ensures value { Answers (λ x. spec.step_of x) (spec.Steps (spec.state_of s.entry)) result }
    ensures less { IfOk result (λ x. spec.GoesOn s.entry.rest.now x) }
{
    match front_of(s.rest) {
        Front::End => at_end(s),
        Front::Text => at_text(alloc, s),
        Front::Comment(inside) => at_comment(alloc, s, inside),
        Front::Doctype => at_doctype(s),
        Front::EndTag => at_end_tag(s),
        Front::Bad => Err(Failed::Fault(PageKind::BadTag, s.rest)),
        Front::StartTag(inside) => first_element(alloc, s, inside),
    }
}
