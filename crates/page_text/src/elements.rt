//! The step over a start tag: a void element, one whose content is one text, or one that stays open.

ghost use Rattle.std.specs.Prelude.{◌≡◌, ◌<◌, ◌≤◌, ◌&&◌, IfOk, drop, length};
ghost use Rattle.std.specs.Str.{IsUtf8};
ghost use Rattle.door.specs.declared.limits.TheConstants.{DEPTH_LIMIT, NODE_LIMIT};
ghost use Rattle.page_text.specs.Outcomes.{Answers, Gives, IsRest, checked};
ghost use Rattle.page_text.specs.StepsModel as spec;
ghost use Rattle.page_text.specs.TagsModel as tags_spec;

use crate::faults::{Failed, PageKind};
use crate::scan::{Raw, Stop, scan};
use crate::state::{Open, State, Step, element, is_at_top, parent_of, room, room_at};
use crate::tags::{Attribute, Tag, end_tag, is_empty, start_tag};
use crate::values::{raw_text, value};
use crate::writes::{is_runnable, is_void, push_element, push_text, raw_of, value_of};
use base_text::{Mem, Text};
use std::alloc::Global;

fn read_raw<'a>(alloc: Global, raw: Raw, text: &str, at: &'a str) -> Result<Text, Failed<'a>>
    ensures { Gives (λ t. t) result (checked (spec.read_raw raw text.now) at.now) }
{
    match raw {
        Raw::Script | Raw::Style => raw_text(alloc, text, at),
        Raw::Title | Raw::Textarea => value(alloc, text, at),
    }
}

/// The text inside of an element whose content is one text, and what stands from its end tag on.
#[tactic(auto, unfolding(crate::specs::StepsModel::inside_at))]
fn inside_at<'a>(
    alloc: Global,
    next: u32,
    depth: usize,
    raw: Raw,
    start: &'a str,
    text: &'a str,
) -> Result<Text, Failed<'a>>
    requires small { next < NODE_LIMIT }
    requires shallow { depth < DEPTH_LIMIT }
    ensures { Gives (λ t. t) result (spec.inside_at next depth raw start.now text.now) }
{
    let (content, end) = scan(text, Stop::AtEndOf(raw));
    if !is_empty(content) {
        room_at(next + 1, depth + 1, text)?;
    }
    if is_empty(end) {
        return Err(Failed::Fault(PageKind::Unclosed, start));
    }
    read_raw(alloc, raw, content, text)
}

/// An element is made from its start tag.
fn made<'a>(alloc: Global, s: State<'a>, t: Tag<'a>) -> Mem<(State<'a>, Vec<Attribute>)>
    requires { s.next < NODE_LIMIT }
    ensures value { IfOk result (λ x. spec.state_of x.0 ≡ spec.made (spec.state_of s.entry) (tags_spec.tag_of t.entry)) }
    ensures attributes { IfOk result (λ x. x.1.items ≡ t.entry.attributes.items) }
    ensures rest { IfOk result (λ x. x.0.rest.now ≡ t.entry.rest.now) }
{
    let State {
        open_elements,
        next,
        mut writes,
        external,
        ..
    } = s;
    let Tag {
        name,
        attributes,
        rest,
        ..
    } = t;
    push_element(
        alloc,
        &mut writes,
        next,
        parent_of(&open_elements),
        name,
        &attributes,
    )?;
    let state = State {
        rest,
        open_elements,
        next: next + 1,
        begun: true,
        writes,
        external,
    };
    Ok((state, attributes))
}

/// An element with content is open.
fn opened<'a>(alloc: Global, s: State<'a>, t: Tag<'a>) -> Mem<State<'a>>
    requires small { s.next < NODE_LIMIT }
    requires tag { t.raw.now ≡ tags_spec.name_of (drop 1 s.rest.now) }
    ensures value { IfOk result (λ x. spec.state_of x ≡ spec.opened (spec.state_of s.entry) (tags_spec.tag_of t.entry)) }
    ensures rest { IfOk result (λ x. x.rest.now ≡ t.entry.rest.now) }
{
    let start = s.rest;
    let tag = t.raw;
    let number = s.next;
    let (mut state, _) = made(alloc, s, t)?;
    state.open_elements.push(Open { start, tag, number })?;
    Ok(state)
}

/// The state behind the end tag of an element whose content is one text.
fn filled<'a>(
    alloc: Global,
    s: State<'a>,
    number: u32,
    empty: bool,
    text: Text,
    rest: &'a str,
) -> Mem<State<'a>>
    requires { s.next ≤ NODE_LIMIT }
    ensures value { IfOk result (λ x. spec.state_of x ≡ spec.filled number (spec.state_of s.entry) empty text rest.now) }
    ensures rest { IfOk result (λ x. x.rest.now ≡ rest.now) }
{
    let State {
        open_elements,
        mut next,
        begun,
        mut writes,
        external,
        ..
    } = s;
    if !empty {
        push_text(alloc, &mut writes, next, element(number), text)?;
        next += 1;
    }
    Ok(State {
        rest,
        open_elements,
        next,
        begun,
        writes,
        external,
    })
}

fn scripted<'a>(s: State<'a>, attributes: &[Attribute], text: Text) -> Mem<Step<'a>>
    ensures value { IfOk result (λ x. spec.step_of x ≡ spec.scripted (spec.state_of s.entry) attributes.now text) }
    ensures rest { IfOk result (λ x. spec.rest_of x ≡ s.entry.rest.now) }
{
    if is_runnable(attributes) {
        return Ok(Step::Script(text, s));
    }
    let mut s = s;
    if let Some(source) = value_of("src", attributes) {
        s.external.push(source.share()?)?;
    }
    Ok(Step::Next(s))
}

fn closed_raw<'a>(raw: Raw, s: State<'a>, attributes: &[Attribute], text: Text) -> Mem<Step<'a>>
    ensures value { IfOk result (λ x. spec.step_of x ≡ spec.closed_raw raw (spec.state_of s.entry) attributes.now text) }
    ensures rest { IfOk result (λ x. spec.rest_of x ≡ s.entry.rest.now) }
{
    match raw {
        Raw::Script => scripted(s, attributes, text),
        Raw::Style | Raw::Title | Raw::Textarea => Ok(Step::Next(s)),
    }
}

/// An element whose content is one text, up to its end tag.
#[tactic(auto, unfolding(crate::specs::StepsModel::raw_step))]
fn raw_step<'a>(alloc: Global, s: State<'a>, t: Tag<'a>, raw: Raw) -> Result<Step<'a>, Failed<'a>>
    requires small { s.next < NODE_LIMIT }
    requires shallow { length s.open_elements.items < DEPTH_LIMIT }
    ensures value { Gives (λ x. spec.step_of x) result (spec.raw_step (spec.state_of s.entry) (tags_spec.tag_of t.entry) raw) }
    ensures rest { IfOk result (λ x. IsRest t.entry.rest.now (spec.rest_of x)) }
{
    let number = s.next;
    let content = t.rest;
    let text = inside_at(alloc, number, s.open_elements.len(), raw, s.rest, content)?;
    let (inside, end) = scan(content, Stop::AtEndOf(raw));
    let (_, behind) = end_tag(end)?;
    let (state, attributes) = made(alloc, s, t)?;
    let state = filled(
        alloc,
        state,
        number,
        is_empty(inside),
        text.share()?,
        behind,
    )?;
    Ok(closed_raw(raw, state, &attributes, text)?)
}

/// What follows a start tag.
fn tag_step<'a>(alloc: Global, s: State<'a>, t: Tag<'a>) -> Result<Step<'a>, Failed<'a>>
    requires small { s.next < NODE_LIMIT }
    requires shallow { length s.open_elements.items < DEPTH_LIMIT }
    requires tag { t.raw.now ≡ tags_spec.name_of (drop 1 s.rest.now) }
    requires text { IsUtf8 t.rest.now }
    ensures value { Gives (λ x. spec.step_of x) result (spec.tag_step (spec.state_of s.entry) (tags_spec.tag_of t.entry)) }
    ensures rest { IfOk result (λ x. IsRest t.entry.rest.now (spec.rest_of x)) }
{
    if is_void(&t.name) {
        let (state, _) = made(alloc, s, t)?;
        return Ok(Step::Next(state));
    }
    match raw_of(&t.name) {
        None => Ok(Step::Next(opened(alloc, s, t)?)),
        Some(raw) => raw_step(alloc, s, t, raw),
    }
}

/// An element.
fn element_step<'a>(alloc: Global, s: State<'a>, inside: &'a str) -> Result<Step<'a>, Failed<'a>>
    requires { inside.now ≡ drop 1 s.rest.now }
    ensures value { Answers (λ x. spec.step_of x) (spec.ElementStep (spec.state_of s.entry)) result }
    ensures rest { IfOk result (λ x. IsRest inside.now (spec.rest_of x)) }
{
    match room(&s) {
        Err(failed) => return Err(failed),
        Ok(()) => {}
    }
    match start_tag(alloc, s.rest, inside) {
        Err(failed) => Err(failed),
        Ok(t) => tag_step(alloc, s, t),
    }
}

fn is_second(s: &State<'_>) -> bool
    ensures { result ≡ (spec.is_at_top (spec.state_of s.now) && s.now.begun) }
{
    is_at_top(s) && s.begun
}

/// An element, where one may stand.
pub(crate) fn first_element<'a>(
    alloc: Global,
    s: State<'a>,
    inside: &'a str,
) -> Result<Step<'a>, Failed<'a>>
    requires { inside.now ≡ drop 1 s.rest.now }
    ensures value { Answers (λ x. spec.step_of x) (spec.StepsAt (spec.state_of s.entry) spec.start_tag) result }
    ensures rest { IfOk result (λ x. IsRest inside.now (spec.rest_of x)) }
{
    if is_second(&s) {
        return Err(Failed::Fault(PageKind::BadTag, s.rest));
    }
    element_step(alloc, s, inside)
}
