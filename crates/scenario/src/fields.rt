//! The fields of one line.
ghost use Rattle.std.specs.Prelude.{◌≡◌, ◌↔◌, ◌≤◌, ℕ, List, length, IsTrue, IfOk, MatchOption};
ghost use Rattle.std.specs.Str.{chars};
ghost use Rattle.base_text.specs.Answers.{IfFault};
ghost use Rattle.base_text.specs.declared.text.TheConstants.{TEXT_LIMIT};
ghost use Rattle.scenario.specs.Lines.{Chains, AreTwo, Fails, HasNoSpace, HasRest, IsLine, IsName, RestFails, Says, Selects, verb_text};
ghost use Rattle.scenario.specs.Parts.{IsSplit, IsSaid};
ghost use Rattle.scenario.specs.declared.fault.EventsKind.TheVariants.{BadSelector};
ghost use Rattle.scenario.specs.declared.line.Verb.{Verb};
ghost use Rattle.scenario.specs.declared.line.Verb.TheVariants as verb;

use crate::fault::EventsKind;
use crate::line::{Line, Verb};
use crate::number::tick_of;
use base_text::{Mem, NoMemory, OrMemory, Text};
use dom_query::{Selector, SelectorFault, parse_selector};
use std::alloc::Global;

/// What stands before the first space, and what follows it.
fn split_space(s: &str) -> Option<(&str, &str)>
    ensures { MatchOption result (HasNoSpace s.now) (λ r. IsSplit s.now r.0.now r.1.now) }
{
    s.split_once(' ')
}

/// The verb that a word is.
fn verb_of(s: &str) -> Option<Verb>
    ensures { MatchOption result ((v : Verb) → s.now ≡ verb_text v → ⊥) (λ v. s.now ≡ verb_text v) }
{
    match s {
        "click" => Some(Verb::Click),
        "input" => Some(Verb::Input),
        "event" => Some(Verb::Event),
        "tick" => Some(Verb::Tick),
        _ => None,
    }
}

/// Two fields: one that isn't empty and runs to the first space, and the rest.
fn two_fields(s: &str) -> Option<(&str, &str)>
    ensures { MatchOption result ((first second : List ℕ) → AreTwo s.now first second → ⊥)
        (λ r. AreTwo s.now r.0.now r.1.now) }
{
    let Some((first, second)) = split_space(s) else {
        return None;
    };
    if first.is_empty() {
        return None;
    }
    Some((first, second))
}

/// Whether a field is a NAME.
fn is_name(s: &str) -> bool
    ensures { IsTrue result ↔ IsName s.now }
{
    if s.is_empty() {
        return false;
    }
    match split_space(s) {
        Some(_) => false,
        None => true,
    }
}

/// A text within the limit.
fn text_of(alloc: Global, s: &str) -> Mem<Text>
    requires { length s.now ≤ TEXT_LIMIT }
    ensures { IfOk result (λ t. t ≡ chars s.now) }
{
    match Text::of(alloc, s) {
        Ok(text) => Ok(text),
        Err(_) => Err(NoMemory),
    }
}

/// The selector that a field spells.
fn selector_of(alloc: Global, s: &str) -> Result<Selector, OrMemory<EventsKind>>
    requires { length s.now ≤ TEXT_LIMIT }
    ensures ok { IfOk result (Selects s.now) }
    ensures fault { IfFault result (λ kind. (kind ≡ BadSelector) × ((chains : Chains) → Selects s.now chains → ⊥)) }
{
    let text = text_of(alloc, s)?;
    match parse_selector(alloc, &text) {
        Ok(selector) => Ok(selector),
        Err(SelectorFault::BadSelector { at: _ }) => Err(OrMemory::Fault(EventsKind::BadSelector)),
        Err(SelectorFault::NoMemory) => Err(OrMemory::NoMemory),
    }
}

fn read_click(alloc: Global, rest: &str, number: u32) -> Result<Line, OrMemory<EventsKind>>
    requires { length rest.now ≤ TEXT_LIMIT }
    ensures ok { IfOk result (IsSaid number verb.Click rest.now) }
    ensures fault { IfFault result (RestFails verb.Click rest.now) }
{
    if rest.is_empty() {
        return Err(OrMemory::Fault(EventsKind::MissingField));
    }
    let selector = selector_of(alloc, rest)?;
    Ok(Line::Click(number, selector))
}

fn read_input(alloc: Global, rest: &str, number: u32) -> Result<Line, OrMemory<EventsKind>>
    requires { length rest.now ≤ TEXT_LIMIT }
    ensures ok { IfOk result (IsSaid number verb.Input rest.now) }
    ensures fault { IfFault result (RestFails verb.Input rest.now) }
{
    let Some((selector, text)) = two_fields(rest) else {
        return Err(OrMemory::Fault(EventsKind::MissingField));
    };
    let text = text_of(alloc, text)?;
    let selector = selector_of(alloc, selector)?;
    Ok(Line::Input(number, selector, text))
}

fn read_event(alloc: Global, rest: &str, number: u32) -> Result<Line, OrMemory<EventsKind>>
    requires { length rest.now ≤ TEXT_LIMIT }
    ensures ok { IfOk result (IsSaid number verb.Event rest.now) }
    ensures fault { IfFault result (RestFails verb.Event rest.now) }
{
    let Some((selector, name)) = two_fields(rest) else {
        return Err(OrMemory::Fault(EventsKind::MissingField));
    };
    if !is_name(name) {
        return Err(OrMemory::Fault(EventsKind::MissingField));
    }
    let name = text_of(alloc, name)?;
    let selector = selector_of(alloc, selector)?;
    Ok(Line::Event(number, selector, name))
}

fn read_tick(rest: &str, number: u32) -> Result<Line, OrMemory<EventsKind>>
    ensures ok { IfOk result (IsSaid number verb.Tick rest.now) }
    ensures fault { IfFault result (RestFails verb.Tick rest.now) }
{
    if rest.is_empty() {
        return Err(OrMemory::Fault(EventsKind::MissingField));
    }
    match tick_of(rest) {
        Some(n) => Ok(Line::Tick(number, n)),
        None => Err(OrMemory::Fault(EventsKind::BadNumber)),
    }
}

fn read_fields(
    alloc: Global,
    verb: Verb,
    rest: &str,
    number: u32,
) -> Result<Line, OrMemory<EventsKind>>
    requires { length rest.now ≤ TEXT_LIMIT }
    ensures ok { IfOk result (IsSaid number verb rest.now) }
    ensures fault { IfFault result (RestFails verb rest.now) }
{
    match verb {
        Verb::Click => read_click(alloc, rest, number),
        Verb::Input => read_input(alloc, rest, number),
        Verb::Event => read_event(alloc, rest, number),
        Verb::Tick => read_tick(rest, number),
    }
}

/// What is wrong with a line without a space.
fn word_fault(line: &str) -> EventsKind
    requires { HasNoSpace line.now }
    ensures { Fails line.now result }
{
    match verb_of(line) {
        Some(_) => EventsKind::MissingField,
        None => EventsKind::BadVerb,
    }
}

/// What a line says that isn't skipped.
pub(crate) fn read_line(
    alloc: Global,
    line: &str,
    number: u32,
) -> Result<Line, OrMemory<EventsKind>>
    requires { length line.now ≤ TEXT_LIMIT }
    ensures ok { IfOk result (IsLine number line.now) }
    ensures fault { IfFault result (Fails line.now) }
{
    let Some((word, rest)) = split_space(line) else {
        return Err(OrMemory::Fault(word_fault(line)));
    };
    let Some(verb) = verb_of(word) else {
        return Err(OrMemory::Fault(EventsKind::BadVerb));
    };
    read_fields(alloc, verb, rest, number)
}
