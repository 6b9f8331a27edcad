//! What no clause says: that nodes, listeners and events are made and changed while there is memory.

use crate::*;
use base_text::Text;
use door::{Actor, Answer, DOCUMENT, PAGE, Thing, Value};
use gm_store::Stores;
use std::process::Abort;
use std::test::Fail;

const SCRIPT: Actor = Actor(2);

/// The thing that was answered.
fn made(rt: &impl Abort, answer: Answer) -> Thing {
    match answer {
        Answer::Value(Value::Thing(thing)) => thing,
        _ => panic!(rt; "no thing"),
    }
}

#[test]
fn nodes_listeners_and_events_are_made(rt: HostRuntime) -> Result<(), Fail> {
    let alloc = rt.alloc();
    let word = Text::of(alloc, "click")?;
    let mut stage = Stage::new(alloc, &word, Stores::new(alloc))?;
    assert!(rt; stage.tree().count() < 1_000);
    let note = made(&rt, stage.create_comment(PAGE, &word)?);
    assert!(rt; stage.tree().count() < 1_000);
    assert!(rt; note.number < stage.tree().count());
    assert!(rt; made(&rt, stage.append_child(DOCUMENT, note)?) == note);
    Ok(())
}
