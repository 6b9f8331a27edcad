//! The table of kinds as the Greasemonkey manual and this project's documents give it.
use crate::{GmStep, decide};
use base_text::Text;
use door::{Actor, ErrorKind, Kind, Member, Shape, Thing, Value};
use std::alloc::Global;
use std::test::Fail;

/// One value of each kind, whether it is a primitive, and whether it can be kept.
fn kinds(alloc: Global) -> Result<Vec<(Value, bool, bool)>, Fail> {
    let window = Thing {
        kind: Kind::Window,
        number: 0,
    };
    Ok(vec![in alloc;
        (Value::Undefined, true, false),
        (Value::Null, true, false),
        (Value::Bool(false), true, true),
        (Value::Number(0), true, true),
        (Value::Number(-9_007_199_254_740_991), true, true),
        (Value::Str(Text::of(alloc, "")?), true, true),
        (Value::Str(Text::of(alloc, "é")?), true, true),
        (Value::Thing(window), false, false),
        (Value::WaivedThing(window), false, false),
        (
            Value::Cell {
                owner: Actor(2),
                place: 0,
                shape: Shape::Plain,
                waived: false,
            },
            false,
            false,
        ),
    ]?)
}

/// The step where the call fits, else the TypeError.
fn step_or_throw(fits: bool, step: GmStep) -> GmStep {
    if fits {
        step
    } else {
        GmStep::Throw(ErrorKind::Kind)
    }
}

#[test]
fn a_name_is_a_primitive(rt: HostRuntime) -> Result<(), Fail> {
    for (value, primitive, _) in kinds(rt.alloc())? {
        let args = [value];
        let args = args.as_slice();
        assert_eq!(rt;
            decide(Member::GmGetValue, args),
            step_or_throw(primitive, GmStep::Get)
        );
        assert_eq!(rt;
            decide(Member::GmDeleteValue, args),
            step_or_throw(primitive, GmStep::Delete)
        );
        assert_eq!(rt;
            decide(Member::GmSetValue, args),
            GmStep::Throw(ErrorKind::Kind)
        );
        assert_eq!(rt; decide(Member::GmListValues, args), GmStep::Names);
        assert_eq!(rt; decide(Member::GmLog, args), GmStep::Line);
        assert_eq!(rt;
            decide(Member::ConsoleLog, args),
            GmStep::Throw(ErrorKind::Kind)
        );
    }
    Ok(())
}

#[test]
fn a_kept_value_is_a_text_a_boolean_or_a_number(rt: HostRuntime) -> Result<(), Fail> {
    let alloc = rt.alloc();
    for (value, _, storable) in kinds(alloc)? {
        let args = [Value::Str(Text::of(alloc, "k")?), value];
        let args = args.as_slice();
        assert_eq!(rt;
            decide(Member::GmSetValue, args),
            step_or_throw(storable, GmStep::Set)
        );
        assert_eq!(rt; decide(Member::GmGetValue, args), GmStep::Get);
    }
    for (value, primitive, _) in kinds(alloc)? {
        let args = [value, Value::Bool(true), Value::Null];
        assert_eq!(rt;
            decide(Member::GmSetValue, args.as_slice()),
            step_or_throw(primitive, GmStep::Set)
        );
    }
    Ok(())
}

#[test]
fn a_missing_argument_is_undefined(rt: HostRuntime) {
    for (member, step) in [
        (Member::GmGetValue, GmStep::Get),
        (Member::GmSetValue, GmStep::Throw(ErrorKind::Kind)),
        (Member::GmDeleteValue, GmStep::Delete),
        (Member::GmListValues, GmStep::Names),
        (Member::GmLog, GmStep::Line),
        (Member::WindowDocument, GmStep::Throw(ErrorKind::Kind)),
    ] {
        let args: [Value; 0] = [];
        assert_eq!(rt; decide(member, args.as_slice()), step);
    }
}
