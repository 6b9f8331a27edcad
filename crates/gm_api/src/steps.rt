//! The functions `GM_*` by the kinds of their arguments.
ghost use Rattle.std.specs.Prelude.{◌≡◌};
ghost use Rattle.gm_api.specs.Kinds.{argument, is_primitive, is_storable, row_of, step_by};

use door::{ErrorKind, Member, Value};

/// What a call of a function for userscripts does (Greasemonkey manual, `GM_*`).
#[derive(Debug, Drop, PartialEq, Eq)]
pub enum GmStep {
    /// `GM_getValue`: reads the value of the name that is the first argument's text.
    Get,
    /// `GM_setValue`: sets the value of that name to the second argument.
    Set,
    /// `GM_deleteValue`: deletes the value of that name.
    Delete,
    /// `GM_listValues`: lists the names.
    Names,
    /// `GM_log`: writes a line of the log.
    Line,
    /// It is refused with this error.
    Throw(ErrorKind),
}

/// What a call of `m` with these arguments does.
///
/// `Throw(ErrorKind::Kind)` exactly where `m` is no function for userscripts, where the name is an
/// object, or where the value that is to be set is no text, boolean or number. A missing argument is
/// undefined, and further arguments are ignored.
pub fn decide(m: Member, args: &[Value]) -> GmStep
    ensures { result ≡ step_by (row_of m) args.now }
{
    let (fits, step) = match m {
        Member::GmLog => (true, GmStep::Line),
        Member::GmListValues => (true, GmStep::Names),
        Member::GmGetValue => (primitive_at(args, 0), GmStep::Get),
        Member::GmDeleteValue => (primitive_at(args, 0), GmStep::Delete),
        Member::GmSetValue => (primitive_at(args, 0) && storable_at(args, 1), GmStep::Set),
        _ => (false, GmStep::Line),
    };
    if fits {
        step
    } else {
        GmStep::Throw(ErrorKind::Kind)
    }
}

/// Whether the argument at a place, counted from 0, is a primitive.
fn primitive_at(args: &[Value], at: usize) -> bool
    ensures { result ≡ is_primitive (argument args.now at) }
{
    match args.get(at) {
        None => true,
        Some(value) => match value {
            Value::Undefined | Value::Null | Value::Bool(_) | Value::Number(_) | Value::Str(_) =>
                true,
            Value::Thing(_) | Value::WaivedThing(_) | Value::Cell { .. } => false,
        },
    }
}

/// Whether the argument at a place, counted from 0, can be kept.
fn storable_at(args: &[Value], at: usize) -> bool
    ensures { result ≡ is_storable (argument args.now at) }
{
    match args.get(at) {
        None => false,
        Some(value) => match value {
            Value::Bool(_) | Value::Number(_) | Value::Str(_) => true,
            Value::Undefined
            | Value::Null
            | Value::Thing(_)
            | Value::WaivedThing(_)
            | Value::Cell { .. } => false,
        },
    }
}
