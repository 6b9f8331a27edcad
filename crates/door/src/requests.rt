//! What an actor asks of the host, what it is answered, and what one actor does to another's object.

use crate::lists::{Texts, Values};
use crate::members::Member;
use crate::values::{Actor, Thing, Value};
use base_text::Text;

/// What an actor asks of the host.
#[derive(Clone, Debug, Drop, PartialEq, Eq)]
pub enum Request {
    /// A member of a thing, with the call's arguments.
    Native(Member, Thing, Values),
    /// The property of this key, of the object at a place among an actor's proper cells, read without
    /// running any code.
    Peek(Actor, u32, Text),
    /// The keys of such an object.
    PeekKeys(Actor, u32),
    /// A way out of the sandbox.
    Reach(ReachOp),
}

/// A way for a userscript to reach the page's own objects, with the call's arguments; a missing one
/// is Undefined (MDN on `Components.utils`, Greasemonkey manual on `unsafeWindow`).
#[derive(Clone, Debug, Drop, PartialEq, Eq)]
pub enum ReachOp {
    /// `wrappedJSObject` of this value.
    Waive(Value),
    /// `XPCNativeWrapper` of this value.
    Unwaive(Value),
    /// `unsafeWindow`.
    UnsafeWindow,
    /// `exportFunction`: function, scope, options.
    Export(Value, Value, Value),
    /// `createObjectIn`: scope, options.
    CreateIn(Value, Value),
    /// `cloneInto`: value, scope, options, and the truth of the options `cloneFunctions` and
    /// `wrapReflectors` as they were read.
    Clone(Value, Value, Value, bool, bool),
}

/// What is done to an object by its owner for another actor: the object operations of ECMAScript.
#[derive(Clone, Debug, Drop, PartialEq, Eq)]
pub enum ServeOp {
    /// The value of this key.
    Get(Text),
    /// Sets the value of this key.
    Set(Text, Value),
    /// Whether there is this key.
    Has(Text),
    /// Deletes this key.
    Delete(Text),
    /// The keys in order.
    Keys,
    /// The prototype.
    Proto,
    /// Defines this key anew with this value.
    Define(Text, Value),
    /// A call with this receiver and these arguments.
    Call(Value, Values),
    /// A call by `new` with these arguments.
    New(Values),
}

/// What a request is answered.
#[derive(Clone, Debug, Drop, PartialEq, Eq)]
pub enum Answer {
    /// This value.
    Value(Value),
    /// These values in order.
    List(Values),
    /// These keys in order.
    Keys(Texts),
    /// There is no such property.
    Absent,
    /// The asker has no right to it.
    Denied,
    /// The request is refused, which its asker sees as this error.
    Throw(ErrorKind),
    /// The code that served it threw this value.
    Thrown(Value),
    /// The code that served it was stopped.
    Stopped,
}

/// Why a request is refused, by the error that its asker sees.
#[derive(Clone, Debug, Drop, PartialEq, Eq)]
pub enum ErrorKind {
    /// HierarchyRequestError `cannot insert here`.
    Hierarchy,
    /// NotFoundError `not a child`.
    NotFound,
    /// InvalidStateError `cannot dispatch now`.
    InvalidState,
    /// SyntaxError `bad selector`.
    Syntax,
    /// InvalidCharacterError `bad name`.
    InvalidCharacter,
    /// RangeError `limit reached`.
    Limit,
    /// RangeError `tree too deep`.
    TooDeep,
    /// RangeError `text too long`.
    TooLong,
    /// RangeError `out of range`.
    Range,
    /// TypeError `wrong kind of value`.
    Kind,
    /// Error `Permission denied to access property`.
    Denied,
    /// Error with this message, where a value can't cross from one actor to another.
    Crossing(Text),
}
