//! What cells hold, and why a call of the heap is refused.

use base_text::{NoMemory, Text};
use door::{Actor, Kind, Look, Thing};
use js_ops::Primitive;
use js_syntax::{Function, Shared};
use std::alloc::{AllocError, AllocFailed};

/// The last place of an owner up to which places may be left out.
pub const PLACE_LIMIT: u32 = 1_000;

/// A cell, by its number on the heap.
#[derive(Clone, Copy, Debug, PartialEq, Eq, PartialOrd, Ord)]
pub struct CellId(pub u32);

/// A value that a cell holds (ECMAScript, 6.1).
#[derive(Debug, Drop)]
pub enum Slot {
    Prim(Primitive),
    /// An object.
    Cell(CellId),
}

/// A property (ECMAScript, 6.1.7.1; no property is fixed).
#[derive(Debug, Drop)]
pub enum Prop {
    /// A data property.
    Slot {
        value: Slot,
        writable: bool,
        enumerable: bool,
    },
    /// An accessor property.
    Accessor {
        get: Option<CellId>,
        set: Option<CellId>,
        enumerable: bool,
    },
}

/// What a cell is.
#[derive(Drop)]
pub enum Form {
    /// A plain object.
    Plain,
    /// An array.
    Array,
    /// A function of a script: its code, and the scope around it, which is none at the top.
    Function(Shared<Function>, Option<CellId>),
    /// A built-in function, by its number among the intrinsics.
    Native(u32),
    /// An error, with name and message as it was made.
    Error(Text, Text),
    /// A thing that the owner met.
    Thing(Thing),
    /// A cell of another actor as the owner sees it.
    Link(Actor, CellId, Look),
    /// A function of another actor that was exported to the owner.
    Forward(Actor, CellId),
    /// A scope.
    Scope,
}

/// The prototypes of an actor's own that rules name (ECMAScript, 6.1.7.4; Web IDL, interface prototype object).
#[derive(Clone, Copy, Debug, PartialEq, Eq)]
pub enum Standard {
    Object,
    Function,
    Array,
    Str,
    Number,
    Boolean,
    Error,
    Thing(Kind),
}

/// Why a call of the heap is refused.
#[derive(Clone, Copy, Debug, PartialEq, Eq)]
pub enum HeapFault {
    /// The owner has as many cells as the limit.
    CellLimit,
    /// A chain of prototypes would close.
    Cycle,
    /// A place past an array's end, or a length that is none.
    Sparse,
    /// A property that an array's place or length can't have.
    Kind,
    /// There was no memory for it.
    NoMemory,
}

impl From<NoMemory> for HeapFault {
    ghost use Rattle.std.specs.Prelude.{◌≡◌};
    ghost use Rattle.js_objects.specs.declared.values.HeapFault.TheVariants as fault;

    ghost from_gives = { λ _ e. e ≡ fault.NoMemory };

    fn from(_error: NoMemory) -> HeapFault {
        HeapFault::NoMemory
    }
}

impl From<AllocError> for HeapFault {
    ghost use Rattle.std.specs.Prelude.{◌≡◌};
    ghost use Rattle.js_objects.specs.declared.values.HeapFault.TheVariants as fault;

    ghost from_gives = { λ _ e. e ≡ fault.NoMemory };

    fn from(_error: AllocError) -> HeapFault {
        HeapFault::NoMemory
    }
}

impl<T: Drop> From<AllocFailed<T>> for HeapFault {
    ghost use Rattle.std.specs.Prelude.{◌≡◌};
    ghost use Rattle.js_objects.specs.declared.values.HeapFault.TheVariants as fault;

    ghost from_gives = { λ _ e. e ≡ fault.NoMemory };

    fn from(_error: AllocFailed<T>) -> HeapFault {
        HeapFault::NoMemory
    }
}
