//! What an actor can hold of the world outside itself, so that every crossing is spelled in one type.

use base_text::Text;

/// Who acts: 0 is the host, 1 the page, and 2 + i the userscript whose file name is the i-th in byte
/// order, from i = 0.
#[derive(Clone, Copy, Debug, PartialEq, Eq, PartialOrd, Ord)]
pub struct Actor(pub u32);

/// The host, which builds the page and dispatches its own events.
pub const HOST: Actor = Actor(0);

/// The page: all of its scripts are one actor.
pub const PAGE: Actor = Actor(1);

/// What a thing of the document is.
#[derive(Clone, Copy, Debug, PartialEq, Eq, PartialOrd, Ord)]
pub enum Kind {
    /// The window.
    Window,
    /// The document.
    Document,
    /// An element.
    Element,
    /// A text node.
    Str,
    /// A comment.
    Comment,
    /// An event.
    Event,
}

/// A thing of the document. The window has number 0; nodes are numbered by their making, and the
/// document is the first; events are numbered by their making too.
#[derive(Clone, Copy, Debug, PartialEq, Eq, PartialOrd, Ord)]
pub struct Thing {
    pub kind: Kind,
    pub number: u32,
}

/// The window.
pub const WINDOW: Thing = Thing {
    kind: Kind::Window,
    number: 0,
};

/// The document.
pub const DOCUMENT: Thing = Thing {
    kind: Kind::Document,
    number: 0,
};

/// What kind of object a cell of a script is.
#[derive(Clone, Copy, Debug, PartialEq, Eq)]
pub enum Shape {
    Plain,
    Array,
    Function,
    Error,
}

/// How a reader sees what another actor owns (MDN on Xray vision).
#[derive(Clone, Copy, Debug, PartialEq, Eq)]
pub enum Look {
    /// As its own.
    Own,
    /// Through an Xray, which shows the standard's own properties alone and runs no code of the owner.
    Xray,
    /// As the owner sees it; the owner does each operation.
    Transparent,
    /// Not at all.
    Denied,
    /// As Transparent, since the reader has waived its Xray.
    Waived,
}

/// A value that passes between an actor and what is outside it.
#[derive(Clone, Debug, Drop, PartialEq, Eq)]
pub enum Value {
    Undefined,
    Null,
    Bool(bool),
    /// A whole number.
    Number(i64),
    Str(Text),
    Thing(Thing),
    /// A thing seen without its Xray.
    WaivedThing(Thing),
    /// The object that stands at `place` among the proper cells of `owner`.
    Cell {
        owner: Actor,
        place: u32,
        shape: Shape,
        waived: bool,
    },
}
