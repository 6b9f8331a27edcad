//! The steps of a run as they are kept, which is all that the rest of the host says of a run.

use crate::requests::{Answer, Request, ServeOp};
use crate::values::{Actor, Thing, Value};
use base_text::Text;

/// One step of a run.
#[derive(Clone, Debug, Drop, PartialEq, Eq)]
pub enum Mark {
    /// The next turn begins.
    Turn(Task),
    /// The host makes this request.
    Build(Request),
    /// An actor's code is entered.
    Enter(Actor, Entry),
    /// An actor asks, and is answered.
    Ask(Actor, Request, Answer),
    /// An actor dispatches the event of this number at this thing.
    Dispatch(Actor, u32, Thing),
    /// Its dispatch comes back with this answer.
    Back(Actor, Answer),
    /// An entry ends, after this many units of work.
    Leave(Actor, Outcome, u32),
    /// The first actor has the second, the owner of this object, do something to it.
    Serve(Actor, Actor, Value, ServeOp),
    /// That comes back to the first actor with this answer.
    Served(Actor, Answer),
}

/// What a turn does.
#[derive(Clone, Copy, Debug, PartialEq, Eq)]
pub enum Task {
    /// Starts a userscript, counted from 0.
    Start(u32),
    /// Builds the piece of the page of this number, from 0.
    Piece(u32),
    /// Tells the document that all of it is built: DOMContentLoaded.
    Ready,
    /// Tells the window that the page is loaded: load.
    Load,
    /// Acts out the line of this number of the scenario, from 1 over all lines of its file.
    Line(u32),
    /// Runs this timer of an actor, by its number from 1.
    Timer(Actor, u32),
}

/// How an actor's code is entered. A callback is named by its place among the actor's proper cells.
#[derive(Clone, Debug, Drop, PartialEq, Eq)]
pub enum Entry {
    /// At the top of a script of this text.
    Script(Text),
    /// In a listener: its callback, the event and the current target.
    Listener(u32, Thing, Thing),
    /// In the callback of a timer.
    Timer(u32),
    /// In an operation on this object of its own, for another actor.
    Serve(Value, ServeOp),
}

/// How an entry ends.
#[derive(Clone, Debug, Drop, PartialEq, Eq)]
pub enum Outcome {
    /// At its end.
    Done,
    /// By a throw that nothing caught, whose value has this text.
    Throw(Text),
    /// By a limit, which nothing can catch.
    Stop(StopKind),
    /// Before its first step, since the script's text has a fault of this name at this place.
    Syntax(u32, Text),
}

/// Which limit an entry was stopped at.
#[derive(Clone, Copy, Debug, PartialEq, Eq)]
pub enum StopKind {
    /// Its units of work.
    Fuel,
    /// Its levels: the unfinished expressions, statements, calls and entries of its actor.
    Levels,
    /// The cells of its actor.
    Cells,
}
