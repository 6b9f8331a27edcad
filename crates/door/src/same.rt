//! Comparing and sharing what passes between actors, so that the layers above learn that what is
//! equal is the same, and that a clone is too.

ghost use Rattle.std.specs.Prelude.{◌≡◌, ◌↔◌, IsTrue, IfOk};
ghost use Rattle.std.specs.Bool.{Decides};
ghost use Rattle.std.specs.Cmp.Lexicographic.{pointwise_decides};
ghost use Rattle.std.proofs.lemmas.List.Elements.{same_from_all_zip};
ghost use Rattle.std.proofs.lemmas.Slice.Eq.{bytes_eq-Decides};
ghost use Rattle.door.specs.SameMarks.{entry_Decides, entry_copied, mark_Decides, mark_copied, outcome_Decides, outcome_copied, task_Decides};
ghost use Rattle.door.specs.SameRequests.{answer_Decides, answer_copied, error_Decides, error_copied, member_Decides, reach_Decides, reach_copied, request_Decides, request_copied, serve_Decides, serve_copied};
ghost use Rattle.door.specs.SameValues.{actor_Decides, thing_Decides, value_Decides, value_copied};

use crate::lists::List;
use crate::marks::{Entry, Mark, Outcome, Task};
use crate::members::Member;
use crate::requests::{Answer, ErrorKind, ReachOp, Request, ServeOp};
use crate::values::{Actor, Thing, Value};
use base_text::{Mem, Text};

/// A type whose `==` says whether two values are the same, and whose clones are the same value.
pub trait Same: Clone + PartialEq {
    ghost decides: { (x y : Self) → Decides (Self.eq x y) (x ≡ y) };

    ghost copies: { (x y : Self) → Self.is_clone x y → y ≡ x };
}

/// Whether two values are the same. It takes no memory.
pub fn is_same<T: Same>(a: &T, b: &T) -> bool
    ensures { IsTrue result ↔ (a.now ≡ b.now) }
{
    a == b
}

/// The same value once more, or the answer that there was no memory for it.
pub fn share<T: Same>(value: &T) -> Mem<T>
    ensures { IfOk result (λ shared. shared ≡ value.now) }
{
    Ok(value.clone()?)
}

impl Same for Text {
    ghost decides = { bytes_eq-Decides };

    ghost copies = { λ x y h. h };
}

impl Same for Actor {
    ghost decides = { actor_Decides };

    ghost copies = { λ x y h. h };
}

impl Same for Thing {
    ghost decides = { thing_Decides };

    ghost copies = { λ x y h. h };
}

impl Same for Value {
    ghost decides = { value_Decides };

    ghost copies = { value_copied };
}

impl<T: Same> Same for List<T> {
    ghost decides = { pointwise_decides T.decides };

    ghost copies = { λ xs ys h. same_from_all_zip T.is_clone xs ys h T.copies };
}

impl Same for Member {
    ghost decides = { member_Decides };

    ghost copies = { λ x y h. h };
}

impl Same for ReachOp {
    ghost decides = { reach_Decides };

    ghost copies = { reach_copied };
}

impl Same for Request {
    ghost decides = { request_Decides };

    ghost copies = { request_copied };
}

impl Same for ServeOp {
    ghost decides = { serve_Decides };

    ghost copies = { serve_copied };
}

impl Same for ErrorKind {
    ghost decides = { error_Decides };

    ghost copies = { error_copied };
}

impl Same for Answer {
    ghost decides = { answer_Decides };

    ghost copies = { answer_copied };
}

impl Same for Task {
    ghost decides = { task_Decides };

    ghost copies = { λ x y h. h };
}

impl Same for Entry {
    ghost decides = { entry_Decides };

    ghost copies = { entry_copied };
}

impl Same for Outcome {
    ghost decides = { outcome_Decides };

    ghost copies = { outcome_copied };
}

impl Same for Mark {
    ghost decides = { mark_Decides };

    ghost copies = { mark_copied };
}
