//! Refusals of requests.

ghost use Rattle.std.specs.Prelude.{IfOk};
ghost use Rattle.dom_stage.specs.Refusals.{IsRefusedBy};

use base_text::{Mem, NoMemory};
use dom_tree::TreeFault;
use door::{Answer, ErrorKind};

/// The answer by which a fault of the tree refuses a request.
pub fn refused(fault: TreeFault) -> Mem<Answer>
    ensures { IfOk result (λ a. IsRefusedBy fault a) }
{
    let reason = match fault {
        TreeFault::NodeLimit => ErrorKind::Limit,
        TreeFault::Hierarchy => ErrorKind::Hierarchy,
        TreeFault::NotFound => ErrorKind::NotFound,
        TreeFault::TooDeep => ErrorKind::TooDeep,
        TreeFault::TooLong => ErrorKind::TooLong,
        TreeFault::NoMemory => return Err(NoMemory),
    };
    Ok(Answer::Throw(reason))
}
