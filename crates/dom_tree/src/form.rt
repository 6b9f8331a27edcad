//! How a node is named, what it is, and why a call on the tree is refused.

ghost use Rattle.std.specs.Prelude.{◌≡◌, IfOk};

use base_text::{Mem, NoMemory, Text};
use std::alloc::{AllocError, AllocFailed};

/// A node of a tree, by the number of its making; the document is 0.
#[derive(Clone, Copy, Debug, PartialEq, Eq)]
pub struct NodeId(pub u32);

/// What a node other than the document is (DOM, Interfaces Element, Text and Comment).
#[derive(Debug, Drop)]
pub enum NodeForm {
    /// An element of this tag.
    Element(Text),
    /// A text.
    Str(Text),
    /// A comment.
    Comment(Text),
}

impl NodeForm {
    /// The same form once more.
    pub(crate) fn share(&self) -> Mem<NodeForm>
        ensures { IfOk result (λ form. form ≡ self.now) }
    {
        match self {
            NodeForm::Element(tag) => Ok(NodeForm::Element(tag.share()?)),
            NodeForm::Str(text) => Ok(NodeForm::Str(text.share()?)),
            NodeForm::Comment(text) => Ok(NodeForm::Comment(text.share()?)),
        }
    }
}

/// Why a call on the tree is refused.
#[derive(Clone, Copy, Debug, PartialEq, Eq)]
pub enum TreeFault {
    /// The maker would have more nodes than the limit.
    NodeLimit,
    /// The node can't stand in that parent.
    Hierarchy,
    /// The node isn't a child of that parent.
    NotFound,
    /// A node would be too many steps below its root.
    TooDeep,
    /// The text is longer than a text may be.
    TooLong,
    /// No memory was found.
    NoMemory,
}

impl From<AllocError> for TreeFault {
    ghost use Rattle.std.specs.Prelude.{◌≡◌};
    ghost use Rattle.dom_tree.specs.declared.form.TreeFault.TheVariants.{NoMemory};

    ghost from_gives = { λ _ e. e ≡ NoMemory };

    fn from(_error: AllocError) -> TreeFault {
        TreeFault::NoMemory
    }
}

impl<T: Drop> From<AllocFailed<T>> for TreeFault {
    ghost use Rattle.std.specs.Prelude.{◌≡◌};
    ghost use Rattle.dom_tree.specs.declared.form.TreeFault.TheVariants.{NoMemory};

    ghost from_gives = { λ _ e. e ≡ NoMemory };

    fn from(_error: AllocFailed<T>) -> TreeFault {
        TreeFault::NoMemory
    }
}

impl From<NoMemory> for TreeFault {
    ghost use Rattle.std.specs.Prelude.{◌≡◌};
    ghost use Rattle.dom_tree.specs.declared.form.TreeFault.TheVariants.{NoMemory};

    ghost from_gives = { λ _ e. e ≡ NoMemory };

    fn from(_error: NoMemory) -> TreeFault {
        TreeFault::NoMemory
    }
}
