//! What is wrong with a page, and where.

use base_text::NoMemory;
use std::alloc::{AllocError, AllocFailed};

/// What is wrong with a page.
#[derive(Clone, Copy, Debug, PartialEq, Eq)]
pub enum PageKind {
    /// There is no `page.html`.
    Missing,
    /// The bytes aren't UTF-8.
    NotUtf8,
    /// The page or a part of it is too long, or it has too many nodes.
    TooLong,
    /// A tag, a comment or an element isn't closed.
    Unclosed,
    /// A tag or a text stands where none may.
    BadTag,
    /// An end tag doesn't end the innermost open element.
    WrongEnd,
    /// A node is too far below the document.
    TooDeep,
}

/// Why a page is refused, and the byte of `page.html` at which it is.
#[derive(Clone, Copy, Debug, PartialEq, Eq)]
pub struct PageFault {
    pub at: u32,
    pub kind: PageKind,
}

/// Why a part of the page isn't read: want of memory, or a fault and the page's text from it on.
#[derive(Drop)]
pub(crate) enum Failed<'a> {
    Memory,
    Fault(PageKind, &'a str),
}

impl<'a> From<AllocError> for Failed<'a> {
    ghost use Rattle.std.specs.Prelude.{◌≡◌};
    ghost use Rattle.page_text.specs.declared.faults.Failed.TheVariants.{Memory};

    ghost from_gives = { λ _ e. e ≡ Memory };

    fn from(_error: AllocError) -> Failed<'a> {
        Failed::Memory
    }
}

impl<'a, T: Drop> From<AllocFailed<T>> for Failed<'a> {
    ghost use Rattle.std.specs.Prelude.{◌≡◌};
    ghost use Rattle.page_text.specs.declared.faults.Failed.TheVariants.{Memory};

    ghost from_gives = { λ _ e. e ≡ Memory };

    fn from(_error: AllocFailed<T>) -> Failed<'a> {
        Failed::Memory
    }
}

impl<'a> From<NoMemory> for Failed<'a> {
    ghost use Rattle.std.specs.Prelude.{◌≡◌};
    ghost use Rattle.page_text.specs.declared.faults.Failed.TheVariants.{Memory};

    ghost from_gives = { λ _ e. e ≡ Memory };

    fn from(_error: NoMemory) -> Failed<'a> {
        Failed::Memory
    }
}
