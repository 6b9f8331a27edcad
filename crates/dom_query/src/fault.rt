//! Why a text is no selector.

use base_text::NoMemory;
use std::alloc::AllocError;

/// Why a text is no selector.
#[derive(Clone, Copy, Debug, PartialEq, Eq)]
pub enum SelectorFault {
    /// No selector begins with the text through this place, or the text ends before its selector does.
    BadSelector {
        /// The place of that scalar, counted in scalars from 0, or the text's length.
        at: u32,
    },
    /// No memory was found.
    NoMemory,
}

impl From<NoMemory> for SelectorFault {
    ghost use Rattle.std.specs.Prelude.{◌≡◌};
    ghost use Rattle.dom_query.specs.declared.fault.SelectorFault.TheVariants as fault;

    ghost from_gives = { λ _ e. e ≡ fault.NoMemory };

    fn from(_error: NoMemory) -> SelectorFault {
        SelectorFault::NoMemory
    }
}

impl From<AllocError> for SelectorFault {
    ghost use Rattle.std.specs.Prelude.{◌≡◌};
    ghost use Rattle.dom_query.specs.declared.fault.SelectorFault.TheVariants as fault;

    ghost from_gives = { λ _ e. e ≡ fault.NoMemory };

    fn from(_error: AllocError) -> SelectorFault {
        SelectorFault::NoMemory
    }
}
