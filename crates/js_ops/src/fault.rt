//! Why an operator gives nothing.
use base_text::NoMemory;

/// Why an operator gives nothing.
#[derive(Clone, Copy, Debug, PartialEq, Eq)]
pub enum OpFault {
    /// The result is no number of a script, or a text spells none: a RangeError.
    Range,
    /// The operator doesn't take an operand of this kind: a TypeError.
    Kind,
    /// The text would have more bytes of UTF-8 than the limit: a RangeError.
    TooLong,
    /// No memory was found.
    NoMemory,
}

impl From<NoMemory> for OpFault {
    ghost use Rattle.std.specs.Prelude.{◌≡◌};
    ghost use Rattle.js_ops.specs.declared.fault.OpFault.TheVariants.{NoMemory};

    ghost from_gives = { λ _ e. e ≡ NoMemory };

    fn from(_error: NoMemory) -> OpFault {
        OpFault::NoMemory
    }
}
