//! Why a text has no tokens.

/// Why no token can be read.
#[derive(Clone, Copy, Debug, PartialEq, Eq)]
pub enum LexKind {
    /// A scalar that can't stand there, or an escape that is none, at its backslash.
    BadScalar,
    /// No quote ends the text that begins there.
    UnclosedText,
    /// No `*/` ends the comment that begins there.
    UnclosedComment,
    /// The number that begins there is over 9007199254740991.
    WideNumber,
    /// The name that begins there, or the value of the text, has over 262,144 bytes.
    TooLong,
}

/// The first fault of a text that has no tokens.
#[derive(Clone, Copy, Debug, PartialEq, Eq)]
pub struct LexFault {
    /// The place, in bytes from the text's beginning.
    pub at: u32,
    pub kind: LexKind,
}
