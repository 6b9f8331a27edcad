//! Why tokens are no script.

/// Why no script has the tokens.
#[derive(Clone, Copy, Debug, PartialEq, Eq)]
pub enum ParseKind {
    /// No script has the tokens through this one at its front, whatever the limits.
    Unexpected,
    /// Only scripts that go over a limit have them there: 63 for the depth of a part, 64 for the
    /// operators of a chain and for the suffixes of one chain of them.
    TooDeep,
}

/// The first fault of tokens that are no script.
#[derive(Clone, Copy, Debug, PartialEq, Eq)]
pub struct ParseFault {
    /// The place of the token's first byte, in bytes from the text's beginning.
    pub at: u32,
    pub kind: ParseKind,
}
