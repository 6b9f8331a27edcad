//! Tokens, which the lexer makes of a text and the parser reads (ECMAScript, 12 Lexical Grammar).

use base_text::Text;
use sqlite_items::Items;

/// What a token is.
#[derive(Clone, Copy, Debug, PartialEq, Eq)]
pub enum TokenKind {
    /// A name that isn't reserved.
    Name,
    /// A reserved word.
    Word,
    /// A whole number.
    Number,
    /// A text between quotes.
    Str,
    /// A punctuator, such as `+=`.
    Punct,
    /// The end of the text.
    End,
}

/// One token, with its place in the text.
#[derive(Debug, PartialEq, Eq, Drop)]
pub struct Token {
    pub kind: TokenKind,
    /// Of a name, a word or a punctuator its spelling; of a text its value; of a number the value's decimal
    /// digits; of the end nothing.
    pub text: Text,
    /// The place of its first byte, in bytes from the text's beginning.
    pub from: u32,
    /// The place after its last byte.
    pub to: u32,
    /// Whether a line ends between the token before it, or the text's beginning, and this one.
    pub line_before: bool,
}

/// Tokens in order, which contracts see as their list.
pub type Tokens = Items<Token>;
