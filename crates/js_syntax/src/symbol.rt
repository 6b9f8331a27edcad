//! The terminal symbols of the grammar, and which of them a token is (ECMAScript, 12).
ghost use Rattle.std.specs.Prelude.{◌≡◌, ◌≤◌, ◌&&◌, IfSome};
ghost use Rattle.std.specs.Str.{chars};
ghost use Rattle.js_syntax.specs.TokenScalars.{is_name_start, is_name_part};
ghost use Rattle.js_syntax.specs.TokenSpelling.{widest};
ghost use Rattle.js_syntax.specs.ReservedWords.{is_reserved_word, reserved_symbols};
ghost use Rattle.js_syntax.specs.SymbolNumbers.{amid};
ghost use Rattle.js_syntax.specs.Symbols.{word_of, punctuator_of, is_spelled, name_of, number_from, number_of, symbol_of, number};

use crate::token::{Token, TokenKind};
use base_text::{MAX_SAFE_INTEGER, Text};

/// The terminal symbols of the grammar: each reserved word and punctuator that it names, and the kinds
/// of the other tokens.
#[derive(Clone, Copy, Debug, PartialEq, Eq)]
pub enum Symbol {
    /// What no lexer makes: a token whose text isn't a spelling of its kind.
    Other,
    /// A name.
    Name,
    /// The name `get`.
    Get,
    /// The name `set`.
    Set,
    /// A number.
    Number,
    /// A text between quotes.
    Str,
    /// The end of the text.
    End,
    /// A reserved word that has no use yet.
    Reserved,
    Break,
    Catch,
    Continue,
    Delete,
    Else,
    False,
    Finally,
    For,
    Function,
    If,
    In,
    InstanceOf,
    New,
    Null,
    Return,
    This,
    Throw,
    True,
    Try,
    TypeOf,
    Var,
    While,
    /// `===`
    Same,
    /// `!==`
    NotSame,
    /// `==`
    Equal,
    /// `!=`
    NotEqual,
    /// `<=`
    AtMost,
    /// `>=`
    AtLeast,
    /// `&&`
    And,
    /// `||`
    Or,
    /// `++`
    Increment,
    /// `--`
    Decrement,
    /// `+=`
    AddBy,
    /// `-=`
    SubtractBy,
    /// `*=`
    MultiplyBy,
    /// `/=`
    DivideBy,
    /// `%=`
    RemainBy,
    /// `{`
    OpenBrace,
    /// `}`
    CloseBrace,
    /// `(`
    OpenParen,
    /// `)`
    CloseParen,
    /// `[`
    OpenBracket,
    /// `]`
    CloseBracket,
    /// `;`
    Semicolon,
    /// `,`
    Comma,
    /// `.`
    Dot,
    /// `<`
    Less,
    /// `>`
    Greater,
    /// `+`
    Plus,
    /// `-`
    Minus,
    /// `*`
    Star,
    /// `/`
    Slash,
    /// `%`
    Percent,
    /// `!`
    Not,
    /// `?`
    Question,
    /// `:`
    Colon,
    /// `=`
    Assign,
}

/// The symbol of a reserved word.
#[tactic(auto, unfolding(crate::specs::ReservedWords::word_of))]
fn word(spelling: &str) -> Symbol
    ensures { result ≡ word_of spelling.now }
{
    match spelling {
        "break" => Symbol::Break,
        "case" => Symbol::Reserved,
        "catch" => Symbol::Catch,
        "class" => Symbol::Reserved,
        "const" => Symbol::Reserved,
        "continue" => Symbol::Continue,
        "debugger" => Symbol::Reserved,
        "default" => Symbol::Reserved,
        "delete" => Symbol::Delete,
        "do" => Symbol::Reserved,
        "else" => Symbol::Else,
        "enum" => Symbol::Reserved,
        "export" => Symbol::Reserved,
        "extends" => Symbol::Reserved,
        "false" => Symbol::False,
        "finally" => Symbol::Finally,
        "for" => Symbol::For,
        "function" => Symbol::Function,
        "if" => Symbol::If,
        "import" => Symbol::Reserved,
        "in" => Symbol::In,
        "instanceof" => Symbol::InstanceOf,
        "let" => Symbol::Reserved,
        "new" => Symbol::New,
        "null" => Symbol::Null,
        "return" => Symbol::Return,
        "super" => Symbol::Reserved,
        "switch" => Symbol::Reserved,
        "this" => Symbol::This,
        "throw" => Symbol::Throw,
        "true" => Symbol::True,
        "try" => Symbol::Try,
        "typeof" => Symbol::TypeOf,
        "var" => Symbol::Var,
        "void" => Symbol::Reserved,
        "while" => Symbol::While,
        "with" => Symbol::Reserved,
        "yield" => Symbol::Reserved,
        _ => Symbol::Other,
    }
}

/// Whether the text is a reserved word.
pub fn is_reserved_word(text: &str) -> bool
    ensures { result ≡ is_reserved_word text.now }
{
    !matches!(word(text), Symbol::Other)
}

/// The symbol of a punctuator.
#[tactic(auto, unfolding(crate::specs::Symbols::punctuator_of))]
fn punctuator(spelling: &str) -> Symbol
    ensures { result ≡ punctuator_of spelling.now }
{
    match spelling {
        "===" => Symbol::Same,
        "!==" => Symbol::NotSame,
        "==" => Symbol::Equal,
        "!=" => Symbol::NotEqual,
        "<=" => Symbol::AtMost,
        ">=" => Symbol::AtLeast,
        "&&" => Symbol::And,
        "||" => Symbol::Or,
        "++" => Symbol::Increment,
        "--" => Symbol::Decrement,
        "+=" => Symbol::AddBy,
        "-=" => Symbol::SubtractBy,
        "*=" => Symbol::MultiplyBy,
        "/=" => Symbol::DivideBy,
        "%=" => Symbol::RemainBy,
        "{" => Symbol::OpenBrace,
        "}" => Symbol::CloseBrace,
        "(" => Symbol::OpenParen,
        ")" => Symbol::CloseParen,
        "[" => Symbol::OpenBracket,
        "]" => Symbol::CloseBracket,
        ";" => Symbol::Semicolon,
        "," => Symbol::Comma,
        "." => Symbol::Dot,
        "<" => Symbol::Less,
        ">" => Symbol::Greater,
        "+" => Symbol::Plus,
        "-" => Symbol::Minus,
        "*" => Symbol::Star,
        "/" => Symbol::Slash,
        "%" => Symbol::Percent,
        "!" => Symbol::Not,
        "?" => Symbol::Question,
        ":" => Symbol::Colon,
        "=" => Symbol::Assign,
        _ => Symbol::Other,
    }
}

fn begins_name(c: char) -> bool
    ensures { result ≡ is_name_start c }
{
    c == '$' || c == '_' || unicode_ident::is_xid_start(c)
}

fn continues_name(c: char) -> bool
    ensures { result ≡ is_name_part c }
{
    c == '$' || unicode_ident::is_xid_continue(c)
}

/// Whether the text is spelled as a name, reserved or not.
fn is_spelled(text: &Text) -> bool
    ensures { result ≡ is_spelled text.now }
{
    let mut begun = false;
    let mut fits = true;
    for c in text.as_str().chars() {
        fits = fits
            && (if begun {
                continues_name(c)
            } else {
                begins_name(c)
            });
        begun = true;
    }
    begun && fits
}

fn name(text: &Text) -> Symbol
    ensures { result ≡ name_of text.now }
{
    if !is_spelled(text) {
        return Symbol::Other;
    }
    let spelling = text.as_str();
    match word(spelling) {
        Symbol::Other => match spelling {
            "get" => Symbol::Get,
            "set" => Symbol::Set,
            _ => Symbol::Name,
        },
        _ => Symbol::Other,
    }
}

#[tactic(auto, unfolding(crate::specs::Symbols::number_from))]
fn number_from(mut digits: &[u8]) -> Option<u64>
    ensures value { result ≡ number_from 0 digits.entry.now }
    ensures within { IfSome result (λ n. n ≤ widest) }
{
    let mut value = 0u64;
    while let [digit, rest @ ..] = digits {
        if *digit < b'0' || *digit > b'9' {
            return None;
        }
        value = value * 10 + (*digit - b'0') as u64;
        if value > MAX_SAFE_INTEGER as u64 {
            return None;
        }
        digits = rest;
    }
    Some(value)
}

/// The number that decimal digits are, from 0 to 2^53 - 1 and without a leading zero.
pub fn number_of(digits: &str) -> Option<u64>
    ensures value { result ≡ number_of digits.now }
    ensures within { IfSome result (λ n. n ≤ widest) }
{
    match digits.as_bytes() {
        [] => None,
        [b'0', _, ..] => None,
        bytes => number_from(bytes),
    }
}

impl Symbol {
    /// Whether it is the symbol of a reserved word.
    pub fn is_reserved_word(self) -> bool
        ensures { result ≡ amid reserved_symbols (number self) }
    {
        matches!(
            self,
            Symbol::Reserved
                | Symbol::Break
                | Symbol::Catch
                | Symbol::Continue
                | Symbol::Delete
                | Symbol::Else
                | Symbol::False
                | Symbol::Finally
                | Symbol::For
                | Symbol::Function
                | Symbol::If
                | Symbol::In
                | Symbol::InstanceOf
                | Symbol::New
                | Symbol::Null
                | Symbol::Return
                | Symbol::This
                | Symbol::Throw
                | Symbol::True
                | Symbol::Try
                | Symbol::TypeOf
                | Symbol::Var
                | Symbol::While
        )
    }
}

impl Token {
    /// What the token is to the grammar.
    #[tactic(auto, unfolding(crate::specs::Symbols::symbol_of))]
    pub fn symbol(&self) -> Symbol
        ensures { result ≡ symbol_of self.now }
    {
        match self.kind {
            TokenKind::Name => name(&self.text),
            TokenKind::Word => word(self.text.as_str()),
            TokenKind::Number => match number_of(self.text.as_str()) {
                Some(_) => Symbol::Number,
                None => Symbol::Other,
            },
            TokenKind::Str => Symbol::Str,
            TokenKind::Punct => punctuator(self.text.as_str()),
            TokenKind::End => Symbol::End,
        }
    }
}
