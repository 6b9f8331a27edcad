//! The gap or the token at the front of a text.

ghost use Rattle.std.specs.Prelude.{◌≡◌, ◌≤◌, ◌<◌, ◌∷◌, ◌+◌, ◌↔◌, cond, length, encode_utf8_all, IfOk, IsErrOf, Option};
ghost use Rattle.std.specs.Option.{option_copied};
ghost use Rattle.base_text.specs.Scalars.{utf8_len};
ghost use Rattle.base_text.specs.declared.text.TheConstants.{SOURCE_LIMIT, TEXT_LIMIT};
ghost use Rattle.js_lexer.specs.AnswersModel.{Shows};
ghost use Rattle.js_lexer.specs.TokenAtFrontModel as read;
ghost use Rattle.js_lexer.specs.RunsModel.{numeral};
ghost use Rattle.js_lexer.specs.RunsModel as read_runs;
ghost use Rattle.js_lexer.specs.StringLiteralsModel as read_extent;
ghost use Rattle.js_syntax.specs.ReservedWords.{is_reserved_word};
ghost use Rattle.js_syntax.specs.TokenSpelling.{punctuators};

use crate::escapes::decode;
use crate::numbers::numeral;
use crate::punctuators::after_punctuator;
use crate::runs::{after_block, after_line, after_name};
use crate::scalars::{
    before, is_decimal, is_line_end, is_name_start, is_quote, is_white_space, runs_on, width,
};
use crate::string_literals::{Taken, after_text};
use base_text::{MAX_SAFE_INTEGER, OrMemory, Text, TextFault};
use js_syntax::{LexKind, TokenKind, is_reserved_word};
use std::alloc::Global;

/// The gap or token at the front of a text, and what follows it.
#[derive(Drop)]
pub enum Front<'a> {
    Gap {
        /// Whether a line ends in it.
        breaks: bool,
        rest: &'a [char],
    },
    Token {
        kind: TokenKind,
        text: Text,
        rest: &'a [char],
    },
}

/// Why no token starts here.
#[derive(Clone, Copy, Debug)]
pub struct FrontFault {
    /// How many bytes after the front.
    pub on: usize,
    pub kind: LexKind,
}

/// The text of these scalars.
fn text_of(alloc: Global, scalars: &[char]) -> Result<Text, TextFault>
    ensures ok { IfOk result (λ t. t ≡ scalars.now) }
    ensures within { IfOk result (λ _. utf8_len scalars.now ≤ TEXT_LIMIT) }
    ensures too_long { IsErrOf result TextFault.TooLong → TEXT_LIMIT < utf8_len scalars.now }
{
    let spelled: String = scalars.iter().copied().collect(alloc)?;
    Text::of(alloc, &spelled)
}

fn refused<'a>(on: usize, kind: LexKind) -> Result<Front<'a>, OrMemory<FrontFault>>
    ensures { Shows (read.fault_of on kind) result }
{
    Err(OrMemory::Fault(FrontFault { on, kind }))
}

fn name_kind(spelling: &str) -> TokenKind
    ensures { result ≡ cond (is_reserved_word spelling.now) TokenKind.Word TokenKind.Name }
{
    if is_reserved_word(spelling) {
        TokenKind::Word
    } else {
        TokenKind::Name
    }
}

/// The name that ends before the rest.
#[tactic(auto, unfolding(crate::specs::TokenAtFrontModel::named))]
fn name<'a>(
    alloc: Global,
    text: &[char],
    rest: &'a [char],
) -> Result<Front<'a>, OrMemory<FrontFault>>
    requires { length rest.now ≤ length text.now }
    ensures { Shows (read.named text.now rest.now) result }
{
    match text_of(alloc, before(text, rest)) {
        Ok(text) => {
            let kind = name_kind(text.as_str());
            Ok(Front::Token { kind, text, rest })
        }
        Err(TextFault::TooLong) => refused(0, LexKind::TooLong),
        Err(TextFault::NoMemory) => Err(OrMemory::NoMemory),
    }
}

fn rest_runs_on(text: &[char]) -> bool
    ensures { result ≡ read.rest_runs_on text.now }
{
    matches!(text, [c, ..] if runs_on(*c))
}

/// The number that begins with this digit.
#[tactic(auto, unfolding(crate::specs::TokenAtFrontModel::numbered))]
fn number(alloc: Global, text: &[char]) -> Result<Front<'_>, OrMemory<FrontFault>>
    requires { utf8_len text.now ≤ SOURCE_LIMIT }
    ensures { Shows (read.numbered text.now (numeral text.now)) result }
{
    let (value, rest) = numeral(text);
    if value > MAX_SAFE_INTEGER as u64 {
        return refused(0, LexKind::WideNumber);
    }
    if rest_runs_on(rest) {
        return refused(width(before(text, rest)), LexKind::BadScalar);
    }
    let text = Text::decimal(alloc, value as i64)?;
    Ok(Front::Token {
        kind: TokenKind::Number,
        text,
        rest,
    })
}

/// The text between quotes that has this body.
#[tactic(auto, unfolding(crate::specs::TokenAtFrontModel::body_decoded))]
fn text_with<'a>(
    alloc: Global,
    quote: char,
    body: &[char],
    rest: &'a [char],
) -> Result<Front<'a>, OrMemory<FrontFault>>
    requires { utf8_len body.now ≤ SOURCE_LIMIT }
    ensures { Shows (read.body_decoded quote body.now rest.now) result }
{
    let (value, left) = decode(alloc, body)?;
    match Text::of(alloc, &value) {
        Ok(text) if left.is_empty() => Ok(Front::Token {
            kind: TokenKind::Str,
            text,
            rest,
        }),
        Ok(_) => refused(
            quote.len_utf8() + width(before(body, left)),
            LexKind::BadScalar,
        ),
        Err(TextFault::TooLong) => refused(0, LexKind::TooLong),
        Err(TextFault::NoMemory) => Err(OrMemory::NoMemory),
    }
}

/// The text between quotes whose opening quote stands before these scalars.
#[tactic(auto, unfolding(crate::specs::TokenAtFrontModel::quoted))]
fn text_after(alloc: Global, quote: char, text: &[char]) -> Result<Front<'_>, OrMemory<FrontFault>>
    requires { utf8_len text.now ≤ SOURCE_LIMIT }
    ensures { Shows (read.quoted quote text.now (read_extent.after_text quote Taken.Nothing text.now)) result }
{
    let Some(rest) = after_text(quote, text) else {
        return refused(0, LexKind::UnclosedText);
    };
    let body = &text[..text.len() - (rest.len() + 1)];
    text_with(alloc, quote, body, rest)
}

/// The longest punctuator at the front.
fn punctuator(alloc: Global, text: &[char]) -> Result<Front<'_>, OrMemory<FrontFault>>
    ensures { Shows (read.punctuated text.now (read_runs.after_punctuator punctuators text.now)) result }
{
    let Some(rest) = after_punctuator(text) else {
        return refused(0, LexKind::BadScalar);
    };
    match text_of(alloc, before(text, rest)) {
        Ok(text) => Ok(Front::Token {
            kind: TokenKind::Punct,
            text,
            rest,
        }),
        Err(TextFault::TooLong) => unreachable!(),
        Err(TextFault::NoMemory) => Err(OrMemory::NoMemory),
    }
}

/// The comment or the punctuator at the front.
#[tactic(auto, unfolding(crate::specs::TokenAtFrontModel::comment_or_punctuator))]
fn comment_or_punctuator(alloc: Global, text: &[char]) -> Result<Front<'_>, OrMemory<FrontFault>>
    requires { 0 < length text.now }
    ensures { Shows (read.comment_or_punctuator text.now) result }
{
    match text {
        ['/', '/', rest @ ..] => Ok(Front::Gap {
            breaks: false,
            rest: after_line(rest),
        }),
        ['/', '*', rest @ ..] => match after_block(rest) {
            Some((breaks, rest)) => Ok(Front::Gap { breaks, rest }),
            None => refused(0, LexKind::UnclosedComment),
        },
        _ => punctuator(alloc, text),
    }
}

/// The gap or the token at the front of a text that isn't empty.
#[tactic(auto, unfolding(crate::specs::TokenAtFrontModel::at_front))]
pub fn front_of(alloc: Global, text: &[char]) -> Result<Front<'_>, OrMemory<FrontFault>>
    requires some { 0 < length text.now }
    requires limit { utf8_len text.now ≤ SOURCE_LIMIT }
    ensures { Shows (read.at_front text.now) result }
{
    let [c, rest @ ..] = text else { unreachable!() };
    match *c {
        c if is_white_space(c) => Ok(Front::Gap {
            breaks: false,
            rest,
        }),
        c if is_line_end(c) => Ok(Front::Gap { breaks: true, rest }),
        c if is_name_start(c) => name(alloc, text, after_name(rest)),
        c if is_decimal(c) => number(alloc, text),
        c if is_quote(c) => text_after(alloc, c, rest),
        _ => comment_or_punctuator(alloc, text),
    }
}
