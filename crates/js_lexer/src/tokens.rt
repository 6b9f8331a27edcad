//! The tokens of a whole text.

ghost use Rattle.std.specs.Prelude.{◌≡◌, ◌≤◌, ◌+◌, List, [], ℕ, length, false, IfOk};
ghost use Rattle.std.specs.Str.{chars};
ghost use Rattle.base_text.specs.Scalars.{utf8_len};
ghost use Rattle.base_text.specs.declared.text.TheConstants.{SOURCE_LIMIT};
ghost use Rattle.base_text.specs.Answers.{IfFault, OkOrMemory, FaultOrMemory};
ghost use Rattle.js_lexer.specs.AnswersModel.{Tells};
ghost use Rattle.js_lexer.specs.TokenAtFrontModel as read;
ghost use Rattle.js_lexer.specs.RunsModel.{before};
ghost use Rattle.js_syntax.specs.TokenFaults.{IsFault};
ghost use Rattle.js_syntax.specs.Tokens.{AreTokens, token_at};
ghost use Rattle.js_syntax.specs.declared.token.TokenKind.TheVariants as kinds;
ghost use Rattle.js_syntax.specs.declared.token.Token.{Token};
ghost use Rattle.js_syntax.specs.declared.token_fault.LexKind.{LexKind};

use crate::scalars::{before, scalars, width};
use crate::token_at_front::{Front, FrontFault, front_of};
use base_text::{Mem, NoMemory, OrMemory, Text, TextFault};
use js_syntax::{LexFault, Token, TokenKind, Tokens};
use std::alloc::Global;

/// The end of a text.
fn end_at(alloc: Global, at: u32, line_before: bool) -> Mem<Token>
    ensures { IfOk result (λ t. t ≡ token_at at line_before kinds.End [] []) }
{
    match Text::of(alloc, "") {
        Ok(text) => Ok(Token {
            kind: TokenKind::End,
            text,
            from: at,
            to: at,
            line_before,
        }),
        Err(TextFault::TooLong) => unreachable!(),
        Err(TextFault::NoMemory) => Err(NoMemory),
    }
}

/// The place after what comes before the rest, where what is left begins at `at`.
fn place_after(at: u32, left: &[char], rest: &[char]) -> u32
    requires part { length rest.now ≤ length left.now }
    requires limit { at + utf8_len left.now ≤ SOURCE_LIMIT }
    ensures { result ≡ at + utf8_len (before left.now rest.now) }
{
    at + width(before(left, rest)) as u32
}

/// The fault in the whole text, where what is left begins at `at`.
fn fault_at(at: u32, fault: FrontFault) -> LexFault
    requires { at + fault.on ≤ SOURCE_LIMIT }
    ensures { result ≡ record { at = at + fault.on; kind = fault.kind } }
{
    LexFault {
        at: at + fault.on as u32,
        kind: fault.kind,
    }
}

/// The tokens of these scalars.
fn read(alloc: Global, text: &[char]) -> Result<Tokens, OrMemory<LexFault>>
    requires { utf8_len text.now ≤ SOURCE_LIMIT }
    ensures { Tells (read.read_from (length text.now) 0 false text.now) result }
{
    let mut tokens = Tokens::new(alloc);
    let mut at = 0;
    let mut line_before = false;
    let mut left = text;
    while !left.is_empty() {
        match front_of(alloc, left) {
            Ok(Front::Gap { breaks, rest }) => {
                at = place_after(at, left, rest);
                line_before |= breaks;
                left = rest;
            }
            Ok(Front::Token { kind, text, rest }) => {
                let to = place_after(at, left, rest);
                tokens.push(Token {
                    kind,
                    text,
                    from: at,
                    to,
                    line_before,
                })?;
                at = to;
                line_before = false;
                left = rest;
            }
            Err(OrMemory::Fault(fault)) => return Err(OrMemory::Fault(fault_at(at, fault))),
            Err(OrMemory::NoMemory) => return Err(OrMemory::NoMemory),
        }
    }
    tokens.push(end_at(alloc, at, line_before)?)?;
    Ok(tokens)
}

/// The tokens of a text of at most 1,048,576 bytes, whose last one is the end (ECMAScript, 12 Lexical
/// Grammar).
///
/// Places count bytes from the text's beginning. A `Fault` comes exactly where the text has no tokens.
/// It is the first one: faults after a token aren't looked at, of those at one token the earliest
/// place comes first, and at one place the order of `LexKind`.
pub fn lex(alloc: Global, s: &str) -> Result<Tokens, OrMemory<LexFault>>
    requires { length s.now ≤ SOURCE_LIMIT }
    // What is returned are tokens of the text.
    ensures ok { IfOk result (λ tokens. AreTokens (chars s.now) tokens) }
    // The tokens of a text are returned.
    ensures only { (tokens : List Token) → AreTokens (chars s.now) tokens → OkOrMemory result tokens }
    // A fault is the first of the text.
    ensures fault { IfFault result (λ f. IsFault (chars s.now) f.at f.kind) }
    // The first fault of a text is returned.
    ensures first { (at : ℕ) (kind : LexKind) → IsFault (chars s.now) at kind → FaultOrMemory result (record { at = at; kind = kind }) }
{
    let text = scalars(alloc, s)?;
    read(alloc, &text)
}
