//! A cursor over tokens, which knows the symbol of the next one.
ghost use Rattle.std.specs.Prelude.{◌≡◌, ◌∷◌, List, length};
ghost use Rattle.js_syntax.specs.Symbols.{next, is, among, sees, stops, symbol_of, number};
ghost use Rattle.js_syntax.specs.Words.{closes_body, ends_line};
ghost use Rattle.js_combinators.specs.Readers.{expect};
ghost use Rattle.js_reference_parser.specs.Places.{place};
ghost use Rattle.js_cursor.specs.Finishes.{Finishes};
ghost use Rattle.js_cursor.specs.Reads.{Begins, Reads, Undenied, Skips, Takes, symbol_at, on_line};
ghost use Rattle.js_cursor.specs.Sets.{symbols_of};
ghost use Rattle.js_reference_parser.specs.ExpressionsModel.{parted};
ghost use Rattle.js_reference_parser.specs.StatementsModel.{ends, end_of_jump, is_where, begins_nested, begins_word, begins_stmt};

use crate::words::{Set, has, is};
use base_text::NoMemory;
use js_syntax::{ParseKind, Symbol, Token};
use std::alloc::{AllocError, AllocFailed};
use std::marker::Model;

/// Why nothing was read: no memory was found, or there is a fault at the next token.
#[derive(Drop)]
pub enum Failed {
    NoMemory,
    Fault(ParseKind),
}

impl From<AllocError> for Failed {
    ghost use Rattle.std.specs.Prelude.{◌≡◌};
    ghost use Rattle.js_cursor.specs.declared.cursor.Failed.TheVariants.{NoMemory};

    ghost from_gives = { λ _ e. e ≡ NoMemory };

    fn from(_: AllocError) -> Self {
        Failed::NoMemory
    }
}

impl<T: Drop> From<AllocFailed<T>> for Failed {
    ghost use Rattle.std.specs.Prelude.{◌≡◌};
    ghost use Rattle.js_cursor.specs.declared.cursor.Failed.TheVariants.{NoMemory};

    ghost from_gives = { λ _ e. e ≡ NoMemory };

    fn from(_: AllocFailed<T>) -> Self {
        Failed::NoMemory
    }
}

impl From<NoMemory> for Failed {
    ghost use Rattle.std.specs.Prelude.{◌≡◌};
    ghost use Rattle.js_cursor.specs.declared.cursor.Failed.TheVariants.{NoMemory};

    ghost from_gives = { λ _ e. e ≡ NoMemory };

    fn from(_: NoMemory) -> Self {
        Failed::NoMemory
    }
}

/// The tokens that are left, and the symbol of the first, so that it is computed once.
#[derive(Drop)]
pub struct Cursor<'a> {
    rest: &'a [Token],
    symbol: Option<Symbol>,
    ghost told: { symbol ≡ symbol_at rest.now },
}

impl<'a> Model for Cursor<'a> {
    ghost use Rattle.std.specs.Prelude.{List};
    ghost use Rattle.js_syntax.specs.declared.token.Token.{Token};

    ghost Value = { List Token };

    ghost view = { λ c. c.rest.now };
}

fn symbol_at(tokens: &[Token]) -> Option<Symbol>
    ensures { result ≡ symbol_at tokens.now }
{
    match tokens {
        [] => None,
        [token, ..] => Some(token.symbol()),
    }
}

impl<'a> Cursor<'a> {
    /// A cursor at the first of these tokens.
    pub fn new(rest: &'a [Token]) -> Cursor<'a>
        ensures { result ≡ rest.now }
    {
        let symbol = symbol_at(rest);
        Cursor { rest, symbol }
    }

    /// How many tokens are left.
    pub fn left(&self) -> usize
        ensures { result ≡ length self.now }
    {
        self.rest.len()
    }

    /// The tokens that are left.
    pub fn rest(&self) -> &'a [Token]
        ensures { result.now ≡ self.now }
    {
        self.rest
    }

    /// The symbol of the next token.
    pub fn symbol(&self) -> Option<Symbol>
        ensures { result ≡ symbol_at self.now }
    {
        self.symbol
    }

    /// Whether the next token has this symbol.
    pub fn sees(&self, symbol: Symbol) -> bool
        ensures { result ≡ sees (is symbol) (next self.now) }
    {
        match self.symbol {
            None => false,
            Some(found) => is(found, symbol),
        }
    }

    /// Whether the next token has this symbol and is allowed here.
    pub fn sees_where(&self, symbol: Symbol, here: bool) -> bool
        ensures { result ≡ sees (is_where symbol here) (next self.now) }
    {
        self.sees(symbol) && here
    }

    /// Whether the next token is in the set.
    #[tactic(auto, using(crate::proofs::Seen::seen_is))]
    pub fn sees_any(&self, of: Set) -> bool
        ensures { result ≡ sees (among (symbols_of of)) (next self.now) }
    {
        match self.symbol {
            None => false,
            Some(found) => has(of, found),
        }
    }

    /// Takes the next token, if there is one.
    pub fn skip(&mut self) -> Option<&'a Token>
        ensures { Skips self.old result self.new }
    {
        match self.rest {
            [] => None,
            [token, rest @ ..] => {
                *self = Cursor::new(rest);
                Some(token)
            }
        }
    }

    /// Takes the next token if it has this symbol.
    pub fn eat(&mut self, symbol: Symbol) -> Option<&'a Token>
        ensures { Takes (is symbol) self.old result self.new }
    {
        if self.sees(symbol) {
            return self.skip();
        }
        None
    }

    /// Takes the next token if it has this symbol and is allowed here.
    pub fn eat_where(&mut self, symbol: Symbol, here: bool) -> Option<&'a Token>
        ensures { Takes (is_where symbol here) self.old result self.new }
    {
        if self.sees_where(symbol, here) {
            return self.skip();
        }
        None
    }

    /// Takes the next token if it is in the set.
    pub fn eat_any(&mut self, of: Set) -> Option<&'a Token>
        ensures { Takes (among (symbols_of of)) self.old result self.new }
    {
        if self.sees_any(of) {
            return self.skip();
        }
        None
    }

    /// Takes the next token if it has this symbol and a level is left for what it begins.
    pub fn begin(&mut self, left: usize, symbol: Symbol) -> Result<Option<&'a Token>, Failed>
        ensures { Begins left (is symbol) self.old result self.new }
    {
        if !self.sees(symbol) {
            return Ok(None);
        }
        if left == 0 {
            return Err(Failed::Fault(ParseKind::TooDeep));
        }
        Ok(self.skip())
    }

    /// Takes the next token if it is in the set and a level is left for what it begins.
    pub fn begin_any(&mut self, left: usize, of: Set) -> Result<Option<&'a Token>, Failed>
        ensures { Begins left (among (symbols_of of)) self.old result self.new }
    {
        if !self.sees_any(of) {
            return Ok(None);
        }
        if left == 0 {
            return Err(Failed::Fault(ParseKind::TooDeep));
        }
        Ok(self.skip())
    }

    /// Takes the next token if it has this symbol, else `Unexpected`.
    pub fn expect(&mut self, symbol: Symbol) -> Result<(), Failed>
        ensures { Reads (expect symbol self.old) result self.new }
    {
        match self.eat(symbol) {
            Some(_) => Ok(()),
            None => Err(Failed::Fault(ParseKind::Unexpected)),
        }
    }

    /// Whether the statements of a body end here.
    pub fn closes_body(&self) -> bool
        ensures { result ≡ stops closes_body (next self.now) }
    {
        match self.rest {
            [] => true,
            [..] => self.sees(Symbol::CloseBrace) || self.sees(Symbol::End),
        }
    }

    /// Whether a token closes a list here.
    pub fn stops(&self, close: Symbol) -> bool
        ensures { result ≡ stops (is close) (next self.now) }
    {
        match self.rest {
            [] => true,
            [..] => self.sees(close),
        }
    }

    /// Refuses an index where no level is left for it.
    pub fn undenied(&self, left: usize) -> Result<(), Failed>
        ensures { Undenied left self.now result }
    {
        if left == 0 && self.sees(Symbol::OpenBracket) {
            return Err(Failed::Fault(ParseKind::TooDeep));
        }
        Ok(())
    }

    /// Whether a statement begins here that has a statement or a body as its part.
    pub fn begins_nested(&self) -> bool
        ensures { result ≡ sees begins_nested (next self.now) }
    {
        self.sees(Symbol::Function)
            || self.sees(Symbol::If)
            || self.sees(Symbol::While)
            || self.sees(Symbol::For)
    }

    /// Whether a statement begins here that isn't allowed everywhere, or an expression.
    pub fn begins_word(&self, in_function: bool, in_loop: bool) -> bool
        ensures { result ≡ sees (begins_word in_function in_loop) (next self.now) }
    {
        self.sees_where(Symbol::Break, in_loop)
            || self.sees_where(Symbol::Continue, in_loop)
            || self.sees_where(Symbol::Return, in_function)
            || self.sees(Symbol::Throw)
            || self.sees(Symbol::Try)
            || self.sees_any(Set::ExprFirsts)
    }

    /// Whether a statement begins here.
    #[tactic(auto, using(crate::proofs::Seen::begins_parts))]
    pub fn begins_stmt(&self, in_function: bool, in_loop: bool) -> bool
        ensures { result ≡ sees (begins_stmt in_function in_loop) (next self.now) }
    {
        self.sees(Symbol::Semicolon)
            || self.sees(Symbol::OpenBrace)
            || self.sees(Symbol::Var)
            || self.begins_nested()
            || self.begins_word(in_function, in_loop)
    }

    /// Takes a comma, or sees the token that closes the list.
    pub fn part(&mut self, close: Symbol) -> Result<(), Failed>
        ensures { Reads (parted close self.old) result self.new }
    {
        if let Some(_) = self.eat(Symbol::Comma) {
            return Ok(());
        }
        if self.sees(close) {
            return Ok(());
        }
        Err(Failed::Fault(ParseKind::Unexpected))
    }

    /// Whether the next token is on the line of the token before it.
    pub fn is_on_line(&self) -> bool
        ensures { result ≡ sees on_line (next self.now) }
    {
        match self.rest {
            [] => false,
            [token, ..] => !token.line_before,
        }
    }

    /// Whether a semicolon may be left out here.
    pub fn ends_line(&self) -> bool
        ensures { result ≡ sees ends_line (next self.now) }
    {
        match self.rest {
            [] => false,
            [token, ..] => {
                self.sees(Symbol::CloseBrace) || self.sees(Symbol::End) || token.line_before
            }
        }
    }

    /// Takes the semicolon of a statement, which may be left out.
    #[tactic(auto, unfolding(js_reference_parser::specs::StatementsModel::ends))]
    pub fn ends(&mut self) -> Result<(), Failed>
        ensures { Reads (ends self.old) result self.new }
    {
        if let Some(_) = self.eat(Symbol::Semicolon) {
            return Ok(());
        }
        if self.ends_line() {
            return Ok(());
        }
        Err(Failed::Fault(ParseKind::Unexpected))
    }

    /// Takes the end of a `break` or `continue`: a semicolon, or a line end before the next token.
    #[tactic(auto, unfolding(js_reference_parser::specs::StatementsModel::end_of_jump))]
    pub fn end_of_jump(&mut self) -> Result<(), Failed>
        ensures { Reads (end_of_jump self.old) result self.new }
    {
        if self.ends_line() {
            return Ok(());
        }
        self.expect(Symbol::Semicolon)
    }

    /// Ok if one End token is left and nothing after it; else the tokens from the fault on.
    #[tactic(auto, unfolding(js_reference_parser::specs::StatementsModel::finish))]
    pub fn finish(&self) -> Result<(), &'a [Token]>
        ensures { Finishes self.now result }
    {
        match self.rest {
            [token] if is(token.symbol(), Symbol::End) => Ok(()),
            [token, after @ ..] if is(token.symbol(), Symbol::End) => Err(after),
            _ => Err(self.rest),
        }
    }
}

/// The place of the first token, or 0 where there is none.
pub fn place(tokens: &[Token]) -> u32
    ensures { result ≡ place tokens.now }
{
    match tokens {
        [] => 0,
        [token, ..] => token.from,
    }
}
