//! The sets of symbols that the parser asks, each one the grammar's list of the same name.
ghost use Rattle.std.specs.Prelude.{◌≡◌, ◌==◌, [], ◌∷◌, List};
ghost use Rattle.js_syntax.specs.SymbolNumbers.{amid, number};
ghost use Rattle.js_syntax.specs.Words as words;
ghost use Rattle.js_reference_parser.specs.ExpressionsModel as firsts;
ghost use Rattle.js_cursor.specs.Sets.{symbols_of};

use js_syntax::Symbol;

/// A set of symbols that the grammar names.
#[derive(Clone, Copy)]
pub enum Set {
    /// A name.
    Names,
    /// What may follow a `.`: a name or a reserved word.
    MemberNames,
    /// A key of an object literal.
    Keys,
    /// A key that begins no getter and no setter.
    PlainKeys,
    /// An expression of one token.
    Leaves,
    /// `.`, `[` and `(`.
    Suffixes,
    /// `.` and `[`.
    MemberSuffixes,
    /// `++` and `--`.
    Updates,
    /// The other operators before an operand.
    Prefixes,
    /// `=` and the assignments that combine with an operator.
    Assignments,
    /// What begins an expression.
    ExprFirsts,
    /// What begins a member expression.
    BaseFirsts,
    /// What begins a member of an object literal.
    MemberFirsts,
    /// The operators of a level of left chains, strongest first, with or without `in`.
    Operators(bool, u8),
}

fn code(symbol: Symbol) -> u8
    ensures { result ≡ number symbol }
{
    symbol as u8
}

/// Whether they are one symbol.
pub fn is(symbol: Symbol, other: Symbol) -> bool
    ensures { result ≡ (number symbol == number other) }
{
    code(symbol) == code(other)
}

fn is_names(symbol: Symbol) -> bool
    ensures { result ≡ amid words.names (number symbol) }
{
    matches!(symbol, Symbol::Name | Symbol::Get | Symbol::Set)
}

#[tactic(auto, using(crate::proofs::Seen::member_names_are))]
fn is_member_names(symbol: Symbol) -> bool
    ensures { result ≡ amid words.member_names (number symbol) }
{
    is_names(symbol) || symbol.is_reserved_word()
}

/// A number or a text.
fn is_literal(symbol: Symbol) -> bool
    ensures { result ≡ amid (Symbol.Number ∷ Symbol.Str ∷ []) (number symbol) }
{
    matches!(symbol, Symbol::Number | Symbol::Str)
}

#[tactic(auto, using(crate::proofs::Seen::keys_are))]
fn is_keys(symbol: Symbol) -> bool
    ensures { result ≡ amid words.keys (number symbol) }
{
    is_literal(symbol) || is_member_names(symbol)
}

#[tactic(auto, using(crate::proofs::Seen::plain_keys_are))]
fn is_plain_keys(symbol: Symbol) -> bool
    ensures { result ≡ amid words.plain_keys (number symbol) }
{
    is_literal(symbol) || is(symbol, Symbol::Name) || symbol.is_reserved_word()
}

fn is_leaves(symbol: Symbol) -> bool
    ensures { result ≡ amid words.leaves (number symbol) }
{
    match symbol {
        Symbol::Number | Symbol::Str => true,
        Symbol::This | Symbol::True | Symbol::False | Symbol::Null => true,
        Symbol::Name | Symbol::Get | Symbol::Set => true,
        _ => false,
    }
}

fn is_suffixes(symbol: Symbol) -> bool
    ensures { result ≡ amid words.suffixes (number symbol) }
{
    matches!(
        symbol,
        Symbol::Dot | Symbol::OpenBracket | Symbol::OpenParen
    )
}

fn is_member_suffixes(symbol: Symbol) -> bool
    ensures { result ≡ amid words.member_suffixes (number symbol) }
{
    matches!(symbol, Symbol::Dot | Symbol::OpenBracket)
}

fn is_updates(symbol: Symbol) -> bool
    ensures { result ≡ amid words.updates (number symbol) }
{
    matches!(symbol, Symbol::Increment | Symbol::Decrement)
}

fn is_prefixes(symbol: Symbol) -> bool
    ensures { result ≡ amid words.prefixes (number symbol) }
{
    match symbol {
        Symbol::Delete | Symbol::TypeOf => true,
        Symbol::Not | Symbol::Plus | Symbol::Minus => true,
        _ => false,
    }
}

fn is_assignments(symbol: Symbol) -> bool
    ensures { result ≡ amid words.assignments (number symbol) }
{
    match symbol {
        Symbol::Assign => true,
        Symbol::AddBy | Symbol::SubtractBy => true,
        Symbol::MultiplyBy | Symbol::DivideBy | Symbol::RemainBy => true,
        _ => false,
    }
}

#[tactic(auto, using(crate::proofs::Seen::expr_firsts_are))]
fn is_expr_firsts(symbol: Symbol) -> bool
    ensures { result ≡ amid firsts.expr_firsts (number symbol) }
{
    is_prefixes(symbol) || is_updates(symbol) || is_base_firsts(symbol)
}

/// A bracket that opens a primary expression, or `function`.
fn opens_primary(symbol: Symbol) -> bool
    ensures { result ≡ amid (Symbol.OpenParen ∷ Symbol.OpenBracket ∷ Symbol.OpenBrace ∷ Symbol.Function ∷ []) (number symbol) }
{
    match symbol {
        Symbol::OpenParen | Symbol::OpenBracket | Symbol::OpenBrace | Symbol::Function => true,
        _ => false,
    }
}

#[tactic(auto, using(crate::proofs::Seen::base_firsts_are))]
fn is_base_firsts(symbol: Symbol) -> bool
    ensures { result ≡ amid firsts.base_firsts (number symbol) }
{
    is(symbol, Symbol::New) || is_leaves(symbol) || opens_primary(symbol)
}

fn is_member_firsts(symbol: Symbol) -> bool
    ensures { result ≡ amid firsts.member_firsts (number symbol) }
{
    is(symbol, Symbol::Get) || is(symbol, Symbol::Set) || is_plain_keys(symbol)
}

fn is_relation(in_allowed: bool, symbol: Symbol) -> bool
    ensures { result ≡ amid (words.operators in_allowed 2) (number symbol) }
{
    match symbol {
        Symbol::Less | Symbol::Greater | Symbol::AtMost | Symbol::AtLeast | Symbol::InstanceOf =>
            true,
        Symbol::In => in_allowed,
        _ => false,
    }
}

fn is_or(symbol: Symbol) -> bool
    ensures { result ≡ amid (Symbol.Or ∷ []) (number symbol) }
{
    matches!(symbol, Symbol::Or)
}

#[tactic(auto, using(crate::proofs::Seen::operators_or))]
fn is_operator(in_allowed: bool, level: u8, symbol: Symbol) -> bool
    ensures { result ≡ amid (words.operators in_allowed level) (number symbol) }
{
    match level {
        0 => matches!(symbol, Symbol::Star | Symbol::Slash | Symbol::Percent),
        1 => matches!(symbol, Symbol::Plus | Symbol::Minus),
        2 => is_relation(in_allowed, symbol),
        3 => matches!(
            symbol,
            Symbol::Same | Symbol::NotSame | Symbol::Equal | Symbol::NotEqual
        ),
        4 => matches!(symbol, Symbol::And),
        _ => is_or(symbol),
    }
}

/// Whether the symbol is in the set.
pub fn has(of: Set, symbol: Symbol) -> bool
    ensures { result ≡ amid (symbols_of of) (number symbol) }
{
    match of {
        Set::Names => is_names(symbol),
        Set::MemberNames => is_member_names(symbol),
        Set::Keys => is_keys(symbol),
        Set::PlainKeys => is_plain_keys(symbol),
        Set::Leaves => is_leaves(symbol),
        Set::Suffixes => is_suffixes(symbol),
        Set::MemberSuffixes => is_member_suffixes(symbol),
        Set::Updates => is_updates(symbol),
        Set::Prefixes => is_prefixes(symbol),
        Set::Assignments => is_assignments(symbol),
        Set::ExprFirsts => is_expr_firsts(symbol),
        Set::BaseFirsts => is_base_firsts(symbol),
        Set::MemberFirsts => is_member_firsts(symbol),
        Set::Operators(in_allowed, level) => is_operator(in_allowed, level, symbol),
    }
}
