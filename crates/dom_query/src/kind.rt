//! The kinds of scalars in a selector.

ghost use Rattle.std.specs.Prelude.{◌≡◌};
ghost use Rattle.dom_semantics.specs.SelectorNames as spec;
ghost use Rattle.dom_semantics.specs.Whitespace.{is_white_space};
ghost use Rattle.dom_query.specs.ReadingModel as reading;

/// What a scalar is outside of quotes.
#[derive(Clone, Copy)]
pub(crate) enum Kind {
    Name,
    Blank,
    Star,
    Hash,
    Dot,
    Open,
    Close,
    Equals,
    Quote,
    Comma,
    Other,
}

fn is_white_space(c: char) -> bool
    ensures { result ≡ is_white_space c }
{
    matches!(c, '\t' | '\n' | '\u{C}' | '\r' | ' ')
}

fn is_name_scalar(c: char) -> bool
    ensures { result ≡ spec.is_name_scalar c }
{
    ('a' <= c && c <= 'z')
        || ('A' <= c && c <= 'Z')
        || ('0' <= c && c <= '9')
        || c == '-'
        || c == '_'
        || '\u{80}' <= c
}

pub(crate) fn kind_of(c: char) -> Kind
    ensures { result ≡ reading.kind_of c }
{
    if is_name_scalar(c) {
        return Kind::Name;
    }
    if is_white_space(c) {
        return Kind::Blank;
    }
    match c {
        '*' => Kind::Star,
        '#' => Kind::Hash,
        '.' => Kind::Dot,
        '[' => Kind::Open,
        ']' => Kind::Close,
        '=' => Kind::Equals,
        '"' => Kind::Quote,
        '\'' => Kind::Quote,
        ',' => Kind::Comma,
        _ => Kind::Other,
    }
}
