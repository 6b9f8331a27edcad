//! The classes of scalars that tokens are made of (ECMAScript, 12), and the parts of a text.

ghost use Rattle.std.specs.Prelude.{◌≡◌, ◌≤◌, length, IfOk};
ghost use Rattle.std.specs.Str.{chars};
ghost use Rattle.base_text.specs.Scalars.{utf8_len};
ghost use Rattle.base_text.specs.declared.text.TheConstants.{SOURCE_LIMIT};
ghost use Rattle.js_lexer.specs.RunsModel as read;
ghost use Rattle.js_syntax.specs.TokenScalars as spec;
ghost use Rattle.js_syntax.specs.TokenSpelling.{closes_comment};

use std::alloc::{AllocError, Global};

/// White space (ECMAScript, 12.2).
pub fn is_white_space(c: char) -> bool
    ensures { result ≡ spec.is_white_space c }
{
    matches!(c, '\t' | '\u{B}' | '\u{C}' | ' ' | '\u{A0}' | '\u{FEFF}')
}

/// A line terminator (ECMAScript, 12.3).
pub fn is_line_end(c: char) -> bool
    ensures { result ≡ spec.is_line_end c }
{
    matches!(c, '\n' | '\r' | '\u{2028}' | '\u{2029}')
}

/// What a name may begin with (ECMAScript, 12.7).
pub fn is_name_start(c: char) -> bool
    ensures { result ≡ spec.is_name_start c }
{
    c == '$' || c == '_' || unicode_ident::is_xid_start(c)
}

/// What may follow the first scalar of a name (ECMAScript, 12.7).
pub fn is_name_part(c: char) -> bool
    ensures { result ≡ spec.is_name_part c }
{
    c == '$' || unicode_ident::is_xid_continue(c)
}

/// A decimal digit (ECMAScript, 12.9.3).
pub fn is_decimal(c: char) -> bool
    ensures { result ≡ spec.is_decimal c }
{
    c.is_digit(10)
}

/// A hexadecimal digit (ECMAScript, 12.9.3).
pub fn is_hexadecimal(c: char) -> bool
    ensures { result ≡ spec.is_hexadecimal c }
{
    c.is_digit(16)
}

/// What may not follow a number directly (ECMAScript, 12.9.3).
pub fn runs_on(c: char) -> bool
    ensures { result ≡ spec.runs_on c }
{
    is_decimal(c) || c == '.' || is_name_start(c)
}

/// A quote, which begins and ends a string literal (ECMAScript, 12.9.4).
pub fn is_quote(c: char) -> bool
    ensures { result ≡ spec.is_quote c }
{
    c == '"' || c == '\''
}

/// The scalars of a text.
pub fn scalars(alloc: Global, text: &str) -> Result<Vec<char>, AllocError>
    ensures { IfOk result (λ all. all.items ≡ chars text.now) }
{
    text.chars().collect(alloc)
}

/// How many bytes of UTF-8 the scalars take.
pub fn width(text: &[char]) -> usize
    requires { utf8_len text.now ≤ SOURCE_LIMIT }
    ensures { result ≡ utf8_len text.now }
{
    let mut bytes = 0;
    for c in text {
        bytes += c.len_utf8();
    }
    bytes
}

/// The part of a text before its rest.
pub fn before<'a>(text: &'a [char], rest: &[char]) -> &'a [char]
    requires { length rest.now ≤ length text.now }
    ensures { result.now ≡ read.before text.now rest.now }
{
    &text[..text.len() - rest.len()]
}
