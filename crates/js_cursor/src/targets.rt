//! What can be assigned, and the operators that continue it (ECMAScript, 13.4 and 13.15).
ghost use Rattle.std.specs.Prelude.{◌≡◌};
ghost use Rattle.js_syntax.specs.Symbols.{next, sees};
ghost use Rattle.js_syntax.specs.Words as words;
ghost use Rattle.js_reference_parser.specs.ExpressionsModel as ex;
ghost use Rattle.js_cursor.specs.Reads.{Begins, Reads, Takes};

use crate::cursor::{Cursor, Failed};
use crate::make;
use crate::words::Set;
use js_syntax::{Expr, ParseKind, Token};
use sqlite_items::Boxed;

/// Whether a `++` or `--` continues this expression here.
pub fn sees_postfix(tokens: &Cursor<'_>, operand: &Expr) -> bool
    ensures { result ≡ sees (words.is_postfix operand.now) (next tokens.now) }
{
    tokens.sees_any(Set::Updates) && tokens.is_on_line() && make::is_target(operand)
}

/// Takes the `++` or `--` that continues this expression here.
pub fn eat_postfix<'a>(tokens: &mut Cursor<'a>, operand: &Expr) -> Option<&'a Token>
    ensures { Takes (words.is_postfix operand.now) tokens.old result tokens.new }
{
    if sees_postfix(tokens, operand) {
        return tokens.skip();
    }
    None
}

/// Takes the assignment operator that continues this expression here, unless no level is left.
pub fn begin_assign<'a>(
    tokens: &mut Cursor<'a>,
    left: usize,
    target: &Expr,
) -> Result<Option<&'a Token>, Failed>
    ensures { Begins left (words.assigns target.now) tokens.old result tokens.new }
{
    if !make::is_target(target) {
        return Ok(None);
    }
    tokens.begin_any(left, Set::Assignments)
}

/// A name or a member, with no operator after it.
#[tactic(auto, unfolding(js_reference_parser::specs::ExpressionsModel::accept))]
pub fn accept(tokens: &Cursor<'_>, found: Boxed<Expr>) -> Result<Boxed<Expr>, Failed>
    ensures { Reads (ex.accept found tokens.now) result tokens.now }
{
    if sees_postfix(tokens, found.get()) || !make::is_target(found.get()) {
        return Err(Failed::Fault(ParseKind::Unexpected));
    }
    Ok(found)
}
