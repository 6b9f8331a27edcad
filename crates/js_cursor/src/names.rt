//! Names, and the parameters of functions (ECMAScript, 13.1 and 15.1).
ghost use Rattle.std.specs.Prelude.{◌≡◌, ◌++◌, ◌∷◌, [], IfOk};
ghost use Rattle.js_combinators.specs.Readers.{repeat};
ghost use Rattle.js_syntax.specs.Grammar as grammar;
ghost use Rattle.js_reference_parser.specs.ExpressionsModel as ex;
ghost use Rattle.js_cursor.specs.Reads.{Reads};

use crate::cursor::{Cursor, Failed};
use crate::words::Set;
use base_text::{Mem, Text};
use js_syntax::{Expr, ParseKind, Symbol};
use sqlite_items::{Boxed, Items};
use std::alloc::Global;
use std::collections::BTreeSet;
use std::marker::Model;

/// A name.
#[tactic(auto, unfolding(js_reference_parser::specs::ExpressionsModel::name))]
pub fn name(tokens: &mut Cursor<'_>) -> Result<Text, Failed>
    ensures { Reads (ex.name tokens.old) result tokens.new }
{
    match tokens.eat_any(Set::Names) {
        Some(token) => Ok(token.text.share()?),
        None => Err(Failed::Fault(ParseKind::Unexpected)),
    }
}

/// Distinct names in order, and the set of them.
#[derive(Drop)]
struct Names {
    found: Items<Text>,
    set: BTreeSet<Text, Global>,
}

impl Model for Names {
    ghost use Rattle.std.specs.Prelude.{List, ℕ};
    ghost use Rattle.js_cursor.specs.Known.{AreKnown};

    ghost Value = { List (List ℕ) };

    ghost view = { λ n. n.found };

    ghost invariant = { λ n. AreKnown n.found n.set };
}

impl Names {
    fn new(alloc: Global) -> Names
        ensures { result ≡ [] }
    {
        Names {
            found: Items::new(alloc),
            set: BTreeSet::new(alloc),
        }
    }

    fn has(&self, name: &Text) -> bool
        ensures { result ≡ grammar.is_known name.now self.now }
    {
        self.set.contains(name)
    }

    /// These and one more.
    fn with(self, name: &Text) -> Mem<Names>
        ensures { IfOk result (λ names. names ≡ self ++ name.now ∷ []) }
    {
        let Names { mut found, mut set } = self;
        set.insert(name.share()?)?;
        found.push(name.share()?)?;
        Ok(Names { found, set })
    }

    fn into_items(self) -> Items<Text>
        ensures { result ≡ self }
    {
        let Names { found, set: _ } = self;
        found
    }
}

#[tactic(auto, unfolding(js_reference_parser::specs::ExpressionsModel::new_name))]
fn new_name(tokens: &mut Cursor<'_>, found: Names) -> Result<Names, Failed>
    ensures { Reads (ex.new_name found tokens.old) result tokens.new }
{
    match tokens.rest() {
        [token, ..] if tokens.sees_any(Set::Names) && !found.has(&token.text) => {
            tokens.skip();
            Ok(found.with(&token.text)?)
        }
        _ => Err(Failed::Fault(ParseKind::Unexpected)),
    }
}

#[tactic(auto, unfolding(js_combinators::specs::Readers::repeat, js_combinators::specs::Readers::rounds))]
fn more_names(tokens: &mut Cursor<'_>, mut found: Names) -> Result<Names, Failed>
    ensures { Reads (repeat ex.not_comma ex.next_name found tokens.old) result tokens.new }
{
    for _turn in 0..tokens.left() {
        if let Some(_) = tokens.eat(Symbol::Comma) {
            found = new_name(tokens, found)?;
        } else {
            return Ok(found);
        }
    }
    Ok(found)
}

#[tactic(auto, unfolding(js_reference_parser::specs::ExpressionsModel::some_names))]
fn some_names(alloc: Global, tokens: &mut Cursor<'_>) -> Result<Names, Failed>
    ensures { Reads (ex.some_names tokens.old) result tokens.new }
{
    let first = new_name(tokens, Names::new(alloc))?;
    more_names(tokens, first)
}

/// The parameters of a function, and the bracket after them.
#[tactic(auto, unfolding(js_reference_parser::specs::ExpressionsModel::parameters))]
pub fn parameters(alloc: Global, tokens: &mut Cursor<'_>) -> Result<Items<Text>, Failed>
    ensures { Reads (ex.parameters tokens.old) result tokens.new }
{
    if let Some(_) = tokens.eat(Symbol::CloseParen) {
        return Ok(Items::new(alloc));
    }
    let found = some_names(alloc, tokens)?;
    tokens.expect(Symbol::CloseParen)?;
    Ok(found.into_items())
}

/// The member whose name follows a `.`.
#[tactic(auto, unfolding(js_reference_parser::specs::ExpressionsModel::member_of))]
pub fn member_of(
    alloc: Global,
    tokens: &mut Cursor<'_>,
    object: Boxed<Expr>,
) -> Result<Boxed<Expr>, Failed>
    ensures { Reads (ex.member_of object tokens.old) result tokens.new }
{
    match tokens.eat_any(Set::MemberNames) {
        Some(token) => {
            let name = token.text.share()?;
            Ok(Boxed::new(alloc, Expr::Member(object, name))?)
        }
        None => Err(Failed::Fault(ParseKind::Unexpected)),
    }
}
