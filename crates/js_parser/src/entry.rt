//! Whole scripts.
ghost use Rattle.js_syntax.specs.declared.limits.TheConstants.{CHAIN_LIMIT, LEVEL_LIMIT};
ghost use Rattle.std.specs.Prelude.{◌≡◌, IfOk};
ghost use Rattle.js_syntax.specs.declared.tree.Script.{Script};
ghost use Rattle.js_syntax.specs.declared.parse_fault.ParseFault.{ParseFault};
ghost use Rattle.js_syntax.specs.Scripts.{IsScript, IsFirstFault, EndsWell};
ghost use Rattle.base_text.specs.Answers.{OkOrMemory, IfFault, FaultOrMemory};
ghost use Rattle.js_cursor.specs.Reads.{Reads};
ghost use Rattle.js_reference_parser.specs.StatementsModel.{top};

use crate::level::Level;
use crate::parts::{expr, member, stmt};
use base_text::OrMemory;
use js_cursor::{Cursor, Failed, place};
use js_syntax::{LEVEL_LIMIT, ParseFault, ParseKind, Script, Stmt, Token};
use sqlite_items::Items;
use std::alloc::Global;

#[tactic(auto, unfolding(js_reference_parser::specs::StatementsModel::top))]
fn top(alloc: Global, tokens: &mut Cursor<'_>) -> Result<Items<Stmt>, Failed>
    ensures { Reads (top CHAIN_LIMIT LEVEL_LIMIT tokens.old) result tokens.new }
{
    Level {
        alloc,
        left: LEVEL_LIMIT,
        expr,
        member,
        stmt,
    }
    .statements(tokens, false, false)
}

/// The script that the tokens spell, the last of which is the end (ECMAScript, 16.1).
///
/// Its parts go 63 levels deep at most, and a chain of operators or of suffixes has 64 of them at most;
/// the members of what a `new` is applied to are a chain of their own. A `Fault` comes exactly where the
/// tokens are no script within these limits. It is at the first token for which no script within them
/// begins with the tokens through it: `TooDeep` where a script over the limits does, else `Unexpected`.
pub fn parse(alloc: Global, tokens: &[Token]) -> Result<Script, OrMemory<ParseFault>>
    requires { EndsWell tokens.now }
    // What is returned is a script of the tokens.
    ensures ok { IfOk result (λ script. IsScript CHAIN_LIMIT LEVEL_LIMIT tokens.now script) }
    // A script of the tokens is returned.
    ensures only { (script : Script) → IsScript CHAIN_LIMIT LEVEL_LIMIT tokens.now script → OkOrMemory result script }
    // A fault is the first of the tokens.
    ensures fault { IfFault result (λ f. IsFirstFault CHAIN_LIMIT LEVEL_LIMIT tokens.now f) }
    // The first fault of the tokens is returned.
    ensures first { (f : ParseFault) → IsFirstFault CHAIN_LIMIT LEVEL_LIMIT tokens.now f → FaultOrMemory result f }
{
    let mut cursor = Cursor::new(tokens);
    match top(alloc, &mut cursor) {
        Ok(body) => match cursor.finish() {
            Ok(()) => Ok(Script { body }),
            Err(rest) => Err(OrMemory::Fault(ParseFault {
                at: place(rest),
                kind: ParseKind::Unexpected,
            })),
        },
        Err(Failed::NoMemory) => Err(OrMemory::NoMemory),
        Err(Failed::Fault(kind)) => Err(OrMemory::Fault(ParseFault {
            at: place(cursor.rest()),
            kind,
        })),
    }
}
