//! Determinism: a text is at most one script or has one first fault, so an entry goes on in one way. The law of
//! equal shows rests on it. The functions do nothing; their contracts are the laws.

ghost use Rattle.door.specs.declared.marks.Entry.{Entry};
ghost use Rattle.door.specs.declared.requests.Answer.{Answer};
ghost use Rattle.js_syntax.specs.Scripts.{IsFirstFault, IsScript};
ghost use Rattle.js_syntax.specs.declared.parse_fault.ParseFault.{ParseFault};
ghost use Rattle.js_syntax.specs.declared.token.Token.{Token};
ghost use Rattle.js_syntax.specs.declared.tree.Script.{Script};
ghost use Rattle.js_semantics.specs.Entries.{enters};
ghost use Rattle.js_semantics.specs.Machine.{Machine};
ghost use Rattle.js_semantics.specs.Solo.{Program};
ghost use Rattle.std.specs.Prelude.{◌≡◌, List, ℕ};

use js_lexer::{texts_have_one_list_of_tokens, texts_have_tokens_or_one_fault};
use js_reference_parser::scripts_are_read_one_way;

/// Tokens have one first fault at most, whatever the limits.
pub fn tokens_have_one_first_fault()
    ensures { (chains levels : ℕ) (tokens : List Token) (fault other : ParseFault) → IsFirstFault chains levels tokens fault → IsFirstFault chains levels tokens other → fault ≡ other }
{}

/// The tokens of a script have no first fault.
pub fn scripts_have_no_fault()
    ensures { (chains levels : ℕ) (tokens : List Token) (script : Script) (fault : ParseFault) → IsScript chains levels tokens script → IsFirstFault chains levels tokens fault → ⊥ }
{}

/// An entry goes on in one way at most. A text spells one script at most and has one first fault at most, and not
/// both; of the other entries the definition says outright how they go on.
pub fn entries_go_on_one_way()
    ensures { (entry : Entry) (levels : ℕ) (m : Machine) (back : Machine → Answer → Program Machine) (tree other : Program Machine)
        → enters entry levels m back tree → enters entry levels m back other → tree ≡ other }
{
    texts_have_one_list_of_tokens();
    texts_have_tokens_or_one_fault();
    scripts_are_read_one_way();
}
