//! Laws over the definitions, as the contracts of functions that do nothing.

ghost use Rattle.js_syntax.specs.TokenFaults.{IsFault};
ghost use Rattle.js_syntax.specs.Tokens.{AreTokens};
ghost use Rattle.js_syntax.specs.declared.token.Token.{Token};
ghost use Rattle.js_syntax.specs.declared.token_fault.LexKind.{LexKind};
ghost use Rattle.std.specs.Prelude.{◌≡◌, ◌⊎◌, List, ℕ};

/// A text has one list of tokens at most.
pub fn texts_have_one_list_of_tokens()
    ensures { (text : List ℕ) (tokens other : List Token) → AreTokens text tokens → AreTokens text other → tokens ≡ other }
{}

/// A text has tokens or a fault, not both, and one fault at most.
pub fn texts_have_tokens_or_one_fault()
    // A text has tokens or a fault.
    ensures whole { (text : List ℕ) → ((tokens : List Token) × AreTokens text tokens) ⊎ ((at : ℕ) × (kind : LexKind) × IsFault text at kind) }
    // A text that has tokens has no fault.
    ensures apart { (text : List ℕ) (tokens : List Token) (at : ℕ) (kind : LexKind) → AreTokens text tokens → IsFault text at kind → ⊥ }
    // Two faults of a text are the same.
    ensures one { (text : List ℕ) (at place : ℕ) (kind other : LexKind) → IsFault text at kind → IsFault text place other → (at ≡ place) × (kind ≡ other) }
{}
