//! Laws over the definitions, as the contracts of functions that do nothing.
ghost use Rattle.std.specs.Prelude.{◌≡◌, ◌≤◌, ◌+◌, ℕ, List};
ghost use Rattle.js_syntax.specs.declared.token.Token.{Token};
ghost use Rattle.js_syntax.specs.declared.tree.Script.{Script};
ghost use Rattle.js_syntax.specs.Scripts.{IsScript, EndsWell};
ghost use Rattle.js_syntax.specs.Tokens.{AreTokens};

/// The last of the tokens of a text is an End token, so what `lex` reads can be parsed.
pub fn tokens_of_a_text_end_well()
    ensures { (text : List ℕ) (tokens : List Token) → AreTokens text tokens → EndsWell tokens }
{}

/// Tokens are of one script at most, whatever the limits: no two trees have the same tokens.
pub fn scripts_are_read_one_way()
    ensures { (chains levels : ℕ) (tokens : List Token) (script other : Script)
        → IsScript chains levels tokens script → IsScript chains levels tokens other → script ≡ other }
{}

/// Wider limits keep a script.
pub fn wider_limits_keep_scripts()
    ensures { (chains wide levels deep : ℕ) (tokens : List Token) (script : Script)
        → chains ≤ wide → levels ≤ deep → IsScript chains levels tokens script → IsScript wide deep tokens script }
{}
