//! The table of punctuators, and the longest one at the front of a text (ECMAScript, 12.8).

ghost use Rattle.std.specs.Prelude.{◌≡◌, map, length, option_map};
ghost use Rattle.std.specs.Option.{option_copied};
ghost use Rattle.js_lexer.specs.RunsModel as read;
ghost use Rattle.js_syntax.specs.TokenSpelling.{punctuators};

/// The punctuators, longer ones first.
const PUNCTUATORS: [&[u8]; 35] = [
    b"===", b"!==", b"==", b"!=", b"<=", b">=", b"&&", b"||", b"++", b"--", b"+=", b"-=", b"*=",
    b"/=", b"%=", b"{", b"}", b"(", b")", b"[", b"]", b";", b",", b".", b"<", b">", b"+", b"-",
    b"*", b"/", b"%", b"!", b"?", b":", b"=",
];

/// What follows this front, where it stands there.
#[tactic(auto, unfolding(crate::specs::RunsModel::past_front))]
fn past_front<'a>(mut text: &'a [char], mut front: &[u8]) -> Option<&'a [char]>
    ensures { option_copied result ≡ read.past_front front.entry.now text.entry.now }
{
    while let [m, others @ ..] = front {
        let [c, rest @ ..] = text else {
            return None;
        };
        if *c != char::from(*m) {
            return None;
        }
        text = rest;
        front = others;
    }
    Some(text)
}

#[tactic(auto, unfolding(crate::specs::RunsModel::after_punctuator))]
fn first_past<'a>(mut fronts: &[&[u8]], text: &'a [char]) -> Option<&'a [char]>
    ensures { option_copied result ≡ read.after_punctuator (map (λ m. m.now) fronts.entry.now) text.now }
{
    while let [front, others @ ..] = fronts {
        if let Some(rest) = past_front(text, front) {
            return Some(rest);
        }
        fronts = others;
    }
    None
}

/// What follows the longest punctuator that stands at the front.
#[tactic(auto, unfolding(js_syntax::specs::TokenSpelling::punctuators))]
pub fn after_punctuator(text: &[char]) -> Option<&[char]>
    ensures { option_copied result ≡ read.after_punctuator punctuators text.now }
{
    first_past(&PUNCTUATORS, text)
}
