//! Where a string literal ends (ECMAScript, 12.9.4).

ghost use Rattle.std.specs.Prelude.{◌≡◌, option_map, length, ◌<◌, ◌≤◌};
ghost use Rattle.std.specs.Option.{option_copied};
ghost use Rattle.js_lexer.specs.StringLiteralsModel as read;

/// What of the next scalar an escape takes up.
#[derive(Clone, Copy)]
pub enum Taken {
    Nothing,
    /// This scalar.
    Scalar,
    /// This scalar where it is a LF, since a CR follows the backslash.
    LineFeed,
}

/// What a scalar does to a text.
#[derive(Clone, Copy)]
pub enum Next {
    /// It is the quote that ends it.
    Ends,
    /// It is a line end that cuts it.
    Breaks,
    /// The text goes on, and this much of the next scalar is taken up.
    GoesOn(Taken),
}

fn free_step(quote: char, c: char) -> Next
    ensures { result ≡ read.free_step quote c }
{
    match c {
        _ if c == quote => Next::Ends,
        '\n' | '\r' => Next::Breaks,
        '\\' => Next::GoesOn(Taken::Scalar),
        _ => Next::GoesOn(Taken::Nothing),
    }
}

#[tactic(auto, unfolding(crate::specs::StringLiteralsModel::step))]
fn step(quote: char, taken: Taken, c: char) -> Next
    ensures { result ≡ read.step quote taken c }
{
    match taken {
        Taken::Nothing => free_step(quote, c),
        Taken::Scalar if c == '\r' => Next::GoesOn(Taken::LineFeed),
        Taken::Scalar => Next::GoesOn(Taken::Nothing),
        Taken::LineFeed if c == '\n' => Next::GoesOn(Taken::Nothing),
        Taken::LineFeed => free_step(quote, c),
    }
}

/// What follows the quote that ends the text.
#[tactic(auto, unfolding(crate::specs::StringLiteralsModel::after_text))]
pub fn after_text(quote: char, mut text: &[char]) -> Option<&[char]>
    ensures { option_copied result ≡ read.after_text quote Taken.Nothing text.entry.now }
{
    let mut taken = Taken::Nothing;
    while let [c, rest @ ..] = text {
        taken = match step(quote, taken, *c) {
            Next::Ends => return Some(rest),
            Next::Breaks => return None,
            Next::GoesOn(next) => next,
        };
        text = rest;
    }
    None
}
