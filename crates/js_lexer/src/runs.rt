//! Each function here skips one kind of token or gap and returns the rest of the input.

ghost use Rattle.std.specs.Prelude.{◌≡◌, ◌≤◌, ◌<◌, length, map, option_map, Option, Some, None, false};
ghost use Rattle.std.specs.Option.{option_copied};
ghost use Rattle.std.specs.Str.{bytes_eq};
ghost use Rattle.js_lexer.specs.RunsModel as read;
ghost use Rattle.js_syntax.specs.TokenScalars as spec;
ghost use Rattle.js_syntax.specs.TokenSpelling.{closes_comment, begins_hexadecimal, punctuators};

use crate::scalars::{is_line_end, is_name_part};

/// What follows the scalars at the front that go on with a name.
#[tactic(auto, unfolding(crate::specs::RunsModel::after))]
pub fn after_name(mut text: &[char]) -> &[char]
    ensures { result.now ≡ read.after spec.is_name_part text.entry.now }
{
    while let [c, rest @ ..] = text {
        if !is_name_part(*c) {
            return text;
        }
        text = rest;
    }
    text
}

/// What follows the scalars at the front that stand in one line.
#[tactic(auto, unfolding(crate::specs::RunsModel::after))]
pub fn after_line(mut text: &[char]) -> &[char]
    ensures { result.now ≡ read.after spec.is_in_line text.entry.now }
{
    while let [c, rest @ ..] = text {
        if is_line_end(*c) {
            return text;
        }
        text = rest;
    }
    text
}

fn is_close(text: &[char]) -> bool
    ensures { result ≡ closes_comment text.now }
{
    matches!(text, ['*', '/', ..])
}

/// What follows the next `*/`, and whether a line ends before it.
#[tactic(auto, unfolding(crate::specs::RunsModel::after_block))]
pub fn after_block(mut text: &[char]) -> Option<(bool, &[char])>
    ensures { option_map (λ p. (p.0, p.1.now)) result ≡ read.after_block false text.entry.now }
{
    let mut line = false;
    while let [c, rest @ ..] = text {
        if is_close(text) {
            return Some((line, &rest[1..]));
        }
        line = line || is_line_end(*c);
        text = rest;
    }
    None
}
