//! The forms of scripts that are read until the language is built: lines that log a sum or set the title.

use base_text::Text;
use door::List;

/// A part of a sum.
#[derive(Debug, Drop)]
pub enum Part {
    /// `document.title`
    Title,
    /// A whole number of at most three digits.
    Number(u16),
    /// A text between quotes.
    Quoted(Text),
}

/// Parts in order.
pub type Parts = List<Part>;

/// A sum, which is added up from its first part on.
#[derive(Debug, Drop)]
pub struct Sum {
    pub first: Part,
    pub more: Parts,
}

/// A line of a script.
#[derive(Debug, Drop)]
pub enum Line {
    /// Logs a sum.
    Log(Sum),
    /// Writes a sum into the title.
    SetTitle(Sum),
}

/// Lines in order.
pub type Lines = List<Line>;
