//! What a selector is made of (Selectors Level 4, 3 Selector Syntax and Structure), as plain data, so that the
//! definitions and the code that reads a selector speak of one type.

use base_text::Text;
use door::List;

/// Which elements a compound selector matches by their tag (Selectors Level 4, 5.1 and 5.2).
#[derive(Debug, Drop)]
pub enum TagTest {
    /// `*`
    Any,
    /// A tag.
    Named(Text),
}

/// A simple selector other than a tag (Selectors Level 4, 6).
#[derive(Debug, Drop)]
pub enum Part {
    /// `#name`
    Id(Text),
    /// `.name`
    Class(Text),
    /// `[name]`
    Has(Text),
    /// `[name=value]`
    Is(Text, Text),
}

/// A compound selector: what one element has to be (Selectors Level 4, 3.1).
#[derive(Debug, Drop)]
pub struct Compound {
    /// The tag, if one is asked for.
    pub tag: Option<TagTest>,
    /// The other simple selectors, in order.
    pub parts: List<Part>,
}
