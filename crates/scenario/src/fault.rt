//! What is wrong with a scenario, and in which line.

/// What is wrong with a scenario. Of several faults of one line the first in this list counts.
#[derive(Clone, Copy, Debug, PartialEq, Eq)]
pub enum EventsKind {
    /// The file has more bytes than the limit.
    TooLong,
    /// The bytes aren't UTF-8.
    NotUtf8,
    /// The line begins with no verb.
    BadVerb,
    /// A field isn't there.
    MissingField,
    /// SELECTOR is no selector.
    BadSelector,
    /// N is no number of milliseconds.
    BadNumber,
}

/// Why a scenario is refused, and the line at which it is: from 1 over all lines, 0 where the file is at fault.
#[derive(Clone, Copy, Debug, PartialEq, Eq)]
pub struct EventsFault {
    pub line: u32,
    pub kind: EventsKind,
}
