//! The limits of syntax, so that grammar and parser cite one.

/// How many operators a chain may have, and how many suffixes one chain of them.
pub const CHAIN_LIMIT: usize = 64;

/// How many levels the parts of a script may have: the statements at the top are the first, so a part
/// goes 63 levels deep.
pub const LEVEL_LIMIT: usize = 64;
