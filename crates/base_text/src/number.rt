//! The largest number, so that lexer, syntax, operators and definitions cite one.

/// The largest whole number of a script; the least is its negative (ECMAScript, 21.1.2.6 Number.MAX_SAFE_INTEGER).
pub const MAX_SAFE_INTEGER: i64 = 9_007_199_254_740_991;
