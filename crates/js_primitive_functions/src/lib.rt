//! The built-in functions of texts and numbers that need no heap, on arguments that are converted (ECMAScript, 21.3 and
//! 22.1.3).
#![tactic(auto)]

mod case;
mod ends;
mod math;
mod parts;
mod places;
mod ranges;
mod replacement;
mod scalars;
mod search;
#[cfg(test)]
mod tests;

pub use case::{to_lower_case, to_upper_case};
pub use ends::trim;
pub use math::{abs, div};
pub use parts::split;
pub use ranges::{slice, substring};
pub use replacement::replace;
pub use scalars::{char_at, char_code_at};
pub use search::index_of;
