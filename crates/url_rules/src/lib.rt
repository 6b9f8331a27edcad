//! The rules by which a userscript names the addresses that it runs on, and the address as they see it.
//!
//! Regular expressions are built here and nowhere else, so that a layer above needs neither `regex` nor `url`.
#![tactic(auto)]

mod address;
mod globs;
mod laws;
mod patterns;
mod read;
mod rules;

pub use address::{AddressFault, address_of, host_of, path_of, read_address};
pub use laws::{rules_are_read_one_way, same_rules_fit_alike};
pub use patterns::{BuildFault, Patterns, RegexPatterns};
pub use read::{RuleFault, RuleKind, read_rule};
pub use rules::{HostRule, MatchPattern, Rule, SchemeRule, fits};
pub use url::Url;

#[cfg(test)]
mod tests;
