//! Regular expressions, and how often one was refused for its size, which no clause could foretell.
ghost use Rattle.std.specs.Prelude.{◌++◌, [], ◌∷◌, if◌then◌else◌, OnOk, ◌≡◌, ◌≤◌, ◌⊎◌, ◌↔◌, Contains, IfOk, IsErrOf, IsTrue, string_bytes, ℕ};
ghost use Rattle.url_rules.specs.Patterns.{IsBuilt, IsExpressionText, RefusedByGrammar, Rose, begins_with_slash, refused_after, risen, unescaped};

use regex::{Error, Regex};
use std::alloc::{AllocError, Global};

/// Why a regular expression isn't built.
#[derive(Clone, Copy, Debug, PartialEq, Eq)]
pub enum BuildFault {
    /// The grammar of `regex` doesn't read it, or it nests too deep.
    Syntax,
    /// It is too big.
    TooBig,
    /// No memory was found.
    NoMemory,
}

/// Builds regular expressions, and counts those that it refuses for their size.
pub trait Patterns {
    /// How many were refused for their size; it stands still at 2^64 - 1.
    ghost refusals: { Self → ℕ };

    /// The regular expression that `regex` reads in `s`.
    ///
    /// `Syntax` only where the grammar of `regex` has no reading of `s` or it nests too deep. The count rises by one
    /// exactly where the answer is `TooBig`, and never falls.
    fn build(&mut self, alloc: Global, s: &str) -> Result<Regex, BuildFault>
        ensures ok { IfOk result (IsBuilt s.now) }
        ensures syntax { IsErrOf result BuildFault.Syntax → RefusedByGrammar s.now }
        ensures too_big { IsErrOf result BuildFault.TooBig → Rose (refusals self.old) (refusals self.new) }
        ensures count { refusals self.old ≤ refusals self.new }
        ensures exact { refusals self.new ≡ refused_after (refusals self.old) result };
}

/// Builds by `regex`, but for the listed calls, which answer `TooBig`.
#[derive(Drop)]
pub struct RegexPatterns {
    failing: Vec<u32>,
    made: u64,
    refused: u64,
}

impl RegexPatterns {
    /// `failing` lists the calls that answer `TooBig`, counted from 1. It takes no memory.
    pub fn new(failing: Vec<u32>) -> RegexPatterns
        ensures failing { result.failing.items ≡ failing.items }
        ensures made { result.made ≡ 0 }
        ensures refused { result.refused ≡ 0 }
    {
        RegexPatterns {
            failing,
            made: 0,
            refused: 0,
        }
    }

    /// Counts one more refusal for size.
    fn too_big(&mut self) -> BuildFault
        ensures answer { result ≡ BuildFault.TooBig }
        ensures count { self.new ≡ record self.old { refused = risen self.old.refused } }
        ensures later { self.old.refused ≤ self.new.refused }
    {
        self.refused = self.refused.saturating_add(1);
        BuildFault::TooBig
    }
}

impl Patterns for RegexPatterns {
    ghost refusals = { λ p. p.refused };

    fn build(&mut self, alloc: Global, s: &str) -> Result<Regex, BuildFault>
        ensures ok { IfOk result (IsBuilt s.now) }
        ensures syntax { IsErrOf result BuildFault.Syntax → RefusedByGrammar s.now }
        ensures too_big { IsErrOf result BuildFault.TooBig → Rose self.old.refused self.new.refused }
        ensures count { self.old.refused ≤ self.new.refused }
        ensures exact { self.new.refused ≡ refused_after self.old.refused result }
        ensures listed { Contains self.old.failing.items (risen self.old.made)
            → IsErrOf result BuildFault.TooBig }
        ensures others { IsErrOf result BuildFault.TooBig
            → Contains self.old.failing.items (risen self.old.made) ⊎ IsExpressionText s.now }
        ensures made { self.new.made ≡ risen self.old.made }
        ensures failing { self.new.failing.items ≡ self.old.failing.items }
    {
        self.made = self.made.saturating_add(1);
        let made = self.made;
        if is_listed(self.failing.as_slice(), made) {
            return Err(self.too_big());
        }
        match Regex::new(alloc, s) {
            Ok(regex) => Ok(regex),
            Err(Error::Syntax(_error)) => Err(BuildFault::Syntax),
            Err(Error::CompiledTooBig) => Err(self.too_big()),
            Err(Error::OutOfMemory) => Err(BuildFault::NoMemory),
            Err(Error::Internal) => unreachable!(),
        }
    }
}

/// Whether the call with this number is listed.
fn is_listed(failing: &[u32], made: u64) -> bool
    ensures { IsTrue result ↔ Contains failing.now made }
{
    failing.iter().any(|call| u64::from(*call) == made)
}

/// The text with each pair `\/` as `/`.
pub(crate) fn unescape(alloc: Global, s: &str) -> Result<String, AllocError>
    ensures { IfOk result (λ t. string_bytes t ≡ unescaped s.now) }
{
    let mut out = String::with_capacity(alloc, s.len())?;
    let mut rest = s;
    while let Some((front, back)) = rest.split_once('\\') {
        push_front(&mut out, front, back)?;
        rest = back;
    }
    out.push_str(rest)?;
    Ok(out)
}

/// Adds the text before a backslash, and the backslash itself unless a slash follows it.
fn push_front(out: &mut String, front: &str, back: &str) -> Result<(), AllocError>
    ensures { OnOk result (string_bytes out.new ≡ string_bytes out.old
        ++ (front.now ++ (if begins_with_slash back.now then [] else 92 ∷ []))) }
{
    out.push_str(front)?;
    if !back.starts_with('/') {
        out.push_str("\\")?;
    }
    Ok(())
}
