//! The value of a metadata line as a rule: globs and regular expressions of `@include` and `@exclude`, match patterns of `@match`.
ghost use Rattle.std.specs.Prelude.{◌≡◌, ◌≢◌, ◌≤◌, ◌↔◌, ℕ, List, [], ◌∷◌, ◌++◌, length, IsTrue, IfOk, IfErr, ◌⊎◌, IsErrOf, MatchOption, encode_utf8_all};
ghost use Rattle.std.specs.List.{list_all};
ghost use Rattle.base_text.specs.declared.text.TheConstants.{TEXT_LIMIT};
ghost use Rattle.url_rules.specs.Patterns.{IsExpression, RefusedByGrammar, Rose, unescaped};
ghost use Rattle.url_rules.specs.declared.rules.Rule.{Rule};
ghost use Rattle.url_rules.specs.declared.rules.HostRule.{HostRule};
ghost use Rattle.url_rules.specs.declared.rules.SchemeRule.{SchemeRule};
ghost use Rattle.url_rules.specs.Reads.{is_name_byte as name_byte, IsName, scheme_text, ReadsHost, ReadsPattern, ReadsRule, ReadsGlob, IsNoPattern, IsNoExpression, IsTooBig, refused_by};

use crate::patterns::{BuildFault, Patterns, unescape};
use crate::rules::{HostRule, MatchPattern, Rule, SchemeRule};
use base_text::{Mem, NoMemory, Text};
use std::alloc::{AllocError, Global};

/// The kind of a line whose value is a rule.
#[derive(Clone, Copy, Debug, PartialEq, Eq)]
pub enum RuleKind {
    /// `@include` or `@exclude`.
    Glob,
    /// `@match`.
    Pattern,
}

/// Why a value is refused as a rule.
#[derive(Clone, Copy, Debug, PartialEq, Eq)]
pub enum RuleFault {
    /// It is no match pattern.
    BadPattern,
    /// The grammar of `regex` doesn't read its regular expression, or that nests too deep.
    PatternSyntax,
    /// Its regular expression is too big for `regex`.
    PatternTooBig,
    /// No memory was found.
    NoMemory,
}

impl From<NoMemory> for RuleFault {
    ghost use Rattle.std.specs.Prelude.{◌≡◌};
    ghost use Rattle.url_rules.specs.declared.read.RuleFault.TheVariants.{NoMemory};

    ghost from_gives = { λ _ e. e ≡ NoMemory };

    fn from(_error: NoMemory) -> RuleFault {
        RuleFault::NoMemory
    }
}

impl From<AllocError> for RuleFault {
    ghost use Rattle.std.specs.Prelude.{◌≡◌};
    ghost use Rattle.url_rules.specs.declared.read.RuleFault.TheVariants.{NoMemory};

    ghost from_gives = { λ _ e. e ≡ NoMemory };

    fn from(_error: AllocError) -> RuleFault {
        RuleFault::NoMemory
    }
}

/// A text within the limit of texts.
fn text_of(alloc: Global, s: &str) -> Mem<Text>
    requires { length s.now ≤ TEXT_LIMIT }
    ensures { IfOk result (λ t. encode_utf8_all t ≡ s.now) }
{
    match Text::of(alloc, s) {
        Ok(text) => Ok(text),
        Err(_) => Err(NoMemory),
    }
}

/// The expression between the two slashes, if the value is a regular expression.
fn middle_of(s: &str) -> Option<&str>
    ensures { MatchOption result ((middle : List ℕ) → IsExpression s.now middle → ⊥)
        (λ m. IsExpression s.now m.now) }
{
    let Some(rest) = s.strip_prefix('/') else {
        return None;
    };
    rest.strip_suffix('/')
}

/// The rule of an `@include` or `@exclude` line.
fn read_glob<P: Patterns>(alloc: Global, patterns: &mut P, s: &str) -> Result<Rule, RuleFault>
    requires { length s.now ≤ TEXT_LIMIT }
    ensures ok { IfOk result (ReadsGlob s.now) }
    ensures bad { IsErrOf result RuleFault.BadPattern → ⊥ }
    ensures syntax { IsErrOf result RuleFault.PatternSyntax
        → (middle : List ℕ) × IsExpression s.now middle × RefusedByGrammar (unescaped middle) }
    ensures too_big { IsErrOf result RuleFault.PatternTooBig → ((middle : List ℕ) × IsExpression s.now middle)
        × Rose (P.refusals patterns.old) (P.refusals patterns.new) }
    ensures count { P.refusals patterns.old ≤ P.refusals patterns.new }
    ensures exact { P.refusals patterns.new ≡ refused_by (P.refusals patterns.old) result }
    ensures plain { ((middle : List ℕ) → IsExpression s.now middle → ⊥) → P.refusals patterns.new ≡ P.refusals patterns.old }
{
    let Some(middle) = middle_of(s) else {
        return Ok(Rule::Glob(text_of(alloc, s)?));
    };
    let source = unescape(alloc, middle)?;
    match patterns.build(alloc, source.as_str()) {
        Ok(regex) => Ok(Rule::Regular(regex)),
        Err(BuildFault::Syntax) => Err(RuleFault::PatternSyntax),
        Err(BuildFault::TooBig) => Err(RuleFault::PatternTooBig),
        Err(BuildFault::NoMemory) => Err(RuleFault::NoMemory),
    }
}

/// The scheme of a match pattern.
fn scheme_rule(s: &str) -> Option<SchemeRule>
    ensures { MatchOption result ((r : SchemeRule) → s.now ≡ scheme_text r → ⊥)
        (λ r. s.now ≡ scheme_text r) }
{
    match s {
        "*" => Some(SchemeRule::HttpOrHttps),
        "http" => Some(SchemeRule::Http),
        "https" => Some(SchemeRule::Https),
        "ftp" => Some(SchemeRule::Ftp),
        "file" => Some(SchemeRule::File),
        _ => None,
    }
}

/// Whether a byte may stand in a name.
fn is_name_byte(b: u8) -> bool
    ensures { result ≡ name_byte b }
{
    (b'a' <= b && b <= b'z')
        || (b'A' <= b && b <= b'Z')
        || (b'0' <= b && b <= b'9')
        || b == b'-'
        || b == b'.'
}

/// Whether each byte may stand in a name.
fn has_name_bytes(bytes: &[u8]) -> bool
    ensures { result ≡ list_all name_byte bytes.now }
{
    for b in bytes {
        if !is_name_byte(*b) {
            return false;
        }
    }
    true
}

/// Whether a text is a name.
fn is_name(s: &str) -> bool
    ensures { IsTrue result ↔ IsName s.now }
{
    if s.is_empty() {
        return false;
    }
    has_name_bytes(s.as_bytes())
}

/// What follows `*.`.
fn after_star(s: &str) -> Option<&str>
    ensures { MatchOption result ((rest : List ℕ) → s.now ≡ 42 ∷ 46 ∷ rest → ⊥)
        (λ r. s.now ≡ 42 ∷ 46 ∷ r.now) }
{
    let Some(rest) = s.strip_prefix('*') else {
        return None;
    };
    rest.strip_prefix('.')
}

/// What follows two slashes.
fn after_slashes(s: &str) -> Option<&str>
    ensures { MatchOption result ((rest : List ℕ) → s.now ≡ 47 ∷ 47 ∷ rest → ⊥)
        (λ r. s.now ≡ 47 ∷ 47 ∷ r.now) }
{
    let Some(rest) = s.strip_prefix('/') else {
        return None;
    };
    rest.strip_prefix('/')
}

/// The host of a match pattern.
fn host_rule(alloc: Global, scheme: SchemeRule, s: &str) -> Result<HostRule, RuleFault>
    requires { length s.now ≤ TEXT_LIMIT }
    ensures ok { IfOk result (ReadsHost scheme s.now) }
    ensures bad { IsErrOf result RuleFault.BadPattern → (h : HostRule) → ReadsHost scheme s.now h → ⊥ }
    ensures others { IfErr result (λ e. (e ≡ RuleFault.BadPattern) ⊎ (e ≡ RuleFault.NoMemory)) }
{
    if s == "" {
        return match scheme {
            SchemeRule::File => Ok(HostRule::Empty),
            _ => Err(RuleFault::BadPattern),
        };
    }
    if s == "*" {
        return Ok(HostRule::Any);
    }
    if is_name(s) {
        return Ok(HostRule::Only(text_of(alloc, s)?));
    }
    let Some(name) = after_star(s) else {
        return Err(RuleFault::BadPattern);
    };
    if !is_name(name) {
        return Err(RuleFault::BadPattern);
    }
    Ok(HostRule::Below(text_of(alloc, name)?))
}

/// The rule of a `@match` line.
fn read_pattern(alloc: Global, s: &str) -> Result<Rule, RuleFault>
    requires { length s.now ≤ TEXT_LIMIT }
    ensures ok { IfOk result (ReadsPattern s.now) }
    ensures bad { IsErrOf result RuleFault.BadPattern → (r : Rule) → ReadsPattern s.now r → ⊥ }
    ensures others { IfErr result (λ e. (e ≡ RuleFault.BadPattern) ⊎ (e ≡ RuleFault.NoMemory)) }
{
    if s == "<all_urls>" {
        return Ok(Rule::AllUrls);
    }
    let Some((scheme, rest)) = s.split_once(':') else {
        return Err(RuleFault::BadPattern);
    };
    let Some(scheme) = scheme_rule(scheme) else {
        return Err(RuleFault::BadPattern);
    };
    let Some(rest) = after_slashes(rest) else {
        return Err(RuleFault::BadPattern);
    };
    let Some((host, _)) = rest.split_once('/') else {
        return Err(RuleFault::BadPattern);
    };
    let path = text_of(alloc, &rest[host.len()..])?;
    let host = host_rule(alloc, scheme, host)?;
    Ok(Rule::Match(MatchPattern { scheme, host, path }))
}

/// The rule that is the value `s` of a line of this kind, with at most 262,144 bytes.
///
/// `BadPattern` exactly where `s` is the value of a `@match` line and no match pattern. `PatternSyntax` only where the
/// grammar of `regex` has no reading of the expression or it nests too deep. The count of size refusals rises by one
/// exactly where the answer is `PatternTooBig`, which a `@match` line or a value that is no expression never has.
pub fn read_rule<P: Patterns>(
    alloc: Global,
    patterns: &mut P,
    kind: RuleKind,
    s: &str,
) -> Result<Rule, RuleFault>
    requires { length s.now ≤ TEXT_LIMIT }
    ensures ok { IfOk result (ReadsRule kind s.now) }
    ensures bad { IsErrOf result RuleFault.BadPattern → IsNoPattern kind s.now }
    ensures syntax { IsErrOf result RuleFault.PatternSyntax → IsNoExpression kind s.now }
    ensures too_big { IsErrOf result RuleFault.PatternTooBig
        → IsTooBig (P.refusals patterns.old) (P.refusals patterns.new) kind s.now }
    ensures count { P.refusals patterns.old ≤ P.refusals patterns.new }
    ensures exact { P.refusals patterns.new ≡ refused_by (P.refusals patterns.old) result }
    ensures unbuilt { kind ≡ RuleKind.Pattern → P.refusals patterns.new ≡ P.refusals patterns.old }
    ensures plain { ((middle : List ℕ) → IsExpression s.now middle → ⊥) → P.refusals patterns.new ≡ P.refusals patterns.old }
{
    match kind {
        RuleKind::Glob => read_glob(alloc, patterns, s),
        RuleKind::Pattern => read_pattern(alloc, s),
    }
}
