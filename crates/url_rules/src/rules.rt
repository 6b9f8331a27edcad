//! Rules, and which addresses they fit (Greasemonkey manual, Include and exclude rules; MDN, Match patterns).
ghost use Rattle.std.specs.Prelude.{◌≡◌, ◌↔◌, ◌⊎◌, ℕ, List, ◌∷◌, ◌++◌, IsTrue, IfOk};
ghost use Rattle.url_rules.specs.Rules.{RuleFits, MatchFits, SchemeFits, HostFits, IsWebOrFile, lowered};

use crate::address::{address_of, host_of, path_of};
use crate::globs::glob_fits;
use base_text::{Mem, Text};
use regex::Regex;
use std::alloc::Global;
use url::Url;

/// The scheme of a match pattern.
#[derive(Clone, Copy, Debug, PartialEq, Eq)]
pub enum SchemeRule {
    /// `*`.
    HttpOrHttps,
    /// `http`.
    Http,
    /// `https`.
    Https,
    /// `ftp`.
    Ftp,
    /// `file`.
    File,
}

/// The host of a match pattern.
#[derive(Drop)]
pub enum HostRule {
    /// `*`: any host, also none.
    Any,
    /// `*.name`: the name itself and every name below it, compared in ASCII lower case.
    Below(Text),
    /// A name, compared in ASCII lower case.
    Only(Text),
    /// No host, which stands with `file` alone.
    Empty,
}

/// A match pattern `scheme://host/path`.
#[derive(Drop)]
pub struct MatchPattern {
    /// The scheme.
    pub scheme: SchemeRule,
    /// The host, without a port.
    pub host: HostRule,
    /// A glob that begins with `/`, for the path, `?` and the query.
    pub path: Text,
}

/// A rule on addresses.
#[derive(Drop)]
pub enum Rule {
    /// A glob for the whole address.
    Glob(Text),
    /// A regular expression, found anywhere in the address.
    Regular(Regex),
    /// `<all_urls>`: every http, https, ftp and file address.
    AllUrls,
    /// Another match pattern.
    Match(MatchPattern),
}

/// Whether a rule fits an address, whose fragment is never looked at.
pub fn fits(alloc: Global, rule: &Rule, address: &Url) -> Mem<bool>
    ensures { IfOk result (λ b. IsTrue b ↔ RuleFits rule.now address.now) }
{
    match rule {
        Rule::Glob(pattern) => glob_fits(
            alloc,
            pattern.as_str().as_bytes(),
            address_of(address).as_bytes(),
        ),
        Rule::Regular(regex) => {
            let mut matcher = regex.matcher(alloc)?;
            Ok(matcher.is_match(address_of(address)))
        }
        Rule::AllUrls => Ok(is_web_or_file(address.scheme())),
        Rule::Match(pattern) => match_fits(alloc, pattern, address),
    }
}

fn is_web_or_file(scheme: &str) -> bool
    ensures { IsTrue result ↔ IsWebOrFile scheme.now }
{
    scheme == "http" || scheme == "https" || scheme == "ftp" || scheme == "file"
}

fn scheme_fits(rule: SchemeRule, scheme: &str) -> bool
    ensures { IsTrue result ↔ SchemeFits rule scheme.now }
{
    match rule {
        SchemeRule::HttpOrHttps => scheme == "http" || scheme == "https",
        SchemeRule::Http => scheme == "http",
        SchemeRule::Https => scheme == "https",
        SchemeRule::Ftp => scheme == "ftp",
        SchemeRule::File => scheme == "file",
    }
}

fn match_fits(alloc: Global, pattern: &MatchPattern, address: &Url) -> Mem<bool>
    ensures { IfOk result (λ b. IsTrue b ↔ MatchFits pattern.now address.now) }
{
    if !scheme_fits(pattern.scheme, address.scheme()) {
        return Ok(false);
    }
    if !host_fits(&pattern.host, host_of(address).as_bytes()) {
        return Ok(false);
    }
    glob_fits(
        alloc,
        pattern.path.as_str().as_bytes(),
        path_of(address).as_bytes(),
    )
}

fn host_fits(rule: &HostRule, host: &[u8]) -> bool
    ensures { IsTrue result ↔ HostFits rule.now host.now }
{
    match rule {
        HostRule::Any => true,
        HostRule::Below(name) => is_below(name.as_str().as_bytes(), host),
        HostRule::Only(name) => host.eq_ignore_ascii_case(name.as_str().as_bytes()),
        HostRule::Empty => host.is_empty(),
    }
}

fn is_below(name: &[u8], host: &[u8]) -> bool
    ensures { IsTrue result ↔ ((lowered host.now ≡ lowered name.now)
        ⊎ ((front : List ℕ) × (lowered host.now ≡ front ++ (46 ∷ lowered name.now)))) }
{
    if host.len() <= name.len() {
        return host.eq_ignore_ascii_case(name);
    }
    let at = host.len() - name.len();
    host[at - 1] == b'.' && host[at..].eq_ignore_ascii_case(name)
}
