//! What a metadata block says, line after line, and its first fault.
ghost use Rattle.std.specs.Prelude.{◌≡◌, ◌≢◌, ◌⊎◌, ℕ, List, [], ◌∷◌, ◌++◌, ◌≤◌, ◌↔◌, length, encode_utf8_all, IsTrue, IfOk, IfErr, OnOk, Ok, Err};
ghost use Rattle.std.specs.List.{All};
ghost use Rattle.base_text.specs.declared.text.TheConstants.{SOURCE_LIMIT};
ghost use Rattle.metadata_block.specs.Block.{Agrees, IsBadGrant, Sets, Takes, TakesAll, Refuses, FailsAt, Fails, KeepsCount, nothing, ReadsBlock, FailsBlock};
ghost use Rattle.metadata_block.specs.BlockModel.{AgreesFirst, AreAlike, rule_fault};
ghost use Rattle.metadata_block.specs.Lines.{IsShort, ReadsPairs};
ghost use Rattle.url_rules.specs.Reads.{ReadsRule, IsRefused};

use crate::lines::{BlockFault, Pair, read_pairs};
use crate::meta::{Grant, Meta, RunAt};
use crate::words::{Key, grant_of, key_of, run_at_of};
use base_text::{Mem, NoMemory, Text};
use door::List;
use std::alloc::Global;
use url_rules::{Patterns, Rule, RuleFault, RuleKind, read_rule};

/// Why the block of a userscript isn't taken. Lines are counted from 1 over the file.
#[derive(Clone, Copy, Debug, PartialEq, Eq)]
pub enum MetaFault {
    /// No line starts a block.
    NoBlock,
    /// No line after the first start ends the block.
    NoEnd,
    /// The script has no name, or an empty one.
    NoName,
    /// The `@run-at` line with this number names no moment.
    BadRunAt(u32),
    /// The `@grant` line with this number names no grant, or puts `none` together with another one.
    BadGrant(u32),
    /// The `@include`, `@exclude` or `@match` line with this number has a value that is refused.
    BadRule(u32),
    /// No memory was found.
    NoMemory,
}

impl From<NoMemory> for MetaFault {
    ghost use Rattle.std.specs.Prelude.{◌≡◌};
    ghost use Rattle.metadata_block.specs.declared.block.MetaFault.TheVariants.{NoMemory};

    ghost from_gives = { λ _ e. e ≡ NoMemory };

    fn from(_error: NoMemory) -> MetaFault {
        MetaFault::NoMemory
    }
}

/// Whether the grant may stand beside the first of those.
fn agrees_first(grants: &[Grant], grant: Grant) -> bool
    ensures { IsTrue result ↔ AgreesFirst grants.now grant }
{
    match grants.first() {
        None => true,
        Some(first) => (*first == Grant::NoGrant) == (grant == Grant::NoGrant),
    }
}

/// Whether the grant may stand beside those, which may stand beside one another.
fn agrees(grants: &[Grant], grant: Grant) -> bool
    requires { AreAlike grants.now }
    ensures { IsTrue result ↔ Agrees grants.now grant }
{
    agrees_first(grants, grant)
}

/// Takes a `@grant` line.
fn take_grant(pair: &Pair, meta: &mut Meta) -> Result<(), MetaFault>
    requires { AreAlike meta.now.grants }
    ensures ok { OnOk result (Sets Key.Grant pair.now.value meta.old meta.new) }
    ensures err { IfErr result (λ f. (f ≡ MetaFault.NoMemory)
        ⊎ ((f ≡ MetaFault.BadGrant pair.now.line)
        × IsBadGrant meta.old.grants pair.now.value)) }
{
    let Some(grant) = grant_of(pair.value.as_str()) else {
        return Err(MetaFault::BadGrant(pair.line));
    };
    if !agrees(meta.grants.as_slice(), grant) {
        return Err(MetaFault::BadGrant(pair.line));
    }
    meta.grants.push(grant)?;
    Ok(())
}

/// Takes a `@run-at` line.
fn take_run_at(pair: &Pair, meta: &mut Meta) -> Result<(), MetaFault>
    ensures ok { OnOk result (Sets Key.RunAt pair.now.value meta.old meta.new) }
    ensures err { IfErr result (λ f. Refuses Key.RunAt 0 0 meta.old pair.now f) }
{
    let Some(run_at) = run_at_of(pair.value.as_str()) else {
        return Err(MetaFault::BadRunAt(pair.line));
    };
    meta.run_at = run_at;
    Ok(())
}

/// The fault of a line with this number whose rule is refused.
fn fault_of(fault: RuleFault, line: u32) -> MetaFault
    ensures { result ≡ rule_fault fault line }
{
    match fault {
        RuleFault::NoMemory => MetaFault::NoMemory,
        _ => MetaFault::BadRule(line),
    }
}

/// The rule of a line.
fn rule_of<P: Patterns>(
    alloc: Global,
    patterns: &mut P,
    kind: RuleKind,
    pair: &Pair,
) -> Result<Rule, MetaFault>
    requires { IsShort (encode_utf8_all pair.now.value) }
    ensures ok { IfOk result (ReadsRule kind (encode_utf8_all pair.now.value)) }
    ensures err { IfErr result (λ f. (f ≡ MetaFault.NoMemory)
        ⊎ ((f ≡ MetaFault.BadRule pair.now.line) × IsRefused (P.refusals patterns.old)
        (P.refusals patterns.new) kind (encode_utf8_all pair.now.value))) }
    ensures count { P.refusals patterns.old ≤ P.refusals patterns.new }
    ensures same { OnOk result (P.refusals patterns.new ≡ P.refusals patterns.old) }
    ensures kept { IfErr result (KeepsCount (P.refusals patterns.old) (P.refusals patterns.new)) }
{
    match read_rule(alloc, patterns, kind, pair.value.as_str()) {
        Ok(rule) => Ok(rule),
        Err(fault) => Err(fault_of(fault, pair.line)),
    }
}

/// Takes a line with a key that is used.
fn take_known<P: Patterns>(
    alloc: Global,
    patterns: &mut P,
    key: Key,
    pair: &Pair,
    meta: &mut Meta,
) -> Result<(), MetaFault>
    requires value { IsShort (encode_utf8_all pair.now.value) }
    requires alike { AreAlike meta.now.grants }
    ensures ok { OnOk result (Sets key pair.now.value meta.old meta.new) }
    ensures err { IfErr result (λ f. (f ≡ MetaFault.NoMemory) ⊎ Refuses key
        (P.refusals patterns.old) (P.refusals patterns.new) meta.old pair.now f) }
    ensures count { P.refusals patterns.old ≤ P.refusals patterns.new }
    ensures same { OnOk result (P.refusals patterns.new ≡ P.refusals patterns.old) }
    ensures kept { IfErr result (KeepsCount (P.refusals patterns.old) (P.refusals patterns.new)) }
{
    match key {
        Key::Name => {
            meta.name = pair.value.share()?;
            Ok(())
        }
        Key::Namespace => {
            meta.namespace = pair.value.share()?;
            Ok(())
        }
        Key::RunAt => take_run_at(pair, meta),
        Key::Grant => take_grant(pair, meta),
        Key::Include => {
            let rule = rule_of(alloc, patterns, RuleKind::Glob, pair)?;
            Ok(meta.includes.push(rule)?)
        }
        Key::Exclude => {
            let rule = rule_of(alloc, patterns, RuleKind::Glob, pair)?;
            Ok(meta.excludes.push(rule)?)
        }
        Key::Match => {
            let rule = rule_of(alloc, patterns, RuleKind::Pattern, pair)?;
            Ok(meta.matches.push(rule)?)
        }
    }
}

/// Keeps a line with another key.
fn keep(pair: &Pair, meta: &mut Meta) -> Mem<()>
    ensures { OnOk result (meta.new ≡ record meta.old {
      others = meta.old.others
          ++ (pair.now.key, pair.now.value) ∷ [];
    }) }
{
    let key = pair.key.share()?;
    let value = pair.value.share()?;
    meta.others.push((key, value))
}

/// Takes a line.
fn take_pair<P: Patterns>(
    alloc: Global,
    patterns: &mut P,
    pair: &Pair,
    meta: &mut Meta,
) -> Result<(), MetaFault>
    requires value { IsShort (encode_utf8_all pair.now.value) }
    requires alike { AreAlike meta.now.grants }
    ensures ok { OnOk result (Takes meta.old pair.now meta.new) }
    ensures err { IfErr result (λ f. (f ≡ MetaFault.NoMemory) ⊎ FailsAt
        (P.refusals patterns.old) (P.refusals patterns.new) meta.old pair.now f) }
    ensures count { P.refusals patterns.old ≤ P.refusals patterns.new }
    ensures same { OnOk result (P.refusals patterns.new ≡ P.refusals patterns.old) }
    ensures kept { IfErr result (KeepsCount (P.refusals patterns.old) (P.refusals patterns.new)) }
{
    match key_of(pair.key.as_str()) {
        Some(key) => take_known(alloc, patterns, key, pair, meta),
        None => Ok(keep(pair, meta)?),
    }
}

/// Takes lines one after another.
fn take_pairs<P: Patterns>(
    alloc: Global,
    patterns: &mut P,
    pairs: &[Pair],
    meta: &mut Meta,
) -> Result<(), MetaFault>
    requires values { All (λ p. IsShort (encode_utf8_all p.value)) pairs.now }
    requires alike { AreAlike meta.now.grants }
    ensures ok { OnOk result (TakesAll pairs.now meta.old meta.new) }
    ensures err { IfErr result (λ f. (f ≡ MetaFault.NoMemory) ⊎ Fails
        (P.refusals patterns.old) (P.refusals patterns.new) pairs.now meta.old f) }
    ensures count { P.refusals patterns.old ≤ P.refusals patterns.new }
    ensures same { OnOk result (P.refusals patterns.new ≡ P.refusals patterns.old) }
    ensures kept { IfErr result (KeepsCount (P.refusals patterns.old) (P.refusals patterns.new)) }
{
    for pair in pairs {
        take_pair(alloc, patterns, pair, meta)?;
    }
    Ok(())
}

/// What stands before the first line.
fn empty(alloc: Global) -> Mem<Meta>
    ensures { IfOk result (λ meta. meta ≡ nothing) }
{
    let name = empty_text(alloc)?;
    let namespace = empty_text(alloc)?;
    Ok(Meta {
        name,
        namespace,
        run_at: RunAt::End,
        grants: List::new(alloc),
        includes: List::new(alloc),
        excludes: List::new(alloc),
        matches: List::new(alloc),
        others: List::new(alloc),
    })
}

fn empty_text(alloc: Global) -> Mem<Text>
    ensures { IfOk result (λ t. t ≡ []) }
{
    match Text::of(alloc, "") {
        Ok(text) => Ok(text),
        Err(_) => Err(NoMemory),
    }
}

/// What the block of the userscript `s` says, where `s` has at most 1,048,576 bytes.
///
/// `NoBlock` and `NoEnd` exactly where no line starts the block, or none after that ends it. Else `BadRunAt`, `BadGrant`
/// or `BadRule` with the first line that is refused, the last only where [`read_rule`] refuses its value. Else
/// `NoName`. The count of regular expressions that were too big is as before, but for `BadRule`, where it rises by one
/// if the value was refused for its size.
pub fn read_block<P: Patterns>(alloc: Global, patterns: &mut P, s: &str) -> Result<Meta, MetaFault>
    requires { length s.now ≤ SOURCE_LIMIT }
    ensures ok { IfOk result (ReadsBlock s.now) }
    ensures err { IfErr result (FailsBlock (P.refusals patterns.old) (P.refusals patterns.new) s.now) }
    ensures count { P.refusals patterns.old ≤ P.refusals patterns.new }
    ensures same { OnOk result (P.refusals patterns.new ≡ P.refusals patterns.old) }
    ensures kept { IfErr result (KeepsCount (P.refusals patterns.old) (P.refusals patterns.new)) }
{
    let pairs = match read_pairs(alloc, s) {
        Ok(pairs) => pairs,
        Err(BlockFault::NoBlock) => return Err(MetaFault::NoBlock),
        Err(BlockFault::NoEnd) => return Err(MetaFault::NoEnd),
        Err(BlockFault::NoMemory) => return Err(MetaFault::NoMemory),
    };
    let mut meta = empty(alloc)?;
    take_pairs(alloc, patterns, pairs.as_slice(), &mut meta)?;
    if meta.name.count() == 0 {
        return Err(MetaFault::NoName);
    }
    Ok(meta)
}
