//! Userscripts with what their block says, or with its first fault; and addresses that select them or don't.
//!
//! What a block says is spelled as name, namespace, moment, grants, includes, excludes, matches and other pairs, with `|` between two.
mod blocks;
mod limits;
mod lines;
mod selection;

use crate::{Meta, MetaFault, read_block};
use base_text::SOURCE_LIMIT;
use std::alloc::{AllocError, Global};
use std::process::Abort;
use std::test::Fail;
use url_rules::{RegexPatterns, Rule};

/// Reads a userscript, where the listed regular expressions are too big.
fn read(rt: &impl Abort, alloc: Global, text: &str, failing: Vec<u32>) -> Result<Meta, MetaFault> {
    assert!(rt; text.len() <= SOURCE_LIMIT);
    read_block(alloc, &mut RegexPatterns::new(failing), text)
}

/// A block with these lines, of which the first is line 2.
fn block(alloc: Global, lines: &str) -> Result<String, AllocError> {
    let mut text = String::new(alloc);
    text.push_str("// ==UserScript==\n")?;
    text.push_str(lines)?;
    text.push_str("\n// ==/UserScript==\n")?;
    Ok(text)
}

/// A rule as a table spells it.
fn rule_text(rule: &Rule) -> &str {
    match rule {
        Rule::Glob(text) => text.as_str(),
        Rule::Regular(_) => "REGEX",
        Rule::AllUrls => "ALL",
        Rule::Match(_) => "MATCH",
    }
}

/// Adds `|` and the rules, with a blank between two.
fn push_rules(out: &mut String, rules: &[Rule]) -> Result<(), AllocError> {
    out.push_str("|")?;
    for rule in rules {
        out.push_str(rule_text(rule))?;
        out.push_str(" ")?;
    }
    Ok(())
}

/// Adds `|` and the pairs that are kept.
fn push_others(out: &mut String, meta: &Meta) -> Result<(), AllocError> {
    out.push_str("|")?;
    for pair in meta.others.as_slice() {
        out.push_str(pair.0.as_str())?;
        out.push_str("=")?;
        out.push_str(pair.1.as_str())?;
        out.push_str(" ")?;
    }
    Ok(())
}

/// What a block says, as a table spells it.
fn meta_text(alloc: Global, meta: &Meta) -> Result<String, Fail> {
    let mut out = String::new(alloc);
    out.push_str(meta.name.as_str())?;
    out.push_str("|")?;
    out.push_str(meta.namespace.as_str())?;
    let run_at = format!(in alloc; "|{:?}|", meta.run_at)?;
    out.push_str(run_at.as_str())?;
    for grant in meta.grants.as_slice() {
        let grant = format!(in alloc; "{:?} ", *grant)?;
        out.push_str(grant.as_str())?;
    }
    push_rules(&mut out, meta.includes.as_slice())?;
    push_rules(&mut out, meta.excludes.as_slice())?;
    push_rules(&mut out, meta.matches.as_slice())?;
    push_others(&mut out, meta)?;
    Ok(out)
}

/// What the block of a userscript says, or its fault, as a table spells it.
fn answer(rt: &impl Abort, alloc: Global, text: &str) -> Result<String, Fail> {
    match read(rt, alloc, text, Vec::new(alloc)) {
        Ok(meta) => meta_text(alloc, &meta),
        Err(fault) => Ok(format!(in alloc; "{fault:?}")?),
    }
}
