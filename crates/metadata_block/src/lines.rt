//! The block of a userscript as lines, and the pairs of key and value that its lines give.
ghost use Rattle.std.specs.Prelude.{◌≡◌, ◌≢◌, ◌↔◌, ℕ, List, [], ◌∷◌, IsTrue, MatchOption, Ok, Err, IfOk, IfErr, OnOk, encode_utf8_all, ◌+◌, ◌<◌, ◌≤◌, ◌^◌, length};
ghost use Rattle.std.specs.List.{All};
ghost use Rattle.std.specs.Str.Lines.{lines};
ghost use Rattle.base_text.specs.declared.text.TheConstants.{SOURCE_LIMIT};
ghost use Rattle.metadata_block.specs.Blanks.{StartsSolid, EndsSolid};
ghost use Rattle.metadata_block.specs.Lines.{IsMark, IsPair, IsStart, IsEnd, IsShort, IsSkipped, GivesPair, GivePairs, ReadsPairs};
ghost use Rattle.metadata_block.specs.LinesModel.{HoldsFirst, Pushes, texts};

use crate::blanks::{drop_blanks, skip_blanks, split_blank};
use base_text::{Mem, NoMemory, TEXT_LIMIT, Text};
use std::alloc::Global;

/// A line `// @key value`, with its number in the file, counted from 1.
#[derive(Debug, Drop)]
pub(crate) struct Pair {
    pub(crate) line: u32,
    pub(crate) key: Text,
    pub(crate) value: Text,
}

/// Why a text has no block.
#[derive(Clone, Copy, Debug, PartialEq, Eq)]
pub(crate) enum BlockFault {
    /// No line starts a block.
    NoBlock,
    /// No line after the first start ends the block.
    NoEnd,
    /// No memory was found.
    NoMemory,
}

impl From<NoMemory> for BlockFault {
    ghost use Rattle.std.specs.Prelude.{◌≡◌};
    ghost use Rattle.metadata_block.specs.declared.lines.BlockFault.TheVariants.{NoMemory};

    ghost from_gives = { λ _ e. e ≡ NoMemory };

    fn from(_error: NoMemory) -> BlockFault {
        BlockFault::NoMemory
    }
}

/// What follows two slashes.
fn after_slashes(s: &str) -> Option<&str>
    ensures { MatchOption result ((rest : List ℕ) → s.now ≡ 47 ∷ 47 ∷ rest → ⊥)
        (λ r. s.now ≡ 47 ∷ 47 ∷ r.now) }
{
    let Some(rest) = s.strip_prefix('/') else {
        return None;
    };
    rest.strip_prefix('/')
}

/// What follows an at sign.
fn after_at(s: &str) -> Option<&str>
    ensures { MatchOption result ((rest : List ℕ) → s.now ≡ 64 ∷ rest → ⊥)
        (λ r. s.now ≡ 64 ∷ r.now) }
{
    s.strip_prefix('@')
}

/// Whether a line reads `// word`.
fn is_mark(line: &str, word: &str) -> bool
    requires some { word.now ≢ [] }
    requires front { StartsSolid word.now }
    requires end { EndsSolid word.now }
    ensures { IsTrue result ↔ IsMark word.now line.now }
{
    match after_slashes(drop_blanks(skip_blanks(line))) {
        Some(rest) => skip_blanks(rest) == word,
        None => false,
    }
}

/// Whether a line reads `// ==UserScript==`.
pub(crate) fn is_start(line: &str) -> bool
    ensures { IsTrue result ↔ IsStart line.now }
{
    is_mark(line, "==UserScript==")
}

/// Whether a line reads `// ==/UserScript==`.
pub(crate) fn is_end(line: &str) -> bool
    ensures { IsTrue result ↔ IsEnd line.now }
{
    is_mark(line, "==/UserScript==")
}

/// The key and the value of a line that has them.
pub(crate) fn read_pair(line: &str) -> Option<(&str, &str)>
    ensures { MatchOption result ((key value : List ℕ) → IsPair line.now key value → ⊥)
        (λ p. IsPair line.now p.0.now p.1.now) }
{
    let Some(rest) = after_slashes(line) else {
        return None;
    };
    let Some(after) = after_at(skip_blanks(rest)) else {
        return None;
    };
    let (key, more) = split_blank(after);
    if key.is_empty() {
        return None;
    }
    Some((key, drop_blanks(skip_blanks(more))))
}

/// The place of the first line that starts a block.
fn first_start(lines: &[&str]) -> Option<usize>
    ensures { MatchOption result (All (λ line. IsStart line.now → ⊥) lines.now)
        (HoldsFirst IsStart lines.now) }
{
    for i in 0..lines.len() {
        if is_start(lines[i]) {
            return Some(i);
        }
    }
    None
}

/// The place of the first line that ends a block.
fn first_end(lines: &[&str]) -> Option<usize>
    ensures { MatchOption result (All (λ line. IsEnd line.now → ⊥) lines.now)
        (HoldsFirst IsEnd lines.now) }
{
    for i in 0..lines.len() {
        if is_end(lines[i]) {
            return Some(i);
        }
    }
    None
}

/// The pair of a line, if it has one that isn't too long.
fn pair_of(alloc: Global, line: &str, number: u32) -> Mem<Option<Pair>>
    ensures { IfOk result (λ p. MatchOption p (IsSkipped line.now) (GivesPair number line.now)) }
{
    let Some((key, value)) = read_pair(line) else {
        return Ok(None);
    };
    if key.len() > TEXT_LIMIT {
        return Ok(None);
    }
    if value.len() > TEXT_LIMIT {
        return Ok(None);
    }
    let key = text_of(alloc, key)?;
    let value = text_of(alloc, value)?;
    Ok(Some(Pair {
        line: number,
        key,
        value,
    }))
}

/// A text within the limit.
fn text_of(alloc: Global, s: &str) -> Mem<Text>
    requires { IsShort s.now }
    ensures { IfOk result (λ t. encode_utf8_all t ≡ s.now) }
{
    match Text::of(alloc, s) {
        Ok(text) => Ok(text),
        Err(_) => Err(NoMemory),
    }
}

/// The pairs of lines, the first of which has this number.
fn pairs_of(alloc: Global, lines: &[&str], number: u32) -> Mem<Vec<Pair>>
    requires { number + length lines.now < 2 ^ 32 }
    ensures { IfOk result (λ pairs. GivePairs number (texts lines.now) pairs.items) }
{
    let mut pairs = Vec::new(alloc);
    for i in 0..lines.len() {
        push_pair(alloc, lines[i], number + i as u32, &mut pairs)?;
    }
    Ok(pairs)
}

/// Adds the pair of a line, if it has one.
fn push_pair(alloc: Global, line: &str, number: u32, pairs: &mut Vec<Pair>) -> Mem<()>
    ensures { OnOk result (Pushes number line.now pairs.old.items pairs.new.items) }
{
    match pair_of(alloc, line, number)? {
        Some(pair) => pairs.push(pair)?,
        None => {}
    }
    Ok(())
}

/// The lines of a text: a CR before an LF is dropped with it.
fn lines_of<'a>(alloc: Global, s: &'a str) -> Mem<Vec<&'a str>>
    ensures exact { IfOk result (λ all. texts all.items ≡ lines s.now) }
    ensures count { IfOk result (λ all. length all.items ≤ length s.now + 1) }
{
    Ok(s.lines().collect(alloc)?)
}

/// The pairs of the block of a text.
pub(crate) fn read_pairs(alloc: Global, s: &str) -> Result<Vec<Pair>, BlockFault>
    requires { length s.now ≤ SOURCE_LIMIT }
    ensures ok { IfOk result (λ pairs. ReadsPairs s.now (Ok pairs.items)) }
    ensures err { IfErr result (λ e. ReadsPairs s.now (Err e)) }
{
    let lines = lines_of(alloc, s)?;
    let all = lines.as_slice();
    let Some(start) = first_start(all) else {
        return Err(BlockFault::NoBlock);
    };
    let after = &all[start + 1..];
    let Some(end) = first_end(after) else {
        return Err(BlockFault::NoEnd);
    };
    Ok(pairs_of(alloc, &after[..end], start as u32 + 2)?)
}
