//! Globs, matched in time linear in the pattern times the text.
ghost use Rattle.std.specs.Prelude.{◌≡◌, ◌==◌, ◌&&◌, slice_index, false, ◌↔◌, ◌+◌, ◌<◌, ◌^◌, ℕ, List, length, IsTrue, IfOk};
ghost use Rattle.url_rules.specs.GlobModel.{flag, any_from};
ghost use Rattle.url_rules.specs.Globs.{GlobFits};

use base_text::Mem;
use std::alloc::Global;

/// Whether the pattern fits the whole text.
pub(crate) fn glob_fits(alloc: Global, pattern: &[u8], text: &[u8]) -> Mem<bool>
    ensures { IfOk result (λ fits. IsTrue fits ↔ GlobFits pattern.now text.now) }
{
    let mut row = vec![in alloc; false; text.len() + 1]?;
    Ok(glob_over(row.as_mut_slice(), pattern, text))
}

/// The same, over a row with a flag for each place of the text and its end.
fn glob_over(row: &mut [bool], pattern: &[u8], text: &[u8]) -> bool
    requires len { length row.old ≡ length text.now + 1 }
    requires none { (k : ℕ) → flag row.old k ≡ false }
    ensures { IsTrue result ↔ GlobFits pattern.now text.now }
{
    row[text.len()] = true;
    let mut left = pattern.len();
    while left > 0 {
        left -= 1;
        if pattern[left] == b'*' {
            star_row(row);
        } else {
            char_row(row, text, pattern[left]);
        }
    }
    row[0]
}

/// At each place whether a place from there on was set.
fn star_row(row: &mut [bool])
    ensures len { length row.new ≡ length row.old }
    ensures flags { (k : ℕ) → k < length row.old → flag row.new k ≡ any_from row.old k }
{
    let mut left = row.len();
    let mut any = false;
    while left > 0 {
        left -= 1;
        any = row[left] | any;
        row[left] = any;
    }
}

/// At each place whether the text has `byte` there and the next place was set.
fn char_row(row: &mut [bool], text: &[u8], byte: u8)
    requires { length row.old ≡ length text.now + 1 }
    ensures len { length row.new ≡ length row.old }
    ensures flags { (k : ℕ) → k < length text.now
        → flag row.new k ≡ (slice_index text.now k == byte && flag row.old (k + 1)) }
    ensures last { flag row.new (length text.now) ≡ false }
{
    for i in 0..text.len() {
        row[i] = text[i] == byte && row[i + 1];
    }
    row[text.len()] = false;
}
