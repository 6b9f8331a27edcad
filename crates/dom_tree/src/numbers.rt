//! Numbers of nodes in order, with one more or one less among them.

ghost use Rattle.std.specs.Prelude.{◌≡◌, ◌<◌, ◌≤◌, ℕ, true, length, insert, slice_get, IsOk, OnOk, OnErr, position, nat_eq, vec_len, vec_capacity};
ghost use Rattle.dom_semantics.specs.Forest.{is_among, after_in};
ghost use Rattle.dom_semantics.specs.Changes.{without, placed, before_child};

use base_text::Mem;

/// Takes a number out.
pub fn take_out(numbers: &mut Vec<u32>, n: u32)
    ensures items { numbers.new.items ≡ without n numbers.old.items }
    ensures capacity { vec_capacity numbers.new ≡ vec_capacity numbers.old }
{
    numbers.retain(|m| n != *m);
}

/// Puts a number before another, or last where none is named or it isn't there.
pub fn put(numbers: &mut Vec<u32>, n: u32, before: Option<u32>) -> Mem<()>
    ensures ok { OnOk result (numbers.new.items ≡ placed n before numbers.old.items) }
    ensures err { OnErr result (numbers.new.items ≡ numbers.old.items) }
    ensures succeeds { vec_len numbers.old < vec_capacity numbers.old → IsOk result }
{
    let at = place_before(numbers, before);
    numbers.insert(at, n)?;
    Ok(())
}

/// Moves a number that is there before another, or to the end. It takes no memory.
pub fn shift(numbers: &mut Vec<u32>, n: u32, before: Option<u32>)
    requires { is_among n numbers.old.items ≡ true }
    ensures { numbers.new.items ≡ placed n before (without n numbers.old.items) }
{
    take_out(numbers, n);
    // there is room, since one was taken out
    if put(numbers, n, before).is_err() {
        take_out(numbers, n);
    }
}

/// Where a number is put in to stand before another, or last.
fn place_before(numbers: &[u32], before: Option<u32>) -> usize
    ensures placed { (n : ℕ) → placed n before numbers.now ≡ insert numbers.now result n }
    ensures within { result ≤ length numbers.now }
{
    match before {
        Some(other) => place_or_end(numbers, other),
        None => numbers.len(),
    }
}

fn place_or_end(numbers: &[u32], other: u32) -> usize
    ensures placed { (n : ℕ) → before_child n other numbers.now ≡ insert numbers.now result n }
    ensures within { result ≤ length numbers.now }
{
    match place_of(numbers, other) {
        Some(at) => at,
        None => numbers.len(),
    }
}

fn place_of(numbers: &[u32], n: u32) -> Option<usize>
    ensures { result ≡ position (nat_eq n) numbers.now }
{
    numbers.iter().position(|m| n == *m)
}

/// Whether a number is among these.
pub fn has_number(numbers: &[u32], n: u32) -> bool
    ensures { result ≡ is_among n numbers.now }
{
    numbers.iter().any(|m| n == *m)
}

/// What stands after a number among these.
pub fn number_after(numbers: &[u32], n: u32) -> Option<u32>
    ensures { result ≡ after_in n numbers.now }
{
    let at = place_of(numbers, n)?;
    number_at(numbers, at + 1)
}

fn number_at(numbers: &[u32], at: usize) -> Option<u32>
    ensures { result ≡ slice_get numbers.now at }
{
    numbers.get(at).copied()
}
