//! The way from a node to its root.

ghost use Rattle.std.specs.Prelude.{◌≡◌, ◌<◌, ◌≤◌, ◌∷◌, length};
ghost use Rattle.dom_semantics.specs.Forest.{is_among};
ghost use Rattle.dom_tree.specs.Ancestors.{up_by, AreKnown};

/// How many steps a node is below its root, counted up to a limit.
pub fn steps_up(parents: &[Option<u32>], n: u32, limit: u32) -> u32
    requires known { AreKnown parents.now }
    requires row { n < length parents.now }
    ensures exact { result ≡ length (up_by limit parents.now n) }
    ensures within { result ≤ limit }
{
    if limit == 0 {
        return 0;
    }
    match parents[n as usize] {
        Some(parent) => steps_up(parents, parent, limit - 1) + 1,
        None => 0,
    }
}

/// Whether `a` is `n` or one of so many nodes above it.
pub fn is_above(parents: &[Option<u32>], a: u32, n: u32, limit: u32) -> bool
    requires known { AreKnown parents.now }
    requires row { n < length parents.now }
    ensures { result ≡ is_among a (n ∷ up_by limit parents.now n) }
{
    if a == n {
        return true;
    }
    if limit == 0 {
        return false;
    }
    match parents[n as usize] {
        Some(parent) => is_above(parents, a, parent, limit - 1),
        None => false,
    }
}
