//! How many nodes each actor has made, so that its limit is known without going through the nodes.

ghost use Rattle.std.specs.Prelude.{◌≡◌, ◌<◌, ◌≤◌, ◌^◌, ◌+◌, ℕ, true, OnOk, OnErr, IsTrue, length, position, nat_eq, if◌then◌else◌};
ghost use Rattle.door.specs.declared.values.Actor.{Actor as AnyActor};
ghost use Rattle.dom_tree.specs.Counts.{count_in, has_count, is_of, IsRaised};

use base_text::Mem;
use door::Actor;

/// The count beside a maker, and 0 where it has none.
pub fn count_of(counts: &[(Actor, u32)], maker: Actor) -> u32
    ensures { result ≡ count_in counts.now maker }
{
    match place_of(counts, maker) {
        Some(at) => counts[at].1,
        None => 0,
    }
}

/// Gives a maker a count of 0 if it has none, so that the count can be raised without memory.
pub fn make_room(counts: &mut Vec<(Actor, u32)>, maker: Actor) -> Mem<()>
    ensures ok { OnOk result (has_count counts.new.items maker ≡ true) }
    ensures same { (other : AnyActor) → count_in counts.new.items other ≡ count_in counts.old.items other }
{
    if place_of(counts, maker).is_none() {
        counts.push((maker, 0))?;
    }
    Ok(())
}

/// Raises the count of a maker.
pub fn raise(counts: &mut Vec<(Actor, u32)>, maker: Actor, more: u32)
    requires there { has_count counts.old.items maker ≡ true }
    requires room { count_in counts.old.items maker + more < 2 ^ 32 }
    ensures { IsRaised counts.old.items counts.new.items maker more }
{
    if let Some(at) = place_of(counts, maker) {
        counts[at].1 += more;
    }
}

fn place_of(counts: &[(Actor, u32)], maker: Actor) -> Option<usize>
    ensures { result ≡ position (is_of maker) counts.now }
{
    counts.iter().position(|(actor, _)| *actor == maker)
}
