//! Principals: on whose behalf an actor acts, and which of two has the rights of the other.

ghost use Rattle.std.specs.Prelude.{◌↔◌, IsTrue, Contains, All};
ghost use Rattle.compartments.specs.Principals.{Subsumes};
ghost use Rattle.compartments.specs.declared.principals.Principal.{Principal as AnyPrincipal};

use base_text::Text;
use door::Texts;

/// On whose behalf an actor acts (MDN, Script security).
#[derive(Debug, Drop, PartialEq, Eq)]
pub enum Principal {
    /// That of an origin.
    Origin(Text),
    /// That of an extension, which has the rights of each of these origins.
    Expanded(Texts),
    /// That of nobody else; two are told apart by their numbers.
    Null(u32),
}

/// Whether `p` has all rights that `q` has: an origin those of itself, an expanded principal those of each of its
/// origins and of each expanded one whose origins it all has, and a null principal those of itself. It takes no memory.
pub fn subsumes(p: &Principal, q: &Principal) -> bool
    ensures { IsTrue result ↔ Subsumes p.now q.now }
{
    match p {
        Principal::Origin(origin) => is_origin(origin, q),
        Principal::Expanded(origins) => is_within(origins, q),
        Principal::Null(number) => is_null(*number, q),
    }
}

fn is_origin(origin: &Text, q: &Principal) -> bool
    ensures { IsTrue result ↔ Subsumes (AnyPrincipal.Origin origin.now) q.now }
{
    match q {
        Principal::Origin(other) => origin == other,
        Principal::Expanded(_) => false,
        Principal::Null(_) => false,
    }
}

fn is_within(origins: &Texts, q: &Principal) -> bool
    ensures { IsTrue result ↔ Subsumes (AnyPrincipal.Expanded origins.now) q.now }
{
    match q {
        Principal::Origin(origin) => contains(origins.as_slice(), origin),
        Principal::Expanded(others) => contains_all(origins.as_slice(), others.as_slice()),
        Principal::Null(_) => false,
    }
}

fn is_null(number: u32, q: &Principal) -> bool
    ensures { IsTrue result ↔ Subsumes (AnyPrincipal.Null number) q.now }
{
    match q {
        Principal::Origin(_) => false,
        Principal::Expanded(_) => false,
        Principal::Null(other) => number == *other,
    }
}

fn contains(origins: &[Text], origin: &Text) -> bool
    ensures { IsTrue result ↔ Contains origins.now origin.now }
{
    origins.iter().any(|o| o == origin)
}

fn contains_all(origins: &[Text], others: &[Text]) -> bool
    ensures { IsTrue result ↔ All (Contains origins.now) others.now }
{
    for o in others {
        if !contains(origins, o) {
            return false;
        }
    }
    true
}

/// The law that principals are in an order: each has its own rights, and what has the rights of a second has those of
/// each whose rights the second has.
pub fn principals_are_ordered()
    ensures reflexive { (p : AnyPrincipal) → Subsumes p p }
    ensures transitive { (p q r : AnyPrincipal) → Subsumes p q → Subsumes q r → Subsumes p r }
{}
