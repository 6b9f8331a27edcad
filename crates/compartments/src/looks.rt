//! How an actor of one zone sees what an actor of another owns.

ghost use Rattle.std.specs.Prelude.{◌≡◌, List, ℕ, false};
ghost use Rattle.door.specs.Looks.{look_of};
ghost use Rattle.compartments.specs.Principals.{FollowsRights, page_principal, script_principal};

use door::{Look, Zone};

/// How a reader sees what an owner owns, by their zones and by whether the two are one actor: the table of looks. It is
/// never Waived, and it takes no memory.
pub fn policy(reader: Zone, target: Zone, same_actor: bool) -> Look
    ensures { result ≡ look_of reader target same_actor }
{
    if same_actor {
        return Look::Own;
    }
    match (reader, target) {
        (Zone::XrayScript, Zone::Page) => Look::Xray,
        (Zone::PlainScript, Zone::Page) => Look::Transparent,
        (Zone::Page, Zone::PlainScript) => Look::Transparent,
        _ => Look::Denied,
    }
}

/// The law that between the page and a userscript looks follow the order of their principals, whatever the origin of the
/// page: who has all rights of the other and more sees it through an Xray, who has the same sees it as it is, and who has
/// fewer doesn't see it.
pub fn looks_follow_rights()
    ensures xray { (o : List ℕ) → FollowsRights (script_principal o) (page_principal o) (look_of Zone.XrayScript Zone.Page false) }
    ensures hidden { (o : List ℕ) → FollowsRights (page_principal o) (script_principal o) (look_of Zone.Page Zone.XrayScript false) }
    ensures same { (o : List ℕ) → FollowsRights (page_principal o) (page_principal o) (look_of Zone.PlainScript Zone.Page false) }
    ensures shown { (o : List ℕ) → FollowsRights (page_principal o) (page_principal o) (look_of Zone.Page Zone.PlainScript false) }
{}
