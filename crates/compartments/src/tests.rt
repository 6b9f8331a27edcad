//! What no clause says: that actors are made while there is memory. The looks are those of Xray vision, row by row.
use crate::*;
use base_text::{NoMemory, Text};
use door::{Actor, HOST, Look, Texts, USERSCRIPT_LIMIT};
use std::alloc::Global;
use std::process::Abort;
use std::test::Fail;

/// One that acts for the page, as it was made.
fn origin(alloc: Global, address: &str) -> Result<Principal, Fail> {
    Ok(Principal::Origin(Text::of(alloc, address)?))
}

fn expanded(alloc: Global, addresses: &[&str]) -> Result<Principal, Fail> {
    let mut origins = Texts::new(alloc);
    for address in addresses {
        origins.push(Text::of(alloc, address)?)?;
    }
    Ok(Principal::Expanded(origins))
}

fn add(
    rt: &impl Abort,
    all: &mut Compartments,
    zone: Zone,
    principal: Principal,
) -> Result<Actor, NoMemory> {
    assert!(rt; (all.count() as usize) <= USERSCRIPT_LIMIT);
    all.add(zone, principal)
}

/// The page and four userscripts, two of each zone.
fn actors(rt: &(impl Abort + AllocGlobal)) -> Result<Compartments, Fail> {
    let alloc = rt.alloc();
    let mut all = Compartments::new(alloc);
    let zones = [
        Zone::Page,
        Zone::XrayScript,
        Zone::PlainScript,
        Zone::XrayScript,
        Zone::PlainScript,
    ];
    for (at, zone) in zones.iter().enumerate() {
        let actor = add(rt, &mut all, *zone, origin(alloc, "http://a.example")?)?;
        assert_eq!(rt; actor.0 as usize, at + 1);
    }
    Ok(all)
}

/// The letter of a look in the table.
fn letter(look: Look) -> char {
    match look {
        Look::Own => 'O',
        Look::Xray => 'X',
        Look::Transparent => 'T',
        Look::Denied => '-',
        Look::Waived => 'W',
    }
}

#[test]
fn each_actor_sees_each_by_the_table_of_looks(rt: HostRuntime) -> Result<(), Fail> {
    let all = actors(&rt)?;
    // The readers from above: the host, the page, two userscripts with Xrays and without, and two more; the owners
    // likewise from the left.
    let table = ["O-----", "-O-T-T", "-XO---", "-T-O--", "-X--O-", "-T---O"];
    for (reader, row) in table.iter().enumerate() {
        for (owner, look) in row.chars().enumerate() {
            let zones = (
                all.zone(Actor(reader as u32)),
                all.zone(Actor(owner as u32)),
            );
            let seen = match zones {
                (Some(a), Some(b)) => letter(policy(a, b, reader == owner)),
                _ => '?',
            };
            assert_eq!(rt; seen, look, "{reader} at {owner}");
        }
    }
    Ok(())
}

#[test]
fn actors_are_made_up_to_the_limit(rt: HostRuntime) -> Result<(), Fail> {
    let mut all = Compartments::new(rt.alloc());
    assert!(rt; all.zone(HOST) == Some(Zone::Host) && all.principal(HOST).is_none());
    for number in 1..10u32 {
        assert_eq!(rt; all.count(), number - 1);
        assert!(rt; all.zone(Actor(number)).is_none());
        let actor = add(&rt, &mut all, Zone::XrayScript, Principal::Null(number))?;
        assert!(rt; actor == Actor(number) && all.zone(actor) == Some(Zone::XrayScript));
        assert!(rt; all.principal(actor) == Some(&Principal::Null(number)));
    }
    assert_eq!(rt; all.count() as usize, USERSCRIPT_LIMIT + 1);
    Ok(())
}

/// Whether one of these principals has all rights of another, by their places.
fn has_rights(all: &[Principal], p: usize, q: usize) -> Option<bool> {
    Some(subsumes(all.get(p)?, all.get(q)?))
}

#[test]
fn principals_have_the_rights_of_others(rt: HostRuntime) -> Result<(), Fail> {
    let alloc = rt.alloc();
    let all = [
        origin(alloc, "http://a.example")?,
        origin(alloc, "http://b.example")?,
        expanded(alloc, &[])?,
        expanded(alloc, &["http://a.example"])?,
        expanded(alloc, &["http://b.example", "http://a.example"])?,
        Principal::Null(0),
        Principal::Null(1),
    ];
    // Whether the one of the row has all rights of the one of the column.
    let table = [
        "y------", "-y-----", "--y----", "y-yy---", "yyyyy--", "-----y-", "------y",
    ];
    for (p, row) in table.iter().enumerate() {
        for (q, has) in row.chars().enumerate() {
            assert_eq!(rt; has_rights(&all, p, q), Some(has == 'y'), "{p} and {q}");
        }
    }
    Ok(())
}
