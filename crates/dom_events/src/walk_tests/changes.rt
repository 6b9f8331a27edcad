//! Listeners that are added and removed while a walk goes, and events that are dispatched meanwhile.
use super::{Act, BODY, P, Row, first_wrong};
use door::{DOCUMENT, WINDOW};
use std::test::Fail;

#[test]
fn listeners_change_during_a_walk(rt: HostRuntime) -> Result<(), Fail> {
    let (one, two, up) = ((1, P, false), (2, P, false), (3, BODY, false));
    let rows: [Row; 16] = [
        // At this visit: one that was removed isn't called, also where it was added again.
        (P, true, &[one, two], &[(1, Act::Remove(two))], &[(1, 2, P)]),
        (
            P,
            true,
            &[one, two],
            &[(1, Act::Remove(two)), (1, Act::Add(two))],
            &[(1, 2, P)],
        ),
        (
            P,
            true,
            &[one, two],
            &[(1, Act::Remove(one))],
            &[(1, 2, P), (2, 2, P)],
        ),
        (
            P,
            true,
            &[one, two],
            &[(1, Act::Remove(one)), (1, Act::Add(one))],
            &[(1, 2, P), (2, 2, P)],
        ),
        (
            P,
            true,
            &[one, two],
            &[(2, Act::Remove(one)), (2, Act::Add(one))],
            &[(1, 2, P), (2, 2, P)],
        ),
        // One that is added at this visit isn't called at it.
        (P, true, &[one], &[(1, Act::Add(two))], &[(1, 2, P)]),
        (
            P,
            true,
            &[one, two],
            &[(1, Act::Add(two))],
            &[(1, 2, P), (2, 2, P)],
        ),
        // At a later visit what stands then is called.
        (P, true, &[one, up], &[(1, Act::Remove(up))], &[(1, 2, P)]),
        (
            P,
            true,
            &[one, up],
            &[(1, Act::Remove(up)), (1, Act::Add(up))],
            &[(1, 2, P), (3, 3, BODY)],
        ),
        (
            P,
            true,
            &[one],
            &[(1, Act::Add(up))],
            &[(1, 2, P), (3, 3, BODY)],
        ),
        (
            P,
            true,
            &[(4, P, true)],
            &[(4, Act::Add(two))],
            &[(4, 2, P), (2, 2, P)],
        ),
        (
            P,
            true,
            &[(4, WINDOW, true)],
            &[(4, Act::Add((5, DOCUMENT, true)))],
            &[(4, 1, WINDOW), (5, 1, DOCUMENT)],
        ),
        // A visit that is over doesn't come again.
        (
            P,
            true,
            &[one],
            &[(1, Act::Add((4, P, true))), (1, Act::Add((5, BODY, true)))],
            &[(1, 2, P)],
        ),
        // The event is busy; another one walks by itself.
        (
            P,
            true,
            &[one, up],
            &[(1, Act::Again), (3, Act::Again)],
            &[(1, 2, P), (3, 3, BODY)],
        ),
        (
            P,
            true,
            &[one, up],
            &[(1, Act::Other(BODY, 1, [(3, 2, BODY); 3]))],
            &[(1, 2, P), (3, 3, BODY)],
        ),
        (
            P,
            true,
            &[one, two, up],
            &[
                (1, Act::Stop),
                (1, Act::Other(P, 3, [(1, 2, P), (2, 2, P), (3, 3, BODY)])),
            ],
            &[(1, 2, P), (2, 2, P)],
        ),
    ];
    assert_eq!(rt; first_wrong(&rt, rt.alloc(), &rows)?, rows.len());
    Ok(())
}
