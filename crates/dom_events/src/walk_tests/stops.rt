//! What the flags Stop and StopNow end.
use super::{Act, BODY, HTML, P, Row, first_wrong};
use door::{DOCUMENT, WINDOW};
use std::test::Fail;

#[test]
fn walks_are_stopped(rt: HostRuntime) -> Result<(), Fail> {
    let two = [(1, P, false), (2, P, false), (3, BODY, false)];
    let rows: [Row; 12] = [
        // The visit goes on, and no other comes.
        (P, true, &two, &[(1, Act::Stop)], &[(1, 2, P), (2, 2, P)]),
        (P, true, &two, &[(2, Act::Stop)], &[(1, 2, P), (2, 2, P)]),
        (
            P,
            true,
            &two,
            &[(3, Act::Stop)],
            &[(1, 2, P), (2, 2, P), (3, 3, BODY)],
        ),
        (
            P,
            true,
            &[
                (1, WINDOW, true),
                (2, WINDOW, true),
                (3, DOCUMENT, true),
                (4, P, false),
            ],
            &[(1, Act::Stop)],
            &[(1, 1, WINDOW), (2, 1, WINDOW)],
        ),
        (
            P,
            true,
            &[(1, P, true), (2, P, false)],
            &[(1, Act::Stop)],
            &[(1, 2, P)],
        ),
        (
            P,
            true,
            &[
                (1, P, false),
                (2, BODY, false),
                (3, BODY, false),
                (4, HTML, false),
            ],
            &[(2, Act::Stop)],
            &[(1, 2, P), (2, 3, BODY), (3, 3, BODY)],
        ),
        // Nobody is called any more.
        (P, true, &two, &[(1, Act::StopNow)], &[(1, 2, P)]),
        (P, true, &two, &[(2, Act::StopNow)], &[(1, 2, P), (2, 2, P)]),
        (
            P,
            true,
            &[(1, BODY, true), (2, BODY, true), (3, P, false)],
            &[(1, Act::StopNow)],
            &[(1, 1, BODY)],
        ),
        (
            P,
            true,
            &two,
            &[(1, Act::Stop), (1, Act::StopNow)],
            &[(1, 2, P)],
        ),
        // The flag stands at the start.
        (P, true, &two, &[(0, Act::Stop)], &[]),
        (P, true, &two, &[(0, Act::StopNow)], &[]),
    ];
    assert_eq!(rt; first_wrong(&rt, rt.alloc(), &rows)?, rows.len());
    Ok(())
}
