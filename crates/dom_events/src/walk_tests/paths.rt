//! Along the path: which listeners are called, in which order and phase.
use super::{BODY, DIV, HTML, P, Row, SPAN, TEXT, first_wrong};
use door::{DOCUMENT, WINDOW};
use std::test::Fail;

#[test]
fn walks_go_down_and_up(rt: HostRuntime) -> Result<(), Fail> {
    // In the order of adding, which isn't that of the path.
    let many = [
        (10, WINDOW, false),
        (9, DOCUMENT, false),
        (6, P, false),
        (5, P, true),
        (8, HTML, false),
        (4, BODY, true),
        (7, BODY, false),
        (2, DOCUMENT, true),
        (3, HTML, true),
        (1, WINDOW, true),
        (11, DIV, true),
        (12, SPAN, false),
        (13, DIV, false),
        (14, TEXT, false),
    ];
    let rows: [Row; 16] = [
        (P, true, &[], &[], &[]),
        (P, true, &[(1, P, false)], &[], &[(1, 2, P)]),
        (P, true, &[(1, P, true)], &[], &[(1, 2, P)]),
        (
            P,
            false,
            &[(1, P, false), (2, P, true)],
            &[],
            &[(2, 2, P), (1, 2, P)],
        ),
        (
            P,
            true,
            &many,
            &[],
            &[
                (1, 1, WINDOW),
                (2, 1, DOCUMENT),
                (3, 1, HTML),
                (4, 1, BODY),
                (5, 2, P),
                (6, 2, P),
                (7, 3, BODY),
                (8, 3, HTML),
                (9, 3, DOCUMENT),
                (10, 3, WINDOW),
            ],
        ),
        (
            P,
            false,
            &many,
            &[],
            &[
                (1, 1, WINDOW),
                (2, 1, DOCUMENT),
                (3, 1, HTML),
                (4, 1, BODY),
                (5, 2, P),
                (6, 2, P),
            ],
        ),
        (
            TEXT,
            false,
            &[(1, P, true), (2, TEXT, false), (3, P, false)],
            &[],
            &[(1, 1, P), (2, 2, TEXT)],
        ),
        (
            DOCUMENT,
            true,
            &many,
            &[],
            &[
                (1, 1, WINDOW),
                (2, 2, DOCUMENT),
                (9, 2, DOCUMENT),
                (10, 3, WINDOW),
            ],
        ),
        (WINDOW, true, &many, &[], &[(1, 2, WINDOW), (10, 2, WINDOW)]),
        // Outside the document the path ends at the root.
        (
            SPAN,
            true,
            &many,
            &[],
            &[(11, 1, DIV), (12, 2, SPAN), (13, 3, DIV)],
        ),
        (SPAN, false, &many, &[], &[(11, 1, DIV), (12, 2, SPAN)]),
        (DIV, true, &many, &[], &[(11, 2, DIV), (13, 2, DIV)]),
        // In the order of adding; an equal one stands once, where it was added first.
        (
            P,
            true,
            &[(3, P, false), (1, P, false), (3, P, false), (2, P, false)],
            &[],
            &[(3, 2, P), (1, 2, P), (2, 2, P)],
        ),
        (
            P,
            true,
            &[(1, BODY, true), (1, BODY, false)],
            &[],
            &[(1, 1, BODY), (1, 3, BODY)],
        ),
        (
            P,
            true,
            &[(1, BODY, false), (1, P, false)],
            &[],
            &[(1, 2, P), (1, 3, BODY)],
        ),
        (HTML, true, &[(1, BODY, true), (2, P, false)], &[], &[]),
    ];
    assert_eq!(rt; first_wrong(&rt, rt.alloc(), &rows)?, rows.len());
    Ok(())
}
