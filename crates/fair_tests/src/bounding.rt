//! Runs of `shortest` over texts in memory: by rows worked out by hand.

use crate::counting::PARITY;
use crate::runs::{Row, first_wrong};
use crate::tests::{COUNTER, CYCLE, FREE_AT_0, NO_LATCH, STUCK, TOGGLE, TWO_POSITIONS};
use std::test::Fail;

const SHORTEST: &str = "fairlive shortest m";

const ROUND: &str = "1\nj0\n00\n\n\n\n\n.\n";

const ROWS: [Row; 15] = [
    (SHORTEST, COUNTER, "", ROUND, 0),
    ("fairlive shortest m --depth 4", COUNTER, "", ROUND, 0),
    (
        "fairlive shortest m --depth 3",
        COUNTER,
        "",
        "no lasso within 3 j0\n",
        0,
    ),
    (
        "fairlive shortest m --depth 0",
        TOGGLE,
        "",
        "no lasso within 0 j0\n",
        0,
    ),
    (
        "fairlive shortest m --depth 0",
        NO_LATCH,
        "",
        "no lasso within 0 j0\n",
        0,
    ),
    (SHORTEST, NO_LATCH, "", "1\nj0\n\n1\n.\n", 0),
    (SHORTEST, TOGGLE, "", TWO_POSITIONS, 0),
    (SHORTEST, STUCK, "", "no lasso within 100 j0\n", 0),
    (SHORTEST, FREE_AT_0, "", "no lasso within 100 j0\n", 0),
    (
        "fairlive shortest m --property 1",
        STUCK,
        "",
        "no property 1\n",
        8,
    ),
    (SHORTEST, CYCLE, "", "model refused cycle 2\n", 3),
    ("fairlive shortest x", STUCK, "", "", 4),
    (
        "fairlive shortest m --conflicts 0 --depth 7",
        PARITY,
        "",
        "2\nj0\nc entries 0 of 0\nc worker 0 conflicts 0 of 0 depth 0 of 7\n.\n",
        2,
    ),
    (
        "fairlive shortest m --conflicts 0 --depth 0",
        PARITY,
        "",
        "no lasso within 0 j0\n",
        0,
    ),
    (
        "fairlive shortest m --depth 2",
        PARITY,
        "",
        "no lasso within 2 j0\n",
        0,
    ),
];

fn rows() -> &'static [Row] {
    &ROWS
}

#[test]
fn shortest_lassos(rt: HostRuntime) -> Result<(), Fail> {
    assert_eq!(rt; first_wrong(&rt, rt.alloc(), rows())?, None);
    Ok(())
}
