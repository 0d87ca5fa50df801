//! Runs of `safety` over texts in memory: translations worked out by hand, and refusals.

use crate::runs::{Row, first_wrong};
use crate::tests::{CYCLE, TOGGLE};
use std::test::Fail;

const WATCHED: &str =
    "aag 17 1 4 0 12 1\n4\n2 3\n6 15\n8 21\n10 30\n34\n12 4 7\n14 5 7\n16 12 2\n18 13 8\n20 17 19\n22 2 9\n24 3 8\n26 23 25\n28 11 3\n30 15 29\n32 6 26\n34 32 10\n";

const ROWS: [Row; 10] = [
    ("fairlive safety m", TOGGLE, "", WATCHED, 0),
    ("fairlive safety --property=0 m", TOGGLE, "", WATCHED, 0),
    // No latch and no literal: the bad state literal is the latch that tells whether a state was saved.
    (
        "fairlive safety m",
        "aag 1 1 0 0 0 0 0 1 0\n2\n0\n",
        "",
        "aag 5 2 1 0 2 1\n2\n4\n6 11\n6\n8 4 7\n10 5 7\n",
        0,
    ),
    // The constraint stays, and the reset; the output, the name and the comment do not. One literal is negated.
    (
        "fairlive safety m --property 1",
        "aag 2 1 1 1 0 0 1 2 1\n2\n4 2 1\n4\n3\n0\n1\n5\n4\ni0 x\nc\nhi\n",
        "",
        "aag 22 2 5 0 15 1 1\n2\n6\n4 2 1\n8 19\n10 25\n12 34\n14 38\n44\n3\n16 6 9\n18 7 9\n20 16 4\n22 17 10\n24 21 23\n26 4 11\n28 5 10\n30 27 29\n32 13 4\n34 19 33\n36 15 5\n38 19 37\n40 8 30\n42 40 12\n44 42 14\n",
        0,
    ),
    (
        "fairlive safety m",
        "aag 16777216 1 0 0 0 0 0 1 0\n2\n0\n",
        "",
        "too large 16777220\n",
        9,
    ),
    (
        "fairlive safety m --property 1",
        "aag 16777216 1 0 0 0 0 0 1 0\n2\n0\n",
        "",
        "no property 1\n",
        8,
    ),
    (
        "fairlive safety m",
        "aag 0 0 0 0 0\n",
        "",
        "no property 0\n",
        8,
    ),
    ("fairlive safety m", CYCLE, "", "model refused cycle 2\n", 3),
    ("fairlive safety x", TOGGLE, "", "", 4),
    (
        "fairlive safety m --property 1",
        "aag\n",
        "",
        "model refused header 0\n",
        3,
    ),
];

fn rows() -> &'static [Row] {
    &ROWS
}

#[test]
fn properties_translated(rt: HostRuntime) -> Result<(), Fail> {
    assert_eq!(rt; first_wrong(&rt, rt.alloc(), rows())?, None);
    Ok(())
}
