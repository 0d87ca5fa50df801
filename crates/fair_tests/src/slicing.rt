//! Runs of `slice` over texts in memory: slices worked out by hand, and refusals.

use crate::runs::{Row, first_wrong};
use crate::tests::{CYCLE, TOGGLE};
use std::test::Fail;

// Property 0 reads the third latch, its gate and the third input; property 1 the first latch, its gate and the first input.
// The constraint reads the second input, the fairness literal the first; nothing reads the second latch.
const TWO_CONES: &str =
    "aag 8 3 3 1 2 1 1 2 1\n2\n4\n6\n8 14\n10 11 1\n12 16 12\n8\n10\n4\n1\n2\n12\n8\n1\n3\n14 2 9\n16 6 13\ni0 a\ni2 b\nl2 c\nl0 d\no0 out\nb0 bad\nc0 con\nj0 first\nj1 second\nf0 fair\nc\nhi\n";

const ROWS: [Row; 10] = [
    (
        "fairlive slice m",
        TOGGLE,
        "",
        "aag 1 0 1 0 0 0 0 1\n2 3\n1\n2\n",
        0,
    ),
    (
        "fairlive slice --property=0 m",
        TWO_CONES,
        "",
        "aag 8 3 1 0 1 0 1 1 1\n2\n4\n6\n12 16 12\n4\n1\n12\n3\n16 6 13\ni0 a\ni2 b\nl0 c\nc0 con\nj0 first\nf0 fair\n",
        0,
    ),
    (
        "fairlive slice m --property 1",
        TWO_CONES,
        "",
        "aag 8 2 1 0 1 0 1 1 1\n2\n4\n8 14\n4\n2\n8\n1\n3\n14 2 9\ni0 a\nl0 d\nc0 con\nj0 second\nf0 fair\n",
        0,
    ),
    // Nothing is read.
    (
        "fairlive slice m",
        "aag 2 1 1 0 0 0 0 1 0\n2\n4 2\n0\n",
        "",
        "aag 2 0 0 0 0 0 0 1\n0\n",
        0,
    ),
    (
        "fairlive slice m --property 2",
        TWO_CONES,
        "",
        "no property 2\n",
        8,
    ),
    (
        "fairlive slice m",
        "aag 0 0 0 0 0\n",
        "",
        "no property 0\n",
        8,
    ),
    // A model in the binary form.
    (
        "fairlive slice m",
        "aig 1 0 1 0 0 0 0 1\n3\n1\n2\nl0 x\n",
        "",
        "aag 1 0 1 0 0 0 0 1\n2 3\n1\n2\nl0 x\n",
        0,
    ),
    ("fairlive slice m", CYCLE, "", "model refused cycle 2\n", 3),
    ("fairlive slice x", TOGGLE, "", "", 4),
    (
        "fairlive slice m --property 1",
        "aag\n",
        "",
        "model refused header 0\n",
        3,
    ),
];

fn rows() -> &'static [Row] {
    &ROWS
}

#[test]
fn models_sliced(rt: HostRuntime) -> Result<(), Fail> {
    assert_eq!(rt; first_wrong(&rt, rt.alloc(), rows())?, None);
    Ok(())
}
