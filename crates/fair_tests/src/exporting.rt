//! Runs of `export` over texts in memory: obligations and refutations worked out by hand, and refusals.

use crate::certificates::{NAMED, RISES, WALL};
use crate::runs::{Row, USAGE, first_wrong};
use crate::tests::{CYCLE, STUCK, TOGGLE};
use std::test::Fail;

// A proof of two additions and a deletion, with lines that are skipped.
const LONGER: &str =
    "0\nj0\nversion 2\nwall 1 0\n\n2 0\nproof 3\n6 4 0 1 3 0\nc skipped\n7 0 1 3 5 0\nu too\n8 d 6 0\nrefute 1 1\n0\n11 0 1 3 4 9 10 5 0\nend\n";

// A reach entry with two clauses, of which the second says nothing of its own.
const TWO_CLAUSES: &str =
    "0\nj0\nversion 2\nreach 2 0\n\n3 0\n3 3 0\nproof 1\n7 0 4 2 6 0\nproof 1\n8 0 4 2 6 0\nrefute 1 1\n0\n9 0 4 5 0\nend\n";

const ROWS: [Row; 17] = [
    (
        "fairlive export m a 0 0",
        RISES,
        WALL,
        "p cnf 4 5\n-1 0\n-4 -1 0\n4 1 0\n2 0\n-4 0\n",
        0,
    ),
    (
        "fairlive export m a 0 0 --lrat",
        RISES,
        WALL,
        "6 0 1 3 5 0\n",
        0,
    ),
    // The refutation: the wall has the side 5, and a mark at each of its two places.
    (
        "fairlive export m a 1 0",
        RISES,
        WALL,
        "p cnf 7 10\n-1 0\n-4 -1 0\n4 1 0\n-2 0\n-5 2 0\n-6 -2 0\n5 6 0\n-5 4 0\n-7 -4 0\n5 7 0\n",
        0,
    ),
    (
        "fairlive export --lrat m a +1 00",
        RISES,
        WALL,
        "11 0 1 3 4 9 10 5 0\n",
        0,
    ),
    // An entry that names a side of another.
    (
        "fairlive export m a 1 0",
        RISES,
        NAMED,
        "p cnf 7 12\n-1 0\n-4 -1 0\n4 1 0\n-5 2 0\n-6 -2 0\n5 6 0\n-5 4 0\n-7 -4 0\n5 7 0\n-5 0\n-2 0\n4 0\n",
        0,
    ),
    (
        "fairlive export m a 0 0 --lrat",
        RISES,
        LONGER,
        "6 4 0 1 3 0\n7 0 1 3 5 0\n8 d 6 0\n",
        0,
    ),
    // The second clause of an entry: the literal that it has twice is denied twice.
    (
        "fairlive export m a 0 1",
        STUCK,
        TWO_CLAUSES,
        "p cnf 4 7\n-1 0\n-4 2 0\n4 -2 0\n-2 0\n-2 -2 0\n4 0\n4 0\n",
        0,
    ),
    (
        "fairlive export m a 0 1 --lrat",
        STUCK,
        TWO_CLAUSES,
        "8 0 4 2 6 0\n",
        0,
    ),
    ("fairlive export m a 1 1", RISES, WALL, "no item 1 1\n", 10),
    (
        "fairlive export m a 0 1 --lrat",
        RISES,
        WALL,
        "no item 0 1\n",
        10,
    ),
    (
        "fairlive export m a 4294967295 4294967295",
        RISES,
        WALL,
        "no item 4294967295 4294967295\n",
        10,
    ),
    (
        "fairlive export m a 0 0",
        TOGGLE,
        "1\nj0\n0\n\n\n.\n",
        "no item 0 0\n",
        10,
    ),
    (
        "fairlive export m a 0 0",
        TOGGLE,
        "1\nj0\n0\n\n.\n",
        "refused no fair loop\n",
        1,
    ),
    (
        "fairlive export m a 0 0",
        RISES,
        "2\nj0\n.\n",
        "refused unknown status\n",
        1,
    ),
    (
        "fairlive export m a 0 0",
        CYCLE,
        WALL,
        "model refused cycle 2\n",
        3,
    ),
    ("fairlive export m a 0", RISES, WALL, USAGE, 64),
    ("fairlive export m a 0 4294967296", RISES, WALL, USAGE, 64),
];

fn rows() -> &'static [Row] {
    &ROWS
}

/// The clauses and the proof of each item are those of the definitions; what is no item is told.
#[test]
fn exports(rt: HostRuntime) -> Result<(), Fail> {
    assert_eq!(rt; first_wrong(&rt, rt.alloc(), rows())?, None);
    Ok(())
}
