//! Runs of `trim` over texts in memory.

use crate::certificates::{RISES, WALL};
use crate::converting::{first_unstable, first_wrong};
use crate::tests::{CYCLE, Row, STUCK, TOGGLE};
use std::test::Fail;

const WORDS: &str = "fairlive trim m a";

const ONE_WALL: &str =
    "0\nj0\nversion 2\nwall 1 0\n\n2 0\nproof 1\n6 0 1 3 5 0\nrefute 1 1\n0\n11 0 1 3 4 9 10 5 0\nend\n";

const ROWS: [Row; 16] = [
    (RISES, WALL, ONE_WALL, 0),
    // An entry that the refutation does not reach.
    (
        RISES,
        "0\nj0\nversion 2\nwall 1 0\n\n2 0\nproof 1\n6 0 1 3 5 0\nwall 1 1\n0-\n3 0\nproof 1\n13 0 1 3 10 9 8 0\nrefute 1 1\n0\n11 0 1 3 4 9 10 5 0\nend\n",
        ONE_WALL,
        0,
    ),
    // An addition without use, and a deletion; ids stay.
    (
        RISES,
        "0\nj0\nversion 2\nwall 1 0\n\n2 0\nproof 3\n6 4 0 1 3 0\n7 0 1 3 5 0\n8 d 6 0\nrefute 1 1\n0\n11 0 1 3 4 9 10 5 0\nend\n",
        "0\nj0\nversion 2\nwall 1 0\n\n2 0\nproof 1\n7 0 1 3 5 0\nrefute 1 1\n0\n11 0 1 3 4 9 10 5 0\nend\n",
        0,
    ),
    // An addition that the empty one reaches, and one behind it.
    (
        RISES,
        "0\nj0\nversion 2\nwall 1 0\n\n2 0\nproof 3\n6 4 0 1 3 0\n7 0 6 5 0\n8 0 1 3 5 0\nrefute 1 1\n0\n11 0 1 3 4 9 10 5 0\nend\n",
        "0\nj0\nversion 2\nwall 1 0\n\n2 0\nproof 2\n6 4 0 1 3 0\n7 0 6 5 0\nrefute 1 1\n0\n11 0 1 3 4 9 10 5 0\nend\n",
        0,
    ),
    // The entry that is needed stands behind one that is not.
    (
        RISES,
        "0\nj0\nversion 2\nwall 1 0\n\n2 0\nproof 1\n6 0 1 3 5 0\nwall 1 0\n\n2 0\nproof 1\n6 0 1 3 5 0\nrefute 1 1\n1\n11 0 1 3 4 9 10 5 0\nend\n",
        ONE_WALL,
        0,
    ),
    // So do two, of which one names a side of the other.
    (
        RISES,
        "0\nj0\nversion 2\nwall 1 0\n\n2 0\nproof 1\n6 0 1 3 5 0\nwall 1 0\n\n2 0\nproof 1\n6 0 1 3 5 0\nwall 1 1\n1-\n3 0\nproof 1\n13 0 1 3 10 9 8 0\nrefute 2 1\n1 2\n18 0 1 3 4 9 10 5 0\nend\n",
        "0\nj0\nversion 2\nwall 1 0\n\n2 0\nproof 1\n6 0 1 3 5 0\nwall 1 1\n0-\n3 0\nproof 1\n13 0 1 3 10 9 8 0\nrefute 2 1\n0 1\n18 0 1 3 4 9 10 5 0\nend\n",
        0,
    ),
    // An empty clause is given.
    (
        RISES,
        "0\nj0\nversion 2\nwall 1 0\n\n0\nproof 1\n5 4 0 1 3 0\nwall 1 0\n\n2 0\nproof 1\n6 0 1 3 5 0\nrefute 2 1\n0 1\n15 0 1 3 4 13 14 9 0\nend\n",
        "0\nj0\nversion 2\nwall 1 0\n\n0\nproof 0\nwall 1 0\n\n2 0\nproof 1\n6 0 1 3 5 0\nrefute 2 1\n0 1\n15 0 1 3 4 13 14 9 0\nend\n",
        0,
    ),
    // Entries that the refutation reaches through another one's uses.
    (
        RISES,
        "0\nj0\nversion 2\nwall 1 0\n\n2 0\nproof 1\n6 0 1 3 5 0\nwall 1 1\n0\n2 0\nproof 1\n12 0 1 3 11 0\nrefute 1 1\n1\n11 0 1 3 4 9 10 5 0\nend\n",
        "0\nj0\nversion 2\nwall 1 0\n\n2 0\nproof 1\n6 0 1 3 5 0\nwall 1 1\n0\n2 0\nproof 1\n12 0 1 3 11 0\nrefute 1 1\n1\n11 0 1 3 4 9 10 5 0\nend\n",
        0,
    ),
    (
        STUCK,
        "0\nj0\nversion 2\nreach 1 0\n\n3 0\nproof 1\n6 0 4 2 5 0\nreach 1 1\n0\n3 0\nproof 1\n8 0 5 7 0\nrefute 1 1\n1\n7 0 4 5 0\nend\n",
        "0\nj0\nversion 2\nreach 1 0\n\n3 0\nproof 1\n6 0 4 2 5 0\nreach 1 1\n0\n3 0\nproof 1\n8 0 5 7 0\nrefute 1 1\n1\n7 0 4 5 0\nend\n",
        0,
    ),
    // Lines that are skipped, within a proof too.
    (
        RISES,
        "c one\n0\nj0\nversion 2\nwall 1 0\nu two\n\n2 0\nproof 2\n6 4 0 1 3 0\nc three\n7 0 1 3 5 0\nrefute 1 1\n0\nu four\n11 0 1 3 4 9 10 5 0\nend\nc five\n",
        "0\nj0\nversion 2\nwall 1 0\n\n2 0\nproof 1\n7 0 1 3 5 0\nrefute 1 1\n0\n11 0 1 3 4 9 10 5 0\nend\n",
        0,
    ),
    (
        TOGGLE,
        "1\nj0\nc hello\nx\n\n\n\n.\n",
        "1\nj0\n0\n\n\n.\n",
        0,
    ),
    // A clause without a literal holds none of the initial cube.
    (
        STUCK,
        "0\nj0\nversion 2\nreach 1 0\n\n0\nproof 1\n6 0 4 2 5 0\nrefute 1 1\n0\n7 0 4 5 0\nend\n",
        "refused entry 0 base 0\n",
        1,
    ),
    (CYCLE, WALL, "model refused cycle 2\n", 3),
    // A stimulus that goes on behind its lasso.
    (TOGGLE, "1\nj0\nx\n\n\n\n.", "1\nj0\n0\n\n\n.\n", 0),
    (TOGGLE, "1\nj0\n0\n\n.\n", "refused no fair loop\n", 1),
    (TOGGLE, "2\nj0\n.\n", "refused unknown status\n", 1),
];

fn rows() -> &'static [Row] {
    &ROWS
}

/// What is not needed goes, ids stay; what was printed stays as it is, and `check` accepts it.
#[test]
fn trims(rt: HostRuntime) -> Result<(), Fail> {
    assert_eq!(rt; first_wrong(&rt, rt.alloc(), WORDS, rows())?, None);
    assert_eq!(rt; first_unstable(&rt, rt.alloc(), WORDS, rows())?, None);
    Ok(())
}
