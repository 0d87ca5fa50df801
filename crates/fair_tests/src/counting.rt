//! Runs of `rounds` and of `check` over texts about rounds, in memory: by rows worked out by hand.

use crate::runs::{Ending, Row, first_wrong, run_words};
use crate::solving::is_printed_accepted;
use crate::tests::{COUNTER, CYCLE, STUCK, TOGGLE};
use std::alloc::{AllocError, Global};
use std::sync::Wait;
use std::test::Fail;
use std::thread::Threads;

const CHECK: &str = "fairlive check m a";

const FEWER: &str =
    "rounds 1\nj0\nversion 2\nreach 3 0\n\n3 0\n5 0\n7 0\nproof 1\n21 0 17 11 20 0\nproof 1\n21 0 20 13 5 6 0\nproof 1\n21 0 20 15 18 17 4 19 10 0\nrefute 1 1\n0\n5 0 3 4 0\nend\n";

// No latch but those of the monitor, whose variables end above the limit.
const LARGE: &str = "aag 16777216 1 0 0 0 0 0 1 0\n2\n0\n";

// Of two inputs, that they differ and are equal, each by gates of its own: no run has a round, which no propagation shows.
pub(crate) const PARITY: &str =
    "aag 9 2 0 0 7 0 0 1 0\n2\n4\n1\n18\n6 4 2\n8 5 3\n10 9 7\n12 5 2\n14 4 3\n16 15 13\n18 16 10\n";

pub(crate) const REACHED: &str = "rounds 2\nj0\nrun\n0\n\n\n\n\n.\n";

// Texts that are checked.
const CHECKED: [Row; 13] = [
    (CHECK, STUCK, FEWER, "accepted rounds 1 j0 fewer\n", 0),
    (CHECK, TOGGLE, REACHED, "accepted rounds 2 j0 reached\n", 0),
    (
        CHECK,
        TOGGLE,
        "c a\nrounds 2\nu\nj0\nrun\nc\n0\n\n\n\n\n.",
        "accepted rounds 2 j0 reached\n",
        0,
    ),
    (
        CHECK,
        TOGGLE,
        "rounds 2\nj0\nrun\n0\n\n\n\n.\n",
        "refused rounds 1\n",
        1,
    ),
    (
        CHECK,
        TOGGLE,
        "rounds 2\nj0\nrun\n1\n\n\n\n\n.\n",
        "refused initial latch 0\n",
        1,
    ),
    (
        CHECK,
        TOGGLE,
        "rounds 2\nj0\nrun\n0\n\n\n.\n\n",
        "refused trailing line 8\n",
        1,
    ),
    (CHECK, TOGGLE, "rounds 0\nj0\n", "refused shape line 1\n", 1),
    (
        CHECK,
        TOGGLE,
        "rounds 65\nj0\n",
        "refused shape line 1\n",
        1,
    ),
    (CHECK, TOGGLE, "rounds\nj0\n", "refused shape line 1\n", 1),
    (CHECK, TOGGLE, "rounds 1\nj1\n", "refused property 1\n", 1),
    (
        CHECK,
        TOGGLE,
        "rounds 1\nj0\nversion 1\n",
        "refused shape line 3\n",
        1,
    ),
    (
        CHECK,
        STUCK,
        "rounds 1\nj0\nversion 2\nwall 0 0\n\n",
        "refused shape line 4\n",
        1,
    ),
    (CHECK, LARGE, "rounds 1\nj0\n", "too large 16777218\n", 9),
];

fn checked() -> &'static [Row] {
    &CHECKED
}

// Other commands.
const OTHERS: [Row; 10] = [
    ("fairlive rounds m 1", LARGE, "", "too large 16777218\n", 9),
    (
        "fairlive rounds m 1 --property 1",
        STUCK,
        "",
        "no property 1\n",
        8,
    ),
    (
        "fairlive rounds m 64",
        CYCLE,
        "",
        "model refused cycle 2\n",
        3,
    ),
    ("fairlive rounds x 1", STUCK, "", "", 4),
    ("fairlive rounds m 2", TOGGLE, "", REACHED, 0),
    (
        "fairlive wave m a",
        TOGGLE,
        REACHED,
        "refused unknown status\n",
        1,
    ),
    (
        "fairlive convert m a",
        TOGGLE,
        REACHED,
        "refused unknown status\n",
        1,
    ),
    (
        "fairlive trim m a",
        TOGGLE,
        REACHED,
        "refused unknown status\n",
        1,
    ),
    (
        "fairlive rounds m 1 --steps 0",
        STUCK,
        "",
        "2\nj0\nc entries 0 of 65536\nc worker 0 conflicts 0 of 1000000 steps 0 of 0\n.\n",
        2,
    ),
    (
        "fairlive rounds m 1 --conflicts 0",
        PARITY,
        "",
        "2\nj0\nc entries 0 of 65536\nc worker 0 conflicts 0 of 0 steps 0 of 100000\n.\n",
        2,
    ),
];

fn others() -> &'static [Row] {
    &OTHERS
}

#[test]
fn texts_about_rounds(rt: HostRuntime) -> Result<(), Fail> {
    assert_eq!(rt; first_wrong(&rt, rt.alloc(), checked())?, None);
    assert_eq!(rt; first_wrong(&rt, rt.alloc(), others())?, None);
    Ok(())
}

/// A model, words that ask for rounds, and how the text begins.
type Printed = (&'static str, &'static str, &'static str);

const PRINTED: [Printed; 5] = [
    (STUCK, "fairlive rounds m 1", "rounds 1\nj0\nversion 2\n"),
    (STUCK, "fairlive rounds m 64", "rounds 64\nj0\nversion 2\n"),
    (TOGGLE, "fairlive rounds m 1", "rounds 1\nj0\nrun\n0\n"),
    (TOGGLE, "fairlive rounds m 64", "rounds 64\nj0\nrun\n0\n"),
    (COUNTER, "fairlive rounds m 2", "rounds 2\nj0\nrun\n00\n"),
];

fn printed_rows() -> &'static [Printed] {
    &PRINTED
}

// Whether a run printed a text that begins so, and `check` accepts it.
fn is_right<R: Threads + Wait + Sync>(
    rt: &R,
    alloc: Global,
    row: &Printed,
    ran: &Ending,
) -> Result<bool, AllocError> {
    if ran.status.number() != 0 || !ran.text.as_slice().starts_with(row.2.as_bytes()) {
        return Ok(false);
    }
    is_printed_accepted(rt, alloc, row.0.as_bytes(), ran.text.as_slice())
}

fn is_counted<R: Threads + Wait + Sync>(
    rt: &R,
    alloc: Global,
    row: &Printed,
) -> Result<bool, AllocError> {
    let ran = run_words(rt, alloc, row.1, row.0.as_bytes(), "", 1000, &[], &[])?;
    let is_so = is_right(rt, alloc, row, &ran);
    drop(ran);
    is_so
}

/// The place of the first row whose text begins otherwise, or is not accepted, from 0.
fn wrong_printed<R: Threads + Wait + Sync>(
    rt: &R,
    alloc: Global,
) -> Result<Option<usize>, AllocError> {
    for (k, row) in printed_rows().iter().enumerate() {
        if !is_counted(rt, alloc, row)? {
            return Ok(Some(k));
        }
    }
    Ok(None)
}

#[test]
fn printed_rounds(rt: HostRuntime) -> Result<(), Fail> {
    assert_eq!(rt; wrong_printed(&rt, rt.alloc())?, None);
    Ok(())
}
