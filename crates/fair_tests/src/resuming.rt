//! Runs of `solve` that are given the entries of an answer.

use crate::certificates::{RISES, WALL};
use crate::counting::REACHED;
use crate::runs::{Ending, first_taken, is_end, run_words, run_words_alone};
use crate::sheets::APART;
use crate::solving::is_printed_accepted;
use crate::tests::{CYCLE, STUCK, TOGGLE, TWO_POSITIONS};
use std::alloc::{AllocError, Global};
use std::sync::Wait;
use std::test::Fail;
use std::thread::Threads;

/// A model, words, an answer, the number that the run must end with, and its text, or of a verdict how that begins.
type Row = (&'static str, &'static str, &'static str, u8, &'static str);

const ONE: &str = "fairlive solve m --skeletons 0 --resume a";

const RESUMED: &str = "fairlive solve m --resume a";

const CERTIFICATE: &str = "0\nj0\nversion 2\n";

const WRONG_WALL: &str =
    "0\nj0\nversion 1\nwall 1 0\n\n3 0\nproof 1\n6 0 1 3 5 0\nrefute 1 1\n0\n11 0 1 3 4 9 10 5 0\nend\n";

// The latch that rises, with the property twice.
const TWICE: &str = "aag 1 0 1 0 0 0 0 2 0\n2 1\n1\n1\n3\n3\n";

const OF_THE_OTHER: &str =
    "0\nj1\nversion 2\nwall 1 0\n\n2 0\nproof 1\n6 0 1 3 5 0\nrefute 1 1\n0\n11 0 1 3 4 9 10 5 0\nend\n";

const OF_THE_FIRST: &str =
    "0\nj0\nversion 2\nwall 1 0\n\n2 0\nproof 1\n8 0 1 3 7 0\nrefute 1 1\n0\n13 0 1 3 6 11 12 7 0\nend\n";

// Entries that are taken, and texts that give none.
const TEXTS: [Row; 11] = [
    (
        RISES,
        "fairlive solve m --skeletons 0",
        WALL,
        2,
        "2\nj0\nc entries 0 of 0\n",
    ),
    (RISES, ONE, WALL, 0, CERTIFICATE),
    (
        RISES,
        ONE,
        WRONG_WALL,
        1,
        "refused entry 0 clause 0 proof line 0 no conflict\n",
    ),
    // A stimulus has no entries, be it a good one or not; nor has a text about rounds.
    (
        TOGGLE,
        RESUMED,
        TWO_POSITIONS,
        1,
        "refused unknown status\n",
    ),
    (
        TOGGLE,
        RESUMED,
        "c no line\n1\nj7\n",
        1,
        "refused unknown status\n",
    ),
    (TOGGLE, RESUMED, "1", 1, "refused unknown status\n"),
    (TOGGLE, RESUMED, REACHED, 1, "refused unknown status\n"),
    (TOGGLE, RESUMED, "2\nj0\n.\n", 1, "refused unknown status\n"),
    (TOGGLE, RESUMED, "", 1, "refused shape line 1\n"),
    (TOGGLE, RESUMED, "u\n10\n", 1, "refused shape line 2\n"),
    (
        TOGGLE,
        RESUMED,
        WALL,
        1,
        "refused entry 0 clause 0 proof line 0 not unit 3\n",
    ),
];

fn texts() -> &'static [Row] {
    &TEXTS
}

const OTHERS: [Row; 12] = [
    // What comes before the answer.
    (
        TOGGLE,
        "fairlive solve m --property 1 --resume a",
        "1",
        8,
        "no property 1\n",
    ),
    (CYCLE, RESUMED, "1", 3, "model refused cycle 2\n"),
    (RISES, "fairlive solve m --resume b", WALL, 4, ""),
    // A certificate of another property, and entries that do not help.
    (TWICE, ONE, OF_THE_OTHER, 0, CERTIFICATE),
    (
        APART,
        "fairlive solve m --property 1 --steps 0 --resume a",
        OF_THE_FIRST,
        2,
        "2\nj1\nc entries 1 of 10001\nc worker 0 conflicts 0 of 1000000 steps 0 of 0\n.\n",
    ),
    (
        APART,
        "fairlive solve m --property 1 --steps 0 --skeletons 65536 --resume a",
        OF_THE_FIRST,
        2,
        "2\nj1\nc entries 1 of 65536\nc worker 0 conflicts 0 of 1000000 steps 0 of 0\n.\n",
    ),
    (
        APART,
        "fairlive solve m --property 1 --resume a",
        OF_THE_FIRST,
        0,
        "0\nj1\nversion 2\nwall 1 0\n\n2 0\nproof 1\n8 0 1 3 7 0\n",
    ),
    (
        APART,
        ONE,
        OF_THE_FIRST,
        0,
        "0\nj0\nversion 2\nwall 1 0\n\n2 0\nproof 1\n8 0 1 3 7 0\nrefute 1 ",
    ),
    (
        APART,
        "fairlive solve m --workers 3 --property 1 --resume=a",
        OF_THE_FIRST,
        0,
        "0\nj1\nversion 2\nwall 1 0\n\n2 0\nproof 1\n8 0 1 3 7 0\n",
    ),
    (
        APART,
        "fairlive solve m --workers 2 --lassos 1 --depth 3 --property 1 --steps 0 --resume a",
        OF_THE_FIRST,
        2,
        "2\nj1\nc entries 1 of 10001\nc worker 0 conflicts 0 of 1000000 steps 0 of 0\nc worker 1 conflicts 0 of 1000000 depth 3 of 3\n.\n",
    ),
    (
        TOGGLE,
        RESUMED,
        "0\nj0\nversion 2\nrefute 0 0\n\nend\n",
        1,
        "refused refutation line 0 unfinished\n",
    ),
    (STUCK, RESUMED, "0\nj1\n", 1, "refused property 1\n"),
];

fn others() -> &'static [Row] {
    &OTHERS
}

// Whether a run ended as its row says, and a verdict that it printed is accepted.
fn is_right<R: Threads + Wait + Sync>(
    rt: &R,
    alloc: Global,
    row: &Row,
    ran: &Ending,
) -> Result<bool, AllocError> {
    let (model, _, _, number, text) = row;
    if *number == 0 {
        let is_so = ran.status.number() == 0 && ran.text.as_slice().starts_with(text.as_bytes());
        return Ok(is_so && is_printed_accepted(rt, alloc, model.as_bytes(), ran.text.as_slice())?);
    }
    if text.ends_with(" of 0\n") {
        return Ok(
            ran.status.number() == *number && ran.text.as_slice().starts_with(text.as_bytes()),
        );
    }
    Ok(is_end(ran, text.as_bytes(), *number))
}

fn is_resumed_so<R: Threads + Wait + Sync>(
    rt: &R,
    alloc: Global,
    row: &Row,
) -> Result<bool, AllocError> {
    let ran = run_words(rt, alloc, row.1, row.0.as_bytes(), row.2, 3, &[], &[])?;
    let is_so = is_right(rt, alloc, row, &ran);
    drop(ran);
    is_so
}

// The same of a run on one thread.
fn is_resumed_alone<R: Threads + Wait + Sync>(
    rt: &R,
    alloc: Global,
    row: &Row,
) -> Result<bool, AllocError> {
    let ran = run_words_alone(alloc, row.1, row.0.as_bytes(), row.2)?;
    let is_so = is_right(rt, alloc, row, &ran);
    drop(ran);
    is_so
}

// The place of the first of these rows that is not answered so, by threads or by one thread, from 0.
fn wrong_row<R: Threads + Wait + Sync>(
    rt: &R,
    alloc: Global,
    rows: &[Row],
) -> Result<Option<usize>, AllocError> {
    for (k, row) in rows.iter().enumerate() {
        if !is_resumed_so(rt, alloc, row)? {
            return Ok(Some(k));
        }
        if !is_resumed_alone(rt, alloc, row)? {
            return Ok(Some(k));
        }
    }
    Ok(None)
}

const NONE: [&str; 3] = [
    "fairlive solve m --resume",
    "fairlive solve m --resume a --resume a",
    "fairlive solve m a",
];

/// A search goes on from the entries of a certificate; a text that gives none is refused.
#[test]
fn resumes(rt: HostRuntime) -> Result<(), Fail> {
    assert_eq!(rt; wrong_row(&rt, rt.alloc(), texts())?, None);
    assert_eq!(rt; wrong_row(&rt, rt.alloc(), others())?, None);
    assert_eq!(rt; first_taken(&rt, rt.alloc(), &NONE, RISES, WALL)?, None);
    Ok(())
}
