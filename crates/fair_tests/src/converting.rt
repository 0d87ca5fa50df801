//! Runs of `convert` over texts in memory; and for `trim` too, whether what was printed stays as it is.

use crate::certificates::{RISES, WALL};
use crate::runs::{ends_by, ends_so};
use crate::solving::is_accepted;
use crate::tests::{Row, TOGGLE};
use std::alloc::{AllocError, Global};
use std::sync::Wait;
use std::test::Fail;
use std::thread::Threads;

const WORDS: &str = "fairlive convert m a";

const WALL_IN_TWO: &str =
    "0\nj0\nversion 2\nwall 1 0\n\n2 0\nproof 1\n6 0 1 3 5 0\nrefute 1 1\n0\n11 0 1 3 4 9 10 5 0\nend\n";

const SIGNED: &str =
    "0\nj0\nversion 2\nwall 1 0\n\n2 0\nproof 1\n6 0 1 3 5 0\nwall 1 1\n0-\n3 0\nproof 1\n13 0 1 3 10 9 8 0\nrefute 1 1\n0\n11 0 1 3 4 9 10 5 0\nend\n";

const ROWS: [Row; 7] = [
    (RISES, WALL, WALL_IN_TWO, 0),
    (RISES, SIGNED, SIGNED, 0),
    // Lines that are skipped, also in a proof, and no line feed at the end.
    (
        RISES,
        "c a\n0\nj0\nu\nversion 1\nwall 1 0\n\n2 0\nproof 1\nc b\n6 0 1 3 5 0\nrefute 1 1\n0\n11 0 1 3 4 9 10 5 0\nend",
        WALL_IN_TWO,
        0,
    ),
    // A stimulus that goes on behind its lasso, with a value of no matter.
    (
        TOGGLE,
        "1\nj0\nc hello\nx\n\n\n\n.",
        "1\nj0\n0\n\n\n\n.\n",
        0,
    ),
    (TOGGLE, "1\nj0\n0\n\n.\n", "refused no fair loop\n", 1),
    (TOGGLE, "2\nj0\n.\n", "refused unknown status\n", 1),
    ("aag 1 0\n", WALL, "model refused header 0\n", 3),
];

fn rows() -> &'static [Row] {
    &ROWS
}

/// The place of the first of these rows that is not answered so by these words, from 0, by reads of three bytes.
pub(crate) fn first_wrong<R: Threads + Wait + Sync>(
    rt: &R,
    alloc: Global,
    words: &str,
    rows: &[Row],
) -> Result<Option<usize>, AllocError> {
    for (k, (model, answer, text, number)) in rows.iter().enumerate() {
        let (model, text) = (model.as_bytes(), text.as_bytes());
        if !ends_by(rt, alloc, words, model, answer, text, *number, 3)? {
            return Ok(Some(k));
        }
    }
    Ok(None)
}

/// Whether these words write the text of this row, where it is printed, from itself, and `check` accepts it.
fn is_stable<R: Threads + Wait + Sync>(
    rt: &R,
    alloc: Global,
    words: &str,
    row: &Row,
) -> Result<bool, AllocError> {
    let (model, _answer, text, number) = row;
    let model = model.as_bytes();
    if *number != 0 {
        return Ok(true);
    }
    Ok(
        ends_so(rt, alloc, words, model, text, text.as_bytes(), 0)?
            && is_accepted(rt, alloc, model, text)?,
    )
}

/// The place of the first of these rows whose printed text is changed by these words, or is not accepted by `check`.
pub(crate) fn first_unstable<R: Threads + Wait + Sync>(
    rt: &R,
    alloc: Global,
    words: &str,
    rows: &[Row],
) -> Result<Option<usize>, AllocError> {
    for (k, row) in rows.iter().enumerate() {
        if !is_stable(rt, alloc, words, row)? {
            return Ok(Some(k));
        }
    }
    Ok(None)
}

/// Certificates come in version 2, stimuli as they are written, and what `check` refuses is refused; what was printed
/// stays as it is, and `check` accepts it.
#[test]
fn conversions(rt: HostRuntime) -> Result<(), Fail> {
    assert_eq!(rt; first_wrong(&rt, rt.alloc(), WORDS, rows())?, None);
    assert_eq!(rt; first_unstable(&rt, rt.alloc(), WORDS, rows())?, None);
    Ok(())
}
