//! Runs of `solve` over texts in memory: what it prints of models that were worked out by hand, and that `check` accepts it.

use crate::runs::{Ending, USAGE, run_words, run_words_alone};
use std::alloc::{AllocError, Global};
use std::sync::Wait;
use std::test::Fail;
use std::thread::Threads;

// The latch begins with 0 and changes at each step; it stays at 0; the property is that it is 1.
const TOGGLE: &[u8] = b"aag 1 0 1 0 0 0 0 1 0\n2 3\n1\n2\n";

const STUCK: &[u8] = b"aag 1 0 1 0 0 0 0 1 0\n2 2\n1\n2\n";

// The latch is 1 from the second position on, and is to be 0 again and again.
const RISES: &[u8] = b"aag 1 0 1 0 0 0 0 1 0\n2 1\n1\n3\n";

const FREE: &[u8] = b"aag 1 0 1 0 0 0 0 1 0\n2 2 2\n1\n2\n";

const FREE_AT_0: &[u8] = b"aag 1 0 1 0 0 0 1 1 0\n2 2 2\n3\n1\n2\n";

const NO_LATCH: &[u8] = b"aag 1 1 0 0 0 0 0 1 0\n2\n1\n2\n";

// A property without literals, and one whose literal is false.
const NO_LITERAL: &[u8] = b"aag 1 0 1 0 0 0 0 1 0\n2 3\n0\n";

const NEVER: &[u8] = b"aag 1 0 1 0 0 0 0 1 0\n2 3\n1\n0\n";

// A counter of two bits; the property is that both are 1.
const COUNTER: &[u8] = b"aag 6 0 2 0 4 0 0 1 0\n2 3\n4 11\n1\n12\n6 5 2\n8 4 3\n10 9 7\n12 4 2\n";

// The toggle, and a latch that a gate of the false literal feeds, with a symbol and a comment.
const BINARY_TOGGLE: &[u8] = b"aig 1 0 1 0 0 0 0 1 0\n3\n1\n2\n";

const BINARY_STUCK: &[u8] = b"aig 3 1 1 0 1 0 0 1 0\n6\n1\n4\n\x02\x02l0 t\nc\nany";

// The literal is a conjunction of two formulas over two inputs that exclude each other.
const EXCLUSIVE: &[u8] =
    b"aag 9 2 0 0 7 0 0 1 0\n2\n4\n1\n18\n6 5 3\n8 5 2\n10 4 3\n12 4 2\n14 9 7\n16 13 11\n18 16 14\n";

// A gate that reads itself.
const CYCLE: &[u8] = b"aag 2 1 0 0 1 0 0 1 0\n2\n1\n4\n4 4 2\n";

// A bit goes round in two and in four latches, and each of them is to be 1 again and again.
const RING_2: &[u8] = b"aag 2 0 2 0 0 0 0 1\n2 4 1\n4 2\n2\n2\n4\n";

const RING_4: &[u8] = b"aag 4 0 4 0 0 0 0 1\n2 8 1\n4 2\n6 4\n8 6\n4\n2\n4\n6\n8\n";

const TWICE: &str = "1\nj0\n0\n\n\n.\n";

const CERTIFICATE: &str = "0\nj0\nversion 2\n";

const ROUND: &str = "1\nj0\n00\n\n\n\n\n.\n";

const SOLVE: &str = "fairlive solve m";

// Under limits that serve.
const ENOUGH: &str = "fairlive solve m --conflicts 1000 --steps 1000";

/// A model, words, the number with which the run ends, and what is written: all of it, or of a certificate and of a report how
/// it begins.
type Row = (&'static [u8], &'static str, u8, &'static str);

// Under limits that serve.
const WITHIN: [Row; 11] = [
    (TOGGLE, ENOUGH, 0, TWICE),
    (TOGGLE, SOLVE, 0, TWICE),
    (STUCK, ENOUGH, 0, CERTIFICATE),
    (RISES, ENOUGH, 0, CERTIFICATE),
    (FREE, ENOUGH, 0, "1\nj0\n1\n\n.\n"),
    (FREE_AT_0, ENOUGH, 0, CERTIFICATE),
    (COUNTER, ENOUGH, 0, ROUND),
    (NO_LATCH, ENOUGH, 0, "1\nj0\n\n1\n.\n"),
    (BINARY_TOGGLE, ENOUGH, 0, TWICE),
    (BINARY_STUCK, ENOUGH, 0, CERTIFICATE),
    (NO_LITERAL, ENOUGH, 0, TWICE),
];

fn within() -> &'static [Row] {
    &WITHIN
}

// Without limits.
const PLAIN: [Row; 11] = [
    (STUCK, SOLVE, 0, CERTIFICATE),
    (RISES, SOLVE, 0, CERTIFICATE),
    (FREE, SOLVE, 0, "1\nj0\n1\n\n.\n"),
    (FREE_AT_0, SOLVE, 0, CERTIFICATE),
    (COUNTER, SOLVE, 0, ROUND),
    (NO_LATCH, SOLVE, 0, "1\nj0\n\n1\n.\n"),
    (BINARY_TOGGLE, SOLVE, 0, TWICE),
    (BINARY_STUCK, SOLVE, 0, CERTIFICATE),
    (NO_LITERAL, SOLVE, 0, TWICE),
    (RING_2, SOLVE, 0, "1\nj0\n10\n\n\n.\n"),
    (RING_4, SOLVE, 0, "1\nj0\n1000\n\n\n\n\n.\n"),
];

fn plain() -> &'static [Row] {
    &PLAIN
}

// By several workers, and with few conflicts or entries.
const FEW: [Row; 8] = [
    (COUNTER, "fairlive solve m --workers 4", 0, ROUND),
    (
        RING_4,
        "fairlive solve m --workers 4",
        0,
        "1\nj0\n1000\n\n\n\n\n.\n",
    ),
    (STUCK, "fairlive solve m --workers 64", 0, CERTIFICATE),
    (STUCK, "fairlive solve m --workers 3", 0, CERTIFICATE),
    (NEVER, "fairlive solve m --conflicts 0", 0, CERTIFICATE),
    (TOGGLE, "fairlive solve m --skeletons 0", 0, TWICE),
    (NEVER, "fairlive solve m --skeletons 0", 0, CERTIFICATE),
    (STUCK, "fairlive solve m --skeletons 1", 0, CERTIFICATE),
];

fn few() -> &'static [Row] {
    &FEW
}

// With limits that are spent, and with lasso workers.
const SPENT: [Row; 8] = [
    (
        STUCK,
        "fairlive solve m --skeletons 0",
        2,
        "2\nj0\nc entries 0 of 0\nc worker 0 conflicts ",
    ),
    (
        STUCK,
        "fairlive solve m --steps 0",
        2,
        "2\nj0\nc entries 0 of 10000\nc worker 0 conflicts 0 of 1000000 steps 0 of 0\n.\n",
    ),
    (
        EXCLUSIVE,
        "fairlive solve m --conflicts 0",
        2,
        "2\nj0\nc entries 0 of 10000\nc worker 0 conflicts 0 of 0 steps 0 of 100000\n.\n",
    ),
    (
        EXCLUSIVE,
        "fairlive solve m --conflicts 0 --workers 2",
        2,
        "2\nj0\nc entries 0 of 10000\nc worker 0 conflicts 0 of 0 steps 0 of 100000\nc worker 1 conflicts 0 of 0 steps 0 of 100000\n.\n",
    ),
    (COUNTER, "fairlive solve m --workers 2 --lassos 1", 0, ROUND),
    (
        STUCK,
        "fairlive solve m --workers 2 --lassos 1 --depth 0",
        0,
        CERTIFICATE,
    ),
    (
        EXCLUSIVE,
        "fairlive solve m --conflicts 0 --workers 2 --lassos 1 --depth 3",
        2,
        "2\nj0\nc entries 0 of 10000\nc worker 0 conflicts 0 of 0 steps 0 of 100000\nc worker 1 conflicts 0 of 0 depth 0 of 3\n.\n",
    ),
    (
        STUCK,
        "fairlive solve m --steps 0 --workers 2 --lassos 63 --depth 2",
        2,
        "2\nj0\nc entries 0 of 10000\nc worker 0 conflicts 0 of 1000000 steps 0 of 0\nc worker 1 conflicts ",
    ),
];

fn spent() -> &'static [Row] {
    &SPENT
}

// What is refused.
const REFUSED: [Row; 13] = [
    (COUNTER, "fairlive solve m --lassos 64", 64, USAGE),
    (COUNTER, "fairlive solve m --lassos one", 64, USAGE),
    (COUNTER, "fairlive solve m --depth 65537", 64, USAGE),
    (
        TOGGLE,
        "fairlive solve m --property 1",
        8,
        "no property 1\n",
    ),
    (b"aag 1048576 0 0 0 0\n", SOLVE, 8, "no property 0\n"),
    (b"aag 1048577 0 0 0 0\n", SOLVE, 8, "no property 0\n"),
    (
        b"aag 16777217 0 0 0 0\n",
        SOLVE,
        3,
        "model refused limit 0\n",
    ),
    (b"", SOLVE, 3, "model refused truncated 0\n"),
    (CYCLE, SOLVE, 3, "model refused cycle 2\n"),
    (COUNTER, "fairlive solve m --workers 0", 64, USAGE),
    (COUNTER, "fairlive solve m --workers 65", 64, USAGE),
    (COUNTER, "fairlive solve m --skeletons 65537", 64, USAGE),
    (COUNTER, "fairlive solve m --property ", 64, USAGE),
];

fn refused() -> &'static [Row] {
    &REFUSED
}

/// Whether `check` accepts this answer.
pub(crate) fn is_accepted<R: Threads + Wait + Sync>(
    rt: &R,
    alloc: Global,
    model: &[u8],
    answer: &str,
) -> Result<bool, AllocError> {
    let ran = run_words(
        rt,
        alloc,
        "fairlive check m a",
        model,
        answer,
        1000,
        &[],
        &[],
    )?;
    let is_so = ran.status.number() == 0 && ran.text.as_slice().starts_with(b"accepted ");
    drop(ran);
    Ok(is_so)
}

/// Whether `check` accepts what was printed of the model.
pub(crate) fn is_printed_accepted<R: Threads + Wait + Sync>(
    rt: &R,
    alloc: Global,
    model: &[u8],
    printed: &[u8],
) -> Result<bool, AllocError> {
    match str::from_utf8(printed) {
        Ok(answer) => is_accepted(rt, alloc, model, answer),
        Err(_) => Ok(false),
    }
}

// Whether a text is the one of a row: a stimulus and all that is no answer as a whole, else how it begins.
fn is_text(text: &[u8], wanted: &str) -> bool {
    if wanted.starts_with("0") || !wanted.ends_with("\n") {
        text.starts_with(wanted.as_bytes())
    } else {
        text == wanted.as_bytes()
    }
}

// Whether a run ended as its row says, and a verdict that it printed is accepted.
fn is_right<R: Threads + Wait + Sync>(
    rt: &R,
    alloc: Global,
    row: &Row,
    ran: &Ending,
) -> Result<bool, AllocError> {
    let (model, _, number, text) = row;
    if ran.status.number() != *number || !is_text(ran.text.as_slice(), text) {
        return Ok(false);
    }
    if *number != 0 {
        return Ok(true);
    }
    is_printed_accepted(rt, alloc, model, ran.text.as_slice())
}

fn is_solved_so<R: Threads + Wait + Sync>(
    rt: &R,
    alloc: Global,
    row: &Row,
) -> Result<bool, AllocError> {
    let ran = run_words(rt, alloc, row.1, row.0, "", 1000, &[], &[])?;
    let is_so = is_right(rt, alloc, row, &ran);
    drop(ran);
    is_so
}

// The same of a run on one thread.
fn is_solved_alone<R: Threads + Wait + Sync>(
    rt: &R,
    alloc: Global,
    row: &Row,
) -> Result<bool, AllocError> {
    let ran = run_words_alone(alloc, row.1, row.0, "")?;
    let is_so = is_right(rt, alloc, row, &ran);
    drop(ran);
    is_so
}

// The place of the first of these rows that is not answered so, by threads or by one thread, from 0.
fn wrong_row<R: Threads + Wait + Sync>(
    rt: &R,
    alloc: Global,
    rows: &[Row],
) -> Result<Option<usize>, AllocError> {
    for (k, row) in rows.iter().enumerate() {
        if !is_solved_so(rt, alloc, row)? {
            return Ok(Some(k));
        }
        if !is_solved_alone(rt, alloc, row)? {
            return Ok(Some(k));
        }
    }
    Ok(None)
}

// The first wrong row of each table.
fn wrong_rows<R: Threads + Wait + Sync>(
    rt: &R,
    alloc: Global,
) -> Result<[Option<usize>; 5], AllocError> {
    Ok([
        wrong_row(rt, alloc, within())?,
        wrong_row(rt, alloc, plain())?,
        wrong_row(rt, alloc, few())?,
        wrong_row(rt, alloc, spent())?,
        wrong_row(rt, alloc, refused())?,
    ])
}

/// The rows, on threads and on one thread, each printed verdict with its check.
#[test]
fn answers_of_solve(rt: HostRuntime) -> Result<(), Fail> {
    assert_eq!(rt; wrong_rows(&rt, rt.alloc())?, [None; 5]);
    Ok(())
}
