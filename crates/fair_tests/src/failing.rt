//! Runs of each command in which one read or one write fails: each in turn, until none is left to fail.

use crate::certificates::{RISES, WALL};
use crate::counting::REACHED;
use crate::runs::{Ending, USAGE, run_words};
use crate::sheets::{APART, SHEET, TWO, WITH_ENTRY};
use crate::tests::{COUNTER, CYCLE, STUCK, TOGGLE, TWO_FROM_0, TWO_POSITIONS};
use std::alloc::{AllocError, Global};
use std::sync::Wait;
use std::test::Fail;
use std::thread::Threads;

/// The words, MODEL and ANSWER, how many of the two are read to their end, and the number and the text of a run without a
/// failing call, or how its text begins.
type Row = (
    &'static str,
    &'static str,
    &'static str,
    u64,
    u8,
    &'static str,
);

const SOLVED: [Row; 9] = [
    ("fairlive solve m", TOGGLE, "", 1, 0, TWO_POSITIONS),
    ("fairlive solve m", STUCK, "", 1, 0, "0\nj0\nversion 2\n"),
    (
        "fairlive solve m --workers 4",
        COUNTER,
        "",
        1,
        0,
        "1\nj0\n00\n\n\n\n\n.\n",
    ),
    (
        "fairlive solve m --steps 0",
        STUCK,
        "",
        1,
        2,
        "2\nj0\nc entries 0 of 10000\n",
    ),
    (
        "fairlive solve m --property 1",
        TOGGLE,
        "",
        1,
        8,
        "no property 1\n",
    ),
    (
        "fairlive solve m",
        CYCLE,
        "",
        1,
        3,
        "model refused cycle 2\n",
    ),
    (
        "fairlive solve m --resume a",
        RISES,
        WALL,
        2,
        0,
        "0\nj0\nversion 2\n",
    ),
    (
        "fairlive solve m --resume a",
        TOGGLE,
        TWO_POSITIONS,
        2,
        1,
        "refused unknown status\n",
    ),
    (
        "fairlive solve m --resume a --property 1",
        TOGGLE,
        TWO_POSITIONS,
        1,
        8,
        "no property 1\n",
    ),
];

fn solved() -> &'static [Row] {
    &SOLVED
}

const ANSWERS: [Row; 11] = [
    (
        "fairlive check m a",
        TOGGLE,
        TWO_POSITIONS,
        2,
        0,
        TWO_FROM_0,
    ),
    (
        "fairlive check m a",
        RISES,
        WALL,
        2,
        0,
        "accepted certificate j0 entries 1\n",
    ),
    (
        "fairlive check m a",
        STUCK,
        "1\nj0\n0\n\n.\n",
        2,
        1,
        "refused no fair loop\n",
    ),
    (
        "fairlive check m a",
        "aag\n",
        TWO_POSITIONS,
        1,
        3,
        "model refused header 0\n",
    ),
    (
        "fairlive wave m a",
        TOGGLE,
        TWO_POSITIONS,
        2,
        0,
        "$timescale 1ns $end\n",
    ),
    (
        "fairlive wave m a",
        RISES,
        WALL,
        2,
        1,
        "refused unknown status\n",
    ),
    (
        "fairlive wave m a",
        CYCLE,
        TWO_POSITIONS,
        1,
        3,
        "model refused cycle 2\n",
    ),
    (
        "fairlive convert m a",
        RISES,
        WALL,
        2,
        0,
        "0\nj0\nversion 2\n",
    ),
    ("fairlive trim m a", RISES, WALL, 2, 0, "0\nj0\nversion 2\n"),
    ("fairlive export m a 1 0", RISES, WALL, 2, 0, "p cnf 7 10\n"),
    (
        "fairlive export m a 1 1",
        RISES,
        WALL,
        2,
        10,
        "no item 1 1\n",
    ),
];

fn answers() -> &'static [Row] {
    &ANSWERS
}

const MADE: [Row; 6] = [
    (
        "fairlive gen ring 0 2",
        "",
        "",
        0,
        0,
        "aag 2 0 2 0 0 0 0 1\n2 4 1\n4 2\n2\n2\n4\n",
    ),
    (
        "fairlive gen scramble 0 1 --binary",
        "",
        "",
        0,
        0,
        "aig 5 2 1 0 2 0 0 1 1\n5 6\n2\n8\n11\n0\n\x01\x07\x03\x01",
    ),
    (
        "fairlive demo 1 4",
        "",
        "",
        0,
        0,
        "demo scramble 1 4\nverdict 0\n",
    ),
    (
        "fairlive demo 0 4",
        "",
        "",
        0,
        0,
        "demo scramble 0 4\nverdict 1\n",
    ),
    (
        "fairlive rounds m 1",
        STUCK,
        "",
        1,
        0,
        "rounds 1\nj0\nversion 2\n",
    ),
    (
        "fairlive check m a",
        TOGGLE,
        REACHED,
        2,
        0,
        "accepted rounds 2 j0 reached\n",
    ),
];

fn made() -> &'static [Row] {
    &MADE
}

const SHEETS: [Row; 7] = [
    (
        "fairlive solve m --all",
        TWO,
        "",
        1,
        0,
        "all 2\nversion 2\nlasso j0\n0\n\n\n.\nholds j1\n",
    ),
    (
        "fairlive solve m --all --steps 0",
        STUCK,
        "",
        1,
        2,
        "all 1\nversion 2\nopen j0\n",
    ),
    (
        "fairlive solve m --all --resume a",
        RISES,
        WALL,
        2,
        0,
        "all 1\nversion 2\nwall 1 0\n",
    ),
    (
        "fairlive solve m --all --steps 0 --resume a",
        APART,
        WITH_ENTRY,
        2,
        2,
        "all 2\nversion 2\nwall 1 0\n",
    ),
    (
        "fairlive check m a",
        TWO,
        SHEET,
        2,
        0,
        "accepted sheet lassos 1 ",
    ),
    (
        "fairlive wave m a",
        TWO,
        SHEET,
        2,
        0,
        "$timescale 1ns $end\n",
    ),
    ("fairlive", TOGGLE, TWO_POSITIONS, 0, 64, USAGE),
];

fn sheets() -> &'static [Row] {
    &SHEETS
}

/// How a run ends: its number, how long its text is, and whether that is the front of the whole one.
type End = (u8, u64, bool);

fn is_end(end: End, number: u8, len: u64) -> bool {
    let (found, found_len, is_front) = end;
    found == number && found_len == len && is_front
}

fn end_of(ran: &Ending, whole: &[u8]) -> End {
    let text = ran.text.as_slice();
    (
        ran.status.number(),
        text.len() as u64,
        whole.starts_with(text),
    )
}

// How the run of a row ends where these calls fail.
fn cut_run<R: Threads + Wait + Sync>(
    rt: &R,
    alloc: Global,
    row: &Row,
    most: u64,
    reads: &[u64],
    writes: &[u64],
    whole: &[u8],
) -> Result<End, AllocError> {
    let (words, model, answer, _, _, _) = row;
    let model = model.as_bytes();
    let ran = run_words(rt, alloc, words, model, answer, most, reads, writes)?;
    let end = end_of(&ran, whole);
    drop(ran);
    Ok(end)
}

// The text of a run that begins and ends as the row says; else an empty one.
fn text_of(alloc: Global, ran: Ending, row: &Row) -> Vec<u8> {
    let is_so = ran.status.number() == row.4 && ran.text.as_slice().starts_with(row.5.as_bytes());
    let Ending { status, text } = ran;
    drop(status);
    if is_so { text } else { Vec::new(alloc) }
}

// The text of a run without a failing call; an empty one where it does not begin or end as the row says.
fn whole_text<R: Threads + Wait + Sync>(
    rt: &R,
    alloc: Global,
    row: &Row,
) -> Result<Vec<u8>, AllocError> {
    let (words, model, answer, _, _, _) = row;
    let ran = run_words(rt, alloc, words, model.as_bytes(), answer, 1000, &[], &[])?;
    Ok(text_of(alloc, ran, row))
}

// How many reads a run makes: each that fails in turn ends it without a text, until none fails and it ends as without. None
// where a run ends otherwise.
fn reads_of<R: Threads + Wait + Sync>(
    rt: &R,
    alloc: Global,
    row: &Row,
    most: u64,
    whole: &[u8],
) -> Result<Option<u64>, AllocError> {
    for k in 1..1000 {
        let ended = cut_run(rt, alloc, row, most, &[k], &[], whole)?;
        if is_end(ended, row.4, whole.len() as u64) {
            return Ok(Some(k - 1));
        }
        if !is_end(ended, 4, 0) {
            return Ok(None);
        }
    }
    Ok(None)
}

// Whether each write that fails in turn leaves what was written before it, until the whole text is written and the run ends
// as without.
fn is_cut_by_writes<R: Threads + Wait + Sync>(
    rt: &R,
    alloc: Global,
    row: &Row,
    most: u64,
    whole: &[u8],
) -> Result<bool, AllocError> {
    let len = whole.len() as u64;
    let mut before: u64 = 0;
    for k in 1..1000 {
        let ended = cut_run(rt, alloc, row, most, &[], &[k], whole)?;
        if before >= len {
            return Ok(is_end(ended, row.4, len));
        }
        if !is_end(ended, 5, before) {
            return Ok(false);
        }
        before = before.saturating_add(most);
    }
    Ok(false)
}

// How many calls read a text of so many bytes, and then its end.
fn calls(len: usize, most: u64) -> u64 {
    let len = len as u64;
    let pieces = len.checked_div(most).unwrap_or(0);
    if pieces.saturating_mul(most) < len {
        pieces.saturating_add(2)
    } else {
        pieces.saturating_add(1)
    }
}

// How many calls read so many bytes, and more behind them.
fn pieces(len: u64, most: u64) -> u64 {
    most.saturating_add(len.saturating_sub(1))
        .checked_div(most)
        .unwrap_or(0)
}

// How many calls read the first line of the answer before the text is read again from its start: of a text about rounds, of
// nine bytes, once; of a sheet, of six bytes, twice by `check`, to which it is the third kind of text, and once by `wave`.
fn first_calls(row: &Row, most: u64) -> u64 {
    let (words, _, answer, _, _, _) = row;
    if answer.starts_with("rounds") {
        return pieces(9, most);
    }
    if !answer.starts_with("all") {
        return 0;
    }
    if words.starts_with("fairlive check") {
        return pieces(6, most).saturating_mul(2);
    }
    if words.starts_with("fairlive wave") {
        return pieces(6, most);
    }
    0
}

// How many calls read the texts that the row says.
fn calls_of(row: &Row, most: u64) -> u64 {
    let (_, model, answer, read, _, _) = row;
    match *read {
        0 => 0,
        1 => calls(model.len(), most),
        _ => calls(model.len(), most)
            .saturating_add(first_calls(row, most))
            .saturating_add(calls(answer.len(), most)),
    }
}

// Whether a run with this text is cut by each read and by each write of so many bytes, and reads no more than it has to.
fn is_cut<R: Threads + Wait + Sync>(
    rt: &R,
    alloc: Global,
    row: &Row,
    most: u64,
    whole: &[u8],
) -> Result<bool, AllocError> {
    if whole.is_empty() || reads_of(rt, alloc, row, most, whole)? != Some(calls_of(row, most)) {
        return Ok(false);
    }
    is_cut_by_writes(rt, alloc, row, most, whole)
}

// The same of the run that the row says.
fn is_cut_by_each<R: Threads + Wait + Sync>(
    rt: &R,
    alloc: Global,
    row: &Row,
    most: u64,
) -> Result<bool, AllocError> {
    let whole = whole_text(rt, alloc, row)?;
    is_cut(rt, alloc, row, most, &whole)
}

// The place of the first of these rows that ends otherwise, from 0.
fn wrong_row<R: Threads + Wait + Sync>(
    rt: &R,
    alloc: Global,
    rows: &[Row],
    most: u64,
) -> Result<Option<usize>, AllocError> {
    for (k, row) in rows.iter().enumerate() {
        if !is_cut_by_each(rt, alloc, row, most)? {
            return Ok(Some(k));
        }
    }
    Ok(None)
}

// The first wrong rows at three sizes of what a call takes.
fn wrong_rows<R: Threads + Wait + Sync>(
    rt: &R,
    alloc: Global,
    rows: &[Row],
) -> Result<[Option<usize>; 3], AllocError> {
    Ok([
        wrong_row(rt, alloc, rows, 1)?,
        wrong_row(rt, alloc, rows, 3)?,
        wrong_row(rt, alloc, rows, 1000)?,
    ])
}

/// Each read failing in turn ends a run without a text, and each write failing in turn leaves exactly what was written before
/// it, at three sizes of what a call takes.
#[test]
fn failing_calls(rt: HostRuntime) -> Result<(), Fail> {
    assert_eq!(rt; wrong_rows(&rt, rt.alloc(), solved())?, [None; 3]);
    assert_eq!(rt; wrong_rows(&rt, rt.alloc(), answers())?, [None; 3]);
    assert_eq!(rt; wrong_rows(&rt, rt.alloc(), made())?, [None; 3]);
    assert_eq!(rt; wrong_rows(&rt, rt.alloc(), sheets())?, [None; 3]);
    Ok(())
}
