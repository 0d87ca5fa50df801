//! Runs of `demo`: summaries of models whose verdicts were found by a search over all their states, and words that it
//! refuses.

use crate::runs::{Ending, first_taken, is_end, run_words};
use fair_top::{Done, Status};
use std::alloc::{AllocError, Global};
use std::sync::Wait;
use std::test::Fail;
use std::thread::Threads;
use text_grammar::push_number;

/// Words, and how the summary begins.
type Row = (&'static str, &'static str);

const MODELS: [Row; 12] = [
    (
        "fairlive demo 1 4",
        "demo scramble 1 4\nverdict 0\nentries ",
    ),
    (
        "fairlive demo 0 1",
        "demo scramble 0 1\nverdict 0\nentries ",
    ),
    (
        "fairlive demo 3 1",
        "demo scramble 3 1\nverdict 1\nentries ",
    ),
    (
        "fairlive demo 4 2",
        "demo scramble 4 2\nverdict 1\nentries ",
    ),
    (
        "fairlive demo 7 3",
        "demo scramble 7 3\nverdict 1\nentries ",
    ),
    (
        "fairlive demo 0 4",
        "demo scramble 0 4\nverdict 1\nentries ",
    ),
    (
        "fairlive demo 2 4",
        "demo scramble 2 4\nverdict 1\nentries ",
    ),
    (
        "fairlive demo 4 4",
        "demo scramble 4 4\nverdict 0\nentries ",
    ),
    (
        "fairlive demo 10 5",
        "demo scramble 10 5\nverdict 0\nentries ",
    ),
    (
        "fairlive demo 3 6",
        "demo scramble 3 6\nverdict 1\nentries ",
    ),
    (
        "fairlive demo 0 8",
        "demo scramble 0 8\nverdict 0\nentries ",
    ),
    (
        "fairlive demo 2 8",
        "demo scramble 2 8\nverdict 1\nentries ",
    ),
];

fn models() -> &'static [Row] {
    &MODELS
}

// How many entries the board has with which a run ended, if it ended with one that has an outcome.
fn entry_count(status: &Status) -> Option<u64> {
    match status {
        Status::Done(Done::Demo(board)) => match board.outcome(0) {
            Some(_) => Some(board.entries().len() as u64),
            None => None,
        },
        _ => None,
    }
}

fn push_count(text: &mut Vec<u8>, count: u64) -> Result<(), AllocError> {
    push_number(text, count)
}

// The summary of a model with so many entries.
fn summary(alloc: Global, row: &Row, entries: u64) -> Result<Vec<u8>, AllocError> {
    let mut text = Vec::new(alloc);
    text.extend_from_slice(row.1.as_bytes())?;
    push_count(&mut text, entries)?;
    text.extend_from_slice(b"\ncheck accepted\n")?;
    Ok(text)
}

fn is_written(alloc: Global, ran: &Ending, row: &Row, entries: u64) -> Result<bool, AllocError> {
    let text = summary(alloc, row, entries)?;
    Ok(is_end(ran, text.as_slice(), 0))
}

// How many entries the board has with which a run ended, if its summary, with the row's verdict, is what it wrote.
fn summed_up(alloc: Global, ran: &Ending, row: &Row) -> Result<Option<u64>, AllocError> {
    match entry_count(&ran.status) {
        Some(entries) => {
            let is_so = is_written(alloc, ran, row, entries)?;
            Ok(is_so.then_some(entries))
        }
        None => Ok(None),
    }
}

// The same of a run for the model, with at most so many bytes a call over a shelf whose first read fails or not.
fn run_summed<R: Threads + Wait + Sync>(
    rt: &R,
    alloc: Global,
    row: &Row,
    most: u64,
    reads: &[u64],
) -> Result<Option<u64>, AllocError> {
    let ran = run_words(rt, alloc, row.0, b"", "", most, reads, &[])?;
    let entries = summed_up(alloc, &ran, row);
    drop(ran);
    entries
}

// Whether two runs for a model write one summary, with its verdict, the second one at 7 bytes a call over a shelf whose
// first read fails.
fn is_summed_up<R: Threads + Wait + Sync>(
    rt: &R,
    alloc: Global,
    row: &Row,
) -> Result<bool, AllocError> {
    let entries = run_summed(rt, alloc, row, 1000, &[])?;
    let again = run_summed(rt, alloc, row, 7, &[1])?;
    Ok(entries.is_some() && entries == again)
}

// The place of the first model that is not summed up so, from 0.
fn wrong_model<R: Threads + Wait + Sync>(
    rt: &R,
    alloc: Global,
) -> Result<Option<usize>, AllocError> {
    for (k, row) in models().iter().enumerate() {
        if !is_summed_up(rt, alloc, row)? {
            return Ok(Some(k));
        }
    }
    Ok(None)
}

#[test]
fn summaries_of_demo(rt: HostRuntime) -> Result<(), Fail> {
    assert_eq!(rt; wrong_model(&rt, rt.alloc())?, None);
    Ok(())
}

const NO_REQUESTS: [&str; 12] = [
    "fairlive demo",
    "fairlive demo 1",
    "fairlive demo 1 4 4",
    "fairlive demo 1 0",
    "fairlive demo 1 257",
    "fairlive demo -1 4",
    "fairlive demo 4294967296 4",
    "fairlive demo x 4",
    "fairlive demo  4",
    "fairlive demo 1 4 --binary",
    "fairlive demo 1 4 --workers 2",
    "fairlive demo 1 4 --help",
];

fn no_requests() -> &'static [&'static str] {
    &NO_REQUESTS
}

/// Words that ask for no summary.
#[test]
fn words_that_demo_refuses(rt: HostRuntime) -> Result<(), Fail> {
    assert_eq!(rt; first_taken(&rt, rt.alloc(), no_requests(), "", "")?, None);
    Ok(())
}
