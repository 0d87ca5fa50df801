//! Runs of `gen`: its texts, made by another program, and its words.

use crate::runs::{Ending, ends_so, first_taken, run_words};
use crate::tests::TWO_FROM_0;
use aiger_names::Model;
use circuit::ModelEnd;
use fair_top::{Done, Status};
use std::alloc::{AllocError, Global};
use std::sync::Wait;
use std::test::Fail;
use std::thread::Threads;

const RING: &str = "aag 2 0 2 0 0 0 0 1\n2 4 1\n4 2\n2\n2\n4\n";

const RING_IN_ASCII: &[u8] = b"aag 2 0 2 0 0 0 0 1\n2 4 1\n4 2\n2\n2\n4\n";

const RING_IN_BINARY: &[u8] = b"aig 2 0 2 0 0 0 0 1\n4 1\n2\n2\n2\n4\n";

/// Words, and the text that is written.
type Row = (&'static str, &'static [u8]);

const MODELS: [Row; 10] = [
    ("fairlive gen ring 0 2", RING_IN_ASCII),
    ("fairlive gen ring 0 2 --binary", RING_IN_BINARY),
    (
        "fairlive gen ring 5 3",
        b"aag 3 0 3 0 0 0 0 1\n2 6\n4 2\n6 4 1\n3\n2\n4\n6\n",
    ),
    (
        "fairlive gen ring 5 3 --binary",
        b"aig 3 0 3 0 0 0 0 1\n6\n2\n4 1\n3\n2\n4\n6\n",
    ),
    (
        "fairlive gen scramble 0 1",
        b"aag 5 2 1 0 2 0 0 1 1\n2\n4\n6 5 6\n2\n8\n11\n0\n8 7 0\n10 7 6\n",
    ),
    (
        "fairlive gen scramble 0 1 --binary",
        b"aig 5 2 1 0 2 0 0 1 1\n5 6\n2\n8\n11\n0\n\x01\x07\x03\x01",
    ),
    (
        "fairlive gen scramble 7 2",
        b"aag 8 2 2 0 4 0 0 1 1\n2\n4\n6 13 1\n8 13 8\n2\n2\n2\n15\n10 8 1\n12 9 5\n14 7 1\n16 8 4\n",
    ),
    (
        "fairlive gen scramble 7 2 --binary",
        b"aig 8 2 2 0 4 0 0 1 1\n13 1\n13 8\n2\n2\n2\n15\n\x02\x07\x03\x04\x07\x06\x08\x04",
    ),
    (
        "fairlive gen scramble 4294967295 2",
        b"aag 8 2 2 0 4 0 0 1 1\n2\n4\n6 7\n8 15 1\n2\n1\n7\n16\n10 9 6\n12 11 4\n14 11 10\n16 8 8\n",
    ),
    (
        "fairlive gen scramble 4294967295 2 --binary",
        b"aig 8 2 2 0 4 0 0 1 1\n7\n15 1\n2\n1\n7\n16\n\x01\x03\x01\x07\x03\x01\x08\x00",
    ),
];

fn models() -> &'static [Row] {
    &MODELS
}

/// Runs these words, with at most `most` bytes a call.
fn run_gen<R: Threads + Wait + Sync>(
    rt: &R,
    alloc: Global,
    words: &str,
    most: u64,
) -> Result<Ending, AllocError> {
    run_words(rt, alloc, words, b"", "", most, &[], &[])
}

/// The place of the first words that are not answered so, from 0.
fn wrong_row<R: Threads + Wait + Sync>(
    rt: &R,
    alloc: Global,
    rows: &[Row],
) -> Result<Option<usize>, AllocError> {
    for (k, (words, text)) in rows.iter().enumerate() {
        if !ends_so(rt, alloc, words, b"", "", text, 0)? {
            return Ok(Some(k));
        }
    }
    Ok(None)
}

/// Whether the status says that the text of a model was written.
fn is_printed(status: &Status) -> bool {
    matches!(status, Status::Done(Done::Printed))
}

fn ring_is_printed<R: Threads + Wait + Sync>(rt: &R, alloc: Global) -> Result<bool, AllocError> {
    let ran = run_gen(rt, alloc, "fairlive gen ring 0 2", 7)?;
    let is_so = is_printed(&ran.status);
    drop(ran);
    Ok(is_so)
}

/// The texts of both forms, at once and at one byte a call.
#[test]
fn models_of_gen(rt: HostRuntime) -> Result<(), Fail> {
    assert_eq!(rt; wrong_row(&rt, rt.alloc(), models())?, None);
    assert!(rt; ring_is_printed(&rt, rt.alloc())?);
    Ok(())
}

fn ring_goes_round<R: Threads + Wait + Sync>(
    rt: &R,
    alloc: Global,
    model: &[u8],
) -> Result<bool, AllocError> {
    let words = "fairlive check m a";
    let answer = "1\nj0\n10\n\n\n.\n";
    ends_so(rt, alloc, words, model, answer, TWO_FROM_0.as_bytes(), 0)
}

/// The ring is checked in both forms: its latches are 10, then 01, then 10 again.
#[test]
fn answers_of_a_ring(rt: HostRuntime) -> Result<(), Fail> {
    assert!(rt; ring_goes_round(&rt, rt.alloc(), RING.as_bytes())?);
    assert!(rt; ring_goes_round(&rt, rt.alloc(), RING_IN_BINARY)?);
    Ok(())
}

// The calls, in functions without a contract: no clause of them is wanted here.
fn read_binary(alloc: Global, text: &[u8]) -> Result<Model, ModelEnd> {
    aiger_binary::read(alloc, text)
}

fn write_ascii(alloc: Global, model: &Model) -> Result<Vec<u8>, AllocError> {
    aiger_ascii::write(alloc, model)
}

/// The ASCII text of the model that a binary text stands for.
fn in_ascii(alloc: Global, text: &[u8]) -> Result<Vec<u8>, AllocError> {
    match read_binary(alloc, text) {
        Ok(model) => {
            let text = write_ascii(alloc, &model);
            drop(model);
            text
        }
        Err(_) => Err(AllocError),
    }
}

/// Whether both texts stand for one model.
fn are_one(alloc: Global, ascii: &[u8], binary: &[u8]) -> Result<bool, AllocError> {
    let read = in_ascii(alloc, binary)?;
    Ok(read.as_slice() == ascii)
}

/// What a run of these words writes; an empty text where it does not end with 0.
fn text_of<R: Threads + Wait + Sync>(
    rt: &R,
    alloc: Global,
    words: &str,
) -> Result<Vec<u8>, AllocError> {
    let Ending { status, text } = run_gen(rt, alloc, words, 1000)?;
    let number = status.number();
    drop(status);
    Ok(if number == 0 { text } else { Vec::new(alloc) })
}

/// Whether the binary form of a drawn model is so long, and stands for the model of this text.
fn is_its_binary<R: Threads + Wait + Sync>(
    rt: &R,
    alloc: Global,
    row: &Drawn,
    ascii: &[u8],
) -> Result<bool, AllocError> {
    let binary = text_of(rt, alloc, row.1)?;
    if binary.len() != row.3 {
        return Ok(false);
    }
    are_one(alloc, ascii, &binary)
}

/// Whether both forms of a drawn model are so long, and stand for one model.
fn are_one_model<R: Threads + Wait + Sync>(
    rt: &R,
    alloc: Global,
    row: &Drawn,
) -> Result<bool, AllocError> {
    let ascii = text_of(rt, alloc, row.0)?;
    if ascii.len() != row.2 {
        return Ok(false);
    }
    is_its_binary(rt, alloc, row, &ascii)
}

/// Words that ask for a model in ASCII and in binary, and how long the texts are.
type Drawn = (&'static str, &'static str, usize, usize);

const SMALL: Drawn = (
    "fairlive gen scramble 7 2",
    "fairlive gen scramble 7 2 --binary",
    77,
    49,
);

const LARGE: Drawn = (
    "fairlive gen scramble 4294967295 256",
    "fairlive gen scramble 4294967295 256 --binary",
    8849,
    3282,
);

/// Both forms stand for one model, also of the greatest seed and size.
#[test]
fn forms_of_a_scramble(rt: HostRuntime) -> Result<(), Fail> {
    assert!(rt; are_one_model(&rt, rt.alloc(), &SMALL)?);
    assert!(rt; are_one_model(&rt, rt.alloc(), &LARGE)?);
    Ok(())
}

const NO_REQUESTS: [&str; 18] = [
    "fairlive gen",
    "fairlive gen ring",
    "fairlive gen ring 0",
    "fairlive gen rings 0 2",
    "fairlive gen Ring 0 2",
    "fairlive gen  0 2",
    "fairlive gen ring -1 2",
    "fairlive gen ring 4294967296 2",
    "fairlive gen ring 18446744073709551616 2",
    "fairlive gen ring 0 0",
    "fairlive gen ring 0 257",
    "fairlive gen ring 0 2 --binary --binary",
    "fairlive gen ring 0 2 --binary=true",
    "fairlive gen ring 0 2 x",
    "fairlive gen ring x 2",
    "fairlive gen ring  2",
    "fairlive gen ring 0 2 --help",
    "fairlive gen ring 0 2 -- --binary",
];

fn no_requests() -> &'static [&'static str] {
    &NO_REQUESTS
}

/// Words that ask for no model.
#[test]
fn words_that_gen_refuses(rt: HostRuntime) -> Result<(), Fail> {
    assert_eq!(rt; first_taken(&rt, rt.alloc(), no_requests(), "", "")?, None);
    Ok(())
}

const CUSTOMS: [Row; 4] = [
    ("fairlive gen ring +0 002", RING_IN_ASCII),
    ("fairlive gen ring 0 -- 2", RING_IN_ASCII),
    ("fairlive gen --binary ring 0 2", RING_IN_BINARY),
    ("fairlive gen ring --binary 0 2", RING_IN_BINARY),
];

fn customs() -> &'static [Row] {
    &CUSTOMS
}

/// Words that are taken by the customs of the command line.
#[test]
fn words_that_gen_takes(rt: HostRuntime) -> Result<(), Fail> {
    assert_eq!(rt; wrong_row(&rt, rt.alloc(), customs())?, None);
    Ok(())
}
