//! ASCII texts of models: faults and places worked out by hand from the format, and texts of small models.
use aiger_ascii::{ascii_laws, read, write};
use aiger_names::Model;
use circuit::{ModelEnd, ModelFault};
use std::alloc::{AllocError, Global};
use std::test::*;

// Lines begin at 0, 22, 24, 30, 32, 34, 36, 38, 40, 42, 44, 50 and 55.
const TEXT: &[u8] = b"aag 4 1 1 1 1 1 1 1 1\n2\n4 2 1\n6\n7\n1\n2\n2\n4\n0\n6 4 3\ni0 x\nc\nany";

const ALL: usize = 100;

// From where, how many bytes are replaced, by what, and the fault.
type Fault = (usize, usize, &'static str, ModelFault);

fn faults_of_header_and_numbers() -> &'static [Fault] {
    &[
        (0, ALL, "", ModelFault::Truncated(0)),
        (2, ALL, "", ModelFault::Truncated(2)),
        (9, ALL, "", ModelFault::Truncated(9)),
        (21, ALL, "", ModelFault::Truncated(21)),
        (4, ALL, "0 9", ModelFault::Truncated(7)),
        (1, 1, "i", ModelFault::Header(0)),
        (4, 1, "04", ModelFault::Header(0)),
        (4, ALL, "4294967296", ModelFault::Header(0)),
        (4, 1, "2", ModelFault::Header(0)),
        (21, 0, " 1", ModelFault::Header(0)),
        (4, 1, "16777217", ModelFault::Limit(0)),
        (22, 1, "02", ModelFault::Number(22)),
        (22, ALL, "02", ModelFault::Number(22)),
        (22, 1, "x", ModelFault::Number(22)),
        (22, 1, "", ModelFault::Number(22)),
        (22, 1, "4294967296", ModelFault::Number(22)),
        (23, 1, " ", ModelFault::Number(23)),
        (27, 2, "x", ModelFault::Number(27)),
        (29, 1, " ", ModelFault::Number(29)),
        (48, 1, "", ModelFault::Number(48)),
        (49, 1, " ", ModelFault::Number(49)),
        (48, ALL, "4294967296", ModelFault::Number(48)),
    ]
}

fn other_faults() -> &'static [Fault] {
    &[
        (22, 1, "3", ModelFault::Range(22)),
        (22, 1, "0", ModelFault::Range(22)),
        (22, ALL, "10", ModelFault::Range(22)),
        (26, 1, "10", ModelFault::Range(26)),
        (28, 1, "2", ModelFault::Range(28)),
        (30, 1, "10", ModelFault::Range(30)),
        (42, 1, "10", ModelFault::Range(42)),
        (44, 1, "7", ModelFault::Range(44)),
        (48, 1, "10x", ModelFault::Range(48)),
        (22, ALL, "", ModelFault::Truncated(22)),
        (23, ALL, "", ModelFault::Truncated(23)),
        (27, ALL, "", ModelFault::Truncated(27)),
        (37, ALL, "", ModelFault::Truncated(37)),
        (49, ALL, "", ModelFault::Truncated(49)),
        (36, 1, "256", ModelFault::Limit(36)),
        (36, ALL, "256", ModelFault::Limit(36)),
        (36, ALL, "255", ModelFault::Truncated(39)),
        (50, 1, "x", ModelFault::Trailing(50)),
        (50, 0, "\n", ModelFault::Trailing(50)),
        (55, 1, "d", ModelFault::Trailing(55)),
        (51, 1, "1", ModelFault::Symbol(50)),
        (53, 1, "", ModelFault::Symbol(50)),
        (52, 1, "", ModelFault::Symbol(50)),
        (54, ALL, "", ModelFault::Symbol(50)),
        (55, ALL, "c7 x\n", ModelFault::Symbol(55)),
        (24, 1, "2", ModelFault::Twice(1)),
        (44, 1, "4", ModelFault::Twice(2)),
        (44, 1, "8", ModelFault::Undefined(3)),
        (26, 1, "8", ModelFault::Undefined(4)),
        (46, 1, "6", ModelFault::Cycle(3)),
        (46, 3, "7 8", ModelFault::Undefined(4)),
    ]
}

fn edited(alloc: Global, at: usize, cut: usize, put: &str) -> Result<Vec<u8>, AllocError> {
    let mut text = Vec::new(alloc);
    for (i, byte) in TEXT.iter().enumerate() {
        if i == at {
            text.extend_from_slice(put.as_bytes())?;
        }
        if i < at || i - at >= cut {
            text.push(*byte)?;
        }
    }
    Ok(text)
}

// The calls, in functions without a contract: no clause of them is wanted here.
fn model_of(alloc: Global, text: &[u8]) -> Result<Model, ModelEnd> {
    read(alloc, text)
}

fn text_of(alloc: Global, model: &Model) -> Result<Vec<u8>, AllocError> {
    write(alloc, model)
}

// Whether the text has this fault.
fn has_fault(alloc: Global, text: &[u8], wanted: ModelFault) -> bool {
    model_of(alloc, text).err() == Some(ModelEnd::Fault(wanted))
}

fn is_faulty(
    alloc: Global,
    at: usize,
    cut: usize,
    put: &str,
    wanted: ModelFault,
) -> Result<bool, AllocError> {
    let text = edited(alloc, at, cut, put)?;
    Ok(has_fault(alloc, text.as_slice(), wanted))
}

// The place of the first row with another fault, from 0.
fn wrong_fault(alloc: Global, rows: &[Fault]) -> Result<Option<usize>, AllocError> {
    for (k, (at, cut, put, wanted)) in rows.iter().enumerate() {
        if !is_faulty(alloc, *at, *cut, put, *wanted)? {
            return Ok(Some(k));
        }
    }
    Ok(None)
}

#[test]
fn faults(rt: HostRuntime) -> Result<(), Fail> {
    ascii_laws();
    assert_eq!(rt;
        wrong_fault(rt.alloc(), faults_of_header_and_numbers())?,
        None
    );
    assert_eq!(rt; wrong_fault(rt.alloc(), other_faults())?, None);
    Ok(())
}

// A text, and the text that is written of its model.
type Written = (&'static [u8], &'static [u8]);

fn all_models() -> &'static [Written] {
    &[
        (TEXT, TEXT),
        (b"aag 0 0 0 0 0\n", b"aag 0 0 0 0 0\n"),
        (b"aag 0 0 0 0 0 0 0 0 0\nc", b"aag 0 0 0 0 0\nc"),
        (b"aag 1 0 1 0 0\n2 2 0\n", b"aag 1 0 1 0 0\n2 2\n"),
        (
            b"aag 1 1 0 0 0\n2\ni0 \xff \r\ni0 x\nc\x00",
            b"aag 1 1 0 0 0\n2\ni0 \xff \r\ni0 x\nc\x00",
        ),
        (
            b"aag 1 0 1 0 0 0 1 1 0\n2 2 2\n3\n1\n2\n",
            b"aag 1 0 1 0 0 0 1 1\n2 2 2\n3\n1\n2\n",
        ),
        (
            b"aag 6 0 2 0 4 0 0 1 0\n2 3\n4 11\n1\n12\n6 5 2\n8 4 3\n10 9 7\n12 4 2\n",
            b"aag 6 0 2 0 4 0 0 1\n2 3\n4 11\n1\n12\n6 5 2\n8 4 3\n10 9 7\n12 4 2\n",
        ),
        (
            b"aag 1 0 1 0 0 0 0 1 0\n2 3\n1\n0\n",
            b"aag 1 0 1 0 0 0 0 1\n2 3\n1\n0\n",
        ),
    ]
}

fn is_text(alloc: Global, model: &Model, wanted: &[u8]) -> Result<bool, AllocError> {
    let text = text_of(alloc, model)?;
    Ok(text.as_slice() == wanted)
}

// Whether a model is read, and has this text.
fn is_written(alloc: Global, text: &[u8], wanted: &[u8]) -> Result<bool, AllocError> {
    match model_of(alloc, text) {
        Ok(model) => {
            let is_so = is_text(alloc, &model, wanted);
            drop(model);
            is_so
        }
        Err(_) => Ok(false),
    }
}

// The place of the first text that is read or written otherwise, from 0.
fn wrong_model(alloc: Global) -> Result<Option<usize>, AllocError> {
    for (k, (text, wanted)) in all_models().iter().enumerate() {
        if !is_written(alloc, text, wanted)? {
            return Ok(Some(k));
        }
    }
    Ok(None)
}

#[test]
fn models(rt: HostRuntime) -> Result<(), Fail> {
    assert_eq!(rt; wrong_model(rt.alloc())?, None);
    Ok(())
}
