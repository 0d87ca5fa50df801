//! Binary texts and places worked out by hand from the format.
use aiger_binary::{binary_laws, is_ordered, read, write};
use aiger_names::Model;
use circuit::{ModelEnd, ModelFault};
use std::alloc::{AllocError, Global};
use std::test::*;

// Lines begin at 0, 22, 24 and 26, the deltas at 28 and 29, the symbol at 30, the comment at 35. The gate's literal is 6,
// and its right sides are 4 and 2.
const TEXT: &[u8] = b"aig 3 1 1 0 1 0 0 1 0\n6\n1\n4\n\x02\x02l0 t\nc\nany";

const GATES_END: usize = 30;

const SYMBOL_END: usize = 35;

const ALL: usize = 100;

// From where, how many bytes are replaced, by what, and the fault.
type Fault = (usize, usize, &'static [u8], ModelFault);

const FAULTS: [Fault; 38] = [
    (4, 1, b"4", ModelFault::Header(0)),
    (4, 1, b"2", ModelFault::Header(0)),
    (1, 1, b"a", ModelFault::Header(0)),
    (4, 3, b"16777218 16777216", ModelFault::Limit(0)),
    (22, 1, b"8", ModelFault::Range(22)),
    (22, 1, b"06", ModelFault::Number(22)),
    (23, 1, b" 2\n", ModelFault::Range(24)),
    (24, 1, b"257", ModelFault::Limit(24)),
    // the first delta is cut off behind each of its bytes; whole it is too great for the gate
    (28, ALL, b"\x82", ModelFault::Truncated(29)),
    (28, ALL, b"\xff", ModelFault::Truncated(29)),
    (28, ALL, b"\xff\xff", ModelFault::Truncated(30)),
    (28, ALL, b"\xff\xff\xff", ModelFault::Truncated(31)),
    (28, ALL, b"\xff\xff\xff\xff", ModelFault::Truncated(32)),
    (28, ALL, b"\xff\xff\xff\xff\x0f", ModelFault::Range(28)),
    (28, ALL, b"\xff\xff\xff\xff\x80", ModelFault::Truncated(33)),
    // it is too great for any gate
    (28, ALL, b"\xff\xff\xff\xff\x10", ModelFault::Number(28)),
    (
        28,
        ALL,
        b"\xff\xff\xff\xff\xff\xff\xff\xff\xff\xff",
        ModelFault::Number(28),
    ),
    // it is 0, or one more than the gate's literal
    (28, 1, b"\x00", ModelFault::Range(28)),
    (28, 1, b"\x07", ModelFault::Range(28)),
    // its last group is 0
    (28, 1, b"\x82\x00", ModelFault::Number(28)),
    (28, 1, b"\x80\x00", ModelFault::Number(28)),
    (
        28,
        1,
        b"\x80\x80\x80\x80\x80\x80\x00",
        ModelFault::Number(28),
    ),
    // the same of the second delta, of which 5 is one more than the first right side
    (29, ALL, b"\x84\x80", ModelFault::Truncated(31)),
    (29, 1, b"\x05", ModelFault::Range(29)),
    (28, 2, b"\x06\x01", ModelFault::Range(29)),
    (28, 2, b"\x01\x06", ModelFault::Range(29)),
    (29, 1, b"\x84\x00", ModelFault::Number(29)),
    (29, 1, b"\xff\xff\xff\xff\x10", ModelFault::Number(29)),
    // behind the gates
    (30, ALL, b"\n", ModelFault::Trailing(30)),
    (30, 0, b"\n", ModelFault::Trailing(30)),
    (30, 1, b"x", ModelFault::Trailing(30)),
    (30, 0, b"\x02", ModelFault::Trailing(30)),
    (31, 1, b"1", ModelFault::Symbol(30)),
    (30, ALL, b"l1 t\n", ModelFault::Symbol(30)),
    (30, 1, b"o", ModelFault::Symbol(30)),
    (33, 1, b"", ModelFault::Symbol(30)),
    (35, ALL, b"c0 t\n", ModelFault::Symbol(35)),
    (35, 1, b"d", ModelFault::Trailing(35)),
];

fn fault_rows() -> &'static [Fault] {
    &FAULTS
}

// A text, and the text that is written of its model.
type Written = (&'static [u8], &'static [u8]);

const MODELS: [Written; 13] = [
    (TEXT, b"aig 3 1 1 0 1 0 0 1\n6\n1\n4\n\x02\x02l0 t\nc\nany"),
    (
        b"aig 3 1 1 0 1 0 0 1 0\n6\n1\n4\n\x02\x02l0 t\ncany",
        b"aig 3 1 1 0 1 0 0 1\n6\n1\n4\n\x02\x02l0 t\ncany",
    ),
    (
        b"aig 3 1 1 0 1 0 0 1\n6\n1\n4\n\x02\x02",
        b"aig 3 1 1 0 1 0 0 1\n6\n1\n4\n\x02\x02",
    ),
    // each delta at its least and its greatest
    (b"aig 2 1 0 0 1\n\x01\x00", b"aig 2 1 0 0 1\n\x01\x00"),
    (b"aig 2 1 0 0 1\n\x01\x03", b"aig 2 1 0 0 1\n\x01\x03"),
    (b"aig 2 1 0 0 1\n\x04\x00", b"aig 2 1 0 0 1\n\x04\x00"),
    // deltas of 300, 2, 130 and 130, of a gate whose literal is 302
    (
        b"aig 151 150 0 0 1\n\xac\x02\x02",
        b"aig 151 150 0 0 1\n\xac\x02\x02",
    ),
    (
        b"aig 151 150 0 0 1\n\x82\x01\x82\x01",
        b"aig 151 150 0 0 1\n\x82\x01\x82\x01",
    ),
    // resets: the latches have the literals 2, 4, 6 and 8
    (
        b"aig 4 0 4 0 0\n2\n4 0\n6 1\n8 8\n",
        b"aig 4 0 4 0 0\n2\n4\n6 1\n8 8\n",
    ),
    (
        b"aig 3 1 1 1 1 1 1 1 1\n2 1\n6\n7\n1\n2\n2\n4\n0\n\x02\x01i0 x\nc",
        b"aig 3 1 1 1 1 1 1 1 1\n2 1\n6\n7\n1\n2\n2\n4\n0\n\x02\x01i0 x\nc",
    ),
    (b"aig 0 0 0 0 0 0 0 0 0\n", b"aig 0 0 0 0 0\n"),
    (b"aig 1 1 0 0 0\n", b"aig 1 1 0 0 0\n"),
    (
        b"aig 1 1 0 0 0\ni0 \xff \r\nc\x00",
        b"aig 1 1 0 0 0\ni0 \xff \r\nc\x00",
    ),
];

fn written_rows() -> &'static [Written] {
    &MODELS
}

fn edited(alloc: Global, at: usize, cut: usize, put: &[u8]) -> Result<Vec<u8>, AllocError> {
    let mut text = Vec::new(alloc);
    for (i, byte) in TEXT.iter().enumerate() {
        if i == at {
            text.extend_from_slice(put)?;
        }
        if i < at || i - at >= cut {
            text.push(*byte)?;
        }
    }
    Ok(text)
}

// Whether the text has this fault, or is read where there is to be none.
fn says(alloc: Global, text: &[u8], wanted: Option<ModelFault>) -> bool {
    match read(alloc, text) {
        Ok(model) => {
            drop(model);
            wanted == None
        }
        Err(ModelEnd::Fault(fault)) => wanted == Some(fault),
        Err(ModelEnd::Memory) => false,
    }
}

// Whether the front of the text is answered as where it was cut off wants.
fn says_of_front(alloc: Global, length: usize) -> bool {
    let wanted = if length < GATES_END {
        Some(ModelFault::Truncated(length as u64))
    } else if GATES_END < length && length < SYMBOL_END {
        Some(ModelFault::Symbol(GATES_END as u64))
    } else {
        None
    };
    match TEXT.get(..length) {
        Some(front) => says(alloc, front, wanted),
        None => false,
    }
}

fn is_text(alloc: Global, model: &Model, wanted: &[u8]) -> Result<bool, AllocError> {
    if !is_ordered(model) {
        return Ok(false);
    }
    let written = write(alloc, model)?;
    Ok(written.as_slice() == wanted)
}

// Whether a model is read, and has this text.
fn is_written(alloc: Global, row: &Written) -> Result<bool, AllocError> {
    let (text, wanted) = *row;
    match read(alloc, text) {
        Ok(model) => {
            let is_so = is_text(alloc, &model, wanted);
            drop(model);
            is_so
        }
        Err(_) => Ok(false),
    }
}

fn is_faulty(alloc: Global, row: &Fault) -> Result<bool, AllocError> {
    let (at, cut, put, wanted) = *row;
    let text = edited(alloc, at, cut, put)?;
    Ok(says(alloc, text.as_slice(), Some(wanted)))
}

#[test]
fn binary_faults(rt: HostRuntime) -> Result<(), Fail> {
    binary_laws();
    for (k, row) in fault_rows().iter().enumerate() {
        assert!(rt; is_faulty(rt.alloc(), row)?, "of row {k}");
    }
    Ok(())
}

#[test]
fn cut_binary_texts(rt: HostRuntime) -> Result<(), Fail> {
    for length in 0..=TEXT.len() {
        assert!(rt; says_of_front(rt.alloc(), length), "of {length} bytes");
    }
    Ok(())
}

#[test]
fn binary_models(rt: HostRuntime) -> Result<(), Fail> {
    for (k, row) in written_rows().iter().enumerate() {
        assert!(rt; is_written(rt.alloc(), row)?, "of row {k}");
    }
    Ok(())
}
