//! Texts of names, judged by hand from the format's own words.
use aiger_names::{Counts, Names, read_names, write_names};
use circuit::{ModelEnd, ModelFault};
use std::alloc::{AllocError, Global};
use std::test::*;

const COUNTS: Counts = Counts {
    i: 1,
    l: 1,
    o: 0,
    b: 0,
    c: 2,
    j: 0,
    f: 11,
};

// The text behind two other bytes, and how many symbols it has with the length of its comment, or its fault.
type Text = (&'static [u8], Result<(usize, Option<usize>), ModelFault>);

fn texts() -> &'static [Text] {
    &[
        (b"", Ok((0, None))),
        (b"c", Ok((0, Some(0)))),
        (b"c\n\xff\nc1", Ok((0, Some(5)))),
        (b"i0 a\nl0 \x00\xff \ni0 a\n", Ok((3, None))),
        (b"c1 x\nf10 c\ncc1 x", Ok((2, Some(4)))),
        (b"l0 t\nc\nany", Ok((1, Some(4)))),
        (b"x", Err(ModelFault::Trailing(2))),
        (b"\n", Err(ModelFault::Trailing(2))),
        (b"i0 a\n0", Err(ModelFault::Trailing(7))),
        (b"i1 a\n", Err(ModelFault::Symbol(2))),
        (b"o0 a\n", Err(ModelFault::Symbol(2))),
        (b"i0 a\nl0 b", Err(ModelFault::Symbol(7))),
        (b"i0 \n", Err(ModelFault::Symbol(2))),
        (b"i00 a\n", Err(ModelFault::Symbol(2))),
        (b"i0  a\ni", Err(ModelFault::Symbol(8))),
        (b"i0\ta\n", Err(ModelFault::Symbol(2))),
        (b"i4294967296 a\n", Err(ModelFault::Symbol(2))),
        (b"c2 x\n", Err(ModelFault::Symbol(2))),
        (b"c1", Err(ModelFault::Symbol(2))),
    ]
}

// The calls, in functions without a contract: no clause of them is wanted here.
fn names_in(alloc: Global, text: &[u8]) -> Result<Names, ModelEnd> {
    if text.len() < 2 {
        return Err(ModelEnd::Memory);
    }
    read_names(alloc, text, 2, &COUNTS)
}

fn text_of(alloc: Global, names: &Names) -> Result<Vec<u8>, AllocError> {
    write_names(alloc, names)
}

fn names_of(alloc: Global, text: &[u8]) -> Result<Names, ModelEnd> {
    let mut whole = Vec::from_slice(alloc, b"##")?;
    whole.extend_from_slice(text)?;
    names_in(alloc, whole.as_slice())
}

fn is_written(alloc: Global, names: &Names, text: &[u8]) -> Result<bool, AllocError> {
    let written = text_of(alloc, names)?;
    Ok(written.as_slice() == text)
}

fn lengths_of(names: &Names) -> (usize, Option<usize>) {
    let comment = match &names.comment {
        Some(comment) => Some(comment.len()),
        None => None,
    };
    (names.symbols.len(), comment)
}

// What stands behind two bytes; what is read is written as it was.
fn judged(alloc: Global, text: &[u8]) -> Result<(usize, Option<usize>), ModelEnd> {
    let names = names_of(alloc, text)?;
    if !is_written(alloc, &names, text)? {
        return Err(ModelEnd::Memory);
    }
    Ok(lengths_of(&names))
}

fn is_judged(alloc: Global, row: &Text) -> bool {
    let (text, wanted) = row;
    match judged(alloc, text) {
        Ok(found) => *wanted == Ok(found),
        Err(ModelEnd::Fault(fault)) => *wanted == Err(fault),
        Err(ModelEnd::Memory) => false,
    }
}

// The place of the first text that is judged otherwise, from 0.
fn wrong_text(alloc: Global) -> Option<usize> {
    for (k, row) in texts().iter().enumerate() {
        if !is_judged(alloc, row) {
            return Some(k);
        }
    }
    None
}

#[test]
fn names_are_read_and_written(rt: HostRuntime) {
    assert_eq!(rt; wrong_text(rt.alloc()), None);
}
