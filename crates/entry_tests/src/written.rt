//! The certificate of a checked wall, written, and judged again as an answer. Its text was worked out by hand.

use crate::checked::{WALL, checked_row};
use crate::claims::{FIRST, proof_of};
use crate::tests::{OF_WALL, RISES};
use certificate::{Accepted, AnswerEnd, check_answer, write};
use circuit::Circuit;
use edge::MemShelf;
use entry::{Checked, EntryEnd, Refutation, Use};
use items::Items;
use std::alloc::{AllocError, Global};
use std::sync::Arc;
use std::test::Fail;

const TEXT: &str =
    "0\nj0\nversion 2\nwall 1 0\n\n2 0\nproof 1\n6 0 1 3 5 0\nrefute 1 1\n0\n11 0 1 3 4 9 10 5 0\nend\n";

fn uses_of(alloc: Global) -> Result<Items<Use>, AllocError> {
    Items::from_slice(alloc, &[FIRST])
}

fn refutation(alloc: Global) -> Result<Refutation, AllocError> {
    let uses = uses_of(alloc)?;
    Ok(Refutation {
        uses,
        proof: proof_of(alloc, OF_WALL)?,
    })
}

fn written_of(alloc: Global, wall: Arc<Checked>) -> Result<Vec<u8>, AllocError> {
    let list = [wall];
    let refutation = refutation(alloc)?;
    write(alloc, 0, list.as_slice(), &refutation)
}

fn written(alloc: Global, shared: &Arc<Circuit>) -> Result<Vec<u8>, EntryEnd> {
    let wall = checked_row(alloc, shared, &WALL)?;
    Ok(written_of(alloc, Arc::new(alloc, wall)?)?)
}

fn texts_of(alloc: Global, text: Vec<u8>) -> Result<Vec<(String, Vec<u8>)>, AllocError> {
    let mut texts = Vec::new(alloc);
    texts.push((String::from_str(alloc, "a")?, text))?;
    Ok(texts)
}

// What is said of the text, on a shelf of it alone.
fn judged(
    alloc: Global,
    c: &Circuit,
    text: Vec<u8>,
) -> Result<Result<Accepted, AnswerEnd>, AllocError> {
    let texts = texts_of(alloc, text)?;
    let mut shelf = MemShelf::new(texts, 7, Vec::new(alloc));
    Ok(check_answer(alloc, c, &mut shelf, "a"))
}

fn is_accepted(alloc: Global, c: &Circuit, text: Vec<u8>) -> Result<bool, AllocError> {
    let holds = Accepted::Holds {
        property: 0,
        entries: 1,
    };
    Ok(judged(alloc, c, text)? == Ok(holds))
}

fn is_written_and_accepted(alloc: Global, shared: &Arc<Circuit>) -> Result<bool, EntryEnd> {
    let text = written(alloc, shared)?;
    let same = text.as_slice() == TEXT.as_bytes();
    let accepted = is_accepted(alloc, &**shared, text)?;
    Ok(same && accepted)
}

// Whether the text is what is written, and is accepted.
fn is_written(alloc: Global) -> Result<bool, Fail> {
    let model = aiger_ascii::read(alloc, RISES.as_bytes())?;
    let c = Arc::new(alloc, model.into_circuit())?;
    let written = is_written_and_accepted(alloc, &c);
    drop(c);
    Ok(written?)
}

#[test]
fn certificate_of_a_wall(rt: HostRuntime) -> Result<(), Fail> {
    assert!(rt; is_written(rt.alloc())?);
    Ok(())
}
