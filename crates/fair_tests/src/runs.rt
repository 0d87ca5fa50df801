//! One run of the program over a shelf and a sink in memory. The main calls are `run_words`, by threads, `run_words_alone`,
//! by one thread, and `ends_so`.

use edge::{FreeGate, MemShelf, MemSink};
use fair_top::{Status, run, run_alone};
use std::alloc::{AllocError, Global};
use std::sync::Wait;
use std::thread::Threads;

pub(crate) const USAGE: &str =
    "usage: fairlive solve MODEL [--property N] [--workers W] [--conflicts C] [--steps S] [--skeletons K] [--lassos N] [--depth D] [--all] [--resume ANSWER]\n       fairlive check MODEL ANSWER\n       fairlive gen KIND SEED SIZE [--binary]\n       fairlive demo SEED SIZE\n       fairlive wave MODEL ANSWER [--property N]\n       fairlive slice MODEL [--property N]\n       fairlive convert MODEL ANSWER\n       fairlive safety MODEL [--property N]\n       fairlive rounds MODEL K [--property N] [--conflicts C] [--steps S]\n       fairlive shortest MODEL [--property N] [--conflicts C] [--depth D]\n       fairlive trim MODEL ANSWER\n       fairlive export MODEL ANSWER ENTRY CLAUSE [--lrat]\n";

/// How a run ended: what it answered, and what it wrote.
#[derive(Drop)]
pub(crate) struct Ending {
    pub(crate) status: Status,
    pub(crate) text: Vec<u8>,
}

fn push_word(alloc: Global, list: &mut Vec<String>, word: &str) -> Result<(), AllocError> {
    let word = String::from_str(alloc, word)?;
    list.push(word)?;
    Ok(())
}

fn push_words(alloc: Global, list: &mut Vec<String>, words: &str) -> Result<(), AllocError> {
    for word in words.split(' ') {
        push_word(alloc, list, word)?;
    }
    Ok(())
}

// The words of a line, with a space between each two; an empty line has none.
fn owned_words(alloc: Global, words: &str) -> Result<Vec<String>, AllocError> {
    let mut list = Vec::new(alloc);
    if !words.is_empty() {
        push_words(alloc, &mut list, words)?;
    }
    Ok(list)
}

fn named(alloc: Global, name: &str, text: &[u8]) -> Result<(String, Vec<u8>), AllocError> {
    let text = Vec::from_slice(alloc, text)?;
    Ok((String::from_str(alloc, name)?, text))
}

fn push_text(
    alloc: Global,
    texts: &mut Vec<(String, Vec<u8>)>,
    name: &str,
    text: &[u8],
) -> Result<(), AllocError> {
    let pair = named(alloc, name, text)?;
    texts.push(pair)?;
    Ok(())
}

fn named_texts(
    alloc: Global,
    model: &[u8],
    answer: &str,
) -> Result<Vec<(String, Vec<u8>)>, AllocError> {
    let mut texts = Vec::new(alloc);
    push_text(alloc, &mut texts, "m", model)?;
    push_text(alloc, &mut texts, "a", answer.as_bytes())?;
    Ok(texts)
}

/// A shelf that holds the model as `m` and the answer as `a`, with at most `most` bytes a call, and with these calls failing.
pub(crate) fn shelf_of(
    alloc: Global,
    model: &[u8],
    answer: &str,
    most: u64,
    failing: &[u64],
) -> Result<MemShelf, AllocError> {
    let failing = Vec::from_slice(alloc, failing)?;
    let texts = named_texts(alloc, model, answer)?;
    Ok(MemShelf::new(texts, most.max(1), failing))
}

fn sink_of(alloc: Global, most: u64, failing: &[u64]) -> Result<MemSink, AllocError> {
    let failing = Vec::from_slice(alloc, failing)?;
    Ok(MemSink::new(alloc, most.max(1), failing))
}

// The program's call; no clause of its contract is wanted here.
fn run_into<R: Threads + Wait + Sync>(
    rt: &R,
    alloc: Global,
    list: &[String],
    shelf: &mut MemShelf,
    sink: &mut MemSink,
) -> Status {
    run(rt, alloc, list, shelf, sink, &FreeGate)
}

fn taken(alloc: Global, status: Status, sink: &MemSink) -> Result<Ending, AllocError> {
    let text = Vec::from_slice(alloc, sink.taken())?;
    Ok(Ending { status, text })
}

fn run_over<R: Threads + Wait + Sync>(
    rt: &R,
    alloc: Global,
    list: &[String],
    shelf: &mut MemShelf,
    most: u64,
    writes: &[u64],
) -> Result<Ending, AllocError> {
    let mut sink = sink_of(alloc, most, writes)?;
    let status = run_into(rt, alloc, list, shelf, &mut sink);
    taken(alloc, status, &sink)
}

fn run_list<R: Threads + Wait + Sync>(
    rt: &R,
    alloc: Global,
    list: &[String],
    model: &[u8],
    answer: &str,
    most: u64,
    reads: &[u64],
    writes: &[u64],
) -> Result<Ending, AllocError> {
    let mut shelf = shelf_of(alloc, model, answer, most, reads)?;
    run_over(rt, alloc, list, &mut shelf, most, writes)
}

/// Runs these words, with a space between each two, over a shelf that holds the model as `m` and the answer as `a`, with at
/// most `most` bytes a call, and with these calls failing.
pub(crate) fn run_words<R: Threads + Wait + Sync>(
    rt: &R,
    alloc: Global,
    words: &str,
    model: &[u8],
    answer: &str,
    most: u64,
    reads: &[u64],
    writes: &[u64],
) -> Result<Ending, AllocError> {
    let list = owned_words(alloc, words)?;
    run_list(rt, alloc, &list, model, answer, most, reads, writes)
}

/// The same on one thread, with no call failing.
pub(crate) fn run_words_alone(
    alloc: Global,
    words: &str,
    model: &[u8],
    answer: &str,
) -> Result<Ending, AllocError> {
    let list = owned_words(alloc, words)?;
    run_list_alone(alloc, &list, model, answer)
}

fn run_list_alone(
    alloc: Global,
    list: &[String],
    model: &[u8],
    answer: &str,
) -> Result<Ending, AllocError> {
    let mut shelf = shelf_of(alloc, model, answer, 1000, &[])?;
    let mut sink = sink_of(alloc, 1000, &[])?;
    let status = run_alone_into(alloc, list, &mut shelf, &mut sink);
    taken(alloc, status, &sink)
}

fn run_alone_into(
    alloc: Global,
    list: &[String],
    shelf: &mut MemShelf,
    sink: &mut MemSink,
) -> Status {
    run_alone(alloc, list, shelf, sink)
}

/// Whether a run wrote this text and ended with this number.
pub(crate) fn is_end(ran: &Ending, text: &[u8], number: u8) -> bool {
    ran.status.number() == number && ran.text.as_slice() == text
}

/// Whether a run of these words over these texts writes this text and ends with this number, at so many bytes a call.
pub(crate) fn ends_by<R: Threads + Wait + Sync>(
    rt: &R,
    alloc: Global,
    words: &str,
    model: &[u8],
    answer: &str,
    text: &[u8],
    number: u8,
    most: u64,
) -> Result<bool, AllocError> {
    let ran = run_words(rt, alloc, words, model, answer, most, &[], &[])?;
    let is_so = is_end(&ran, text, number);
    drop(ran);
    Ok(is_so)
}

/// Whether a run of these words over these texts writes this text and ends with this number, at once and at one byte a
/// call alike.
pub(crate) fn ends_so<R: Threads + Wait + Sync>(
    rt: &R,
    alloc: Global,
    words: &str,
    model: &[u8],
    answer: &str,
    text: &[u8],
    number: u8,
) -> Result<bool, AllocError> {
    if !ends_by(rt, alloc, words, model, answer, text, number, 1000)? {
        return Ok(false);
    }
    ends_by(rt, alloc, words, model, answer, text, number, 1)
}

/// The place of the first of these lines of words that is not refused by the usage text, from 0.
pub(crate) fn first_taken<R: Threads + Wait + Sync>(
    rt: &R,
    alloc: Global,
    lines: &[&str],
    model: &str,
    answer: &str,
) -> Result<Option<usize>, AllocError> {
    let model = model.as_bytes();
    for (k, words) in lines.iter().enumerate() {
        if !ends_so(rt, alloc, words, model, answer, USAGE.as_bytes(), 64)? {
            return Ok(Some(k));
        }
    }
    Ok(None)
}

/// Words, a model and an answer, the text that must be written, and the number that the program must end with.
pub(crate) type Row = (&'static str, &'static str, &'static str, &'static str, u8);

/// The place of the first of these rows that is not answered so, from 0.
pub(crate) fn first_wrong<R: Threads + Wait + Sync>(
    rt: &R,
    alloc: Global,
    rows: &[Row],
) -> Result<Option<usize>, AllocError> {
    for (k, (words, model, answer, text, number)) in rows.iter().enumerate() {
        let (model, text) = (model.as_bytes(), text.as_bytes());
        if !ends_so(rt, alloc, words, model, answer, text, *number)? {
            return Ok(Some(k));
        }
    }
    Ok(None)
}
