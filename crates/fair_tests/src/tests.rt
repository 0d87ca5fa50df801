//! Runs of the program over a shelf and a sink in memory: tables of words and texts with what must be answered.

use crate::certificates::{RISES, WALL};
use crate::dumps::model_of;
use crate::runs::{self, Ending, ends_so, first_taken, first_wrong, is_end, run_words, shelf_of};
use aig_semantics::Lasso;
use certificate::{Accepted, AnswerEnd, AnswerFault, check_answer, check_with_lasso};
use circuit::Circuit;
use edge::MemShelf;
use fair_top::{Done, Status};
use items::Items;
use std::alloc::{AllocError, Global};
use std::sync::Wait;
use std::test::Fail;
use std::thread::Threads;
use stimulus::ReplayFault;

const CHECK: &str = "fairlive check m a";

// The latch begins with 0 and changes at each step; the property is that it is 1.
pub(crate) const TOGGLE: &str = "aag 1 0 1 0 0 0 0 1 0\n2 3\n1\n2\n";

// The latch stays at 0.
pub(crate) const STUCK: &str = "aag 1 0 1 0 0 0 0 1 0\n2 2\n1\n2\n";

// The latch begins with either value and keeps it; then the same under the constraint that it is 0.
const FREE: &str = "aag 1 0 1 0 0 0 0 1 0\n2 2 2\n1\n2\n";

pub(crate) const FREE_AT_0: &str = "aag 1 0 1 0 0 0 1 1 0\n2 2 2\n3\n1\n2\n";

// The latch takes the value of the input, and is to be 0 always.
const FOLLOWS: &str = "aag 2 1 1 0 0 0 1 1 0\n2\n4 2\n5\n1\n1\n";

// The latch is 1 from the second position on; fairness asks that it is 0.
const ON_STEM: &str = "aag 1 0 1 0 0 0 0 1 1\n2 1\n1\n2\n3\n";

pub(crate) const NO_LATCH: &str = "aag 1 1 0 0 0 0 0 1 0\n2\n1\n2\n";

const NO_LITERAL: &str = "aag 1 0 1 0 0 0 0 1 0\n2 3\n0\n";

// A counter of two bits; the property is that both are 1.
pub(crate) const COUNTER: &str =
    "aag 6 0 2 0 4 0 0 1 0\n2 3\n4 11\n1\n12\n6 5 2\n8 4 3\n10 9 7\n12 4 2\n";

// A gate that reads itself.
pub(crate) const CYCLE: &str = "aag 2 1 0 0 1 0 0 1 0\n2\n1\n4\n4 4 2\n";

pub(crate) const TWO_POSITIONS: &str = "1\nj0\n0\n\n\n.\n";

pub(crate) const TWO_FROM_0: &str = "accepted lasso j0 positions 2 loop 0\n";

/// A model and an answer, the text that `check` must write, and the number that it must end with.
pub(crate) type Row = (&'static str, &'static str, &'static str, u8);

const ACCEPTED: [Row; 8] = [
    (TOGGLE, TWO_POSITIONS, TWO_FROM_0, 0),
    (TOGGLE, "1\nj0\nc hello\nx\n\n\n\n.\n", TWO_FROM_0, 0),
    (
        TOGGLE,
        "c a\nu\n1\nc\nj0\nu\n0\nc\n\nc\n\nc\n.\nc\nu",
        TWO_FROM_0,
        0,
    ),
    (TOGGLE, "1\nj0\n0\n\n\n.", TWO_FROM_0, 0),
    (NO_LITERAL, TWO_POSITIONS, TWO_FROM_0, 0),
    (
        NO_LATCH,
        "1\nj0\n\n1\n.\n",
        "accepted lasso j0 positions 1 loop 0\n",
        0,
    ),
    (
        FREE,
        "1\nj0\n1\n\n.\n",
        "accepted lasso j0 positions 1 loop 0\n",
        0,
    ),
    (
        COUNTER,
        "1\nj0\n00\n\n\n\n\n.\n",
        "accepted lasso j0 positions 4 loop 0\n",
        0,
    ),
];

pub(crate) fn accepted() -> &'static [Row] {
    &ACCEPTED
}

// Of a line that is not of the form.
const FIRST_LINES: [Row; 10] = [
    (TOGGLE, "", "refused shape line 1\n", 1),
    (TOGGLE, "3\nj0\n", "refused shape line 1\n", 1),
    (TOGGLE, "1 \nj0\n0\n\n\n.\n", "refused shape line 1\n", 1),
    (TOGGLE, "c\nu\n", "refused shape line 3\n", 1),
    (TOGGLE, "1", "refused shape line 2\n", 1),
    (TOGGLE, "1\nb0\n0\n\n\n.\n", "refused shape line 2\n", 1),
    (TOGGLE, "1\nj01\n0\n\n\n.\n", "refused shape line 2\n", 1),
    (TOGGLE, "1\nj\n0\n\n\n.\n", "refused shape line 2\n", 1),
    (TOGGLE, "1\nj0 \n0\n\n\n.\n", "refused shape line 2\n", 1),
    (
        TOGGLE,
        "1\nj9223372036854775808\n",
        "refused shape line 2\n",
        1,
    ),
];

pub(crate) fn first_lines() -> &'static [Row] {
    &FIRST_LINES
}

const LATER_LINES: [Row; 9] = [
    (TOGGLE, "1\nc\n\nj0\n", "refused shape line 3\n", 1),
    (TOGGLE, "1\nj0\n", "refused shape line 3\n", 1),
    (TOGGLE, "1\nj0\n.\n", "refused shape line 3\n", 1),
    (TOGGLE, "1\nj0\nc\n.\n", "refused shape line 4\n", 1),
    (TOGGLE, "1\nj0\n2\n\n\n.\n", "refused shape line 3\n", 1),
    (TOGGLE, "1\nj0\n0\n2\n3\n.\n", "refused shape line 4\n", 1),
    (
        TOGGLE,
        "u\n1\nc\nj0\nc\n0\nc\n\nu\nq\n.\n.\n",
        "refused shape line 10\n",
        1,
    ),
    (TOGGLE, "1\nj0\n0\n\n\n..\n", "refused shape line 6\n", 1),
    (TOGGLE, "1\nj0\n0\n\n\n", "refused shape line 6\n", 1),
];

pub(crate) fn later_lines() -> &'static [Row] {
    &LATER_LINES
}

// Of the property, the status and the end.
const ENDS: [Row; 9] = [
    (TOGGLE, "1\nj1\n0\n\n\n.\n", "refused property 1\n", 1),
    (TOGGLE, "c\n1\nu\nj1\nzz\n", "refused property 1\n", 1),
    (
        TOGGLE,
        "1\nj9223372036854775807\n",
        "refused property 9223372036854775807\n",
        1,
    ),
    (TOGGLE, "2\nj0\n0\n\n\n.\n", "refused unknown status\n", 1),
    (TOGGLE, "c\nu\n2", "refused unknown status\n", 1),
    (
        TOGGLE,
        "1\nj0\n0\n\n\n.\nzz\n",
        "refused trailing line 7\n",
        1,
    ),
    (
        TOGGLE,
        "1\nj0\n0\n\n\n.\n\n",
        "refused trailing line 7\n",
        1,
    ),
    (TOGGLE, "1\nj1\n0\n\n\n.\nzz\n", "refused property 1\n", 1),
    (
        TOGGLE,
        "1\nj0\n1\n\n\n.\nc\nu\n.",
        "refused trailing line 9\n",
        1,
    ),
];

pub(crate) fn ends() -> &'static [Row] {
    &ENDS
}

// Of the replay.
const REPLAYS: [Row; 10] = [
    (TOGGLE, "1\nj0\n00\n\n\n.\n", "refused width item 0\n", 1),
    (TOGGLE, "1\nj0\n1\n0\n\n.\n", "refused width item 1\n", 1),
    (TOGGLE, "1\nj0\n0\n\n\n0\n.\n", "refused width item 3\n", 1),
    (TOGGLE, "1\nj0\n1\n\n\n.\n", "refused initial latch 0\n", 1),
    (
        COUNTER,
        "1\nj0\n01\n\n\n\n\n.\n",
        "refused initial latch 1\n",
        1,
    ),
    (
        FREE_AT_0,
        "1\nj0\n1\n\n.\n",
        "refused constraint position 0\n",
        1,
    ),
    (
        FOLLOWS,
        "1\nj0\n0\n1\n0\n.\n",
        "refused constraint position 1\n",
        1,
    ),
    (STUCK, "1\nj0\n0\n\n.\n", "refused no fair loop\n", 1),
    (TOGGLE, "1\nj0\n0\n.\n", "refused no fair loop\n", 1),
    (ON_STEM, TWO_POSITIONS, "refused no fair loop\n", 1),
];

pub(crate) fn replays() -> &'static [Row] {
    &REPLAYS
}

// Of the model.
const MODELS: [Row; 7] = [
    ("", TWO_POSITIONS, "model refused truncated 0\n", 3),
    (CYCLE, TWO_POSITIONS, "model refused cycle 2\n", 3),
    ("aag 16777217 0 0 0 0\n", "", "model refused limit 0\n", 3),
    (
        "aag 1048577 0 0 0 0\n",
        TWO_POSITIONS,
        "refused property 0\n",
        1,
    ),
    ("ai", TWO_POSITIONS, "model refused truncated 2\n", 3),
    ("aix", TWO_POSITIONS, "model refused header 0\n", 3),
    (
        "aig 1 0 1 0 0 0 0 1 0\n3\n1\n2\n",
        TWO_POSITIONS,
        TWO_FROM_0,
        0,
    ),
];

pub(crate) fn models() -> &'static [Row] {
    &MODELS
}

/// The place of the first row of a table that is not answered so, from 0.
fn wrong_row<R: Threads + Wait + Sync>(
    rt: &R,
    alloc: Global,
    rows: &[Row],
) -> Result<Option<usize>, AllocError> {
    for (k, (model, answer, text, number)) in rows.iter().enumerate() {
        let (model, text) = (model.as_bytes(), text.as_bytes());
        if !ends_so(rt, alloc, CHECK, model, answer, text, *number)? {
            return Ok(Some(k));
        }
    }
    Ok(None)
}

/// The first wrong row of each table.
fn wrong_rows<R: Threads + Wait + Sync>(
    rt: &R,
    alloc: Global,
) -> Result<[Option<usize>; 6], AllocError> {
    Ok([
        wrong_row(rt, alloc, accepted())?,
        wrong_row(rt, alloc, first_lines())?,
        wrong_row(rt, alloc, later_lines())?,
        wrong_row(rt, alloc, ends())?,
        wrong_row(rt, alloc, replays())?,
        wrong_row(rt, alloc, models())?,
    ])
}

/// The rows, at once and at one byte a call.
#[test]
fn answers_of_check(rt: HostRuntime) -> Result<(), Fail> {
    assert_eq!(rt; wrong_rows(&rt, rt.alloc())?, [None; 6]);
    Ok(())
}

/// Whether the status says that this lasso was found.
fn is_lasso(status: &Status, lasso: (u32, u64, u64)) -> bool {
    match status {
        Status::Done(
            Done::Lasso {
                property,
                positions,
                from,
            },
        ) => lasso == (*property, *positions, *from),
        _ => false,
    }
}

/// Runs `check` on the toggle with this answer, with at most `most` bytes a call, and with these reads failing.
fn toggled<R: Threads + Wait + Sync>(
    rt: &R,
    alloc: Global,
    answer: &str,
    most: u64,
    reads: &[u64],
) -> Result<Ending, AllocError> {
    run_words(
        rt,
        alloc,
        CHECK,
        TOGGLE.as_bytes(),
        answer,
        most,
        reads,
        &[],
    )
}

fn is_toggled<R: Threads + Wait + Sync>(rt: &R, alloc: Global) -> Result<bool, AllocError> {
    let ran = toggled(rt, alloc, TWO_POSITIONS, 7, &[])?;
    let is_so = is_lasso(&ran.status, (0, 2, 0));
    drop(ran);
    Ok(is_so)
}

/// The status of an accepted stimulus tells the lasso.
#[test]
fn status_of_a_lasso(rt: HostRuntime) -> Result<(), Fail> {
    assert!(rt; is_toggled(&rt, rt.alloc())?);
    Ok(())
}

/// A binary model, which may have a fault in or behind its gates, and what `check` writes.
type BinaryRow = (&'static [u8], &'static str, u8);

const BINARY_ROWS: [BinaryRow; 5] = [
    (
        b"aig 3 1 1 0 1 0 0 1 0\n6\n1\n4\n\x02\x02l0 t\nc\nany",
        "refused no fair loop\n",
        1,
    ),
    (
        b"aig 3 1 1 0 1 0 0 1 0\n6\n1\n4\n\x02\x02l0 t\ncany",
        "refused no fair loop\n",
        1,
    ),
    (
        b"aig 3 1 1 0 1 0 0 1 0\n6\n1\n4\n\x02\x02l1 t\nl0 t\nc\nany",
        "model refused symbol 30\n",
        3,
    ),
    (
        b"aig 3 1 1 0 1 0 0 1 0\n6\n1\n4\n\x02\x05l0 t\nc\nany",
        "model refused range 29\n",
        3,
    ),
    (
        b"aig 3 1 1 0 1 0 0 1 0\n6\n1\n4\n\x82",
        "model refused truncated 29\n",
        3,
    ),
];

fn binary_rows() -> &'static [BinaryRow] {
    &BINARY_ROWS
}

/// The place of the first binary model that is not answered so, from 0.
fn wrong_binary<R: Threads + Wait + Sync>(
    rt: &R,
    alloc: Global,
) -> Result<Option<usize>, AllocError> {
    for (k, (model, text, number)) in binary_rows().iter().enumerate() {
        let text = text.as_bytes();
        if !ends_so(rt, alloc, CHECK, model, "1\nj0\n0\n0\n.\n", text, *number)? {
            return Ok(Some(k));
        }
    }
    Ok(None)
}

#[test]
fn binary_models(rt: HostRuntime) -> Result<(), Fail> {
    assert_eq!(rt; wrong_binary(&rt, rt.alloc())?, None);
    Ok(())
}

// The call on an answer alone; no clause of its contract is wanted here.
fn judged(
    alloc: Global,
    c: &Circuit,
    shelf: &mut MemShelf,
    name: &str,
) -> Result<Accepted, AnswerEnd> {
    check_answer(alloc, c, shelf, name)
}

/// Whether this is answered on an answer alone, over a shelf that holds it as `a`.
fn is_judged(
    alloc: Global,
    c: &Circuit,
    answer: &str,
    name: &str,
    wanted: Result<Accepted, AnswerEnd>,
) -> Result<bool, AllocError> {
    let mut shelf = shelf_of(alloc, b"", answer, 1000, &[])?;
    Ok(judged(alloc, c, &mut shelf, name) == wanted)
}

// A good answer, a bad one, and one that is not there.
fn are_judged(alloc: Global, c: &Circuit) -> Result<[bool; 3], AllocError> {
    let lasso = Accepted::Lasso {
        property: 0,
        positions: 2,
        from: 0,
    };
    let wrong = AnswerEnd::Refused(AnswerFault::Replay(ReplayFault::NotInitial(0)));
    Ok([
        is_judged(alloc, c, TWO_POSITIONS, "a", Ok(lasso))?,
        is_judged(alloc, c, "1\nj0\n1\n\n.\n", "a", Err(wrong))?,
        is_judged(alloc, c, TWO_POSITIONS, "none", Err(AnswerEnd::ReadFault))?,
    ])
}

fn are_judged_of_toggle(alloc: Global) -> Result<[bool; 3], AllocError> {
    let model = model_of(alloc, TOGGLE.as_bytes())?;
    let told = are_judged(alloc, model.circuit());
    drop(model);
    told
}

#[test]
fn answers_alone(rt: HostRuntime) -> Result<(), Fail> {
    assert_eq!(rt; are_judged_of_toggle(rt.alloc())?, [true; 3]);
    Ok(())
}

// The call on an answer alone, and the lasso that is kept behind it; no clause of its contract is wanted here.
fn kept_behind(
    alloc: Global,
    c: &Circuit,
    shelf: &mut MemShelf,
    name: &str,
    before: Lasso,
) -> (bool, Option<Lasso>) {
    let mut kept = Some(before);
    let accepted = check_with_lasso(alloc, c, shelf, name, &mut kept).is_ok();
    (accepted, kept)
}

fn positions_and_place(kept: &Option<Lasso>) -> Option<(usize, u64)> {
    match kept {
        Some(lasso) => Some((lasso.inputs.len(), lasso.from)),
        None => None,
    }
}

/// Whether an answer is accepted or not, as wanted, and behind it a lasso is kept with so many positions and this place,
/// where one with no position and place 7 was kept before.
fn keeps(
    alloc: Global,
    model: &str,
    answer: (&str, &str),
    accepted: bool,
    wanted: (usize, u64),
) -> Result<bool, AllocError> {
    let mut shelf = shelf_of(alloc, b"", answer.1, 1000, &[])?;
    let model = model_of(alloc, model.as_bytes())?;
    let before = Lasso {
        start: Items::new(alloc),
        inputs: Items::new(alloc),
        from: 7,
    };
    let (was, kept) = kept_behind(alloc, model.circuit(), &mut shelf, answer.0, before);
    drop(model);
    Ok(was == accepted && positions_and_place(&kept) == Some(wanted))
}

// A good stimulus that goes on behind its lasso, a bad one, one that is not there, and a good certificate.
fn all_keep(alloc: Global) -> Result<[bool; 4], AllocError> {
    Ok([
        keeps(alloc, TOGGLE, ("a", "1\nj0\n0\n\n\n\n.\n"), true, (2, 0))?,
        keeps(alloc, TOGGLE, ("a", "1\nj0\n1\n\n.\n"), false, (0, 7))?,
        keeps(alloc, TOGGLE, ("none", TWO_POSITIONS), false, (0, 7))?,
        keeps(alloc, RISES, ("a", WALL), true, (0, 7))?,
    ])
}

#[test]
fn lassos_that_are_kept(rt: HostRuntime) -> Result<(), Fail> {
    assert_eq!(rt; all_keep(rt.alloc())?, [true; 4]);
    Ok(())
}

// The numbers of calls from this one on, below 100.
fn calls_from(alloc: Global, first: u64) -> Result<Vec<u64>, AllocError> {
    let mut failing = Vec::new(alloc);
    for call in 0..100 {
        if call >= first {
            failing.push(call)?;
        }
    }
    Ok(failing)
}

// Whether `check` on an answer with a bad first line, at one byte a call, ends with this number and text where this call and
// all behind it fail.
fn is_first_line_run<R: Threads + Wait + Sync>(
    rt: &R,
    alloc: Global,
    first: u64,
    number: u8,
    text: &str,
) -> Result<bool, AllocError> {
    let failing = calls_from(alloc, first)?;
    let ran = toggled(rt, alloc, "zz\nj0\n0\n\n\n.\n", 1, &failing)?;
    let is_so = is_end(&ran, text.as_bytes(), number);
    drop(ran);
    Ok(is_so)
}

// The model's 30 bytes and its end take 31 calls, and the line with its line feed the next three.
fn first_line_runs<R: Threads + Wait + Sync>(
    rt: &R,
    alloc: Global,
) -> Result<[bool; 2], AllocError> {
    Ok([
        is_first_line_run(rt, alloc, 35, 1, "refused shape line 1\n")?,
        is_first_line_run(rt, alloc, 34, 4, "")?,
    ])
}

/// A first line that is refused is refused before anything behind it is read.
#[test]
fn first_line_is_judged_as_it_is_read(rt: HostRuntime) -> Result<(), Fail> {
    assert_eq!(rt; first_line_runs(&rt, rt.alloc())?, [true; 2]);
    Ok(())
}

const NO_COMMANDS: [&str; 25] = [
    "",
    "fairlive",
    "fairlive check",
    "fairlive check m",
    "fairlive check m a a",
    "fairlive solve m a",
    "fairlive wave m",
    "fairlive wave m a a",
    "fairlive slice",
    "fairlive slice m a",
    "fairlive slice m --property 4294967296",
    "fairlive safety",
    "fairlive safety m a",
    "fairlive safety m --property 4294967296",
    "fairlive rounds m",
    "fairlive rounds m 0",
    "fairlive rounds m 65",
    "fairlive rounds m 1 --steps 4294967296",
    "fairlive check -m a",
    "fairlive check m --a",
    "fairlive check m a --help",
    "fairlive check -h",
    "fairlive help",
    "fairlive --help",
    "fairlive --version",
];

fn no_commands() -> &'static [&'static str] {
    &NO_COMMANDS
}

/// Words that are no command.
#[test]
fn words_that_are_no_command(rt: HostRuntime) -> Result<(), Fail> {
    let taken = first_taken(&rt, rt.alloc(), no_commands(), TOGGLE, TWO_POSITIONS)?;
    assert_eq!(rt; taken, None);
    Ok(())
}

// Words that are taken by the customs of the command line, and names that the shelf does not hold.
const WORD_ROWS: [runs::Row; 10] = [
    (
        "fairlive check -- m a",
        TOGGLE,
        TWO_POSITIONS,
        TWO_FROM_0,
        0,
    ),
    (
        "fairlive check m -- a",
        TOGGLE,
        TWO_POSITIONS,
        TWO_FROM_0,
        0,
    ),
    ("fairlive check m -", TOGGLE, TWO_POSITIONS, "", 4),
    ("fairlive check x a", TOGGLE, TWO_POSITIONS, "", 4),
    ("fairlive check m x", TOGGLE, TWO_POSITIONS, "", 4),
    (
        "fairlive check m x",
        "aag\n",
        TWO_POSITIONS,
        "model refused header 0\n",
        3,
    ),
    ("fairlive wave x a", TOGGLE, TWO_POSITIONS, "", 4),
    ("fairlive wave m x", TOGGLE, TWO_POSITIONS, "", 4),
    (
        "fairlive wave m x",
        "aag\n",
        TWO_POSITIONS,
        "model refused header 0\n",
        3,
    ),
    // An empty word is a name.
    ("fairlive check m ", TOGGLE, TWO_POSITIONS, "", 4),
];

fn word_rows() -> &'static [runs::Row] {
    &WORD_ROWS
}

#[test]
fn words_and_names(rt: HostRuntime) -> Result<(), Fail> {
    assert_eq!(rt; first_wrong(&rt, rt.alloc(), word_rows())?, None);
    Ok(())
}
