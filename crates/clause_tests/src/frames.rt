//! Frames of lemmas, and signatures of clauses, with values worked out by hand. A lemma of a frame is the clause of one
//! variable, or of both.
use crate::literals::clause;
use cnf::{Clause, Lit};
use edge::{Held, Meter};
use ic3_frames::{Frames, signature_of};
use std::alloc::{AllocError, Global};
use std::test::*;

// What is done to frames.
enum Act {
    Open,
    /// Adds the lemma of a variable to a level.
    Add(u64, u64),
    /// Adds the lemma of variables 1 and 2 to a level.
    Both(u64),
    /// Pushes the lemma at a place of a level.
    Push(u64, u64),
}

use Act::{Add, Both, Open, Push};

fn lemma_of(alloc: Global, vars: &[u64]) -> Result<Clause, AllocError> {
    let mut lemma = Clause::new(alloc);
    for var in vars {
        lemma.push(Lit {
            var: *var,
            positive: true,
        })?;
    }
    Ok(lemma)
}

fn push_on(frames: &mut Frames, level: u64, place: u64) -> Result<(), AllocError> {
    let there = frames.lemma(level, place).is_some();
    if level < u64::MAX && level + 1 < frames.len() && there {
        frames.push_on(level, place)?;
    }
    Ok(())
}

fn add_lemma(
    alloc: Global,
    frames: &mut Frames,
    level: u64,
    vars: &[u64],
) -> Result<(), AllocError> {
    if level < frames.len() {
        frames.add(level, lemma_of(alloc, vars)?)?;
    }
    Ok(())
}

fn perform(alloc: Global, frames: &mut Frames, act: &Act) -> Result<(), AllocError> {
    match act {
        Open => frames.add_frame(),
        Add(level, var) => add_lemma(alloc, frames, *level, &[*var]),
        Both(level) => add_lemma(alloc, frames, *level, &[1, 2]),
        Push(level, place) => push_on(frames, *level, *place),
    }
}

fn perform_all(alloc: Global, frames: &mut Frames, acts: &[Act]) -> Result<(), AllocError> {
    for one in acts {
        perform(alloc, frames, one)?;
    }
    Ok(())
}

fn after(alloc: Global, acts: &[Act]) -> Result<Frames, AllocError> {
    let mut frames = Frames::new(alloc);
    perform_all(alloc, &mut frames, acts)?;
    Ok(frames)
}

fn push_lemma(lemma: &Clause, text: &mut String) -> Result<(), AllocError> {
    if lemma.len() > 1 {
        return text.push_str("B");
    }
    for literal in lemma.as_slice() {
        text.push_str(if literal.var == 1 { "1" } else { "2" })?;
    }
    Ok(())
}

fn push_level(frames: &Frames, level: u64, text: &mut String) -> Result<(), AllocError> {
    for place in 0..frames.count(level) {
        if let Some(lemma) = frames.lemma(level, place) {
            push_lemma(lemma, text)?;
        }
    }
    text.push_str("/")
}

fn push_levels(frames: &Frames, text: &mut String) -> Result<(), AllocError> {
    for level in 0..frames.len() {
        push_level(frames, level, text)?;
    }
    Ok(())
}

/// The variables of each level's lemmas, or `B` for both, and `/` behind each level.
fn spelled(alloc: Global, frames: &Frames) -> Result<String, AllocError> {
    let mut text = String::new(alloc);
    push_levels(frames, &mut text)?;
    Ok(text)
}

/// What is done to new frames, and what they tell then.
type Row = (&'static [Act], &'static str);

// How the lemmas of the levels are spelled, of variable 1 or 2 alone.
const SPELLED: [Row; 7] = [
    (&[], ""),
    (&[Add(0, 1)], ""),
    (&[Open, Add(0, 2), Add(0, 1), Add(0, 2)], "21/"),
    (&[Open, Open, Add(1, 1), Add(0, 1), Add(0, 2)], "2/1/"),
    (&[Open, Open, Add(0, 1), Add(0, 2), Add(1, 1)], "2/1/"),
    (
        &[Open, Open, Add(0, 1), Add(0, 2), Push(0, 1), Push(1, 0)],
        "1/2/",
    ),
    (
        &[
            Open,
            Open,
            Open,
            Add(0, 1),
            Push(0, 0),
            Push(1, 0),
            Push(0, 0),
        ],
        "//1/",
    ),
];

fn spelled_rows() -> &'static [Row] {
    &SPELLED
}

// The same with lemmas of both.
const OF_BOTH: [Row; 6] = [
    (&[Open, Open, Both(1), Add(1, 1)], "/1/"),
    (&[Open, Open, Open, Both(1), Add(2, 1)], "//1/"),
    (&[Open, Open, Open, Both(2), Add(1, 1)], "/1/B/"),
    (&[Open, Open, Both(0), Add(1, 1)], "B/1/"),
    (&[Open, Open, Open, Add(1, 1), Both(2)], "/1/B/"),
    (&[Open, Open, Open, Add(1, 1), Both(2), Push(1, 0)], "//1/"),
];

fn rows_of_both() -> &'static [Row] {
    &OF_BOTH
}

fn push_allowed(frames: &Frames, text: &mut String) -> Result<(), AllocError> {
    for level in 0..frames.len() {
        let allows = frames.at(level).allows(&[false, true, false]);
        text.push_str(if allows { "1" } else { "0" })?;
    }
    Ok(())
}

/// Whether the frame of each level allows the state in which variable 1 alone is true, a digit a level.
fn allowed(alloc: Global, frames: &Frames) -> Result<String, AllocError> {
    let mut text = String::new(alloc);
    push_allowed(frames, &mut text)?;
    Ok(text)
}

/// The first level whose frame has the same lemmas as the next one; or whether the step of a frame above was counted.
fn counted(frames: &mut Frames, meter: &mut Meter) -> Result<u64, Option<bool>> {
    if frames.len() < 2 {
        return Err(None);
    }
    match frames.equal_pair() {
        Some(level) => Ok(level),
        None => Err(Some(frames.count_frame(meter).is_ok())),
    }
}

// Which frames of these acts allow that state.
const ALLOWED: [Row; 5] = [
    (&[Open, Add(0, 2)], "0"),
    (&[Open, Open, Add(0, 2)], "01"),
    (&[Open, Open, Add(1, 2)], "00"),
    (&[Open, Open, Open, Add(0, 1), Add(1, 2)], "001"),
    (&[Open, Open, Open, Add(0, 1), Add(2, 2)], "000"),
];

fn allowed_rows() -> &'static [Row] {
    &ALLOWED
}

/// What is done to frames, and what becomes of the step of one more frame, with one step left.
type Step = (&'static [Act], Result<u64, Option<bool>>);

const COUNTED: [Step; 5] = [
    (&[Open, Add(0, 2)], Err(None)),
    (&[Open, Open, Add(0, 2)], Err(Some(true))),
    (&[Open, Open, Add(1, 2)], Ok(0)),
    (&[Open, Open, Open, Add(0, 1), Add(1, 2)], Err(Some(true))),
    (&[Open, Open, Open, Add(0, 1), Add(2, 2)], Ok(1)),
];

fn steps() -> &'static [Step] {
    &COUNTED
}

/// What frames tell.
#[derive(Clone, Copy)]
enum Told {
    /// The lemmas of each level.
    Lemmas,
    /// Which levels allow the state in which variable 1 alone is true.
    Allowed,
}

fn text_of(alloc: Global, frames: &Frames, told: Told) -> Result<String, AllocError> {
    match told {
        Told::Lemmas => spelled(alloc, frames),
        Told::Allowed => allowed(alloc, frames),
    }
}

fn is_told(alloc: Global, acts: &[Act], told: Told, wanted: &str) -> Result<bool, AllocError> {
    let frames = after(alloc, acts)?;
    let text = text_of(alloc, &frames, told);
    drop(frames);
    Ok(text?.as_str() == wanted)
}

// The place of the first row that tells something else, from 0.
fn wrong_row(alloc: Global, rows: &[Row], told: Told) -> Result<Option<usize>, AllocError> {
    for (k, (acts, wanted)) in rows.iter().enumerate() {
        if !is_told(alloc, acts, told, wanted)? {
            return Ok(Some(k));
        }
    }
    Ok(None)
}

fn counted_after(alloc: Global, acts: &[Act]) -> Result<Result<u64, Option<bool>>, AllocError> {
    let mut meter = Meter::new(0, 1);
    let mut frames = after(alloc, acts)?;
    let step = counted(&mut frames, &mut meter);
    drop(frames);
    Ok(step)
}

fn wrong_step(alloc: Global) -> Result<Option<usize>, AllocError> {
    for (k, (acts, wanted)) in steps().iter().enumerate() {
        if counted_after(alloc, acts)? != *wanted {
            return Ok(Some(k));
        }
    }
    Ok(None)
}

// Clauses, and their signatures: bits 3 and 2 for variable 1 and its negation, and bit 4 for variable 34 negated.
fn signature_rows() -> &'static [(&'static [i64], u64)] {
    &[
        (&[], 0),
        (&[-1], 4),
        (&[1, 33], 8),
        (&[31], 1 << 63),
        (&[-32], 1),
        (&[1, -34], 24),
    ]
}

fn signature_of_numbers(alloc: Global, numbers: &[i64]) -> Result<u64, AllocError> {
    let made = clause(alloc, numbers)?;
    Ok(signature_of(made.as_slice()))
}

fn wrong_signature(alloc: Global) -> Result<Option<usize>, AllocError> {
    for (k, (numbers, wanted)) in signature_rows().iter().enumerate() {
        if signature_of_numbers(alloc, numbers)? != *wanted {
            return Ok(Some(k));
        }
    }
    Ok(None)
}

// The first wrong row of each table.
fn wrong_rows(alloc: Global) -> Result<[Option<usize>; 5], AllocError> {
    Ok([
        wrong_row(alloc, spelled_rows(), Told::Lemmas)?,
        wrong_row(alloc, rows_of_both(), Told::Lemmas)?,
        wrong_row(alloc, allowed_rows(), Told::Allowed)?,
        wrong_step(alloc)?,
        wrong_signature(alloc)?,
    ])
}

#[test]
fn frames_and_signatures(rt: HostRuntime) -> Result<(), Fail> {
    assert_eq!(rt; wrong_rows(rt.alloc())?, [None; 5]);
    Ok(())
}
