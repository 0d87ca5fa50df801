//! What is decided, against what was worked out. The main calls are `row_is`, `is_written` and `most_agreed`.

use crate::counting::most_rounds;
use crate::drawn::Case;
use circuit::Circuit;
use drawn_circuits::Drawn;
use edge::Meter;
use k_live::{KnownRounds, RoundsEnd, decide, write};
use std::alloc::{AllocError, Global};
use std::test::*;

// What is answered: no run has so many rounds; one has; a budget was spent; the monitor would have this greatest variable;
// nothing of these.
#[derive(Clone, Copy, PartialEq, Eq)]
enum Told {
    Fewer,
    Reached,
    Unsettled,
    TooLarge(u64),
    Nothing,
}

fn told_as(decided: &Result<KnownRounds, RoundsEnd>) -> Told {
    match decided {
        Ok(KnownRounds::Fewer { .. }) => Told::Fewer,
        Ok(KnownRounds::Reached { .. }) => Told::Reached,
        Err(RoundsEnd::Unsettled(_)) => Told::Unsettled,
        Err(RoundsEnd::TooLarge(most)) => Told::TooLarge(*most),
        Err(RoundsEnd::Memory) => Told::Nothing,
    }
}

// What is decided of the first property.
fn told_by(alloc: Global, c: &Circuit, k: u32, meter: &mut Meter) -> Told {
    if c.property_count() == 0 || k == 0 {
        return Told::Nothing;
    }
    let decided = decide(alloc, c, 0, k, meter);
    let told = told_as(&decided);
    drop(decided);
    told
}

fn told_within(alloc: Global, c: &Circuit, k: u32, steps: u64) -> Told {
    let mut meter = Meter::new(4_294_967_295, steps);
    told_by(alloc, c, k, &mut meter)
}

fn told_of(alloc: Global, text: &[u8], k: u32, steps: u64) -> Told {
    match aiger_ascii::read(alloc, text) {
        Ok(model) => {
            let told = told_within(alloc, model.circuit(), k, steps);
            drop(model);
            told
        }
        Err(_) => Told::Nothing,
    }
}

// ---- rows

const TOGGLES: &str = "aag 1 0 1 0 0 0 0 1\n2 3\n1\n2\n";

const STAYS: &str = "aag 1 0 1 0 0 0 0 1\n2 2\n1\n2\n";
// The latch is 1 from the second position on, where the constraint is false.
const ENDS: &str = "aag 1 0 1 0 0 0 1 1\n2 1\n3\n1\n3\n";

// A monitor of one round has 5 variables more.
const LARGE: &str = "aag 16777216 0 1 0 0 0 0 1 0\n2 2\n1\n2\n";

// A text, a number of rounds, a limit of steps, and what is told.
type Row = (&'static str, u32, u64, Told);

fn row(number: u8) -> Row {
    match number {
        0 => (TOGGLES, 1, 4_294_967_295, Told::Reached),
        1 => (TOGGLES, 2, 4_294_967_295, Told::Reached),
        2 => (STAYS, 1, 4_294_967_295, Told::Fewer),
        3 => (ENDS, 1, 4_294_967_295, Told::Reached),
        4 => (ENDS, 2, 4_294_967_295, Told::Fewer),
        5 => (LARGE, 1, 4_294_967_295, Told::TooLarge(16_777_221)),
        _ => (TOGGLES, 2, 0, Told::Unsettled),
    }
}

fn row_is(alloc: Global, number: u8) -> bool {
    let (text, k, steps, wanted) = row(number);
    told_of(alloc, text.as_bytes(), k, steps) == wanted
}

#[test]
fn rows(rt: HostRuntime) -> Result<(), Fail> {
    for number in 0..7 {
        assert!(rt; row_is(rt.alloc(), number));
    }
    Ok(())
}

// ---- texts of what is decided

// The text of what is decided of the first property.
fn written_of(alloc: Global, c: &Circuit, k: u32) -> Option<Vec<u8>> {
    if c.property_count() == 0 || k == 0 {
        return None;
    }
    let mut meter = Meter::new(4_294_967_295, 4_294_967_295);
    match decide(alloc, c, 0, k, &mut meter) {
        Ok(rounds) => {
            let text = write(alloc, c, 0, k, &rounds).ok();
            drop(rounds);
            text
        }
        Err(_) => None,
    }
}

fn written(alloc: Global, model: &[u8], k: u32) -> Option<Vec<u8>> {
    match aiger_ascii::read(alloc, model) {
        Ok(model) => {
            let text = written_of(alloc, model.circuit(), k);
            drop(model);
            text
        }
        Err(_) => None,
    }
}

// Whether the text begins so.
fn is_written(alloc: Global, model: &[u8], k: u32, wanted: &[u8]) -> bool {
    match written(alloc, model, k) {
        Some(text) => text.as_slice().starts_with(wanted),
        None => false,
    }
}

#[test]
fn what_is_decided_is_written(rt: HostRuntime) -> Result<(), Fail> {
    let fewer = b"rounds 1\nj0\nversion 2\nreach ";
    assert!(rt; is_written(rt.alloc(), STAYS.as_bytes(), 1, fewer));
    let reached = b"rounds 2\nj0\nrun\n0\n\n\n\n\n.\n";
    assert!(rt; is_written(rt.alloc(), TOGGLES.as_bytes(), 2, reached));
    Ok(())
}

// ---- drawn circuits

// Whether of so many rounds what is told agrees with the most that a run has.
fn agrees_at(alloc: Global, c: &Circuit, k: u32, most: u32) -> bool {
    let wanted = if k <= most {
        Told::Reached
    } else {
        Told::Fewer
    };
    told_within(alloc, c, k, 4_294_967_295) == wanted
}

fn agrees_with(alloc: Global, c: &Circuit, most: u32) -> bool {
    for k in 1..7_u32 {
        if !agrees_at(alloc, c, k, most) {
            return false;
        }
    }
    true
}

fn text_agrees(alloc: Global, text: &[u8], most: u32) -> bool {
    match aiger_ascii::read(alloc, text) {
        Ok(model) => {
            let agrees = agrees_with(alloc, model.circuit(), most);
            drop(model);
            agrees
        }
        Err(_) => false,
    }
}

/// The most rounds, up to six, that a run of the circuit has, where what is told of 1 to 6 agrees.
pub(crate) fn most_agreed(
    alloc: Global,
    d: &Drawn,
    case: &Case,
) -> Result<Option<u64>, AllocError> {
    let most = most_rounds(alloc, d, &case.steps)?;
    if text_agrees(alloc, case.text.as_slice(), most) {
        Ok(Some(u64::from(most)))
    } else {
        Ok(None)
    }
}
