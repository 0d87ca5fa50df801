//! Questions on a meter whose bell is rung: each ends as for want of memory, and counts nothing.
use crate::judging::Said;
use crate::session::{NO_LIMIT, Session, WAYS, Way};
use edge::{Bell, Meter};
use std::alloc::{AllocError, Global};
use std::sync::Arc;
use std::test::*;

// Clauses of which the first are refuted by propagation, the second by one conflict, and the third have a model.
const LISTS: [&[i64]; 3] = [
    &[1, 0, -1, 2, 0, -2, 0],
    &[1, 2, 0, -1, 2, 0, 1, -2, 0, -1, -2, 0],
    &[1, 2, 0, -1, 2, 0],
];

fn lists() -> &'static [&'static [i64]] {
    &LISTS
}

// What is said before the bell is rung, behind that, and on a meter without a bell.
fn ask_thrice(
    session: &mut Session,
    bell: &Bell,
    meter: &mut Meter,
) -> Result<[Said; 3], AllocError> {
    let before = session.ask_on(&[], meter)?;
    bell.ring();
    let called = session.ask_on(&[], meter)?;
    let again = session.ask(&[], NO_LIMIT)?;
    Ok([before, called, again])
}

// The same, and whether the question of a called search counted nothing.
fn ask_called(alloc: Global, way: Way, numbers: &[i64]) -> Result<([Said; 3], u64), AllocError> {
    let bell = Arc::new(alloc, Bell::new())?;
    let mut meter = Meter::new(NO_LIMIT, 0).with_bell(Arc::try_clone(&bell)?);
    let mut session = Session::new(alloc, way, numbers)?;
    let said = ask_thrice(&mut session, &bell, &mut meter);
    drop(session);
    Ok((said?, meter.spending().conflicts()))
}

// Whether a question that is called ends without an answer, and the solver then answers as before.
fn is_called_so(said: [Said; 3], wanted: Said) -> bool {
    let [before, called, again] = said;
    before == wanted && called == Said::Memory && again == wanted
}

fn wanted(place: usize) -> (Said, u64) {
    match place {
        0 => (Said::Unsat, 0),
        1 => (Said::Unsat, 1),
        _ => (Said::Sat, 0),
    }
}

fn is_list_called(
    alloc: Global,
    way: Way,
    place: usize,
    numbers: &[i64],
) -> Result<bool, AllocError> {
    let (said, conflicts) = ask_called(alloc, way, numbers)?;
    let (answer, count) = wanted(place);
    Ok(is_called_so(said, answer) && conflicts == count)
}

fn are_called(alloc: Global, way: Way) -> Result<bool, AllocError> {
    for (place, numbers) in lists().iter().enumerate() {
        if !is_list_called(alloc, way, place, numbers)? {
            return Ok(false);
        }
    }
    Ok(true)
}

#[test]
fn a_rung_bell_ends_a_question(rt: HostRuntime) -> Result<(), Fail> {
    for way in WAYS {
        assert!(rt; are_called(rt.alloc(), way)?, "{}", way.name());
    }
    Ok(())
}
