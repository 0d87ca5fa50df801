//! The clauses of small circuits, worked out by hand.
use crate::models::{Model, circuit_of};
use circuit::{Circuit, Latch, Reset};
use cnf::{Clause, Db, Lit};
use cnf_unroll::{ClauseSet, Kind, Used, decode, obligation, skeleton_cnf};
use items::Items;
use std::alloc::{AllocError, Global};
use std::test::*;

// One latch, variable 1, that is 1 from the second position on; the property is that it is 0.
const RISES: Model = Model {
    max: 1,
    inputs: &[],
    latches: &[Latch {
        var: 1,
        next: 1,
        reset: Reset::Zero,
    }],
    gates: &[],
    constraints: &[],
    property: &[3],
    fairness: &[],
};

// The clause of this value of the latch.
fn value_clause(alloc: Global, positive: bool) -> Result<Clause, AllocError> {
    Clause::from_slice(alloc, &[Lit { var: 0, positive }])
}

// The set of the states in which the latch has this value.
fn latch_is(alloc: Global, positive: bool) -> Result<ClauseSet, AllocError> {
    let mut set = Items::new(alloc);
    set.push(value_clause(alloc, positive)?)?;
    Ok(set)
}

fn push_literal(alloc: Global, literal: &Lit, text: &mut String) -> Result<(), AllocError> {
    if !literal.positive {
        text.push_str("-")?;
    }
    text.push_str(format!(in alloc; "{} ", literal.var)?.as_str())
}

fn push_clause(alloc: Global, clause: &Clause, text: &mut String) -> Result<(), AllocError> {
    for literal in clause.as_slice() {
        push_literal(alloc, literal, text)?;
    }
    text.push_str("0 ")
}

fn push_clauses(alloc: Global, db: &Db, text: &mut String) -> Result<(), AllocError> {
    for clause in db.as_slice() {
        push_clause(alloc, clause, text)?;
    }
    Ok(())
}

fn written(alloc: Global, db: &Db) -> Result<String, AllocError> {
    let mut text = String::new(alloc);
    push_clauses(alloc, db, &mut text)?;
    Ok(text)
}

// The obligation of the wall between the latch's values.
fn obligation_text(alloc: Global, c: &Circuit, set: &ClauseSet) -> Result<String, AllocError> {
    if set.len() != 1 {
        return Ok(String::new(alloc));
    }
    let db = obligation(alloc, c, &[], &[], set, 0)?;
    written(alloc, &db)
}

// Whether a text of the circuit and the set is this one. A circuit that is not made has none.
fn is_obligation(alloc: Global, wanted: &str) -> Result<bool, AllocError> {
    match circuit_of(alloc, &RISES) {
        Ok(c) => {
            let is_so = is_obligation_on(alloc, &c, wanted);
            drop(c);
            is_so
        }
        Err(_) => Ok(false),
    }
}

fn is_obligation_on(alloc: Global, c: &Circuit, wanted: &str) -> Result<bool, AllocError> {
    let set = latch_is(alloc, true)?;
    let text = obligation_text(alloc, c, &set)?;
    Ok(text.as_str() == wanted)
}

#[test]
fn obligation_of_a_wall(rt: HostRuntime) -> Result<(), Fail> {
    assert!(rt; is_obligation(rt.alloc(), "-1 0 -4 -1 0 4 1 0 2 0 -4 0 ")?);
    Ok(())
}

// The skeleton clauses of the property, with the wall between the latch's values.
fn skeleton_text(alloc: Global, c: &Circuit, set: &ClauseSet) -> Result<String, AllocError> {
    if c.property_count() == 0 {
        return Ok(String::new(alloc));
    }
    let used = Used {
        number: 0,
        kind: Kind::Wall,
        set,
        uses: &[],
    };
    let clauses = skeleton_cnf(alloc, c, 0, &[used])?;
    written(alloc, &clauses)
}

fn is_skeleton(alloc: Global, c: &Circuit, wanted: &str) -> Result<bool, AllocError> {
    let set = latch_is(alloc, true)?;
    let text = skeleton_text(alloc, c, &set)?;
    Ok(text.as_str() == wanted)
}

// Whether the latch is 1 at the position and at the successor that an assignment gives to the first block.
fn stays_at_1(alloc: Global, c: &Circuit, model: &[bool]) -> Result<bool, AllocError> {
    let situation = decode(alloc, c, model, 0)?;
    Ok(
        situation.position.latches.as_slice() == [true].as_slice()
            && situation.successor.as_slice() == [true].as_slice(),
    )
}

fn are_told(
    alloc: Global,
    c: &Circuit,
    wanted: &str,
    model: &[bool],
) -> Result<[bool; 2], AllocError> {
    Ok([is_skeleton(alloc, c, wanted)?, stays_at_1(alloc, c, model)?])
}

fn is_beside_a_wall(alloc: Global, wanted: &str, model: &[bool]) -> Result<[bool; 2], AllocError> {
    match circuit_of(alloc, &RISES) {
        Ok(c) => {
            let told = are_told(alloc, &c, wanted, model);
            drop(c);
            told
        }
        Err(_) => Ok([false; 2]),
    }
}

#[test]
fn skeleton_beside_a_wall(rt: HostRuntime) -> Result<(), Fail> {
    let wanted = "-1 0 -4 -1 0 4 1 0 -2 0 -5 2 0 -6 -2 0 5 6 0 -5 4 0 -7 -4 0 5 7 0 ";
    let model = [false, false, true, false, true];
    assert!(rt; is_beside_a_wall(rt.alloc(), wanted, &model)? == [true; 2]);
    Ok(())
}
