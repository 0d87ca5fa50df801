//! Clauses of one latch and of two that drawn states suggest, in small circuits, and what of them separates a state, worked
//! out by hand. A literal over latch numbers is written as twice its latch, and one more where it is negated.

use crate::searching::is_goal;
use crate::stepping::clause_of;
use circuit::Circuit;
use cnf::Clause;
use edge::{Meter, SolveEnd};
use entry::good_lists_grow;
use ic3::Goal;
use ic3_closing::{ClosedSet, separates};
use invariant_clauses::inductive_clauses;
use items::Items;
use std::alloc::{AllocError, Global};
use std::test::Fail;

// Three latches, each of which takes the value of the one before: the first begins with 1. Just one is 1 in each state that
// is reached.
const RING: &str = "aag 3 0 3 0 0 0 0 0 0\n2 6 1\n4 2\n6 4\n";

// One latch that keeps its value, and a counter of two bits, the low one first.
const STAYS: &str = "aag 1 0 1 0 0 0 0 0 0\n2 2\n";

const COUNTS: &str = "aag 5 0 2 0 3 0 0 0 0\n2 3\n4 11\n6 5 2\n8 4 3\n10 9 7\n";

// A model; states of runs, of which each row tells by a bit a run first where there is one, and then the value of each
// latch; and the clauses that come of them.
type Row = (&'static str, &'static [u64], &'static [&'static [u64]]);

fn clause_rows() -> &'static [Row] {
    &[
        (RING, &[7, 1, 2, 4], &[&[1, 3], &[1, 5], &[3, 5]]),
        (
            RING,
            &[1, 1, 0, 0, 1, 0, 1, 0, 1, 0, 0, 1],
            &[&[1, 3], &[1, 5], &[3, 5]],
        ),
        (RING, &[3, 1, 2, 0], &[]),
        (RING, &[], &[]),
        (STAYS, &[1, 0], &[&[1]]),
        (STAYS, &[1, 2], &[&[1]]),
        (STAYS, &[3, 2], &[]),
        (STAYS, &[1, 1], &[]),
        (COUNTS, &[3, 2, 0], &[]),
    ]
}

fn places_of(alloc: Global, c: &Circuit) -> Result<Vec<usize>, AllocError> {
    let mut places = Vec::new(alloc);
    for place in 0..c.latches().len() {
        places.push(place)?;
    }
    Ok(places)
}

fn codes_of(alloc: Global, clause: &Clause) -> Result<Vec<u64>, AllocError> {
    let mut codes = Vec::new(alloc);
    for literal in clause.as_slice() {
        let code = literal.var.saturating_mul(2);
        codes.push(if literal.positive {
            code
        } else {
            code.saturating_add(1)
        })?;
    }
    Ok(codes)
}

fn has_codes(alloc: Global, clause: &Clause, codes: &[u64]) -> Result<bool, AllocError> {
    let found = codes_of(alloc, clause)?;
    let is_so = found.as_slice() == codes;
    drop(found);
    Ok(is_so)
}

fn are_these(alloc: Global, clauses: &[Clause], wanted: &[&[u64]]) -> Result<bool, AllocError> {
    for (clause, codes) in clauses.iter().zip(wanted.iter()) {
        if !has_codes(alloc, clause, codes)? {
            return Ok(false);
        }
    }
    Ok(clauses.len() == wanted.len())
}

fn clauses_on(alloc: Global, c: &Circuit, row: &Row) -> Result<bool, SolveEnd> {
    let places = places_of(alloc, c)?;
    let mut meter = Meter::new(1000, 0);
    let clauses = inductive_clauses(alloc, c, &places, row.1, &mut meter)?;
    let are_so = are_these(alloc, clauses.as_slice(), row.2);
    drop(clauses);
    Ok(are_so?)
}

// Of a model that is not read no clauses come.
fn clauses_as(alloc: Global, row: &Row) -> Result<bool, SolveEnd> {
    match aiger_ascii::read(alloc, row.0.as_bytes()) {
        Ok(model) => {
            let found = clauses_on(alloc, model.circuit(), row);
            drop(model);
            found
        }
        Err(_) => Ok(false),
    }
}

#[test]
fn invariants_come_as_they_are(rt: HostRuntime) -> Result<(), Fail> {
    for row in clause_rows() {
        assert!(rt; clauses_as(rt.alloc(), row)?);
    }
    Ok(())
}

// A model, clauses, a state, and whether the clauses separate the initial states from it.
type Judged = (
    &'static str,
    &'static [&'static [u64]],
    &'static [bool],
    bool,
);

fn judged_rows() -> &'static [Judged] {
    &[
        (
            RING,
            &[&[1, 3], &[1, 5], &[3, 5]],
            &[true, true, false],
            true,
        ),
        (
            RING,
            &[&[1, 3], &[1, 5], &[3, 5]],
            &[true, false, false],
            false,
        ),
        (RING, &[&[5]], &[false, false, true], false),
        (RING, &[&[3, 5]], &[false, true, true], false),
        (STAYS, &[&[1]], &[true], true),
        (STAYS, &[&[0]], &[false], false),
        (STAYS, &[&[3]], &[true], false),
        (COUNTS, &[&[3]], &[true, true], false),
    ]
}

fn clauses_of(alloc: Global, codes: &[&[u64]]) -> Result<Items<Clause>, AllocError> {
    let mut clauses = Items::new(alloc);
    push_clauses(alloc, codes, &mut clauses)?;
    Ok(clauses)
}

fn push_clauses(
    alloc: Global,
    codes: &[&[u64]],
    clauses: &mut Items<Clause>,
) -> Result<(), AllocError> {
    for clause in codes {
        clauses.push(clause_of(alloc, *clause)?)?;
    }
    Ok(())
}

fn judged_by(alloc: Global, c: &Circuit, row: &Judged, set: &ClosedSet) -> Result<bool, SolveEnd> {
    good_lists_grow(c);
    let goal = Goal::State(row.2);
    if !is_goal(c, &goal) {
        return Ok(false);
    }
    let mut meter = Meter::new(1000, 0);
    let is_separate = separates(alloc, c, &[], &goal, set, &mut meter)?;
    Ok(is_separate == row.3)
}

fn judged_on(alloc: Global, c: &Circuit, row: &Judged) -> Result<bool, SolveEnd> {
    let clauses = clauses_of(alloc, row.1)?;
    let uses = Items::new(alloc);
    let set = ClosedSet { clauses, uses };
    let is_so = judged_by(alloc, c, row, &set);
    drop(set);
    is_so
}

// Of a model that is not read nothing is judged.
fn judged_as(alloc: Global, row: &Judged) -> Result<bool, SolveEnd> {
    match aiger_ascii::read(alloc, row.0.as_bytes()) {
        Ok(model) => {
            let found = judged_on(alloc, model.circuit(), row);
            drop(model);
            found
        }
        Err(_) => Ok(false),
    }
}

#[test]
fn invariants_separate_where_no_step_breaks_them(rt: HostRuntime) -> Result<(), Fail> {
    for row in judged_rows() {
        assert!(rt; judged_as(rt.alloc(), row)?);
    }
    Ok(())
}
