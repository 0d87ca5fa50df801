//! Steps of small circuits, worked out by hand. A literal over latch numbers is written as twice its latch, and one
//! more where it is negated.
ghost use Rattle.std.specs.Prelude.{length};
ghost use Rattle.ic3_semantics.specs.Stepping.{IsOver};

use crate::searching::{are_over, is_over};
use circuit::{Circuit, Position};
use cnf::{Clause, Cube, Lit};
use edge::{Meter, SolveEnd};
use entry::good_lists_grow;
use ic3::{Start, Steps};
use ic3_loops::StepSolver;
use ic3_semantics::Found;
use std::alloc::{AllocError, Global};
use std::test::Fail;

// One latch that changes its value, one that keeps it, and a counter of two bits, the low one first.
const TURNS: &str = "aag 1 0 1 0 0 0 0 0 0\n2 3\n";

const STAYS: &str = "aag 1 0 1 0 0 0 0 0 0\n2 2\n";

const COUNTS: &str = "aag 5 0 2 0 3 0 0 0 0\n2 3\n4 11\n6 5 2\n8 4 3\n10 9 7\n";

fn literals_of(alloc: Global, codes: &[u64]) -> Result<Vec<Lit>, AllocError> {
    let mut literals = Vec::new(alloc);
    for code in codes {
        literals.push(Lit {
            var: *code / 2,
            positive: *code % 2 == 0,
        })?;
    }
    Ok(literals)
}

// A step into the cube from a level, under the lemma, which the solver gets; asked with a clause of its own, or without.
fn predecessor_under(
    alloc: Global,
    steps: &mut Steps<'_>,
    lemma: (u64, &Clause),
    level: u64,
    cube: &Cube,
    brings_clause: bool,
) -> Result<Found, SolveEnd>
    requires lemma { IsOver (length steps.old.question.circuit.latches) lemma.1.now }
    requires cube { IsOver (length steps.old.question.circuit.latches) cube.now }
{
    let (at, clause) = lemma;
    steps.hold(at, clause)?;
    let mut meter = Meter::new(100, 0);
    if brings_clause {
        steps.predecessor(alloc, level, cube, &mut meter)
    } else {
        StepSolver::predecessor_of_excluded(steps, alloc, level, cube, &mut meter)
    }
}

// The same of a new solver.
fn predecessor_of(
    alloc: Global,
    c: &Circuit,
    lemma: (u64, &Clause),
    level: u64,
    cube: &Cube,
    brings_clause: bool,
) -> Result<Found, SolveEnd>
    requires lemma { IsOver (length c.now.latches) lemma.1.now }
    requires cube { IsOver (length c.now.latches) cube.now }
{
    good_lists_grow(c);
    let start = Start::Initial;
    let mut steps = Steps::new(alloc, c, &[], &start, &[])?;
    let found = predecessor_under(alloc, &mut steps, lemma, level, cube, brings_clause);
    drop(steps);
    found
}

// A circuit; a lemma with its level; the level and the cube of a question; the state of the only step, or nothing.
type Row = (
    &'static str,
    u64,
    &'static [u64],
    u64,
    &'static [u64],
    &'static [bool],
);

fn step_rows() -> &'static [Row] {
    &[
        (TURNS, 0, &[0], 1, &[0], &[false]),
        (TURNS, 0, &[0], 1, &[1], &[true]),
        (TURNS, 1, &[0], 1, &[0], &[]),
        (TURNS, 1, &[0], 2, &[0], &[false]),
        (TURNS, 2, &[0], 1, &[0], &[]),
        (STAYS, 0, &[0], 1, &[0], &[]),
        (STAYS, 0, &[0], 1, &[0, 1], &[]),
        (COUNTS, 0, &[0], 1, &[0, 2], &[false, true]),
        (COUNTS, 0, &[0], 1, &[2], &[true, false]),
        (COUNTS, 0, &[0], 1, &[0, 3], &[false, false]),
        (COUNTS, 1, &[2], 1, &[0, 3], &[]),
        (COUNTS, 1, &[2], 2, &[0, 3], &[false, false]),
    ]
}

pub(crate) fn clause_of(alloc: Global, codes: &[u64]) -> Result<Clause, AllocError> {
    Clause::from_slice(alloc, literals_of(alloc, codes)?.as_slice())
}

fn is_found(found: Found, wanted: &[bool]) -> bool {
    match found {
        Found::Step(p) => p.latches.as_slice() == wanted,
        Found::Missing(_) => wanted.is_empty(),
    }
}

// Whether the only step is from this state; nothing where there is none.
fn finds(
    alloc: Global,
    c: &Circuit,
    clause: &Clause,
    cube: &Cube,
    row: &Row,
    brings_clause: bool,
) -> Result<bool, SolveEnd>
    requires lemma { IsOver (length c.now.latches) clause.now }
    requires cube { IsOver (length c.now.latches) cube.now }
{
    let found = predecessor_of(alloc, c, (row.1, clause), row.3, cube, brings_clause)?;
    Ok(is_found(found, row.5))
}

// The same by both questions.
fn leads_as(
    alloc: Global,
    c: &Circuit,
    clause: &Clause,
    cube: &Cube,
    row: &Row,
) -> Result<bool, SolveEnd> {
    if !is_over(c, clause.as_slice()) || !is_over(c, cube.as_slice()) {
        return Ok(false);
    }
    Ok(finds(alloc, c, clause, cube, row, true)? && finds(alloc, c, clause, cube, row, false)?)
}

fn steps_on(alloc: Global, c: &Circuit, row: &Row) -> Result<bool, SolveEnd> {
    let clause = clause_of(alloc, row.2)?;
    let cube = cube_of(alloc, row.4)?;
    leads_as(alloc, c, &clause, &cube, row)
}

// A model that is not read leads nowhere.
fn steps_as(alloc: Global, row: &Row) -> Result<bool, SolveEnd> {
    match aiger_ascii::read(alloc, row.0.as_bytes()) {
        Ok(model) => {
            let found = steps_on(alloc, model.circuit(), row);
            drop(model);
            found
        }
        Err(_) => Ok(false),
    }
}

#[test]
fn steps_lead_where_they_do(rt: HostRuntime) -> Result<(), Fail> {
    for row in step_rows() {
        assert!(rt; steps_as(rt.alloc(), row)?);
    }
    Ok(())
}

// The state of a position at which the AIGER literal is met, outside the cubes; nothing where there is none.
fn goal_in(
    alloc: Global,
    c: &Circuit,
    literal: u64,
    avoid: &[Cube],
) -> Result<Option<Position>, SolveEnd> {
    good_lists_grow(c);
    let start = Start::Initial;
    if !are_over(c, avoid) {
        return Err(SolveEnd::Memory);
    }
    let mut meter = Meter::new(100, 0);
    let mut steps = Steps::new(alloc, c, &[], &start, avoid)?;
    let found = steps.meets_goal(alloc, 0, literal, &mut meter);
    drop(steps);
    found
}

fn cube_of(alloc: Global, codes: &[u64]) -> Result<Cube, AllocError> {
    Cube::from_slice(alloc, literals_of(alloc, codes)?.as_slice())
}

fn is_state(found: Option<Position>, wanted: &[bool]) -> bool {
    match found {
        Some(p) => p.latches.as_slice() == wanted,
        None => wanted.is_empty(),
    }
}

// Whether the only state of the counter for the goal of a row, outside the cube, is that one.
fn goals_on(alloc: Global, c: &Circuit, row: &GoalRow) -> Result<bool, SolveEnd> {
    let (literal, avoid, wanted) = row;
    let cubes = [cube_of(alloc, avoid)?];
    Ok(is_state(goal_in(alloc, c, *literal, &cubes)?, wanted))
}

fn goals_as(alloc: Global, row: &GoalRow) -> Result<bool, SolveEnd> {
    match aiger_ascii::read(alloc, COUNTS.as_bytes()) {
        Ok(model) => {
            let found = goals_on(alloc, model.circuit(), row);
            drop(model);
            found
        }
        Err(_) => Ok(false),
    }
}

// An AIGER literal, an avoided cube, and the only state, or nothing.
type GoalRow = (u64, &'static [u64], &'static [bool]);

fn goal_rows() -> &'static [GoalRow] {
    &[
        (4, &[0], &[false, true]),
        (4, &[2], &[]),
        (2, &[2], &[true, false]),
        (6, &[0, 2], &[true, false]),
        (0, &[0], &[]),
        (40, &[0], &[]),
        (8, &[1, 3], &[false, true]),
        (41, &[], &[]),
    ]
}

#[test]
fn goals_are_met_where_they_are(rt: HostRuntime) -> Result<(), Fail> {
    for row in goal_rows() {
        assert!(rt; goals_as(rt.alloc(), row)?);
    }
    Ok(())
}

fn latches_on(alloc: Global, c: &Circuit) -> Result<usize, AllocError> {
    good_lists_grow(c);
    let start = Start::Initial;
    let steps = Steps::new(alloc, c, &[], &start, &[])?;
    let count = steps.latches();
    drop(steps);
    Ok(count)
}

// Whether a circuit is seen to have so many latches.
fn latches_as(alloc: Global, text: &str, wanted: usize) -> Result<bool, AllocError> {
    match aiger_ascii::read(alloc, text.as_bytes()) {
        Ok(model) => {
            let count = latches_on(alloc, model.circuit());
            drop(model);
            Ok(count? == wanted)
        }
        Err(_) => Ok(false),
    }
}

#[test]
fn latches_are_counted(rt: HostRuntime) -> Result<(), Fail> {
    assert!(rt; latches_as(rt.alloc(), TURNS, 1)?);
    assert!(rt; latches_as(rt.alloc(), STAYS, 1)?);
    assert!(rt; latches_as(rt.alloc(), COUNTS, 2)?);
    Ok(())
}
