//! Clauses struck out until no step from the states of the rest breaks one of them. The main call is `strike`.
ghost use Rattle.std.specs.Prelude.{IfErr};
ghost use Rattle.edge.specs.Ends.{CountsConflicts, IsEnd};

use cdcl::{Asked, Solver, are_sized, has_opposites};
use circuit::Circuit;
use cnf::{Clause, Lit};
use cnf_unroll::{broken, shared};
use edge::{Meter, SolveEnd};
use items::Items;
use std::alloc::{AllocError, Global};

/// How many questions are asked, at most.
const MOST_QUESTIONS: u64 = 50_000;

/// A clause; the literals by which a successor breaks it; and whether it is struck out.
#[derive(Drop)]
struct Candidate {
    clause: Clause,
    broken: Items<Lit>,
    is_struck: bool,
}

/// The clauses, and how many questions are left.
#[derive(Drop)]
struct Striking {
    candidates: Vec<Candidate>,
    questions_left: u64,
    has_struck: bool,
}

// A clause whose literals a successor may break all together; another one is struck out.
fn candidate_of(alloc: Global, c: &Circuit, clause: &Clause) -> Result<Candidate, AllocError> {
    let broken = broken(alloc, c, clause)?;
    let is_struck = has_opposites(broken.as_slice()) || !are_sized(broken.as_slice());
    Ok(Candidate {
        clause: clause.clone()?,
        broken,
        is_struck,
    })
}

fn begun(alloc: Global, c: &Circuit, clauses: &[Clause]) -> Result<Striking, AllocError> {
    let mut candidates = Vec::new(alloc);
    for clause in clauses {
        candidates.push(candidate_of(alloc, c, clause)?)?;
    }
    Ok(Striking {
        candidates,
        questions_left: MOST_QUESTIONS,
        has_struck: false,
    })
}

// The clauses that are not struck out.
fn rest(alloc: Global, striking: &Striking) -> Result<Items<Clause>, AllocError> {
    let mut clauses = Items::new(alloc);
    for candidate in striking.candidates.iter() {
        if !candidate.is_struck {
            clauses.push(candidate.clause.clone()?)?;
        }
    }
    Ok(clauses)
}

// A solver of a step from the states that meet the clauses that are not struck out.
fn solver_of(alloc: Global, c: &Circuit, striking: &Striking) -> Result<Solver, AllocError> {
    let set = rest(alloc, striking)?;
    let begun = shared(alloc, c, &[], &[], &set)?;
    Solver::with_clauses(alloc, begun.clauses.into_vec())
}

// Whether the values of the solver make the literals true.
fn are_true(solver: &Solver, literals: &[Lit]) -> bool {
    literals.iter().all(|l| solver.value(l.var) == l.positive)
}

// Strikes out the clauses that the successor breaks which the solver has found.
fn strike_broken(solver: &Solver, candidates: &mut Vec<Candidate>) {
    for candidate in candidates.iter_mut() {
        if are_true(solver, candidate.broken.as_slice()) {
            candidate.is_struck = true;
        }
    }
}

// Asks for a step that breaks the clause with this number, if it is not struck out, and strikes out what it breaks.
fn strike_one(
    alloc: Global,
    solver: &mut Solver,
    striking: &mut Striking,
    number: usize,
    meter: &mut Meter,
) -> Result<(), SolveEnd>
    ensures end { IfErr result (IsEnd meter.new) }
    ensures counted { CountsConflicts meter.old meter.new }
{
    let Some(candidate) = striking.candidates.get(number) else {
        return Ok(());
    };
    if candidate.is_struck || striking.questions_left == 0 {
        return Ok(());
    }
    striking.questions_left = striking.questions_left.saturating_sub(1);
    match solver.ask(alloc, candidate.broken.as_slice(), meter)? {
        Asked::Unsat(_) => Ok(()),
        Asked::Sat => {
            striking.has_struck = true;
            strike_broken(solver, &mut striking.candidates);
            Ok(())
        }
    }
}

// The same for each clause.
fn strike_each(
    alloc: Global,
    solver: &mut Solver,
    striking: &mut Striking,
    meter: &mut Meter,
) -> Result<(), SolveEnd>
    ensures end { IfErr result (IsEnd meter.new) }
    ensures counted { CountsConflicts meter.old meter.new }
{
    for number in 0..striking.candidates.len() {
        strike_one(alloc, solver, striking, number, meter)?;
    }
    Ok(())
}

// The same with a solver of the clauses that are not struck out. Answers whether one was struck out.
fn strike_once(
    alloc: Global,
    c: &Circuit,
    striking: &mut Striking,
    meter: &mut Meter,
) -> Result<bool, SolveEnd>
    ensures end { IfErr result (IsEnd meter.new) }
    ensures counted { CountsConflicts meter.old meter.new }
{
    striking.has_struck = false;
    let mut solver = solver_of(alloc, c, striking)?;
    let end = strike_each(alloc, &mut solver, striking, meter);
    drop(solver);
    end?;
    Ok(striking.has_struck)
}

/// The clauses that are left when none is struck out any more: no step from the states that meet them breaks one. None where
/// the questions do not suffice.
pub(crate) fn strike(
    alloc: Global,
    c: &Circuit,
    clauses: &[Clause],
    meter: &mut Meter,
) -> Result<Items<Clause>, SolveEnd>
    ensures end { IfErr result (IsEnd meter.new) }
    ensures counted { CountsConflicts meter.old meter.new }
{
    let mut striking = begun(alloc, c, clauses)?;
    for _turn in 0..clauses.len() {
        let has_struck = strike_once(alloc, c, &mut striking, meter)?;
        if striking.questions_left == 0 {
            return Ok(Items::new(alloc));
        }
        if !has_struck {
            return Ok(rest(alloc, &striking)?);
        }
    }
    Ok(Items::new(alloc))
}
