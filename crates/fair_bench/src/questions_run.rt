//! The subcommand `questions`: asks one solver many questions under assumptions, and measures them. The main call is
//! `run_questions`.

use crate::failure::Failure;
use crate::formula::read_formula;
use crate::outside::{print_text, read_file};
use crate::sat_run::{MAX_BYTES, NO_LIMIT, solver_of};
use crate::stamps::Stamp;
use cdcl::{Asked, Solver};
use cnf::{Clause, Db, Lit};
use edge::Meter;
use std::alloc::{AllocError, Global};
use std::io;

/// How many questions were answered each way, and after how many conflicts.
#[derive(Clone, Copy)]
struct Tally {
    sat: u64,
    unsat: u64,
    conflicts: u64,
}

/// Asks a solver of the clauses in one file the questions in another, whose clauses are lists of assumptions, one
/// after another. Writes how many have a model and how many have none; a list with a literal and its negation has none. What
/// they took goes to standard error, and the reading is not in it. Gives 0, the number with which the program ends.
///
/// Where a third file is named, each question brings a clause of its own: the clause with its number in that file is added
/// before it is asked. Behind the answer the clause is retired: its last literal, which stands in no other clause and whose
/// negation is assumed, becomes a unit clause.
pub(crate) fn run_questions(
    rt: &HostRuntime,
    clauses: &str,
    questions: &str,
    own: Option<&str>,
) -> Result<u8, Failure> {
    let mut solver = solver_in(rt, clauses)?;
    let number = ask_file(rt, &mut solver, questions, own);
    drop(solver);
    number
}

// A solver of the clauses in a file.
fn solver_in(rt: &HostRuntime, name: &str) -> Result<Solver, Failure> {
    let clauses = formula_in(rt, name)?;
    Ok(solver_of(rt.alloc(), clauses)?)
}

fn ask_file(
    rt: &HostRuntime,
    solver: &mut Solver,
    questions: &str,
    own: Option<&str>,
) -> Result<u8, Failure> {
    let questions = formula_in(rt, questions)?;
    match own {
        Some(own) => ask_bringing(rt, solver, questions.as_slice(), own),
        None => ask_timed(rt, solver, questions.as_slice(), &[]),
    }
}

fn ask_bringing(
    rt: &HostRuntime,
    solver: &mut Solver,
    questions: &[Clause],
    own: &str,
) -> Result<u8, Failure> {
    let brought = formula_in(rt, own)?;
    ask_alike(rt, solver, questions, brought.as_slice())
}

// Asks if each question has a clause.
fn ask_alike(
    rt: &HostRuntime,
    solver: &mut Solver,
    questions: &[Clause],
    brought: &[Clause],
) -> Result<u8, Failure> {
    if brought.len() != questions.len() {
        return Err(Failure::BadInput);
    }
    ask_timed(rt, solver, questions, brought)
}

// The clauses in a file.
fn formula_in(rt: &HostRuntime, name: &str) -> Result<Db, Failure> {
    let text = read_file(rt, name, MAX_BYTES)?;
    read_formula(rt.alloc(), &text)
}

fn ask_timed(
    rt: &HostRuntime,
    solver: &mut Solver,
    questions: &[Clause],
    brought: &[Clause],
) -> Result<u8, Failure> {
    let start = Stamp::now(rt)?;
    let tally = ask_all(rt.alloc(), solver, questions, brought)?;
    let end = Stamp::now(rt)?;
    print_costs(rt, tally, start, end)?;
    print_tally(rt, tally)?;
    Ok(0)
}

fn ask_all(
    alloc: Global,
    solver: &mut Solver,
    questions: &[Clause],
    brought: &[Clause],
) -> Result<Tally, Failure> {
    let mut meter = Meter::new(NO_LIMIT, 0);
    let mut tally = ask_each(alloc, solver, questions, brought, &mut meter)?;
    tally.conflicts = meter.spending().conflicts();
    Ok(tally)
}

// Asks each question, and counts no conflicts.
fn ask_each(
    alloc: Global,
    solver: &mut Solver,
    questions: &[Clause],
    brought: &[Clause],
    meter: &mut Meter,
) -> Result<Tally, Failure> {
    let mut tally = Tally {
        sat: 0,
        unsat: 0,
        conflicts: 0,
    };
    for (number, question) in questions.iter().enumerate() {
        ask_with(
            alloc,
            solver,
            brought.get(number),
            question,
            meter,
            &mut tally,
        )?;
    }
    Ok(tally)
}

// Asks beside a clause that holds for this question alone, where there is one.
fn ask_with(
    alloc: Global,
    solver: &mut Solver,
    own: Option<&Clause>,
    question: &Clause,
    meter: &mut Meter,
    tally: &mut Tally,
) -> Result<(), Failure> {
    match own {
        Some(clause) => ask_beside(alloc, solver, clause, question, meter, tally),
        None => ask_one(alloc, solver, question, meter, tally),
    }
}

fn ask_beside(
    alloc: Global,
    solver: &mut Solver,
    own: &Clause,
    question: &Clause,
    meter: &mut Meter,
    tally: &mut Tally,
) -> Result<(), Failure> {
    bring(alloc, solver, own)?;
    ask_one(alloc, solver, question, meter, tally)?;
    retire(alloc, solver, own)
}

fn bring(alloc: Global, solver: &mut Solver, clause: &Clause) -> Result<(), Failure> {
    let copy = Clause::from_slice(alloc, clause.as_slice())?;
    Ok(solver.add_sized(copy)?)
}

// The clause of a question is true for good by its last literal.
fn retire(alloc: Global, solver: &mut Solver, clause: &Clause) -> Result<(), Failure> {
    match clause.as_slice().last() {
        Some(literal) => Ok(add_unit(alloc, solver, *literal)?),
        None => Err(Failure::BadInput),
    }
}

fn add_unit(alloc: Global, solver: &mut Solver, literal: Lit) -> Result<(), AllocError> {
    let unit = Clause::from_slice(alloc, &[literal])?;
    solver.add_sized(unit)
}

fn ask_one(
    alloc: Global,
    solver: &mut Solver,
    question: &Clause,
    meter: &mut Meter,
    tally: &mut Tally,
) -> Result<(), Failure> {
    let answer = solver.ask(alloc, question.as_slice(), meter)?;
    count_answer(&answer, tally);
    Ok(())
}

fn count_answer(answer: &Asked, tally: &mut Tally) {
    match answer {
        Asked::Sat => tally.sat = tally.sat.saturating_add(1),
        Asked::Unsat(_) => tally.unsat = tally.unsat.saturating_add(1),
    }
}

fn print_costs(rt: &HostRuntime, tally: Tally, start: Stamp, end: Stamp) -> io::Result<()> {
    eprintln!(rt; "conflicts {}", tally.conflicts)?;
    eprintln!(rt; "nanoseconds by the clock {}", start.clock_to(end))?;
    eprintln!(rt; "nanoseconds of processor time {}", start.processor_to(end))
}

fn print_tally(rt: &HostRuntime, tally: Tally) -> Result<(), Failure> {
    let text = format!(in rt.alloc(); "sat {}\nunsat {}\n", tally.sat, tally.unsat)?;
    print_text(rt, text.as_str())?;
    Ok(())
}
