//! The subcommand `sat`: solves clauses, measures it, and looks at the answer. The main call is `run_sat`.

use crate::failure::Failure;
use crate::formula::read_formula;
use crate::outside::{print_text, read_file};
use crate::stamps::{Stamp, print_time};
use cdcl::{Answer, Solver};
use cnf::{Db, ProofLine, eval};
use edge::{Meter, SolveEnd};
use lrat::Checker;
use std::alloc::{AllocError, Global};
use std::io;

// The greatest length of a file, in bytes. No text in memory is longer.
pub(crate) const MAX_BYTES: u64 = 9_223_372_036_854_775_807;

// No limit of conflicts.
pub(crate) const NO_LIMIT: u64 = 4_294_967_295;

/// Solves the clauses in a file, and writes the answer with a model or the length of the proof. What it took goes to
/// standard error: adding the clauses and solving them without a proof, then making the answer with its proof, and then
/// the checker's look at that. Gives the number with which the program ends: 10 where there is a model, and 20 where
/// there is none.
pub(crate) fn run_sat(rt: &HostRuntime, name: &str) -> Result<u8, Failure> {
    let text = read_file(rt, name, MAX_BYTES)?;
    solve_text(rt, &text)
}

fn solve_text(rt: &HostRuntime, text: &[u8]) -> Result<u8, Failure> {
    let clauses = read_formula(rt.alloc(), text)?;
    let answer = solve_timed(rt, clauses)?;
    let number = say_text(rt, text, &answer);
    drop(answer);
    number
}

fn say_text(rt: &HostRuntime, text: &[u8], answer: &Answer) -> Result<u8, Failure> {
    let clauses = read_formula(rt.alloc(), text)?;
    say_answer(rt, clauses, answer)
}

fn solve_timed(rt: &HostRuntime, clauses: Db) -> Result<Answer, Failure> {
    let start = Stamp::now(rt)?;
    solve_since(rt, clauses, start)
}

fn solve_since(rt: &HostRuntime, clauses: Db, start: Stamp) -> Result<Answer, Failure> {
    let mut meter = Meter::new(NO_LIMIT, 0);
    let mut solver = decided(rt.alloc(), clauses, &mut meter)?;
    let answer = answer_since(rt, &mut solver, start, meter.spending().conflicts());
    drop(solver);
    answer
}

// Tells what solving took, and then makes the answer.
fn answer_since(
    rt: &HostRuntime,
    solver: &mut Solver,
    start: Stamp,
    conflicts: u64,
) -> Result<Answer, Failure> {
    print_cost(rt, start, conflicts)?;
    answer_timed(rt, solver)
}

// A solver that has found out, without a proof, whether the clauses have a model.
fn decided(alloc: Global, clauses: Db, meter: &mut Meter) -> Result<Solver, Failure> {
    let mut solver = solver_of(alloc, clauses)?;
    match ask_free(alloc, &mut solver, meter) {
        Ok(()) => Ok(solver),
        Err(end) => {
            drop(solver);
            Err(Failure::from(end))
        }
    }
}

// The answer of a solver that has found it before. Where there is no model it meets no conflict that it learns from: what
// is left is the proof.
fn answer_timed(rt: &HostRuntime, solver: &mut Solver) -> Result<Answer, Failure> {
    let start = Stamp::now(rt)?;
    let answer = solve_free(solver, &mut Meter::new(NO_LIMIT, 0))?;
    print_time(rt, "making the proof", start)?;
    Ok(answer)
}

/// A solver with the clauses of a file.
pub(crate) fn solver_of(alloc: Global, clauses: Db) -> Result<Solver, AllocError> {
    Solver::with_clauses(alloc, clauses.into_vec())
}

fn ask_free(alloc: Global, solver: &mut Solver, meter: &mut Meter) -> Result<(), SolveEnd> {
    solver.ask(alloc, &[], meter)?;
    Ok(())
}

fn solve_free(solver: &mut Solver, meter: &mut Meter) -> Result<Answer, SolveEnd> {
    solver.solve(&[], meter)
}

// Prints to standard error what an answer took.
fn print_cost(rt: &HostRuntime, start: Stamp, conflicts: u64) -> io::Result<()> {
    let end = Stamp::now(rt)?;
    eprintln!(rt; "conflicts {conflicts}")?;
    eprintln!(rt; "nanoseconds by the clock {}", start.clock_to(end))?;
    eprintln!(rt; "nanoseconds of processor time {}", start.processor_to(end))
}

// Looks at the answer and writes it.
fn say_answer(rt: &HostRuntime, clauses: Db, answer: &Answer) -> Result<u8, Failure> {
    match answer {
        Answer::Sat(values) => say_model(rt, &clauses, values.as_slice()),
        Answer::Unsat(_, proof) => say_refutation(rt, clauses, proof.as_slice()),
    }
}

fn say_model(rt: &HostRuntime, clauses: &Db, values: &[bool]) -> Result<u8, Failure> {
    if !eval(clauses, values) {
        return Err(Failure::WrongAnswer);
    }
    let text = model_text(rt.alloc(), values)?;
    print_text(rt, text.as_str())?;
    Ok(10)
}

// The value of each variable, as a signed number.
fn model_text(alloc: Global, values: &[bool]) -> Result<String, AllocError> {
    let mut text = String::from_str(alloc, "sat\nv")?;
    add_values(alloc, values, &mut text)?;
    text.push_str(" 0\n")?;
    Ok(text)
}

fn add_values(alloc: Global, values: &[bool], text: &mut String) -> Result<(), AllocError> {
    for (variable, value) in values.iter().enumerate().skip(1) {
        add_value(alloc, variable, *value, text)?;
    }
    Ok(())
}

fn add_value(
    alloc: Global,
    variable: usize,
    value: bool,
    text: &mut String,
) -> Result<(), AllocError> {
    let sign = if value { "" } else { "-" };
    let literal = format!(in alloc; " {sign}{variable}")?;
    text.push_str(literal.as_str())
}

fn say_refutation(rt: &HostRuntime, clauses: Db, proof: &[ProofLine]) -> Result<u8, Failure> {
    if !is_refuted_timed(rt, clauses, proof)? {
        return Err(Failure::WrongAnswer);
    }
    let text = format!(in rt.alloc(); "unsat\nproof lines {}\n", proof.len())?;
    print_text(rt, text.as_str())?;
    Ok(20)
}

fn is_refuted_timed(rt: &HostRuntime, clauses: Db, proof: &[ProofLine]) -> Result<bool, Failure> {
    let start = Stamp::now(rt)?;
    let is_taken = is_refuted(rt.alloc(), clauses, proof)?;
    print_time(rt, "checking the proof", start)?;
    Ok(is_taken)
}

// Whether the checker takes every line, and an empty clause is proved.
fn is_refuted(alloc: Global, clauses: Db, proof: &[ProofLine]) -> Result<bool, AllocError> {
    let mut checker = Checker::new(alloc, clauses)?;
    let is_taken = takes_all(&mut checker, proof) && checker.proved_empty();
    drop(checker);
    Ok(is_taken)
}

fn takes_all(checker: &mut Checker, proof: &[ProofLine]) -> bool {
    for line in proof {
        if checker.step(line.as_slice()).is_err() {
            return false;
        }
    }
    true
}
