//! The subcommand `lrat`: checks a proof, and measures the checking alone. The main call is `run_lrat`.

use crate::failure::Failure;
use crate::formula::read_formula;
use crate::hints::count_hints;
use crate::outside::{print_text, read_file};
use crate::sat_run::MAX_BYTES;
use crate::stamps::Stamp;
use crate::verdict::{Verdict, judge_lines, verdict_text};
use lrat::Checker;
use std::alloc::Global;
use std::io;

/// What the checker said, and when it began and ended.
#[derive(Clone, Copy)]
struct Checked {
    verdict: Verdict,
    proved_empty: bool,
    start: Stamp,
    end: Stamp,
}

/// Checks the proof in a file against the clauses in another, writes the verdict, and gives the number with which the
/// program ends: 0 where all lines are accepted, and 1 where one is refused.
pub(crate) fn run_lrat(rt: &HostRuntime, formula: &str, proof: &str) -> Result<u8, Failure> {
    let formula = read_file(rt, formula, MAX_BYTES)?;
    let proof = read_file(rt, proof, MAX_BYTES)?;
    check_texts(rt, &formula, &proof)
}

fn check_texts(rt: &HostRuntime, formula: &[u8], proof: &[u8]) -> Result<u8, Failure> {
    let mut checker = checker_of(rt.alloc(), formula)?;
    let number = check_proof(rt, &mut checker, proof);
    drop(checker);
    number
}

// A checker of the clauses in a text.
fn checker_of(alloc: Global, formula: &[u8]) -> Result<Checker, Failure> {
    let clauses = read_formula(alloc, formula)?;
    Ok(Checker::new(alloc, clauses)?)
}

fn check_proof(rt: &HostRuntime, checker: &mut Checker, proof: &[u8]) -> Result<u8, Failure> {
    let checked = check_timed(rt, checker, proof)?;
    say_checked(rt, checked, count_hints(proof))
}

fn check_timed(rt: &HostRuntime, checker: &mut Checker, proof: &[u8]) -> Result<Checked, Failure> {
    let start = Stamp::now(rt)?;
    let verdict = judge_lines(checker, proof)?;
    let end = Stamp::now(rt)?;
    Ok(Checked {
        verdict,
        proved_empty: checker.proved_empty(),
        start,
        end,
    })
}

// Writes the verdict and what the checking took, and gives the number with which the program ends.
fn say_checked(rt: &HostRuntime, checked: Checked, hints: u64) -> Result<u8, Failure> {
    print_verdict(rt, checked, hints)?;
    print_times(rt, checked.start, checked.end, hints)?;
    Ok(match checked.verdict {
        Verdict::Accepted(_) => 0,
        Verdict::Refused(_, _) => 1,
    })
}

fn print_verdict(rt: &HostRuntime, checked: Checked, hints: u64) -> Result<(), Failure> {
    let text = verdict_text(rt.alloc(), checked.verdict, hints, checked.proved_empty)?;
    print_text(rt, text.as_str())
}

// Prints to standard error what the checking took between two readings.
fn print_times(rt: &HostRuntime, start: Stamp, end: Stamp, hints: u64) -> io::Result<()> {
    let clock = start.clock_to(end);
    let processor = start.processor_to(end);
    let per_hint = processor.checked_div(hints).unwrap_or(0);
    eprintln!(rt; "nanoseconds by the clock {clock}")?;
    eprintln!(rt; "nanoseconds of processor time {processor}")?;
    eprintln!(rt; "nanoseconds per hint {per_hint}")
}
