//! What the checker says of a proof, and the text of it. The main calls are `judge_lines` and `verdict_text`.
ghost use Rattle.std.specs.Prelude.{◌≡◌};

use crate::failure::Failure;
use crate::lines::Lines;
use lrat::{Checker, LratEnd, LratFault};
use std::alloc::{AllocError, Global};

/// What the checker says of the lines of a proof.
#[derive(Clone, Copy)]
pub(crate) enum Verdict {
    /// All lines were accepted, so many.
    Accepted(u64),
    /// The line with this number, from 1, is the first that was refused.
    Refused(u64, LratFault),
}

/// Gives the checker the lines of a proof, up to the first that it refuses.
pub(crate) fn judge_lines(checker: &mut Checker, proof: &[u8]) -> Result<Verdict, Failure>
    ensures { checker.new.given ≡ checker.old.given }
{
    let mut accepted: u64 = 0;
    for line in Lines(proof) {
        if let Some(fault) = line_fault(checker, line)? {
            return Ok(Verdict::Refused(accepted.saturating_add(1), fault));
        }
        accepted = accepted.saturating_add(1);
    }
    Ok(Verdict::Accepted(accepted))
}

// Gives the checker a line, and answers why it refuses it, if it does.
fn line_fault(checker: &mut Checker, line: &[u8]) -> Result<Option<LratFault>, Failure>
    ensures { checker.new.given ≡ checker.old.given }
{
    match checker.step(line) {
        Ok(()) => Ok(None),
        Err(LratEnd::Fault(fault)) => Ok(Some(fault)),
        Err(LratEnd::Memory) => Err(Failure::Memory),
    }
}

/// The two lines that are written of a verdict.
pub(crate) fn verdict_text(
    alloc: Global,
    verdict: Verdict,
    hints: u64,
    proved_empty: bool,
) -> Result<String, AllocError> {
    let end = if proved_empty {
        "empty clause proved"
    } else {
        "not finished"
    };
    match verdict {
        Verdict::Accepted(lines) => {
            format!(in alloc; "lines {lines} hints {hints} accepted\n{end}\n")
        }
        Verdict::Refused(line, fault) => {
            let why = fault_text(alloc, fault)?;
            format!(in alloc; "refused line {line} {why}\n{end}\n")
        }
    }
}

fn fault_text(alloc: Global, fault: LratFault) -> Result<String, AllocError> {
    let words = fault_words(fault);
    match fault {
        LratFault::NoClause(id) | LratFault::NotUnit(id) => format!(in alloc; "{words} {id}"),
        _ => String::from_str(alloc, words),
    }
}

fn fault_words(fault: LratFault) -> &'static str {
    match fault {
        LratFault::BadLine => "bad line",
        LratFault::IdOrder => "id order",
        LratFault::NoClause(_) => "no clause",
        LratFault::NotUnit(_) => "not unit",
        LratFault::NoConflict => "no conflict",
        LratFault::RatRefused => "rat refused",
        LratFault::Unfinished => "unfinished",
    }
}
