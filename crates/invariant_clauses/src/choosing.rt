//! Clauses chosen by states, and struck out by a solver. The main call is `inductive_clauses`.
ghost use Rattle.std.specs.Prelude.{◌≡◌, IfErr};
ghost use Rattle.edge.specs.Ends.{CountsConflicts, IsEnd};

use crate::candidates::{MOST_CLAUSES, candidates};
use crate::striking::strike;
use circuit::Circuit;
use cnf::Clause;
use edge::{Meter, SolveEnd};
use items::Items;
use std::alloc::Global;

/// Clauses of one and of two latches, over the places of latches, chosen by states of drawn runs: the words of these latches
/// stand in the rows, each row behind a word whose bits tell which of 64 runs have a state. Where the states leave more than
/// 1,000 clauses none comes; else they are tried by at most 50,000 questions. That no step breaks them is tried, and no clause
/// says it. `Spent` comes only where the meter's count of conflicts is at its limit; the other error is want of memory.
pub fn inductive_clauses(
    alloc: Global,
    c: &Circuit,
    latches: &[usize],
    rows: &[u64],
    meter: &mut Meter,
) -> Result<Items<Clause>, SolveEnd>
    ensures end { IfErr result (IsEnd meter.new) }
    ensures counted { CountsConflicts meter.old meter.new }
{
    let clauses = candidates(alloc, c, latches, rows)?;
    if clauses.len() > MOST_CLAUSES {
        return Ok(Items::new(alloc));
    }
    strike(alloc, c, clauses.as_slice(), meter)
}
