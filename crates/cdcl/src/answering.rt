//! Answers, made of what a search finds. The main calls are `search_answer` and `search_asked`.
ghost use Rattle.std.specs.Prelude.{◌≡◌, IfOk, IfErr, false};
ghost use Rattle.proof_semantics.specs.Clauses.{has_opposites};
ghost use Rattle.proof_semantics.specs.Lines.{AreSized};
ghost use Rattle.cdcl_trail.specs.Trails.{literals_of};
ghost use Rattle.cdcl.specs.Asking.{IsAsked};
ghost use Rattle.cdcl.specs.Resting.{IsLimitedAtRest, IsRested};
ghost use Rattle.cdcl_log.specs.LoggedClauses.{IsLog, added_of};
ghost use Rattle.cdcl.specs.Finding.{IsSearchResult, IsAskedFrom};
ghost use Rattle.cdcl.specs.Progress.{IsSearched};
ghost use Rattle.cdcl.specs.Searching.{IsHeld};
ghost use Rattle.edge.specs.Ends.{IsEnd};
ghost use Rattle.cdcl.specs.Solving.{IsAnswer};

use crate::asking::Asked;
use crate::conditions::{are_sized, opposite};
use crate::finding::Found;
use crate::refusing::{negations, refusal};
use crate::searching::search;
use crate::solving::Answer;
use crate::values::values_from;
use cdcl_log::Log;
use cdcl_order::Order;
use cdcl_trail::Trail;
use cnf::Lit;
use edge::{Meter, SolveEnd};
use std::alloc::{AllocError, Global};

/// Searches, and writes the values or the core with its proof.
pub(crate) fn search_answer(
    alloc: Global,
    log: &mut Log,
    order: &mut Order,
    trail: &mut Trail,
    assumptions: &[Lit],
    meter: &mut Meter,
) -> Result<Answer, SolveEnd>
    requires log { IsLog log.old }
    requires trail { IsHeld log.old.clauses trail.old }
    requires apart { has_opposites assumptions.now ≡ false }
    requires sizes { AreSized assumptions.now }
    ensures log { IsLog log.new }
    ensures trail { IsHeld log.new.clauses trail.new }
    ensures answer { IfOk result (IsAnswer (added_of log.old) assumptions.now) }
    ensures end { IfErr result (IsEnd meter.new) }
    ensures searched { IsSearched assumptions.now log.old log.new meter.old meter.new }
    ensures rest { IsRested assumptions.now log.old log.new }
    ensures limited { IfErr result (IsLimitedAtRest assumptions.now log.old) }
{
    let found = search(alloc, log, order, trail, assumptions, meter)?;
    Ok(answer_of(alloc, log, trail, assumptions, &found)?)
}

/// Searches, and leaves the values on the trail or writes the core. Where two assumptions are
/// opposites they are the core, and nothing is searched; where a variable is 0, or is from 2^63 on,
/// the error is that of memory.
pub(crate) fn search_asked(
    alloc: Global,
    log: &mut Log,
    order: &mut Order,
    trail: &mut Trail,
    assumptions: &[Lit],
    meter: &mut Meter,
) -> Result<Asked, SolveEnd>
    requires log { IsLog log.old }
    requires trail { IsHeld log.old.clauses trail.old }
    ensures log { IsLog log.new }
    ensures trail { IsHeld log.new.clauses trail.new }
    ensures answer { IfOk result (IsAsked (added_of log.old) assumptions.now (literals_of trail.new.steps)) }
    ensures sizes { IfOk result (λ asked. AreSized assumptions.now) }
    ensures end { IfErr result (IsEnd meter.new) }
    ensures searched { IsSearched assumptions.now log.old log.new meter.old meter.new }
    ensures rest { IsRested assumptions.now log.old log.new }
    ensures limited { IfErr result (IsLimitedAtRest assumptions.now log.old) }
{
    if !are_sized(assumptions) {
        return Err(SolveEnd::Memory);
    }
    if let Some(literal) = opposite(assumptions) {
        let core = Vec::from_slice(alloc, &[literal, literal.negation()])?;
        return Ok(Asked::Unsat(core));
    }
    let found = search(alloc, log, order, trail, assumptions, meter)?;
    Ok(asked_of(alloc, &found)?)
}

// The values of the trail, or the core with its proof.
fn answer_of(
    alloc: Global,
    log: &Log,
    trail: &Trail,
    assumptions: &[Lit],
    found: &Found,
) -> Result<Answer, AllocError>
    requires log { IsLog log.now }
    requires sizes { AreSized assumptions.now }
    requires found { IsSearchResult log.now.clauses assumptions.now trail.now.steps found.now }
    ensures { IfOk result (IsAnswer (added_of log.now) assumptions.now) }
{
    match found {
        Found::Satisfied => {
            let values = values_from(alloc, trail.literals())?;
            Ok(Answer::Sat(values.into_vec()))
        }
        Found::Refused(traced) => refusal(alloc, log, assumptions, traced),
    }
}

// That there is a model, or the core.
fn asked_of(alloc: Global, found: &Found) -> Result<Asked, AllocError>
    ensures { IfOk result (IsAskedFrom found.now) }
{
    match found {
        Found::Satisfied => Ok(Asked::Sat),
        Found::Refused(traced) => {
            let core = negations(alloc, traced.clause.as_slice())?;
            Ok(Asked::Unsat(core))
        }
    }
}
