//! The search for a model or a core. The main call is `search`.
ghost use Rattle.std.specs.Prelude.{◌≡◌, IfOk, IfErr, IfNone, IfSome, false};
ghost use Rattle.proof_semantics.specs.Clauses.{has_opposites};
ghost use Rattle.cdcl_trail.specs.Trails.{level};
ghost use Rattle.cdcl_trail.specs.Watched.{Extends};
ghost use Rattle.cdcl.specs.Resting.{IsLimitedAtRest, IsRested};
ghost use Rattle.cdcl_log.specs.LoggedClauses.{IsLog};
ghost use Rattle.cdcl.specs.Finding.{IsSearchResult};
ghost use Rattle.proof_semantics.specs.Lines.{AreSized};
ghost use Rattle.cdcl.specs.Progress.{IsSearched};
ghost use Rattle.cdcl.specs.Searching.{AssumesAll, AssumesSome, IsHeld, IsDeciding, IsRefusedAt, IsSettledBase};
ghost use Rattle.edge.specs.Ends.{IsEnd};

use crate::choosing::choose;
use crate::finding::Found;
use crate::restarts::Restarts;
use crate::returning::{above_level, level_after};
use cdcl_learn::{learn, trace, trace_literal};
use cdcl_log::Log;
use cdcl_order::Order;
use cdcl_trail::Trail;
use cnf::Lit;
use edge::{Meter, SolveEnd};
use std::alloc::{AllocError, Global};

/// Goes back to level 0 and propagates there what is new; assumes the assumptions; and then
/// propagates and decides until there is a model, or a conflict that the assumptions alone bring.
/// Learns from every other conflict, and goes back. Where the meter's bell is rung, it ends as for want of memory.
pub(crate) fn search(
    alloc: Global,
    log: &mut Log,
    order: &mut Order,
    trail: &mut Trail,
    assumptions: &[Lit],
    meter: &mut Meter,
) -> Result<Found, SolveEnd>
    requires log { IsLog log.old }
    requires trail { IsHeld log.old.clauses trail.old }
    requires apart { has_opposites assumptions.now ≡ false }
    requires sizes { AreSized assumptions.now }
    ensures log { IsLog log.new }
    ensures trail { IsHeld log.new.clauses trail.new }
    ensures found { IfOk result (IsSearchResult log.new.clauses assumptions.now trail.new.steps) }
    ensures end { IfErr result (IsEnd meter.new) }
    ensures searched { IsSearched assumptions.now log.old log.new meter.old meter.new }
    ensures rest { IsRested assumptions.now log.old log.new }
    ensures limited { IfErr result (IsLimitedAtRest assumptions.now log.old) }
{
    if meter.is_called() {
        return Err(SolveEnd::Memory);
    }
    if let Some(conflict) = settle_base(log, order, trail)? {
        let traced = trace(alloc, log.clauses(), trail, conflict)?;
        return Ok(Found::Refused(traced));
    }
    if let Some(literal) = assume_all(trail, assumptions)? {
        let traced = trace_literal(alloc, log.clauses(), trail, literal)?;
        return Ok(Found::Refused(traced));
    }
    decide(alloc, log, order, trail, assumptions, meter)
}

// Goes back to level 0, takes over the clauses that are new, and propagates there, until no clause
// is unit or false, or the number of a false one is found.
fn settle_base(log: &Log, order: &mut Order, trail: &mut Trail) -> Result<Option<u64>, AllocError>
    requires { IsHeld log.now.clauses trail.old }
    ensures trail { IsHeld log.now.clauses trail.new }
    ensures settled { IfOk result (IsSettledBase log.now.clauses trail.new.steps) }
{
    order.keep(above_level(trail, 0))?;
    trail.back_to(0);
    order.begin(log.clauses(), trail)?;
    trail.propagate(log.clauses())
}

// Assumes each of the literals that has no value yet, until one is found that is false.
fn assume_all(trail: &mut Trail, assumptions: &[Lit]) -> Result<Option<Lit>, AllocError>
    ensures assumes { IfOk result (λ refused. IfNone refused (AssumesAll assumptions.now trail.old.steps trail.new.steps)) }
    ensures refused { IfOk result (λ refused. IfSome refused (IsRefusedAt assumptions.now trail.new.steps)) }
    ensures steps { AssumesSome assumptions.now trail.old.steps trail.new.steps }
    ensures taken { trail.new.taken ≡ trail.old.taken }
{
    for literal in assumptions {
        let Some(value) = trail.value(literal.var) else {
            trail.assume(*literal)?;
            continue;
        };
        if value != literal.positive {
            return Ok(Some(*literal));
        }
    }
    Ok(None)
}

// Propagates and decides, from where the assumptions are assumed, until there is a model, or a
// conflict that the assumptions alone bring. Learns from every other conflict, and goes back.
fn decide(
    alloc: Global,
    log: &mut Log,
    order: &mut Order,
    trail: &mut Trail,
    assumptions: &[Lit],
    meter: &mut Meter,
) -> Result<Found, SolveEnd>
    requires log { IsLog log.old }
    requires extends { Extends trail.old.taken log.old.clauses }
    requires way { IsDeciding log.old.clauses assumptions.now (level trail.old.steps) trail.old.steps }
    requires sizes { AreSized assumptions.now }
    ensures log { IsLog log.new }
    ensures trail { IsHeld log.new.clauses trail.new }
    ensures found { IfOk result (IsSearchResult log.new.clauses assumptions.now trail.new.steps) }
    ensures end { IfErr result (IsEnd meter.new) }
    ensures searched { IsSearched assumptions.now log.old log.new meter.old meter.new }
    ensures rest { IsRested assumptions.now log.old log.new }
    ensures limited { IfErr result (IsLimitedAtRest assumptions.now log.old) }
{
    let base = trail.level();
    let mut restarts = Restarts::new();
    'decisions: loop {
        if meter.is_called() {
            return Err(SolveEnd::Memory);
        }
        let Some(conflict) = trail.propagate(log.clauses())? else {
            let Some(literal) = choose(order, trail, log, assumptions) else {
                return Ok(Found::Satisfied);
            };
            trail.assume(literal)?;
            continue;
        };
        if trail.level() <= base {
            let traced = trace(alloc, log.clauses(), trail, conflict)?;
            return Ok(Found::Refused(traced));
        }
        let learned = learn(alloc, log.clauses(), trail, conflict)?;
        order.bump(log.clauses(), learned.hints.as_slice());
        let target = level_after(&mut restarts, trail, learned.clause.as_slice(), base);
        order.keep(above_level(trail, target))?;
        log.learn(learned.clause, learned.hints, meter)?;
        trail.back_to(target);
    }
}
