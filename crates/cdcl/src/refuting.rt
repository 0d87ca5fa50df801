//! The proof that clauses, and unit clauses behind them, have no model. The main call is
//! `search_refuted`.
ghost use Rattle.std.specs.Prelude.{◌≡◌, ◌<◌, ◌^◌, ◌++◌, [], IfOk, IfErr, None, length, map, false, true};
ghost use Rattle.proof_semantics.specs.Clauses.{negation, has_literal, has_opposites};
ghost use Rattle.proof_semantics.specs.Lines.{AreSized};
ghost use Rattle.cdcl_trail.specs.Trails.{literals_of};
ghost use Rattle.proof_semantics.specs.Propagation.{hints_fault};
ghost use Rattle.proof_semantics.specs.Proofs.{Refutes};
ghost use Rattle.cnf.specs.Clauses.{clause_numbered};
ghost use Rattle.cdcl.specs.Resting.{IsLimitedAtRest, IsRested};
ghost use Rattle.cdcl_log.specs.LoggedClauses.{IsLog, added_of};
ghost use Rattle.cdcl.specs.Finding.{MayRefuse, IsRefutedFrom, Refuses};
ghost use Rattle.cdcl.specs.Progress.{IsSearched};
ghost use Rattle.cdcl.specs.Refuting.{IsRefuted};
ghost use Rattle.cdcl.specs.Searching.{IsHeld};
ghost use Rattle.edge.specs.Ends.{IsEnd};
ghost use Rattle.cdcl_log.specs.UnitClauses.{unit_clauses};
ghost use Rattle.cdcl.specs.UnitNumbers.{unit_number};

use crate::asking::Refuted;
use crate::conditions::opposite;
use crate::finding::Found;
use crate::refusing::negations;
use crate::searching::search;
use cdcl_learn::Learned;
use cdcl_log::{Log, MOST_CLAUSES, proof_of};
use cdcl_order::Order;
use cdcl_trail::Trail;
use cnf::{Lit, Proof};
use edge::{Meter, SolveEnd};
use std::alloc::{AllocError, Global};

/// Searches under the units, and leaves the values on the trail or writes the proof. Where two units
/// are opposites it is one line, and nothing is searched.
pub(crate) fn search_refuted(
    alloc: Global,
    log: &mut Log,
    order: &mut Order,
    trail: &mut Trail,
    units: &[Lit],
    meter: &mut Meter,
) -> Result<Refuted, SolveEnd>
    requires log { IsLog log.old }
    requires trail { IsHeld log.old.clauses trail.old }
    requires sizes { AreSized units.now }
    ensures log { IsLog log.new }
    ensures trail { IsHeld log.new.clauses trail.new }
    ensures answer { IfOk result (IsRefuted (added_of log.old) units.now (literals_of trail.new.steps)) }
    ensures end { IfErr result (IsEnd meter.new) }
    ensures searched { IsSearched units.now log.old log.new meter.old meter.new }
    ensures rest { IsRested units.now log.old log.new }
    ensures limited { IfErr result (IsLimitedAtRest units.now log.old) }
{
    if let Some(literal) = opposite(units) {
        let proof = opposites_refuted(alloc, log, units, literal)?;
        return Ok(Refuted::Unsat(proof));
    }
    let found = search(alloc, log, order, trail, units, meter)?;
    Ok(refuted_of(alloc, log, units, &found)?)
}

// That there is a model, or the proof of the core with the core's units.
fn refuted_of(alloc: Global, log: &Log, units: &[Lit], found: &Found) -> Result<Refuted, AllocError>
    requires log { IsLog log.now }
    requires sizes { AreSized units.now }
    requires apart { has_opposites units.now ≡ false }
    requires refuses { MayRefuse log.now.clauses units.now found.now }
    ensures { IfOk result (IsRefutedFrom (added_of log.now ++ unit_clauses units.now) found.now) }
{
    match found {
        Found::Satisfied => Ok(Refuted::Sat),
        Found::Refused(traced) => Ok(Refuted::Unsat(core_refuted(alloc, log, units, traced)?)),
    }
}

// The proof by the units of a core, and then by what its clause was traced along.
fn core_refuted(
    alloc: Global,
    log: &Log,
    units: &[Lit],
    traced: &Learned,
) -> Result<Proof, AllocError>
    requires log { IsLog log.now }
    requires sizes { AreSized units.now }
    requires apart { has_opposites units.now ≡ false }
    requires refuses { Refuses log.now.clauses units.now traced.now }
    ensures { IfOk result (Refutes (added_of log.now ++ unit_clauses units.now)) }
{
    let core = negations(alloc, traced.clause.as_slice())?;
    refutation(alloc, log, units, core.as_slice(), traced.hints.as_slice())
}

// The proof by two opposite units.
fn opposites_refuted(
    alloc: Global,
    log: &Log,
    units: &[Lit],
    literal: Lit,
) -> Result<Proof, AllocError>
    requires log { IsLog log.now }
    requires sizes { AreSized units.now }
    requires one { has_literal units.now literal ≡ true }
    requires other { has_literal units.now (negation literal) ≡ true }
    ensures { IfOk result (Refutes (added_of log.now ++ unit_clauses units.now)) }
{
    refutation(alloc, log, units, &[literal, literal.negation()], &[])
}

// The proof by the units of some literals, and then by the clauses with the numbers `rest`.
fn refutation(
    alloc: Global,
    log: &Log,
    units: &[Lit],
    literals: &[Lit],
    rest: &[u64],
) -> Result<Proof, AllocError>
    requires log { IsLog log.now }
    requires sizes { AreSized units.now }
    requires hints { hints_fault (clause_numbered (log.now.clauses ++ unit_clauses units.now)) [] (map (unit_number (length log.now.clauses) units.now) literals.now ++ rest.now) ≡ None }
    ensures { IfOk result (Refutes (added_of log.now ++ unit_clauses units.now)) }
{
    let first = log.clauses().as_slice().len();
    if first >= MOST_CLAUSES {
        return Err(AllocError);
    }
    if units.len() >= MOST_CLAUSES {
        return Err(AllocError);
    }
    let mut hints = unit_hints(alloc, first, units, literals)?;
    hints.extend_from_slice(rest)?;
    proof_of(alloc, log, units, &[], hints.as_slice())
}

// The numbers of the literals' unit clauses.
fn unit_hints(
    alloc: Global,
    first: usize,
    units: &[Lit],
    literals: &[Lit],
) -> Result<Vec<u64>, AllocError>
    requires few { first < 2 ^ 60 }
    requires few_units { length units.now < 2 ^ 60 }
    ensures { IfOk result (λ hints. hints.items ≡ map (unit_number first units.now) literals.now) }
{
    let mut hints = Vec::new(alloc);
    for literal in literals {
        hints.push(unit_number(first, units, *literal))?;
    }
    Ok(hints)
}

// The number of a literal's unit clause.
fn unit_number(first: usize, units: &[Lit], literal: Lit) -> u64
    requires few { first < 2 ^ 60 }
    requires few_units { length units.now < 2 ^ 60 }
    ensures { result ≡ unit_number first units.now literal }
{
    for (place, unit) in units.iter().enumerate() {
        if literal.is(*unit) {
            return (first + place + 1) as u64;
        }
    }
    (first + units.len() + 1) as u64
}
