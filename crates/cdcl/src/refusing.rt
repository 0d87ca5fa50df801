//! The refusal of assumptions: a core and a proof. The main call is `refusal`.
ghost use Rattle.std.specs.Prelude.{◌≡◌, IfOk, map};
ghost use Rattle.cdcl.specs.Searching.{IsHinted, NegatesOnly};
ghost use Rattle.proof_semantics.specs.Clauses.{negation};
ghost use Rattle.cdcl_log.specs.LoggedClauses.{IsLog, added_of};
ghost use Rattle.proof_semantics.specs.Lines.{AreSized};
ghost use Rattle.cdcl.specs.Solving.{IsAnswer};

use crate::solving::Answer;
use cdcl_learn::Learned;
use cdcl_log::{Log, proof_of};
use cnf::Lit;
use std::alloc::{AllocError, Global};

/// The answer that a traced clause gives.
pub(crate) fn refusal(
    alloc: Global,
    log: &Log,
    assumptions: &[Lit],
    traced: &Learned,
) -> Result<Answer, AllocError>
    requires log { IsLog log.now }
    requires sizes { AreSized assumptions.now }
    requires among { NegatesOnly assumptions.now traced.now.clause }
    requires hints { IsHinted log.now.clauses traced.now }
    ensures { IfOk result (IsAnswer (added_of log.now) assumptions.now) }
{
    let core = negations(alloc, traced.clause.as_slice())?;
    let proof = proof_of(
        alloc,
        log,
        &[],
        traced.clause.as_slice(),
        traced.hints.as_slice(),
    )?;
    Ok(Answer::Unsat(core, proof))
}

/// The negations of the literals, in their order.
pub(crate) fn negations(alloc: Global, literals: &[Lit]) -> Result<Vec<Lit>, AllocError>
    ensures { IfOk result (λ negated. negated.items ≡ map negation literals.now) }
{
    let mut negated = Vec::new(alloc);
    for literal in literals {
        negated.push(literal.negation())?;
    }
    Ok(negated)
}
