//! Literals dropped from a cube while it passes a test. The main call is `generalise`.
ghost use Rattle.std.specs.Prelude.{List, ◌≡◌, ◌↔◌, true, IfOk, IfErr, IfSome, IfNone};
ghost use Rattle.proof_semantics.specs.declared.literals.Lit.{Lit};
ghost use Rattle.proof_semantics.specs.Clauses.{has_literal, is_part};
ghost use Rattle.edge.specs.Ends.{CountsConflicts, IsEnd};
ghost use Rattle.ic3_generalise.specs.Generalising.{all_but, EachIsNeeded};

use crate::asking::Asker;
use cnf::{Cube, Lit};
use edge::{Meter, SolveEnd};
use std::alloc::{AllocError, Global};

/// A part of the cube that passes the asker's test, where the cube passes it. Of each literal of `order` that is left a
/// cube between the two passes, and fails without it. `Spent` comes where the meter's count of conflicts is at its limit.
/// The test of every cube is as before.
pub fn generalise<A: Asker>(
    alloc: Global,
    cube: Cube,
    order: &[Lit],
    asker: &mut A,
    meter: &mut Meter,
) -> Result<Cube, SolveEnd>
    requires { A.passes asker.old cube }
    ensures part { IfOk result (λ answer. is_part answer cube ≡ true) }
    ensures passing { IfOk result (A.passes asker.old) }
    ensures needed { IfOk result (EachIsNeeded (A.passes asker.old) cube order.now) }
    ensures kept { (c : List Lit) → A.passes asker.new c ↔ A.passes asker.old c }
    ensures left { A.leaves asker.old asker.new }
    ensures counted { CountsConflicts meter.old meter.new }
    ensures end { IfErr result (IsEnd meter.new) }
{
    // The literals are tried in the order of the list; no clause says so.
    let mut answer = cube;
    for literal in order {
        if let Some(part) = without(alloc, &answer, *literal, asker, meter)? {
            answer = part;
        }
    }
    Ok(answer)
}

/// A part of the cube without the literal that passes the test. `None` where the cube has no such literal, or fails the
/// test without it.
fn without<A: Asker>(
    alloc: Global,
    cube: &Cube,
    literal: Lit,
    asker: &mut A,
    meter: &mut Meter,
) -> Result<Option<Cube>, SolveEnd>
    ensures part { IfOk result (λ answer. IfSome answer (λ part. is_part part (all_but literal cube.now) ≡ true)) }
    ensures passing { IfOk result (λ answer. IfSome answer (A.passes asker.old)) }
    ensures needed { IfOk result (λ answer. IfNone answer (has_literal cube.now literal ≡ true
        → A.passes asker.old (all_but literal cube.now) → ⊥)) }
    ensures kept { (c : List Lit) → A.passes asker.new c ↔ A.passes asker.old c }
    ensures left { A.leaves asker.old asker.new }
    ensures counted { CountsConflicts meter.old meter.new }
    ensures end { IfErr result (IsEnd meter.new) }
{
    if !cube.contains(literal) {
        return Ok(None);
    }
    let shorter = all_but(alloc, literal, cube)?;
    asker.excluded(alloc, &shorter, meter)
}

/// The cube without the literal, wherever it stands.
fn all_but(alloc: Global, literal: Lit, cube: &Cube) -> Result<Cube, AllocError>
    ensures { IfOk result (λ rest. rest ≡ all_but literal cube.now) }
{
    let mut rest = Cube::new(alloc);
    for other in cube.as_slice() {
        if !literal.is(*other) {
            rest.push(*other)?;
        }
    }
    Ok(rest)
}
