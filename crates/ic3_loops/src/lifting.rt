//! Cubes of states that take the same step: what is found of an obligation is lifted from one state to a cube. The main
//! calls are `lift_step` and `lift_goal`.
ghost use Rattle.std.specs.Prelude.{◌≡◌, ◌<◌, true, false, ◌++◌, length, map, IfOk, OnOk, IsTrue};
ghost use Rattle.std.specs.List.{All};
ghost use Rattle.aig_semantics.specs.Runs.{successor, literal_at, MeetsConstraints};
ghost use Rattle.proof_semantics.specs.Clauses.{cube_value, values_of, is_part};
ghost use Rattle.cnf_unroll.specs.Laws.{AreOver};
ghost use Rattle.entry.specs.CheckedEntries.{viewed};
ghost use Rattle.ic3_semantics.specs.Stepping.{IsOver};
ghost use Rattle.ic3_loops.specs.Lifting.{IsLifted, IsGoalLifted, IsApart, AreTrue, MissesEach, next_at, next_literal, opposite};

use crate::ending::end_cube;
use circuit::{Circuit, Latch, Position};
use cnf::{Cube, Lit};
use entry::Checked;
use ic3_generalise::{based, state_cube};
use ic3_semantics::Start;
use std::alloc::{AllocError, Global};
use std::sync::Arc;
use ternary::lift;

// The other literal of a variable. An even number of 64 bits is not the last one.
fn opposite(literal: u64) -> u64
    ensures { result ≡ opposite literal }
{
    if literal % 2 == 1 {
        literal - 1
    } else {
        literal + 1
    }
}

// The literal of the next value of latch v.
fn next_at(latches: &[Latch], v: u64) -> u64
    requires { v < length latches.now }
    ensures { result ≡ next_at latches.now v }
{
    latches[v as usize].next
}

// The literal that is true where the literal of a latch is true in the successor.
fn next_literal(c: &Circuit, literal: Lit) -> u64
    requires { literal.var < length c.now.latches }
    ensures { result ≡ next_literal c.now.latches literal }
{
    let next = next_at(c.latches(), literal.var);
    if literal.positive {
        next
    } else {
        opposite(next)
    }
}

// The literals that tell that a step leads into the cube, behind these.
fn put_next(c: &Circuit, into: &Cube, keep: &mut Vec<u64>) -> Result<(), AllocError>
    requires { IsOver (length c.now.latches) into.now }
    ensures { OnOk result (keep.new.items ≡ keep.old.items ++ map (next_literal c.now.latches) into.now) }
{
    for literal in into.as_slice() {
        keep.push(next_literal(c, *literal))?;
    }
    Ok(())
}

// The literals that tell that the constraints are met, that the literals are true, and that the step leads into the cube.
fn kept(alloc: Global, c: &Circuit, into: &Cube, literals: &[u64]) -> Result<Vec<u64>, AllocError>
    requires { IsOver (length c.now.latches) into.now }
    ensures { IfOk result (λ keep. keep.items
        ≡ (c.now.constraints ++ literals.now) ++ map (next_literal c.now.latches) into.now) }
{
    let mut keep = Vec::from_slice(alloc, c.constraints())?;
    keep.extend_from_slice(literals)?;
    put_next(c, into, &mut keep)?;
    Ok(keep)
}

/// A cube that holds the state of the position, and from whose states its inputs lead into the other cube, by a step at
/// which constraints and literals are true.
pub(crate) fn lift_step(
    alloc: Global,
    c: &Circuit,
    p: &Position,
    into: &Cube,
    literals: &[u64],
) -> Result<Cube, AllocError>
    requires over { IsOver (length c.now.latches) into.now }
    requires possible { MeetsConstraints c.now p.now }
    requires inside { cube_value (values_of (successor c.now p.now)) into.now ≡ true }
    requires holds { AreTrue c.now p.now literals.now }
    ensures { IfOk result (IsLifted c.now p.now into.now literals.now) }
{
    let keep = kept(alloc, c, into, literals)?;
    let cube = lift(alloc, c, p, &keep)?;
    Ok(cube)
}

// A part of the whole cube that holds the part, and none of whose states lies in one of the avoided cubes.
fn apart(alloc: Global, avoid: &[Cube], whole: &Cube, part: Cube) -> Result<Cube, AllocError>
    requires misses { MissesEach avoid.now whole.now }
    requires among { is_part part whole.now ≡ true }
    ensures { IfOk result (IsApart avoid.now whole.now part) }
{
    let mut longer = part;
    for k in 0..avoid.len() {
        let next = based(alloc, &avoid[k], whole, longer)?;
        longer = next;
    }
    Ok(longer)
}

/// A cube that holds the state of a position that meets the literal as goal, and all states of which meet it by the same
/// inputs.
pub(crate) fn lift_goal(
    alloc: Global,
    c: &Circuit,
    view: &[Arc<Checked>],
    start: &Start,
    avoid: &[Cube],
    literal: u64,
    p: &Position,
) -> Result<Cube, AllocError>
    requires over { AreOver (length c.now.latches) avoid.now }
    requires entries { All (λ e. AreOver (length c.now.latches) e.clauses) (viewed view.now) }
    requires possible { MeetsConstraints c.now p.now }
    requires holds { IsTrue (literal_at c.now p.now literal) }
    requires avoids { All (λ cube. cube_value (values_of p.now.latches) cube ≡ false) avoid.now }
    ensures { IfOk result (IsGoalLifted c.now (viewed view.now) start.now avoid.now literal p.now) }
{
    let into = end_cube(alloc, c, view, start, p)?;
    let cube = lift_step(alloc, c, p, &into, &[literal])?;
    let whole = state_cube(alloc, p.latches.as_slice())?;
    let longer = apart(alloc, avoid, &whole, cube)?;
    Ok(longer)
}
