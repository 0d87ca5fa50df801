//! Questions to a solver that has the clauses of a cone: that there is no step stands, a step is tried. The circuit's own
//! values are those of its gates and next states, so of the base the constraints and the clauses of the entries are tried
//! alone; that its state meets the lemmas is told by the solver, which has a clause for each. The main calls are
//! `try_predecessor` and `try_goal`.
ghost use Rattle.std.specs.Prelude.{◌≡◌, not, true, length, IfOk, IfErr, IfSome};
ghost use Rattle.std.specs.List.{list_all};
ghost use Rattle.proof_semantics.specs.Clauses.{cube_value, values_of};
ghost use Rattle.edge.specs.Ends.{CountsConflicts, IsEnd};
ghost use Rattle.cdcl.specs.Asking.{assigned};
ghost use Rattle.cnf_unroll.specs.Numbers.{state_place, successor_place};
ghost use Rattle.cnf_unroll.specs.Situations.{situation_in};
ghost use Rattle.ic3_semantics.specs.Stepping.{IsOver};
ghost use Rattle.ic3.specs.SteppingInside.{Keeps, AnswersFrom, Completes, IsTold, TriedInto, TellsTried, TriedGoal, TellsTriedGoal};

use crate::stepping_questions::{
    Questions, ask_from, ask_goal, ask_into, part_at, position_of, retire,
};
use cdcl::Asked;
use circuit::{Circuit, Position, literal_value};
use cnf::{Cube, Db};
use edge::{Meter, SolveEnd};
use ic3_generalise::holds_in;
use ic3_questions::{literal_in_block, next_state, stands, valuation, values_in};
use ic3_semantics::Found;
use std::alloc::{AllocError, Global};

// Values for the numbers behind those of variables: next values of latches, and what the solver tells of the others. They
// are tried, so no contract rests on them.
fn behind(
    alloc: Global,
    c: &Circuit,
    s: &Questions,
    values: &[bool],
) -> Result<Vec<bool>, AllocError> {
    let mut out = vec![in alloc; false; c.max() as usize + 1]?;
    for latch in c.latches() {
        if let Some(value) = out.get_mut(latch.var as usize) {
            *value = literal_value(values, latch.next);
        }
    }
    let first = (values.len() as u64).saturating_mul(2).saturating_add(1);
    for number in first..s.free {
        out.push(s.solver.value(number))?;
    }
    Ok(out)
}

// A value for each number below the first guard, those of the variables first.
fn completed(
    alloc: Global,
    c: &Circuit,
    s: &Questions,
    values: &[bool],
) -> Result<Vec<bool>, AllocError>
    ensures { IfOk result (λ out. Completes values.now out.items) }
{
    let rest = behind(alloc, c, s, values)?;
    let mut out = Vec::new(alloc);
    out.push(false)?;
    out.extend_from_slice(values)?;
    out.extend_from_slice(&rest)?;
    Ok(out)
}

// Whether constraints are true, and the clauses of entries hold, where the variables and the latches' next values are these.
fn is_told(
    alloc: Global,
    c: &Circuit,
    s: &Questions,
    base: &Db,
    values: &[bool],
    next: &[bool],
) -> Result<bool, AllocError>
    requires { s.now.next ≡ successor_place c.now 0 }
    ensures { IfOk result (λ told. told ≡ true → IsTold base.now.clauses c.now values.now next.now) }
{
    let all = completed(alloc, c, s, values)?;
    let told = values_in(alloc, &all, s.next.as_slice())?;
    Ok(stands(c, base, values, next, told.as_slice(), &all))
}

fn avoids(avoid: &[Cube], state: &[bool]) -> bool
    ensures { result ≡ list_all (λ cube. not (cube_value (values_of state.now) cube)) avoid.now }
{
    avoid.iter().all(|cube| !holds_in(cube, state))
}

// The position of the solver's values, where it is a step from outside the cube into it.
fn step_in(
    alloc: Global,
    c: &Circuit,
    s: &Questions,
    base: &Db,
    cube: &Cube,
) -> Result<Option<Position>, AllocError>
    requires here { s.now.here ≡ state_place c.now 0 }
    requires next { s.now.next ≡ successor_place c.now 0 }
    ensures tried { IfOk result (λ found. IfSome found (TriedInto base.now.clauses c.now cube.now)) }
    ensures told { IfOk result (λ found. IfSome found (λ p.
        p ≡ (situation_in c.now 0 (assigned s.now.solver.values)).position)) }
{
    let p = position_of(alloc, c, s.here.as_slice(), &s.solver)?;
    let values = valuation(alloc, c, &p)?;
    let next = next_state(alloc, c, values.as_slice())?;
    if is_told(alloc, c, s, base, values.as_slice(), next.as_slice())?
        && !holds_in(cube, p.latches.as_slice())
        && holds_in(cube, next.as_slice())
    {
        Ok(Some(p))
    } else {
        Ok(None)
    }
}

// The position of the solver's values, where it meets the literal as goal, in none of the cubes.
#[tactic(auto, using(crate::proofs::TriedLaws::told_at))]
fn goal_in(
    alloc: Global,
    c: &Circuit,
    s: &Questions,
    base: &Db,
    avoid: &[Cube],
    literal: u64,
) -> Result<Option<Position>, AllocError>
    requires here { s.now.here ≡ state_place c.now 0 }
    requires next { s.now.next ≡ successor_place c.now 0 }
    ensures tried { IfOk result (λ found. IfSome found (TriedGoal base.now.clauses c.now avoid.now literal)) }
    ensures told { IfOk result (λ found. IfSome found (λ p.
        p ≡ (situation_in c.now 0 (assigned s.now.solver.values)).position)) }
{
    let p = position_of(alloc, c, s.here.as_slice(), &s.solver)?;
    let values = valuation(alloc, c, &p)?;
    let next = next_state(alloc, c, values.as_slice())?;
    if is_told(alloc, c, s, base, values.as_slice(), next.as_slice())?
        && literal_value(values.as_slice(), literal)
        && avoids(avoid, p.latches.as_slice())
    {
        Ok(Some(p))
    } else {
        Ok(None)
    }
}

/// A question for a step from the frame of a level, from outside a cube into it; and whether it brings a clause of its own, that
/// the state lies outside. Without it the state of a model may lie in the cube, which the trial then refuses.
#[derive(Clone, Copy)]
pub(crate) struct StepQuestion<'a> {
    pub(crate) level: u64,
    pub(crate) cube: &'a Cube,
    pub(crate) brings_clause: bool,
}

// Asks it by `ask_into` or by `ask_from`.
fn ask_step(
    alloc: Global,
    s: &mut Questions,
    question: StepQuestion<'_>,
    meter: &mut Meter,
) -> Result<Asked, SolveEnd>
    ensures answer { IfOk result (AnswersFrom s.old question.entry.level question.entry.cube.now s.new.solver.values) }
    ensures kept { Keeps s.old s.new }
    ensures end { IfErr result (IsEnd meter.new) }
    ensures counted { CountsConflicts meter.old meter.new }
{
    if question.brings_clause {
        ask_into(alloc, s, question.level, question.cube.as_slice(), meter)
    } else {
        ask_from(alloc, s, question.level, question.cube.as_slice(), meter)
    }
}

// What the question for a step into the cube answers.
fn found_in(
    alloc: Global,
    c: &Circuit,
    s: &mut Questions,
    base: &Db,
    question: StepQuestion<'_>,
    meter: &mut Meter,
) -> Result<Option<Found>, SolveEnd>
    requires here { s.old.here ≡ state_place c.now 0 }
    requires next { s.old.next ≡ successor_place c.now 0 }
    requires over { IsOver (length c.now.latches) question.cube.now }
    ensures found { IfOk result (TellsTried s.old base.now.clauses c.now question.entry.level question.entry.cube.now) }
    ensures kept { Keeps s.old s.new }
    ensures end { IfErr result (IsEnd meter.new) }
    ensures counted { CountsConflicts meter.old meter.new }
{
    match ask_step(alloc, s, question, meter)? {
        Asked::Sat => match step_in(alloc, c, s, base, question.cube)? {
            Some(p) => Ok(Some(Found::Step(p))),
            None => Ok(None),
        },
        Asked::Unsat(core) => Ok(Some(Found::Missing(part_at(
            alloc,
            s.next.as_slice(),
            core.as_slice(),
            question.cube,
        )?))),
    }
}

/// A step into the cube, from a state outside it; or a part of the cube that no such step leads into. `None` where the
/// solver's position is no such step.
pub(crate) fn try_predecessor(
    alloc: Global,
    c: &Circuit,
    s: &mut Questions,
    base: &Db,
    question: StepQuestion<'_>,
    meter: &mut Meter,
) -> Result<Option<Found>, SolveEnd>
    requires here { s.old.here ≡ state_place c.now 0 }
    requires next { s.old.next ≡ successor_place c.now 0 }
    requires over { IsOver (length c.now.latches) question.cube.now }
    ensures found { IfOk result (TellsTried s.old base.now.clauses c.now question.entry.level question.entry.cube.now) }
    ensures kept { Keeps s.old s.new }
    ensures end { IfErr result (IsEnd meter.new) }
    ensures counted { CountsConflicts meter.old meter.new }
{
    let found = found_in(alloc, c, s, base, question, meter)?;
    if question.brings_clause {
        retire(alloc, s)?;
    }
    Ok(found)
}

/// A position from a level at which the AIGER literal of a variable of the block is met, or that there is none. `None` where
/// the solver's position is no such one.
pub(crate) fn try_goal(
    alloc: Global,
    c: &Circuit,
    s: &mut Questions,
    base: &Db,
    level: u64,
    avoid: &[Cube],
    literal: u64,
    meter: &mut Meter,
) -> Result<Option<Option<Position>>, SolveEnd>
    requires here { s.old.here ≡ state_place c.now 0 }
    requires next { s.old.next ≡ successor_place c.now 0 }
    ensures found { IfOk result (TellsTriedGoal s.old base.now.clauses c.now avoid.now level literal) }
    ensures kept { Keeps s.old s.new }
    ensures end { IfErr result (IsEnd meter.new) }
    ensures counted { CountsConflicts meter.old meter.new }
{
    match ask_goal(alloc, s, level, &[literal_in_block(literal)], meter)? {
        Asked::Sat => match goal_in(alloc, c, s, base, avoid, literal)? {
            Some(p) => Ok(Some(Some(p))),
            None => Ok(None),
        },
        Asked::Unsat(_) => Ok(Some(None)),
    }
}
