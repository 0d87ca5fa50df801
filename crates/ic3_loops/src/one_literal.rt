//! Closed sets of one literal: a latch on which two states differ, and whose value in the first no step of the arena
//! leaves. The main call is `single`.
ghost use Rattle.std.specs.Prelude.{◌≡◌, [], IfOk, IfErr, IfSome};
ghost use Rattle.edge.specs.Ends.{CountsConflicts, IsEnd};
ghost use Rattle.ic3_loops.specs.Single.{IsSingle, IsSingleOf};

use crate::shortening::inductive_part;
use crate::step_solver::StepSolver;
use cnf::{Clause, Cube, Lit};
use edge::{Meter, SolveEnd};
use ic3_generalise::holds_in;
use ic3_semantics::{Goal, Start};
use std::alloc::{AllocError, Global};

/// From a state to a state, by a solver without lemmas, the clause of one literal that no step of the arena leaves, if it
/// tells the two apart. `starts` is the cube of the starts.
pub fn single<S: StepSolver>(
    alloc: Global,
    start: &Start,
    starts: &Cube,
    goal: &Goal<'_>,
    steps: &mut S,
    meter: &mut Meter,
) -> Result<Option<Clause>, SolveEnd>
    requires { (S.seen steps.old).lemmas ≡ [] }
    ensures single { IfOk result (λ found. IfSome found (IsSingleOf (S.seen steps.old).question starts.now goal.now)) }
    ensures same { (S.seen steps.new) ≡ (S.seen steps.old) }
    ensures end { IfErr result (IsEnd meter.new) }
    ensures counted { CountsConflicts meter.old meter.new }
{
    match start {
        Start::Initial => Ok(None),
        Start::State(_) => of_goal(alloc, starts, goal, steps, meter),
    }
}

fn of_goal<S: StepSolver>(
    alloc: Global,
    starts: &Cube,
    goal: &Goal<'_>,
    steps: &mut S,
    meter: &mut Meter,
) -> Result<Option<Clause>, SolveEnd>
    requires { (S.seen steps.old).lemmas ≡ [] }
    ensures single { IfOk result (λ found. IfSome found (IsSingleOf (S.seen steps.old).question starts.now goal.now)) }
    ensures same { (S.seen steps.new) ≡ (S.seen steps.old) }
    ensures end { IfErr result (IsEnd meter.new) }
    ensures counted { CountsConflicts meter.old meter.new }
{
    match goal {
        Goal::State(to) => apart(alloc, starts, to, steps, meter),
        Goal::Literal { .. } => Ok(None),
    }
}

// Of the literals of the starts that are false in the state, the first that no step leaves.
fn apart<S: StepSolver>(
    alloc: Global,
    starts: &Cube,
    to: &[bool],
    steps: &mut S,
    meter: &mut Meter,
) -> Result<Option<Clause>, SolveEnd>
    requires { (S.seen steps.old).lemmas ≡ [] }
    ensures single { IfOk result (λ found. IfSome found (IsSingle (S.seen steps.old).question starts.now to.now)) }
    ensures same { (S.seen steps.new) ≡ (S.seen steps.old) }
    ensures end { IfErr result (IsEnd meter.new) }
    ensures counted { CountsConflicts meter.old meter.new }
{
    for literal in starts.as_slice() {
        match held(alloc, starts, *literal, to, steps, meter)? {
            Some(clause) => return Ok(Some(clause)),
            None => {}
        }
    }
    Ok(None)
}

// The clause of a literal, if the state breaks it and no step leaves it.
fn held<S: StepSolver>(
    alloc: Global,
    starts: &Cube,
    literal: Lit,
    to: &[bool],
    steps: &mut S,
    meter: &mut Meter,
) -> Result<Option<Clause>, SolveEnd>
    requires { (S.seen steps.old).lemmas ≡ [] }
    ensures single { IfOk result (λ found. IfSome found (IsSingle (S.seen steps.old).question starts.now to.now)) }
    ensures same { (S.seen steps.new) ≡ (S.seen steps.old) }
    ensures end { IfErr result (IsEnd meter.new) }
    ensures counted { CountsConflicts meter.old meter.new }
{
    let cube = one_cube(alloc, literal.negation())?;
    let found = held_outside(alloc, starts, &cube, to, steps, meter);
    drop(cube);
    found
}

// The negation of a cube, if the state lies in it and no step from outside it leads into it.
fn held_outside<S: StepSolver>(
    alloc: Global,
    starts: &Cube,
    cube: &Cube,
    to: &[bool],
    steps: &mut S,
    meter: &mut Meter,
) -> Result<Option<Clause>, SolveEnd>
    requires { (S.seen steps.old).lemmas ≡ [] }
    ensures single { IfOk result (λ found. IfSome found (IsSingle (S.seen steps.old).question starts.now to.now)) }
    ensures same { (S.seen steps.new) ≡ (S.seen steps.old) }
    ensures end { IfErr result (IsEnd meter.new) }
    ensures counted { CountsConflicts meter.old meter.new }
{
    if !holds_in(cube, to) {
        return Ok(None);
    }
    match inductive_part(alloc, starts, 0, cube, steps, meter)? {
        Some(part) => {
            drop(part);
            Ok(Some(cube.negation()?))
        }
        None => Ok(None),
    }
}

fn one_cube(alloc: Global, literal: Lit) -> Result<Cube, AllocError> {
    let mut cube = Cube::new(alloc);
    cube.push(literal)?;
    Ok(cube)
}
