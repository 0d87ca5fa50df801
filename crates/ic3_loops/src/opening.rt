//! How a search begins: the cube of its starts, and two frames. The main call is `open_frames`.
ghost use Rattle.std.specs.Prelude.{◌≡◌, ◌<◌, ◌≤◌, ◌++◌, [], ◌∷◌, length, slice_index_or, IfOk, OnOk};
ghost use Rattle.ic3_frames.specs.Room.{room};
ghost use Rattle.proof_semantics.specs.declared.literals.Lit.{Lit};
ghost use Rattle.fair_semantics.specs.States.{reset_literals, initial_literals};
ghost use Rattle.ic3_frames.specs.Frames.{with_lemma};
ghost use Rattle.ic3_generalise.specs.Cubes.{value_literals};
ghost use Rattle.ic3_loops.specs.Starting.{start_cube};
ghost use Rattle.ic3_semantics.specs.Stepping.{IsOver};
ghost use Rattle.ic3_loops.specs.Sound.{IsSearch, IsStartCube, KeepsQuestion, Agree};

use crate::step_solver::StepSolver;
use circuit::{Circuit, Latch, Reset};
use cnf::{Clause, Cube, Lit};
use ic3_frames::Frames;
use ic3_generalise::state_cube;
use ic3_semantics::Start;
use std::alloc::{AllocError, Global};

/// The cube of the starts: the initial cube, or all literals of the state.
pub fn start_cube(alloc: Global, c: &Circuit, start: &Start) -> Result<Cube, AllocError>
    ensures { IfOk result (λ cube. cube ≡ start_cube c.now start.now) }
{
    match start {
        Start::Initial => initial_cube(alloc, c.latches()),
        Start::State(from) => state_cube(alloc, from.as_slice()),
    }
}

// Puts the literal of a latch at the end, unless the latch may begin with either value.
fn push_reset(cube: &mut Cube, var: u64, reset: Reset) -> Result<(), AllocError>
    ensures { OnOk result (cube.new ≡ cube.old ++ reset_literals var reset) }
{
    match reset {
        Reset::Zero => cube.push(Lit {
            var,
            positive: false,
        }),
        Reset::One => cube.push(Lit {
            var,
            positive: true,
        }),
        Reset::Free => Ok(()),
    }
}

fn initial_cube(alloc: Global, latches: &[Latch]) -> Result<Cube, AllocError>
    ensures { IfOk result (λ cube. cube ≡ initial_literals 0 latches.now) }
{
    let mut cube = Cube::new(alloc);
    for (n, latch) in latches.iter().enumerate() {
        push_reset(&mut cube, n as u64, latch.reset)?;
    }
    Ok(cube)
}

/// Two frames: the lower one has a lemma for each literal of the cube of the starts, the other none. No step is counted.
pub(crate) fn open_frames<S: StepSolver>(
    alloc: Global,
    starts: &Cube,
    steps: &mut S,
) -> Result<Frames, AllocError>
    requires cube { IsStartCube (S.seen steps.old).question starts.now }
    requires none { (S.seen steps.old).lemmas ≡ [] }
    ensures search { IfOk result (IsSearch starts.now (S.seen steps.new)) }
    ensures two { IfOk result (λ frames. length frames ≡ 2) }
    ensures room { let n = length (S.seen steps.old).question.circuit.latches in
        IfOk result (λ frames. room n frames ≤ room n []) }
    ensures question { KeepsQuestion (S.seen steps.old) (S.seen steps.new) }
{
    let mut frames = two_frames(alloc)?;
    for i in 0..starts.len() {
        let unit = unit_at(alloc, starts, i)?;
        put_first(unit, steps, &mut frames)?;
    }
    Ok(frames)
}

fn two_frames(alloc: Global) -> Result<Frames, AllocError>
    ensures { IfOk result (λ frames. frames ≡ [] ∷ [] ∷ []) }
{
    let mut frames = Frames::new(alloc);
    frames.add_frame()?;
    frames.add_frame()?;
    Ok(frames)
}

// The clause of one literal of a cube.
fn unit_at(alloc: Global, cube: &Cube, i: usize) -> Result<Clause, AllocError>
    requires { i < length cube.now }
    ensures { IfOk result (λ clause. (d : Lit) → clause ≡ slice_index_or cube.now i d ∷ []) }
{
    let literal = cube.as_slice()[i];
    let mut clause = Clause::new(alloc);
    clause.push(literal)?;
    Ok(clause)
}

// Puts a lemma into the lowest frame, and behind the solver's lemmas.
fn put_first<S: StepSolver>(
    lemma: Clause,
    steps: &mut S,
    frames: &mut Frames,
) -> Result<(), AllocError>
    requires over { IsOver (length (S.seen steps.old).question.circuit.latches) lemma }
    requires two { length frames.old ≡ 2 }
    requires agree { Agree (S.seen steps.old).lemmas frames.old }
    ensures agree { OnOk result (Agree (S.seen steps.new).lemmas frames.new) }
    ensures frames { OnOk result (frames.new ≡ with_lemma frames.old 0 lemma) }
    ensures question { KeepsQuestion (S.seen steps.old) (S.seen steps.new) }
{
    steps.hold(0, &lemma)?;
    frames.add(0, lemma)
}
