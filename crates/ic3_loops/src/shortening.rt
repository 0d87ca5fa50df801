//! Cubes that no step enters lose literals, while that stays so. The main calls are `shorten` and `highest`.
ghost use Rattle.std.specs.Prelude.{◌≡◌, ◌+◌, ◌<◌, ◌↔◌, true, length, refl, IsTrue, IfOk, IfErr};
ghost use Rattle.std.proofs.Common.{◌∙◌};
ghost use Rattle.proof_semantics.specs.Clauses.{is_part};
ghost use Rattle.edge.specs.Ends.{CountsConflicts, IsEnd};
ghost use Rattle.ic3_semantics.specs.Stepping.{IsOver};
ghost use Rattle.ic3_loops.specs.Blocking.{NoneEnters};
ghost use Rattle.ic3_generalise.specs.Cubes.{misses_starts};
ghost use Rattle.ic3_loops.specs.Generalizing.{IsExcluded, IsAsked, IsHeldFrom};

use crate::aim::Aim;
use crate::lemmas::one_more;
use crate::step_solver::StepSolver;
use cnf::Cube;
use edge::{Meter, SolveEnd};
use ic3_frames::{Frames, by_activity};
use ic3_generalise::{Asker, based, generalise, misses_starts};
use ic3_semantics::Found;
use std::alloc::Global;

// What tests cubes at a level: they miss the starts, and no step from the frame of the level enters them.
#[derive(Drop)]
struct LevelTest<'a, S> {
    starts: &'a Cube,
    level: u64,
    steps: &'a mut S,
}

impl<'a, S: StepSolver> Asker for LevelTest<'a, S> {
    ghost use Rattle.std.specs.Prelude.{◌≡◌};
    ghost use Rattle.ic3_loops.specs.Generalizing.{IsExcluded};

    ghost passes = { λ s cube. IsExcluded s.starts.now (S.seen s.steps.now) s.level cube };

    ghost leaves = { λ s t. (S.seen t.steps.now ≡ S.seen s.steps.now) × (t.steps.ghost_name ≡ s.steps.ghost_name) };

    fn excluded(
        &mut self,
        alloc: Global,
        cube: &Cube,
        meter: &mut Meter,
    ) -> Result<Option<Cube>, SolveEnd> {
        inductive_part(alloc, self.starts, self.level, cube, self.steps, meter)
    }

    ghost leaves_itself = { λ s. (refl, refl) };

    ghost leaves_on = { λ s t u first second. (second.0 ∙ first.0, second.1 ∙ first.1) };
}

// Whether the literals are over so many latches.
fn is_over(cube: &Cube, latches: usize) -> bool
    ensures { IsTrue result ↔ IsOver latches cube.now }
{
    let count = latches as u64;
    cube.as_slice().iter().all(|literal| literal.var < count)
}

// Whether a cube is over the latches and misses the starts.
fn may_be_asked(starts: &Cube, cube: &Cube, latches: usize) -> bool
    ensures { IsTrue result ↔ (IsOver latches cube.now × (misses_starts starts.now cube.now ≡ true)) }
{
    is_over(cube, latches) && misses_starts(starts, cube)
}

/// A part of a cube that misses the starts, and that no step from the frame of the level enters; exactly where the cube
/// is such a one.
pub(crate) fn inductive_part<S: StepSolver>(
    alloc: Global,
    starts: &Cube,
    level: u64,
    cube: &Cube,
    steps: &mut S,
    meter: &mut Meter,
) -> Result<Option<Cube>, SolveEnd>
    ensures asked { IfOk result (IsAsked starts.now (S.seen steps.old) level cube.now) }
    ensures same { (S.seen steps.new) ≡ (S.seen steps.old) }
    ensures counted { CountsConflicts meter.old meter.new }
    ensures end { IfErr result (IsEnd meter.new) }
{
    if !may_be_asked(starts, cube, steps.latches()) {
        return Ok(None);
    }
    match steps.predecessor(alloc, level, cube, meter)? {
        Found::Step(_) => Ok(None),
        Found::Missing(part) => Ok(Some(based(alloc, starts, cube, part)?)),
    }
}

/// A part of a cube that misses the starts and that no step from the frame of the level enters, of which this is so too.
/// Literals of few lemmas are dropped first.
pub(crate) fn shorten<S: StepSolver>(
    aim: &Aim<'_, '_>,
    level: u64,
    cube: Cube,
    steps: &mut S,
    frames: &Frames,
    meter: &mut Meter,
) -> Result<Cube, SolveEnd>
    requires { IsExcluded aim.now.starts.now (S.seen steps.old) level cube }
    ensures part { IfOk result (λ part. is_part part cube ≡ true) }
    ensures excluded { IfOk result (IsExcluded aim.now.starts.now (S.seen steps.old) level) }
    ensures same { (S.seen steps.new) ≡ (S.seen steps.old) }
    ensures counted { CountsConflicts meter.old meter.new }
    ensures end { IfErr result (IsEnd meter.new) }
{
    let order = by_activity(aim.alloc, &cube, frames)?;
    let mut asker = LevelTest {
        starts: aim.starts,
        level,
        steps,
    };
    generalise(aim.alloc, cube, order.as_slice(), &mut asker, meter)
}

// Whether no step from the frame of the level enters the cube.
fn none_enters<S: StepSolver>(
    alloc: Global,
    level: u64,
    cube: &Cube,
    steps: &mut S,
    meter: &mut Meter,
) -> Result<bool, SolveEnd>
    requires { IsOver (length (S.seen steps.old).question.circuit.latches) cube.now }
    ensures none { IfOk result (λ none. IsTrue none ↔ NoneEnters (S.seen steps.old) level cube.now) }
    ensures same { (S.seen steps.new) ≡ (S.seen steps.old) }
    ensures counted { CountsConflicts meter.old meter.new }
    ensures end { IfErr result (IsEnd meter.new) }
{
    match steps.predecessor(alloc, level, cube, meter)? {
        Found::Step(_) => Ok(false),
        Found::Missing(_) => Ok(true),
    }
}

/// The last of the levels from `level` on, and below that of the last frame, up to which no step from the frames enters
/// the cube; no step from the frame of `level` does.
pub(crate) fn highest<S: StepSolver>(
    aim: &Aim<'_, '_>,
    level: u64,
    cube: &Cube,
    steps: &mut S,
    frames: &Frames,
    meter: &mut Meter,
) -> Result<u64, SolveEnd>
    requires level { level + 1 < length frames.now }
    requires excluded { IsExcluded aim.now.starts.now (S.seen steps.old) level cube.now }
    ensures held { IfOk result (IsHeldFrom aim.now.starts.now (S.seen steps.old) (length frames.now) level cube.now) }
    ensures same { (S.seen steps.new) ≡ (S.seen steps.old) }
    ensures counted { CountsConflicts meter.old meter.new }
    ensures end { IfErr result (IsEnd meter.new) }
{
    let first = one_more(level)?;
    let mut from = level;
    for next in first..frames.len() - 1 {
        let none = none_enters(aim.alloc, next, cube, steps, meter)?;
        if !none {
            return Ok(from);
        }
        from = next;
    }
    Ok(from)
}
