//! The iterations of a search: the last frame is strengthened, lemmas are propagated, and a frame is opened. The main call
//! is `iterate`.
ghost use Rattle.std.specs.Prelude.{◌≡◌, ◌+◌, ◌-◌, ◌^◌, ◌<◌, ◌≤◌, [], ◌∷◌, ◌++◌, length, IfOk, IfErr, OnOk};
ghost use Rattle.edge.specs.Faults.{one_more};
ghost use Rattle.ic3_frames.specs.Frames.{AllDiffer};
ghost use Rattle.ic3_frames.specs.Room.{room};
ghost use Rattle.ic3_semantics.specs.Searching.{IsReachEnd};
ghost use Rattle.ic3_loops.specs.Sound.{IsSearch, IsGoalOf, KeepsQuestion, MissesLast};
ghost use Rattle.ic3_semantics.specs.Searching.{CountsUpTo, CountsAtLeast};
ghost use Rattle.ic3_loops.specs.Propagating.{Narrows, AllStuck};
ghost use Rattle.ic3_loops.specs.Iterating.{IsIterated, TakesRoom, HasEnded};
ghost use Rattle.ic3_frames.specs.Witnessing.{AreWitnesses};

use crate::aim::Aim;
use crate::blocking::strengthen;
use crate::propagating::propagate;
use crate::step_solver::StepSolver;
use circuit::Position;
use cnf::Cube;
use edge::Meter;
use ic3_frames::{Frames, Witnesses, no_witnesses};
use ic3_semantics::ReachEnd;
use items::Items;

/// What an iteration comes to.
#[derive(Drop)]
pub enum Iterated {
    /// The positions of a path to the goal.
    Path(Items<Position>),
    /// The frame of this level has the lemmas of the next one, and no state of the goal.
    Closed(u64),
    /// A frame more.
    More,
}

/// Iterations until there is a path, or two neighbouring frames have the same lemmas. Each frame that is
/// opened is counted.
pub fn iterate<S: StepSolver>(
    aim: &Aim<'_, '_>,
    steps: &mut S,
    frames: &mut Frames,
    meter: &mut Meter,
) -> Result<Iterated, ReachEnd>
    requires search { IsSearch aim.now.starts.now (S.seen steps.old) frames.old }
    requires two { 2 ≤ length frames.old }
    requires goal { IsGoalOf (S.seen steps.old) aim.now.goal.now }
    ensures search { OnOk result (IsSearch aim.now.starts.now (S.seen steps.new) frames.new) }
    ensures outcome { IfOk result (IsIterated (S.seen steps.old).question aim.now.goal.now frames.new) }
    ensures ended { IfOk result HasEnded }
    ensures two { OnOk result (2 ≤ length frames.new) }
    ensures more { OnOk result (length frames.old ≤ length frames.new) }
    ensures narrows { OnOk result (Narrows frames.old frames.new) }
    ensures room { let n = length (S.seen steps.old).question.circuit.latches in
        OnOk result (meter.new.steps + room n frames.new ≤ meter.old.steps + room n frames.old) }
    ensures question { KeepsQuestion (S.seen steps.old) (S.seen steps.new) }
    ensures counted { CountsUpTo (room (length (S.seen steps.old).question.circuit.latches) frames.old) meter.old meter.new }
    ensures fewest { OnOk result (CountsAtLeast (length frames.new - length frames.old) meter.old meter.new) }
    ensures end { IfErr result (IsReachEnd meter.new) }
{
    let mut known = no_witnesses(aim.alloc);
    'iterations: loop {
        match iteration(aim, &mut known, steps, frames, meter)? {
            Iterated::More => {}
            ended => return Ok(ended),
        }
    }
}

// One iteration. `known` has steps of the question that showed lemmas stuck.
fn iteration<S: StepSolver>(
    aim: &Aim<'_, '_>,
    known: &mut Witnesses,
    steps: &mut S,
    frames: &mut Frames,
    meter: &mut Meter,
) -> Result<Iterated, ReachEnd>
    requires search { IsSearch aim.now.starts.now (S.seen steps.old) frames.old }
    requires two { 2 ≤ length frames.old }
    requires goal { IsGoalOf (S.seen steps.old) aim.now.goal.now }
    requires known { AreWitnesses (S.seen steps.old).question known.old }
    ensures search { OnOk result (IsSearch aim.now.starts.now (S.seen steps.new) frames.new) }
    ensures two { OnOk result (2 ≤ length frames.new) }
    ensures more { OnOk result (length frames.old ≤ length frames.new) }
    ensures narrows { OnOk result (Narrows frames.old frames.new) }
    ensures outcome { IfOk result (IsIterated (S.seen steps.old).question aim.now.goal.now frames.new) }
    ensures known { OnOk result (AreWitnesses (S.seen steps.old).question known.new) }
    ensures smaller { let n = length (S.seen steps.old).question.circuit.latches in
        IfOk result (TakesRoom (room n frames.old) (room n frames.new)) }
    ensures room { let n = length (S.seen steps.old).question.circuit.latches in
        OnOk result (meter.new.steps + room n frames.new ≤ meter.old.steps + room n frames.old) }
    ensures question { KeepsQuestion (S.seen steps.old) (S.seen steps.new) }
    ensures counted { CountsUpTo (room (length (S.seen steps.old).question.circuit.latches) frames.old) meter.old meter.new }
    ensures fewest { OnOk result (CountsAtLeast (length frames.new - length frames.old) meter.old meter.new) }
    ensures end { IfErr result (IsReachEnd meter.new) }
{
    match strengthen(aim, steps, frames, meter)? {
        Some(positions) => Ok(Iterated::Path(positions)),
        None => propagate_and_open(aim, known, steps, frames, meter),
    }
}

// Propagates lemmas, and opens a frame where no two neighbouring frames have the same lemmas. The last frame has no state
// of the goal.
fn propagate_and_open<S: StepSolver>(
    aim: &Aim<'_, '_>,
    known: &mut Witnesses,
    steps: &mut S,
    frames: &mut Frames,
    meter: &mut Meter,
) -> Result<Iterated, ReachEnd>
    requires search { IsSearch aim.now.starts.now (S.seen steps.old) frames.old }
    requires two { 2 ≤ length frames.old }
    requires misses { MissesLast (S.seen steps.old).question aim.now.goal.now frames.old }
    requires known { AreWitnesses (S.seen steps.old).question known.old }
    ensures search { OnOk result (IsSearch aim.now.starts.now (S.seen steps.new) frames.new) }
    ensures two { OnOk result (2 ≤ length frames.new) }
    ensures more { OnOk result (length frames.old ≤ length frames.new) }
    ensures narrows { OnOk result (Narrows frames.old frames.new) }
    ensures outcome { IfOk result (IsIterated (S.seen steps.old).question aim.now.goal.now frames.new) }
    ensures known { OnOk result (AreWitnesses (S.seen steps.old).question known.new) }
    ensures smaller { let n = length (S.seen steps.old).question.circuit.latches in
        IfOk result (TakesRoom (room n frames.old) (room n frames.new)) }
    ensures room { let n = length (S.seen steps.old).question.circuit.latches in
        OnOk result (meter.new.steps + room n frames.new ≤ meter.old.steps + room n frames.old) }
    ensures question { KeepsQuestion (S.seen steps.old) (S.seen steps.new) }
    ensures counted { CountsUpTo (room (length (S.seen steps.old).question.circuit.latches) frames.old) meter.old meter.new }
    ensures fewest { OnOk result (CountsAtLeast (length frames.new - length frames.old) meter.old meter.new) }
    ensures end { IfErr result (IsReachEnd meter.new) }
{
    propagate(aim, known, steps, frames, meter)?;
    match frames.equal_pair() {
        Some(level) => Ok(Iterated::Closed(level)),
        None => {
            open_frame(aim.starts, steps, frames, meter)?;
            Ok(Iterated::More)
        }
    }
}

// Counts a step, and opens a frame.
fn open_frame<S: StepSolver>(
    _starts: &Cube,
    _steps: &S,
    frames: &mut Frames,
    meter: &mut Meter,
) -> Result<(), ReachEnd>
    requires search { IsSearch _starts.now (S.seen _steps.now) frames.old }
    requires two { 2 ≤ length frames.old }
    requires differ { AllDiffer frames.old }
    requires stuck { AllStuck (S.seen _steps.now).question frames.old }
    ensures search { OnOk result (IsSearch _starts.now (S.seen _steps.now) frames.new) }
    ensures frames { OnOk result (frames.new ≡ frames.old ++ [] ∷ []) }
    ensures narrows { OnOk result (Narrows frames.old frames.new) }
    ensures smaller { let n = length (S.seen _steps.now).question.circuit.latches in
        OnOk result (room n frames.new + 1 ≤ room n frames.old) }
    ensures room { let n = length (S.seen _steps.now).question.circuit.latches in
        OnOk result (meter.new.steps + room n frames.new ≤ meter.old.steps + room n frames.old) }
    ensures one { OnOk result (meter.new ≡ record meter.old { steps = one_more meter.old.steps }) }
    ensures counted { CountsUpTo (room (length (S.seen _steps.now).question.circuit.latches) frames.old) meter.old meter.new }
    ensures end { IfErr result (IsReachEnd meter.new) }
{
    let _small = steps_of(meter);
    frames.count_frame(meter)?;
    frames.add_frame()?;
    Ok(())
}

/// How many steps were counted: a number of 64 bits, so one more is no less.
pub(crate) fn steps_of(meter: &Meter) -> u64
    ensures value { result ≡ meter.now.steps }
    ensures small { result < 2 ^ 64 }
{
    meter.spending().steps()
}
