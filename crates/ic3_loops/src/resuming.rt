//! Frames that are kept go on under a new question: its solver takes their lemmas. The main call is `resume`.
ghost use Rattle.std.specs.Prelude.{◌≡◌, ◌≤◌, max, ◌++◌, [], length, OnOk};
ghost use Rattle.std.specs.List.{All};
ghost use Rattle.cnf_unroll.specs.Laws.{AreOver};
ghost use Rattle.ic3_frames.specs.Frames.{frame_at, own_lemmas};
ghost use Rattle.ic3_frames.specs.Room.{room};
ghost use Rattle.ic3_semantics.specs.Stepping.{IsOver};
ghost use Rattle.ic3_loops.specs.Propagating.{Narrows};
ghost use Rattle.ic3_loops.specs.Sound.{IsSearch, IsStartCube, KeepsQuestion, Agree};
ghost use Rattle.ic3_loops.specs.Resuming.{MayGoOn, placed};

use crate::lemmas::{has_lemma, lemma_at, one_more};
use crate::opening::open_frames;
use crate::step_solver::StepSolver;
use cnf::Cube;
use ic3_frames::Frames;
use std::alloc::{AllocError, Global};

// Puts the lemmas that a level has and the next has not behind the solver's.
fn hold_own<S: StepSolver>(frames: &Frames, level: u64, steps: &mut S) -> Result<(), AllocError>
    requires { All (IsOver (length (S.seen steps.old).question.circuit.latches)) (own_lemmas frames.now level) }
    ensures lemmas { OnOk result ((S.seen steps.new).lemmas ≡ (S.seen steps.old).lemmas ++ placed level (own_lemmas frames.now level)) }
    ensures question { KeepsQuestion (S.seen steps.old) (S.seen steps.new) }
{
    let mut place: u64 = 0;
    'places: while has_lemma(frames, level, place) {
        let lemma = lemma_at(frames, level, place)?;
        steps.hold(level, &lemma)?;
        place = one_more(place)?;
    }
    Ok(())
}

// Puts the lemmas of all levels into a solver without lemmas.
fn hold_all<S: StepSolver>(frames: &Frames, steps: &mut S) -> Result<(), AllocError>
    requires over { AreOver (length (S.seen steps.old).question.circuit.latches) (frame_at frames.now 0) }
    requires none { (S.seen steps.old).lemmas ≡ [] }
    ensures agree { OnOk result (Agree (S.seen steps.new).lemmas frames.now) }
    ensures question { KeepsQuestion (S.seen steps.old) (S.seen steps.new) }
{
    for level in 0..frames.len() {
        hold_own(frames, level, steps)?;
    }
    Ok(())
}

/// Makes a solver without lemmas and the frames ready for a search: the solver takes the lemmas of the frames, and where
/// there is no frame, two are opened. No step is counted. The error is want of memory.
pub fn resume<S: StepSolver>(
    alloc: Global,
    starts: &Cube,
    steps: &mut S,
    frames: &mut Frames,
) -> Result<(), AllocError>
    requires cube { IsStartCube (S.seen steps.old).question starts.now }
    requires none { (S.seen steps.old).lemmas ≡ [] }
    requires open { MayGoOn (S.seen steps.old).question starts.now frames.old }
    ensures search { OnOk result (IsSearch starts.now (S.seen steps.new) frames.new) }
    ensures two { OnOk result (2 ≤ length frames.new) }
    ensures more { OnOk result (length frames.old ≤ length frames.new) }
    ensures few { OnOk result (length frames.new ≤ max 2 (length frames.old)) }
    ensures narrows { OnOk result (Narrows frames.old frames.new) }
    ensures room { let n = length (S.seen steps.old).question.circuit.latches in
        OnOk result (room n frames.new ≤ room n frames.old) }
    ensures question { KeepsQuestion (S.seen steps.old) (S.seen steps.new) }
{
    if frames.len() == 0 {
        *frames = open_frames(alloc, starts, steps)?;
        Ok(())
    } else {
        hold_all(frames, steps)
    }
}
