//! Lemmas that hold after each step from their frame go into the next one too. The main call is `propagate`.
ghost use Rattle.std.specs.Prelude.{◌≡◌, ◌+◌, ◌<◌, ◌≤◌, [], length, slice_index_or, IfErr, OnOk};
ghost use Rattle.edge.specs.Ends.{CountsConflicts, IsEnd};
ghost use Rattle.ic3_frames.specs.Frames.{own_lemmas};
ghost use Rattle.ic3_loops.specs.Sound.{IsSearch, IsRelative, KeepsQuestion, AreStuck};
ghost use Rattle.ic3_loops.specs.Propagating.{IsPushed, IsTried, IsNarrower, StayStuck, AllStuck};
ghost use Rattle.ic3_frames.specs.Witnessing.{AreWitnesses};

use crate::aim::Aim;
use crate::lemmas::{LemmaPlace, has_lemma, lemma_at, one_more};
use crate::pushing::{push_parts, tried};
use crate::step_solver::StepSolver;
use cnf::{Clause, Cube};
use edge::{Meter, SolveEnd};
use ic3_frames::{Frames, Witnesses, forget_unused};
use ic3_semantics::{Goal, Lemma, Start};
use std::alloc::AllocError;

/// Puts lemmas that hold after each step from their frame into the next frame too, from level 1 up: first a part of each;
/// and then each lemma that is left as it is, so that those that stay are stuck. The lemmas of level 0, which are the
/// literals of the starts, are tried while there are two frames, from a state where the goal is a state.
pub(crate) fn propagate<S: StepSolver>(
    aim: &Aim<'_, '_>,
    known: &mut Witnesses,
    steps: &mut S,
    frames: &mut Frames,
    meter: &mut Meter,
) -> Result<(), SolveEnd>
    requires search { IsSearch aim.now.starts.now (S.seen steps.old) frames.old }
    requires known { AreWitnesses (S.seen steps.old).question known.old }
    ensures narrower { OnOk result (IsNarrower aim.now.starts.now (S.seen steps.old) (S.seen steps.new) frames.old frames.new) }
    ensures stuck { OnOk result (AllStuck (S.seen steps.old).question frames.new) }
    ensures known { OnOk result (AreWitnesses (S.seen steps.old).question known.new) }
    ensures question { KeepsQuestion (S.seen steps.old) (S.seen steps.new) }
    ensures end { IfErr result (IsEnd meter.new) }
    ensures counted { CountsConflicts meter.old meter.new }
{
    forget_unused(known);
    push_parts(aim, known, steps, frames, meter)?;
    push_lemmas(aim, known, steps, frames, meter)
}

// Puts each lemma that holds after each step from its frame into the next frame: from level 1 up all, of level 0 where they
// are due.
fn push_lemmas<S: StepSolver>(
    aim: &Aim<'_, '_>,
    known: &mut Witnesses,
    steps: &mut S,
    frames: &mut Frames,
    meter: &mut Meter,
) -> Result<(), SolveEnd>
    requires search { IsSearch aim.now.starts.now (S.seen steps.old) frames.old }
    requires known { AreWitnesses (S.seen steps.old).question known.old }
    ensures narrower { OnOk result (IsNarrower aim.now.starts.now (S.seen steps.old) (S.seen steps.new) frames.old frames.new) }
    ensures stuck { OnOk result (AllStuck (S.seen steps.old).question frames.new) }
    ensures known { OnOk result (AreWitnesses (S.seen steps.old).question known.new) }
    ensures question { KeepsQuestion (S.seen steps.old) (S.seen steps.new) }
    ensures end { IfErr result (IsEnd meter.new) }
    ensures counted { CountsConflicts meter.old meter.new }
{
    let first = first_due(frames.len(), steps.start(), aim.goal);
    for level in first..frames.len() {
        push_level(aim, level - 1, known, steps, frames, meter)?;
    }
    Ok(())
}

// The first frame that lemmas are to be pushed into: those of level 0 go up while there are two frames, and from a state,
// which has a lemma for each latch, where the goal is a state. No contract rests on it.
fn first_due(count: u64, start: &Start, goal: &Goal<'_>) -> u64
    ensures some { 1 ≤ result }
    ensures next { result ≤ 2 }
{
    let is_wanted = match (start, goal) {
        (Start::State(_), Goal::Literal { .. }) => false,
        _ => true,
    };
    if is_wanted && count == 2 { 1 } else { 2 }
}

// The same of one level, of which the lemmas that came last are tried first.
fn push_level<S: StepSolver>(
    aim: &Aim<'_, '_>,
    level: u64,
    known: &mut Witnesses,
    steps: &mut S,
    frames: &mut Frames,
    meter: &mut Meter,
) -> Result<(), SolveEnd>
    requires search { IsSearch aim.now.starts.now (S.seen steps.old) frames.old }
    requires known { AreWitnesses (S.seen steps.old).question known.old }
    requires next { level + 1 < length frames.old }
    ensures narrower { OnOk result (IsNarrower aim.now.starts.now (S.seen steps.old) (S.seen steps.new) frames.old frames.new) }
    ensures stuck { OnOk result (AreStuck (S.seen steps.old).question frames.new level) }
    ensures stay { OnOk result (StayStuck (S.seen steps.old).question frames.old frames.new level) }
    ensures known { OnOk result (AreWitnesses (S.seen steps.old).question known.new) }
    ensures question { KeepsQuestion (S.seen steps.old) (S.seen steps.new) }
    ensures end { IfErr result (IsEnd meter.new) }
    ensures counted { CountsConflicts meter.old meter.new }
{
    let mut place = frames.count(level);
    'places: while place > 0 {
        place -= 1;
        let at = LemmaPlace { level, place };
        try_push(aim, at, known, steps, frames, meter)?;
    }
    Ok(())
}

// Puts the lemma at a place of a level, where there is one, into the next frame too, if it holds after each step from its
// frame.
fn try_push<S: StepSolver>(
    aim: &Aim<'_, '_>,
    at: LemmaPlace,
    known: &mut Witnesses,
    steps: &mut S,
    frames: &mut Frames,
    meter: &mut Meter,
) -> Result<(), SolveEnd>
    requires search { IsSearch aim.now.starts.now (S.seen steps.old) frames.old }
    requires known { AreWitnesses (S.seen steps.old).question known.old }
    requires next { at.level + 1 < length frames.old }
    ensures narrower { OnOk result (IsNarrower aim.now.starts.now (S.seen steps.old) (S.seen steps.new) frames.old frames.new) }
    ensures tried { OnOk result (IsTried (S.seen steps.old).question frames.old frames.new at.level at.place) }
    ensures stay { OnOk result (StayStuck (S.seen steps.old).question frames.old frames.new at.level) }
    ensures known { OnOk result (AreWitnesses (S.seen steps.old).question known.new) }
    ensures question { KeepsQuestion (S.seen steps.old) (S.seen steps.new) }
    ensures end { IfErr result (IsEnd meter.new) }
    ensures counted { CountsConflicts meter.old meter.new }
{
    if !has_lemma(frames, at.level, at.place) {
        return Ok(());
    }
    let clause = lemma_at(frames, at.level, at.place)?;
    let lemma = Lemma {
        level: at.level,
        clause,
    };
    match tried(aim.alloc, &lemma, known, steps, frames, meter)? {
        Some(_) => Ok(push_one(aim.starts, at, &lemma.clause, steps, frames)?),
        None => Ok(()),
    }
}

// Puts a lemma that holds after each step from its frame into the next frame, and behind the solver's lemmas.
fn push_one<S: StepSolver>(
    _starts: &Cube,
    at: LemmaPlace,
    lemma: &Clause,
    steps: &mut S,
    frames: &mut Frames,
) -> Result<(), AllocError>
    requires search { IsSearch _starts.now (S.seen steps.old) frames.old }
    requires next { at.level + 1 < length frames.old }
    requires place { at.place < length (own_lemmas frames.old at.level) }
    requires lemma { lemma.now ≡ slice_index_or (own_lemmas frames.old at.level) at.place [] }
    requires relative { IsRelative (S.seen steps.old).question frames.old (at.level + 1) lemma.now }
    ensures narrower { OnOk result (IsNarrower _starts.now (S.seen steps.old) (S.seen steps.new) frames.old frames.new) }
    ensures pushed { OnOk result (IsPushed frames.old frames.new at.level at.place) }
    ensures question { KeepsQuestion (S.seen steps.old) (S.seen steps.new) }
{
    let next = one_more(at.level)?;
    steps.hold(next, lemma)?;
    frames.push_on(at.level, at.place)
}
