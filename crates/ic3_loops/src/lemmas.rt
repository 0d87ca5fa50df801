//! Lemmas of frames by their places, and a lemma put into the frames and into the solver. The main call is `put_lemma`.
ghost use Rattle.std.specs.Prelude.{◌≡◌, ◌↔◌, ◌+◌, ◌<◌, [], true, length, slice_index_or, IsTrue, IfOk, OnOk};
ghost use Rattle.ic3_frames.specs.Frames.{own_lemmas, with_lemma};
ghost use Rattle.ic3_semantics.specs.Stepping.{IsOver};
ghost use Rattle.ic3_loops.specs.Sound.{IsSearch, IsRelative, KeepsQuestion, has_one_of};

use crate::step_solver::StepSolver;
use cnf::{Clause, Cube};
use ic3_frames::Frames;
use std::alloc::AllocError;

/// The number behind this one. The error is a number that is too great to be one of a list in memory.
pub(crate) fn one_more(place: u64) -> Result<u64, AllocError>
    ensures { IfOk result (λ next. next ≡ place + 1) }
{
    match place.checked_add(1) {
        Some(next) => Ok(next),
        None => Err(AllocError),
    }
}

/// Where a lemma stands: its level, and its place among the lemmas that this level has and the next has not.
#[derive(Clone, Copy, Drop)]
pub(crate) struct LemmaPlace {
    pub(crate) level: u64,
    pub(crate) place: u64,
}

/// Whether a level has a lemma at this place that the next level has not.
pub(crate) fn has_lemma(frames: &Frames, level: u64, place: u64) -> bool
    ensures { IsTrue result ↔ (place < length (own_lemmas frames.now level)) }
{
    frames.lemma(level, place).is_some()
}

/// A copy of the lemma at a place of a level. The error is want of memory.
pub(crate) fn lemma_at(frames: &Frames, level: u64, place: u64) -> Result<Clause, AllocError>
    requires { place < length (own_lemmas frames.now level) }
    ensures { IfOk result (λ lemma. lemma ≡ slice_index_or (own_lemmas frames.now level) place []) }
{
    match frames.lemma(level, place) {
        Some(lemma) => lemma.clone(),
        None => unreachable!(),
    }
}

/// Puts a lemma into the frame of a level and those below, and behind the solver's lemmas. `starts` is the cube of the
/// starts. After an error, which is want of memory, the solver may have a lemma that the frames have not.
pub(crate) fn put_lemma<S: StepSolver>(
    _starts: &Cube,
    level: u64,
    lemma: Clause,
    steps: &mut S,
    frames: &mut Frames,
) -> Result<(), AllocError>
    requires search { IsSearch _starts.now (S.seen steps.old) frames.old }
    requires level { level < length frames.old }
    requires over { IsOver (length (S.seen steps.old).question.circuit.latches) lemma }
    requires based { has_one_of _starts.now lemma ≡ true }
    requires relative { IsRelative (S.seen steps.old).question frames.old level lemma }
    ensures search { OnOk result (IsSearch _starts.now (S.seen steps.new) frames.new) }
    ensures frames { OnOk result (frames.new ≡ with_lemma frames.old level lemma) }
    ensures question { KeepsQuestion (S.seen steps.old) (S.seen steps.new) }
{
    steps.hold(level, &lemma)?;
    frames.add(level, lemma)
}
