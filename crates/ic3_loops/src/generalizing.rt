//! Cubes that no step enters become lemmas, with fewer literals and as high as they are seen to hold. The main call is
//! `generalize`.
ghost use Rattle.std.specs.Prelude.{◌≡◌, ◌+◌, ◌<◌, ◌≤◌, true, false, length, IfOk, IfErr, OnOk};
ghost use Rattle.proof_semantics.specs.Clauses.{clause_value, values_of, is_part};
ghost use Rattle.edge.specs.Faults.{one_more};
ghost use Rattle.ic3_frames.specs.Frames.{frame_at};
ghost use Rattle.ic3_frames.specs.Room.{allowed_by};
ghost use Rattle.ic3_semantics.specs.Searching.{IsReachEnd};
ghost use Rattle.ic3_semantics.specs.Stepping.{IsMissing, IsOver};
ghost use Rattle.ic3_generalise.specs.Cubes.{value_literals, misses_starts};
ghost use Rattle.ic3_loops.specs.Sound.{IsSearch, IsRelative, KeepsQuestion, has_one_of};
ghost use Rattle.ic3_semantics.specs.Searching.{CountsUpTo};
ghost use Rattle.ic3_loops.specs.Propagating.{Narrows};
ghost use Rattle.ic3_loops.specs.Blocking.{IsStronger};

use crate::aim::Aim;
use crate::iterating::steps_of;
use crate::lemmas::{one_more, put_lemma};
use crate::obligations::Consecution;
use crate::shortening::{highest, shorten};
use crate::step_solver::StepSolver;
use cnf::Cube;
use edge::{Held, Meter};
use ic3_frames::Frames;
use ic3_generalise::based;
use ic3_semantics::{Lemma, ReachEnd};

/// Puts a lemma against the state of an obligation into the frame of a level, from the one above `below` on, as high as
/// it is seen to hold, and counts it; answers the level. The state lies in the cube that was asked, which misses the
/// starts. No step leads from the frame `below` into `part`, a part of the cube, of which literals are dropped while
/// that stays so.
pub(crate) fn generalize<S: StepSolver>(
    aim: &Aim<'_, '_>,
    asking: &Consecution<'_>,
    part: Cube,
    steps: &mut S,
    frames: &mut Frames,
    meter: &mut Meter,
) -> Result<u64, ReachEnd>
    requires search { IsSearch aim.now.starts.now (S.seen steps.old) frames.old }
    requires level { asking.now.below + 1 < length frames.old }
    requires size { length asking.now.state.now ≡ length (S.seen steps.old).question.circuit.latches }
    requires frame { allowed_by (frame_at frames.old (asking.now.below + 1)) asking.now.state.now ≡ true }
    requires among { is_part asking.now.asked.now (value_literals 0 asking.now.state.now) ≡ true }
    requires misses { misses_starts aim.now.starts.now asking.now.asked.now ≡ true }
    requires missing { IsMissing (S.seen steps.old) asking.now.below asking.now.asked.now part }
    ensures search { OnOk result (IsSearch aim.now.starts.now (S.seen steps.new) frames.new) }
    ensures level { IfOk result (λ level. (asking.now.below + 1 ≤ level) × (level < length frames.old)) }
    ensures excluded { IfOk result (λ level. allowed_by (frame_at frames.new level) asking.now.state.now ≡ false) }
    ensures stronger { IfOk result (λ level.
        IsStronger (length (S.seen steps.old).question.circuit.latches) level frames.old frames.new) }
    ensures narrows { OnOk result (Narrows frames.old frames.new) }
    ensures number { OnOk result (length frames.new ≡ length frames.old) }
    ensures question { KeepsQuestion (S.seen steps.old) (S.seen steps.new) }
    ensures one { OnOk result (meter.new.steps ≡ one_more meter.old.steps) }
    ensures counted { CountsUpTo 1 meter.old meter.new }
    ensures end { IfErr result (IsReachEnd meter.new) }
{
    let first = based(aim.alloc, aim.starts, asking.asked, part)?;
    let shorter = shorten(aim, asking.below, first, steps, frames, meter)?;
    let from = highest(aim, asking.below, &shorter, steps, frames, meter)?;
    let level = one_more(from)?;
    let clause = shorter.negation()?;
    let lemma = Lemma { level, clause };
    put_counted(aim.starts, asking.state, lemma, steps, frames, meter)
}

// Counts the lemma, and puts it into the frame of its level.
fn put_counted<S: StepSolver>(
    starts: &Cube,
    state: &[bool],
    lemma: Lemma,
    steps: &mut S,
    frames: &mut Frames,
    meter: &mut Meter,
) -> Result<u64, ReachEnd>
    requires search { IsSearch starts.now (S.seen steps.old) frames.old }
    requires level { lemma.level < length frames.old }
    requires size { length state.now ≡ length (S.seen steps.old).question.circuit.latches }
    requires frame { allowed_by (frame_at frames.old lemma.level) state.now ≡ true }
    requires excluded { clause_value (values_of state.now) lemma.clause ≡ false }
    requires over { IsOver (length (S.seen steps.old).question.circuit.latches) lemma.clause }
    requires based { has_one_of starts.now lemma.clause ≡ true }
    requires relative { IsRelative (S.seen steps.old).question frames.old lemma.level lemma.clause }
    ensures search { OnOk result (IsSearch starts.now (S.seen steps.new) frames.new) }
    ensures level { IfOk result (λ level. level ≡ lemma.level) }
    ensures excluded { OnOk result (allowed_by (frame_at frames.new lemma.level) state.now ≡ false) }
    ensures stronger { OnOk result (IsStronger (length (S.seen steps.old).question.circuit.latches) lemma.level frames.old frames.new) }
    ensures narrows { OnOk result (Narrows frames.old frames.new) }
    ensures number { OnOk result (length frames.new ≡ length frames.old) }
    ensures question { KeepsQuestion (S.seen steps.old) (S.seen steps.new) }
    ensures one { OnOk result (meter.new ≡ record meter.old { steps = one_more meter.old.steps }) }
    ensures counted { CountsUpTo 1 meter.old meter.new }
    ensures end { IfErr result (IsReachEnd meter.new) }
{
    let Lemma { level, clause } = lemma;
    let _small = steps_of(meter);
    meter.lemma(&frames.at(level), &clause, state)?;
    put_lemma(starts, level, clause, steps, frames)?;
    Ok(level)
}
