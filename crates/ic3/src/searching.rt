//! The search. The main call is `reach`.
ghost use Rattle.std.specs.Prelude.{◌≡◌, ◌+◌, ◌≤◌, [], ◌∷◌, length, IfOk, IfErr, IfSome, OnOk};
ghost use Rattle.edge.specs.Ends.{CountsConflicts, IsEnd};
ghost use Rattle.entry.specs.CheckedEntries.{viewed};
ghost use Rattle.entry.specs.Laws.{IsGoodList};
ghost use Rattle.ic3_frames.specs.Frames.{frame_at};
ghost use Rattle.ic3_frames.specs.Room.{room};
ghost use Rattle.ic3_loops.specs.Sound.{AvoidsAsked};
ghost use Rattle.ic3_semantics.specs.Searching.{CountsUpTo};
ghost use Rattle.ic3_loops.specs.Resuming.{MayGoOn};
ghost use Rattle.ic3.specs.Searches.{IsOfOneLiteral};
ghost use Rattle.ic3.specs.SearchesInside.{question_of, IsPosed, GoesFurther};
ghost use Rattle.ic3_questions.specs.SteppingClauses.{own_uses};
ghost use Rattle.ic3_semantics.specs.Stepping.{no_lemmas};
ghost use Rattle.ic3_semantics.specs.Searching.{IsStart, IsGoal, IsReached, IsReachEnd, CountsSearch};

use crate::steps::Steps;
use circuit::Circuit;
use cnf::{Clause, Cube};
use edge::{Meter, SolveEnd};
use entry::Checked;
use ic3_frames::Frames;
use ic3_loops::{Aim, Iterated, iterate, lemmas_from, resume, single, start_cube};
use ic3_questions::own_uses;
use ic3_semantics::{Goal, ReachEnd, Reached, Start};
use items::Items;
use std::alloc::{AllocError, Global};
use std::sync::Arc;

/// A path from the start to the goal by steps that the entries of the view allow; or, exactly where there is none, a
/// closed set. From the initial states reach entries alone restrict the steps. Each error but that of memory comes
/// where the meter's count of its kind is at its limit.
pub fn reach(
    alloc: Global,
    c: &Circuit,
    view: &[Arc<Checked>],
    start: &Start,
    goal: &Goal<'_>,
    meter: &mut Meter,
) -> Result<Reached, ReachEnd>
    requires view { IsGoodList c.now (viewed view.now) }
    requires start { IsStart c.now start.now }
    requires goal { IsGoal c.now goal.now }
    ensures reached { IfOk result (IsReached (record {
      circuit = c.now;
      view = viewed view.now;
      start = start.now;
    }) goal.now) }
    ensures end { IfErr result (IsReachEnd meter.new) }
    ensures counted { CountsSearch (length c.now.latches) meter.old meter.new }
{
    let starts = start_cube(alloc, c, start)?;
    let mut frames = Frames::new(alloc);
    let mut solver_questions = 0;
    let asked = Asked {
        c,
        view,
        start,
        starts: &starts,
        goal,
    };
    reach_on(alloc, &asked, &mut frames, &mut solver_questions, meter)
}

/// A closed set of one clause, which has one literal: that of a latch whose value in the start no step leaves, and which
/// the goal has otherwise. None where no such latch is seen; it is looked for from a state to a state.
pub fn by_latch(
    alloc: Global,
    c: &Circuit,
    view: &[Arc<Checked>],
    start: &Start,
    goal: &Goal<'_>,
    meter: &mut Meter,
) -> Result<Option<Reached>, SolveEnd>
    requires view { IsGoodList c.now (viewed view.now) }
    requires start { IsStart c.now start.now }
    requires goal { IsGoal c.now goal.now }
    ensures reached { IfOk result (λ found. IfSome found (IsReached (record {
      circuit = c.now;
      view = viewed view.now;
      start = start.now;
    }) goal.now)) }
    ensures one { IfOk result (λ found. IfSome found IsOfOneLiteral) }
    ensures end { IfErr result (IsEnd meter.new) }
    ensures counted { CountsConflicts meter.old meter.new }
{
    let starts = start_cube(alloc, c, start)?;
    let mut steps = Steps::new(alloc, c, view, start, avoided(goal))?;
    let asked = Asked {
        c,
        view,
        start,
        starts: &starts,
        goal,
    };
    let found = close_by_latch(alloc, &asked, &mut steps, meter);
    drop(steps);
    found
}

// The same by a solver that has no lemmas.
fn close_by_latch(
    alloc: Global,
    asked: &Asked<'_, '_>,
    steps: &mut Steps<'_>,
    meter: &mut Meter,
) -> Result<Option<Reached>, SolveEnd>
    requires asked { IsPosed asked.now.c.now (viewed asked.now.view.now) asked.now.start.now asked.now.starts.now asked.now.goal.now }
    requires steps { steps.old ≡ no_lemmas (question_of asked.now.c.now (viewed asked.now.view.now) asked.now.start.now) steps.old.avoid }
    ensures reached { IfOk result (λ found. IfSome found
        (IsReached (question_of asked.now.c.now (viewed asked.now.view.now) asked.now.start.now) asked.now.goal.now)) }
    ensures one { IfOk result (λ found. IfSome found IsOfOneLiteral) }
    ensures end { IfErr result (IsEnd meter.new) }
    ensures counted { CountsConflicts meter.old meter.new }
{
    match single(alloc, asked.start, asked.starts, asked.goal, steps, meter)? {
        Some(clause) => Ok(of_one(alloc, asked.view, asked.start, clause)?),
        None => Ok(None),
    }
}

// The closed set of the clause, which has one literal.
fn of_one(
    alloc: Global,
    view: &[Arc<Checked>],
    start: &Start,
    clause: Clause,
) -> Result<Option<Reached>, AllocError>
    ensures closed { IfOk result (λ found. IfSome found (λ reached.
        reached ≡ Reached.Closed (clause ∷ []) (own_uses (viewed view.now) start.now))) }
    ensures one { IfOk result (λ found. IfSome found IsOfOneLiteral) }
{
    if clause.len() != 1 {
        return Ok(None);
    }
    Ok(Some(close_one(alloc, view, start, clause)?))
}

/// What is asked: a circuit, the entries that are known, a start with its cube, and a goal.
#[derive(Drop)]
pub(crate) struct Asked<'a, 'b> {
    pub(crate) c: &'a Circuit,
    pub(crate) view: &'a [Arc<Checked>],
    pub(crate) start: &'a Start,
    pub(crate) starts: &'a Cube,
    pub(crate) goal: &'a Goal<'b>,
}

/// The same with frames that are kept from an earlier question with this start, or none: they go on. `solver_questions`
/// rises by the questions of the solver. After an error nothing is known of the frames.
pub(crate) fn reach_on(
    alloc: Global,
    asked: &Asked<'_, '_>,
    frames: &mut Frames,
    solver_questions: &mut u64,
    meter: &mut Meter,
) -> Result<Reached, ReachEnd>
    requires asked { IsPosed asked.now.c.now (viewed asked.now.view.now) asked.now.start.now asked.now.starts.now asked.now.goal.now }
    requires open { MayGoOn (question_of asked.now.c.now (viewed asked.now.view.now) asked.now.start.now) asked.now.starts.now frames.old }
    ensures reached { IfOk result (IsReached (question_of asked.now.c.now (viewed asked.now.view.now) asked.now.start.now) asked.now.goal.now) }
    ensures kept { OnOk result (GoesFurther (question_of asked.now.c.now (viewed asked.now.view.now) asked.now.start.now) asked.now.starts.now
        frames.old frames.new meter.old meter.new) }
    ensures end { IfErr result (IsReachEnd meter.new) }
    ensures counted { CountsUpTo (room (length asked.now.c.now.latches) frames.old) meter.old meter.new }
{
    let mut steps = Steps::new(alloc, asked.c, asked.view, asked.start, avoided(asked.goal))?;
    let reached = reach_by(alloc, asked, &mut steps, frames, meter);
    *solver_questions = solver_questions.saturating_add(steps.solver_questions());
    drop(steps);
    reached
}

// The same by a solver that has no lemmas.
fn reach_by(
    alloc: Global,
    asked: &Asked<'_, '_>,
    steps: &mut Steps<'_>,
    frames: &mut Frames,
    meter: &mut Meter,
) -> Result<Reached, ReachEnd>
    requires asked { IsPosed asked.now.c.now (viewed asked.now.view.now) asked.now.start.now asked.now.starts.now asked.now.goal.now }
    requires avoids { AvoidsAsked steps.old.avoid asked.now.goal.now }
    requires steps { steps.old ≡ no_lemmas (question_of asked.now.c.now (viewed asked.now.view.now) asked.now.start.now) steps.old.avoid }
    requires open { MayGoOn (question_of asked.now.c.now (viewed asked.now.view.now) asked.now.start.now) asked.now.starts.now frames.old }
    ensures reached { IfOk result (IsReached (question_of asked.now.c.now (viewed asked.now.view.now) asked.now.start.now) asked.now.goal.now) }
    ensures kept { OnOk result (GoesFurther (question_of asked.now.c.now (viewed asked.now.view.now) asked.now.start.now) asked.now.starts.now
        frames.old frames.new meter.old meter.new) }
    ensures end { IfErr result (IsReachEnd meter.new) }
    ensures counted { CountsUpTo (room (length asked.now.c.now.latches) frames.old) meter.old meter.new }
{
    match single(alloc, asked.start, asked.starts, asked.goal, steps, meter)? {
        Some(clause) => Ok(close_one(alloc, asked.view, asked.start, clause)?),
        None => by_frames(alloc, asked, steps, frames, meter),
    }
}

// The same by frames.
fn by_frames(
    alloc: Global,
    asked: &Asked<'_, '_>,
    steps: &mut Steps<'_>,
    frames: &mut Frames,
    meter: &mut Meter,
) -> Result<Reached, ReachEnd>
    requires asked { IsPosed asked.now.c.now (viewed asked.now.view.now) asked.now.start.now asked.now.starts.now asked.now.goal.now }
    requires avoids { AvoidsAsked steps.old.avoid asked.now.goal.now }
    requires steps { steps.old ≡ no_lemmas (question_of asked.now.c.now (viewed asked.now.view.now) asked.now.start.now) steps.old.avoid }
    requires open { MayGoOn (question_of asked.now.c.now (viewed asked.now.view.now) asked.now.start.now) asked.now.starts.now frames.old }
    ensures reached { IfOk result (IsReached (question_of asked.now.c.now (viewed asked.now.view.now) asked.now.start.now) asked.now.goal.now) }
    ensures kept { OnOk result (GoesFurther (question_of asked.now.c.now (viewed asked.now.view.now) asked.now.start.now) asked.now.starts.now
        frames.old frames.new meter.old meter.new) }
    ensures end { IfErr result (IsReachEnd meter.new) }
    ensures counted { CountsUpTo (room (length asked.now.c.now.latches) frames.old) meter.old meter.new }
{
    resume(alloc, asked.starts, steps, frames)?;
    let aim = Aim {
        alloc,
        starts: asked.starts,
        goal: asked.goal,
    };
    match iterate(&aim, steps, frames, meter)? {
        Iterated::Path(positions) => Ok(Reached::Path(positions)),
        Iterated::Closed(level) => Ok(close(alloc, asked.view, asked.start, frames, level)?),
        Iterated::More => unreachable!(),
    }
}

// The cubes that a goal avoids.
fn avoided<'a>(goal: &Goal<'a>) -> &'a [Cube]
    ensures { AvoidsAsked result.now goal.now }
{
    match goal {
        Goal::State(_) => &[],
        Goal::Literal { avoid, .. } => avoid,
    }
}

// The closed set of a frame that has the lemmas of the next one, with the uses of all entries that restrict the steps.
fn close(
    alloc: Global,
    view: &[Arc<Checked>],
    start: &Start,
    frames: &Frames,
    level: u64,
) -> Result<Reached, AllocError>
    ensures { IfOk result (λ reached.
        reached ≡ Reached.Closed (frame_at frames.now level) (own_uses (viewed view.now) start.now)) }
{
    let clauses = lemmas_from(alloc, frames, level)?;
    let uses = own_uses(alloc, view, start)?;
    Ok(Reached::Closed { clauses, uses })
}

// The closed set of one clause, with the same uses.
fn close_one(
    alloc: Global,
    view: &[Arc<Checked>],
    start: &Start,
    clause: Clause,
) -> Result<Reached, AllocError>
    ensures { IfOk result (λ reached.
        reached ≡ Reached.Closed (clause ∷ []) (own_uses (viewed view.now) start.now)) }
{
    let mut clauses = Items::new(alloc);
    clauses.push(clause)?;
    let uses = own_uses(alloc, view, start)?;
    Ok(Reached::Closed { clauses, uses })
}
