//! A search that is asked again and again from one start. The main type is `Search`.
ghost use Rattle.std.specs.Prelude.{◌≡◌, ◌+◌, ◌-◌, ◌*◌, ◌^◌, ◌≤◌, max, [], length, IfOk, IfErr, OnOk, OnErr};
ghost use Rattle.std.specs.Arc.{arc_value};
ghost use Rattle.entry.specs.CheckedEntries.{viewed, GoesOnFrom};
ghost use Rattle.entry.specs.Laws.{IsGoodList};
ghost use Rattle.ic3_semantics.specs.Searching.{CountsUpTo, CountsAtLeast};
ghost use Rattle.ic3.specs.Searches.{steps_left};
ghost use Rattle.ic3_frames.specs.Room.{room};
ghost use Rattle.ic3_loops.specs.Propagating.{Narrows};
ghost use Rattle.ic3_loops.specs.Resuming.{MayGoOn};
ghost use Rattle.ic3_loops.specs.Starting.{start_cube};
ghost use Rattle.ic3_semantics.specs.Searching.{IsStart, IsGoal, IsReached, IsReachEnd};

use crate::searching::{Asked, reach_on};
use circuit::Circuit;
use cnf::Cube;
use edge::Meter;
use entry::{Checked, catch_up};
use ic3_frames::Frames;
use ic3_loops::start_cube;
use ic3_semantics::{Goal, ReachEnd, Reached, Start};
use items::Items;
use std::alloc::{AllocError, Global};
use std::marker::Model;
use std::mem;
use std::sync::Arc;

/// The entries of the last question that did not want memory for them, and the frames, or none after an error; and how
/// many questions the solvers were asked so far.
#[derive(Drop)]
struct Kept {
    seen: Items<Arc<Checked>>,
    frames: Frames,
    solver_questions: u64,
}

/// A search for paths of a circuit from one start, which is asked again and again: for other goals, and under views that
/// go on from those before. Its frames are kept from one question to the next, until one ends with an error, so that the
/// questions between two errors take together no more steps than one may.
#[derive(Drop)]
pub struct Search {
    circuit: Arc<Circuit>,
    start: Start,
    starts: Cube,
    kept: Kept,
}

impl Model for Search {
    ghost use Rattle.ic3.specs.Searches.{Searching};
    ghost use Rattle.ic3.specs.SearchesInside.{searching_in, IsKept};

    ghost Value = { Searching };

    ghost view = { searching_in };

    ghost invariant = { IsKept };
}

// The next question of a search with what it keeps, as `Search::reach` has it.
fn reach_again(
    alloc: Global,
    c: &Circuit,
    start: &Start,
    starts: &Cube,
    kept: &mut Kept,
    view: &[Arc<Checked>],
    goal: &Goal<'_>,
    meter: &mut Meter,
) -> Result<Reached, ReachEnd>
    requires good { IsGoodList c.now (viewed view.now) }
    requires on { GoesOnFrom (viewed kept.old.seen) (viewed view.now) }
    requires start { IsStart c.now start.now }
    requires starts { starts.now ≡ start_cube c.now start.now }
    requires goal { IsGoal c.now goal.now }
    requires open { MayGoOn (record {
      circuit = c.now;
      view = viewed kept.old.seen;
      start = start.now;
    }) starts.now kept.old.frames }
    ensures reached { IfOk result (IsReached (record {
      circuit = c.now;
      view = viewed view.now;
      start = start.now;
    }) goal.now) }
    ensures end { IfErr result (IsReachEnd meter.new) }
    ensures counted { CountsUpTo (room (length c.now.latches) kept.old.frames) meter.old meter.new }
    ensures paid { let n = length c.now.latches in
        OnOk result (meter.new.steps + room n kept.new.frames ≤ meter.old.steps + room n kept.old.frames) }
    ensures open { MayGoOn (record {
      circuit = c.now;
      view = viewed kept.new.seen;
      start = start.now;
    }) starts.now kept.new.frames }
    ensures narrows { OnOk result (Narrows kept.old.frames kept.new.frames) }
    ensures more { OnOk result (length kept.old.frames ≤ length kept.new.frames) }
    ensures fewest { OnOk result (CountsAtLeast (length kept.new.frames - max 2 (length kept.old.frames)) meter.old meter.new) }
    ensures lost { OnErr result (kept.new.frames ≡ []) }
    ensures view { OnOk result (viewed kept.new.seen ≡ viewed view.now) }
    ensures seen { GoesOnFrom (viewed kept.new.seen) (viewed view.now) }
{
    let mut frames = mem::replace(&mut kept.frames, Frames::new(alloc));
    catch_up(alloc, &mut kept.seen, view)?;
    let asked = Asked {
        c,
        view,
        start,
        starts,
        goal,
    };
    let reached = reach_on(
        alloc,
        &asked,
        &mut frames,
        &mut kept.solver_questions,
        meter,
    )?;
    kept.frames = frames;
    Ok(reached)
}

impl Search {
    /// A search from a start that was asked nothing yet. The error is want of memory.
    pub fn new(alloc: Global, c: &Arc<Circuit>, start: Start) -> Result<Search, AllocError>
        requires { IsStart (arc_value c.now) start }
        ensures new { IfOk result (λ made. made ≡ record {
          circuit = arc_value c.now;
          start = start;
          view = [];
          levels = [];
        }) }
        ensures left { let n = length (arc_value c.now).latches in
            IfOk result (λ made. steps_left made ≤ (2 ^ n + 2) * (2 ^ n + 2)) }
    {
        let starts = start_cube(alloc, &**c, &start)?;
        let circuit = Arc::try_clone(c)?;
        Ok(Search {
            circuit,
            start,
            starts,
            kept: Kept {
                seen: Items::new(alloc),
                frames: Frames::new(alloc),
                solver_questions: 0,
            },
        })
    }

    /// How many frames it keeps: none before the first question, and none after one that ended with an error. Takes no
    /// memory.
    pub fn frames(&self) -> u64
        ensures { result ≡ length self.now.levels }
    {
        self.kept.frames.len()
    }

    /// How many questions its solvers were asked, for those who measure it, or 2^64 - 1 where there were more. No clause
    /// says it. Takes no memory.
    pub fn solver_questions(&self) -> u64 {
        self.kept.solver_questions
    }

    /// A path from the start to the goal by steps that the entries of the view allow; or, exactly where there is none, a
    /// closed set. From the initial states reach entries alone restrict the steps. The steps that a question counts are
    /// taken from those that are left, and each frame that it opens beyond the first two is counted, while the count is
    /// below its greatest value; its frames exclude what they excluded, and are no fewer. Each error but that of memory
    /// comes where the meter's count of its kind is at its limit; after an error the frames are lost, and the next question
    /// begins new ones.
    pub fn reach(
        &mut self,
        alloc: Global,
        view: &[Arc<Checked>],
        goal: &Goal<'_>,
        meter: &mut Meter,
    ) -> Result<Reached, ReachEnd>
        requires good { IsGoodList self.old.circuit (viewed view.now) }
        requires on { GoesOnFrom self.old.view (viewed view.now) }
        requires goal { IsGoal self.old.circuit goal.now }
        ensures reached { IfOk result (IsReached (record {
          circuit = self.old.circuit;
          view = viewed view.now;
          start = self.old.start;
        }) goal.now) }
        ensures end { IfErr result (IsReachEnd meter.new) }
        ensures counted { CountsUpTo (steps_left self.old) meter.old meter.new }
        ensures paid { OnOk result (meter.new.steps + steps_left self.new ≤ meter.old.steps + steps_left self.old) }
        ensures narrows { OnOk result (Narrows self.old.levels self.new.levels) }
        ensures more { OnOk result (length self.old.levels ≤ length self.new.levels) }
        ensures fewest { OnOk result (CountsAtLeast (length self.new.levels - max 2 (length self.old.levels)) meter.old meter.new) }
        ensures lost { OnErr result (self.new.levels ≡ []) }
        ensures circuit { self.new.circuit ≡ self.old.circuit }
        ensures start { self.new.start ≡ self.old.start }
        ensures view { OnOk result (self.new.view ≡ viewed view.now) }
        ensures seen { GoesOnFrom self.new.view (viewed view.now) }
    {
        reach_again(
            alloc,
            &*self.circuit,
            &self.start,
            &self.starts,
            &mut self.kept,
            view,
            goal,
            meter,
        )
    }
}
