//! What a worker keeps from round to round. The main type is `Rounds`.

ghost use Rattle.std.specs.Prelude.{◌≡◌, ◌<◌, ◌^◌, [], List, length, All, IfOk, IfErr, IfSome, OnOk, OnErr};
ghost use Rattle.std.specs.Arc.{arc_value};
ghost use Rattle.aig_semantics.specs.Stimuli.{IsFairLassoOf};
ghost use Rattle.edge.specs.Ends.{CountsConflicts};
ghost use Rattle.entry.specs.CheckedEntries.{viewed, GoesOnFrom};
ghost use Rattle.entry.specs.Laws.{IsGoodList};
ghost use Rattle.fair_semantics.specs.Entries.{Entry};
ghost use Rattle.skeleton.specs.Finding.{IsFound, BeginsNone};
ghost use Rattle.fair_round.specs.Spending.{IsStop};
ghost use Rattle.fair_round.specs.Scopes.{IsScope, IsAllowedIn, IsQueryOf, asking_of_scope, entries_of};
ghost use Rattle.fair_round.specs.Pools.{IsBegun, IsBegunIn, IsReachedRun, IsRun};
ghost use Rattle.fair_round.specs.Stems.{IsFit};

use crate::bounded::{Bounded, deepened};
use crate::invariants::{Hints, suggested};
use crate::pool::{Begun, Run, keep, keep_all, pooled, tried};
use crate::scope::Scope;
use crate::stopping::{Stop, solver_stop};
use arena_values::cone_latches;
use circuit::{Circuit, Lasso, Position};
use cnf::{Clause, Cube};
use edge::Meter;
use entry::{Checked, catch_up};
use fair_semantics::Skeleton;
use ic3::{Search, Start};
use items::Items;
use round_choices::{
    Costs, NO_PAUSE, Pauses, add_cost, asks_literal, first_costs, is_at_limit, looks,
};
use simulation::simulate;
use skeleton::{Found, Query, ValueAt, never_stays};
use std::alloc::{AllocError, Global};
use std::marker::Model;
use std::sync::Arc;

/// What a worker keeps from round to round: its query, the entries that it has seen, runs whose states were reached, cubes
/// of states in which no skeleton begins, the search from the initial states, what each of two kinds of rounds has cost, its
/// number, whether simulation is done, what invariants come of, of which latches walls are looked for and when, and the
/// bounded search. Contracts see of it what they see of a query.
#[derive(Drop)]
pub struct Rounds {
    circuit: Arc<Circuit>,
    query: Query,
    seen: Items<Arc<Checked>>,
    runs: Vec<Run>,
    avoid: Items<Cube>,
    search: Option<Search>,
    costs: Costs,
    worker: u32,
    has_simulated: bool,
    hints: Option<Hints>,
    wanted: Vec<bool>,
    pauses: Pauses,
    bounded: Bounded,
}

// The latches of which walls are looked for at first: those of the property's cone; for one worker in three none.
fn first_wanted(alloc: Global, c: &Circuit, j: u32, worker: u32) -> Result<Vec<bool>, AllocError> {
    if worker % 3 == 2 {
        return Ok(Vec::new(alloc));
    }
    cone_latches(alloc, c, j)
}

impl Model for Rounds {
    ghost use Rattle.skeleton.specs.Finding.{Asking};
    ghost use Rattle.fair_round.specs.Rounds.{asking_of, IsKept};

    ghost Value = { Asking };

    ghost view = { asking_of };

    ghost invariant = { IsKept };
}

// A skeleton that the view allows, or a refutation.
fn found(
    alloc: Global,
    query: &mut Query,
    view: &[Arc<Checked>],
    meter: &mut Meter,
) -> Result<Found, Stop>
    requires on { GoesOnFrom query.old.seen (viewed view.now) }
    requires good { IsGoodList query.old.circuit (viewed view.now) }
    requires few { length view.now < 2 ^ 32 }
    ensures found { IfOk result (IsFound query.old.circuit query.old.property (viewed view.now)) }
    ensures stop { IfErr result (IsStop meter.new) }
    ensures counted { CountsConflicts meter.old meter.new }
    ensures circuit { query.new.circuit ≡ query.old.circuit }
    ensures property { query.new.property ≡ query.old.property }
    ensures seen { GoesOnFrom query.new.seen (viewed view.now) }
{
    match query.next(alloc, view, meter) {
        Ok(found) => Ok(found),
        Err(end) => Err(solver_stop(end, meter)),
    }
}

// A search from the initial states that was asked nothing yet.
fn new_search(alloc: Global, c: &Arc<Circuit>) -> Result<Search, AllocError>
    ensures { IfOk result (λ made. (view : List Entry) → IsFit (arc_value c.now) view made) }
{
    Search::new(alloc, c, Start::Initial)
}

// What simulation shows: a fair lasso, or none. Its runs are kept.
fn simulated(
    alloc: Global,
    c: &Circuit,
    j: u32,
    worker: u32,
    meter: &Meter,
    runs: &mut Vec<Run>,
    hints: &mut Option<Hints>,
) -> Result<Option<Lasso>, Stop>
    requires { All (IsRun c.now) runs.old.items }
    ensures lasso { IfOk result (λ found. IfSome found (IsFairLassoOf c.now j)) }
    ensures stop { IfErr result (IsStop meter.now) }
    ensures runs { All (IsRun c.now) runs.new.items }
{
    let found = simulate(alloc, c, j, worker, meter)?;
    keep_all(c, runs, found.runs)?;
    *hints = Some(Hints::States(found.states));
    Ok(found.lasso)
}

// A skeleton that the entries allow, looked for with these values.
fn valued(
    alloc: Global,
    scope: &Scope<'_>,
    query: &mut Query,
    values: &[ValueAt],
    meter: &mut Meter,
) -> Result<Option<Skeleton>, Stop>
    requires scope { IsScope scope.now }
    requires query { IsQueryOf scope.now query.old }
    ensures found { IfOk result (λ found. IfSome found (IsAllowedIn scope.now)) }
    ensures query { IsQueryOf scope.now query.new }
    ensures stop { IfErr result (IsStop meter.new) }
    ensures counted { CountsConflicts meter.old meter.new }
{
    match query.with_values(alloc, scope.view, values, meter) {
        Ok(found) => Ok(found),
        Err(end) => Err(solver_stop(end, meter)),
    }
}

fn unmark(marks: &mut Vec<bool>, i: usize) {
    if i < marks.len() {
        marks[i] = false;
    }
}

impl Rounds {
    /// The rounds of a worker of this number for property `j`, before the first: nothing is seen. The error is want of
    /// memory.
    pub fn new(alloc: Global, c: &Arc<Circuit>, j: u32, worker: u32) -> Result<Rounds, AllocError>
        requires { j < length (arc_value c.now).justice }
        ensures { IfOk result (λ made. made ≡ record { circuit = arc_value c.now; property = j; seen = [] }) }
    {
        let circuit = Arc::try_clone(c)?;
        let wanted = first_wanted(alloc, &**c, j, worker)?;
        let query = Query::new(alloc, c, j, worker)?;
        Ok(Rounds {
            circuit,
            query,
            seen: Items::new(alloc),
            runs: Vec::new(alloc),
            avoid: Items::new(alloc),
            search: None,
            costs: first_costs(worker),
            worker,
            has_simulated: false,
            hints: None,
            wanted,
            pauses: NO_PAUSE,
            bounded: Bounded::unused(),
        })
    }

    // Takes the view for what was seen, and copies no handle that it has.
    fn catch_up(&mut self, alloc: Global, view: &[Arc<Checked>]) -> Result<(), AllocError>
        requires on { GoesOnFrom self.old.seen (viewed view.now) }
        ensures circuit { self.new.circuit ≡ self.old.circuit }
        ensures property { self.new.property ≡ self.old.property }
        ensures caught { OnOk result (self.new.seen ≡ viewed view.now) }
        ensures kept { OnErr result (self.new ≡ self.old) }
    {
        never_stays();
        catch_up(alloc, &mut self.seen, view)
    }

    /// A skeleton that the view allows, or a refutation.
    pub fn next(
        &mut self,
        alloc: Global,
        view: &[Arc<Checked>],
        meter: &mut Meter,
    ) -> Result<Found, Stop>
        requires on { GoesOnFrom self.old.seen (viewed view.now) }
        requires good { IsGoodList self.old.circuit (viewed view.now) }
        requires few { length view.now < 2 ^ 32 }
        ensures found { IfOk result (IsFound self.old.circuit self.old.property (viewed view.now)) }
        ensures stop { IfErr result (IsStop meter.new) }
        ensures counted { CountsConflicts meter.old meter.new }
        ensures circuit { self.new.circuit ≡ self.old.circuit }
        ensures property { self.new.property ≡ self.old.property }
        ensures seen { GoesOnFrom self.new.seen (viewed view.now) }
        ensures caught { OnOk result (self.new.seen ≡ viewed view.now) }
    {
        self.catch_up(alloc, view)?;
        found(alloc, &mut self.query, view, meter)
    }

    /// A skeleton that the entries, which were seen, allow and that begins in a state that was reached, and the way to it.
    pub(crate) fn pooled(
        &mut self,
        alloc: Global,
        scope: &Scope<'_>,
        meter: &mut Meter,
    ) -> Result<Option<Begun>, Stop>
        requires scope { IsScope scope.now }
        requires seen { self.old ≡ asking_of_scope scope.now }
        ensures begun { IfOk result (λ found. IfSome found (IsBegun scope.now.circuit.now scope.now.property (entries_of scope.now))) }
        ensures stop { IfErr result (IsStop meter.new) }
        ensures counted { CountsConflicts meter.old meter.new }
        ensures same { self.new ≡ self.old }
    {
        pooled(
            alloc,
            scope,
            &mut self.query,
            &mut self.runs,
            &mut self.avoid,
            meter,
        )
    }

    /// The cubes of states in which no skeleton begins that the entries which were seen allow.
    pub(crate) fn avoided(&self) -> &[Cube]
        ensures { All (BeginsNone self.now.circuit self.now.property self.now.seen) result.now }
    {
        self.avoid.as_slice()
    }

    /// Whether the first literal is asked for next, and not a state.
    pub(crate) fn asks_literal(&self) -> bool {
        asks_literal(&self.costs)
    }

    /// Adds to what one of the two has cost, in conflicts, steps, questions for a literal and rounds.
    pub(crate) fn charge(&mut self, by_literal: bool, cost: u64)
        ensures { self.new ≡ self.old }
    {
        add_cost(&mut self.costs, by_literal, cost);
    }

    /// The search from the initial states; it is put back where it answers.
    pub(crate) fn take_search(&mut self, alloc: Global, c: &Circuit) -> Result<Search, AllocError>
        requires { self.old.circuit ≡ c.now }
        ensures fit { IfOk result (IsFit c.now self.old.seen) }
        ensures same { self.new ≡ self.old }
    {
        match self.search.take() {
            Some(search) => Ok(search),
            None => new_search(alloc, &self.circuit),
        }
    }

    /// Keeps the search for the next round.
    pub(crate) fn put_search(&mut self, _c: &Circuit, kept: Search)
        requires circuit { self.old.circuit ≡ _c.now }
        requires fit { IsFit _c.now self.old.seen kept }
        ensures { self.new ≡ self.old }
    {
        self.search = Some(kept);
    }

    /// Before the first round: a fair lasso that simulation by draws from the worker's number shows, or none; then the states
    /// of its runs go into the pool. Nothing is begun where a count is at its limit.
    pub(crate) fn simulate(
        &mut self,
        alloc: Global,
        c: &Circuit,
        j: u32,
        meter: &Meter,
    ) -> Result<Option<Lasso>, Stop>
        requires { self.old.circuit ≡ c.now }
        ensures lasso { IfOk result (λ found. IfSome found (IsFairLassoOf c.now j)) }
        ensures stop { IfErr result (IsStop meter.now) }
        ensures same { self.new ≡ self.old }
    {
        if self.has_simulated || is_at_limit(meter) {
            return Ok(None);
        }
        self.has_simulated = true;
        simulated(
            alloc,
            c,
            j,
            self.worker,
            meter,
            &mut self.runs,
            &mut self.hints,
        )
    }

    /// Behind simulation, of worker 0 and each third one: a fair lasso that bounded search over the property's cone finds, which
    /// goes on from round to round, or none. Nothing is begun where a count is at its limit.
    pub(crate) fn deepen(
        &mut self,
        alloc: Global,
        c: &Circuit,
        j: u32,
        meter: &mut Meter,
    ) -> Result<Option<Lasso>, Stop>
        ensures lasso { IfOk result (λ found. IfSome found (IsFairLassoOf c.now j)) }
        ensures stop { IfErr result (IsStop meter.new) }
        ensures counted { CountsConflicts meter.old meter.new }
        ensures same { self.new ≡ self.old }
    {
        if self.worker % 3 != 0 || is_at_limit(meter) {
            return Ok(None);
        }
        deepened(alloc, c, j, &mut self.bounded, meter)
    }

    /// Behind simulation: clauses that the states of its runs suggest as invariants, if any; and those that were kept.
    pub(crate) fn take_invariants(
        &mut self,
        alloc: Global,
        scope: &Scope<'_>,
        meter: &mut Meter,
    ) -> Result<Items<Clause>, Stop>
        ensures stop { IfErr result (IsStop meter.new) }
        ensures counted { CountsConflicts meter.old meter.new }
        ensures same { self.new ≡ self.old }
    {
        match self.hints.take() {
            Some(hints) => suggested(alloc, scope, self.worker, hints, meter),
            None => Ok(Items::new(alloc)),
        }
    }

    /// Keeps clauses that are made an entry behind so many.
    pub(crate) fn put_invariants(&mut self, clauses: Items<Clause>, before: usize)
        ensures { self.new ≡ self.old }
    {
        self.hints = Some(Hints::Clauses(clauses, before));
    }

    /// A skeleton that the entries allow and that begins in the state, if there is one.
    pub(crate) fn begun_in(
        &mut self,
        alloc: Global,
        scope: &Scope<'_>,
        state: &[bool],
        meter: &mut Meter,
    ) -> Result<Option<Skeleton>, Stop>
        requires scope { IsScope scope.now }
        requires seen { self.old ≡ asking_of_scope scope.now }
        requires state { length state.now ≡ length scope.now.circuit.now.latches }
        ensures begun { IfOk result (λ found. IfSome found
            (IsBegunIn scope.now.circuit.now scope.now.property (entries_of scope.now) state.now)) }
        ensures stop { IfErr result (IsStop meter.new) }
        ensures counted { CountsConflicts meter.old meter.new }
        ensures same { self.new ≡ self.old }
    {
        tried(alloc, scope, &mut self.query, state, &mut self.avoid, meter)
    }

    /// Keeps a run whose states were reached. The error is want of memory.
    pub(crate) fn keep(&mut self, c: &Circuit, positions: Items<Position>) -> Result<(), AllocError>
        requires circuit { self.old.circuit ≡ c.now }
        requires run { IsReachedRun c.now positions }
        ensures { self.new ≡ self.old }
    {
        keep(c, &mut self.runs, positions)
    }

    /// A skeleton that the entries, which were seen, allow, looked for where latches have these values at its places.
    pub(crate) fn with_values(
        &mut self,
        alloc: Global,
        scope: &Scope<'_>,
        values: &[ValueAt],
        meter: &mut Meter,
    ) -> Result<Option<Skeleton>, Stop>
        requires scope { IsScope scope.now }
        requires seen { self.old ≡ asking_of_scope scope.now }
        ensures found { IfOk result (λ found. IfSome found (IsAllowedIn scope.now)) }
        ensures stop { IfErr result (IsStop meter.new) }
        ensures counted { CountsConflicts meter.old meter.new }
        ensures same { self.new ≡ self.old }
    {
        valued(alloc, scope, &mut self.query, values, meter)
    }

    /// Of each latch whether walls of it are looked for.
    pub(crate) fn wanted(&self) -> &[bool] {
        self.wanted.as_slice()
    }

    /// Whether this round looks for walls of one latch: behind one that found none some rounds pass, twice as many and one
    /// more each time.
    pub(crate) fn looks_for_walls(&mut self) -> bool
        ensures { self.new ≡ self.old }
    {
        looks(&mut self.pauses)
    }

    /// The next round looks for such walls.
    pub(crate) fn look_again(&mut self)
        ensures { self.new ≡ self.old }
    {
        self.pauses = NO_PAUSE;
    }

    /// Walls of a latch are looked for no more.
    pub(crate) fn dismiss(&mut self, latch: usize)
        ensures { self.new ≡ self.old }
    {
        unmark(&mut self.wanted, latch);
    }
}
