//! A worker, and what it does in its turns over any shared list, but for a lasso worker's. The main type is `Worker`.

ghost use Rattle.std.specs.Prelude.{◌≡◌, ◌+◌, ◌^◌, ◌<◌, ◌≤◌, max, true, None, length, IfOk, IfErr, IfSome};
ghost use Rattle.std.specs.Arc.{arc_value};
ghost use Rattle.aig_semantics.specs.Circuits.{fair_literals};
ghost use Rattle.edge.specs.Ends.{CountsConflicts, IsSpent};
ghost use Rattle.entry.specs.CheckedEntries.{viewed};
ghost use Rattle.entry.specs.Laws.{IsGoodList};
ghost use Rattle.skeleton.specs.Finding.{IsFound};
ghost use Rattle.wall_store.specs.Boards.{plain};
ghost use Rattle.fair_round.specs.Spending.{Asks, IsStop};
ghost use Rattle.fair_round.specs.Deeds.{IsDeed, IsPosting, IsTrueBehind};
ghost use Rattle.fair_workers.specs.Runs.{round_workers, AreLimits, ServesOne};
ghost use Rattle.fair_workers.specs.Working.{is_running, is_refused, is_round, phase_after, phase_finished, phase_passed, serving, asked, asked_last, searches_in, AreRoundsOf, Begins, IsAllowing, IsWorker, Turns, Thinks};

use crate::lasso_search::LassoSearch;
use crate::numbering::is_round_worker;
use circuit::Circuit;
use edge::Meter;
use entry::Checked;
use fair_round::{Author, Deed, Rounds, Stop, decide};
use search_reports::Limits;
use shared_lists::SharedList;
use skeleton::Found;
use std::alloc::{AllocError, Global};
use std::sync::Arc;
use wall_store::{Outcome, Posted};

/// What a worker does in its next turn, or how it ended.
#[derive(Clone, Copy)]
pub(crate) enum Phase {
    /// It asks for an open property.
    Asks,
    /// It looks, to serve a property.
    Looks,
    /// It searches, and posts an entry or hands in an outcome.
    Searches,
    /// It found the list full, and asks for an open property from this number on: below it, it went through all.
    AsksLast(u32),
    /// It looks, to serve a property for the last time.
    LooksLast,
    /// It asks whether all skeletons of the property are excluded.
    SearchesLast,
    /// A lasso worker asks whether its property is open; behind its next search so many are left.
    AsksDeeper(u32),
    /// It searches for a lasso, and hands it in; so many searches are left behind this one.
    Deepens(u32),
    /// It ended, since each property has an outcome.
    Closed,
    /// It ended, since the list is full and leaves a skeleton of each open property.
    Full,
    /// It ended, since its conflicts or its steps are spent.
    Spent,
    /// A lasso worker ended, since its conflicts are spent or its depth is done.
    Deep,
    /// It ended, since memory was refused.
    Refused,
}

/// A worker: the property that it serves, or served last; its rounds for it, which it makes when it first searches; a lasso
/// worker's search, which makes no rounds; its meter; and what it does next or how it ended.
#[derive(Drop)]
pub(crate) struct Worker {
    pub(crate) property: u32,
    pub(crate) rounds: Option<Rounds>,
    pub(crate) lasso_search: Option<LassoSearch>,
    pub(crate) meter: Meter,
    pub(crate) phase: Phase,
}

// The property from which a worker of this number asks first: they begin at places spread over the list.
fn first_property(properties: &[u32], number: u32, workers: u32) -> u32 {
    let ahead = (number as usize).saturating_mul(properties.len());
    let place = ahead.checked_div(workers as usize).unwrap_or(0);
    properties.get(place).copied().unwrap_or(0)
}

// A worker that has begun nothing, with this meter.
fn round_worker(properties: &[u32], limits: Limits, number: u32, meter: Meter) -> Worker
    requires { number < round_workers limits }
    ensures meter { result.meter ≡ meter }
    ensures begins { Begins limits properties.now number result }
{
    Worker {
        property: first_property(properties, number, limits.workers),
        rounds: None,
        lasso_search: None,
        meter,
        phase: Phase::Asks,
    }
}

// A lasso worker that has begun nothing, with this meter. Its simulation draws from its number.
fn lasso_worker(properties: &[u32], limits: Limits, number: u32, meter: Meter) -> Worker
    requires number { round_workers limits ≤ number }
    requires one { length properties.now ≡ 1 }
    ensures meter { result.meter ≡ meter }
    ensures begins { Begins limits properties.now number result }
{
    Worker {
        property: properties[0],
        rounds: None,
        lasso_search: Some(LassoSearch {
            worker: number,
            depth: limits.depth,
            done: 0,
            solver: None,
        }),
        meter,
        phase: Phase::AsksDeeper(limits.depth),
    }
}

/// A worker of this number that has begun nothing, with this meter: one of the last ones is a lasso worker.
pub(crate) fn begin(properties: &[u32], limits: Limits, number: u32, meter: Meter) -> Worker
    requires limits { AreLimits limits }
    requires inside { number < limits.workers }
    requires one { ServesOne limits properties.now }
    ensures meter { result.meter ≡ meter }
    ensures begins { Begins limits properties.now number result }
{
    if is_round_worker(limits, number) {
        round_worker(properties, limits, number, meter)
    } else {
        lasso_worker(properties, limits, number, meter)
    }
}

// The rounds of a worker, made where it has none yet. They are put back behind the work.
fn taken(
    alloc: Global,
    c: &Arc<Circuit>,
    j: u32,
    number: u32,
    rounds: &mut Option<Rounds>,
    _view: &[Arc<Checked>],
) -> Result<Rounds, AllocError>
    requires property { j < length (arc_value c.now).justice }
    requires rounds { IfSome rounds.old (AreRoundsOf (arc_value c.now) j (viewed _view.now)) }
    ensures rounds { IfOk result (AreRoundsOf (arc_value c.now) j (viewed _view.now)) }
    ensures none { rounds.new ≡ None }
{
    match rounds.take() {
        Some(rounds) => Ok(rounds),
        None => Rounds::new(alloc, c, j, number),
    }
}

// What the worker does next with the view.
fn decided(
    alloc: Global,
    c: &Arc<Circuit>,
    j: u32,
    view: &[Arc<Checked>],
    author: Author,
    worker: &mut Worker,
) -> Result<Deed, Stop>
    requires property { j < length (arc_value c.now).justice }
    requires rounds { IfSome worker.old.rounds (AreRoundsOf (arc_value c.now) j (viewed view.now)) }
    requires good { IsGoodList (arc_value c.now) (viewed view.now) }
    requires few { length view.now < 2 ^ 32 }
    ensures deed { IfOk result (IsDeed (arc_value c.now) (viewed view.now) j author.number author.turn) }
    ensures stop { IfErr result (IsStop worker.new.meter) }
    ensures counted { Asks (length (arc_value c.now).latches) (max 1 (length (fair_literals (arc_value c.now) j)) + 1)
        worker.old.meter worker.new.meter }
    ensures rounds { IfSome worker.new.rounds (AreRoundsOf (arc_value c.now) j (viewed view.now)) }
    ensures property { worker.new.property ≡ worker.old.property }
    ensures phase { worker.new.phase ≡ worker.old.phase }
    ensures lasso_search { worker.new.lasso_search ≡ worker.old.lasso_search }
{
    let mut rounds = taken(alloc, c, j, author.number, &mut worker.rounds, view)?;
    let deed = decide(alloc, c, j, view, &mut rounds, author, &mut worker.meter);
    drop(worker.rounds.replace(rounds));
    deed
}

// What the worker does next with what it has seen.
fn think<L: SharedList>(
    alloc: Global,
    c: &Arc<Circuit>,
    worker: &mut Worker,
    shared: &L,
) -> Result<Deed, Stop>
    requires kept { L.is_kept shared.now }
    requires worker { IsWorker (L.known shared.now) worker.old }
    requires circuit { arc_value c.now ≡ (L.known shared.now).circuit }
    requires phase { worker.old.phase ≡ Phase.Searches }
    ensures deed { IfOk result (IsDeed (L.known shared.now).circuit (plain (L.known shared.now).list) worker.new.property
        (L.known shared.now).number (L.known shared.now).turns) }
    ensures stop { IfErr result (IsStop worker.new.meter) }
    ensures thinks { Thinks (searches_in worker.new.phase) (L.known shared.now) worker.old worker.new }
{
    let author = Author {
        number: shared.number(),
        turn: shared.turns(),
    };
    decided(alloc, c, worker.property, shared.view(), author, worker)
}

// Whether a skeleton is left, by the view.
fn skeleton_in(
    alloc: Global,
    c: &Arc<Circuit>,
    j: u32,
    view: &[Arc<Checked>],
    number: u32,
    worker: &mut Worker,
) -> Result<Found, Stop>
    requires property { j < length (arc_value c.now).justice }
    requires rounds { IfSome worker.old.rounds (AreRoundsOf (arc_value c.now) j (viewed view.now)) }
    requires good { IsGoodList (arc_value c.now) (viewed view.now) }
    requires few { length view.now < 2 ^ 32 }
    ensures found { IfOk result (IsFound (arc_value c.now) j (viewed view.now)) }
    ensures stop { IfErr result (IsStop worker.new.meter) }
    ensures counted { CountsConflicts worker.old.meter worker.new.meter }
    ensures rounds { IfSome worker.new.rounds (AreRoundsOf (arc_value c.now) j (viewed view.now)) }
    ensures property { worker.new.property ≡ worker.old.property }
    ensures phase { worker.new.phase ≡ worker.old.phase }
    ensures lasso_search { worker.new.lasso_search ≡ worker.old.lasso_search }
{
    let mut rounds = taken(alloc, c, j, number, &mut worker.rounds, view)?;
    let found = rounds.next(alloc, view, &mut worker.meter);
    drop(worker.rounds.replace(rounds));
    found
}

// Whether a skeleton is left, by what the worker has seen.
fn think_last<L: SharedList>(
    alloc: Global,
    c: &Arc<Circuit>,
    worker: &mut Worker,
    shared: &L,
) -> Result<Found, Stop>
    requires kept { L.is_kept shared.now }
    requires worker { IsWorker (L.known shared.now) worker.old }
    requires circuit { arc_value c.now ≡ (L.known shared.now).circuit }
    requires phase { worker.old.phase ≡ Phase.SearchesLast }
    ensures found { IfOk result
        (IsFound (L.known shared.now).circuit worker.new.property (plain (L.known shared.now).list)) }
    ensures stop { IfErr result (IsStop worker.new.meter) }
    ensures thinks { Thinks (searches_in worker.new.phase) (L.known shared.now) worker.old worker.new }
{
    skeleton_in(
        alloc,
        c,
        worker.property,
        shared.view(),
        shared.number(),
        worker,
    )
}

// Serves the property from now on.
fn serve(worker: &mut Worker, j: u32, phase: Phase)
    ensures { worker.new ≡ serving j phase worker.old }
{
    if worker.property != j {
        drop(worker.rounds.take());
        worker.property = j;
    }
    worker.phase = phase;
}

// Goes on behind the answer to its question.
fn serve_told(worker: &mut Worker, told: Option<u32>)
    ensures { worker.new ≡ asked told worker.old }
{
    match told {
        Some(j) => serve(worker, j, Phase::Looks),
        None => worker.phase = Phase::Closed,
    }
}

// The same where the list is full: it went through the properties below `from`.
fn serve_told_last(worker: &mut Worker, from: u32, told: Option<u32>)
    ensures { worker.new ≡ asked_last from told worker.old }
{
    match told {
        Some(j) => {
            if j < from {
                worker.phase = Phase::Full;
            } else {
                serve(worker, j, Phase::LooksLast);
            }
        }
        None => worker.phase = Phase::Closed,
    }
}

/// Asks for an open property, from the one that it served last on.
pub(crate) fn ask<L: SharedList>(worker: &mut Worker, shared: &mut L)
    requires kept { L.is_kept shared.old }
    requires worker { IsWorker (L.known shared.old) worker.old }
    requires phase { worker.old.phase ≡ Phase.Asks }
    ensures on { L.goes_on shared.old shared.new }
    ensures turns { Turns 0 (L.known shared.old) worker.old (L.known shared.new) worker.new }
{
    let told = shared.next_open(worker.property);
    serve_told(worker, told);
}

/// Asks for an open property that it did not go through since the list is full.
pub(crate) fn ask_last<L: SharedList>(worker: &mut Worker, from: u32, shared: &mut L)
    requires kept { L.is_kept shared.old }
    requires worker { IsWorker (L.known shared.old) worker.old }
    requires phase { worker.old.phase ≡ Phase.AsksLast from }
    ensures on { L.goes_on shared.old shared.new }
    ensures turns { Turns 0 (L.known shared.old) worker.old (L.known shared.new) worker.new }
{
    let told = shared.next_open(from);
    serve_told_last(worker, from, told);
}

/// Looks, to search then.
pub(crate) fn look<L: SharedList>(worker: &mut Worker, shared: &mut L)
    requires kept { L.is_kept shared.old }
    requires worker { IsWorker (L.known shared.old) worker.old }
    requires phase { worker.old.phase ≡ Phase.Looks }
    ensures on { L.goes_on shared.old shared.new }
    ensures turns { Turns 0 (L.known shared.old) worker.old (L.known shared.new) worker.new }
{
    worker.phase = match shared.look() {
        Ok(()) => Phase::Searches,
        Err(_) => Phase::Refused,
    };
}

/// Looks for the last time, for its property.
pub(crate) fn look_last<L: SharedList>(worker: &mut Worker, shared: &mut L)
    requires kept { L.is_kept shared.old }
    requires worker { IsWorker (L.known shared.old) worker.old }
    requires phase { worker.old.phase ≡ Phase.LooksLast }
    ensures on { L.goes_on shared.old shared.new }
    ensures turns { Turns 0 (L.known shared.old) worker.old (L.known shared.new) worker.new }
{
    worker.phase = match shared.look() {
        Ok(()) => Phase::SearchesLast,
        Err(_) => Phase::Refused,
    };
}

fn after_post(posted: Posted) -> Phase
    ensures { result ≡ phase_after posted }
{
    match posted {
        Posted::Appended(_) | Posted::Stale(_) => Phase::Asks,
        Posted::Full => Phase::AsksLast(0),
        Posted::Closed => Phase::Closed,
    }
}

// Posts an entry that was checked behind what the worker has seen.
fn post<L: SharedList>(worker: &mut Worker, entry: Arc<Checked>, shared: &mut L)
    requires kept { L.is_kept shared.old }
    requires worker { IsWorker (L.known shared.old) worker.old }
    requires phase { worker.old.phase ≡ Phase.Searches }
    requires entry { IsPosting (L.known shared.old).circuit (plain (L.known shared.old).list) worker.old.property
        (L.known shared.old).number (L.known shared.old).turns (arc_value entry) }
    ensures on { L.goes_on shared.old shared.new }
    ensures turns { Turns (searches_in worker.old.phase) (L.known shared.old) worker.old (L.known shared.new) worker.new }
{
    worker.phase = match shared.post(&entry) {
        Ok(posted) => after_post(posted),
        Err(_) => Phase::Refused,
    };
}

// Where the worker goes on behind an outcome that it handed in. With one property it has ended.
fn after_finish(properties: &[u32], next: Phase) -> Phase
    ensures { result ≡ phase_finished properties.now next }
{
    if properties.len() == 1 {
        Phase::Closed
    } else {
        next
    }
}

// Hands in an outcome that is true over what the worker has seen.
fn finish<L: SharedList>(properties: &[u32], worker: &mut Worker, outcome: Outcome, shared: &mut L)
    requires kept { L.is_kept shared.old }
    requires worker { IsWorker (L.known shared.old) worker.old }
    requires properties { properties.now ≡ (L.known shared.old).properties }
    requires phase { worker.old.phase ≡ Phase.Searches }
    requires outcome { IsTrueBehind (L.known shared.old).circuit (plain (L.known shared.old).list) worker.old.property
        outcome }
    ensures on { L.goes_on shared.old shared.new }
    ensures turns { Turns (searches_in worker.old.phase) (L.known shared.old) worker.old (L.known shared.new) worker.new }
{
    shared.finish(worker.property, outcome);
    worker.phase = after_finish(properties, Phase::Asks);
}

// The same where the list is full.
fn finish_last<L: SharedList>(
    properties: &[u32],
    worker: &mut Worker,
    outcome: Outcome,
    shared: &mut L,
)
    requires kept { L.is_kept shared.old }
    requires worker { IsWorker (L.known shared.old) worker.old }
    requires properties { properties.now ≡ (L.known shared.old).properties }
    requires phase { worker.old.phase ≡ Phase.SearchesLast }
    requires outcome { IsTrueBehind (L.known shared.old).circuit (plain (L.known shared.old).list) worker.old.property
        outcome }
    ensures on { L.goes_on shared.old shared.new }
    ensures turns { Turns (searches_in worker.old.phase) (L.known shared.old) worker.old (L.known shared.new) worker.new }
{
    let j = worker.property;
    shared.finish(j, outcome);
    worker.phase = after_finish(properties, Phase::AsksLast(j));
}

// The worker ends, since what it may spend is spent.
fn end_spent<L: SharedList>(worker: &mut Worker, shared: &L)
    requires kept { L.is_kept shared.now }
    requires worker { IsWorker (L.known shared.now) worker.old }
    requires running { is_round worker.old.phase ≡ true }
    requires spent { IsSpent worker.old.meter }
    ensures on { L.goes_on shared.now shared.now }
    ensures turns { Turns (searches_in worker.old.phase) (L.known shared.now) worker.old (L.known shared.now) worker.new }
{
    shared.holds();
    worker.phase = Phase::Spent;
}

// The worker ends, since memory was refused.
fn end_refused<L: SharedList>(worker: &mut Worker, shared: &L)
    requires kept { L.is_kept shared.now }
    requires worker { IsWorker (L.known shared.now) worker.old }
    requires running { is_round worker.old.phase ≡ true }
    ensures on { L.goes_on shared.now shared.now }
    ensures turns { Turns (searches_in worker.old.phase) (L.known shared.now) worker.old (L.known shared.now) worker.new }
{
    shared.holds();
    worker.phase = Phase::Refused;
}

// Where the worker goes on behind property `j`, of which the full list allows a skeleton. Behind the last one it has ended.
fn after_skeleton(properties: &[u32], j: u32) -> Phase
    requires { 0 < length properties.now }
    ensures { result ≡ phase_passed properties.now j }
{
    if j < properties[properties.len() - 1] {
        Phase::AsksLast(j + 1)
    } else {
        Phase::Full
    }
}

// Goes on to the next property, since the list is full and a skeleton of this one is left.
fn pass_over<L: SharedList>(properties: &[u32], worker: &mut Worker, shared: &L)
    requires kept { L.is_kept shared.now }
    requires worker { IsWorker (L.known shared.now) worker.old }
    requires properties { properties.now ≡ (L.known shared.now).properties }
    requires phase { worker.old.phase ≡ Phase.SearchesLast }
    requires left { IsAllowing (L.known shared.now) worker.old.property }
    ensures on { L.goes_on shared.now shared.now }
    ensures turns { Turns (searches_in worker.old.phase) (L.known shared.now) worker.old (L.known shared.now) worker.new }
{
    shared.holds();
    worker.phase = after_skeleton(properties, worker.property);
}

// Shares the entry and posts it.
fn post_shared<L: SharedList>(alloc: Global, worker: &mut Worker, entry: Checked, shared: &mut L)
    requires kept { L.is_kept shared.old }
    requires worker { IsWorker (L.known shared.old) worker.old }
    requires phase { worker.old.phase ≡ Phase.Searches }
    requires entry { IsPosting (L.known shared.old).circuit (plain (L.known shared.old).list) worker.old.property
        (L.known shared.old).number (L.known shared.old).turns entry }
    ensures on { L.goes_on shared.old shared.new }
    ensures turns { Turns (searches_in worker.old.phase) (L.known shared.old) worker.old (L.known shared.new) worker.new }
{
    match Arc::new(alloc, entry) {
        Ok(entry) => post(worker, entry, shared),
        Err(_) => end_refused(worker, shared),
    }
}

/// Searches, and then posts or hands in what it found.
pub(crate) fn search<L: SharedList>(
    alloc: Global,
    c: &Arc<Circuit>,
    properties: &[u32],
    worker: &mut Worker,
    shared: &mut L,
)
    requires kept { L.is_kept shared.old }
    requires worker { IsWorker (L.known shared.old) worker.old }
    requires circuit { arc_value c.now ≡ (L.known shared.old).circuit }
    requires properties { properties.now ≡ (L.known shared.old).properties }
    requires phase { worker.old.phase ≡ Phase.Searches }
    ensures on { L.goes_on shared.old shared.new }
    ensures turns { Turns 0 (L.known shared.old) worker.old (L.known shared.new) worker.new }
{
    match think(alloc, c, worker, shared) {
        Ok(Deed::Post(entry)) => post_shared(alloc, worker, entry, shared),
        Ok(Deed::Finish(outcome)) => finish(properties, worker, outcome, shared),
        Err(Stop::Spent) => end_spent(worker, shared),
        Err(Stop::Memory) => end_refused(worker, shared),
    }
}

/// Asks for a skeleton for the last time.
pub(crate) fn search_last<L: SharedList>(
    alloc: Global,
    c: &Arc<Circuit>,
    properties: &[u32],
    worker: &mut Worker,
    shared: &mut L,
)
    requires kept { L.is_kept shared.old }
    requires worker { IsWorker (L.known shared.old) worker.old }
    requires circuit { arc_value c.now ≡ (L.known shared.old).circuit }
    requires properties { properties.now ≡ (L.known shared.old).properties }
    requires phase { worker.old.phase ≡ Phase.SearchesLast }
    ensures on { L.goes_on shared.old shared.new }
    ensures turns { Turns 0 (L.known shared.old) worker.old (L.known shared.new) worker.new }
{
    match think_last(alloc, c, worker, shared) {
        Ok(Found::Skeleton(_left)) => pass_over(properties, worker, shared),
        Ok(Found::Refuted(refutation)) => {
            finish_last(properties, worker, Outcome::Holds(refutation), shared);
        }
        Err(Stop::Spent) => end_spent(worker, shared),
        Err(Stop::Memory) => end_refused(worker, shared),
    }
}

impl Phase {
    /// Whether the worker has not ended.
    pub(crate) fn is_running(self) -> bool
        ensures { result ≡ is_running self }
    {
        match self {
            Phase::Closed | Phase::Full | Phase::Spent | Phase::Deep | Phase::Refused => false,
            Phase::Asks | Phase::Looks | Phase::Searches => true,
            Phase::AsksLast(_) | Phase::LooksLast | Phase::SearchesLast => true,
            Phase::AsksDeeper(_) | Phase::Deepens(_) => true,
        }
    }

    /// Whether the worker searches next.
    pub(crate) fn searches(self) -> bool {
        matches!(self, Phase::Searches | Phase::SearchesLast)
    }

    /// Whether the worker ended, since memory was refused.
    pub(crate) fn is_refused(self) -> bool
        ensures { result ≡ is_refused self }
    {
        match self {
            Phase::Refused => true,
            Phase::Closed | Phase::Full | Phase::Spent | Phase::Deep => false,
            Phase::Asks | Phase::Looks | Phase::Searches => false,
            Phase::AsksLast(_) | Phase::LooksLast | Phase::SearchesLast => false,
            Phase::AsksDeeper(_) | Phase::Deepens(_) => false,
        }
    }
}
