//! The board and its events. The main type is `Board`.

ghost use Rattle.std.specs.Prelude.{◌≡◌, ℕ, ◌<◌, ◌≤◌, ◌⊎◌, map, length, vec_capacity, All, AllPairs, Contains, option_copied, IfOk};
ghost use Rattle.std.specs.Arc.{arc_value};
ghost use Rattle.entry.specs.CheckedEntries.{viewed};
ghost use Rattle.entry.specs.Laws.{IsGoodList};
ghost use Rattle.wall_store.specs.Boards.{IsBoard, IsSoundList, IsTrueOf, properties_of, outcome_of, first_board, most_entries, plain};
ghost use Rattle.wall_store.specs.Events.{Looks, MayPost, Posts, Finishes, OpensNext, IsFinished, entries_after, served_after};
ghost use Rattle.wall_store.specs.Laws.{SeenUsesStand};
ghost use Rattle.wall_store.specs.Scanning.{all_settled, IsScanned, OfWork, IsRefused};

use crate::making::{all_seen, limit_of, list_with_room, places, unserved};
use crate::outcomes::{Finished, Outcome, Posted, Served};
use crate::scanning::{answer_to, count, next_in, place_of, seen_by};
use circuit::Circuit;
use entry::{Checked, Origin, older_views};
use std::alloc::{AllocError, Global};
use std::marker::Model;
use std::sync::Arc;

/// A board that workers share: the list of checked entries, and an outcome or none for each property that it serves.
/// Room for all that it may become is taken when it is made, so that no event takes memory.
#[derive(Drop)]
pub struct Board {
    circuit: Arc<Circuit>,
    served: Vec<Served>,
    workers: u32,
    limit: u32,
    given: u32,
    entries: Vec<Arc<Checked>>,
    /// For each worker how many entries it has seen.
    seen: Vec<u32>,
    /// A place for each entry that the list may have, for the test of skeletons.
    scratch: Vec<bool>,
}

impl Model for Board {
    ghost use Rattle.wall_store.specs.Boards.{BoardState};
    ghost use Rattle.wall_store.specs.Keeping.{seen_as, IsKept};

    ghost Value = { BoardState };

    ghost view = { seen_as };

    ghost invariant = { IsKept };
}

impl Board {
    /// A board of the circuit that serves these properties, each with its number and in ascending order, for 1 to 64
    /// workers. The given entries stand in front of the list, each sound behind those before it, and every worker has
    /// seen them; the list may grow by `limit` entries, but to no more than 65,536. The error is want of memory.
    pub fn new(
        alloc: Global,
        circuit: &Arc<Circuit>,
        properties: &[u32],
        workers: u32,
        limit: u32,
        given: &[Arc<Checked>],
    ) -> Result<Board, AllocError>
        requires ascend { AllPairs (λ i j. i < j) properties.now }
        requires properties { All (λ j. j < length (arc_value circuit.now).justice) properties.now }
        requires some_workers { 1 ≤ workers }
        requires few_workers { workers ≤ 64 }
        requires limit { limit ≤ most_entries }
        requires few_given { length given.now ≤ most_entries }
        requires given { IsSoundList (arc_value circuit.now) (map arc_value given.now) }
        ensures { IfOk result (λ b. b ≡ first_board
            (arc_value circuit.now) properties.now workers limit (map arc_value given.now)) }
    {
        let limit = limit_of(given, limit);
        let held = count(given);
        Ok(Board {
            circuit: Arc::try_clone(circuit)?,
            served: unserved(alloc, properties)?,
            workers,
            limit,
            given: held,
            entries: list_with_room(alloc, given, limit)?,
            seen: all_seen(alloc, workers, held)?,
            scratch: places(alloc, limit)?,
        })
    }

    /// How many entries the list has; the worker has then seen them all. Takes no memory.
    pub fn look(&mut self, worker: u32) -> u32
        requires { worker < self.old.workers }
        ensures { Looks self.old worker result self.new }
    {
        let count = count(&self.entries);
        self.seen[worker as usize] = count;
        count
    }

    /// Puts an entry of the worker at the end of the list and answers `Appended` with its number. `Closed` comes
    /// exactly where each served property has an outcome, else `Full` where the list is at its limit, else `Stale` with
    /// the number of the first entry that excludes the skeleton; then the entries stay as they are. In each case the
    /// worker has then seen the whole list. Takes no memory.
    pub fn post(&mut self, worker: u32, entry: Arc<Checked>) -> Posted
        requires worker { worker < self.old.workers }
        requires may { MayPost self.old worker (arc_value entry) }
        ensures { Posts self.old worker (arc_value entry) result self.new }
    {
        entry.holds_where_uses_stand();
        older_views(&*self.circuit);
        let low = seen_by(&self.seen, worker);
        let answer = answer_to_entry(
            &self.served,
            &self.entries,
            self.limit,
            low,
            &*entry,
            &mut self.scratch,
        );
        put(&mut self.entries, entry, answer);
        self.seen[worker as usize] = count(&self.entries);
        answer
    }

    /// Keeps the outcome of the property and answers `Won`; `Closed`, exactly where the property has one, changes
    /// nothing. Takes no memory.
    pub fn finish(&mut self, worker: u32, property: u32, outcome: Outcome) -> Finished
        requires worker { worker < self.old.workers }
        requires served { Contains (properties_of self.old.served) property }
        requires outcome { IsTrueOf self.old.circuit self.old.entries property outcome }
        ensures { Finishes self.old property outcome result self.new }
    {
        let _ = worker;
        keep_in(&mut self.served, property, outcome)
    }

    /// The least served property from `from` on that has no outcome; where there is none from there on, the least of
    /// all; `None` exactly where each has an outcome. Changes nothing, and takes no memory.
    pub fn next_open(&mut self, worker: u32, from: u32) -> Option<u32>
        requires worker { worker < self.old.workers }
        ensures { OpensNext self.old from result self.new }
    {
        let _ = worker;
        next_in(&self.served, from)
    }

    /// The circuit that the entries are of.
    pub fn circuit(&self) -> &Arc<Circuit>
        ensures { arc_value result.now ≡ self.now.circuit }
    {
        &self.circuit
    }

    /// How many entries the list may have.
    pub fn limit(&self) -> u32
        ensures { result ≡ self.now.limit }
    {
        self.limit
    }

    /// How many workers there are.
    pub fn workers(&self) -> u32
        ensures { result ≡ self.now.workers }
    {
        self.workers
    }

    /// How many entries were given at first; they stand in front.
    pub fn given(&self) -> u32
        ensures { result ≡ self.now.given }
    {
        self.given
    }

    /// The served properties in ascending order, each with its outcome, if it has one.
    pub fn served(&self) -> &[Served]
        ensures { result.now ≡ self.now.served }
    {
        self.served.as_slice()
    }

    /// The entries of the list, in their order.
    pub fn entries(&self) -> &[Arc<Checked>]
        ensures checked { map arc_value result.now ≡ self.now.entries }
        ensures viewed { viewed result.now ≡ plain self.now.entries }
    {
        self.entries.as_slice()
    }

    /// The outcome of the property: `None` exactly where it has none, or is not served. Takes no memory.
    pub fn outcome(&self, property: u32) -> Option<&Outcome>
        ensures { option_copied result ≡ outcome_of self.now.served property }
    {
        outcome_in(&self.served, property)
    }

    /// Nothing: the law of what a board is at any time.
    pub fn holds(&self)
        ensures { IsBoard self.now }
    {
        let _ = &self.limit;
    }

    /// Nothing: the law that the entries are valid, each behind those before it, with clauses over the latches.
    pub fn entries_are_good(&self)
        ensures { IsGoodList self.now.circuit (plain self.now.entries) }
    {
        let _ = &self.limit;
    }

    /// Nothing: the law that what closed uses name among the entries that a worker has seen stands in the list.
    pub fn seen_uses_stand(&self)
        ensures { (w : ℕ) → SeenUsesStand self.now w }
    {
        older_views(&*self.circuit);
    }
}

// The answer to a post of this entry, whose skeleton the entries below `low` are known to allow. No worker posts a
// given entry.
fn answer_to_entry(
    served: &[Served],
    entries: &[Arc<Checked>],
    limit: u32,
    low: u32,
    entry: &Checked,
    scratch: &mut Vec<bool>,
) -> Posted
    requires few { length entries.now ≤ most_entries }
    requires room { length entries.now ≤ length scratch.old.items }
    ensures answer { OfWork entry.now.origin (λ work.
        IsScanned (all_settled served.now) limit (viewed entries.now) work.skeleton low result) }
    ensures room { length scratch.new.items ≡ length scratch.old.items }
{
    match entry.origin() {
        Origin::Worker(work) => { answer_to(served, entries, limit, low, &work.skeleton, scratch) }
        Origin::Given => Posted::Closed,
    }
}

// Puts the entry at the end, where that is the answer.
fn put(entries: &mut Vec<Arc<Checked>>, entry: Arc<Checked>, answer: Posted)
    requires { (length entries.old.items < vec_capacity entries.old) ⊎ IsRefused answer }
    ensures entries { map arc_value entries.new.items
        ≡ entries_after (map arc_value entries.old.items) (arc_value entry) answer }
    ensures room { vec_capacity entries.new ≡ vec_capacity entries.old }
{
    match answer {
        Posted::Appended(_) => entries.push_reserved(entry),
        Posted::Stale(_) | Posted::Full | Posted::Closed => {}
    }
}

// Keeps the outcome of a property, unless there is one.
fn keep_first(served: &mut [Served], property: u32, outcome: Outcome) -> Finished
    requires { Contains (properties_of served.old) property }
    ensures answer { IsFinished served.old property result }
    ensures after { served.new ≡ served_after served.old property outcome result }
{
    let place = place_of(served, property);
    if served[place].outcome.is_some() {
        return Finished::Closed;
    }
    served[place] = Served {
        property,
        outcome: Some(outcome),
    };
    Finished::Won
}

// The same in a list that may grow.
fn keep_in(served: &mut Vec<Served>, property: u32, outcome: Outcome) -> Finished
    requires { Contains (properties_of served.old.items) property }
    ensures answer { IsFinished served.old.items property result }
    ensures after { served.new.items ≡ served_after served.old.items property outcome result }
{
    keep_first(served, property, outcome)
}

fn outcome_in(served: &[Served], property: u32) -> Option<&Outcome>
    ensures { option_copied result ≡ outcome_of served.now property }
{
    for s in served {
        if s.property == property {
            return s.outcome.as_ref();
        }
    }
    None
}
