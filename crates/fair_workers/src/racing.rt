//! What a lasso worker does in its turns over any shared list. The main calls are `ask_deeper` and `deepen`.

ghost use Rattle.std.specs.Prelude.{◌≡◌, ◌<◌, true, Some, is_some, length, IfOk, IfErr, IfSome};
ghost use Rattle.std.specs.Arc.{arc_value};
ghost use Rattle.aig_semantics.specs.Stimuli.{IsFairLassoOf};
ghost use Rattle.edge.specs.Ends.{CountsConflicts, IsEnd};
ghost use Rattle.fair_workers.specs.Working.{phase_deeper, phase_told, IsBefore, IsBehind, IsSearchOf, IsSought, IsWorker, SeeksOn, StaysOfKind, Turns, UnlessFound};

use crate::lasso_search::seek;
use crate::working::{Phase, Worker};
use circuit::{Circuit, Lasso};
use edge::SolveEnd;
use shared_lists::SharedList;
use std::alloc::Global;
use std::sync::Arc;
use wall_store::Outcome;

// Where a lasso worker goes on behind its question.
fn after_told(after: u32, told: Option<u32>) -> Phase
    ensures { result ≡ phase_told after told }
{
    match told {
        Some(_) => Phase::Deepens(after),
        None => Phase::Closed,
    }
}

/// Asks whether its property is open.
pub(crate) fn ask_deeper<L: SharedList>(worker: &mut Worker, after: u32, shared: &mut L)
    requires kept { L.is_kept shared.old }
    requires worker { IsWorker (L.known shared.old) worker.old }
    requires phase { worker.old.phase ≡ Phase.AsksDeeper after }
    ensures on { L.goes_on shared.old shared.new }
    ensures turns { Turns 0 (L.known shared.old) worker.old (L.known shared.new) worker.new }
{
    let told = shared.next_open(worker.property);
    worker.phase = after_told(after, told);
}

// What the worker searches for next: a lasso, or none.
fn sought(
    alloc: Global,
    c: &Arc<Circuit>,
    after: u32,
    worker: &mut Worker,
) -> Result<Option<Lasso>, SolveEnd>
    requires property { worker.old.property < length (arc_value c.now).justice }
    requires some { is_some worker.old.lasso_search ≡ true }
    requires search { IfSome worker.old.lasso_search (IsSearchOf (arc_value c.now) worker.old.property) }
    requires before { IfSome worker.old.lasso_search (IsBefore (arc_value c.now) worker.old.property after) }
    ensures lasso { IfOk result (λ found. IfSome found (IsFairLassoOf (arc_value c.now) worker.old.property)) }
    ensures end { IfErr result (IsEnd worker.new.meter) }
    ensures counted { CountsConflicts worker.old.meter worker.new.meter }
    ensures property { worker.new.property ≡ worker.old.property }
    ensures rounds { worker.new.rounds ≡ worker.old.rounds }
    ensures phase { worker.new.phase ≡ worker.old.phase }
    ensures kind { StaysOfKind worker.old.lasso_search worker.new.lasso_search }
    ensures search { IfSome worker.new.lasso_search (IsSearchOf (arc_value c.now) worker.old.property) }
    ensures behind { IfOk result (UnlessFound (IfSome worker.new.lasso_search (IsBehind (arc_value c.now) worker.old.property after))) }
{
    let j = worker.property;
    match &mut worker.lasso_search {
        Some(search) => seek(alloc, c, j, after, search, &mut worker.meter),
        None => unreachable!(),
    }
}

// The same of a worker over the list.
fn search<L: SharedList>(
    alloc: Global,
    c: &Arc<Circuit>,
    after: u32,
    worker: &mut Worker,
    shared: &L,
) -> Result<Option<Lasso>, SolveEnd>
    requires kept { L.is_kept shared.now }
    requires worker { IsWorker (L.known shared.now) worker.old }
    requires circuit { arc_value c.now ≡ (L.known shared.now).circuit }
    requires phase { worker.old.phase ≡ Phase.Deepens after }
    ensures lasso { IfOk result (λ found. IfSome found (IsFairLassoOf (L.known shared.now).circuit worker.new.property)) }
    ensures end { IfErr result (IsEnd worker.new.meter) }
    ensures on { SeeksOn (L.known shared.now) after worker.old worker.new }
    ensures behind { IfOk result (UnlessFound
        (IfSome worker.new.lasso_search (IsBehind (L.known shared.now).circuit worker.new.property after))) }
{
    sought(alloc, c, after, worker)
}

// Where a lasso worker goes on that found nothing: to its next question, or to its end.
fn deeper(after: u32) -> Phase
    ensures { result ≡ phase_deeper after }
{
    if after == 0 {
        Phase::Deep
    } else {
        Phase::AsksDeeper(after - 1)
    }
}

// Goes on behind a search that found nothing.
fn go_deeper<L: SharedList>(worker: &mut Worker, after: u32, shared: &L)
    requires kept { L.is_kept shared.now }
    requires worker { IsSought (L.known shared.now) after worker.old }
    requires behind { IfSome worker.old.lasso_search (IsBehind (L.known shared.now).circuit worker.old.property after) }
    ensures on { L.goes_on shared.now shared.now }
    ensures turns { Turns 0 (L.known shared.now) worker.old (L.known shared.now) worker.new }
{
    shared.holds();
    worker.phase = deeper(after);
}

// Hands in the lasso, and ends.
fn hand_in<L: SharedList>(worker: &mut Worker, _after: u32, lasso: Lasso, shared: &mut L)
    requires kept { L.is_kept shared.old }
    requires worker { IsSought (L.known shared.old) _after worker.old }
    requires lasso { IsFairLassoOf (L.known shared.old).circuit worker.old.property lasso }
    ensures on { L.goes_on shared.old shared.new }
    ensures turns { Turns 0 (L.known shared.old) worker.old (L.known shared.new) worker.new }
{
    shared.finish(worker.property, Outcome::Lasso(lasso));
    worker.phase = Phase::Closed;
}

// The worker ends, since its conflicts are spent.
fn end_deep<L: SharedList>(worker: &mut Worker, _after: u32, shared: &L)
    requires kept { L.is_kept shared.now }
    requires worker { IsSought (L.known shared.now) _after worker.old }
    requires spent { worker.old.meter.conflict_limit ≡ Some worker.old.meter.conflicts }
    ensures on { L.goes_on shared.now shared.now }
    ensures turns { Turns 0 (L.known shared.now) worker.old (L.known shared.now) worker.new }
{
    shared.holds();
    worker.phase = Phase::Deep;
}

// The worker ends, since memory was refused.
fn end_refused<L: SharedList>(worker: &mut Worker, _after: u32, shared: &L)
    requires kept { L.is_kept shared.now }
    requires worker { IsSought (L.known shared.now) _after worker.old }
    ensures on { L.goes_on shared.now shared.now }
    ensures turns { Turns 0 (L.known shared.now) worker.old (L.known shared.now) worker.new }
{
    shared.holds();
    worker.phase = Phase::Refused;
}

/// Searches for a lasso, and hands it in where it finds one.
pub(crate) fn deepen<L: SharedList>(
    alloc: Global,
    c: &Arc<Circuit>,
    worker: &mut Worker,
    after: u32,
    shared: &mut L,
)
    requires kept { L.is_kept shared.old }
    requires worker { IsWorker (L.known shared.old) worker.old }
    requires circuit { arc_value c.now ≡ (L.known shared.old).circuit }
    requires phase { worker.old.phase ≡ Phase.Deepens after }
    ensures on { L.goes_on shared.old shared.new }
    ensures turns { Turns 0 (L.known shared.old) worker.old (L.known shared.new) worker.new }
{
    match search(alloc, c, after, worker, shared) {
        Ok(Some(lasso)) => hand_in(worker, after, lasso, shared),
        Ok(None) => go_deeper(worker, after, shared),
        Err(SolveEnd::Spent(_)) => end_deep(worker, after, shared),
        Err(SolveEnd::Memory) => end_refused(worker, after, shared),
    }
}
