//! A worker's turn over any shared list. The main call is `take_turn`: the work up to the next event of the list, and that
//! event, or a lasso worker's search that finds nothing.

ghost use Rattle.std.specs.Prelude.{◌≡◌, true};
ghost use Rattle.std.specs.Arc.{arc_value};
ghost use Rattle.fair_workers.specs.Working.{is_running, IsWorker, Turns};

use crate::racing::{ask_deeper, deepen};
use crate::working::{Phase, Worker, ask, ask_last, look, look_last, search, search_last};
use circuit::Circuit;
use shared_lists::SharedList;
use std::alloc::Global;
use std::sync::Arc;

/// A turn of a worker that has not ended: what it does up to its next event of the list, and that event; or a lasso worker's
/// search that finds nothing. Where memory is refused, the worker ends.
pub(crate) fn take_turn<L: SharedList>(
    alloc: Global,
    c: &Arc<Circuit>,
    properties: &[u32],
    worker: &mut Worker,
    shared: &mut L,
)
    requires kept { L.is_kept shared.old }
    requires worker { IsWorker (L.known shared.old) worker.old }
    requires circuit { arc_value c.now ≡ (L.known shared.old).circuit }
    requires properties { properties.now ≡ (L.known shared.old).properties }
    requires running { is_running worker.old.phase ≡ true }
    ensures on { L.goes_on shared.old shared.new }
    ensures turns { Turns 0 (L.known shared.old) worker.old (L.known shared.new) worker.new }
{
    match worker.phase {
        Phase::Asks => ask(worker, shared),
        Phase::Looks => look(worker, shared),
        Phase::Searches => search(alloc, c, properties, worker, shared),
        Phase::AsksLast(from) => ask_last(worker, from, shared),
        Phase::LooksLast => look_last(worker, shared),
        Phase::SearchesLast => search_last(alloc, c, properties, worker, shared),
        Phase::AsksDeeper(after) => ask_deeper(worker, after, shared),
        Phase::Deepens(after) => deepen(alloc, c, worker, after, shared),
        Phase::Closed | Phase::Full | Phase::Spent | Phase::Deep | Phase::Refused => unreachable!(),
    }
}
