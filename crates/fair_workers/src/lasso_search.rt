//! What a lasso worker searches with: simulation first, then a solver that is asked for one position more at a time. The
//! main call is `seek`.

ghost use Rattle.std.specs.Prelude.{◌≡◌, ◌+◌, ◌-◌, ◌<◌, ◌≤◌, nat_le, length, IfOk, IfErr, IfSome, OnOk};
ghost use Rattle.aig_semantics.specs.Stimuli.{IsFairLassoOf};
ghost use Rattle.edge.specs.Ends.{CountsConflicts, IsEnd};
ghost use Rattle.lasso_bmc.specs.Searching.{IsSearched};
ghost use Rattle.fair_workers.specs.Ends.{done_in};
ghost use Rattle.fair_workers.specs.Working.{HasDeepened, HasSolver, IsBefore, IsBehind, IsSearchOf, IsUpTo, UnlessFound};

use circuit::{Circuit, Lasso};
use edge::{Meter, SolveEnd};
use lasso_bmc::{Deepening, Searched, deepen};
use simulation::simulate;
use std::alloc::{AllocError, Global};

/// The search of a lasso worker: its number, from which its simulation draws and its solver takes the values that it
/// decides with first; how many positions it asks for at most, and how many are done; and its solver, which it makes when it
/// first asks.
#[derive(Drop)]
pub(crate) struct LassoSearch {
    pub(crate) worker: u32,
    pub(crate) depth: u32,
    pub(crate) done: u32,
    pub(crate) solver: Option<Deepening>,
}

/// How many positions are done, of a lasso worker.
pub(crate) fn done_of(search: &Option<LassoSearch>) -> Option<u32>
    ensures { result ≡ done_in search.now }
{
    match search {
        Some(search) => Some(search.done),
        None => None,
    }
}

// Whether the count of conflicts, or that of steps, equals its limit.
fn is_at_limit(meter: &Meter) -> bool {
    let spent = meter.spending();
    spent.conflict_limit() == Some(spent.conflicts()) || spent.step_limit() == Some(spent.steps())
}

// A fair lasso that simulation shows, or none. Nothing is begun where a count is at its limit.
fn simulated(
    alloc: Global,
    c: &Circuit,
    j: u32,
    worker: u32,
    meter: &Meter,
) -> Result<Option<Lasso>, AllocError>
    ensures { IfOk result (λ found. IfSome found (IsFairLassoOf c.now j)) }
{
    if is_at_limit(meter) {
        return Ok(None);
    }
    let found = simulate(alloc, c, j, worker, meter)?;
    Ok(found.lasso)
}

// The solver, made where there is none yet. It is put back behind its work.
fn taken(
    alloc: Global,
    solver: &mut Option<Deepening>,
    _c: &Circuit,
    _j: u32,
    _done: u32,
    worker: u32,
) -> Result<Deepening, AllocError>
    requires { HasSolver _c.now _j _done solver.old }
    ensures { IfOk result (IsUpTo _c.now _j _done) }
{
    match solver.take() {
        Some(solver) => Ok(solver),
        None => Deepening::new(alloc, worker),
    }
}

// What the solver, which was put back, answers to the question for one position more: a lasso; or there is none, and one
// position more is done.
fn told(
    search: &mut LassoSearch,
    answer: Result<Searched, SolveEnd>,
    _c: &Circuit,
    _j: u32,
    _meter: &Meter,
) -> Result<Option<Lasso>, SolveEnd>
    requires search { IsSearchOf _c.now _j search.old }
    requires more { search.old.done < search.old.depth }
    requires searched { IfOk answer (IsSearched _c.now _j (search.old.done + 1)) }
    requires solver { OnOk answer (HasSolver _c.now _j (search.old.done + 1) search.old.solver) }
    requires end { IfErr answer (IsEnd _meter.now) }
    ensures deepened { HasDeepened _c.now _j search.old search.new result }
    ensures end { IfErr result (IsEnd _meter.now) }
{
    match answer {
        Ok(Searched::Found(lasso)) => Ok(Some(lasso)),
        Ok(Searched::NoneWithin) => {
            search.done += 1;
            Ok(None)
        }
        Err(end) => Err(end),
    }
}

// The question for one position more.
fn deepened(
    alloc: Global,
    c: &Circuit,
    j: u32,
    search: &mut LassoSearch,
    meter: &mut Meter,
) -> Result<Option<Lasso>, SolveEnd>
    requires property { j < length c.now.justice }
    requires solver { HasSolver c.now j search.old.done search.old.solver }
    requires search { IsSearchOf c.now j search.old }
    requires more { search.old.done < search.old.depth }
    ensures deepened { HasDeepened c.now j search.old search.new result }
    ensures end { IfErr result (IsEnd meter.new) }
    ensures counted { CountsConflicts meter.old meter.new }
{
    let mut solver = taken(alloc, &mut search.solver, c, j, search.done, search.worker)?;
    let answer = deepen(alloc, c, j, &mut solver, meter);
    drop(search.solver.replace(solver));
    told(search, answer, c, j, meter)
}

// Whether simulation comes next: then more searches are left than positions that are not done.
fn is_first(search: &LassoSearch, after: u32) -> bool
    requires { search.now.done ≤ search.now.depth }
    ensures { result ≡ nat_le (search.now.depth - search.now.done) after }
{
    search.depth - search.done <= after
}

/// A search of a lasso worker, behind which so many are left: simulation, or the question for one position more. A fair
/// lasso of property `j`, or none. `Spent` comes where the count of conflicts is at its limit.
pub(crate) fn seek(
    alloc: Global,
    c: &Circuit,
    j: u32,
    after: u32,
    search: &mut LassoSearch,
    meter: &mut Meter,
) -> Result<Option<Lasso>, SolveEnd>
    requires property { j < length c.now.justice }
    requires search { IsSearchOf c.now j search.old }
    requires before { IsBefore c.now j after search.old }
    ensures lasso { IfOk result (λ found. IfSome found (IsFairLassoOf c.now j)) }
    ensures end { IfErr result (IsEnd meter.new) }
    ensures counted { CountsConflicts meter.old meter.new }
    ensures depth { search.new.depth ≡ search.old.depth }
    ensures search { IsSearchOf c.now j search.new }
    ensures behind { IfOk result (UnlessFound (IsBehind c.now j after search.new)) }
{
    if is_first(search, after) {
        let found = simulated(alloc, c, j, search.worker, meter)?;
        return Ok(found);
    }
    deepened(alloc, c, j, search, meter)
}
