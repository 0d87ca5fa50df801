//! What a worker does next, decided over the entries that it has seen alone. The main call is `decide`.

ghost use Rattle.std.specs.Prelude.{◌≡◌, ◌+◌, ◌^◌, ◌<◌, max, length, IfOk, IfErr};
ghost use Rattle.std.specs.Arc.{arc_value};
ghost use Rattle.aig_semantics.specs.Circuits.{fair_literals};
ghost use Rattle.edge.specs.Ends.{CountsConflicts};
ghost use Rattle.entry.specs.CheckedEntries.{viewed, GoesOnFrom};
ghost use Rattle.entry.specs.Laws.{IsGoodList};
ghost use Rattle.fair_round.specs.Spending.{IsStop, Asks};
ghost use Rattle.fair_round.specs.Scopes.{IsScope, IsAllowedIn, IsQueryOf, AsksRound, asking_of_scope, entries_of};
ghost use Rattle.fair_round.specs.Walks.{Excludes, entry_of_bar};
ghost use Rattle.fair_round.specs.Deeds.{IsDeed, IsPosting};

use crate::rounds::Rounds;
use crate::scope::Scope;
use crate::seeking::{Sought, seek};
use crate::stopping::{Stop, solver_stop};
use crate::ways::Bar;
use certify::{Claim, certify};
use circuit::Circuit;
use edge::Meter;
use entry::Checked;
use fair_semantics::Skeleton;
use skeleton::Found;
use std::alloc::Global;
use std::sync::Arc;
use wall_store::Outcome;

/// What a worker does with the list.
#[derive(Drop)]
pub enum Deed {
    /// It posts an entry.
    Post(Checked),
    /// It hands in an outcome.
    Finish(Outcome),
}

/// Who posts, and in which of its turns.
#[derive(Clone, Copy)]
pub struct Author {
    pub number: u32,
    pub turn: u32,
}

// The entry that excludes the skeleton, with its proofs.
fn certified(
    alloc: Global,
    c: &Arc<Circuit>,
    scope: &Scope<'_>,
    bar: Bar,
    skeleton: Skeleton,
    author: Author,
    meter: &mut Meter,
) -> Result<Checked, Stop>
    requires circuit { scope.now.circuit.now ≡ arc_value c.now }
    requires scope { IsScope scope.now }
    requires allowed { IsAllowedIn scope.now skeleton }
    requires excludes { Excludes scope.now.circuit.now (entries_of scope.now) (entry_of_bar bar) skeleton }
    ensures posting { IfOk result
        (IsPosting scope.now.circuit.now (entries_of scope.now) scope.now.property author.number author.turn) }
    ensures stop { IfErr result (IsStop meter.new) }
    ensures counted { CountsConflicts meter.old meter.new }
{
    let claim = Claim {
        kind: bar.kind,
        clauses: bar.clauses,
        uses: bar.uses,
        author: author.number,
        turn: author.turn,
        skeleton,
    };
    match certify(alloc, c, scope.view, claim, meter) {
        Ok(entry) => Ok(entry),
        Err(end) => Err(solver_stop(end, meter)),
    }
}

/// A round: an entry that excludes a skeleton which the view allows, or an outcome of property `j`: a fair lasso, or the
/// refutation of all skeletons. `rounds` is what the worker keeps from round to round, and `view` what it has seen. It
/// counts at most the steps of a search for each situation of a skeleton, and of one more. The first round begins with
/// simulation, where neither count is at its limit; simulation counts nothing. Behind it, and before each round, worker 0 and
/// each third one asks for lassos of the property's cone with few positions, which counts conflicts.
pub fn decide(
    alloc: Global,
    c: &Arc<Circuit>,
    j: u32,
    view: &[Arc<Checked>],
    rounds: &mut Rounds,
    author: Author,
    meter: &mut Meter,
) -> Result<Deed, Stop>
    requires circuit { rounds.old.circuit ≡ arc_value c.now }
    requires property { rounds.old.property ≡ j }
    requires on { GoesOnFrom rounds.old.seen (viewed view.now) }
    requires good { IsGoodList (arc_value c.now) (viewed view.now) }
    requires few { length view.now < 2 ^ 32 }
    ensures deed { IfOk result (IsDeed (arc_value c.now) (viewed view.now) j author.number author.turn) }
    ensures stop { IfErr result (IsStop meter.new) }
    ensures counted { Asks (length (arc_value c.now).latches) (max 1 (length (fair_literals (arc_value c.now) j)) + 1) meter.old
        meter.new }
    ensures circuit { rounds.new.circuit ≡ rounds.old.circuit }
    ensures property { rounds.new.property ≡ rounds.old.property }
    ensures seen { GoesOnFrom rounds.new.seen (viewed view.now) }
{
    if let Some(lasso) = rounds.simulate(alloc, c, j, meter)? {
        return Ok(Deed::Finish(Outcome::Lasso(lasso)));
    }
    if let Some(lasso) = rounds.deepen(alloc, c, j, meter)? {
        return Ok(Deed::Finish(Outcome::Lasso(lasso)));
    }
    let scope = Scope {
        circuit: &**c,
        property: j,
        view,
    };
    decided(alloc, c, &scope, rounds, author, meter)
}

// The same by a skeleton that the entries allow.
fn decided(
    alloc: Global,
    c: &Arc<Circuit>,
    scope: &Scope<'_>,
    rounds: &mut Rounds,
    author: Author,
    meter: &mut Meter,
) -> Result<Deed, Stop>
    requires circuit { scope.now.circuit.now ≡ arc_value c.now }
    requires scope { IsScope scope.now }
    requires query { IsQueryOf scope.now rounds.old }
    ensures deed { IfOk result
        (IsDeed scope.now.circuit.now (entries_of scope.now) scope.now.property author.number author.turn) }
    ensures stop { IfErr result (IsStop meter.new) }
    ensures counted { AsksRound scope.now meter.old meter.new }
    ensures query { IsQueryOf scope.now rounds.new }
{
    match rounds.next(alloc, scope.view, meter)? {
        Found::Skeleton(skeleton) => deed_for(alloc, c, scope, rounds, skeleton, author, meter),
        Found::Refuted(refutation) => Ok(Deed::Finish(Outcome::Holds(refutation))),
    }
}

// What a skeleton comes to.
fn deed_for(
    alloc: Global,
    c: &Arc<Circuit>,
    scope: &Scope<'_>,
    rounds: &mut Rounds,
    skeleton: Skeleton,
    author: Author,
    meter: &mut Meter,
) -> Result<Deed, Stop>
    requires circuit { scope.now.circuit.now ≡ arc_value c.now }
    requires scope { IsScope scope.now }
    requires seen { rounds.old ≡ asking_of_scope scope.now }
    requires allowed { IsAllowedIn scope.now skeleton }
    ensures deed { IfOk result
        (IsDeed scope.now.circuit.now (entries_of scope.now) scope.now.property author.number author.turn) }
    ensures stop { IfErr result (IsStop meter.new) }
    ensures counted { AsksRound scope.now meter.old meter.new }
    ensures same { rounds.new ≡ rounds.old }
{
    match seek(alloc, scope, rounds, skeleton, meter)? {
        Sought::Lasso(lasso) => Ok(Deed::Finish(Outcome::Lasso(lasso))),
        Sought::Barred(bar, skeleton) => {
            let entry = certified(alloc, c, scope, bar, skeleton, author, meter)?;
            Ok(Deed::Post(entry))
        }
    }
}
