//! Invariants of one latch and of two, as an entry. The main call is `by_invariants`.

ghost use Rattle.std.specs.Prelude.{◌≡◌, ◌<◌, true, length, IfOk, IfErr, IfSome};
ghost use Rattle.edge.specs.Ends.{CountsConflicts};
ghost use Rattle.ic3_semantics.specs.declared.questions.Start.TheVariants.{Initial};
ghost use Rattle.ic3_semantics.specs.Searching.{IsGoal, Separates, closed_entry};
ghost use Rattle.fair_round.specs.Spending.{IsStop};
ghost use Rattle.fair_round.specs.Scopes.{IsScope, asking_of_scope, entries_of};
ghost use Rattle.fair_round.specs.Pools.{IsBegunIn};
ghost use Rattle.fair_round.specs.Stems.{question_of};
ghost use Rattle.fair_round.specs.Walks.{IsSoughtIn};

use crate::rounds::Rounds;
use crate::scope::Scope;
use crate::seeking::Sought;
use crate::stopping::{Stop, solver_stop};
use crate::ways::Bar;
use circuit::Circuit;
use cnf::Clause;
use edge::Meter;
use entry::{Checked, Origin};
use fair_semantics::{Kind, Skeleton};
use ic3::Goal;
use ic3_closing::{ClosedSet, separates};
use invariant_clauses::inductive_clauses;
use items::Items;
use round_choices::{breaking_state, is_at_limit};
use simulation::DrawnStates;
use std::alloc::{AllocError, Global};
use std::sync::Arc;

/// What invariants come of: the states of drawn runs; then the clauses that these suggest, and behind how many entries they
/// were made an entry.
#[derive(Drop)]
pub(crate) enum Hints {
    States(DrawnStates),
    Clauses(Items<Clause>, usize),
}

// Clauses that the states of runs suggest.
fn inductive(
    alloc: Global,
    c: &Circuit,
    states: &DrawnStates,
    meter: &mut Meter,
) -> Result<Items<Clause>, Stop>
    ensures stop { IfErr result (IsStop meter.new) }
    ensures counted { CountsConflicts meter.old meter.new }
{
    match inductive_clauses(alloc, c, &states.latches, &states.words, meter) {
        Ok(clauses) => Ok(clauses),
        Err(end) => Err(solver_stop(end, meter)),
    }
}

// Whether the worker has found one of the entries behind the first ones.
fn has_appended(view: &[Arc<Checked>], before: usize, worker: u32) -> bool {
    for (k, entry) in view.iter().enumerate() {
        if let Origin::Worker(work) = entry.origin() {
            if k >= before && work.author == worker {
                return true;
            }
        }
    }
    false
}

/// Clauses to be tried as invariants: those that the states suggest, and again while no entry of the worker stands behind
/// those that they were handed in behind. A worker in three has none, nor one whose count is at its limit.
pub(crate) fn suggested(
    alloc: Global,
    scope: &Scope<'_>,
    worker: u32,
    hints: Hints,
    meter: &mut Meter,
) -> Result<Items<Clause>, Stop>
    ensures stop { IfErr result (IsStop meter.new) }
    ensures counted { CountsConflicts meter.old meter.new }
{
    if worker % 3 == 1 || is_at_limit(meter) {
        return Ok(Items::new(alloc));
    }
    match hints {
        Hints::States(states) => inductive(alloc, scope.circuit, &states, meter),
        Hints::Clauses(clauses, before) => {
            if has_appended(scope.view, before, worker) {
                return Ok(Items::new(alloc));
            }
            Ok(clauses)
        }
    }
}

fn copies(alloc: Global, clauses: &[Clause]) -> Result<Items<Clause>, AllocError> {
    let mut copies = Items::new(alloc);
    for clause in clauses {
        copies.push(clause.clone()?)?;
    }
    Ok(copies)
}

// The first state of a skeleton that breaks a clause, if one is found.
fn state_asked(
    alloc: Global,
    scope: &Scope<'_>,
    clauses: &[Clause],
    meter: &mut Meter,
) -> Result<Option<Items<bool>>, Stop>
    requires scope { IsScope scope.now }
    requires property { scope.now.property < length scope.now.circuit.now.justice }
    ensures stop { IfErr result (IsStop meter.new) }
    ensures counted { CountsConflicts meter.old meter.new }
{
    match breaking_state(
        alloc,
        scope.circuit,
        scope.property,
        scope.view,
        clauses,
        meter,
    ) {
        Ok(state) => Ok(state),
        Err(end) => Err(solver_stop(end, meter)),
    }
}

// Whether the set is seen to be an entry that separates the initial states from the goal.
fn separated(
    alloc: Global,
    scope: &Scope<'_>,
    goal: &Goal<'_>,
    set: &ClosedSet,
    meter: &mut Meter,
) -> Result<bool, Stop>
    requires scope { IsScope scope.now }
    requires goal { IsGoal scope.now.circuit.now goal.now }
    ensures separates { IfOk result (λ b. b ≡ true
        → Separates (question_of scope.now Initial) goal.now (closed_entry Initial set.now.clauses set.now.uses)) }
    ensures stop { IfErr result (IsStop meter.new) }
    ensures counted { CountsConflicts meter.old meter.new }
{
    match separates(alloc, scope.circuit, scope.view, goal, set, meter) {
        Ok(is_separate) => Ok(is_separate),
        Err(end) => Err(solver_stop(end, meter)),
    }
}

// The entry of the clauses, where it excludes a skeleton whose first state is this one.
fn judged(
    alloc: Global,
    scope: &Scope<'_>,
    skeleton: Skeleton,
    state: &[bool],
    clauses: Items<Clause>,
    meter: &mut Meter,
) -> Result<Option<Sought>, Stop>
    requires scope { IsScope scope.now }
    requires state { length state.now ≡ length scope.now.circuit.now.latches }
    requires begun { IsBegunIn scope.now.circuit.now scope.now.property (entries_of scope.now) state.now skeleton }
    ensures sought { IfOk result (λ found. IfSome found (IsSoughtIn scope.now)) }
    ensures stop { IfErr result (IsStop meter.new) }
    ensures counted { CountsConflicts meter.old meter.new }
{
    let uses = Items::new(alloc);
    let set = ClosedSet { clauses, uses };
    let goal = Goal::State(state);
    if !separated(alloc, scope, &goal, &set, meter)? {
        return Ok(None);
    }
    let ClosedSet { clauses, uses } = set;
    let bar = Bar {
        kind: Kind::Reach,
        clauses,
        uses,
    };
    Ok(Some(Sought::Barred(bar, skeleton)))
}

// The entry of the clauses, where it excludes a skeleton that begins in this state.
fn excluding(
    alloc: Global,
    scope: &Scope<'_>,
    rounds: &mut Rounds,
    state: &[bool],
    clauses: Items<Clause>,
    meter: &mut Meter,
) -> Result<Option<Sought>, Stop>
    requires scope { IsScope scope.now }
    requires seen { rounds.old ≡ asking_of_scope scope.now }
    ensures sought { IfOk result (λ found. IfSome found (IsSoughtIn scope.now)) }
    ensures stop { IfErr result (IsStop meter.new) }
    ensures counted { CountsConflicts meter.old meter.new }
    ensures same { rounds.new ≡ rounds.old }
{
    if state.len() != scope.circuit.latches().len() {
        return Ok(None);
    }
    match rounds.begun_in(alloc, scope, state, meter)? {
        Some(skeleton) => judged(alloc, scope, skeleton, state, clauses, meter),
        None => Ok(None),
    }
}

/// In the round behind simulation: an entry of invariants that the states of its runs suggest, and a skeleton that it
/// excludes. None where there are none, or where no skeleton is found that they exclude. Where the entry was not appended,
/// the next round looks for another skeleton that they exclude.
pub(crate) fn by_invariants(
    alloc: Global,
    scope: &Scope<'_>,
    rounds: &mut Rounds,
    meter: &mut Meter,
) -> Result<Option<Sought>, Stop>
    requires scope { IsScope scope.now }
    requires property { scope.now.property < length scope.now.circuit.now.justice }
    requires seen { rounds.old ≡ asking_of_scope scope.now }
    ensures sought { IfOk result (λ found. IfSome found (IsSoughtIn scope.now)) }
    ensures stop { IfErr result (IsStop meter.new) }
    ensures counted { CountsConflicts meter.old meter.new }
    ensures same { rounds.new ≡ rounds.old }
{
    let clauses = rounds.take_invariants(alloc, scope, meter)?;
    if clauses.is_empty() {
        return Ok(None);
    }
    match state_asked(alloc, scope, clauses.as_slice(), meter)? {
        Some(state) => {
            rounds.put_invariants(copies(alloc, clauses.as_slice())?, scope.view.len());
            excluding(alloc, scope, rounds, state.as_slice(), clauses, meter)
        }
        None => Ok(None),
    }
}
