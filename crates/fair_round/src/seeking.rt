//! The search for a lasso through a skeleton. The main call is `seek`.

ghost use Rattle.std.specs.Prelude.{◌≡◌, ◌-◌, ◌<◌, ◌↔◌, [], length, slice_index_or, IsTrue, All, IfOk, IfErr, OnOk};
ghost use Rattle.aig_semantics.specs.Circuits.{fair_literals};
ghost use Rattle.aig_semantics.specs.Stimuli.{IsFairLassoOf};
ghost use Rattle.ic3_semantics.specs.Searching.{CountsUpTo};
ghost use Rattle.fair_semantics.specs.Skeletons.{IsSituation, IsSkeleton};
ghost use Rattle.ic3.specs.Searches.{steps_left};
ghost use Rattle.lasso_join.specs.Fitting.{LeadsTo, IsStemTo, Fit};
ghost use Rattle.fair_round.specs.Spending.{IsStop, Asks};
ghost use Rattle.fair_round.specs.Scopes.{IsScope, IsAllowedIn, AsksLoop, AsksRound, asking_of_scope, entries_of};
ghost use Rattle.fair_round.specs.Walks.{AreWalked, IsSoughtIn, skeleton_of, states, successors};
ghost use Rattle.fair_round.specs.Pools.{IsBegun, IsBeginning};
ghost use Rattle.fair_round.specs.Stems.{IsFit};

use crate::invariants::by_invariants;
use crate::latch_walls::{lasting_literals, other_wall, own_wall};
use crate::pool::{Begun, append, append_one};
use crate::rounds::Rounds;
use crate::scope::Scope;
use crate::stopping::Stop;
use crate::walking::{Walked, walk};
use crate::ways::{Bar, Way, closing, literal_stem, stem};
use circuit::{Circuit, Lasso, Position};
use edge::Meter;
use fair_semantics::{Situation, Skeleton};
use ic3::Search;
use items::Items;
use lasso_join::{join, shortest_prefix};
use round_choices::work_of;
use std::alloc::{AllocError, Global};

/// How often a literal is asked for before a state is.
const MOST_QUESTIONS: u32 = 1000;

/// Where a round begins: a skeleton whose first state is reached; or an entry that excludes a skeleton.
#[derive(Drop)]
pub(crate) enum Beginning {
    Begun(Begun),
    Barred(Bar, Skeleton),
}

/// What the search of a skeleton comes to: a fair lasso, or an entry that excludes a skeleton, and that skeleton.
#[derive(Drop)]
pub(crate) enum Sought {
    Lasso(Lasso),
    Barred(Bar, Skeleton),
}

// The lasso of parts that fit, with no position more than it needs.
fn lasso_of(
    alloc: Global,
    c: &Circuit,
    j: u32,
    stem: &[Position],
    skeleton: &Skeleton,
    pieces: &[Items<Position>],
) -> Result<Lasso, AllocError>
    requires skeleton { IsSkeleton c.now j skeleton.now }
    requires fit { Fit c.now stem.now skeleton.now pieces.now }
    ensures { IfOk result (IsFairLassoOf c.now j) }
{
    let whole = join(alloc, c, stem, skeleton, pieces)?;
    shortest_prefix(alloc, c, j, whole)
}

// The lasso of a walk, with the way that closes its loop.
fn joined(
    alloc: Global,
    scope: &Scope<'_>,
    stem: Items<Position>,
    situations: Vec<Situation>,
    pieces: Items<Items<Position>>,
    last: Items<Position>,
) -> Result<Lasso, AllocError>
    requires allowed { IsAllowedIn scope.now (skeleton_of situations.items) }
    requires stem { IsStemTo scope.now.circuit.now (slice_index_or (states situations.items) 0 []) stem }
    requires walked { AreWalked scope.now.circuit.now situations.items (length situations.items - 1) pieces }
    requires closing { LeadsTo scope.now.circuit.now (slice_index_or (successors situations.items) (length situations.items - 1) [])
        (slice_index_or (states situations.items) 0 []) last }
    ensures { IfOk result (IsFairLassoOf scope.now.circuit.now scope.now.property) }
{
    let mut pieces = pieces;
    pieces.push(last)?;
    let skeleton = Skeleton {
        situations: Items::from_vec(situations),
    };
    lasso_of(
        alloc,
        scope.circuit,
        scope.property,
        stem.as_slice(),
        &skeleton,
        pieces.as_slice(),
    )
}

// The barred skeleton.
fn barred(bar: Bar, situations: Vec<Situation>) -> Sought
    ensures { result ≡ Sought.Barred bar (skeleton_of situations.items) }
{
    Sought::Barred(
        bar,
        Skeleton {
            situations: Items::from_vec(situations),
        },
    )
}

// Keeps the run along the pieces: from an initial state to the situation behind the last of them, with its position.
fn keep_run(
    alloc: Global,
    c: &Circuit,
    rounds: &mut Rounds,
    way: Items<Position>,
    situations: &[Situation],
    pieces: &[Items<Position>],
) -> Result<(), AllocError>
    requires circuit { rounds.old.circuit ≡ c.now }
    requires way { IsStemTo c.now (slice_index_or (states situations.now) 0 []) way }
    requires situations { All (IsSituation c.now) situations.now }
    requires some { length pieces.now < length situations.now }
    requires walked { AreWalked c.now situations.now (length pieces.now) pieces.now }
    ensures { rounds.new ≡ rounds.old }
{
    let mut run = way.into_vec();
    for (k, piece) in pieces.iter().enumerate() {
        append_one(alloc, &mut run, &situations[k].position)?;
        append(alloc, &mut run, piece.as_slice())?;
    }
    append_one(alloc, &mut run, &situations[pieces.len()].position)?;
    rounds.keep(c, Items::from_vec(run))
}

// A skeleton whose first state is reached, and the way there: where the pool has none, one that the search for stems gives; or
// an entry that excludes this one.
fn begin(
    alloc: Global,
    scope: &Scope<'_>,
    rounds: &mut Rounds,
    skeleton: Skeleton,
    meter: &mut Meter,
) -> Result<Beginning, Stop>
    requires scope { IsScope scope.now }
    requires seen { rounds.old ≡ asking_of_scope scope.now }
    requires allowed { IsAllowedIn scope.now skeleton }
    ensures beginning { IfOk result (IsBeginning scope.now.circuit.now scope.now.property (entries_of scope.now)) }
    ensures stop { IfErr result (IsStop meter.new) }
    ensures counted { Asks (length scope.now.circuit.now.latches) 1 meter.old meter.new }
    ensures same { rounds.new ≡ rounds.old }
{
    if let Some(begun) = rounds.pooled(alloc, scope, meter)? {
        return Ok(Beginning::Begun(begun));
    }
    let mut search = rounds.take_search(alloc, scope.circuit)?;
    let beginning = begin_by_search(alloc, scope, rounds, &mut search, skeleton, meter)?;
    rounds.put_search(scope.circuit, search);
    Ok(beginning)
}

// The same by the search from the initial states, where the pool has none.
fn begin_by_search(
    alloc: Global,
    scope: &Scope<'_>,
    rounds: &mut Rounds,
    search: &mut Search,
    skeleton: Skeleton,
    meter: &mut Meter,
) -> Result<Beginning, Stop>
    requires scope { IsScope scope.now }
    requires seen { rounds.old ≡ asking_of_scope scope.now }
    requires fit { IsFit scope.now.circuit.now (entries_of scope.now) search.old }
    requires allowed { IsAllowedIn scope.now skeleton }
    ensures beginning { IfOk result (IsBeginning scope.now.circuit.now scope.now.property (entries_of scope.now)) }
    ensures fit { OnOk result (IsFit scope.now.circuit.now (entries_of scope.now) search.new) }
    ensures stop { IfErr result (IsStop meter.new) }
    ensures counted { CountsUpTo (steps_left search.old) meter.old meter.new }
    ensures same { rounds.new ≡ rounds.old }
{
    if rounds.asks_literal() && has_fair_literal(scope.circuit, scope.property) {
        begin_by_literal(alloc, scope, rounds, search, skeleton, meter)
    } else {
        begin_by_state(alloc, scope, search, skeleton, meter)
    }
}

// Whether the property or fairness has a literal.
fn has_fair_literal(c: &Circuit, j: u32) -> bool
    requires { j < length c.now.justice }
    ensures { IsTrue result ↔ (0 < length (fair_literals c.now j)) }
{
    let _limits = c.max();
    !c.property(j as usize).is_empty() || !c.fairness().is_empty()
}

// Asks for positions at which the first literal is true, until a skeleton begins in a state that was reached.
fn begin_by_literal(
    alloc: Global,
    scope: &Scope<'_>,
    rounds: &mut Rounds,
    search: &mut Search,
    skeleton: Skeleton,
    meter: &mut Meter,
) -> Result<Beginning, Stop>
    requires scope { IsScope scope.now }
    requires seen { rounds.old ≡ asking_of_scope scope.now }
    requires fit { IsFit scope.now.circuit.now (entries_of scope.now) search.old }
    requires allowed { IsAllowedIn scope.now skeleton }
    requires some { 0 < length (fair_literals scope.now.circuit.now scope.now.property) }
    ensures beginning { IfOk result (IsBeginning scope.now.circuit.now scope.now.property (entries_of scope.now)) }
    ensures fit { OnOk result (IsFit scope.now.circuit.now (entries_of scope.now) search.new) }
    ensures stop { IfErr result (IsStop meter.new) }
    ensures counted { CountsUpTo (steps_left search.old) meter.old meter.new }
    ensures same { rounds.new ≡ rounds.old }
{
    for _question in 0..MOST_QUESTIONS {
        let situations = skeleton.situations.as_slice();
        let avoid = rounds.avoided();
        match literal_stem(alloc, scope, search, avoid, situations, meter)? {
            Way::Open(run) => rounds.keep(scope.circuit, run)?,
            Way::Barred(bar) => return Ok(Beginning::Barred(bar, skeleton)),
        }
        rounds.charge(true, 1);
        if let Some(begun) = rounds.pooled(alloc, scope, meter)? {
            return Ok(Beginning::Begun(begun));
        }
    }
    begin_by_state(alloc, scope, search, skeleton, meter)
}

// The way to the skeleton's first state, or an entry that excludes it.
fn begin_by_state(
    alloc: Global,
    scope: &Scope<'_>,
    search: &mut Search,
    skeleton: Skeleton,
    meter: &mut Meter,
) -> Result<Beginning, Stop>
    requires scope { IsScope scope.now }
    requires fit { IsFit scope.now.circuit.now (entries_of scope.now) search.old }
    requires allowed { IsAllowedIn scope.now skeleton }
    ensures beginning { IfOk result (IsBeginning scope.now.circuit.now scope.now.property (entries_of scope.now)) }
    ensures fit { OnOk result (IsFit scope.now.circuit.now (entries_of scope.now) search.new) }
    ensures stop { IfErr result (IsStop meter.new) }
    ensures counted { CountsUpTo (steps_left search.old) meter.old meter.new }
{
    let situations = skeleton.situations.as_slice();
    match stem(alloc, scope, search, situations, meter)? {
        Way::Open(way) => Ok(Beginning::Begun(Begun { way, skeleton })),
        Way::Barred(bar) => Ok(Beginning::Barred(bar, skeleton)),
    }
}

/// A fair lasso through a skeleton that the entries allow, or one that begins as it does, or in a state that was reached
/// before; or an entry that excludes one that they allow.
pub(crate) fn seek(
    alloc: Global,
    scope: &Scope<'_>,
    rounds: &mut Rounds,
    skeleton: Skeleton,
    meter: &mut Meter,
) -> Result<Sought, Stop>
    requires scope { IsScope scope.now }
    requires seen { rounds.old ≡ asking_of_scope scope.now }
    requires allowed { IsAllowedIn scope.now skeleton }
    ensures sought { IfOk result (IsSoughtIn scope.now) }
    ensures stop { IfErr result (IsStop meter.new) }
    ensures counted { AsksRound scope.now meter.old meter.new }
    ensures same { rounds.new ≡ rounds.old }
{
    if let Some(sought) = by_invariants(alloc, scope, rounds, meter)? {
        return Ok(sought);
    }
    let situations = skeleton.situations.as_slice();
    let values = lasting_literals(alloc, scope, rounds, situations, meter)?;
    if let Some(bar) = own_wall(alloc, scope, situations, values.as_slice(), meter)? {
        rounds.look_again();
        return Ok(Sought::Barred(bar, skeleton));
    }
    if let Some(sought) = other_wall(alloc, scope, rounds, situations, values.as_slice(), meter)? {
        rounds.look_again();
        return Ok(sought);
    }
    seek_charged(alloc, scope, rounds, skeleton, meter)
}

// The same by a stem, a walk and its close, by the mode that has cost less.
fn seek_charged(
    alloc: Global,
    scope: &Scope<'_>,
    rounds: &mut Rounds,
    skeleton: Skeleton,
    meter: &mut Meter,
) -> Result<Sought, Stop>
    requires scope { IsScope scope.now }
    requires seen { rounds.old ≡ asking_of_scope scope.now }
    requires allowed { IsAllowedIn scope.now skeleton }
    ensures sought { IfOk result (IsSoughtIn scope.now) }
    ensures stop { IfErr result (IsStop meter.new) }
    ensures counted { AsksRound scope.now meter.old meter.new }
    ensures same { rounds.new ≡ rounds.old }
{
    let literal = rounds.asks_literal();
    let before = work_of(meter);
    let sought = match begin(alloc, scope, rounds, skeleton, meter)? {
        Beginning::Begun(begun) => seek_from(alloc, scope, rounds, begun, meter)?,
        Beginning::Barred(bar, skeleton) => Sought::Barred(bar, skeleton),
    };
    let cost = work_of(meter).saturating_sub(before).saturating_add(1);
    rounds.charge(literal, cost);
    Ok(sought)
}

// The same for a skeleton whose first state is reached. The states that are reached go into the pool.
fn seek_from(
    alloc: Global,
    scope: &Scope<'_>,
    rounds: &mut Rounds,
    begun: Begun,
    meter: &mut Meter,
) -> Result<Sought, Stop>
    requires scope { IsScope scope.now }
    requires circuit { rounds.old.circuit ≡ scope.now.circuit.now }
    requires begun { IsBegun scope.now.circuit.now scope.now.property (entries_of scope.now) begun }
    ensures sought { IfOk result (IsSoughtIn scope.now) }
    ensures stop { IfErr result (IsStop meter.new) }
    ensures counted { AsksLoop scope.now meter.old meter.new }
    ensures same { rounds.new ≡ rounds.old }
{
    let Begun { way, skeleton } = begun;
    let mut situations = skeleton.situations.into_vec();
    match walk(alloc, scope, &mut situations, meter)? {
        Walked::Pieces(pieces) => close_loop(alloc, scope, rounds, way, situations, pieces, meter),
        Walked::Barred(bar, pieces) => {
            keep_run(
                alloc,
                scope.circuit,
                rounds,
                way,
                situations.as_slice(),
                pieces.as_slice(),
            )?;
            Ok(barred(bar, situations))
        }
    }
}

// Closes the loop behind a walk.
fn close_loop(
    alloc: Global,
    scope: &Scope<'_>,
    rounds: &mut Rounds,
    begun: Items<Position>,
    situations: Vec<Situation>,
    pieces: Items<Items<Position>>,
    meter: &mut Meter,
) -> Result<Sought, Stop>
    requires scope { IsScope scope.now }
    requires circuit { rounds.old.circuit ≡ scope.now.circuit.now }
    requires allowed { IsAllowedIn scope.now (skeleton_of situations.items) }
    requires begun { IsStemTo scope.now.circuit.now (slice_index_or (states situations.items) 0 []) begun }
    requires walked { AreWalked scope.now.circuit.now situations.items (length situations.items - 1) pieces }
    ensures sought { IfOk result (IsSoughtIn scope.now) }
    ensures stop { IfErr result (IsStop meter.new) }
    ensures counted { Asks (length scope.now.circuit.now.latches) 1 meter.old meter.new }
    ensures same { rounds.new ≡ rounds.old }
{
    match closing(alloc, scope, situations.as_slice(), meter)? {
        Way::Open(last) => {
            let lasso = joined(alloc, scope, begun, situations, pieces, last)?;
            Ok(Sought::Lasso(lasso))
        }
        Way::Barred(bar) => {
            keep_run(
                alloc,
                scope.circuit,
                rounds,
                begun,
                situations.as_slice(),
                pieces.as_slice(),
            )?;
            Ok(barred(bar, situations))
        }
    }
}
