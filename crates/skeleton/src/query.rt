//! The query. The main type is `Query`.
ghost use Rattle.std.specs.Prelude.{◌≡◌, ◌<◌, ◌^◌, [], length, IfOk, IfErr, IfSome, OnOk};
ghost use Rattle.std.specs.Arc.{arc_value};
ghost use Rattle.edge.specs.Ends.{CountsConflicts, IsEnd};
ghost use Rattle.entry.specs.CheckedEntries.{viewed, GoesOnFrom};
ghost use Rattle.entry.specs.Laws.{IsGoodList};
ghost use Rattle.skeleton.specs.Finding.{IsAllowed, IsFound, IsFirst};
ghost use Rattle.skeleton.specs.Keeping.{IsBegun};

use crate::asking::{find, find_first, find_valued};
use crate::finding::{First, Found, ValueAt};
use crate::known::{Known, catch_up, nothing_known};
use cdcl::FirstValues;
use circuit::Circuit;
use edge::{Meter, SolveEnd};
use entry::Checked;
use fair_semantics::Skeleton;
use std::alloc::{AllocError, Global};
use std::marker::Model;
use std::sync::Arc;

/// A query for the skeletons of one property of a circuit. Contracts see the circuit, the number of the property, and
/// the entries that the query has seen: the next view goes on from these.
#[derive(Drop)]
pub struct Query {
    circuit: Arc<Circuit>,
    property: u32,
    known: Known,
}

impl Model for Query {
    ghost use Rattle.skeleton.specs.Finding.{Asking};
    ghost use Rattle.skeleton.specs.Keeping.{seen_as, IsKept};

    ghost Value = { Asking };

    ghost view = { seen_as };

    ghost invariant = { IsKept };
}

// What the query answers, with the clauses of all entries of the view.
fn next_found(
    alloc: Global,
    c: &Circuit,
    j: u32,
    known: &mut Known,
    view: &[Arc<Checked>],
    meter: &mut Meter,
) -> Result<Found, SolveEnd>
    requires property { j < length c.now.justice }
    requires begun { IsBegun c.now j known.old }
    requires on { GoesOnFrom (viewed known.old.seen) (viewed view.now) }
    requires good { IsGoodList c.now (viewed view.now) }
    requires few { length view.now < 2 ^ 32 }
    ensures found { IfOk result (IsFound c.now j (viewed view.now)) }
    ensures end { IfErr result (IsEnd meter.new) }
    ensures counted { CountsConflicts meter.old meter.new }
    ensures begun { IsBegun c.now j known.new }
    ensures view { OnOk result (viewed known.new.seen ≡ viewed view.now) }
    ensures grows { GoesOnFrom (viewed known.old.seen) (viewed known.new.seen) }
    ensures seen { GoesOnFrom (viewed known.new.seen) (viewed view.now) }
{
    catch_up(alloc, c, j, known, view)?;
    find(
        alloc,
        c,
        j,
        &mut known.solver,
        view,
        known.ends.as_slice(),
        meter,
    )
}

// The same from a state on.
fn next_first(
    alloc: Global,
    c: &Circuit,
    j: u32,
    known: &mut Known,
    view: &[Arc<Checked>],
    state: &[bool],
    meter: &mut Meter,
) -> Result<First, SolveEnd>
    requires property { j < length c.now.justice }
    requires begun { IsBegun c.now j known.old }
    requires on { GoesOnFrom (viewed known.old.seen) (viewed view.now) }
    requires good { IsGoodList c.now (viewed view.now) }
    requires few { length view.now < 2 ^ 32 }
    requires state { length state.now ≡ length c.now.latches }
    ensures first { IfOk result (IsFirst c.now j (viewed view.now) state.now) }
    ensures end { IfErr result (IsEnd meter.new) }
    ensures counted { CountsConflicts meter.old meter.new }
    ensures begun { IsBegun c.now j known.new }
    ensures view { OnOk result (viewed known.new.seen ≡ viewed view.now) }
    ensures grows { GoesOnFrom (viewed known.old.seen) (viewed known.new.seen) }
    ensures seen { GoesOnFrom (viewed known.new.seen) (viewed view.now) }
{
    catch_up(alloc, c, j, known, view)?;
    find_first(alloc, c, j, &mut known.solver, view, state, meter)
}

// The same with values of latches at places.
fn next_valued(
    alloc: Global,
    c: &Circuit,
    j: u32,
    known: &mut Known,
    view: &[Arc<Checked>],
    values: &[ValueAt],
    meter: &mut Meter,
) -> Result<Option<Skeleton>, SolveEnd>
    requires property { j < length c.now.justice }
    requires begun { IsBegun c.now j known.old }
    requires on { GoesOnFrom (viewed known.old.seen) (viewed view.now) }
    requires good { IsGoodList c.now (viewed view.now) }
    requires few { length view.now < 2 ^ 32 }
    ensures found { IfOk result (λ found. IfSome found (IsAllowed c.now j (viewed view.now))) }
    ensures end { IfErr result (IsEnd meter.new) }
    ensures counted { CountsConflicts meter.old meter.new }
    ensures begun { IsBegun c.now j known.new }
    ensures view { OnOk result (viewed known.new.seen ≡ viewed view.now) }
    ensures grows { GoesOnFrom (viewed known.old.seen) (viewed known.new.seen) }
    ensures seen { GoesOnFrom (viewed known.new.seen) (viewed view.now) }
{
    catch_up(alloc, c, j, known, view)?;
    find_valued(alloc, c, j, &mut known.solver, view, values, meter)
}

// The values that a worker's solver decides variables with first: another skeleton for each.
fn first_values(worker: u32) -> FirstValues {
    match worker {
        0 => FirstValues::AllFalse,
        3 => FirstValues::AllTrue,
        _ => FirstValues::Seeded(u64::from(worker)),
    }
}

impl Query {
    /// A query for skeletons of the property with the number `j`, counted from 0. `worker` is the number of whoever
    /// asks; it changes which skeleton is looked for first, of which no clause says anything. The error is want of
    /// memory.
    pub fn new(alloc: Global, c: &Arc<Circuit>, j: u32, worker: u32) -> Result<Query, AllocError>
        requires { j < length (arc_value c.now).justice }
        ensures { IfOk result (λ query. query ≡ record { circuit = arc_value c.now; property = j; seen = [] }) }
    {
        let circuit = Arc::try_clone(c)?;
        let known = nothing_known(alloc, first_values(worker))?;
        Ok(Query {
            circuit,
            property: j,
            known,
        })
    }

    /// A skeleton that all entries of the view allow, or, exactly where there is none, a refutation that is good over
    /// the view; that it uses no entry which it does not need is tried, and no clause says it. `Spent` comes where the
    /// meter's count of conflicts is at its limit. After an error the query can be asked again.
    pub fn next(
        &mut self,
        alloc: Global,
        view: &[Arc<Checked>],
        meter: &mut Meter,
    ) -> Result<Found, SolveEnd>
        requires on { GoesOnFrom self.old.seen (viewed view.now) }
        requires good { IsGoodList self.old.circuit (viewed view.now) }
        requires few { length view.now < 2 ^ 32 }
        ensures found { IfOk result (IsFound self.old.circuit self.old.property (viewed view.now)) }
        ensures end { IfErr result (IsEnd meter.new) }
        ensures counted { CountsConflicts meter.old meter.new }
        ensures circuit { self.new.circuit ≡ self.old.circuit }
        ensures property { self.new.property ≡ self.old.property }
        ensures view { OnOk result (self.new.seen ≡ viewed view.now) }
        ensures grows { GoesOnFrom self.old.seen self.new.seen }
        ensures seen { GoesOnFrom self.new.seen (viewed view.now) }
    {
        next_found(
            alloc,
            &*self.circuit,
            self.property,
            &mut self.known,
            view,
            meter,
        )
    }

    /// A skeleton that all entries of the view allow and that begins in the state, which has a value for each latch;
    /// or, exactly where there is none, a cube that holds the state and in whose states none begins. `Spent` comes
    /// where the meter's count of conflicts is at its limit. After an error the query can be asked again.
    pub fn with_first(
        &mut self,
        alloc: Global,
        view: &[Arc<Checked>],
        state: &[bool],
        meter: &mut Meter,
    ) -> Result<First, SolveEnd>
        requires on { GoesOnFrom self.old.seen (viewed view.now) }
        requires good { IsGoodList self.old.circuit (viewed view.now) }
        requires few { length view.now < 2 ^ 32 }
        requires state { length state.now ≡ length self.old.circuit.latches }
        ensures first { IfOk result (IsFirst self.old.circuit self.old.property (viewed view.now) state.now) }
        ensures end { IfErr result (IsEnd meter.new) }
        ensures counted { CountsConflicts meter.old meter.new }
        ensures circuit { self.new.circuit ≡ self.old.circuit }
        ensures property { self.new.property ≡ self.old.property }
        ensures view { OnOk result (self.new.seen ≡ viewed view.now) }
        ensures grows { GoesOnFrom self.old.seen self.new.seen }
        ensures seen { GoesOnFrom self.new.seen (viewed view.now) }
    {
        next_first(
            alloc,
            &*self.circuit,
            self.property,
            &mut self.known,
            view,
            state,
            meter,
        )
    }

    /// A skeleton that all entries of the view allow, or none, looked for where latches have these values at its places;
    /// that it has them no clause says, nor that there is none. `Spent` comes where the meter's count of conflicts is at
    /// its limit. After an error the query can be asked again.
    pub fn with_values(
        &mut self,
        alloc: Global,
        view: &[Arc<Checked>],
        values: &[ValueAt],
        meter: &mut Meter,
    ) -> Result<Option<Skeleton>, SolveEnd>
        requires on { GoesOnFrom self.old.seen (viewed view.now) }
        requires good { IsGoodList self.old.circuit (viewed view.now) }
        requires few { length view.now < 2 ^ 32 }
        ensures found { IfOk result (λ found. IfSome found (IsAllowed self.old.circuit self.old.property (viewed view.now))) }
        ensures end { IfErr result (IsEnd meter.new) }
        ensures counted { CountsConflicts meter.old meter.new }
        ensures circuit { self.new.circuit ≡ self.old.circuit }
        ensures property { self.new.property ≡ self.old.property }
        ensures view { OnOk result (self.new.seen ≡ viewed view.now) }
        ensures grows { GoesOnFrom self.old.seen self.new.seen }
        ensures seen { GoesOnFrom self.new.seen (viewed view.now) }
    {
        next_valued(
            alloc,
            &*self.circuit,
            self.property,
            &mut self.known,
            view,
            values,
            meter,
        )
    }
}
