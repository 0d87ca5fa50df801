//! Questions to the solver, and what their answers mean. The main calls are `find`, `find_first` and
//! `find_valued`.
ghost use Rattle.std.specs.Prelude.{◌≡◌, ◌<◌, ◌^◌, [], length, IfOk, IfErr, IfSome};
ghost use Rattle.edge.specs.Ends.{CountsConflicts, IsEnd};
ghost use Rattle.cdcl.specs.Asking.{IsAsked};
ghost use Rattle.cdcl.specs.Refuting.{IsRefuted};
ghost use Rattle.fair_semantics.specs.Entries.{numbered};
ghost use Rattle.cnf_unroll.specs.Numbers.{state_place};
ghost use Rattle.cnf_unroll.specs.Obligations.{skeleton_clauses};
ghost use Rattle.entry.specs.CheckedEntries.{viewed};
ghost use Rattle.entry.specs.Laws.{IsGoodList};
ghost use Rattle.skeleton.specs.Finding.{IsAllowed, IsFound, IsFirst};
ghost use Rattle.skeleton.specs.Reading.{state_literals, uses_from};

use crate::finding::{First, Found, ValueAt};
use crate::lessening::lessened;
use crate::reading::skeleton_in;
use crate::states::{core_cube, state_literals};
use cdcl::{Asked, Refuted, Solver};
use circuit::{Circuit, one_valuation};
use cnf::Lit;
use edge::{Meter, SolveEnd};
use entry::{Checked, Refutation};
use fair_semantics::{Side, Skeleton, Use};
use items::Items;
use std::alloc::{AllocError, Global};
use std::sync::Arc;

// Every entry of the view, without a side.
fn uses_of(alloc: Global, view: &[Arc<Checked>]) -> Result<Items<Use>, AllocError>
    requires { length view.now < 2 ^ 32 }
    ensures { IfOk result (λ uses. uses ≡ uses_from 0 (viewed view.now)) }
{
    let mut uses = Items::new(alloc);
    for (number, _shared) in view.iter().enumerate() {
        uses.push(Use {
            entry: number as u32,
            side: Side::Any,
        })?;
    }
    Ok(uses)
}

fn found_of(
    alloc: Global,
    c: &Circuit,
    j: u32,
    solver: &Solver,
    view: &[Arc<Checked>],
    answer: Refuted,
) -> Result<Found, AllocError>
    requires property { j < length c.now.justice }
    requires good { IsGoodList c.now (viewed view.now) }
    requires few { length view.now < 2 ^ 32 }
    requires answer { IsRefuted (skeleton_clauses c.now j (numbered (viewed view.now))) [] solver.now.values answer }
    ensures { IfOk result (IsFound c.now j (viewed view.now)) }
{
    let _limits = c.max();
    one_valuation(c);
    match answer {
        Refuted::Sat => Ok(Found::Skeleton(skeleton_in(alloc, c, j, solver)?)),
        Refuted::Unsat(proof) => Ok(Found::Refuted(Refutation {
            uses: uses_of(alloc, view)?,
            proof,
        })),
    }
}

// What was found, with a refutation of fewer uses where there is one.
fn with_fewer_uses(
    alloc: Global,
    c: &Circuit,
    j: u32,
    view: &[Arc<Checked>],
    ends: &[u64],
    found: Found,
    meter: &mut Meter,
) -> Found
    requires property { j < length c.now.justice }
    requires few { length view.now < 2 ^ 32 }
    requires found { IsFound c.now j (viewed view.now) found }
    ensures found { IsFound c.now j (viewed view.now) result }
    ensures counted { CountsConflicts meter.old meter.new }
{
    match found {
        Found::Refuted(given) => Found::Refuted(lessened(alloc, c, j, view, ends, given, meter)),
        Found::Skeleton(s) => Found::Skeleton(s),
    }
}

/// A skeleton that the entries of the view allow, whose clauses the solver has, or a refutation. Where these end is told
/// beside.
pub(crate) fn find(
    alloc: Global,
    c: &Circuit,
    j: u32,
    solver: &mut Solver,
    view: &[Arc<Checked>],
    ends: &[u64],
    meter: &mut Meter,
) -> Result<Found, SolveEnd>
    requires property { j < length c.now.justice }
    requires good { IsGoodList c.now (viewed view.now) }
    requires few { length view.now < 2 ^ 32 }
    requires built { solver.old.added ≡ skeleton_clauses c.now j (numbered (viewed view.now)) }
    ensures found { IfOk result (IsFound c.now j (viewed view.now)) }
    ensures added { solver.new.added ≡ solver.old.added }
    ensures end { IfErr result (IsEnd meter.new) }
    ensures counted { CountsConflicts meter.old meter.new }
{
    let answer = solver.refute(alloc, &[], meter)?;
    let found = found_of(alloc, c, j, solver, view, answer)?;
    Ok(with_fewer_uses(alloc, c, j, view, ends, found, meter))
}

fn first_of(
    alloc: Global,
    c: &Circuit,
    j: u32,
    solver: &Solver,
    view: &[Arc<Checked>],
    state: &[bool],
    assumptions: &[Lit],
    answer: Asked,
) -> Result<First, AllocError>
    requires property { j < length c.now.justice }
    requires good { IsGoodList c.now (viewed view.now) }
    requires state { length state.now ≡ length c.now.latches }
    requires assumptions { assumptions.now ≡ state_literals (state_place c.now 0) state.now }
    requires answer { IsAsked (skeleton_clauses c.now j (numbered (viewed view.now))) assumptions.now solver.now.values answer }
    ensures { IfOk result (IsFirst c.now j (viewed view.now) state.now) }
{
    let _limits = c.max();
    one_valuation(c);
    match answer {
        Asked::Sat => Ok(First::Skeleton(skeleton_in(alloc, c, j, solver)?)),
        Asked::Unsat(core) => Ok(First::Never(core_cube(alloc, assumptions, core.as_slice())?)),
    }
}

/// A skeleton that the entries of the view allow and that begins in the state, or a cube of states in which none does.
pub(crate) fn find_first(
    alloc: Global,
    c: &Circuit,
    j: u32,
    solver: &mut Solver,
    view: &[Arc<Checked>],
    state: &[bool],
    meter: &mut Meter,
) -> Result<First, SolveEnd>
    requires property { j < length c.now.justice }
    requires good { IsGoodList c.now (viewed view.now) }
    requires state { length state.now ≡ length c.now.latches }
    requires built { solver.old.added ≡ skeleton_clauses c.now j (numbered (viewed view.now)) }
    ensures first { IfOk result (IsFirst c.now j (viewed view.now) state.now) }
    ensures added { solver.new.added ≡ solver.old.added }
    ensures end { IfErr result (IsEnd meter.new) }
    ensures counted { CountsConflicts meter.old meter.new }
{
    let assumptions = state_literals(alloc, c, state)?;
    let answer = solver.ask(alloc, assumptions.as_slice(), meter)?;
    Ok(first_of(
        alloc,
        c,
        j,
        solver,
        view,
        state,
        assumptions.as_slice(),
        answer,
    )?)
}

// The literals of values of latches at places, over the numbers of the blocks.
fn literals_at(alloc: Global, c: &Circuit, values: &[ValueAt]) -> Result<Items<Lit>, AllocError> {
    let size = c.max().saturating_mul(2).saturating_add(2);
    let mut literals = Items::new(alloc);
    for at in values {
        if let Some(latch) = c.latches().get(at.latch) {
            let base = at.situation.saturating_mul(size).saturating_add(latch.var);
            let behind = if at.after {
                c.max().saturating_add(2)
            } else {
                1
            };
            literals.push(Lit {
                var: base.saturating_add(behind),
                positive: at.value,
            })?;
        }
    }
    Ok(literals)
}

fn valued_of(
    alloc: Global,
    c: &Circuit,
    j: u32,
    solver: &Solver,
    view: &[Arc<Checked>],
    assumptions: &[Lit],
    answer: Asked,
) -> Result<Option<Skeleton>, AllocError>
    requires property { j < length c.now.justice }
    requires good { IsGoodList c.now (viewed view.now) }
    requires answer { IsAsked (skeleton_clauses c.now j (numbered (viewed view.now))) assumptions.now solver.now.values answer }
    ensures { IfOk result (λ found. IfSome found (IsAllowed c.now j (viewed view.now))) }
{
    let _limits = c.max();
    one_valuation(c);
    match answer {
        Asked::Sat => Ok(Some(skeleton_in(alloc, c, j, solver)?)),
        Asked::Unsat(_core) => Ok(None),
    }
}

/// A skeleton that the entries of the view allow, looked for where latches have these values at its places.
pub(crate) fn find_valued(
    alloc: Global,
    c: &Circuit,
    j: u32,
    solver: &mut Solver,
    view: &[Arc<Checked>],
    values: &[ValueAt],
    meter: &mut Meter,
) -> Result<Option<Skeleton>, SolveEnd>
    requires property { j < length c.now.justice }
    requires good { IsGoodList c.now (viewed view.now) }
    requires built { solver.old.added ≡ skeleton_clauses c.now j (numbered (viewed view.now)) }
    ensures found { IfOk result (λ found. IfSome found (IsAllowed c.now j (viewed view.now))) }
    ensures added { solver.new.added ≡ solver.old.added }
    ensures end { IfErr result (IsEnd meter.new) }
    ensures counted { CountsConflicts meter.old meter.new }
{
    let assumptions = literals_at(alloc, c, values)?;
    let answer = solver.ask(alloc, assumptions.as_slice(), meter)?;
    Ok(valued_of(alloc, c, j, solver, view, assumptions.as_slice(), answer)?)
}
