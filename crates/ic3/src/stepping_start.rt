//! How the solver of a search begins. The main call is `questions_of`.
ghost use Rattle.std.specs.Prelude.{◌≡◌, [], length, map, IfOk, OnOk};
ghost use Rattle.cnf_unroll.specs.Laws.{AreOver};
ghost use Rattle.entry.specs.CheckedEntries.{viewed};
ghost use Rattle.entry.specs.Laws.{IsGoodList};
ghost use Rattle.ic3_semantics.specs.Stepping.{no_lemmas};
ghost use Rattle.ic3_questions.specs.SteppingClauses.{base_clauses, first_guard, guarded, denied_at};
ghost use Rattle.ic3.specs.SteppingInside.{IsHeldBy};
ghost use Rattle.ic3.specs.SteppingStart.{HasBegun};

use crate::cone::{Cone, meet_entries};
use crate::stepping_clauses::add_denials;
use crate::stepping_questions::{Questions, question_guard};
use cdcl::Solver;
use circuit::{Circuit, one_valuation};
use cnf::{Cube, Db};
use cnf_unroll::{Begun, Used, shared};
use entry::Checked;
use ic3_questions::{own_uses, state_place, successor_place, used};
use ic3_semantics::Start;
use items::Items;
use std::alloc::{AllocError, Global};
use std::sync::Arc;

/// The clauses of the block under the entries that restrict the steps, on the start's sides.
pub(crate) fn base(
    alloc: Global,
    c: &Circuit,
    view: &[Arc<Checked>],
    start: &Start,
) -> Result<Begun, AllocError>
    ensures clauses { IfOk result (λ begun. begun.clauses.clauses ≡ base_clauses (record {
      circuit = c.now;
      view = viewed view.now;
      start = start.now;
    })) }
    ensures free { IfOk result (λ begun. begun.free ≡ first_guard (record {
      circuit = c.now;
      view = viewed view.now;
      start = start.now;
    })) }
{
    let used = used(alloc, view, start)?;
    let own = own_uses(alloc, view, start)?;
    let none = Items::new(alloc);
    shared(alloc, c, used.as_slice(), own.as_slice(), &none)
}

// Puts the clauses into a solver that constraints and entries stand on; behind them those that deny the avoided cubes.
fn fill(
    alloc: Global,
    c: &Circuit,
    base: &Db,
    cone: &mut Cone,
    used: &[Used<'_>],
    guard: u64,
    here: &[u64],
    avoid: &[Cube],
    solver: &mut Solver,
) -> Result<(), AllocError>
    requires { solver.old.added ≡ [] }
    ensures { OnOk result (HasBegun base.now.clauses
        (map (λ cube. guarded guard (denied_at here.now cube)) avoid.now) solver.new.added) }
{
    meet_entries(c, base, cone, solver, used)?;
    add_denials(alloc, solver, guard, here, avoid)?;
    Ok(())
}

// A solver with these clauses.
fn filled(
    alloc: Global,
    c: &Circuit,
    base: &Db,
    cone: &mut Cone,
    used: &[Used<'_>],
    guard: u64,
    here: &[u64],
    avoid: &[Cube],
) -> Result<Solver, AllocError>
    ensures { IfOk result (λ solver. HasBegun base.now.clauses
        (map (λ cube. guarded guard (denied_at here.now cube)) avoid.now) solver.added) }
{
    let mut solver = Solver::new(alloc)?;
    match fill(alloc, c, base, cone, used, guard, here, avoid, &mut solver) {
        Ok(()) => Ok(solver),
        Err(error) => {
            drop(solver);
            Err(error)
        }
    }
}

/// The solver of a search before its first lemma.
pub(crate) fn questions_of(
    alloc: Global,
    c: &Circuit,
    view: &[Arc<Checked>],
    start: &Start,
    avoid: &[Cube],
    base: &Db,
    free: u64,
    cone: &mut Cone,
) -> Result<Questions, AllocError>
    requires view { IsGoodList c.now (viewed view.now) }
    requires avoid { AreOver (length c.now.latches) avoid.now }
    requires base { base.now.clauses ≡ base_clauses (record {
      circuit = c.now;
      view = viewed view.now;
      start = start.now;
    }) }
    requires free { free ≡ first_guard (record {
      circuit = c.now;
      view = viewed view.now;
      start = start.now;
    }) }
    ensures { IfOk result (IsHeldBy (no_lemmas (record {
      circuit = c.now;
      view = viewed view.now;
      start = start.now;
    }) avoid.now)) }
{
    let _limits = c.max();
    one_valuation(c);
    let here = state_place(alloc, c)?;
    let next = successor_place(alloc, c)?;
    let used = used(alloc, view, start)?;
    let guard = question_guard(free, 0)?;
    let solver = filled(
        alloc,
        c,
        base,
        cone,
        used.as_slice(),
        guard,
        here.as_slice(),
        avoid,
    )?;
    Ok(Questions {
        solver,
        here,
        next,
        free,
        levels: 0,
        asked: 0,
        without_clause: 0,
        count: 0,
        held: 0,
        implying: Vec::new(alloc),
    })
}
