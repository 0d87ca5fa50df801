//! States in which skeletons begin and which break clauses. The main call is `breaking_state`.

ghost use Rattle.std.specs.Prelude.{◌<◌, ◌^◌, length, IfErr};
ghost use Rattle.edge.specs.Ends.{CountsConflicts, IsEnd};

use cdcl::{Asked, Solver};
use circuit::Circuit;
use cnf::{Clause, Lit};
use cnf_unroll::unrolled_skeleton;
use edge::{Meter, SolveEnd};
use entry::{Checked, lend_view};
use items::Items;
use std::alloc::{AllocError, Global};
use std::sync::Arc;

/// For how many clauses a skeleton is asked for that begins in a state which breaks them.
const MOST_ASKED: usize = 100;

// A solver of the skeletons that the entries allow.
fn solver_of(
    alloc: Global,
    c: &Circuit,
    j: u32,
    view: &[Arc<Checked>],
) -> Result<Solver, AllocError>
    requires property { j < length c.now.justice }
    requires few { length view.now < 2 ^ 32 }
{
    let uses = lend_view(alloc, view)?;
    let unrolled = unrolled_skeleton(alloc, c, j, uses.as_slice())?;
    Solver::with_clauses(alloc, unrolled.clauses.into_vec())
}

// The literals by which the first state of a skeleton breaks a clause.
fn broken_first(alloc: Global, c: &Circuit, clause: &Clause) -> Result<Items<Lit>, AllocError> {
    let mut literals = Items::new(alloc);
    for literal in clause.as_slice() {
        if let Some(latch) = c.latches().get(literal.var as usize) {
            literals.push(Lit {
                var: latch.var.saturating_add(1),
                positive: !literal.positive,
            })?;
        }
    }
    Ok(literals)
}

// The first state of the skeleton that the solver has found.
fn first_state(alloc: Global, c: &Circuit, solver: &Solver) -> Result<Items<bool>, AllocError> {
    let mut state = Items::new(alloc);
    for latch in c.latches() {
        state.push(solver.value(latch.var.saturating_add(1)))?;
    }
    Ok(state)
}

// Whether there is a skeleton whose first state makes the literals true.
fn is_found(
    alloc: Global,
    solver: &mut Solver,
    literals: &[Lit],
    meter: &mut Meter,
) -> Result<bool, SolveEnd>
    ensures end { IfErr result (IsEnd meter.new) }
    ensures counted { CountsConflicts meter.old meter.new }
{
    match solver.ask(alloc, literals, meter)? {
        Asked::Sat => Ok(true),
        Asked::Unsat(_) => Ok(false),
    }
}

// The first state of a skeleton that breaks the clause, if one is found.
fn state_against(
    alloc: Global,
    c: &Circuit,
    solver: &mut Solver,
    clause: &Clause,
    meter: &mut Meter,
) -> Result<Option<Items<bool>>, SolveEnd>
    ensures end { IfErr result (IsEnd meter.new) }
    ensures counted { CountsConflicts meter.old meter.new }
{
    let literals = broken_first(alloc, c, clause)?;
    let found = is_found(alloc, solver, literals.as_slice(), meter);
    drop(literals);
    if found? {
        return Ok(Some(first_state(alloc, c, solver)?));
    }
    Ok(None)
}

// The first state of a skeleton that breaks one of the clauses, if one is found.
fn state_found(
    alloc: Global,
    c: &Circuit,
    solver: &mut Solver,
    clauses: &[Clause],
    meter: &mut Meter,
) -> Result<Option<Items<bool>>, SolveEnd>
    ensures end { IfErr result (IsEnd meter.new) }
    ensures counted { CountsConflicts meter.old meter.new }
{
    for clause in clauses.iter().take(MOST_ASKED) {
        match state_against(alloc, c, solver, clause, meter)? {
            Some(state) => return Ok(Some(state)),
            None => {}
        }
    }
    Ok(None)
}

/// The first state of a skeleton of property `j`, counted from 0, that the entries of the view allow, if one is found that
/// breaks one of the first 100 clauses: these are over latches, counted from 0. It counts conflicts alone. The error comes
/// where their count is at its limit, or for want of memory.
pub fn breaking_state(
    alloc: Global,
    c: &Circuit,
    j: u32,
    view: &[Arc<Checked>],
    clauses: &[Clause],
    meter: &mut Meter,
) -> Result<Option<Items<bool>>, SolveEnd>
    requires property { j < length c.now.justice }
    requires few { length view.now < 2 ^ 32 }
    ensures end { IfErr result (IsEnd meter.new) }
    ensures counted { CountsConflicts meter.old meter.new }
{
    let mut solver = solver_of(alloc, c, j, view)?;
    let found = state_found(alloc, c, &mut solver, clauses, meter);
    drop(solver);
    found
}
