//! Where a path may end: the cube of states that break the clauses of each entry which the end that was found breaks. A
//! run that ends there keeps to the sides of the walls. The main call is `end_cube`.
ghost use Rattle.std.specs.Prelude.{◌≡◌, ◌<◌, true, false, [], ◌++◌, length, map, slice_index_or, IfOk, OnOk, IfSome, IfNone};
ghost use Rattle.std.specs.List.{All};
ghost use Rattle.aig_semantics.specs.Runs.{successor, MeetsConstraints};
ghost use Rattle.proof_semantics.specs.Clauses.{clause_value, values_of, negation};
ghost use Rattle.fair_semantics.specs.States.{meets_clauses};
ghost use Rattle.cnf_unroll.specs.Laws.{AreOver};
ghost use Rattle.entry.specs.CheckedEntries.{entry_in, viewed};
ghost use Rattle.ic3_loops.specs.Lifting.{BreaksAs, IsBreaking, EndsIn};

use circuit::{Circuit, Position, eval_into, next_into};
use cnf::{Clause, Cube, holds};
use entry::Checked;
use ic3_semantics::Start;
use items::Items;
use std::alloc::{AllocError, Global};
use std::sync::Arc;

/// The latches' next values at a position.
pub(crate) fn successor_of(
    alloc: Global,
    c: &Circuit,
    p: &Position,
) -> Result<Items<bool>, AllocError>
    requires { MeetsConstraints c.now p.now }
    ensures { IfOk result (λ next. next ≡ successor c.now p.now) }
{
    let mut values = vec![in alloc; false; c.max() as usize + 1]?;
    eval_into(c, p.latches.as_slice(), p.inputs.as_slice(), &mut values);
    let mut next = vec![in alloc; false; c.latches().len()]?;
    next_into(c, &values, &mut next);
    Ok(Items::from_vec(next))
}

// The place of a clause that the state breaks.
fn broken_at(clauses: &[Clause], state: &[bool]) -> Option<usize>
    ensures found { IfSome result (λ i. (i < length clauses.now)
        × (clause_value (values_of state.now) (slice_index_or clauses.now i []) ≡ false)) }
    ensures none { IfNone result (meets_clauses clauses.now state.now ≡ true) }
{
    for (i, clause) in clauses.iter().enumerate() {
        if !holds(clause, state) {
            return Some(i);
        }
    }
    None
}

// Puts literals at the end that make the clause false.
fn put_denied(clause: &Clause, cube: &mut Cube) -> Result<(), AllocError>
    ensures { OnOk result (cube.new ≡ cube.old ++ map negation clause.now) }
{
    for literal in clause.as_slice() {
        cube.push(literal.negation())?;
    }
    Ok(())
}

// Where the state breaks the clauses, puts literals at the end that make one of them false.
fn put_broken(clauses: &[Clause], state: &[bool], cube: &mut Cube) -> Result<(), AllocError>
    ensures { OnOk result (BreaksAs clauses.now state.now cube.old cube.new) }
{
    match broken_at(clauses, state) {
        Some(i) => put_denied(&clauses[i], cube),
        None => Ok(()),
    }
}

fn put_broken_of(entry: &Arc<Checked>, state: &[bool], cube: &mut Cube) -> Result<(), AllocError>
    ensures { OnOk result (BreaksAs (entry_in entry.now).clauses state.now cube.old cube.new) }
{
    put_broken(entry.listed().set.as_slice(), state, cube)
}

// A cube that holds the state, and whose states break the clauses of each entry which it breaks.
fn breaking(alloc: Global, view: &[Arc<Checked>], state: &[bool]) -> Result<Cube, AllocError>
    ensures { IfOk result (IsBreaking (viewed view.now) state.now) }
{
    let mut cube = Cube::new(alloc);
    for entry in view {
        put_broken_of(entry, state, &mut cube)?;
    }
    Ok(cube)
}

// From a state, a cube that holds the successor of a position, and in each state of which a path may end in its place.
fn state_end(
    alloc: Global,
    c: &Circuit,
    view: &[Arc<Checked>],
    _start: &Start,
    p: &Position,
) -> Result<Cube, AllocError>
    requires possible { MeetsConstraints c.now p.now }
    requires over { All (λ e. AreOver (length c.now.latches) e.clauses) (viewed view.now) }
    ensures { IfOk result (EndsIn c.now (viewed view.now) _start.now p.now) }
{
    let next = successor_of(alloc, c, p)?;
    let cube = breaking(alloc, view, next.as_slice())?;
    Ok(cube)
}

/// The same; from the initial states that is any state.
pub(crate) fn end_cube(
    alloc: Global,
    c: &Circuit,
    view: &[Arc<Checked>],
    start: &Start,
    p: &Position,
) -> Result<Cube, AllocError>
    requires possible { MeetsConstraints c.now p.now }
    requires over { All (λ e. AreOver (length c.now.latches) e.clauses) (viewed view.now) }
    ensures { IfOk result (EndsIn c.now (viewed view.now) start.now p.now) }
{
    match start {
        Start::Initial => Ok(Cube::new(alloc)),
        Start::State(_) => state_end(alloc, c, view, start, p),
    }
}
