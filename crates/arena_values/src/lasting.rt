//! Questions to a solver of the steps in an arena. The main call is `lasting_values`.
ghost use Rattle.std.specs.Prelude.{IfErr};
ghost use Rattle.edge.specs.Ends.{CountsConflicts, IsEnd};

use cdcl::{Asked, Solver};
use circuit::{Circuit, Latch};
use cnf::Lit;
use cnf_unroll::{ClauseSet, shared};
use cone::cone_of;
use edge::{Meter, SolveEnd};
use entry::Checked;
use ic3_questions::{own_uses, used};
use ic3_semantics::Start;
use items::Items;
use std::alloc::{AllocError, Global};
use std::sync::Arc;

/// Of each latch whether it is in the cone of property `j`. The error is want of memory.
pub fn cone_latches(alloc: Global, c: &Circuit, j: u32) -> Result<Vec<bool>, AllocError> {
    let cone = cone_of(alloc, c, j)?;
    let mut marks = Vec::new(alloc);
    for latch in c.latches() {
        marks.push(cone.has(latch.var))?;
    }
    Ok(marks)
}

// A solver of the steps in an arena; of each value of each latch whether a step was seen that leaves it; and the values
// that none leaves.
#[derive(Drop)]
struct Arena {
    solver: Solver,
    left: Vec<bool>,
    lasting: Items<Lit>,
}

// A solver of the steps in the arena of a start.
fn solver_of(
    alloc: Global,
    c: &Circuit,
    view: &[Arc<Checked>],
    start: &Start,
) -> Result<Solver, AllocError> {
    let used = used(alloc, view, start)?;
    let own = own_uses(alloc, view, start)?;
    let set: ClauseSet = Items::new(alloc);
    let begun = shared(alloc, c, used.as_slice(), own.as_slice(), &set)?;
    Solver::with_clauses(alloc, begun.clauses.into_vec())
}

fn arena_of(
    alloc: Global,
    c: &Circuit,
    view: &[Arc<Checked>],
    start: &Start,
) -> Result<Arena, AllocError> {
    let left = vec![in alloc; false; c.latches().len().saturating_mul(2)]?;
    let solver = solver_of(alloc, c, view, start)?;
    Ok(Arena {
        solver,
        left,
        lasting: Items::new(alloc),
    })
}

// The place of a value of a latch among the marks.
fn place_of(latch: usize, value: bool) -> usize {
    let first = latch.saturating_mul(2);
    if value {
        first.saturating_add(1)
    } else {
        first
    }
}

// The number of a latch's next value in the block, less that of its variable.
fn behind(c: &Circuit) -> u64 {
    c.max().saturating_add(2)
}

// The literals of the block that are true where a step leaves the value of a latch.
fn leaving(latch: &Latch, behind: u64, value: bool) -> [Lit; 2] {
    [
        Lit {
            var: latch.var.saturating_add(1),
            positive: value,
        },
        Lit {
            var: latch.var.saturating_add(behind),
            positive: !value,
        },
    ]
}

fn mark(marks: &mut [bool], i: usize) {
    if i < marks.len() {
        marks[i] = true;
    }
}

// Marks the values that the step leaves which the solver told.
fn mark_left(c: &Circuit, arena: &mut Arena) {
    let behind = behind(c);
    for (i, latch) in c.latches().iter().enumerate() {
        let now = arena.solver.value(latch.var.saturating_add(1));
        let next = arena.solver.value(latch.var.saturating_add(behind));
        if now != next {
            mark(arena.left.as_mut_slice(), place_of(i, now));
        }
    }
}

// Asks whether a step leaves the value of a latch.
fn ask_value(
    alloc: Global,
    c: &Circuit,
    arena: &mut Arena,
    i: usize,
    latch: &Latch,
    value: bool,
    meter: &mut Meter,
) -> Result<(), SolveEnd>
    ensures end { IfErr result (IsEnd meter.new) }
    ensures counted { CountsConflicts meter.old meter.new }
{
    let literals = leaving(latch, behind(c), value);
    match arena.solver.ask(alloc, &literals, meter)? {
        Asked::Sat => mark_left(c, arena),
        Asked::Unsat(_) => arena.lasting.push(Lit {
            var: i as u64,
            positive: value,
        })?,
    }
    Ok(())
}

// The same where no such step was seen.
fn ask_open(
    alloc: Global,
    c: &Circuit,
    arena: &mut Arena,
    i: usize,
    value: bool,
    meter: &mut Meter,
) -> Result<(), SolveEnd>
    ensures end { IfErr result (IsEnd meter.new) }
    ensures counted { CountsConflicts meter.old meter.new }
{
    let is_left = arena.left.as_slice().get(place_of(i, value)).copied();
    match (is_left, c.latches().get(i)) {
        (Some(false), Some(latch)) => ask_value(alloc, c, arena, i, latch, value, meter),
        _ => Ok(()),
    }
}

fn ask_latch(
    alloc: Global,
    c: &Circuit,
    arena: &mut Arena,
    i: usize,
    meter: &mut Meter,
) -> Result<(), SolveEnd>
    ensures end { IfErr result (IsEnd meter.new) }
    ensures counted { CountsConflicts meter.old meter.new }
{
    ask_open(alloc, c, arena, i, false, meter)?;
    ask_open(alloc, c, arena, i, true, meter)
}

fn ask_latches(
    alloc: Global,
    c: &Circuit,
    wanted: &[bool],
    arena: &mut Arena,
    meter: &mut Meter,
) -> Result<(), SolveEnd>
    ensures end { IfErr result (IsEnd meter.new) }
    ensures counted { CountsConflicts meter.old meter.new }
{
    for (i, is_wanted) in wanted.iter().enumerate() {
        if *is_wanted {
            ask_latch(alloc, c, arena, i, meter)?;
        }
    }
    Ok(())
}

/// Of the latches that are wanted the values that no step leaves in the arena of a start, under the entries of the view:
/// literals over latch numbers. `Spent` comes where the meter's count of conflicts is at its limit; the other error is
/// want of memory.
pub fn lasting_values(
    alloc: Global,
    c: &Circuit,
    view: &[Arc<Checked>],
    start: &Start,
    wanted: &[bool],
    meter: &mut Meter,
) -> Result<Items<Lit>, SolveEnd>
    ensures end { IfErr result (IsEnd meter.new) }
    ensures counted { CountsConflicts meter.old meter.new }
{
    if !wanted.iter().any(|is_wanted| *is_wanted) {
        return Ok(Items::new(alloc));
    }
    let mut arena = arena_of(alloc, c, view, start)?;
    let end = ask_latches(alloc, c, wanted, &mut arena, meter);
    let Arena {
        solver,
        left,
        lasting,
    } = arena;
    drop(solver);
    drop(left);
    match end {
        Ok(()) => Ok(lasting),
        Err(end) => Err(end),
    }
}
