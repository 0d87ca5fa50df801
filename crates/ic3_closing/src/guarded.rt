//! A solver in which each part of a closed set stands behind a guard of its own: a variable that is assumed where the
//! part counts. No contract rests on it. The main type is `Guarded`.
//!
//! What uses a wall that names sides has to be on these sides, and so names them too. So a side counts only where a model of
//! the question is not on it: at first none does but those that are marked already.
//!
//! Parts are numbered: the uses; as many for the sides that they name; the clauses; the cubes that a goal avoids; and
//! then the questions.
ghost use Rattle.std.specs.Prelude.{◌<◌, length, IfErr};
ghost use Rattle.std.specs.List.{All};
ghost use Rattle.edge.specs.Ends.{CountsConflicts, IsEnd};

use crate::goals::goal_set;
use crate::keeping::is_marked;
use crate::sets::ClosedSet;
use crate::standing::{is_signed, lend};
use cdcl::{Asked, Solver};
use circuit::Circuit;
use cnf::{Clause, Cube, Lit};
use cnf_unroll::{Begun, shared};
use edge::{Meter, SolveEnd};
use entry::Checked;
use fair_semantics::Use;
use std::alloc::{AllocError, Global};
use std::sync::Arc;

#[derive(Drop)]
pub(crate) struct Guarded {
    solver: Solver,
    /// Of each use the literal that is true on the side that it names.
    sides: Vec<Option<Lit>>,
    /// The guard of part 0.
    first: u64,
    /// The part that is free for a question.
    free: usize,
}

fn guard(first: u64, part: usize) -> Result<Lit, AllocError> {
    Ok(Lit {
        var: first.checked_add(part as u64).ok_or(AllocError)?,
        positive: true,
    })
}

// Adds the clause behind the guard, where there is one.
fn add_behind(
    alloc: Global,
    solver: &mut Solver,
    guard: Option<Lit>,
    clause: &[Lit],
) -> Result<(), AllocError> {
    let mut out = Clause::new(alloc);
    if let Some(guard) = guard {
        out.push(guard.negation())?;
    }
    for literal in clause {
        out.push(*literal)?;
    }
    solver.add_sized(out)
}

// Adds the clauses from a place on, up to another, behind the guard, where there is one.
fn add_some(
    alloc: Global,
    solver: &mut Solver,
    guard: Option<Lit>,
    clauses: &[Clause],
    from: usize,
    to: usize,
) -> Result<(), AllocError> {
    for place in from..to.min(clauses.len()) {
        add_behind(alloc, solver, guard, clauses[place].as_slice())?;
    }
    Ok(())
}

// Where the clauses of a use begin; behind the last use, where those of the sides do.
fn place_of(begun: &Begun, i: usize) -> usize {
    begun.ends.as_slice().get(i).copied().unwrap_or(0) as usize
}

// Adds what so many uses bring, each behind its guard.
fn add_uses(
    alloc: Global,
    solver: &mut Solver,
    begun: &Begun,
    count: usize,
) -> Result<(), AllocError> {
    let clauses = begun.clauses.as_slice();
    for i in 0..count {
        let behind = Some(guard(begun.free, i)?);
        let to = place_of(begun, i.saturating_add(1));
        add_some(alloc, solver, behind, clauses, place_of(begun, i), to)?;
    }
    Ok(())
}

// The literal of a clause that has one alone.
fn only_literal(clauses: &[Clause], place: usize) -> Option<Lit> {
    clauses.get(place)?.as_slice().get(0).copied()
}

// Of each use the literal of the side that it names.
fn side_literals(
    alloc: Global,
    begun: &Begun,
    uses: &[Use],
) -> Result<Vec<Option<Lit>>, AllocError> {
    let mut place = place_of(begun, uses.len());
    let mut sides = Vec::new(alloc);
    for u in uses {
        if is_signed(u.side) {
            sides.push(only_literal(begun.clauses.as_slice(), place))?;
            place = place.saturating_add(1);
        } else {
            sides.push(None)?;
        }
    }
    Ok(sides)
}

// Adds the sides, each behind its guard.
fn add_sides(
    alloc: Global,
    solver: &mut Solver,
    first: u64,
    sides: &[Option<Lit>],
) -> Result<(), AllocError> {
    for (i, side) in sides.iter().enumerate() {
        if let Some(literal) = side {
            let behind = Some(guard(first, sides.len().saturating_add(i))?);
            add_behind(alloc, solver, behind, &[*literal])?;
        }
    }
    Ok(())
}

// Adds so many clauses of the set, each behind the guard of its part, the first of which is `from`, and those that deny
// the avoided cubes, all behind one.
fn add_set(
    alloc: Global,
    solver: &mut Solver,
    begun: &Begun,
    count: usize,
    from: usize,
) -> Result<(), AllocError> {
    let clauses = begun.clauses.as_slice();
    let place = begun.sides as usize;
    for i in place..clauses.len() {
        let part = from.saturating_add((i - place).min(count));
        let behind = Some(guard(begun.free, part)?);
        add_behind(alloc, solver, behind, clauses[i].as_slice())?;
    }
    Ok(())
}

// Adds what was laid out: the block, and each part behind its guard.
fn add_parts(
    alloc: Global,
    solver: &mut Solver,
    begun: &Begun,
    sides: &[Option<Lit>],
    count: usize,
) -> Result<(), AllocError> {
    let block = place_of(begun, 0);
    add_some(alloc, solver, None, begun.clauses.as_slice(), 0, block)?;
    add_uses(alloc, solver, begun, sides.len())?;
    add_sides(alloc, solver, begun.free, sides)?;
    add_set(alloc, solver, begun, count, sides.len().saturating_mul(2))
}

// A solver of what was laid out, with so many clauses of the set.
fn guarded_by(
    alloc: Global,
    begun: &Begun,
    sides: Vec<Option<Lit>>,
    count: usize,
) -> Result<Guarded, AllocError> {
    let mut solver = Solver::new(alloc)?;
    match add_parts(alloc, &mut solver, begun, sides.as_slice(), count) {
        Ok(()) => {
            let parts = sides.len().saturating_mul(2).saturating_add(count);
            Ok(Guarded {
                solver,
                sides,
                first: begun.free,
                free: parts.saturating_add(1),
            })
        }
        Err(refused) => {
            drop(solver);
            Err(refused)
        }
    }
}

/// The solver of a closed set, with the cubes that its goal avoids.
pub(crate) fn solver_behind_guards(
    alloc: Global,
    c: &Circuit,
    view: &[Arc<Checked>],
    whole: &ClosedSet,
    avoid: &[Cube],
) -> Result<Guarded, AllocError>
    requires { All (λ u. u.entry < length view.now) whole.now.uses }
{
    let uses = whole.uses.as_slice();
    let used = lend(alloc, view, uses)?;
    let set = goal_set(alloc, whole.clauses.as_slice(), avoid)?;
    let begun = shared(alloc, c, used.as_slice(), uses, &set)?;
    let sides = side_literals(alloc, &begun, uses)?;
    guarded_by(alloc, &begun, sides, whole.clauses.len())
}

// Puts the guards of those parts at the end that count and are marked, or that count and are not.
fn push_guards(
    guards: &mut Vec<Lit>,
    first: u64,
    counted: &[bool],
    marks: &[bool],
    wanted: bool,
) -> Result<(), AllocError> {
    for (part, counts) in counted.iter().enumerate() {
        if *counts && is_marked(marks, part) == wanted {
            guards.push(guard(first, part)?)?;
        }
    }
    Ok(())
}

// Begins a question, and answers its guard: these literals are true where it is.
fn begin(alloc: Global, g: &mut Guarded, literals: &[Lit]) -> Result<Lit, AllocError> {
    let own = guard(g.first, g.free)?;
    g.free = g.free.saturating_add(1);
    for literal in literals {
        add_behind(alloc, &mut g.solver, Some(own), &[*literal])?;
    }
    Ok(own)
}

// Which parts count at first: all but the sides that are not marked.
fn first_counted(alloc: Global, uses: usize, marks: &[bool]) -> Result<Vec<bool>, AllocError> {
    let mut counted = Vec::new(alloc);
    for (part, mark) in marks.iter().enumerate() {
        let is_side = part >= uses && part < uses.saturating_mul(2);
        counted.push(*mark || !is_side)?;
    }
    Ok(counted)
}

// The guards of a question with this guard: those of the avoided cubes, where they count, and of the parts that count, the
// marked ones first.
fn question(
    alloc: Global,
    g: &Guarded,
    own: Lit,
    avoids: bool,
    counted: &[bool],
    marks: &[bool],
) -> Result<Vec<Lit>, AllocError> {
    let mut guards = Vec::new(alloc);
    guards.push(own)?;
    if avoids {
        guards.push(guard(g.first, marks.len())?)?;
    }
    push_guards(&mut guards, g.first, counted, marks, true)?;
    push_guards(&mut guards, g.first, counted, marks, false)?;
    Ok(guards)
}

// The part of the first side that does not count, and that the model of the solver is not on.
fn other_side(g: &Guarded, counted: &[bool]) -> Option<usize> {
    for (i, side) in g.sides.as_slice().iter().enumerate() {
        if let Some(literal) = side {
            let part = g.sides.len().saturating_add(i);
            if !is_marked(counted, part) && g.solver.value(literal.var) != literal.positive {
                return Some(part);
            }
        }
    }
    None
}

/// Marks a part.
pub(crate) fn mark(marks: &mut [bool], part: usize) {
    if part < marks.len() {
        marks[part] = true;
    }
}

// Marks the parts of which a core has the guards.
fn mark_guarded(marks: &mut [bool], first: u64, core: &[Lit]) {
    for guard in core {
        let part = guard.var.saturating_sub(first) as usize;
        mark(marks, part);
    }
}

/// Marks the parts that a core of the question needs whether all these literals can be true, with few sides. `avoids` says
/// whether the avoided cubes count.
pub(crate) fn mark_core(
    alloc: Global,
    g: &mut Guarded,
    literals: &[Lit],
    avoids: bool,
    marks: &mut Vec<bool>,
    meter: &mut Meter,
) -> Result<(), SolveEnd>
    ensures end { IfErr result (IsEnd meter.new) }
    ensures counted { CountsConflicts meter.old meter.new }
{
    let own = begin(alloc, g, literals)?;
    let mut counted = first_counted(alloc, g.sides.len(), marks.as_slice())?;
    for _side in 0..=g.sides.len() {
        let guards = question(
            alloc,
            &*g,
            own,
            avoids,
            counted.as_slice(),
            marks.as_slice(),
        )?;
        match g.solver.ask(alloc, guards.as_slice(), meter)? {
            Asked::Unsat(core) => {
                mark_guarded(marks.as_mut_slice(), g.first, core.as_slice());
                return Ok(());
            }
            Asked::Sat => match other_side(&*g, counted.as_slice()) {
                Some(part) => mark(counted.as_mut_slice(), part),
                None => return Ok(()),
            },
        }
    }
    Ok(())
}
