//! Which clauses of the block the solver of a search has: those of the gates and latches that its questions stand on. The
//! main type is `Cone`. Each clause that comes is one of the base, whatever the choice: no contract rests on it.
ghost use Rattle.ic3.specs.SteppingInside.{Grows};

use cdcl::Solver;
use circuit::{Circuit, Gate};
use cnf::{Db, Lit};
use cnf_unroll::{Used, before_constraints, before_gate, before_latch};
use std::alloc::{AllocError, Global};

/// Which clauses came. The base has those of the circuit first, as `cnf_unroll` lays them out, and then those of the
/// entries.
#[derive(Drop)]
pub(crate) struct Cone {
    // For each variable the number of its gate in the order of the circuit, or 0.
    gate_numbers: Vec<usize>,
    // Which variables are read.
    read: Vec<bool>,
    // Which have the clauses of their gate in the solver.
    held: Vec<bool>,
    // Which latches have the clauses of their next value there.
    nexts: Vec<bool>,
    // How many gates have their clauses there.
    gates: u64,
}

impl Cone {
    /// No clause came. The error is want of memory.
    pub(crate) fn new(alloc: Global, c: &Circuit) -> Result<Cone, AllocError> {
        let count = c.max() as usize + 1;
        Ok(Cone {
            gate_numbers: gate_numbers_of(alloc, c, count)?,
            read: vec![in alloc; false; count]?,
            held: vec![in alloc; false; count]?,
            nexts: vec![in alloc; false; c.latches().len()]?,
            gates: 0,
        })
    }

    /// How many gates have their clauses in the solver.
    pub(crate) fn gates(&self) -> u64 {
        self.gates
    }
}

fn gate_numbers_of(alloc: Global, c: &Circuit, count: usize) -> Result<Vec<usize>, AllocError> {
    let mut numbers = vec![in alloc; 0; count]?;
    for (number, gate) in c.gates().iter().enumerate() {
        if let Some(place) = numbers.get_mut(gate.var as usize) {
            *place = number;
        }
    }
    Ok(numbers)
}

fn is_marked(marks: &[bool], place: usize) -> bool {
    marks.get(place).copied().unwrap_or(false)
}

// Marks a place, and answers whether it was not marked before.
fn mark(marks: &mut [bool], place: usize) -> bool {
    match marks.get_mut(place) {
        Some(marked) => {
            let is_new = !*marked;
            *marked = true;
            is_new
        }
        None => false,
    }
}

// Marks the variable of a literal, and answers whether it was not marked before.
fn mark_variable(marks: &mut [bool], literal: u64) -> bool {
    mark(marks, (literal / 2) as usize)
}

// Adds the clauses of the base from a place on, up to another.
fn put(base: &Db, solver: &mut Solver, from: usize, to: usize) -> Result<(), AllocError>
    ensures { Grows base.now.clauses solver.old.added solver.new.added }
{
    for place in from..to.min(base.len()) {
        solver.add_sized(base.as_slice()[place].clone()?)?;
    }
    Ok(())
}

fn put_gate(
    c: &Circuit,
    base: &Db,
    cone: &mut Cone,
    solver: &mut Solver,
    gate: &Gate,
) -> Result<(), AllocError>
    ensures { Grows base.now.clauses solver.old.added solver.new.added }
{
    let v = gate.var as usize;
    if !is_marked(&cone.read, v) || is_marked(&cone.held, v) {
        return Ok(());
    }
    mark(&mut cone.held, v);
    cone.gates = cone.gates.saturating_add(1);
    mark_variable(&mut cone.read, gate.rhs0);
    mark_variable(&mut cone.read, gate.rhs1);
    let number = cone.gate_numbers.get(v).copied().unwrap_or(0);
    put_gate_at(c, base, solver, number)
}

// The clauses of the gate with this number.
fn put_gate_at(c: &Circuit, base: &Db, solver: &mut Solver, number: usize) -> Result<(), AllocError>
    ensures { Grows base.now.clauses solver.old.added solver.new.added }
{
    if number >= c.gates().len() {
        return Ok(());
    }
    put(
        base,
        solver,
        before_gate(c, number),
        before_gate(c, number + 1),
    )
}

// The clauses of all gates that are read, or stand behind one that is. A gate is read by later ones alone, so the last
// comes first.
fn put_gates(c: &Circuit, base: &Db, cone: &mut Cone, solver: &mut Solver) -> Result<(), AllocError>
    ensures { Grows base.now.clauses solver.old.added solver.new.added }
{
    for gate in c.evaluation_order().iter().rev() {
        put_gate(c, base, cone, solver, gate)?;
    }
    Ok(())
}

/// What these literals stand on.
pub(crate) fn meet(
    c: &Circuit,
    base: &Db,
    cone: &mut Cone,
    solver: &mut Solver,
    literals: &[u64],
) -> Result<(), AllocError>
    ensures { Grows base.now.clauses solver.old.added solver.new.added }
{
    let mut is_new = false;
    for literal in literals {
        is_new |= mark_variable(&mut cone.read, *literal);
    }
    if is_new {
        put_gates(c, base, cone, solver)?;
    }
    Ok(())
}

// The clauses of a latch's next value, and whether its variable was not read before.
fn put_next(
    c: &Circuit,
    base: &Db,
    cone: &mut Cone,
    solver: &mut Solver,
    latch: usize,
) -> Result<bool, AllocError>
    ensures { Grows base.now.clauses solver.old.added solver.new.added }
{
    if latch >= c.latches().len() {
        return Ok(false);
    }
    if !mark(&mut cone.nexts, latch) {
        return Ok(false);
    }
    put(
        base,
        solver,
        before_latch(c, latch),
        before_latch(c, latch + 1),
    )?;
    Ok(mark_variable(&mut cone.read, c.latches()[latch].next))
}

/// What the next values of the latches of these literals stand on.
pub(crate) fn meet_nexts(
    c: &Circuit,
    base: &Db,
    cone: &mut Cone,
    solver: &mut Solver,
    literals: &[Lit],
) -> Result<(), AllocError>
    ensures { Grows base.now.clauses solver.old.added solver.new.added }
{
    let mut is_new = false;
    for literal in literals {
        is_new |= put_next(c, base, cone, solver, literal.var as usize)?;
    }
    if is_new {
        put_gates(c, base, cone, solver)?;
    }
    Ok(())
}

/// What constraints and entries stand on, with their own clauses.
pub(crate) fn meet_entries(
    c: &Circuit,
    base: &Db,
    cone: &mut Cone,
    solver: &mut Solver,
    used: &[Used<'_>],
) -> Result<(), AllocError>
    ensures { Grows base.now.clauses solver.old.added solver.new.added }
{
    put(base, solver, 0, before_gate(c, 0))?;
    put(base, solver, before_constraints(c), before_latch(c, 0))?;
    put(base, solver, before_latch(c, c.latches().len()), base.len())?;
    meet(c, base, cone, solver, c.constraints())?;
    for entry in used {
        for clause in entry.set.as_slice() {
            meet_nexts(c, base, cone, solver, clause.as_slice())?;
        }
    }
    Ok(())
}
