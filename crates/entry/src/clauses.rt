//! Clauses of entries: from the literals of a model, and the test of a reach entry's. The main call is
//! `clause_from_aiger`.

ghost use Rattle.std.specs.Prelude.{◌≡◌, ◌<◌, length, IfOk, slice_get};
ghost use Rattle.std.specs.List.{All, list_any};
ghost use Rattle.proof_semantics.specs.Clauses.{has_literal};
ghost use Rattle.fair_semantics.specs.States.{initial_cube};
ghost use Rattle.entry.specs.Clauses.{latch_from, latch_literal, clause_of};
ghost use Rattle.entry.specs.Resets.{is_reset_to, is_reset_at};
ghost use Rattle.entry.specs.Answers.{Tells};
ghost use Rattle.entry.specs.Faults.{baseless_from, first_baseless};

use crate::faults::{EntryEnd, EntryFault};
use circuit::{Circuit, Latch, Reset};
use cnf::Clause;
use fair_semantics::Kind;
use proof_semantics::Lit;
use std::alloc::Global;

// The number of the latch with this variable.
fn latch_number(c: &Circuit, variable: u64) -> Option<u64>
    ensures { result ≡ latch_from 0 variable c.now.latches }
{
    for (n, latch) in c.latches().iter().enumerate() {
        if latch.var == variable {
            return Some(n as u64);
        }
    }
    None
}

// The literal over the number of its latch. `None` where its variable is no latch.
fn latch_literal(c: &Circuit, literal: u64) -> Option<Lit>
    ensures { result ≡ latch_literal c.now literal }
{
    let positive = literal % 2 != 1;
    match latch_number(c, literal / 2) {
        Some(var) => Some(Lit { var, positive }),
        None => None,
    }
}

fn read_clause(alloc: Global, c: &Circuit, literals: &[u64]) -> Result<Clause, EntryEnd>
    ensures { Tells result (clause_of c.now literals.now) }
{
    let mut clause = Clause::new(alloc);
    for literal in literals {
        match latch_literal(c, *literal) {
            Some(found) => clause.push(found)?,
            None => return Err(EntryEnd::Fault(EntryFault::NotLatch(*literal))),
        }
    }
    Ok(clause)
}

/// The clause of these literals of the model, in their order, over the numbers of the latches, which are counted from 0
/// in the order of the file. The fault is `NotLatch` of the first literal that is no latch's.
pub fn clause_from_aiger(alloc: Global, c: &Circuit, literals: &[u64]) -> Result<Clause, EntryEnd>
    ensures clause { Tells result (clause_of c.now literals.now) }
    ensures over { IfOk result (λ clause. All (λ l. l.var < length c.now.latches) clause) }
{
    read_clause(alloc, c, literals)
}

fn latch_at(c: &Circuit, n: u64) -> Option<Latch>
    ensures { result ≡ slice_get c.now.latches n }
{
    c.latches().get(n as usize).copied()
}

fn is_reset_to(reset: Reset, value: bool) -> bool
    ensures { result ≡ is_reset_to reset value }
{
    match reset {
        Reset::Zero => !value,
        Reset::One => value,
        Reset::Free => false,
    }
}

fn is_reset_at(c: &Circuit, literal: Lit) -> bool
    ensures { result ≡ is_reset_at (slice_get c.now.latches literal.var) literal.positive }
{
    match latch_at(c, literal.var) {
        Some(latch) => is_reset_to(latch.reset, literal.positive),
        None => false,
    }
}

// Whether the literal is one of the initial cube: the reset of its latch is its value.
fn is_initial(c: &Circuit, literal: Lit) -> bool
    ensures { result ≡ has_literal (initial_cube c.now) literal }
{
    is_reset_at(c, literal)
}

/// Whether the clause holds a literal of the initial cube, as each clause of a reach entry does. Takes no memory.
pub fn holds_initial(c: &Circuit, clause: &Clause) -> bool
    ensures { result ≡ list_any (has_literal (initial_cube c.now)) clause.now }
{
    clause
        .as_slice()
        .iter()
        .any(|literal| is_initial(c, *literal))
}

// The number of the first clause that holds no literal of the initial cube.
fn first_without_initial(c: &Circuit, clauses: &[Clause]) -> Option<u64>
    ensures { result ≡ baseless_from 0 (initial_cube c.now) clauses.now }
{
    for (i, clause) in clauses.iter().enumerate() {
        if !holds_initial(c, clause) {
            return Some(i as u64);
        }
    }
    None
}

/// The number, counted from 0, of the first clause of a reach entry that holds no literal of the initial cube. A wall
/// has none. Takes no memory.
pub fn first_baseless(c: &Circuit, kind: Kind, clauses: &[Clause]) -> Option<u64>
    ensures { result ≡ first_baseless c.now kind clauses.now }
{
    match kind {
        Kind::Reach => first_without_initial(c, clauses),
        Kind::Wall => None,
    }
}
