//! The parts of the clauses of a moment.

ghost use Rattle.std.specs.Prelude.{◌≡◌, ◌+◌, ◌^◌, ◌<◌, ◌++◌, map, All, OnOk, IfOk};
ghost use Rattle.std.specs.List.{flat_map};
ghost use Rattle.cnf_unroll.specs.Blocks.{block_clauses};
ghost use Rattle.lasso_clauses.specs.Clauses.{same_value, same_state, reset_clauses, state_clauses};
ghost use Rattle.lasso_clauses.specs.Moving.{moved};
ghost use Rattle.lasso_clauses.specs.Lowness.{IsLow};

use crate::moments::Moment;
use crate::numbers::{minus, plus, push_clause};
use circuit::{Circuit, Latch, Reset};
use cnf::{Clause, Db};
use cnf_unroll::step_cnf;
use proof_semantics::Lit;
use std::alloc::{AllocError, Global};

/// Where the numbers of two states begin.
#[derive(Clone, Copy)]
pub(crate) struct Starts {
    pub(crate) one: u64,
    pub(crate) other: u64,
}

fn moved(alloc: Global, base: u64, clause: &Clause) -> Result<Clause, AllocError>
    ensures { IfOk result (λ higher. higher ≡ moved base clause.now) }
{
    let mut higher = Clause::new(alloc);
    for literal in clause.as_slice() {
        let var = base.checked_add(literal.var).ok_or(AllocError)?;
        higher.push(Lit {
            var,
            positive: literal.positive,
        })?;
    }
    Ok(higher)
}

fn push_moved(alloc: Global, db: &mut Db, base: u64, clauses: &[Clause]) -> Result<(), AllocError>
    ensures { OnOk result (db.new.clauses ≡ db.old.clauses ++ map (moved base) clauses.now) }
{
    for clause in clauses {
        db.push(moved(alloc, base, clause)?)?;
    }
    Ok(())
}

// Puts the clauses of the block with this base behind the others.
pub(crate) fn push_block(
    alloc: Global,
    db: &mut Db,
    c: &Circuit,
    base: u64,
) -> Result<(), AllocError>
    ensures { OnOk result (db.new.clauses ≡ db.old.clauses ++ block_clauses c.now base) }
{
    let step = step_cnf(alloc, c)?;
    push_moved(alloc, db, base, step.as_slice())
}

fn push_same_value(
    alloc: Global,
    db: &mut Db,
    unless: &[Lit],
    a: u64,
    b: u64,
) -> Result<(), AllocError>
    ensures { OnOk result (db.new.clauses ≡ db.old.clauses ++ same_value unless.now a b) }
{
    push_clause(alloc, db, &[minus(a), plus(b)], unless)?;
    push_clause(alloc, db, &[plus(a), minus(b)], unless)
}

fn push_same_values(
    alloc: Global,
    db: &mut Db,
    latches: &[Latch],
    unless: &[Lit],
    starts: Starts,
) -> Result<(), AllocError>
    requires one { starts.one < 2 ^ 63 }
    requires other { starts.other < 2 ^ 63 }
    requires vars { All (λ latch. latch.var < 2 ^ 32) latches.now }
    ensures { OnOk result (db.new.clauses ≡ db.old.clauses
        ++ flat_map (λ latch. same_value unless.now (starts.one + latch.var) (starts.other + latch.var)) latches.now) }
{
    for latch in latches {
        push_same_value(
            alloc,
            db,
            unless,
            starts.one + latch.var,
            starts.other + latch.var,
        )?;
    }
    Ok(())
}

// Puts the clauses by which two states are the same, where no literal of `unless` is true, behind the others.
pub(crate) fn push_same_state(
    alloc: Global,
    db: &mut Db,
    c: &Circuit,
    unless: &[Lit],
    starts: Starts,
) -> Result<(), AllocError>
    requires one { starts.one < 2 ^ 63 }
    requires other { starts.other < 2 ^ 63 }
    ensures { OnOk result (db.new.clauses ≡ db.old.clauses ++ same_state c.now unless.now starts.one starts.other) }
{
    let _limits = c.max();
    push_same_values(alloc, db, c.latches(), unless, starts)
}

fn push_reset(alloc: Global, db: &mut Db, reset: Reset, number: u64) -> Result<(), AllocError>
    ensures { OnOk result (db.new.clauses ≡ db.old.clauses ++ reset_clauses reset number) }
{
    match reset {
        Reset::Zero => push_clause(alloc, db, &[minus(number)], &[]),
        Reset::One => push_clause(alloc, db, &[plus(number)], &[]),
        Reset::Free => Ok(()),
    }
}

fn push_resets(alloc: Global, db: &mut Db, latches: &[Latch], start: u64) -> Result<(), AllocError>
    requires start { start < 2 ^ 63 }
    requires vars { All (λ latch. latch.var < 2 ^ 32) latches.now }
    ensures { OnOk result (db.new.clauses ≡ db.old.clauses
        ++ flat_map (λ latch. reset_clauses latch.reset (start + latch.var)) latches.now) }
{
    for latch in latches {
        push_reset(alloc, db, latch.reset, start + latch.var)?;
    }
    Ok(())
}

// Puts the clauses of a moment's state behind the others.
pub(crate) fn push_state(alloc: Global, db: &mut Db, at: &Moment<'_>) -> Result<(), AllocError>
    requires { IsLow at.now }
    ensures { OnOk result (db.new.clauses ≡ db.old.clauses ++ state_clauses at.now.circuit.now at.now.before at.now.base) }
{
    let c = at.circuit;
    let max = c.max();
    match at.before {
        None => push_resets(alloc, db, c.latches(), at.base + 1),
        Some(before) => {
            let starts = Starts {
                one: at.base + 1,
                other: before + max + 2,
            };
            push_same_state(alloc, db, c, &[], starts)
        }
    }
}
