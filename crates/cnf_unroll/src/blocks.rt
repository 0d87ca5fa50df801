//! The clauses of a block. The main call is `push_block`.

ghost use Rattle.std.specs.Prelude.{◌≡◌, ◌+◌, ◌^◌, ◌<◌, ◌++◌, map, All, OnOk, IfOk};
ghost use Rattle.std.specs.List.{flat_map};
ghost use Rattle.cnf_unroll.specs.Blocks.{gate_clauses, unit_clause, latch_clauses, block_clauses, step_clauses};

use crate::numbers::{literal_in_block, minus, plus, push_clause};
use circuit::{Circuit, Gate, Latch};
use cnf::Db;
use std::alloc::{AllocError, Global};

fn push_gate(alloc: Global, db: &mut Db, base: u64, gate: &Gate) -> Result<(), AllocError>
    requires base { base < 2 ^ 62 }
    requires var { gate.now.var < 2 ^ 32 }
    ensures { OnOk result (db.new.clauses ≡ db.old.clauses ++ gate_clauses base gate.now) }
{
    let number = base + 1 + gate.var;
    let a = literal_in_block(base, gate.rhs0);
    let b = literal_in_block(base, gate.rhs1);
    push_clause(alloc, db, &[minus(number), a])?;
    push_clause(alloc, db, &[minus(number), b])?;
    push_clause(alloc, db, &[plus(number), a.negation(), b.negation()])
}

fn push_gates(alloc: Global, db: &mut Db, base: u64, gates: &[Gate]) -> Result<(), AllocError>
    requires base { base < 2 ^ 62 }
    requires vars { All (λ gate. gate.var < 2 ^ 32) gates.now }
    ensures { OnOk result (db.new.clauses ≡ db.old.clauses ++ flat_map (gate_clauses base) gates.now) }
{
    for gate in gates {
        push_gate(alloc, db, base, gate)?;
    }
    Ok(())
}

fn push_units(alloc: Global, db: &mut Db, base: u64, literals: &[u64]) -> Result<(), AllocError>
    requires { base < 2 ^ 62 }
    ensures { OnOk result (db.new.clauses ≡ db.old.clauses ++ map (unit_clause base) literals.now) }
{
    for literal in literals {
        push_clause(alloc, db, &[literal_in_block(base, *literal)])?;
    }
    Ok(())
}

fn push_latch(
    alloc: Global,
    db: &mut Db,
    c: &Circuit,
    base: u64,
    latch: &Latch,
) -> Result<(), AllocError>
    requires base { base < 2 ^ 62 }
    requires var { latch.now.var < 2 ^ 32 }
    ensures { OnOk result (db.new.clauses ≡ db.old.clauses ++ latch_clauses c.now base latch.now) }
{
    let number = base + c.max() + 2 + latch.var;
    let next = literal_in_block(base, latch.next);
    push_clause(alloc, db, &[minus(number), next])?;
    push_clause(alloc, db, &[plus(number), next.negation()])
}

fn push_latches(alloc: Global, db: &mut Db, c: &Circuit, base: u64) -> Result<(), AllocError>
    requires base { base < 2 ^ 62 }
    requires vars { All (λ latch. latch.var < 2 ^ 32) c.now.latches }
    ensures { OnOk result (db.new.clauses ≡ db.old.clauses ++ flat_map (latch_clauses c.now base) c.now.latches) }
{
    for latch in c.latches() {
        push_latch(alloc, db, c, base, latch)?;
    }
    Ok(())
}

// Puts the clauses of the block with this base behind the others.
pub(crate) fn push_block(
    alloc: Global,
    db: &mut Db,
    c: &Circuit,
    base: u64,
) -> Result<(), AllocError>
    requires { base < 2 ^ 62 }
    ensures { OnOk result (db.new.clauses ≡ db.old.clauses ++ block_clauses c.now base) }
{
    let _limits = c.max();
    push_clause(alloc, db, &[minus(base + 1)])?;
    push_gates(alloc, db, base, c.gates())?;
    push_units(alloc, db, base, c.constraints())?;
    push_latches(alloc, db, c, base)
}

/// The clauses of the block that begins with the number 1: exactly where they hold, its numbers have the values of a
/// position at which every constraint is true, and of its successor. The error is want of memory.
pub fn step_cnf(alloc: Global, c: &Circuit) -> Result<Db, AllocError>
    ensures { IfOk result (λ db. db.clauses ≡ step_clauses c.now) }
{
    let mut db = Db::new(alloc);
    push_block(alloc, &mut db, c, 0)?;
    Ok(db)
}
