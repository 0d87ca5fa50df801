//! The clauses of positions, and lasso clauses. The main calls are `position_cnf` and `lasso_cnf`.

ghost use Rattle.std.specs.Prelude.{◌≡◌, ◌↔◌, ◌^◌, ◌<◌, ◌≤◌, [], ◌∷◌, ◌++◌, length, OnOk, IfOk};
ghost use Rattle.aig_semantics.specs.Circuits.{fair_literals};
ghost use Rattle.cnf_unroll.specs.Laws.{IsSatisfiable};
ghost use Rattle.lasso_clauses.specs.Clauses.{inside_clause, seen_clause, met_clauses, all_met, moment_clauses, position_clauses, positions_clauses, last_clause, lasso_clauses};
ghost use Rattle.lasso_clauses.specs.Laws.{HasLassoOf};
ghost use Rattle.lasso_clauses.specs.Lowness.{IsLow};

use crate::laws::lasso_clauses_tell;
use crate::moments::{Moment, begins, closes, closing_literal, inside, met, moment_of};
use crate::numbers::{literal_in_block, minus, plus, push_clause};
use crate::parts::{Starts, push_block, push_same_state, push_state};
use circuit::Circuit;
use cnf::Db;
use items::Items;
use std::alloc::{AllocError, Global};

fn push_inside(alloc: Global, db: &mut Db, at: &Moment<'_>) -> Result<(), AllocError>
    requires { IsLow at.now }
    ensures { OnOk result (db.new.clauses ≡ db.old.clauses ++ inside_clause at.now.circuit.now at.now.before at.now.base ∷ []) }
{
    let c = at.circuit;
    let own = [minus(inside(c, at.base)), plus(begins(c, at.base))];
    match at.before {
        None => push_clause(alloc, db, &own, &[]),
        Some(before) => push_clause(alloc, db, &own, &[plus(inside(c, before))]),
    }
}

// Puts the clause by which literal `m` was met at a moment or before it behind the others.
fn push_seen(
    alloc: Global,
    db: &mut Db,
    at: &Moment<'_>,
    m: u64,
    literal: u64,
) -> Result<(), AllocError>
    requires low { IsLow at.now }
    requires m { m < 2 ^ 62 }
    ensures { OnOk result (db.new.clauses ≡ db.old.clauses ++ seen_clause at.now.circuit.now at.now.before at.now.base m literal ∷ []) }
{
    let c = at.circuit;
    let own = [
        minus(met(c, at.base, m)),
        literal_in_block(at.base, literal),
    ];
    match at.before {
        None => push_clause(alloc, db, &own, &[]),
        Some(before) => push_clause(alloc, db, &own, &[plus(met(c, before, m))]),
    }
}

fn push_met(
    alloc: Global,
    db: &mut Db,
    at: &Moment<'_>,
    m: u64,
    literal: u64,
) -> Result<(), AllocError>
    requires low { IsLow at.now }
    requires m { m < 2 ^ 62 }
    ensures { OnOk result (db.new.clauses ≡ db.old.clauses ++ met_clauses at.now.circuit.now at.now.before at.now.base m literal) }
{
    let c = at.circuit;
    let number = met(c, at.base, m);
    push_clause(alloc, db, &[minus(number), plus(inside(c, at.base))], &[])?;
    push_seen(alloc, db, at, m, literal)?;
    push_clause(alloc, db, &[minus(closes(c, at.base)), plus(number)], &[])
}

fn push_all_met(
    alloc: Global,
    db: &mut Db,
    at: &Moment<'_>,
    literals: &[u64],
) -> Result<(), AllocError>
    requires low { IsLow at.now }
    requires few { length literals.now ≤ 256 }
    ensures { OnOk result (db.new.clauses ≡ db.old.clauses ++ all_met at.now.circuit.now at.now.before at.now.base 0 literals.now) }
{
    let mut m = 0;
    for literal in literals {
        push_met(alloc, db, at, m, *literal)?;
        m += 1;
    }
    Ok(())
}

// Puts the clauses of a moment behind the others.
fn push_moment(
    alloc: Global,
    db: &mut Db,
    at: &Moment<'_>,
    literals: &[u64],
) -> Result<(), AllocError>
    requires low { IsLow at.now }
    requires few { length literals.now ≤ 256 }
    ensures { OnOk result (db.new.clauses ≡ db.old.clauses ++ moment_clauses at.now.circuit.now literals.now at.now.before at.now.base) }
{
    let c = at.circuit;
    let begin = Starts {
        one: at.base + 1,
        other: 1,
    };
    let end = Starts {
        one: at.base + c.max() + 2,
        other: 1,
    };
    let closing = minus(closes(c, at.base));
    push_block(alloc, db, c, at.base)?;
    push_state(alloc, db, at)?;
    push_same_state(alloc, db, c, &[minus(begins(c, at.base))], begin)?;
    push_inside(alloc, db, at)?;
    push_clause(alloc, db, &[closing, plus(inside(c, at.base))], &[])?;
    push_same_state(alloc, db, c, &[closing], end)?;
    push_all_met(alloc, db, at, literals)
}

fn fair_literals(alloc: Global, c: &Circuit, j: u32) -> Result<Items<u64>, AllocError>
    requires { j < length c.now.justice }
    ensures literals { IfOk result (λ literals. literals ≡ fair_literals c.now j) }
    ensures few { IfOk result (λ literals. length literals ≤ 256) }
{
    let _limits = c.max();
    let mut literals = Items::from_slice(alloc, c.property(j as usize))?;
    for literal in c.fairness() {
        literals.push(*literal)?;
    }
    Ok(literals)
}

fn push_position(
    alloc: Global,
    db: &mut Db,
    c: &Circuit,
    literals: &[u64],
    i: u32,
) -> Result<(), AllocError>
    requires { length literals.now ≤ 256 }
    ensures { OnOk result (db.new.clauses ≡ db.old.clauses ++ position_clauses c.now literals.now i) }
{
    let at = moment_of(c, literals.len() as u64, i);
    push_moment(alloc, db, &at, literals)
}

fn push_positions(
    alloc: Global,
    db: &mut Db,
    c: &Circuit,
    literals: &[u64],
    k: u32,
) -> Result<(), AllocError>
    requires { length literals.now ≤ 256 }
    ensures { OnOk result (db.new.clauses ≡ db.old.clauses ++ positions_clauses c.now literals.now k) }
{
    for i in 0..k {
        push_position(alloc, db, c, literals, i)?;
    }
    Ok(())
}

/// The clauses of position `i`, counted from 0, of lassos of property `j`. A list of them from position 0 on, as long as
/// it is, speaks of all lassos whose last position is among them. The error is want of memory.
pub fn position_cnf(alloc: Global, c: &Circuit, j: u32, i: u32) -> Result<Db, AllocError>
    requires { j < length c.now.justice }
    ensures { IfOk result (λ db. db.clauses ≡ position_clauses c.now (fair_literals c.now j) i) }
{
    let literals = fair_literals(alloc, c, j)?;
    let mut db = Db::new(alloc);
    push_position(alloc, &mut db, c, literals.as_slice(), i)?;
    Ok(db)
}

/// The lasso clauses of property `j` for `k` positions: satisfiable exactly where it has a fair lasso of so many. The
/// error is want of memory.
pub fn lasso_cnf(alloc: Global, c: &Circuit, j: u32, k: u32) -> Result<Db, AllocError>
    requires { j < length c.now.justice }
    ensures clauses { IfOk result (λ db. db.clauses ≡ lasso_clauses c.now j k) }
    ensures tell { IfOk result (λ db. IsSatisfiable db.clauses ↔ HasLassoOf c.now j k) }
{
    let literals = fair_literals(alloc, c, j)?;
    let mut db = Db::new(alloc);
    push_positions(alloc, &mut db, c, literals.as_slice(), k)?;
    push_last(alloc, &mut db, c, j, k)?;
    lasso_clauses_tell(c);
    Ok(db)
}

// Puts the clause by which the last of `k` positions closes the loop behind the others.
fn push_last(alloc: Global, db: &mut Db, c: &Circuit, j: u32, k: u32) -> Result<(), AllocError>
    requires { j < length c.now.justice }
    ensures { OnOk result (db.new.clauses ≡ db.old.clauses ++ last_clause c.now j k ∷ []) }
{
    if k == 0 {
        return push_clause(alloc, db, &[], &[]);
    }
    push_clause(alloc, db, &[closing_literal(c, j, k - 1)], &[])
}
