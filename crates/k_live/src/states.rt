//! The clauses that refute states which have a literal. The main call is `state_cnf`.

ghost use Rattle.std.specs.Prelude.{◌≡◌, [], ◌∷◌, ◌++◌, OnOk, IfOk};
ghost use Rattle.std.specs.List.{flat_map};
ghost use Rattle.cnf_unroll.specs.Numbers.{state_place, literal_at_place, clause_at_place, set_at_place};
ghost use Rattle.cnf_unroll.specs.Lending.{lent_all};
ghost use Rattle.certificate.specs.Refuted.{state_clauses};

use circuit::Circuit;
use cnf::{Clause, Db};
use cnf_unroll::Used;
use proof_semantics::Lit;
use std::alloc::{AllocError, Global};

// A literal over latch numbers at the state of the first block.
fn literal_at_state(c: &Circuit, literal: Lit) -> Lit
    ensures { result ≡ literal_at_place (state_place c.now 0) literal }
{
    let _limits = c.max();
    let var = match c.latches().get(literal.var as usize) {
        Some(latch) => 1 + latch.var,
        None => 0,
    };
    Lit {
        var,
        positive: literal.positive,
    }
}

fn push_clause(alloc: Global, db: &mut Db, c: &Circuit, literals: &[Lit]) -> Result<(), AllocError>
    ensures { OnOk result (db.new.clauses ≡ db.old.clauses ++ clause_at_place (state_place c.now 0) literals.now ∷ []) }
{
    let mut clause = Clause::new(alloc);
    for literal in literals {
        clause.push(literal_at_state(c, *literal))?;
    }
    db.push(clause)?;
    Ok(())
}

fn push_set(alloc: Global, db: &mut Db, c: &Circuit, set: &[Clause]) -> Result<(), AllocError>
    ensures { OnOk result (db.new.clauses ≡ db.old.clauses ++ set_at_place (state_place c.now 0) set.now) }
{
    for clause in set {
        push_clause(alloc, db, c, clause.as_slice())?;
    }
    Ok(())
}

/// The clauses of these used entries at the state of the first block, and the clause that it has this literal, over latch
/// numbers.
pub(crate) fn state_cnf(
    alloc: Global,
    c: &Circuit,
    literal: Lit,
    used: &[Used],
) -> Result<Db, AllocError>
    ensures { IfOk result (λ db. db.clauses ≡ state_clauses c.now literal (lent_all used.now)) }
{
    let mut db = Db::new(alloc);
    for u in used {
        push_set(alloc, &mut db, c, u.set.as_slice())?;
    }
    push_clause(alloc, &mut db, c, &[literal])?;
    Ok(db)
}
