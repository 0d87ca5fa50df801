//! The numbers of variables, and clauses of literals over them.

ghost use Rattle.std.specs.Prelude.{◌≡◌, ◌+◌, ◌^◌, ◌<◌, [], ◌∷◌, ◌++◌, OnOk, IfOk};
ghost use Rattle.cnf_unroll.specs.Numbers.{plus, minus, literal_in_block, literal_at_place, clause_at_place, set_at_place};

use crate::places::Place;
use cnf::{Clause, Db};
use proof_semantics::Lit;
use std::alloc::{AllocError, Global};

pub(crate) fn plus(number: u64) -> Lit
    ensures { result ≡ plus number }
{
    Lit {
        var: number,
        positive: true,
    }
}

pub(crate) fn minus(number: u64) -> Lit
    ensures { result ≡ minus number }
{
    Lit {
        var: number,
        positive: false,
    }
}

// A literal of the circuit in the block with this base.
pub(crate) fn literal_in_block(base: u64, literal: u64) -> Lit
    requires { base < 2 ^ 62 }
    ensures { result ≡ literal_in_block base literal }
{
    Lit {
        var: base + 1 + literal / 2,
        positive: literal % 2 != 1,
    }
}

// The next free number, while numbers are below 2^63.
pub(crate) fn next_free(number: u64) -> Result<u64, AllocError>
    ensures next { IfOk result (λ next. next ≡ number + 1) }
    ensures small { IfOk result (λ next. next < 2 ^ 63) }
{
    if number < (1 << 63) - 1 {
        Ok(number + 1)
    } else {
        Err(AllocError)
    }
}

pub(crate) fn push_clause(alloc: Global, db: &mut Db, literals: &[Lit]) -> Result<(), AllocError>
    ensures { OnOk result (db.new.clauses ≡ db.old.clauses ++ literals.now ∷ []) }
{
    let clause = Clause::from_slice(alloc, literals)?;
    db.push(clause)?;
    Ok(())
}

// A literal over latch numbers at a place.
pub(crate) fn literal_at_place(place: &Place<'_>, literal: Lit) -> Lit
    ensures { result ≡ literal_at_place place.now literal }
{
    Lit {
        var: place.number(literal.var),
        positive: literal.positive,
    }
}

// Puts a clause at a place behind the literals of another.
pub(crate) fn extend_at(
    out: &mut Clause,
    place: &Place<'_>,
    clause: &Clause,
) -> Result<(), AllocError>
    ensures { OnOk result (out.new ≡ out.old ++ clause_at_place place.now clause.now) }
{
    for literal in clause.as_slice() {
        out.push(literal_at_place(place, *literal))?;
    }
    Ok(())
}

// Puts the clauses at a place behind the others.
pub(crate) fn push_set_at(
    alloc: Global,
    db: &mut Db,
    place: &Place<'_>,
    set: &[Clause],
) -> Result<(), AllocError>
    ensures { OnOk result (db.new.clauses ≡ db.old.clauses ++ set_at_place place.now set.now) }
{
    for clause in set {
        let mut out = Clause::new(alloc);
        extend_at(&mut out, place, clause)?;
        db.push(out)?;
    }
    Ok(())
}
