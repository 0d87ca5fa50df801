//! Literals over numbers, and clauses of them.

ghost use Rattle.std.specs.Prelude.{◌≡◌, ◌^◌, ◌<◌, ◌∷◌, [], ◌++◌, OnOk};
ghost use Rattle.cnf_unroll.specs.Numbers.{plus, minus, literal_in_block};

use cnf::{Clause, Db};
use proof_semantics::Lit;
use std::alloc::{AllocError, Global};

pub(crate) fn plus(number: u64) -> Lit
    ensures { result ≡ plus number }
{
    Lit {
        var: number,
        positive: true,
    }
}

pub(crate) fn minus(number: u64) -> Lit
    ensures { result ≡ minus number }
{
    Lit {
        var: number,
        positive: false,
    }
}

// A literal of the circuit in the block with this base.
pub(crate) fn literal_in_block(base: u64, literal: u64) -> Lit
    requires { base < 2 ^ 62 }
    ensures { result ≡ literal_in_block base literal }
{
    Lit {
        var: base + 1 + literal / 2,
        positive: literal % 2 != 1,
    }
}

fn extend(clause: &mut Clause, more: &[Lit]) -> Result<(), AllocError>
    ensures { OnOk result (clause.new ≡ clause.old ++ more.now) }
{
    for literal in more {
        clause.push(*literal)?;
    }
    Ok(())
}

// Puts the clause of these literals, and then of more, behind the others.
pub(crate) fn push_clause(
    alloc: Global,
    db: &mut Db,
    literals: &[Lit],
    more: &[Lit],
) -> Result<(), AllocError>
    ensures { OnOk result (db.new.clauses ≡ db.old.clauses ++ (literals.now ++ more.now) ∷ []) }
{
    let mut clause = Clause::from_slice(alloc, literals)?;
    extend(&mut clause, more)?;
    db.push(clause)?;
    Ok(())
}
