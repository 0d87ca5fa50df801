//! The clause with a number. The main call is `clause_at`.
ghost use Rattle.std.specs.Prelude.{◌≡◌, IsSome, Some};
ghost use Rattle.cnf.specs.Clauses.{clause_numbered};

use cnf::{Clause, Lit};

/// The literals of the clause with a number.
pub(crate) fn clause_at(clauses: &[Clause], number: u64) -> &[Lit]
    requires { IsSome (clause_numbered clauses.now number) }
    ensures { clause_numbered clauses.now number ≡ Some result.now }
{
    clauses[number as usize - 1].as_slice()
}
