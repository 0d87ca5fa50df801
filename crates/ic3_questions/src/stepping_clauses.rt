//! Guarded clauses over the numbers of a block.
ghost use Rattle.std.specs.Prelude.{◌≡◌, IfOk};
ghost use Rattle.cnf_unroll.specs.Numbers.{literal_at_place, clause_at_place};
ghost use Rattle.ic3_questions.specs.SteppingClauses.{guarded, denied_at};

use cnf::{Clause, Lit};
use std::alloc::{AllocError, Global};

/// A literal over latch numbers at the place of these numbers.
pub fn literal_at(place: &[u64], literal: Lit) -> Lit
    ensures { result ≡ literal_at_place place.now literal }
{
    Lit {
        var: place.get(literal.var as usize).copied().unwrap_or(0),
        positive: literal.positive,
    }
}

/// The clause at a place, where the guard is true.
pub fn guarded(
    alloc: Global,
    guard: u64,
    place: &[u64],
    clause: &[Lit],
) -> Result<Clause, AllocError>
    ensures { IfOk result (λ out. out ≡ guarded guard (clause_at_place place.now clause.now)) }
{
    let mut out = Clause::new(alloc);
    out.push(Lit {
        var: guard,
        positive: false,
    })?;
    for literal in clause {
        out.push(literal_at(place, *literal))?;
    }
    Ok(out)
}

/// The clause that denies the cube at a place, where the guard is true.
pub fn guarded_denial(
    alloc: Global,
    guard: u64,
    place: &[u64],
    cube: &[Lit],
) -> Result<Clause, AllocError>
    ensures { IfOk result (λ out. out ≡ guarded guard (denied_at place.now cube.now)) }
{
    let mut out = Clause::new(alloc);
    out.push(Lit {
        var: guard,
        positive: false,
    })?;
    for literal in cube {
        out.push(literal_at(place, *literal).negation())?;
    }
    Ok(out)
}
