//! How guarded clauses come into a solver.
ghost use Rattle.std.specs.Prelude.{◌≡◌, ◌∷◌, [], ◌++◌, map, OnOk};
ghost use Rattle.ic3_questions.specs.SteppingClauses.{guarded, denied_at};
ghost use Rattle.ic3.specs.SteppingInside.{Grows, IsWhole};

use cdcl::Solver;
use cnf::{Cube, Db};
use ic3_questions::guarded_denial;
use std::alloc::{AllocError, Global};

/// Adds all clauses of the base.
pub(crate) fn add_all(solver: &mut Solver, clauses: &Db) -> Result<(), AllocError>
    ensures grows { Grows clauses.now.clauses solver.old.added solver.new.added }
    ensures whole { OnOk result (IsWhole clauses.now.clauses solver.new.added) }
{
    for clause in clauses.as_slice() {
        solver.add_sized(clause.clone()?)?;
    }
    Ok(())
}

/// Adds the clauses that deny cubes at a place, where the guard is true.
pub(crate) fn add_denials(
    alloc: Global,
    solver: &mut Solver,
    guard: u64,
    place: &[u64],
    cubes: &[Cube],
) -> Result<(), AllocError>
    ensures { OnOk result (solver.new.added
        ≡ solver.old.added ++ map (λ cube. guarded guard (denied_at place.now cube)) cubes.now) }
{
    for cube in cubes {
        solver.add_sized(guarded_denial(alloc, guard, place, cube.as_slice())?)?;
    }
    Ok(())
}
