//! Whether a solver refuses assumptions.
ghost use Rattle.std.specs.Prelude.{◌≡◌, true, IfOk, IfErr};
ghost use Rattle.edge.specs.Ends.{CountsConflicts, IsEnd};
ghost use Rattle.cdcl.specs.Solving.{HasNoModel};

use cdcl::{Asked, Solver};
use cnf::Lit;
use edge::{Meter, SolveEnd};
use std::alloc::Global;

/// Whether the assumptions are refused: no model of the solver's clauses makes them true.
pub(crate) fn is_refused(
    alloc: Global,
    solver: &mut Solver,
    assumptions: &[Lit],
    meter: &mut Meter,
) -> Result<bool, SolveEnd>
    ensures refused { IfOk result (λ b. b ≡ true → HasNoModel solver.old.added assumptions.now) }
    ensures added { solver.new.added ≡ solver.old.added }
    ensures end { IfErr result (IsEnd meter.new) }
    ensures counted { CountsConflicts meter.old meter.new }
{
    match solver.ask(alloc, assumptions, meter)? {
        Asked::Sat => Ok(false),
        Asked::Unsat(_) => Ok(true),
    }
}
