//! Clauses of public calls, said again as clauses of this crate's own: where such a call comes to say less, the function
//! here that makes it is not proved.
ghost use Rattle.std.specs.Prelude.{◌≡◌, ◌-◌, ◌++◌, ◌∷◌, IfErr, IfOk, OnOk, OnErr, length, false, []};
ghost use Rattle.proof_semantics.specs.Lines.{AreSized};
ghost use Rattle.edge.specs.Ends.{CountsConflicts, IsEnd};
ghost use Rattle.cdcl.specs.Adding.{AddsFirst};
ghost use Rattle.cdcl.specs.Counting.{IsNoLimit, IsRefutedAtOnce};
ghost use Rattle.cdcl.specs.Solving.{IsAnswer, IsBounded, Learns, with_conflicts};
ghost use Rattle.proof_semantics.specs.Clauses.{has_opposites};
ghost use Rattle.cdcl_log.specs.UnitClauses.{unit_clauses};

use cdcl::{Answer, Asked, Refuted, Solver};
use cnf::{Clause, Lit};
use edge::{Meter, SolveEnd};
use std::alloc::{AllocError, Global};

/// A clause comes behind those that were added, values stay, and an error changes nothing.
fn added(solver: &mut Solver, clause: Clause) -> Result<(), AllocError>
    requires { AreSized clause }
    ensures added { OnOk result (solver.new.added ≡ solver.old.added ++ clause ∷ []) }
    ensures learned { solver.new.learned ≡ solver.old.learned }
    ensures values { solver.new.values ≡ solver.old.values }
    ensures err { OnErr result (solver.new ≡ solver.old) }
{
    solver.add(clause)
}

/// So does one that is tested.
fn added_sized(solver: &mut Solver, clause: Clause) -> Result<(), AllocError>
    ensures added { OnOk result (solver.new.added ≡ solver.old.added ++ clause ∷ []) }
    ensures sized { OnOk result (AreSized clause) }
    ensures learned { solver.new.learned ≡ solver.old.learned }
    ensures values { solver.new.values ≡ solver.old.values }
    ensures err { OnErr result (solver.new ≡ solver.old) }
{
    solver.add_sized(clause)
}

/// And a list of them, of which the first may have come at an error.
fn added_all(solver: &mut Solver, clauses: Vec<Clause>) -> Result<(), AllocError>
    ensures added { OnOk result (solver.new.added ≡ solver.old.added ++ clauses.items) }
    ensures first { AddsFirst clauses.items solver.old.added solver.new.added }
    ensures learned { solver.new.learned ≡ solver.old.learned }
    ensures values { solver.new.values ≡ solver.old.values }
{
    solver.add_all(clauses)
}

/// A model, or a core with its proof. What propagation refutes counts nothing, and else exactly what was learned is
/// counted.
fn solved(solver: &mut Solver, assumptions: &[Lit], meter: &mut Meter) -> Result<Answer, SolveEnd>
    requires apart { has_opposites assumptions.now ≡ false }
    requires sizes { AreSized assumptions.now }
    ensures answer { IfOk result (IsAnswer solver.old.added assumptions.now) }
    ensures end { IfErr result (IsEnd meter.new) }
    ensures added { solver.new.added ≡ solver.old.added }
    ensures learned { Learns solver.old.added solver.old.learned solver.new.learned }
    ensures bounded { IsBounded solver.old assumptions.now solver.new.learned }
    ensures counted { meter.new ≡ with_conflicts meter.old (length solver.new.learned - length solver.old.learned) }
    ensures alone { CountsConflicts meter.old meter.new }
    ensures uncounted { IsRefutedAtOnce (solver.old.added ++ solver.old.learned) assumptions.now
        → solver.new.learned ≡ solver.old.learned }
    ensures unlimited { IsRefutedAtOnce (solver.old.added ++ solver.old.learned) assumptions.now
        → IfErr result IsNoLimit }
{
    solver.solve(assumptions, meter)
}

/// So of any question to a solver that is kept.
fn asked(
    solver: &mut Solver,
    alloc: Global,
    assumptions: &[Lit],
    meter: &mut Meter,
) -> Result<Asked, SolveEnd>
    ensures sizes { IfOk result (λ asked. AreSized assumptions.now) }
    ensures learned { Learns solver.old.added solver.old.learned solver.new.learned }
    ensures counted { meter.new ≡ with_conflicts meter.old (length solver.new.learned - length solver.old.learned) }
    ensures uncounted { IsRefutedAtOnce (solver.old.added ++ solver.old.learned) assumptions.now
        → solver.new.learned ≡ solver.old.learned }
    ensures unlimited { IsRefutedAtOnce (solver.old.added ++ solver.old.learned) assumptions.now
        → IfErr result IsNoLimit }
{
    solver.ask(alloc, assumptions, meter)
}

/// And of one with units.
fn refuted(
    solver: &mut Solver,
    alloc: Global,
    units: &[Lit],
    meter: &mut Meter,
) -> Result<Refuted, SolveEnd>
    requires sizes { AreSized units.now }
    ensures learned { Learns solver.old.added solver.old.learned solver.new.learned }
    ensures counted { meter.new ≡ with_conflicts meter.old (length solver.new.learned - length solver.old.learned) }
    ensures uncounted { IsRefutedAtOnce (solver.old.added ++ unit_clauses units.now ++ solver.old.learned) []
        → solver.new.learned ≡ solver.old.learned }
    ensures unlimited { IsRefutedAtOnce (solver.old.added ++ unit_clauses units.now ++ solver.old.learned) []
        → IfErr result IsNoLimit }
{
    solver.refute(alloc, units, meter)
}
