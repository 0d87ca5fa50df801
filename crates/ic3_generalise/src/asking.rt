//! A test of cubes that is asked for. The main type is `Asker`.
ghost use Rattle.std.specs.Prelude.{List, ◌≡◌, ◌↔◌, true, IsSome, IfSome, IfOk, IfErr};
ghost use Rattle.proof_semantics.specs.declared.literals.Lit.{Lit};
ghost use Rattle.proof_semantics.specs.Clauses.{is_part};
ghost use Rattle.edge.specs.Ends.{CountsConflicts, IsEnd};

use cnf::Cube;
use edge::{Meter, SolveEnd};
use std::alloc::Global;

/// What tests cubes, as a solver that keeps a frame tests whether a cube is excluded from the states behind it.
pub trait Asker {
    // The test of cubes, over what the asker keeps.
    ghost passes: { Self → List Lit → Type 0 };

    // What else of an asker a question leaves as it was; in code over any asker nothing else gives this.
    ghost leaves: { Self → Self → Type 0 };

    /// Whether the cube passes the test, and then a part of it that passes too. `Spent` comes where the meter's count
    /// of conflicts is at its limit. After each answer and each error the test of every cube is as before.
    fn excluded(
        &mut self,
        alloc: Global,
        cube: &Cube,
        meter: &mut Meter,
    ) -> Result<Option<Cube>, SolveEnd>
        ensures exactly { IfOk result (λ answer. IsSome answer ↔ passes self.old cube.now) }
        ensures part { IfOk result (λ answer. IfSome answer (λ part. is_part part cube.now ≡ true)) }
        ensures passing { IfOk result (λ answer. IfSome answer (passes self.old)) }
        ensures kept { (c : List Lit) → passes self.new c ↔ passes self.old c }
        ensures left { leaves self.old self.new }
        ensures counted { CountsConflicts meter.old meter.new }
        ensures end { IfErr result (IsEnd meter.new) };

    // Without a question nothing changes.
    ghost leaves_itself: { (a : Self) → leaves a a };

    // What two questions leave one after the other.
    ghost leaves_on: { (a b c : Self) → leaves a b → leaves b c → leaves a c };
}
