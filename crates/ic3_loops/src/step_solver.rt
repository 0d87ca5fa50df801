//! What answers questions on one step of a search. The main type is `StepSolver`.
ghost use Rattle.std.specs.Prelude.{◌≡◌, length, IfOk, IfErr, OnOk, OnErr};
ghost use Rattle.std.specs.List.{All};
ghost use Rattle.cnf_unroll.specs.Laws.{AreOver};
ghost use Rattle.edge.specs.Ends.{CountsConflicts, IsEnd};
ghost use Rattle.entry.specs.CheckedEntries.{viewed};
ghost use Rattle.fair_semantics.specs.Validity.{AreValid};
ghost use Rattle.ic3_semantics.specs.Stepping.{Stepping, IsOver, IsFound, IsGoalFound, with_lemma};

use circuit::{Circuit, Position};
use cnf::{Clause, Cube};
use edge::{Meter, SolveEnd};
use entry::Checked;
use ic3_semantics::{Found, Start};
use std::alloc::{AllocError, Global};
use std::sync::Arc;

/// What tells the steps of the arena from a frame into a cube, and the positions at which a goal is met. It keeps the
/// lemmas of the frames.
pub trait StepSolver {
    // What is seen of it: its question, the cubes that a goal avoids, and its lemmas in the order in which they came.
    ghost seen: { Self → Stepping };

    /// How many latches the circuit has. Takes no memory.
    fn latches(&self) -> usize
        ensures { result ≡ length (seen self.now).question.circuit.latches };

    /// The circuit. Takes no memory.
    fn circuit(&self) -> &Circuit
        ensures circuit { result.now ≡ (seen self.now).question.circuit }
        ensures valid { AreValid (seen self.now).question.circuit (seen self.now).question.view };

    /// The entries that are known. Takes no memory.
    fn view(&self) -> &[Arc<Checked>]
        ensures view { viewed result.now ≡ (seen self.now).question.view }
        ensures over { All (λ e. AreOver (length (seen self.now).question.circuit.latches) e.clauses)
            (seen self.now).question.view };

    /// Where the search starts. Takes no memory.
    fn start(&self) -> &Start
        ensures { result.now ≡ (seen self.now).question.start };

    /// The cubes that a goal avoids. Takes no memory.
    fn avoid(&self) -> &[Cube]
        ensures avoid { result.now ≡ (seen self.now).avoid }
        ensures over { AreOver (length (seen self.now).question.circuit.latches) (seen self.now).avoid };

    /// Puts a lemma over the latches behind the others. The error is want of memory, and changes nothing that is seen.
    fn hold(&mut self, level: u64, clause: &Clause) -> Result<(), AllocError>
        requires { IsOver (length (seen self.old).question.circuit.latches) clause.now }
        ensures ok { OnOk result (seen self.new ≡ with_lemma (seen self.old) level clause.now) }
        ensures err { OnErr result (seen self.new ≡ seen self.old) };

    /// A step of the arena into the cube, from a state outside it that meets the lemmas of this level and of those
    /// above it; or, exactly where there is none, a part of the cube that no such step leads into. `Spent` comes where
    /// the meter's count of conflicts is at its limit.
    fn predecessor(
        &mut self,
        alloc: Global,
        level: u64,
        cube: &Cube,
        meter: &mut Meter,
    ) -> Result<Found, SolveEnd>
        requires { IsOver (length (seen self.old).question.circuit.latches) cube.now }
        ensures found { IfOk result (IsFound (seen self.old) level cube.now) }
        ensures same { seen self.new ≡ seen self.old }
        ensures end { IfErr result (IsEnd meter.new) }
        ensures counted { CountsConflicts meter.old meter.new };

    /// The same, for a cube of which the frame of this level is thought to have no state, as that of a lemma: it is asked
    /// for steps from the frame, so that no clause comes for states outside the cube. Where the frame has one all the same
    /// the answer is right still.
    fn predecessor_of_excluded(
        &mut self,
        alloc: Global,
        level: u64,
        cube: &Cube,
        meter: &mut Meter,
    ) -> Result<Found, SolveEnd>
        requires { IsOver (length (seen self.old).question.circuit.latches) cube.now }
        ensures found { IfOk result (IsFound (seen self.old) level cube.now) }
        ensures same { seen self.new ≡ seen self.old }
        ensures end { IfErr result (IsEnd meter.new) }
        ensures counted { CountsConflicts meter.old meter.new };

    /// A position at which the AIGER literal is met as goal, from a state that meets the lemmas of this level and of
    /// those above it; `None` exactly where there is none. `Spent` comes where the meter's count of conflicts is at its
    /// limit.
    fn meets_goal(
        &mut self,
        alloc: Global,
        level: u64,
        literal: u64,
        meter: &mut Meter,
    ) -> Result<Option<Position>, SolveEnd>
        ensures found { IfOk result (IsGoalFound (seen self.old) level literal) }
        ensures same { seen self.new ≡ seen self.old }
        ensures end { IfErr result (IsEnd meter.new) }
        ensures counted { CountsConflicts meter.old meter.new };
}
