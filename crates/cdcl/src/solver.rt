//! The solver. The main type is `Solver`.
ghost use Rattle.std.specs.Prelude.{◌≡◌, ◌<◌, ◌-◌, ◌^◌, [], ◌∷◌, ◌++◌, IfOk, IfErr, OnOk, OnErr, length, false};
ghost use Rattle.proof_semantics.specs.Lines.{AreSized};
ghost use Rattle.edge.specs.Ends.{CountsConflicts, IsEnd};
ghost use Rattle.cdcl.specs.Adding.{AddsFirst};
ghost use Rattle.cdcl.specs.Asking.{IsAsked, assigned};
ghost use Rattle.cdcl.specs.Counting.{IsNoLimit, IsRefutedAtOnce};
ghost use Rattle.cdcl.specs.Refuting.{IsRefuted};
ghost use Rattle.cdcl_log.specs.UnitClauses.{unit_clauses};
ghost use Rattle.cdcl.specs.Solving.{IsAnswer, IsBounded, Learns, with_conflicts};
ghost use Rattle.proof_semantics.specs.Clauses.{has_opposites};

use crate::answering::{search_answer, search_asked};
use crate::asking::{Asked, Refuted};
use crate::conditions::are_sized;
use crate::refuting::search_refuted;
use crate::solving::Answer;
use cdcl_log::Log;
use cdcl_order::{FirstValues, Order};
use cdcl_trail::Trail;
use cnf::{Clause, Lit, Var};
use edge::{Meter, SolveEnd};
use std::alloc::{AllocError, Global};
use std::marker::Model;

/// A solver. Contracts see the clauses that were added and those that it learned, in their order,
/// and the literals that were true behind the last question. It never forgets a clause, and keeps
/// its trail from question to question: what is true without assumptions is propagated once.
#[derive(Drop)]
pub struct Solver {
    log: Log,
    order: Order,
    trail: Trail,
    alloc: Global,
}

impl Model for Solver {
    ghost use Rattle.cdcl.specs.Solving.{Solving};
    ghost use Rattle.cdcl_log.specs.LoggedClauses.{added_of, learned_of};
    ghost use Rattle.cdcl.specs.Progress.{IsStanding};
    ghost use Rattle.cdcl_trail.specs.Trails.{literals_of};

    ghost Value = { Solving };

    ghost view = { λ s. record {
      added = added_of s.log;
      learned = learned_of s.log;
      values = literals_of s.trail.steps;
    } };

    ghost invariant = { λ s. IsStanding s.log s.trail };
}

impl Solver {
    /// A solver without clauses, which decides a variable with the value that it had last, and with
    /// false where it had none. The error is want of memory.
    pub fn new(alloc: Global) -> Result<Solver, AllocError>
        ensures added { IfOk result (λ solver. solver.added ≡ []) }
        ensures learned { IfOk result (λ solver. solver.learned ≡ []) }
    {
        Solver::deciding(alloc, FirstValues::AllFalse)
    }

    /// The same, with its value of these where it had none. No clause speaks of them.
    pub fn deciding(alloc: Global, first: FirstValues) -> Result<Solver, AllocError>
        ensures added { IfOk result (λ solver. solver.added ≡ []) }
        ensures learned { IfOk result (λ solver. solver.learned ≡ []) }
    {
        Ok(Solver {
            log: Log::new(alloc),
            order: Order::new(alloc, first),
            trail: Trail::new(alloc),
            alloc,
        })
    }

    /// A solver with these clauses, each added as `add_sized` does.
    pub fn with_clauses(alloc: Global, clauses: Vec<Clause>) -> Result<Solver, AllocError>
        ensures added { IfOk result (λ solver. solver.added ≡ clauses.items) }
        ensures learned { IfOk result (λ solver. solver.learned ≡ []) }
    {
        let mut solver = Solver::new(alloc)?;
        match solver.add_all(clauses) {
            Ok(()) => Ok(solver),
            Err(refused) => {
                drop(solver);
                Err(refused)
            }
        }
    }

    /// Adds a clause, whose variables are from 1 to 2^63 - 1; values stay. The error is want of
    /// memory, and changes nothing.
    pub fn add(&mut self, clause: Clause) -> Result<(), AllocError>
        requires { AreSized clause }
        ensures added { OnOk result (self.new.added ≡ self.old.added ++ clause ∷ []) }
        ensures learned { self.new.learned ≡ self.old.learned }
        ensures values { self.new.values ≡ self.old.values }
        ensures err { OnErr result (self.new ≡ self.old) }
    {
        self.log.add(clause)
    }

    /// Adds a clause; values stay. Where one of its variables is 0, or is from 2^63 on, the error is
    /// that of memory. An error changes nothing.
    pub fn add_sized(&mut self, clause: Clause) -> Result<(), AllocError>
        ensures added { OnOk result (self.new.added ≡ self.old.added ++ clause ∷ []) }
        ensures sized { OnOk result (AreSized clause) }
        ensures learned { self.new.learned ≡ self.old.learned }
        ensures values { self.new.values ≡ self.old.values }
        ensures err { OnErr result (self.new ≡ self.old) }
    {
        if !are_sized(clause.as_slice()) {
            return Err(AllocError);
        }
        self.add(clause)
    }

    /// Adds the clauses in their order, each as `add_sized` does. At an error the first of them may
    /// have been added.
    pub fn add_all(&mut self, clauses: Vec<Clause>) -> Result<(), AllocError>
        ensures added { OnOk result (self.new.added ≡ self.old.added ++ clauses.items) }
        ensures first { AddsFirst clauses.items self.old.added self.new.added }
        ensures learned { self.new.learned ≡ self.old.learned }
        ensures values { self.new.values ≡ self.old.values }
    {
        for clause in clauses {
            self.add_sized(clause)?;
        }
        Ok(())
    }

    /// How many clauses were added. Takes no memory.
    pub fn count_added(&self) -> u64
        ensures { result ≡ length self.now.added }
    {
        self.log.added()
    }

    /// Whether the added clauses have a model under the assumptions, none of which is the negation
    /// of another; their variables are from 1 to 2^63 - 1. Each learned clause is counted by the
    /// meter. `Spent` comes where the count of conflicts is at its limit; but what unit propagation
    /// over the added and the learned clauses refutes is answered without a conflict, at any limit.
    /// After an error the solver can be asked again.
    pub fn solve(&mut self, assumptions: &[Lit], meter: &mut Meter) -> Result<Answer, SolveEnd>
        requires apart { has_opposites assumptions.now ≡ false }
        requires sizes { AreSized assumptions.now }
        ensures answer { IfOk result (IsAnswer self.old.added assumptions.now) }
        ensures end { IfErr result (IsEnd meter.new) }
        ensures added { self.new.added ≡ self.old.added }
        ensures learned { Learns self.old.added self.old.learned self.new.learned }
        ensures bounded { IsBounded self.old assumptions.now self.new.learned }
        ensures counted { meter.new ≡ with_conflicts meter.old (length self.new.learned - length self.old.learned) }
        ensures alone { CountsConflicts meter.old meter.new }
        ensures uncounted { IsRefutedAtOnce (self.old.added ++ self.old.learned) assumptions.now → self.new.learned ≡ self.old.learned }
        ensures unlimited { IsRefutedAtOnce (self.old.added ++ self.old.learned) assumptions.now → IfErr result IsNoLimit }
    {
        bound_conflicts(meter);
        search_answer(
            self.alloc,
            &mut self.log,
            &mut self.order,
            &mut self.trail,
            assumptions,
            meter,
        )
    }

    /// The same question of any assumptions, without a proof; where there is a model, `value` tells it
    /// until the next question. Opposites are refused without a search; and where a variable is 0, or
    /// is from 2^63 on, the error is that of memory.
    pub fn ask(
        &mut self,
        alloc: Global,
        assumptions: &[Lit],
        meter: &mut Meter,
    ) -> Result<Asked, SolveEnd>
        ensures answer { IfOk result (IsAsked self.old.added assumptions.now self.new.values) }
        ensures sizes { IfOk result (λ asked. AreSized assumptions.now) }
        ensures end { IfErr result (IsEnd meter.new) }
        ensures added { self.new.added ≡ self.old.added }
        ensures learned { Learns self.old.added self.old.learned self.new.learned }
        ensures bounded { IsBounded self.old assumptions.now self.new.learned }
        ensures counted { meter.new ≡ with_conflicts meter.old (length self.new.learned - length self.old.learned) }
        ensures alone { CountsConflicts meter.old meter.new }
        ensures uncounted { IsRefutedAtOnce (self.old.added ++ self.old.learned) assumptions.now → self.new.learned ≡ self.old.learned }
        ensures unlimited { IsRefutedAtOnce (self.old.added ++ self.old.learned) assumptions.now → IfErr result IsNoLimit }
    {
        bound_conflicts(meter);
        search_asked(
            alloc,
            &mut self.log,
            &mut self.order,
            &mut self.trail,
            assumptions,
            meter,
        )
    }

    /// Whether the added clauses, and behind them these literals as unit clauses, have a model, which
    /// `value` tells until the next question; and where they have none, a proof that refutes just
    /// that list. Two units may be opposites, and then the proof is one line.
    pub fn refute(
        &mut self,
        alloc: Global,
        units: &[Lit],
        meter: &mut Meter,
    ) -> Result<Refuted, SolveEnd>
        requires sizes { AreSized units.now }
        ensures answer { IfOk result (IsRefuted self.old.added units.now self.new.values) }
        ensures end { IfErr result (IsEnd meter.new) }
        ensures added { self.new.added ≡ self.old.added }
        ensures learned { Learns self.old.added self.old.learned self.new.learned }
        ensures bounded { IsBounded self.old units.now self.new.learned }
        ensures counted { meter.new ≡ with_conflicts meter.old (length self.new.learned - length self.old.learned) }
        ensures alone { CountsConflicts meter.old meter.new }
        ensures uncounted { IsRefutedAtOnce (self.old.added ++ unit_clauses units.now ++ self.old.learned) [] → self.new.learned ≡ self.old.learned }
        ensures unlimited { IsRefutedAtOnce (self.old.added ++ unit_clauses units.now ++ self.old.learned) [] → IfErr result IsNoLimit }
    {
        bound_conflicts(meter);
        search_refuted(
            alloc,
            &mut self.log,
            &mut self.order,
            &mut self.trail,
            units,
            meter,
        )
    }

    /// The value of a variable where the last question, to `ask` or `refute`, found a model. Any
    /// clauses may have been added since. Takes no memory.
    pub fn value(&self, var: Var) -> bool
        ensures { result ≡ assigned self.now.values var }
    {
        self.trail.value(var).unwrap_or(false)
    }
}

// A meter's count of conflicts is a number of 64 bits.
fn bound_conflicts(meter: &Meter)
    ensures { meter.now.conflicts < 2 ^ 64 }
{
    let _conflicts = meter.spending().conflicts();
}

fn send<T: Send>() {}

/// Nothing: it has a proof only where a solver may be handed to another thread.
pub fn threads_hand_on_solvers() {
    send::<Solver>();
}
