//! The checker of a proof, line by line. The main call is `Checker::step`; after a line that is
//! refused the checker is as before.
ghost use Rattle.std.specs.Prelude.{◌≡◌, ℕ, ◌≤◌, List, ◌++◌, take, length, IsTrue, IfOk, OnOk, OnErr, Some};
ghost use Rattle.proof_semantics.specs.Clauses.{IsImplied, IsUnsatisfiable};
ghost use Rattle.proof_semantics.specs.Lines.{addition, line_of};
ghost use Rattle.proof_semantics.specs.Proofs.{start, judge};
ghost use Rattle.proof_semantics.specs.declared.literals.Lit.{Lit};
ghost use Rattle.lrat.specs.Judging.{Judges};

use crate::faults::LratEnd;
use crate::judging::{add_judged, delete_judged};
use crate::lines::{Kind, read_line};
use crate::marks::Marks;
use crate::store::Store;
use cnf::{Clause, Db};
use proof_semantics::{Lit, LratFault};
use std::alloc::{AllocError, Global};
use std::marker::Model;

/// A checker of one proof. Contracts see where the proof stands: the given clauses, the clauses
/// that are held with their ids, the greatest id so far, and whether an empty clause was given or
/// added.
#[derive(Drop)]
pub struct Checker {
    store: Store,
    marks: Marks,
    literals: Vec<Lit>,
    hints: Vec<Lit>,
}

impl Model for Checker {
    ghost use Rattle.proof_semantics.specs.Proofs.{ProofState};

    ghost Value = { ProofState };

    ghost use Rattle.lrat.specs.CheckerOf.{IsReady};

    ghost view = { λ c. c.store };

    ghost invariant = { IsReady };
}

impl Checker {
    /// A checker before the first line. The given clauses have the ids from 1 on, in their order.
    pub fn new(alloc: Global, given: Db) -> Result<Checker, AllocError>
        ensures { IfOk result (λ checker. checker ≡ start given.clauses) }
    {
        let mut checker = Checker {
            store: Store::new(alloc),
            marks: Marks::new(alloc),
            literals: Vec::new(alloc),
            hints: Vec::new(alloc),
        };
        checker.restart(0, given.as_slice())?;
        Ok(checker)
    }

    /// Goes back to before the first line, keeps the first given clauses, so many, and gives more
    /// behind them: what it leaves is a new checker of those and these. The time that it takes grows
    /// with `more` and with the clauses that are dropped, not with those that are kept. The error is
    /// want of memory, and changes nothing.
    pub fn restart(&mut self, kept: usize, more: &[Clause]) -> Result<(), AllocError>
        requires { kept ≤ length self.old.given }
        ensures ok { OnOk result (self.new ≡ start (take kept self.old.given ++ more.now)) }
        ensures err { OnErr result (self.new ≡ self.old) }
    {
        self.marks.widen(small_variables(self.store.count(), more))?;
        self.store.restart(kept, more)
    }

    /// How many clauses were given: so many may be kept at a restart. Takes no memory.
    pub fn given(&self) -> usize
        ensures { result ≡ length self.now.given }
    {
        self.store.given()
    }

    /// Tests a line, given without its line feed. `Ok` comes exactly for an accepted line, which
    /// adds or deletes; `Fault` is the first test that the line fails, and never `Unfinished`. In
    /// every other case but `Ok` the checker is as before.
    pub fn step(&mut self, line: &[u8]) -> Result<(), LratEnd>
        ensures judged { Judges result (judge self.old line.now) self.new }
        ensures err { OnErr result (self.new ≡ self.old) }
        ensures given { self.new.given ≡ self.old.given }

        // A clause that is added is true wherever the given clauses are.
        ensures implied { OnOk result ((id : ℕ) (clause hints : List Lit) → line_of line.now ≡ Some (addition id clause hints) → IsImplied self.old.given clause) }
    {
        let kind = read_line(line, &mut self.literals, &mut self.hints)?;
        match kind {
            None => Err(LratEnd::Fault(LratFault::BadLine)),
            Some(Kind::Addition(id)) => add_judged(
                &mut self.store,
                &mut self.marks,
                id,
                self.literals.as_slice(),
                self.hints.as_slice(),
            ),
            Some(Kind::Deletion(_)) => delete_judged(&mut self.store, self.literals.as_slice()),
        }
    }

    /// Whether an empty clause was given or added. Deletions do not undo this. Takes no memory.
    pub fn proved_empty(&self) -> bool
        ensures finished { result ≡ self.now.finished }

        // No assignment makes the given clauses true then, whatever lines came.
        ensures refuted { IsTrue result → IsUnsatisfiable self.now.given }
    {
        self.store.is_finished()
    }
}

// How many variables are to have a place in the table: those up to the greatest of the clauses, and
// at most sixteen for each literal there and for each of the `held` ones.
fn small_variables(held: usize, clauses: &[Clause]) -> usize {
    let mut greatest: u64 = 0;
    let mut count = held;
    for clause in clauses {
        count = count.saturating_add(clause.len());
        for literal in clause.as_slice() {
            greatest = greatest.max(literal.var);
        }
    }
    (greatest as usize)
        .min(count.saturating_mul(16))
        .saturating_add(1)
}

fn send<T: Send>() {}

/// Nothing: it has a proof only where a checker may be handed to another thread.
pub fn threads_hand_on_checkers() {
    send::<Checker>();
}
