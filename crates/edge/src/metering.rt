//! Counts of a search's work against limits. The main type is `Meter`, each of whose calls counts one unit.
//! A unit is counted only where its work is shown: the condition of the call says which.
ghost use Rattle.std.specs.Prelude.{List, Some, ◌≡◌, ◌↔◌, IsErr, IfErr, OnOk, OnErr};
ghost use Rattle.proof_semantics.specs.declared.literals.Lit.{Lit};
ghost use Rattle.proof_semantics.specs.Clauses.{clauses_value, values_of};
ghost use Rattle.edge.specs.Faults.{one_more};
ghost use Rattle.edge.specs.Units.{limit_of, IsWithin, SpentConflict, SpentLemma, SpentFrame};
ghost use Rattle.edge.specs.declared.metering.Counted.TheVariants.{Conflicts, Steps};

use crate::bells::Bell;
use cnf::{Clause, Db, eval};
use std::marker::Model;
use std::sync::Arc;
use thiserror::Error;

/// What is counted.
#[derive(Debug, Clone, Copy, PartialEq, Eq)]
pub enum Counted {
    /// Learned clauses.
    Conflicts,
    /// Lemmas and frames.
    Steps,
}

/// A limit is reached, and nothing was counted.
#[derive(Debug, Clone, Copy, PartialEq, Eq, Error)]
#[error("the limit {limit} is reached")]
pub struct Spent {
    /// Which count it is that is at its limit.
    pub kind: Counted,
    /// That limit.
    pub limit: u64,
}

/// What stands for a list of clauses, however it keeps them.
pub trait Held {
    // The clauses.
    ghost clauses: { Self → List (List Lit) };

    /// Whether every clause is true where variable v has the value at place v. A variable past the
    /// end is false. Takes no memory.
    fn allows(&self, state: &[bool]) -> bool
        ensures { result ≡ clauses_value (values_of state.now) (clauses self.now) };
}

impl Held for Db {
    ghost clauses = { λ db. db.clauses };

    fn allows(&self, state: &[bool]) -> bool {
        eval(self, state)
    }
}

/// What a meter had counted at a time, with its limits. Only a meter makes one.
#[derive(Clone, Copy)]
pub struct Spending {
    conflicts: u64,
    conflict_limit: Option<u64>,
    steps: u64,
    step_limit: Option<u64>,
}

impl Model for Spending {
    ghost use Rattle.edge.specs.Units.{Spendings, IsWithin};

    ghost Value = { Spendings };

    ghost view = { λ s. record {
      conflicts = s.conflicts;
      conflict_limit = s.conflict_limit;
      steps = s.steps;
      step_limit = s.step_limit;
    } };

    ghost invariant = { λ s. IsWithin s.conflicts s.conflict_limit × IsWithin s.steps s.step_limit };

    ghost inverse = { λ s. record {
      conflicts = s.conflicts;
      conflict_limit = s.conflict_limit;
      steps = s.steps;
      step_limit = s.step_limit;
    } };
}

impl Spending {
    /// How many conflicts were counted, never more than their limit.
    pub fn conflicts(&self) -> u64
        ensures count { result ≡ self.now.conflicts }
        ensures within { IsWithin result self.now.conflict_limit }
    {
        self.conflicts
    }

    /// How many conflicts may be counted. `None` where there is no limit.
    pub fn conflict_limit(&self) -> Option<u64>
        ensures { result ≡ self.now.conflict_limit }
    {
        self.conflict_limit
    }

    /// How many steps were counted, never more than their limit.
    pub fn steps(&self) -> u64
        ensures count { result ≡ self.now.steps }
        ensures within { IsWithin result self.now.step_limit }
    {
        self.steps
    }

    /// How many steps may be counted. `None` where there is no limit.
    pub fn step_limit(&self) -> Option<u64>
        ensures { result ≡ self.now.step_limit }
    {
        self.step_limit
    }
}

/// Counts of conflicts and of steps, each with its limit, and the bell that the search listens for, if there is one.
/// Contracts see the counts and limits. None of its calls takes memory.
#[derive(Drop)]
pub struct Meter {
    spending: Spending,
    bell: Option<Arc<Bell>>,
}

impl Model for Meter {
    ghost use Rattle.edge.specs.Units.{Spendings};

    ghost Value = { Spendings };

    ghost view = { λ m. m.spending };
}

/// The least number that is no limit.
const NO_LIMIT: u64 = 4_294_967_295;

impl Meter {
    /// A meter with these limits that has counted nothing, without a bell. A limit of 4,294,967,295 or more is none.
    pub fn new(conflicts: u64, steps: u64) -> Meter
        ensures { result ≡ record {
          conflicts = 0;
          conflict_limit = limit_of conflicts;
          steps = 0;
          step_limit = limit_of steps;
        } }
    {
        Meter {
            spending: Spending {
                conflicts: 0,
                conflict_limit: real_limit(conflicts),
                steps: 0,
                step_limit: real_limit(steps),
            },
            bell: None,
        }
    }

    /// The same meter with this bell, in place of its own.
    pub fn with_bell(self, bell: Arc<Bell>) -> Meter
        ensures { result ≡ self }
    {
        Meter {
            spending: self.spending,
            bell: Some(bell),
        }
    }

    /// Whether it has a bell that is rung. No clause says so: a search that is called answers want of memory.
    pub fn is_called(&self) -> bool {
        match &self.bell {
            Some(bell) => bell.is_rung(),
            None => false,
        }
    }

    /// What was counted up to now, with the limits.
    pub fn spending(&self) -> Spending
        ensures { result ≡ self.now }
    {
        self.spending
    }

    /// Counts a conflict: `learned` follows from `held`, has no literal beside its negation, and no
    /// clause of `held` is a part of it. The error comes exactly where the count of conflicts is at
    /// its limit. A count of 2^64 - 1 stays.
    pub fn conflict(&mut self, held: &Db, learned: &Clause) -> Result<(), Spent>
        requires { SpentConflict held.now.clauses learned.now }
        ensures spent { IsErr result ↔ (self.old.conflict_limit ≡ Some self.old.conflicts) }
        ensures limit { IfErr result (λ spent. spent ≡ record { kind = Conflicts; limit = self.old.conflicts }) }
        ensures counted { OnOk result (self.new ≡ record self.old { conflicts = one_more self.old.conflicts }) }
        ensures kept { OnErr result (self.new ≡ self.old) }
    {
        let spending = &mut self.spending;
        count_one(
            Counted::Conflicts,
            &mut spending.conflicts,
            spending.conflict_limit,
        )
    }

    /// Counts a step: `state` meets every clause of `frame`, and not `lemma`. The error comes
    /// exactly where the count of steps is at its limit. A count of 2^64 - 1 stays.
    pub fn lemma<F: Held>(&mut self, frame: &F, lemma: &Clause, state: &[bool]) -> Result<(), Spent>
        requires { SpentLemma (F.clauses frame.now) lemma.now state.now }
        ensures spent { IsErr result ↔ (self.old.step_limit ≡ Some self.old.steps) }
        ensures limit { IfErr result (λ spent. spent ≡ record { kind = Steps; limit = self.old.steps }) }
        ensures counted { OnOk result (self.new ≡ record self.old { steps = one_more self.old.steps }) }
        ensures kept { OnErr result (self.new ≡ self.old) }
    {
        self.step()
    }

    /// Counts a step: a frame is opened above others, and `deltas` says for each of these how many
    /// lemmas it has that the next has not, at least one. The error comes exactly where the count of
    /// steps is at its limit. A count of 2^64 - 1 stays.
    pub fn frame(&mut self, deltas: &[u64]) -> Result<(), Spent>
        requires { SpentFrame deltas.now }
        ensures spent { IsErr result ↔ (self.old.step_limit ≡ Some self.old.steps) }
        ensures limit { IfErr result (λ spent. spent ≡ record { kind = Steps; limit = self.old.steps }) }
        ensures counted { OnOk result (self.new ≡ record self.old { steps = one_more self.old.steps }) }
        ensures kept { OnErr result (self.new ≡ self.old) }
    {
        self.step()
    }

    // Counts a step, whatever it was for.
    fn step(&mut self) -> Result<(), Spent>
        ensures spent { IsErr result ↔ (self.old.step_limit ≡ Some self.old.steps) }
        ensures limit { IfErr result (λ spent. spent ≡ record { kind = Steps; limit = self.old.steps }) }
        ensures counted { OnOk result (self.new ≡ record self.old { steps = one_more self.old.steps }) }
        ensures kept { OnErr result (self.new ≡ self.old) }
    {
        let spending = &mut self.spending;
        count_one(Counted::Steps, &mut spending.steps, spending.step_limit)
    }
}

/// The limit that a number asks for.
fn real_limit(asked: u64) -> Option<u64>
    ensures { result ≡ limit_of asked }
{
    if asked < NO_LIMIT { Some(asked) } else { None }
}

/// Counts one more, unless the count is at its limit.
fn count_one(kind: Counted, count: &mut u64, limit: Option<u64>) -> Result<(), Spent>
    ensures spent { IsErr result ↔ (limit ≡ Some count.old) }
    ensures limit { IfErr result (λ spent. spent ≡ record { kind = kind; limit = count.old }) }
    ensures counted { OnOk result (count.new ≡ one_more count.old) }
    ensures kept { OnErr result (count.new ≡ count.old) }
    ensures within { IsWithin count.old limit → IsWithin count.new limit }
{
    if limit == Some(*count) {
        return Err(Spent {
            kind,
            limit: *count,
        });
    }
    *count = count.saturating_add(1);
    Ok(())
}

fn send<T: Send>() {}

/// Nothing: it has a proof only where a meter may be handed to another thread.
pub fn threads_hand_on_meters() {
    send::<Meter>();
}
