//! A solver beside a record of what it was given. The main type is `Session`.

use crate::judging::{Said, judge, judge_asked, judge_refuted};
use crate::questions::{clauses, has_model, literals};
use cdcl::{Solver, are_sized, has_opposites};
use cnf::{Clause, Lit};
use edge::{Meter, SolveEnd};
use std::alloc::{AllocError, Global};

/// No limit of conflicts.
pub(crate) const NO_LIMIT: u64 = 4_294_967_295;

/// 2^62: no list of values has a place for this variable.
pub(crate) const FAR: i64 = 4_611_686_018_427_387_904;

/// The call that a question goes to.
#[derive(Clone, Copy)]
pub(crate) enum Way {
    /// `solve`.
    Solve,
    /// `ask`.
    Ask,
    /// `refute`, of units in place of assumptions.
    Refute,
}

impl Way {
    /// Its name.
    pub(crate) fn name(self) -> &'static str {
        match self {
            Way::Solve => "solve",
            Way::Ask => "ask",
            Way::Refute => "refute",
        }
    }
}

/// The three calls.
pub(crate) const WAYS: [Way; 3] = [Way::Solve, Way::Ask, Way::Refute];

/// A solver, and the clauses that were added to it.
#[derive(Drop)]
pub(crate) struct Session {
    alloc: Global,
    way: Way,
    solver: Solver,
    added: Vec<i64>,
    core: Vec<i64>,
    conflicts: u64,
}

impl Session {
    /// A solver with these clauses, with a 0 behind each.
    pub(crate) fn new(alloc: Global, way: Way, numbers: &[i64]) -> Result<Session, AllocError> {
        let added = Vec::from_slice(alloc, numbers)?;
        let solver = Solver::with_clauses(alloc, clauses(alloc, numbers)?)?;
        Ok(Session {
            alloc,
            way,
            solver,
            added,
            core: Vec::new(alloc),
            conflicts: 0,
        })
    }

    /// Adds clauses behind those that are there.
    pub(crate) fn add(&mut self, numbers: &[i64]) -> Result<(), AllocError> {
        self.added.extend_from_slice(numbers)?;
        self.solver.add_all(clauses(self.alloc, numbers)?)
    }

    /// What the solver says under assumptions, after a look at it.
    pub(crate) fn ask(&mut self, assumed: &[i64], limit: u64) -> Result<Said, AllocError> {
        self.core.clear();
        let mut meter = Meter::new(limit, 0);
        let said = self.ask_on(assumed, &mut meter)?;
        self.conflicts = meter.spending().conflicts();
        Ok(said)
    }

    /// The same, counted on this meter.
    pub(crate) fn ask_on(
        &mut self,
        assumed: &[i64],
        meter: &mut Meter,
    ) -> Result<Said, AllocError> {
        let literals = literals(self.alloc, assumed)?;
        match self.way {
            Way::Solve => self.solve_one(assumed, literals.as_slice(), meter),
            Way::Ask => self.ask_one(assumed, literals.as_slice(), meter),
            Way::Refute => self.refute_one(assumed, literals.as_slice(), meter),
        }
    }

    // Asks what may be asked. Other assumptions are an error, so that no test passes over them.
    fn solve_one(
        &mut self,
        assumed: &[i64],
        assumptions: &[Lit],
        meter: &mut Meter,
    ) -> Result<Said, AllocError> {
        if has_opposites(assumptions) || !are_sized(assumptions) {
            return Err(AllocError);
        }
        match self.solver.solve(assumptions, meter) {
            Ok(found) => {
                let added = self.added.as_slice();
                let said = judge(self.alloc, added, assumed, &found, &mut self.core);
                drop(found);
                said
            }
            Err(end) => Ok(said_at(&end)),
        }
    }

    // The same without a proof, under any assumptions.
    fn ask_one(
        &mut self,
        assumed: &[i64],
        assumptions: &[Lit],
        meter: &mut Meter,
    ) -> Result<Said, AllocError> {
        match self.solver.ask(self.alloc, assumptions, meter) {
            Ok(found) => {
                let said = judge_asked(
                    self.alloc,
                    self.added.as_slice(),
                    assumed,
                    &self.solver,
                    &found,
                    &mut self.core,
                );
                drop(found);
                said
            }
            Err(end) => Ok(said_at(&end)),
        }
    }

    // The same of units, which may be opposites.
    fn refute_one(
        &mut self,
        units: &[i64],
        literals: &[Lit],
        meter: &mut Meter,
    ) -> Result<Said, AllocError> {
        if !are_sized(literals) {
            return Err(AllocError);
        }
        match self.solver.refute(self.alloc, literals, meter) {
            Ok(found) => {
                let said = judge_refuted(
                    self.alloc,
                    self.added.as_slice(),
                    units,
                    &self.solver,
                    &found,
                );
                drop(found);
                said
            }
            Err(end) => Ok(said_at(&end)),
        }
    }

    /// Whether some values make the clauses and these assumptions true.
    pub(crate) fn has_model(&self, assumed: &[i64]) -> Result<bool, AllocError> {
        has_model(self.alloc, self.added.as_slice(), assumed)
    }

    /// Whether a clause of this one literal is refused, and then nothing was added.
    pub(crate) fn refuses(&mut self, literal: Lit) -> Result<bool, AllocError> {
        let before = self.solver.count_added();
        let clause = Clause::from_slice(self.alloc, &[literal])?;
        Ok(self.solver.add_sized(clause).is_err() && self.solver.count_added() == before)
    }

    /// From now on questions go to this call.
    pub(crate) fn turn_to(&mut self, way: Way) {
        self.way = way;
    }

    /// The core of the last answer, as numbers; nothing where there was none.
    pub(crate) fn core(&self) -> &[i64] {
        self.core.as_slice()
    }

    /// How many conflicts the last question took.
    pub(crate) fn conflicts(&self) -> u64 {
        self.conflicts
    }
}

fn said_at(end: &SolveEnd) -> Said {
    match end {
        SolveEnd::Spent(_) => Said::Spent,
        SolveEnd::Memory => Said::Memory,
    }
}
