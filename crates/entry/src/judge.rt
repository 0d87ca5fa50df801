//! A judge of the proofs of entries, clause by clause and line by line. The main type is `Judge`.

ghost use Rattle.std.specs.Prelude.{◌≡◌, ℕ, ◌<◌, ◌++◌, [], ◌∷◌, map, take, length, Ok, OnOk, OnErr, IfOk};
ghost use Rattle.proof_semantics.specs.Clauses.{negation};
ghost use Rattle.proof_semantics.specs.Proofs.{start, judge, judge_all};
ghost use Rattle.lrat.specs.Judging.{Judges};
ghost use Rattle.cnf_unroll.specs.Numbers.{successor_place, literal_at_place};
ghost use Rattle.cnf_unroll.specs.Obligations.{units, shared_clauses, broken_literals, skeleton_clauses};
ghost use Rattle.cnf_unroll.specs.Blocks.{step_clauses};
ghost use Rattle.cnf_unroll.specs.Lending.{lent_all};
ghost use Rattle.entry.specs.Faults.{fault_from, lines_before};

use circuit::Circuit;
use cnf::{Clause, ProofLine};
use cnf_unroll::{ClauseSet, Used, shared_behind, skeleton_cnf, step_cnf};
use fair_semantics::Use;
use lrat::{Checker, LratEnd};
use proof_semantics::{Lit, LratFault};
use std::alloc::{AllocError, Global};
use std::marker::Model;

/// A judge of proofs. It keeps the circuit's clauses from entry to entry, and what the obligations of an entry share from
/// clause to clause: it goes on in the time that the entry, or the clause, and the proofs take.
#[derive(Drop)]
pub struct Judge {
    checker: Checker,
    // How many of the given clauses are the circuit's, and how many the entry's obligations share.
    block: usize,
    shared: usize,
}

impl Model for Judge {
    ghost use Rattle.entry.specs.Judging.{Judging, seen, IsWithin};

    ghost Value = { Judging };

    ghost view = { seen };

    ghost invariant = { IsWithin };
}

impl Judge {
    /// A judge of the proofs of entries, before the first of them. Until it goes to one it has the circuit's clauses
    /// alone. The error is want of memory.
    pub fn new(alloc: Global, c: &Circuit) -> Result<Judge, AllocError>
        ensures block { IfOk result (λ j. j.block ≡ step_clauses c.now) }
        ensures shared { IfOk result (λ j. j.shared ≡ step_clauses c.now) }
        ensures proof { IfOk result (λ j. j.proof ≡ start (step_clauses c.now)) }
    {
        let clauses = step_cnf(alloc, c)?;
        let count = clauses.len();
        let checker = Checker::new(alloc, clauses)?;
        Ok(Judge {
            checker,
            block: count,
            shared: count,
        })
    }

    /// Goes to an entry with this set and these uses, `used` being the entries that it uses. It takes time for these
    /// alone, not for the circuit. The error is want of memory, and changes nothing.
    pub fn enter(
        &mut self,
        alloc: Global,
        c: &Circuit,
        used: &[Used],
        own: &[Use],
        set: &ClauseSet,
    ) -> Result<(), AllocError>
        requires { self.old.block ≡ step_clauses c.now }
        ensures ok { OnOk result (self.new.shared ≡ shared_clauses c.now (lent_all used.now) own.now set.now) }
        ensures proof { OnOk result (self.new.proof ≡ start self.new.shared) }
        ensures block { self.new.block ≡ self.old.block }
        ensures err { OnErr result (self.new ≡ self.old) }
    {
        let more = shared_behind(alloc, c, used, own, set)?;
        self.checker.restart(self.block, more.as_slice())?;
        self.shared = self.checker.given();
        Ok(())
    }

    /// A judge of the proof of a refutation of property `j`, counted from 0, before its first line, `used` being the
    /// entries that it uses. The error is want of memory.
    pub fn refutation(
        alloc: Global,
        c: &Circuit,
        j: u32,
        used: &[Used],
    ) -> Result<Judge, AllocError>
        requires { j < length c.now.justice }
        ensures proof { IfOk result (λ judge. judge.proof ≡ start (skeleton_clauses c.now j (lent_all used.now))) }
        ensures block { IfOk result (λ judge. judge.block ≡ skeleton_clauses c.now j (lent_all used.now)) }
        ensures shared { IfOk result (λ judge. judge.shared ≡ skeleton_clauses c.now j (lent_all used.now)) }
    {
        let clauses = skeleton_cnf(alloc, c, j, used)?;
        let count = clauses.len();
        let checker = Checker::new(alloc, clauses)?;
        Ok(Judge {
            checker,
            block: count,
            shared: count,
        })
    }

    /// Goes to the obligation of a clause, before the first line of its proof. The error is want of memory, and changes
    /// nothing.
    pub fn begin(&mut self, alloc: Global, c: &Circuit, clause: &Clause) -> Result<(), AllocError>
        ensures ok { OnOk result (self.new.proof ≡ start (self.old.shared ++ units (broken_literals c.now clause.now))) }
        ensures block { self.new.block ≡ self.old.block }
        ensures shared { self.new.shared ≡ self.old.shared }
        ensures err { OnErr result (self.new ≡ self.old) }
    {
        let more = broken_clauses(alloc, c, clause)?;
        self.checker.restart(self.shared, more.as_slice())
    }

    /// Judges a line of the proof, given without its line feed. After an error the judge is as before.
    pub fn step(&mut self, line: &[u8]) -> Result<(), LratEnd>
        ensures judged { Judges result (judge self.old.proof line.now) self.new.proof }
        ensures block { self.new.block ≡ self.old.block }
        ensures shared { self.new.shared ≡ self.old.shared }
        ensures err { OnErr result (self.new ≡ self.old) }
    {
        self.checker.step(line)
    }

    /// Whether an empty clause was given or added.
    pub fn is_finished(&self) -> bool
        ensures { result ≡ self.now.proof.finished }
    {
        self.checker.proved_empty()
    }

    /// The first fault of a whole proof from where the judge stands, with the number of its line. The judge then stands
    /// behind the lines that passed. The error is want of memory: the judge then stands behind some first lines.
    #[tactic(auto, using(crate::proofs::Passing::passed_whole))]
    pub fn proof_fault(
        &mut self,
        lines: &[ProofLine],
    ) -> Result<Option<(u64, LratFault)>, AllocError>
        ensures fault { IfOk result (λ fault. fault ≡ fault_from 0 self.old.proof lines.now) }
        ensures passed { IfOk result (λ fault.
            judge_all self.old.proof (take (lines_before lines.now fault) lines.now) ≡ Ok self.new.proof) }
        ensures some { OnErr result ((n : ℕ) × (judge_all self.old.proof (take n lines.now) ≡ Ok self.new.proof)) }
        ensures block { self.new.block ≡ self.old.block }
        ensures shared { self.new.shared ≡ self.old.shared }
    {
        for (k, line) in lines.iter().enumerate() {
            match self.step(line.as_slice()) {
                Ok(()) => {}
                Err(LratEnd::Fault(fault)) => return Ok(Some((k as u64, fault))),
                Err(LratEnd::Memory) => return Err(AllocError),
            }
        }
        if self.is_finished() {
            return Ok(None);
        }
        Ok(Some((lines.len() as u64, LratFault::Unfinished)))
    }
}

// The negation of a literal over latch numbers, at the successor.
fn broken_literal(c: &Circuit, literal: Lit) -> Lit
    ensures { result ≡ negation (literal_at_place (successor_place c.now 0) literal) }
{
    let greatest = c.max();
    let var = match c.latches().get(literal.var as usize) {
        Some(latch) => greatest + 2 + latch.var,
        None => 0,
    };
    Lit {
        var,
        positive: !literal.positive,
    }
}

fn broken_clauses(alloc: Global, c: &Circuit, clause: &Clause) -> Result<Vec<Clause>, AllocError>
    ensures { IfOk result (λ more. more.items ≡ units (broken_literals c.now clause.now)) }
{
    let mut more = Vec::new(alloc);
    for literal in clause.as_slice() {
        more.push(Clause::from_slice(alloc, &[broken_literal(c, *literal)])?)?;
    }
    Ok(more)
}
