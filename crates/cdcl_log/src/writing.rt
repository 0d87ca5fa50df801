//! The proof of a clause that the clauses of a log imply. The main call is `proof_of`.
ghost use Rattle.std.specs.Prelude.{◌≡◌, IfOk, OnOk, None, true, ◌++◌, length, map, is_some};
ghost use Rattle.std.specs.List.{list_all};
ghost use Rattle.proof_semantics.specs.Clauses.{negation};
ghost use Rattle.proof_semantics.specs.Lines.{AreSized};
ghost use Rattle.proof_semantics.specs.Propagation.{hints_fault};
ghost use Rattle.cnf.specs.Clauses.{clause_numbered};
ghost use Rattle.cdcl_log.specs.LoggedClauses.{IsLog, added_of};
ghost use Rattle.cdcl_log.specs.UnitClauses.{unit_clauses};
ghost use Rattle.cdcl_log.specs.WithUnits.{with_units};
ghost use Rattle.cdcl_log.specs.Writing.{Proves};
ghost use Rattle.cdcl_log.specs.WritingOf.{HasAllIds, HasLine, HasPut, HasVisited, HasVisitedLearned, HaveIds, IsPartialProofIn};

use crate::ids::{Ids, MOST_GIVEN};
use crate::log::Log;
use crate::marking::needed_by;
use crate::spelling::line_of;
use cnf::{Lit, Proof, ProofLine};
use items::Items;
use std::alloc::{AllocError, Global};

/// Proofs number their clauses below 2^63. So many clauses, or units, fit into no memory.
pub const MOST_CLAUSES: usize = 1 << 60;

/// Nor do so many lines.
const MOST_IDS: u64 = 1 << 62;

/// The proof of a clause that follows along the clauses with the numbers `hints`, over the added
/// clauses and units, which have the numbers behind the held clauses. It has a line for each learned
/// clause that is needed, and one for this clause.
pub fn proof_of(
    alloc: Global,
    log: &Log,
    units: &[Lit],
    clause: &[Lit],
    hints: &[u64],
) -> Result<Proof, AllocError>
    requires log { IsLog log.now }
    requires units { AreSized units.now }
    requires sized { AreSized clause.now }
    requires hints { hints_fault (clause_numbered (log.now.clauses ++ unit_clauses units.now)) (map negation clause.now) hints.now ≡ None }
    ensures { IfOk result (λ proof. Proves (added_of log.now ++ unit_clauses units.now) proof clause.now) }
{
    let mut writing = Writing::begin(alloc, log, units)?;
    writing.put_needed(alloc, log, units, hints)?;
    writing.complete(alloc, log, units, hints)?;
    writing.push_line(alloc, clause, hints)?;
    Ok(Items::from_vec(writing.lines))
}

// A proof as far as it is written: the ids of clauses, the lines, and the greatest id of a line,
// which is at first how many clauses are added.
#[derive(Drop)]
struct Writing<'a> {
    ids: Ids<'a>,
    lines: Vec<ProofLine>,
    last: u64,
}

impl<'a> Writing<'a> {
    // No line.
    fn begin(alloc: Global, log: &'a Log, units: &[Lit]) -> Result<Writing<'a>, AllocError>
        requires log { IsLog log.now }
        requires units { AreSized units.now }
        ensures { IfOk result (IsPartialProofIn (with_units log.now units.now)) }
    {
        let added = log.added();
        if added >= MOST_GIVEN {
            return Err(AllocError);
        }
        if units.len() >= MOST_CLAUSES {
            return Err(AllocError);
        }
        let more = units.len() as u64;
        Ok(Writing {
            ids: Ids::new(alloc, log.ids(), added, more),
            lines: Vec::new(alloc),
            last: added + more,
        })
    }

    // The lines of the learned clauses that hints lead to.
    fn put_needed(
        &mut self,
        alloc: Global,
        log: &Log,
        units: &[Lit],
        hints: &[u64],
    ) -> Result<(), AllocError>
        requires log { IsLog log.now }
        requires units { AreSized units.now }
        requires written { IsPartialProofIn (with_units log.now units.now) self.old }
        ensures { OnOk result (IsPartialProofIn (with_units log.now units.now) self.new) }
    {
        let clauses = log.clauses().as_slice();
        let sources = log.sources();
        let places = needed_by(alloc, sources, hints)?;
        for place in places.as_slice() {
            if *place >= clauses.len() {
                continue;
            }
            let held = clauses[*place].as_slice();
            self.visit(alloc, *place as u64 + 1, &sources[*place], held)?;
        }
        Ok(())
    }

    // The lines of all learned clauses, where one of the hints has no id.
    fn complete(
        &mut self,
        alloc: Global,
        log: &Log,
        units: &[Lit],
        hints: &[u64],
    ) -> Result<(), AllocError>
        requires log { IsLog log.now }
        requires units { AreSized units.now }
        requires written { IsPartialProofIn (with_units log.now units.now) self.old }
        requires named { list_all (λ n. is_some (clause_numbered (log.now.clauses ++ unit_clauses units.now) n)) hints.now ≡ true }
        ensures written { OnOk result (IsPartialProofIn (with_units log.now units.now) self.new) }
        ensures ready { OnOk result (HaveIds self.new hints.now) }
    {
        if self.ids.have(hints) {
            return Ok(());
        }
        self.put_all(alloc, log, units)?;
        Ok(())
    }

    // The lines of all learned clauses.
    fn put_all(&mut self, alloc: Global, log: &Log, units: &[Lit]) -> Result<(), AllocError>
        requires log { IsLog log.now }
        requires units { AreSized units.now }
        requires written { IsPartialProofIn (with_units log.now units.now) self.old }
        ensures written { OnOk result (IsPartialProofIn (with_units log.now units.now) self.new) }
        ensures all { OnOk result (HasAllIds (length (log.now.clauses ++ unit_clauses units.now)) self.new) }
    {
        let clauses = log.clauses().as_slice();
        let sources = log.sources();
        for (place, held) in clauses.iter().enumerate() {
            self.visit(alloc, place as u64 + 1, &sources[place], held.as_slice())?;
        }
        Ok(())
    }

    // The line of the clause with a number, if it is learned, has no id, and each of its hints has one.
    fn visit(
        &mut self,
        alloc: Global,
        number: u64,
        source: &Option<Items<u64>>,
        clause: &[Lit],
    ) -> Result<(), AllocError>
        ensures { OnOk result (HasVisited self.old self.new number source.now clause.now) }
    {
        match source {
            None => Ok(()),
            Some(hints) => self.visit_learned(alloc, number, clause, hints.as_slice()),
        }
    }

    // The same of a learned clause.
    fn visit_learned(
        &mut self,
        alloc: Global,
        number: u64,
        clause: &[Lit],
        hints: &[u64],
    ) -> Result<(), AllocError>
        ensures { OnOk result (HasVisitedLearned self.old self.new number clause.now hints.now) }
    {
        if 0 < self.ids.get(number) {
            return Ok(());
        }
        if !self.ids.have(hints) {
            return Ok(());
        }
        self.put(alloc, number, clause, hints)?;
        Ok(())
    }

    // A line, whose id the clause with a number has from now on.
    fn put(
        &mut self,
        alloc: Global,
        number: u64,
        clause: &[Lit],
        hints: &[u64],
    ) -> Result<(), AllocError>
        ensures { OnOk result (HasPut self.old self.new number clause.now hints.now) }
    {
        self.push_line(alloc, clause, hints)?;
        self.ids.put(number, self.last)?;
        Ok(())
    }

    // A line with the next id.
    fn push_line(&mut self, alloc: Global, clause: &[Lit], hints: &[u64]) -> Result<(), AllocError>
        ensures { OnOk result (HasLine self.old self.new clause.now hints.now) }
    {
        if self.last >= MOST_IDS {
            return Err(AllocError);
        }
        let line = line_of(alloc, self.last + 1, clause, hints, &self.ids)?;
        self.lines.push(line)?;
        self.last += 1;
        Ok(())
    }
}
