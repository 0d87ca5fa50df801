//! The lines of entries.

ghost use Rattle.std.specs.Prelude.{◌≡◌, ◌<◌, ◌≤◌, ℕ, Some, Ok, length, OnOk};
ghost use Rattle.std.specs.List.{All};
ghost use Rattle.proof_semantics.specs.Proofs.{judge};
ghost use Rattle.fair_semantics.specs.Entries.{used_entries};
ghost use Rattle.cnf_unroll.specs.Blocks.{step_clauses};
ghost use Rattle.cnf_unroll.specs.Obligations.{shared_clauses};
ghost use Rattle.certificate_lines.specs.Words.{word_line_of};
ghost use Rattle.certificate_lines.specs.Uses.{uses_of};
ghost use Rattle.certificate_lines.specs.Clauses.{clause_of};
ghost use Rattle.entry.specs.Listing.{entry_of, entries_of};
ghost use Rattle.entry.specs.Proved.{obligation_of};
ghost use Rattle.certificate.specs.declared.ends.AnswerFault.TheVariants.{Entry};
ghost use Rattle.certificate.specs.Refuted.{may_open};
ghost use Rattle.certificate.specs.Reading.{open_step, start_step, entry_uses_step, next_clause, has_base, base_step, clause_step, next_proof, next_line, begin_proof, proof_step, line_step};
ghost use Rattle.certificate.specs.Seen.{seen_body, seen_begun, seen_proving, IsAhead, IsBody, IsOpen, IsEntered, IsAtClause, ArePresent};
ghost use Rattle.certificate.specs.Steps.{TellsWanted};

use crate::ends::{AnswerEnd, AnswerFault, misplaced};
use crate::limits::MAX_ENTRIES;
use crate::state::{Begun, Body, Proving, Refuted, Wanted};
use crate::uses::{UsesEnd, read_uses};
use certificate_lines::{Opening, WordLine, clause_of, word_line_of};
use circuit::Circuit;
use cnf::Clause;
use entry::{EntryEnd, EntryFault, Judge, Listed, User, holds_initial, used};
use fair_semantics::Kind;
use items::Items;
use lrat::LratEnd;
use proof_semantics::LratFault;
use std::alloc::{AllocError, Global};

// A fault of the entry that comes next.
fn entry_fault(body: &Body, fault: EntryFault) -> AnswerEnd
    ensures { result ≡ AnswerEnd.Refused (Entry (length (entries_of body.now.list)) fault) }
{
    AnswerEnd::Refused(AnswerFault::Entry(body.list.len() as u64, fault))
}

// Whether an entry of this kind may stand before the refutation.
fn may_open(refuted: Refuted, kind: Kind) -> bool
    ensures { result ≡ may_open refuted kind }
{
    match (refuted, kind) {
        (Refuted::States(_), Kind::Wall) => false,
        _ => true,
    }
}

// Behind an entry's first line, where there is room for one more.
fn open_entry(_circuit: &Circuit, body: &Body, opening: Opening) -> Result<Wanted, AnswerEnd>
    requires { IsAhead _circuit.now body.now Wanted.Start }
    ensures { TellsWanted _circuit.now (open_step (seen_body body.now) opening) body.now result }
{
    if (body.list.len() as u64) < MAX_ENTRIES {
        return Ok(Wanted::EntryUses(opening));
    }
    Err(AnswerEnd::Refused(AnswerFault::TooLong))
}

// Behind an entry's first line.
fn opening_step(
    circuit: &Circuit,
    body: &Body,
    opening: Opening,
    number: u64,
) -> Result<Wanted, AnswerEnd>
    requires { IsAhead circuit.now body.now Wanted.Start }
    ensures { TellsWanted circuit.now (start_step (seen_body body.now) number (Some (WordLine.Opening opening))) body.now result }
{
    if !may_open(body.refuted, opening.kind) {
        return Err(misplaced(number));
    }
    open_entry(circuit, body, opening)
}

/// Behind the first line of an entry or of the refutation.
pub(crate) fn start_step(
    circuit: &Circuit,
    body: &Body,
    number: u64,
    line: &[u8],
) -> Result<Wanted, AnswerEnd>
    requires { IsAhead circuit.now body.now Wanted.Start }
    ensures { TellsWanted circuit.now (start_step (seen_body body.now) number (word_line_of line.now)) body.now result }
{
    match word_line_of(line) {
        Some(WordLine::Opening(opening)) => opening_step(circuit, body, opening, number),
        Some(WordLine::Refutation(refuting)) => Ok(Wanted::RefutationUses(refuting)),
        _ => Err(misplaced(number)),
    }
}

// Goes to the proofs of an entry that is whole.
fn enter(
    alloc: Global,
    circuit: &Circuit,
    list: &[Listed],
    judge: &mut Judge,
    entry: &Listed,
) -> Result<(), AllocError>
    requires block { judge.old.block ≡ step_clauses circuit.now }
    requires present { All (λ u. u.entry < length list.now) entry.now.uses }
    ensures entered { OnOk result (judge.new.shared ≡ shared_clauses circuit.now (used_entries (entries_of list.now) entry.now.uses) entry.now.uses entry.now.set) }
    ensures block { judge.new.block ≡ judge.old.block }
{
    let used = used(alloc, list, entry.uses.as_slice())?;
    judge.enter(
        alloc,
        circuit,
        used.as_slice(),
        entry.uses.as_slice(),
        &entry.set,
    )
}

// Behind the proofs of the first i clauses: the entry has passed where there is no other.
fn next_proof(
    _circuit: &Circuit,
    body: &mut Body,
    entry: Listed,
    i: u64,
) -> Result<Wanted, AnswerEnd>
    requires ready { IsOpen _circuit.now body.old }
    requires entered { IsEntered _circuit.now body.old (entry_of entry) }
    requires clause { i ≤ length entry.set }
    ensures { TellsWanted _circuit.now (next_proof (seen_body body.old) (entry_of entry) i) body.new result }
{
    if i == entry.set.len() as u64 {
        body.list.push(entry)?;
        return Ok(Wanted::Start);
    }
    Ok(Wanted::EntryProof(entry, i))
}

// Behind the last clause.
fn prove_entry(
    alloc: Global,
    circuit: &Circuit,
    body: &mut Body,
    entry: Listed,
) -> Result<Wanted, AnswerEnd>
    requires ready { IsOpen circuit.now body.old }
    requires present { ArePresent body.old entry.uses }
    ensures { TellsWanted circuit.now (next_proof (seen_body body.old) (entry_of entry) 0) body.new result }
{
    enter(
        alloc,
        circuit,
        body.list.as_slice(),
        &mut body.judge,
        &entry,
    )?;
    next_proof(circuit, body, entry, 0)
}

// Behind some clauses: the proofs, where there is no other clause.
fn next_clause(
    alloc: Global,
    circuit: &Circuit,
    body: &mut Body,
    begun: Begun,
) -> Result<Wanted, AnswerEnd>
    requires ready { IsOpen circuit.now body.old }
    requires present { ArePresent body.old begun.uses }
    ensures { TellsWanted circuit.now (next_clause (seen_body body.old) (seen_begun begun)) body.new result }
{
    if begun.set.len() as u64 == begun.count {
        let entry = Listed {
            kind: begun.kind,
            set: begun.set,
            uses: begun.uses,
        };
        return prove_entry(alloc, circuit, body, entry);
    }
    Ok(Wanted::EntryClause(begun))
}

/// Behind the uses of an entry.
pub(crate) fn entry_uses_step(
    alloc: Global,
    circuit: &Circuit,
    body: &mut Body,
    opening: Opening,
    number: u64,
    line: &[u8],
) -> Result<Wanted, AnswerEnd>
    requires { IsAhead circuit.now body.old (Wanted.EntryUses opening) }
    ensures { TellsWanted circuit.now (entry_uses_step (seen_body body.old) opening number (uses_of body.old.version line.now)) body.new result }
{
    match read_uses(alloc, &*body, User::Entry(opening.kind), opening.uses, line) {
        Ok(uses) => {
            let begun = Begun {
                kind: opening.kind,
                uses,
                set: Items::new(alloc),
                count: opening.clauses,
            };
            next_clause(alloc, circuit, body, begun)
        }
        Err(UsesEnd::Shape) => Err(misplaced(number)),
        Err(UsesEnd::Bad(used)) => Err(entry_fault(&*body, EntryFault::BadUse(used))),
        Err(UsesEnd::Memory) => Err(AnswerEnd::Memory),
    }
}

// Whether the clause, of a reach entry, holds a literal of the initial cube.
fn has_base(circuit: &Circuit, kind: Kind, clause: &Clause) -> bool
    ensures { result ≡ has_base circuit.now kind clause.now }
{
    match kind {
        Kind::Reach => holds_initial(circuit, clause),
        Kind::Wall => true,
    }
}

// Behind a clause over the latches.
fn base_step(
    alloc: Global,
    circuit: &Circuit,
    body: &mut Body,
    mut begun: Begun,
    clause: Clause,
) -> Result<Wanted, AnswerEnd>
    requires ready { IsOpen circuit.now body.old }
    requires present { ArePresent body.old begun.uses }
    ensures { TellsWanted circuit.now (base_step circuit.now (seen_body body.old) (seen_begun begun) (Ok clause)) body.new result }
{
    if !has_base(circuit, begun.kind, &clause) {
        let number = begun.set.len() as u64;
        return Err(entry_fault(&*body, EntryFault::Base(number)));
    }
    begun.set.push(clause)?;
    next_clause(alloc, circuit, body, begun)
}

/// Behind a clause of an entry.
pub(crate) fn clause_step(
    alloc: Global,
    circuit: &Circuit,
    body: &mut Body,
    begun: Begun,
    number: u64,
    line: &[u8],
) -> Result<Wanted, AnswerEnd>
    requires { IsAhead circuit.now body.old (Wanted.EntryClause begun) }
    ensures { TellsWanted circuit.now (clause_step circuit.now (seen_body body.old) (seen_begun begun) number (clause_of line.now)) body.new result }
{
    let Some(literals) = clause_of(alloc, line)? else {
        return Err(misplaced(number));
    };
    match body.latches.clause(alloc, circuit, literals.as_slice()) {
        Ok(clause) => base_step(alloc, circuit, body, begun, clause),
        Err(EntryEnd::Fault(fault)) => Err(entry_fault(&*body, fault)),
        Err(EntryEnd::Memory) => Err(AnswerEnd::Memory),
    }
}

// Behind some lines of the proof of clause i: behind the last an empty clause has been given or added.
fn next_line(
    circuit: &Circuit,
    body: &mut Body,
    entry: Listed,
    i: u64,
    proving: Proving,
) -> Result<Wanted, AnswerEnd>
    requires at { IsAtClause circuit.now body.old entry i }
    requires read { proving.read ≤ proving.count }
    ensures { TellsWanted circuit.now (next_line (seen_body body.old) (entry_of entry) i (seen_proving body.old proving)) body.new result }
{
    if proving.read != proving.count {
        return Ok(Wanted::EntryLine(entry, i, proving));
    }
    if !body.judge.is_finished() {
        let fault = EntryFault::Proof(i, proving.count, LratFault::Unfinished);
        return Err(entry_fault(&*body, fault));
    }
    next_proof(circuit, body, entry, i + 1)
}

// Behind the first line of the proof of clause i.
fn begin_proof(
    alloc: Global,
    circuit: &Circuit,
    body: &mut Body,
    entry: Listed,
    i: u64,
    count: u64,
) -> Result<Wanted, AnswerEnd>
    requires { IsAtClause circuit.now body.old entry i }
    ensures { TellsWanted circuit.now (next_line (seen_body body.old) (entry_of entry) i
        (begin_proof count (obligation_of circuit.now (entries_of body.old.list) (entry_of entry) i))) body.new result }
{
    body.judge
        .begin(alloc, circuit, &entry.set.as_slice()[i as usize])?;
    next_line(circuit, body, entry, i, Proving { count, read: 0 })
}

/// Behind the first line of the proof of clause i.
pub(crate) fn proof_step(
    alloc: Global,
    circuit: &Circuit,
    body: &mut Body,
    entry: Listed,
    i: u64,
    number: u64,
    line: &[u8],
) -> Result<Wanted, AnswerEnd>
    requires { IsAhead circuit.now body.old (Wanted.EntryProof entry i) }
    ensures { TellsWanted circuit.now (proof_step circuit.now (seen_body body.old) (entry_of entry) i number (word_line_of line.now)) body.new result }
{
    match word_line_of(line) {
        Some(WordLine::Proof(count)) => begin_proof(alloc, circuit, body, entry, i, count),
        _ => Err(misplaced(number)),
    }
}

/// Behind a line of the proof of clause i.
pub(crate) fn line_step(
    circuit: &Circuit,
    body: &mut Body,
    entry: Listed,
    i: u64,
    proving: Proving,
    line: &[u8],
) -> Result<Wanted, AnswerEnd>
    requires { IsAhead circuit.now body.old (Wanted.EntryLine entry i proving) }
    ensures { TellsWanted circuit.now (line_step (seen_body body.old) (entry_of entry) i (seen_proving body.old proving) (judge body.old.judge.proof line.now)) body.new result }
{
    match body.judge.step(line) {
        Ok(()) => {
            let later = Proving {
                count: proving.count,
                read: proving.read + 1,
            };
            next_line(circuit, body, entry, i, later)
        }
        Err(LratEnd::Fault(fault)) => {
            Err(entry_fault(&*body, EntryFault::Proof(i, proving.read, fault)))
        }
        Err(LratEnd::Memory) => Err(AnswerEnd::Memory),
    }
}
