//! An obligation of a certificate, or its refutation, for other checkers: its clauses, or the proof that refutes them. The
//! main call is `export`.

ghost use Rattle.std.specs.Prelude.{◌≡◌, ◌<◌, ◌==◌, ◌&&◌, [], ◌∷◌, ◌++◌, ℕ, List, Some, Err, length, slice_get, option_copied, IfOk, OnOk};
ghost use Rattle.fair_semantics.specs.Entries.{Entry as EntryOf};
ghost use Rattle.text_grammar.specs.Lines.{ended_lines};
ghost use Rattle.certificate.specs.declared.loaded.Loaded.TheVariants.{Holds as HoldsOf};
ghost use Rattle.certificate.specs.Certificates.{AreProvedBehind, IsGoodCertificate};
ghost use Rattle.certificate.specs.Loading.{IsHeld};
ghost use Rattle.cert_tools.specs.declared.exporting.ExportEnd.TheVariants.{NoItem};
ghost use Rattle.cert_tools.specs.Exported.{obligation_item, refutation_item, HasItem, IsItemText, IsItemOf, IsExported};
ghost use Rattle.cert_tools.specs.Exporting.{HasObligation, StandsForObligation, StandsForSkeleton, EndsWithItem};

use crate::listing::listed;
use crate::spelling::{obligation_text, skeleton_text};
use certificate::{Certificate, Loaded, Written};
use circuit::Circuit;
use cnf::{Proof, ProofLine};
use std::alloc::{AllocError, Global};

/// Why nothing is exported.
#[derive(Drop)]
pub enum ExportEnd {
    /// The answer has no such item.
    NoItem,
    /// Memory was refused.
    Memory,
}

impl From<AllocError> for ExportEnd {
    ghost use Rattle.std.specs.Prelude.{◌≡◌};
    ghost use Rattle.cert_tools.specs.declared.exporting.ExportEnd.TheVariants.{Memory};

    ghost from_gives = { λ _ e. e ≡ Memory };

    fn from(_: AllocError) -> ExportEnd {
        ExportEnd::Memory
    }
}

/// What of an answer is asked for: an item by its numbers, of an entry and of one of its clauses, counted from 0, or behind
/// the last entry, under 0, the refutation; and whether it is its proof, or else its clauses.
#[derive(Clone, Copy)]
pub struct ItemRequest {
    pub entry: u32,
    pub clause: u32,
    pub lrat: bool,
}

/// The clauses of an item in the DIMACS format, or the lines of the proof that refutes them, as they were read. The answer
/// is one of the circuit's, as `load` gives it.
pub fn export(
    alloc: Global,
    circuit: &Circuit,
    loaded: &Loaded,
    asked: ItemRequest,
) -> Result<Vec<u8>, ExportEnd>
    requires { IsHeld circuit.now loaded.now }
    // What is exported is the text of that item, which the answer has;
    ensures text { IfOk result (λ text. IsExported circuit.now loaded.now asked.entry asked.clause asked.lrat text.items) }
    ensures there { IfOk result (λ text. HasItem loaded.now asked.entry asked.clause) }
    // and `NoItem` is answered only where it has none.
    ensures none { result ≡ Err NoItem → HasItem loaded.now asked.entry asked.clause → ⊥ }
{
    exported(alloc, circuit, loaded, asked)
}

fn exported(
    alloc: Global,
    circuit: &Circuit,
    loaded: &Loaded,
    asked: ItemRequest,
) -> Result<Vec<u8>, ExportEnd>
    requires { IsHeld circuit.now loaded.now }
    ensures { EndsWithItem (λ text. IsExported circuit.now loaded.now asked.entry asked.clause asked.lrat text.items)
        (HasItem loaded.now asked.entry asked.clause) result }
{
    match loaded {
        Loaded::Lasso { .. } => Err(ExportEnd::NoItem),
        Loaded::Holds {
            property,
            certificate,
        } => exported_item(alloc, circuit, *property, certificate, asked),
    }
}

// The item of a certificate.
fn exported_item(
    alloc: Global,
    circuit: &Circuit,
    property: u32,
    certificate: &Certificate,
    asked: ItemRequest,
) -> Result<Vec<u8>, ExportEnd>
    requires good { IsGoodCertificate circuit.now property certificate.now }
    requires known { property < length circuit.now.justice }
    ensures { EndsWithItem (λ text. IsItemOf circuit.now property certificate.now asked.entry asked.clause asked.lrat text.items)
        (HasItem (HoldsOf property certificate.now) asked.entry asked.clause) result }
{
    match entry_numbered(certificate, asked.entry) {
        Some(e) => exported_obligation(alloc, circuit, certificate, e, asked),
        None => exported_refutation(alloc, circuit, property, certificate, asked),
    }
}

fn entry_numbered(certificate: &Certificate, n: u32) -> Option<&Written>
    ensures { option_copied result ≡ slice_get certificate.now.entries n }
{
    certificate.entries.as_slice().get(n as usize)
}

fn proof_numbered(e: &Written, n: u32) -> Option<&Proof>
    ensures { option_copied result ≡ slice_get e.now.proofs n }
{
    e.proofs.as_slice().get(n as usize)
}

// The obligation of a clause of this entry of a certificate, of whatever property.
fn exported_obligation(
    alloc: Global,
    circuit: &Circuit,
    certificate: &Certificate,
    e: &Written,
    asked: ItemRequest,
) -> Result<Vec<u8>, ExportEnd>
    requires proved { (all : List EntryOf) × AreProvedBehind circuit.now [] certificate.now.entries all }
    requires there { slice_get certificate.now.entries asked.entry ≡ Some e.now }
    ensures { EndsWithItem (λ text. (n : ℕ) → IsItemOf circuit.now n certificate.now asked.entry asked.clause asked.lrat text.items)
        (asked.clause < length e.now.clauses) result }
{
    match proof_numbered(e, asked.clause) {
        Some(proof) => Ok(spelled_obligation(alloc, circuit, certificate, proof, asked)?),
        None => Err(ExportEnd::NoItem),
    }
}

// The lines of its proof, or its clauses.
fn spelled_obligation(
    alloc: Global,
    circuit: &Circuit,
    certificate: &Certificate,
    proof: &Proof,
    asked: ItemRequest,
) -> Result<Vec<u8>, AllocError>
    requires { (all : List EntryOf) × AreProvedBehind circuit.now [] certificate.now.entries all
        × HasObligation circuit.now all asked.entry asked.clause }
    ensures { IfOk result (λ text. (all : List EntryOf) → AreProvedBehind circuit.now [] certificate.now.entries all
        → IsItemText asked.lrat (obligation_item circuit.now all asked.entry asked.clause proof.now) text.items) }
{
    let lrat = asked.lrat;
    if lrat {
        return lines_text(alloc, proof.as_slice());
    }
    listed_obligation(alloc, circuit, certificate, asked)
}

fn listed_obligation(
    alloc: Global,
    circuit: &Circuit,
    certificate: &Certificate,
    asked: ItemRequest,
) -> Result<Vec<u8>, AllocError>
    requires { (all : List EntryOf) × AreProvedBehind circuit.now [] certificate.now.entries all
        × HasObligation circuit.now all asked.entry asked.clause }
    ensures { IfOk result (λ text. (all : List EntryOf) → AreProvedBehind circuit.now [] certificate.now.entries all
        → StandsForObligation circuit.now all asked.entry asked.clause text.items) }
{
    let list = listed(alloc, circuit, certificate.entries.as_slice())?;
    let entry = asked.entry as usize;
    obligation_text(
        alloc,
        circuit,
        list.as_slice(),
        entry,
        asked.clause as usize,
    )
}

// The refutation, where it is asked for; no entry is.
fn exported_refutation(
    alloc: Global,
    circuit: &Circuit,
    property: u32,
    certificate: &Certificate,
    asked: ItemRequest,
) -> Result<Vec<u8>, ExportEnd>
    requires good { IsGoodCertificate circuit.now property certificate.now }
    requires known { property < length circuit.now.justice }
    ensures { EndsWithItem (λ text. IsItemOf circuit.now property certificate.now asked.entry asked.clause asked.lrat text.items)
        ((asked.entry ≡ length certificate.now.entries) × (asked.clause ≡ 0)) result }
{
    if !is_refutation(certificate, asked) {
        return Err(ExportEnd::NoItem);
    }
    let text = spelled_refutation(alloc, circuit, property, certificate, asked.lrat)?;
    Ok(text)
}

fn is_refutation(certificate: &Certificate, asked: ItemRequest) -> bool
    ensures { result ≡ (asked.entry == length certificate.now.entries && asked.clause == 0) }
{
    asked.entry as usize == certificate.entries.len() && asked.clause == 0
}

// The lines of its proof, or its clauses.
fn spelled_refutation(
    alloc: Global,
    circuit: &Circuit,
    property: u32,
    certificate: &Certificate,
    lrat: bool,
) -> Result<Vec<u8>, AllocError>
    requires good { IsGoodCertificate circuit.now property certificate.now }
    requires known { property < length circuit.now.justice }
    ensures { IfOk result (λ text. (all : List EntryOf) → AreProvedBehind circuit.now [] certificate.now.entries all
        → IsItemText lrat (refutation_item circuit.now property all certificate.now) text.items) }
{
    if lrat {
        return lines_text(alloc, certificate.proof.as_slice());
    }
    listed_refutation(alloc, circuit, property, certificate)
}

fn listed_refutation(
    alloc: Global,
    circuit: &Circuit,
    property: u32,
    certificate: &Certificate,
) -> Result<Vec<u8>, AllocError>
    requires good { IsGoodCertificate circuit.now property certificate.now }
    requires known { property < length circuit.now.justice }
    ensures { IfOk result (λ text. (all : List EntryOf) → AreProvedBehind circuit.now [] certificate.now.entries all
        → StandsForSkeleton circuit.now property all certificate.now.uses text.items) }
{
    let list = listed(alloc, circuit, certificate.entries.as_slice())?;
    let uses = certificate.uses.as_slice();
    skeleton_text(alloc, circuit, property, list.as_slice(), uses)
}

// The lines of a proof.
fn lines_text(alloc: Global, lines: &[ProofLine]) -> Result<Vec<u8>, AllocError>
    ensures { IfOk result (λ text. text.items ≡ ended_lines lines.now) }
{
    let mut text = Vec::new(alloc);
    for line in lines {
        push_line(&mut text, line.as_slice())?;
    }
    Ok(text)
}

fn push_line(text: &mut Vec<u8>, line: &[u8]) -> Result<(), AllocError>
    ensures { OnOk result (text.new.items ≡ text.old.items ++ (line.now ++ 10 ∷ [])) }
{
    text.extend_from_slice(line)?;
    text.push(b'\n')?;
    Ok(())
}
