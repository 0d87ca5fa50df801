//! The text of what is known of a property's rounds, written. The main call is `write`.

ghost use Rattle.std.specs.Prelude.{◌≡◌, ◌≤◌, ◌<◌, ◌^◌, false, [], ◌∷◌, ◌++◌, map, drop, length, slice_get, codes, IfOk, OnOk};
ghost use Rattle.answer_lines.specs.Left.{most_bytes};
ghost use Rattle.stimulus.specs.Texts.{digit_of};
ghost use Rattle.certificate_texts.specs.Adding.{Adds};
ghost use Rattle.certificate_texts.specs.Writing.{property_line, variable_of_latch, literal_in_model, certificate_text};
ghost use Rattle.round_monitor.specs.Ends.{IsMonitorable};
ghost use Rattle.round_monitor.specs.Monitor.{monitor_circuit};
ghost use Rattle.round_answers.specs.declared.limits.TheConstants.{MAX_ROUNDS};
ghost use Rattle.round_answers.specs.declared.rounds.KnownRounds.TheVariants.{Fewer};
ghost use Rattle.round_answers.specs.Texts.{rounds_line};
ghost use Rattle.round_answers.specs.Answers.{IsGoodAbout};
ghost use Rattle.round_answers.specs.Writing.{written_entry, certificate_of, start_of, run_lines, rounds_text, AreFull, IsSo, is_reached};

use crate::rounds::KnownRounds;
use aig_semantics::Position;
use aiger_names::Model;
use certificate::{Certificate, Loaded, Written, print};
use certificate_lines::Version;
use circuit::{Circuit, Latch};
use cnf::{Clause, Proof, ProofLine};
use cnf_unroll::ClauseSet;
use entry::{Entry, Refutation};
use items::Items;
use live_to_safe::TranslateEnd;
use proof_semantics::Lit;
use round_monitor::monitor;
use std::alloc::{AllocError, Global};
use text_grammar::push_number;

/// Writes the text about `k` rounds of property `j`, counted from 0, of a circuit: that no initial run has them, by entries of
/// the property's monitor, each literal as the monitor's model numbers it, in version 2; or the run that has them, the latches
/// of its first position and the inputs of each. Nothing is checked; of up to `MAX_ROUNDS` rounds what is so makes a good text.
/// The error is want of memory.
pub fn write(
    alloc: Global,
    c: &Circuit,
    j: u32,
    k: u32,
    rounds: &KnownRounds,
) -> Result<Vec<u8>, AllocError>
    requires some { 1 ≤ k }
    requires able { IsMonitorable c.now j k }
    ensures text { IfOk result (λ text. text.items ≡ rounds_text c.now j k rounds.now) }
    // The text is within the limit on the length of an answer.
    ensures within { IfOk result (λ text. length text.items ≤ most_bytes) }
    // Where it is so, the text is a good one.
    ensures good { IfOk result (λ text.
        k ≤ MAX_ROUNDS → IsSo c.now j k rounds.now → IsGoodAbout c.now text.items j k (is_reached rounds.now)) }
{
    match rounds {
        KnownRounds::Fewer {
            entries,
            refutation,
        } => fewer_text(alloc, c, j, k, entries.as_slice(), refutation),
        KnownRounds::Reached { run } => reached_text(alloc, j, k, run.as_slice()),
    }
}

// ---- no run has them

fn fewer_text(
    alloc: Global,
    c: &Circuit,
    j: u32,
    k: u32,
    entries: &[Entry],
    refutation: &Refutation,
) -> Result<Vec<u8>, AllocError>
    requires some { 1 ≤ k }
    requires able { IsMonitorable c.now j k }
    ensures text { IfOk result (λ text. text.items ≡ rounds_text c.now j k (Fewer entries.now refutation.now)) }
    ensures good { IfOk result (λ text.
        k ≤ MAX_ROUNDS → AreFull (monitor_circuit c.now j k) entries.now refutation.now → IsGoodAbout c.now text.items j k false) }
{
    let model = monitor_of(alloc, c, j, k)?;
    let _limits = model.circuit().max();
    let answer = printed_over(alloc, model, j, entries, refutation)?;
    with_first_line(alloc, k, answer.as_slice())
}

// The answer over the circuit of this model.
fn printed_over(
    alloc: Global,
    model: Model,
    j: u32,
    entries: &[Entry],
    refutation: &Refutation,
) -> Result<Vec<u8>, AllocError>
    ensures { IfOk result (λ text. text.items ≡ certificate_text j (certificate_of model.circuit entries.now refutation.now)) }
{
    let text = printed(alloc, model.circuit(), j, entries, refutation);
    drop(model);
    text
}

fn monitor_of(alloc: Global, c: &Circuit, j: u32, k: u32) -> Result<Model, AllocError>
    requires some { 1 ≤ k }
    requires able { IsMonitorable c.now j k }
    ensures { IfOk result (λ m. m.circuit ≡ monitor_circuit c.now j k) }
{
    match monitor(alloc, c, j, k) {
        Ok(model) => Ok(model),
        Err(TranslateEnd::Memory) => Err(AllocError),
        Err(TranslateEnd::NoProperty(_)) => unreachable!(),
        Err(TranslateEnd::TooLarge(_)) => unreachable!(),
    }
}

// The answer that has the certificate of the entries, which are of this circuit.
fn printed(
    alloc: Global,
    t: &Circuit,
    j: u32,
    entries: &[Entry],
    refutation: &Refutation,
) -> Result<Vec<u8>, AllocError>
    ensures { IfOk result (λ text. text.items ≡ certificate_text j (certificate_of t.now entries.now refutation.now)) }
{
    let certificate = certificate_of(alloc, t, entries, refutation)?;
    print(
        alloc,
        &Loaded::Holds {
            property: j,
            certificate,
        },
    )
}

// The same text with the line of the rounds in the place of the status.
fn with_first_line(alloc: Global, k: u32, answer: &[u8]) -> Result<Vec<u8>, AllocError>
    requires { 2 ≤ length answer.now }
    ensures text { IfOk result (λ text. text.items ≡ rounds_line k ++ 10 ∷ drop 2 answer.now) }
    ensures within { IfOk result (λ text. length text.items ≤ most_bytes) }
{
    let mut text = Vec::new(alloc);
    push_first_line(&mut text, k)?;
    text.extend_from_slice(&answer[2..])?;
    Ok(text)
}

fn certificate_of(
    alloc: Global,
    t: &Circuit,
    entries: &[Entry],
    refutation: &Refutation,
) -> Result<Certificate, AllocError>
    ensures { IfOk result (λ certificate. certificate ≡ certificate_of t.now entries.now refutation.now) }
{
    let mut all = Items::new(alloc);
    for entry in entries {
        all.push(written_entry(alloc, t, entry)?)?;
    }
    Ok(Certificate {
        version: Version::Two,
        entries: all,
        uses: refutation.uses.try_copy(alloc)?,
        proof: lines_again(alloc, &refutation.proof)?,
    })
}

fn written_entry(alloc: Global, t: &Circuit, e: &Entry) -> Result<Written, AllocError>
    ensures { IfOk result (λ written. written ≡ written_entry t.now e.now) }
{
    let clauses = literals_of_set(alloc, t, &e.set)?;
    let uses = e.uses.try_copy(alloc)?;
    let proofs = proofs_again(alloc, &e.proofs)?;
    Ok(Written {
        kind: e.kind,
        clauses,
        uses,
        proofs,
    })
}

fn literals_of_set(
    alloc: Global,
    t: &Circuit,
    set: &ClauseSet,
) -> Result<Items<Items<u64>>, AllocError>
    ensures { IfOk result (λ all. all ≡ map (map (literal_in_model t.now)) set.now) }
{
    let mut all = Items::new(alloc);
    for clause in set.as_slice() {
        all.push(literals_of(alloc, t, clause)?)?;
    }
    Ok(all)
}

fn literals_of(alloc: Global, t: &Circuit, clause: &Clause) -> Result<Items<u64>, AllocError>
    ensures { IfOk result (λ literals. literals ≡ map (literal_in_model t.now) clause.now) }
{
    let mut literals = Items::new(alloc);
    for literal in clause.as_slice() {
        literals.push(literal_in_model(t, *literal))?;
    }
    Ok(literals)
}

fn literal_in_model(t: &Circuit, l: Lit) -> u64
    ensures { result ≡ literal_in_model t.now l }
{
    let positive = 2 * latch_variable(t, l.var);
    if l.positive { positive } else { positive + 1 }
}

// The variable of the latch with this number, and 0 where there is none.
fn latch_variable(t: &Circuit, n: u64) -> u64
    ensures variable { result ≡ variable_of_latch (slice_get t.now.latches n) }
    ensures small { result < 2 ^ 32 }
{
    let _limits = t.max();
    match latch_at(t, n) {
        Some(latch) => latch.var,
        None => 0,
    }
}

fn latch_at(t: &Circuit, n: u64) -> Option<Latch>
    ensures { result ≡ slice_get t.now.latches n }
{
    t.latches().get(n as usize).copied()
}

fn proofs_again(alloc: Global, proofs: &Items<Proof>) -> Result<Items<Proof>, AllocError>
    ensures { IfOk result (λ copy. copy ≡ proofs.now) }
{
    let mut copy = Items::new(alloc);
    for proof in proofs.as_slice() {
        copy.push(lines_again(alloc, proof)?)?;
    }
    Ok(copy)
}

fn lines_again(alloc: Global, lines: &Proof) -> Result<Proof, AllocError>
    ensures { IfOk result (λ copy. copy ≡ lines.now) }
{
    let mut copy = Items::new(alloc);
    for line in lines.as_slice() {
        copy.push(line.try_copy(alloc)?)?;
    }
    Ok(copy)
}

// ---- a run has them

fn reached_text(alloc: Global, j: u32, k: u32, run: &[Position]) -> Result<Vec<u8>, AllocError>
    ensures text { IfOk result (λ text. Adds [] text.items (rounds_line k ∷ property_line j ∷ codes "run" ∷ run_lines run.now)) }
    ensures within { IfOk result (λ text. length text.items ≤ most_bytes) }
{
    let mut text = Vec::new(alloc);
    push_first_line(&mut text, k)?;
    push_property(&mut text, j)?;
    push_run(&mut text, run)?;
    Ok(text)
}

// Each of these adds lines at the end of a text, each with its line feed.

fn push_first_line(text: &mut Vec<u8>, k: u32) -> Result<(), AllocError>
    ensures { OnOk result (Adds text.old.items text.new.items (rounds_line k ∷ [])) }
{
    text.extend_from_slice(b"rounds ")?;
    push_number(text, u64::from(k))?;
    text.push(b'\n')?;
    Ok(())
}

fn push_word(text: &mut Vec<u8>, word: &[u8]) -> Result<(), AllocError>
    ensures { OnOk result (Adds text.old.items text.new.items (word.now ∷ [])) }
{
    text.extend_from_slice(word)?;
    text.push(b'\n')?;
    Ok(())
}

fn push_property(text: &mut Vec<u8>, j: u32) -> Result<(), AllocError>
    ensures { OnOk result (Adds text.old.items text.new.items (property_line j ∷ [])) }
{
    text.push(b'j')?;
    push_number(text, u64::from(j))?;
    text.push(b'\n')?;
    Ok(())
}

fn push_values(text: &mut Vec<u8>, values: &[bool]) -> Result<(), AllocError>
    ensures { OnOk result (Adds text.old.items text.new.items (map digit_of values.now ∷ [])) }
{
    for value in values {
        text.push(if *value { b'1' } else { b'0' })?;
    }
    text.push(b'\n')?;
    Ok(())
}

fn push_start(text: &mut Vec<u8>, run: &[Position]) -> Result<(), AllocError>
    ensures { OnOk result (Adds text.old.items text.new.items (map digit_of (start_of run.now) ∷ [])) }
{
    match run.first() {
        Some(position) => push_values(text, position.latches.as_slice()),
        None => push_values(text, &[]),
    }
}

fn push_inputs(text: &mut Vec<u8>, run: &[Position]) -> Result<(), AllocError>
    ensures { OnOk result (Adds text.old.items text.new.items (map (λ p. map digit_of p.inputs) run.now)) }
{
    for position in run {
        push_values(text, position.inputs.as_slice())?;
    }
    Ok(())
}

// The line of the run, its lines, and the dot.
fn push_run(text: &mut Vec<u8>, run: &[Position]) -> Result<(), AllocError>
    ensures { OnOk result (Adds text.old.items text.new.items (codes "run" ∷ run_lines run.now)) }
{
    push_word(text, b"run")?;
    push_start(text, run)?;
    push_inputs(text, run)?;
    push_word(text, b".")?;
    Ok(())
}
