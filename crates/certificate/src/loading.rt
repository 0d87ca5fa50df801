//! An answer, read, judged and held. The main call is `load`.

ghost use Rattle.std.specs.Prelude.{◌≡◌, ℕ, List, Option, Some, Result, Ok, Err, IfOk};
ghost use Rattle.edge.specs.Faults.{Rose, NoneFell};
ghost use Rattle.edge.specs.Reads.{KeepsTexts, Reads};
ghost use Rattle.certificate.specs.declared.ends.Accepted.{Accepted as AcceptedOf};
ghost use Rattle.certificate.specs.Answers.{Shows};
ghost use Rattle.certificate.specs.Ends.{DecidesEnd, CheckSays, EndsWith, has_unread};
ghost use Rattle.certificate.specs.Loading.{IsHeldOf, accepted_of, accepted_in};
ghost use Rattle.certificate.specs.Reading.State.{Dotted as DottedOf};
ghost use Rattle.certificate.specs.Seen.{seen};
ghost use Rattle.certificate.specs.Whole.{IsReadWhole, IsLoadedAs, GivesLoaded};
ghost use Rattle.certificate_texts.specs.Taking.{certificate_at};
ghost use Rattle.certificate_texts.specs.declared.certificates.Certificate.{Certificate as CertificateOf};
ghost use Rattle.aig_semantics.specs.declared.traces.Lasso.{Lasso as LassoOf};
ghost use Rattle.aig_semantics.specs.declared.traces.Stimulus.{Stimulus as StimulusOf};

use crate::checking::read_on;
use crate::ends::{Accepted, AnswerEnd};
use crate::laws::{good_answers_are_true, printed_answers_hold_the_same};
use crate::loaded::Loaded;
use crate::state::State;
use aig_semantics::{Lasso, Stimulus};
use answer_lines::Lines;
use certificate_texts::{KeptLines, TakeEnd, take_certificate};
use circuit::Circuit;
use cnf::ProofLine;
use edge::Shelf;
use items::Items;
use std::alloc::{AllocError, Global};

/// Reads and judges the answer that the shelf holds under the name, as `check_answer` does and with the same end, and holds
/// what was accepted: its property, and its stimulus with the lasso that it stands for, or its certificate. Takes memory in
/// proportion to the text.
pub fn load<H: Shelf>(
    alloc: Global,
    circuit: &Circuit,
    shelf: &mut H,
    name: &str,
) -> Result<Loaded, AnswerEnd>
    // It ends as the check of the answer does: what is answered is so, of the text that the shelf tells;
    ensures found { CheckSays circuit.now (H.held shelf.old name.now) (accepted_in result) }
    // and what is so is answered, unless memory is refused or a read fails.
    ensures exactly { (text : List ℕ) (verdict : Result AcceptedOf AnswerEnd) → H.held shelf.old name.now ≡ Some text
        → DecidesEnd circuit.now text verdict → EndsWith (accepted_in result) verdict }
    // What is held is what the answer has, and it is true.
    ensures held { IfOk result (IsHeldOf circuit.now (H.held shelf.old name.now)) }
    ensures shown { IfOk result (λ loaded. Shows circuit.now (accepted_of loaded)) }
    ensures read { result ≡ Err AnswerEnd.ReadFault → Rose (H.faults shelf.old name.now) (H.faults shelf.new name.now) }
    ensures reads { Reads H.reads name.now (has_unread result) shelf.old shelf.new }
    ensures counts { NoneFell (H.faults shelf.old) (H.faults shelf.new) }
    ensures kept { KeepsTexts (H.held shelf.old) (H.held shelf.new) }
{
    good_answers_are_true(circuit);
    printed_answers_hold_the_same(circuit);
    let mut lines = Lines::new(alloc)?;
    let mut state = State::Status;
    let mut all = KeptLines::each(alloc);
    let mut kept = None;
    let end = read_on(
        alloc, circuit, shelf, name, &mut lines, &mut state, &mut all, &mut kept,
    );
    let result = loaded(alloc, circuit, end, &state, kept, all.lines.as_slice());
    drop(state);
    result
}

// What is held behind the end of the reading.
fn loaded(
    alloc: Global,
    _circuit: &Circuit,
    end: Result<Accepted, AnswerEnd>,
    state: &State,
    kept: Option<Lasso>,
    lines: &[ProofLine],
) -> Result<Loaded, AnswerEnd>
    requires { (told : Option (List ℕ)) × IfOk end (λ accepted. IsReadWhole _circuit.now told accepted lines.now (seen state.now) kept) }
    ensures ends { IsLoadedAs end result }
    ensures held { (told : Option (List ℕ)) → IfOk end (λ accepted. IsReadWhole _circuit.now told accepted lines.now (seen state.now) kept)
        → IfOk result (IsHeldOf _circuit.now told) }
{
    match end {
        Ok(Accepted::Lasso { property, .. }) => loaded_lasso(alloc, property, state, kept),
        Ok(Accepted::Holds { property, entries }) => {
            held_certificate(alloc, property, entries, lines)
        }
        Err(end) => Err(end),
    }
}

// Of an accepted stimulus, of which the lasso was kept.
fn loaded_lasso(
    alloc: Global,
    property: u32,
    state: &State,
    kept: Option<Lasso>,
) -> Result<Loaded, AnswerEnd>
    requires { (s : StimulusOf) × (lasso : LassoOf) × (seen state.now ≡ DottedOf property s) × (kept ≡ Some lasso) }
    ensures { (s : StimulusOf) (lasso : LassoOf) → seen state.now ≡ DottedOf property s → kept ≡ Some lasso
        → GivesLoaded (Loaded.Lasso property s lasso) result }
{
    match kept {
        Some(lasso) => held_lasso(alloc, property, state, lasso),
        None => unreachable!(),
    }
}

// The same with the lasso.
fn held_lasso(
    alloc: Global,
    property: u32,
    state: &State,
    lasso: Lasso,
) -> Result<Loaded, AnswerEnd>
    requires { (s : StimulusOf) × (seen state.now ≡ DottedOf property s) }
    ensures { (s : StimulusOf) → seen state.now ≡ DottedOf property s → GivesLoaded (Loaded.Lasso property s lasso) result }
{
    match state {
        State::Dotted(_, stimulus) => {
            let stimulus = copied(alloc, stimulus)?;
            Ok(Loaded::Lasso {
                property,
                stimulus,
                lasso,
            })
        }
        _ => unreachable!(),
    }
}

// The same stimulus once more.
fn copied(alloc: Global, stimulus: &Stimulus) -> Result<Stimulus, AllocError>
    ensures { IfOk result (λ copy. copy ≡ stimulus.now) }
{
    let inputs = copied_rows(alloc, stimulus.inputs.as_slice())?;
    let latches = stimulus.latches.try_copy(alloc)?;
    Ok(Stimulus { latches, inputs })
}

fn copied_rows(alloc: Global, rows: &[Items<bool>]) -> Result<Items<Items<bool>>, AllocError>
    ensures { IfOk result (λ copy. copy ≡ rows.now) }
{
    let mut copy = Items::new(alloc);
    for row in rows {
        copy.push(row.try_copy(alloc)?)?;
    }
    Ok(copy)
}

// Of an accepted certificate of so many entries.
fn held_certificate(
    alloc: Global,
    property: u32,
    entries: u32,
    lines: &[ProofLine],
) -> Result<Loaded, AnswerEnd>
    requires { (certificate : CertificateOf) × (rest : List (List ℕ)) × (certificate_at entries lines.now ≡ Some (certificate, rest)) }
    ensures { (certificate : CertificateOf) (rest : List (List ℕ)) → certificate_at entries lines.now ≡ Some (certificate, rest)
        → GivesLoaded (Loaded.Holds property certificate) result }
{
    match take_certificate(alloc, u64::from(entries), lines) {
        Ok((certificate, _rest)) => Ok(Loaded::Holds {
            property,
            certificate,
        }),
        Err(TakeEnd::Memory) => Err(AnswerEnd::Memory),
        Err(TakeEnd::Form) => unreachable!(),
    }
}
