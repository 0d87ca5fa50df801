//! The check of a text against a circuit. The main call is `check_answer`.

ghost use Rattle.std.specs.Prelude.{◌≡◌, ℕ, ◌+◌, ◌<◌, ◌≤◌, List, [], ◌∷◌, Some, None, Result};
ghost use Rattle.std.specs.Prelude.{Ok, Err, true, false, not, ◌&&◌, IfOk, IfErr, OnOk, IsTrue, IsFalse};
ghost use Rattle.edge.specs.Faults.{Rose, NoneFell};
ghost use Rattle.edge.specs.Reads.{KeepsTexts, Reads};
ghost use Rattle.edge.specs.Told.{IfTold};
ghost use Rattle.text_grammar.specs.Pieces.{Lacks};
ghost use Rattle.answer_lines.specs.Left.{at_start, left_of, most_bytes, Took};
ghost use Rattle.stimulus.specs.Texts.{is_skipped};
ghost use Rattle.certificate.specs.declared.ends.AnswerEnd.TheVariants.{Refused};
ghost use Rattle.certificate.specs.declared.ends.AnswerFault.TheVariants.{TooLong};
ghost use Rattle.certificate.specs.Lines.{kept_from};
ghost use Rattle.certificate.specs.Reading.{opens_rounds};
ghost use Rattle.round_answers.specs.declared.ends.Judged.{Judged as JudgedOf};
ghost use Rattle.round_answers.specs.Answers.{ShowsText};
ghost use Rattle.round_answers.specs.Reading.{read_lines, First};
ghost use Rattle.round_answers.specs.Ends.{read_fault, Decides, JudgeSays, EndsWith, has_unread};
ghost use Rattle.round_answers.specs.Seen.{seen, IsKept};
ghost use Rattle.round_answers.specs.First.{IsLater, IsAnyway, IsEnd, OfStop, TellsText, KnowsOf};
ghost use Rattle.round_answers.specs.First.{OfLines, is_unread, IsUnknown, unknown_status, as_judged, as_told};

use crate::ends::{JudgeEnd, Judged, refused};
use crate::state::State;
use crate::steps::{finish, step};
use answer_lines::{Lines, LinesEnd};
use certificate::{Accepted, AnswerEnd, AnswerFault, opens_rounds};
use circuit::Circuit;
use edge::Shelf;
use std::alloc::Global;
use std::mem;
use stimulus::is_skipped;

/// Checks the text that the shelf holds under the name, against a circuit: one about rounds where its first line that is not
/// skipped begins with `rounds`, and else an answer, which `certificate::check_answer` judges. `Rounds` comes exactly where it
/// is a good text: a run that has `k` rounds of the property, or entries of its monitor that show that none has; and else the
/// first failing item is told, in the order of its lines; of a run behind its text's end. `TooLarge` comes behind the line of the
/// property, where its monitor's greatest variable would be above `MAX_VARIABLE`. The text is read line by line; a run is held,
/// and of a certificate the entries and one proof. It is judged as an answer first, and read again from its start only where its
/// status is unknown.
pub fn check_answer<H: Shelf>(
    alloc: Global,
    circuit: &Circuit,
    shelf: &mut H,
    name: &str,
) -> Result<Judged, JudgeEnd>
    // What is answered is so, of the text that the shelf tells;
    ensures found { JudgeSays circuit.now (H.held shelf.old name.now) result }
    // and what is so is answered, unless memory is refused or a read fails.
    ensures exactly { (text : List ℕ) (verdict : Result JudgedOf JudgeEnd) → H.held shelf.old name.now ≡ Some text
        → Decides circuit.now text verdict → EndsWith result verdict }
    // What is accepted is true, whatever the shelf tells: of a text about rounds, that an initial run has so many, or none.
    ensures shown { IfOk result (ShowsText circuit.now) }
    ensures read { result ≡ read_fault → Rose (H.faults shelf.old name.now) (H.faults shelf.new name.now) }
    ensures reads { Reads H.reads name.now (has_unread result) shelf.old shelf.new }
    ensures counts { NoneFell (H.faults shelf.old) (H.faults shelf.new) }
    ensures kept { KeepsTexts (H.held shelf.old) (H.held shelf.new) }
{
    let ended = certificate::check_answer(alloc, circuit, shelf, name);
    if is_unknown(&ended) {
        return unknown(alloc, circuit, shelf, name);
    }
    judged_as(ended)
}

// Whether the text is refused as an answer of unknown status, as one about rounds is.
fn is_unknown(ended: &Result<Accepted, AnswerEnd>) -> bool
    ensures yes { IsTrue result → ended.now ≡ unknown_status }
    ensures no { IsFalse result → ended.now ≡ unknown_status → ⊥ }
{
    match ended {
        Err(AnswerEnd::Refused(AnswerFault::UnknownStatus)) => true,
        _ => false,
    }
}

// How a check of an answer ends, as the check of a text.
fn judged_as(ended: Result<Accepted, AnswerEnd>) -> Result<Judged, JudgeEnd>
    ensures { result ≡ as_judged ended }
{
    match ended {
        Ok(accepted) => Ok(Judged::Answer(accepted)),
        Err(end) => Err(JudgeEnd::Answer(end)),
    }
}

// The same as `check_answer`, of a text that is refused as an answer of unknown status.
fn unknown<H: Shelf>(
    alloc: Global,
    circuit: &Circuit,
    shelf: &mut H,
    name: &str,
) -> Result<Judged, JudgeEnd>
    requires { IsUnknown circuit.now (H.held shelf.old name.now) }
    ensures found { JudgeSays circuit.now (H.held shelf.old name.now) result }
    ensures exactly { (text : List ℕ) (verdict : Result JudgedOf JudgeEnd) → H.held shelf.old name.now ≡ Some text
        → Decides circuit.now text verdict → EndsWith result verdict }
    ensures shown { IfOk result (ShowsText circuit.now) }
    ensures read { result ≡ read_fault → Rose (H.faults shelf.old name.now) (H.faults shelf.new name.now) }
    ensures reads { Reads H.reads name.now (has_unread result) shelf.old shelf.new }
    ensures counts { NoneFell (H.faults shelf.old) (H.faults shelf.new) }
    ensures kept { KeepsTexts (H.held shelf.old) (H.held shelf.new) }
{
    told_as(about(alloc, circuit, shelf, name))
}

// How the reading of a text as one about rounds ends, where its status as an answer is unknown.
fn told_as(told: Result<Option<Judged>, JudgeEnd>) -> Result<Judged, JudgeEnd>
    ensures { result ≡ as_told told }
{
    match told {
        Ok(Some(judged)) => Ok(judged),
        Ok(None) => Err(refused(AnswerFault::UnknownStatus)),
        Err(end) => Err(end),
    }
}

// Judges the text as one about rounds; none where it is not.
fn about<H: Shelf>(
    alloc: Global,
    circuit: &Circuit,
    shelf: &mut H,
    name: &str,
) -> Result<Option<Judged>, JudgeEnd>
    ensures tells { TellsText circuit.now (H.held shelf.old name.now) result }
    ensures knows { IfOk result (KnowsOf circuit.now) }
    ensures read { result ≡ Err (JudgeEnd.Answer AnswerEnd.ReadFault) → Rose (H.faults shelf.old name.now) (H.faults shelf.new name.now) }
    ensures reads { Reads H.reads name.now (is_unread result) shelf.old shelf.new }
    ensures counts { NoneFell (H.faults shelf.old) (H.faults shelf.new) }
    ensures kept { KeepsTexts (H.held shelf.old) (H.held shelf.new) }
{
    let mut lines = Lines::new(alloc)?;
    let mut state = State::First;
    let result = read_on(alloc, circuit, shelf, name, &mut lines, &mut state);
    drop(state);
    result
}

fn is_first(state: &State) -> bool
    ensures yes { IsTrue result → seen state.now ≡ First }
    ensures no { IsFalse result → IsLater (seen state.now) }
{
    match state {
        State::First => true,
        _ => false,
    }
}

// Whether the line is the first that is not skipped, and opens no text about rounds.
fn is_other(state: &State, line: &[u8]) -> bool
    ensures yes { IsTrue result → (seen state.now ≡ First) × (is_skipped line.now ≡ false) × (opens_rounds line.now ≡ false) }
    ensures no { IsFalse result → IsAnyway (seen state.now) (is_skipped line.now) (opens_rounds line.now) }
{
    is_first(state) && !is_skipped(line) && !opens_rounds(line)
}

fn read_on<H: Shelf>(
    alloc: Global,
    circuit: &Circuit,
    shelf: &mut H,
    name: &str,
    lines: &mut Lines,
    state: &mut State,
) -> Result<Option<Judged>, JudgeEnd>
    requires start { lines.old ≡ at_start }
    requires state { state.old ≡ State.First }
    ensures tells { TellsText circuit.now (H.held shelf.old name.now) result }
    ensures knows { IfOk result (KnowsOf circuit.now) }
    ensures read { result ≡ Err (JudgeEnd.Answer AnswerEnd.ReadFault) → Rose (H.faults shelf.old name.now) (H.faults shelf.new name.now) }
    ensures reads { Reads H.reads name.now (is_unread result) shelf.old shelf.new }
    ensures counts { NoneFell (H.faults shelf.old) (H.faults shelf.new) }
    ensures kept { KeepsTexts (H.held shelf.old) (H.held shelf.new) }
{
    let mut number = 1;
    'lines: while next_line(lines, shelf, name, &*state)? {
        if is_other(&*state, lines.line()) {
            return Ok(None);
        }
        advance(alloc, circuit, state, number, lines.line())?;
        number += 1;
    }
    if is_first(&*state) {
        return Ok(None);
    }
    let judged = finish(alloc, circuit, &*state, number)?;
    Ok(Some(judged))
}

// Reads the next line, and says whether there was one. The first may be too long, and is then none. The condition is that
// nothing is left behind a line that the text's end ended.
fn next_line<H: Shelf>(
    lines: &mut Lines,
    shelf: &mut H,
    name: &str,
    state: &State,
) -> Result<bool, JudgeEnd>
    requires { lines.old.last ≡ true → IfTold (H.held shelf.old name.now) (λ text. left_of lines.old text ≡ []) }
    ensures took { IfOk result (λ given. IsTrue given → Took (H.held shelf.old name.now) lines.old lines.new) }
    ensures goes_on { IfOk result (λ given. IsTrue given → lines.old.last ≡ false) }
    ensures plain { IfOk result (λ given. IsTrue given → Lacks lines.new.line 10) }
    ensures later { IfOk result (λ given. IsTrue given → lines.old.taken < lines.new.taken) }
    ensures most { lines.old.taken ≤ most_bytes → lines.new.taken ≤ most_bytes }
    ensures end { IfOk result (λ given. IsFalse given → IsEnd (seen state.now) (H.held shelf.old name.now) lines.old) }
    ensures ended { IfErr result (OfLines (seen state.now) (H.held shelf.old name.now) lines.old) }
    ensures read { result ≡ Err (JudgeEnd.Answer AnswerEnd.ReadFault) → Rose (H.faults shelf.old name.now) (H.faults shelf.new name.now) }
    ensures reads { Reads H.reads name.now (is_unread result) shelf.old shelf.new }
    ensures counts { NoneFell (H.faults shelf.old) (H.faults shelf.new) }
    ensures kept { KeepsTexts (H.held shelf.old) (H.held shelf.new) }
{
    if lines.is_last() {
        return Ok(false);
    }
    match lines.next(shelf, name) {
        Ok(given) => Ok(given),
        Err(LinesEnd::TooLong) => too_long(state),
        Err(LinesEnd::ReadFault) => Err(JudgeEnd::Answer(AnswerEnd::ReadFault)),
        Err(LinesEnd::Memory) => Err(JudgeEnd::Answer(AnswerEnd::Memory)),
    }
}

// A line that is too long.
fn too_long(state: &State) -> Result<bool, JudgeEnd>
    ensures end { IfOk result (λ given. (given ≡ false) × (seen state.now ≡ First)) }
    ensures ended { IfErr result (λ end. (end ≡ JudgeEnd.Answer (Refused TooLong)) × IsLater (seen state.now)) }
{
    if is_first(state) {
        return Ok(false);
    }
    Err(JudgeEnd::Answer(AnswerEnd::Refused(AnswerFault::TooLong)))
}

// Goes on to the state behind a line with this number, skipped or not.
fn advance(
    alloc: Global,
    circuit: &Circuit,
    state: &mut State,
    number: u64,
    line: &[u8],
) -> Result<(), JudgeEnd>
    requires { IsKept circuit.now state.old }
    ensures ok { OnOk result (read_lines circuit.now (seen state.old) (kept_from number (line.now ∷ [])) ≡ Ok (seen state.new)) }
    ensures kept { OnOk result (IsKept circuit.now state.new) }
    ensures stop { IfErr result (OfStop (λ stop. read_lines circuit.now (seen state.old) (kept_from number (line.now ∷ [])) ≡ Err stop)) }
{
    let from = mem::replace(state, State::First);
    let next = line_step(alloc, circuit, from, number, line)?;
    drop(mem::replace(state, next));
    Ok(())
}

// The state behind a line with this number, skipped or not.
fn line_step(
    alloc: Global,
    circuit: &Circuit,
    state: State,
    number: u64,
    line: &[u8],
) -> Result<State, JudgeEnd>
    requires { IsKept circuit.now state }
    ensures ok { IfOk result (λ next. read_lines circuit.now (seen state) (kept_from number (line.now ∷ [])) ≡ Ok (seen next)) }
    ensures kept { IfOk result (IsKept circuit.now) }
    ensures stop { IfErr result (OfStop (λ stop. read_lines circuit.now (seen state) (kept_from number (line.now ∷ [])) ≡ Err stop)) }
{
    if is_skipped(line) {
        return Ok(state);
    }
    step(alloc, circuit, state, number, line)
}
