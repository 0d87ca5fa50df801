//! The check of a text against a circuit. The main call is `check_answer`.

ghost use Rattle.std.specs.Prelude.{◌≡◌, ℕ, ◌<◌, ◌≤◌, List, [], ◌∷◌, ◌++◌, Option, Some, Result, Ok, Err, true, false, not, ◌&&◌, IfOk, IfErr, OnOk, IsTrue, IsFalse};
ghost use Rattle.edge.specs.Faults.{Rose, NoneFell};
ghost use Rattle.edge.specs.Reads.{KeepsTexts, Reads};
ghost use Rattle.edge.specs.Told.{IfTold};
ghost use Rattle.text_grammar.specs.Pieces.{Lacks};
ghost use Rattle.answer_lines.specs.Left.{at_start, left_of, most_bytes, Took};
ghost use Rattle.stimulus.specs.Texts.{is_skipped, kept_lines};
ghost use Rattle.certificate.specs.declared.ends.AnswerEnd.TheVariants.{Refused};
ghost use Rattle.certificate.specs.declared.ends.AnswerFault.TheVariants.{TooLong};
ghost use Rattle.certificate.specs.Lines.{kept_from};
ghost use Rattle.certificate.specs.Reading.{opens_sheet};
ghost use Rattle.round_answers.specs.declared.ends.JudgeEnd.TheVariants.{Answer};
ghost use Rattle.sheet_answers.specs.declared.ends.Judged.{Judged as JudgedOf};
ghost use Rattle.sheet_answers.specs.declared.found.Found.{Found as FoundOf};
ghost use Rattle.sheet_answers.specs.Reading.{First, Replays, read_lines};
ghost use Rattle.sheet_answers.specs.Ends.{ShowsText, AreReplays, read_fault, Decides, JudgeSays, EndsWith, has_unread};
ghost use Rattle.sheet_answers.specs.Seen.{seen, IsKept, OfEnd};
ghost use Rattle.sheet_answers.specs.First.{as_text, as_told, unknown as unknown_status, IsUnknown, TellsText, IsLater, IsAnyway, IsEnd, OfLines};

use crate::ends::{JudgeEnd, Judged, plain, refused};
use crate::found::Found;
use crate::laws::good_sheets_are_true;
use crate::state::State;
use crate::steps::{finish, step};
use answer_lines::{Lines, LinesEnd};
use certificate::{AnswerEnd, AnswerFault, opens_sheet};
use circuit::Circuit;
use edge::Shelf;
use round_answers::{JudgeEnd as TextEnd, Judged as TextJudged};
use std::alloc::Global;
use std::mem;
use stimulus::is_skipped;

/// Checks the text that the shelf holds under the name, against a circuit: a sheet where its first line that is not skipped
/// begins with `all`, and else an answer or a text about rounds, which `round_answers::check_answer` judges. `Sheet` comes
/// exactly where it is a good sheet: its entries are proved one behind the other, and each property has its block, in their
/// order, with a stimulus for a fair lasso, a refutation over the entries, or nothing; and else the first failing item is told,
/// in the order of its lines; of a stimulus at its dot. The text is read line by line; of a sheet the entries are held, one
/// proof, and one stimulus. It is judged as another text first, and read again from its start only where its status is
/// unknown.
pub fn check_answer<H: Shelf>(
    alloc: Global,
    circuit: &Circuit,
    shelf: &mut H,
    name: &str,
) -> Result<Judged, JudgeEnd>
    // What is answered is so, of the text that the shelf tells;
    ensures found { JudgeSays circuit.now (H.held shelf.old name.now) result }
    // and what is so is answered, unless memory is refused or a read fails.
    ensures exactly { (text : List ℕ) (verdict : Result JudgedOf JudgeEnd) → H.held shelf.old name.now ≡ Some text
        → Decides circuit.now text verdict → EndsWith result verdict }
    // What is accepted is true, whatever the shelf tells: of a sheet, that each property with a stimulus has a fair lasso, that
    // each one with a refutation has none, and few rounds, and that each property has its block.
    ensures shown { IfOk result (ShowsText circuit.now) }
    ensures read { result ≡ read_fault → Rose (H.faults shelf.old name.now) (H.faults shelf.new name.now) }
    ensures reads { Reads H.reads name.now (has_unread {T = JudgedOf} result) shelf.old shelf.new }
    ensures counts { NoneFell (H.faults shelf.old) (H.faults shelf.new) }
    ensures kept { KeepsTexts (H.held shelf.old) (H.held shelf.new) }
{
    let ended = round_answers::check_answer(alloc, circuit, shelf, name);
    if is_unknown(&ended) {
        return unknown(alloc, circuit, shelf, name);
    }
    as_text(ended)
}

// Whether the text is refused as another text of unknown status, as a sheet is.
fn is_unknown(ended: &Result<TextJudged, TextEnd>) -> bool
    ensures yes { IsTrue result → ended.now ≡ unknown_status }
    ensures no { IsFalse result → ended.now ≡ unknown_status → ⊥ }
{
    match ended {
        Err(TextEnd::Answer(AnswerEnd::Refused(AnswerFault::UnknownStatus))) => true,
        _ => false,
    }
}

// How the check of another text ends, as that of a text.
fn as_text(ended: Result<TextJudged, TextEnd>) -> Result<Judged, JudgeEnd>
    ensures { result ≡ as_text ended }
{
    match ended {
        Ok(judged) => Ok(Judged::Text(judged)),
        Err(end) => Err(JudgeEnd::Text(end)),
    }
}

// The same as `check_answer`, of a text whose status as another text is unknown.
fn unknown<H: Shelf>(
    alloc: Global,
    circuit: &Circuit,
    shelf: &mut H,
    name: &str,
) -> Result<Judged, JudgeEnd>
    requires { IsUnknown circuit.now (H.held shelf.old name.now) }
    ensures found { JudgeSays circuit.now (H.held shelf.old name.now) result }
    ensures exactly { (text : List ℕ) (verdict : Result JudgedOf JudgeEnd) → H.held shelf.old name.now ≡ Some text
        → Decides circuit.now text verdict → EndsWith result verdict }
    ensures shown { IfOk result (ShowsText circuit.now) }
    ensures read { result ≡ read_fault → Rose (H.faults shelf.old name.now) (H.faults shelf.new name.now) }
    ensures reads { Reads H.reads name.now (has_unread {T = JudgedOf} result) shelf.old shelf.new }
    ensures counts { NoneFell (H.faults shelf.old) (H.faults shelf.new) }
    ensures kept { KeepsTexts (H.held shelf.old) (H.held shelf.new) }
{
    good_sheets_are_true(circuit);
    told_as(as_sheet(alloc, circuit, shelf, name))
}

// How the reading of a text as a sheet ends, where its status as another text is unknown.
fn told_as(found: Result<Found, JudgeEnd>) -> Result<Judged, JudgeEnd>
    ensures { result ≡ as_told found }
{
    match found {
        Ok(Found::Sheet(accepted)) => Ok(Judged::Sheet(accepted.counts, accepted.entries)),
        Ok(Found::Other) => Err(refused(AnswerFault::UnknownStatus)),
        Err(end) => Err(end),
    }
}

// Judges the text as a sheet, if it is one.
fn as_sheet<H: Shelf>(
    alloc: Global,
    circuit: &Circuit,
    shelf: &mut H,
    name: &str,
) -> Result<Found, JudgeEnd>
    ensures tells { TellsText circuit.now (H.held shelf.old name.now) result }
    ensures read { result ≡ Err (JudgeEnd.Text (Answer AnswerEnd.ReadFault)) → Rose (H.faults shelf.old name.now) (H.faults shelf.new name.now) }
    ensures reads { Reads H.reads name.now (has_unread {T = FoundOf} result) shelf.old shelf.new }
    ensures counts { NoneFell (H.faults shelf.old) (H.faults shelf.new) }
    ensures kept { KeepsTexts (H.held shelf.old) (H.held shelf.new) }
{
    let mut lines = Lines::new(alloc)?;
    let mut state = State::First;
    let result = read_on(alloc, circuit, shelf, name, &mut lines, &mut state);
    drop(state);
    result
}

fn is_first(state: &State) -> bool
    ensures yes { IsTrue result → seen state.now ≡ First }
    ensures no { IsFalse result → IsLater (seen state.now) }
{
    match state {
        State::First => true,
        _ => false,
    }
}

// Whether the line is the first that is not skipped, and opens no sheet.
fn is_other(state: &State, line: &[u8]) -> bool
    ensures yes { IsTrue result → (seen state.now ≡ First) × (is_skipped line.now ≡ false) × (opens_sheet line.now ≡ false) }
    ensures no { IsFalse result → IsAnyway (seen state.now) (is_skipped line.now) (opens_sheet line.now) }
{
    is_first(state) && !is_skipped(line) && !opens_sheet(line)
}

fn read_on<H: Shelf>(
    alloc: Global,
    circuit: &Circuit,
    shelf: &mut H,
    name: &str,
    lines: &mut Lines,
    state: &mut State,
) -> Result<Found, JudgeEnd>
    requires start { lines.old ≡ at_start }
    requires state { state.old ≡ State.First }
    ensures tells { TellsText circuit.now (H.held shelf.old name.now) result }
    ensures read { result ≡ Err (JudgeEnd.Text (Answer AnswerEnd.ReadFault)) → Rose (H.faults shelf.old name.now) (H.faults shelf.new name.now) }
    ensures reads { Reads H.reads name.now (has_unread {T = FoundOf} result) shelf.old shelf.new }
    ensures counts { NoneFell (H.faults shelf.old) (H.faults shelf.new) }
    ensures kept { KeepsTexts (H.held shelf.old) (H.held shelf.new) }
{
    let mut number = 1;
    'lines: while next_line(lines, shelf, name, &*state)? {
        if is_other(&*state, lines.line()) {
            return Ok(Found::Other);
        }
        advance(alloc, circuit, state, number, lines.line())?;
        number += 1;
    }
    if is_first(&*state) {
        return Ok(Found::Other);
    }
    let accepted = finish(circuit, &*state, number)?;
    Ok(Found::Sheet(accepted))
}

// Reads the next line, and says whether there was one. The first may be too long, and is then none. The condition is that
// nothing is left behind a line that the text's end ended.
fn next_line<H: Shelf>(
    lines: &mut Lines,
    shelf: &mut H,
    name: &str,
    state: &State,
) -> Result<bool, JudgeEnd>
    requires { lines.old.last ≡ true → IfTold (H.held shelf.old name.now) (λ text. left_of lines.old text ≡ []) }
    ensures took { IfOk result (λ given. IsTrue given → Took (H.held shelf.old name.now) lines.old lines.new) }
    ensures goes_on { IfOk result (λ given. IsTrue given → lines.old.last ≡ false) }
    ensures plain { IfOk result (λ given. IsTrue given → Lacks lines.new.line 10) }
    ensures later { IfOk result (λ given. IsTrue given → lines.old.taken < lines.new.taken) }
    ensures most { lines.old.taken ≤ most_bytes → lines.new.taken ≤ most_bytes }
    ensures end { IfOk result (λ given. IsFalse given → IsEnd (seen state.now) (H.held shelf.old name.now) lines.old) }
    ensures ended { IfErr result (OfLines (seen state.now) (H.held shelf.old name.now) lines.old) }
    ensures read { result ≡ Err (JudgeEnd.Text (Answer AnswerEnd.ReadFault)) → Rose (H.faults shelf.old name.now) (H.faults shelf.new name.now) }
    ensures reads { Reads H.reads name.now (has_unread result) shelf.old shelf.new }
    ensures counts { NoneFell (H.faults shelf.old) (H.faults shelf.new) }
    ensures kept { KeepsTexts (H.held shelf.old) (H.held shelf.new) }
{
    if lines.is_last() {
        return Ok(false);
    }
    match lines.next(shelf, name) {
        Ok(given) => Ok(given),
        Err(LinesEnd::TooLong) => too_long(state),
        Err(LinesEnd::ReadFault) => Err(plain(AnswerEnd::ReadFault)),
        Err(LinesEnd::Memory) => Err(plain(AnswerEnd::Memory)),
    }
}

// A line that is too long.
fn too_long(state: &State) -> Result<bool, JudgeEnd>
    ensures end { IfOk result (λ given. (given ≡ false) × (seen state.now ≡ First)) }
    ensures ended { IfErr result (λ end. (end ≡ JudgeEnd.Text (Answer (Refused TooLong))) × IsLater (seen state.now)) }
{
    if is_first(state) {
        return Ok(false);
    }
    Err(refused(AnswerFault::TooLong))
}

// Goes on to the state behind a line with this number, skipped or not.
fn advance(
    alloc: Global,
    circuit: &Circuit,
    state: &mut State,
    number: u64,
    line: &[u8],
) -> Result<(), JudgeEnd>
    requires { IsKept circuit.now state.old }
    ensures ok { (replays : Replays) → AreReplays circuit.now replays
        → OnOk result (read_lines circuit.now replays (seen state.old) (kept_from number (line.now ∷ [])) ≡ Ok (seen state.new)) }
    ensures kept { OnOk result (IsKept circuit.now state.new) }
    ensures fault { (replays : Replays) → AreReplays circuit.now replays
        → IfErr result (OfEnd (λ fault. read_lines circuit.now replays (seen state.old) (kept_from number (line.now ∷ [])) ≡ Err fault)) }
{
    let from = mem::replace(state, State::First);
    let next = line_step(alloc, circuit, from, number, line)?;
    drop(mem::replace(state, next));
    Ok(())
}

// The state behind a line with this number, skipped or not.
fn line_step(
    alloc: Global,
    circuit: &Circuit,
    state: State,
    number: u64,
    line: &[u8],
) -> Result<State, JudgeEnd>
    requires { IsKept circuit.now state }
    ensures ok { (replays : Replays) → AreReplays circuit.now replays
        → IfOk result (λ next. read_lines circuit.now replays (seen state) (kept_from number (line.now ∷ [])) ≡ Ok (seen next)) }
    ensures kept { IfOk result (IsKept circuit.now) }
    ensures fault { (replays : Replays) → AreReplays circuit.now replays
        → IfErr result (OfEnd (λ fault. read_lines circuit.now replays (seen state) (kept_from number (line.now ∷ [])) ≡ Err fault)) }
{
    if is_skipped(line) {
        return Ok(state);
    }
    step(alloc, circuit, state, number, line)
}
