//! The check of an answer against a circuit. The main calls are `check_answer`, and `check_with_lasso`, which keeps the
//! lasso of a stimulus.

ghost use Rattle.std.specs.Prelude.{◌≡◌, ◌<◌, ◌≤◌, List, [], ◌∷◌, ◌++◌, ℕ, true, false, Some, Result, Ok, Err, IfOk, IfErr, OnOk, IsTrue, IsFalse};
ghost use Rattle.edge.specs.Faults.{Rose, NoneFell};
ghost use Rattle.edge.specs.Reads.{KeepsTexts, Reads};
ghost use Rattle.edge.specs.Told.{IfTold};
ghost use Rattle.text_grammar.specs.Pieces.{Lacks};
ghost use Rattle.answer_lines.specs.Left.{at_start, left_of, most_bytes, Took};
ghost use Rattle.certificate.specs.Answers.{Shows};
ghost use Rattle.certificate.specs.Ends.{DecidesEnd, CheckSays, EndsWith, ReadsAs, has_unread};
ghost use Rattle.certificate.specs.Lassos.{KeepsLasso, UnlessStimulus};
ghost use Rattle.certificate.specs.Lines.{kept_from};
ghost use Rattle.certificate.specs.Reading.{read_lines};
ghost use Rattle.certificate.specs.Seen.{seen, IsKept};
ghost use Rattle.certificate.specs.Steps.{OfEnd};
ghost use Rattle.certificate.specs.Texts.{OfLines, ReadingSays};
ghost use Rattle.certificate.specs.Whole.{IsReadWhole};
ghost use Rattle.stimulus.specs.Texts.{kept_lines};

use crate::ends::{Accepted, AnswerEnd};
use crate::laws::good_answers_are_true;
use crate::state::State;
use crate::steps::{finish, step};
use aig_semantics::Lasso;
use answer_lines::Lines;
use certificate_texts::KeptLines;
use circuit::Circuit;
use edge::Shelf;
use std::alloc::Global;
use std::mem;
use stimulus::is_skipped;

/// Checks the answer that the shelf holds under the name, against a circuit: `Accepted` exactly where it is a good
/// answer, a stimulus that stands for a fair lasso of the property that it names or a certificate that there is none;
/// and else `Refused` with its first failing item, in the order of its lines; of a stimulus behind its text's end. The
/// text is read line by line, and of a certificate the entries and one proof are held, never the text. `ReadFault`
/// comes only where the shelf's count of faults of that name rose.
pub fn check_answer<H: Shelf>(
    alloc: Global,
    circuit: &Circuit,
    shelf: &mut H,
    name: &str,
) -> Result<Accepted, AnswerEnd>
    // What is answered is so, of the text that the shelf tells;
    ensures found { CheckSays circuit.now (H.held shelf.old name.now) result }
    // and what is so is answered, unless memory is refused or a read fails.
    ensures exactly { (text : List ℕ) (verdict : Result Accepted AnswerEnd) → H.held shelf.old name.now ≡ Some text
        → DecidesEnd circuit.now text verdict → EndsWith result verdict }
    // What is accepted is true, whatever the shelf tells: there is such a fair lasso; or there is none, and no initial run
    // has more rounds of the property than there are states.
    ensures shown { IfOk result (Shows circuit.now) }
    ensures read { result ≡ Err AnswerEnd.ReadFault → Rose (H.faults shelf.old name.now) (H.faults shelf.new name.now) }
    ensures reads { Reads H.reads name.now (has_unread result) shelf.old shelf.new }
    ensures counts { NoneFell (H.faults shelf.old) (H.faults shelf.new) }
    ensures kept { KeepsTexts (H.held shelf.old) (H.held shelf.new) }
{
    let mut kept = None;
    check_with_lasso(alloc, circuit, shelf, name, &mut kept)
}

/// The same, and where a stimulus is accepted the lasso that it stands for is left in `kept`: as many positions as
/// `Accepted` says, the last of which steps back to its `from`. Where a certificate is accepted, or nothing is, `kept` stays
/// as it was.
pub fn check_with_lasso<H: Shelf>(
    alloc: Global,
    circuit: &Circuit,
    shelf: &mut H,
    name: &str,
    kept: &mut Option<Lasso>,
) -> Result<Accepted, AnswerEnd>
    // What is answered is so, of the text that the shelf tells;
    ensures found { CheckSays circuit.now (H.held shelf.old name.now) result }
    // and what is so is answered, unless memory is refused or a read fails.
    ensures exactly { (text : List ℕ) (verdict : Result Accepted AnswerEnd) → H.held shelf.old name.now ≡ Some text
        → DecidesEnd circuit.now text verdict → EndsWith result verdict }
    // What is accepted is true, whatever the shelf tells: there is such a fair lasso; or there is none, and no initial run
    // has more rounds of the property than there are states.
    ensures shown { IfOk result (Shows circuit.now) }
    ensures read { result ≡ Err AnswerEnd.ReadFault → Rose (H.faults shelf.old name.now) (H.faults shelf.new name.now) }
    ensures reads { Reads H.reads name.now (has_unread result) shelf.old shelf.new }
    ensures counts { NoneFell (H.faults shelf.old) (H.faults shelf.new) }
    ensures kept { KeepsTexts (H.held shelf.old) (H.held shelf.new) }
    ensures lasso { IfOk result (λ accepted. KeepsLasso circuit.now (H.held shelf.old name.now) accepted kept.new) }
    ensures untouched { UnlessStimulus result (kept.new ≡ kept.old) }
{
    good_answers_are_true(circuit);
    read_answer(alloc, circuit, shelf, name, kept)
}

/// Reads the text that the shelf holds under the name, line by line, and says how it ends.
fn read_answer<H: Shelf>(
    alloc: Global,
    circuit: &Circuit,
    shelf: &mut H,
    name: &str,
    kept: &mut Option<Lasso>,
) -> Result<Accepted, AnswerEnd>
    ensures found { ReadingSays circuit.now (H.held shelf.old name.now) result }
    ensures exactly { (text : List ℕ) (verdict : Result Accepted AnswerEnd) → H.held shelf.old name.now ≡ Some text
        → ReadsAs circuit.now text verdict → EndsWith result verdict }
    ensures read { result ≡ Err AnswerEnd.ReadFault → Rose (H.faults shelf.old name.now) (H.faults shelf.new name.now) }
    ensures reads { Reads H.reads name.now (has_unread result) shelf.old shelf.new }
    ensures counts { NoneFell (H.faults shelf.old) (H.faults shelf.new) }
    ensures kept { KeepsTexts (H.held shelf.old) (H.held shelf.new) }
    ensures lasso { IfOk result (λ accepted. KeepsLasso circuit.now (H.held shelf.old name.now) accepted kept.new) }
    ensures untouched { UnlessStimulus result (kept.new ≡ kept.old) }
{
    let mut lines = Lines::new(alloc)?;
    let mut state = State::Status;
    let mut unkept = KeptLines::none(alloc);
    let result = read_on(
        alloc,
        circuit,
        shelf,
        name,
        &mut lines,
        &mut state,
        &mut unkept,
        kept,
    );
    drop(state);
    result
}

/// The same, from the start of the text and of its reading: with the state that it ends in, and with its lines where they
/// are kept.
pub(crate) fn read_on<H: Shelf>(
    alloc: Global,
    circuit: &Circuit,
    shelf: &mut H,
    name: &str,
    lines: &mut Lines,
    state: &mut State,
    all: &mut KeptLines,
    kept: &mut Option<Lasso>,
) -> Result<Accepted, AnswerEnd>
    requires start { lines.old ≡ at_start }
    requires state { state.old ≡ State.Status }
    requires none { all.old.lines ≡ [] }
    ensures found { ReadingSays circuit.now (H.held shelf.old name.now) result }
    ensures exactly { (text : List ℕ) (verdict : Result Accepted AnswerEnd) → H.held shelf.old name.now ≡ Some text
        → ReadsAs circuit.now text verdict → EndsWith result verdict }
    ensures read { result ≡ Err AnswerEnd.ReadFault → Rose (H.faults shelf.old name.now) (H.faults shelf.new name.now) }
    ensures reads { Reads H.reads name.now (has_unread result) shelf.old shelf.new }
    ensures counts { NoneFell (H.faults shelf.old) (H.faults shelf.new) }
    ensures kept { KeepsTexts (H.held shelf.old) (H.held shelf.new) }
    ensures lasso { IfOk result (λ accepted. KeepsLasso circuit.now (H.held shelf.old name.now) accepted kept.new) }
    ensures untouched { UnlessStimulus result (kept.new ≡ kept.old) }
    ensures whole { IfOk result (λ accepted. all.old.keeps ≡ true
        → IsReadWhole circuit.now (H.held shelf.old name.now) accepted all.new.lines (seen state.new) kept.new) }
{
    let mut number = 1;
    'lines: while next_line(lines, shelf, name)? {
        advance(alloc, circuit, state, number, lines.line(), all)?;
        number += 1;
    }
    finish(alloc, circuit, &*state, number, kept)
}

/// Reads the next line, and says whether there was one. The condition is that nothing is left behind a line that the
/// text's end ended.
fn next_line<H: Shelf>(lines: &mut Lines, shelf: &mut H, name: &str) -> Result<bool, AnswerEnd>
    requires { lines.old.last ≡ true → IfTold (H.held shelf.old name.now) (λ text. left_of lines.old text ≡ []) }
    ensures took { IfOk result (λ given. IsTrue given → Took (H.held shelf.old name.now) lines.old lines.new) }
    ensures goes_on { IfOk result (λ given. IsTrue given → lines.old.last ≡ false) }
    ensures plain { IfOk result (λ given. IsTrue given → Lacks lines.new.line 10) }
    ensures later { IfOk result (λ given. IsTrue given → lines.old.taken < lines.new.taken) }
    ensures most { lines.old.taken ≤ most_bytes → lines.new.taken ≤ most_bytes }
    ensures end { IfOk result (λ given. IsFalse given
        → IfTold (H.held shelf.old name.now) (λ text. left_of lines.old text ≡ [])) }
    ensures ended { IfErr result (OfLines (H.held shelf.old name.now) lines.old) }
    ensures read { result ≡ Err AnswerEnd.ReadFault → Rose (H.faults shelf.old name.now) (H.faults shelf.new name.now) }
    ensures reads { Reads H.reads name.now (has_unread result) shelf.old shelf.new }
    ensures counts { NoneFell (H.faults shelf.old) (H.faults shelf.new) }
    ensures kept { KeepsTexts (H.held shelf.old) (H.held shelf.new) }
{
    if lines.is_last() {
        return Ok(false);
    }
    Ok(lines.next(shelf, name)?)
}

// Goes on to the state behind a line with this number, skipped or not, which is kept where lines are.
fn advance(
    alloc: Global,
    circuit: &Circuit,
    state: &mut State,
    number: u64,
    line: &[u8],
    all: &mut KeptLines,
) -> Result<(), AnswerEnd>
    requires { IsKept circuit.now state.old }
    ensures ok { OnOk result (read_lines circuit.now (seen state.old) (kept_from number (line.now ∷ [])) ≡ Ok (seen state.new)) }
    ensures kept { OnOk result (IsKept circuit.now state.new) }
    ensures fault { IfErr result
        (OfEnd (λ fault. read_lines circuit.now (seen state.old) (kept_from number (line.now ∷ [])) ≡ Err fault)) }
    ensures keeps { all.new.keeps ≡ all.old.keeps }
    ensures lines { OnOk result (all.old.keeps ≡ true → all.new.lines ≡ all.old.lines ++ kept_lines (line.now ∷ [])) }
{
    all.keep(alloc, line)?;
    advance_state(alloc, circuit, state, number, line)
}

// The same of the state alone.
fn advance_state(
    alloc: Global,
    circuit: &Circuit,
    state: &mut State,
    number: u64,
    line: &[u8],
) -> Result<(), AnswerEnd>
    requires { IsKept circuit.now state.old }
    ensures ok { OnOk result (read_lines circuit.now (seen state.old) (kept_from number (line.now ∷ [])) ≡ Ok (seen state.new)) }
    ensures kept { OnOk result (IsKept circuit.now state.new) }
    ensures fault { IfErr result
        (OfEnd (λ fault. read_lines circuit.now (seen state.old) (kept_from number (line.now ∷ [])) ≡ Err fault)) }
{
    let from = mem::replace(state, State::Status);
    let next = line_step(alloc, circuit, from, number, line)?;
    drop(mem::replace(state, next));
    Ok(())
}

/// The state behind a line with this number, skipped or not, or the line's fault.
fn line_step(
    alloc: Global,
    circuit: &Circuit,
    state: State,
    number: u64,
    line: &[u8],
) -> Result<State, AnswerEnd>
    requires { IsKept circuit.now state }
    ensures ok { IfOk result (λ next. read_lines circuit.now (seen state) (kept_from number (line.now ∷ [])) ≡ Ok (seen next)) }
    ensures kept { IfOk result (IsKept circuit.now) }
    ensures fault { IfErr result
        (OfEnd (λ fault. read_lines circuit.now (seen state) (kept_from number (line.now ∷ [])) ≡ Err fault)) }
{
    if is_skipped(line) {
        return Ok(state);
    }
    step(alloc, circuit, state, number, line)
}
