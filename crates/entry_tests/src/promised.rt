//! Clauses of public calls, said again as clauses of this crate's own: where such a call comes to say less, the function
//! here that makes it is not proved.
ghost use Rattle.std.specs.Prelude.{◌≡◌, Ok, Err, length, ◌↔◌, ◌<◌, None, IfOk, List, ℕ, Some, Result, take};
ghost use Rattle.std.specs.Prelude.{◌≤◌, [], ◌∷◌, ◌++◌, OnOk, OnErr, drop, false, map, true, All};
ghost use Rattle.edge.specs.Faults.{NoneFell, Rose};
ghost use Rattle.edge.specs.Reads.{KeepsTexts, Reads};
ghost use Rattle.answer_lines.specs.Left.{most_bytes};
ghost use Rattle.stimulus.specs.Texts.{kept_lines};
ghost use Rattle.entry.specs.Clauses.{clause_of};
ghost use Rattle.entry.specs.CheckedEntries.{checked_in, viewed, GoesOnFrom};
ghost use Rattle.entry.specs.LatchTables.{number_in};
ghost use Rattle.entry.specs.Listing.{entries_of, numbered_of};
ghost use Rattle.entry.specs.Faults.{first_bad_use, first_baseless, first_fault};
ghost use Rattle.entry.specs.Proved.{IsProved, IsGoodRefutation};
ghost use Rattle.unless_memory.specs.Answers.{GivesExactlyWhere};
ghost use Rattle.cnf_unroll.specs.Laws.{AreOver};
ghost use Rattle.entry.specs.Entries.{said, verdict};
ghost use Rattle.entry.specs.Answers.{Tells};
ghost use Rattle.entry.specs.Refutations.{first_refutation_fault};
ghost use Rattle.certificate.specs.Answers.{Shows};
ghost use Rattle.certificate.specs.Ends.{DecidesEnd, CheckSays, EndsWith, has_unread};
ghost use Rattle.certificate.specs.Lassos.{KeepsLasso, UnlessStimulus};
ghost use Rattle.certificate.specs.Loading.{IsHeldOf, accepted_of, accepted_in};
ghost use Rattle.certificate.specs.Reading.{opens_sheet};
ghost use Rattle.certificate.specs.Writing.{listed, written_entry, certificate_of};
ghost use Rattle.certificate_texts.specs.Adding.{Adds};
ghost use Rattle.certificate_texts.specs.Certificates.{entry_lines};
ghost use Rattle.certificate_texts.specs.Writing.{certificate_text};
ghost use Rattle.sheet_answers.specs.Sheets.{IsSheetWith, ShowsSheet};
ghost use Rattle.sheet_commands.specs.Boards.{IsSheetOf};
ghost use Rattle.aig_semantics.specs.Stimuli.{IsFairLassoOf, StandsFor};
ghost use Rattle.lasso_join.specs.Prefixes.{stimulus_of};
ghost use Rattle.sheet_commands.specs.Blocks.{DecidesBlock, BlockSays, EndsBlock};

use aig_semantics::Lasso;
use certificate::{Accepted, AnswerEnd, KeptLines, Loaded};
use circuit::Circuit;
use cnf::Clause;
use edge::Shelf;
use entry::{
    Checked, Entry, EntryEnd, LatchNumbers, Listed, Refutation, RefutationFault, UsedEntry, User,
};
use fair_semantics::{Kind, Use};
use items::Items;
use sheet_answers::JudgeEnd;
use sheet_commands::{BlockLasso, BoardSheet};
use std::alloc::{AllocError, Global};
use std::sync::Arc;
use wall_store::Board;

/// Which of a line of uses may not stand where it does.
fn first_bad_use(user: User, list: &[Listed], uses: &[Use]) -> Option<u64>
    ensures { result ≡ first_bad_use user (entries_of list.now) uses.now }
{
    entry::first_bad_use(user, list, uses)
}

/// A clause is over the numbers of latches, and a literal of none is told.
fn clause_of(alloc: Global, c: &Circuit, literals: &[u64]) -> Result<Clause, EntryEnd>
    ensures clause { Tells result (clause_of c.now literals.now) }
    ensures over { IfOk result (λ clause. All (λ l. l.var < length c.now.latches) clause) }
{
    entry::clause_from_aiger(alloc, c, literals)
}

/// Which clause of a reach entry has no literal of the initial cube.
fn first_baseless(c: &Circuit, kind: Kind, clauses: &[Clause]) -> Option<u64>
    ensures { result ≡ first_baseless c.now kind clauses.now }
{
    entry::first_baseless(c, kind, clauses)
}

/// An entry is proved exactly where each of its clauses is, and else its first fault is told.
fn checked(alloc: Global, c: &Circuit, list: &[Listed], e: &Entry) -> Result<(), EntryEnd>
    requires { length e.now.proofs ≡ length e.now.set }
    ensures proved { AreOver (length c.now.latches) e.now.set → GivesExactlyWhere (Err EntryEnd.Memory) (Ok tt)
        (IsProved c.now (entries_of list.now) (said e.now) e.now.proofs) result }
    ensures fault { Tells result (verdict (first_fault c.now (entries_of list.now) (said e.now) e.now.proofs)) }
{
    entry::check_entry(alloc, c, list, e)
}

/// The first fault of a refutation.
fn refutation_fault(
    alloc: Global,
    c: &Circuit,
    list: &[Listed],
    j: u32,
    r: &Refutation,
) -> Result<Option<RefutationFault>, AllocError>
    requires { j < length c.now.justice }
    ensures good { IfOk result (λ fault. (fault ≡ None) ↔ IsGoodRefutation c.now (entries_of list.now) j r.now.uses r.now.proof) }
    ensures fault { IfOk result (λ fault. fault ≡ first_refutation_fault c.now (entries_of list.now) j r.now.uses r.now.proof) }
{
    entry::refutation_fault(alloc, c, list, j, r)
}

/// The entries that a checked one uses, with their numbers.
fn used_by(checked: &Checked) -> &[UsedEntry]
    ensures { map numbered_of result.now ≡ checked.now.used }
{
    checked.used()
}

/// How many entries stood in the view behind which it was checked.
fn seen_by(checked: &Checked) -> usize
    ensures { result ≡ checked.now.seen }
{
    checked.seen()
}

/// The number of the latch with a variable.
fn number_of(numbers: &LatchNumbers, variable: u64) -> Option<u64>
    ensures { result ≡ number_in numbers.now variable }
{
    numbers.number(variable)
}

/// Handles of the same checked entries.
fn shared(alloc: Global, view: &[Arc<Checked>]) -> Result<Items<Arc<Checked>>, AllocError>
    ensures checked { IfOk result (λ copy. checked_in copy ≡ checked_in view.now) }
    ensures viewed { IfOk result (λ copy. viewed copy ≡ viewed view.now) }
{
    entry::share(alloc, view)
}

/// What a view has more is taken in, and what was seen stays.
fn caught_up(
    alloc: Global,
    seen: &mut Items<Arc<Checked>>,
    view: &[Arc<Checked>],
) -> Result<(), AllocError>
    requires { GoesOnFrom (viewed seen.old) (viewed view.now) }
    ensures checked { OnOk result (checked_in seen.new ≡ checked_in seen.old ++ drop (length seen.old) (checked_in view.now)) }
    ensures seen { OnOk result (viewed seen.new ≡ viewed view.now) }
    ensures kept { OnErr result (seen.new ≡ seen.old) }
{
    entry::catch_up(alloc, seen, view)
}

/// A line is kept where lines are, and want of memory changes nothing.
fn line_kept(all: &mut KeptLines, alloc: Global, line: &[u8]) -> Result<(), AllocError>
    ensures keeps { all.new.keeps ≡ all.old.keeps }
    ensures lines { OnOk result (all.old.keeps ≡ true → all.new.lines ≡ all.old.lines ++ kept_lines (line.now ∷ [])) }
    ensures none { all.old.keeps ≡ false → all.new.lines ≡ all.old.lines }
    ensures err { OnErr result (all.new.lines ≡ all.old.lines) }
{
    all.keep(alloc, line)
}

/// The lines of an entry come at the end of a text.
fn entry_added(alloc: Global, text: &mut Vec<u8>, e: &Checked) -> Result<(), AllocError>
    ensures { OnOk result (Adds text.old.items text.new.items (entry_lines (written_entry e.now))) }
{
    certificate::add_entry(alloc, text, e)
}

/// An answer with a certificate, within the limit on the length of an answer.
fn certificate_written(
    alloc: Global,
    j: u32,
    list: &[Arc<Checked>],
    refutation: &Refutation,
) -> Result<Vec<u8>, AllocError>
    ensures text { IfOk result (λ text. text.items ≡ certificate_text j (certificate_of (listed list.now) refutation.now)) }
    ensures within { IfOk result (λ text. length text.items ≤ most_bytes) }
{
    certificate::write(alloc, j, list, refutation)
}

/// Whether a line is the first of a sheet.
fn opens_sheet(line: &[u8]) -> bool
    ensures { result ≡ opens_sheet line.now }
{
    certificate::opens_sheet(line)
}

/// Exactly the good answers are accepted, what is accepted is true, and nothing but the answer is read.
fn answer_checked<H: Shelf>(
    alloc: Global,
    circuit: &Circuit,
    shelf: &mut H,
    name: &str,
) -> Result<Accepted, AnswerEnd>
    ensures found { CheckSays circuit.now (H.held shelf.old name.now) result }
    ensures exactly { (text : List ℕ) (verdict : Result Accepted AnswerEnd) → H.held shelf.old name.now ≡ Some text
        → DecidesEnd circuit.now text verdict → EndsWith result verdict }
    ensures shown { IfOk result (Shows circuit.now) }
    ensures read { result ≡ Err AnswerEnd.ReadFault → Rose (H.faults shelf.old name.now) (H.faults shelf.new name.now) }
    ensures reads { Reads H.reads name.now (has_unread result) shelf.old shelf.new }
    ensures counts { NoneFell (H.faults shelf.old) (H.faults shelf.new) }
    ensures kept { KeepsTexts (H.held shelf.old) (H.held shelf.new) }
{
    certificate::check_answer(alloc, circuit, shelf, name)
}

/// So where the answer is held, which is what stands there.
fn answer_loaded<H: Shelf>(
    alloc: Global,
    circuit: &Circuit,
    shelf: &mut H,
    name: &str,
) -> Result<Loaded, AnswerEnd>
    ensures found { CheckSays circuit.now (H.held shelf.old name.now) (accepted_in result) }
    ensures exactly { (text : List ℕ) (verdict : Result Accepted AnswerEnd) → H.held shelf.old name.now ≡ Some text
        → DecidesEnd circuit.now text verdict → EndsWith (accepted_in result) verdict }
    ensures held { IfOk result (IsHeldOf circuit.now (H.held shelf.old name.now)) }
    ensures shown { IfOk result (λ loaded. Shows circuit.now (accepted_of loaded)) }
    ensures read { result ≡ Err AnswerEnd.ReadFault → Rose (H.faults shelf.old name.now) (H.faults shelf.new name.now) }
    ensures reads { Reads H.reads name.now (has_unread result) shelf.old shelf.new }
    ensures counts { NoneFell (H.faults shelf.old) (H.faults shelf.new) }
    ensures kept { KeepsTexts (H.held shelf.old) (H.held shelf.new) }
{
    certificate::load(alloc, circuit, shelf, name)
}

/// So where the lasso of an accepted stimulus is kept; a refused answer leaves what was kept.
fn kept_lasso<H: Shelf>(
    alloc: Global,
    circuit: &Circuit,
    shelf: &mut H,
    name: &str,
    kept: &mut Option<Lasso>,
) -> Result<Accepted, AnswerEnd>
    ensures found { CheckSays circuit.now (H.held shelf.old name.now) result }
    ensures exactly { (text : List ℕ) (verdict : Result Accepted AnswerEnd) → H.held shelf.old name.now ≡ Some text
        → DecidesEnd circuit.now text verdict → EndsWith result verdict }
    ensures lasso { IfOk result (λ accepted. KeepsLasso circuit.now (H.held shelf.old name.now) accepted kept.new) }
    ensures untouched { UnlessStimulus result (kept.new ≡ kept.old) }
{
    certificate::check_with_lasso(alloc, circuit, shelf, name, kept)
}

/// The sheet of a board has its entries and, for each property, what the board has of it.
fn sheet_of(alloc: Global, circuit: &Circuit, board: &Board) -> Result<BoardSheet, AllocError>
    requires { board.now.circuit ≡ circuit.now }
    ensures text { IfOk result (λ sheet. IsSheetOf circuit.now board.now sheet.counts sheet.text.items) }
    ensures good { IfOk result (λ sheet. IsSheetWith circuit.now sheet.text.items sheet.counts (length board.now.entries)) }
    ensures shown { IfOk result (λ sheet. ShowsSheet circuit.now sheet.counts) }
{
    sheet_commands::board_sheet(alloc, circuit, board)
}

/// The lasso once more, cut where its stimulus first stands for one.
fn first_lasso(alloc: Global, circuit: &Circuit, j: u32, lasso: &Lasso) -> Result<Lasso, AllocError>
    requires { IsFairLassoOf circuit.now j lasso.now }
    ensures shortest { IfOk result (λ short. StandsFor circuit.now j (stimulus_of lasso.now) (length short.inputs) short.from) }
    ensures start { IfOk result (λ short. short.start ≡ lasso.now.start) }
    ensures inputs { IfOk result (λ short. short.inputs ≡ take (length short.inputs) lasso.now.inputs) }
    ensures whole { IfOk result (λ short. StandsFor circuit.now j (stimulus_of short) (length short.inputs) short.from) }
    ensures fair { IfOk result (λ short. IsFairLassoOf circuit.now j short) }
{
    sheet_commands::first_lasso(alloc, circuit, j, lasso)
}

/// The lasso of the block of the property, in a good sheet.
fn block_lasso<H: Shelf>(
    alloc: Global,
    circuit: &Circuit,
    shelf: &mut H,
    name: &str,
    property: u32,
) -> Result<BlockLasso, JudgeEnd>
    ensures found { BlockSays circuit.now (H.held shelf.old name.now) property result }
    ensures exactly { (text : List ℕ) (verdict : Result BlockLasso JudgeEnd) → H.held shelf.old name.now ≡ Some text
        → DecidesBlock circuit.now text property verdict → EndsBlock result verdict }
{
    sheet_commands::block_lasso(alloc, circuit, shelf, name, property)
}
