//! The lasso of a block of a sheet. The main call is `block_lasso`.

ghost use Rattle.std.specs.Prelude.{◌≡◌, ℕ, false, List, [], Some, Result, codes};
ghost use Rattle.edge.specs.Faults.{Rose, NoneFell};
ghost use Rattle.edge.specs.Reads.{KeepsTexts, Reads};
ghost use Rattle.unless_memory.specs.Answers.{GivesSome};
ghost use Rattle.sheet_answers.specs.Ends.{has_unread};
ghost use Rattle.sheet_commands.specs.Blocks.{refused, read_fault, no_memory, DecidesBlock, BlockSays, EndsBlock};
ghost use Rattle.sheet_commands.specs.Cutting.{DecidesCut, answer_in, DecidesLasso, HasItsLasso, lasso_by};

use crate::cutting::block_answer;
use aig_semantics::Lasso;
use cert_tools::trimmed_answers_are_good;
use certificate::{Accepted, AnswerEnd, AnswerFault, answers_have_one_end, check_with_lasso};
use circuit::Circuit;
use cnf::ProofLine;
use edge::{MemShelf, Shelf};
use sheet_answers::{JudgeEnd, check_sheet, is_sheet, read_whole, shelf_with};
use std::alloc::Global;

/// The lasso that a block's stimulus stands for, and its property.
#[derive(Drop)]
pub struct BlockLasso {
    pub property: u32,
    pub lasso: Lasso,
}

/// Reads the text that the shelf holds under the name, judges it as a sheet, and answers the lasso of the block of this
/// property. Where the sheet is not good it is refused as its check refuses it; where it has no such block, for the property;
/// and where the block has no stimulus, as of unknown status, as a text is that is no sheet. The text is read once and held, so
/// this takes memory in proportion to it.
pub fn block_lasso<H: Shelf>(
    alloc: Global,
    circuit: &Circuit,
    shelf: &mut H,
    name: &str,
    property: u32,
) -> Result<BlockLasso, JudgeEnd>
    // What is answered is so, of the text that the shelf tells;
    ensures found { BlockSays circuit.now (H.held shelf.old name.now) property result }
    // and what is so is answered, unless memory is refused or a read fails.
    ensures exactly { (text : List ℕ) (verdict : Result BlockLasso JudgeEnd) → H.held shelf.old name.now ≡ Some text
        → DecidesBlock circuit.now text property verdict → EndsBlock result verdict }
    ensures read { result ≡ read_fault → Rose (H.faults shelf.old name.now) (H.faults shelf.new name.now) }
    ensures reads { Reads H.reads name.now (has_unread result) shelf.old shelf.new }
    ensures counts { NoneFell (H.faults shelf.old) (H.faults shelf.new) }
    ensures kept { KeepsTexts (H.held shelf.old) (H.held shelf.new) }
{
    match read_whole(alloc, shelf, name) {
        Ok(text) => lasso_in(alloc, circuit, text, property),
        Err(end) => Err(end),
    }
}

// The text has this fault.
pub(crate) fn refused(fault: AnswerFault) -> JudgeEnd
    ensures { result ≡ refused fault }
{
    JudgeEnd::from(AnswerEnd::Refused(fault))
}

// The lasso of the block in a text.
fn lasso_in(
    alloc: Global,
    circuit: &Circuit,
    text: Vec<u8>,
    property: u32,
) -> Result<BlockLasso, JudgeEnd>
    ensures found { GivesSome no_memory (DecidesBlock circuit.now text.items property) result }
    ensures exactly { (verdict : Result BlockLasso JudgeEnd) → DecidesBlock circuit.now text.items property verdict
        → GivesSome no_memory (λ end. end ≡ verdict) result }
    ensures unread { has_unread result ≡ false }
{
    if !is_sheet(text.as_slice()) {
        return Err(refused(AnswerFault::UnknownStatus));
    }
    match check_sheet(alloc, circuit, text) {
        Ok(sheet) => cut_lasso(alloc, circuit, property, sheet.lines.as_slice()),
        Err(end) => Err(end),
    }
}

// The lasso of the block of a good sheet with these lines.
fn cut_lasso(
    alloc: Global,
    circuit: &Circuit,
    property: u32,
    lines: &[ProofLine],
) -> Result<BlockLasso, JudgeEnd>
    ensures found { GivesSome no_memory (DecidesCut circuit.now property (answer_in property lines.now)) result }
    ensures exactly { (verdict : Result BlockLasso JudgeEnd) → DecidesCut circuit.now property (answer_in property lines.now) verdict
        → GivesSome no_memory (λ end. end ≡ verdict) result }
    ensures unread { has_unread result ≡ false }
{
    match block_answer(alloc, circuit, property, lines) {
        Ok(answer) => answer_lasso(alloc, circuit, answer),
        Err(end) => Err(end),
    }
}

// The lasso of an answer.
fn answer_lasso(alloc: Global, circuit: &Circuit, answer: Vec<u8>) -> Result<BlockLasso, JudgeEnd>
    ensures found { GivesSome no_memory (DecidesLasso circuit.now answer.items) result }
    ensures exactly { (verdict : Result BlockLasso JudgeEnd) → DecidesLasso circuit.now answer.items verdict
        → GivesSome no_memory (λ end. end ≡ verdict) result }
    ensures unread { has_unread result ≡ false }
{
    match shelf_with(alloc, answer) {
        Ok(shelf) => held_lasso(alloc, circuit, shelf),
        Err(_) => Err(JudgeEnd::from(AnswerEnd::Memory)),
    }
}

// The same of an answer that a shelf in memory holds.
fn held_lasso(alloc: Global, circuit: &Circuit, shelf: MemShelf) -> Result<BlockLasso, JudgeEnd>
    requires steady { shelf.failing ≡ [] }
    requires held { (answer : List ℕ) × (⟦<MemShelf as Shelf>⟧.held shelf (codes "text") ≡ Some answer) }
    ensures found { (answer : List ℕ) → ⟦<MemShelf as Shelf>⟧.held shelf (codes "text") ≡ Some answer
        → GivesSome no_memory (DecidesLasso circuit.now answer) result }
    ensures exactly { (answer : List ℕ) (verdict : Result BlockLasso JudgeEnd)
        → ⟦<MemShelf as Shelf>⟧.held shelf (codes "text") ≡ Some answer
        → DecidesLasso circuit.now answer verdict → GivesSome no_memory (λ end. end ≡ verdict) result }
    ensures unread { has_unread result ≡ false }
{
    trimmed_answers_are_good(circuit);
    answers_have_one_end(circuit);
    let mut shelf = shelf;
    let mut kept = None;
    let end = check_with_lasso(alloc, circuit, &mut shelf, "text", &mut kept);
    lasso_by(end, kept)
}

// What the check of an answer leaves, of which the lasso was kept.
fn lasso_by(end: Result<Accepted, AnswerEnd>, kept: Option<Lasso>) -> Result<BlockLasso, JudgeEnd>
    requires { HasItsLasso end kept }
    ensures { result ≡ lasso_by end kept }
{
    match end {
        Ok(Accepted::Lasso { property, .. }) => match kept {
            Some(lasso) => Ok(BlockLasso { property, lasso }),
            None => unreachable!(),
        },
        Ok(Accepted::Holds { .. }) => Err(refused(AnswerFault::UnknownStatus)),
        Err(end) => Err(JudgeEnd::from(end)),
    }
}
