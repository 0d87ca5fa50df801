//! The text of a sheet, written. The main call is `write`.

ghost use Rattle.std.specs.Prelude.{◌≡◌, ◌≤◌, ◌<◌, ◌+◌, ◌^◌, [], ◌∷◌, ◌++◌, map, flat_map, length, codes, IfOk, OnOk};
ghost use Rattle.answer_lines.specs.Left.{most_bytes};
ghost use Rattle.stimulus.specs.Texts.{digit_of};
ghost use Rattle.certificate_texts.specs.Adding.{Adds};
ghost use Rattle.certificate_texts.specs.Writing.{property_line};
ghost use Rattle.certificate_texts.specs.Certificates.{entry_lines, refutation_lines};
ghost use Rattle.certificate.specs.Writing.{listed, written_entry};
ghost use Rattle.sheet_answers.specs.Sheets.{all_line, refuting};
ghost use Rattle.sheet_answers.specs.Writing.{stimulus_rows, block_lines, lines_of_blocks, sheet_text};

use crate::blocks::Block;
use aig_semantics::Stimulus;
use certificate::{add_entry, add_lines, add_uses, add_word_line};
use certificate_lines::{Refutation as RefutationLine, Version, WordLine};
use entry::{Checked, Refutation};
use items::Items;
use std::alloc::{AllocError, Global};
use std::sync::Arc;
use text_grammar::push_number;

/// Writes a whole sheet: the line of all properties, as many as there are blocks, version 2, the entries in their order, each
/// literal as the model of its entry's circuit numbers it, the blocks, and the end. Nothing is checked; where each entry is
/// proved behind those before it, and the blocks are true over them, the sheet is good. The error is want of memory.
#[tactic(auto, using(crate::proofs::AddedBlocks::sheet_added))]
pub fn write(alloc: Global, list: &[Arc<Checked>], blocks: &[Block]) -> Result<Vec<u8>, AllocError>
    requires { length blocks.now ≤ 4294967295 }
    ensures text { IfOk result (λ text. text.items ≡ sheet_text (listed list.now) blocks.now) }
    // The text is within the limit on the length of an answer.
    ensures within { IfOk result (λ text. length text.items ≤ most_bytes) }
{
    let mut text = Vec::new(alloc);
    push_first_line(&mut text, blocks.len() as u64)?;
    add_word_line(&mut text, WordLine::Version(Version::Two))?;
    push_entries(alloc, &mut text, list)?;
    push_blocks(&mut text, blocks)?;
    add_word_line(&mut text, WordLine::End)?;
    Ok(text)
}

// Each of these adds lines at the end of a text, each with its line feed.

fn push_first_line(text: &mut Vec<u8>, count: u64) -> Result<(), AllocError>
    ensures { OnOk result (Adds text.old.items text.new.items (all_line count ∷ [])) }
{
    text.extend_from_slice(b"all ")?;
    push_number(text, count)?;
    text.push(b'\n')?;
    Ok(())
}

fn push_entries(alloc: Global, text: &mut Vec<u8>, list: &[Arc<Checked>]) -> Result<(), AllocError>
    ensures { OnOk result (Adds text.old.items text.new.items (flat_map entry_lines (map written_entry (listed list.now)))) }
{
    for entry in list {
        add_entry(alloc, text, &**entry)?;
    }
    Ok(())
}

// The first line of the block of property n.
fn push_opening(text: &mut Vec<u8>, word: &[u8], n: u32) -> Result<(), AllocError>
    ensures { OnOk result (Adds text.old.items text.new.items ((word.now ++ property_line n) ∷ [])) }
{
    text.extend_from_slice(word)?;
    text.push(b'j')?;
    push_number(text, u64::from(n))?;
    text.push(b'\n')?;
    Ok(())
}

fn push_values(text: &mut Vec<u8>, values: &[bool]) -> Result<(), AllocError>
    ensures { OnOk result (Adds text.old.items text.new.items (map digit_of values.now ∷ [])) }
{
    for value in values {
        text.push(if *value { b'1' } else { b'0' })?;
    }
    text.push(b'\n')?;
    Ok(())
}

fn push_rows(text: &mut Vec<u8>, rows: &[Items<bool>]) -> Result<(), AllocError>
    ensures { OnOk result (Adds text.old.items text.new.items (map (map digit_of) rows.now)) }
{
    for values in rows {
        push_values(text, values.as_slice())?;
    }
    Ok(())
}

fn push_dot(text: &mut Vec<u8>) -> Result<(), AllocError>
    ensures { OnOk result (Adds text.old.items text.new.items (codes "." ∷ [])) }
{
    text.extend_from_slice(b".\n")?;
    Ok(())
}

fn push_stimulus(text: &mut Vec<u8>, s: &Stimulus) -> Result<(), AllocError>
    ensures { OnOk result (Adds text.old.items text.new.items (stimulus_rows s.now)) }
{
    let latches = s.latches.as_slice();
    let inputs = s.inputs.as_slice();
    push_values(text, latches)?;
    push_rows(text, inputs)?;
    push_dot(text)?;
    Ok(())
}

fn push_refutation(text: &mut Vec<u8>, r: &Refutation) -> Result<(), AllocError>
    ensures { OnOk result (Adds text.old.items text.new.items (refutation_lines (refuting r.now))) }
{
    let line = RefutationLine {
        uses: r.uses.len() as u64,
        proof_lines: r.proof.len() as u64,
    };
    add_word_line(text, WordLine::Refutation(line))?;
    add_uses(text, r.uses.as_slice())?;
    add_lines(text, r.proof.as_slice())
}

fn push_block(text: &mut Vec<u8>, n: u32, block: &Block) -> Result<(), AllocError>
    ensures { OnOk result (Adds text.old.items text.new.items (block_lines n block.now)) }
{
    match block {
        Block::Lasso(stimulus) => {
            push_opening(text, b"lasso ", n)?;
            push_stimulus(text, stimulus)
        }
        Block::Holds(refutation) => {
            push_opening(text, b"holds ", n)?;
            push_refutation(text, refutation)
        }
        Block::Open => push_opening(text, b"open ", n),
    }
}

fn push_blocks(text: &mut Vec<u8>, blocks: &[Block]) -> Result<(), AllocError>
    requires { length blocks.now ≤ 4294967295 }
    ensures { OnOk result (Adds text.old.items text.new.items (lines_of_blocks 0 blocks.now)) }
{
    for (n, block) in blocks.iter().enumerate() {
        push_block(text, n as u32, block)?;
    }
    Ok(())
}
