//! The text of an answer with the certificate of checked entries, written. The main call is `write`.

ghost use Rattle.std.specs.Prelude.{◌≡◌, ◌≤◌, length, IfOk, OnOk};
ghost use Rattle.answer_lines.specs.Left.{most_bytes};
ghost use Rattle.certificate_lines.specs.declared.words.WordLine.TheVariants as lines;
ghost use Rattle.certificate_texts.specs.Adding.{Adds};
ghost use Rattle.certificate_texts.specs.Certificates.{opening_line, entry_lines};
ghost use Rattle.certificate_texts.specs.Writing.{certificate_text};
ghost use Rattle.certificate.specs.Writing.{listed, written_entry, certificate_of};

use certificate_lines::{Opening, WordLine};
use certificate_texts::{add_clauses, add_head, add_last, add_proofs, add_uses, add_word_line};
use entry::{Checked, Refutation};
use std::alloc::{AllocError, Global};
use std::sync::Arc;

/// Writes a whole answer: `0`, `jN`, and the certificate, of version 2, of the entries in their order and the refutation,
/// each literal as the model of its entry's circuit numbers it. Nothing is checked; where each entry is proved behind
/// those before it and the refutation is good, the answer is. The error is want of memory.
pub fn write(
    alloc: Global,
    j: u32,
    list: &[Arc<Checked>],
    refutation: &Refutation,
) -> Result<Vec<u8>, AllocError>
    ensures text { IfOk result (λ text. text.items
        ≡ certificate_text j (certificate_of (listed list.now) refutation.now)) }
    // The text is within the limit on the length of an answer.
    ensures within { IfOk result (λ text. length text.items ≤ most_bytes) }
{
    let mut text = Vec::new(alloc);
    add_head(&mut text, j)?;
    for entry in list {
        add_entry(alloc, &mut text, &**entry)?;
    }
    add_last(
        &mut text,
        refutation.uses.as_slice(),
        refutation.proof.as_slice(),
    )?;
    Ok(text)
}

fn opening_of(e: &Checked) -> Opening
    ensures { lines.Opening result ≡ opening_line (written_entry e.now) }
{
    let listed = e.listed();
    Opening {
        kind: listed.kind,
        clauses: listed.set.len() as u64,
        uses: listed.uses.len() as u64,
    }
}

/// Adds the lines of an entry at the end of a text, each with its line feed. Where memory is wanting a part of them may stand
/// there.
pub fn add_entry(alloc: Global, text: &mut Vec<u8>, e: &Checked) -> Result<(), AllocError>
    ensures { OnOk result (Adds text.old.items text.new.items (entry_lines (written_entry e.now))) }
{
    let listed = e.listed();
    add_word_line(text, WordLine::Opening(opening_of(e)))?;
    add_uses(text, listed.uses.as_slice())?;
    add_clauses(alloc, text, &**e.circuit(), listed.set.as_slice())?;
    add_proofs(text, e.proofs())
}
