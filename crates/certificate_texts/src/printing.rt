//! The text of an answer with a certificate, in version 2. The main call is `print_certificate`.

ghost use Rattle.std.specs.Prelude.{◌≡◌, map, flat_map, IfOk, OnOk};
ghost use Rattle.certificate_lines.specs.Clauses.{clause_text};
ghost use Rattle.certificate_lines.specs.declared.words.WordLine.TheVariants as lines;
ghost use Rattle.certificate_texts.specs.Certificates.{opening_line, entry_lines};
ghost use Rattle.certificate_texts.specs.Writing.{certificate_text, in_version_two};
ghost use Rattle.certificate_texts.specs.Adding.{Adds};

use crate::adding::{add_head, add_last, add_proofs, add_uses, add_word_line};
use crate::certificates::{Certificate, Written};
use certificate_lines::{Opening, WordLine, push_clause};
use items::Items;
use std::alloc::{AllocError, Global};

/// Writes the answer with a certificate for this property, in version 2: its entries and the lines of its proofs as they are.
/// Nothing is checked. The error is want of memory.
pub fn print_certificate(
    alloc: Global,
    property: u32,
    certificate: &Certificate,
) -> Result<Vec<u8>, AllocError>
    ensures { IfOk result (λ text. text.items ≡ certificate_text property (in_version_two certificate.now)) }
{
    let mut text = Vec::new(alloc);
    add_head(&mut text, property)?;
    add_entries(&mut text, certificate.entries.as_slice())?;
    add_last(
        &mut text,
        certificate.uses.as_slice(),
        certificate.proof.as_slice(),
    )?;
    Ok(text)
}

fn add_entries(text: &mut Vec<u8>, entries: &[Written]) -> Result<(), AllocError>
    ensures { OnOk result (Adds text.old.items text.new.items (flat_map entry_lines entries.now)) }
{
    for entry in entries {
        add_written(text, entry)?;
    }
    Ok(())
}

fn opening_of(e: &Written) -> Opening
    ensures { lines.Opening result ≡ opening_line e.now }
{
    Opening {
        kind: e.kind,
        clauses: e.clauses.len() as u64,
        uses: e.uses.len() as u64,
    }
}

// The lines of an entry.
fn add_written(text: &mut Vec<u8>, e: &Written) -> Result<(), AllocError>
    ensures { OnOk result (Adds text.old.items text.new.items (entry_lines e.now)) }
{
    add_word_line(text, WordLine::Opening(opening_of(e)))?;
    add_uses(text, e.uses.as_slice())?;
    add_literals(text, e.clauses.as_slice())?;
    add_proofs(text, e.proofs.as_slice())
}

// The lines of its clauses.
fn add_literals(text: &mut Vec<u8>, clauses: &[Items<u64>]) -> Result<(), AllocError>
    ensures { OnOk result (Adds text.old.items text.new.items (map clause_text clauses.now)) }
{
    for literals in clauses {
        push_clause(text, literals.as_slice())?;
        text.push(b'\n')?;
    }
    Ok(())
}
