//! Lines of certificates, added to a text. Each of these calls adds lines at the end of the text, each with its line feed;
//! where memory is wanting it may have added a part of them.

ghost use Rattle.std.specs.Prelude.{◌≡◌, ◌<◌, ◌^◌, [], ◌∷◌, map, flat_map, slice_get, IfOk, OnOk};
ghost use Rattle.certificate_lines.specs.Uses.{uses_text, written};
ghost use Rattle.certificate_lines.specs.Words.{word_line_text};
ghost use Rattle.certificate_lines.specs.Clauses.{clause_text};
ghost use Rattle.certificate_texts.specs.Certificates.{proof_lines};
ghost use Rattle.certificate_texts.specs.Writing.{variable_of_latch, literal_in_model};
ghost use Rattle.certificate_texts.specs.Adding.{Adds, head_lines, last_lines};

use certificate_lines::{Version, WordLine, push_clause, push_uses, push_word_line};
use circuit::{Circuit, Latch};
use cnf::{Clause, Proof, ProofLine};
use fair_semantics::Use;
use proof_semantics::Lit;
use std::alloc::{AllocError, Global};
use text_grammar::push_number;

/// Adds a line of words and numbers.
pub fn add_word_line(text: &mut Vec<u8>, line: WordLine) -> Result<(), AllocError>
    ensures { OnOk result (Adds text.old.items text.new.items (word_line_text line ∷ [])) }
{
    push_word_line(text, line)?;
    text.push(b'\n')?;
    Ok(())
}

/// Adds the line of an entry's uses, or of a refutation's.
pub fn add_uses(text: &mut Vec<u8>, uses: &[Use]) -> Result<(), AllocError>
    ensures { OnOk result (Adds text.old.items text.new.items (uses_text (map written uses.now) ∷ [])) }
{
    push_uses(text, uses)?;
    text.push(b'\n')?;
    Ok(())
}

/// Adds the status 0, the line of the property and that of version 2.
pub fn add_head(text: &mut Vec<u8>, j: u32) -> Result<(), AllocError>
    ensures { OnOk result (Adds text.old.items text.new.items (head_lines j)) }
{
    text.extend_from_slice(b"0\nj")?;
    push_number(text, u64::from(j))?;
    text.push(b'\n')?;
    add_word_line(text, WordLine::Version(Version::Two))
}

fn latch_at(c: &Circuit, n: u64) -> Option<Latch>
    ensures { result ≡ slice_get c.now.latches n }
{
    c.latches().get(n as usize).copied()
}

// The variable of the latch with this number, and 0 where there is none.
fn latch_variable(c: &Circuit, n: u64) -> u64
    ensures variable { result ≡ variable_of_latch (slice_get c.now.latches n) }
    ensures small { result < 2 ^ 32 }
{
    let _limits = c.max();
    match latch_at(c, n) {
        Some(latch) => latch.var,
        None => 0,
    }
}

fn literal_in_model(c: &Circuit, l: Lit) -> u64
    ensures { result ≡ literal_in_model c.now l }
{
    let positive = 2 * latch_variable(c, l.var);
    if l.positive { positive } else { positive + 1 }
}

fn literals_in_model(alloc: Global, c: &Circuit, clause: &[Lit]) -> Result<Vec<u64>, AllocError>
    ensures { IfOk result (λ literals. literals.items ≡ map (literal_in_model c.now) clause.now) }
{
    let mut literals = Vec::new(alloc);
    for literal in clause {
        literals.push(literal_in_model(c, *literal))?;
    }
    Ok(literals)
}

fn add_clause(
    alloc: Global,
    text: &mut Vec<u8>,
    c: &Circuit,
    clause: &Clause,
) -> Result<(), AllocError>
    ensures { OnOk result (Adds text.old.items text.new.items
        (clause_text (map (literal_in_model c.now) clause.now) ∷ [])) }
{
    let literals = literals_in_model(alloc, c, clause.as_slice())?;
    push_clause(text, literals.as_slice())?;
    text.push(b'\n')?;
    Ok(())
}

/// Adds the clauses of an entry over latch numbers, each literal as the model numbers it.
pub fn add_clauses(
    alloc: Global,
    text: &mut Vec<u8>,
    c: &Circuit,
    clauses: &[Clause],
) -> Result<(), AllocError>
    ensures { OnOk result (Adds text.old.items text.new.items
        (map clause_text (map (map (literal_in_model c.now)) clauses.now))) }
{
    for clause in clauses {
        add_clause(alloc, text, c, clause)?;
    }
    Ok(())
}

/// Adds the lines of a proof, as they are.
pub fn add_lines(text: &mut Vec<u8>, lines: &[ProofLine]) -> Result<(), AllocError>
    ensures { OnOk result (Adds text.old.items text.new.items lines.now) }
{
    for line in lines {
        text.extend_from_slice(line.as_slice())?;
        text.push(b'\n')?;
    }
    Ok(())
}

fn add_proof(text: &mut Vec<u8>, proof: &Proof) -> Result<(), AllocError>
    ensures { OnOk result (Adds text.old.items text.new.items (proof_lines proof.now)) }
{
    add_word_line(text, WordLine::Proof(proof.len() as u64))?;
    add_lines(text, proof.as_slice())
}

/// Adds the proofs of an entry, each behind the line with its number of lines.
pub fn add_proofs(text: &mut Vec<u8>, proofs: &[Proof]) -> Result<(), AllocError>
    ensures { OnOk result (Adds text.old.items text.new.items (flat_map proof_lines proofs.now)) }
{
    for proof in proofs {
        add_proof(text, proof)?;
    }
    Ok(())
}

/// Adds the refutation and the line `end`.
pub fn add_last(text: &mut Vec<u8>, uses: &[Use], proof: &[ProofLine]) -> Result<(), AllocError>
    ensures { OnOk result (Adds text.old.items text.new.items (last_lines uses.now proof.now)) }
{
    let line = certificate_lines::Refutation {
        uses: uses.len() as u64,
        proof_lines: proof.len() as u64,
    };
    add_word_line(text, WordLine::Refutation(line))?;
    add_uses(text, uses)?;
    add_lines(text, proof)?;
    add_word_line(text, WordLine::End)
}
