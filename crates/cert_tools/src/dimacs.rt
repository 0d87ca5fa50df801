//! Clauses as a text in the DIMACS format. The main call is `dimacs_text`.

ghost use Rattle.std.specs.Prelude.{◌≡◌, ◌++◌, flat_map, IfOk, OnOk};
ghost use Rattle.proof_semantics.specs.Lines.{signed_text};
ghost use Rattle.cert_tools.specs.Dimacs.{problem_line, literal_field, clause_line, dimacs_text};

use cnf::Clause;
use proof_semantics::Lit;
use std::alloc::{AllocError, Global};
use text_grammar::push_number;

/// The text of the clauses, whose variables are numbers up to the greatest.
pub(crate) fn dimacs_text(
    alloc: Global,
    greatest: u64,
    clauses: &[Clause],
) -> Result<Vec<u8>, AllocError>
    ensures { IfOk result (λ text. text.items ≡ dimacs_text greatest clauses.now) }
{
    let mut text = Vec::new(alloc);
    push_problem(&mut text, greatest, clauses.len() as u64)?;
    push_clauses(&mut text, clauses)?;
    Ok(text)
}

fn push_problem(text: &mut Vec<u8>, greatest: u64, clauses: u64) -> Result<(), AllocError>
    ensures { OnOk result (text.new.items ≡ text.old.items ++ problem_line greatest clauses) }
{
    text.extend_from_slice(b"p cnf ")?;
    push_number(text, greatest)?;
    text.extend_from_slice(b" ")?;
    push_number(text, clauses)?;
    text.extend_from_slice(b"\n")?;
    Ok(())
}

fn push_clauses(text: &mut Vec<u8>, clauses: &[Clause]) -> Result<(), AllocError>
    ensures { OnOk result (text.new.items ≡ text.old.items ++ flat_map clause_line clauses.now) }
{
    for clause in clauses {
        push_clause(text, clause.as_slice())?;
    }
    Ok(())
}

fn push_clause(text: &mut Vec<u8>, clause: &[Lit]) -> Result<(), AllocError>
    ensures { OnOk result (text.new.items ≡ text.old.items ++ clause_line clause.now) }
{
    push_literals(text, clause)?;
    text.extend_from_slice(b"0\n")?;
    Ok(())
}

fn push_literals(text: &mut Vec<u8>, clause: &[Lit]) -> Result<(), AllocError>
    ensures { OnOk result (text.new.items ≡ text.old.items ++ flat_map literal_field clause.now) }
{
    for literal in clause {
        push_literal(text, *literal)?;
    }
    Ok(())
}

fn push_literal(text: &mut Vec<u8>, literal: Lit) -> Result<(), AllocError>
    ensures { OnOk result (text.new.items ≡ text.old.items ++ literal_field literal) }
{
    push_signed(text, literal)?;
    text.extend_from_slice(b" ")?;
    Ok(())
}

fn push_signed(text: &mut Vec<u8>, literal: Lit) -> Result<(), AllocError>
    ensures { OnOk result (text.new.items ≡ text.old.items ++ signed_text literal) }
{
    if !literal.positive {
        text.push(b'-')?;
    }
    push_number(text, literal.var)?;
    Ok(())
}
