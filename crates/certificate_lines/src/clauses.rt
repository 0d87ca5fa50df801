//! Lines of clauses. The main calls are `clause_of` and `push_clause`.
ghost use Rattle.std.specs.Prelude.{◌≡◌, ◌++◌, option_map, IfOk, OnOk, IfSome, IfNone};
ghost use Rattle.text_grammar.specs.Pieces.{fields};
ghost use Rattle.certificate_lines.specs.Fields.{number_in, read_each};
ghost use Rattle.certificate_lines.specs.Clauses.{clause_text, IsClauseLine, SpellsNoClause, before_zero, clause_of};
ghost use Rattle.certificate_lines.specs.Reading.{fields_behind};

use crate::fields::{first_field, number_in};
use items::Items;
use std::alloc::{AllocError, Global};
use text_grammar::push_number;

/// The literals of the clause that a line spells, without the 0 that ends the line; the line `0` is the clause without
/// literals. A 0 before the last is a literal. `Ok(None)` where the line spells no clause. The error is want of memory.
pub fn clause_of(alloc: Global, line: &[u8]) -> Result<Option<Items<u64>>, AllocError>
    ensures value { IfOk result (λ literals. literals ≡ clause_of line.now) }
    ensures found { IfOk result (λ literals. IfSome literals (λ ls. IsClauseLine line.now ls)) }
    ensures none { IfOk result (λ literals. IfNone literals (SpellsNoClause line.now)) }
{
    read_clause(alloc, line)
}

// The same, without what follows of it.
fn read_clause(alloc: Global, line: &[u8]) -> Result<Option<Items<u64>>, AllocError>
    ensures { IfOk result (λ literals. literals ≡ clause_of line.now) }
{
    match numbers_of(alloc, line)? {
        Some(numbers) => Ok(before_zero(numbers)),
        None => Ok(None),
    }
}

// The number that each field of the line is.
fn numbers_of(alloc: Global, line: &[u8]) -> Result<Option<Vec<u64>>, AllocError>
    ensures { IfOk result (λ numbers. option_map (λ v. v.items) numbers ≡ read_each number_in (fields line.now)) }
{
    let mut numbers = Vec::new(alloc);
    let mut left = Some(line);
    while let Some(rest) = left {
        let (field, more) = first_field(rest);
        let Some(number) = number_in(field) else {
            return Ok(None);
        };
        numbers.push(number)?;
        left = more;
    }
    Ok(Some(numbers))
}

// The numbers in front of the last one, which is 0.
#[tactic(auto, using(crate::proofs::ClauseLaws::zero_last, crate::proofs::ClauseLaws::other_than_zero))]
fn before_zero(mut numbers: Vec<u64>) -> Option<Items<u64>>
    ensures { result ≡ before_zero numbers.items }
{
    let last = numbers.pop()?;
    if last != 0 {
        return None;
    }
    Some(Items::from_vec(numbers))
}

/// Writes the line of the clause of these literals at the end, without a line feed. The error is want of memory.
pub fn push_clause(out: &mut Vec<u8>, literals: &[u64]) -> Result<(), AllocError>
    ensures { OnOk result (out.new.items ≡ out.old.items ++ clause_text literals.now) }
{
    for literal in literals {
        push_number(out, *literal)?;
        out.push(b' ')?;
    }
    out.push(b'0')?;
    Ok(())
}
