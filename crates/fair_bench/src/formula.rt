//! Clauses in DIMACS form: lines of comments, `p cnf VARIABLES CLAUSES`, then a clause a line, its literals as signed
//! numbers ended by 0. The main call is `read_formula`.
ghost use Rattle.std.specs.Prelude.{◌≡◌};
ghost use Rattle.proof_semantics.specs.Lines.{size_in, signed_in};

use crate::failure::Failure;
use crate::lines::Lines;
use cnf::{Clause, Db, Lit};
use std::alloc::Global;
use text_grammar::{next_field, read_number};

// The greatest number of a variable.
const GREATEST: u64 = 9_223_372_036_854_775_807;

/// The clauses of a text, in their order. The text is refused where a line is in none of the forms, or where there are
/// not as many clauses as its heading says.
pub(crate) fn read_formula(alloc: Global, text: &[u8]) -> Result<Db, Failure> {
    let mut clauses = Db::new(alloc);
    let said = take_lines(alloc, text, &mut clauses)?;
    if said != Some(clauses.len() as u64) {
        return Err(Failure::BadInput);
    }
    Ok(clauses)
}

// Takes each line, and answers how many clauses the heading says, if there is one.
fn take_lines(alloc: Global, text: &[u8], clauses: &mut Db) -> Result<Option<u64>, Failure> {
    let mut heading: Option<u64> = None;
    for line in Lines(text) {
        take_line(alloc, line, &mut heading, clauses)?;
    }
    Ok(heading)
}

// The first line that is no comment is the heading, and each later one a clause.
fn take_line(
    alloc: Global,
    line: &[u8],
    heading: &mut Option<u64>,
    clauses: &mut Db,
) -> Result<(), Failure> {
    if is_comment(line) {
        return Ok(());
    }
    if heading.is_none() {
        *heading = Some(clauses_said(line).ok_or(Failure::BadInput)?);
        return Ok(());
    }
    clauses.push(read_clause(alloc, line)?)?;
    Ok(())
}

fn is_comment(line: &[u8]) -> bool {
    line == b"c".as_slice() || line.starts_with(b"c ")
}

// How many clauses the heading `p cnf VARIABLES CLAUSES` says.
fn clauses_said(line: &[u8]) -> Option<u64> {
    let numbers = line.strip_prefix(b"p cnf ")?;
    let (variables, rest) = next_field(numbers);
    whole_number(variables)?;
    whole_number(rest?)
}

// The clause of a line: literals, 0, and no more.
fn read_clause(alloc: Global, line: &[u8]) -> Result<Clause, Failure> {
    let mut clause = Clause::new(alloc);
    take_fields(line, &mut clause)?;
    Ok(clause)
}

fn take_fields(line: &[u8], clause: &mut Clause) -> Result<(), Failure> {
    let mut is_ended = false;
    for field in line.split(|byte| *byte == b' ') {
        if is_ended {
            return Err(Failure::BadInput);
        }
        is_ended = take_field(field, clause)?;
    }
    if is_ended {
        Ok(())
    } else {
        Err(Failure::BadInput)
    }
}

// Whether the field is the 0 that ends a clause. Any other is a literal.
fn take_field(field: &[u8], clause: &mut Clause) -> Result<bool, Failure> {
    if field == b"0".as_slice() {
        return Ok(true);
    }
    clause.push(signed(field).ok_or(Failure::BadInput)?)?;
    Ok(false)
}

// The literal that is the whole field.
fn signed(field: &[u8]) -> Option<Lit>
    ensures { result ≡ signed_in field.now }
{
    let (first, rest) = field.split_first()?;
    if *first == b'-' {
        let var = size(rest)?;
        return Some(Lit {
            var,
            positive: false,
        });
    }
    let var = size(field)?;
    Some(Lit {
        var,
        positive: true,
    })
}

// The number above 0 that is the whole field.
fn size(field: &[u8]) -> Option<u64>
    ensures { result ≡ size_in field.now }
{
    let (number, rest) = read_number(field, GREATEST)?;
    if !rest.is_empty() || number == 0 {
        return None;
    }
    Some(number)
}

// The number that is the whole field.
fn whole_number(field: &[u8]) -> Option<u64> {
    let (number, rest) = read_number(field, GREATEST)?;
    if !rest.is_empty() {
        return None;
    }
    Some(number)
}
