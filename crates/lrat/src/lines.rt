//! The text of a proof line, read into its numbers. The main call is `read_line`.
ghost use Rattle.std.specs.Prelude.{◌≡◌, ℕ, [], ◌∷◌, ◌++◌, IfOk, option_map, map};
ghost use Rattle.std.specs.List.{list_all};
ghost use Rattle.text_grammar.specs.Pieces.{fields};
ghost use Rattle.proof_semantics.specs.Lines.{addition, deletion, line_of, is_byte, size_in, signed_in, signed_to_zero, addition_of, deletion_of};
ghost use Rattle.lrat.specs.Reading.{fields_behind, behind, front, found_behind, given_if, shape};

use proof_semantics::Lit;
use std::alloc::AllocError;
use text_grammar::{next_field, read_number};

// The greatest number in a line.
const GREATEST: u64 = 9_223_372_036_854_775_807;

/// What a line asks for: its literals and hints, or its ids, are kept beside.
#[derive(Clone, Copy)]
pub enum Kind {
    /// To add a clause under this id.
    Addition(u64),
    /// To delete clauses. The line has this id of its own.
    Deletion(u64),
}

/// What the line asks for, with the literals of an addition, or the ids of a deletion, in
/// `literals`, and the hints in `hints`. `None` where the line is in no form.
pub fn read_line(
    line: &[u8],
    literals: &mut Vec<Lit>,
    hints: &mut Vec<Lit>,
) -> Result<Option<Kind>, AllocError>
    ensures { IfOk result (λ kind. shape kind literals.new.items hints.new.items ≡ line_of line.now) }
{
    literals.clear();
    hints.clear();
    let (field, rest) = first_field(line);
    let Some(id) = size(field) else {
        return Ok(None);
    };
    let Some(behind_id) = rest else {
        return Ok(None);
    };
    let (word, behind_word) = first_field(behind_id);
    if is_one_byte(word, b'd') {
        if read_deletion(behind_word, literals)? {
            return Ok(Some(Kind::Deletion(id)));
        }
        return Ok(None);
    }
    if read_addition(behind_id, literals, hints)? {
        return Ok(Some(Kind::Addition(id)));
    }
    Ok(None)
}

// The first field of a line, and what follows the space behind it, if there is one.
fn first_field(line: &[u8]) -> (&[u8], Option<&[u8]>)
    ensures { fields line.now ≡ result.0.now ∷ fields_behind (behind result.1) }
{
    next_field(line)
}

// Reads what follows the id of an addition: literals, 0, hints, 0, and no more. Answers whether it
// is that.
#[tactic(auto, using(crate::proofs::ReadingLaws::at_end_fields))]
fn read_addition(
    line: &[u8],
    literals: &mut Vec<Lit>,
    hints: &mut Vec<Lit>,
) -> Result<bool, AllocError>
    requires literals { literals.old.items ≡ [] }
    requires hints { hints.old.items ≡ [] }
    ensures { IfOk result (λ is_whole. (id : ℕ) → addition_of id (fields line.now) ≡ given_if is_whole (addition id literals.new.items hints.new.items)) }
{
    let Some(behind_clause) = read_signed(Some(line), literals)? else {
        return Ok(false);
    };
    let Some(behind_hints) = read_signed(behind_clause, hints)? else {
        return Ok(false);
    };
    Ok(behind_hints.is_none())
}

// Reads what follows the word of a deletion: ids, 0, and no more. Answers whether it is that.
#[tactic(auto, using(crate::proofs::ReadingLaws::at_end_fields))]
fn read_deletion(rest: Option<&[u8]>, ids: &mut Vec<Lit>) -> Result<bool, AllocError>
    requires { ids.old.items ≡ [] }
    ensures { IfOk result (λ is_whole. (id : ℕ) → deletion_of id (fields_behind (behind rest.entry)) ≡ given_if is_whole (deletion id (map (λ a. a.var) ids.new.items))) }
{
    let Some(behind_ids) = read_signed(rest, ids)? else {
        return Ok(false);
    };
    Ok(behind_ids.is_none() && are_positive(ids))
}

// Reads signed numbers up to the first field 0 to the end of `numbers`, and gives what follows
// that field. `None` where a field is no signed number, or there is no field 0.
fn read_signed<'a>(
    mut rest: Option<&'a [u8]>,
    numbers: &mut Vec<Lit>,
) -> Result<Option<Option<&'a [u8]>>, AllocError>
    ensures { IfOk result (λ tail. found_behind numbers.new.items tail ≡ option_map (front numbers.old.items) (signed_to_zero (fields_behind (behind rest.entry)))) }
{
    while let Some(line) = rest {
        let (field, more) = first_field(line);
        rest = more;
        if is_one_byte(field, b'0') {
            return Ok(Some(rest));
        }
        let Some(number) = signed(field) else {
            return Ok(None);
        };
        numbers.push(number)?;
    }
    Ok(None)
}

// The signed number that is the whole field.
fn signed(field: &[u8]) -> Option<Lit>
    ensures { result ≡ signed_in field.now }
{
    let (first, rest) = field.split_first()?;
    if *first == b'-' {
        let var = size(rest)?;
        return Some(Lit {
            var,
            positive: false,
        });
    }
    let var = size(field)?;
    Some(Lit {
        var,
        positive: true,
    })
}

// The number above 0 that is the whole field.
fn size(field: &[u8]) -> Option<u64>
    ensures { result ≡ size_in field.now }
{
    let (number, rest) = read_number(field, GREATEST)?;
    if !rest.is_empty() || number == 0 {
        return None;
    }
    Some(number)
}

// Whether the field is this one byte.
fn is_one_byte(field: &[u8], byte: u8) -> bool
    ensures { result ≡ is_byte byte field.now }
{
    field.len() == 1 && field[0] == byte
}

// Whether no number is negative.
fn are_positive(numbers: &[Lit]) -> bool
    ensures { result ≡ list_all (λ a. a.positive) numbers.now }
{
    numbers.iter().all(|number| number.positive)
}
