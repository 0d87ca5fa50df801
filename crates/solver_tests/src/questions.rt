//! Questions in the numbers of DIMACS, and their answers by a search through all values. The main call is `has_model`.

use cnf::{Clause, Lit};
use std::alloc::{AllocError, Global};

/// The literal of a number: variable 7 is 7, and its negation -7.
pub(crate) fn literal(number: i64) -> Lit {
    Lit {
        var: number.unsigned_abs(),
        positive: number > 0,
    }
}

/// The value at a place; false past the end.
pub(crate) fn is_at(values: &[bool], place: usize) -> bool {
    place < values.len() && values[place]
}

/// The literals of numbers.
pub(crate) fn literals(alloc: Global, numbers: &[i64]) -> Result<Vec<Lit>, AllocError> {
    let mut made = Vec::new(alloc);
    for number in numbers {
        made.push(literal(*number))?;
    }
    Ok(made)
}

/// Puts the numbers of literals behind those that are there; 0 for a literal that has none.
pub(crate) fn note_numbers(literals: &[Lit], noted: &mut Vec<i64>) -> Result<(), AllocError> {
    for one in literals {
        noted.push(number_of(*one))?;
    }
    Ok(())
}

fn number_of(literal: Lit) -> i64 {
    let number = i64::try_from(literal.var).unwrap_or(0);
    if literal.positive {
        number
    } else {
        0i64.saturating_sub(number)
    }
}

/// The clauses of numbers, with a 0 behind each clause.
pub(crate) fn clauses(alloc: Global, numbers: &[i64]) -> Result<Vec<Clause>, AllocError> {
    let mut made = Vec::new(alloc);
    let mut begin = 0;
    for place in 0..numbers.len() {
        if numbers[place] == 0 {
            made.push(clause(alloc, numbers, begin, place)?)?;
            begin = place + 1;
        }
    }
    Ok(made)
}

// The clause of the numbers from a place to another.
fn clause(alloc: Global, numbers: &[i64], begin: usize, end: usize) -> Result<Clause, AllocError> {
    let mut made = Clause::new(alloc);
    for place in begin..end {
        if place < numbers.len() {
            made.push(literal(numbers[place]))?;
        }
    }
    Ok(made)
}

/// Whether some values make each clause and each assumption true. Tries all of them, so the variables must be few.
pub(crate) fn has_model(
    alloc: Global,
    clauses: &[i64],
    assumed: &[i64],
) -> Result<bool, AllocError> {
    let mut variables = Vec::new(alloc);
    note_variables(clauses, &mut variables)?;
    note_variables(assumed, &mut variables)?;
    Ok(has_model_over(variables.as_slice(), clauses, assumed))
}

fn has_model_over(variables: &[u64], clauses: &[i64], assumed: &[i64]) -> bool {
    let choices = 1u64 << (variables.len() % 64);
    for choice in 0..choices {
        if is_model(variables, choice, clauses) && all_hold(variables, choice, assumed) {
            return true;
        }
    }
    false
}

// Puts the variables of the numbers behind those that are there, none twice.
fn note_variables(numbers: &[i64], variables: &mut Vec<u64>) -> Result<(), AllocError> {
    for number in numbers {
        let variable = number.unsigned_abs();
        if variable != 0 && !variables.contains(&variable) {
            variables.push(variable)?;
        }
    }
    Ok(())
}

// Whether the values of a choice, whose bit at a place is the value of the variable there, make all clauses true.
fn is_model(variables: &[u64], choice: u64, clauses: &[i64]) -> bool {
    let mut is_true = false;
    for number in clauses {
        if *number != 0 {
            is_true = is_true || holds(variables, choice, *number);
            continue;
        }
        if !is_true {
            return false;
        }
        is_true = false;
    }
    true
}

fn all_hold(variables: &[u64], choice: u64, assumed: &[i64]) -> bool {
    for number in assumed {
        if !holds(variables, choice, *number) {
            return false;
        }
    }
    true
}

// Whether a literal is true under a choice.
fn holds(variables: &[u64], choice: u64, number: i64) -> bool {
    let mut mask: u64 = 1;
    for variable in variables {
        if *variable == number.unsigned_abs() {
            return (choice & mask != 0) == (number > 0);
        }
        mask = mask.wrapping_mul(2);
    }
    false
}
