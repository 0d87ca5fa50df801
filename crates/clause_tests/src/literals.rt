//! Clauses by the numbers of DIMACS: variable 7 is 7, and its negation -7.

use cnf::{Clause, Db, Lit};
use std::alloc::{AllocError, Global};

pub(crate) fn literal(number: i64) -> Lit {
    Lit {
        var: number.unsigned_abs(),
        positive: number > 0,
    }
}

fn push_literals(numbers: &[i64], made: &mut Clause) -> Result<(), AllocError> {
    for number in numbers {
        made.push(literal(*number))?;
    }
    Ok(())
}

pub(crate) fn clause(alloc: Global, numbers: &[i64]) -> Result<Clause, AllocError> {
    let mut made = Clause::new(alloc);
    push_literals(numbers, &mut made)?;
    Ok(made)
}

fn push_clauses(alloc: Global, lists: &[&[i64]], made: &mut Db) -> Result<(), AllocError> {
    for numbers in lists {
        made.push(clause(alloc, numbers)?)?;
    }
    Ok(())
}

pub(crate) fn clauses(alloc: Global, lists: &[&[i64]]) -> Result<Db, AllocError> {
    let mut made = Db::new(alloc);
    push_clauses(alloc, lists, &mut made)?;
    Ok(made)
}
