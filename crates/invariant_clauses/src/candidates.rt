//! Clauses of one latch and of two that no state of drawn runs breaks. The main call is `candidates`.

use crate::columns::{Columns, Pairs, Values};
use circuit::Circuit;
use cnf::{Clause, Lit};
use entry::holds_initial;
use items::Items;
use std::alloc::{AllocError, Global};

/// More clauses than these are not worth their questions.
pub(crate) const MOST_CLAUSES: usize = 1_000;

/// How many words are looked at for pairs of latches, about.
const MOST_WORDS: u64 = 50_000_000;

// A literal of a latch by its place.
fn literal(latch: usize, positive: bool) -> Lit {
    Lit {
        var: latch as u64,
        positive,
    }
}

// Appends a clause where a literal of it is true in each initial state, up to one more than there may be.
fn put(
    alloc: Global,
    c: &Circuit,
    literals: &[Lit],
    clauses: &mut Items<Clause>,
) -> Result<(), AllocError> {
    let clause = Clause::from_slice(alloc, literals)?;
    if clauses.len() <= MOST_CLAUSES && holds_initial(c, &clause) {
        clauses.push(clause)?;
    }
    Ok(())
}

// Appends the clause of a latch that has had one value alone.
fn put_constant(
    alloc: Global,
    c: &Circuit,
    latch: usize,
    values: Values,
    clauses: &mut Items<Clause>,
) -> Result<(), AllocError> {
    if values.zero != values.one {
        put(alloc, c, &[literal(latch, values.one)], clauses)?;
    }
    Ok(())
}

// Appends the clauses of two latches that have not had all pairs of values.
fn put_pairs(
    alloc: Global,
    c: &Circuit,
    first: usize,
    second: usize,
    pairs: Pairs,
    clauses: &mut Items<Clause>,
) -> Result<(), AllocError> {
    if !pairs.zero_zero {
        put(
            alloc,
            c,
            &[literal(first, true), literal(second, true)],
            clauses,
        )?;
    }
    if !pairs.zero_one {
        put(
            alloc,
            c,
            &[literal(first, true), literal(second, false)],
            clauses,
        )?;
    }
    if !pairs.one_zero {
        put(
            alloc,
            c,
            &[literal(first, false), literal(second, true)],
            clauses,
        )?;
    }
    if !pairs.one_one {
        put(
            alloc,
            c,
            &[literal(first, false), literal(second, false)],
            clauses,
        )?;
    }
    Ok(())
}

// Appends the clauses of single latches, and answers the numbers of the others among them.
fn put_constants(
    alloc: Global,
    c: &Circuit,
    latches: &[usize],
    columns: &Columns,
    clauses: &mut Items<Clause>,
) -> Result<Vec<usize>, AllocError> {
    let mut others = Vec::new(alloc);
    for (number, latch) in latches.iter().enumerate() {
        let values = columns.values_of(number);
        put_constant(alloc, c, *latch, values, clauses)?;
        if values.zero && values.one {
            others.push(number)?;
        }
    }
    Ok(others)
}

// Appends the clauses of pairs of these latches.
fn put_all_pairs(
    alloc: Global,
    c: &Circuit,
    latches: &[usize],
    columns: &Columns,
    others: &[usize],
    clauses: &mut Items<Clause>,
) -> Result<(), AllocError> {
    let mut words_left = MOST_WORDS;
    for (k, first) in others.iter().enumerate() {
        for second in others.iter().skip(k.saturating_add(1)) {
            if clauses.len() > MOST_CLAUSES || words_left == 0 {
                return Ok(());
            }
            let pairs = columns.pairs_of(*first, *second);
            words_left = words_left.saturating_sub(columns.positions() as u64);
            let a = latches.get(*first).copied().unwrap_or(usize::MAX);
            let b = latches.get(*second).copied().unwrap_or(usize::MAX);
            put_pairs(alloc, c, a, b, pairs, clauses)?;
        }
    }
    Ok(())
}

/// The clauses of one latch, and then of two others, that no state breaks, with a literal each that is true in each initial
/// state: over the places of the latches, whose words stand in the rows. Of too many one more comes than there may be.
pub(crate) fn candidates(
    alloc: Global,
    c: &Circuit,
    latches: &[usize],
    rows: &[u64],
) -> Result<Items<Clause>, AllocError> {
    let columns = Columns::new(alloc, rows, latches.len())?;
    let mut clauses = Items::new(alloc);
    if columns.positions() > 0 {
        let others = put_constants(alloc, c, latches, &columns, &mut clauses)?;
        put_all_pairs(alloc, c, latches, &columns, &others, &mut clauses)?;
    }
    Ok(clauses)
}
