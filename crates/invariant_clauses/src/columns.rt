//! States of drawn runs, latch by latch. The main type is `Columns`.

use std::alloc::{AllocError, Global};

/// The words of each latch, one for each position, and of the runs that have a state there.
#[derive(Drop)]
pub(crate) struct Columns {
    runs: Vec<u64>,
    words: Vec<u64>,
}

// Which values a latch has had.
#[derive(Clone, Copy)]
pub(crate) struct Values {
    pub(crate) zero: bool,
    pub(crate) one: bool,
}

/// Which pairs of values two latches have had, with the first one's value first.
#[derive(Clone, Copy)]
pub(crate) struct Pairs {
    pub(crate) zero_zero: bool,
    pub(crate) zero_one: bool,
    pub(crate) one_zero: bool,
    pub(crate) one_one: bool,
}

// Appends the words that stand at this place behind each multiple of a width.
fn append_column(
    words: &[u64],
    width: usize,
    place: usize,
    column: &mut Vec<u64>,
) -> Result<(), AllocError> {
    for row in words.chunks(width.max(1)) {
        column.push(row.get(place).copied().unwrap_or(0))?;
    }
    Ok(())
}

impl Columns {
    /// The columns of rows, each of a word of runs and of a word for each of so many latches.
    pub(crate) fn new(alloc: Global, rows: &[u64], latches: usize) -> Result<Columns, AllocError> {
        let width = latches.saturating_add(1);
        let mut runs = Vec::new(alloc);
        append_column(rows, width, 0, &mut runs)?;
        let mut words = Vec::new(alloc);
        for latch in 0..latches {
            append_column(rows, width, latch.saturating_add(1), &mut words)?;
        }
        Ok(Columns { runs, words })
    }

    /// How many positions there are.
    pub(crate) fn positions(&self) -> usize {
        self.runs.len()
    }

    // The words of a latch.
    fn column(&self, latch: usize) -> &[u64] {
        let from = latch.saturating_mul(self.runs.len());
        let to = from.saturating_add(self.runs.len());
        self.words.get(from..to).unwrap_or(&[])
    }

    /// The values that a latch has had.
    pub(crate) fn values_of(&self, latch: usize) -> Values {
        let mut zeros = 0;
        let mut ones = 0;
        for (runs, word) in self.runs.iter().zip(self.column(latch).iter()) {
            zeros |= *runs & !*word;
            ones |= *runs & *word;
        }
        Values {
            zero: zeros != 0,
            one: ones != 0,
        }
    }

    /// The pairs of values that two latches have had; where all four came, it looks no further.
    pub(crate) fn pairs_of(&self, first: usize, second: usize) -> Pairs {
        let mut zero_zero = 0;
        let mut zero_one = 0;
        let mut one_zero = 0;
        let mut one_one = 0;
        let both = self.column(first).iter().zip(self.column(second).iter());
        for (runs, (a, b)) in self.runs.iter().zip(both) {
            zero_zero |= *runs & !*a & !*b;
            zero_one |= *runs & !*a & *b;
            one_zero |= *runs & *a & !*b;
            one_one |= *runs & *a & *b;
            if zero_zero != 0 && zero_one != 0 && one_zero != 0 && one_one != 0 {
                break;
            }
        }
        Pairs {
            zero_zero: zero_zero != 0,
            zero_one: zero_one != 0,
            one_zero: one_zero != 0,
            one_one: one_one != 0,
        }
    }
}
