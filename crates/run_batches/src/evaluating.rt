//! Evaluation of 64 runs at once, with a word for each variable. The main calls are `eval_words` and `next_words`.

use crate::parts::Part;
use crate::words::{put_word, word_at};

/// The word of a literal, where `values` has the word of variable `v` at place `v`.
pub(crate) fn literal_word(values: &[u64], literal: u64) -> u64 {
    word_at(values, (literal / 2) as usize) ^ 0_u64.wrapping_sub(literal % 2)
}

/// Writes the words of the inputs of a part.
pub(crate) fn put_inputs(part: &Part, inputs: &[u64], values: &mut [u64]) {
    for (input, word) in part.inputs.iter().zip(inputs.iter()) {
        put_word(values, input.var as usize, *word);
    }
}

/// Writes the words of the latches of a part.
pub(crate) fn put_latches(part: &Part, state: &[u64], values: &mut [u64]) {
    for (placed, word) in part.latches.iter().zip(state.iter()) {
        put_word(values, placed.latch.var as usize, *word);
    }
}

/// Evaluates the gates of a part. Other variables keep their words.
pub(crate) fn eval_words(part: &Part, values: &mut [u64]) {
    for gate in part.gates.iter() {
        let word = literal_word(values, gate.rhs0) & literal_word(values, gate.rhs1);
        put_word(values, gate.var as usize, word);
    }
}

/// Writes the next words of the latches of a part.
pub(crate) fn next_words(part: &Part, values: &[u64], state: &mut [u64]) {
    for (word, placed) in state.iter_mut().zip(part.latches.iter()) {
        *word = literal_word(values, placed.latch.next);
    }
}

/// The runs in which all of these literals are true.
pub(crate) fn all_true(values: &[u64], literals: &[u64]) -> u64 {
    let mut runs = u64::MAX;
    for literal in literals {
        runs &= literal_word(values, *literal);
    }
    runs
}
