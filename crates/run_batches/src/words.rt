//! Lists of words with a bit for each of 64 runs. A place past the end of a list reads as 0, and is not written.

/// How many runs a word has.
pub const RUNS: u32 = 64;

/// The word at a place, 0 past the end.
pub fn word_at(words: &[u64], place: usize) -> u64 {
    words.get(place).copied().unwrap_or(0)
}

/// Writes the word at a place, if there is that place.
pub(crate) fn put_word(words: &mut [u64], place: usize, word: u64) {
    if let Some(kept) = words.get_mut(place) {
        *kept = word;
    }
}

/// The bit of a run, whose number is counted from 0.
pub fn bit_of(word: u64, run: u32) -> bool {
    word.wrapping_shr(run) & 1 == 1
}
