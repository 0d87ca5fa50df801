//! States that the runs of a batch have had. The main type is `StateTable`.

use crate::draws::mixed;
use crate::words::{put_word, word_at};
use std::alloc::{AllocError, Global};

/// Keys of states, each with the position at which it came first: a hash table with open addressing and linear probing. A
/// word is 0 or has one more than a position in its last 16 bits, and in the others those of the key. A key that finds no
/// place is not kept, and two keys with the same 48 upper bits are taken for one.
#[derive(Drop)]
pub(crate) struct StateTable {
    words: Vec<u64>,
    mask: u64,
}

// How many places are looked at for a key.
const MOST_PLACES: u64 = 16;

// The bits of a position.
const POSITION: u64 = 0xffff;

impl StateTable {
    /// A table without keys, of twice as many places as this, and of 2^30 at most.
    pub(crate) fn new(alloc: Global, keys: usize) -> Result<StateTable, AllocError> {
        let mut size: usize = 64;
        for _doubling in 0..24 {
            if size < keys.saturating_mul(2) {
                size = size.saturating_mul(2);
            }
        }
        Ok(StateTable {
            words: vec![in alloc; 0; size]?,
            mask: (size as u64).saturating_sub(1),
        })
    }

    /// The position, counted from 0 and below 65,535, at which a key came first; none where it has not come before or was
    /// not kept: then it has come first at this one.
    pub(crate) fn visit(&mut self, key: u64, position: u64) -> Option<u64> {
        for shift in 0..MOST_PLACES {
            let place = ((key >> 16).wrapping_add(shift) & self.mask) as usize;
            let word = word_at(&self.words, place);
            if word == 0 {
                let number = position.saturating_add(1) & POSITION;
                put_word(&mut self.words, place, (key & !POSITION) | number);
                return None;
            }
            if (word ^ key) & !POSITION == 0 {
                return Some((word & POSITION).saturating_sub(1));
            }
        }
        None
    }
}

// Exchanges bit `k + shift` of a word with bit `k` of the word that is `shift` places further, for the bits of the mask.
fn exchange(words: &mut [u64], shift: u32, mask: u64) {
    let width = shift as usize;
    for k in 0..64 {
        if k & width == 0 {
            let low = word_at(words, k);
            let high = word_at(words, k | width);
            let both = (low.wrapping_shr(shift) ^ high) & mask;
            put_word(words, k, low ^ both.wrapping_shl(shift));
            put_word(words, k | width, high ^ both);
        }
    }
}

// Transposes 64 words, so that bit `k` of word `i` becomes bit `i` of word `k` (Warren, Hacker's Delight, 2002).
fn transpose(words: &mut [u64]) {
    exchange(words, 32, 0x0000_0000_ffff_ffff);
    exchange(words, 16, 0x0000_ffff_0000_ffff);
    exchange(words, 8, 0x00ff_00ff_00ff_00ff);
    exchange(words, 4, 0x0f0f_0f0f_0f0f_0f0f);
    exchange(words, 2, 0x3333_3333_3333_3333);
    exchange(words, 1, 0x5555_5555_5555_5555);
}

/// Writes for each of 64 runs a key of its number and its state, where `state` has a word for each latch. `transposed` has
/// 64 words, which are overwritten.
pub(crate) fn keys_of(state: &[u64], transposed: &mut [u64], keys: &mut [u64]) {
    for (run, key) in keys.iter_mut().enumerate() {
        *key = mixed(run as u64);
    }
    for part in state.chunks(64) {
        transposed.fill(0);
        for (word, latch) in transposed.iter_mut().zip(part.iter()) {
            *word = *latch;
        }
        transpose(transposed);
        for (key, word) in keys.iter_mut().zip(transposed.iter()) {
            *key = mixed(*key ^ *word);
        }
    }
}
