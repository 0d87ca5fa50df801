//! Inputs of several densities: how often an input is 1. The main call is `drawn_input`.

use crate::draws::Draws;

// The runs of each of five kinds: every fifth bit of a word.
const EVEN: u64 = 0x1084_2108_4210_8421;

const OWN: u64 = EVEN << 1;

const RARE: u64 = EVEN << 2;

const OFTEN: u64 = EVEN << 3;

const STEADY: u64 = EVEN << 4;

// Bits of which each is 1 in one to seven eighths of the draws, by the level, of three that are 1 in half of them.
fn by_level(level: u64, a: u64, b: u64, c: u64) -> u64 {
    match level % 7 {
        0 => a & b & c,
        1 => a & b,
        2 => a & (b | c),
        3 => a,
        4 => a | (b & c),
        5 => a | b,
        _ => a | b | c,
    }
}

/// The values of an input at a position, in the bit of each run. By the number of the run modulo five an input is 1 in
/// half of the positions; in one to seven eighths of them, by the input's own level; in one eighth; in seven eighths; or it
/// has the value of the position before, `before`, but in one of 32 positions.
pub(crate) fn drawn_input(draws: &mut Draws, level: u64, before: u64) -> u64 {
    let a = draws.next();
    let b = draws.next();
    let c = draws.next();
    let rare = a & b & c;
    let changed = rare & draws.next() & draws.next();
    (a & EVEN)
        | (by_level(level, a, b, c) & OWN)
        | (rare & RARE)
        | ((a | b | c) & OFTEN)
        | ((before ^ changed) & STEADY)
}
