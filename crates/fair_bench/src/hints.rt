//! How many hints a proof gives. The main call is `count_hints`.

use crate::lines::Lines;

/// How many hints stand in the lines of a proof.
pub(crate) fn count_hints(proof: &[u8]) -> u64 {
    let mut count: u64 = 0;
    for line in Lines(proof) {
        count = count.saturating_add(hints_in(line));
    }
    count
}

// How many fields stand between the first field 0 of an addition and the second one.
fn hints_in(line: &[u8]) -> u64 {
    let mut zeros: u64 = 0;
    let mut count: u64 = 0;
    for field in line.split(|byte| *byte == b' ') {
        if field == b"d".as_slice() {
            return 0;
        }
        if field == b"0".as_slice() {
            zeros = zeros.saturating_add(1);
        } else if zeros == 1 {
            count = count.saturating_add(1);
        }
    }
    count
}
