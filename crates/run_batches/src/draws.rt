//! Numbers drawn from a seed. The main type is `Draws`.

/// A generator of 64 bits at a time, each 0 or 1 equally often (SplitMix64; Steele, Lea, Flood, Fast splittable
/// pseudorandom number generators, 2014).
#[derive(Drop)]
pub struct Draws {
    state: u64,
}

impl Draws {
    /// The generator of a seed.
    pub fn new(seed: u64) -> Draws {
        Draws { state: seed }
    }

    /// The next 64 bits.
    pub fn next(&mut self) -> u64 {
        self.state = self.state.wrapping_add(0x9e37_79b9_7f4a_7c15);
        mixed(self.state)
    }
}

/// The generator's mixing function, one to one: each bit of the answer depends on all bits of the number.
pub fn mixed(number: u64) -> u64 {
    let mut bits = number;
    bits = (bits ^ (bits >> 30)).wrapping_mul(0xbf58_476d_1ce4_e5b9);
    bits = (bits ^ (bits >> 27)).wrapping_mul(0x94d0_49bb_1331_11eb);
    bits ^ (bits >> 31)
}
