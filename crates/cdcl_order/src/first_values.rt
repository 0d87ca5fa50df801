//! Which value a variable is decided with where it had none yet. The main type is `FirstValues`. No
//! contract speaks of it.

use cnf::Var;

/// The values that a solver decides variables with before they had one.
#[derive(Clone, Copy)]
pub enum FirstValues {
    /// Each is false.
    AllFalse,
    /// Each is true.
    AllTrue,
    /// Each is a bit of a hash of this seed and the variable.
    Seeded(u64),
}

impl FirstValues {
    /// The value of a variable.
    pub(crate) fn of(self, var: Var) -> bool {
        match self {
            FirstValues::AllFalse => false,
            FirstValues::AllTrue => true,
            FirstValues::Seeded(seed) => mixed(seed.wrapping_add(mixed(var))) % 2 == 1,
        }
    }
}

// A hash of a number, after SplitMix64 (Steele, Lea, Flood, 2014).
fn mixed(number: u64) -> u64 {
    let mut bits = number.wrapping_add(0x9e37_79b9_7f4a_7c15);
    bits = (bits ^ (bits >> 30)).wrapping_mul(0xbf58_476d_1ce4_e5b9);
    bits = (bits ^ (bits >> 27)).wrapping_mul(0x94d0_49bb_1331_11eb);
    bits ^ (bits >> 31)
}
