//! Two watched literals of a clause. The main type is `Pair`.
ghost use Rattle.cdcl_trail.specs.Looking.{StandsBeside};

use packed_literals::Packed;

/// The two watched literals of a clause.
#[derive(Clone, Copy)]
pub struct Pair {
    pub first: Packed,
    pub second: Packed,
}

/// The literal that stands beside the given one. `None` where the given one is neither.
pub(crate) fn beside(pair: Pair, literal: Packed) -> Option<Packed>
    ensures { StandsBeside pair literal result }
{
    if pair.first.is(literal) {
        return Some(pair.second);
    }
    if pair.second.is(literal) {
        return Some(pair.first);
    }
    None
}
