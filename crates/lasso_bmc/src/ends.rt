//! What a search answers, and why it answers nothing. The main types are `Searched` and `SearchEnd`.

use circuit::Lasso;
use edge::Spent;

/// What a search answers.
#[derive(Drop)]
pub enum Searched {
    /// A fair lasso; none has fewer positions.
    Found(Lasso),
    /// No fair lasso has at most as many positions as were asked for.
    NoneWithin,
}

/// Why a search answers nothing.
#[derive(Drop)]
pub enum SearchEnd {
    /// The count of conflicts is at its limit, and no fair lasso has at most so many positions.
    Spent(Spent, u32),
    /// Want of memory.
    Memory,
}

impl From<std::alloc::AllocError> for SearchEnd {
    ghost use Rattle.std.specs.Prelude.{◌≡◌};
    ghost use Rattle.lasso_bmc.specs.declared.ends.SearchEnd.TheVariants.{Memory};

    ghost from_gives = { λ _ end. end ≡ Memory };

    fn from(_refused: std::alloc::AllocError) -> SearchEnd {
        SearchEnd::Memory
    }
}
