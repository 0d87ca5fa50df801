//! What workers may spend, and what they leave.

use edge::Spending;
use items::Items;
use std::alloc::AllocError;
use wall_store::Board;

/// How many workers there are, 1 to 64; how many conflicts and steps each of them may count, where 4,294,967,295 or
/// more is no limit; by how many entries the list may grow, 65,536 at most; how many of the workers are lasso workers, the
/// last ones, never all; and how many positions the lassos have at most that these ask for, 65,536 at most. Where there are
/// to be lasso workers, one property is served.
#[derive(Clone, Copy)]
pub struct Limits {
    pub workers: u32,
    pub conflicts: u64,
    pub steps: u64,
    pub skeletons: u32,
    pub lassos: u32,
    pub depth: u32,
}

/// The board that workers leave; what each of them has spent, from worker 0 on; of each lasso worker, in the same order, how
/// many positions it has done: no fair lasso has at most so many; and for how many it was to ask.
#[derive(Drop)]
pub struct Report {
    pub board: Board,
    pub workers: Items<Spending>,
    pub depths: Items<u32>,
    pub depth: u32,
}

/// Why workers ended without an answer.
#[derive(Drop)]
pub enum Ended {
    /// A property is open, and the list is full and leaves a skeleton, or what each worker may spend is spent: its conflicts or
    /// its steps, of a lasso worker its conflicts or its depth.
    Spent(Report),
    /// Memory ran out.
    Memory,
}

impl From<AllocError> for Ended {
    ghost use Rattle.std.specs.Prelude.{◌≡◌};
    ghost use Rattle.search_reports.specs.declared.limits.Ended.TheVariants.{Memory};

    ghost from_gives = { λ _ end. end ≡ Memory };

    fn from(_refused: AllocError) -> Ended {
        Ended::Memory
    }
}
