//! What is known of the rounds of a property. The main type is `KnownRounds`.

use aig_semantics::Position;
use entry::{Entry, Refutation};
use items::Items;

/// What is known of a property and so many rounds.
#[derive(Drop)]
pub enum KnownRounds {
    /// No initial run has them: reach entries of the property's monitor, each with its proofs, and over them a refutation of
    /// the states in which its last latch is true.
    Fewer {
        entries: Items<Entry>,
        refutation: Refutation,
    },
    /// This initial run has them.
    Reached {
        run: Items<Position>,
    },
}
