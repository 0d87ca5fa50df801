//! What a sheet says of a property. The main type is `Block`.

use aig_semantics::Stimulus;
use entry::Refutation;

/// What is known of a property.
#[derive(Drop)]
pub enum Block {
    /// A stimulus that stands for a fair lasso.
    Lasso(Stimulus),
    /// A refutation over the entries of the sheet: there is none.
    Holds(Refutation),
    /// Nothing.
    Open,
}
