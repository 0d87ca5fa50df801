//! What is held of an answer that was read and accepted. The main type is `Loaded`.

use aig_semantics::{Lasso, Stimulus};
use certificate_texts::Certificate;

/// An accepted answer for a property, counted from 0.
#[derive(Drop)]
pub enum Loaded {
    /// Its stimulus, with all of its positions, and the lasso that it stands for.
    Lasso {
        property: u32,
        stimulus: Stimulus,
        lasso: Lasso,
    },
    /// Its certificate that there is none.
    Holds {
        property: u32,
        certificate: Certificate,
    },
}
