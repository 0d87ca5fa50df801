//! Where the reading of a text about rounds stands. The main type is `State`.

use aiger_names::Model;
use certificate::State as Within;

/// So many rounds of a property.
#[derive(Clone, Copy)]
pub(crate) struct Asked {
    pub(crate) k: u32,
    pub(crate) property: u32,
}

/// What the next line of a text about rounds has to be. Behind the line of the property its monitor is kept.
#[derive(Drop)]
pub(crate) enum State {
    First,
    Named(u32),
    Chosen(Asked, Model),
    Running(Asked, Within),
    Listing(Asked, Model, Within),
}
