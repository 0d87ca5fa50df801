//! What the reading of a text as a sheet finds. The main type is `Found`.

use crate::counts::Counts;

/// A good sheet has so many blocks of each kind, and so many entries.
#[derive(Clone, Copy)]
pub(crate) struct Accepted {
    pub(crate) counts: Counts,
    pub(crate) entries: u32,
}

/// The text is a good sheet; or it is no sheet.
#[derive(Clone, Copy)]
pub(crate) enum Found {
    Sheet(Accepted),
    Other,
}
