//! What a search ends with. The main type is `Found`.

use cdcl_learn::Learned;

/// What a search ends with, before an answer is made of it.
#[derive(Drop)]
pub(crate) enum Found {
    /// Under the trail every clause and each assumption is true.
    Satisfied,
    /// A clause of negated assumptions, which follows by its hints.
    Refused(Learned),
}
