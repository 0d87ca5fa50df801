//! What the loops of a search are lent, and none of them changes. The main type is `Aim`.

use cnf::Cube;
use ic3_semantics::Goal;
use std::alloc::Global;

/// A path from the starts to a goal, which a search looks for: the cube of the starts, and the goal; and where memory is
/// from.
#[derive(Drop)]
pub struct Aim<'a, 'b> {
    pub alloc: Global,
    pub starts: &'a Cube,
    pub goal: &'a Goal<'b>,
}
