//! What a question for a step into a cube answers. The main type is `Found`.

use circuit::Position;
use cnf::Cube;

/// What a question for a step into a cube answers.
#[derive(Debug, Drop)]
pub enum Found {
    /// A position from whose state a step leads into the cube.
    Step(Position),
    /// A part of the cube into which no step leads from outside the cube.
    Missing(Cube),
}
