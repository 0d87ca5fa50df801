//! Cubes that are shortened while they pass a test, as IC3 does before it makes a lemma of one; and cubes that miss the
//! starts of a search.
//!
//! | Call | Does |
//! |---|---|
//! | `Asker` | what tests cubes: `excluded` answers a part of a cube where the cube passes |
//! | `generalise` | drops literals of a list from a cube that passes; each of them that is left is needed |
//! | `misses_starts` | whether a cube misses the starts of a search by a literal |
//! | `based` | a part of a cube with a literal by which the cube misses the starts |
//! | `state_cube` | the cube of one state |
//! | `holds_in` | whether a state lies in a cube |
//!
//! An error is want of memory, or of the first two a limit of conflicts that is reached; the test is then as it was.
#![tactic(auto)]

mod asking;
mod cubes;
mod generalising;

pub use asking::Asker;
pub use cnf::{Cube, Lit};
pub use cubes::{based, holds_in, misses_starts, state_cube};
pub use edge::{Meter, SolveEnd};
pub use generalising::generalise;
