//! The frames of IC3: for each level a set of lemmas, each lemma in the highest level in which it stands. A lemma that
//! comes drops those that it implies, beside it and below.
//!
//! | Call | Does |
//! |---|---|
//! | `Frames::new` | no frames; takes no memory |
//! | `len` | how many frames there are |
//! | `add_frame` | opens a frame without lemmas above the others |
//! | `add` | puts a lemma into a frame and those below |
//! | `push_on` | puts a lemma of a level into the next frame too |
//! | `count` | how many lemmas a level has that the next has not |
//! | `lemma` | lends a lemma of a level that the next level has not |
//! | `activity` | in how many lemmas a literal stands, or stood a little before |
//! | `at` | a frame as a list of clauses, for the meter of a search |
//! | `equal_pair` | a level whose frame has the same lemmas as the next |
//! | `count_frame` | counts the step of a frame that is to be opened |
//! | `by_activity` | the literals of a cube, those first whose negations stand in few lemmas |
//! | `Witnesses` | steps that were found to break lemmas: `no_witnesses`, `keep_witness`, `forget_unused` |
//! | `is_stuck` | whether such a step shows that a lemma does not hold after each step from its frame |
//! | `signature_of` | a number whose bits tell of most clauses that they are no part of another |
//! | `implying_places` | chooses for each lemma of a list a later one that implies it, or none |
//! | `is_implied_by` | whether a lemma of a list, behind a place, implies another |
//! | `frames_grow` | nothing: the laws of what frames mean |
//! | `steps_take_room` | nothing: the laws of the room that bounds the steps of a search |
//!
//! Levels and places are counted from 0. Each error but that of `count_frame` is want of memory, and changes nothing, but
//! that `is_stuck` may lose a step.
#![tactic(auto)]

mod activities;
mod frames;
mod implying;
mod laws;
mod levels;
mod ordering;
mod signatures;
mod witnesses;

pub use frames::{FrameAt, Frames};
pub use implying::{implying_places, is_implied_by};
pub use laws::{frames_grow, steps_take_room};
pub use ordering::by_activity;
pub use signatures::signature_of;
pub use witnesses::{Witnesses, forget_unused, is_stuck, keep_witness, no_witnesses};
