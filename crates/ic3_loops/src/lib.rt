//! The loops of IC3 (Bradley, SAT-based model checking without unrolling, 2011; Eén, Mishchenko, Brayton, Efficient
//! implementation of property directed reachability, 2011) inside the arena of a start, over any solver of one step
//! (`StepSolver`).
//!
//! Frame k is a list of lemmas, clauses over the latches, that the states meet which k steps from the starts reach. Frame
//! 0 has the starts alone. A lemma of a level restricts the frame of this level and those below it.
//!
//! ```text
//! single:                                                                          one_literal
//!     a literal of the start that the goal state breaks and no step leaves is a closed set
//!
//! resume:                                                                          resuming
//!     if there are no frames, open frame 0, with a lemma for each literal of the starts, and frame 1      opening
//!     else the solver takes the lemmas of the frames
//!
//! iterate:                                                                         iterating
//!     repeat:
//!         strengthen; if there is a path, answer it
//!         propagate
//!         if two neighbouring frames have the same lemmas, answer them as closed set        closing
//!         count a step, and open a frame
//!
//! strengthen:                                                                      blocking
//!     repeat:
//!         take the obligation of the lowest level whose frame allows its state (one whose frame excludes it goes to the
//!         lowest level above whose frame allows it); else a state of the goal in the last frame, lifted to a cube;
//!         else the last frame is strong enough                                     obligations
//!         block it
//!
//! block (obligation: a cube at a level):                                           blocking
//!     repeat:
//!         if its state is a start, answer the path: the inputs of the obligations, one after another      replaying
//!         put it into the queue
//!         consecution: does a step lead from the frame below into the cube, from outside it?
//!             if so, lift the state that it is from to a cube, and go on with that one at the level below  lifting, ending
//!             if not, generalize the part of the cube that the solver answers, and end
//!
//! generalize (cube, level below):                                                  generalizing
//!     keep a literal by which the cube misses the starts                           based, of `ic3_generalise`
//!     drop literals while the cube misses the starts and no step from the frame enters it         shortening
//!     take higher frames while no step from them enters the cube                   shortening
//!     count a step, and put the cube's negation as lemma into the level above      lemmas
//!
//! propagate:                                                                       propagating
//!     from level 1 up, for each lemma that the next level has not:                 pushing
//!         if it holds after each step from the frame of its level, put the part that the solver answers into the next level
//!     from level 1 up, for each lemma that the next level has not:
//!         if it holds after each step from the frame of its level, put it into the next level
//!     (while there are two levels, for each lemma of level 0 first; from a state where the goal is a state)
//!     (a step that showed that a lemma stays shows it still while it begins in the frame)      `is_stuck`, of `ic3_frames`
//! ```
//!
//! Each step that is counted takes room, of which there is no more than (2^n + 2)^2 over n latches. `specs/` is
//! scaffolding, but for `Narrows`.
#![tactic(auto)]

mod aim;
mod blocking;
mod closing;
mod ending;
mod generalizing;
mod iterating;
mod lemmas;
mod lifting;
mod obligations;
mod one_literal;
mod opening;
mod propagating;
mod pushing;
mod replaying;
mod resuming;
mod shortening;
mod step_solver;

pub use aim::Aim;
pub use closing::lemmas_from;
pub use iterating::{Iterated, iterate};
pub use one_literal::single;
pub use opening::start_cube;
pub use resuming::resume;
pub use step_solver::StepSolver;
