//! The program: the texts that it reads, its verdict, and what it writes.
//!
//! | Call | What it does |
//! |---|---|
//! | `run` | does what the words ask for; the workers of `solve` search on threads |
//! | `run_alone` | the same on one thread, where workers take turns; it owes its return, and its clauses are those of `run` |
//! | `Status::number` | the number with which the program ends |
//! | `runs_agree` | nothing: the law that two runs of `solve` on one property agree |
//! | `answers_are_as_asked` | nothing: the laws that what a command answers is of what was asked for |
//! | `printed_answers_are_accepted` | nothing: the law that `check` accepts what `solve` prints |
//!
//! What its words ask for, `command_lines` tells. A command has files of its own there, and here or in `plain_commands`, as
//! `specs/Wave.antt` and `src/commands/waving.rt` are, and a line, or a case, in each list of the files that
//! `src/commands.rt` names.
#![tactic(auto)]

mod beginnings;
mod commands;
mod laws;
mod running;
mod searching;

pub use laws::{answers_are_as_asked, printed_answers_are_accepted, runs_agree};
pub use plain_commands::{Done, Status};
pub use running::{run, run_alone};
