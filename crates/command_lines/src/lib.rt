//! The command lines of the program: what the words that it is called with ask for.
//!
//! | Call | What it does |
//! |---|---|
//! | `asked_of` | tells what the words ask for, where they are a command and its values a request of it |
//!
//! | Word | Means |
//! |---|---|
//! | `Request` | what the words ask for: a command with its values |
//! | `SolveRequest` | what `solve` is asked for; `DEFAULTS`: where only a model is named |
//! | `GenRequest` with `GenKind`, `DemoRequest`, `RoundsRequest`, `ShortestRequest`, `ExportRequest` | what `gen`, `demo`, `rounds`, `shortest` and `export` are asked for |
//! | `WordsEnd` | why the words ask for nothing |
//! | `USAGE` | a line for each command, for words that are none |
//!
//! Nothing is run here: that do `plain_commands` and `fair_top`. A command has files of its own, as `specs/Check.antt` and
//! `src/commands/checking.rt` are, and a line, or a case, in each list of the files that `src/commands.rt` names.
#![tactic(auto)]

mod commands;
mod words;

pub use commands::{
    DEFAULTS, DemoRequest, ExportRequest, GenKind, GenRequest, Request, RoundsRequest,
    ShortestRequest, SolveRequest, USAGE, WordsEnd, asked_of,
};
