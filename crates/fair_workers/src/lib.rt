//! Workers that search over one board for a fair lasso or a refutation, after FAIR (Bradley, Somenzi, Hassan, Zhang,
//! 2011).
//!
//! | Call | Gives |
//! |---|---|
//! | `run_turns` | the board with an outcome or without one, and what was spent, by workers that take turns on one thread |
//! | `run_all` | the same, by workers on threads over one ledger |
//! | `no_report_without_limits` | nothing: the law of when there is no report |
//!
//! | Word | Means |
//! |---|---|
//! | worker (`Worker`) | its rounds (of `fair_round`), its meter, and its phase: what it does next, or how it ended |
//! | lasso worker | a worker without rounds, which simulates, and then asks for lassos of one position more at a time (`LassoSearch`) |
//! | shared list (`SharedList` of `shared_lists`) | the list of entries with the outcomes, as one worker has it in a turn, whatever it is kept in |
//! | worker of a board (`BoardWorker`) | a worker with its number, how many entries of the board it has seen, and its turns |
//! | lent board (`LentBoard`) | the board as the shared list of one of its workers, for one turn |
//! | held pass (`Held`) | a ledger as the shared list of the worker that has one of its passes |
//! | runner (`Runner`) | a worker that goes to a thread with its pass, and comes back with its end |
//! | end (`WorkerEnd`) | what a worker had spent when it ended, and why it did |
//!
//! The definitions stand in `specs/`. Workers and properties are counted from 0.
#![tactic(auto)]

mod board_workers;
mod ending;
mod lasso_search;
mod laws;
mod numbering;
mod racing;
mod runners;
mod threads;
mod turning;
mod turns;
mod working;

pub use laws::no_report_without_limits;
pub use search_reports::{Ended, Limits, Report};
pub use threads::run_all;
pub use turns::run_turns;
pub use wall_store::{Board, Outcome};
