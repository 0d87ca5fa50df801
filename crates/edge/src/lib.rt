//! The outside, by what is asked of it: shelves that texts are read from, sinks that text is written to, gates.
//! Code above is generic over the traits `Shelf`, `Sink` and `Gate`, and reads and writes by `read_text` and `write_all`.
//! A failure is told as `Failed` and counted by the object that failed. A `Meter` counts the work of a search,
//! which a `Bell` ends.
#![tactic(auto)]

mod bells;
mod failures;
mod files;
mod gates;
mod mem_shelf;
mod mem_sink;
mod metering;
mod output;
mod reading;
mod solve_end;
mod telling;
mod writing;

pub use bells::Bell;
pub use failures::Failed;
pub use files::FileShelf;
pub use gates::{FreeGate, Gate, Point};
pub use mem_shelf::MemShelf;
pub use mem_sink::MemSink;
pub use metering::{Counted, Held, Meter, Spending, Spent, threads_hand_on_meters};
pub use output::StdSink;
pub use reading::{ReadEnd, Shelf, read_text};
pub use solve_end::SolveEnd;
pub use telling::Progress;
pub use writing::{Sink, write_all};
