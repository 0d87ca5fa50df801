//! The commands that let no workers search, each of which has a module of its own.

mod bounding;
mod converting;
mod counting;
mod exporting;
mod generating;
mod remaking;
mod slicing;
mod translating;
mod trimming;

pub use bounding::find_shortest;
pub use converting::Conversion;
pub use counting::count_rounds;
pub use exporting::export_item;
pub use generating::generate;
pub use remaking::{MakesText, remake};
pub use slicing::write_slice;
pub use translating::safety;
pub use trimming::Trimming;
