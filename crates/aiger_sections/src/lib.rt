//! The parts of a model's text that both forms share, read from the left (AIGER 1.9; Biere, Heljanko, Wieringa, 2011):
//! numbers, the first line, sections of lines. Each reader gives what it read and the bytes behind it, or the first
//! fault with its place in the whole text, of which `total` bytes there are. The first line is written here too.
//!
//! | Call | What it gives |
//! |---|---|
//! | `number`, `value`, `field` | the number at the front; one that passes a `Test`; that and the byte behind it |
//! | `behind` | what stands behind a byte that has to be there |
//! | `passes` | whether a number may stand where a `Test` is asked |
//! | `place`, `unfit` | how many bytes stand in front of the last ones; the fault where none fits |
//! | `read_heading` | the header's line |
//! | `counts` | how many elements of each list a symbol may name, by a header |
//! | `is_too_long`, `within_limit` | the limits of a text and of its header |
//! | `read_lines`, `Line` | the lines of a section, and how one of them is read |
//! | `InputLine`, `LatchLine`, `LiteralLine`, `SizeLine`, `GateLine` | the lines of the sections, each a `Line` |
//! | `read_next` | the end of a latch's line |
//! | `read_properties` | the sections of literals |
//! | `push_header` | the header's line, written |
#![tactic(auto)]

mod fields;
mod heading;
mod heading_text;
mod limits;
mod lines;
mod properties;
mod sections;

pub use fields::{behind, field, number, passes, place, unfit, value};
pub use heading::{counts, read_heading};
pub use heading_text::push_header;
pub use limits::{is_too_long, within_limit};
pub use lines::{Line, read_lines};
pub use properties::read_properties;
pub use sections::{GateLine, InputLine, LatchLine, LiteralLine, SizeLine, read_next};
