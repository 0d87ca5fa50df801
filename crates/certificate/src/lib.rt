//! Answers, judged against a circuit, as a stream of lines.
//!
//! | Call | What it does |
//! |---|---|
//! | `check_answer` | judges the answer that a shelf holds: a stimulus, or a certificate of version 1 or 2 |
//! | `check_with_lasso` | the same, and keeps the lasso of an accepted stimulus |
//! | `load` | judges it as `check_answer` does, and holds what was accepted |
//! | `print` | writes the answer that is held, a certificate in version 2 |
//! | `write` | writes the answer with the certificate of checked entries and a refutation |
//! | `step` | goes on from a state of the reading by a line, for other texts that have runs or entries |
//! | `number_in`, `property_in`, `property_of`, `opens_rounds`, `opens_sheet` | read a number that is a field, the line of a property, and whether a text is about rounds, or a sheet |
//! | `states_refuted` | the state before the entries of a certificate that refutes states which have a literal |
//! | `answers_are_read_as_good` | a law: what is read as a good answer is one, and every good answer is so read |
//! | `good_answers_are_true` | a law: a good answer shows a fair lasso, or that there is none |
//! | `good_answers_agree` | a law: no property has a good answer of each status |
//! | `answers_have_one_end` | a law: any text is good for one thing, or has one first fault, never both |
//! | `first_faults_stay` | a law: a fault that is not one of the text's end stays, whatever follows |
//! | `written_stimuli_are_good` | a law: what `stimulus::write` writes is good, where the stimulus is |
//! | `written_certificates_are_good` | a law: what `write` writes is good, where entries and refutation are |
//! | `printed_answers_hold_the_same` | a law: what `print` writes of an answer that is held has the same |
#![tactic(auto)]

mod checking;
mod ending;
mod ends;
mod entries;
mod heads;
mod laws;
mod limits;
mod loaded;
mod loading;
mod printing;
mod refuting;
mod rows;
mod state;
mod states;
mod steps;
mod uses;
mod writing;

pub use certificate_texts::{
    Certificate, EntryForm, Form, KeptLines, TakeEnd, Written, add_lines, add_uses, add_word_line,
    take_many,
};
pub use checking::{check_answer, check_with_lasso};
pub use ends::{Accepted, AnswerEnd, AnswerFault};
pub use heads::{number_in, opens_rounds, opens_sheet, property_in, property_of, states_refuted};
pub use laws::{
    answers_are_read_as_good, answers_have_one_end, first_faults_stay, good_answers_agree,
    good_answers_are_true, printed_answers_hold_the_same, written_certificates_are_good,
    written_stimuli_are_good,
};
pub use limits::MAX_ENTRIES;
pub use loaded::Loaded;
pub use loading::load;
pub use printing::print;
pub use state::{Begun, Body, Claim, Proving, Refuted, State, Wanted};
pub use steps::step;
pub use writing::{add_entry, write};
