//! Certificates as their lines spell them: taken out of the lines of an answer, and written.
//!
//! | Call | What it does |
//! |---|---|
//! | `KeptLines::none`, `KeptLines::each`, `KeptLines::keep` | the lines of an answer that are not skipped, kept where that is wanted |
//! | `take_certificate` | takes the certificate out of the kept lines of an answer |
//! | `take_many`, `Form` | take so many of a form that lines may have; `EntryForm` is that of an entry |
//! | `print_certificate` | writes the answer with a certificate, in version 2 |
//! | `add_head`, `add_word_line`, `add_uses`, `add_clauses`, `add_lines`, `add_proofs`, `add_last` | add lines to the text of an answer |
#![tactic(auto)]

mod adding;
mod certificates;
mod keeping;
mod printing;
mod taking;

pub use adding::{add_clauses, add_head, add_last, add_lines, add_proofs, add_uses, add_word_line};
pub use certificates::{Certificate, Written};
pub use keeping::KeptLines;
pub use printing::print_certificate;
pub use taking::{EntryForm, Form, TakeEnd, take_certificate, take_many};
