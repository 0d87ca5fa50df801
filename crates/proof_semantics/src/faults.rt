//! Why a line of a proof is refused. The main type is `LratFault`.

use std::fmt;
use thiserror::Error;

/// Why a line of a proof, or a proof as a whole, is refused. The tests of a line are made in the
/// order of `BadLine`, `IdOrder`, `RatRefused`, and then hint by hint `NoClause`, `NotUnit`,
/// `NoConflict`.
#[derive(Clone, Copy, PartialEq, Eq, Error)]
pub enum LratFault {
    /// The line is in no form of a proof line.
    BadLine,
    /// The id of an addition is not above every id that was given or added before it.
    IdOrder,
    /// No clause is held under this id.
    NoClause(u64),
    /// The hint with this id is not the last, and not exactly one literal of its clause is not
    /// false.
    NotUnit(u64),
    /// The last hint's clause has a literal that is not false, or there is no hint.
    NoConflict,
    /// A hint is negative.
    RatRefused,
    /// All lines passed, and no clause that was given or added is empty. Said of whole proofs.
    Unfinished,
}

// What is wrong, in words that an id follows where there is one.
fn words_of(fault: LratFault) -> &'static str {
    match fault {
        LratFault::BadLine => "no proof line",
        LratFault::IdOrder => "the id is not above those before it",
        LratFault::NoClause(_) => "no clause",
        LratFault::NotUnit(_) => "not unit: the clause of hint",
        LratFault::NoConflict => "the last hint gives no conflict",
        LratFault::RatRefused => "a hint is negative",
        LratFault::Unfinished => "no clause is empty at the end",
    }
}

impl fmt::Display for LratFault {
    fn fmt<W: fmt::Write>(&self, f: &mut fmt::Formatter<W>) -> fmt::Result {
        let words = words_of(*self);
        match *self {
            LratFault::NoClause(id) | LratFault::NotUnit(id) => write!(f, "{words} {id}"),
            _ => f.write_str(words),
        }
    }
}

impl fmt::Debug for LratFault {
    fn fmt<W: fmt::Write>(&self, f: &mut fmt::Formatter<W>) -> fmt::Result {
        fmt::Display::fmt(self, f)
    }
}
