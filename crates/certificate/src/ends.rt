//! How the check of an answer ends.

ghost use Rattle.std.specs.Prelude.{◌≡◌};
ghost use Rattle.certificate.specs.declared.ends.AnswerFault.TheVariants.{Shape};

use answer_lines::LinesEnd;
use entry::EntryFault;
use proof_semantics::LratFault;
use std::alloc::{AllocError, AllocFailed};
use std::fmt;
use stimulus::ReplayFault;
use thiserror::Error;

/// What an accepted answer shows of a property, counted from 0.
#[derive(Clone, Copy, PartialEq, Eq)]
pub enum Accepted {
    /// Its stimulus stands for a fair lasso: the number of positions, and the place, counted from 0, that the last
    /// position steps back to.
    Lasso {
        property: u32,
        positions: u64,
        from: u64,
    },
    /// Its certificate, of so many entries, leaves no fair lasso. There are at most 65,536 entries.
    Holds {
        property: u32,
        entries: u32,
    },
}

/// Why an answer is refused: its first failing item. Lines are counted from 1, skipped ones too; entries, clauses and
/// the lines of a proof from 0, skipped lines of a proof not counted.
#[derive(Clone, Copy, PartialEq, Eq, Error)]
pub enum AnswerFault {
    /// The line with this number is not what is wanted there; where the text ends too early, it is the number behind
    /// the last line.
    Shape(u64),
    /// The circuit has no property of this number.
    NoProperty(u64),
    /// The stimulus has this fault, and is no fair lasso. It is never `Shape` or `NoProperty` of the stimulus.
    Replay(ReplayFault),
    /// The entry with this number has this fault.
    Entry(u64, EntryFault),
    /// The first use of the refutation that may not stand where it does is of the entry with this number.
    RefuteUse(u64),
    /// The refutation's proof has this fault at this line. `Unfinished` carries the number of its lines.
    Refutation(u64, LratFault),
    /// The certificate has more than 65,536 entries; or neither a line feed nor the text's end ends the next line
    /// within the first 9,223,372,036,854,775,807 bytes of the text.
    TooLong,
    /// The line with this number stands behind the answer's last line, and is not skipped.
    Trailing(u64),
    /// The status is 2, of which no answers are read, or the text is one about rounds or a sheet.
    UnknownStatus,
    /// The run of a text about rounds has so many rounds, fewer than the text says. Of an answer it never comes.
    FewRounds(u64),
}

impl fmt::Display for AnswerFault {
    fn fmt<W: fmt::Write>(&self, f: &mut fmt::Formatter<W>) -> fmt::Result {
        f.write_str("the answer is not good")
    }
}

impl fmt::Debug for AnswerFault {
    fn fmt<W: fmt::Write>(&self, f: &mut fmt::Formatter<W>) -> fmt::Result {
        fmt::Display::fmt(self, f)
    }
}

/// Why an answer is not accepted.
#[derive(Clone, Copy, PartialEq, Eq, Error)]
pub enum AnswerEnd {
    /// It is not a good answer.
    Refused(AnswerFault),
    /// A read of it failed.
    ReadFault,
    /// Memory was refused.
    Memory,
}

impl fmt::Display for AnswerEnd {
    fn fmt<W: fmt::Write>(&self, f: &mut fmt::Formatter<W>) -> fmt::Result {
        f.write_str("the answer is not accepted")
    }
}

impl fmt::Debug for AnswerEnd {
    fn fmt<W: fmt::Write>(&self, f: &mut fmt::Formatter<W>) -> fmt::Result {
        fmt::Display::fmt(self, f)
    }
}

/// The line with this number is not what is wanted there.
pub(crate) fn misplaced(number: u64) -> AnswerEnd
    ensures { result ≡ AnswerEnd.Refused (Shape number) }
{
    AnswerEnd::Refused(AnswerFault::Shape(number))
}

impl From<AnswerFault> for AnswerEnd {
    ghost use Rattle.std.specs.Prelude.{◌≡◌};
    ghost use Rattle.certificate.specs.declared.ends.AnswerEnd.TheVariants.{Refused};

    ghost from_gives = { λ fault end. end ≡ Refused fault };

    fn from(fault: AnswerFault) -> AnswerEnd {
        AnswerEnd::Refused(fault)
    }
}

impl From<LinesEnd> for AnswerEnd {
    ghost use Rattle.std.specs.Prelude.{◌≡◌};
    ghost use Rattle.certificate.specs.Texts.{end_of_lines};

    ghost from_gives = { λ lines end. end ≡ end_of_lines lines };

    fn from(end: LinesEnd) -> AnswerEnd {
        match end {
            LinesEnd::ReadFault => AnswerEnd::ReadFault,
            LinesEnd::TooLong => AnswerEnd::Refused(AnswerFault::TooLong),
            LinesEnd::Memory => AnswerEnd::Memory,
        }
    }
}

impl From<AllocError> for AnswerEnd {
    ghost use Rattle.std.specs.Prelude.{◌≡◌};
    ghost use Rattle.certificate.specs.declared.ends.AnswerEnd.TheVariants.{Memory};

    ghost from_gives = { λ _ end. end ≡ Memory };

    fn from(_refused: AllocError) -> AnswerEnd {
        AnswerEnd::Memory
    }
}

impl<T: Drop> From<AllocFailed<T>> for AnswerEnd {
    ghost use Rattle.std.specs.Prelude.{◌≡◌};
    ghost use Rattle.certificate.specs.declared.ends.AnswerEnd.TheVariants.{Memory};

    ghost from_gives = { λ _ end. end ≡ Memory };

    fn from(_refused: AllocFailed<T>) -> AnswerEnd {
        AnswerEnd::Memory
    }
}
