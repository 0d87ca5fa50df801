//! How the check of a text ends.

ghost use Rattle.std.specs.Prelude.{◌≡◌};
ghost use Rattle.certificate.specs.declared.ends.AnswerEnd.TheVariants.{Refused};
ghost use Rattle.certificate.specs.declared.ends.AnswerFault.TheVariants.{Shape};
ghost use Rattle.round_answers.specs.declared.ends.JudgeEnd.TheVariants.{Answer};

use crate::counts::Counts;
use answer_lines::LinesEnd;
use certificate::{AnswerEnd, AnswerFault};
use proof_semantics::LratFault;
use std::alloc::{AllocError, AllocFailed};
use std::fmt;
use stimulus::ReplayFault;
use thiserror::Error;

/// What an accepted text shows.
#[derive(Clone, Copy, PartialEq, Eq)]
pub enum Judged {
    /// It is no sheet: an answer or a text about rounds, and shows this.
    Text(round_answers::Judged),
    /// It is a sheet with so many blocks of each kind, and so many entries. There are at most 65,536 entries.
    Sheet(Counts, u32),
}

/// What is wrong with a block of a sheet.
#[derive(Clone, Copy, PartialEq, Eq, Error)]
pub enum BlockFault {
    /// Its stimulus has this fault, and is no fair lasso. It is never `Shape` or `NoProperty` of the stimulus.
    Replay(ReplayFault),
    /// The first use of its refutation that may not stand where it does is of the entry with this number.
    RefuteUse(u64),
    /// Its refutation's proof has this fault at this line. `Unfinished` carries the number of its lines.
    Refutation(u64, LratFault),
}

impl fmt::Display for BlockFault {
    fn fmt<W: fmt::Write>(&self, f: &mut fmt::Formatter<W>) -> fmt::Result {
        f.write_str("the block is not good")
    }
}

impl fmt::Debug for BlockFault {
    fn fmt<W: fmt::Write>(&self, f: &mut fmt::Formatter<W>) -> fmt::Result {
        fmt::Display::fmt(self, f)
    }
}

/// Why a text is not accepted.
#[derive(Clone, Copy, PartialEq, Eq, Error)]
pub enum JudgeEnd {
    /// As other texts: of a sheet its first failing line or entry, a failed read, or want of memory.
    Text(round_answers::JudgeEnd),
    /// The block of this property has this fault.
    Block(u32, BlockFault),
}

impl fmt::Display for JudgeEnd {
    fn fmt<W: fmt::Write>(&self, f: &mut fmt::Formatter<W>) -> fmt::Result {
        f.write_str("the text is not accepted")
    }
}

impl fmt::Debug for JudgeEnd {
    fn fmt<W: fmt::Write>(&self, f: &mut fmt::Formatter<W>) -> fmt::Result {
        fmt::Display::fmt(self, f)
    }
}

/// As the check of an answer ends.
pub(crate) fn plain(end: AnswerEnd) -> JudgeEnd
    ensures { result ≡ JudgeEnd.Text (Answer end) }
{
    JudgeEnd::Text(round_answers::JudgeEnd::Answer(end))
}

/// The text has this fault.
pub(crate) fn refused(fault: AnswerFault) -> JudgeEnd
    ensures { result ≡ JudgeEnd.Text (Answer (Refused fault)) }
{
    plain(AnswerEnd::Refused(fault))
}

/// The line with this number is not what is wanted there.
pub(crate) fn misplaced(number: u64) -> JudgeEnd
    ensures { result ≡ JudgeEnd.Text (Answer (Refused (Shape number))) }
{
    refused(AnswerFault::Shape(number))
}

impl From<AnswerEnd> for JudgeEnd {
    ghost use Rattle.std.specs.Prelude.{◌≡◌};
    ghost use Rattle.round_answers.specs.declared.ends.JudgeEnd.TheVariants.{Answer};
    ghost use Rattle.sheet_answers.specs.declared.ends.JudgeEnd.TheVariants.{Text};

    ghost from_gives = { λ inner end. end ≡ Text (Answer inner) };

    fn from(end: AnswerEnd) -> JudgeEnd {
        plain(end)
    }
}

impl From<LinesEnd> for JudgeEnd {
    ghost use Rattle.std.specs.Prelude.{◌≡◌};
    ghost use Rattle.certificate.specs.Texts.{end_of_lines};
    ghost use Rattle.round_answers.specs.declared.ends.JudgeEnd.TheVariants.{Answer};
    ghost use Rattle.sheet_answers.specs.declared.ends.JudgeEnd.TheVariants.{Text};

    ghost from_gives = { λ lines end. end ≡ Text (Answer (end_of_lines lines)) };

    fn from(end: LinesEnd) -> JudgeEnd {
        plain(AnswerEnd::from(end))
    }
}

impl From<AllocError> for JudgeEnd {
    ghost use Rattle.std.specs.Prelude.{◌≡◌};
    ghost use Rattle.certificate.specs.declared.ends.AnswerEnd.TheVariants.{Memory};
    ghost use Rattle.round_answers.specs.declared.ends.JudgeEnd.TheVariants.{Answer};
    ghost use Rattle.sheet_answers.specs.declared.ends.JudgeEnd.TheVariants.{Text};

    ghost from_gives = { λ _ end. end ≡ Text (Answer Memory) };

    fn from(_refused: AllocError) -> JudgeEnd {
        plain(AnswerEnd::Memory)
    }
}

impl<T: Drop> From<AllocFailed<T>> for JudgeEnd {
    ghost use Rattle.std.specs.Prelude.{◌≡◌};
    ghost use Rattle.certificate.specs.declared.ends.AnswerEnd.TheVariants.{Memory};
    ghost use Rattle.round_answers.specs.declared.ends.JudgeEnd.TheVariants.{Answer};
    ghost use Rattle.sheet_answers.specs.declared.ends.JudgeEnd.TheVariants.{Text};

    ghost from_gives = { λ _ end. end ≡ Text (Answer Memory) };

    fn from(_refused: AllocFailed<T>) -> JudgeEnd {
        plain(AnswerEnd::Memory)
    }
}
