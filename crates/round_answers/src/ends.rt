//! How the check of a text ends.

ghost use Rattle.std.specs.Prelude.{◌≡◌};
ghost use Rattle.certificate.specs.declared.ends.AnswerEnd.TheVariants.{Refused};
ghost use Rattle.certificate.specs.declared.ends.AnswerFault.TheVariants.{Shape};

use crate::state::Asked;
use answer_lines::LinesEnd;
use certificate::{Accepted, AnswerEnd, AnswerFault};
use std::alloc::{AllocError, AllocFailed};
use std::fmt;
use thiserror::Error;

/// What an accepted text shows.
#[derive(Clone, Copy, PartialEq, Eq)]
pub enum Judged {
    /// It is an answer, and shows this.
    Answer(Accepted),
    /// Of a property, counted from 0: an initial run has `k` rounds, or more; or none has.
    Rounds {
        property: u32,
        k: u32,
        reached: bool,
    },
}

/// Why a text is not accepted.
#[derive(Clone, Copy, PartialEq, Eq, Error)]
pub enum JudgeEnd {
    /// It is not good, a read of it failed, or memory was refused.
    Answer(AnswerEnd),
    /// The monitor's greatest variable would be this one, which is above `MAX_VARIABLE`.
    TooLarge(u64),
}

impl fmt::Display for JudgeEnd {
    fn fmt<W: fmt::Write>(&self, f: &mut fmt::Formatter<W>) -> fmt::Result {
        f.write_str("the text is not accepted")
    }
}

impl fmt::Debug for JudgeEnd {
    fn fmt<W: fmt::Write>(&self, f: &mut fmt::Formatter<W>) -> fmt::Result {
        fmt::Display::fmt(self, f)
    }
}

/// What is shown of what was asked.
pub(crate) fn shown(asked: Asked, reached: bool) -> Judged
    ensures { result ≡ Judged.Rounds asked.property asked.k reached }
{
    Judged::Rounds {
        property: asked.property,
        k: asked.k,
        reached,
    }
}

/// The text has this fault.
pub(crate) fn refused(fault: AnswerFault) -> JudgeEnd
    ensures { result ≡ JudgeEnd.Answer (Refused fault) }
{
    JudgeEnd::Answer(AnswerEnd::Refused(fault))
}

/// The line with this number is not what is wanted there.
pub(crate) fn misplaced(number: u64) -> JudgeEnd
    ensures { result ≡ JudgeEnd.Answer (Refused (Shape number)) }
{
    refused(AnswerFault::Shape(number))
}

impl From<AnswerEnd> for JudgeEnd {
    ghost use Rattle.std.specs.Prelude.{◌≡◌};
    ghost use Rattle.round_answers.specs.declared.ends.JudgeEnd.TheVariants.{Answer};

    ghost from_gives = { λ inner end. end ≡ Answer inner };

    fn from(end: AnswerEnd) -> JudgeEnd {
        JudgeEnd::Answer(end)
    }
}

impl From<LinesEnd> for JudgeEnd {
    ghost use Rattle.std.specs.Prelude.{◌≡◌};
    ghost use Rattle.certificate.specs.Texts.{end_of_lines};
    ghost use Rattle.round_answers.specs.declared.ends.JudgeEnd.TheVariants.{Answer};

    ghost from_gives = { λ lines end. end ≡ Answer (end_of_lines lines) };

    fn from(end: LinesEnd) -> JudgeEnd {
        JudgeEnd::Answer(AnswerEnd::from(end))
    }
}

impl From<AllocError> for JudgeEnd {
    ghost use Rattle.std.specs.Prelude.{◌≡◌};
    ghost use Rattle.certificate.specs.declared.ends.AnswerEnd.TheVariants.{Memory};
    ghost use Rattle.round_answers.specs.declared.ends.JudgeEnd.TheVariants.{Answer};

    ghost from_gives = { λ _ end. end ≡ Answer Memory };

    fn from(_refused: AllocError) -> JudgeEnd {
        JudgeEnd::Answer(AnswerEnd::Memory)
    }
}

impl<T: Drop> From<AllocFailed<T>> for JudgeEnd {
    ghost use Rattle.std.specs.Prelude.{◌≡◌};
    ghost use Rattle.certificate.specs.declared.ends.AnswerEnd.TheVariants.{Memory};
    ghost use Rattle.round_answers.specs.declared.ends.JudgeEnd.TheVariants.{Answer};

    ghost from_gives = { λ _ end. end ≡ Answer Memory };

    fn from(_refused: AllocFailed<T>) -> JudgeEnd {
        JudgeEnd::Answer(AnswerEnd::Memory)
    }
}
