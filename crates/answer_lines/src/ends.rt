//! Why a line was not given.

use edge::Failed;
use std::alloc::AllocError;
use std::fmt;
use thiserror::Error;

/// Why a line was not given. Nothing is lost then: the next call reads on for the same line.
#[derive(Clone, Copy, PartialEq, Eq, Error)]
pub enum LinesEnd {
    /// A read failed. The shelf has counted it.
    ReadFault,
    /// Neither a line feed nor the text's end ends the line within the first 9,223,372,036,854,775,807 bytes of the
    /// text.
    TooLong,
    /// Memory ran out.
    Memory,
}

impl fmt::Display for LinesEnd {
    fn fmt<W: fmt::Write>(&self, f: &mut fmt::Formatter<W>) -> fmt::Result {
        f.write_str("no line is given")
    }
}

impl fmt::Debug for LinesEnd {
    fn fmt<W: fmt::Write>(&self, f: &mut fmt::Formatter<W>) -> fmt::Result {
        fmt::Display::fmt(self, f)
    }
}

impl From<Failed> for LinesEnd {
    ghost use Rattle.std.specs.Prelude.{◌≡◌};
    ghost use Rattle.answer_lines.specs.declared.ends.LinesEnd.TheVariants.{ReadFault};

    ghost from_gives = { λ _ end. end ≡ ReadFault };

    fn from(_failed: Failed) -> LinesEnd {
        LinesEnd::ReadFault
    }
}

impl From<AllocError> for LinesEnd {
    ghost use Rattle.std.specs.Prelude.{◌≡◌};
    ghost use Rattle.answer_lines.specs.declared.ends.LinesEnd.TheVariants.{Memory};

    ghost from_gives = { λ _ end. end ≡ Memory };

    fn from(_refused: AllocError) -> LinesEnd {
        LinesEnd::Memory
    }
}
