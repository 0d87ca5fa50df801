//! The lines of an answer, kept where that is wanted. The main type is `KeptLines`.

ghost use Rattle.std.specs.Prelude.{◌≡◌, [], ◌∷◌, ◌++◌, false, true, OnOk, OnErr};
ghost use Rattle.stimulus.specs.Texts.{kept_lines};

use cnf::ProofLine;
use items::Items;
use std::alloc::{AllocError, Global};
use stimulus::is_skipped;

/// The lines that are not skipped, where lines are kept.
#[derive(Drop)]
pub struct KeptLines {
    pub keeps: bool,
    pub lines: Items<ProofLine>,
}

impl KeptLines {
    /// Keeps none.
    pub fn none(alloc: Global) -> KeptLines
        ensures keeps { result.keeps ≡ false }
        ensures lines { result.lines ≡ [] }
    {
        KeptLines {
            keeps: false,
            lines: Items::new(alloc),
        }
    }

    /// Keeps each, none so far.
    pub fn each(alloc: Global) -> KeptLines
        ensures keeps { result.keeps ≡ true }
        ensures lines { result.lines ≡ [] }
    {
        KeptLines {
            keeps: true,
            lines: Items::new(alloc),
        }
    }

    /// Keeps the line, unless it is skipped or none is kept. Where memory is wanting the lines are as they were.
    pub fn keep(&mut self, alloc: Global, line: &[u8]) -> Result<(), AllocError>
        ensures keeps { self.new.keeps ≡ self.old.keeps }
        ensures lines { OnOk result (self.old.keeps ≡ true → self.new.lines ≡ self.old.lines ++ kept_lines (line.now ∷ [])) }
        ensures none { self.old.keeps ≡ false → self.new.lines ≡ self.old.lines }
        ensures err { OnErr result (self.new.lines ≡ self.old.lines) }
    {
        if self.keeps {
            keep_line(alloc, &mut self.lines, line)?;
        }
        Ok(())
    }
}

fn keep_line(alloc: Global, lines: &mut Items<ProofLine>, line: &[u8]) -> Result<(), AllocError>
    ensures ok { OnOk result (lines.new ≡ lines.old ++ kept_lines (line.now ∷ [])) }
    ensures err { OnErr result (lines.new ≡ lines.old) }
{
    if is_skipped(line) {
        return Ok(());
    }
    lines.push(Items::from_slice(alloc, line)?)?;
    Ok(())
}
