//! The lines of a section: how one is read, and a section of them. The main call is `read_lines`.
ghost use Rattle.std.specs.Prelude.{◌≡◌, ◌<◌, ℕ};
ghost use Rattle.aiger_grammar.specs.Answered.{GivesRead};
ghost use Rattle.aiger_grammar.specs.Reading.{many};

use circuit::ModelEnd;
use items::Items;
use std::alloc::Global;

/// How a line of a section is read, and for what it stands.
pub trait Line<X> {
    ghost use Rattle.std.specs.Prelude.{ℕ};
    ghost use Rattle.aiger_grammar.specs.Reading.{Reader};

    ghost within: { Self → ℕ → Type 0 };

    ghost item_at: { Self → ℕ → ℕ → Reader X };

    /// What the line at the front stands for, and the bytes behind it. It has this number in its section, from 0, in a
    /// text of `total` bytes. Only a number that the line can have is asked for.
    fn read<'a>(&self, number: u64, total: u64, bytes: &'a [u8]) -> Result<(X, &'a [u8]), ModelEnd>
        requires { within self.now number }
        ensures { GivesRead (λ x. (x.0, x.1.now)) result (item_at self.now number total bytes.now) };
}

/// What `count` lines stand for, and the bytes behind them. Takes memory for what was read, whatever the count.
pub fn read_lines<'a, X: Drop, L: Line<X>>(
    alloc: Global,
    line: &L,
    count: u64,
    total: u64,
    bytes: &'a [u8],
) -> Result<(Items<X>, &'a [u8]), ModelEnd>
    requires { (k : ℕ) → k < count → L.within line.now k }
    ensures { GivesRead (λ x. (x.0, x.1.now)) result (many (λ k. L.item_at line.now k total) 0 count bytes.now) }
{
    let mut values = Items::new(alloc);
    let mut rest = bytes;
    for number in 0..count {
        let (value, after) = line.read(number, total, rest)?;
        values.push(value)?;
        rest = after;
    }
    Ok((values, rest))
}
