//! The lines of a text one after the other. The main type is `Lines`.
ghost use Rattle.std.specs.Iterator.{YieldsFirstRef, item_count};
ghost use Rattle.text_grammar.specs.Lines.{lines_of};

use text_grammar::next_line;

/// The lines of a text, without their line feeds.
#[derive(Drop)]
pub(crate) struct Lines<'a>(pub(crate) &'a [u8]);

impl<'a> Iterator for Lines<'a> {
    type Item = &'a [u8];

    ghost next_gives = { YieldsFirstRef (λ s. lines_of s.0.now) };

    ghost remaining = { item_count (λ s. lines_of s.0.now) };

    fn next(&mut self) -> Option<&'a [u8]> {
        let (line, rest) = next_line(self.0)?;
        self.0 = rest;
        Some(line)
    }
}
