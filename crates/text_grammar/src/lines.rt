//! The lines of a text. The main calls are `cut_line`, which wants the line feed, and `next_line`.
ghost use Rattle.std.specs.Prelude.{◌≡◌, ◌∷◌, ◌<◌, [], length, IfSome, IfNone};
ghost use Rattle.text_grammar.specs.Lines.{IsLine, IsNextLine, lines_of};
ghost use Rattle.text_grammar.specs.Pieces.{Lacks};

use crate::pieces::cut_first;

/// The line in front of the first line feed, and what follows the line feed. `None` where there is
/// no line feed.
pub fn cut_line(bytes: &[u8]) -> Option<(&[u8], &[u8])>
    ensures found { IfSome result (λ x. IsLine x.0.now bytes.now x.1.now) }
    ensures none { IfNone result (Lacks bytes.now 10) }
{
    cut_first(bytes, b'\n')
}

/// The first line, and the text behind it; a line feed that is missing at the very end is read as
/// there. `None` where no line is left, which is at the end of the text.
pub fn next_line(bytes: &[u8]) -> Option<(&[u8], &[u8])>
    ensures found { IfSome result (λ x. lines_of bytes.now ≡ x.0.now ∷ lines_of x.1.now) }
    ensures stands { IfSome result (λ x. IsNextLine x.0.now bytes.now x.1.now) }
    ensures shorter { IfSome result (λ x. length x.1.now < length bytes.now) }
    ensures none { IfNone result (bytes.now ≡ []) }
{
    if bytes.is_empty() {
        return None;
    }
    match cut_line(bytes) {
        Some((line, rest)) => Some((line, rest)),
        None => Some((bytes, &[])),
    }
}
