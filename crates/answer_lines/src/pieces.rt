//! Pieces of a text: how one is read, and how one is cut at a line feed.
ghost use Rattle.std.specs.Prelude.{◌≡◌, ◌+◌, ◌<◌, ◌≤◌, ◌++◌, length, take, drop, false, IfOk, OnOk, OnErr, IfSome, IfNone, is_err, vec_len};
ghost use Rattle.edge.specs.Faults.{Rose, HasCause, NoneFell};
ghost use Rattle.edge.specs.Told.{IfTold};
ghost use Rattle.edge.specs.Reads.{GivesBytes, KeepsTexts, ReadsSomewhere};
ghost use Rattle.text_grammar.specs.Lines.{IsLine};
ghost use Rattle.text_grammar.specs.Pieces.{Lacks};
ghost use Rattle.answer_lines.specs.LinesOf.{front_of};

use edge::{Failed, Shelf};
use std::alloc::{AllocError, Global};
use text_grammar::cut_line;

/// How many bytes are asked for at a time.
pub(crate) const PIECE: usize = 4096;

/// A piece of zeros.
pub(crate) fn zeros(alloc: Global) -> Result<Vec<u8>, AllocError>
    ensures { IfOk result (λ zeros. vec_len zeros ≡ 4096) }
{
    vec![in alloc; 0u8; PIECE]
}

/// Reads at most `room` bytes of a text from the place `from` on to the front of the piece, and says how many.
pub(crate) fn read_piece<H: Shelf>(
    shelf: &mut H,
    name: &str,
    from: u64,
    piece: &mut [u8],
    room: usize,
) -> Result<usize, Failed>
    requires some { 0 < room }
    requires room { room ≤ length piece.old }
    ensures bound { IfOk result (λ n. n ≤ room) }
    ensures length { length piece.new ≡ length piece.old }
    ensures bytes { IfOk result (λ n. IfTold (H.held shelf.old name.now) (λ text. GivesBytes text from n piece.new)) }
    ensures kept { KeepsTexts (H.held shelf.old) (H.held shelf.new) }
    ensures cause { HasCause (H.faults shelf.old name.now) (H.faults shelf.new name.now) result }
    ensures others { NoneFell (H.faults shelf.old) (H.faults shelf.new) }
    ensures step { ReadsSomewhere H.reads name.now (is_err result) shelf.old shelf.new }
{
    shelf.read_at(name, from, &mut piece[..room])
}

/// The same over the whole piece.
pub(crate) fn read_into<H: Shelf>(
    shelf: &mut H,
    name: &str,
    from: u64,
    piece: &mut Vec<u8>,
    room: usize,
) -> Result<usize, Failed>
    requires some { 0 < room }
    requires room { room ≤ vec_len piece.old }
    ensures bound { IfOk result (λ n. n ≤ room) }
    ensures length { length piece.new.items ≡ length piece.old.items }
    ensures bytes { IfOk result (λ n. IfTold (H.held shelf.old name.now)
        (λ text. GivesBytes text from n piece.new.items)) }
    ensures kept { KeepsTexts (H.held shelf.old) (H.held shelf.new) }
    ensures cause { HasCause (H.faults shelf.old name.now) (H.faults shelf.new name.now) result }
    ensures others { NoneFell (H.faults shelf.old) (H.faults shelf.new) }
    ensures step { ReadsSomewhere H.reads name.now (is_err result) shelf.old shelf.new }
{
    read_piece(shelf, name, from, piece, room)
}

/// Adds to a line what stands in front of the first line feed, and says how many bytes those are. `None` where there
/// is no line feed: then nothing is added.
pub(crate) fn add_front(line: &mut Vec<u8>, rest: &[u8]) -> Result<Option<usize>, AllocError>
    ensures found { IfOk result (λ cut. IfSome cut (λ n. IsLine (take n rest.now) rest.now (drop (n + 1) rest.now))) }
    ensures added { IfOk result (λ cut. IfSome cut (λ n. line.new.items ≡ line.old.items ++ take n rest.now)) }
    ensures inside { IfOk result (λ cut. IfSome cut (λ n. n < length rest.now)) }
    ensures none { IfOk result (λ cut. IfNone cut (Lacks rest.now 10)) }
    ensures same { IfOk result (λ cut. IfNone cut (line.new.items ≡ line.old.items)) }
    ensures refused { OnErr result (line.new.items ≡ line.old.items) }
{
    let Some((front, _)) = cut_line(rest) else {
        return Ok(None);
    };
    line.extend_from_slice(front)?;
    Ok(Some(front.len()))
}

/// Lets go of the line, where it was given.
pub(crate) fn forget(line: &mut Vec<u8>, given: &mut bool)
    ensures front { line.new.items ≡ front_of given.old line.old.items }
    ensures given { given.new ≡ false }
{
    if *given {
        line.clear();
        *given = false;
    }
}

/// Adds the rest of a piece to the front of the next line.
pub(crate) fn hold(line: &mut Vec<u8>, given: &mut bool, rest: &[u8]) -> Result<(), AllocError>
    ensures ok { OnOk result (line.new.items ≡ front_of given.old line.old.items ++ rest.now) }
    ensures err { OnErr result (line.new.items ≡ front_of given.old line.old.items) }
    ensures given { given.new ≡ false }
{
    forget(line, given);
    line.extend_from_slice(rest)
}
