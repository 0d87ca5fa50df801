//! Shelves, by the texts that they hold under their names and by their counts of faults.
//! The main call is `read_text`, which reads a text whole, however little a shelf gives at a time.
ghost use Rattle.std.specs.Prelude.{ℕ, Bool, List, Option, ◌≡◌, ◌+◌, ◌^◌, ◌<◌, ◌≤◌, ◌++◌, length, take, IfOk, IsErrOf, is_err, vec_len};
ghost use Rattle.edge.specs.Faults.{Rose, HasCause, NoneFell};
ghost use Rattle.edge.specs.Told.{IfTold};
ghost use Rattle.edge.specs.Reads.{GivesBytes, KeepsTexts, Within, Reads, has_failed};

use crate::failures::Failed;
use std::alloc::{AllocError, Global};
use thiserror::Error;

/// What texts are read from, by their names.
pub trait Shelf {
    // The bytes that it holds under a name, where it tells them.
    ghost held: { Self → List ℕ → Option (List ℕ) };

    // A count of failed reads for each name; a shelf may keep one count for all its names. A count never falls, and
    // stands still at 2^64 - 1.
    ghost faults: { Self → List ℕ → ℕ };

    // What a read of a name, from a place into so many bytes, which failed or did not, makes of the shelf. In code over any
    // shelf nothing else gives this.
    ghost reads: { Self → List ℕ → ℕ → ℕ → Bool → Self → Type 0 };

    /// Reads bytes of the text of a name, from the place `from` on, into the front of `buf`, and says how many.
    /// 0 bytes into a buffer that is not empty mean the end of the text. A missing name is a failure.
    fn read_at(&mut self, name: &str, from: u64, buf: &mut [u8]) -> Result<usize, Failed>
        ensures bound { IfOk result (λ n. n ≤ length buf.new) }
        ensures bytes { IfOk result (λ n. IfTold (held self.old name.now) (λ text. GivesBytes text from n buf.new)) }
        ensures kept { KeepsTexts (held self.old) (held self.new) }
        ensures cause { HasCause (faults self.old name.now) (faults self.new name.now) result }
        ensures others { NoneFell (faults self.old) (faults self.new) }
        ensures step { reads self.old name.now from (length buf.old) (is_err result) self.new };
}

/// Why a text was not read.
#[derive(Debug, Clone, Copy, PartialEq, Eq, Error)]
pub enum ReadEnd {
    /// A read failed.
    #[error("a read failed")]
    Failed,
    /// Memory ran out.
    #[error("memory was refused")]
    Memory,
}

impl From<Failed> for ReadEnd {
    ghost use Rattle.std.specs.Prelude.{◌≡◌};
    ghost use Rattle.edge.specs.declared.reading.ReadEnd.TheVariants.{Failed};

    ghost from_gives = { λ _ end. end ≡ Failed };

    fn from(_failed: Failed) -> ReadEnd {
        ReadEnd::Failed
    }
}

impl From<AllocError> for ReadEnd {
    ghost use Rattle.std.specs.Prelude.{◌≡◌};
    ghost use Rattle.edge.specs.declared.reading.ReadEnd.TheVariants.{Memory};

    ghost from_gives = { λ _ end. end ≡ Memory };

    fn from(_refused: AllocError) -> ReadEnd {
        ReadEnd::Memory
    }
}

/// How many bytes `read_text` asks for at a time.
const CHUNK: u64 = 65536;

/// Reads the text of a name from its start to its end, or to the byte after the first `limit` bytes, and no further.
/// A result longer than `limit` means that the text is longer than that.
pub fn read_text<H: Shelf>(
    alloc: Global,
    shelf: &mut H,
    name: &str,
    limit: u64,
) -> Result<Vec<u8>, ReadEnd>
    requires { limit < 2 ^ 63 }
    // The text where it has at most `limit` bytes, and else its first `limit + 1` bytes.
    ensures text { IfOk result (λ read. IfTold (H.held shelf.old name.now) (λ text. read.items ≡ take (limit + 1) text)) }
    ensures bound { IfOk result (λ read. vec_len read ≤ limit + 1) }
    ensures failed { IsErrOf result ReadEnd.Failed → Rose (H.faults shelf.old name.now) (H.faults shelf.new name.now) }
    ensures counts { NoneFell (H.faults shelf.old) (H.faults shelf.new) }
    ensures kept { KeepsTexts (H.held shelf.old) (H.held shelf.new) }
    // Nothing is read but this name, nothing of it behind the byte after the limit, and nothing after a failed read, which is
    // answered.
    ensures reads { Reads (Within (limit + 1) H.reads) name.now (has_failed result) shelf.old shelf.new }
{
    let mut chunk = zeros(alloc, CHUNK as usize)?;
    let mut text = Vec::new(alloc);
    while text.len() as u64 <= limit {
        let room = CHUNK.min(limit + 1 - text.len() as u64) as usize;
        let count = read_more(shelf, name, &mut chunk[..room], &mut text)?;
        if count == 0 {
            break;
        }
    }
    Ok(text)
}

/// Reads on in a text of which `front` holds the front: as many bytes as the shelf gives into `room`.
/// Adds them to `front` and says how many they are: none means the end of the text.
fn read_more<H: Shelf>(
    shelf: &mut H,
    name: &str,
    room: &mut [u8],
    front: &mut Vec<u8>,
) -> Result<usize, ReadEnd>
    ensures bound { IfOk result (λ n. n ≤ length room.old) }
    ensures bytes { IfOk result (λ n. IfTold (H.held shelf.old name.now) (λ text. GivesBytes text (vec_len front.old) n room.new)) }
    ensures added { IfOk result (λ n. front.new.items ≡ front.old.items ++ take n room.new) }
    ensures kept { KeepsTexts (H.held shelf.old) (H.held shelf.new) }
    ensures failed { IsErrOf result ReadEnd.Failed → Rose (H.faults shelf.old name.now) (H.faults shelf.new name.now) }
    ensures counts { NoneFell (H.faults shelf.old) (H.faults shelf.new) }
    ensures step { H.reads shelf.old name.now (vec_len front.old) (length room.old) (has_failed result) shelf.new }
{
    let count = shelf.read_at(name, front.len() as u64, room)?;
    front.extend_from_slice(&room[..count])?;
    Ok(count)
}

/// A buffer of that length.
fn zeros(alloc: Global, len: usize) -> Result<Vec<u8>, AllocError>
    ensures { IfOk result (λ zeros. vec_len zeros ≡ len) }
{
    vec![in alloc; 0u8; len]
}
