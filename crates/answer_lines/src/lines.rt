//! The lines of a text, one by one. The main call is `Lines::next`.
ghost use Rattle.std.specs.Prelude.{◌≡◌, ◌≢◌, ◌↔◌, ◌+◌, ◌-◌, ◌<◌, ◌≤◌, [], ◌++◌, true, false, length, IfOk, OnErr, IsErrOf, IsTrue, IsFalse};
ghost use Rattle.edge.specs.Faults.{Rose, NoneFell};
ghost use Rattle.edge.specs.Told.{IfTold};
ghost use Rattle.edge.specs.Reads.{KeepsTexts, Reads};
ghost use Rattle.text_grammar.specs.Lines.{IsLine, lines_of};
ghost use Rattle.text_grammar.specs.Pieces.{Lacks};
ghost use Rattle.answer_lines.specs.Left.{at_start, left_of, given_line, most_bytes, IsTooLong, StaysLeft, Took, is_read_fault};
ghost use Rattle.answer_lines.specs.LinesOf.{SameLeft};

use crate::ends::LinesEnd;
use crate::pieces::{PIECE, add_front, forget, hold, read_into, zeros};
use edge::Shelf;
use std::alloc::{AllocError, Global};
use std::marker::Model;

/// The greatest place at which a read begins, in bytes from the start of the text.
const MOST_BYTES: u64 = 9_223_372_036_854_775_807;

/// A place between the lines of a text. It holds the line that was given last, or the front of the next one, and a
/// piece of the text, so its memory grows with the longest line and not with the text.
#[derive(Drop)]
pub struct Lines {
    // The line that was given last, or else the front of the next one.
    line: Vec<u8>,
    given: bool,
    // The text's end, and no line feed, ended the line that was given last.
    last: bool,
    // The last piece that was read. What follows `line` in it stands from `start` to `end`.
    piece: Vec<u8>,
    start: usize,
    end: usize,
    // Where the next piece begins.
    place: u64,
}

impl Model for Lines {
    ghost use Rattle.answer_lines.specs.Left.{Reading};

    ghost Value = { Reading };

    ghost use Rattle.answer_lines.specs.LinesOf.{reading_of, IsKept};

    ghost view = { reading_of };

    ghost invariant = { IsKept };
}

impl Lines {
    /// Stands before the first line of a text. Takes memory for a piece of 4,096 bytes, and reads nothing.
    pub fn new(alloc: Global) -> Result<Lines, AllocError>
        ensures { IfOk result (λ lines. lines ≡ at_start) }
    {
        Ok(Lines {
            line: Vec::new(alloc),
            given: false,
            last: false,
            piece: zeros(alloc)?,
            start: 0,
            end: 0,
            place: 0,
        })
    }

    /// The line that was given last, without its line feed; where the last call gave none, any bytes. Takes no memory.
    pub fn line(&self) -> &[u8]
        ensures { result.now ≡ self.now.line }
    {
        &self.line
    }

    /// Whether the text's end, and no line feed, ended the line that was given last. Behind such a line there is none.
    pub fn is_last(&self) -> bool
        ensures { result ≡ self.now.last }
    {
        self.last
    }

    /// Reads the next line of the text of a name, and says whether there was one: none means the end of the text. A
    /// line feed that is missing at the very end of the text is read as there. Reads pieces of at most 4,096 bytes, and
    /// none where the line is in hand. The shelf and the name are meant to be the same at each call.
    pub fn next<H: Shelf>(&mut self, shelf: &mut H, name: &str) -> Result<bool, LinesEnd>
        // The line and those of what is left now are the lines of what was left.
        ensures line { IfOk result (λ given. IfTold (H.held shelf.old name.now)
            (λ text. lines_of (left_of self.old text)
            ≡ given_line given self.new.line ++ lines_of (left_of self.new text))) }
        // None is given exactly at the end of the text.
        ensures end { IfOk result (λ given. IfTold (H.held shelf.old name.now)
            (λ text. IsFalse given ↔ (left_of self.old text ≡ []))) }
        // A line has at least one byte, its line feed counted, and no more bytes are given than may be.
        ensures later { IfOk result (λ given. IsTrue given → self.old.taken < self.new.taken) }
        ensures size { IfOk result (λ given. IsTrue given → self.old.taken + length self.new.line ≤ self.new.taken) }
        ensures most { self.new.taken ≤ most_bytes }
        // What is taken and what is left are together as long as before, whatever is answered: as long as the text,
        // where it is read from its start. So the limit is one on bytes of the text.
        ensures sum { IfTold (H.held shelf.old name.now)
            (λ text. self.new.taken + length (left_of self.new text)
            ≡ self.old.taken + length (left_of self.old text)) }
        // A line feed ended the line, or the text's end did, and then the line is all that was left.
        ensures took { IfOk result (λ given. IsTrue given → Took (H.held shelf.old name.now) self.old self.new) }
        // No line has a line feed, also where the text is not told.
        ensures plain { IfOk result (λ given. IsTrue given → Lacks self.new.line 10) }
        // Behind a given line no more than the rest of a piece is in hand.
        ensures hand { IfOk result (λ given. IsTrue given → length self.new.ahead ≤ 4096) }
        // Too long exactly where no line ends within the bytes that may be given, refused memory and failed reads aside.
        ensures too_long { IsErrOf result LinesEnd.TooLong → IfTold (H.held shelf.old name.now)
            (λ text. IsTooLong (most_bytes - self.old.taken) (left_of self.old text)) }
        ensures within { IfOk result (λ _. IfTold (H.held shelf.old name.now)
            (λ text. ¬ (IsTooLong (most_bytes - self.old.taken) (left_of self.old text)))) }
        // Where no line is given, what is left stays, and so does what is known of the line that was given last.
        ensures stays { OnErr result (StaysLeft (H.held shelf.old name.now) self.old self.new) }
        ensures stays_end { IfOk result (λ given. IsFalse given
            → StaysLeft (H.held shelf.old name.now) self.old self.new) }
        ensures failed { IsErrOf result LinesEnd.ReadFault
            → Rose (H.faults shelf.old name.now) (H.faults shelf.new name.now) }
        ensures counts { NoneFell (H.faults shelf.old) (H.faults shelf.new) }
        ensures kept { KeepsTexts (H.held shelf.old) (H.held shelf.new) }
        // Nothing is read but this name, and nothing after a failed read, which is answered.
        ensures reads { Reads H.reads name.now (is_read_fault result) shelf.old shelf.new }
        // Nothing is read where the line is in hand.
        ensures in_hand { ¬ (Lacks self.old.ahead 10) → shelf.new ≡ shelf.old }
    {
        while !self.cut()? {
            if !self.read_on(shelf, name)? {
                return Ok(self.end_line()?);
            }
        }
        Ok(true)
    }

    /// Gives the line in hand that a line feed ends, if there is one.
    fn cut(&mut self) -> Result<bool, AllocError>
        ensures found { IfOk result (λ found. IsTrue found → IsLine self.new.line self.old.ahead self.new.ahead) }
        ensures taken { IfOk result (λ found. IsTrue found → self.new.taken ≡ self.old.taken + length self.new.line + 1) }
        ensures hand { IfOk result (λ found. IsTrue found → length self.new.ahead ≤ 4096) }
        ensures goes_on { IfOk result (λ found. IsTrue found → self.new.last ≡ false) }
        ensures none { IfOk result (λ found. IsFalse found → Lacks self.old.ahead 10) }
        ensures same { IfOk result (λ found. IsFalse found → SameLeft self.old self.new) }
        ensures refused { OnErr result (SameLeft self.old self.new) }
        ensures most { self.new.taken + length self.new.ahead ≤ most_bytes }
    {
        forget(&mut self.line, &mut self.given);
        let Some(n) = add_front(&mut self.line, &self.piece[self.start..self.end])? else {
            return Ok(false);
        };
        self.start += n + 1;
        self.given = true;
        self.last = false;
        Ok(true)
    }

    /// Reads on behind what is in hand, and says whether the text goes on there. The condition is that no line feed is
    /// in hand.
    fn read_on<H: Shelf>(&mut self, shelf: &mut H, name: &str) -> Result<bool, LinesEnd>
        requires { Lacks self.old.ahead 10 }
        ensures taken { self.new.taken ≡ self.old.taken }
        ensures left { IfTold (H.held shelf.old name.now) (λ text. left_of self.new text ≡ left_of self.old text) }
        ensures last { self.new.last ≡ self.old.last }
        ensures more { IfOk result (λ more. IsTrue more → length self.old.ahead < length self.new.ahead) }
        ensures same { IfOk result (λ more. IsFalse more → self.new.ahead ≡ self.old.ahead) }
        ensures end { IfOk result (λ more. IsFalse more → IfTold (H.held shelf.old name.now)
            (λ text. left_of self.old text ≡ self.old.ahead)) }
        ensures too_long { IsErrOf result LinesEnd.TooLong → IfTold (H.held shelf.old name.now)
            (λ text. length self.old.ahead < length (left_of self.old text)) }
        ensures full { IsErrOf result LinesEnd.TooLong → self.old.taken + length self.old.ahead ≡ most_bytes }
        ensures most { self.new.taken + length self.new.ahead ≤ most_bytes }
        ensures failed { IsErrOf result LinesEnd.ReadFault
            → Rose (H.faults shelf.old name.now) (H.faults shelf.new name.now) }
        ensures counts { NoneFell (H.faults shelf.old) (H.faults shelf.new) }
        ensures kept { KeepsTexts (H.held shelf.old) (H.held shelf.new) }
        ensures reads { Reads H.reads name.now (is_read_fault result) shelf.old shelf.new }
    {
        hold(
            &mut self.line,
            &mut self.given,
            &self.piece[self.start..self.end],
        )?;
        self.start = self.end;
        let room = room_at(self.place);
        let n = read_into(shelf, name, self.place, &mut self.piece, room)?;
        if n as u64 > MOST_BYTES - self.place {
            return Err(LinesEnd::TooLong);
        }
        self.start = 0;
        self.end = n;
        self.place += n as u64;
        Ok(n > 0)
    }

    /// Gives what is in hand at the end of the text, if there is a byte. The condition is that no line feed is in hand.
    fn end_line(&mut self) -> Result<bool, AllocError>
        requires { Lacks self.old.ahead 10 }
        ensures line { IfOk result (λ some. IsTrue some → self.new.line ≡ self.old.ahead) }
        ensures some { IfOk result (λ some. IsTrue some → self.old.ahead ≢ []) }
        ensures taken { IfOk result (λ some. self.new.taken ≡ self.old.taken + length self.old.ahead) }
        ensures none { IfOk result (λ some. IsFalse some → self.old.ahead ≡ []) }
        ensures ahead { IfOk result (λ _. self.new.ahead ≡ []) }
        ensures last { IfOk result (λ some. IsTrue some → self.new.last ≡ true) }
        ensures same_last { IfOk result (λ some. IsFalse some → self.new.last ≡ self.old.last) }
        ensures refused { OnErr result (SameLeft self.old self.new) }
        ensures most { self.new.taken + length self.new.ahead ≤ most_bytes }
    {
        hold(
            &mut self.line,
            &mut self.given,
            &self.piece[self.start..self.end],
        )?;
        self.start = self.end;
        self.given = !self.line.as_slice().is_empty();
        self.last |= self.given;
        Ok(self.given)
    }
}

/// How many bytes are read at a place: one even where no more are within, to tell whether the text goes on.
fn room_at(place: u64) -> usize
    requires { place ≤ most_bytes }
    ensures some { 0 < result }
    ensures most { result ≤ 4096 }
    ensures within { place < most_bytes → place + result ≤ most_bytes }
    ensures one { place ≡ most_bytes → result ≡ 1 }
{
    let left = (MOST_BYTES - place).min(PIECE as u64) as usize;
    left.max(1)
}
