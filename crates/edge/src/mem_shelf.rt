//! A shelf in memory, for tests: it tells its texts, gives few bytes at a time, and fails where it is told to.
ghost use Rattle.std.specs.Prelude.{ℕ, List, [], ◌≡◌, ◌-◌, ◌≤◌, ◌↔◌, min, length, take, drop, find, option_copied, string_bytes, IfOk, IsOk, IsErr, IsSome, is_err, if◌then◌else◌};
ghost use Rattle.std.specs.Str.{bytes_eq};
ghost use Rattle.edge.specs.Faults.{one_more, HasCause, NoneFell};
ghost use Rattle.edge.specs.Told.{IfTold};
ghost use Rattle.edge.specs.Reads.{GivesBytes, KeepsTexts};
ghost use Rattle.edge.specs.InMemory.{text_of, named_texts, counted_read, IsRefused, ReadsOnce};

use crate::failures::Failed;
use crate::reading::Shelf;
use std::marker::Model;

/// Named texts in memory. Its calls are numbered from 1.
#[derive(Drop)]
pub struct MemShelf {
    texts: Vec<(String, Vec<u8>)>,
    most: u64,
    failing: Vec<u64>,
    calls: u64,
    faults: u64,
}

impl Model for MemShelf {
    ghost use Rattle.std.specs.Prelude.{◌≤◌};
    ghost use Rattle.edge.specs.InMemory.{ShelfInMemory, named_texts};

    ghost Value = { ShelfInMemory };

    ghost view = { λ s. record {
      texts = named_texts s.texts.items;
      most = s.most;
      failing = s.failing.items;
      calls = s.calls;
      faults = s.faults;
    } };

    ghost invariant = { λ s. 1 ≤ s.most };
}

impl MemShelf {
    /// A shelf that holds these texts under their names, the first where a name comes twice.
    /// A call gives at most `most` bytes, and the calls whose numbers are in `failing` fail. Takes no memory.
    pub fn new(texts: Vec<(String, Vec<u8>)>, most: u64, failing: Vec<u64>) -> MemShelf
        requires { 1 ≤ most }
        ensures held { (name : List ℕ) → ⟦<MemShelf as Shelf>⟧.held result name ≡ text_of (named_texts texts.items) name }
        ensures state { result ≡ record {
          texts = named_texts texts.items;
          most = most;
          failing = failing.items;
          calls = 0;
          faults = 0;
        } }
    {
        MemShelf {
            texts,
            most,
            failing,
            calls: 0,
            faults: 0,
        }
    }
}

impl Shelf for MemShelf {
    ghost held = { λ s name. text_of s.texts name };

    ghost faults = { λ s _. s.faults };

    ghost reads = { λ old name _ _ failed new. ReadsOnce old name failed new };

    fn read_at(&mut self, name: &str, from: u64, buf: &mut [u8]) -> Result<usize, Failed>
        ensures bound { IfOk result (λ n. n ≤ length buf.new) }
        ensures bytes { IfOk result (λ n. IfTold (text_of self.old.texts name.now) (λ text. GivesBytes text from n buf.new)) }
        ensures kept { KeepsTexts (text_of self.old.texts) (text_of self.new.texts) }
        ensures cause { HasCause self.old.faults self.new.faults result }
        ensures others { NoneFell (λ _. self.old.faults) (λ _. self.new.faults) }
        ensures step { ReadsOnce self.old name.now (is_err result) self.new }

        // It fails at the calls that are to fail and at missing names, and at no others.
        ensures refused { IsErr result ↔ IsRefused self.old name.now }
        ensures ready { self.old.failing ≡ [] → IsSome (text_of self.old.texts name.now) → IsOk result }
        ensures amount { IfOk result (λ n. IfTold (text_of self.old.texts name.now)
            (λ text. n ≡ min self.old.most (min (length buf.new) (length text - from)))) }
        ensures counted { self.new ≡ counted_read self.old (is_err result) }
    {
        self.calls = self.calls.saturating_add(1);
        if !self.failing.contains(&self.calls) {
            if let Some(text) = find_text(&self.texts, name) {
                return Ok(copy_part(text, from, self.most, buf));
            }
        }
        self.faults = self.faults.saturating_add(1);
        Err(Failed)
    }
}

/// The first text with that name.
fn find_text<'a>(texts: &'a [(String, Vec<u8>)], name: &str) -> Option<&'a [u8]>
    ensures { option_copied result ≡ text_of (named_texts texts.now) name.now }
{
    let pair = find_pair(texts, name)?;
    Some(pair.1.as_slice())
}

/// The first pair with that name.
fn find_pair<'a>(texts: &'a [(String, Vec<u8>)], name: &str) -> Option<&'a (String, Vec<u8>)>
    ensures { option_copied result ≡ find (λ pair. bytes_eq (string_bytes pair.0) name.now) texts.now }
{
    texts.iter().find(|pair| pair.0.as_str() == name)
}

/// Copies the bytes of the text from the place `from` on to the front of the buffer, at most `most`, and says how many.
fn copy_part(text: &[u8], from: u64, most: u64, buf: &mut [u8]) -> usize
    ensures amount { result ≡ min most (min (length buf.old) (length text.now - from)) }
    ensures given { take result buf.new ≡ take result (drop from text.now) }
{
    let start = from.min(text.len() as u64) as usize;
    let rest = &text[start..];
    let count = most.min(rest.len().min(buf.len()) as u64) as usize;
    buf[..count].copy_from_slice(&rest[..count]);
    count
}
