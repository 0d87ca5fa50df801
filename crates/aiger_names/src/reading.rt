//! Symbols and the comment, read. The main call is `read_names`.

ghost use Rattle.std.specs.Prelude.{◌≡◌, ◌≤◌, length, drop, IfOk, option_map, Ok, Err};
ghost use Rattle.unless_memory.specs.Answers.{Gives, GivesExactlyWhere};
ghost use Rattle.aiger_grammar.specs.declared.names.Names.{Names as NamesOf};
ghost use Rattle.aiger_grammar.specs.Names.{count_of, is_letter, ends_symbols, line_at, symbol_at, symbols_at, comment_at, names_at, fault_at, AreNames, HasNamesFault};
ghost use Rattle.text_grammar.specs.Numerals.{begins_with_digit};
ghost use Rattle.aiger_grammar.specs.Reading.{answer_of};
ghost use Rattle.aiger_grammar.specs.Answered.{GivesRead};
ghost use Rattle.aiger_names.specs.Steps.{symbol_from, symbol_or_fault};

use aig_semantics::MAX_NUMBER;
use aiger_grammar::{
    BAD, CONSTRAINT, Counts, FAIRNESS, INPUT, JUSTICE, LATCH, Names, OUTPUT, Symbol,
};
use circuit::{ModelEnd, ModelFault};
use items::Items;
use std::alloc::{AllocError, Global};
use text_grammar::{cut_line, read_number};

/// The symbols and the comment that stand in `bytes` from the place `from` on, to their end, where the lists have so
/// many elements as `counts` says. Places are counted from 0. The faults are `Trailing`, at the first byte of a line
/// that is none of `i l o b c j f`, and `Symbol`, at the first byte of a line that is no symbol of an element that is
/// there, or that the text's end cuts. A `c` at the beginning of a line that no digit follows opens the comment.
pub fn read_names(
    alloc: Global,
    bytes: &[u8],
    from: u64,
    counts: &Counts,
) -> Result<Names, ModelEnd>
    requires { from ≤ length bytes.now }

    ensures found { IfOk result (λ names. AreNames counts.now names (drop from bytes.now)) }
    ensures every { (names : NamesOf) → AreNames counts.now names (drop from bytes.now)
        → Gives (Err ModelEnd.Memory) (Ok names) result }
    ensures fault { (fault : ModelFault) → GivesExactlyWhere (Err ModelEnd.Memory) (Err (ModelEnd.Fault fault))
        (HasNamesFault counts.now (length bytes.now) (drop from bytes.now) fault) result }
    ensures exact { Gives (Err ModelEnd.Memory)
        (answer_of (names_at counts.now (length bytes.now) (drop from bytes.now))) result }
{
    let (_, names) = bytes.split_at(from as usize);
    read_last_names(alloc, bytes.len(), names, counts)
}

/// The same for `bytes`, the last ones of a text of `total` bytes.
#[tactic(auto, unfolding(aiger_grammar::specs::Names::names_at))]
pub fn read_last_names(
    alloc: Global,
    total: usize,
    bytes: &[u8],
    counts: &Counts,
) -> Result<Names, ModelEnd>
    ensures { GivesRead (λ names. names) result (names_at counts.now total bytes.now) }
{
    let (symbols, rest) = read_symbols(alloc, total, bytes, counts)?;
    let comment = comment_of(alloc, rest)?;
    Ok(Names { symbols, comment })
}

// The comment that such an end is.
fn comment_of(alloc: Global, bytes: &[u8]) -> Result<Option<Items<u8>>, AllocError>
    ensures { IfOk result (λ comment. comment ≡ comment_at bytes.now) }
{
    match bytes {
        [] => Ok(None),
        [_, text @ ..] => Ok(Some(Items::from_slice(alloc, text)?)),
    }
}

// The symbols at the front, and what stands behind them.
fn read_symbols<'a>(
    alloc: Global,
    total: usize,
    bytes: &'a [u8],
    counts: &Counts,
) -> Result<(Items<Symbol>, &'a [u8]), ModelEnd>
    ensures { GivesRead (λ x. (x.0, x.1.now)) result (symbols_at (length bytes.now) counts.now total bytes.now) }
{
    let mut symbols = Items::new(alloc);
    let mut rest = bytes;
    for _ in 0..bytes.len() {
        if symbols_end(rest) {
            return Ok((symbols, rest));
        }
        let (symbol, behind) = symbol_of(alloc, total, rest, counts)?;
        symbols.push(symbol)?;
        rest = behind;
    }
    Ok((symbols, rest))
}

// Whether the text ends here, or the comment begins.
fn symbols_end(bytes: &[u8]) -> bool
    ensures { result ≡ ends_symbols bytes.now }
{
    match bytes {
        [] => true,
        [byte, text @ ..] => *byte == CONSTRAINT && !begins_with_digit(text),
    }
}

fn begins_with_digit(text: &[u8]) -> bool
    ensures { result ≡ begins_with_digit text.now }
{
    match text {
        [] => false,
        [byte, ..] => byte.is_ascii_digit(),
    }
}

// The symbol whose line is at the front, and what stands behind it.
fn symbol_of<'a>(
    alloc: Global,
    total: usize,
    bytes: &'a [u8],
    counts: &Counts,
) -> Result<(Symbol, &'a [u8]), ModelEnd>
    ensures { GivesRead (λ x. (x.0, x.1.now)) result (symbol_or_fault counts.now total bytes.now) }
{
    match cut_symbol(bytes, counts) {
        Some((letter, index, name, rest)) => {
            let name = Items::from_slice(alloc, name)?;
            Ok((
                Symbol {
                    letter,
                    index,
                    name,
                },
                rest,
            ))
        }
        None => Err(ModelEnd::Fault(fault_of(total, bytes))),
    }
}

// The fault where no symbol stands.
fn fault_of(total: usize, bytes: &[u8]) -> ModelFault
    ensures { result ≡ fault_at total bytes.now }
{
    let place = total.saturating_sub(bytes.len()) as u64;
    match bytes {
        [byte, ..] if is_letter(*byte) => ModelFault::Symbol(place),
        _ => ModelFault::Trailing(place),
    }
}

// A symbol's letter, index and name, where its line is at the front, and what stands behind it.
#[tactic(auto, unfolding(aiger_grammar::specs::Names::symbol_at, aiger_grammar::specs::Names::indexed_at, aiger_grammar::specs::Names::spaced_at, aiger_grammar::specs::Names::named_at))]
fn cut_symbol<'a>(bytes: &'a [u8], counts: &Counts) -> Option<(u8, u64, &'a [u8], &'a [u8])>
    ensures { option_map (λ x. symbol_from x.0 x.1 x.2.now x.3.now) result ≡ symbol_at counts.now bytes.now }
{
    let [letter, at_index @ ..] = bytes else {
        return None;
    };
    let (index, at_space) = read_number(at_index, MAX_NUMBER)?;
    let [b' ', at_name @ ..] = at_space else {
        return None;
    };
    let (name, rest) = line_of(at_name)?;
    if index < count_of(counts, *letter) && !name.is_empty() {
        return Some((*letter, index, name, rest));
    }
    None
}

// The bytes in front of the first line feed, and those behind it.
#[tactic(auto, using(aiger_grammar::proofs::Symbols::line_again, aiger_grammar::proofs::Symbols::line_none))]
fn line_of(bytes: &[u8]) -> Option<(&[u8], &[u8])>
    ensures { option_map (λ x. (x.0.now, x.1.now)) result ≡ line_at bytes.now }
{
    cut_line(bytes)
}

// How many elements the list has that a symbol's letter names.
fn count_of(counts: &Counts, letter: u8) -> u64
    ensures { result ≡ count_of counts.now letter }
{
    match letter {
        INPUT => counts.i,
        LATCH => counts.l,
        OUTPUT => counts.o,
        BAD => counts.b,
        CONSTRAINT => counts.c,
        JUSTICE => counts.j,
        FAIRNESS => counts.f,
        _ => 0,
    }
}

fn is_letter(byte: u8) -> bool
    ensures { result ≡ is_letter byte }
{
    matches!(
        byte,
        INPUT | LATCH | OUTPUT | BAD | CONSTRAINT | JUSTICE | FAIRNESS
    )
}
