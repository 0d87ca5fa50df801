//! The symbols and the comment of a model.

use items::Items;

/// The letter of a symbol that names an input.
pub const INPUT: u8 = b'i';
/// The letter of a symbol that names a latch.
pub const LATCH: u8 = b'l';
/// The letter of a symbol that names an output.
pub const OUTPUT: u8 = b'o';
/// The letter of a symbol that names a bad state literal.
pub const BAD: u8 = b'b';
/// The letter of a symbol that names a constraint, and the byte that opens a comment.
pub const CONSTRAINT: u8 = b'c';
/// The letter of a symbol that names a justice property.
pub const JUSTICE: u8 = b'j';
/// The letter of a symbol that names a fairness literal.
pub const FAIRNESS: u8 = b'f';

/// The name of an element of one of a model's lists.
#[derive(Drop)]
pub struct Symbol {
    /// Which list: one of the seven letters of this module.
    pub letter: u8,
    /// The place in that list, from 0.
    pub index: u64,
    /// At least one byte, none of them a line feed.
    pub name: Items<u8>,
}

/// The symbols in the order of the file, and the bytes of the comment behind its `c`, if there is one.
#[derive(Drop)]
pub struct Names {
    pub symbols: Items<Symbol>,
    pub comment: Option<Items<u8>>,
}

/// How many elements each of a model's lists has, by the letter of its symbols.
#[derive(Clone, Copy)]
pub struct Counts {
    /// Inputs.
    pub i: u64,
    /// Latches.
    pub l: u64,
    /// Outputs.
    pub o: u64,
    /// Bad state literals.
    pub b: u64,
    /// Constraints.
    pub c: u64,
    /// Justice properties.
    pub j: u64,
    /// Fairness literals.
    pub f: u64,
}
