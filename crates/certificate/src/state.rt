//! Where the reading of an answer stands. The main type is `State`, which other texts that have runs or entries go on from too.

use aig_semantics::Stimulus;
use certificate_lines::{Opening, Refutation, Version};
use cnf_unroll::ClauseSet;
use entry::{Judge, LatchNumbers, Listed};
use fair_semantics::{Kind, Use};
use items::Items;
use lrat::Checker;
use proof_semantics::Lit;

/// What the refutation of a certificate refutes.
#[derive(Clone, Copy)]
pub enum Refuted {
    /// Skeletons of the property.
    Skeletons,
    /// States that have this literal over latch numbers. No wall stands before such a refutation.
    States(Lit),
}

/// What was read of a certificate. The judge keeps the circuit's clauses, and latches are found by their variables.
#[derive(Drop)]
pub struct Body {
    pub property: u32,
    pub version: Version,
    pub refuted: Refuted,
    pub list: Items<Listed>,
    pub(crate) judge: Judge,
    pub(crate) latches: LatchNumbers,
}

/// An entry of which some clauses were read, of so many that it has.
#[derive(Drop)]
pub struct Begun {
    pub(crate) kind: Kind,
    pub(crate) uses: Items<Use>,
    pub(crate) set: ClauseSet,
    pub(crate) count: u64,
}

/// A proof of which some lines were read, of so many that it has. The body's judge keeps where it stands, or a checker does
/// that is handed on with it.
#[derive(Drop, Clone, Copy)]
pub struct Proving {
    pub(crate) count: u64,
    pub(crate) read: u64,
}

/// What the next line of a certificate has to be.
#[derive(Drop)]
pub enum Wanted {
    /// The first line of an entry, or of the refutation.
    Start,
    /// The uses of an entry with this first line.
    EntryUses(Opening),
    /// The next clause of the entry.
    EntryClause(Begun),
    /// The first line of the proof of the clause with this number.
    EntryProof(Listed, u64),
    /// The next line of that proof.
    EntryLine(Listed, u64, Proving),
    /// The uses of the refutation.
    RefutationUses(Refutation),
    /// The next line of its proof, where it refutes skeletons.
    RefutationLine(Proving),
    /// The next line of its proof, where it refutes states: the checker has what was read of it.
    StateLine(Checker, Proving),
    /// The line `end`.
    Last,
}

/// What the status claims.
#[derive(Clone, Copy)]
pub enum Claim {
    /// A fair lasso.
    HasLasso,
    /// That there is none.
    HasNone,
}

/// What the next line of an answer has to be.
#[derive(Drop)]
pub enum State {
    /// The status.
    Status,
    /// The line of the property.
    Property(Claim),
    /// The values of the latches, of a stimulus for this property.
    Latches(u32),
    /// The values of the inputs at the next position, or the dot.
    Rows(u32, Stimulus),
    /// Nothing, behind the dot.
    Dotted(u32, Stimulus),
    /// The version, of a certificate of this property.
    Versioned(u32),
    /// A line of the certificate.
    Certified(Body, Wanted),
    /// Nothing, behind the end.
    Ended(Body),
}
