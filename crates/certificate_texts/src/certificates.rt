//! A certificate as its lines spell it. The main type is `Certificate`.

use certificate_lines::Version;
use cnf::Proof;
use fair_semantics::{Kind, Use};
use items::Items;

/// An entry of a certificate as its lines spell it, in the order of the lines.
#[derive(Drop)]
pub struct Written {
    pub kind: Kind,
    /// The literals of each clause, as the model numbers them.
    pub clauses: Items<Items<u64>>,
    /// The entries that it uses, by their numbers from 0.
    pub uses: Items<Use>,
    /// The proof of each clause: its lines, without those that are skipped.
    pub proofs: Items<Proof>,
}

/// A certificate as its lines spell it: its entries, numbered from 0, and the refutation over them.
#[derive(Drop)]
pub struct Certificate {
    pub version: Version,
    pub entries: Items<Written>,
    /// The entries that the refutation uses, by their numbers.
    pub uses: Items<Use>,
    /// The proof of the refutation.
    pub proof: Proof,
}
