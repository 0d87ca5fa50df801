//! A certificate, taken out of the lines of an answer. The main call is `take_certificate`.

ghost use Rattle.std.specs.Prelude.{◌≡◌, ◌<◌, ◌≤◌, ◌^◌, option_and_then};
ghost use Rattle.certificate_lines.specs.Words.{word_line_of};
ghost use Rattle.certificate_lines.specs.Uses.{uses_of};
ghost use Rattle.certificate_lines.specs.Clauses.{clause_of};
ghost use Rattle.certificate_texts.specs.Taking.{Taker, Takes, many, line_at, with_rest, opening_at, refuting_at, version_at, count_at, clause_at, use_in, named, uses_at, proof_at, entry_at, certificate_at};

use crate::certificates::{Certificate, Written};
use certificate_lines::{
    Opening, Refutation, Version, WordLine, WrittenUse, clause_of, uses_of, word_line_of,
};
use cnf::{Proof, ProofLine};
use fair_semantics::Use;
use items::Items;
use std::alloc::{AllocError, AllocFailed, Global};

/// Why nothing was taken.
#[derive(Clone, Copy)]
pub enum TakeEnd {
    /// The lines do not begin with it.
    Form,
    Memory,
}

impl From<AllocError> for TakeEnd {
    ghost use Rattle.std.specs.Prelude.{◌≡◌};
    ghost use Rattle.certificate_texts.specs.declared.taking.TakeEnd.TheVariants.{Memory};

    ghost from_gives = { λ _ end. end ≡ Memory };

    fn from(_refused: AllocError) -> TakeEnd {
        TakeEnd::Memory
    }
}

impl<T: Drop> From<AllocFailed<T>> for TakeEnd {
    ghost use Rattle.std.specs.Prelude.{◌≡◌};
    ghost use Rattle.certificate_texts.specs.declared.taking.TakeEnd.TheVariants.{Memory};

    ghost from_gives = { λ _ end. end ≡ Memory };

    fn from(_refused: AllocFailed<T>) -> TakeEnd {
        TakeEnd::Memory
    }
}

/// A form of lines of which one may stand behind the other.
pub trait Form<X> {
    ghost use Rattle.certificate_texts.specs.Taking.{Taker};

    ghost taken_at: { Self → Taker X };

    /// What the lines begin with, and the lines behind it.
    fn take_from<'a>(
        &self,
        alloc: Global,
        lines: &'a [ProofLine],
    ) -> Result<(X, &'a [ProofLine]), TakeEnd>
        ensures { Takes (λ x. (x.0, x.1.now)) result (taken_at self.now lines.now) };
}

/// So many of the form, and the lines behind them.
pub fn take_many<'a, X: Drop, F: Form<X>>(
    alloc: Global,
    form: &F,
    count: u64,
    lines: &'a [ProofLine],
) -> Result<(Items<X>, &'a [ProofLine]), TakeEnd>
    ensures { Takes (λ x. (x.0, x.1.now)) result (many (F.taken_at form.now) count lines.now) }
{
    let mut values = Items::new(alloc);
    let mut rest = lines;
    for _ in 0..count {
        let (value, after) = form.take_from(alloc, rest)?;
        values.push(value)?;
        rest = after;
    }
    Ok((values, rest))
}

#[tactic(auto, unfolding(crate::specs::Taking::line_at))]
fn take_line<'a>(lines: &'a [ProofLine]) -> Result<(&'a ProofLine, &'a [ProofLine]), TakeEnd>
    ensures { Takes (λ x. (x.0.now, x.1.now)) result (line_at lines.now) }
{
    match lines.split_first() {
        Some((line, rest)) => Ok((line, rest)),
        None => Err(TakeEnd::Form),
    }
}

/// Any line.
#[derive(Clone, Copy)]
struct AnyLine {}

impl Form<ProofLine> for AnyLine {
    ghost taken_at = { λ form. line_at };

    fn take_from<'a>(
        &self,
        alloc: Global,
        lines: &'a [ProofLine],
    ) -> Result<(ProofLine, &'a [ProofLine]), TakeEnd> {
        let (line, rest) = take_line(lines)?;
        Ok((line.try_copy(alloc)?, rest))
    }
}

#[tactic(auto, unfolding(crate::specs::Taking::opening_at))]
fn take_opening(lines: &[ProofLine]) -> Result<(Opening, &[ProofLine]), TakeEnd>
    ensures { Takes (λ x. (x.0, x.1.now)) result (opening_at lines.now) }
{
    let (line, rest) = take_line(lines)?;
    match word_line_of(line.as_slice()) {
        Some(WordLine::Opening(opening)) => Ok((opening, rest)),
        _ => Err(TakeEnd::Form),
    }
}

#[tactic(auto, unfolding(crate::specs::Taking::refuting_at))]
fn take_refuting(lines: &[ProofLine]) -> Result<(Refutation, &[ProofLine]), TakeEnd>
    ensures { Takes (λ x. (x.0, x.1.now)) result (refuting_at lines.now) }
{
    let (line, rest) = take_line(lines)?;
    match word_line_of(line.as_slice()) {
        Some(WordLine::Refutation(refuting)) => Ok((refuting, rest)),
        _ => Err(TakeEnd::Form),
    }
}

#[tactic(auto, unfolding(crate::specs::Taking::version_at))]
fn take_version(lines: &[ProofLine]) -> Result<(Version, &[ProofLine]), TakeEnd>
    ensures { Takes (λ x. (x.0, x.1.now)) result (version_at lines.now) }
{
    let (line, rest) = take_line(lines)?;
    match word_line_of(line.as_slice()) {
        Some(WordLine::Version(version)) => Ok((version, rest)),
        _ => Err(TakeEnd::Form),
    }
}

// The number of lines of a proof.
#[tactic(auto, unfolding(crate::specs::Taking::count_at))]
fn take_count(lines: &[ProofLine]) -> Result<(u64, &[ProofLine]), TakeEnd>
    ensures { Takes (λ x. (x.0, x.1.now)) result (count_at lines.now) }
{
    let (line, rest) = take_line(lines)?;
    match word_line_of(line.as_slice()) {
        Some(WordLine::Proof(count)) => Ok((count, rest)),
        _ => Err(TakeEnd::Form),
    }
}

/// A clause.
#[derive(Clone, Copy)]
struct ClauseForm {}

impl Form<Items<u64>> for ClauseForm {
    ghost taken_at = { λ form. clause_at };

    #[tactic(auto, unfolding(crate::specs::Taking::clause_at))]
    fn take_from<'a>(
        &self,
        alloc: Global,
        lines: &'a [ProofLine],
    ) -> Result<(Items<u64>, &'a [ProofLine]), TakeEnd> {
        let (line, rest) = take_line(lines)?;
        match clause_of(alloc, line.as_slice())? {
            Some(literals) => Ok((literals, rest)),
            None => Err(TakeEnd::Form),
        }
    }
}

// The use, where its number has 32 bits.
fn use_in(u: WrittenUse) -> Option<Use>
    ensures { result ≡ use_in u }
{
    if u.number < 4_294_967_296 {
        return Some(Use {
            entry: u.number as u32,
            side: u.side,
        });
    }
    None
}

// The uses, where each number has.
fn named(alloc: Global, written: &[WrittenUse]) -> Result<Items<Use>, TakeEnd>
    ensures { Takes (λ x. x) result (named written.now) }
{
    let mut uses = Items::new(alloc);
    for u in written {
        match use_in(*u) {
            Some(one) => uses.push(one)?,
            None => return Err(TakeEnd::Form),
        }
    }
    Ok(uses)
}

// The uses that a line spells.
fn uses_in(alloc: Global, version: Version, line: &[u8]) -> Result<Items<Use>, TakeEnd>
    ensures { Takes (λ x. x) result (option_and_then named (uses_of version line.now)) }
{
    match uses_of(alloc, version, line)? {
        Some(written) => named(alloc, written.as_slice()),
        None => Err(TakeEnd::Form),
    }
}

#[tactic(auto, unfolding(crate::specs::Taking::uses_at))]
fn take_uses(
    alloc: Global,
    version: Version,
    lines: &[ProofLine],
) -> Result<(Items<Use>, &[ProofLine]), TakeEnd>
    ensures { Takes (λ x. (x.0, x.1.now)) result (uses_at version lines.now) }
{
    let (line, rest) = take_line(lines)?;
    let uses = uses_in(alloc, version, line.as_slice())?;
    Ok((uses, rest))
}

/// A proof behind the line with its number of lines.
#[derive(Clone, Copy)]
struct ProofForm {}

impl Form<Proof> for ProofForm {
    ghost taken_at = { λ form. proof_at };

    #[tactic(auto, unfolding(crate::specs::Taking::proof_at))]
    fn take_from<'a>(
        &self,
        alloc: Global,
        lines: &'a [ProofLine],
    ) -> Result<(Proof, &'a [ProofLine]), TakeEnd> {
        let (count, rest) = take_count(lines)?;
        take_many(alloc, &AnyLine {}, count, rest)
    }
}

/// An entry of a certificate of this version.
#[derive(Clone, Copy)]
pub struct EntryForm {
    pub version: Version,
}

impl Form<Written> for EntryForm {
    ghost taken_at = { λ form. entry_at form.version };

    #[tactic(auto, unfolding(crate::specs::Taking::entry_at))]
    fn take_from<'a>(
        &self,
        alloc: Global,
        lines: &'a [ProofLine],
    ) -> Result<(Written, &'a [ProofLine]), TakeEnd> {
        let (opening, rest) = take_opening(lines)?;
        let (uses, rest) = take_uses(alloc, self.version, rest)?;
        let (clauses, rest) = take_many(alloc, &ClauseForm {}, opening.clauses, rest)?;
        let (proofs, rest) = take_many(alloc, &ProofForm {}, opening.clauses, rest)?;
        let entry = Written {
            kind: opening.kind,
            clauses,
            uses,
            proofs,
        };
        Ok((entry, rest))
    }
}

/// The certificate, of so many entries, of an answer with these lines, of which none is skipped; and the lines behind it.
#[tactic(auto, unfolding(crate::specs::Taking::certificate_at))]
pub fn take_certificate(
    alloc: Global,
    count: u64,
    lines: &[ProofLine],
) -> Result<(Certificate, &[ProofLine]), TakeEnd>
    ensures { Takes (λ x. (x.0, x.1.now)) result (certificate_at count lines.now) }
{
    let (_status, rest) = take_line(lines)?;
    let (_property, rest) = take_line(rest)?;
    let (version, rest) = take_version(rest)?;
    let (entries, rest) = take_many(alloc, &EntryForm { version }, count, rest)?;
    let (refuting, rest) = take_refuting(rest)?;
    let (uses, rest) = take_uses(alloc, version, rest)?;
    let (proof, rest) = take_many(alloc, &AnyLine {}, refuting.proof_lines, rest)?;
    let certificate = Certificate {
        version,
        entries,
        uses,
        proof,
    };
    Ok((certificate, rest))
}
