//! Uses of entries, by other numbers; and where what is used gives an empty clause.

ghost use Rattle.std.specs.Prelude.{◌≡◌, ◌||◌, Some, slice_get, IfOk};
ghost use Rattle.cert_tools.specs.TrimmingEntries.{numbers_of, place_in, at_places, no_literals};
ghost use Rattle.cert_tools.specs.TrimmingEntries.{spells_empty, written_empties, any_empties};

use certificate::Written;
use fair_semantics::{Kind, Use};
use items::Items;
use std::alloc::{AllocError, Global};

/// The numbers of the entries that are used.
pub(crate) fn numbers_of(alloc: Global, uses: &[Use]) -> Result<Items<u64>, AllocError>
    ensures { IfOk result (λ numbers. numbers ≡ numbers_of uses.now) }
{
    let mut numbers = Items::new(alloc);
    for u in uses {
        numbers.push(u64::from(u.entry))?;
    }
    Ok(numbers)
}

fn place_in(places: &[u32], n: u32) -> u32
    ensures { result ≡ place_in places.now n }
{
    places.get(n as usize).copied().unwrap_or(0)
}

/// The same uses, by the places of their entries.
pub(crate) fn renumbered(
    alloc: Global,
    uses: &[Use],
    places: &[u32],
) -> Result<Items<Use>, AllocError>
    ensures { IfOk result (λ renumbered. renumbered ≡ at_places places.now uses.now) }
{
    let mut renumbered = Items::new(alloc);
    for u in uses {
        renumbered.push(Use {
            entry: place_in(places, u.entry),
            side: u.side,
        })?;
    }
    Ok(renumbered)
}

fn has_none(literals: &Items<u64>) -> bool
    ensures { result ≡ no_literals literals.now }
{
    match literals.as_slice().split_first() {
        Some(_) => false,
        None => true,
    }
}

// Whether a clause has no literal.
fn has_empty(clauses: &[Items<u64>]) -> bool
    ensures { result ≡ spells_empty clauses.now }
{
    clauses.iter().any(|literals| has_none(literals))
}

fn gives_empty(e: &Written) -> bool
    ensures { result ≡ written_empties (Some e.now) }
{
    match e.kind {
        Kind::Reach => has_empty(e.clauses.as_slice()),
        Kind::Wall => false,
    }
}

fn use_gives_empty(entries: &[Written], u: Use) -> bool
    ensures { result ≡ written_empties (slice_get entries.now u.entry) }
{
    match entries.get(u.entry as usize) {
        Some(e) => gives_empty(e),
        None => false,
    }
}

/// Whether an entry that is used gives an empty clause.
pub(crate) fn uses_empty(entries: &[Written], uses: &[Use]) -> bool
    ensures { result ≡ any_empties entries.now uses.now }
{
    uses.iter().any(|u| use_gives_empty(entries, *u))
}

/// Whether an empty clause is given to the proofs of an entry: by one that it uses, or by its own set.
pub(crate) fn given_empty(entries: &[Written], e: &Written) -> bool
    ensures { result ≡ (any_empties entries.now e.now.uses || spells_empty e.now.clauses) }
{
    uses_empty(entries, e.uses.as_slice()) || has_empty(e.clauses.as_slice())
}
