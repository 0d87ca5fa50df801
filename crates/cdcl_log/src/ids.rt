//! The ids that clauses have in a proof. The main type is `Ids`.
ghost use Rattle.std.specs.Prelude.{◌≡◌, ℕ, OnOk, nat_lt, if◌then◌else◌, ◌==◌};
ghost use Rattle.std.specs.List.{list_all};
ghost use Rattle.cdcl_log.specs.Ids.{given_id, unit_id};
ghost use Rattle.cdcl_log.specs.IdsOf.{id_in};

use std::alloc::{AllocError, Global};
use std::collections::BTreeMap;

/// So many clauses, or units, fit into no memory.
pub(crate) const MOST_GIVEN: u64 = 1 << 60;

/// The id of each clause by its number: of added clauses, of the units behind all clauses, and of
/// learned clauses that have a line. 0 where a clause has none.
#[derive(Drop)]
pub(crate) struct Ids<'a> {
    given: &'a [u64],
    added: u64,
    units: u64,
    written: BTreeMap<u64, u64>,
}

impl<'a> Ids<'a> {
    /// No learned clause has an id. Takes no memory.
    pub(crate) fn new(alloc: Global, given: &'a [u64], added: u64, units: u64) -> Ids<'a>
        ensures { (n : ℕ) → id_in result n ≡ given_id given.now added units n }
    {
        Ids {
            given,
            added,
            units,
            written: BTreeMap::new(alloc),
        }
    }

    /// The id of the clause with a number.
    pub(crate) fn get(&self, number: u64) -> u64
        ensures { result ≡ id_in self.now number }
    {
        match self.written.get(&number) {
            Some(id) => *id,
            None => given_id(self.given, self.added, self.units, number),
        }
    }

    /// Gives the clause with a number an id. The error is want of memory.
    pub(crate) fn put(&mut self, number: u64, id: u64) -> Result<(), AllocError>
        ensures { OnOk result ((n : ℕ) → id_in self.new n ≡ (if number == n then id else id_in self.old n)) }
    {
        self.written.insert(number, id)?;
        Ok(())
    }

    /// Whether each of the clauses with these numbers has an id.
    pub(crate) fn have(&self, numbers: &[u64]) -> bool
        ensures { result ≡ list_all (λ n. nat_lt 0 (id_in self.now n)) numbers.now }
    {
        numbers.iter().all(|number| 0 < self.get(*number))
    }
}

// The id that the clause with a number has from the first on.
fn given_id(given: &[u64], added: u64, units: u64, number: u64) -> u64
    ensures { result ≡ given_id given.now added units number }
{
    if number == 0 {
        return 0;
    }
    let place = (number - 1) as usize;
    if place < given.len() {
        return given[place];
    }
    unit_id(added, units, (place - given.len()) as u64)
}

// The id of the unit at a place.
fn unit_id(added: u64, units: u64, place: u64) -> u64
    ensures { result ≡ unit_id added units place }
{
    if place >= units {
        return 0;
    }
    if units >= MOST_GIVEN {
        return 0;
    }
    if added >= MOST_GIVEN {
        return 0;
    }
    added + place + 1
}
