//! The sides of the walls that were used so far. The main type is `Sides`.

ghost use Rattle.std.specs.Prelude.{◌≡◌, OnOk};
ghost use Rattle.cnf_unroll.specs.Uses.{no_sides, with_side};
ghost use Rattle.cnf_unroll.specs.Sides.{side_in};

use std::alloc::{AllocError, Global};
use std::collections::BTreeMap;

/// The side number of each wall that was used so far, by the number of its entry.
#[derive(Drop)]
pub(crate) struct Sides {
    known: BTreeMap<u32, u64>,
}

impl Sides {
    pub(crate) fn new(alloc: Global) -> Sides
        ensures { side_in result ≡ no_sides }
    {
        Sides {
            known: BTreeMap::new(alloc),
        }
    }

    pub(crate) fn get(&self, entry: u32) -> Option<u64>
        ensures { result ≡ side_in self.now entry }
    {
        self.known.get(&entry).copied()
    }

    pub(crate) fn put(&mut self, entry: u32, side: u64) -> Result<(), AllocError>
        ensures { OnOk result (side_in self.new ≡ with_side (side_in self.old) entry side) }
    {
        self.known.insert(entry, side)?;
        Ok(())
    }
}
