//! The clauses of an item as a text in the DIMACS format, over entries that are listed. The calls are `obligation_text` and
//! `skeleton_text`.

ghost use Rattle.std.specs.Prelude.{◌<◌, length, All, IfOk};
ghost use Rattle.entry.specs.Listing.{entries_of};
ghost use Rattle.cert_tools.specs.Exporting.{EntriesAreOver, HasObligation, StandsForObligation, StandsForSkeleton};

use crate::dimacs::dimacs_text;
use crate::numbering::{after_skeleton, after_step};
use circuit::Circuit;
use cnf_unroll::{obligation, skeleton_cnf};
use entry::{Listed, Use, used};
use std::alloc::{AllocError, Global};

/// Of the obligation of clause `i` of entry `e`.
pub(crate) fn obligation_text(
    alloc: Global,
    circuit: &Circuit,
    list: &[Listed],
    e: usize,
    i: usize,
) -> Result<Vec<u8>, AllocError>
    requires { HasObligation circuit.now (entries_of list.now) e i }
    ensures { IfOk result (λ text. StandsForObligation circuit.now (entries_of list.now) e i text.items) }
{
    let _limits = circuit.max();
    let at = &list[e];
    let uses = used(alloc, list, at.uses.as_slice())?;
    let free = after_step(circuit, uses.as_slice())?;
    let clauses = obligation(
        alloc,
        circuit,
        uses.as_slice(),
        at.uses.as_slice(),
        &at.set,
        i,
    )?;
    let greatest = free - 1;
    dimacs_text(alloc, greatest, clauses.as_slice())
}

/// Of the skeleton clauses of property `j`, with these uses.
pub(crate) fn skeleton_text(
    alloc: Global,
    circuit: &Circuit,
    j: u32,
    list: &[Listed],
    uses: &[Use],
) -> Result<Vec<u8>, AllocError>
    requires known { j < length circuit.now.justice }
    requires uses { All (λ u. u.entry < length list.now) uses.now }
    requires over { EntriesAreOver circuit.now (entries_of list.now) }
    ensures { IfOk result (λ text. StandsForSkeleton circuit.now j (entries_of list.now) uses.now text.items) }
{
    let _limits = circuit.max();
    let uses = used(alloc, list, uses)?;
    let free = after_skeleton(circuit, j, uses.as_slice())?;
    let clauses = skeleton_cnf(alloc, circuit, j, uses.as_slice())?;
    let greatest = free - 1;
    dimacs_text(alloc, greatest, clauses.as_slice())
}
