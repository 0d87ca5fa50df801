//! Which entries of a view the proof of a refutation names. What is found here is tested where it is used, and so has
//! no contract but that the entries are there. The main call is `needed_uses`.
ghost use Rattle.std.specs.Prelude.{◌≡◌, ◌<◌, ◌^◌, length, All, IfOk};

use cnf::ProofLine;
use entry::{Checked, Listed};
use fair_semantics::{Side, Use};
use items::Items;
use std::alloc::{AllocError, Global};
use std::sync::Arc;

// The number at the front of a field, while it is below 2^63; else 0.
fn number_of(field: &[u8]) -> u64 {
    match text_grammar::read_number(field, (1 << 63) - 1) {
        Some((number, _rest)) => number,
        None => 0,
    }
}

// Marks the entry that has the clause with this number.
fn mark(flags: &mut [bool], ends: &[u64], number: u64) {
    if let Some(place) = ends.iter().position(|end| number <= *end)
        && let Some(entry) = place.checked_sub(1)
        && let Some(flag) = flags.get_mut(entry)
    {
        *flag = true;
    }
}

// Marks the entries that the hints of a line name: the numbers between its fields 0.
fn mark_hints(flags: &mut [bool], ends: &[u64], line: &[u8]) {
    let mut zeros: u64 = 0;
    for field in line.split(|byte| *byte == b' ') {
        if field == b"0".as_slice() {
            zeros = zeros.saturating_add(1);
        } else if zeros == 1 {
            mark(flags, ends, number_of(field));
        }
    }
}

// Marks the entries of which an entry names a side.
fn mark_named(flags: &mut [bool], listed: &Listed) {
    for named in listed.uses.as_slice() {
        if named.side != Side::Any
            && let Some(flag) = flags.get_mut(named.entry as usize)
        {
            *flag = true;
        }
    }
}

// The last entry's uses first, since each entry names earlier ones.
fn mark_all_named(flags: &mut [bool], view: &[Arc<Checked>]) {
    for (number, shared) in view.iter().enumerate().rev() {
        if flags.get(number).copied().unwrap_or(false) {
            mark_named(flags, shared.listed());
        }
    }
}

// The uses of the entries that are marked, of so many.
fn uses_of(alloc: Global, flags: &[bool], count: u32) -> Result<Items<Use>, AllocError>
    ensures { IfOk result (All (λ u. u.entry < count)) }
{
    let mut uses = Items::new(alloc);
    for entry in 0..count {
        if flags.get(entry as usize).copied().unwrap_or(false) {
            uses.push(Use {
                entry,
                side: Side::Any,
            })?;
        }
    }
    Ok(uses)
}

/// The uses of the entries that the proof names, and of those of which these name sides. Their clauses end at these
/// places: the first is that of the clauses before.
pub(crate) fn needed_uses(
    alloc: Global,
    view: &[Arc<Checked>],
    ends: &[u64],
    proof: &[ProofLine],
) -> Result<Items<Use>, AllocError>
    requires { length view.now < 2 ^ 32 }
    ensures { IfOk result (All (λ u. u.entry < length view.now)) }
{
    let mut flags = vec![in alloc; false; view.len()]?;
    for line in proof {
        mark_hints(&mut flags, ends, line.as_slice());
    }
    mark_all_named(&mut flags, view);
    uses_of(alloc, flags.as_slice(), view.len() as u32)
}
