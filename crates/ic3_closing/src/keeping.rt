//! What is marked of a closed set. The main call is `kept`.
ghost use Rattle.std.specs.Prelude.{◌≡◌, false, slice_index_or, IfOk, OnOk, ◌++◌};
ghost use Rattle.ic3_closing.specs.Keeping.{kept_clauses, kept_use, kept_uses};

use crate::sets::{ClosedSet, Marks};
use cnf::Clause;
use fair_semantics::{Side, Use};
use items::Items;
use std::alloc::{AllocError, Global};

/// Whether the part with this number is marked.
pub(crate) fn is_marked(marks: &[bool], i: usize) -> bool
    ensures { result ≡ slice_index_or marks.now i false }
{
    marks.get(i).copied().unwrap_or(false)
}

fn kept_clauses(
    alloc: Global,
    clauses: &[Clause],
    marks: &[bool],
) -> Result<Items<Clause>, AllocError>
    ensures { IfOk result (λ kept. kept ≡ kept_clauses marks.now 0 clauses.now) }
{
    let mut kept = Items::new(alloc);
    for (i, clause) in clauses.iter().enumerate() {
        if is_marked(marks, i) {
            kept.push(clause.clone()?)?;
        }
    }
    Ok(kept)
}

// Puts the use at the end, with its side or without, if it is kept.
fn push_kept(kept: &mut Items<Use>, u: Use, is_used: bool, has_side: bool) -> Result<(), AllocError>
    ensures { OnOk result (kept.new ≡ kept.old ++ kept_use is_used has_side u) }
{
    match (is_used, has_side) {
        (false, _) => Ok(()),
        (true, true) => kept.push(u),
        (true, false) => kept.push(Use {
            entry: u.entry,
            side: Side::Any,
        }),
    }
}

fn kept_uses(
    alloc: Global,
    uses: &[Use],
    marks: &[bool],
    sides: &[bool],
) -> Result<Items<Use>, AllocError>
    ensures { IfOk result (λ kept. kept ≡ kept_uses marks.now sides.now 0 uses.now) }
{
    let mut kept = Items::new(alloc);
    for (i, u) in uses.iter().enumerate() {
        push_kept(&mut kept, *u, is_marked(marks, i), is_marked(sides, i))?;
    }
    Ok(kept)
}

/// The clauses and uses that are marked, in their order.
pub(crate) fn kept(alloc: Global, whole: &ClosedSet, marks: &Marks) -> Result<ClosedSet, AllocError>
    ensures clauses { IfOk result (λ part.
        part.clauses ≡ kept_clauses marks.now.clauses.items 0 whole.now.clauses) }
    ensures uses { IfOk result (λ part.
        part.uses ≡ kept_uses marks.now.uses.items marks.now.sides.items 0 whole.now.uses) }
{
    let clauses = kept_clauses(alloc, whole.clauses.as_slice(), marks.clauses.as_slice())?;
    let uses = kept_uses(
        alloc,
        whole.uses.as_slice(),
        marks.uses.as_slice(),
        marks.sides.as_slice(),
    )?;
    Ok(ClosedSet { clauses, uses })
}
