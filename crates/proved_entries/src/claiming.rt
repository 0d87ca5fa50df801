//! Claims of proved entries, certified. The main call is `certified`.

ghost use Rattle.std.specs.Prelude.{◌≡◌, ◌++◌, ◌∷◌, [], true, length, IfOk};
ghost use Rattle.std.specs.Arc.{arc_value};
ghost use Rattle.fair_semantics.specs.Skeletons.{excludes};
ghost use Rattle.entry.specs.CheckedEntries.{viewed};
ghost use Rattle.entry.specs.Laws.{IsGoodList};
ghost use Rattle.entry.specs.Listing.{entry_of};
ghost use Rattle.entry.specs.Proved.{IsProved};
ghost use Rattle.certify.specs.Claims.{claimed};

use crate::copies::copied;
use crate::ends::ProvingEnd;
use crate::judging::with_last;
use certify::{Claim, certify};
use circuit::Circuit;
use edge::Meter;
use entry::{Checked, Listed, excludes, proved_entries_are_valid};
use fair_semantics::Skeleton;
use std::alloc::{AllocError, Global};
use std::sync::Arc;

/// The claim of an entry, for a skeleton.
pub fn claim_of(alloc: Global, listed: &Listed, skeleton: Skeleton) -> Result<Claim, AllocError>
    ensures { IfOk result (λ claim. claimed claim ≡ entry_of listed.now) }
{
    let copy = listed.try_copy(alloc)?;
    Ok(Claim {
        kind: copy.kind,
        clauses: copy.set,
        uses: copy.uses,
        author: 0,
        turn: 0,
        skeleton,
    })
}

// Whether the entry behind those of the view, at most seven, is there and excludes the skeleton.
fn is_apart(view: &[Arc<Checked>], longer: &[Arc<Checked>], skeleton: &Skeleton) -> bool
    ensures { result ≡ true → excludes (viewed longer.now) (length (viewed view.now)) skeleton.now ≡ true }
{
    let count = view.len();
    if count >= longer.len() || count >= 8 {
        return false;
    }
    let mut scratch = [false; 8];
    excludes(longer, count as u32, skeleton, &mut scratch)
}

fn longer_by(
    alloc: Global,
    view: &[Arc<Checked>],
    last: Checked,
) -> Result<Vec<Arc<Checked>>, AllocError>
    ensures { IfOk result (λ longer. viewed longer.items ≡ viewed view.now ++ last.entry ∷ []) }
{
    let copy = copied(alloc, view)?;
    with_last(alloc, copy, last)
}

/// The claim of an entry that is proved behind the view, certified. `Refused` where the entry does not exclude the claim's
/// skeleton, or the meter is spent.
pub fn certified(
    alloc: Global,
    shared: &Arc<Circuit>,
    view: &[Arc<Checked>],
    known: Checked,
    claim: Claim,
    meter: &mut Meter,
) -> Result<Checked, ProvingEnd>
    requires view { IsGoodList (arc_value shared.now) (viewed view.now) }
    requires proved { IsProved (arc_value shared.now) (viewed view.now) known.entry known.proofs }
    requires same { claimed claim ≡ known.entry }
{
    let c: &Circuit = &**shared;
    proved_entries_are_valid(c);
    let longer = longer_by(alloc, view, known)?;
    if !is_apart(view, longer.as_slice(), &claim.skeleton) {
        return Err(ProvingEnd::Refused);
    }
    Ok(certify(alloc, shared, view, claim, meter)?)
}
