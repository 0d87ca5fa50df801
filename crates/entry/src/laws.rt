//! What proved entries and good refutations mean. Each call does nothing; its contract is the law.

ghost use Rattle.entry.specs.CheckedEntries.{StandOn, ClosedUsesStand, RefutationsStay};
ghost use Rattle.entry.specs.Laws.{FaultlessIsProved, FaultlessIsGood, ProvedIsValid, GoodListsGrow, RefutedAllowsNone, RefutedHasNoLasso};

use circuit::Circuit;
use cnf_unroll::{obligations_tell, skeleton_clauses_tell};

/// An entry has no fault exactly where it is proved, and a refutation exactly where it is good.
pub fn faultless_is_proved(c: &Circuit)
    ensures entries { FaultlessIsProved c.now }
    ensures refutations { FaultlessIsGood c.now }
{}

/// An entry that is proved behind valid entries is valid.
pub fn proved_entries_are_valid(c: &Circuit)
    ensures { ProvedIsValid c.now }
{
    obligations_tell(c);
}

/// No entries are good, and with an entry that is proved behind them good entries stay good.
pub fn good_lists_grow(c: &Circuit)
    ensures { GoodListsGrow c.now }
{
    obligations_tell(c);
}

/// Over valid entries a good refutation of a property leaves no skeleton of it that the used entries allow, and no fair
/// lasso of it.
pub fn refutations_leave_no_lasso(c: &Circuit)
    ensures skeletons { RefutedAllowsNone c.now }
    ensures lassos { RefutedHasNoLasso c.now }
{
    skeleton_clauses_tell(c);
}

/// Entries that stand in a list, as those that closed uses name do, stand in each list that goes on from it. So an entry
/// that was checked behind an older view holds behind a newer one, and a refutation that is good over the older is good
/// over the newer.
pub fn older_views(_c: &Circuit)
    ensures stand { StandOn }
    ensures uses { ClosedUsesStand }
    ensures refutations { RefutationsStay _c.now }
{}
