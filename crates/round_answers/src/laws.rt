//! The law of entries that refute states. The call does nothing; its contract is the law.

ghost use Rattle.round_answers.specs.Laws.{RefutesFullRuns};

use circuit::Circuit;
use entry::good_lists_grow;

/// Reach entries that are proved one behind the other, and over them a good refutation of the states in which the last latch
/// is true, leave no initial run that comes to such a state. Of a monitor that is: no initial run has as many rounds as it
/// counts.
pub fn full_runs_are_refuted(t: &Circuit)
    ensures { RefutesFullRuns t.now }
{
    let _limits = t.max();
    good_lists_grow(t);
}
