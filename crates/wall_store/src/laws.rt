//! What holds of lists and outcomes. Each call does nothing; its contract is the law.

ghost use Rattle.wall_store.specs.Laws.{OutcomesStay, SoundListsGrow};

use circuit::Circuit;
use entry::older_views;

/// An outcome that is true over a list of entries stays true while the list grows.
pub fn outcomes_stay(c: &Circuit)
    ensures { OutcomesStay c.now }
{
    older_views(c);
}

/// No entries are a sound list, and with an entry that is sound behind them sound lists stay sound: so a list that is
/// given is seen to be one.
pub fn sound_lists_grow(_c: &Circuit)
    ensures { SoundListsGrow _c.now }
{}
