//! What workers search over: a list of entries that they share. The main type is `SharedList`.

ghost use Rattle.std.specs.Prelude.{◌≡◌, ◌+◌, ◌^◌, ◌<◌, ◌≤◌, length, Contains, IfOk, OnOk, OnErr};
ghost use Rattle.std.specs.Arc.{arc_value};
ghost use Rattle.entry.specs.CheckedEntries.{viewed};
ghost use Rattle.entry.specs.Laws.{IsGoodList};
ghost use Rattle.wall_store.specs.Boards.{IsTrueOf, most_entries, plain};
ghost use Rattle.shared_lists.specs.Knowing.{Known, KeepsList, SeesMore, HasPosted, IsLastOf, HasFinished, HasAsked, MayPostFrom};

use entry::Checked;
use std::alloc::AllocError;
use std::sync::Arc;
use wall_store::{Outcome, Posted};

/// A list of entries that workers share, with an outcome or none for each of its properties, as one worker has it in a
/// turn. A call that is refused memory changes nothing of what the worker has seen.
pub trait SharedList {
    // What the worker knows of the list.
    ghost known: { Self → Known };

    // What holds of it between two calls.
    ghost is_kept: { Self → Type 0 };

    // What a call leaves of it. In code over any shared list nothing else gives this.
    ghost goes_on: { Self → Self → Type 0 };

    /// The entries that the worker has seen.
    fn view(&self) -> &[Arc<Checked>]
        requires { is_kept self.now }
        ensures viewed { viewed result.now ≡ plain (known self.now).list }
        ensures few { length result.now ≤ most_entries }
        ensures good { IsGoodList (known self.now).circuit (plain (known self.now).list) };

    /// The number of the worker.
    fn number(&self) -> u32
        ensures { result ≡ (known self.now).number };

    /// How many turns the worker has taken.
    fn turns(&self) -> u32
        ensures { result ≡ (known self.now).turns };

    /// Nothing: the law that without a call the list stays as it is.
    fn holds(&self)
        requires { is_kept self.now }
        ensures { goes_on self.now self.now };

    /// Gives the worker the whole list to see.
    fn look(&mut self) -> Result<(), AllocError>
        requires kept { is_kept self.old }
        requires turns { (known self.old).turns + 1 < 2 ^ 32 }
        ensures ok { OnOk result (SeesMore (known self.old) (known self.new)) }
        ensures err { OnErr result (KeepsList (known self.old) (known self.new)) }
        ensures on { goes_on self.old self.new };

    /// Posts an entry of the worker, which then sees the whole list: where it was appended, it is the last entry. The answers
    /// are those of `Board::post`.
    fn post(&mut self, entry: &Arc<Checked>) -> Result<Posted, AllocError>
        requires kept { is_kept self.old }
        requires turns { (known self.old).turns + 1 < 2 ^ 32 }
        requires may { MayPostFrom (known self.old) (arc_value entry.now) }
        ensures ok { IfOk result (λ posted. HasPosted (known self.old) posted (known self.new)) }
        ensures last { IfOk result (IsLastOf (arc_value entry.now) (known self.new)) }
        ensures err { OnErr result (KeepsList (known self.old) (known self.new)) }
        ensures on { goes_on self.old self.new };

    /// Hands in an outcome of the property. Takes no memory.
    fn finish(&mut self, property: u32, outcome: Outcome)
        requires kept { is_kept self.old }
        requires turns { (known self.old).turns + 1 < 2 ^ 32 }
        requires served { Contains (known self.old).properties property }
        requires outcome { IsTrueOf (known self.old).circuit (known self.old).list property outcome }
        ensures finished { HasFinished property (known self.old) (known self.new) }
        ensures on { goes_on self.old self.new };

    /// Asks for a property without an outcome: the least that is served and open from this number on, or the least of all
    /// where there is none from there on, or `None` where each has an outcome. Takes no memory.
    fn next_open(&mut self, from: u32) -> Option<u32>
        requires kept { is_kept self.old }
        requires turns { (known self.old).turns + 1 < 2 ^ 32 }
        ensures asked { HasAsked (known self.old) from result (known self.new) }
        ensures on { goes_on self.old self.new };
}
