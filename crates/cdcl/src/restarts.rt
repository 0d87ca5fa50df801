//! When a search goes back to its assumptions and begins again, by the fixed sequence of Luby,
//! Sinclair and Zuckerman (1993): after 1, 1, 2, 1, 1, 2, 4, .. hundreds of conflicts. The main type
//! is `Restarts`. No contract of a search rests on it.
ghost use Rattle.std.specs.Prelude.{◌≡◌, IsTrue, false};

/// How many conflicts the number 1 of the sequence stands for.
const UNIT: u64 = 100;

/// How far a search has come in the sequence. After Knuth, each number of the sequence is a power
/// of two that divides its round; a round ends with the greatest of them.
#[derive(Clone, Copy)]
pub(crate) struct Restarts {
    round: u64,
    length: u64,
    conflicts: u64,
}

impl Restarts {
    /// No conflict was counted.
    pub(crate) fn new() -> Restarts
        ensures { result.conflicts ≡ 0 }
    {
        Restarts {
            round: 1,
            length: 1,
            conflicts: 0,
        }
    }

    /// Counts a conflict, and tells whether the search is to begin again. Where it is, none is
    /// counted any more; and else the place in the sequence stays.
    pub(crate) fn count(&mut self) -> bool
        ensures again { IsTrue result → self.new.conflicts ≡ 0 }
        ensures round { result ≡ false → self.new.round ≡ self.old.round }
        ensures length { result ≡ false → self.new.length ≡ self.old.length }
    {
        self.conflicts = self.conflicts.saturating_add(1);
        if self.conflicts < self.length.saturating_mul(UNIT) {
            return false;
        }
        self.conflicts = 0;
        if self.round & self.length == 0 {
            self.length = self.length.saturating_mul(2);
        } else {
            self.round = self.round.saturating_add(1);
            self.length = 1;
        }
        true
    }
}
