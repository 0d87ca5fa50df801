//! The board as the shared list of one worker for one turn. The main type is `LentBoard`.

ghost use Rattle.shared_lists.specs.Lending.{known_of, IsLent, StaysLent};

use crate::shared_list::SharedList;
use entry::Checked;
use std::alloc::AllocError;
use std::sync::Arc;
use wall_store::{Board, Outcome, Posted, outcomes_stay};

/// The board, the number of a worker of it, how many entries that worker has seen, and how many turns it has taken.
#[derive(Drop)]
pub struct LentBoard {
    pub board: Board,
    pub number: u32,
    pub seen: usize,
    pub turns: u32,
}

/// A post is refused where a handle of the entry is; no other call takes memory.
impl SharedList for LentBoard {
    ghost known = { known_of };

    ghost is_kept = { IsLent };

    ghost goes_on = { StaysLent };

    fn view(&self) -> &[Arc<Checked>] {
        self.board.entries_are_good();
        self.board.holds();
        &self.board.entries()[..self.seen]
    }

    fn number(&self) -> u32 {
        self.number
    }

    fn turns(&self) -> u32 {
        self.turns
    }

    fn holds(&self) {
        let _ = &self.number;
    }

    fn look(&mut self) -> Result<(), AllocError> {
        self.seen = self.board.look(self.number) as usize;
        self.turns += 1;
        self.board.holds();
        Ok(())
    }

    fn post(&mut self, entry: &Arc<Checked>) -> Result<Posted, AllocError> {
        let own = Arc::try_clone(entry)?;
        self.board.seen_uses_stand();
        let posted = self.board.post(self.number, own);
        self.seen = self.board.entries().len();
        self.turns += 1;
        self.board.holds();
        Ok(posted)
    }

    fn finish(&mut self, property: u32, outcome: Outcome) {
        outcomes_stay(&**self.board.circuit());
        self.board.finish(self.number, property, outcome);
        self.turns += 1;
        self.board.holds();
    }

    fn next_open(&mut self, from: u32) -> Option<u32> {
        let open = self.board.next_open(self.number, from);
        self.turns += 1;
        self.board.holds();
        open
    }
}
