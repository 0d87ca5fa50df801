//! A ledger as the shared list of the worker that has one of its passes. The main type is `Held`.

ghost use Rattle.shared_lists.specs.Holding.{known_by, IsPassOf, StaysHeld};

use crate::shared_list::SharedList;
use entry::{Checked, older_views};
use std::alloc::AllocError;
use std::sync::{Arc, Wait};
use wall_ledger::{Ledger, Pass};
use wall_store::{Outcome, Posted};

/// A ledger, and a pass of it.
#[derive(Drop)]
pub struct Held<'a, R: Wait> {
    pub rt: &'a R,
    pub ledger: &'a Ledger,
    pub pass: Pass,
}

/// A look is refused where a handle that the pass lacks is, a post there and where one of the entry is.
impl<'a, R: Wait> SharedList for Held<'a, R> {
    ghost known = { λ s. known_by s.ledger.now s.pass };

    ghost is_kept = { λ s. IsPassOf s.ledger.now s.pass };

    ghost goes_on = { λ s t. StaysHeld s.ledger.now s.pass t.ledger.now t.pass };

    fn view(&self) -> &[Arc<Checked>] {
        self.pass.holds();
        self.pass.view()
    }

    fn number(&self) -> u32 {
        self.pass.number()
    }

    fn turns(&self) -> u32 {
        self.pass.turns()
    }

    fn holds(&self) {
        let _ = &self.rt;
    }

    fn look(&mut self) -> Result<(), AllocError> {
        self.ledger.look(self.rt, &mut self.pass)
    }

    fn post(&mut self, entry: &Arc<Checked>) -> Result<Posted, AllocError> {
        older_views(&**self.ledger.circuit());
        self.ledger.post(self.rt, &mut self.pass, entry)
    }

    fn finish(&mut self, property: u32, outcome: Outcome) {
        self.ledger
            .finish(self.rt, &mut self.pass, property, outcome);
    }

    fn next_open(&mut self, from: u32) -> Option<u32> {
        self.ledger.next_open(self.rt, &mut self.pass, from)
    }
}
