//! Which literals of a trail are implied by marked ones, and in which order they are asked for. The main
//! type is `Implied`. No contract of what is learned rests on it: a literal of a lower level is
//! resolved with its reason, implied or not.
ghost use Rattle.std.specs.Prelude.{◌<◌, IfSome};

use crate::learning::Resolvent;
use crate::marking::Marks;
use cdcl_trail::{Places, Trail};
use cnf::{Clause, Lit, Var};
use std::alloc::{AllocError, Global};
use std::collections::BinaryHeap;

/// Marked literals of lower levels that are to be asked for, by their places, the last one first;
/// those that follow from marked ones before them; and what a look needs. After MiniSat (Eén,
/// Sörensson, 2003) a look ends at a literal of a level without a marked one. It ends on level 0
/// too, where reasons would bring hints from far below.
#[derive(Drop)]
pub(crate) struct Implied {
    asked: BinaryHeap<usize>,
    implied: Vec<bool>,
    levels: u64,
    open: Vec<usize>,
    seen: Vec<usize>,
}

impl Implied {
    /// Nothing is known. Asked for are the marked literals of the clauses that a resolvent comes from,
    /// before `start`. The error is want of memory.
    pub(crate) fn new(
        alloc: Global,
        clauses: &[Clause],
        trail: &Trail,
        table: &Places<'_>,
        start: usize,
        resolvent: &Resolvent,
    ) -> Result<Implied, AllocError> {
        let mut implied = Implied {
            asked: BinaryHeap::new(alloc),
            implied: vec![in alloc; false; start]?,
            levels: 0,
            open: Vec::new(alloc),
            seen: Vec::new(alloc),
        };
        for number in resolvent.hints.as_slice() {
            if let Some(clause) = numbered(clauses, *number) {
                implied.ask(trail, table, &resolvent.marks, clause)?;
            }
        }
        Ok(implied)
    }

    /// Asks for the marked literals of a clause. The error is want of memory.
    pub(crate) fn ask(
        &mut self,
        trail: &Trail,
        table: &Places<'_>,
        marks: &Marks,
        clause: &[Lit],
    ) -> Result<(), AllocError> {
        for literal in clause {
            let Some(place) = table.get(literal.var) else {
                continue;
            };
            if place < self.implied.len() && marks.has(place) {
                self.asked.push(place)?;
                self.levels |= level_bit(trail, literal.var);
            }
        }
        Ok(())
    }

    /// The last place below a bound that was asked for. Takes no memory.
    pub(crate) fn next(&mut self, bound: usize) -> Option<usize>
        ensures { IfSome result (λ place. place < bound) }
    {
        for _turn in 0..self.asked.len() {
            let place = self.asked.pop()?;
            if place < bound {
                return Some(place);
            }
        }
        None
    }

    /// Whether the literal at a place is implied by marked ones before it. The error is want of
    /// memory.
    pub(crate) fn has(
        &mut self,
        clauses: &[Clause],
        trail: &Trail,
        table: &Places<'_>,
        marks: &Marks,
        place: usize,
    ) -> Result<bool, AllocError> {
        if self.is_known(place) {
            return Ok(true);
        }
        self.open.truncate(0);
        self.seen.truncate(0);
        self.open.push(place)?;
        for _turn in 0..=self.implied.len() {
            let Some(next) = self.open.pop() else {
                return Ok(true);
            };
            let Some(reason) = reason_at(clauses, trail, next) else {
                break;
            };
            if !self.opens(trail, table, marks, next, reason)? {
                break;
            }
        }
        self.forget();
        Ok(false)
    }

    // Looks at the literals of a reason: those that are neither marked nor known are to be looked at
    // in their turn. Answers false where one of them can't be implied.
    fn opens(
        &mut self,
        trail: &Trail,
        table: &Places<'_>,
        marks: &Marks,
        place: usize,
        reason: &[Lit],
    ) -> Result<bool, AllocError> {
        for literal in reason {
            let Some(other) = table.get(literal.var) else {
                return Ok(false);
            };
            if other == place || marks.has(other) || self.is_known(other) {
                continue;
            }
            if self.levels & level_bit(trail, literal.var) == 0 {
                return Ok(false);
            }
            self.open.push(other)?;
            self.seen.push(other)?;
            self.set(other, true);
        }
        Ok(true)
    }

    // Whether a place is known to be implied, or supposed to be for now.
    fn is_known(&self, place: usize) -> bool {
        self.implied.get(place).copied().unwrap_or(false)
    }

    // Takes back what was supposed.
    fn forget(&mut self) {
        for _turn in 0..self.seen.len() {
            if let Some(place) = self.seen.pop() {
                self.set(place, false);
            }
        }
    }

    // Notes of a place whether it is implied.
    fn set(&mut self, place: usize, implied: bool) {
        if let Some(entry) = self.implied.get_mut(place) {
            *entry = implied;
        }
    }
}

// The reason of the literal at a place. `None` where it was assumed.
fn reason_at<'a>(clauses: &'a [Clause], trail: &Trail, place: usize) -> Option<&'a [Lit]> {
    let number = trail.reasons().get(place).copied()??;
    numbered(clauses, number)
}

// The literals of the clause with a number, if there is one.
fn numbered(clauses: &[Clause], number: u64) -> Option<&[Lit]> {
    let clause = clauses.get(number.saturating_sub(1) as usize)?;
    Some(clause.as_slice())
}

// One bit for the level of a variable, and none on level 0.
fn level_bit(trail: &Trail, var: Var) -> u64 {
    if trail.value(var).is_none() {
        return 0;
    }
    match trail.level_of(var) {
        0 => 0,
        level => 1u64.rotate_left((level % 64) as u32),
    }
}
