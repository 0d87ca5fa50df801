//! Searches behind one entry: from a state to a literal behind a wall, which paths keep to the start's side of, and from
//! a state outside a reach entry, which has no step. The main calls are `keeps_sides` and `keeps_outside`.

ghost use Rattle.std.specs.Prelude.{IfOk};
ghost use Rattle.std.specs.Arc.{arc_value};
ghost use Rattle.entry.specs.CheckedEntries.{viewed};
ghost use Rattle.entry.specs.Laws.{IsGoodList};

use crate::asking::{To, Wanted, answer_behind, is};
use circuit::Circuit;
use cnf::{Clause, Lit};
use edge::Meter;
use entry::{Checked, Kind, Listed, good_lists_grow};
use ic3::{ReachEnd, Reached};
use items::Items;
use proved_entries::{ProvingEnd, extended};
use std::alloc::{AllocError, Global};
use std::sync::Arc;

// Three latches: the first takes the value of the input; the second is 1 from where the first and the input are both 1
// (the literal 10); the third turns. The states with 1 in the second are left by no step.
const HOLDS: &str = "aag 6 1 3 0 2 0 0 1 0\n2\n4 2\n6 13\n8 9\n1\n4\n10 4 2\n12 11 7\n";

// Two latches: the first is 0 behind each step, and the second turns. The first is 0 in each state that is reached.
const FALLS: &str = "aag 2 0 2 0 0 0 0 1 0\n2 0\n4 5\n1\n2\n";

// An entry of the states in which a literal is true.
fn listed(alloc: Global, kind: Kind, literal: Lit) -> Result<Listed, AllocError> {
    let mut clause = Clause::new(alloc);
    clause.push(literal)?;
    let mut set = Items::new(alloc);
    set.push(clause)?;
    Ok(Listed {
        kind,
        set,
        uses: Items::new(alloc),
    })
}

fn behind_entry(
    alloc: Global,
    shared: &Arc<Circuit>,
    kind: Kind,
    literal: Lit,
) -> Result<Vec<Arc<Checked>>, ProvingEnd>
    ensures view { IfOk result (λ view. IsGoodList (arc_value shared.now) (viewed view.items)) }
{
    good_lists_grow(&**shared);
    let entry = listed(alloc, kind, literal)?;
    extended(alloc, shared, Vec::new(alloc), entry)
}

// A model, the kind of an entry and the literal of its states, a start, a goal, and what is wanted.
type Row = (&'static str, Kind, Lit, &'static str, To<'static>, Wanted);

// What the search of a row answers.
fn answer(alloc: Global, shared: &Arc<Circuit>, row: &Row) -> Result<Reached, ReachEnd> {
    let (_, kind, literal, from, to, _) = *row;
    match behind_entry(alloc, shared, kind, literal) {
        Ok(view) => {
            let mut meter = Meter::new(99, 99);
            answer_behind(alloc, &**shared, view.as_slice(), from, to, &mut meter)
        }
        Err(_) => Err(ReachEnd::Memory),
    }
}

fn row_is(alloc: Global, row: &Row) -> Result<bool, AllocError> {
    match aiger_ascii::read(alloc, row.0.as_bytes()) {
        Ok(model) => {
            let shared = Arc::new(alloc, model.into_circuit())?;
            Ok(is(&answer(alloc, &shared, row), row.5))
        }
        Err(_) => Ok(false),
    }
}

// Behind the wall of the states with 1 in the second latch.
fn wall_row(number: u8) -> Row {
    let (from, literal, wanted) = match number {
        0 => ("001", 4, Wanted::Path(&["001", "100"])),
        1 => ("100", 10, Wanted::Closed),
        _ => ("110", 10, Wanted::Path(&["110"])),
    };
    let inside = Lit {
        var: 1,
        positive: true,
    };
    (
        HOLDS,
        Kind::Wall,
        inside,
        from,
        To::Literal(literal),
        wanted,
    )
}

// Behind the reach entry of the states with 0 in the first latch. From outside it: the start itself, by no step; another
// state, which a set of one literal excludes that uses the entry; a literal, for which a step would be wanted. From inside
// it the step is there.
fn reach_row(number: u8) -> Row {
    let (from, to, wanted) = match number {
        0 => ("10", To::State("10"), Wanted::Path(&[])),
        1 => ("10", To::State("01"), Wanted::ClosedBy(1, 1)),
        2 => ("10", To::Literal(2), Wanted::Closed),
        _ => ("00", To::State("01"), Wanted::Path(&["00"])),
    };
    let inside = Lit {
        var: 0,
        positive: false,
    };
    (FALLS, Kind::Reach, inside, from, to, wanted)
}

/// Whether the search of the row with a number answers as is wanted: from outside the wall along a path that stays there,
/// not to a goal at whose step it is entered, and from inside to that goal.
pub(crate) fn keeps_sides(alloc: Global, number: u8) -> bool {
    row_is(alloc, &wall_row(number)).unwrap_or(false)
}

/// Whether the search of the row with a number answers as is wanted: from outside the reach entry nothing is reached but
/// the start, by a path of no position.
pub(crate) fn keeps_outside(alloc: Global, number: u8) -> bool {
    row_is(alloc, &reach_row(number)).unwrap_or(false)
}
