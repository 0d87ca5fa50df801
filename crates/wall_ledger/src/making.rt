//! The passes of a new ledger: each gets a seat of its own, cut off from the first seat, which has all of them.

ghost use Rattle.std.specs.Prelude.{◌≡◌, ℕ, ◌+◌, ◌-◌, ◌<◌, ◌≤◌, [], ◌∷◌, map, length, vec_capacity, IfOk};
ghost use Rattle.std.specs.Arc.{arc_value};
ghost use Rattle.wall_store.specs.Boards.{properties_of};
ghost use Rattle.wall_ledger.specs.Passes.{new_pass};
ghost use Rattle.wall_ledger.specs.Tickets.{view_of, IsIdle, IsSameSeat};
ghost use Rattle.wall_ledger.specs.Shows.{blank_shown};
ghost use Rattle.wall_ledger.specs.Seats.{unseated, IsStart};
ghost use Rattle.wall_ledger.specs.Hands.{state_of, ledger_of, IsResting};

use crate::faces::Faces;
use crate::lock::{Part, Place};
use crate::marks::{PassMark, Shown};
use crate::pass::{Gate, Hand};
use entry::Checked;
use std::alloc::{AllocError, Global};
use std::snapshot::Snapshot;
use std::sync::Arc;
use wall_store::Board;

/// The first of the passes at a seat goes to a seat of its own, with as many tickets as a pass may draw.
pub struct CutOff;

impl Part<Faces> for CutOff {
    ghost use Rattle.wall_ledger.specs.Seats.{tail_of, head_of};

    ghost left = { tail_of };

    ghost right = { head_of };

    ghost part = { 4294967295 };
}

/// The entries, with room for `limit` in all.
pub fn given_with_room(
    alloc: Global,
    given: &[Arc<Checked>],
    limit: u32,
) -> Result<Vec<Arc<Checked>>, AllocError>
    requires { length given.now ≤ limit }
    ensures entries { IfOk result (λ entries. map arc_value entries.items ≡ map arc_value given.now) }
    ensures room { IfOk result (λ entries. limit ≤ vec_capacity entries) }
{
    let mut entries = Vec::with_capacity(alloc, limit as usize)?;
    for e in given {
        entries.push_reserved(Arc::try_clone(e)?);
    }
    Ok(entries)
}

/// No mark of each property.
pub fn blank_for(alloc: Global, properties: &[u32]) -> Result<Vec<PassMark>, AllocError>
    ensures { IfOk result (λ marks. marks.items ≡ map blank_shown properties.now) }
{
    let mut marks = Vec::new(alloc);
    for j in properties {
        marks.push(PassMark {
            property: *j,
            shown: Shown::Blank,
        })?;
    }
    Ok(marks)
}

/// The pass of this number, at a seat that is cut off from the one that has the passes from this number on.
pub fn seat_hand(
    gate: &Gate,
    place: &mut Place<Board, Faces>,
    first: &Snapshot<Board>,
    number: u32,
    entries: Vec<Arc<Checked>>,
    marks: Vec<PassMark>,
) -> Hand
    requires own { place.old.table_id ≡ gate.now.table.shared.table_id }
    requires idle { IsIdle place.old }
    requires budget { 4294967295 ≤ place.old.me.0.budget }
    requires number { number < first.now.value.workers }
    requires faces { view_of place.old ≡ unseated first.now.value number }
    requires start { IsStart first.now.value }
    requires entries { map arc_value entries.items ≡ first.now.value.entries }
    requires room { first.now.value.limit ≤ vec_capacity entries }
    requires marks { marks.items ≡ map blank_shown (properties_of first.now.value.served) }
    ensures same { IsSameSeat place.old place.new }
    ensures idle { IsIdle place.new }
    ensures budget { place.new.me.0.budget + 4294967295 ≡ place.old.me.0.budget }
    ensures faces { view_of place.new ≡ unseated first.now.value (number + 1) }
    ensures resting { IsResting result }
    ensures state { state_of result ≡ new_pass (ledger_of gate.now.table.shared.table_id first.now.value) number }
{
    let seat = gate.split::<CutOff>(place);
    let copy = Snapshot::of(first);
    Hand {
        place: seat,
        first: copy,
        number,
        entries,
        stamp: 0,
        turns: 0,
        marks,
    }
}
