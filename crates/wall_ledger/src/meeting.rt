//! Passes that meet: the one that has seen less takes the list of the other, without a turn.

ghost use Rattle.std.specs.Prelude.{◌≡◌, ℕ, ◌≤◌, length, vec_capacity, OnOk, OnErr};
ghost use Rattle.wall_ledger.specs.Turns.{HasTaken};
ghost use Rattle.wall_ledger.specs.Hands.{face_in, state_of, IsResting};

use crate::faces::Faces;
use crate::lock::{Part, Sight, Whole};
use crate::pass::{Gate, Hand, copy_tail};
use std::alloc::AllocError;

/// A note of what the pass at a seat has seen.
pub struct Noted;

impl Part<Faces> for Noted {
    ghost use Rattle.wall_ledger.specs.Seats.{note_of};

    ghost left = { λ fs. fs };

    ghost right = { note_of };

    ghost part = { 0 };
}

/// The passes and notes of both seats.
pub struct Both;

impl Whole<Faces> for Both {
    ghost use Rattle.std.specs.Prelude.{[], ◌++◌};

    ghost both = { λ fs gs. fs ++ gs };

    ghost spent = { [] };
}

/// A pass takes the list and the stamp of the note beside it.
pub struct Meeting;

impl Sight<Faces> for Meeting {
    ghost use Rattle.wall_ledger.specs.Seats.{AreMeeting};

    ghost then = { AreMeeting };
}

/// The first pass takes the list of the second, which has seen no less. What is copied is right as the one list is a
/// beginning of the other; that shows only in the last step, when nothing can be refused any more.
pub fn take_list(gate: &Gate, less: &mut Hand, more: &mut Hand) -> Result<(), AllocError>
    requires own { (less.old.place.table_id ≡ gate.now.table.shared.table_id) × (more.old.place.table_id ≡ gate.now.table.shared.table_id) }
    requires resting { IsResting less.old × IsResting more.old }
    requires first { (face_in less.old).first ≡ (face_in more.old).first }
    requires stamps { less.old.stamp ≤ more.old.stamp }
    ensures resting { IsResting less.new × IsResting more.new }
    ensures ok { OnOk result (HasTaken (state_of less.old) (state_of more.old) (state_of less.new)) }
    ensures err { OnErr result (state_of less.new ≡ state_of less.old) }
    ensures more { state_of more.new ≡ state_of more.old }
{
    copy_tail(&mut less.entries, &more.entries)?;
    let note = gate.split::<Noted>(&mut more.place);
    gate.join::<Both>(&mut less.place, note);
    gate.learn::<Meeting>(&mut less.place);
    less.stamp = more.stamp;
    Ok(())
}
