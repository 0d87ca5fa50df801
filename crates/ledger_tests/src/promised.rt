//! Clauses of public calls, said again as clauses of this crate's own: where such a call comes to say less, the function
//! here that makes it is not proved.
ghost use Rattle.std.specs.Prelude.{◌≡◌, ◌+◌, ◌^◌, ◌<◌, IfOk, OnOk, OnErr, Contains};
ghost use Rattle.std.specs.Arc.{arc_value};
ghost use Rattle.shared_lists.specs.Knowing.{HasPosted, IsLastOf, KeepsList, MayPostFrom};
ghost use Rattle.wall_ledger.specs.Passes.{shown_of};
ghost use Rattle.wall_ledger.specs.Turns.{HasLooked, IsRefused, HasFinished, HaveMet};
ghost use Rattle.wall_store.specs.Boards.{IsTrueOf};

use entry::Checked;
use shared_lists::SharedList;
use std::alloc::AllocError;
use std::sync::{Arc, Wait};
use wall_ledger::{Ledger, Pass, Shown};
use wall_store::{Board, Finished, Outcome, Posted, Served};

/// How many workers a board has.
fn workers_of(board: &Board) -> u32
    ensures { result ≡ board.now.workers }
{
    board.workers()
}

/// How many entries were given at first.
fn given_to(board: &Board) -> u32
    ensures { result ≡ board.now.given }
{
    board.given()
}

/// The served properties, each with its outcome.
fn served_by(board: &Board) -> &[Served]
    ensures { result.now ≡ board.now.served }
{
    board.served()
}

/// An entry that a worker posts to a shared list is its last one for the worker.
fn posted<L: SharedList>(list: &mut L, entry: &Arc<Checked>) -> Result<Posted, AllocError>
    requires kept { L.is_kept list.old }
    requires turns { (L.known list.old).turns + 1 < 2 ^ 32 }
    requires may { MayPostFrom (L.known list.old) (arc_value entry.now) }
    ensures ok { IfOk result (λ posted. HasPosted (L.known list.old) posted (L.known list.new)) }
    ensures last { IfOk result (IsLastOf (arc_value entry.now) (L.known list.new)) }
    ensures err { OnErr result (KeepsList (L.known list.old) (L.known list.new)) }
    ensures on { L.goes_on list.old list.new }
{
    list.post(entry)
}

/// Passes that meet both have the list of the one whose stamp is greater.
fn met(ledger: &Ledger, one: &mut Pass, other: &mut Pass) -> Result<(), AllocError>
    requires own { (one.old.home ≡ ledger.now.home) × (other.old.home ≡ ledger.now.home) }
    ensures ok { OnOk result (HaveMet one.old other.old one.new other.new) }
    ensures err { OnErr result ((one.new ≡ one.old) × (other.new ≡ other.old)) }
{
    ledger.meet(one, other)
}

/// What a pass shows of a property.
fn shown_by(pass: &Pass, property: u32) -> Shown
    ensures { result ≡ shown_of pass.now.marks property }
{
    pass.mark(property)
}

/// A look brings the list of its turn, with that turn behind it.
fn looked<R: Wait>(ledger: &Ledger, rt: &R, pass: &mut Pass) -> Result<(), AllocError>
    requires own { pass.old.home ≡ ledger.now.home }
    requires turns { pass.old.turns + 1 < 2 ^ 32 }
    ensures ok { OnOk result (HasLooked ledger.now pass.old pass.new) }
    ensures err { OnErr result (IsRefused pass.old pass.new) }
{
    ledger.look(rt, pass)
}

/// Who hands an outcome in is told whether it won, and shows it from then on.
fn finished<R: Wait>(
    ledger: &Ledger,
    rt: &R,
    pass: &mut Pass,
    property: u32,
    outcome: Outcome,
) -> Finished
    requires own { pass.old.home ≡ ledger.now.home }
    requires turns { pass.old.turns + 1 < 2 ^ 32 }
    requires served { Contains ledger.now.properties property }
    requires outcome { IsTrueOf ledger.now.circuit pass.old.list property outcome }
    ensures { HasFinished ledger.now pass.old property outcome result pass.new }
{
    ledger.finish(rt, pass, property, outcome)
}
