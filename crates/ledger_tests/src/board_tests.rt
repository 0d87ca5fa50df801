//! What a board answers: to two workers that found the same, and to two lassos.

ghost use Rattle.std.specs.Prelude.{◌≡◌, ◌∷◌, []};
ghost use Rattle.std.specs.Arc.{arc_value};
ghost use Rattle.aig_semantics.specs.Examples.{stuck};
ghost use Rattle.wall_store.specs.Boards.{properties_of};
ghost use Rattle.ledger_tests.specs.Boards.{IsUnseen};

use crate::boards::{board_of, board_of_stuck, both_post, find, hand_in_fair, stuck};
use circuit::Circuit;
use entry::EntryEnd;
use std::alloc::{AllocError, Global};
use std::sync::Arc;
use std::test::*;
use wall_store::{Board, Finished, Posted};

// What two workers are told that post what they found, one after the other, where neither has seen an entry; and how
// many entries there are then.
fn told_of_posts(
    alloc: Global,
    c: &Arc<Circuit>,
    board: &mut Board,
) -> Result<(Posted, Posted, usize), EntryEnd>
    requires circuit { arc_value c.now ≡ stuck }
    requires first { IsUnseen board.old 0 }
    requires second { IsUnseen board.old 1 }
{
    let one = find(alloc, c, 0)?;
    let other = find(alloc, c, 1)?;
    let (first, second) = both_post(board, one, other);
    Ok((first, second, board.entries().len()))
}

fn posts_on(
    alloc: Global,
    c: &Arc<Circuit>,
    limit: u32,
) -> Result<(Posted, Posted, usize), EntryEnd>
    requires { arc_value c.now ≡ stuck }
{
    let mut board = board_of_stuck(alloc, c, limit.min(9))?;
    let told = told_of_posts(alloc, c, &mut board);
    drop(board);
    told
}

fn two_posts(alloc: Global, limit: u32) -> Result<(Posted, Posted, usize), Fail> {
    let c = Arc::new(alloc, stuck(alloc)?)?;
    let told = posts_on(alloc, &c, limit);
    drop(c);
    Ok(told?)
}

#[test]
fn posts(rt: HostRuntime) -> Result<(), Fail> {
    assert!(rt; two_posts(rt.alloc(), 2)? == (Posted::Appended(0), Posted::Stale(0), 1));
    assert!(rt; two_posts(rt.alloc(), 0)? == (Posted::Full, Posted::Full, 0));
    Ok(())
}

// What is told of a lasso that is handed in twice, with the open property before and after.
fn told_of(alloc: Global, c: &Circuit, board: &mut Board) -> Result<[bool; 5], AllocError>
    requires circuit { board.old.circuit ≡ c.now }
    requires workers { board.old.workers ≡ 1 }
    requires served { properties_of board.old.served ≡ 0 ∷ [] }
{
    let opened = board.next_open(0, 0) == Some(0);
    let looked = board.look(0) == 0;
    let won = hand_in_fair(alloc, c, board)? == Some(Finished::Won);
    let closed = hand_in_fair(alloc, c, board)? == Some(Finished::Closed);
    let none_open = board.next_open(0, 0) == None && board.outcome(0).is_some();
    Ok([opened, looked, won, closed, none_open])
}

// The same on a board of a latch that changes at each step. `None` comes where the circuit were another.
fn two_lassos(alloc: Global, c: &Arc<Circuit>) -> Result<Option<[bool; 5]>, AllocError> {
    if c.property_count() == 0 {
        return Ok(None);
    }
    let mut board = board_of(alloc, c)?;
    let told = told_of(alloc, &**c, &mut board);
    drop(board);
    Ok(Some(told?))
}

// That circuit.
fn toggle(alloc: Global) -> Result<Arc<Circuit>, Fail> {
    let model = aiger_ascii::read(alloc, "aag 1 0 1 0 0 0 0 1 0\n2 3\n1\n2\n".as_bytes())?;
    Ok(Arc::new(alloc, model.into_circuit())?)
}

#[test]
fn outcomes(rt: HostRuntime) -> Result<(), Fail> {
    let c = toggle(rt.alloc())?;
    assert!(rt; two_lassos(rt.alloc(), &c)? == Some([true; 5]));
    Ok(())
}
