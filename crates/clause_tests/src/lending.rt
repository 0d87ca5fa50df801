//! What was pushed is read back after many later pushes.
ghost use Rattle.clause_arena.specs.Lending.{StaysLent};

use clause_arena::Arena;
use std::alloc::{AllocError, Global};
use std::test::Fail;

// Pushes each number below 100 twice.
fn push_pairs(arena: &mut Arena<u32>) -> Result<(), AllocError>
    ensures { StaysLent arena.old arena.new }
{
    'pushes: for value in 0u32..100 {
        arena.push(&[value, value])?;
    }
    Ok(())
}

// Whether each list that was pushed is lent, behind a hundred more.
fn are_lent(arena: &mut Arena<u32>) -> Result<[bool; 3], AllocError> {
    let first = arena.push(&[3, 1, 4])?;
    let empty = arena.push(&[])?;
    let second = arena.push(&[1, 5])?;
    push_pairs(arena)?;
    Ok([
        arena.get(first) == [3, 1, 4].as_slice(),
        arena.get(empty).is_empty(),
        arena.get(second) == [1, 5].as_slice(),
    ])
}

fn are_lent_anew(alloc: Global) -> Result<[bool; 3], AllocError> {
    let mut arena: Arena<u32> = Arena::new(alloc);
    let lent = are_lent(&mut arena);
    drop(arena);
    lent
}

#[test]
fn arena_lends_what_was_pushed(rt: HostRuntime) -> Result<(), Fail> {
    assert!(rt; are_lent_anew(rt.alloc())? == [true; 3]);
    Ok(())
}
