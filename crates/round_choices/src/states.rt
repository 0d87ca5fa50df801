//! What is read off states: cubes in which they lie, and values of single latches.

use cnf::{Cube, Lit};
use entry::Checked;
use fair_semantics::{Kind, Situation};
use items::Items;
use std::alloc::{AllocError, Global};
use std::sync::Arc;

// Whether each literal is true in the state.
fn holds(literals: &[Lit], state: &[bool]) -> bool {
    literals.iter().all(|literal| state.get(literal.var as usize).copied()
        == Some(literal.positive))
}

/// Whether the state lies in one of the cubes, whose variables are latches, counted from 0.
pub fn lies_in(cubes: &[Cube], state: &[bool]) -> bool {
    cubes.iter().any(|cube| holds(cube.as_slice(), state))
}

fn bit(values: &[bool], latch: usize) -> bool {
    values.get(latch).copied().unwrap_or(false)
}

/// A place of a skeleton: the state of a situation, counted from 0, or its successor.
#[derive(Clone, Copy)]
pub struct Place {
    pub situation: usize,
    pub after: bool,
}

/// The first place of a skeleton where the latch, counted from 0, has this value.
pub fn place_with(situations: &[Situation], latch: usize, value: bool) -> Option<Place> {
    for (number, situation) in situations.iter().enumerate() {
        if bit(situation.position.latches.as_slice(), latch) == value {
            return Some(Place {
                situation: number,
                after: false,
            });
        }
        if bit(situation.successor.as_slice(), latch) == value {
            return Some(Place {
                situation: number,
                after: true,
            });
        }
    }
    None
}

// The number of the latch of a wall of one latch.
fn latch_of(entry: &Checked) -> Option<u64> {
    let listed = entry.listed();
    match (listed.kind, listed.set.as_slice()) {
        (Kind::Wall, [clause]) => match clause.as_slice() {
            [literal] => Some(literal.var),
            _ => None,
        },
        _ => None,
    }
}

/// The values of a state in the latches of those entries that are walls of one latch, as literals over latches, counted from
/// 0, in the order of the entries. The error is want of memory.
pub fn wall_sides(
    alloc: Global,
    view: &[Arc<Checked>],
    state: &[bool],
) -> Result<Items<Lit>, AllocError> {
    let mut sides = Items::new(alloc);
    for entry in view {
        if let Some(latch) = latch_of(&**entry) {
            sides.push(Lit {
                var: latch,
                positive: bit(state, latch as usize),
            })?;
        }
    }
    Ok(sides)
}
