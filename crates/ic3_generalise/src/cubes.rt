//! Cubes of states, and whether they miss the starts. The main call is `based`.
ghost use Rattle.std.specs.Prelude.{◌≡◌, ◌||◌, true, IfOk, IfSome};
ghost use Rattle.proof_semantics.specs.Clauses.{cube_value, values_of, has_literal, lit_eq, is_part};
ghost use Rattle.ic3_generalise.specs.Cubes.{value_literals, misses_starts, IsOpposed, IsBased, with_literal};

use cnf::{Cube, Lit};
use std::alloc::{AllocError, Global};

/// The cube of one state: all its literals.
pub fn state_cube(alloc: Global, values: &[bool]) -> Result<Cube, AllocError>
    ensures { IfOk result (λ cube. cube ≡ value_literals 0 values.now) }
{
    let mut cube = Cube::new(alloc);
    for (n, value) in values.iter().enumerate() {
        cube.push(Lit {
            var: n as u64,
            positive: *value,
        })?;
    }
    Ok(cube)
}

/// Whether all literals of the cube are true in the state.
pub fn holds_in(cube: &Cube, state: &[bool]) -> bool
    ensures { result ≡ cube_value (values_of state.now) cube.now }
{
    cube.as_slice().iter().all(|literal| literal.holds(state))
}

/// Whether the cube misses the starts by one of its literals.
pub fn misses_starts(starts: &Cube, cube: &Cube) -> bool
    ensures { result ≡ misses_starts starts.now cube.now }
{
    starts
        .as_slice()
        .iter()
        .any(|literal| cube.contains(literal.negation()))
}

// A literal of the cube whose negation is one of the starts'.
fn opposed(starts: &Cube, cube: &Cube) -> Option<Lit>
    ensures { IfSome result (IsOpposed starts.now cube.now) }
{
    for literal in cube.as_slice() {
        if starts.contains(literal.negation()) {
            return Some(*literal);
        }
    }
    None
}

// Whether a literal stands in the part, or is a given one.
fn is_kept(part: &Cube, literal: Lit, other: Lit) -> bool
    ensures { result ≡ (has_literal part.now other || lit_eq other literal) }
{
    part.contains(other) || other == literal
}

// The literals of the cube that stand in the part, or are the given one, in the order of the cube.
fn with_literal(alloc: Global, cube: &Cube, part: &Cube, literal: Lit) -> Result<Cube, AllocError>
    ensures { IfOk result (λ longer. longer ≡ with_literal cube.now part.now literal) }
{
    let mut longer = Cube::new(alloc);
    for other in cube.as_slice() {
        if is_kept(part, literal, *other) {
            longer.push(*other)?;
        }
    }
    Ok(longer)
}

/// A part of a cube that misses the starts as the cube does: the given part, with a literal by which the cube misses them
/// where the part has none.
pub fn based(alloc: Global, starts: &Cube, cube: &Cube, part: Cube) -> Result<Cube, AllocError>
    requires misses { misses_starts starts.now cube.now ≡ true }
    requires among { is_part part cube.now ≡ true }
    ensures { IfOk result (IsBased starts.now cube.now part) }
{
    if misses_starts(starts, &part) {
        return Ok(part);
    }
    match opposed(starts, cube) {
        Some(literal) => with_literal(alloc, cube, &part, literal),
        None => cube.clone(),
    }
}
