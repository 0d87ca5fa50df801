//! All properties of a circuit. The main call is `each_property`.

ghost use Rattle.std.specs.Prelude.{◌≡◌, ◌≤◌, length, IfOk};
ghost use Rattle.std.specs.List.{range_with_len};
ghost use Rattle.sheet_commands.specs.Each.{property_numbers, most_properties};

use circuit::Circuit;
use std::alloc::{AllocError, Global};

/// No model has more: each has a line of two bytes or more in its text, which has 1,073,741,824 at most.
const MOST_PROPERTIES: usize = 536_870_912;

/// The numbers of the circuit's properties, from 0 on. The error is want of memory, which is answered too where there are more
/// than a text of a model can have.
pub fn each_property(alloc: Global, circuit: &Circuit) -> Result<Vec<u32>, AllocError>
    ensures each { IfOk result (λ numbers. numbers.items ≡ property_numbers circuit.now) }
    ensures few { IfOk result (λ numbers. length numbers.items ≤ most_properties) }
{
    let count = circuit.property_count();
    if count > MOST_PROPERTIES {
        return Err(AllocError);
    }
    numbers_to(alloc, count as u32)
}

fn numbers_to(alloc: Global, count: u32) -> Result<Vec<u32>, AllocError>
    ensures { IfOk result (λ numbers. numbers.items ≡ range_with_len 0 count) }
{
    let mut numbers = Vec::new(alloc);
    for n in 0..count {
        numbers.push(n)?;
    }
    Ok(numbers)
}
