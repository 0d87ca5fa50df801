//! Values written as lines, one behind the other. The main call is `push_lines`.

ghost use Rattle.std.specs.Prelude.{◌≡◌, ◌++◌, OnOk};
ghost use Rattle.std.specs.List.{flat_map};

use std::alloc::AllocError;

/// How a value is written.
pub trait WriteLine<X> {
    ghost use Rattle.std.specs.Prelude.{ℕ, List};

    /// The bytes of a value.
    ghost text: { Self → X → List ℕ };

    /// Writes a value at the end. The error is want of memory.
    fn push(&self, out: &mut Vec<u8>, value: &X) -> Result<(), AllocError>
        ensures { OnOk result (out.new.items ≡ out.old.items ++ text self.now value.now) };
}

/// Writes the values at the end, one behind the other. The error is want of memory.
pub fn push_lines<X, L: WriteLine<X>>(
    out: &mut Vec<u8>,
    line: &L,
    values: &[X],
) -> Result<(), AllocError>
    ensures { OnOk result (out.new.items ≡ out.old.items ++ flat_map (L.text line.now) values.now) }
{
    for value in values {
        line.push(out, value)?;
    }
    Ok(())
}
