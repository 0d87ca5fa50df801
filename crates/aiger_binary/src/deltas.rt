//! Deltas, written.

ghost use Rattle.std.specs.Prelude.{◌≡◌, ◌++◌, ◌≤◌, OnOk, nat_lt};
ghost use Rattle.aiger_grammar.specs.Deltas.{delta_text};

use aig_semantics::MAX_NUMBER;
use std::alloc::AllocError;

/// Writes a delta at the end, in groups of seven bits, the low group first. The error is want of memory.
pub fn push_delta(out: &mut Vec<u8>, n: u64) -> Result<(), AllocError>
    requires { n ≤ MAX_NUMBER }
    ensures { OnOk result (out.new.items ≡ out.old.items ++ delta_text n) }
{
    let mut left = n;
    for _ in 0..4_u64 {
        if is_last(left) {
            out.push(left as u8)?;
            return Ok(());
        }
        out.push((left % 128 + 128) as u8)?;
        left /= 128;
    }
    out.push(left as u8)?;
    Ok(())
}

// Whether what is left of a number is its last group.
fn is_last(left: u64) -> bool
    ensures { result ≡ nat_lt left 128 }
{
    left < 128
}
