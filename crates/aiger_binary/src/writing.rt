//! The binary text of a model. The main call is `write`.

ghost use Rattle.std.specs.Prelude.{◌≡◌, ◌++◌, ◌≤◌, IfOk, OnOk, length};
ghost use Rattle.std.specs.List.{All, flat_map};
ghost use Rattle.aiger_grammar.specs.Ordered.{IsDescending, IsOrdered};
ghost use Rattle.aiger_grammar.specs.Spelling.{next_line, gate_deltas, binary_text};
ghost use Rattle.aiger_grammar.specs.BinaryTexts.{IsBinaryTextOf, HasBinaryForm};

use crate::deltas::push_delta;
use aig_semantics::{Gate, Latch, MAX_MODEL_BYTES, MAX_VARIABLE};
use aiger_names::{Model, push_names, push_next, push_properties};
use aiger_sections::push_header;
use std::alloc::{AllocError, Global};

/// The binary text of a model that is ordered, as `is_ordered` tells: zeros at the end of the header's last four numbers
/// are left out, a reset of 0 is left out, and everything stands in the model's order. It stands for the model, so where
/// it is no longer than what is read, 1,073,741,824 bytes, it is read as the model again. The error is want of memory.
pub fn write(alloc: Global, model: &Model) -> Result<Vec<u8>, AllocError>
    requires { IsOrdered model.now }
    ensures text { IfOk result (λ text. text.items ≡ binary_text model.now) }
    ensures stands { IfOk result (λ text. HasBinaryForm model.now text.items) }
    ensures read { IfOk result (λ text. length text.items ≤ MAX_MODEL_BYTES → IsBinaryTextOf model.now text.items) }
{
    let mut out = Vec::new(alloc);
    push_header(&mut out, "aig", &model.heading())?;
    push_latches(&mut out, model.circuit().latches())?;
    push_properties(&mut out, model)?;
    push_gates(&mut out, model.circuit().gates())?;
    push_names(&mut out, model.names())?;
    Ok(out)
}

fn push_latches(out: &mut Vec<u8>, latches: &[Latch]) -> Result<(), AllocError>
    requires { All (λ latch. latch.var ≤ MAX_VARIABLE) latches.now }
    ensures { OnOk result (out.new.items ≡ out.old.items ++ flat_map next_line latches.now) }
{
    for latch in latches {
        push_next(out, latch)?;
    }
    Ok(())
}

// The gates, in the model's order.
fn push_gates(out: &mut Vec<u8>, gates: &[Gate]) -> Result<(), AllocError>
    requires low { All (λ gate. gate.var ≤ MAX_VARIABLE) gates.now }
    requires descending { All IsDescending gates.now }
    ensures { OnOk result (out.new.items ≡ out.old.items ++ flat_map gate_deltas gates.now) }
{
    for gate in gates {
        push_gate(out, gate)?;
    }
    Ok(())
}

fn push_gate(out: &mut Vec<u8>, gate: &Gate) -> Result<(), AllocError>
    requires low { gate.now.var ≤ MAX_VARIABLE }
    requires descending { IsDescending gate.now }
    ensures { OnOk result (out.new.items ≡ out.old.items ++ gate_deltas gate.now) }
{
    push_delta(out, 2 * gate.var - gate.rhs0)?;
    push_delta(out, gate.rhs0 - gate.rhs1)
}
