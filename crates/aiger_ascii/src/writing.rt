//! The ASCII text of a model. The main call is `write`.

ghost use Rattle.std.specs.Prelude.{◌≡◌, ◌++◌, ◌≤◌, IfOk, OnOk, length};
ghost use Rattle.std.specs.List.{All, flat_map};
ghost use Rattle.aiger_grammar.specs.AsciiTexts.{IsAsciiTextOf};
ghost use Rattle.aiger_grammar.specs.Spelling.{input_line, latch_line, gate_line, ascii_text, HasAsciiForm};

use aig_semantics::{Gate, Latch, MAX_MODEL_BYTES, MAX_VARIABLE};
use aiger_names::{Model, push_names, push_next, push_properties};
use aiger_sections::push_header;
use std::alloc::{AllocError, Global};
use text_grammar::push_number;

/// The ASCII text of a model: zeros at the end of the header's last four numbers are left out, a reset of 0 is left
/// out, and all lines stand in the model's order. It stands for the model, so where it is no longer than what is read,
/// 1,073,741,824 bytes, it is read as the model again. The error is want of memory.
pub fn write(alloc: Global, model: &Model) -> Result<Vec<u8>, AllocError>
    ensures text { IfOk result (λ text. text.items ≡ ascii_text model.now) }
    ensures stands { IfOk result (λ text. HasAsciiForm model.now text.items) }
    ensures read { IfOk result (λ text. length text.items ≤ MAX_MODEL_BYTES → IsAsciiTextOf model.now text.items) }
{
    let mut out = Vec::new(alloc);
    push_header(&mut out, "aag", &model.heading())?;
    push_definitions(&mut out, model)?;
    push_properties(&mut out, model)?;
    push_gates(&mut out, model.circuit().gates())?;
    push_names(&mut out, model.names())?;
    Ok(out)
}

// The lines of the inputs and of the latches.
fn push_definitions(out: &mut Vec<u8>, model: &Model) -> Result<(), AllocError>
    ensures { OnOk result (out.new.items ≡ out.old.items
        ++ flat_map input_line model.now.circuit.inputs ++ flat_map latch_line model.now.circuit.latches) }
{
    let circuit = model.circuit();
    push_inputs(out, circuit.inputs())?;
    push_latches(out, circuit.latches())
}

fn push_inputs(out: &mut Vec<u8>, inputs: &[u64]) -> Result<(), AllocError>
    requires { All (λ v. v ≤ MAX_VARIABLE) inputs.now }
    ensures { OnOk result (out.new.items ≡ out.old.items ++ flat_map input_line inputs.now) }
{
    for v in inputs {
        push_number(out, 2 * *v)?;
        out.push(b'\n')?;
    }
    Ok(())
}

fn push_latches(out: &mut Vec<u8>, latches: &[Latch]) -> Result<(), AllocError>
    requires { All (λ latch. latch.var ≤ MAX_VARIABLE) latches.now }
    ensures { OnOk result (out.new.items ≡ out.old.items ++ flat_map latch_line latches.now) }
{
    for latch in latches {
        push_latch(out, latch)?;
    }
    Ok(())
}

fn push_latch(out: &mut Vec<u8>, latch: &Latch) -> Result<(), AllocError>
    requires { latch.now.var ≤ MAX_VARIABLE }
    ensures { OnOk result (out.new.items ≡ out.old.items ++ latch_line latch.now) }
{
    push_number(out, 2 * latch.var)?;
    out.push(b' ')?;
    push_next(out, latch)
}

// The lines of the gates, in the model's order.
fn push_gates(out: &mut Vec<u8>, gates: &[Gate]) -> Result<(), AllocError>
    requires { All (λ gate. gate.var ≤ MAX_VARIABLE) gates.now }
    ensures { OnOk result (out.new.items ≡ out.old.items ++ flat_map gate_line gates.now) }
{
    for gate in gates {
        push_gate(out, gate)?;
    }
    Ok(())
}

fn push_gate(out: &mut Vec<u8>, gate: &Gate) -> Result<(), AllocError>
    requires { gate.now.var ≤ MAX_VARIABLE }
    ensures { OnOk result (out.new.items ≡ out.old.items ++ gate_line gate.now) }
{
    push_number(out, 2 * gate.var)?;
    out.push(b' ')?;
    push_number(out, gate.rhs0)?;
    out.push(b' ')?;
    push_number(out, gate.rhs1)?;
    out.push(b'\n')?;
    Ok(())
}
