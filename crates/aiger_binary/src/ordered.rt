//! Which models have a binary text. The main call is `is_ordered`.

ghost use Rattle.std.specs.Prelude.{◌≡◌, ◌↔◌, ◌+◌, ◌*◌, ◌<◌, ◌≤◌, ◌^◌, IsTrue, length};
ghost use Rattle.std.specs.List.{All};
ghost use Rattle.aiger_grammar.specs.Models.{IsModel};
ghost use Rattle.aiger_grammar.specs.Ordered.{IsDescending, IsOrdered, HasBinaryText};
ghost use Rattle.aiger_binary.specs.Numbered.{AreNumbered, IsInOrder};

use aig_semantics::{Gate, Latch};
use aiger_names::Model;

/// Whether a model has a binary text: its greatest variable is the number of inputs, latches and gates together, these
/// have the variables from 1 on in their order, and each gate's literal is above its first right side, which is not
/// below the second. Takes no memory.
pub fn is_ordered(model: &Model) -> bool
    ensures ordered { IsTrue result ↔ IsOrdered model.now }
    ensures text { IsTrue result ↔ HasBinaryText model.now }
{
    is_in_order(model)
}

fn is_in_order(model: &Model) -> bool
    ensures order { IsTrue result ↔ IsInOrder model.now }
    ensures model { IsModel model.now }
{
    let circuit = model.circuit();
    let inputs = circuit.inputs().len() as u64;
    let latches = circuit.latches().len() as u64;
    let gates = circuit.gates().len() as u64;
    circuit.max() == inputs + latches + gates
        && inputs_numbered(circuit.inputs(), 1)
        && latches_numbered(circuit.latches(), 1 + inputs)
        && gates_numbered(circuit.gates(), 1 + inputs + latches)
        && gates_descend(circuit.gates())
}

fn inputs_numbered(inputs: &[u64], first: u64) -> bool
    requires { first ≤ 2 ^ 40 }
    ensures { IsTrue result ↔ AreNumbered (λ v. v) first inputs.now }
{
    for (k, v) in inputs.iter().enumerate() {
        if *v != first + k as u64 {
            return false;
        }
    }
    true
}

fn latches_numbered(latches: &[Latch], first: u64) -> bool
    requires { first ≤ 2 ^ 40 }
    ensures { IsTrue result ↔ AreNumbered (λ latch. latch.var) first latches.now }
{
    for (k, latch) in latches.iter().enumerate() {
        if latch.var != first + k as u64 {
            return false;
        }
    }
    true
}

fn gates_numbered(gates: &[Gate], first: u64) -> bool
    requires { first ≤ 2 ^ 40 }
    ensures { IsTrue result ↔ AreNumbered (λ gate. gate.var) first gates.now }
{
    for (k, gate) in gates.iter().enumerate() {
        if gate.var != first + k as u64 {
            return false;
        }
    }
    true
}

fn gates_descend(gates: &[Gate]) -> bool
    ensures { IsTrue result ↔ All IsDescending gates.now }
{
    gates
        .iter()
        .all(|gate| gate.rhs0 / 2 < gate.var && gate.rhs1 <= gate.rhs0)
}
