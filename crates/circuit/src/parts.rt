//! What a reader of a model hands over to be checked. `is_in_range` tests what each number and each list shows by
//! itself; whether they make a circuit is for `check_circuit` and `keep_circuit`.

ghost use Rattle.std.specs.Prelude.{◌≡◌, ◌↔◌, ◌+◌, ◌*◌, ◌≤◌, length, All, IsTrue};

use aig_semantics::{Gate, Latch, MAX_NUMBER, MAX_PROPERTY_LITERALS, MAX_VARIABLE};
use items::Items;

/// The sections of a model, in the order of the file. `inputs` and the `var` of latches and gates are variables, all
/// other numbers are literals. No list has been checked.
#[derive(Drop)]
pub struct Parts {
    pub max: u64,
    pub inputs: Items<u64>,
    pub latches: Items<Latch>,
    pub gates: Items<Gate>,
    pub outputs: Items<u64>,
    pub bad: Items<u64>,
    pub constraints: Items<u64>,
    pub justice: Items<Items<u64>>,
    pub fairness: Items<u64>,
}

fn are_variables(variables: &[u64], max: u64) -> bool
    ensures { IsTrue result ↔ All (λ v. (1 ≤ v) × (v ≤ max)) variables.now }
{
    variables.iter().all(|v| 1 <= *v && *v <= max)
}

fn are_latch_variables(latches: &[Latch], max: u64) -> bool
    ensures { IsTrue result ↔ All (λ latch. (1 ≤ latch.var) × (latch.var ≤ max)) latches.now }
{
    latches
        .iter()
        .all(|latch| 1 <= latch.var && latch.var <= max)
}

fn are_literals(literals: &[u64], greatest: u64) -> bool
    ensures { IsTrue result ↔ All (λ literal. literal ≤ greatest) literals.now }
{
    literals.iter().all(|literal| *literal <= greatest)
}

fn are_gate_variables(gates: &[Gate], max: u64) -> bool
    ensures { IsTrue result ↔ All (λ gate. (1 ≤ gate.var) × (gate.var ≤ max)) gates.now }
{
    gates.iter().all(|gate| 1 <= gate.var && gate.var <= max)
}

fn are_latch_literals(latches: &[Latch], greatest: u64) -> bool
    ensures { IsTrue result ↔ All (λ latch. latch.next ≤ greatest) latches.now }
{
    latches.iter().all(|latch| latch.next <= greatest)
}

fn are_gate_literals(gates: &[Gate], greatest: u64) -> bool
    ensures { IsTrue result ↔ All (λ gate. (gate.rhs0 ≤ greatest) × (gate.rhs1 ≤ greatest)) gates.now }
{
    gates
        .iter()
        .all(|gate| gate.rhs0 <= greatest && gate.rhs1 <= greatest)
}

fn are_property_literals(justice: &[Items<u64>], greatest: u64) -> bool
    ensures { IsTrue result ↔ All (λ property. All (λ literal. literal ≤ greatest) property) justice.now }
{
    for property in justice {
        if !are_literals(property.as_slice(), greatest) {
            return false;
        }
    }
    true
}

fn is_short(property: usize, fairness: usize) -> bool
    ensures { IsTrue result ↔ (property + fairness ≤ MAX_PROPERTY_LITERALS) }
{
    let most = MAX_PROPERTY_LITERALS as usize;
    property <= most && fairness <= most - property
}

fn are_short_properties(justice: &[Items<u64>], fairness: usize) -> bool
    ensures { IsTrue result ↔ All (λ property. length property + fairness ≤ MAX_PROPERTY_LITERALS) justice.now }
{
    for property in justice {
        if !is_short(property.len(), fairness) {
            return false;
        }
    }
    true
}

impl Parts {
    ghost use Rattle.circuit.specs.Sections.{AreInRange};
    ghost use Rattle.circuit.specs.Fitting.{DefinesAll, UsesAll, HasFittingLengths, IsFitting};

    /// Whether the variables of inputs, latches and gates are from 1 to `max`, the literals at most `2 * max + 1`, and
    /// `max`, the properties and the lengths of the lists within this program's limits.
    pub fn is_in_range(&self) -> bool
        ensures { IsTrue result ↔ AreInRange self.now }
    {
        self.fits()
    }

    fn fits(&self) -> bool
        ensures { IsTrue result ↔ IsFitting self.now }
    {
        self.max <= MAX_VARIABLE
            && self.variables_fit()
            && self.literals_fit()
            && self.lengths_fit()
    }

    fn variables_fit(&self) -> bool
        ensures { IsTrue result ↔ DefinesAll (λ v. (1 ≤ v) × (v ≤ self.now.max)) self.now }
    {
        are_variables(self.inputs.as_slice(), self.max)
            && are_latch_variables(self.latches.as_slice(), self.max)
            && are_gate_variables(self.gates.as_slice(), self.max)
    }

    fn literals_fit(&self) -> bool
        requires { self.now.max ≤ MAX_VARIABLE }
        ensures { IsTrue result ↔ UsesAll (λ literal. literal ≤ 2 * self.now.max + 1) self.now }
    {
        let greatest = 2 * self.max + 1;
        are_latch_literals(self.latches.as_slice(), greatest)
            && are_gate_literals(self.gates.as_slice(), greatest)
            && are_literals(self.constraints.as_slice(), greatest)
            && are_property_literals(self.justice.as_slice(), greatest)
            && are_literals(self.fairness.as_slice(), greatest)
            && are_literals(self.outputs.as_slice(), greatest)
            && are_literals(self.bad.as_slice(), greatest)
    }

    fn lengths_fit(&self) -> bool
        ensures { IsTrue result ↔ HasFittingLengths self.now }
    {
        are_short_properties(self.justice.as_slice(), self.fairness.len())
            && self.inputs.len() as u64 <= MAX_NUMBER
            && self.latches.len() as u64 <= MAX_NUMBER
            && self.gates.len() as u64 <= MAX_NUMBER
            && self.constraints.len() as u64 <= MAX_NUMBER
            && self.justice.len() as u64 <= MAX_NUMBER
            && self.fairness.len() as u64 <= MAX_NUMBER
            && self.outputs.len() as u64 <= MAX_NUMBER
            && self.bad.len() as u64 <= MAX_NUMBER
    }
}
