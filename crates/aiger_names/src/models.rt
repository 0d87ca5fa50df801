//! A model: a circuit with its outputs, its bad state literals and its names.

ghost use Rattle.std.specs.Prelude.{◌≡◌};
ghost use Rattle.aig_semantics.specs.Circuits.{Circuit as CheckedCircuit};
ghost use Rattle.aiger_grammar.specs.declared.names.Names.{Names as NamesOf};
ghost use Rattle.aiger_grammar.specs.Models.{IsModel, heading_of};
ghost use Rattle.aiger_names.specs.Kept.{joined};

use aiger_grammar::{Heading, Names};
use circuit::Circuit;
use items::Items;

/// A model within the limits of this program: a checked circuit, at most 4,294,967,295 outputs and as many bad state
/// literals, each of a variable that is defined, and names of elements that are there.
#[derive(Drop)]
pub struct Model {
    circuit: Circuit,
    outputs: Items<u64>,
    bad: Items<u64>,
    names: Names,
}

impl std::marker::Model for Model {
    ghost use Rattle.aiger_grammar.specs.Models.{Model as ModelOf};

    ghost Value = { ModelOf };

    ghost use Rattle.aiger_names.specs.Seen.{seen_as, IsKept};

    ghost view = { seen_as };

    ghost invariant = { IsKept };
}

impl Model {
    /// The model of these parts.
    pub fn new(circuit: Circuit, outputs: Items<u64>, bad: Items<u64>, names: Names) -> Model
        requires { IsModel (joined circuit outputs bad names) }
        ensures { result ≡ joined circuit outputs bad names }
    {
        Model {
            circuit,
            outputs,
            bad,
            names,
        }
    }

    /// The circuit.
    pub fn circuit(&self) -> &Circuit
        ensures circuit { result.now ≡ self.now.circuit }
        ensures model { IsModel self.now }
    {
        &self.circuit
    }

    /// The output literals.
    pub fn outputs(&self) -> &[u64]
        ensures { result.now ≡ self.now.outputs }
    {
        self.outputs.as_slice()
    }

    /// The bad state literals.
    pub fn bad(&self) -> &[u64]
        ensures { result.now ≡ self.now.bad }
    {
        self.bad.as_slice()
    }

    /// The symbols and the comment.
    pub fn names(&self) -> &Names
        ensures { result.now ≡ self.now.names }
    {
        &self.names
    }

    /// The greatest variable, and how many elements each list has.
    pub fn heading(&self) -> Heading
        ensures { result ≡ heading_of self.now }
    {
        let circuit = &self.circuit;
        Heading {
            max: circuit.max(),
            inputs: circuit.inputs().len() as u64,
            latches: circuit.latches().len() as u64,
            outputs: self.outputs.len() as u64,
            gates: circuit.gates().len() as u64,
            bad: self.bad.len() as u64,
            constraints: circuit.constraints().len() as u64,
            justice: circuit.property_count() as u64,
            fairness: circuit.fairness().len() as u64,
        }
    }

    /// The circuit, without its outputs, bad state literals and names.
    pub fn into_circuit(self) -> Circuit
        ensures { result ≡ self.circuit }
    {
        let Model { circuit, .. } = self;
        circuit
    }
}
