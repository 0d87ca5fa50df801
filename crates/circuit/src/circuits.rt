//! A circuit that was checked, and its lists.

ghost use Rattle.std.specs.Prelude.{◌≡◌, ◌<◌, [], length, slice_index_or};
ghost use Rattle.aig_semantics.specs.Circuits.{IsChecked, IsWithinLimits};
ghost use Rattle.circuit.specs.Orders.{IsEvaluationOrder};

use crate::ordering::Order;
use aig_semantics::{Gate, Latch};
use items::Items;
use std::marker::Model;

/// A circuit that has a meaning, within this program's limits. Only `check_circuit` and `keep_circuit` make one.
#[derive(Drop)]
pub struct Circuit {
    pub(crate) greatest: u64,
    pub(crate) inputs: Items<u64>,
    pub(crate) latches: Items<Latch>,
    pub(crate) gates: Items<Gate>,
    pub(crate) constraints: Items<u64>,
    pub(crate) justice: Items<Items<u64>>,
    pub(crate) fairness: Items<u64>,
    /// An order in which the gates can be evaluated.
    pub(crate) order: Order,
}

impl Model for Circuit {
    ghost use Rattle.aig_semantics.specs.Circuits.{Circuit as CheckedCircuit};

    ghost Value = { CheckedCircuit };

    ghost use Rattle.circuit.specs.Kept.{seen_as, IsKept};

    ghost view = { seen_as };

    ghost invariant = { IsKept };
}

impl Circuit {
    /// The greatest variable.
    pub fn max(&self) -> u64
        ensures value { result ≡ self.now.max }
        ensures checked { IsChecked self.now }
        ensures limits { IsWithinLimits self.now }
    {
        self.greatest
    }

    /// The input variables.
    pub fn inputs(&self) -> &[u64]
        ensures { result.now ≡ self.now.inputs }
    {
        self.inputs.as_slice()
    }

    /// The latches.
    pub fn latches(&self) -> &[Latch]
        ensures { result.now ≡ self.now.latches }
    {
        self.latches.as_slice()
    }

    /// The gates.
    pub fn gates(&self) -> &[Gate]
        ensures { result.now ≡ self.now.gates }
    {
        self.gates.as_slice()
    }

    /// The gates in an order in which they can be evaluated, each after those that it reads.
    pub fn evaluation_order(&self) -> &[Gate]
        ensures order { IsEvaluationOrder self.now.gates result.now }
        ensures checked { IsChecked self.now }
    {
        match &self.order {
            Order::Given => self.gates.as_slice(),
            Order::Listed(order) => order,
        }
    }

    /// The constraint literals.
    pub fn constraints(&self) -> &[u64]
        ensures { result.now ≡ self.now.constraints }
    {
        self.constraints.as_slice()
    }

    /// How many justice properties there are.
    pub fn property_count(&self) -> usize
        ensures { result ≡ length self.now.justice }
    {
        self.justice.len()
    }

    /// The literals of property `j`, counted from 0.
    pub fn property(&self, j: usize) -> &[u64]
        requires { j < length self.now.justice }
        ensures { result.now ≡ slice_index_or self.now.justice j [] }
    {
        let literals = &self.justice.as_slice()[j];
        literals.as_slice()
    }

    /// The fairness literals.
    pub fn fairness(&self) -> &[u64]
        ensures { result.now ≡ self.now.fairness }
    {
        self.fairness.as_slice()
    }
}
