//! The wires of a dump. The main calls are `sources_of` and `later_wires_of`.

ghost use Rattle.std.specs.Prelude.{◌≡◌, ◌<◌, ◌≤◌, ◌*◌, ◌++◌, length, map, All, IfOk, OnOk};
ghost use Rattle.aig_semantics.specs.declared.limits.TheConstants.{MAX_VARIABLE as MOST};
ghost use Rattle.waves.specs.Wires.{letter_of, elements, property_literals, sources_of, later_wires_of, literal_of, value_in};

use aig_semantics::{Latch, MAX_VARIABLE};
use aiger_grammar::{BAD, CONSTRAINT, FAIRNESS, INPUT, LATCH, OUTPUT};
use aiger_names::Model;
use circuit::literal_value;
use std::alloc::{AllocError, Global};

/// A list of a model whose elements symbols name, one by one.
#[derive(Clone, Copy)]
pub enum Section {
    Inputs,
    Latches,
    Outputs,
    Bad,
    Constraints,
    Fairness,
}

/// What a wire of a dump shows.
#[derive(Clone, Copy)]
pub enum Wire {
    /// A literal of one of a model's lists, and its place in the list, counted from 0.
    Element {
        section: Section,
        index: u64,
        literal: u64,
    },
    /// A literal of a property: both counted from 0.
    PropertyLiteral {
        property: u64,
        place: u64,
        literal: u64,
    },
    /// Whether the position is in the loop.
    Loop,
}

/// The letter of the section's symbols.
pub(crate) fn letter_of(section: Section) -> u8
    ensures { result ≡ letter_of section }
{
    match section {
        Section::Inputs => INPUT,
        Section::Latches => LATCH,
        Section::Outputs => OUTPUT,
        Section::Bad => BAD,
        Section::Constraints => CONSTRAINT,
        Section::Fairness => FAIRNESS,
    }
}

// A wire for each literal of the section.
fn push_elements(
    wires: &mut Vec<Wire>,
    section: Section,
    literals: &[u64],
) -> Result<(), AllocError>
    ensures { OnOk result (wires.new.items ≡ wires.old.items ++ elements section 0 literals.now) }
{
    for (k, literal) in literals.iter().enumerate() {
        wires.push(Wire::Element {
            section,
            index: k as u64,
            literal: *literal,
        })?;
    }
    Ok(())
}

// A wire for each input.
fn push_inputs(wires: &mut Vec<Wire>, variables: &[u64]) -> Result<(), AllocError>
    requires { All (λ v. v ≤ MAX_VARIABLE) variables.now }
    ensures { OnOk result (wires.new.items ≡ wires.old.items ++ elements Section.Inputs 0 (map (λ v. 2 * v) variables.now)) }
{
    for (k, variable) in variables.iter().enumerate() {
        wires.push(Wire::Element {
            section: Section::Inputs,
            index: k as u64,
            literal: 2 * *variable,
        })?;
    }
    Ok(())
}

// A wire for each latch.
fn push_latches(wires: &mut Vec<Wire>, latches: &[Latch]) -> Result<(), AllocError>
    requires { All (λ latch. latch.var ≤ MAX_VARIABLE) latches.now }
    ensures { OnOk result (wires.new.items ≡ wires.old.items ++ elements Section.Latches 0 (map (λ latch. 2 * latch.var) latches.now)) }
{
    for (k, latch) in latches.iter().enumerate() {
        wires.push(Wire::Element {
            section: Section::Latches,
            index: k as u64,
            literal: 2 * latch.var,
        })?;
    }
    Ok(())
}

// A wire for each literal of a property.
fn push_property(wires: &mut Vec<Wire>, j: u64, literals: &[u64]) -> Result<(), AllocError>
    ensures { OnOk result (wires.new.items ≡ wires.old.items ++ property_literals j 0 literals.now) }
{
    for (k, literal) in literals.iter().enumerate() {
        wires.push(Wire::PropertyLiteral {
            property: j,
            place: k as u64,
            literal: *literal,
        })?;
    }
    Ok(())
}

/// The wires of a model's inputs and latches, in the order of a dump.
pub(crate) fn sources_of(alloc: Global, model: &Model) -> Result<Vec<Wire>, AllocError>
    ensures { IfOk result (λ wires. wires.items ≡ sources_of model.now) }
{
    let circuit = model.circuit();
    let mut wires = Vec::new(alloc);
    push_inputs(&mut wires, circuit.inputs())?;
    push_latches(&mut wires, circuit.latches())?;
    Ok(wires)
}

/// The other wires of a model and its property `j`, in the order of a dump.
pub(crate) fn later_wires_of(alloc: Global, model: &Model, j: u32) -> Result<Vec<Wire>, AllocError>
    requires { j < length model.now.circuit.justice }
    ensures { IfOk result (λ wires. wires.items ≡ later_wires_of model.now j) }
{
    let circuit = model.circuit();
    let mut wires = Vec::new(alloc);
    push_elements(&mut wires, Section::Outputs, model.outputs())?;
    push_elements(&mut wires, Section::Bad, model.bad())?;
    push_elements(&mut wires, Section::Constraints, circuit.constraints())?;
    push_property(&mut wires, u64::from(j), circuit.property(j as usize))?;
    push_elements(&mut wires, Section::Fairness, circuit.fairness())?;
    wires.push(Wire::Loop)?;
    Ok(wires)
}

/// The literal of a wire; the one that shows the loop has none.
pub(crate) fn literal_of(wire: Wire) -> Option<u64>
    ensures { result ≡ literal_of wire }
{
    match wire {
        Wire::Element { literal, .. } => Some(literal),
        Wire::PropertyLiteral { literal, .. } => Some(literal),
        Wire::Loop => None,
    }
}

/// The value of a wire at a position that is in the loop or not, where `values` is the valuation there.
pub(crate) fn value_in(values: &[bool], looping: bool, wire: Wire) -> bool
    ensures { result ≡ value_in values.now looping wire }
{
    match wire {
        Wire::Element { literal, .. } => literal_value(values, literal),
        Wire::PropertyLiteral { literal, .. } => literal_value(values, literal),
        Wire::Loop => looping,
    }
}
