//! Wires with their names, without those that are an input or a latch once more. The main call is `named_wires`.

ghost use Rattle.std.specs.Prelude.{◌≡◌, ◌<◌, ◌≤◌, [], length, IfOk, OnOk};
ghost use Rattle.waves.specs.Names.{named_wires};
ghost use Rattle.waves.specs.Kept.{AreSources, GetsSource, IsDoubledIn, GetsWire, GetsWires, AreNamed};

use crate::symbols::{SymbolNames, plain_name, symbol_names};
use crate::wires::{Wire, later_wires_of, literal_of, sources_of};
use aiger_names::Model;
use items::Items;
use std::alloc::{AllocError, Global};
use std::collections::BTreeSet;

/// A wire with the name that symbols give it, or else its label.
#[derive(Drop)]
pub struct Named {
    pub wire: Wire,
    pub name: Items<u8>,
}

// The literals of wires with their names.
type Sources = BTreeSet<(u64, Vec<u8>)>;

fn keep_source(alloc: Global, sources: &mut Sources, named: &Named) -> Result<(), AllocError>
    ensures { OnOk result (GetsSource sources.old named.now sources.new) }
{
    let Some(literal) = literal_of(named.wire) else {
        return Ok(());
    };
    let name = Vec::from_slice(alloc, named.name.as_slice())?;
    sources.insert((literal, name))?;
    Ok(())
}

fn sources_among(alloc: Global, wires: &[Named]) -> Result<Sources, AllocError>
    ensures { IfOk result (λ sources. AreSources sources wires.now) }
{
    let mut sources = Sources::new(alloc);
    for named in wires {
        keep_source(alloc, &mut sources, named)?;
    }
    Ok(sources)
}

// Whether one of the sources has the literal and the name.
fn is_doubled(
    alloc: Global,
    sources: &Sources,
    literal: Option<u64>,
    name: &[u8],
) -> Result<bool, AllocError>
    ensures { IfOk result (λ is. IsDoubledIn sources.now literal name.now is) }
{
    let Some(literal) = literal else {
        return Ok(false);
    };
    let key = (literal, Vec::from_slice(alloc, name)?);
    Ok(sources.contains(&key))
}

// The wire with its name, where it is no second one of a source.
fn push_wire(
    alloc: Global,
    names: &SymbolNames,
    sources: &Sources,
    wires: &mut Vec<Named>,
    wire: Wire,
) -> Result<(), AllocError>
    ensures { OnOk result (GetsWire names.now sources.now wires.old.items wire wires.new.items) }
{
    let name = plain_name(alloc, names, wire)?;
    if is_doubled(alloc, sources, literal_of(wire), &name)? {
        return Ok(());
    }
    wires.push(Named {
        wire,
        name: Items::from_vec(name),
    })?;
    Ok(())
}

fn push_wires(
    alloc: Global,
    names: &SymbolNames,
    sources: &Sources,
    named: &mut Vec<Named>,
    wires: &[Wire],
) -> Result<(), AllocError>
    ensures { OnOk result (GetsWires names.now sources.now named.old.items wires.now named.new.items) }
{
    for wire in wires {
        push_wire(alloc, names, sources, named, *wire)?;
    }
    Ok(())
}

// The wires of inputs and latches, and then the others.
fn push_all(
    alloc: Global,
    names: &SymbolNames,
    named: &mut Vec<Named>,
    sources: &[Wire],
    later: &[Wire],
) -> Result<(), AllocError>
    requires { named.old.items ≡ [] }
    ensures { OnOk result (AreNamed names.now sources.now later.now named.new.items) }
{
    let none = Sources::new(alloc);
    push_wires(alloc, names, &none, named, sources)?;
    let known = sources_among(alloc, named)?;
    push_wires(alloc, names, &known, named, later)
}

/// The wires of a model and its property `j` with their names, in the order of a dump.
pub(crate) fn named_wires(alloc: Global, model: &Model, j: u32) -> Result<Vec<Named>, AllocError>
    requires { j < length model.now.circuit.justice }
    ensures { IfOk result (λ wires. wires.items ≡ named_wires model.now j) }
{
    let names = symbol_names(alloc, model.names().symbols.as_slice())?;
    let sources = sources_of(alloc, model)?;
    let later = later_wires_of(alloc, model, j)?;
    let mut wires = Vec::new(alloc);
    push_all(alloc, &names, &mut wires, &sources, &later)?;
    Ok(wires)
}
