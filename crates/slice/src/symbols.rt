//! The symbols of a slice: those of what is left, under their new places.

ghost use Rattle.std.specs.Prelude.{◌≡◌, ◌++◌, map, IfOk, OnOk, None, slice_index_or};
ghost use Rattle.std.specs.List.{filter_map};
ghost use Rattle.std.specs.Option.{option_to_list};
ghost use Rattle.aig_semantics.specs.Literals.{variable_in};
ghost use Rattle.slice.specs.Steps.{places_left, property_left, index_by, symbol_by, places_for};
ghost use Rattle.slice.specs.Symbols.{symbol_left, at_place};

use aiger_grammar::{CONSTRAINT, FAIRNESS, INPUT, JUSTICE, LATCH};
use aiger_names::{Model, Symbol};
use circuit::Circuit;
use cone::Cone;
use items::Items;
use std::alloc::{AllocError, Global};

// The new places of a list of variables, of which those in the cone are left.
fn places_of(
    alloc: Global,
    variables: &[u64],
    cone: &Cone,
) -> Result<Items<Option<u64>>, AllocError>
    ensures { IfOk result (λ places. places ≡ places_left (variable_in cone.now) 0 variables.now) }
{
    let mut places = Items::new(alloc);
    let mut next = 0;
    for variable in variables {
        if cone.has(*variable) {
            places.push(Some(next))?;
            next += 1;
        } else {
            places.push(None)?;
        }
    }
    Ok(places)
}

fn latch_variables(alloc: Global, c: &Circuit) -> Result<Items<u64>, AllocError>
    ensures { IfOk result (λ variables. variables ≡ map (λ latch. latch.var) c.now.latches) }
{
    let mut variables = Items::new(alloc);
    for latch in c.latches() {
        variables.push(latch.var)?;
    }
    Ok(variables)
}

// The new places of inputs and of latches, and the number of the property.
#[derive(Drop)]
struct Places {
    inputs: Items<Option<u64>>,
    latches: Items<Option<u64>>,
    property: u64,
}

fn place_in(places: &[Option<u64>], index: u64) -> Option<u64>
    ensures { result ≡ slice_index_or places.now index None }
{
    match places.get(index as usize) {
        Some(place) => *place,
        None => None,
    }
}

fn property_place(property: u64, index: u64) -> Option<u64>
    ensures { result ≡ property_left property index }
{
    if index == property { Some(0) } else { None }
}

impl Places {
    // The new place of what a symbol names, where it is left.
    fn of(&self, symbol: &Symbol) -> Option<u64>
        ensures { result ≡ index_by self.now.inputs self.now.latches self.now.property symbol.now }
    {
        if symbol.letter == INPUT {
            return place_in(self.inputs.as_slice(), symbol.index);
        }
        if symbol.letter == LATCH {
            return place_in(self.latches.as_slice(), symbol.index);
        }
        if symbol.letter == JUSTICE {
            return property_place(self.property, symbol.index);
        }
        if symbol.letter == CONSTRAINT {
            return Some(symbol.index);
        }
        if symbol.letter == FAIRNESS {
            return Some(symbol.index);
        }
        None
    }
}

// Puts the symbol at the end under its new place, where it has one.
fn push_left(
    alloc: Global,
    symbol: &Symbol,
    place: Option<u64>,
    left: &mut Items<Symbol>,
) -> Result<(), AllocError>
    ensures { OnOk result (left.new ≡ left.old ++ option_to_list (at_place symbol.now place)) }
{
    if let Some(index) = place {
        let name = symbol.name.try_copy(alloc)?;
        left.push(Symbol {
            letter: symbol.letter,
            index,
            name,
        })?;
    }
    Ok(())
}

fn places_in(alloc: Global, c: &Circuit, j: u32, cone: &Cone) -> Result<Places, AllocError>
    ensures { IfOk result (λ places. places ≡ places_for c.now j (variable_in cone.now)) }
{
    let latches = latch_variables(alloc, c)?;
    Ok(Places {
        inputs: places_of(alloc, c.inputs(), cone)?,
        latches: places_of(alloc, latches.as_slice(), cone)?,
        property: u64::from(j),
    })
}

fn symbols_by(
    alloc: Global,
    symbols: &[Symbol],
    places: &Places,
) -> Result<Items<Symbol>, AllocError>
    ensures { IfOk result (λ left. left ≡ filter_map (symbol_by places.now) symbols.now) }
{
    let mut left = Items::new(alloc);
    for symbol in symbols {
        push_left(alloc, symbol, places.of(symbol), &mut left)?;
    }
    Ok(left)
}

/// The symbols of the slice for property `j`.
pub(crate) fn symbols_in(
    alloc: Global,
    m: &Model,
    j: u32,
    cone: &Cone,
) -> Result<Items<Symbol>, AllocError>
    ensures { IfOk result (λ left.
        left ≡ filter_map (symbol_left m.now.circuit j (variable_in cone.now)) m.now.names.symbols) }
{
    let places = places_in(alloc, m.circuit(), j, cone)?;
    symbols_by(alloc, m.names().symbols.as_slice(), &places)
}
