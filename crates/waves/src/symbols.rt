//! The names that symbols give, in an ordered map. The main calls are `symbol_names` and `plain_name`.

ghost use Rattle.std.specs.Prelude.{◌≡◌, unwrap_or, IfOk, OnOk};
ghost use Rattle.waves.specs.Names.{label};
ghost use Rattle.waves.specs.Kept.{element_of, kept_name, GetsName, AreNamesOf};

use crate::names::{escaped, label};
use crate::wires::{Wire, letter_of};
use aiger_grammar::{JUSTICE, Symbol};
use std::alloc::{AllocError, Global};
use std::collections::BTreeMap;

/// The name that the last symbol of each element gives it, by the element's letter and index.
pub(crate) type SymbolNames = BTreeMap<(u8, u64), Vec<u8>>;

// The letter and the index of the symbols that name the wire.
fn element_of(wire: Wire) -> Option<(u8, u64)>
    ensures { result ≡ element_of wire }
{
    match wire {
        Wire::Element { section, index, .. } => Some((letter_of(section), index)),
        Wire::PropertyLiteral { property, .. } => Some((JUSTICE, property)),
        Wire::Loop => None,
    }
}

// Keeps the symbol's name, in place of that of an earlier symbol of its element.
fn keep_name(alloc: Global, names: &mut SymbolNames, symbol: &Symbol) -> Result<(), AllocError>
    ensures { OnOk result (GetsName names.old symbol.now names.new) }
{
    let name = escaped(alloc, symbol.name.as_slice())?;
    names.insert((symbol.letter, symbol.index), name)?;
    Ok(())
}

/// The names that these symbols give.
pub(crate) fn symbol_names(alloc: Global, symbols: &[Symbol]) -> Result<SymbolNames, AllocError>
    ensures { IfOk result (λ names. AreNamesOf symbols.now names) }
{
    let mut names = SymbolNames::new(alloc);
    for symbol in symbols {
        keep_name(alloc, &mut names, symbol)?;
    }
    Ok(names)
}

/// The name that symbols give the wire, or its label where they give none.
pub(crate) fn plain_name(
    alloc: Global,
    names: &SymbolNames,
    wire: Wire,
) -> Result<Vec<u8>, AllocError>
    ensures { IfOk result (λ name. name.items ≡ unwrap_or (kept_name names.now wire) (label wire)) }
{
    let Some(element) = element_of(wire) else {
        return label(alloc, wire);
    };
    let Some(name) = names.get(&element) else {
        return label(alloc, wire);
    };
    Vec::from_slice(alloc, name.as_slice())
}
