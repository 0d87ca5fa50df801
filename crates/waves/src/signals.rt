//! Signals: variables with their names and identifiers. The main call is `signals_of`.

ghost use Rattle.std.specs.Prelude.{◌≡◌, ◌<◌, ◌++◌, ◌∷◌, [], fold, length, IfOk, OnOk};
ghost use Rattle.waves.specs.Names.{identifier, has_name};
ghost use Rattle.waves.specs.Signals.{label_of, next_signal, with_signal, signals_of};

use crate::buses::{Variable, variables_of};
use crate::groups::gather;
use crate::named::named_wires;
use crate::names::{label, next_identifier, set_apart};
use crate::wires::Wire;
use aiger_names::Model;
use items::Items;
use std::alloc::{AllocError, Global};
use std::collections::BTreeSet;

/// A variable of a dump, a bus or one wire, with its name and its identifier, which no other signal of the dump has.
#[derive(Drop)]
pub struct Signal {
    /// Of a bus the one of the highest index first.
    pub wires: Items<Wire>,
    /// The lowest index of a bus, and of one wire 0.
    pub low: u32,
    /// At least one byte, each from 33 to 126.
    pub name: Items<u8>,
    /// At least one byte, each from 33 to 126.
    pub code: Items<u8>,
}

/// Signals with the set of their names, in which a name is found without going over all signals.
#[derive(Drop)]
pub(crate) struct Signals {
    list: Vec<Signal>,
    names: BTreeSet<Vec<u8>>,
}

impl std::marker::Model for Signals {
    ghost use Rattle.std.specs.Prelude.{List};
    ghost use Rattle.waves.specs.declared.signals.Signal.{Signal as OneSignal};

    ghost Value = { List OneSignal };

    ghost use Rattle.waves.specs.Kept.{AreKeysOf};

    ghost view = { λ s. s.list.items };

    ghost invariant = { λ s. AreKeysOf s.list.items s.names };
}

impl Signals {
    fn new(alloc: Global) -> Signals
        ensures { result ≡ [] }
    {
        Signals {
            list: Vec::new(alloc),
            names: BTreeSet::new(alloc),
        }
    }

    /// Whether one of the signals has the name.
    pub(crate) fn has_name(&self, name: &[u8]) -> bool
        ensures { result ≡ has_name self.now name.now }
    {
        self.names.contains(name)
    }

    // Puts a signal behind the others.
    fn push(&mut self, alloc: Global, signal: Signal) -> Result<(), AllocError>
        ensures { OnOk result (self.new ≡ self.old ++ signal ∷ []) }
    {
        let name = Vec::from_slice(alloc, signal.name.as_slice())?;
        self.list.reserve(1)?;
        self.names.insert(name)?;
        self.list.push_reserved(signal);
        Ok(())
    }

    fn into_vec(self) -> Vec<Signal>
        ensures { result.items ≡ self }
    {
        let Signals { list, names } = self;
        drop(names);
        list
    }
}

// The label of the first wire.
fn label_of(alloc: Global, wires: &[Wire]) -> Result<Vec<u8>, AllocError>
    ensures { IfOk result (λ text. text.items ≡ label_of wires.now) }
{
    match wires {
        [first, ..] => label(alloc, *first),
        [] => Ok(Vec::new(alloc)),
    }
}

// The name of a variable behind signals.
fn name_of(alloc: Global, signals: &Signals, variable: &Variable) -> Result<Vec<u8>, AllocError>
    ensures { IfOk result (λ name. name.items ≡ (next_signal signals.now variable.now).name) }
{
    let label = label_of(alloc, variable.wires.as_slice())?;
    let name = Vec::from_slice(alloc, variable.name.as_slice())?;
    set_apart(signals, &label, name)
}

// The signal of a variable behind others.
fn next_signal(
    alloc: Global,
    signals: &Signals,
    variable: &Variable,
    code: &[u8],
) -> Result<Signal, AllocError>
    requires { code.now ≡ identifier (length signals.now) }
    ensures { IfOk result (λ signal. signal ≡ next_signal signals.now variable.now) }
{
    let name = name_of(alloc, signals, variable)?;
    Ok(Signal {
        wires: variable.wires.try_copy(alloc)?,
        low: variable.low,
        name: Items::from_vec(name),
        code: Items::from_slice(alloc, code)?,
    })
}

/// The signals of a model and its property `j`, in the order of a dump.
pub(crate) fn signals_of(alloc: Global, model: &Model, j: u32) -> Result<Vec<Signal>, AllocError>
    requires { j < length model.now.circuit.justice }
    ensures { IfOk result (λ signals. signals.items ≡ signals_of model.now j) }
{
    let wires = named_wires(alloc, model, j)?;
    let groups = gather(alloc, &wires)?;
    let variables = variables_of(alloc, &groups)?;
    named(alloc, &variables)
}

// The signals of variables.
fn named(alloc: Global, variables: &[Variable]) -> Result<Vec<Signal>, AllocError>
    ensures { IfOk result (λ signals. signals.items ≡ fold with_signal [] variables.now) }
{
    let mut signals = Signals::new(alloc);
    let mut code = vec![in alloc; 33; 1]?;
    for variable in variables {
        let signal = next_signal(alloc, &signals, variable, &code)?;
        signals.push(alloc, signal)?;
        code = next_identifier(alloc, &code)?;
    }
    Ok(signals.into_vec())
}
