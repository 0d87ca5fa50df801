//! A model sliced. The main call is `slice`.

ghost use Rattle.std.specs.Prelude.{◌≡◌, ◌↔◌, ◌≤◌, ◌<◌, length, IfOk, OnOk, IfErr};
ghost use Rattle.std.specs.List.{filter_map};
ghost use Rattle.aig_semantics.specs.Literals.{variable_in};
ghost use Rattle.aig_semantics.specs.Circuits.{IsChecked, AreDefined};
ghost use Rattle.circuit.specs.Keeping.{IsKeptOf};
ghost use Rattle.circuit.specs.Sections.{circuit_of, used_by, AreInRange};
ghost use Rattle.cone.specs.Cones.{AreMarksOf};
ghost use Rattle.live_to_safe.specs.BadRuns.{HasFairLasso};
ghost use Rattle.slice.specs.Symbols.{symbol_left};
ghost use Rattle.slice.specs.Slicing.{IsSlice};
ghost use Rattle.slice.specs.Steps.{sliced_parts};
ghost use Rattle.slice.specs.Ends.{EndsBy};

use crate::ends::SliceEnd;
use crate::sections::parts_of;
use crate::symbols::symbols_in;
use aiger_names::{Model, Names, Symbol};
use circuit::{Kept, ModelEnd, Parts, keep_circuit, one_valuation};
use cone::{Cone, cone_of};
use items::Items;
use std::alloc::{AllocError, Global};

/// The slice of the model for property `j`, counted from 0: the inputs, latches and gates of the property's cone, in their
/// order and with their numbers, with the constraints, this property alone, fairness, and the symbols of what is left. It
/// has a fair lasso of its property exactly where the model has one of property `j`. Time and memory are in proportion to
/// the model.
///
/// `NoProperty(j)` comes where there is no property `j`, else `Memory` where memory is wanted.
pub fn slice(alloc: Global, m: &Model, j: u32) -> Result<Model, SliceEnd>
    ensures slice { IfOk result (IsSlice m.now j) }
    ensures exact { IfOk result (λ s. HasFairLasso s.circuit 0 ↔ HasFairLasso m.now.circuit j) }
    ensures able { OnOk result (j < length m.now.circuit.justice) }
    ensures end { IfErr result (EndsBy m.now.circuit j) }
{
    if j as usize >= m.circuit().property_count() {
        return Err(SliceEnd::NoProperty(j));
    }
    Ok(sliced(alloc, m, j)?)
}

fn sliced(alloc: Global, m: &Model, j: u32) -> Result<Model, AllocError>
    requires { j < length m.now.circuit.justice }
    ensures slice { IfOk result (IsSlice m.now j) }
    ensures exact { IfOk result (λ s. HasFairLasso s.circuit 0 ↔ HasFairLasso m.now.circuit j) }
{
    let c = m.circuit();
    let _limits = c.max();
    let cone = cone_of(alloc, c, j)?;
    let symbols = symbols_in(alloc, m, j, &cone)?;
    let parts = parts_of(alloc, c, j as usize, &cone)?;
    let kept = kept_of(alloc, parts)?;
    Ok(named(m, j, &cone, kept, symbols))
}

// The circuit of sections in which nothing is wrong.
fn kept_of(alloc: Global, parts: Parts) -> Result<Kept, AllocError>
    requires in_range { AreInRange parts }
    requires checked { IsChecked (circuit_of parts) }
    requires defined { AreDefined (circuit_of parts) (used_by parts) }
    ensures { IfOk result (IsKeptOf parts) }
{
    match keep_circuit(alloc, parts) {
        Ok(kept) => Ok(kept),
        Err(ModelEnd::Memory) => Err(AllocError),
        Err(ModelEnd::Fault(_)) => unreachable!(),
    }
}

// The model of what was kept, with these symbols.
fn named(m: &Model, j: u32, cone: &Cone, kept: Kept, symbols: Items<Symbol>) -> Model
    requires able { j < length m.now.circuit.justice }
    requires cone { AreMarksOf m.now.circuit j cone.now }
    requires kept { IsKeptOf (sliced_parts m.now.circuit j (variable_in cone.now)) kept }
    requires symbols { symbols ≡ filter_map (symbol_left m.now.circuit j (variable_in cone.now)) m.now.names.symbols }
    ensures slice { IsSlice m.now j result }
    ensures exact { HasFairLasso result.circuit 0 ↔ HasFairLasso m.now.circuit j }
{
    let c = m.circuit();
    let _limits = c.max();
    one_valuation(c);
    one_valuation(&kept.circuit);
    let names = Names {
        symbols,
        comment: None,
    };
    Model::new(kept.circuit, kept.outputs, kept.bad, names)
}
