//! The text of a dump. The main call is `write`.

ghost use Rattle.std.specs.Prelude.{◌≡◌, ◌<◌, ◌≤◌, ◌+◌, ◌^◌, ◌++◌, ◌∷◌, [], length, map, All, IfOk, OnOk};
ghost use Rattle.text_grammar.specs.Lines.{ended_lines};
ghost use Rattle.aig_semantics.specs.Valuations.{valuation};
ghost use Rattle.aig_semantics.specs.Runs.{position_of, successor};
ghost use Rattle.aig_semantics.specs.Stimuli.{simulated, state_after};
ghost use Rattle.waves.specs.Dumps.{unrolled, range_text, width_text, var_line, comment_line, header_lines, time_line};
ghost use Rattle.waves.specs.Dumps.{digits_of, word_of, value_line, position_lines, run_lines, all_lines, waves_text};

use crate::signals::{Signal, signals_of};
use crate::wires::{Wire, value_in};
use aig_semantics::Lasso;
use aiger_names::Model;
use circuit::{Circuit, eval_into, next_into};
use items::Items;
use std::alloc::{AllocError, Global};
use text_grammar::push_number;

// The indices of a bus.
fn push_range(out: &mut Vec<u8>, signal: &Signal) -> Result<(), AllocError>
    ensures { OnOk result (out.new.items ≡ out.old.items ++ range_text signal.now) }
{
    let width = signal.wires.as_slice().len() as u64;
    if width < 2 {
        return Ok(());
    }
    let low = u64::from(signal.low);
    out.extend_from_slice(b" [")?;
    push_number(out, low + (width - 1))?;
    out.push(b':')?;
    push_number(out, low)?;
    out.push(b']')?;
    Ok(())
}

fn push_width(out: &mut Vec<u8>, signal: &Signal) -> Result<(), AllocError>
    ensures { OnOk result (out.new.items ≡ out.old.items ++ width_text signal.now) }
{
    out.extend_from_slice(b"$var wire ")?;
    push_number(out, signal.wires.len() as u64)?;
    out.push(b' ')?;
    Ok(())
}

fn push_var(out: &mut Vec<u8>, signal: &Signal) -> Result<(), AllocError>
    ensures { OnOk result (out.new.items ≡ out.old.items ++ (var_line signal.now ++ 10 ∷ [])) }
{
    push_width(out, signal)?;
    out.extend_from_slice(signal.code.as_slice())?;
    out.push(b' ')?;
    out.extend_from_slice(signal.name.as_slice())?;
    push_range(out, signal)?;
    out.extend_from_slice(b" $end\n")?;
    Ok(())
}

fn push_vars(out: &mut Vec<u8>, signals: &[Signal]) -> Result<(), AllocError>
    ensures { OnOk result (out.new.items ≡ out.old.items ++ ended_lines (map var_line signals.now)) }
{
    for signal in signals {
        push_var(out, signal)?;
    }
    Ok(())
}

fn push_header(out: &mut Vec<u8>, j: u32, signals: &[Signal]) -> Result<(), AllocError>
    ensures { OnOk result (out.new.items ≡ out.old.items ++ ended_lines (header_lines j signals.now)) }
{
    out.extend_from_slice(b"$timescale 1ns $end\n")?;
    push_comment(out, j)?;
    out.extend_from_slice(b"$scope module fairlive $end\n")?;
    push_vars(out, signals)?;
    out.extend_from_slice(b"$upscope $end\n$enddefinitions $end\n")?;
    Ok(())
}

// The program and the property.
fn push_comment(out: &mut Vec<u8>, j: u32) -> Result<(), AllocError>
    ensures { OnOk result (out.new.items ≡ out.old.items ++ (comment_line j ++ 10 ∷ [])) }
{
    out.extend_from_slice(b"$comment fairlive j")?;
    push_number(out, u64::from(j))?;
    out.extend_from_slice(b" $end\n")?;
    Ok(())
}

// The time of position t. A dump with a time of more than 64 bits is longer than any memory.
fn push_time(out: &mut Vec<u8>, t: u64) -> Result<(), AllocError>
    ensures { OnOk result (out.new.items ≡ out.old.items ++ (time_line t ++ 10 ∷ [])) }
{
    let Some(time) = t.checked_mul(10) else {
        return Err(AllocError);
    };
    out.push(b'#')?;
    push_number(out, time)?;
    out.push(b'\n')?;
    Ok(())
}

fn push_digits(
    out: &mut Vec<u8>,
    values: &[bool],
    looping: bool,
    wires: &[Wire],
) -> Result<(), AllocError>
    ensures { OnOk result (out.new.items ≡ out.old.items ++ digits_of values.now looping wires.now) }
{
    for wire in wires {
        let value = value_in(values, looping, *wire);
        out.push(if value { b'1' } else { b'0' })?;
    }
    Ok(())
}

// The value of a bus: a letter in front of its digits, and a space behind them.
fn push_word(
    out: &mut Vec<u8>,
    values: &[bool],
    looping: bool,
    wires: &[Wire],
) -> Result<(), AllocError>
    ensures { OnOk result (out.new.items ≡ out.old.items ++ word_of values.now looping wires.now) }
{
    if wires.len() < 2 {
        return push_digits(out, values, looping, wires);
    }
    out.push(b'b')?;
    push_digits(out, values, looping, wires)?;
    out.push(b' ')?;
    Ok(())
}

fn push_value(
    out: &mut Vec<u8>,
    values: &[bool],
    looping: bool,
    signal: &Signal,
) -> Result<(), AllocError>
    ensures { OnOk result (out.new.items ≡ out.old.items ++ (value_line values.now looping signal.now ++ 10 ∷ [])) }
{
    push_word(out, values, looping, signal.wires.as_slice())?;
    out.extend_from_slice(signal.code.as_slice())?;
    out.push(b'\n')?;
    Ok(())
}

fn push_values(
    out: &mut Vec<u8>,
    values: &[bool],
    looping: bool,
    signals: &[Signal],
) -> Result<(), AllocError>
    ensures { OnOk result (out.new.items ≡ out.old.items ++ ended_lines (map (value_line values.now looping) signals.now)) }
{
    for signal in signals {
        push_value(out, values, looping, signal)?;
    }
    Ok(())
}

// What the positions of a dump have in common.
#[derive(Clone, Copy)]
struct Dump<'a> {
    circuit: &'a Circuit,
    signals: &'a [Signal],
    from: u64,
}

// The position with these latches and inputs, whose number is t; `latches` gets its successor.
fn push_position(
    out: &mut Vec<u8>,
    dump: &Dump,
    t: u64,
    inputs: &[bool],
    latches: &mut [bool],
    values: &mut [bool],
) -> Result<(), AllocError>
    requires latches { length latches.old ≡ length dump.now.circuit.now.latches }
    requires inputs { length inputs.now ≡ length dump.now.circuit.now.inputs }
    requires values { length values.old ≡ dump.now.circuit.now.max + 1 }
    ensures text { OnOk result (out.new.items ≡ out.old.items
        ++ ended_lines (position_lines dump.now.circuit.now dump.now.from dump.now.signals.now t (position_of latches.old inputs.now))) }
    ensures next { latches.new ≡ successor dump.now.circuit.now (position_of latches.old inputs.now) }
    ensures room { length values.new ≡ length values.old }
{
    eval_into(dump.circuit, latches, inputs, values);
    next_into(dump.circuit, values, latches);
    push_time(out, t)?;
    push_values(out, values, dump.from <= t, dump.signals)
}

// The positions with these inputs, of which the first has the number `start`.
fn push_run(
    out: &mut Vec<u8>,
    dump: &Dump,
    start: u64,
    inputs: &[Items<bool>],
    latches: &mut [bool],
    values: &mut [bool],
) -> Result<(), AllocError>
    requires start { start < 2 ^ 63 }
    requires latches { length latches.old ≡ length dump.now.circuit.now.latches }
    requires inputs { All (λ now. length now ≡ length dump.now.circuit.now.inputs) inputs.now }
    requires values { length values.old ≡ dump.now.circuit.now.max + 1 }
    ensures text { OnOk result (out.new.items ≡ out.old.items
        ++ ended_lines
        (run_lines dump.now.circuit.now dump.now.from dump.now.signals.now start (simulated dump.now.circuit.now latches.old inputs.now))) }
    ensures next { OnOk result (latches.new ≡ state_after dump.now.circuit.now latches.old inputs.now) }
    ensures room { OnOk result (length values.new ≡ length values.old) }
{
    for (k, now) in inputs.iter().enumerate() {
        push_position(out, dump, start + k as u64, now.as_slice(), latches, values)?;
    }
    Ok(())
}

// The positions with these inputs and then with the others, and the time behind them.
fn push_positions(
    out: &mut Vec<u8>,
    dump: &Dump,
    inputs: &[Items<bool>],
    again: &[Items<bool>],
    latches: &mut [bool],
    values: &mut [bool],
) -> Result<(), AllocError>
    requires latches { length latches.old ≡ length dump.now.circuit.now.latches }
    requires inputs { All (λ now. length now ≡ length dump.now.circuit.now.inputs) inputs.now }
    requires again { All (λ now. length now ≡ length dump.now.circuit.now.inputs) again.now }
    requires values { length values.old ≡ dump.now.circuit.now.max + 1 }
    ensures { OnOk result (out.new.items ≡ out.old.items
        ++ ended_lines (all_lines dump.now.circuit.now dump.now.from dump.now.signals.now
        (simulated dump.now.circuit.now latches.old (inputs.now ++ again.now)))) }
{
    push_run(out, dump, 0, inputs, latches, values)?;
    push_run(out, dump, inputs.len() as u64, again, latches, values)?;
    push_time(out, inputs.len() as u64 + again.len() as u64)?;
    Ok(())
}

// The positions of the lasso, those of its loop once more, and the time behind them.
fn push_lasso(
    alloc: Global,
    out: &mut Vec<u8>,
    dump: &Dump,
    lasso: &Lasso,
) -> Result<(), AllocError>
    requires from { lasso.now.from < length lasso.now.inputs }
    requires start { length lasso.now.start ≡ length dump.now.circuit.now.latches }
    requires inputs { All (λ now. length now ≡ length dump.now.circuit.now.inputs) lasso.now.inputs }
    ensures { OnOk result (out.new.items ≡ out.old.items
        ++ ended_lines (all_lines dump.now.circuit.now dump.now.from dump.now.signals.now (unrolled dump.now.circuit.now lasso.now))) }
{
    let mut latches = Vec::from_slice(alloc, lasso.start.as_slice())?;
    let mut values = vec![in alloc; false; dump.circuit.max() as usize + 1]?;
    let inputs = lasso.inputs.as_slice();
    let (_, again) = inputs.split_at(lasso.from as usize);
    push_positions(out, dump, inputs, again, &mut latches, &mut values)
}

/// The waves of a lasso of property `j`, counted from 0: header, names, and the values at each position of the lasso and
/// of its loop once more, ten units of time each. The error is want of memory.
pub fn write(alloc: Global, model: &Model, j: u32, lasso: &Lasso) -> Result<Vec<u8>, AllocError>
    requires property { j < length model.now.circuit.justice }
    requires from { lasso.now.from < length lasso.now.inputs }
    requires start { length lasso.now.start ≡ length model.now.circuit.latches }
    requires inputs { All (λ now. length now ≡ length model.now.circuit.inputs) lasso.now.inputs }
    ensures { IfOk result (λ text. text.items ≡ waves_text model.now j lasso.now) }
{
    let signals = signals_of(alloc, model, j)?;
    let dump = Dump {
        circuit: model.circuit(),
        signals: &signals,
        from: lasso.from,
    };
    let mut out = Vec::new(alloc);
    push_header(&mut out, j, &signals)?;
    push_lasso(alloc, &mut out, &dump, lasso)?;
    Ok(out)
}
