//! Dumps of small models, worked out by hand.
ghost use Rattle.std.specs.Prelude.{◌≡◌, ◌↔◌, ◌<◌, length, All, IsTrue};

use aig_semantics::Lasso;
use aiger_names::Model;
use circuit::{Circuit, ModelEnd};
use items::Items;
use std::alloc::{AllocError, Global};
use std::test::*;
use waves::write;

// Whether each list of values has one for each input.
fn inputs_fit(circuit: &Circuit, lasso: &Lasso) -> bool
    ensures { IsTrue result ↔ All (λ now. length now ≡ length circuit.now.inputs) lasso.now.inputs }
{
    let width = circuit.inputs().len();
    lasso.inputs.as_slice().iter().all(|now| now.len() == width)
}

// The dump of the lasso, where it fits the model.
fn dump(alloc: Global, model: &Model, j: u32, lasso: &Lasso) -> Result<Vec<u8>, AllocError> {
    let circuit = model.circuit();
    if j as usize >= circuit.property_count() || lasso.from >= lasso.inputs.len() as u64 {
        return Err(AllocError);
    }
    if lasso.start.len() != circuit.latches().len() || !inputs_fit(circuit, lasso) {
        return Err(AllocError);
    }
    write(alloc, model, j, lasso)
}

// A digit for each value.
fn values(alloc: Global, digits: &[u8]) -> Result<Items<bool>, AllocError> {
    let mut list = Items::new(alloc);
    for digit in digits {
        list.push(*digit == b'1')?;
    }
    Ok(list)
}

// A list of values for each text of digits.
fn rows_of(alloc: Global, texts: &[&[u8]]) -> Result<Items<Items<bool>>, AllocError> {
    let mut rows = Items::new(alloc);
    for digits in texts {
        rows.push(values(alloc, digits)?)?;
    }
    Ok(rows)
}

fn lasso_of(alloc: Global, start: &[u8], inputs: &[&[u8]], from: u64) -> Result<Lasso, AllocError> {
    let start = values(alloc, start)?;
    let inputs = rows_of(alloc, inputs)?;
    Ok(Lasso {
        start,
        inputs,
        from,
    })
}

// The call on a text; no clause of its contract is wanted here.
fn read_ascii(alloc: Global, text: &[u8]) -> Result<Model, ModelEnd> {
    aiger_ascii::read(alloc, text)
}

/// The model of an ASCII text.
pub(crate) fn model_of(alloc: Global, text: &[u8]) -> Result<Model, AllocError> {
    match read_ascii(alloc, text) {
        Ok(model) => Ok(model),
        Err(_) => Err(AllocError),
    }
}

fn is_dump_of(
    alloc: Global,
    model: &Model,
    lasso: &Lasso,
    text: &[u8],
) -> Result<bool, AllocError> {
    let written = dump(alloc, model, 0, lasso)?;
    Ok(written.as_slice() == text)
}

fn is_dump_from(
    alloc: Global,
    model: &[u8],
    lasso: &Lasso,
    text: &[u8],
) -> Result<bool, AllocError> {
    let model = model_of(alloc, model)?;
    let is_so = is_dump_of(alloc, &model, lasso, text);
    drop(model);
    is_so
}

// Whether the dump of the model's first property is this text.
fn is_dump(
    alloc: Global,
    model: &[u8],
    start: &[u8],
    inputs: &[&[u8]],
    from: u64,
    text: &[u8],
) -> Result<bool, AllocError> {
    let lasso = lasso_of(alloc, start, inputs, from)?;
    is_dump_from(alloc, model, &lasso, text)
}

// A latch that takes its negation, from 0 on; the property is that it is 1.
pub(crate) const TOGGLE: &[u8] = b"aag 1 0 1 0 0 0 0 1\n2 3\n1\n2\n";

pub(crate) const TOGGLE_DUMP: &[u8] = b"$timescale 1ns $end
$comment fairlive j0 $end
$scope module fairlive $end
$var wire 1 ! l0 $end
$var wire 1 \" j0.0 $end
$var wire 1 # loop $end
$upscope $end
$enddefinitions $end
#0
0!
0\"
1#
#10
1!
1\"
1#
#20
0!
0\"
1#
#30
1!
1\"
1#
#40
";

// An input, a latch that keeps 0, an output, a bad state literal, a constraint, a property of two literals and fairness,
// each with a symbol: with a space, a percent sign, one that is another's label, two for one element, one named loop.
const NAMED: &[u8] =
    b"aag 2 1 1 1 0 1 1 1 1\n2\n4 4\n2\n5\n5\n2\n2\n5\n3\ni0 a b%\nl0 loop\no0 i0\nb0 old\nb0 new\nc0 new\nj0 fair\nf0 \x80\nc\nnames\n";

const NAMED_DUMP: &[u8] = b"$timescale 1ns $end
$comment fairlive j0 $end
$scope module fairlive $end
$var wire 1 ! a%20b%25 $end
$var wire 1 \" loop $end
$var wire 1 # i0 $end
$var wire 1 $ new $end
$var wire 1 % new.c0 $end
$var wire 1 & fair $end
$var wire 1 ' fair.j0.1 $end
$var wire 1 ( %80 $end
$var wire 1 ) loop.loop $end
$upscope $end
$enddefinitions $end
#0
1!
0\"
1#
1$
1%
1&
1'
0(
0)
#10
0!
0\"
0#
1$
1%
0&
1'
1(
1)
#20
1!
0\"
1#
1$
1%
1&
1'
0(
1)
#30
0!
0\"
0#
1$
1%
0&
1'
1(
1)
#40
1!
0\"
1#
1$
1%
1&
1'
0(
1)
#50
";

// Two inputs and two latches, both the bits of a bus of one name, the inputs' higher one first; outputs that are a latch
// under its own name, and the same latch negated.
const BUSES: &[u8] =
    b"aag 4 2 2 2 0 0 0 1\n2\n4\n6 2\n8 4\n6\n7\n1\n6\ni0 w[1]\ni1 w[0]\nl0 w[0]\nl1 w[1]\no0 w[0]\no1 w[0]\n";

const BUSES_DUMP: &[u8] = b"$timescale 1ns $end
$comment fairlive j0 $end
$scope module fairlive $end
$var wire 2 ! w [1:0] $end
$var wire 2 \" w.l1 [1:0] $end
$var wire 1 # w[0] $end
$var wire 1 $ j0.0 $end
$var wire 1 % loop $end
$upscope $end
$enddefinitions $end
#0
b10 !
b00 \"
1#
0$
0%
#10
b10 !
b01 \"
0#
1$
1%
#20
b10 !
b01 \"
0#
1$
1%
#30
";

// Indices with a gap, and a bit alone.
const BITS: &[u8] = b"aag 3 2 1 0 0 0 0 1\n2\n4\n6 6 6\n1\n6\ni0 v[3]\ni1 v[1]\nl0 u[0]\n";

const BITS_DUMP: &[u8] = b"$timescale 1ns $end
$comment fairlive j0 $end
$scope module fairlive $end
$var wire 1 ! v[3] $end
$var wire 1 \" v[1] $end
$var wire 1 # u[0] $end
$var wire 1 $ j0.0 $end
$var wire 1 % loop $end
$upscope $end
$enddefinitions $end
#0
1!
0\"
1#
1$
1%
#10
1!
0\"
1#
1$
1%
#20
";

// No input and no latch: a property without a literal.
pub(crate) const NOTHING: &[u8] = b"aag 0 0 0 0 0 0 0 1\n0\n";

pub(crate) const NOTHING_DUMP: &[u8] = b"$timescale 1ns $end
$comment fairlive j0 $end
$scope module fairlive $end
$var wire 1 ! loop $end
$upscope $end
$enddefinitions $end
#0
1!
#10
1!
#20
";

fn are_dumps(alloc: Global) -> Result<[bool; 5], AllocError> {
    Ok([
        is_dump(alloc, TOGGLE, b"0", &[b"", b""], 0, TOGGLE_DUMP)?,
        is_dump(alloc, NAMED, b"0", &[b"1", b"0", b"1"], 1, NAMED_DUMP)?,
        is_dump(alloc, BUSES, b"00", &[b"10", b"10"], 1, BUSES_DUMP)?,
        is_dump(alloc, BITS, b"1", &[b"10"], 0, BITS_DUMP)?,
        is_dump(alloc, NOTHING, b"", &[b""], 0, NOTHING_DUMP)?,
    ])
}

#[test]
fn dumps_are_as_worked_out(rt: HostRuntime) -> Result<(), Fail> {
    assert_eq!(rt; are_dumps(rt.alloc())?, [true; 5]);
    Ok(())
}
