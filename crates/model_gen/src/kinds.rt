//! The two kinds of model. The main calls are `ring` and `scramble`.

ghost use Rattle.std.specs.Prelude.{◌≡◌, ◌+◌, ◌*◌, ◌<◌, ◌≤◌, [], ◌∷◌, IfOk, OnOk, Ok, Err};
ghost use Rattle.aig_semantics.specs.Circuits.{IsChecked, AreDefined};
ghost use Rattle.circuit.specs.Sections.{circuit_of, used_by, AreInRange};
ghost use Rattle.aiger_grammar.specs.Ordered.{IsOrdered};
ghost use Rattle.model_gen.specs.Draws.{state_after, draw};
ghost use Rattle.model_gen.specs.Generated.{made, plain, plain_parts, ring_latch, ring_circuit, ring_model, reset_drawn, gate_drawn, scrambled_gate, literal_drawn, latch_drawn, scrambled_latch, scramble_circuit, scramble_model, behind_gates};

use crate::drawing::Generator;
use aig_semantics::{Gate, Latch, Reset};
use aiger_names::{Model, Names};
use circuit::{ModelEnd, Parts, check_circuit};
use items::Items;
use std::alloc::{AllocError, Global};

/// A ring of `n` latches, without inputs and gates: each latch takes the value of the one before it, the first that of
/// the last. The latch with the number `seed` modulo `n` begins with 1, the others with 0. The one property has the
/// literals of all latches. Such a model has a binary text. The error is want of memory.
pub fn ring(alloc: Global, seed: u64, n: u64) -> Result<Model, AllocError>
    requires some { 1 ≤ n }
    requires few { n ≤ 256 }
    ensures model { IfOk result (λ model. model ≡ ring_model seed n) }
    ensures ordered { IfOk result IsOrdered }
{
    let parts = ring_parts(alloc, seed, n)?;
    plain_model(alloc, &parts)
}

fn ring_parts(alloc: Global, seed: u64, n: u64) -> Result<Parts, AllocError>
    requires some { 1 ≤ n }
    requires few { n ≤ 256 }
    ensures { IfOk result (λ parts. parts ≡ plain_parts (ring_circuit seed n)) }
{
    let latches = ring_latches(alloc, seed, n)?;
    let mut justice = Items::new(alloc);
    justice.push(ring_property(alloc, n)?)?;
    Ok(Parts {
        max: n,
        inputs: Items::new(alloc),
        latches,
        gates: Items::new(alloc),
        outputs: Items::new(alloc),
        bad: Items::new(alloc),
        constraints: Items::new(alloc),
        justice,
        fairness: Items::new(alloc),
    })
}

fn ring_latches(alloc: Global, seed: u64, n: u64) -> Result<Items<Latch>, AllocError>
    requires some { 1 ≤ n }
    requires few { n ≤ 256 }
    ensures { IfOk result (λ latches. latches ≡ made (ring_latch seed n) n) }
{
    let mut latches = Items::new(alloc);
    for i in 0..n {
        latches.push(latch_in_ring(seed, n, i))?;
    }
    Ok(latches)
}

fn latch_in_ring(seed: u64, n: u64, i: u64) -> Latch
    requires inside { i < n }
    requires few { n ≤ 256 }
    ensures { result ≡ ring_latch seed n i }
{
    let from = if i == 0 { n } else { i };
    let reset = if i == seed % n {
        Reset::One
    } else {
        Reset::Zero
    };
    Latch {
        var: i + 1,
        next: 2 * from,
        reset,
    }
}

fn ring_property(alloc: Global, n: u64) -> Result<Items<u64>, AllocError>
    requires { n ≤ 256 }
    ensures { IfOk result (λ literals. literals ≡ made (λ i. 2 * (i + 1)) n) }
{
    let mut literals = Items::new(alloc);
    for i in 0..n {
        literals.push(2 * (i + 1))?;
    }
    Ok(literals)
}

/// A circuit with the inputs 1 and 2, the latches 3 to `n + 2` and the gates `n + 3` to `3n + 2`, whose literals are
/// drawn from the seed: for each gate two draws modulo twice its variable, the greater first; for each latch a next
/// literal and a draw modulo 4 for its reset; then the two literals of the property and the fairness literal. Such a
/// model has a binary text. The error is want of memory.
pub fn scramble(alloc: Global, seed: u64, n: u64) -> Result<Model, AllocError>
    requires some { 1 ≤ n }
    requires few { n ≤ 256 }
    ensures model { IfOk result (λ model. model ≡ scramble_model seed n) }
    ensures ordered { IfOk result IsOrdered }
{
    let parts = scramble_parts(alloc, seed, n)?;
    plain_model(alloc, &parts)
}

fn scramble_parts(alloc: Global, seed: u64, n: u64) -> Result<Parts, AllocError>
    requires some { 1 ≤ n }
    requires few { n ≤ 256 }
    ensures { IfOk result (λ parts. parts ≡ plain_parts (scramble_circuit seed n)) }
{
    let mut generator = Generator { state: seed };
    let gates = scramble_gates(alloc, &mut generator, n)?;
    let latches = scramble_latches(alloc, &mut generator, n)?;
    let mut justice = Items::new(alloc);
    justice.push(draw_literals(alloc, &mut generator, n, 2)?)?;
    let fairness = draw_literals(alloc, &mut generator, n, 1)?;
    Ok(Parts {
        max: 3 * n + 2,
        inputs: Items::from_slice(alloc, &[1, 2])?,
        latches,
        gates,
        outputs: Items::new(alloc),
        bad: Items::new(alloc),
        constraints: Items::new(alloc),
        justice,
        fairness,
    })
}

fn scramble_gates(
    alloc: Global,
    generator: &mut Generator,
    n: u64,
) -> Result<Items<Gate>, AllocError>
    requires some { 1 ≤ n }
    requires few { n ≤ 256 }
    ensures gates { IfOk result (λ gates. gates ≡ made (scrambled_gate generator.old.state n) (2 * n)) }
    ensures state { OnOk result (generator.new.state ≡ behind_gates generator.old.state n) }
{
    let mut gates = Items::new(alloc);
    for k in 0..2 * n {
        gates.push(draw_gate(generator, n + 3 + k))?;
    }
    Ok(gates)
}

#[tactic(auto, unfolding(crate::specs::Draws::state_after, crate::specs::Draws::draw))]
fn draw_gate(generator: &mut Generator, var: u64) -> Gate
    requires some { 1 ≤ var }
    requires few { var ≤ 1000 }
    ensures gate { result ≡ gate_drawn var (draw generator.old.state 0) (draw generator.old.state 1) }
    ensures state { generator.new.state ≡ state_after generator.old.state 2 }
{
    let first = generator.draw() % (2 * var);
    let second = generator.draw() % (2 * var);
    let (rhs0, rhs1) = if first < second {
        (second, first)
    } else {
        (first, second)
    };
    Gate { var, rhs0, rhs1 }
}

fn scramble_latches(
    alloc: Global,
    generator: &mut Generator,
    n: u64,
) -> Result<Items<Latch>, AllocError>
    requires some { 1 ≤ n }
    requires few { n ≤ 256 }
    ensures latches { IfOk result (λ latches. latches ≡ made (scrambled_latch generator.old.state n) n) }
    ensures state { OnOk result (generator.new.state ≡ state_after generator.old.state (2 * n)) }
{
    let mut latches = Items::new(alloc);
    for i in 0..n {
        latches.push(draw_latch(generator, n, i + 3))?;
    }
    Ok(latches)
}

#[tactic(auto, unfolding(crate::specs::Draws::state_after, crate::specs::Draws::draw))]
fn draw_latch(generator: &mut Generator, n: u64, var: u64) -> Latch
    requires { n ≤ 256 }
    ensures latch { result ≡ latch_drawn n var (draw generator.old.state 0) (draw generator.old.state 1) }
    ensures state { generator.new.state ≡ state_after generator.old.state 2 }
{
    let next = draw_literal(generator, n);
    let reset = draw_reset(generator);
    Latch { var, next, reset }
}

// As many literals of a circuit of this size.
fn draw_literals(
    alloc: Global,
    generator: &mut Generator,
    n: u64,
    count: u64,
) -> Result<Items<u64>, AllocError>
    requires { n ≤ 256 }
    ensures literals { IfOk result (λ literals. literals ≡ made (λ k. literal_drawn n (draw generator.old.state k)) count) }
    ensures state { OnOk result (generator.new.state ≡ state_after generator.old.state count) }
{
    let mut literals = Items::new(alloc);
    for k in 0..count {
        literals.push(draw_literal(generator, n))?;
    }
    Ok(literals)
}

fn draw_literal(generator: &mut Generator, n: u64) -> u64
    requires { n ≤ 256 }
    ensures literal { result ≡ literal_drawn n (draw generator.old.state 0) }
    ensures state { generator.new.state ≡ state_after generator.old.state 1 }
{
    generator.draw() % (2 * (3 * n + 2) + 2)
}

fn draw_reset(generator: &mut Generator) -> Reset
    ensures reset { result ≡ reset_drawn (draw generator.old.state 0) }
    ensures state { generator.new.state ≡ state_after generator.old.state 1 }
{
    match generator.draw() % 4 {
        2 => Reset::One,
        3 => Reset::Free,
        _ => Reset::Zero,
    }
}

// The model of a circuit that is checked, without outputs, bad state literals and names.
fn plain_model(alloc: Global, parts: &Parts) -> Result<Model, AllocError>
    requires in_range { AreInRange parts.now }
    requires checked { IsChecked (circuit_of parts.now) }
    requires defined { AreDefined (circuit_of parts.now) (used_by parts.now) }
    ensures { IfOk result (λ model. model ≡ plain (circuit_of parts.now)) }
{
    match check_circuit(alloc, parts) {
        Ok(circuit) => {
            let names = Names {
                symbols: Items::new(alloc),
                comment: None,
            };
            Ok(Model::new(circuit, Items::new(alloc), Items::new(alloc), names))
        }
        Err(ModelEnd::Memory) => Err(AllocError),
        Err(ModelEnd::Fault(_)) => unreachable!(),
    }
}
