//! Clauses of public calls, said again as clauses of this crate's own: where such a call comes to say less, the function
//! here that makes it is not proved.
ghost use Rattle.std.specs.Prelude.{◌≡◌, ℕ, IfOk, OnOk, ◌+◌, length, map, ◌↔◌, IsTrue, ◌<◌, All, take, Err, IsOk, ◌≤◌};
ghost use Rattle.std.specs.Prelude.{Bool, List, Ok, IfSome, ◌^◌};
ghost use Rattle.proof_semantics.specs.Clauses.{values_of};
ghost use Rattle.aig_semantics.specs.Circuits.{IsChecked, AreDefined};
ghost use Rattle.circuit.specs.declared.faults.ModelFault.{ModelFault};
ghost use Rattle.circuit.specs.Sections.{circuit_of, used_by, AreInRange};
ghost use Rattle.circuit.specs.Faults.{IsFirstTwice, IsFirstUndefined, IsOnlyOnCycle, AnswersNoOther};
ghost use Rattle.unless_memory.specs.Answers.{Gives, GivesExactlyWhere, GivesOneExactlyWhere, GivesSome};
ghost use Rattle.aig_semantics.specs.Valuations.{valuation};
ghost use Rattle.aig_semantics.specs.Literals.{literal_in};
ghost use Rattle.aig_semantics.specs.Stimuli.{IsFairLassoOf, HasLasso, StandsFor};
ghost use Rattle.aig_semantics.specs.Runs.{IsInitial, IsPosition};
ghost use Rattle.aig_semantics.specs.declared.traces.Stimulus.{Stimulus as StimulusOf};
ghost use Rattle.circuit.specs.Rounds.{IsMostRounds};
ghost use Rattle.stimulus.specs.declared.ends.ReplayFault.{ReplayFault};
ghost use Rattle.stimulus.specs.declared.ends.ReplayFault.TheVariants.{Shape};
ghost use Rattle.stimulus.specs.Faults.{HasReplayFault};
ghost use Rattle.stimulus.specs.Texts.{answer_text, IsTextOf, IsReadAgain, IsShape};
ghost use Rattle.ternary.specs.Lanes.{in_lane};
ghost use Rattle.ternary.specs.Simulation.{simulation};
ghost use Rattle.ternary.specs.Values.{IsCompletion};
ghost use Rattle.lasso_join.specs.Fitting.{IsStemTo};
ghost use Rattle.lasso_join.specs.Prefixes.{stimulus_of};
ghost use Rattle.cnf_unroll.specs.Blocks.{step_clauses};
ghost use Rattle.cnf_unroll.specs.Layout.{BeginWith, before_latch, AreUseEnds, before_set};
ghost use Rattle.cnf_unroll.specs.Obligations.{step_with_uses, after_step, shared_clauses, skeleton_clauses};
ghost use Rattle.cnf_unroll.specs.Obligations.{obligation_clauses};
ghost use Rattle.cnf_unroll.specs.Lending.{lent_all};
ghost use Rattle.cnf_unroll.specs.Situations.{situation_of_block};

use circuit::{Circuit, Lasso, ModelEnd, Parts, Position};
use cnf::Db;
use cnf_unroll::{Begun, ClauseSet, Unrolled, Used};
use cone::Cone;
use edge::Meter;
use fair_semantics::{Situation, Use};
use simulation::Simulated;
use std::alloc::{AllocError, Global};
use stimulus::{ReplayEnd, Stimulus};
use ternary::{Lanes, Value3};

/// Of faulty parts the fault is told: a second definition, none, and a cycle, each exactly where it is.
fn checked(alloc: Global, parts: &Parts) -> Result<Circuit, ModelEnd>
    requires { AreInRange parts.now }
    ensures ok { IfOk result (λ c. c ≡ circuit_of parts.now) }
    ensures checked { OnOk result (IsChecked (circuit_of parts.now)) }
    ensures defined { OnOk result (AreDefined (circuit_of parts.now) (used_by parts.now)) }
    ensures faulty { (fault : ModelFault) → result ≡ Err (ModelEnd.Fault fault)
        → IsChecked (circuit_of parts.now) → AreDefined (circuit_of parts.now) (used_by parts.now) → ⊥ }
    ensures twice { (v : ℕ) → GivesExactlyWhere (Err ModelEnd.Memory) (Err (ModelEnd.Fault (ModelFault.Twice v)))
        (IsFirstTwice parts.now v) result }
    ensures undefined { (v : ℕ) → GivesExactlyWhere (Err ModelEnd.Memory)
        (Err (ModelEnd.Fault (ModelFault.Undefined v))) (IsFirstUndefined parts.now v) result }
    ensures cycle { GivesOneExactlyWhere (Err ModelEnd.Memory) (λ v. Err (ModelEnd.Fault (ModelFault.Cycle v)))
        (IsOnlyOnCycle parts.now) result }
    ensures no_other { AnswersNoOther result }
{
    circuit::check_circuit(alloc, parts)
}

/// The values of all variables are those of the position.
fn evaluated(c: &Circuit, latches: &[bool], inputs: &[bool], out: &mut [bool])
    requires latches { length latches.now ≡ length c.now.latches }
    requires inputs { length inputs.now ≡ length c.now.inputs }
    requires out { length out.old ≡ c.now.max + 1 }
    ensures { out.new ≡ valuation c.now latches.now inputs.now }
{
    circuit::eval_into(c, latches, inputs, out)
}

/// The next values of the latches are those of their literals.
fn followed(c: &Circuit, values: &[bool], out: &mut [bool])
    requires { length out.old ≡ length c.now.latches }
    ensures { out.new ≡ map (λ latch. literal_in values.now latch.next) c.now.latches }
{
    circuit::next_into(c, values, out)
}

/// A state is initial exactly where each latch has a value that its reset allows.
fn is_initial(c: &Circuit, latches: &[bool]) -> bool
    ensures { IsTrue result ↔ IsInitial c.now latches.now }
{
    circuit::is_initial(c, latches)
}

/// A lasso is fair exactly where it closes and meets each literal.
fn is_fair(alloc: Global, c: &Circuit, j: u32, lasso: &Lasso) -> Result<bool, AllocError>
    ensures { IfOk result (λ fair. IsTrue fair ↔ IsFairLassoOf c.now j lasso.now) }
{
    circuit::is_fair_lasso(alloc, c, j, lasso)
}

/// No more rounds than there are, and no fewer.
fn counted(alloc: Global, c: &Circuit, j: u32, run: &[Position]) -> Result<u64, AllocError>
    requires property { j < length c.now.justice }
    requires positions { All (IsPosition c.now) run.now }
    ensures { IfOk result (IsMostRounds c.now j run.now) }
{
    circuit::rounds(alloc, c, j, run)
}

/// Positions have a value for each latch and each input.
fn are_positions(c: &Circuit, run: &[Position]) -> bool
    ensures { IsTrue result ↔ All (IsPosition c.now) run.now }
{
    circuit::are_positions(c, run)
}

/// The marks of a cone are what contracts see of it.
fn marks_of(cone: &Cone) -> &[bool]
    ensures { result.now ≡ cone.now }
{
    cone.marks()
}

/// Each variable gets its ternary value, which is its value under every completion where it is not X.
fn simulated(c: &Circuit, latches: &[Value3], inputs: &[Value3], out: &mut [Value3])
    requires latches { length latches.now ≡ length c.now.latches }
    requires inputs { length inputs.now ≡ length c.now.inputs }
    requires out { length out.old ≡ c.now.max + 1 }
    ensures exact { out.new ≡ simulation c.now latches.now inputs.now }
    ensures sound { (state input_values : List Bool) → IsCompletion latches.now state
        → IsCompletion inputs.now input_values → IsCompletion out.new (valuation c.now state input_values) }
{
    ternary::eval3_into(c, latches, inputs, out)
}

/// So in each of 64 lanes.
fn simulated_lanes(c: &Circuit, latches: &[Lanes], inputs: &[Lanes], out: &mut [Lanes])
    requires latches { length latches.now ≡ length c.now.latches }
    requires inputs { length inputs.now ≡ length c.now.inputs }
    requires out { length out.old ≡ c.now.max + 1 }
    ensures { (k : ℕ) → k < 64 → in_lane k out.new ≡ simulation c.now (in_lane k latches.now) (in_lane k inputs.now) }
{
    ternary::eval3_lanes(c, latches, inputs, out)
}

/// A lasso that a drawn run shows is fair, and needs all its positions.
fn drawn(
    alloc: Global,
    c: &Circuit,
    j: u32,
    seed: u32,
    meter: &Meter,
) -> Result<Simulated, AllocError>
    ensures fair { IfOk result (λ found. IfSome found.lasso (IsFairLassoOf c.now j)) }
    ensures whole { IfOk result (λ found. IfSome found.lasso
        (λ lasso. StandsFor c.now j (stimulus_of lasso) (length lasso.inputs) lasso.from)) }
    ensures runs { IfOk result (λ found. All (λ run. (t : List Bool) × IsStemTo c.now t run) found.runs.items) }
{
    simulation::simulate(alloc, c, j, seed, meter)
}

/// So is one of a loop that is repeated.
fn repeated(
    alloc: Global,
    c: &Circuit,
    j: u32,
    stimulus: &Stimulus,
    from: usize,
    meter: &Meter,
) -> Result<Option<Lasso>, AllocError>
    ensures fair { IfOk result (λ found. IfSome found (IsFairLassoOf c.now j)) }
    ensures whole { IfOk result (λ found. IfSome found
        (λ lasso. StandsFor c.now j (stimulus_of lasso) (length lasso.inputs) lasso.from)) }
{
    simulation::repeated_lasso(alloc, c, j, stimulus, from, meter)
}

/// A stimulus is read where the text stands for it, and else the first line that is none is told.
fn stimulus_read(alloc: Global, bytes: &[u8]) -> Result<Stimulus, ReplayEnd>
    ensures found { IfOk result (λ s. IsTextOf s bytes.now) }
    ensures every { (s : StimulusOf) → IsTextOf s bytes.now → Gives (Err ReplayEnd.Memory) (Ok s) result }
    ensures shape { (number : ℕ) → GivesExactlyWhere (Err ReplayEnd.Memory) (Err (ReplayEnd.Fault (Shape number)))
        (IsShape bytes.now number) result }
    ensures no_other { (fault : ReplayFault) → result ≡ Err (ReplayEnd.Fault fault)
        → (number : ℕ) × (fault ≡ Shape number) }
{
    stimulus::read(alloc, bytes)
}

/// An answer with a stimulus is written line by line, and its lines are read as the stimulus again.
fn stimulus_written(alloc: Global, j: u32, s: &Stimulus) -> Result<Vec<u8>, AllocError>
    ensures text { IfOk result (λ text. text.items ≡ answer_text j s.now) }
    ensures read_again { IfOk result (λ text. IsReadAgain j s.now text.items) }
{
    stimulus::write(alloc, j, s)
}

/// The replay of a stimulus gives its lasso, or its first fault.
fn replayed(alloc: Global, c: &Circuit, j: u32, s: &Stimulus) -> Result<Lasso, ReplayEnd>
    ensures found { IfOk result (λ lasso. StandsFor c.now j s.now (length lasso.inputs) lasso.from) }
    ensures start { IfOk result (λ lasso. lasso.start ≡ s.now.latches) }
    ensures inputs { IfOk result (λ lasso. lasso.inputs ≡ take (length lasso.inputs) s.now.inputs) }
    ensures every { (k from : ℕ) → HasLasso c.now j s.now k from → GivesSome (Err ReplayEnd.Memory) IsOk result }
    ensures fault { (fault : ReplayFault) → GivesExactlyWhere (Err ReplayEnd.Memory) (Err (ReplayEnd.Fault fault))
        (HasReplayFault c.now j s.now fault) result }
{
    stimulus::replay(alloc, c, j, s)
}

/// Where the clauses of a latch begin.
fn before_latch(c: &Circuit, i: usize) -> usize
    requires { i ≤ length c.now.latches }
    ensures { BeginWith (step_clauses c.now) (before_latch c.now i) result }
{
    cnf_unroll::before_latch(c, i)
}

/// What the obligations of an entry share: its clauses, and where the parts end.
fn shared(
    alloc: Global,
    c: &Circuit,
    uses: &[Used],
    own: &[Use],
    set: &ClauseSet,
) -> Result<Begun, AllocError>
    ensures clauses { IfOk result (λ begun. begun.clauses.clauses ≡ shared_clauses c.now (lent_all uses.now) own.now set.now) }
    ensures free { IfOk result (λ begun. begun.free ≡ (after_step c.now (lent_all uses.now)).free) }
    ensures ends { IfOk result (λ begun. AreUseEnds (step_with_uses c.now) (lent_all uses.now) begun.clauses.clauses begun.ends) }
    ensures sides { IfOk result (λ begun. BeginWith begun.clauses.clauses (before_set c.now (lent_all uses.now) own.now) begun.sides) }
{
    cnf_unroll::shared(alloc, c, uses, own, set)
}

/// The clauses of a skeleton, and where those of each use end.
fn unrolled(alloc: Global, c: &Circuit, j: u32, uses: &[Used]) -> Result<Unrolled, AllocError>
    requires { j < length c.now.justice }
    ensures clauses { IfOk result (λ unrolled. unrolled.clauses.clauses ≡ skeleton_clauses c.now j (lent_all uses.now)) }
    ensures ends { IfOk result (λ unrolled.
        AreUseEnds (skeleton_clauses c.now j) (lent_all uses.now) unrolled.clauses.clauses unrolled.ends) }
{
    cnf_unroll::unrolled_skeleton(alloc, c, j, uses)
}

/// The obligation of one clause of an entry.
fn obligation(
    alloc: Global,
    c: &Circuit,
    uses: &[Used],
    own: &[Use],
    set: &ClauseSet,
    i: usize,
) -> Result<Db, AllocError>
    requires { i < length set.now }
    ensures { IfOk result (λ db. db.clauses ≡ obligation_clauses c.now (lent_all uses.now) own.now set.now i) }
{
    cnf_unroll::obligation(alloc, c, uses, own, set, i)
}

/// The position and the successor that an assignment gives to a block.
fn decoded(alloc: Global, c: &Circuit, model: &[bool], block: u64) -> Result<Situation, AllocError>
    requires { block < 2 ^ 32 }
    ensures { IfOk result (λ situation. situation ≡ situation_of_block c.now block (values_of model.now)) }
{
    cnf_unroll::decode(alloc, c, model, block)
}
