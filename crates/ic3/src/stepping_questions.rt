//! The clauses of the solver of a search, and its questions. The main type is `Questions`.
ghost use Rattle.std.specs.Prelude.{◌≡◌, ◌==◌, ◌↔◌, ℕ, Bool, true, ◌+◌, ◌++◌, [], map, IfOk, IfErr, OnOk, OnErr};
ghost use Rattle.proof_semantics.specs.Clauses.{cube_value, has_literal};
ghost use Rattle.edge.specs.Ends.{CountsConflicts, IsEnd};
ghost use Rattle.cdcl.specs.Asking.{assigned};
ghost use Rattle.cnf_unroll.specs.Numbers.{clause_at_place, state_place, literal_in_block};
ghost use Rattle.cnf_unroll.specs.Situations.{situation_in};
ghost use Rattle.ic3_questions.specs.SteppingClauses.{level_guard, question_guard, IsOn, AreAssumed, part_at};
ghost use Rattle.ic3.specs.SteppingInside.{KeepsNumbers, Begins, Rests, Keeps, AnswersInto, AnswersFrom, TellsInto};
ghost use Rattle.ic3.specs.SteppingInside.{AnswersGoal, TellsGoal, TellsLiteral, Holds};
ghost use Rattle.ic3_questions.specs.ReadVariables.{is_read};

use cdcl::{Asked, Solver};
use circuit::{Circuit, Position};
use cnf::{Cube, Lit, has_literal};
use edge::{Meter, SolveEnd};
use ic3_questions::{guarded, guarded_denial, input_place, is_read, literal_at, literal_in_block};
use ic3_semantics::Found;
use items::Items;
use std::alloc::{AllocError, Global};

/// A solver with guarded clauses, and its numbers.
#[derive(Drop)]
pub(crate) struct Questions {
    pub(crate) solver: Solver,
    /// The latches' numbers at the state, and at the successor.
    pub(crate) here: Items<u64>,
    pub(crate) next: Items<u64>,
    /// The first number that guards a clause.
    pub(crate) free: u64,
    /// One more than the highest level of a lemma, or 0.
    pub(crate) levels: u64,
    /// How many questions brought a clause of their own.
    pub(crate) asked: u64,
    /// How many were asked for steps from a level and brought none; no contract speaks of it.
    pub(crate) without_clause: u64,
    /// How many questions were handed to `ask`, or 2^64 - 1 where there were more; no contract speaks of it.
    pub(crate) count: u64,
    /// How many clauses of lemmas came; no contract speaks of it.
    pub(crate) held: u64,
    /// For each lemma whose clause was due when the solver was made anew, the place of a later one that implies it, or
    /// its own; no contract speaks of it.
    pub(crate) implying: Vec<usize>,
}

/// The numbers of levels and questions are below this one.
const END: u64 = 1 << 61;

/// The guard of a level.
pub(crate) fn level_guard(free: u64, level: u64) -> Result<u64, AllocError>
    ensures { IfOk result (λ guard. guard ≡ level_guard free level) }
{
    if free < END && level < END {
        Ok(free + 2 * level)
    } else {
        Err(AllocError)
    }
}

/// The guard of a question.
pub(crate) fn question_guard(free: u64, number: u64) -> Result<u64, AllocError>
    ensures { IfOk result (λ guard. guard ≡ question_guard free number) }
{
    if free < END && number < END {
        Ok(free + 2 * number + 1)
    } else {
        Err(AllocError)
    }
}

fn positive(guard: u64) -> Lit
    ensures { result ≡ record { var = guard; positive = true } }
{
    Lit {
        var: guard,
        positive: true,
    }
}

/// The literals that are true where the guards of the levels from one to another are, and that of the question.
fn guards(
    alloc: Global,
    free: u64,
    level: u64,
    levels: u64,
    number: u64,
) -> Result<Vec<Lit>, AllocError>
    ensures { IfOk result (λ out. (v : ℕ → Bool) → (cube_value v out.items ≡ true) ↔ IsOn free level levels number v) }
{
    let mut out = Vec::new(alloc);
    out.push(positive(question_guard(free, number)?))?;
    for k in level..level.max(levels) {
        out.push(positive(level_guard(free, k)?))?;
    }
    Ok(out)
}

/// Puts the literals of a cube at a place behind the others.
fn push_at(out: &mut Vec<Lit>, place: &[u64], cube: &[Lit]) -> Result<(), AllocError>
    ensures { OnOk result (out.new.items ≡ out.old.items ++ clause_at_place place.now cube.now) }
{
    for literal in cube {
        out.push(literal_at(place, *literal))?;
    }
    Ok(())
}

fn values_at(alloc: Global, solver: &Solver, place: &[u64]) -> Result<Items<bool>, AllocError>
    ensures { IfOk result (λ values. values ≡ map (assigned solver.now.values) place.now) }
{
    let mut values = Items::new(alloc);
    for number in place {
        values.push(solver.value(*number))?;
    }
    Ok(values)
}

/// The position that the solver's values give to the block.
pub(crate) fn position_of(
    alloc: Global,
    c: &Circuit,
    here: &[u64],
    solver: &Solver,
) -> Result<Position, AllocError>
    requires { here.now ≡ state_place c.now 0 }
    ensures { IfOk result (λ p. p ≡ (situation_in c.now 0 (assigned solver.now.values)).position) }
{
    let latches = values_at(alloc, solver, here)?;
    let inputs = values_at(alloc, solver, input_place(alloc, c)?.as_slice())?;
    Ok(Position { latches, inputs })
}

/// The literals of a cube whose literals at a place are among these.
pub(crate) fn part_at(
    alloc: Global,
    place: &[u64],
    core: &[Lit],
    cube: &Cube,
) -> Result<Cube, AllocError>
    ensures { IfOk result (λ part. part ≡ part_at place.now core.now cube.now) }
{
    let mut part = Cube::new(alloc);
    for literal in cube.as_slice() {
        if has_literal(core, literal_at(place, *literal)) {
            part.push(*literal)?;
        }
    }
    Ok(part)
}

/// Begins a question that asks for states outside the cube, and answers its number.
fn begin(alloc: Global, s: &mut Questions, cube: &[Lit]) -> Result<u64, AllocError>
    ensures number { IfOk result (λ number. number ≡ s.old.asked + 1) }
    ensures numbers { KeepsNumbers s.old s.new }
    ensures ok { OnOk result (Begins cube.now s.old s.new) }
    ensures err { OnErr result (Rests s.old s.new) }
{
    let number = s.asked.checked_add(1).ok_or(AllocError)?;
    let guard = question_guard(s.free, number)?;
    let clause = guarded_denial(alloc, guard, s.here.as_slice(), cube)?;
    s.solver.add_sized(clause)?;
    s.asked = number;
    Ok(number)
}

/// The assumptions of a question for steps from a level at which these literals are true at a place.
fn assume(
    alloc: Global,
    s: &Questions,
    level: u64,
    number: u64,
    place: &[u64],
    cube: &[Lit],
) -> Result<Vec<Lit>, AllocError>
    ensures { IfOk result (λ out.
        AreAssumed s.now.free level s.now.levels number (clause_at_place place.now cube.now) out.items) }
{
    let mut out = guards(alloc, s.free, level, s.levels, number)?;
    push_at(&mut out, place, cube)?;
    Ok(out)
}

/// Asks for a step into the cube from a state outside it.
pub(crate) fn ask_into(
    alloc: Global,
    s: &mut Questions,
    level: u64,
    cube: &[Lit],
    meter: &mut Meter,
) -> Result<Asked, SolveEnd>
    ensures answer { IfOk result (AnswersInto s.old level cube.now s.new.solver.values) }
    ensures kept { Keeps s.old s.new }
    ensures end { IfErr result (IsEnd meter.new) }
    ensures counted { CountsConflicts meter.old meter.new }
{
    let number = begin(alloc, s, cube)?;
    let assumptions = assume(alloc, s, level, number, s.next.as_slice(), cube)?;
    s.count = s.count.saturating_add(1);
    s.solver.ask(alloc, assumptions.as_slice(), meter)
}

/// Asks for a step into the cube from any state of the frame, so that no clause comes. A model whose state is outside the cube,
/// and a core, are those of `ask_into`. The guard of the next question is assumed, which stands in no clause yet.
pub(crate) fn ask_from(
    alloc: Global,
    s: &mut Questions,
    level: u64,
    cube: &[Lit],
    meter: &mut Meter,
) -> Result<Asked, SolveEnd>
    ensures answer { IfOk result (AnswersFrom s.old level cube.now s.new.solver.values) }
    ensures kept { Keeps s.old s.new }
    ensures end { IfErr result (IsEnd meter.new) }
    ensures counted { CountsConflicts meter.old meter.new }
{
    let number = s.asked.checked_add(1).ok_or(AllocError)?;
    let assumptions = assume(alloc, s, level, number, s.next.as_slice(), cube)?;
    s.without_clause = s.without_clause.saturating_add(1);
    s.count = s.count.saturating_add(1);
    s.solver.ask(alloc, assumptions.as_slice(), meter)
}

/// The guard of the last question is false for good, so that its clause is true and is not looked at again.
pub(crate) fn retire(alloc: Global, s: &mut Questions) -> Result<(), AllocError>
    ensures { Keeps s.old s.new }
{
    if s.asked == 0 {
        return Ok(());
    }
    let guard = question_guard(s.free, s.asked)?;
    let unit = guarded(alloc, guard, &[], &[])?;
    s.solver.add_sized(unit)
}

// What the question for a step into the cube answers.
fn found_into(
    alloc: Global,
    c: &Circuit,
    s: &mut Questions,
    level: u64,
    cube: &Cube,
    meter: &mut Meter,
) -> Result<Found, SolveEnd>
    requires { s.old.here ≡ state_place c.now 0 }
    ensures found { IfOk result (TellsInto s.old c.now level cube.now) }
    ensures kept { Keeps s.old s.new }
    ensures end { IfErr result (IsEnd meter.new) }
    ensures counted { CountsConflicts meter.old meter.new }
{
    match ask_into(alloc, s, level, cube.as_slice(), meter)? {
        Asked::Sat => {
            let p = position_of(alloc, c, s.here.as_slice(), &s.solver)?;
            Ok(Found::Step(p))
        }
        Asked::Unsat(core) => Ok(Found::Missing(part_at(
            alloc,
            s.next.as_slice(),
            core.as_slice(),
            cube,
        )?)),
    }
}

/// A step into the cube, from a state outside it; or a part of the cube that no such step leads into.
pub(crate) fn predecessor(
    alloc: Global,
    c: &Circuit,
    s: &mut Questions,
    level: u64,
    cube: &Cube,
    meter: &mut Meter,
) -> Result<Found, SolveEnd>
    requires { s.old.here ≡ state_place c.now 0 }
    ensures found { IfOk result (TellsInto s.old c.now level cube.now) }
    ensures kept { Keeps s.old s.new }
    ensures end { IfErr result (IsEnd meter.new) }
    ensures counted { CountsConflicts meter.old meter.new }
{
    let found = found_into(alloc, c, s, level, cube, meter)?;
    retire(alloc, s)?;
    Ok(found)
}

/// The assumptions of the question for a position from a level at which these literals are true.
fn assume_true(
    alloc: Global,
    s: &Questions,
    level: u64,
    literals: &[Lit],
) -> Result<Vec<Lit>, AllocError>
    ensures { IfOk result (λ out. AreAssumed s.now.free level s.now.levels 0 literals.now out.items) }
{
    let mut out = guards(alloc, s.free, level, s.levels, 0)?;
    for literal in literals {
        out.push(*literal)?;
    }
    Ok(out)
}

/// Asks for a position from a level at which these literals are true.
pub(crate) fn ask_goal(
    alloc: Global,
    s: &mut Questions,
    level: u64,
    literals: &[Lit],
    meter: &mut Meter,
) -> Result<Asked, SolveEnd>
    ensures answer { IfOk result (AnswersGoal s.old level literals.now s.new.solver.values) }
    ensures kept { Keeps s.old s.new }
    ensures end { IfErr result (IsEnd meter.new) }
    ensures counted { CountsConflicts meter.old meter.new }
{
    let assumptions = assume_true(alloc, s, level, literals)?;
    s.count = s.count.saturating_add(1);
    s.solver.ask(alloc, assumptions.as_slice(), meter)
}

/// A position from a level at which these literals are true; `None` where there is none.
fn goal(
    alloc: Global,
    c: &Circuit,
    s: &mut Questions,
    level: u64,
    literals: &[Lit],
    meter: &mut Meter,
) -> Result<Option<Position>, SolveEnd>
    requires { s.old.here ≡ state_place c.now 0 }
    ensures found { IfOk result (TellsGoal s.old c.now level literals.now) }
    ensures kept { Keeps s.old s.new }
    ensures end { IfErr result (IsEnd meter.new) }
    ensures counted { CountsConflicts meter.old meter.new }
{
    match ask_goal(alloc, s, level, literals, meter)? {
        Asked::Sat => Ok(Some(position_of(alloc, c, s.here.as_slice(), &s.solver)?)),
        Asked::Unsat(_) => Ok(None),
    }
}

/// A position from a level at which the AIGER literal is met; `None` where there is none. The clauses say nothing of a
/// variable that is defined nowhere, which is false at each position.
pub(crate) fn goal_at(
    alloc: Global,
    c: &Circuit,
    s: &mut Questions,
    level: u64,
    literal: u64,
    meter: &mut Meter,
) -> Result<Option<Position>, SolveEnd>
    requires { s.old.here ≡ state_place c.now 0 }
    ensures found { IfOk result (TellsLiteral s.old c.now level literal) }
    ensures kept { Keeps s.old s.new }
    ensures end { IfErr result (IsEnd meter.new) }
    ensures counted { CountsConflicts meter.old meter.new }
{
    if is_read(c, literal / 2) {
        goal(alloc, c, s, level, &[literal_in_block(literal)], meter)
    } else if literal % 2 == 1 {
        goal(alloc, c, s, level, &[], meter)
    } else {
        Ok(None)
    }
}

/// Adds the clause of a lemma. The error is want of memory, and changes nothing.
pub(crate) fn hold_clause(
    alloc: Global,
    s: &mut Questions,
    level: u64,
    clause: &[Lit],
) -> Result<(), AllocError>
    ensures ok { OnOk result (Holds level clause.now s.old s.new) }
    ensures err { OnErr result (s.new ≡ s.old) }
{
    let above = level.checked_add(1).ok_or(AllocError)?;
    let guard = level_guard(s.free, level)?;
    let held = guarded(alloc, guard, s.here.as_slice(), clause)?;
    s.solver.add_sized(held)?;
    s.held = s.held.saturating_add(1);
    s.levels = s.levels.max(above);
    Ok(())
}
