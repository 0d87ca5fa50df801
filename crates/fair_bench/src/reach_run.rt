//! The subcommand `reach`: asks a fixed list of searches of a model, without entries, and measures each. The main call is
//! `run_reach`.

ghost use Rattle.std.specs.Prelude.{◌≡◌, true, []};
ghost use Rattle.std.specs.Arc.{arc_value};
ghost use Rattle.entry.specs.CheckedEntries.{GoesOnFrom};
ghost use Rattle.ic3_semantics.specs.Searching.{IsStart, IsGoal};

use crate::failure::Failure;
use crate::models::circuit_in;
use crate::outside::print_text;
use crate::sat_run::NO_LIMIT;
use crate::stamps::Stamp;
use circuit::{Circuit, Position};
use edge::Meter;
use entry::good_lists_grow;
use ic3::{Goal, ReachEnd, Reached, Search, Start};
use items::Items;
use std::alloc::{AllocError, Global};
use std::io;
use std::sync::Arc;

/// What a search answered: the positions of a path and the state of its last one, or how many clauses a closed set has; or
/// that it took all steps that it may take.
#[derive(Drop)]
pub(crate) enum Answer {
    Path { positions: usize, last: Items<bool> },
    Closed { clauses: usize },
    Spent,
}

/// What a search answered, how many questions its solver was asked, and how many frames it came to.
#[derive(Drop)]
struct Told {
    answer: Answer,
    questions: u64,
    frames: u64,
}

/// Searches the circuit of the model in this file from its initial states to a position at which a literal is true, for
/// each literal of each property and of fairness; and from the last state of the first path to each of them. Writes what
/// each search found; what it took goes to standard error. Gives 0, the number with which the program ends.
pub(crate) fn run_reach(rt: &HostRuntime, name: &str) -> Result<u8, Failure> {
    let shared = circuit_in(rt, name)?;
    let number = search_circuit(rt, &shared);
    drop(shared);
    number
}

fn search_circuit(rt: &HostRuntime, c: &Arc<Circuit>) -> Result<u8, Failure> {
    let goals = goals_of(rt.alloc(), &**c)?;
    search_twice(rt, c, &goals)
}

fn search_twice(rt: &HostRuntime, c: &Arc<Circuit>, goals: &[u64]) -> Result<u8, Failure> {
    let mut first = None;
    search_all(rt, c, &Start::Initial, "initial", goals, &mut first)?;
    search_from(rt, c, first, goals)
}

// Searches from a state, if there is one.
fn search_from(
    rt: &HostRuntime,
    c: &Arc<Circuit>,
    state: Option<Items<bool>>,
    goals: &[u64],
) -> Result<u8, Failure> {
    match state {
        Some(state) => search_from_state(rt, c, state, goals),
        None => Ok(0),
    }
}

fn search_from_state(
    rt: &HostRuntime,
    c: &Arc<Circuit>,
    state: Items<bool>,
    goals: &[u64],
) -> Result<u8, Failure> {
    let mut first = None;
    search_all(rt, c, &Start::State(state), "state", goals, &mut first)?;
    Ok(0)
}

/// The literals of the properties and of fairness, in their order.
pub(crate) fn goals_of(alloc: Global, c: &Circuit) -> Result<Vec<u64>, AllocError> {
    let mut goals = Vec::new(alloc);
    add_goals(c, &mut goals)?;
    Ok(goals)
}

fn add_goals(c: &Circuit, goals: &mut Vec<u64>) -> Result<(), AllocError> {
    for j in 0..c.property_count() {
        goals.extend_from_slice(c.property(j))?;
    }
    goals.extend_from_slice(c.fairness())
}

// Searches for each literal in turn, and keeps the last state of the first path.
fn search_all(
    rt: &HostRuntime,
    c: &Arc<Circuit>,
    start: &Start,
    from: &str,
    goals: &[u64],
    first: &mut Option<Items<bool>>,
) -> Result<(), Failure> {
    for literal in goals {
        search_next(rt, c, start, from, *literal, first)?;
    }
    Ok(())
}

fn search_next(
    rt: &HostRuntime,
    c: &Arc<Circuit>,
    start: &Start,
    from: &str,
    literal: u64,
    first: &mut Option<Items<bool>>,
) -> Result<(), Failure> {
    let found = search(rt, c, start, from, literal)?;
    keep_first(first, found);
    Ok(())
}

fn keep_first(first: &mut Option<Items<bool>>, found: Option<Items<bool>>) {
    if first.is_none() {
        *first = found;
    }
}

// One search: what it answered is written, and what it took.
fn search(
    rt: &HostRuntime,
    c: &Arc<Circuit>,
    start: &Start,
    from: &str,
    literal: u64,
) -> Result<Option<Items<bool>>, Failure> {
    let answer = answer_timed(rt, c, start, literal, NO_LIMIT)?;
    say_answer(rt, from, literal, answer)
}

// Writes an answer, and gives the state that it came to.
pub(crate) fn say_answer(
    rt: &HostRuntime,
    from: &str,
    literal: u64,
    answer: Answer,
) -> Result<Option<Items<bool>>, Failure> {
    print_answer(rt, from, literal, &answer)?;
    Ok(last_of(answer))
}

/// What a search of at most so many steps answers; what it took goes to standard error.
pub(crate) fn answer_timed(
    rt: &HostRuntime,
    c: &Arc<Circuit>,
    start: &Start,
    literal: u64,
    steps: u64,
) -> Result<Answer, Failure> {
    let mut meter = Meter::new(NO_LIMIT, steps);
    let before = Stamp::now(rt)?;
    let told = told_of(rt.alloc(), c, start, literal, &mut meter)?;
    say_costs(rt, &meter, before, told)
}

// Tells what a search took, and gives its answer.
fn say_costs(
    rt: &HostRuntime,
    meter: &Meter,
    before: Stamp,
    told: Told,
) -> Result<Answer, Failure> {
    print_costs(rt, meter, before, &told)?;
    Ok(told.answer)
}

fn print_answer(
    rt: &HostRuntime,
    from: &str,
    literal: u64,
    answer: &Answer,
) -> Result<(), Failure> {
    let text = answer_text(rt.alloc(), from, literal, answer)?;
    print_text(rt, text.as_str())
}

fn answer_text(
    alloc: Global,
    from: &str,
    literal: u64,
    answer: &Answer,
) -> Result<String, AllocError> {
    match answer {
        Answer::Path { positions, last: _ } => {
            format!(in alloc; "{from} to {literal}: path {positions}\n")
        }
        Answer::Closed { clauses } => {
            format!(in alloc; "{from} to {literal}: closed {clauses}\n")
        }
        Answer::Spent => format!(in alloc; "{from} to {literal}: spent\n"),
    }
}

// The state of the path's last position.
fn last_of(answer: Answer) -> Option<Items<bool>> {
    match answer {
        Answer::Path { positions: _, last } => Some(last),
        Answer::Closed { clauses: _ } | Answer::Spent => None,
    }
}

// What a new search answers.
fn told_of(
    alloc: Global,
    c: &Arc<Circuit>,
    start: &Start,
    literal: u64,
    meter: &mut Meter,
) -> Result<Told, Failure> {
    let from = copy_of(alloc, start)?;
    told_from(alloc, c, from, literal, meter)
}

fn told_from(
    alloc: Global,
    c: &Arc<Circuit>,
    from: Start,
    literal: u64,
    meter: &mut Meter,
) -> Result<Told, Failure> {
    if !is_start(&**c, &from) {
        return Err(Failure::BadInput);
    }
    told_at(alloc, c, from, literal, meter)
}

fn told_at(
    alloc: Global,
    c: &Arc<Circuit>,
    from: Start,
    literal: u64,
    meter: &mut Meter,
) -> Result<Told, Failure>
    requires { IsStart (arc_value c.now) from }
{
    let mut search = Search::new(alloc, c, from)?;
    let told = told_by(alloc, &**c, &mut search, literal, meter);
    drop(search);
    told
}

fn told_by(
    alloc: Global,
    c: &Circuit,
    search: &mut Search,
    literal: u64,
    meter: &mut Meter,
) -> Result<Told, Failure>
    requires circuit { search.old.circuit ≡ c.now }
    requires on { GoesOnFrom search.old.view [] }
{
    let answer = answer_of(alloc, c, search, literal, meter)?;
    Ok(Told {
        answer,
        questions: search.solver_questions(),
        frames: search.frames(),
    })
}

fn answer_of(
    alloc: Global,
    c: &Circuit,
    search: &mut Search,
    literal: u64,
    meter: &mut Meter,
) -> Result<Answer, Failure>
    requires circuit { search.old.circuit ≡ c.now }
    requires on { GoesOnFrom search.old.view [] }
{
    match ask_literal(alloc, c, search, literal, meter) {
        Ok(reached) => answer_to(alloc, reached),
        Err(Failure::Spent) => Ok(Answer::Spent),
        Err(failure) => Err(failure),
    }
}

fn answer_to(alloc: Global, reached: Reached) -> Result<Answer, Failure> {
    let answer = answer_in(alloc, &reached);
    drop(reached);
    answer
}

fn copy_of(alloc: Global, start: &Start) -> Result<Start, AllocError> {
    match start {
        Start::Initial => Ok(Start::Initial),
        Start::State(state) => Ok(Start::State(state.try_copy(alloc)?)),
    }
}

// What the search answers, without entries.
fn ask(
    alloc: Global,
    c: &Circuit,
    search: &mut Search,
    goal: &Goal<'_>,
    meter: &mut Meter,
) -> Result<Reached, ReachEnd>
    requires circuit { search.old.circuit ≡ c.now }
    requires on { GoesOnFrom search.old.view [] }
    requires goal { IsGoal c.now goal.now }
{
    good_lists_grow(c);
    search.reach(alloc, &[], goal, meter)
}

fn ask_literal(
    alloc: Global,
    c: &Circuit,
    search: &mut Search,
    literal: u64,
    meter: &mut Meter,
) -> Result<Reached, Failure>
    requires circuit { search.old.circuit ≡ c.now }
    requires on { GoesOnFrom search.old.view [] }
{
    if literal / 2 > c.max() {
        return Err(Failure::BadInput);
    }
    let goal = Goal::Literal {
        literal,
        avoid: &[],
    };
    Ok(ask(alloc, c, search, &goal, meter)?)
}

fn answer_in(alloc: Global, reached: &Reached) -> Result<Answer, Failure> {
    match reached {
        Reached::Path(positions) => path_of(alloc, positions.as_slice()),
        Reached::Closed { clauses, uses: _ } => Ok(Answer::Closed {
            clauses: clauses.len(),
        }),
    }
}

// Whether the start is one of the circuit.
fn is_start(c: &Circuit, start: &Start) -> bool
    ensures { result ≡ true → IsStart c.now start.now }
{
    match start {
        Start::Initial => true,
        Start::State(state) => state.len() == c.latches().len(),
    }
}

fn path_of(alloc: Global, positions: &[Position]) -> Result<Answer, Failure> {
    match positions.last() {
        Some(position) => Ok(Answer::Path {
            positions: positions.len(),
            last: position.latches.try_copy(alloc)?,
        }),
        None => Err(Failure::WrongAnswer),
    }
}

fn print_costs(rt: &HostRuntime, meter: &Meter, before: Stamp, told: &Told) -> io::Result<()> {
    let after = Stamp::now(rt)?;
    let spent = meter.spending();
    let nanoseconds = before.processor_to(after);
    eprintln!(rt;
        "conflicts {} steps {} nanoseconds {} frames {} questions {}",
        spent.conflicts(),
        spent.steps(),
        nanoseconds,
        told.frames,
        told.questions
    )
}
