//! Drawn sequences of steps on one solver, whose answers a search through all values gives. One that fails is printed
//! shortened.
use crate::drawing::{Step, draw_sequence};
use crate::judging::{Said, is_right};
use crate::questions::is_at;
use crate::session::{NO_LIMIT, Session, Way};
use crate::shortening::{Trial, shortened};
use std::alloc::{AllocError, Global};
use std::test::*;

// A new solver, each of whose answers has to be right.
struct OnSolver;

impl Trial for OnSolver {
    fn first_wrong(
        &self,
        alloc: Global,
        steps: &[Step],
        kept: &[bool],
    ) -> Result<Option<usize>, AllocError> {
        let mut session = Session::new(alloc, Way::Solve, &[])?;
        let place = first_wrong_in(&mut session, steps, kept);
        drop(session);
        place
    }
}

fn first_wrong_in(
    session: &mut Session,
    steps: &[Step],
    kept: &[bool],
) -> Result<Option<usize>, AllocError> {
    for (place, step) in steps.iter().enumerate() {
        if is_at(kept, place) && !is_step_right(session, step)? {
            return Ok(Some(place));
        }
    }
    Ok(None)
}

// Whether the answer to a question is right, and no more conflicts were spent than its limit.
fn is_step_right(session: &mut Session, step: &Step) -> Result<bool, AllocError> {
    match step {
        Step::Add(clause) => {
            session.add(clause.as_slice())?;
            Ok(true)
        }
        Step::Ask(way, assumed, limit) => is_asked(session, *way, assumed.as_slice(), *limit),
        Step::Refused(assumed) => is_refused(session, assumed.as_slice()),
    }
}

fn is_asked(
    session: &mut Session,
    way: Way,
    assumed: &[i64],
    limit: u64,
) -> Result<bool, AllocError> {
    session.turn_to(way);
    let said = session.ask(assumed, limit)?;
    Ok(is_right(said, limit < NO_LIMIT) && session.conflicts() <= limit)
}

// Whether memory is refused where there is a model to be written, and nowhere else.
fn is_refused(session: &mut Session, assumed: &[i64]) -> Result<bool, AllocError> {
    let has_model = session.has_model(assumed)?;
    let said = ask_far(session, assumed)?;
    Ok(said == if has_model { Said::Memory } else { Said::Unsat })
}

fn ask_far(session: &mut Session, assumed: &[i64]) -> Result<Said, AllocError> {
    session.turn_to(Way::Solve);
    session.ask(assumed, NO_LIMIT)
}

// The steps that are left of a drawn sequence that goes wrong, a line for each; nothing where it does not.
fn failing_text(alloc: Global, seed: u64) -> Result<String, AllocError> {
    let steps = draw_sequence(alloc, seed)?;
    text_of_shortened(alloc, steps.as_slice())
}

fn text_of_shortened(alloc: Global, steps: &[Step]) -> Result<String, AllocError> {
    let kept = shortened(alloc, &OnSolver, steps)?;
    text_of(alloc, steps, kept.as_slice())
}

fn text_of(alloc: Global, steps: &[Step], kept: &[bool]) -> Result<String, AllocError> {
    let mut text = String::new(alloc);
    for (place, step) in steps.iter().enumerate() {
        if is_at(kept, place) {
            push_step(alloc, step, &mut text)?;
            text.push_str("\n")?;
        }
    }
    Ok(text)
}

fn push_step(alloc: Global, step: &Step, text: &mut String) -> Result<(), AllocError> {
    match step {
        Step::Add(clause) => push_numbers(alloc, "add", clause.as_slice(), text),
        Step::Ask(way, assumed, limit) => {
            push_numbers(alloc, way.name(), assumed.as_slice(), text)?;
            push_limit(alloc, *limit, text)
        }
        Step::Refused(assumed) => push_numbers(alloc, "refused", assumed.as_slice(), text),
    }
}

// A word, and numbers behind it.
fn push_numbers(
    alloc: Global,
    word: &str,
    numbers: &[i64],
    text: &mut String,
) -> Result<(), AllocError> {
    text.push_str(word)?;
    for number in numbers {
        push_number(alloc, *number, text)?;
    }
    Ok(())
}

fn push_number(alloc: Global, number: i64, text: &mut String) -> Result<(), AllocError> {
    let written = format!(in alloc; " {number}")?;
    text.push_str(written.as_str())
}

fn push_limit(alloc: Global, limit: u64, text: &mut String) -> Result<(), AllocError> {
    let written = format!(in alloc; ", limit {limit}")?;
    text.push_str(written.as_str())
}

#[test]
fn drawn_sequences(rt: HostRuntime) -> Result<(), Fail> {
    for seed in 0..100u64 {
        let failing = failing_text(rt.alloc(), seed)?;
        assert!(rt; failing.is_empty(), "of {seed}:\n{failing}");
    }
    Ok(())
}

// How many questions of a drawn sequence memory is refused to.
fn count_refused(alloc: Global, seed: u64) -> Result<u64, AllocError> {
    let steps = draw_sequence(alloc, seed)?;
    let mut session = Session::new(alloc, Way::Solve, &[])?;
    let count = count_refused_in(&mut session, steps.as_slice());
    drop(session);
    count
}

fn count_refused_in(session: &mut Session, steps: &[Step]) -> Result<u64, AllocError> {
    let mut count = 0u64;
    for step in steps {
        count = count.saturating_add(u64::from(is_memory_refused(session, step)?));
    }
    Ok(count)
}

fn is_memory_refused(session: &mut Session, step: &Step) -> Result<bool, AllocError> {
    match step {
        Step::Add(clause) => {
            session.add(clause.as_slice())?;
            Ok(false)
        }
        Step::Ask(_, _, _) => Ok(false),
        Step::Refused(assumed) => Ok(ask_far(session, assumed.as_slice())? == Said::Memory),
    }
}

#[test]
fn memory_is_refused_in_drawn_sequences(rt: HostRuntime) -> Result<(), Fail> {
    let mut count = 0u64;
    for seed in 0..100u64 {
        count = count.saturating_add(count_refused(rt.alloc(), seed)?);
    }
    assert!(rt; count >= 100, "{count}");
    Ok(())
}

// Goes wrong at the second question to `ask` behind a clause with the literal 1.
struct Planted;

impl Trial for Planted {
    fn first_wrong(
        &self,
        _alloc: Global,
        steps: &[Step],
        kept: &[bool],
    ) -> Result<Option<usize>, AllocError> {
        Ok(first_planted(steps, kept))
    }
}

fn first_planted(steps: &[Step], kept: &[bool]) -> Option<usize> {
    let mut is_behind = false;
    let mut asked = 0u64;
    for (place, step) in steps.iter().enumerate() {
        if is_at(kept, place) {
            is_behind = is_behind || has_1(step);
            asked = asked.saturating_add(u64::from(is_behind && asks(step)));
        }
        if asked == 2 {
            return Some(place);
        }
    }
    None
}

// Whether it adds a clause with the literal 1.
fn has_1(step: &Step) -> bool {
    match step {
        Step::Add(clause) => clause.contains(&1),
        Step::Ask(_, _, _) | Step::Refused(_) => false,
    }
}

// Whether it is a question to `ask`.
fn asks(step: &Step) -> bool {
    match step {
        Step::Ask(Way::Ask, _, _) => true,
        Step::Add(_) | Step::Ask(_, _, _) | Step::Refused(_) => false,
    }
}

// Whether a drawn sequence goes wrong, and then whether what is left goes wrong at its last step, and not without any.
fn is_shortened(alloc: Global, seed: u64) -> Result<Option<bool>, AllocError> {
    let steps = draw_sequence(alloc, seed)?;
    let mut kept = shortened(alloc, &Planted, steps.as_slice())?;
    Ok(is_least(steps.as_slice(), kept.as_mut_slice()))
}

// Nothing where no step is left.
fn is_least(steps: &[Step], kept: &mut [bool]) -> Option<bool> {
    let last = last_kept(kept)?;
    let goes_wrong = first_planted(steps, kept) == Some(last) && count_kept(kept) == 3;
    Some(goes_wrong && needs_each(steps, kept))
}

fn last_kept(kept: &[bool]) -> Option<usize> {
    let mut last = None;
    for place in 0..kept.len() {
        if kept[place] {
            last = Some(place);
        }
    }
    last
}

fn count_kept(kept: &[bool]) -> u64 {
    let mut count = 0u64;
    for is_kept in kept {
        count = count.saturating_add(u64::from(*is_kept));
    }
    count
}

// Whether it does not go wrong without any one of the steps that are kept.
fn needs_each(steps: &[Step], kept: &mut [bool]) -> bool {
    for place in 0..kept.len() {
        if goes_wrong_without(steps, kept, place) {
            return false;
        }
    }
    true
}

// Not of a step that is not kept.
fn goes_wrong_without(steps: &[Step], kept: &mut [bool], place: usize) -> bool {
    if place >= kept.len() || !kept[place] {
        return false;
    }
    kept[place] = false;
    let is_wrong = first_planted(steps, kept).is_some();
    kept[place] = true;
    is_wrong
}

#[test]
fn failing_sequences_are_shortened(rt: HostRuntime) -> Result<(), Fail> {
    let mut count = 0u64;
    for seed in 0..40u64 {
        let shortened = is_shortened(rt.alloc(), seed)?;
        assert!(rt; shortened != Some(false), "of {seed}");
        count = count.saturating_add(u64::from(shortened.is_some()));
    }
    assert!(rt; count >= 10, "{count}");
    Ok(())
}
