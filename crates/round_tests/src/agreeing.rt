//! What is told of drawn circuits, beside searches of all states. The main call is `telling`.

use crate::drawn::{Case, case_of};
use crate::lassos::{MOST, fewest_agreed};
use crate::tests::most_agreed;
use drawn_circuits::{Drawn, circuit_drawn};
use std::alloc::{AllocError, Global};
use std::test::*;

/// What is asked of a circuit.
#[derive(Clone, Copy)]
enum Question {
    /// The most rounds that a run has, up to six.
    Rounds,
    /// The fewest positions that a fair lasso has.
    Positions,
}

fn answered(
    alloc: Global,
    question: Question,
    d: &Drawn,
    case: &Case,
) -> Result<Option<u64>, AllocError> {
    match question {
        Question::Rounds => most_agreed(alloc, d, case),
        Question::Positions => fewest_agreed(alloc, d, case),
    }
}

fn answered_of(
    alloc: Global,
    question: Question,
    d: &Drawn,
    number: u64,
) -> Result<Option<u64>, AllocError> {
    let case = case_of(alloc, d, number)?;
    let answer = answered(alloc, question, d, &case);
    drop(case);
    answer
}

// The answer of the circuit with a number, where what is told agrees.
fn agreed(alloc: Global, question: Question, number: u64) -> Result<Option<u64>, AllocError> {
    let d = circuit_drawn(alloc, number)?;
    let answer = answered_of(alloc, question, &d, number);
    drop(d);
    answer
}

// How many of the first drawn circuits have an answer between these two; nothing where one does not agree.
fn telling(
    alloc: Global,
    question: Question,
    circuits: u64,
    above: u64,
    below: u64,
) -> Result<Option<u64>, AllocError> {
    let mut count: u64 = 0;
    for number in 0..circuits {
        let Some(answer) = agreed(alloc, question, number)? else {
            return Ok(None);
        };
        if answer > above && answer < below {
            count = count.saturating_add(1);
        }
    }
    Ok(Some(count))
}

/// Of 60 drawn circuits, and 1 to 6 rounds, it is decided as a search of all states has it.
#[test]
fn drawn_circuits_are_decided(rt: HostRuntime) -> Result<(), Fail> {
    let told = telling(rt.alloc(), Question::Rounds, 60, 0, 6)?.unwrap_or(0);
    assert!(rt; told >= 5);
    Ok(())
}

/// Of 60 drawn circuits the shortest lasso has as many positions as a search of all states has it.
#[test]
fn drawn_lassos_are_shortest(rt: HostRuntime) -> Result<(), Fail> {
    let told = telling(rt.alloc(), Question::Positions, 60, 1, MOST)?.unwrap_or(0);
    assert!(rt; told >= 5);
    Ok(())
}
