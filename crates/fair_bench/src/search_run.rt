//! The subcommand `search`: one search of a model within so many steps, and what it took. The main call is `run_search`.

use crate::failure::Failure;
use crate::models::circuit_in;
use crate::reach_run::{answer_timed, goals_of, say_answer};
use circuit::Circuit;
use ic3::Start;
use std::sync::Arc;

/// Searches the circuit of the model in this file, without entries, from its initial states to a position at which the
/// first literal of its properties and fairness is true, in at most so many steps. Writes what was found; what it took goes
/// to standard error. Gives 0, the number with which the program ends.
pub(crate) fn run_search(rt: &HostRuntime, name: &str, steps: &str) -> Result<u8, Failure> {
    match steps.parse::<u64>() {
        Ok(limit) => search_model(rt, name, limit),
        Err(_) => Err(Failure::BadInput),
    }
}

fn search_model(rt: &HostRuntime, name: &str, limit: u64) -> Result<u8, Failure> {
    let shared = circuit_in(rt, name)?;
    let number = search_first(rt, &shared, limit);
    drop(shared);
    number
}

fn search_first(rt: &HostRuntime, c: &Arc<Circuit>, limit: u64) -> Result<u8, Failure> {
    let goals = goals_of(rt.alloc(), &**c)?;
    match goals.first() {
        Some(literal) => search_to(rt, c, *literal, limit),
        None => Err(Failure::BadInput),
    }
}

fn search_to(rt: &HostRuntime, c: &Arc<Circuit>, literal: u64, limit: u64) -> Result<u8, Failure> {
    let answer = answer_timed(rt, c, &Start::Initial, literal, limit)?;
    say_answer(rt, "initial", literal, answer)?;
    Ok(0)
}
