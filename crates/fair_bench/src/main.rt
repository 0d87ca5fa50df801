//! fair_bench: runs parts of fairlive alone, on files, and measures them. What is found goes to standard output, the
//! same at each run; what was measured goes to standard error.
#![tactic(auto)]

mod certify_run;
mod failure;
mod formula;
mod hints;
mod lines;
mod lrat_run;
mod models;
mod outside;
mod questions_run;
mod reach_run;
mod rewrite_run;
mod sat_run;
mod search_run;
mod stamps;
mod verdict;

use crate::certify_run::run_certify;
use crate::failure::Failure;
use crate::lrat_run::run_lrat;
use crate::outside::print_text;
use crate::questions_run::run_questions;
use crate::reach_run::run_reach;
use crate::rewrite_run::run_rewrite;
use crate::sat_run::run_sat;
use crate::search_run::run_search;
use std::process::ExitCode;
use std::{env, io};

const USAGE: &str = "\
usage: fair_bench certify MODEL
       fair_bench lrat CNF PROOF
       fair_bench questions CNF QUESTIONS [CLAUSES]
       fair_bench reach MODEL
       fair_bench rewrite MODEL
       fair_bench sat CNF
       fair_bench search MODEL STEPS
";

fn main(rt: HostRuntime) -> ExitCode {
    let number = match run(&rt) {
        Ok(number) => number,
        Err(failure) => failure.number(),
    };
    ExitCode::from(number)
}

/// Runs the subcommand that the words name, and gives the number with which the program ends.
fn run(rt: &HostRuntime) -> Result<u8, Failure> {
    let words = words_of(rt)?;
    run_words(rt, &words)
}

fn run_words(rt: &HostRuntime, words: &[String]) -> Result<u8, Failure> {
    match words {
        [_, command, name] => run_one(rt, command.as_str(), name.as_str()),
        [_, command, first, second] => {
            run_two(rt, command.as_str(), first.as_str(), second.as_str())
        }
        [_, command, first, second, third] => run_three(
            rt,
            command.as_str(),
            first.as_str(),
            second.as_str(),
            third.as_str(),
        ),
        _ => print_usage(rt),
    }
}

// A subcommand with the name of one file.
fn run_one(rt: &HostRuntime, command: &str, name: &str) -> Result<u8, Failure> {
    if command == "certify" {
        return run_certify(rt, name);
    }
    if command == "reach" {
        return run_reach(rt, name);
    }
    if command == "rewrite" {
        return run_rewrite(rt, name);
    }
    if command == "sat" {
        return run_sat(rt, name);
    }
    print_usage(rt)
}

// A subcommand with two words.
fn run_two(rt: &HostRuntime, command: &str, first: &str, second: &str) -> Result<u8, Failure> {
    if command == "lrat" {
        return run_lrat(rt, first, second);
    }
    if command == "questions" {
        return run_questions(rt, first, second, None);
    }
    if command == "search" {
        return run_search(rt, first, second);
    }
    print_usage(rt)
}

// A subcommand with the names of three files.
fn run_three(
    rt: &HostRuntime,
    command: &str,
    first: &str,
    second: &str,
    third: &str,
) -> Result<u8, Failure> {
    if command == "questions" {
        return run_questions(rt, first, second, Some(third));
    }
    print_usage(rt)
}

fn print_usage(rt: &HostRuntime) -> Result<u8, Failure> {
    print_text(rt, USAGE)?;
    Ok(64)
}

/// The words of the command line.
fn words_of(rt: &HostRuntime) -> io::Result<Vec<String>> {
    let mut words = Vec::new(rt.alloc());
    for word in env::args(rt)? {
        words.push(word)?;
    }
    Ok(words)
}
