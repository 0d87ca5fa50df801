//! An own look at an answer. The main call is `judge`.

use crate::questions::{clauses, has_model, is_at, literal, note_numbers};
use cdcl::{Answer, Asked, Refuted, Solver};
use cnf::{Db, Lit, ProofLine, has_literal};
use lrat::Checker;
use std::alloc::{AllocError, Global};
use text_grammar::next_field;

/// What the solver said, and was right to say; or that it is wrong.
#[derive(Clone, Copy, PartialEq, Eq)]
pub(crate) enum Said {
    /// There is a model, and the values are one.
    Sat,
    /// There is no model, and the core and the proof show it.
    Unsat,
    /// The limit of conflicts was reached.
    Spent,
    /// Memory was refused.
    Memory,
    /// The answer is wrong.
    Wrong,
}

/// Whether the answer is right, and `Spent` comes only where it may.
pub(crate) fn is_right(said: Said, may_be_spent: bool) -> bool {
    match said {
        Said::Sat | Said::Unsat => true,
        Said::Spent => may_be_spent,
        Said::Memory | Said::Wrong => false,
    }
}

fn unsat_if(is_right: bool) -> Said {
    if is_right { Said::Unsat } else { Said::Wrong }
}

/// Holds an answer against a search through all values, and looks at what came with it. The numbers of the core come
/// into `noted`.
pub(crate) fn judge(
    alloc: Global,
    asked: &[i64],
    assumed: &[i64],
    answer: &Answer,
    noted: &mut Vec<i64>,
) -> Result<Said, AllocError> {
    match answer {
        Answer::Sat(values) => {
            judge_values(alloc, asked, assumed, &Values::Listed(values.as_slice()))
        }
        Answer::Unsat(core, proof) => {
            note_numbers(core.as_slice(), noted)?;
            judge_refusal(alloc, asked, assumed, core.as_slice(), proof.as_slice())
        }
    }
}

/// The same of an answer without a proof.
pub(crate) fn judge_asked(
    alloc: Global,
    asked: &[i64],
    assumed: &[i64],
    solver: &Solver,
    answer: &Asked,
    noted: &mut Vec<i64>,
) -> Result<Said, AllocError> {
    match answer {
        Asked::Sat => judge_values(alloc, asked, assumed, &Values::Told(solver)),
        Asked::Unsat(core) => {
            note_numbers(core.as_slice(), noted)?;
            judge_core(alloc, asked, assumed, core.as_slice())
        }
    }
}

/// The same of an answer on clauses and units behind them, which has no core.
pub(crate) fn judge_refuted(
    alloc: Global,
    asked: &[i64],
    units: &[i64],
    solver: &Solver,
    answer: &Refuted,
) -> Result<Said, AllocError> {
    match answer {
        Refuted::Sat => judge_values(alloc, asked, units, &Values::Told(solver)),
        Refuted::Unsat(proof) => judge_refutation(alloc, asked, units, proof.as_slice()),
    }
}

/// The values of a model: by its list, of which variable v has the value at place v, and false past the end; or as a solver
/// tells them.
#[derive(Clone, Copy)]
enum Values<'a> {
    Listed(&'a [bool]),
    Told(&'a Solver),
}

// There is a model, each clause has a true literal, and each assumption holds.
fn judge_values(
    alloc: Global,
    asked: &[i64],
    assumed: &[i64],
    values: &Values<'_>,
) -> Result<Said, AllocError> {
    let truths = truths_under(alloc, values, asked)?;
    let holds = all_hold(values, assumed);
    judge_truths(alloc, asked, assumed, truths.as_slice(), holds)
}

// Which of the literals are true under values.
fn truths_under(
    alloc: Global,
    values: &Values<'_>,
    numbers: &[i64],
) -> Result<Vec<bool>, AllocError> {
    let mut truths = Vec::new(alloc);
    for number in numbers {
        truths.push(is_true_under(values, *number))?;
    }
    Ok(truths)
}

fn all_hold(values: &Values<'_>, numbers: &[i64]) -> bool {
    for number in numbers {
        if !is_true_under(values, *number) {
            return false;
        }
    }
    true
}

fn is_true_under(values: &Values<'_>, number: i64) -> bool {
    let variable = number.unsigned_abs();
    let value = match values {
        Values::Listed(list) => is_at(list, variable as usize),
        Values::Told(solver) => solver.value(variable),
    };
    value == (number > 0)
}

fn judge_truths(
    alloc: Global,
    asked: &[i64],
    assumed: &[i64],
    truths: &[bool],
    holds: bool,
) -> Result<Said, AllocError> {
    if has_model(alloc, asked, assumed)? && are_true(asked, truths) && holds {
        Ok(Said::Sat)
    } else {
        Ok(Said::Wrong)
    }
}

// Whether each clause has a true literal.
fn are_true(asked: &[i64], truths: &[bool]) -> bool {
    let mut is_clause_true = false;
    for place in 0..asked.len() {
        if asked[place] != 0 {
            is_clause_true = is_clause_true || is_at(truths, place);
            continue;
        }
        if !is_clause_true {
            return false;
        }
        is_clause_true = false;
    }
    true
}

fn judge_refusal(
    alloc: Global,
    asked: &[i64],
    assumed: &[i64],
    core: &[Lit],
    proof: &[ProofLine],
) -> Result<Said, AllocError> {
    if judge_core(alloc, asked, assumed, core)? != Said::Unsat {
        return Ok(Said::Wrong);
    }
    judge_lines(alloc, asked, core, proof)
}

// There is no model, each literal of the core was assumed, and there is no model under the core.
fn judge_core(
    alloc: Global,
    asked: &[i64],
    assumed: &[i64],
    core: &[Lit],
) -> Result<Said, AllocError> {
    if has_model(alloc, asked, assumed)? || !are_among(core, assumed) {
        return Ok(Said::Wrong);
    }
    let kept = kept(alloc, assumed, core)?;
    Ok(unsat_if(!has_model(alloc, asked, kept.as_slice())?))
}

fn judge_refutation(
    alloc: Global,
    asked: &[i64],
    units: &[i64],
    proof: &[ProofLine],
) -> Result<Said, AllocError> {
    if has_model(alloc, asked, units)? {
        return Ok(Said::Wrong);
    }
    let listed = with_units(alloc, asked, units)?;
    judge_lines(alloc, listed.as_slice(), &[], proof)
}

// The clauses, and behind them the units as clauses.
fn with_units(alloc: Global, asked: &[i64], units: &[i64]) -> Result<Vec<i64>, AllocError> {
    let mut listed = Vec::from_slice(alloc, asked)?;
    for unit in units {
        listed.push(*unit)?;
        listed.push(0)?;
    }
    Ok(listed)
}

// Whether the lines prove the clause of the core's negations, none is needless, and the checker takes each.
fn judge_lines(
    alloc: Global,
    asked: &[i64],
    core: &[Lit],
    proof: &[ProofLine],
) -> Result<Said, AllocError> {
    if !are_needed(proof) || !adds_last(alloc, asked, core, proof)? {
        return Ok(Said::Wrong);
    }
    judge_proof(alloc, asked, core.is_empty(), proof)
}

// Whether each literal of the core was assumed.
fn are_among(core: &[Lit], assumed: &[i64]) -> bool {
    for one in core {
        if !is_among(*one, assumed) {
            return false;
        }
    }
    true
}

fn is_among(one: Lit, assumed: &[i64]) -> bool {
    for number in assumed {
        if literal(*number).is(one) {
            return true;
        }
    }
    false
}

// The assumptions that the core has.
fn kept(alloc: Global, assumed: &[i64], core: &[Lit]) -> Result<Vec<i64>, AllocError> {
    let mut made = Vec::new(alloc);
    for number in assumed {
        if has_literal(core, literal(*number)) {
            made.push(*number)?;
        }
    }
    Ok(made)
}

// Whether the last line adds the clause of the core's negations. Without a line, whether that is the last of the
// clauses.
fn adds_last(
    alloc: Global,
    asked: &[i64],
    core: &[Lit],
    proof: &[ProofLine],
) -> Result<bool, AllocError> {
    if proof.is_empty() {
        return Ok(core.is_empty() && ends_empty(asked));
    }
    let wanted = negations_text(alloc, core)?;
    Ok(adds(proof[proof.len() - 1].as_slice(), wanted.as_bytes()))
}

// Whether the last clause is empty.
fn ends_empty(asked: &[i64]) -> bool {
    let count = asked.len();
    count > 0 && asked[count - 1] == 0 && (count == 1 || asked[count - 2] == 0)
}

// Whether a line has this text behind its number.
fn adds(line: &[u8], wanted: &[u8]) -> bool {
    let (_id, rest) = next_field(line);
    match rest {
        Some(literals) => literals.starts_with(wanted),
        None => false,
    }
}

// The negations as a proof writes them, each with a space behind it, and 0.
fn negations_text(alloc: Global, core: &[Lit]) -> Result<String, AllocError> {
    let mut text = String::new(alloc);
    for one in core {
        push_negation(alloc, *one, &mut text)?;
    }
    text.push_str("0 ")?;
    Ok(text)
}

fn push_negation(alloc: Global, literal: Lit, text: &mut String) -> Result<(), AllocError> {
    if literal.positive {
        text.push_str("-")?;
    }
    let written = format!(in alloc; "{} ", literal.var)?;
    text.push_str(written.as_str())?;
    Ok(())
}

// Whether each line but the last is a hint of a later one.
fn are_needed(proof: &[ProofLine]) -> bool {
    for place in 1..proof.len() {
        if !is_needed(&proof[place - 1], &proof[place..]) {
            return false;
        }
    }
    true
}

fn is_needed(line: &ProofLine, later: &[ProofLine]) -> bool {
    let (id, _rest) = next_field(line.as_slice());
    for one in later {
        if is_hint(one.as_slice(), id) {
            return true;
        }
    }
    false
}

// Whether the id stands among the hints of a line, which stand behind its first 0.
fn is_hint(line: &[u8], id: &[u8]) -> bool {
    let mut is_behind = false;
    let mut text = line;
    for _ in 0..line.len() {
        let (field, more) = next_field(text);
        if is_behind && field == id {
            return true;
        }
        is_behind = is_behind || is_zero(field);
        match more {
            Some(rest) => text = rest,
            None => return false,
        }
    }
    false
}

fn is_zero(field: &[u8]) -> bool {
    field.len() == 1 && field[0] == b'0'
}

// Whether the checker takes each line, and the empty clause is proved where the core is empty.
fn judge_proof(
    alloc: Global,
    asked: &[i64],
    is_refuted: bool,
    proof: &[ProofLine],
) -> Result<Said, AllocError> {
    let mut checker = checker_of(alloc, asked)?;
    let is_right = takes_all(&mut checker, proof) && (!is_refuted || checker.proved_empty());
    drop(checker);
    Ok(unsat_if(is_right))
}

fn checker_of(alloc: Global, asked: &[i64]) -> Result<Checker, AllocError> {
    let given = clauses(alloc, asked)?;
    Checker::new(alloc, Db::from_vec(given))
}

fn takes_all(checker: &mut Checker, proof: &[ProofLine]) -> bool {
    for line in proof {
        if checker.step(line.as_slice()).is_err() {
            return false;
        }
    }
    true
}
