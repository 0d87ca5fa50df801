//! The choice of the next literal to assume. The main call is `choose`.
ghost use Rattle.std.specs.Prelude.{◌≡◌, IfNone, IfSome, IsTrue, true, false, is_some, slice_get, option_copied};
ghost use Rattle.std.specs.List.{list_any, list_all};
ghost use Rattle.cdcl_trail.specs.Propagation.{is_complete, is_true, is_falsified};
ghost use Rattle.cdcl_trail.specs.Trails.{value_of, literals_of};
ghost use Rattle.cdcl.specs.Searching.{IsUndecided, IsOpenIn, HasNoOther, has_variable, is_satisfied, is_over};

use cdcl_log::Log;
use cdcl_order::{Candidate, Order};
use cdcl_trail::Trail;
use cnf::{Clause, Lit, Var};

/// The most active variable without a value, with the value that it had last. `None` where every
/// clause has a true literal. The condition is that no clause is unit or false, and that the trail
/// has no variables but those of the clauses and of the assumptions.
pub(crate) fn choose(
    order: &mut Order,
    trail: &Trail,
    log: &Log,
    assumptions: &[Lit],
) -> Option<Lit>
    requires complete { is_complete log.now.clauses trail.now.steps ≡ true }
    requires over { HasNoOther log.now.clauses assumptions.now trail.now.steps }
    ensures none { IfNone result (is_satisfied log.now.clauses trail.now.steps ≡ true) }
    ensures open { IfSome result (λ a. IsUndecided log.now.clauses trail.now.steps a) }
{
    if is_full(trail, log, assumptions) {
        return None;
    }
    choose_open(order, trail, log.clauses().as_slice())
}

// Whether each variable of the clauses has a value. Where there are more variables than values, none
// is looked at; and where all of the trail are among them, as many values are enough.
fn is_full(trail: &Trail, log: &Log, assumptions: &[Lit]) -> bool
    requires complete { is_complete log.now.clauses trail.now.steps ≡ true }
    requires over { HasNoOther log.now.clauses assumptions.now trail.now.steps }
    ensures { IsTrue result → is_satisfied log.now.clauses trail.now.steps ≡ true }
{
    let variables = log.variables();
    if trail.literals().len() < variables.len() {
        return false;
    }
    match log.variables_with(assumptions) {
        Some(all) => are_as_many(trail, all),
        None => have_values(trail, variables),
    }
}

// Whether the trail has as many variables as these, which are all that it may have: then each of
// them has a value.
fn are_as_many(trail: &Trail, variables: &[Var]) -> bool
    requires { is_over variables.now (literals_of trail.now.steps) ≡ true }
    ensures { IsTrue result → list_all (λ v. is_some (value_of trail.now.steps v)) variables.now ≡ true }
{
    trail.literals().len() >= variables.len()
}

// Whether each of the variables has a value.
fn have_values(trail: &Trail, variables: &[Var]) -> bool
    ensures { result ≡ list_all (λ v. is_some (value_of trail.now.steps v)) variables.now }
{
    variables.iter().all(|var| trail.value(*var).is_some())
}

// The most active variable without a value that the order has, or else one of the first clause that
// has no true literal.
fn choose_open(order: &mut Order, trail: &Trail, clauses: &[Clause]) -> Option<Lit>
    requires { is_complete clauses.now trail.now.steps ≡ true }
    ensures none { IfNone result (is_satisfied clauses.now trail.now.steps ≡ true) }
    ensures open { IfSome result (λ a. IsUndecided clauses.now trail.now.steps a) }
{
    match order.take(trail) {
        Some(candidate) if is_open(trail, clauses, candidate) => Some(candidate.literal),
        _ => first_open(trail, clauses),
    }
}

// Whether a variable has no value, and stands in the clause that is told.
fn is_open(trail: &Trail, clauses: &[Clause], candidate: Candidate) -> bool
    ensures { IsTrue result → IsUndecided clauses.now trail.now.steps candidate.literal }
{
    let var = candidate.literal.var;
    if trail.value(var).is_some() {
        return false;
    }
    let Some(clause) = clause_at(clauses, candidate.clause) else {
        return false;
    };
    has_variable(clause, var)
}

// The literals of the clause at a place.
fn clause_at(clauses: &[Clause], place: usize) -> Option<&[Lit]>
    ensures { option_copied result ≡ slice_get clauses.now place }
{
    match clauses.get(place) {
        None => None,
        Some(clause) => Some(clause.as_slice()),
    }
}

// Whether the variable is that of a literal of the clause.
fn has_variable(clause: &[Lit], var: Var) -> bool
    ensures { result ≡ has_variable clause.now var }
{
    clause.iter().any(|literal| var == literal.var)
}

// A literal without a value of the first clause that has no true literal. `None` where every clause
// has one.
fn first_open(trail: &Trail, clauses: &[Clause]) -> Option<Lit>
    requires { is_complete clauses.now trail.now.steps ≡ true }
    ensures none { IfNone result (is_satisfied clauses.now trail.now.steps ≡ true) }
    ensures open { IfSome result (λ a. IsUndecided clauses.now trail.now.steps a) }
{
    for clause in clauses {
        if let Some(literal) = open_literal(trail, clause.as_slice()) {
            return Some(literal);
        }
    }
    None
}

// A literal without a value, where no literal of the clause is true. `None` where one is.
fn open_literal(trail: &Trail, clause: &[Lit]) -> Option<Lit>
    requires { is_falsified trail.now.steps clause.now ≡ false }
    ensures none { IfNone result (list_any (is_true trail.now.steps) clause.now ≡ true) }
    ensures open { IfSome result (λ a. IsOpenIn trail.now.steps clause.now a) }
{
    let mut open: Option<Lit> = None;
    for literal in clause {
        let Some(value) = trail.value(literal.var) else {
            open = Some(*literal);
            continue;
        };
        if value == literal.positive {
            return None;
        }
    }
    open
}
