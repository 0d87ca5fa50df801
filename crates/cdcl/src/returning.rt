//! To which level a search goes back after a conflict, and over which literals. The main calls are
//! `level_after` and `above_level`.
ghost use Rattle.std.specs.Prelude.{◌≡◌, ◌<◌, ◌++◌, true};
ghost use Rattle.cdcl_trail.specs.Trails.{level, literals_of, opened_by, up_to_level};
ghost use Rattle.cdcl_trail.specs.Propagation.{is_falsified};
ghost use Rattle.cdcl.specs.Searching.{IsBackLevel};

use crate::restarts::Restarts;
use cdcl_trail::Trail;
use cnf::Lit;

/// The level to go back to after a conflict that taught the clause: the base where the search
/// begins again, and else the highest level below the last of a literal of the clause, or the base
/// where that is higher.
pub(crate) fn level_after(restarts: &mut Restarts, trail: &Trail, clause: &[Lit], base: u64) -> u64
    requires falsified { is_falsified trail.now.steps clause.now ≡ true }
    requires above { base < level trail.now.steps }
    ensures { IsBackLevel trail.now.steps clause.now base result }
{
    if restarts.count() {
        return base;
    }
    back_level(trail, clause, base)
}

// The highest level below the last of a literal of the clause, or the base where that is higher.
fn back_level(trail: &Trail, clause: &[Lit], base: u64) -> u64
    requires falsified { is_falsified trail.now.steps clause.now ≡ true }
    requires above { base < level trail.now.steps }
    ensures { IsBackLevel trail.now.steps clause.now base result }
{
    let last = trail.level();
    let mut target = base;
    for literal in clause {
        let level = trail.level_of(literal.var);
        if level <= target {
            continue;
        }
        if level >= last {
            continue;
        }
        target = level;
    }
    target
}

/// The literals above a level, in the order in which they came: those that going back to it leaves
/// out. Takes no memory.
pub(crate) fn above_level(trail: &Trail, target: u64) -> &[Lit]
    ensures { literals_of (up_to_level target trail.now.steps) ++ result.now ≡ literals_of trail.now.steps }
{
    let reasons = trail.reasons();
    let mut levels = trail.level();
    let mut place = reasons.len();
    'places: while levels > target {
        place -= 1;
        levels -= opened_by(reasons[place]);
    }
    &trail.literals()[place..]
}

// How many levels a literal opens: one where it was assumed.
fn opened_by(reason: Option<u64>) -> u64
    ensures { result ≡ opened_by reason }
{
    match reason {
        None => 1,
        Some(_) => 0,
    }
}
