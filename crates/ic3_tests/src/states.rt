//! The states of a drawn circuit, all of them: sets of states, the steps between them, and what entries allow. A set of
//! states is a number whose bit s tells whether state s is in it. The main types are `Space` and `Known`.

use cnf::{Cube, Lit};
use drawn_circuits::{Drawn, bit, may_begin, next_of, power, value, values_of};
use entry::{Checked, Kind, Listed, Side, Use};
use ic3::Goal;
use std::alloc::{AllocError, Global};
use std::sync::Arc;

/// The states of a circuit, its initial ones, and the successors of each.
#[derive(Drop)]
pub(crate) struct Space {
    pub(crate) count: u64,
    pub(crate) initial: u64,
    next: Vec<u64>,
}

/// The set of one state, or of one entry.
pub(crate) fn one(state: u64) -> u64 {
    1 << (state % 64)
}

pub(crate) fn is_in(set: u64, state: u64) -> bool {
    set & one(state) != 0
}

/// Whether each member of a set is one of another.
pub(crate) fn is_part(set: u64, whole: u64) -> bool {
    set & whole == set
}

fn number_at(numbers: &[u64], at: u64) -> u64 {
    let place = at as usize;
    if place < numbers.len() {
        numbers[place]
    } else {
        0
    }
}

// The states that follow a state.
fn successors(alloc: Global, d: &Drawn, state: u64) -> Result<u64, AllocError> {
    let mut set: u64 = 0;
    for inputs in 0..4 {
        set |= successor(alloc, d, state, inputs)?;
    }
    Ok(set)
}

// The one behind a position; none where the constraint is not met.
fn successor(alloc: Global, d: &Drawn, state: u64, inputs: u64) -> Result<u64, AllocError> {
    let values = values_of(alloc, d, state, inputs)?;
    if value(values.as_slice(), d.constraint) {
        Ok(one(next_of(d, values.as_slice())))
    } else {
        Ok(0)
    }
}

impl Space {
    pub(crate) fn new(alloc: Global, d: &Drawn) -> Result<Space, AllocError> {
        let count = power(d.latches);
        let mut initial: u64 = 0;
        let mut next = Vec::new(alloc);
        for state in 0..count {
            let set = successors(alloc, d, state)?;
            next.push(set)?;
            if may_begin(d, state) {
                initial |= one(state);
            }
        }
        Ok(Space {
            count,
            initial,
            next,
        })
    }

    /// The states that follow one.
    pub(crate) fn after(&self, state: u64) -> u64 {
        number_at(self.next.as_slice(), state)
    }
}

/// The entries of a view, and their sets.
#[derive(Clone, Copy)]
pub(crate) struct Known<'a> {
    pub(crate) view: &'a [Arc<Checked>],
    pub(crate) sets: &'a [u64],
}

impl<'a> Known<'a> {
    pub(crate) fn set(self, k: u64) -> u64 {
        number_at(self.sets, k)
    }

    pub(crate) fn is_wall(self, k: u64) -> bool {
        let place = k as usize;
        if place >= self.view.len() {
            return false;
        }
        match self.view[place].listed().kind {
            Kind::Wall => true,
            Kind::Reach => false,
        }
    }

    /// The entries that restrict the steps of a search, from a state or from the initial states, as a set of numbers.
    pub(crate) fn restricting(self, from: Option<u64>) -> u64 {
        let mut used: u64 = 0;
        for k in 0..self.view.len() as u64 {
            if from.is_some() || !self.is_wall(k) {
                used |= one(k);
            }
        }
        used
    }

    fn allows_by(self, k: u64, state: u64, next: u64) -> bool {
        let here = is_in(self.set(k), state);
        let there = is_in(self.set(k), next);
        here == there && (here || self.is_wall(k))
    }

    /// Whether each of these entries allows the step.
    pub(crate) fn allows(self, used: u64, state: u64, next: u64) -> bool {
        for k in 0..self.view.len() as u64 {
            if is_in(used, k) && !self.allows_by(k, state, next) {
                return false;
            }
        }
        true
    }

    /// Whether a state lies in the arena of a start.
    pub(crate) fn is_in_arena(self, from: Option<u64>, state: u64) -> bool {
        for k in 0..self.view.len() as u64 {
            if !self.keeps_to(k, from, state) {
                return false;
            }
        }
        true
    }

    fn keeps_to(self, k: u64, from: Option<u64>, state: u64) -> bool {
        let inside = is_in(self.set(k), state);
        if !self.is_wall(k) {
            return inside;
        }
        match from {
            Some(start) => is_in(self.set(k), start) == inside,
            None => true,
        }
    }

    /// The set of an entry that stands behind these.
    pub(crate) fn set_of(self, space: &Space, entry: &Listed) -> u64 {
        let mut set: u64 = 0;
        for state in 0..space.count {
            if meets(entry, state) && self.is_on_sides(entry.uses.as_slice(), state) {
                set |= one(state);
            }
        }
        set
    }

    /// The states on the sides of uses.
    pub(crate) fn region(self, space: &Space, uses: &[Use]) -> u64 {
        let mut set: u64 = 0;
        for state in 0..space.count {
            if self.is_on_sides(uses, state) {
                set |= one(state);
            }
        }
        set
    }

    fn is_on_sides(self, uses: &[Use], state: u64) -> bool {
        for u in uses {
            if !is_on_side(u.side, is_in(self.set(u64::from(u.entry)), state)) {
                return false;
            }
        }
        true
    }

    // The successors of a state by steps that these entries allow.
    fn steps(self, space: &Space, used: u64, state: u64) -> u64 {
        let mut set: u64 = 0;
        let after = space.after(state);
        for next in 0..space.count {
            if is_in(after, next) && self.allows(used, state, next) {
                set |= one(next);
            }
        }
        set
    }

    /// The successors of the states of a set by steps that these entries allow.
    pub(crate) fn image(self, space: &Space, used: u64, set: u64) -> u64 {
        let mut all: u64 = 0;
        for state in 0..space.count {
            if is_in(set, state) {
                all |= self.steps(space, used, state);
            }
        }
        all
    }

    /// The states that runs reach from those of a set by steps that these entries allow.
    pub(crate) fn reached(self, space: &Space, used: u64, set: u64) -> u64 {
        let mut all = set;
        for _turn in 0..64 {
            let more = all | self.image(space, used, all);
            if more == all {
                return all;
            }
            all = more;
        }
        all
    }
}

/// Whether a literal over the latches is true in a state.
pub(crate) fn is_true(literal: &Lit, state: u64) -> bool {
    bit(state, literal.var) == literal.positive
}

fn meets(entry: &Listed, state: u64) -> bool {
    for clause in entry.set.as_slice() {
        if !has_true(clause.as_slice(), state) {
            return false;
        }
    }
    true
}

fn has_true(literals: &[Lit], state: u64) -> bool {
    for literal in literals {
        if is_true(literal, state) {
            return true;
        }
    }
    false
}

fn are_all_true(literals: &[Lit], state: u64) -> bool {
    for literal in literals {
        if !is_true(literal, state) {
            return false;
        }
    }
    true
}

fn is_avoided(avoid: &[Cube], state: u64) -> bool {
    for cube in avoid {
        if are_all_true(cube.as_slice(), state) {
            return true;
        }
    }
    false
}

fn is_on_side(side: Side, inside: bool) -> bool {
    match side {
        Side::Any => true,
        Side::In => inside,
        Side::Out => !inside,
    }
}

/// The sets of the entries of a view.
pub(crate) fn sets_of(
    alloc: Global,
    space: &Space,
    view: &[Arc<Checked>],
) -> Result<Vec<u64>, AllocError> {
    let mut sets = Vec::new(alloc);
    for checked in view {
        let set = set_behind(space, view, sets.as_slice(), checked);
        sets.push(set)?;
    }
    Ok(sets)
}

// The set of an entry behind those whose sets are known.
fn set_behind(space: &Space, view: &[Arc<Checked>], sets: &[u64], checked: &Checked) -> u64 {
    let known = Known { view, sets };
    known.set_of(space, checked.listed())
}

/// The number of the state with these values.
pub(crate) fn number_of(values: &[bool]) -> u64 {
    let mut number: u64 = 0;
    for i in 0..values.len() {
        if values[i] {
            number = number.saturating_add(power(i as u64));
        }
    }
    number
}

/// Whether a state, with these values of all variables at a position of it, meets a literal as goal of a search; `next`
/// follows it.
pub(crate) fn is_met(
    known: Known<'_>,
    from: Option<u64>,
    d: &Drawn,
    goal: &Goal<'_>,
    state: u64,
    values: &[bool],
) -> bool {
    match goal {
        Goal::State(_) => false,
        Goal::Literal { literal, avoid } => {
            value(values, d.constraint)
                && value(values, *literal)
                && !is_avoided(avoid, state)
                && known.is_in_arena(from, state)
                && known.is_in_arena(from, next_of(d, values))
        }
    }
}

/// The states that are the goal, or at a position of which it is met.
pub(crate) fn goals(
    alloc: Global,
    space: &Space,
    known: Known<'_>,
    from: Option<u64>,
    d: &Drawn,
    goal: &Goal<'_>,
) -> Result<u64, AllocError> {
    if let Goal::State(to) = goal {
        return Ok(one(number_of(to)));
    }
    let mut set: u64 = 0;
    for state in 0..space.count {
        if is_met_in(alloc, known, from, d, goal, state)? {
            set |= one(state);
        }
    }
    Ok(set)
}

// Whether the goal is met at a position of the state.
fn is_met_in(
    alloc: Global,
    known: Known<'_>,
    from: Option<u64>,
    d: &Drawn,
    goal: &Goal<'_>,
    state: u64,
) -> Result<bool, AllocError> {
    for inputs in 0..4 {
        if is_met_at(alloc, known, from, d, goal, (state, inputs))? {
            return Ok(true);
        }
    }
    Ok(false)
}

fn is_met_at(
    alloc: Global,
    known: Known<'_>,
    from: Option<u64>,
    d: &Drawn,
    goal: &Goal<'_>,
    at: (u64, u64),
) -> Result<bool, AllocError> {
    let values = values_of(alloc, d, at.0, at.1)?;
    Ok(is_met(known, from, d, goal, at.0, values.as_slice()))
}
