//! What a search of all states says of searches of drawn circuits. The main type is `Arena`.

use crate::states::{Known, Space, goals, is_in, is_met, number_of, one};
use aig_semantics::Position;
use drawn_circuits::{Drawn, next_of, state_of, value, values_of};
use entry::{Kind, Listed};
use fair_semantics::{Situation, Skeleton};
use ic3::{Goal, Start};
use items::Items;
use std::alloc::{AllocError, Global};

/// A drawn circuit behind known entries, and where searches start: in a state, or in the initial states.
#[derive(Clone, Copy)]
pub(crate) struct Arena<'a> {
    pub(crate) d: &'a Drawn,
    pub(crate) space: &'a Space,
    pub(crate) known: Known<'a>,
    pub(crate) from: Option<u64>,
}

impl<'a> Arena<'a> {
    /// The states in which searches start.
    pub(crate) fn starts(self) -> u64 {
        match self.from {
            Some(state) => one(state),
            None => self.space.initial,
        }
    }

    /// The kind of the entry that a closed set is.
    pub(crate) fn kind(self) -> Kind {
        match self.from {
            Some(_) => Kind::Wall,
            None => Kind::Reach,
        }
    }

    /// The states that are the goal, or at a position of which it is met.
    pub(crate) fn goals(self, alloc: Global, goal: &Goal<'_>) -> Result<u64, AllocError> {
        goals(alloc, self.space, self.known, self.from, self.d, goal)
    }

    /// Whether there is a path to the goal, by a search of all states.
    pub(crate) fn has_path(self, alloc: Global, goal: &Goal<'_>) -> Result<bool, AllocError> {
        let used = self.known.restricting(self.from);
        let reached = self.known.reached(self.space, used, self.starts());
        Ok(reached & self.goals(alloc, goal)? != 0)
    }

    pub(crate) fn start(self, alloc: Global) -> Result<Start, AllocError> {
        match self.from {
            Some(state) => Ok(Start::State(state_of(alloc, self.d, state)?)),
            None => Ok(Start::Initial),
        }
    }

    // Whether a path may begin in a state, or go on in it behind another.
    fn may_follow(self, before: Option<u64>, state: u64) -> bool {
        match before {
            Some(next) => next == state,
            None => is_in(self.starts(), state),
        }
    }

    // The state that follows a position, if a path may go on by it.
    fn step(
        self,
        alloc: Global,
        before: Option<u64>,
        p: &Position,
    ) -> Result<Option<u64>, AllocError> {
        let state = number_of(p.latches.as_slice());
        let values = values_of(alloc, self.d, state, number_of(p.inputs.as_slice()))?;
        Ok(self.follower(before, p, state, values.as_slice()))
    }

    // The same of a position in a state, with these values of all variables.
    fn follower(
        self,
        before: Option<u64>,
        p: &Position,
        state: u64,
        values: &[bool],
    ) -> Option<u64> {
        let next = next_of(self.d, values);
        let used = self.known.restricting(self.from);
        let possible = p.latches.len() as u64 == self.d.latches
            && p.inputs.len() as u64 == self.d.inputs
            && self.may_follow(before, state)
            && value(values, self.d.constraint)
            && self.known.allows(used, state, next);
        if possible { Some(next) } else { None }
    }

    // Whether a path that ends with this position, and leads to this state, has come to the goal.
    fn arrives(
        self,
        alloc: Global,
        goal: &Goal<'_>,
        last: Option<&Position>,
        end: Option<u64>,
    ) -> Result<bool, AllocError> {
        match (goal, last) {
            (Goal::State(to), _) => Ok(self.may_follow(end, number_of(to))),
            (Goal::Literal { .. }, None) => Ok(false),
            (Goal::Literal { .. }, Some(p)) => self.meets(alloc, goal, p),
        }
    }

    // Whether the goal is met at a position.
    fn meets(self, alloc: Global, goal: &Goal<'_>, p: &Position) -> Result<bool, AllocError> {
        let state = number_of(p.latches.as_slice());
        let values = values_of(alloc, self.d, state, number_of(p.inputs.as_slice()))?;
        Ok(is_met(
            self.known,
            self.from,
            self.d,
            goal,
            state,
            values.as_slice(),
        ))
    }

    /// Whether these positions are a path to the goal, each by a step that the entries allow.
    pub(crate) fn replays(
        self,
        alloc: Global,
        goal: &Goal<'_>,
        positions: &[Position],
    ) -> Result<bool, AllocError> {
        let mut end = None;
        for p in positions {
            end = self.step(alloc, end, p)?;
            if end.is_none() {
                return Ok(false);
            }
        }
        self.arrives(alloc, goal, positions.last(), end)
    }

    /// A skeleton that the entry excludes: a start inside its set and a state outside, if there is such a state.
    pub(crate) fn skeleton(
        self,
        alloc: Global,
        entry: &Listed,
    ) -> Result<Option<Skeleton>, AllocError> {
        let set = self.known.set_of(self.space, entry);
        let Some(inside) = self.first_in(set) else {
            return Ok(None);
        };
        let Some(outside) = self.first_in(!set) else {
            return Ok(None);
        };
        let skeleton = self.skeleton_of(alloc, inside, outside)?;
        Ok(Some(skeleton))
    }

    // The first state of a set.
    fn first_in(self, set: u64) -> Option<u64> {
        for state in 0..self.space.count {
            if is_in(set, state) {
                return Some(state);
            }
        }
        None
    }

    fn skeleton_of(self, alloc: Global, state: u64, next: u64) -> Result<Skeleton, AllocError> {
        let situation = self.situation(alloc, state, next)?;
        let mut situations = Items::new(alloc);
        situations.push(situation)?;
        Ok(Skeleton { situations })
    }

    // Where the inputs are 0.
    fn situation(self, alloc: Global, state: u64, next: u64) -> Result<Situation, AllocError> {
        let position = self.position(alloc, state)?;
        let successor = state_of(alloc, self.d, next)?;
        Ok(Situation {
            position,
            successor,
        })
    }

    fn position(self, alloc: Global, state: u64) -> Result<Position, AllocError> {
        let latches = state_of(alloc, self.d, state)?;
        let inputs = zeros(alloc, self.d.inputs)?;
        Ok(Position { latches, inputs })
    }
}

fn zeros(alloc: Global, count: u64) -> Result<Items<bool>, AllocError> {
    let mut values = Items::new(alloc);
    for _place in 0..count {
        values.push(false)?;
    }
    Ok(values)
}
