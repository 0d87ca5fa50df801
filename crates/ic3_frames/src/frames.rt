//! The frames, and one of them as a list of clauses. The main type is `Frames`.
ghost use Rattle.std.specs.Prelude.{◌≡◌, ℕ, ◌+◌, ◌≤◌, ◌<◌, ◌++◌, ◌∷◌, ◌&&◌, ◌↔◌, [], Bool, Some, length, slice_get, slice_index_or, option_copied, OnOk, OnErr, IsErr, IfErr, IfSome, IfNone};
ghost use Rattle.proof_semantics.specs.Clauses.{clause_value, clauses_value, values_of};
ghost use Rattle.edge.specs.Faults.{one_more};
ghost use Rattle.edge.specs.declared.metering.Counted.TheVariants.{Steps};
ghost use Rattle.ic3_frames.specs.Frames.{own_lemmas, frame_at, put_at, with_lemma, AllDiffer};
ghost use Rattle.ic3_frames.specs.Lent.{clauses_of};

use crate::activities::Activities;
use crate::levels::{add_level, allow, copy_at, count, count_at, first_empty, lemma_at, put};
use crate::signatures::WithSignature;
use cnf::{Clause, Lit};
use edge::{Held, Meter, Spent};
use indexmap::IndexSet;
use std::alloc::{AllocError, Global};
use std::marker::Model;

/// The frames. Contracts see for each level the lemmas that the next has not, in the order in which they came.
#[derive(Drop)]
pub struct Frames {
    levels: Vec<IndexSet<WithSignature>>,
    /// Room for the counts that a meter is shown.
    counts: Vec<u64>,
    activities: Activities,
}

impl Model for Frames {
    ghost use Rattle.std.specs.Prelude.{List};
    ghost use Rattle.proof_semantics.specs.declared.literals.Lit.{Lit};
    ghost use Rattle.ic3_frames.specs.Inside.{levels_of, IsKept};

    ghost Value = { List (List (List Lit)) };

    ghost view = { levels_of };

    ghost invariant = { IsKept };
}

impl Frames {
    /// No frames. Takes no memory.
    pub fn new(alloc: Global) -> Frames
        ensures { result ≡ [] }
    {
        Frames {
            levels: Vec::new(alloc),
            counts: Vec::new(alloc),
            activities: Activities::new(alloc),
        }
    }

    /// How many frames there are.
    pub fn len(&self) -> u64
        ensures { result ≡ length self.now }
    {
        self.levels.len() as u64
    }

    /// Opens a frame without lemmas above the others. The error is want of memory, and changes nothing.
    pub fn add_frame(&mut self) -> Result<(), AllocError>
        ensures ok { OnOk result (self.new ≡ self.old ++ [] ∷ []) }
        ensures err { OnErr result (self.new ≡ self.old) }
    {
        add_level(&mut self.levels, &mut self.counts)
    }

    /// Puts a lemma into the frame of a level and those below, unless that frame has it. Those lemmas of this level and of
    /// lower ones, from level 1 on, go of which the new one is a part: it implies them. The frames above stay. The error
    /// is want of memory, and changes nothing.
    pub fn add(&mut self, level: u64, lemma: Clause) -> Result<(), AllocError>
        requires { level < length self.old }
        ensures ok { OnOk result (self.new ≡ with_lemma self.old level lemma) }
        ensures within { OnOk result ((v : ℕ → Bool) (k : ℕ) → k ≤ level
            → clauses_value v (frame_at self.new k) ≡ (clauses_value v (frame_at self.old k) && clause_value v lemma)) }
        ensures above { OnOk result ((k : ℕ) → level < k → frame_at self.new k ≡ frame_at self.old k) }
        ensures err { OnErr result (self.new ≡ self.old) }
    {
        self.activities.note(self.levels.as_slice(), &lemma)?;
        put(&mut self.levels, level as usize, lemma)
    }

    /// Puts the lemma at a place of a level into the next frame too, as `add` does: it leaves its level. The error is want
    /// of memory, and changes nothing.
    pub fn push_on(&mut self, level: u64, place: u64) -> Result<(), AllocError>
        requires next { level + 1 < length self.old }
        requires place { place < length (own_lemmas self.old level) }
        ensures ok { OnOk result (self.new
            ≡ with_lemma self.old (level + 1) (slice_index_or (own_lemmas self.old level) place [])) }
        ensures moved { OnOk result (self.new
            ≡ put_at self.old (level + 1) (slice_index_or (own_lemmas self.old level) place [])) }
        ensures err { OnErr result (self.new ≡ self.old) }
    {
        let lemma = copy_at(&self.levels, level as usize, place as usize)?;
        put(&mut self.levels, level as usize + 1, lemma)
    }

    /// How many lemmas a level has that the next has not. Takes no memory.
    pub fn count(&self, level: u64) -> u64
        ensures { result ≡ length (own_lemmas self.now level) }
    {
        count_at(&self.levels, level as usize)
    }

    /// The lemma at a place of those that a level has and the next has not. Takes no memory.
    pub fn lemma(&self, level: u64, place: u64) -> Option<&Clause>
        ensures { option_copied result ≡ slice_get (own_lemmas self.now level) place }
    {
        lemma_at(&self.levels, level as usize, place as usize)
    }

    /// In how many lemmas above level 0 the literal stands, or stood when a sixteenth of them had not come; no contract
    /// speaks of it. Takes no memory.
    pub fn activity(&self, literal: Lit) -> u64 {
        self.activities.of(literal)
    }

    /// The frame of a level: its lemmas and those of all levels above. Takes no memory.
    pub fn at(&self, level: u64) -> FrameAt<'_>
        ensures { clauses_of result ≡ frame_at self.now level }
    {
        FrameAt {
            frames: self,
            level,
        }
    }

    /// A level whose frame has the same lemmas as the next one: `None` exactly where each frame that has a next has a
    /// lemma that the next has not. Takes no memory.
    pub fn equal_pair(&self) -> Option<u64>
        ensures found { IfSome result (λ k. k + 1 < length self.now) }
        ensures equal { IfSome result (λ k. frame_at self.now k ≡ frame_at self.now (k + 1)) }
        ensures none { IfNone result (AllDiffer self.now) }
    {
        first_empty(&self.levels)
    }

    /// Counts the step of a frame that is to be opened above these. The error comes exactly where the count of steps is
    /// at its limit, and counts nothing. Takes no memory.
    pub fn count_frame(&mut self, meter: &mut Meter) -> Result<(), Spent>
        requires two { 2 ≤ length self.old }
        requires differ { AllDiffer self.old }
        ensures spent { IsErr result ↔ (meter.old.step_limit ≡ Some meter.old.steps) }
        ensures limit { IfErr result (λ spent. spent ≡ record { kind = Steps; limit = meter.old.steps }) }
        ensures counted { OnOk result (meter.new ≡ record meter.old { steps = one_more meter.old.steps }) }
        ensures kept { OnErr result (meter.new ≡ meter.old) }
        ensures same { self.new ≡ self.old }
    {
        count(&self.levels, &mut self.counts, meter)
    }
}

/// The frame of a level, as a list of clauses.
#[derive(Clone, Copy)]
pub struct FrameAt<'a> {
    frames: &'a Frames,
    level: u64,
}

impl Held for FrameAt<'_> {
    ghost clauses = { clauses_of };

    fn allows(&self, state: &[bool]) -> bool {
        self.frames.allow(self.level as usize, state)
    }
}

impl Frames {
    // Whether the frame of a level allows the state.
    fn allow(&self, level: usize, state: &[bool]) -> bool
        ensures { result ≡ clauses_value (values_of state.now) (frame_at self.now level) }
    {
        if level >= self.levels.len() {
            return true;
        }
        allow(&self.levels[level..], state)
    }
}
