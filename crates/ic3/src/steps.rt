//! The solver of one search: which steps of the arena lead from a frame into a cube. The main type is `Steps`.
ghost use Rattle.std.specs.Prelude.{◌≡◌, length, IfOk, IfErr, IfSome, OnOk, OnErr};
ghost use Rattle.std.specs.List.{All};
ghost use Rattle.cnf_unroll.specs.Laws.{AreOver};
ghost use Rattle.edge.specs.Ends.{CountsConflicts, IsEnd};
ghost use Rattle.entry.specs.CheckedEntries.{viewed};
ghost use Rattle.entry.specs.Laws.{IsGoodList};
ghost use Rattle.fair_semantics.specs.Validity.{AreValid};
ghost use Rattle.ic3_semantics.specs.Searching.{IsStart};
ghost use Rattle.ic3_semantics.specs.Stepping.{IsOver, IsFound, IsGoalFound, no_lemmas, with_lemma};

use crate::cone::{Cone, meet, meet_nexts};
use crate::renewing::{is_old, renewed};
use crate::stepping_clauses::add_all;
use crate::stepping_lemmas::hold_lemma;
use crate::stepping_questions::{Questions, goal_at, predecessor};
use crate::stepping_start::{base, questions_of};
use crate::trying::{StepQuestion, try_goal, try_predecessor};
use circuit::{Circuit, Position};
use cnf::{Clause, Cube, Db};
use edge::{Meter, SolveEnd};
use entry::Checked;
use ic3_loops::StepSolver;
use ic3_questions::is_read;
use ic3_semantics::{Found, Lemma, Start};
use std::alloc::{AllocError, Global};
use std::marker::Model;
use std::mem;
use std::sync::Arc;

/// The solver of the search from one start. Contracts see its question, the cubes that a goal avoids, and its lemmas in
/// the order in which they came.
#[derive(Drop)]
pub struct Steps<'a> {
    c: &'a Circuit,
    view: &'a [Arc<Checked>],
    start: &'a Start,
    avoid: &'a [Cube],
    lemmas: Vec<Lemma>,
    questions: Questions,
    // All clauses of the block under the entries, of which the solver has those of the cone.
    base: Db,
    cone: Cone,
    alloc: Global,
}

impl<'a> Model for Steps<'a> {
    ghost use Rattle.entry.specs.CheckedEntries.{viewed};
    ghost use Rattle.ic3_semantics.specs.Stepping.{Stepping};

    ghost Value = { Stepping };

    ghost view = { λ s. record {
      question = record { circuit = s.c.now; view = viewed s.view.now; start = s.start.now };
      avoid = s.avoid.now;
      lemmas = s.lemmas.items;
    } };

    ghost use Rattle.ic3.specs.SteppingInside.{IsHeldWith};

    ghost invariant = { λ s. IsHeldWith (record {
      question = record { circuit = s.c.now; view = viewed s.view.now; start = s.start.now };
      avoid = s.avoid.now;
      lemmas = s.lemmas.items;
    }) s.base.clauses s.questions };
}

impl<'a> Steps<'a> {
    /// A solver without lemmas. The error is want of memory.
    pub fn new(
        alloc: Global,
        c: &'a Circuit,
        view: &'a [Arc<Checked>],
        start: &'a Start,
        avoid: &'a [Cube],
    ) -> Result<Steps<'a>, AllocError>
        requires view { IsGoodList c.now (viewed view.now) }
        requires start { IsStart c.now start.now }
        requires avoid { AreOver (length c.now.latches) avoid.now }
        ensures { IfOk result (λ s. s ≡ no_lemmas (record {
          circuit = c.now;
          view = viewed view.now;
          start = start.now;
        }) avoid.now) }
    {
        let begun = base(alloc, c, view, start)?;
        let mut cone = Cone::new(alloc, c)?;
        let questions = questions_of(
            alloc,
            c,
            view,
            start,
            avoid,
            &begun.clauses,
            begun.free,
            &mut cone,
        )?;
        Ok(Steps {
            c,
            view,
            start,
            avoid,
            lemmas: Vec::new(alloc),
            questions,
            base: begun.clauses,
            cone,
            alloc,
        })
    }

    /// How many latches the circuit has. Takes no memory.
    pub fn latches(&self) -> usize
        ensures { result ≡ length self.now.question.circuit.latches }
    {
        self.c.latches().len()
    }

    /// The circuit. Takes no memory.
    pub(crate) fn circuit(&self) -> &Circuit
        ensures circuit { result.now ≡ self.now.question.circuit }
        ensures valid { AreValid self.now.question.circuit self.now.question.view }
    {
        self.c
    }

    /// How many questions its solver was asked, or 2^64 - 1 where there were more. Takes no memory.
    pub(crate) fn solver_questions(&self) -> u64 {
        self.questions.count
    }

    /// The entries that are known. Takes no memory.
    pub(crate) fn view(&self) -> &[Arc<Checked>]
        ensures view { viewed result.now ≡ self.now.question.view }
        ensures over { All (λ e. AreOver (length self.now.question.circuit.latches) e.clauses) self.now.question.view }
    {
        self.view
    }

    /// Where the search starts. Takes no memory.
    pub(crate) fn start(&self) -> &Start
        ensures { result.now ≡ self.now.question.start }
    {
        self.start
    }

    /// The cubes that a goal avoids. Takes no memory.
    pub(crate) fn avoid(&self) -> &[Cube]
        ensures avoid { result.now ≡ self.now.avoid }
        ensures over { AreOver (length self.now.question.circuit.latches) self.now.avoid }
    {
        self.avoid
    }

    /// Puts a lemma over the latches behind the others. The error is want of memory, and changes nothing.
    pub fn hold(&mut self, level: u64, clause: &Clause) -> Result<(), AllocError>
        requires { IsOver (length self.old.question.circuit.latches) clause.now }
        ensures ok { OnOk result (self.new ≡ with_lemma self.old level clause.now) }
        ensures err { OnErr result (self.new ≡ self.old) }
    {
        hold_lemma(
            self.alloc,
            &mut self.lemmas,
            &mut self.questions,
            level,
            clause,
        )
    }

    // Makes the solver anew where it is old. The error is want of memory, and leaves the solver as it was.
    fn renew_where_old(&mut self) -> Result<(), AllocError>
        ensures { self.new ≡ self.old }
    {
        if is_old(&self.questions, &self.cone) {
            self.renew()
        } else {
            Ok(())
        }
    }

    // Makes the solver anew, with all lemmas. The error is want of memory, and leaves the solver as it was.
    fn renew(&mut self) -> Result<(), AllocError>
        ensures { self.new ≡ self.old }
    {
        let mut cone = Cone::new(self.alloc, self.c)?;
        match renewed(
            self.alloc,
            self.c,
            self.view,
            self.start,
            self.avoid,
            &self.lemmas,
            &self.base,
            &self.questions,
            &mut cone,
        ) {
            Ok(made) => {
                drop(mem::replace(&mut self.questions, made));
                drop(mem::replace(&mut self.cone, cone));
                Ok(())
            }
            Err(refused) => {
                drop(cone);
                Err(refused)
            }
        }
    }

    /// A step of the arena into the cube, from a state outside it that meets the lemmas of this level and of those
    /// above it; or, exactly where there is none, a part of the cube that no such step leads into. `Spent` comes where
    /// the meter's count of conflicts is at its limit.
    pub fn predecessor(
        &mut self,
        alloc: Global,
        level: u64,
        cube: &Cube,
        meter: &mut Meter,
    ) -> Result<Found, SolveEnd>
        requires { IsOver (length self.old.question.circuit.latches) cube.now }
        ensures found { IfOk result (IsFound self.old level cube.now) }
        ensures same { self.new ≡ self.old }
        ensures end { IfErr result (IsEnd meter.new) }
        ensures counted { CountsConflicts meter.old meter.new }
    {
        let question = StepQuestion {
            level,
            cube,
            brings_clause: true,
        };
        self.find_step(alloc, question, meter)
    }

    // What the clauses of the cone tell, or else all clauses.
    fn find_step(
        &mut self,
        alloc: Global,
        question: StepQuestion<'_>,
        meter: &mut Meter,
    ) -> Result<Found, SolveEnd>
        requires { IsOver (length self.old.question.circuit.latches) question.cube.now }
        ensures found { IfOk result (IsFound self.old question.entry.level question.entry.cube.now) }
        ensures same { self.new ≡ self.old }
        ensures end { IfErr result (IsEnd meter.new) }
        ensures counted { CountsConflicts meter.old meter.new }
    {
        self.renew_where_old()?;
        match self.try_predecessor(alloc, question, meter)? {
            Some(found) => Ok(found),
            None => self.predecessor_in_all(alloc, question.level, question.cube, meter),
        }
    }

    // What the clauses of the cone tell, where it stands up to a trial.
    fn try_predecessor(
        &mut self,
        alloc: Global,
        question: StepQuestion<'_>,
        meter: &mut Meter,
    ) -> Result<Option<Found>, SolveEnd>
        requires { IsOver (length self.old.question.circuit.latches) question.cube.now }
        ensures found { IfOk result (λ found. IfSome found (IsFound self.old question.entry.level question.entry.cube.now)) }
        ensures same { self.new ≡ self.old }
        ensures end { IfErr result (IsEnd meter.new) }
        ensures counted { CountsConflicts meter.old meter.new }
    {
        meet_nexts(
            self.c,
            &self.base,
            &mut self.cone,
            &mut self.questions.solver,
            question.cube.as_slice(),
        )?;
        try_predecessor(
            alloc,
            self.c,
            &mut self.questions,
            &self.base,
            question,
            meter,
        )
    }

    // What all clauses tell.
    fn predecessor_in_all(
        &mut self,
        alloc: Global,
        level: u64,
        cube: &Cube,
        meter: &mut Meter,
    ) -> Result<Found, SolveEnd>
        requires { IsOver (length self.old.question.circuit.latches) cube.now }
        ensures found { IfOk result (IsFound self.old level cube.now) }
        ensures same { self.new ≡ self.old }
        ensures end { IfErr result (IsEnd meter.new) }
        ensures counted { CountsConflicts meter.old meter.new }
    {
        add_all(&mut self.questions.solver, &self.base)?;
        predecessor(alloc, self.c, &mut self.questions, level, cube, meter)
    }

    /// A position at which the AIGER literal is met as goal, from a state that meets the lemmas of this level and of
    /// those above it; `None` exactly where there is none. `Spent` comes where the meter's count of conflicts is at its
    /// limit.
    pub fn meets_goal(
        &mut self,
        alloc: Global,
        level: u64,
        literal: u64,
        meter: &mut Meter,
    ) -> Result<Option<Position>, SolveEnd>
        ensures found { IfOk result (IsGoalFound self.old level literal) }
        ensures same { self.new ≡ self.old }
        ensures end { IfErr result (IsEnd meter.new) }
        ensures counted { CountsConflicts meter.old meter.new }
    {
        self.renew_where_old()?;
        match self.try_goal(alloc, level, literal, meter)? {
            Some(found) => Ok(found),
            None => self.goal_in_all(alloc, level, literal, meter),
        }
    }

    // What the clauses of the cone tell, where they have the literal's variable and it stands up to a trial.
    fn try_goal(
        &mut self,
        alloc: Global,
        level: u64,
        literal: u64,
        meter: &mut Meter,
    ) -> Result<Option<Option<Position>>, SolveEnd>
        ensures found { IfOk result (λ found. IfSome found (IsGoalFound self.old level literal)) }
        ensures same { self.new ≡ self.old }
        ensures end { IfErr result (IsEnd meter.new) }
        ensures counted { CountsConflicts meter.old meter.new }
    {
        if !is_read(self.c, literal / 2) {
            return Ok(None);
        }
        meet(
            self.c,
            &self.base,
            &mut self.cone,
            &mut self.questions.solver,
            &[literal],
        )?;
        try_goal(
            alloc,
            self.c,
            &mut self.questions,
            &self.base,
            level,
            self.avoid,
            literal,
            meter,
        )
    }

    // What all clauses tell.
    fn goal_in_all(
        &mut self,
        alloc: Global,
        level: u64,
        literal: u64,
        meter: &mut Meter,
    ) -> Result<Option<Position>, SolveEnd>
        ensures found { IfOk result (IsGoalFound self.old level literal) }
        ensures same { self.new ≡ self.old }
        ensures end { IfErr result (IsEnd meter.new) }
        ensures counted { CountsConflicts meter.old meter.new }
    {
        add_all(&mut self.questions.solver, &self.base)?;
        goal_at(alloc, self.c, &mut self.questions, level, literal, meter)
    }
}

impl<'a> StepSolver for Steps<'a> {
    ghost seen = { λ s. s };

    fn latches(&self) -> usize {
        Steps::latches(self)
    }

    fn circuit(&self) -> &Circuit {
        Steps::circuit(self)
    }

    fn view(&self) -> &[Arc<Checked>] {
        Steps::view(self)
    }

    fn start(&self) -> &Start {
        Steps::start(self)
    }

    fn avoid(&self) -> &[Cube] {
        Steps::avoid(self)
    }

    fn hold(&mut self, level: u64, clause: &Clause) -> Result<(), AllocError> {
        Steps::hold(self, level, clause)
    }

    fn predecessor(
        &mut self,
        alloc: Global,
        level: u64,
        cube: &Cube,
        meter: &mut Meter,
    ) -> Result<Found, SolveEnd> {
        Steps::predecessor(self, alloc, level, cube, meter)
    }

    fn predecessor_of_excluded(
        &mut self,
        alloc: Global,
        level: u64,
        cube: &Cube,
        meter: &mut Meter,
    ) -> Result<Found, SolveEnd> {
        let question = StepQuestion {
            level,
            cube,
            brings_clause: false,
        };
        self.find_step(alloc, question, meter)
    }

    fn meets_goal(
        &mut self,
        alloc: Global,
        level: u64,
        literal: u64,
        meter: &mut Meter,
    ) -> Result<Option<Position>, SolveEnd> {
        Steps::meets_goal(self, alloc, level, literal, meter)
    }
}
