//! Marks of the literals of a trail whose negations a clause has. The main type is `Marks`.
ghost use Rattle.std.specs.Prelude.{◌≡◌, ◌≤◌, ◌<◌, ◌+◌, ◌||◌, ℕ, IfOk, OnOk, length, replicate, slice_set, take, false, true};
ghost use Rattle.std.specs.List.{list_any};
ghost use Rattle.cdcl_trail.specs.Places.{told};
ghost use Rattle.cdcl_learn.specs.Walking.{Marked, is_at, is_marked, marked, count_from, counts_at, with_last};

use cdcl_trail::Places;
use cnf::{Clause, Lit};
use std::alloc::{AllocError, Global};
use std::marker::Model;

/// How many places are looked at together for marks.
const STRIDE: usize = 64;

/// Which places of a trail are marked, and how many of them from a place on.
#[derive(Drop)]
pub(crate) struct Marks {
    marks: Vec<bool>,
    start: usize,
    count: usize,
}

impl Model for Marks {
    ghost use Rattle.std.specs.Prelude.{◌≡◌};
    ghost use Rattle.cdcl_learn.specs.Walking.{Marked, count_from};

    ghost Value = { Marked };

    ghost view = { λ m. record { marks = m.marks.items; start = m.start } };

    ghost invariant = { λ m. m.count ≡ count_from m.start m.marks.items };
}

impl Marks {
    /// Marks of so many places, none of which is marked; those from `start` on will be counted. The
    /// error is want of memory.
    pub(crate) fn new(alloc: Global, length: usize, start: usize) -> Result<Marks, AllocError>
        ensures marks { IfOk result (λ marks. marks.marks ≡ replicate length false) }
        ensures start { IfOk result (λ marks. marks.start ≡ start) }
    {
        let marks = no_marks(alloc, length)?;
        Ok(Marks {
            marks,
            start,
            count: 0,
        })
    }

    /// How many places from the start on are marked. Takes no memory.
    pub(crate) fn count(&self) -> usize
        ensures { result ≡ count_from self.now.start self.now.marks }
    {
        self.count
    }

    /// Whether a place is marked. Takes no memory.
    pub(crate) fn has(&self, place: usize) -> bool
        ensures { result ≡ is_marked self.now.marks place }
    {
        is_marked(self.marks.as_slice(), place)
    }

    /// Marks the places of the variables of a clause.
    pub(crate) fn mark_all(&mut self, places: &Places<'_>, clause: &[Lit])
        ensures start { self.new.start ≡ self.old.start }
        ensures long { length self.new.marks ≡ length self.old.marks }
        ensures marks { (q : ℕ) → q < length self.old.marks → is_marked self.new.marks q ≡ (is_marked self.old.marks q || list_any (λ b. is_at (told places.now b.var) q) clause.now) }
    {
        for literal in clause {
            self.mark(places.get(literal.var));
        }
    }

    // Marks a place.
    fn mark(&mut self, place: Option<usize>)
        ensures start { self.new.start ≡ self.old.start }
        ensures long { length self.new.marks ≡ length self.old.marks }
        ensures marks { (q : ℕ) → q < length self.old.marks → is_marked self.new.marks q ≡ (is_marked self.old.marks q || is_at place q) }
    {
        self.count += set(&mut self.marks, self.start, place);
    }

    /// Takes the mark of a place away.
    pub(crate) fn unmark(&mut self, place: usize)
        requires { is_marked self.old.marks place ≡ true }
        ensures start { self.new.start ≡ self.old.start }
        ensures marks { self.new.marks ≡ slice_set self.old.marks place false }
    {
        self.count -= clear(&mut self.marks, self.start, place);
    }

    /// The negations of the marked literals.
    pub(crate) fn clause_of(&self, alloc: Global, literals: &[Lit]) -> Result<Clause, AllocError>
        requires { length self.now.marks ≡ length literals.now }
        ensures { IfOk result (λ clause. clause ≡ marked self.now.marks literals.now) }
    {
        marked_clause(alloc, self.marks.as_slice(), literals)
    }

    /// The same, where one more literal may stand behind the others.
    pub(crate) fn clause_with(
        &self,
        alloc: Global,
        literals: &[Lit],
        last: Option<Lit>,
    ) -> Result<Clause, AllocError>
        requires { length self.now.marks ≡ length (with_last literals.now last) }
        ensures { IfOk result (λ clause. clause ≡ marked self.now.marks (with_last literals.now last)) }
    {
        let Some(last) = last else {
            return marked_clause(alloc, self.marks.as_slice(), literals);
        };
        let count = literals.len();
        let mut clause = marked_clause(alloc, &self.marks.as_slice()[..count], literals)?;
        if is_marked(self.marks.as_slice(), count) {
            clause.push(last.negation())?;
        }
        Ok(clause)
    }
}

// Marks of so many places, none of which is marked.
fn no_marks(alloc: Global, count: usize) -> Result<Vec<bool>, AllocError>
    ensures { IfOk result (λ marks. marks.items ≡ replicate count false) }
{
    vec![in alloc; false; count]
}

// Marks a place, and tells how many more are marked from the start on.
#[tactic(auto, using(crate::proofs::MarkLaws::mark_none, crate::proofs::MarkLaws::mark_past, crate::proofs::MarkLaws::mark_again, crate::proofs::MarkLaws::mark_set, crate::proofs::MarkLaws::count_set, crate::proofs::MarkLaws::set_length))]
fn set(marks: &mut Vec<bool>, start: usize, place: Option<usize>) -> usize
    ensures count { count_from start marks.new.items ≡ count_from start marks.old.items + result }
    ensures long { length marks.new.items ≡ length marks.old.items }
    ensures marks { (q : ℕ) → q < length marks.old.items → is_marked marks.new.items q ≡ (is_marked marks.old.items q || is_at place q) }
{
    let Some(place) = place else {
        return 0;
    };
    if place >= marks.len() {
        return 0;
    }
    if is_marked(marks.as_slice(), place) {
        return 0;
    }
    marks[place] = true;
    counts_at(start, place)
}

// Takes a mark away, and tells how many fewer are marked from the start on.
#[tactic(auto, using(crate::proofs::MarkLaws::marked_within, crate::proofs::MarkLaws::count_unset))]
fn clear(marks: &mut Vec<bool>, start: usize, place: usize) -> usize
    requires { is_marked marks.old.items place ≡ true }
    ensures count { count_from start marks.new.items + result ≡ count_from start marks.old.items }
    ensures marks { marks.new.items ≡ slice_set marks.old.items place false }
{
    marks[place] = false;
    counts_at(start, place)
}

// 1 where the place is counted, and 0 where it stands before those that are.
fn counts_at(start: usize, place: usize) -> usize
    ensures { result ≡ counts_at start place }
{
    if start <= place { 1 } else { 0 }
}

// Whether a place is marked.
fn is_marked(marks: &[bool], place: usize) -> bool
    ensures { result ≡ is_marked marks.now place }
{
    marks.get(place).copied().unwrap_or(false)
}

// The negations of the marked literals. Places without a mark are passed a stride at a time.
fn marked_clause(alloc: Global, marks: &[bool], literals: &[Lit]) -> Result<Clause, AllocError>
    requires { length marks.now ≡ length literals.now }
    ensures { IfOk result (λ clause. clause ≡ marked marks.now literals.now) }
{
    let mut clause = Clause::new(alloc);
    let mut place = 0;
    'strides: while place < marks.len() {
        let end = stride_end(place, marks.len());
        push_marked(&mut clause, marks, literals, place, end)?;
        place = end;
    }
    Ok(clause)
}

// Where the stride from a place ends.
fn stride_end(place: usize, length: usize) -> usize
    requires { place < length }
    ensures after { place < result }
    ensures within { result ≤ length }
{
    if length - place > STRIDE {
        place + STRIDE
    } else {
        length
    }
}

// Puts the negations of the marked literals of a stride behind those before it.
fn push_marked(
    clause: &mut Clause,
    marks: &[bool],
    literals: &[Lit],
    start: usize,
    end: usize,
) -> Result<(), AllocError>
    requires long { length marks.now ≡ length literals.now }
    requires before { start ≤ end }
    requires within { end ≤ length marks.now }
    requires clause { clause.old ≡ marked (take start marks.now) (take start literals.now) }
    ensures { OnOk result (clause.new ≡ marked (take end marks.now) (take end literals.now)) }
{
    if !has_mark(&marks[start..end]) {
        return Ok(());
    }
    for place in start..end {
        if !is_marked(marks, place) {
            continue;
        }
        clause.push(literals[place].negation())?;
    }
    Ok(())
}

// Whether one of the places is marked. Looks at all, so that it looks at many at once.
fn has_mark(marks: &[bool]) -> bool
    ensures { result ≡ list_any (λ mark. mark) marks.now }
{
    let mut found = false;
    for mark in marks {
        found = found | *mark;
    }
    found
}
