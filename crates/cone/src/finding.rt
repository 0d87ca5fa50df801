//! The cone of a property, found by one search: from the judged literals, through what gates and latches read. The main call
//! is `cone_of`. Each variable is marked once, and waits on a stack until what it reads is marked; so the work is in
//! proportion to the circuit.
ghost use Rattle.std.specs.Prelude.{◌≡◌, ◌<◌, ◌+◌, ◌-◌, false, [], Some, length, replicate, slice_get, slice_index_or, take, OnOk, IfOk, IsTrue, All};
ghost use Rattle.aig_semantics.specs.Literals.{variable_in, variable_of};
ghost use Rattle.cone.specs.Cones.{AreMarksOf};
ghost use Rattle.cone.specs.Finding.{IsTable, IsSearch, IsPut, KeepsMarks, IsAsked, reads_at, steps_left};

use crate::tables::{Reads, table_of};
use circuit::Circuit;
use std::alloc::{AllocError, Global};
use std::marker::Model;

/// The cone of a property. Contracts see the marks of the variables from 0 to the greatest.
#[derive(Drop)]
pub struct Cone {
    marks: Vec<bool>,
}

impl Model for Cone {
    ghost use Rattle.std.specs.Prelude.{List, Bool};

    ghost Value = { List Bool };

    ghost view = { λ s. s.marks.items };
}

impl Cone {
    /// Whether the variable is in the cone.
    pub fn has(&self, variable: u64) -> bool
        ensures { result ≡ variable_in self.now variable }
    {
        self.marks
            .as_slice()
            .get(variable as usize)
            .copied()
            .unwrap_or(false)
    }

    /// For each variable from 0 to the greatest whether it is in the cone.
    pub fn marks(&self) -> &[bool]
        ensures { result.now ≡ self.now }
    {
        self.marks.as_slice()
    }
}

/// A search: which variables are marked, and which of these wait.
#[derive(Drop)]
struct Search {
    marks: Vec<bool>,
    stack: Vec<u64>,
}

impl Search {
    // Marks the variable of a literal, which waits if it was not marked.
    fn put(&mut self, literal: u64) -> Result<(), AllocError>
        requires { variable_of literal < length self.old.marks.items }
        ensures { OnOk result
            (IsPut (variable_of literal) self.old.marks.items self.old.stack.items self.new.marks.items self.new.stack.items) }
    {
        let place = (literal / 2) as usize;
        if self.marks[place] {
            return Ok(());
        }
        self.stack.push(literal / 2)?;
        self.marks[place] = true;
        Ok(())
    }

    // Marks the variables of literals that each closed set has.
    fn put_all(
        &mut self,
        c: &Circuit,
        j: u32,
        table: &[Option<Reads>],
        literals: &[u64],
    ) -> Result<(), AllocError>
        requires search { IsSearch c.now j table.now self.old.marks.items self.old.stack.items [] }
        requires asked { All (λ literal. IsAsked c.now j (variable_of literal)) literals.now }
        ensures search { OnOk result (IsSearch c.now j table.now self.new.marks.items self.new.stack.items []) }
        ensures keeps { OnOk result (KeepsMarks self.old.marks.items self.new.marks.items) }
        ensures marked { OnOk result (All (λ literal. IsTrue (variable_in self.new.marks.items (variable_of literal))) literals.now) }
    {
        let _limits = c.max();
        let _ = (j, table.len());
        for literal in literals {
            self.put(*literal)?;
        }
        Ok(())
    }

    // Takes the variable that came last from the stack, and marks what it reads.
    fn follow(
        &mut self,
        c: &Circuit,
        j: u32,
        table: &[Option<Reads>],
        v: u64,
    ) -> Result<(), AllocError>
        requires table { IsTable c.now j table.now }
        requires search { IsSearch c.now j table.now self.old.marks.items self.old.stack.items [] }
        requires last { slice_get self.old.stack.items (length self.old.stack.items - 1) ≡ Some v }
        ensures search { OnOk result (IsSearch c.now j table.now self.new.marks.items self.new.stack.items []) }
        ensures keeps { OnOk result (KeepsMarks self.old.marks.items self.new.marks.items) }
        ensures nearer { OnOk result
            (steps_left self.new.marks.items self.new.stack.items < steps_left self.old.marks.items self.old.stack.items) }
    {
        let _limits = c.max();
        let _ = j;
        drop_last(&mut self.stack);
        if let Some(reads) = reads_at(table, v) {
            self.put(reads.first)?;
            self.put(reads.second)?;
        }
        Ok(())
    }

    // Goes on until none waits.
    fn finish(&mut self, c: &Circuit, j: u32, table: &[Option<Reads>]) -> Result<(), AllocError>
        requires table { IsTable c.now j table.now }
        requires search { IsSearch c.now j table.now self.old.marks.items self.old.stack.items [] }
        ensures search { OnOk result (IsSearch c.now j table.now self.new.marks.items [] []) }
        ensures keeps { OnOk result (KeepsMarks self.old.marks.items self.new.marks.items) }
    {
        while let Some(v) = self.stack.last().copied() {
            self.follow(c, j, table, v)?;
        }
        Ok(())
    }

    // Marks the judged literals' variables, and then all that they depend on.
    fn run(&mut self, c: &Circuit, j: u32, table: &[Option<Reads>]) -> Result<(), AllocError>
        requires table { IsTable c.now j table.now }
        requires search { IsSearch c.now j table.now self.old.marks.items self.old.stack.items [] }
        ensures { OnOk result (AreMarksOf c.now j self.new.marks.items) }
    {
        self.put_all(c, j, table, property_of(c, j))?;
        self.put_all(c, j, table, c.fairness())?;
        self.put_all(c, j, table, c.constraints())?;
        self.finish(c, j, table)
    }
}

fn drop_last(stack: &mut Vec<u64>)
    ensures { stack.new.items ≡ take (length stack.old.items - 1) stack.old.items }
{
    let _ = stack.pop();
}

// The literals of property `j`, none where there is no such property.
fn property_of(c: &Circuit, j: u32) -> &[u64]
    ensures { result.now ≡ slice_index_or c.now.justice j [] }
{
    if (j as usize) < c.property_count() {
        return c.property(j as usize);
    }
    &[]
}

fn reads_at(table: &[Option<Reads>], v: u64) -> Option<Reads>
    ensures { result ≡ reads_at table.now v }
{
    table.get(v as usize).copied().unwrap_or(None)
}

fn nothing_marked(alloc: Global, c: &Circuit) -> Result<Search, AllocError>
    ensures marks { IfOk result (λ search. search.marks.items ≡ replicate (c.now.max + 1) false) }
    ensures stack { IfOk result (λ search. search.stack.items ≡ []) }
{
    Ok(Search {
        marks: vec![in alloc; false; c.max() as usize + 1]?,
        stack: Vec::new(alloc),
    })
}

/// The cone of property `j`, counted from 0; of a number without a property that of fairness and constraints. The error is
/// want of memory.
pub fn cone_of(alloc: Global, c: &Circuit, j: u32) -> Result<Cone, AllocError>
    ensures { IfOk result (AreMarksOf c.now j) }
{
    let table = table_of(alloc, c)?;
    let mut search = nothing_marked(alloc, c)?;
    search.run(c, j, &table)?;
    let Search { marks, stack } = search;
    drop(stack);
    Ok(Cone { marks })
}
