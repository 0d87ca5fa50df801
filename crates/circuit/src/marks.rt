//! A mark for each variable of a model: how often it is defined, and whether it is used though it is defined nowhere.
//! `mark_definitions` goes first, then `mark_uses`; `first_marked` finds the least variable with a mark.

ghost use Rattle.std.specs.Prelude.{◌≡◌, ◌≢◌, ◌<◌, length, fold, All, IfSome, IfNone};
ghost use Rattle.aig_semantics.specs.Literals.{variable_of};
ghost use Rattle.aig_semantics.specs.Circuits.{defined};
ghost use Rattle.circuit.specs.Sections.{circuit_of, used_by};
ghost use Rattle.circuit.specs.Fitting.{DefinesAll, UsesAll};
ghost use Rattle.circuit.specs.Marks.{defined_again, when_used, with_definition, with_use, IsFirstMarked};

use crate::parts::Parts;
use aig_semantics::{Gate, Latch};
use items::Items;

/// What is known of a variable.
#[derive(Clone, Copy, PartialEq)]
pub enum Mark {
    /// No definition was seen.
    Nowhere,
    /// One definition was seen.
    Once,
    /// Two definitions or more were seen.
    Twice,
    /// No definition was seen, and it is used.
    Missing,
}

impl Mark {
    /// The mark after one more definition.
    fn again(self) -> Mark
        ensures { result ≡ defined_again self }
    {
        match self {
            Mark::Nowhere => Mark::Once,
            _ => Mark::Twice,
        }
    }

    /// The mark after a use.
    fn used(self) -> Mark
        ensures { result ≡ when_used self }
    {
        match self {
            Mark::Nowhere => Mark::Missing,
            mark => mark,
        }
    }
}

#[tactic(auto, unfolding(crate::specs::Marks::with_definition))]
fn define(marks: &mut [Mark], variable: u64)
    requires { variable < length marks.old }
    ensures { marks.new ≡ with_definition marks.old variable }
{
    let place = variable as usize;
    marks[place] = marks[place].again();
}

fn define_inputs(variables: &[u64], marks: &mut [Mark])
    requires { All (λ v. v < length marks.old) variables.now }
    ensures { marks.new ≡ fold with_definition marks.old variables.now }
{
    for variable in variables {
        define(marks, *variable);
    }
}

fn define_latches(latches: &[Latch], marks: &mut [Mark])
    requires { All (λ latch. latch.var < length marks.old) latches.now }
    ensures { marks.new ≡ fold (λ m latch. with_definition m latch.var) marks.old latches.now }
{
    for latch in latches {
        define(marks, latch.var);
    }
}

fn define_gates(gates: &[Gate], marks: &mut [Mark])
    requires { All (λ gate. gate.var < length marks.old) gates.now }
    ensures { marks.new ≡ fold (λ m gate. with_definition m gate.var) marks.old gates.now }
{
    for gate in gates {
        define(marks, gate.var);
    }
}

#[tactic(auto, unfolding(crate::specs::Marks::with_use))]
fn use_literal(marks: &mut [Mark], literal: u64)
    requires { variable_of literal < length marks.old }
    ensures { marks.new ≡ with_use marks.old literal }
{
    let place = (literal / 2) as usize;
    marks[place] = marks[place].used();
}

fn use_literals(literals: &[u64], marks: &mut [Mark])
    requires { All (λ literal. variable_of literal < length marks.old) literals.now }
    ensures { marks.new ≡ fold with_use marks.old literals.now }
{
    for literal in literals {
        use_literal(marks, *literal);
    }
}

fn use_latches(latches: &[Latch], marks: &mut [Mark])
    requires { All (λ latch. variable_of latch.next < length marks.old) latches.now }
    ensures { marks.new ≡ fold (λ m latch. with_use m latch.next) marks.old latches.now }
{
    for latch in latches {
        use_literal(marks, latch.next);
    }
}

fn use_gates(gates: &[Gate], marks: &mut [Mark])
    requires { All (λ gate. (variable_of gate.rhs0 < length marks.old) × (variable_of gate.rhs1 < length marks.old)) gates.now }
    ensures { marks.new ≡ fold (λ m gate. with_use (with_use m gate.rhs0) gate.rhs1) marks.old gates.now }
{
    for gate in gates {
        use_literal(marks, gate.rhs0);
        use_literal(marks, gate.rhs1);
    }
}

fn use_properties(justice: &[Items<u64>], marks: &mut [Mark])
    requires { All (λ property. All (λ literal. variable_of literal < length marks.old) property) justice.now }
    ensures { marks.new ≡ fold (λ m property. fold with_use m property) marks.old justice.now }
{
    for property in justice {
        use_literals(property.as_slice(), marks);
    }
}

/// Goes through all definitions of a model.
pub(crate) fn mark_definitions(parts: &Parts, marks: &mut [Mark])
    requires { DefinesAll (λ v. v < length marks.old) parts.now }
    ensures { marks.new ≡ fold with_definition marks.old (defined (circuit_of parts.now)) }
{
    define_inputs(parts.inputs.as_slice(), marks);
    define_latches(parts.latches.as_slice(), marks);
    define_gates(parts.gates.as_slice(), marks);
}

/// Goes through all uses of a model.
pub(crate) fn mark_uses(parts: &Parts, marks: &mut [Mark])
    requires { UsesAll (λ literal. variable_of literal < length marks.old) parts.now }
    ensures { marks.new ≡ fold with_use marks.old (used_by parts.now) }
{
    use_latches(parts.latches.as_slice(), marks);
    use_gates(parts.gates.as_slice(), marks);
    use_literals(parts.constraints.as_slice(), marks);
    use_properties(parts.justice.as_slice(), marks);
    use_literals(parts.fairness.as_slice(), marks);
    use_literals(parts.outputs.as_slice(), marks);
    use_literals(parts.bad.as_slice(), marks);
}

/// The least variable with this mark, if there is one.
pub(crate) fn first_marked(marks: &[Mark], mark: Mark) -> Option<u64>
    ensures some { IfSome result (IsFirstMarked marks.now mark) }
    ensures none { IfNone result (All (λ other. other ≢ mark) marks.now) }
{
    for (v, other) in marks.iter().enumerate() {
        if *other == mark {
            return Some(v as u64);
        }
    }
    None
}
