//! Small circuits with gates: their check, values and lassos, with values worked out by hand.

use crate::models::{Model, circuit_of};
use circuit::{
    Circuit, Gate, Lasso, Latch, ModelEnd, ModelFault, Reset, eval_into, is_fair_lasso, is_initial,
    literal_value, next_into, one_valuation,
};
use items::Items;
use std::alloc::{AllocError, Global};
use std::process::Abort;
use std::test::Fail;

const COUNTER: &[Gate] = &[
    Gate {
        var: 5,
        rhs0: 7,
        rhs1: 9,
    },
    Gate {
        var: 4,
        rhs0: 3,
        rhs1: 5,
    },
    Gate {
        var: 3,
        rhs0: 2,
        rhs1: 4,
    },
];

// The counter 00, 10, 01, 11: variable 1 is the low bit, 2 the high one, 5 their exclusive or. The gates stand in the
// file with those first that read the others.
const COUNTING: Model = Model {
    max: 5,
    inputs: &[],
    latches: &[
        Latch {
            var: 1,
            next: 3,
            reset: Reset::Zero,
        },
        Latch {
            var: 2,
            next: 10,
            reset: Reset::Zero,
        },
    ],
    gates: COUNTER,
    constraints: &[],
    property: &[2, 4],
    fairness: &[],
};

/// Whether the circuit has five variables, and the counter's gates in their order.
fn has_lists(c: &Circuit) -> bool {
    c.max() == 5 && c.gates() == COUNTER
}

/// The values of all variables at a state; all true where a circuit has inputs, or other latches.
fn values_at(alloc: Global, c: &Circuit, state: &[bool]) -> Result<Vec<bool>, AllocError> {
    let mut values = vec![in alloc; true; c.max() as usize + 1]?;
    if state.len() == c.latches().len() && c.inputs().is_empty() {
        eval_into(c, state, &[], &mut values);
    }
    Ok(values)
}

fn next_of(alloc: Global, c: &Circuit, values: &[bool]) -> Result<Vec<bool>, AllocError> {
    let mut after = vec![in alloc; true; c.latches().len()]?;
    next_into(c, values, &mut after);
    Ok(after)
}

fn leads_to(
    alloc: Global,
    c: &Circuit,
    values: &[bool],
    next: &[bool],
) -> Result<bool, AllocError> {
    let after = next_of(alloc, c, values)?;
    Ok(after.as_slice() == next)
}

/// Whether the circuit has these values of all variables at a state, and this next state.
fn steps(alloc: Global, c: &Circuit, row: &Step) -> Result<bool, AllocError> {
    let (state, wanted, next) = *row;
    let values = values_at(alloc, c, state)?;
    Ok(values.as_slice() == wanted && leads_to(alloc, c, &values, next)?)
}

/// The value of a literal.
fn value_of(values: &[bool], literal: u64) -> bool {
    literal_value(values, literal)
}

fn push_positions(
    alloc: Global,
    count: u64,
    inputs: &mut Items<Items<bool>>,
) -> Result<(), AllocError> {
    for _ in 0..count {
        inputs.push(Items::new(alloc))?;
    }
    Ok(())
}

fn positions_of(alloc: Global, count: u64) -> Result<Items<Items<bool>>, AllocError> {
    let mut inputs = Items::new(alloc);
    push_positions(alloc, count, &mut inputs)?;
    Ok(inputs)
}

fn lasso_of(alloc: Global, positions: u64, from: u64) -> Result<Lasso, AllocError> {
    let inputs = positions_of(alloc, positions)?;
    Ok(Lasso {
        start: Items::from_slice(alloc, &[false, false])?,
        inputs,
        from,
    })
}

/// Whether so many positions without inputs, from the state 00 on, are a fair lasso of the first property that goes
/// back to `from`.
fn closes(alloc: Global, c: &Circuit, positions: u64, from: u64) -> Result<bool, AllocError> {
    let lasso = lasso_of(alloc, positions, from)?;
    is_fair_lasso(alloc, c, 0, &lasso)
}

/// Whether a run of the circuit may begin with this state.
fn begins(c: &Circuit, state: &[bool]) -> bool {
    is_initial(c, state)
}

/// The fault of an end; want of memory as `Header`.
fn fault_in(end: ModelEnd) -> ModelFault {
    match end {
        ModelEnd::Fault(fault) => fault,
        ModelEnd::Memory => ModelFault::Header(0),
    }
}

/// What the check finds wrong with a model.
fn fault_of(alloc: Global, model: &Model) -> Option<ModelFault> {
    circuit_of(alloc, model).err().map(fault_in)
}

// A state of the counter, the values of all variables there, and the next state.
type Step = (&'static [bool], &'static [bool], &'static [bool]);

fn all_steps() -> &'static [Step] {
    &[
        (
            &[false, false],
            &[false, false, false, false, true, false],
            &[true, false],
        ),
        (
            &[true, false],
            &[false, true, false, false, false, true],
            &[false, true],
        ),
        (
            &[false, true],
            &[false, false, true, false, false, true],
            &[true, true],
        ),
        (
            &[true, true],
            &[false, true, true, true, false, false],
            &[false, false],
        ),
    ]
}

// Literals, and their values where variable 1 is true; a variable past the end is false.
fn literals() -> &'static [(u64, bool)] {
    &[
        (0, false),
        (1, true),
        (2, true),
        (3, false),
        (4, false),
        (5, true),
    ]
}

// A state, and whether a run of the counter may begin with it.
type Beginning = (&'static [bool], bool);

fn beginnings() -> &'static [Beginning] {
    &[
        (&[false, false], true),
        (&[true, false], false),
        (&[false], false),
    ]
}

// A number of positions of the counter, and a place: after four positions the counter is back, after three it is not.
fn lassos() -> &'static [(u64, u64, bool)] {
    &[(4, 0, true), (3, 0, false), (4, 1, false), (5, 1, true)]
}

// A gate that reads itself.
const READS_ITSELF: Model = Model {
    max: 1,
    inputs: &[],
    latches: &[],
    gates: &[Gate {
        var: 1,
        rhs0: 0,
        rhs1: 3,
    }],
    constraints: &[],
    property: &[],
    fairness: &[],
};

// A gate outside a cycle of two, and those two.
const LEADS_IN: &[Gate] = &[
    Gate {
        var: 2,
        rhs0: 6,
        rhs1: 2,
    },
    Gate {
        var: 3,
        rhs0: 2,
        rhs1: 8,
    },
    Gate {
        var: 4,
        rhs0: 7,
        rhs1: 2,
    },
];

const CYCLE: Model = Model {
    max: 4,
    inputs: &[1],
    latches: &[],
    gates: LEADS_IN,
    constraints: &[],
    property: &[2],
    fairness: &[],
};

const CYCLE_AND_TWICE: Model = Model {
    max: 4,
    inputs: &[1, 4],
    latches: &[],
    gates: LEADS_IN,
    constraints: &[],
    property: &[],
    fairness: &[],
};

const CYCLE_AND_UNDEFINED: Model = Model {
    max: 5,
    inputs: &[1],
    latches: &[],
    gates: LEADS_IN,
    constraints: &[],
    property: &[10],
    fairness: &[],
};

// The gate that reads the other one stands first.
const LATER_FIRST: Model = Model {
    max: 3,
    inputs: &[1],
    latches: &[],
    gates: &[
        Gate {
            var: 3,
            rhs0: 5,
            rhs1: 2,
        },
        Gate {
            var: 2,
            rhs0: 3,
            rhs1: 3,
        },
    ],
    constraints: &[],
    property: &[6],
    fairness: &[],
};

// A model, and what may be found wrong; nothing where there is none. A cycle may be said at two variables, and cycles
// come after the other faults.
type Checked = (&'static Model, &'static [ModelFault]);

fn checked_models() -> &'static [Checked] {
    &[
        (&READS_ITSELF, &[ModelFault::Cycle(1)]),
        (&CYCLE, &[ModelFault::Cycle(3), ModelFault::Cycle(4)]),
        (&CYCLE_AND_TWICE, &[ModelFault::Twice(4)]),
        (&CYCLE_AND_UNDEFINED, &[ModelFault::Undefined(5)]),
        (&LATER_FIRST, &[]),
    ]
}

fn check_steps(rt: &impl Abort, alloc: Global, c: &Circuit) -> Result<(), AllocError> {
    for (k, row) in all_steps().iter().enumerate() {
        assert!(rt; steps(alloc, c, row)?, "of row {k}");
    }
    Ok(())
}

fn check_literals(rt: &impl Abort) {
    for (literal, value) in literals() {
        assert!(rt;
            value_of(&[false, true], *literal) == *value,
            "of {literal}"
        );
    }
}

fn check_beginnings(rt: &impl Abort, c: &Circuit) {
    for (k, row) in beginnings().iter().enumerate() {
        let (state, initial) = *row;
        assert!(rt; begins(c, state) == initial, "of row {k}");
    }
}

fn check_lassos(rt: &impl Abort, alloc: Global, c: &Circuit) -> Result<(), AllocError> {
    for (positions, from, fair) in lassos() {
        let found = closes(alloc, c, *positions, *from)?;
        assert!(rt; found == *fair, "of {positions} positions back to {from}");
    }
    Ok(())
}

fn check_counter(rt: &impl Abort, alloc: Global, c: &Circuit) -> Result<(), AllocError> {
    assert!(rt; has_lists(c));
    one_valuation(c);
    check_beginnings(rt, c);
    check_steps(rt, alloc, c)?;
    check_lassos(rt, alloc, c)
}

// Whether what is found wrong with a model is one of these.
fn is_fault(alloc: Global, model: &Model, faults: &[ModelFault]) -> bool {
    match fault_of(alloc, model) {
        Some(found) => faults.iter().any(|fault| *fault == found),
        None => faults.is_empty(),
    }
}

fn check_models(rt: &impl Abort, alloc: Global) {
    for (k, row) in checked_models().iter().enumerate() {
        let (model, faults) = *row;
        assert!(rt; is_fault(alloc, model, faults), "of row {k}");
    }
}

fn check_made(rt: &impl Abort, alloc: Global) -> Result<(), Fail> {
    let c = circuit_of(alloc, &COUNTING)?;
    let checked = check_counter(rt, alloc, &c);
    drop(c);
    Ok(checked?)
}

#[test]
fn counter_counts(rt: HostRuntime) -> Result<(), Fail> {
    check_literals(&rt);
    check_made(&rt, rt.alloc())
}

#[test]
fn models_are_checked(rt: HostRuntime) {
    check_models(&rt, rt.alloc());
}
