//! Bounded search over a cone: a lasso of it is one of the whole circuit where the state of that is back. The main call is
//! `told_of`.

use circuit::Circuit;
use edge::Meter;
use lasso_bmc::{ConeSearch, deepen_cone};
use std::alloc::Global;
use std::test::*;

// What some questions come to: a lasso of so many positions; none, and nothing more is asked; none of at most so many
// positions; nothing of these.
#[derive(Clone, Copy, PartialEq, Eq)]
enum Told {
    Found(u64),
    Over,
    None(u32),
    Nothing,
}

// Asks for positions more, at most so many, until a lasso is found.
fn asked_on(
    alloc: Global,
    c: &Circuit,
    search: &mut ConeSearch,
    questions: u32,
    meter: &mut Meter,
) -> Told {
    for _question in 0..questions {
        match deepen_cone(alloc, c, 0, search, meter) {
            Ok(Some(lasso)) => {
                let positions = lasso.inputs.len() as u64;
                drop(lasso);
                return Told::Found(positions);
            }
            Ok(None) => {}
            Err(_) => return Told::Nothing,
        }
    }
    if search.is_over() {
        return Told::Over;
    }
    Told::None(search.done())
}

fn asked(alloc: Global, c: &Circuit, search: &mut ConeSearch, questions: u32) -> Told {
    let mut meter = Meter::new(4_294_967_295, 4_294_967_295);
    let told = asked_on(alloc, c, search, questions, &mut meter);
    drop(meter);
    told
}

fn searched(alloc: Global, c: &Circuit, questions: u32) -> Told {
    match ConeSearch::new(alloc, c, 0) {
        Ok(Some(made)) => {
            let mut search = made;
            let told = asked(alloc, c, &mut search, questions);
            drop(search);
            told
        }
        _ => Told::Nothing,
    }
}

fn told_of(alloc: Global, text: &str, questions: u32) -> Told {
    match aiger_ascii::read(alloc, text.as_bytes()) {
        Ok(model) => {
            let told = searched(alloc, model.circuit(), questions);
            drop(model);
            told
        }
        Err(_) => Told::Nothing,
    }
}

// An input alone.
const ALONE: &str = "aag 1 1 0 0 0 0 0 1 0\n2\n1\n2\n";

// The same with a ring of 4 latches outside the cone, of which one is 1, and with one of 16.
const FOUR: &str = "aag 5 1 4 0 0 0 0 1 0\n2\n4 10 1\n6 4\n8 6\n10 8\n1\n2\n";

const SIXTEEN: &str =
    "aag 17 1 16 0 0 0 0 1 0\n2\n4 34 1\n6 4\n8 6\n10 8\n12 10\n14 12\n16 14\n18 16\n20 18\n22 20\n24 22\n26 24\n28 26\n30 28\n32 30\n34 32\n1\n2\n";

// With rings of 7, 11 and 13, which are back after 1,001 positions, where the greatest variable allows fewer.
const NEVER: &str =
    "aag 2000000 1 31 0 0 0 0 1 0\n2\n4 16 1\n6 4\n8 6\n10 8\n12 10\n14 12\n16 14\n18 38 1\n20 18\n22 20\n24 22\n26 24\n28 26\n30 28\n32 30\n34 32\n36 34\n38 36\n40 64 1\n42 40\n44 42\n46 44\n48 46\n50 48\n52 50\n54 52\n56 54\n58 56\n60 58\n62 60\n64 62\n1\n2\n";

// A latch that changes at each position, with a ring of 3 outside.
const TOGGLE: &str = "aag 5 1 4 0 0 0 0 1 0\n2\n4 5\n6 10 1\n8 6\n10 8\n1\n4\n";

// A literal that is true nowhere.
const FALSE: &str = "aag 1 1 0 0 0 0 0 1 0\n2\n1\n0\n";

// A text, how many questions are asked, and what they come to.
const ROWS: [(&str, u32, Told); 7] = [
    (ALONE, 1, Told::Found(1)),
    (FOUR, 1, Told::Found(4)),
    (SIXTEEN, 1, Told::Found(16)),
    (TOGGLE, 1, Told::None(1)),
    (TOGGLE, 2, Told::Found(6)),
    (NEVER, 3, Told::Over),
    (FALSE, 5, Told::None(5)),
];

fn rows() -> &'static [(&'static str, u32, Told)] {
    &ROWS
}

// The place of the first row of which something else is told, from 0.
fn wrong_row(alloc: Global) -> Option<usize> {
    for (k, (text, questions, wanted)) in rows().iter().enumerate() {
        if told_of(alloc, text, *questions) != *wanted {
            return Some(k);
        }
    }
    None
}

#[test]
fn loops_are_repeated_until_all_is_back(rt: HostRuntime) {
    assert!(rt; wrong_row(rt.alloc()).is_none());
}
