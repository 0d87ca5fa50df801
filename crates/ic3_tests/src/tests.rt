//! Paths and closed sets of small circuits, from their initial states and from states.

use crate::again::agrees_again;
use crate::asking::{To, Wanted, answer, is};
use crate::drawing::{agrees, ends_within};
use crate::walled::{keeps_outside, keeps_sides};
use circuit::Circuit;
use edge::Meter;
use ic3::ReachEnd;
use std::alloc::Global;
use std::test::Fail;

// A latch that turns, one that stays, and one that rises to 1.
const TURNS: &str = "aag 1 0 1 0 0 0 0 1 0\n2 3\n1\n2\n";

const STAYS: &str = "aag 1 0 1 0 0 0 0 1 0\n2 2\n1\n2\n";

const RISES: &str = "aag 1 0 1 0 0 0 0 1 0\n2 1\n1\n3\n";

// A counter of two bits, the lower one first, with the literal 12 where both are 1.
const COUNTS: &str = "aag 6 0 2 0 4 0 0 1 0\n2 3\n4 11\n1\n12\n6 5 2\n8 4 3\n10 9 7\n12 4 2\n";

// Two latches: the first takes the value of the input, the second that of the first. By the constraint no step begins
// where both are 1.
const SHIFTS: &str = "aag 4 1 2 0 1 0 1 1 0\n2\n4 2\n6 4\n9\n1\n6\n8 6 4\n";

// Three latches that stay; a state of them differs from another in a literal, which alone is a closed set.
const STAY: &str = "aag 3 0 3 0 0 0 0 1 0\n2 2\n4 4\n6 6\n1\n6\n";

// A circuit, a start ("" for the initial states), a goal, limits of conflicts and of steps, and the answer.
type Row = (&'static str, &'static str, To<'static>, u64, u64, Wanted);

const NO_LIMIT: u64 = 4_294_967_295;

// The rows with numbers up to 10, of circuits with one latch.
fn row_of_one(number: u8) -> Row {
    match number {
        0 => (TURNS, "", To::State("1"), 99, 99, Wanted::Path(&["0"])),
        1 => (TURNS, "", To::State("0"), 99, 99, Wanted::Path(&[])),
        2 => (TURNS, "1", To::State("0"), 99, 99, Wanted::Path(&["1"])),
        3 => (TURNS, "", To::Literal(2), 99, 99, Wanted::Path(&["0", "1"])),
        4 => (
            TURNS,
            "",
            To::Literal(0),
            NO_LIMIT,
            NO_LIMIT,
            Wanted::Closed,
        ),
        5 => (STAYS, "", To::State("1"), 99, 99, Wanted::Closed),
        6 => (
            STAYS,
            "",
            To::State("1"),
            99,
            0,
            Wanted::End(ReachEnd::SpentSteps),
        ),
        7 => (STAYS, "1", To::State("0"), 99, 99, Wanted::Closed),
        8 => (STAYS, "", To::Literal(2), 99, 99, Wanted::Closed),
        9 => (RISES, "1", To::State("0"), 99, 99, Wanted::Closed),
        _ => (RISES, "", To::State("1"), 99, 99, Wanted::Path(&["0"])),
    }
}

// Those from 11 on, of two latches or three; the last one is for all from 21 on.
fn row_of_more(number: u8) -> Row {
    match number {
        11 => (
            COUNTS,
            "",
            To::State("11"),
            99,
            99,
            Wanted::Path(&["00", "10", "01"]),
        ),
        12 => (COUNTS, "11", To::State("00"), 99, 99, Wanted::Path(&["11"])),
        13 => (
            COUNTS,
            "10",
            To::Literal(12),
            99,
            99,
            Wanted::Path(&["10", "01", "11"]),
        ),
        14 => (COUNTS, "", To::LiteralAt(12, 0), 99, 99, Wanted::Closed),
        15 => (
            SHIFTS,
            "",
            To::State("11"),
            99,
            99,
            Wanted::Path(&["00", "10"]),
        ),
        16 => (SHIFTS, "11", To::State("00"), 99, 99, Wanted::Closed),
        17 => (SHIFTS, "01", To::State("01"), 99, 99, Wanted::Path(&[])),
        18 => (STAY, "", To::State("100"), 99, 99, Wanted::ClosedOf(1)),
        19 => (STAY, "101", To::State("011"), 99, 99, Wanted::ClosedOf(1)),
        20 => (STAY, "101", To::State("111"), 99, 0, Wanted::ClosedOf(1)),
        _ => (STAY, "", To::Literal(6), 99, 99, Wanted::ClosedOf(1)),
    }
}

fn row(number: u8) -> Row {
    if number < 11 {
        row_of_one(number)
    } else {
        row_of_more(number)
    }
}

// Whether the search of a row answers what is wanted. A model that is not read is no answer.
fn searched(alloc: Global, row: &Row, c: &Circuit) -> bool {
    let (_, from, to, conflicts, steps, wanted) = *row;
    let mut meter = Meter::new(conflicts, steps);
    is(&answer(alloc, c, from, to, &mut meter), wanted)
}

fn row_is(alloc: Global, number: u8) -> bool {
    let row = row(number);
    match aiger_ascii::read(alloc, row.0.as_bytes()) {
        Ok(model) => searched(alloc, &row, model.circuit()),
        Err(_) => false,
    }
}

#[test]
fn searches(rt: HostRuntime) -> Result<(), Fail> {
    for number in 0..22 {
        assert!(rt; row_is(rt.alloc(), number));
    }
    Ok(())
}

#[test]
fn sides_of_a_wall_are_kept(rt: HostRuntime) -> Result<(), Fail> {
    for number in 0..3 {
        assert!(rt; keeps_sides(rt.alloc(), number));
    }
    Ok(())
}

#[test]
fn a_start_outside_a_reach_entry_has_no_step(rt: HostRuntime) -> Result<(), Fail> {
    for number in 0..4 {
        assert!(rt; keeps_outside(rt.alloc(), number));
    }
    Ok(())
}

#[test]
fn drawn_circuits_are_searched(rt: HostRuntime) -> Result<(), Fail> {
    for seed in 0..200 {
        assert!(rt; agrees(rt.alloc(), seed));
    }
    Ok(())
}

#[test]
fn one_search_is_asked_again(rt: HostRuntime) -> Result<(), Fail> {
    for seed in 0..40 {
        assert!(rt; agrees_again(rt.alloc(), seed));
    }
    Ok(())
}

// Whether searches under limits of conflicts and of steps end as they may.
#[test]
fn limits_are_kept(rt: HostRuntime) -> Result<(), Fail> {
    for limit in 0..40 {
        assert!(rt; ends_within(rt.alloc(), limit));
    }
    Ok(())
}
