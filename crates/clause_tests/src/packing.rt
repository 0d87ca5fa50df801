//! Literals and names worked out by hand.
use packed_literals::{Names, Packed, Var};
use std::alloc::{AllocError, Global};
use std::test::Fail;

// The code of each of two literals over a number, and whether it is read back.
fn codes_of(number: u32) -> ([u32; 2], bool) {
    if number >= 1 << 31 {
        return ([0; 2], false);
    }
    let itself = Packed::of(number, true);
    let negated = Packed::of(number, false);
    let is_read = itself.number() == number
        && negated.number() == number
        && itself.is_positive()
        && !negated.is_positive();
    let is_opposite = itself.negation().is(negated) && negated.negation().is(itself);
    let is_apart = itself.is(itself) && !itself.is(negated);
    (
        [itself.code(), negated.code()],
        is_read && is_opposite && is_apart,
    )
}

fn has_codes(number: u32, codes: [u32; 2]) -> bool {
    codes_of(number) == (codes, true)
}

fn are_read_back() -> [bool; 3] {
    [
        has_codes(0, [0, 1]),
        has_codes(3, [6, 7]),
        has_codes((1 << 31) - 1, [u32::MAX - 1, u32::MAX]),
    ]
}

#[test]
fn a_literal_is_read_back(rt: HostRuntime) {
    assert!(rt; are_read_back() == [true; 3]);
}

// The numbers of these variables, as they are met.
fn numbers_of(names: &mut Names, alloc: Global, vars: &[Var]) -> Result<Vec<u32>, AllocError> {
    let mut numbers = Vec::new(alloc);
    for var in vars {
        let number = names.meet(*var)?;
        numbers.push(number)?;
    }
    Ok(numbers)
}

// What is known once 7, 2^62, 0 and 7 again were met, in this order.
fn meet_four(names: &mut Names, alloc: Global) -> Result<[bool; 4], AllocError> {
    let is_new = names.get(7).is_none();
    let numbers = numbers_of(names, alloc, &[7, 1 << 62, 0, 7])?;
    let are_places = numbers.as_slice() == [0, 1, 2, 0].as_slice();
    let are_kept = names.as_slice() == [7, 1 << 62, 0].as_slice();
    let are_known = names.get(1 << 62) == Some(1)
        && names.get(0) == Some(2)
        && names.get(1).is_none();
    Ok([is_new, are_places, are_kept, are_known])
}

fn meet_anew(alloc: Global) -> Result<[bool; 4], AllocError> {
    let mut names = Names::new(alloc);
    let known = meet_four(&mut names, alloc);
    drop(names);
    known
}

#[test]
fn variables_are_numbered_as_they_come(rt: HostRuntime) -> Result<(), Fail> {
    assert!(rt; meet_anew(rt.alloc())? == [true; 4]);
    Ok(())
}
