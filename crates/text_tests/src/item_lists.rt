//! The calls at concrete types: bytes, and lists of lists.
use items::Items;
use std::alloc::{AllocError, Global};
use std::test::*;

fn push_and_copy(alloc: Global, bytes: &mut Items<u8>) -> Result<Items<u8>, AllocError> {
    bytes.push(7)?;
    bytes.push(9)?;
    bytes.try_copy(alloc)
}

// Whether a copy that was made before the last push has what was there.
fn is_copied(alloc: Global) -> Result<bool, AllocError> {
    let mut bytes: Items<u8> = Items::new(alloc);
    let copy = push_and_copy(alloc, &mut bytes)?;
    bytes.push(8)?;
    Ok(
        copy.into_vec().as_slice() == [7, 9].as_slice()
            && bytes.into_vec().as_slice() == [7, 9, 8].as_slice(),
    )
}

// Whether an empty list is told from one with a byte, and how long that one is.
fn sizes(alloc: Global) -> Result<(bool, bool, usize), AllocError> {
    let mut bytes: Items<u8> = Items::new(alloc);
    let before = bytes.is_empty();
    bytes.push(7)?;
    Ok((before, bytes.is_empty(), bytes.len()))
}

fn rows_of(alloc: Global) -> Result<Items<Items<bool>>, AllocError> {
    let mut rows = Items::new(alloc);
    rows.push(Items::from_slice(alloc, &[true, false])?)?;
    rows.push(Items::new(alloc))?;
    Ok(Items::from_vec(rows.into_vec()))
}

// How long each row of a list of two is.
fn row_sizes(alloc: Global) -> Result<Vec<usize>, AllocError> {
    let rows = rows_of(alloc)?;
    let mut sizes = Vec::new(alloc);
    for row in rows.as_slice() {
        sizes.push(row.len())?;
    }
    Ok(sizes)
}

fn has_row_sizes(alloc: Global) -> Result<bool, AllocError> {
    let sizes = row_sizes(alloc)?;
    Ok(sizes.as_slice() == [2, 0].as_slice())
}

fn are_right(alloc: Global) -> Result<[bool; 3], AllocError> {
    Ok([
        sizes(alloc)? == (true, false, 1),
        is_copied(alloc)?,
        has_row_sizes(alloc)?,
    ])
}

#[test]
fn bytes_and_lists_of_lists(rt: HostRuntime) -> Result<(), Fail> {
    assert!(rt; are_right(rt.alloc())? == [true; 3]);
    Ok(())
}
