use std::alloc::{AllocError, Global};
use std::test::Fail;
use value_network::{Slot, row_numbers};

// Rows of slots and their numbers.
const ROWS: &[(&[Slot], &[u32])] = &[
    (
        &[Slot::Number(4), Slot::Sum(0, 0), Slot::Sum(0, 1)],
        &[4, 8, 12],
    ),
    // a place at the slot or after it counts as 0
    (
        &[Slot::Sum(0, 1), Slot::Number(7), Slot::Sum(1, 9)],
        &[0, 7, 7],
    ),
    // sums go round at 2^32
    (
        &[Slot::Number(u32::MAX), Slot::Number(2), Slot::Sum(1, 0)],
        &[u32::MAX, 2, 1],
    ),
    (&[], &[]),
];

// Whether the row has these numbers.
fn has(alloc: Global, row: &[Slot], numbers: &[u32]) -> Result<bool, AllocError> {
    Ok(row_numbers(alloc, row)?.as_slice() == numbers)
}

#[test]
fn numbers_of_rows(rt: HostRuntime) -> Result<(), Fail> {
    for (row, numbers) in ROWS {
        assert!(rt; has(rt.alloc(), row, numbers)?);
    }
    Ok(())
}
