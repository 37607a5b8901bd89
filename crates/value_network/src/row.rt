//! The smallest network: a row of numbers, and of sums of the slots before them.

ghost use Rattle.std.specs.Prelude.{◌≡◌, IfOk, length, slice_index};
ghost use Rattle.value_network.specs.Row.{number_before, number_of, row_values};

use std::alloc::{AllocError, Global};

/// What one slot of a row holds.
#[derive(Clone, Copy, Debug)]
pub enum Slot {
    /// A number.
    Number(u32),
    /// The sum of the numbers of two slots, by their places in the row, modulo 2^32.
    /// A place that is not before the slot counts as 0.
    Sum(usize, usize),
}

// What a place adds to a sum: the number there where it was worked out already, else 0.
fn number_at(numbers: &[u32], place: usize) -> u32
    ensures { result ≡ number_before (λ at. slice_index numbers.now at) (length numbers.now) place }
{
    numbers.get(place).copied().unwrap_or(0)
}

// The number of the slot that comes after those whose numbers are given.
fn next_number(numbers: &[u32], slot: Slot) -> u32
    ensures { result ≡ number_of (λ at. slice_index numbers.now at) (length numbers.now) slot }
{
    match slot {
        Slot::Number(number) => number,
        Slot::Sum(left, right) => number_at(numbers, left).wrapping_add(number_at(numbers, right)),
    }
}

/// The numbers of a row's slots, worked out in order. Source: this project's own.
pub fn row_numbers(alloc: Global, row: &[Slot]) -> Result<Vec<u32>, AllocError>
    ensures { IfOk result (λ numbers. numbers.items ≡ row_values row.now) }
{
    let mut numbers = Vec::new(alloc);
    'slots: for slot in row {
        let number = next_number(&numbers, *slot);
        numbers.push(number)?;
    }
    Ok(numbers)
}
