// The sheet that references of cases point to: 1, 5 and 9 in A1 to C1, `x`, `y` and `z` in A2 to C2, and
// nothing else.
use cell_addr::Text;
use cell_value::Scalar;
use fix_num::Fixed;
use std::alloc::{AllocError, Global};

/// The value of a cell of the sheet.
pub(crate) fn value_at(alloc: Global, row: u32, col: u32) -> Result<Scalar, AllocError> {
    match (row, col) {
        (0, 0) => Ok(number(1)),
        (0, 1) => Ok(number(5)),
        (0, 2) => Ok(number(9)),
        (1, 0) => text(alloc, "x"),
        (1, 1) => text(alloc, "y"),
        (1, 2) => text(alloc, "z"),
        _ => Ok(Scalar::Empty),
    }
}

// A whole number.
fn number(number: i64) -> Scalar {
    Scalar::from(Fixed::from_int(number))
}

// A text.
fn text(alloc: Global, content: &str) -> Result<Scalar, AllocError> {
    Ok(Scalar::Text(Text::from_str(alloc, content)?))
}
