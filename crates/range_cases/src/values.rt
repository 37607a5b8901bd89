// Values that are drawn.
use cell_addr::Text;
use cell_value::{FaultKind, Scalar};
use draws::Draws;
use fix_num::{Fixed, NumError};
use std::alloc::{AllocError, Global};

// A value of any kind, mostly a number.
pub(crate) fn value(draws: &mut Draws, alloc: Global) -> Result<Scalar, AllocError> {
    match draws.below(8) {
        0 => Ok(Scalar::Empty),
        1 => Ok(Scalar::Text(Text::from_str(alloc, "12")?)),
        2 => Ok(Scalar::Truth(true)),
        3 => Ok(Scalar::Fault(fault(draws))),
        _ => Ok(Scalar::from(number(draws))),
    }
}

// A fault.
fn fault(draws: &mut Draws) -> FaultKind {
    if draws.below(2) == 0 {
        FaultKind::Div0
    } else {
        FaultKind::Value
    }
}

// A number, whole or not, below or above 0.
fn number(draws: &mut Draws) -> Result<Fixed, NumError> {
    let size = i64::from(draws.below(2_000_000_000));
    Fixed::from_millionths(size.saturating_sub(1_000_000_000))
}
