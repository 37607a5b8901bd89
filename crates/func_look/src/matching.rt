// MATCH.
ghost use Rattle.std.specs.Prelude.{◌≡◌};
ghost use Rattle.func_look.specs.Matching.{match_value, matched, mode_of};

use crate::taken::{Mode, taken_of_all};
use cell_value::{Area, Arg, FaultKind, Scalar};
use fix_num::Fixed;
use func_args::{block_of, counted, number_of, value_of};

// `MATCH(A, R [, N])`: where the value stands in the row or column.
pub(crate) fn match_value(args: &[Arg]) -> Result<Fixed, FaultKind>
    ensures { result ≡ match_value args.now }
{
    match args {
        [first, second] => match (value_of(first), block_of(second)) {
            (Ok(value), Ok(area)) => matched(value, area, Fixed::ONE),
            (Err(fault), _) | (_, Err(fault)) => Err(fault),
        },
        [first, second, third] => match (value_of(first), block_of(second), number_of(third)) {
            (Ok(value), Ok(area), Ok(number)) => matched(value, area, number),
            (Err(fault), _, _) | (_, Err(fault), _) | (_, _, Err(fault)) => Err(fault),
        },
        _ => Err(FaultKind::Na),
    }
}

// Where the value stands in one row or one column, by the mode of this number.
fn matched(value: &Scalar, area: &Area, number: Fixed) -> Result<Fixed, FaultKind>
    ensures { result ≡ matched value.now area.now number }
{
    if area.rows() != 1 && area.cols() != 1 {
        return Err(FaultKind::Value);
    }
    let mode = mode_of(number)?;
    match taken_of_all(mode, value, area) {
        Some(at) => counted(at + 1),
        None => Err(FaultKind::Na),
    }
}

// How a look-up with this number takes an item: 0 exactly, 1 from a list that rises, and -1 from one
// that falls.
fn mode_of(number: Fixed) -> Result<Mode, FaultKind>
    ensures { result ≡ mode_of number }
{
    if number.is_zero() {
        Ok(Mode::Exact)
    } else if number == Fixed::ONE {
        Ok(Mode::Rising)
    } else if number.millionths() == -Fixed::ONE.millionths() {
        Ok(Mode::Falling)
    } else {
        Err(FaultKind::Na)
    }
}
