// The signatures that several functions have.
ghost use Rattle.std.specs.Prelude.{◌≡◌};
ghost use Rattle.func_args.specs.Signatures.{number_and_whole, one_number, one_whole, two_numbers};

use crate::argument::{number_of, whole_of};
use cell_value::{Arg, FaultKind};
use fix_num::Fixed;

/// `N`: one number.
pub fn one_number(args: &[Arg]) -> Result<Fixed, FaultKind>
    ensures { result ≡ one_number args.now }
{
    match args {
        [first] => number_of(first),
        _ => Err(FaultKind::Na),
    }
}

/// `N`: one number, cut toward zero.
pub fn one_whole(args: &[Arg]) -> Result<i64, FaultKind>
    ensures { result ≡ one_whole args.now }
{
    match args {
        [first] => whole_of(first),
        _ => Err(FaultKind::Na),
    }
}

/// `N, N`: two numbers.
pub fn two_numbers(args: &[Arg]) -> Result<(Fixed, Fixed), FaultKind>
    ensures { result ≡ two_numbers args.now }
{
    match args {
        [first, second] => {
            let a = number_of(first)?;
            let b = number_of(second)?;
            Ok((a, b))
        }
        _ => Err(FaultKind::Na),
    }
}

/// `N [, N]`: a number, and one cut toward zero that may be absent.
pub fn number_and_whole(args: &[Arg], absent: i64) -> Result<(Fixed, i64), FaultKind>
    ensures { result ≡ number_and_whole args.now absent }
{
    match args {
        [first] => {
            let number = number_of(first)?;
            Ok((number, absent))
        }
        [first, second] => {
            let number = number_of(first)?;
            let whole = whole_of(second)?;
            Ok((number, whole))
        }
        _ => Err(FaultKind::Na),
    }
}
