// The signatures of functions of dates: numbers that are cut toward zero.
ghost use Rattle.std.specs.Prelude.{◌≡◌, ◌<◌, IfOk, unsigned_abs};
ghost use Rattle.func_args.specs.Arguments.{whole, whole_part};
ghost use Rattle.func_args.specs.Signatures.{one_whole};
ghost use Rattle.func_date.specs.Signatures.{two_wholes, three_wholes, whole_and_kind};

use cell_value::{Arg, FaultKind};
use fix_num::{Fixed, ONE};
use func_args::number_of;

// The number that the argument is, cut toward zero.
pub(crate) fn whole_of(argument: &Arg) -> Result<i64, FaultKind>
    ensures whole { result ≡ whole argument.now }
    ensures small { IfOk result (λ n. unsigned_abs n < 1000000000000) }
{
    let number = number_of(argument)?;
    let cut = whole_part(number);
    Ok(cut)
}

// The number cut toward zero.
fn whole_part(number: Fixed) -> i64
    ensures cut { result ≡ whole_part number }
    ensures small { unsigned_abs result < 1000000000000 }
{
    number.millionths() / ONE as i64
}

// `N`
pub(crate) fn one_whole(args: &[Arg]) -> Result<i64, FaultKind>
    ensures whole { result ≡ one_whole args.now }
    ensures small { IfOk result (λ n. unsigned_abs n < 1000000000000) }
{
    match args {
        [first] => whole_of(first),
        _ => Err(FaultKind::Na),
    }
}

// `N, N`
pub(crate) fn two_wholes(args: &[Arg]) -> Result<(i64, i64), FaultKind>
    ensures wholes { result ≡ two_wholes args.now }
    ensures small { IfOk result (λ p. unsigned_abs p.1 < 1000000000000) }
{
    match args {
        [first, second] => {
            let a = whole_of(first)?;
            let b = whole_of(second)?;
            Ok((a, b))
        }
        _ => Err(FaultKind::Na),
    }
}

// `N, N, N`
pub(crate) fn three_wholes(args: &[Arg]) -> Result<(i64, i64, i64), FaultKind>
    ensures wholes { result ≡ three_wholes args.now }
    ensures month { IfOk result (λ p. unsigned_abs p.1 < 1000000000000) }
    ensures day { IfOk result (λ p. unsigned_abs p.2 < 1000000000000) }
{
    match args {
        [first, second, third] => {
            let a = whole_of(first)?;
            let b = whole_of(second)?;
            let c = whole_of(third)?;
            Ok((a, b, c))
        }
        _ => Err(FaultKind::Na),
    }
}

// `N [, N]`, the second as it is.
pub(crate) fn whole_and_kind(args: &[Arg]) -> Result<(i64, Fixed), FaultKind>
    ensures { result ≡ whole_and_kind args.now }
{
    match args {
        [first] => {
            let a = whole_of(first)?;
            Ok((a, Fixed::ONE))
        }
        [first, second] => {
            let a = whole_of(first)?;
            let b = number_of(second)?;
            Ok((a, b))
        }
        _ => Err(FaultKind::Na),
    }
}
