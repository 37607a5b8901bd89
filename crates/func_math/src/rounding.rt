// Absolute values, signs, floors and rounding to places.
ghost use Rattle.std.specs.Prelude.{◌≡◌, ◌<◌, ◌<ℤ◌, pos, negsuc};
ghost use Rattle.func_args.specs.Answers.{gives};
ghost use Rattle.fix_num.specs.Number.{floor_of, unit};
ghost use Rattle.func_math.specs.Rounding.{absolute, cut_to, is_even, raised_to, round_to, sign_of};

use cell_value::FaultKind;
use fix_num::Fixed;
use func_args::calculated;

// The decimal places of a number: with as many or more it stays as it is.
const PLACES: i64 = 6;

// The places before the point that a number has: with more cut off nothing is left of it.
const WHOLE_PLACES: i64 = 12;

// `ABS(N)`
pub(crate) fn absolute(number: Fixed) -> Result<Fixed, FaultKind>
    ensures { result ≡ absolute number }
{
    calculated(Fixed::signed(false, u128::from(number.size())))
}

// `SIGN(N)`
pub(crate) fn sign_of(number: Fixed) -> Result<Fixed, FaultKind>
    ensures { result ≡ sign_of number }
{
    calculated(Fixed::from_int(number.millionths().signum()))
}

// `INT(N)`
pub(crate) fn floor(number: Fixed) -> Result<Fixed, FaultKind>
    ensures { result ≡ gives (floor_of number) }
{
    calculated(number.floor())
}

// `ROUND(N [, N])`
pub(crate) fn round_to(number: Fixed, places: i64) -> Result<Fixed, FaultKind>
    ensures { result ≡ round_to number places }
{
    let _size = number.size();
    if places >= PLACES {
        return Ok(number);
    }
    if places < -WHOLE_PLACES {
        return Ok(Fixed::ZERO);
    }
    calculated(number.round_to(places as i32))
}

// `ROUNDUP(N [, N])`
pub(crate) fn raise_to(number: Fixed, places: i64) -> Result<Fixed, FaultKind>
    ensures { result ≡ raised_to number places }
{
    let size = number.size();
    if places >= PLACES {
        return Ok(number);
    }
    if size == 0 {
        return Ok(Fixed::ZERO);
    }
    if places < -WHOLE_PLACES {
        return Err(FaultKind::Num);
    }
    let unit = unit(places as i32);
    let units = u128::from(size.div_ceil(unit));
    calculated(Fixed::signed(number.is_negative(), units * u128::from(unit)))
}

// `ROUNDDOWN(N [, N])`, and `TRUNC(N [, N])`
pub(crate) fn cut_to(number: Fixed, places: i64) -> Result<Fixed, FaultKind>
    ensures { result ≡ cut_to number places }
{
    let size = number.size();
    if places >= PLACES {
        return Ok(number);
    }
    if places < -WHOLE_PLACES {
        return Ok(Fixed::ZERO);
    }
    let unit = unit(places as i32);
    let units = u128::from(size / unit);
    calculated(Fixed::signed(number.is_negative(), units * u128::from(unit)))
}

// 10^(-places) in millionths, for a number of places that makes it one millionth to 10^12.
fn unit(places: i32) -> u64
    requires most { places <ℤ pos 6 }
    requires least { negsuc 12 <ℤ places }
    ensures unit { result ≡ unit places }
    ensures positive { 0 < result }
{
    10u64.pow((6 - places) as u32)
}

// Whether the whole number is even.
pub(crate) fn is_even(whole: i64) -> bool
    ensures { result ≡ is_even whole }
{
    whole % 2 == 0
}
