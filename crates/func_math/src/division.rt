// MOD, QUOTIENT and POWER.
ghost use Rattle.std.specs.Prelude.{◌≡◌, ◌≢◌, ◌-ℤ◌, ◌*ℤ◌, pos, int_div};
ghost use Rattle.func_args.specs.Answers.{calculated};
ghost use Rattle.fix_num.specs.Number.{power_of};
ghost use Rattle.func_math.specs.Division.{cut_quotient, floor_quotient, modulo};

use cell_value::FaultKind;
use fix_num::Fixed;
use func_args::calculated;

// `MOD(N, N)`: what is left of the first number where the quotient is rounded down.
pub(crate) fn modulo(a: Fixed, b: Fixed) -> Result<Fixed, FaultKind>
    ensures { result ≡ modulo a b }
{
    if b.is_zero() {
        return Err(FaultKind::Div0);
    }
    calculated(Fixed::from_millionths(rest_of(a, b)))
}

// What the divisor times the quotient rounded down leaves of the dividend, in millionths.
fn rest_of(a: Fixed, b: Fixed) -> i64
    requires { b ≢ pos 0 }
    ensures { result ≡ a -ℤ (b *ℤ floor_quotient a b) }
{
    let dividend = a.millionths();
    let divisor = b.millionths();
    if divisor < 0 {
        -(-dividend).rem_euclid(-divisor)
    } else {
        dividend.rem_euclid(divisor)
    }
}

// `QUOTIENT(N, N)`: the exact quotient, cut toward zero.
pub(crate) fn cut_quotient(a: Fixed, b: Fixed) -> Result<Fixed, FaultKind>
    ensures { result ≡ cut_quotient a b }
{
    if b.is_zero() {
        return Err(FaultKind::Div0);
    }
    calculated(Fixed::from_int(whole_quotient(a, b)))
}

// The exact quotient cut toward zero.
fn whole_quotient(a: Fixed, b: Fixed) -> i64
    requires { b ≢ pos 0 }
    ensures { result ≡ int_div a b }
{
    a.millionths() / b.millionths()
}

// `POWER(N, N)`, as the operator `^` has it.
pub(crate) fn power(base: Fixed, exponent: Fixed) -> Result<Fixed, FaultKind>
    ensures { result ≡ calculated (power_of base exponent) }
{
    calculated(base.power(exponent))
}
