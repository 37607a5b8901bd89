// What the two functions answer.
ghost use Rattle.std.specs.Prelude.{◌≡◌, ◌<◌, ◌≤◌, ◌*◌, pos};
ghost use Rattle.cell_value.specs.declared.scalar.Scalar.TheVariants.{Number};
ghost use Rattle.fix_num.specs.Number.{IsInside};
ghost use Rattle.custom_fn.specs.Answer.{banded, rounded, tiered};
ghost use Rattle.custom_fn.specs.Pairs.{band_of};
ghost use Rattle.custom_fn.specs.Rule.{rule_value};
ghost use Rattle.tariffs.specs.Tariffs as tariff;
ghost use Rattle.tariffs.specs.internal.Levied.{total_in};

use crate::rules::number;
use crate::search::begun;
use crate::tables::{LEVIED_BELOW, LEVY, POSTAGE};
use cell_value::{FaultKind, Scalar};
use fix_num::{Fixed, LIMIT, ONE};

/// The postage of a weight: the price of the last band that doesn't begin above it. `#N/A` of a
/// negative weight, and the fault of a value that is no number.
pub fn postage(weight: &Scalar) -> Scalar
    ensures { result ≡ rule_value tariff.postage weight.now }
{
    match weight.as_number() {
        Ok(weight) => price(weight.millionths()),
        Err(fault) => Scalar::Fault(fault),
    }
}

/// The levy on an amount: of each tier's part of it by the tier's rate, rounded once half away from
/// zero. `#NUM!` of a negative amount, and the fault of a value that is no number.
pub fn levy(amount: &Scalar) -> Scalar
    ensures { result ≡ rule_value tariff.levy amount.now }
{
    match amount.as_number() {
        Ok(amount) => levied(amount.millionths()),
        Err(fault) => Scalar::Fault(fault),
    }
}

// The price of a weight, in millionths.
fn price(weight: i64) -> Scalar
    ensures { result ≡ banded (band_of weight POSTAGE) }
{
    match begun(&POSTAGE, weight) {
        0 => Scalar::Fault(FaultKind::Na),
        count => Scalar::Number(number(POSTAGE[count - 1].1)),
    }
}

// The levy on an amount, in millionths.
fn levied(amount: i64) -> Scalar
    requires { IsInside amount }
    ensures { result ≡ tiered amount LEVY }
{
    let count = begun(&LEVY, amount);
    if count == 0 {
        return Scalar::Fault(FaultKind::Num);
    }
    rounded(total(count - 1, amount.unsigned_abs()))
}

// The levy on an amount that ends in this tier, in millionths of millionths.
fn total(tier: usize, amount: u64) -> u128
    requires tier { tier < 3 }
    requires amount { amount < LIMIT }
    ensures total { result ≡ total_in tier amount }
    ensures small { result ≤ LIMIT * ONE }
{
    let (from, rate) = LEVY[tier];
    let part = amount.saturating_sub(from.unsigned_abs());
    u128::from(LEVIED_BELOW[tier]) * u128::from(ONE)
        + u128::from(rate.unsigned_abs()) * u128::from(part)
}

// Millionths of millionths as a number, rounded half away from zero; `#NUM!` beyond the limits.
fn rounded(total: u128) -> Scalar
    requires { total ≤ LIMIT * ONE }
    ensures { result ≡ rounded (pos total) }
{
    let one = u128::from(ONE);
    Scalar::from(Fixed::signed(false, (2 * total + one) / (2 * one)))
}
