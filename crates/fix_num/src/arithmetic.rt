// Sums, products, quotients and powers.
ghost use Rattle.std.specs.Prelude.{◌≡◌, ◌+ℤ◌, ◌-ℤ◌, pos};
ghost use Rattle.fix_num.specs.Number.{within, product, quotient, multiplied, power_of};

use crate::error::NumError;
use crate::number::{Fixed, ONE};
use crate::rounding::near;

// The greatest absolute value of an exponent.
const MAX_EXPONENT: u64 = 1_000;

impl Fixed {
    /// The exact sum.
    ///
    /// `Range` exactly where it is outside.
    pub fn add(self, b: Fixed) -> Result<Fixed, NumError>
        ensures { result ≡ within (self +ℤ b) }
    {
        Fixed::from_millionths(self.millionths() + b.millionths())
    }

    /// The exact difference.
    ///
    /// `Range` exactly where it is outside.
    pub fn sub(self, b: Fixed) -> Result<Fixed, NumError>
        ensures { result ≡ within (self -ℤ b) }
    {
        Fixed::from_millionths(self.millionths() - b.millionths())
    }

    /// The product, rounded to a millionth, a half going away from zero.
    ///
    /// `Range` exactly where the rounded product is outside.
    pub fn mul(self, b: Fixed) -> Result<Fixed, NumError>
        ensures { result ≡ product self b }
    {
        let exact = u128::from(self.size()) * u128::from(b.size());
        Fixed::signed(
            self.is_negative() != b.is_negative(),
            near(exact, u128::from(ONE)),
        )
    }

    /// The quotient, rounded to a millionth, a half going away from zero.
    ///
    /// `ZeroDivisor` exactly where b is 0, and else `Range` exactly where the rounded quotient is
    /// outside.
    pub fn div(self, b: Fixed) -> Result<Fixed, NumError>
        ensures { result ≡ quotient self b }
    {
        if b.is_zero() {
            return Err(NumError::ZeroDivisor);
        }
        let dividend = u128::from(self.size()) * u128::from(ONE);
        Fixed::signed(
            self.is_negative() != b.is_negative(),
            near(dividend, u128::from(b.size())),
        )
    }

    /// 1 multiplied by the number as often as the exponent says, each product rounded; for a
    /// negative exponent 1 divided by the power of its absolute value.
    ///
    /// `Range` exactly where the exponent is not whole or beyond 1,000 in absolute value, or a
    /// product or the quotient is outside; `ZeroDivisor` exactly where the exponent is negative and
    /// that power is 0.
    pub fn power(self, exponent: Fixed) -> Result<Fixed, NumError>
        ensures { result ≡ power_of self exponent }
    {
        let size = exponent.size();
        if size % ONE != 0 || size > MAX_EXPONENT * ONE {
            return Err(NumError::Range);
        }
        let power = self.multiplied(size / ONE)?;
        if exponent.is_negative() {
            Fixed::ONE.div(power)
        } else {
            Ok(power)
        }
    }

    // 1 multiplied so often by the number, each product rounded.
    fn multiplied(self, times: u64) -> Result<Fixed, NumError>
        ensures { result ≡ multiplied (pos ONE) self times }
    {
        let mut power = Fixed::ONE;
        'products: for done in 0..times {
            power = power.mul(self)?;
        }
        Ok(power)
    }
}
