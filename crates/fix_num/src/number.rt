// The number itself: how it is stored, made and compared.
ghost use Rattle.std.specs.Prelude.{◌≡◌, ◌<◌, ◌+◌, ◌↔◌, IsTrue, ℤ, pos, unsigned_abs, ◌*ℤ◌};
ghost use Rattle.fix_num.specs.Number.{IsInside, within, is_negative, signed};

use crate::error::NumError;
use std::marker::Model;

/// How many millionths 1 has.
pub const ONE: u64 = 1_000_000;

/// The least number of millionths that no number has.
pub const LIMIT: u64 = 1_000_000_000_000_000_000;

/// A whole number of millionths of absolute value below 10^18. This project's own range.
///
/// Contracts see that whole number: 1.5 is 1,500,000.
#[derive(Clone, Copy, PartialEq, Eq, PartialOrd, Ord, Debug)]
pub struct Fixed {
    millionths: i64,
}

impl Model for Fixed {
    ghost Value = { ℤ };

    ghost view = { λ f. f.millionths };

    ghost invariant = { λ f. IsInside f.millionths };

    ghost inverse = { λ m. record { millionths = m } };
}

impl Fixed {
    /// The number 0.
    pub const ZERO: Fixed = Fixed { millionths: 0 };

    /// The number 1.
    pub const ONE: Fixed = Fixed {
        millionths: ONE as i64,
    };

    /// The whole number n.
    ///
    /// `Range` exactly where the absolute value of n is 10^12 or more.
    pub fn from_int(n: i64) -> Result<Fixed, NumError>
        ensures { result ≡ within (n *ℤ pos ONE) }
    {
        Fixed::signed(n < 0, u128::from(n.unsigned_abs()) * u128::from(ONE))
    }

    /// Whether the number is 0.
    pub fn is_zero(self) -> bool
        ensures { IsTrue result ↔ (self ≡ pos 0) }
    {
        self.millionths == 0
    }

    /// Whether the number is less than 0.
    pub fn is_negative(self) -> bool
        ensures { result ≡ is_negative self }
    {
        self.millionths < 0
    }

    /// The number of so many millionths.
    ///
    /// `Range` exactly where there are 10^18 or more, above or below 0.
    pub fn from_millionths(millionths: i64) -> Result<Fixed, NumError>
        ensures { result ≡ within millionths }
    {
        if millionths.unsigned_abs() < LIMIT {
            Ok(Fixed { millionths })
        } else {
            Err(NumError::Range)
        }
    }

    /// How many millionths the number has.
    pub fn millionths(self) -> i64
        ensures same { result ≡ self }
        ensures inside { IsInside self }
    {
        self.millionths
    }

    /// The absolute value, in millionths.
    pub fn size(self) -> u64
        ensures size { result ≡ unsigned_abs self }
        ensures inside { IsInside self }
    {
        self.millionths.unsigned_abs()
    }

    // The number of this absolute value in millionths, negative or not.
    pub(crate) fn of_size(negative: bool, size: u64) -> Fixed
        requires { size < LIMIT }
        ensures { result ≡ signed negative size }
    {
        let millionths = size as i64;
        Fixed {
            millionths: if negative { -millionths } else { millionths },
        }
    }

    /// The number of this absolute value in millionths, negative or not.
    ///
    /// `Range` exactly where that is 10^18 or more.
    pub fn signed(negative: bool, size: u128) -> Result<Fixed, NumError>
        ensures { result ≡ within (signed negative size) }
    {
        if size < u128::from(LIMIT) {
            Ok(Fixed::of_size(negative, size as u64))
        } else {
            Err(NumError::Range)
        }
    }
}
