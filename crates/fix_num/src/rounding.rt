// Rounding: to the nearest, to decimal places, down and toward zero.
ghost use Rattle.std.specs.Prelude.{◌≡◌, ◌^◌, ◌<◌, ◌≤◌, ◌<ℤ◌, pos, negsuc};
ghost use Rattle.fix_num.specs.Number.{near, within, rounded_to, floor_of, trunc_of, unit};

use crate::error::NumError;
use crate::number::{Fixed, ONE};

// The whole number nearest to p / q, of two as near the greater.
pub(crate) fn near(p: u128, q: u128) -> u128
    requires positive { 0 < q }
    requires dividend { p < 2 ^ 126 }
    requires divisor { q < 2 ^ 126 }
    ensures { result ≡ near p q }
{
    (2 * p + q) / (2 * q)
}

// 10^(-places) in millionths, for a number of places that makes it one millionth to 10^12.
fn unit(places: i32) -> u64
    requires most { places <ℤ pos 6 }
    requires least { negsuc 12 <ℤ places }
    ensures unit { result ≡ unit places }
    ensures positive { 0 < result }
    ensures small { result ≤ 1000000000000000000 }
{
    10u64.pow((6 - places) as u32)
}

impl Fixed {
    /// The nearest multiple of 10^(-places), a half going away from zero.
    ///
    /// So six places or more change nothing, and below -12 places the result is 0.
    /// `Range` exactly where the result is outside.
    pub fn round_to(self, places: i32) -> Result<Fixed, NumError>
        ensures { result ≡ within (rounded_to self places) }
    {
        let size = self.size();
        if places >= 6 {
            return Ok(self);
        }
        if places < -12 {
            return Ok(Fixed::ZERO);
        }
        let unit = u128::from(unit(places));
        Fixed::signed(self.is_negative(), near(u128::from(size), unit) * unit)
    }

    /// The greatest whole number that is not above.
    ///
    /// `Range` exactly where that is -10^12.
    pub fn floor(self) -> Result<Fixed, NumError>
        ensures { result ≡ within (floor_of self) }
    {
        let size = self.size();
        let whole = if self.is_negative() {
            size.div_ceil(ONE)
        } else {
            size / ONE
        };
        Fixed::signed(self.is_negative(), u128::from(whole * ONE))
    }

    /// The number without its decimals, so cut toward zero.
    pub fn trunc(self) -> Fixed
        ensures { result ≡ trunc_of self }
    {
        Fixed::of_size(self.is_negative(), self.size() / ONE * ONE)
    }
}
