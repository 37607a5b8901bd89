// Numbers read from texts.
ghost use Rattle.std.specs.Prelude.{◌≡◌, ◌*◌, ◌^◌, ◌≤◌, true, length};
ghost use Rattle.std.specs.List.{list_all};
ghost use Rattle.digits.specs.Digits.{is_digit, value};
ghost use Rattle.fix_num.specs.Number.{near};
ghost use Rattle.fix_num.specs.Text.{number_of, has_minus, after_sign, are_parts};

use crate::error::NumError;
use crate::number::{Fixed, ONE};
use digits::{after_byte, all_digits, before_byte, value_at_most};

// A whole part that no number has: this and every greater one is outside.
const MAX_WHOLE: u64 = 1_000_000_000_000;

impl Fixed {
    /// The number that a text spells: an optional sign, then digits, digits with a point, digits
    /// with a point and digits, or a point and digits. It is rounded to a millionth, a half going
    /// away from zero.
    ///
    /// `NotANumber` exactly where the text has another form, and else `Range` exactly where the
    /// rounded number is outside.
    pub fn from_text(text: &str) -> Result<Fixed, NumError>
        ensures { result ≡ number_of text.now }
    {
        Fixed::from_bytes(text.as_bytes())
    }

    /// The number that the bytes of a text spell, as [`Fixed::from_text`] reads it.
    pub fn from_bytes(text: &[u8]) -> Result<Fixed, NumError>
        ensures { result ≡ number_of text.now }
    {
        let (negative, number) = split_sign(text);
        let whole = before_byte(number, b'.');
        let decimals = after_byte(number, b'.');
        if !are_parts(whole, decimals) {
            return Err(NumError::NotANumber);
        }
        let millionths = value_at_most(whole, MAX_WHOLE) * ONE + rounded(decimals);
        Fixed::signed(negative, u128::from(millionths))
    }
}

// Whether the text begins with a minus sign, and the text after its sign.
fn split_sign(text: &[u8]) -> (bool, &[u8])
    ensures negative { result.0 ≡ has_minus text.now }
    ensures after { result.1.now ≡ after_sign text.now }
{
    match text {
        [b'-', number @ ..] => (true, number),
        [b'+', number @ ..] => (false, number),
        _ => (false, text),
    }
}

// Whether the bytes before a point and after it make a number: digits alone, and one at least.
fn are_parts(whole: &[u8], decimals: &[u8]) -> bool
    ensures { result ≡ are_parts whole.now decimals.now }
{
    all_digits(whole) && all_digits(decimals) && !(whole.is_empty() && decimals.is_empty())
}

// The decimals in millionths, rounded by the seventh, a half going up.
fn rounded(decimals: &[u8]) -> u64
    requires { list_all is_digit decimals.now ≡ true }
    ensures rounded { result ≡ near (ONE * value decimals.now) (10 ^ length decimals.now) }
    ensures small { result ≤ ONE }
{
    let kept = &decimals[..decimals.len().min(7)];
    let tenths = value_at_most(kept, 10_000_000) * 10u64.pow(7 - kept.len() as u32);
    (tenths + 5) / 10
}
