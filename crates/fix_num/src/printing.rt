// The texts of numbers.
ghost use Rattle.std.specs.Prelude.{◌≡◌, ◌<◌, ◌++◌, ◌+◌, [], ◌∷◌, IfOk, OnOk, string_bytes};
ghost use Rattle.fix_num.specs.Text.{text_of, decimals_of};

use crate::number::{Fixed, ONE};
use std::alloc::{AllocError, Global};

impl Fixed {
    /// The shortest text of the number: a minus sign where it is negative, the whole part without
    /// leading zeros, and a point with the decimals without zeros at the end where there are any.
    pub fn text(self, alloc: Global) -> Result<String, AllocError>
        ensures { IfOk result (λ text. string_bytes text ≡ text_of self) }
    {
        let size = self.size();
        let whole = size / ONE;
        let rest = size % ONE;
        let mut text = if self.is_negative() {
            format!(in alloc; "-{whole}")?
        } else {
            format!(in alloc; "{whole}")?
        };
        if rest > 0 {
            text.push('.')?;
            push_decimals(&mut text, rest)?;
        }
        Ok(text)
    }
}

// Writes the six decimals of so many millionths, without zeros at the end.
fn push_decimals(text: &mut String, millionths: u64) -> Result<(), AllocError>
    requires { millionths < ONE }
    ensures { OnOk result (string_bytes text.new ≡ string_bytes text.old ++ decimals_of 6 millionths) }
{
    let mut rest = millionths;
    'decimals: for place in 0..6u32 {
        if rest == 0 {
            break;
        }
        let unit = 10u64.pow(5 - place);
        push_digit(text, rest / unit)?;
        rest %= unit;
    }
    Ok(())
}

// Writes one digit.
fn push_digit(text: &mut String, digit: u64) -> Result<(), AllocError>
    requires { digit < 10 }
    ensures { OnOk result (string_bytes text.new ≡ string_bytes text.old ++ (48 + digit) ∷ []) }
{
    text.push(char::from(b'0' + digit as u8))
}
