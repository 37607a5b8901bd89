//! Decimal digits in runs of bytes: which bytes are digits, the number that digits spell, and the
//! parts of a text round a byte.
//!
//! `value_at_most(b"0042", 1000)` is 42, `value_at_most(b"99999", 1000)` is 1000, and
//! `before_byte(b"3.14", b'.')` and `after_byte(b"3.14", b'.')` are `3` and `14`.
#![tactic(auto)]

ghost use Rattle.std.specs.Prelude.{◌≡◌, ◌≤◌, ◌==◌, min};
ghost use Rattle.std.specs.List.{list_all, list_any, position, before_first, after_first};
ghost use Rattle.digits.specs.Digits.{is_digit, value};

/// Whether the byte is one of the ten digits `0` to `9`.
pub fn digit(byte: u8) -> bool
    ensures { result ≡ is_digit byte }
{
    byte > 47 && byte < 58
}

/// Whether each byte is a digit; so it is of no bytes.
pub fn all_digits(text: &[u8]) -> bool
    ensures { result ≡ list_all is_digit text.now }
{
    text.iter().all(|byte| digit(*byte))
}

/// The number that the digits spell, or `most` where it is greater. No digits spell 0.
pub fn value_at_most(digits: &[u8], most: u64) -> u64
    requires { most ≤ 1000000000000000000 }
    ensures { result ≡ min (value digits.now) most }
{
    let mut total = 0;
    'digits: for byte in digits {
        let next = 10 * total + u64::from(byte.saturating_sub(b'0'));
        total = next.min(most);
    }
    total
}

/// Whether the byte stands somewhere in the text.
pub fn has_byte(text: &[u8], byte: u8) -> bool
    ensures { result ≡ list_any (λ b. b == byte) text.now }
{
    text.contains(&byte)
}

/// Where the first such byte stands in the text, if there is one.
pub fn position_of(text: &[u8], byte: u8) -> Option<usize>
    ensures { result ≡ position (λ b. b == byte) text.now }
{
    text.iter().position(|b| *b == byte)
}

/// The part of the text before the first such byte, or the whole text where there is none.
pub fn before_byte(text: &[u8], byte: u8) -> &[u8]
    ensures { result.now ≡ before_first (λ b. b == byte) text.now }
{
    match position_of(text, byte) {
        Some(at) => &text[..at],
        None => text,
    }
}

/// The part of the text after the first such byte, or nothing where there is none.
pub fn after_byte(text: &[u8], byte: u8) -> &[u8]
    ensures { result.now ≡ after_first (λ b. b == byte) text.now }
{
    match position_of(text, byte) {
        Some(at) => &text[at + 1..],
        None => &[],
    }
}
