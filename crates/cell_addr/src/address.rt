// Reading addresses: columns, rows, and one or two of them on a sheet.
ghost use Rattle.std.specs.Prelude.{◌≡◌, ◌≤◌, length};
ghost use Rattle.std.specs.List.{prefix_len, list_all};
ghost use Rattle.std.specs.Char.{is_ascii_alphabetic};
ghost use Rattle.cell_addr.specs.Address.{is_column, letter_number, letters_number, column_of, is_row, row_of, address_of, spot_at, spot_between, area_of, spot_of, ReadsAs};

use crate::sheet_name::{area_part, sheet_part};
use crate::spot::{AddrError, Spot};
use digits::{after_byte, all_digits, before_byte, has_byte, value_at_most};
use std::alloc::Global;

/// How many letters the name of a column has at most.
pub const COLUMN_LETTERS: usize = 3;

/// How many digits the number of a row has at most. This project's own limit.
pub const ROW_DIGITS: usize = 7;

// The greatest number of so many digits.
const MOST_ROWS: u64 = 9_999_999;

/// The column, counted from 0, that one to three letters of either case name: `A` is 0 and `ZZZ` is
/// 18,277. `None` where the text has another form. Source: OpenFormula.
pub fn read_column(text: &[u8]) -> Option<u32>
    ensures { result ≡ column_of text.now }
{
    if is_column(text) {
        Some(letters_number(text).saturating_sub(1))
    } else {
        None
    }
}

/// The row, counted from 0, that one to seven digits without a leading 0 name: `1` is 0. `None` where
/// the text has another form. Source: OpenFormula, and this project's own limit on the digits.
pub fn read_row(text: &[u8]) -> Option<u32>
    ensures { result ≡ row_of text.now }
{
    if is_row(text) {
        let number = value_at_most(text, MOST_ROWS) as u32;
        Some(number.saturating_sub(1))
    } else {
        None
    }
}

/// The row and the column, counted from 0, that an address such as `b3` names: column letters,
/// followed at once by a row's digits. `None` where the text has another form.
pub fn read_address(text: &[u8]) -> Option<(u32, u32)>
    ensures { result ≡ address_of text.now }
{
    let (letters, digits) = text.split_at(letters_count(text));
    let row = read_row(digits)?;
    let col = read_column(letters)?;
    Some((row, col))
}

/// The spot, on no sheet, that an address or two with a colon between them name. `None` where the
/// text has another form.
pub fn read_area(text: &[u8]) -> Option<Spot>
    ensures { result ≡ area_of text.now }
{
    if has_byte(text, b':') {
        let first = read_address(before_byte(text, b':'))?;
        let last = read_address(after_byte(text, b':'))?;
        Some(Spot::between(first, last))
    } else {
        let only = read_address(text)?;
        Some(Spot::at(only))
    }
}

/// The spot that a text names: an address, or two with a colon between them, and in front of them a
/// sheet's name and `!` where one is wanted. The name is bare, or stands between apostrophes, where two
/// apostrophes are one of the name. Nothing blank is skipped.
///
/// # Errors
/// `NotAnAddress` exactly where the text has another form, and `NoMemory` only where it names a sheet.
///
/// Source: OpenFormula's references without `$`, and this project's own limits on letters and digits.
pub fn read_place(alloc: Global, text: &str) -> Result<Spot, AddrError>
    ensures { ReadsAs result (spot_of text.now) }
{
    let Some(area) = area_part(text) else {
        return Err(AddrError::NotAnAddress);
    };
    let Some(spot) = read_area(area.as_bytes()) else {
        return Err(AddrError::NotAnAddress);
    };
    match sheet_part(alloc, text) {
        Ok(sheet) => Ok(Spot { sheet, ..spot }),
        Err(_) => Err(AddrError::NoMemory),
    }
}

// Whether the text is one to three letters.
fn is_column(text: &[u8]) -> bool
    ensures { result ≡ is_column text.now }
{
    1 <= text.len() && text.len() <= COLUMN_LETTERS && all_letters(text)
}

// Whether each byte is a letter.
fn all_letters(text: &[u8]) -> bool
    ensures { result ≡ list_all is_ascii_alphabetic text.now }
{
    text.iter().all(|c| c.is_ascii_alphabetic())
}

// The number that one to three letters spell, where A is 1.
fn letters_number(text: &[u8]) -> u32
    requires { length text.now ≤ COLUMN_LETTERS }
    ensures { result ≡ letters_number text.now }
{
    let mut number = 0;
    'letters: for c in text {
        number = 26 * number + letter_number(*c);
    }
    number
}

// The number of a letter, where A is 1.
fn letter_number(c: u8) -> u32
    ensures number { result ≡ letter_number c }
    ensures small { result ≤ 255 }
{
    u32::from(c.to_ascii_uppercase().saturating_sub(64))
}

// Whether the text is one to seven digits, the first of them no 0.
fn is_row(text: &[u8]) -> bool
    ensures { result ≡ is_row text.now }
{
    1 <= text.len() && text.len() <= ROW_DIGITS && text[0] != b'0' && all_digits(text)
}

// How many letters the text begins with.
fn letters_count(text: &[u8]) -> usize
    ensures count { result ≡ prefix_len is_ascii_alphabetic text.now }
    ensures within { result ≤ length text.now }
{
    text.iter().take_while(|c| c.is_ascii_alphabetic()).count()
}
