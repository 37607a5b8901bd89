// The forms of fields: what a text, a block, a place and a count look like.
ghost use Rattle.std.specs.Prelude.{◌≡◌, IfOk};
ghost use Rattle.std.specs.Option.{option_copied};
ghost use Rattle.script_lang.specs.Forms.{block_field, count_of, is_count, place_field, text_field, version_field};

use crate::commands::Version;
use cell_addr::{AddrError, Spot, Text, read_place};
use digits::{all_digits, value_at_most};
use std::alloc::{AllocError, Global};

/// How many digits a count has at most. This project's own limit.
pub const COUNT_DIGITS: usize = 7;

// The greatest number of so many digits.
const MOST: u64 = 9_999_999;

/// The text that a field is. `None` where it isn't UTF-8.
pub fn read_text(alloc: Global, field: &[u8]) -> Result<Option<Text>, AllocError>
    ensures { IfOk result (λ text. text ≡ text_field field.now) }
{
    match as_text(field) {
        Some(text) => Ok(Some(Text::from_str(alloc, text)?)),
        None => Ok(None),
    }
}

/// The block that a field names by one address, or by two with a colon between them. `None` where the field has another
/// form.
pub fn read_block(alloc: Global, field: &[u8]) -> Result<Option<Spot>, AllocError>
    ensures { IfOk result (λ spot. spot ≡ block_field field.now) }
{
    let Some(text) = as_text(field) else {
        return Ok(None);
    };
    match read_place(alloc, text) {
        Ok(spot) => Ok(Some(spot)),
        Err(AddrError::NotAnAddress) => Ok(None),
        Err(AddrError::NoMemory) => Err(AllocError),
    }
}

/// The place that a field names by one address. `None` where the field has another form.
pub fn read_single(alloc: Global, field: &[u8]) -> Result<Option<Spot>, AllocError>
    ensures { IfOk result (λ spot. spot ≡ place_field field.now) }
{
    let block = read_block(alloc, field)?;
    Ok(block.filter(|spot| spot.single))
}

/// The number that one to seven digits spell, leading zeros too. `None` where the field has another form.
pub fn read_count(field: &[u8]) -> Option<u32>
    ensures { result ≡ count_of field.now }
{
    if is_count(field) {
        Some(value_at_most(field, MOST) as u32)
    } else {
        None
    }
}

/// The version of a script that a field names: `1` or `2`. `None` where the field is another.
pub fn read_version(field: &[u8]) -> Option<Version>
    ensures { result ≡ version_field field.now }
{
    match field {
        [b'1'] => Some(Version::One),
        [b'2'] => Some(Version::Two),
        _ => None,
    }
}

// Whether the text is one to seven digits.
fn is_count(text: &[u8]) -> bool
    ensures { result ≡ is_count text.now }
{
    1 <= text.len() && text.len() <= COUNT_DIGITS && all_digits(text)
}

// The characters of a field of UTF-8.
fn as_text(field: &[u8]) -> Option<&str>
    ensures { option_copied result ≡ text_field field.now }
{
    str::from_utf8(field).ok()
}
