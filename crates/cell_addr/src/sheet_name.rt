// Names of sheets in front of `!`: bare, or between apostrophes.
ghost use Rattle.std.specs.Prelude.{◌≡◌, IfOk, IfSome};
ghost use Rattle.std.specs.Option.{option_map, option_copied};
ghost use Rattle.std.specs.List.{list_all};
ghost use Rattle.cell_addr.specs.SheetName.{is_bare_name, is_name_start, is_name_byte, sheet_and_rest};

use crate::parts::{split_once, strip_prefix};
use crate::quote::{after_quoted, quoted_text};
use crate::text::Text;
use std::alloc::{AllocError, Global};

/// Whether a sheet's name needs no apostrophes in front of `!`: it begins with a letter or `_`, and has
/// letters, digits and `_` alone. Source: this project's own.
pub fn is_bare_name(text: &[u8]) -> bool
    ensures { result ≡ is_bare_name text.now }
{
    !text.is_empty() && is_name_start(text[0]) && all_name_bytes(text)
}

// What follows a sheet's name and `!`, or the whole text where it has no `!`. `None` where what
// stands in front of `!` is no name.
pub(crate) fn area_part(text: &str) -> Option<&str>
    ensures { option_copied result ≡ option_map (λ p. p.1) (sheet_and_rest text.now) }
{
    match strip_prefix(text, '\'') {
        Some(after) => strip_prefix(after_quoted(after, '\'')?, '!'),
        None => match split_once(text, '!') {
            Some((name, area)) if is_bare_name(name.as_bytes()) => Some(area),
            Some(_) => None,
            None => Some(text),
        },
    }
}

// The sheet's name in front of `!`, where the text has one of the right form.
pub(crate) fn sheet_part(alloc: Global, text: &str) -> Result<Option<Text>, AllocError>
    ensures { IfOk result (λ name. IfSome (sheet_and_rest text.now) (λ p. name ≡ p.0)) }
{
    match strip_prefix(text, '\'') {
        Some(after) => quoted_text(alloc, after, '\''),
        None => match split_once(text, '!') {
            Some((name, _)) => Ok(Some(Text::from_str(alloc, name)?)),
            None => Ok(None),
        },
    }
}

// Whether a sheet's bare name may hold each byte.
fn all_name_bytes(text: &[u8]) -> bool
    ensures { result ≡ list_all is_name_byte text.now }
{
    text.iter().all(|c| is_name_byte(*c))
}

// Whether a sheet's bare name may begin with the byte.
fn is_name_start(c: u8) -> bool
    ensures { result ≡ is_name_start c }
{
    c.is_ascii_alphabetic() || c == b'_'
}

// Whether a sheet's bare name may hold the byte.
fn is_name_byte(c: u8) -> bool
    ensures { result ≡ is_name_byte c }
{
    c.is_ascii_alphanumeric() || c == b'_'
}
