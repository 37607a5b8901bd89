// The form of a sheet's name.
ghost use Rattle.std.specs.Prelude.{◌≡◌, not};
ghost use Rattle.std.specs.List.{list_all};
ghost use Rattle.book_model.specs.Refusals.{is_control, is_sheet_name};

use crate::limits::MAX_SHEET_NAME;

/// Whether a sheet may have this name: 1 to [`MAX_SHEET_NAME`] bytes, none of them a control character. This project's own.
pub fn is_sheet_name(name: &str) -> bool
    ensures { result ≡ is_sheet_name name.now }
{
    !name.is_empty() && name.len() <= MAX_SHEET_NAME && has_no_control(name.as_bytes())
}

// Whether none of the bytes is a control character.
fn has_no_control(name: &[u8]) -> bool
    ensures { result ≡ list_all (λ c. not (is_control c)) name.now }
{
    name.iter().all(|c| !is_control(*c))
}

// Whether the byte is a control character.
fn is_control(c: u8) -> bool
    ensures { result ≡ is_control c }
{
    c.is_ascii_control()
}
