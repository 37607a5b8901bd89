// The form of a name's word.
ghost use Rattle.std.specs.Prelude.{◌≡◌};
ghost use Rattle.cell_addr.specs.Address.{address_of};
ghost use Rattle.book_model.specs.Names.{is_inside, is_name, is_truth};

use crate::limits::MAX_NAME;
use cell_addr::{COLS, ROWS, is_word, read_address, same_folded};

/// Whether a named expression may have this word: 1 to [`MAX_NAME`] letters, digits, `_` and `.`, of which the first is a
/// letter or `_`; not TRUE or FALSE in any case, and no address within the limits of a sheet. This project's own.
pub fn is_name(word: &str) -> bool
    ensures { result ≡ is_name word.now }
{
    is_word(word.as_bytes()) && word.len() <= MAX_NAME && !is_truth(word) && !is_address(word)
}

// Whether the word is a truth value, in any case of its letters.
fn is_truth(word: &str) -> bool
    ensures { result ≡ is_truth word.now }
{
    same_folded(word, "TRUE") || same_folded(word, "FALSE")
}

// Whether the word is an address within the limits of a sheet.
fn is_address(word: &str) -> bool
    ensures { result ≡ is_inside (address_of word.now) }
{
    match read_address(word.as_bytes()) {
        Some((row, col)) => row < ROWS && col < COLS,
        None => false,
    }
}
