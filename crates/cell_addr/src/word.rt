// The form of names and of functions' words.
ghost use Rattle.std.specs.Prelude.{◌≡◌, ◌||◌, ◌==◌};
ghost use Rattle.std.specs.List.{list_all};
ghost use Rattle.std.specs.Char.{is_ascii_alphanumeric};
ghost use Rattle.cell_addr.specs.Word.{is_word};

/// Whether the text has the form of a name and of a function's word: a letter or `_`, followed by letters,
/// digits, `_` and `.`. Source: this project's own.
pub fn is_word(text: &[u8]) -> bool
    ensures { result ≡ is_word text.now }
{
    match text {
        [first, rest @ ..] => (first.is_ascii_alphabetic() || *first == b'_')
            && all_word_bytes(rest),
        [] => false,
    }
}

// Whether each byte may stand in a word.
fn all_word_bytes(text: &[u8]) -> bool
    ensures { result ≡ list_all (λ d. is_ascii_alphanumeric d || (d == 95 || d == 46)) text.now }
{
    text.iter().all(|c| is_word_byte(*c))
}

// Whether the byte may stand in a word.
fn is_word_byte(c: u8) -> bool
    ensures { result ≡ (is_ascii_alphanumeric c || (c == 95 || c == 46)) }
{
    c.is_ascii_alphanumeric() || (c == b'_' || c == b'.')
}
