// Texts, and their ASCII letters in one case.
ghost use Rattle.std.specs.Prelude.{◌≡◌, ◌↔◌, ℕ, List, [], Option, IfOk, IfSome, IfNone, IsTrue, IsUtf8, bytes_eq, MatchOption};
ghost use Rattle.std.specs.Char.{to_ascii_lowercase};
ghost use Rattle.std.specs.Cmp.{partial_equiv_from_equiv};
ghost use Rattle.std.specs.Cmp.Lexicographic.{nat_list_eq_equiv};
ghost use Rattle.std.specs.String.{string_bytes};
ghost use Rattle.cell_addr.specs.Text.{folded, capitals};

use std::alloc::{AllocError, Global};
use std::marker::Model;

/// A text: UTF-8, seen as the list of its bytes.
#[derive(Drop, Debug)]
pub struct Text {
    content: String,
}

impl Model for Text {
    ghost Value = { List ℕ };

    ghost view = { λ t. string_bytes t.content };
}

impl PartialEq for Text {
    ghost eq = { bytes_eq };

    ghost laws = { partial_equiv_from_equiv nat_list_eq_equiv };

    fn eq(&self, other: &Text) -> bool {
        self.as_str() == other.as_str()
    }
}

impl Eq for Text {
    ghost laws = { nat_list_eq_equiv };
}

impl Text {
    /// The text that the string holds.
    pub fn new(content: String) -> Text
        ensures { result ≡ string_bytes content }
    {
        Text { content }
    }

    /// A copy of the characters.
    pub fn from_str(alloc: Global, text: &str) -> Result<Text, AllocError>
        ensures { IfOk result (λ copy. copy ≡ text.now) }
    {
        Ok(Text {
            content: String::from_str(alloc, text)?,
        })
    }

    /// The text that the bytes are, or `None` where they aren't UTF-8.
    pub fn from_utf8(alloc: Global, bytes: &[u8]) -> Result<Option<Text>, AllocError>
        ensures text { IfOk result (λ read. IfSome read (λ text. text ≡ bytes.now)) }
        ensures utf8 { IfOk result (λ read. MatchOption read (¬ (IsUtf8 bytes.now)) (λ _. IsUtf8 bytes.now)) }
    {
        match str::from_utf8(bytes) {
            Ok(text) => {
                let copy = Text::from_str(alloc, text)?;
                Ok(Some(copy))
            }
            Err(_) => Ok(None),
        }
    }

    /// The characters.
    pub fn as_str(&self) -> &str
        ensures { result.now ≡ self.now }
    {
        self.content.as_str()
    }

    /// The bytes of the characters.
    pub fn as_bytes(&self) -> &[u8]
        ensures { result.now ≡ self.now }
    {
        self.content.as_bytes()
    }

    /// An equal text.
    pub fn copy(&self, alloc: Global) -> Result<Text, AllocError>
        ensures { IfOk result (λ copy. copy ≡ self.now) }
    {
        Text::from_str(alloc, self.as_str())
    }

    /// Whether the text has no characters.
    pub fn is_empty(&self) -> bool
        ensures { IsTrue result ↔ (self.now ≡ []) }
    {
        self.content.is_empty()
    }
}

/// The byte, made small where it is an ASCII capital.
pub fn fold_byte(byte: u8) -> u8
    ensures { result ≡ to_ascii_lowercase byte }
{
    byte.to_ascii_lowercase()
}

/// Whether the texts are equal where ASCII capitals count as small letters.
pub fn same_folded(a: &str, b: &str) -> bool
    ensures { IsTrue result ↔ (folded a.now ≡ folded b.now) }
{
    a.eq_ignore_ascii_case(b)
}

/// The text with each small ASCII letter made a capital.
pub fn capitals(alloc: Global, text: &str) -> Result<Text, AllocError>
    ensures { IfOk result (λ raised. raised ≡ capitals text.now) }
{
    let mut content = String::from_str(alloc, text)?;
    content.make_ascii_uppercase();
    Ok(Text { content })
}
