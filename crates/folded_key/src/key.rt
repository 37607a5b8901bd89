// Texts that are compared and hashed with their ASCII letters folded.
ghost use Rattle.std.specs.Prelude.{◌≡◌, fold};
ghost use Rattle.std.specs.Cmp.{partial_equiv_from_equiv};
ghost use Rattle.std.specs.Cmp.Lexicographic.{on_texts_equal, bytes_decides};
ghost use Rattle.std.proofs.Common.{ap};
ghost use Rattle.cell_addr.specs.Sheets.{same_name};
ghost use Rattle.cell_addr.specs.Text.{folded};
ghost use Rattle.folded_key.specs.Key.{text_of, fed_text};

use cell_addr::{Text, fold_byte, same_folded};
use std::hash::{Hash, Hasher};

/// A text that is compared and hashed with its ASCII letters folded.
#[derive(Drop)]
pub enum FoldedKey<'a> {
    /// The text of an entry of the table.
    Own(Text),
    /// A text that is looked up.
    Asked(&'a str),
}

impl FoldedKey<'_> {
    /// The text of the key, as it was given.
    pub fn as_str(&self) -> &str
        ensures { result.now ≡ text_of self.now }
    {
        match self {
            FoldedKey::Own(text) => text.as_str(),
            FoldedKey::Asked(text) => text,
        }
    }
}

impl PartialEq for FoldedKey<'_> {
    ghost eq = { λ a b. same_name (text_of a) (text_of b) };

    ghost laws = { partial_equiv_from_equiv (on_texts_equal (λ a. folded (text_of a))) };

    fn eq(&self, other: &Self) -> bool {
        same_folded(self.as_str(), other.as_str())
    }
}

impl Eq for FoldedKey<'_> {
    ghost laws = { on_texts_equal (λ a. folded (text_of a)) };
}

impl Hash for FoldedKey<'_> {
    ghost hash_input = { λ a. fed_text (folded (text_of a)) };

    ghost respects_eq = { λ a b h. ap fed_text ((bytes_decides (folded (text_of a)) (folded (text_of b))).0 h) };

    fn hash<H: Hasher>(&self, state: &mut H) {
        feed(self.as_str(), state);
    }
}

// Feeds the text to the hasher, folded.
fn feed<H: Hasher>(text: &str, state: &mut H)
    ensures { state.new ≡ fold H.write state.old (fed_text (folded text.now)) }
{
    'bytes: for byte in text.as_bytes() {
        state.write_u8(fold_byte(*byte));
    }
}
