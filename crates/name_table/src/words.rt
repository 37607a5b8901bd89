// The list of words.
ghost use Rattle.std.specs.Prelude.{◌≡◌, ◌++◌, ◌∷◌, [], ◌<◌, IfOk, IfSome, OnOk, OnErr, length, map, position, slice_get, option_copied, None};
ghost use Rattle.cell_addr.specs.Sheets.{same_name};
ghost use Rattle.cell_addr.specs.Text.{folded};
ghost use Rattle.folded_key.specs.Key.{text_of};
ghost use Rattle.name_table.specs.Words.{AreWords, number_in, with_word};
ghost use Rattle.name_table.specs.internal.Spellings.{AreOwn};

use cell_addr::Text;
use folded_key::FoldedKey;
use indexmap::IndexSet;
use std::alloc::{AllocError, Global};

// Texts in small letters, each once, numbered by their places.
#[derive(Drop)]
pub(crate) struct Words {
    alloc: Global,
    spellings: IndexSet<FoldedKey<'static>>,
    ghost own: { AreOwn spellings.keys },
    pub ghost proper: { AreWords (map text_of spellings.keys) },
}

impl Words {
    ghost use Rattle.name_table.specs.internal.WordList.{words_in};

    // No words.
    pub(crate) fn new(alloc: Global) -> Words
        ensures { words_in result ≡ [] }
    {
        Words {
            alloc,
            spellings: IndexSet::new(alloc),
        }
    }

    // The number of a text's word, if it has one.
    pub(crate) fn known(&self, text: &str) -> Option<u64>
        ensures number { result ≡ number_in (words_in self.now) text.now }
        ensures within { IfSome result (λ word. word < length (words_in self.now)) }
    {
        match place_of(&self.spellings, text) {
            Some(index) => Some(index as u64),
            None => None,
        }
    }

    // The number of a text's word, which is put at the end where it is new.
    pub(crate) fn word(&mut self, text: &str) -> Result<u64, AllocError>
        ensures number { IfOk result (λ word. number_in (words_in self.new) text.now ≡ Some word) }
        ensures within { IfOk result (λ word. word < length (words_in self.new)) }
        ensures ok { OnOk result (words_in self.new ≡ with_word text.now (words_in self.old)) }
        ensures err { OnErr result (words_in self.new ≡ words_in self.old) }
    {
        match self.known(text) {
            Some(number) => Ok(number),
            None => self.put(text),
        }
    }

    // Puts the word of a text that has none at the end, and answers its number.
    fn put(&mut self, text: &str) -> Result<u64, AllocError>
        requires { number_in (words_in self.old) text.now ≡ None }
        ensures number { IfOk result (λ word. number_in (words_in self.new) text.now ≡ Some word) }
        ensures within { IfOk result (λ word. word < length (words_in self.new)) }
        ensures ok { OnOk result (words_in self.new ≡ words_in self.old ++ folded text.now ∷ []) }
        ensures err { OnErr result (words_in self.new ≡ words_in self.old) }
    {
        let number = self.spellings.len() as u64;
        let spelling = small(self.alloc, text)?;
        put_last(&mut self.spellings, spelling)?;
        Ok(number)
    }

    // The text of the word of this number.
    pub(crate) fn spelling(&self, word: u64) -> Option<&Text>
        ensures { option_copied result ≡ slice_get (words_in self.now) word }
    {
        match self.spellings.get_index(word as usize)? {
            FoldedKey::Own(text) => Some(text),
            FoldedKey::Asked(_) => None,
        }
    }

    // An equal list.
    pub(crate) fn copied(&self) -> Result<Words, AllocError>
        ensures { IfOk result (λ copy. words_in copy ≡ words_in self.now) }
    {
        let mut copy = Words::new(self.alloc);
        'words: for spelling in self.spellings.iter() {
            copy.word(spelling.as_str())?;
        }
        Ok(copy)
    }
}

// Where a text stands that is the same but for the case of its ASCII letters.
fn place_of<'n>(spellings: &IndexSet<FoldedKey<'n>>, text: &'n str) -> Option<usize>
    ensures place { result ≡ position (λ key. same_name text.now (text_of key)) spellings.now.keys }
    ensures within { IfSome result (λ place. place < length spellings.now.keys) }
{
    spellings.get_index_of(&FoldedKey::Asked(text))
}

// Puts a text in small letters, which is new, at the end.
fn put_last(spellings: &mut IndexSet<FoldedKey<'static>>, text: Text) -> Result<(), AllocError>
    requires own { AreOwn spellings.old.keys }
    requires proper { AreWords (map text_of spellings.old.keys) }
    requires small { folded text ≡ text }
    requires new { number_in (map text_of spellings.old.keys) text ≡ None }
    ensures own { AreOwn spellings.new.keys }
    ensures proper { AreWords (map text_of spellings.new.keys) }
    ensures ok { OnOk result (map text_of spellings.new.keys ≡ map text_of spellings.old.keys ++ text ∷ []) }
    ensures err { OnErr result (spellings.new.keys ≡ spellings.old.keys) }
{
    spellings.insert(FoldedKey::Own(text))?;
    Ok(())
}

// The text with each ASCII capital made small.
fn small(alloc: Global, text: &str) -> Result<Text, AllocError>
    ensures { IfOk result (λ made. made ≡ folded text.now) }
{
    let mut content = String::from_str(alloc, text)?;
    content.make_ascii_lowercase();
    Ok(Text::new(content))
}
