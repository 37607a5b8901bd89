// Words and named expressions.
ghost use Rattle.std.specs.Prelude.{◌≡◌, ◌<◌, IfOk, IfSome, IsOk, IsSome, OnOk, OnErr, length, slice_get, option_copied};
ghost use Rattle.std.specs.FinMap as map;
ghost use Rattle.name_table.specs.Named.{KeepsSheets, items_of, names_of, words_of};
ghost use Rattle.name_table.specs.Scopes.{found, found_in, in_scope, key_of};
ghost use Rattle.name_table.specs.Words.{number_in, with_word};

use crate::key::NameKey;
use crate::list::NameList;
use crate::names::Names;
use cell_addr::Text;
use std::alloc::AllocError;

impl Names {
    /// The number of the text's word: the place, in the list of words, of the text with its ASCII capitals made small, which goes
    /// to the end where it is new. No word is ever removed. For want of memory the list is as it was. Costs about the length
    /// of the text.
    pub fn word(&mut self, text: &str) -> Result<u64, AllocError>
        ensures number { IfOk result (λ word. number_in (words_of self.new) text.now ≡ Some word) }
        ensures within { IfOk result (λ word. word < length (words_of self.new)) }
        ensures ok { OnOk result (words_of self.new ≡ with_word text.now (words_of self.old)) }
        ensures err { OnErr result (words_of self.new ≡ words_of self.old) }
        ensures names { names_of self.new ≡ names_of self.old }
        ensures sheets { KeepsSheets self.old self.new }
    {
        self.words.word(text)
    }

    /// The number of the text's word; `None` where the list has no such word. Takes no memory, and costs about the length of
    /// the text.
    pub fn known(&self, text: &str) -> Option<u64>
        ensures number { result ≡ number_in (words_of self.now) text.now }
        ensures within { IfSome result (λ word. word < length (words_of self.now)) }
    {
        self.words.known(text)
    }

    /// The text of a word, in small letters; `None` where no word has the number.
    pub fn spelling(&self, word: u64) -> Option<&Text>
        ensures { option_copied result ≡ slice_get (words_of self.now) word }
    {
        self.words.spelling(word)
    }

    /// Gives the scope a name of the word, with a holder, in place of the holder that the name had. The word is known. Where the
    /// name had one this takes no memory. For want of memory the table is as it was. Costs the logarithm of the number of names.
    pub fn add(&mut self, scope: Option<u32>, word: u64, holder: u64) -> Result<(), AllocError>
        requires known { word < length (words_of self.old) }
        ensures ok { OnOk result (names_of self.new ≡ map.insert (names_of self.old) (key_of scope word) holder) }
        ensures err { OnErr result (names_of self.new ≡ names_of self.old) }
        ensures held { IsSome (map.get (names_of self.old) (key_of scope word)) → IsOk result }
        ensures words { words_of self.new ≡ words_of self.old }
        ensures sheets { KeepsSheets self.old self.new }
    {
        self.holders.insert(NameKey { scope, word }, holder)?;
        Ok(())
    }

    /// Takes the scope's own name of the word away, and answers its holder. `None` where the scope has none. The word stays.
    /// Costs the logarithm of the number of names.
    pub fn remove(&mut self, scope: Option<u32>, word: u64) -> Option<u64>
        ensures holder { result ≡ map.get (names_of self.old) (key_of scope word) }
        ensures removed { names_of self.new ≡ map.remove (names_of self.old) (key_of scope word) }
        ensures words { words_of self.new ≡ words_of self.old }
        ensures sheets { KeepsSheets self.old self.new }
    {
        self.holders.remove(&NameKey { scope, word })
    }

    /// The holder of the scope's own name of the word; `None` where the scope has none. Costs the logarithm of the number of names.
    pub fn holder(&self, scope: Option<u32>, word: u64) -> Option<u64>
        ensures { result ≡ map.get (names_of self.now) (key_of scope word) }
    {
        self.holders.get(&NameKey { scope, word }).copied()
    }

    /// The name that the word finds on the sheet, by its scope and holder: the sheet's own, else that of the whole workbook.
    /// `None` where neither has one. Costs the logarithm of the number of names.
    pub fn find(&self, word: u64, sheet: u32) -> Option<(Option<u32>, u64)>
        ensures { result ≡ found (names_of self.now) word sheet }
    {
        match self.find_in(word, Some(sheet)) {
            Some(name) => Some(name),
            None => self.find_in(word, None),
        }
    }

    // The scope's own name of the word, by its scope and holder.
    fn find_in(&self, word: u64, scope: Option<u32>) -> Option<(Option<u32>, u64)>
        ensures { result ≡ found_in (names_of self.now) word scope }
    {
        let holder = self.holder(scope, word)?;
        Some((scope, holder))
    }

    /// Word and holder of each name of the scope, by the words' numbers. Costs about the number of these names.
    pub fn listed(&self, scope: Option<u32>) -> Result<NameList, AllocError>
        ensures { IfOk result (λ list. items_of list ≡ in_scope scope (names_of self.now)) }
    {
        let mut list = NameList::new(self.alloc)?;
        'names: for (key, holder) in self.holders.range(NameKey { scope, word: 0 }..) {
            if key.scope != scope {
                break 'names;
            }
            list.push(key.word, *holder)?;
        }
        Ok(list)
    }

    /// All named expressions with their holders, in the order of their keys. Costs their number.
    pub fn all(&self) -> Result<Vec<(NameKey, u64)>, AllocError>
        ensures { IfOk result (λ list. list.items ≡ map.entries (names_of self.now)) }
    {
        let mut list = Vec::new(self.alloc);
        'names: for (key, holder) in &self.holders {
            list.push((*key, *holder))?;
        }
        Ok(list)
    }
}
