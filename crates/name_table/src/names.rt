// Tables of names, and the calls on their list of sheets.
ghost use Rattle.std.specs.Prelude.{◌≡◌, ◌≤◌, ◌↔◌, ◌<◌, IfOk, OnOk, OnErr, IsSome, IsTrue, [], insert, length, map, slice_get, option_map};
ghost use Rattle.cell_addr.specs.Sheets.{id_in, name_in, AreSheets};
ghost use Rattle.std.specs.BTreeMap as tree;
ghost use Rattle.folded_key.specs.Key.{text_of};
ghost use Rattle.name_table.specs.Scopes.{key_cmp};
ghost use Rattle.name_table.specs.SheetLists.{CanJoin, IsFree, renamed_in, left_in, index_in};
ghost use Rattle.name_table.specs.declared.key.NameKey.{NameKey};

use crate::key::NameKey;
use crate::words::Words;
use cell_addr::{SheetNames, Text, same_folded};
use indexmap::IndexMap;
use std::alloc::{AllocError, Global};
use std::collections::BTreeMap;

/// The sheets of a workbook by number and name, in order; words by their numbers; and holders of named expressions by
/// scope and word.
pub struct Names {
    pub(crate) alloc: Global,
    pub(crate) sheets: IndexMap<u32, Text>,
    pub(crate) words: Words,
    pub(crate) holders: BTreeMap<NameKey, u64>,
    ghost proper: { AreSheets sheets.entries },
    // The word of each named expression is known.
    pub ghost known: { (k : NameKey) → IsSome (tree.get key_cmp holders k) → k.word < length (map text_of words.spellings.keys) },
}

// Written out, so that whoever drops one calls one function.
impl Drop for Names {
    fn drop(self) {
        let Names {
            alloc: _,
            sheets: _sheets,
            words: _words,
            holders: _holders,
        } = self;
    }
}

impl Names {
    ghost use Rattle.name_table.specs.Listed.{listed};
    ghost use Rattle.name_table.specs.Named.{KeepsNames, names_of, words_of};
    ghost use Rattle.std.specs.FinMap as map;

    /// No sheets, no words and no named expressions.
    pub fn new(alloc: Global) -> Result<Names, AllocError>
        ensures sheets { IfOk result (λ names. listed names ≡ []) }
        ensures words { IfOk result (λ names. words_of names ≡ []) }
        ensures names { IfOk result (λ names. names_of names ≡ map.empty) }
    {
        Ok(Names {
            alloc,
            sheets: IndexMap::new(alloc),
            words: Words::new(alloc),
            holders: BTreeMap::new(alloc),
        })
    }

    /// How many sheets there are.
    pub fn len(&self) -> usize
        ensures { result ≡ length (listed self.now) }
    {
        self.sheets.len()
    }

    /// Whether there is no sheet.
    pub fn is_empty(&self) -> bool
        ensures { IsTrue result ↔ (listed self.now ≡ []) }
    {
        self.sheets.is_empty()
    }

    /// Puts a sheet into the list so that it stands at the index. The number is no sheet's yet, and so is the name,
    /// folded. Where there is no memory the list stays as it was. Costs about the number of sheets behind it.
    pub fn add_sheet(&mut self, index: usize, id: u32, name: &str) -> Result<(), AllocError>
        requires index { index ≤ length (listed self.old) }
        requires new { CanJoin id name.now (listed self.old) }
        ensures ok { OnOk result (listed self.new ≡ insert (listed self.old) index (id, name.now)) }
        ensures err { OnErr result (listed self.new ≡ listed self.old) }
        ensures names { KeepsNames self.old self.new }
    {
        let name = Text::from_str(self.alloc, name)?;
        put_in(&mut self.sheets, index, id, name)?;
        Ok(())
    }

    /// Gives a listed sheet another name, which no other sheet has, folded. Where there is no memory the list stays as it
    /// was.
    pub fn rename(&mut self, id: u32, name: &str) -> Result<(), AllocError>
        requires listed { IsSome (name_in (listed self.old) id) }
        requires free { IsFree id name.now (listed self.old) }
        ensures ok { OnOk result (listed self.new ≡ renamed_in id name.now (listed self.old)) }
        ensures err { OnErr result (listed self.new ≡ listed self.old) }
        ensures names { KeepsNames self.old self.new }
    {
        let name = Text::from_str(self.alloc, name)?;
        put_again(&mut self.sheets, id, name)?;
        Ok(())
    }

    /// Takes the sheet of this number out of the list, and answers where it stood and its name. `None` where no sheet has
    /// the number. Names of the sheet's own scope stay. Costs about the number of sheets behind it.
    pub fn remove_sheet(&mut self, id: u32) -> Option<(usize, Text)>
        ensures index { option_map (λ r. r.0) result ≡ index_in id (listed self.old) }
        ensures name { option_map (λ r. r.1) result ≡ name_in (listed self.old) id }
        ensures rest { listed self.new ≡ left_in id (listed self.old) }
        ensures names { KeepsNames self.old self.new }
    {
        take_out(&mut self.sheets, id)
    }

    /// The number of the sheet at this place of the list. `None` where the list is shorter.
    pub fn sheet_at(&self, index: usize) -> Option<u32>
        ensures { result ≡ option_map (λ s. s.0) (slice_get (listed self.now) index) }
    {
        let (id, _) = self.sheets.get_index(index)?;
        Some(*id)
    }
}

impl SheetNames for Names {
    ghost use Rattle.name_table.specs.Listed.{listed};

    ghost sheets = { listed };

    ghost are_sheets = { λ s. s.proper };

    // Costs about the number of sheets.
    fn id_of(&self, name: &str) -> Option<u32> {
        'sheets: for (id, own) in self.sheets.iter() {
            if same_folded(own.as_str(), name) {
                return Some(*id);
            }
        }
        None
    }

    fn name_of(&self, id: u32) -> Option<&Text> {
        self.sheets.get(&id)
    }
}

// Puts a sheet in at the index.
pub(crate) fn put_in(
    sheets: &mut IndexMap<u32, Text>,
    index: usize,
    id: u32,
    name: Text,
) -> Result<(), AllocError>
    requires proper { AreSheets sheets.old.entries }
    requires index { index ≤ length sheets.old.entries }
    requires new { CanJoin id name sheets.old.entries }
    ensures proper { AreSheets sheets.new.entries }
    ensures ok { OnOk result (sheets.new.entries ≡ insert sheets.old.entries index (id, name)) }
    ensures err { OnErr result (sheets.new.entries ≡ sheets.old.entries) }
{
    sheets.shift_insert(index, id, name)?;
    Ok(())
}

// Puts a listed sheet in again, with another name.
fn put_again(sheets: &mut IndexMap<u32, Text>, id: u32, name: Text) -> Result<(), AllocError>
    requires proper { AreSheets sheets.old.entries }
    requires listed { IsSome (name_in sheets.old.entries id) }
    requires free { IsFree id name sheets.old.entries }
    ensures proper { AreSheets sheets.new.entries }
    ensures ok { OnOk result (sheets.new.entries ≡ renamed_in id name sheets.old.entries) }
    ensures err { OnErr result (sheets.new.entries ≡ sheets.old.entries) }
{
    sheets.insert(id, name)?;
    Ok(())
}

// Takes a sheet out.
pub(crate) fn take_out(sheets: &mut IndexMap<u32, Text>, id: u32) -> Option<(usize, Text)>
    requires { AreSheets sheets.old.entries }
    ensures proper { AreSheets sheets.new.entries }
    ensures index { option_map (λ r. r.0) result ≡ index_in id sheets.old.entries }
    ensures name { option_map (λ r. r.1) result ≡ name_in sheets.old.entries id }
    ensures rest { sheets.new.entries ≡ left_in id sheets.old.entries }
{
    let (index, _, name) = sheets.shift_remove_full(&id)?;
    Some((index, name))
}
