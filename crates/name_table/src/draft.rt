// Changes of names and sheets that are made on the side.
ghost use Rattle.std.specs.Prelude.{◌≡◌, ◌≤◌, ◌<◌, ℕ, List, [], Some, OnOk, insert, length, option_map, unwrap_or};
ghost use Rattle.cell_addr.specs.Sheets.{AreSheets};
ghost use Rattle.name_table.specs.Listed.{listed};
ghost use Rattle.name_table.specs.Scopes.{NameMap, key_of, with_holder};
ghost use Rattle.name_table.specs.SheetLists.{CanJoin, left_in};

use crate::copy::copied_sheets;
use crate::key::NameKey;
use crate::names::{Names, put_in, take_out};
use cell_addr::Text;
use indexmap::IndexMap;
use std::alloc::{AllocError, Global};
use std::collections::BTreeMap;

/// Changes of names and of the list of sheets that are made on the side, one after the other, and then put in place together, by
/// [`Names::begin`] and [`Names::finish`].
///
/// A draft holds what each changed name has in the end, and a copy of the list of sheets once that changes. So no other name is
/// looked at. It is of no more use after a call that failed.
#[derive(Drop)]
pub struct NameDraft {
    alloc: Global,
    // The holder of each changed name, and `None` where it goes.
    pub(crate) names: BTreeMap<NameKey, Option<u64>>,
    // The list of sheets, if it changes.
    pub(crate) sheets: Option<IndexMap<u32, Text>>,
    ghost proper: { AreSheets (unwrap_or (option_map (λ s. s.entries) sheets) []) },
}

impl NameDraft {
    ghost use Rattle.name_table.specs.Drafts.{HasKnownWords, names_drafted, sheets_drafted};

    /// A draft without changes. Takes no memory.
    pub fn new(alloc: Global) -> NameDraft
        ensures names { (names : NameMap) → names_drafted result names ≡ names }
        ensures sheets { (sheets : List (ℕ × List ℕ)) → sheets_drafted result sheets ≡ sheets }
        ensures known { (words : List (List ℕ)) → HasKnownWords words result }
    {
        NameDraft {
            alloc,
            names: BTreeMap::new(alloc),
            sheets: None,
        }
    }

    /// Gives the scope's name of the word a holder, or takes it away. Costs the logarithm of the number of changed names.
    pub fn set(
        &mut self,
        scope: Option<u32>,
        word: u64,
        holder: Option<u64>,
    ) -> Result<(), AllocError>
        ensures names { OnOk result ((names : NameMap) → names_drafted self.new names ≡ with_holder (key_of scope word) holder (names_drafted self.old names)) }
        ensures known { OnOk result ((words : List (List ℕ)) → word < length words → HasKnownWords words self.old → HasKnownWords words self.new) }
        ensures sheets { self.new.sheets ≡ self.old.sheets }
    {
        self.names.insert(NameKey { scope, word }, holder)?;
        Ok(())
    }

    /// Puts a sheet into the list so that it stands at the index. The number is no sheet's yet, and so is the name, folded. The
    /// table is the one that the draft is made for. Costs about the number of sheets.
    pub fn add_sheet(
        &mut self,
        names: &Names,
        index: usize,
        id: u32,
        name: &str,
    ) -> Result<(), AllocError>
        requires index { index ≤ length (sheets_drafted self.old (listed names.now)) }
        requires new { CanJoin id name.now (sheets_drafted self.old (listed names.now)) }
        ensures sheets { OnOk result (sheets_drafted self.new (listed names.now) ≡ insert (sheets_drafted self.old (listed names.now)) index (id, name.now)) }
        ensures names { self.new.names ≡ self.old.names }
    {
        self.copy_sheets(names)?;
        let name = Text::from_str(self.alloc, name)?;
        match &mut self.sheets {
            Some(sheets) => put_in(sheets, index, id, name),
            None => unreachable!(),
        }
    }

    /// Takes the sheet of this number out of the list, if it is listed. The table is the one that the draft is made for. Costs
    /// about the number of sheets.
    pub fn remove_sheet(&mut self, names: &Names, id: u32) -> Result<(), AllocError>
        ensures sheets { OnOk result (sheets_drafted self.new (listed names.now) ≡ left_in id (sheets_drafted self.old (listed names.now))) }
        ensures names { self.new.names ≡ self.old.names }
    {
        self.copy_sheets(names)?;
        match &mut self.sheets {
            Some(sheets) => take_out(sheets, id),
            None => unreachable!(),
        };
        Ok(())
    }

    // Copies the list of sheets, unless that was done.
    fn copy_sheets(&mut self, names: &Names) -> Result<(), AllocError>
        ensures sheets { OnOk result (option_map (λ s. s.entries) self.new.sheets ≡ Some (sheets_drafted self.old (listed names.now))) }
        ensures names { self.new.names ≡ self.old.names }
    {
        if self.sheets.is_none() {
            self.sheets = Some(copied_sheets(self.alloc, &names.sheets)?);
        }
        Ok(())
    }
}
