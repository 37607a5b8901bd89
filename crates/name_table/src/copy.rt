// Copies of a table of names.
ghost use Rattle.std.specs.Prelude.{◌≡◌, IfOk, OnOk};
ghost use Rattle.std.specs.BTreeMap.{insert_entry};
ghost use Rattle.cell_addr.specs.Sheets.{AreSheets};
ghost use Rattle.name_table.specs.Listed.{listed};
ghost use Rattle.name_table.specs.Named.{KeepsNames};
ghost use Rattle.name_table.specs.Scopes.{key_cmp};

use crate::key::NameKey;
use crate::names::{Names, put_in};
use cell_addr::Text;
use indexmap::IndexMap;
use std::alloc::{AllocError, Global};
use std::collections::BTreeMap;

impl Names {
    /// An equal table, with the same numbers of words. Costs about the size of the names.
    pub fn copied(&self) -> Result<Names, AllocError>
        ensures sheets { IfOk result (λ copy. listed copy ≡ listed self.now) }
        ensures names { IfOk result (λ copy. KeepsNames self.now copy) }
    {
        Ok(Names {
            alloc: self.alloc,
            sheets: copied_sheets(self.alloc, &self.sheets)?,
            words: self.words.copied()?,
            holders: copied_holders(self.alloc, &self.holders)?,
        })
    }
}

// An equal list of sheets.
pub(crate) fn copied_sheets(
    alloc: Global,
    sheets: &IndexMap<u32, Text>,
) -> Result<IndexMap<u32, Text>, AllocError>
    requires { AreSheets sheets.now.entries }
    ensures sheets { IfOk result (λ copy. copy.entries ≡ sheets.now.entries) }
    ensures proper { IfOk result (λ copy. AreSheets copy.entries) }
{
    let mut copy = IndexMap::new(alloc);
    'sheets: for (id, name) in sheets.iter() {
        let index = copy.len();
        let name = name.copy(alloc)?;
        put_in(&mut copy, index, *id, name)?;
    }
    Ok(copy)
}

// The same holders under the same keys.
fn copied_holders(
    alloc: Global,
    holders: &BTreeMap<NameKey, u64>,
) -> Result<BTreeMap<NameKey, u64>, AllocError>
    ensures { IfOk result (λ copy. copy.entries ≡ holders.now.entries) }
{
    let mut copy = BTreeMap::new(alloc);
    'names: for (key, holder) in holders {
        keep(&mut copy, *key, *holder)?;
    }
    Ok(copy)
}

// Keeps a holder under a key.
fn keep(holders: &mut BTreeMap<NameKey, u64>, key: NameKey, holder: u64) -> Result<(), AllocError>
    ensures { OnOk result (holders.new.entries ≡ insert_entry key_cmp holders.old.entries key holder) }
{
    holders.insert(key, holder)?;
    Ok(())
}
