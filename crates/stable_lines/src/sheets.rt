// The lines of each sheet of a workbook along one axis.
ghost use Rattle.std.specs.Prelude.{◌≡◌, ℕ, unwrap_or};
ghost use Rattle.std.specs.BTreeMap as tree;
ghost use Rattle.std.specs.Ordering.{nat_cmp};

use crate::table::LineTable;
use std::alloc::{AllocError, Global};
use std::collections::BTreeMap;

/// The lines of each sheet of a workbook along one axis. A sheet that was never edited has each line at the position of its own number.
pub struct SheetLines {
    plain: LineTable,
    edited: BTreeMap<u32, LineTable>,
    pub ghost limits: { (sheet : ℕ) → (unwrap_or (tree.get nat_cmp edited sheet) plain).limit ≡ plain.limit },
}

// Written out, so that whoever drops one calls one function.
impl Drop for SheetLines {
    fn drop(self) {
        let SheetLines {
            plain: _plain,
            edited: _edited,
        } = self;
    }
}

impl SheetLines {
    ghost use Rattle.std.specs.Prelude.{◌==◌, false, IfOk, IsSome, OnOk, OnErr};
    ghost use Rattle.stable_lines.specs.Lines.{AreSame, first_line, line_at, position_of};
    ghost use Rattle.stable_lines.specs.Sheets.{AreUnchanged, HasRoom, table_of};

    /// The lines of sheets with this many positions, none of them edited yet.
    pub fn new(alloc: Global, limit: u32) -> Result<SheetLines, AllocError>
        ensures limit { IfOk result (λ s. s.plain.limit ≡ limit) }
        ensures lines { IfOk result (λ s. (sheet x : ℕ) → line_at (table_of s sheet) x ≡ first_line limit x) }
        ensures positions { IfOk result (λ s. (sheet x : ℕ) → position_of (table_of s sheet) x ≡ first_line limit x) }
    {
        Ok(SheetLines {
            plain: LineTable::new(alloc, limit)?,
            edited: BTreeMap::new(alloc),
        })
    }

    /// The lines of the sheet.
    pub fn table(&self, sheet: u32) -> &LineTable
        ensures { result.now ≡ table_of self.now sheet }
    {
        match self.edited.get(&sheet) {
            Some(table) => table,
            None => &self.plain,
        }
    }

    /// Keeps a table of its own for the sheet, with the lines that it has, so that `replace` takes no memory. For want
    /// of memory all is as it was.
    pub fn reserve(&mut self, sheet: u32) -> Result<(), AllocError>
        ensures unchanged { AreUnchanged self.old self.new }
        ensures limit { self.new.plain.limit ≡ self.old.plain.limit }
        ensures room { OnOk result (HasRoom self.new sheet) }
    {
        if !self.edited.contains_key(&sheet) {
            let table = self.plain.clone()?;
            self.edited.insert(sheet, table)?;
        }
        Ok(())
    }

    /// Puts another table in place of the one that is kept for the sheet. Takes no memory.
    pub fn replace(&mut self, sheet: u32, table: LineTable)
        requires room { HasRoom self.old sheet }
        requires limit { table.limit ≡ self.old.plain.limit }
        ensures replaced { table_of self.new sheet ≡ table }
        ensures others { (other : ℕ) → (other == sheet) ≡ false → table_of self.new other ≡ table_of self.old other }
        ensures limit { self.new.plain.limit ≡ self.old.plain.limit }
        ensures room { HasRoom self.new sheet }
    {
        if let Some(kept) = self.edited.get_mut(&sheet) {
            *kept = table;
        }
    }

    /// Equal tables.
    pub fn copied(&self) -> Result<SheetLines, AllocError>
        ensures unchanged { IfOk result (AreUnchanged self.now) }
        ensures limit { IfOk result (λ s. s.plain.limit ≡ self.now.plain.limit) }
    {
        Ok(SheetLines {
            plain: self.plain.clone()?,
            edited: self.edited.clone()?,
        })
    }
}
