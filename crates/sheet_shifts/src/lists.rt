// Lists of a run's operations, for each sheet.
ghost use Rattle.std.specs.Prelude.{◌≡◌, ◌≤◌, ◌==◌, ◌++◌, ◌∷◌, [], ℕ, List, Option, OnOk, length, drop, nat_lt, if◌then◌else◌};
ghost use Rattle.shift_core.specs.declared.shift.Shift.{Shift};
ghost use Rattle.sheet_shifts.specs.Listed.{ArePicked, list_in, listed};

use crate::entry::Entry;
use cell_addr::Axis;
use shift_core::{Edit, Form, Shift};
use std::alloc::{AllocError, Global};
use std::collections::BTreeMap;

// For each sheet the edits of its rows, those of its columns, and the other operations that meet it, in order.
pub(crate) struct Lists {
    pub(crate) rows: BTreeMap<u32, Vec<Entry<Edit>>>,
    pub(crate) cols: BTreeMap<u32, Vec<Entry<Edit>>>,
    pub(crate) others: BTreeMap<u32, Vec<Entry<Shift>>>,
}

impl Drop for Lists {
    fn drop(self) {
        let Lists {
            rows: _rows,
            cols: _cols,
            others: _others,
        } = self;
    }
}

impl Lists {
    ghost use Rattle.sheet_shifts.specs.Listed.{longer};
    ghost use Rattle.sheet_shifts.specs.Met.{col_edit, other, row_edit};

    // The lists of no operations.
    pub(crate) fn new(alloc: Global) -> Lists
        ensures rows { (sheet : ℕ) → list_in result.rows sheet ≡ [] }
        ensures cols { (sheet : ℕ) → list_in result.cols sheet ≡ [] }
        ensures others { (sheet : ℕ) → list_in result.others sheet ≡ [] }
    {
        Lists {
            rows: BTreeMap::new(alloc),
            cols: BTreeMap::new(alloc),
            others: BTreeMap::new(alloc),
        }
    }

    // Lists the operation on the sheets that it meets.
    pub(crate) fn add(
        &mut self,
        alloc: Global,
        index: usize,
        shift: Shift,
    ) -> Result<(), AllocError>
        ensures rows { OnOk result ((sheet : ℕ) → list_in self.new.rows sheet ≡ longer (list_in self.old.rows sheet) index (row_edit sheet shift)) }
        ensures cols { OnOk result ((sheet : ℕ) → list_in self.new.cols sheet ≡ longer (list_in self.old.cols sheet) index (col_edit sheet shift)) }
        ensures others { OnOk result ((sheet : ℕ) → list_in self.new.others sheet ≡ longer (list_in self.old.others sheet) index (other sheet shift)) }
    {
        match shift.form() {
            Form::Lines {
                sheet,
                axis: Axis::Rows,
                edit,
            } => list_on(alloc, &mut self.rows, sheet, Entry { index, what: edit }),
            Form::Lines {
                sheet,
                axis: Axis::Cols,
                edit,
            } => list_on(alloc, &mut self.cols, sheet, Entry { index, what: edit }),
            Form::Cells { source, to } => {
                let entry = Entry { index, what: shift };
                list_on(alloc, &mut self.others, source.sheet, entry)?;
                if to.sheet != source.sheet {
                    list_on(alloc, &mut self.others, to.sheet, entry)?;
                }
                Ok(())
            }
            Form::Sheet { sheet } => {
                list_on(alloc, &mut self.others, sheet, Entry { index, what: shift })
            }
        }
    }
}

// A sheet's list from the index on.
pub(crate) fn on_sheet<T: Copy>(
    lists: &BTreeMap<u32, Vec<Entry<T>>>,
    sheet: u32,
    from: usize,
) -> &[Entry<T>]
    ensures { (pick : ℕ → Shift → Option T) (run : List Shift) → ArePicked pick run lists.now → from ≤ length run → result.now ≡ listed (pick sheet) from (drop from run) }
{
    match lists.get(&sheet) {
        Some(list) => entries_from(list, from),
        None => &[],
    }
}

// Those of a list from the index on.
fn entries_from<T: Copy>(list: &[Entry<T>], from: usize) -> &[Entry<T>]
    ensures { (pick : Shift → Option T) (run : List Shift) → list.now ≡ listed pick 0 run → from ≤ length run → result.now ≡ listed pick from (drop from run) }
{
    let start = list.partition_point(
        |entry: &Entry<T>| -> bool
            ensures { result ≡ nat_lt entry.now.index from }
        { entry.index < from },
    );
    &list[start..]
}

// Puts the entry at the end of the sheet's list.
fn list_on<T: Copy>(
    alloc: Global,
    lists: &mut BTreeMap<u32, Vec<Entry<T>>>,
    sheet: u32,
    entry: Entry<T>,
) -> Result<(), AllocError>
    ensures { OnOk result ((at : ℕ) → list_in lists.new at ≡ (if at == sheet then list_in lists.old at ++ entry ∷ [] else list_in lists.old at)) }
{
    if !lists.contains_key(&sheet) {
        lists.insert(sheet, Vec::new(alloc))?;
    }
    if let Some(list) = lists.get_mut(&sheet) {
        list.push(entry)?;
    }
    Ok(())
}
