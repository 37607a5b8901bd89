// Numbers filed under the slots of blocks.
ghost use Rattle.std.specs.Prelude.{◌≡◌, ◌<◌, ◌+◌, ◌++◌, ◌∷◌, ℕ, [], true, false, position, length, slice_set, IsTrue, IfOk, OnOk, OnErr};
ghost use Rattle.std.specs.Option.{option_to_list};
ghost use Rattle.block_slots.specs.Slots.{has_cell, in_block};
ghost use Rattle.needs_order.specs.Needs.{has, lists_of};
ghost use Rattle.block_index.specs.internal.Keys.{AreSized, has_size, in_slot, key_at, key_size, place_of, same_key};

use crate::key::SlotKey;
use block_slots::{Size, Slot, slots};
use indexmap::IndexSet;
use near_hash::NearHash;
use std::alloc::{AllocError, Global};
use std::ops::Range;

/// Numbers filed under the slots of blocks.
pub struct BlockIndex {
    alloc: Global,
    // The slots that have a list.
    slots: IndexSet<SlotKey, NearHash>,
    // For each of them the numbers that are filed under it.
    lists: Vec<Vec<usize>>,
    // The sizes of these slots, each once.
    sizes: Vec<Size>,
    pub ghost counts: { length lists.items ≡ length slots.keys },
    ghost sized: { AreSized slots.keys sizes.items },
}

// Written out, so that whoever drops one calls one function.
impl Drop for BlockIndex {
    fn drop(self) {
        let BlockIndex {
            alloc: _,
            slots: _slots,
            lists: _lists,
            sizes: _sizes,
        } = self;
    }
}

impl BlockIndex {
    ghost use Rattle.block_index.specs.Index.{Files, FindsAlike, filed_in, finds, in_cells, slot_count, slots_of};

    /// Nothing is filed.
    pub fn new(alloc: Global) -> BlockIndex
        ensures count { slot_count result ≡ 0 }
        ensures finds { (sheet row col n : ℕ) → finds result sheet row col n ≡ false }
    {
        BlockIndex {
            alloc,
            slots: IndexSet::with_hasher(alloc, NearHash::new()),
            lists: Vec::new(alloc),
            sizes: Vec::new(alloc),
        }
    }

    /// How many slots have a list; they are numbered from 0 on, and keep their numbers.
    pub fn len(&self) -> usize
        ensures { result ≡ slot_count self.now }
    {
        self.lists.as_slice().len()
    }

    /// The slots that hold the cell of a row and a column of a sheet, of those that have a list. Costs a look-up for
    /// each size of slots in use. Errs for want of memory.
    pub fn slots_at(&self, sheet: u32, row: u64, col: u64) -> Result<Vec<usize>, AllocError>
        ensures slots { IfOk result (λ slots. slots.items ≡ slots_of self.now sheet row col) }
        ensures inside { (s : ℕ) → has s (slots_of self.now sheet row col) ≡ true → s < slot_count self.now }
    {
        let mut found = Vec::new(self.alloc);
        'sizes: for size in &self.sizes {
            push_some(&mut found, self.slot_at(sheet, row, col, *size))?;
        }
        Ok(found)
    }

    // The slot of a size that holds the cell, where it has a list.
    fn slot_at(&self, sheet: u32, row: u64, col: u64, size: Size) -> Option<usize>
        ensures { result ≡ position (same_key (key_at sheet row col size)) self.now.slots.keys }
    {
        let slot = size.slot_at(row, col);
        self.slots.get_index_of(&SlotKey::of(sheet, slot))
    }

    /// The numbers that are filed under a slot, each as often as it was filed there.
    pub fn filed(&self, slot: usize) -> &[usize]
        requires { slot < slot_count self.now }
        ensures { result.now ≡ filed_in self.now slot }
    {
        &self.lists[slot]
    }

    /// Files the number under each slot of the rows by the columns of a sheet: their cells find it then. Where there is
    /// no memory some of them may find it. Costs the number of the slots.
    pub fn file(
        &mut self,
        sheet: u32,
        rows: Range<u64>,
        cols: Range<u64>,
        number: usize,
    ) -> Result<(), AllocError>
        ensures files { Files (in_cells sheet rows cols) number self.old self.new }
        ensures found { OnOk result ((row col : ℕ) → in_block rows cols row col ≡ true → finds self.new sheet row col number ≡ true) }
    {
        if is_line(rows.start, rows.end) && is_line(cols.start, cols.end) {
            let size = Size {
                row_level: 0,
                col_level: 0,
            };
            return self.file_under(sheet, size.slot_at(rows.start, cols.start), number);
        }
        self.file_cut(sheet, rows, cols, number)
    }

    // Files the number under each slot into which the rows by the columns of a sheet are cut.
    fn file_cut(
        &mut self,
        sheet: u32,
        rows: Range<u64>,
        cols: Range<u64>,
        number: usize,
    ) -> Result<(), AllocError>
        ensures files { Files (in_cells sheet rows cols) number self.old self.new }
        ensures found { OnOk result ((row col : ℕ) → in_block rows cols row col ≡ true → finds self.new sheet row col number ≡ true) }
    {
        let slots = slots(self.alloc, rows, cols)?;
        'slots: for slot in &slots {
            self.file_under(sheet, *slot, number)?;
        }
        Ok(())
    }

    // Files the number under a slot of a sheet.
    fn file_under(&mut self, sheet: u32, slot: Slot, number: usize) -> Result<(), AllocError>
        ensures files { Files (in_slot sheet slot) number self.old self.new }
        ensures found { OnOk result ((row col : ℕ) → has_cell slot row col ≡ true → finds self.new sheet row col number ≡ true) }
    {
        let place = self.slot_under(SlotKey::of(sheet, slot))?;
        self.push_at(place, number)
    }

    // Counts a size among those in use.
    fn use_size(&mut self, size: Size) -> Result<(), AllocError>
        ensures alike { FindsAlike self.old self.new }
        ensures slots { self.new.slots ≡ self.old.slots }
        ensures lists { self.new.lists ≡ self.old.lists }
        ensures size { OnOk result (has_size size self.new.sizes.items ≡ true) }
    {
        if !self.sizes.contains(&size) {
            self.sizes.push(size)?;
        }
        Ok(())
    }

    // The number of the slot under a key, which gets a list where it has none.
    fn slot_under(&mut self, key: SlotKey) -> Result<usize, AllocError>
        ensures alike { FindsAlike self.old self.new }
        ensures size { OnOk result (has_size (key_size key) self.new.sizes.items ≡ true) }
        ensures place { IfOk result (λ place. place ≡ place_of self.new.slots.keys key) }
        ensures inside { IfOk result (λ place. place < length self.new.slots.keys) }
    {
        match self.slots.get_index_of(&key) {
            Some(place) => Ok(place),
            None => {
                self.use_size(key.size())?;
                self.add_slot(key)
            }
        }
    }

    // Gives a list to the slot under a key, which has none, and answers its number.
    fn add_slot(&mut self, key: SlotKey) -> Result<usize, AllocError>
        requires size { has_size (key_size key) self.old.sizes.items ≡ true }
        requires new { length self.old.slots.keys ≡ place_of self.old.slots.keys key }
        ensures alike { FindsAlike self.old self.new }
        ensures sizes { self.new.sizes ≡ self.old.sizes }
        ensures place { IfOk result (λ place. place ≡ place_of self.new.slots.keys key) }
        ensures inside { IfOk result (λ place. place < length self.new.slots.keys) }
    {
        let place = self.len();
        self.lists.reserve(1)?;
        self.slots.insert(key)?;
        self.lists.push_reserved(Vec::new(self.alloc));
        Ok(place)
    }

    // Puts the number at the end of a list.
    fn push_at(&mut self, place: usize, number: usize) -> Result<(), AllocError>
        requires { place < length self.old.lists.items }
        ensures slots { self.new.slots ≡ self.old.slots }
        ensures sizes { self.new.sizes ≡ self.old.sizes }
        ensures ok { OnOk result (lists_of self.new.lists.items ≡ slice_set (lists_of self.old.lists.items) place (filed_in self.old place ++ number ∷ [])) }
        ensures err { OnErr result (lists_of self.new.lists.items ≡ lists_of self.old.lists.items) }
    {
        self.lists[place].push(number)?;
        Ok(())
    }
}

// Whether there is one line from the first to before the end.
fn is_line(first: u64, end: u64) -> bool
    ensures { IsTrue result → end ≡ first + 1 }
{
    first < end && end - first == 1
}

// Puts the number at the end where there is one.
fn push_some(found: &mut Vec<usize>, number: Option<usize>) -> Result<(), AllocError>
    ensures { OnOk result (found.new.items ≡ found.old.items ++ option_to_list number) }
{
    if let Some(number) = number {
        found.push(number)?;
    }
    Ok(())
}
