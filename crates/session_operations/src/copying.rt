// Cells that are copied, and pasted as a step.
ghost use Rattle.std.specs.Prelude.{◌≡◌, ◌≤◌, ◌∷◌, ⊤, [], IfOk, List, OnOk, not};
ghost use Rattle.std.specs.BTreeSet.{btree_set_len, contains};
ghost use Rattle.std.specs.FinMap as map;
ghost use Rattle.std.specs.List.{All, cons_option, filter_map};
ghost use Rattle.cell_addr.specs.Order.{place_cmp};
ghost use Rattle.cell_addr.specs.declared.place.Place.{Place as PlaceSeen};
ghost use Rattle.cell_addr.specs.Place.{IsBlockInside, covers};
ghost use Rattle.shift_core.specs.Carried as carrying;
ghost use Rattle.book_model.specs.Changes.{with_copy};
ghost use Rattle.book_model.specs.Clipboard as clipboard;
ghost use Rattle.book_model.specs.Operation as op;
ghost use Rattle.book_model.specs.Refusals.{cause, first_cause, is_block_outside};
ghost use Rattle.book_model.specs.Workbook.{has_sheet};
ghost use Rattle.book_model.specs.declared.limits.TheConstants.{MAX_CELLS};
ghost use Rattle.book_model.specs.declared.refusal.Refusal.TheVariants as refusals;
ghost use Rattle.kept_book.specs.Copied.{IsCopied, contents_copied};
ghost use Rattle.kept_steps.specs.Kept.{KeepsInUse};
ghost use Rattle.session_values.specs.Touched.{AreTouchedAtMost};
ghost use Rattle.session_operations.specs.Turns.{Answered, IsCause, NoAnswer, Turns};
ghost use Rattle.session_operations.specs.Seen.{Fits, ValuesFollowStill, clip_of, state_of, with_clipboard};
ghost use Rattle.session_operations.specs.internal.Pasting.{ArePlaces, place_pasted};

use crate::checks::ends_outside;
use crate::parts::Parts;
use crate::setting::{touch_filled, touch_filled_or_forget};
use crate::stop::Stop;
use crate::waiting::Waiting;
use book_model::{MAX_CELLS, Refusal};
use cell_addr::{Block, Place};
use clip_board::{Clip, CopyItem};
use shift_core::{carried_place, destination};
use std::alloc::{AllocError, Global};
use std::collections::BTreeSet;

impl Parts {
    /// A copy of a block, which waits to be pasted: later changes don't reach it. It is no step. Costs about the filled cells of
    /// the block.
    ///
    /// # Errors
    /// `NoSheet`, `Outside` where the block isn't within the limits of a sheet.
    pub fn copied(&mut self, area: Block) -> Result<Waiting, Stop>
        requires { Fits self.old }
        ensures reads { Answered (cause (op.copy area) (state_of self.old)) (λ w. clip_of w.clip ≡ clipboard.copy_of area (state_of self.old).book.cells) result }
        ensures state { state_of self.new ≡ state_of self.old }
        ensures fits { Fits self.new }
        ensures follow { ValuesFollowStill self.old self.new }
        ensures values { self.new.values ≡ self.old.values }
    {
        self.check_clear(area)?;
        let cells = self.session.copied_cells(area)?;
        Ok(Waiting {
            clip: Clip::copy_of(area, cells),
        })
    }

    /// Pastes copied cells of a block, its first cell at a place, and marks the filled cells of the block there, from before and
    /// after it; or nothing is kept any more. Costs the copied cells and the filled ones of the block there, each with the
    /// logarithm of the number of filled cells.
    ///
    /// # Errors
    /// `NoSheet`, `Outside` where the block there isn't within the limits of a sheet, `CellLimit` where more than 1,000,000 cells
    /// would be filled; the first that holds.
    pub fn paste(&mut self, area: Block, cells: &[(Place, CopyItem)], at: Place) -> Result<(), Stop>
        requires fits { Fits self.old }
        requires block { IsBlockInside area }
        requires copied { All IsCopied cells.now }
        ensures turns { Turns (op.paste at) NoAnswer (with_clipboard (clipboard.copied area (contents_copied cells.now)) (state_of self.old)) (with_clipboard (clipboard.copied area (contents_copied cells.now)) (state_of self.new)) result }
        ensures fits { Fits self.new }
        ensures kept { KeepsInUse self.old.session self.new.session.book.lazy }
        ensures follow { ValuesFollowStill self.old self.new }
        ensures touched { AreTouchedAtMost (covers (carrying.destination area at)) self.old.values.values self.new.values.values }
    {
        self.check_copied(area, cells, at)?;
        let there = destination(area, at);
        touch_filled(&self.session, &mut self.values, there)?;
        self.session.paste(area, cells, at)?;
        touch_filled_or_forget(&self.session, &mut self.values, there);
        Ok(())
    }

    /// Why [`Parts::paste`] would be refused now, if it would: the first cause that holds. Costs the copied cells and the filled
    /// ones of the block there.
    ///
    /// # Errors
    /// That cause; or there was no memory to count the cells.
    pub fn check_copied(
        &self,
        area: Block,
        cells: &[(Place, CopyItem)],
        at: Place,
    ) -> Result<(), Stop>
        requires fits { Fits self.now }
        requires block { IsBlockInside area }
        ensures cause { Answered (cause (op.paste at) (with_clipboard (clipboard.copied area (contents_copied cells.now)) (state_of self.now))) (λ x. ⊤) result }
        ensures there { OnOk result (IsBlockInside (carrying.destination area at)) }
    {
        self.check_there(area, at)?;
        if self.filled_after(area, cells, at)? > MAX_CELLS {
            return Err(Stop::Refused(Refusal::CellLimit));
        }
        Ok(())
    }

    // Where a copied block is pasted, but for its number of cells.
    fn check_there(&self, area: Block, at: Place) -> Result<(), Refusal>
        requires { IsBlockInside area }
        ensures { IsCause result (first_cause ((not (has_sheet (state_of self.now).book at.sheet), refusals.NoSheet) ∷ (is_block_outside (carrying.destination area at), refusals.Outside) ∷ [])) }
    {
        if !self.has_sheet(at.sheet) {
            return Err(Refusal::NoSheet);
        }
        if ends_outside(area, at) {
            return Err(Refusal::Outside);
        }
        Ok(())
    }

    // How many cells are filled once the copied cells of the block are pasted: those beside the block there, and those that the
    // copied ones come to.
    fn filled_after(
        &self,
        area: Block,
        cells: &[(Place, CopyItem)],
        at: Place,
    ) -> Result<u64, AllocError>
        requires block { IsBlockInside area }
        requires there { IsBlockInside (carrying.destination area at) }
        requires few { map.len (state_of self.now).book.cells ≤ MAX_CELLS }
        ensures { IfOk result (λ count. count ≡ map.len (with_copy area (contents_copied cells.now) at (state_of self.now).book).cells) }
    {
        let book = &self.session.book;
        let replaced = book.grid.listed(destination(area, at))?;
        let places = places_of(book.alloc, area, cells, at)?;
        let beside = book.grid.filled() - replaced.items().len() as u64;
        Ok(beside + places.len() as u64)
    }
}

// The places that the copied cells of the block come to, from the last one to the first.
fn places_of(
    alloc: Global,
    area: Block,
    cells: &[(Place, CopyItem)],
    at: Place,
) -> Result<BTreeSet<Place>, AllocError>
    requires there { IsBlockInside (carrying.destination area at) }
    ensures { IfOk result (λ set. ArePlaces (filter_map (place_pasted area at) cells.now) (contains place_cmp set) (btree_set_len set)) }
{
    let mut places = BTreeSet::new(alloc);
    for index in (0..cells.len()).rev() {
        add_pasted(&mut places, area, &cells[index], at)?;
    }
    Ok(places)
}

// Adds the place that a copied cell comes to, if it is one of the block.
fn add_pasted(
    places: &mut BTreeSet<Place>,
    area: Block,
    cell: &(Place, CopyItem),
    at: Place,
) -> Result<(), AllocError>
    requires there { IsBlockInside (carrying.destination area at) }
    ensures { OnOk result ((ps : List PlaceSeen) → ArePlaces ps (contains place_cmp places.old) (btree_set_len places.old) → ArePlaces (cons_option (place_pasted area at cell.now) ps) (contains place_cmp places.new) (btree_set_len places.new)) }
{
    if area.holds(cell.0) {
        places.insert(carried_place(area, at, cell.0))?;
    }
    Ok(())
}
