// Steps back and forth over what operations changed.
ghost use Rattle.std.specs.Prelude.{◌≡◌, ◌≤◌, ℕ, OnOk, OnErr};
ghost use Rattle.lazy_store.specs.Store.{KeepsAll};
ghost use Rattle.name_table.specs.Listed.{listed};
ghost use Rattle.name_table.specs.Named.{words_of};
ghost use Rattle.shift_line.specs.Track.{last};
ghost use Rattle.kept_book.specs.Frame.{Frame};
ghost use Rattle.kept_book.specs.Kept.{SameBook, at_of, changes_of, frame_of, line_of};
ghost use Rattle.kept_book.specs.Walk.{Leads, back_all, forth_all};
ghost use Rattle.kept_book.specs.internal.Stepping.{CanPass, frame_on};

use crate::book::Book;
use crate::part::Part;
use crate::passing::{Side, step};
use crate::renaming::drafted;
use std::alloc::AllocError;

impl Book {
    /// Takes back what the parts say, the last one first, and moves the cursor to the first one's position. No formula is
    /// touched. The parts lead here from some frame, and begin on the line. For want of memory the workbook is as it was.
    ///
    /// Costs the cells that the parts list and what taking their operations back costs the grid; the names that they list, each with
    /// the logarithm of the number of names; and where a part changed a sheet the number of sheets. Neither the grid nor the table
    /// of names is copied.
    pub fn back(&mut self, parts: &[Part]) -> Result<(), AllocError>
        requires leads { (f : Frame) × Leads (line_of self.old) (words_of self.old.names) (changes_of parts.now) f (frame_of self.old) }
        requires first { self.old.lazy.line.first ≤ (back_all (line_of self.old) (changes_of parts.now) (frame_of self.old)).position }
        ensures ok { OnOk result (frame_of self.new ≡ back_all (line_of self.old) (changes_of parts.now) (frame_of self.old)) }
        ensures line { OnOk result (self.new.lazy.line ≡ record self.old.lazy.line { cursor = self.new.lazy.line.cursor }) }
        ensures err { OnErr result (SameBook self.old self.new) }
        ensures kept { KeepsAll self.old.lazy self.new.lazy }
        ensures standings { (id k : ℕ) → at_of self.new id k ≡ at_of self.old id k }
        ensures words { words_of self.new.names ≡ words_of self.old.names }
        ensures next { self.new.next_id ≡ self.old.next_id }
    {
        let Some(first) = parts.first() else {
            return Ok(());
        };
        prove!(self.lazy.line().cursor() <= self.lazy.line().last());
        self.pass(parts, Side::Before, first.from)
    }

    /// Does again what the parts say, the first one first, and moves the cursor to the last one's second position. No formula
    /// is touched. The parts lead from here to some frame, and end on the line. For want of memory the workbook is as it was.
    ///
    /// Costs the cells that the parts list and what their operations cost the grid; the names that they list, each with the logarithm
    /// of the number of names; and where a part changed a sheet the number of sheets. Neither the grid nor the table of names is
    /// copied.
    pub fn forth(&mut self, parts: &[Part]) -> Result<(), AllocError>
        requires leads { (g : Frame) × Leads (line_of self.old) (words_of self.old.names) (changes_of parts.now) (frame_of self.old) g }
        requires last { (forth_all (line_of self.old) (changes_of parts.now) (frame_of self.old)).position ≤ last self.old.lazy.line }
        ensures ok { OnOk result (frame_of self.new ≡ forth_all (line_of self.old) (changes_of parts.now) (frame_of self.old)) }
        ensures line { OnOk result (self.new.lazy.line ≡ record self.old.lazy.line { cursor = self.new.lazy.line.cursor }) }
        ensures err { OnErr result (SameBook self.old self.new) }
        ensures kept { KeepsAll self.old.lazy self.new.lazy }
        ensures standings { (id k : ℕ) → at_of self.new id k ≡ at_of self.old id k }
        ensures words { words_of self.new.names ≡ words_of self.old.names }
        ensures next { self.new.next_id ≡ self.old.next_id }
    {
        let Some(end) = parts.last() else {
            return Ok(());
        };
        prove!(self.lazy.line().first() <= self.lazy.line().cursor());
        self.pass(parts, Side::After, end.to)
    }

    // Goes to one side of the parts, at a position of the line. What wants memory comes first: the names that are to be there are
    // added, and taken away again where the cells can't follow.
    fn pass(&mut self, parts: &[Part], side: Side, position: u64) -> Result<(), AllocError>
        requires can { CanPass side (words_of self.old.names) (changes_of parts.now) (listed self.old.names) }
        requires first { self.old.lazy.line.first ≤ position }
        requires last { position ≤ last self.old.lazy.line }
        ensures ok { OnOk result (frame_of self.new ≡ frame_on side position (line_of self.old) (changes_of parts.now) (frame_of self.old)) }
        ensures line { OnOk result (self.new.lazy.line ≡ record self.old.lazy.line { cursor = self.new.lazy.line.cursor }) }
        ensures err { OnErr result (SameBook self.old self.new) }
        ensures kept { KeepsAll self.old.lazy self.new.lazy }
        ensures standings { (id k : ℕ) → at_of self.new id k ≡ at_of self.old id k }
        ensures words { words_of self.new.names ≡ words_of self.old.names }
        ensures next { self.new.next_id ≡ self.old.next_id }
    {
        let draft = drafted(self.alloc, &self.names, parts, side)?;
        let begun = self.names.begin(draft)?;
        match step(self.alloc, self.lazy.line(), &mut self.grid, parts, side) {
            Ok(()) => {
                self.names.finish(begun);
                self.lazy.move_cursor(position);
                Ok(())
            }
            Err(error) => {
                self.names.cancel(begun);
                Err(error)
            }
        }
    }
}
