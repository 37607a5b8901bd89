// The workbook of given sheets and texts.
ghost use Rattle.std.specs.Prelude.{◌≡◌, IfOk, OnOk, [], filter_map};
ghost use Rattle.std.specs.FinMap as map;
ghost use Rattle.std.specs.List.{All, cons_option};
ghost use Rattle.book_model.specs.Given.{CanBegin, IsGivenCell, given_entries, given_entry, given_sheets, numbered, workbook_given};
ghost use Rattle.shift_line.specs.Track.{with_spare};
ghost use Rattle.kept_book.specs.Kept.{IsStanding, workbook};
ghost use Rattle.kept_book.specs.internal.Cells.{with_cells, with_given};

use crate::book::Book;
use book_model::{BookCell, BookSheet};
use cell_addr::Place;
use formula_tree::Pool;
use std::alloc::{AllocError, Global};

impl Book {
    /// The workbook of these sheets and texts, its line without operations. Costs about the texts, and the number of cells
    /// with its logarithm.
    pub fn given(alloc: Global, pool: &mut Pool, books: &[BookSheet]) -> Result<Book, AllocError>
        requires { CanBegin (given_sheets books.now) }
        ensures book { IfOk result (λ book. workbook book ≡ workbook_given (given_sheets books.now)) }
        ensures stand { IfOk result IsStanding }
        ensures line { IfOk result (λ book. (book.lazy.line.shifts ≡ []) × (book.lazy.line.first ≡ 0) × (book.lazy.line.cursor ≡ 0)) }
    {
        let mut book = Book::with_sheets(alloc, books)?;
        book.fill_sheets(pool, books)?;
        Ok(book)
    }

    // The workbook of these sheets, their cells empty.
    fn with_sheets(alloc: Global, books: &[BookSheet]) -> Result<Book, AllocError>
        requires { CanBegin (given_sheets books.now) }
        ensures book { IfOk result (λ book. workbook book ≡ record { sheets = numbered 0 (given_sheets books.now); cells = map.empty; names = map.empty }) }
        ensures stand { IfOk result IsStanding }
        ensures line { IfOk result (λ book. (book.lazy.line.shifts ≡ []) × (book.lazy.line.first ≡ 0) × (book.lazy.line.cursor ≡ 0)) }
    {
        let mut book = Book::new(alloc)?;
        for (number, sheet) in books.iter().enumerate() {
            book.add_sheet(number as u32, sheet.name.as_str())?;
        }
        Ok(book)
    }

    // Gives the cells of the sheets their texts. It goes from the last one to the first, so that what was given stays.
    fn fill_sheets(&mut self, pool: &mut Pool, books: &[BookSheet]) -> Result<(), AllocError>
        requires can { CanBegin (given_sheets books.now) }
        requires stand { IsStanding self.old }
        ensures ok { OnOk result (workbook self.new ≡ with_cells (with_given (given_entries (workbook self.old).sheets 0 (given_sheets books.now)) (workbook self.old).cells) (workbook self.old)) }
        ensures stand { OnOk result (IsStanding self.new) }
        ensures line { self.new.lazy.line ≡ with_spare self.new.lazy.line.spare self.old.lazy.line }
    {
        for number in (0..books.len()).rev() {
            self.fill_sheet(pool, number as u32, books[number].cells.items())?;
        }
        Ok(())
    }

    // Gives the cells of a sheet their texts, from the last one to the first.
    fn fill_sheet(
        &mut self,
        pool: &mut Pool,
        sheet: u32,
        cells: &[BookCell],
    ) -> Result<(), AllocError>
        requires cells { All IsGivenCell cells.now }
        requires stand { IsStanding self.old }
        ensures ok { OnOk result (workbook self.new ≡ with_cells (with_given (filter_map (given_entry (workbook self.old).sheets sheet) cells.now) (workbook self.old).cells) (workbook self.old)) }
        ensures stand { OnOk result (IsStanding self.new) }
        ensures line { self.new.lazy.line ≡ with_spare self.new.lazy.line.spare self.old.lazy.line }
    {
        for index in (0..cells.len()).rev() {
            self.fill_given(pool, sheet, &cells[index])?;
        }
        Ok(())
    }

    // Gives a cell its text, where it has one.
    fn fill_given(&mut self, pool: &mut Pool, sheet: u32, cell: &BookCell) -> Result<(), AllocError>
        requires cell { IsGivenCell cell.now }
        requires stand { IsStanding self.old }
        ensures ok { OnOk result (workbook self.new ≡ with_cells (with_given (cons_option (given_entry (workbook self.old).sheets sheet cell.now) []) (workbook self.old).cells) (workbook self.old)) }
        ensures stand { OnOk result (IsStanding self.new) }
        ensures line { self.new.lazy.line ≡ with_spare self.new.lazy.line.spare self.old.lazy.line }
    {
        if cell.text.as_str().is_empty() {
            return Ok(());
        }
        let at = Place {
            sheet,
            row: cell.row,
            col: cell.col,
        };
        self.fill(pool, at, cell.text.as_str())?;
        Ok(())
    }
}
