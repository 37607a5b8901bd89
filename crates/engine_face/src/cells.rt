// What the filled cells of an area show, and the texts that give them their contents, as rows of numbers and bytes.
ghost use Rattle.std.specs.Prelude.{◌≡◌, ◌<◌, ◌&&◌, IfOk};
ghost use Rattle.book_model.specs.Operation as op;
ghost use Rattle.book_model.specs.Refusals.{cause};
ghost use Rattle.book_model.specs.Workbook.{State};
ghost use Rattle.book_engine.specs.Turns.{Answered};
ghost use Rattle.book_engine.specs.Engine.{StandsFor};
ghost use Rattle.area_reads.specs.Reads.{values_cause, values_in};
ghost use Rattle.cell_value.specs.declared.scalar.Scalar.TheVariants as scalars;
ghost use Rattle.rule_table.specs.Rules.{rules_of};
ghost use Rattle.engine_face.specs.Lists.{AreCells, EndList, Made, as_texts, cell_row, content_rows, content_texts, list_sizes, value_rows, value_texts};
ghost use Rattle.engine_face.specs.Shown.{EndTold, fits, value_text};

use crate::room::{ListSizes, write_list};
use crate::session::Session;
use crate::shown::{Shown, value_text};
use crate::status::Status;
use area_reads::{contents, values};
use book_engine::{Engine, Stop};
use cell_addr::{Block, Place, Text};
use cell_value::Scalar;
use rule_table::Rules;
use std::alloc::{AllocError, Global};
use std::marker::Brand;
use std::sync::ledger::{Blank, Ledger};
use steps::Steps;

/// A filled cell of an area, with what it shows or with the text that gives it its content.
#[repr(C)]
#[derive(Clone, Copy)]
pub struct CellRow {
    /// Its row.
    pub row: u32,
    /// Its column.
    pub col: u32,
    /// What it shows, without the bytes of a text; or its content, which is told as a text.
    pub shown: Shown,
    /// How many bytes the texts before its own have: where it begins among the texts.
    pub text_start: usize,
}

// Cells as they are written: their rows, and their texts one after the other.
#[derive(Drop)]
struct CellList {
    rows: Vec<CellRow>,
    texts: Vec<u8>,
}

impl Session {
    ghost use Rattle.engine_face.specs.Session.{Finds, Told, Wrote};

    /// What the filled cells of a block show, as [`values`]: the cells and their texts each in a room.
    pub fn values(
        &mut self,
        area: Block,
        rows: &mut [CellRow],
        texts: &mut [u8],
        sizes: &mut ListSizes,
    ) -> Status
        ensures does { Finds (values_cause area) (λ d. fits (value_rows area d) rows.old && fits (value_texts area d) texts.old) self.old self.new result }
        ensures rows { Wrote (value_rows area) rows.old rows.new self.old result }
        ensures texts { Wrote (value_texts area) texts.old texts.new self.old result }
        ensures told { Told (λ d. list_sizes (value_rows area d) (value_texts area d)) sizes.old sizes.new self.old result }
    {
        let end = values_by::<Brand>(self.alloc, &mut self.engine, area, Blank::new(1));
        let list = values_made(self.alloc, end);
        answer_cells(list, rows, texts, sizes)
    }

    /// The texts that give the filled cells of a block their contents, as [`contents`]: each is told as a value is that is
    /// a text.
    pub fn contents(
        &mut self,
        area: Block,
        rows: &mut [CellRow],
        texts: &mut [u8],
        sizes: &mut ListSizes,
    ) -> Status
        ensures does { Finds (cause (op.copy area)) (λ d. fits (content_rows area d) rows.old && fits (content_texts area d) texts.old) self.old self.new result }
        ensures rows { Wrote (content_rows area) rows.old rows.new self.old result }
        ensures texts { Wrote (content_texts area) texts.old texts.new self.old result }
        ensures told { Told (λ d. list_sizes (content_rows area d) (content_texts area d)) sizes.old sizes.new self.old result }
    {
        let end = contents(self.alloc, &mut self.engine, area);
        let list = contents_made(self.alloc, end);
        answer_cells(list, rows, texts, sizes)
    }
}

// What the filled cells of a block show, whose steps nobody reads.
fn values_by<L: Ledger>(
    alloc: Global,
    engine: &mut Engine<Rules>,
    area: Block,
    blank: Blank,
) -> Result<Vec<(Place, Scalar)>, Stop>
    requires name { blank.name ≡ L.name }
    requires parts { blank.parts ≡ L.parts }
    requires some { 0 < blank.parts }
    ensures answered { (d : State) → StandsFor rules_of engine.old d → Answered (values_cause area d) (λ list. list.items ≡ values_in area d) result }
    ensures stays { (d : State) → StandsFor rules_of engine.old d → StandsFor rules_of engine.new d }
{
    values(alloc, engine, area, &mut Steps::<L>::new(blank))
}

// Tells how much room cells need and writes them, or says why there are none.
fn answer_cells(
    end: Result<CellList, Stop>,
    rows: &mut [CellRow],
    texts: &mut [u8],
    sizes: &mut ListSizes,
) -> Status
    ensures fits { EndList (λ list. list.rows.items) (λ list. list.texts.items) end rows.old rows.new texts.old texts.new result }
    ensures told { EndTold (λ list. list_sizes list.rows.items list.texts.items) end sizes.old sizes.new }
{
    match end {
        Ok(list) => {
            *sizes = ListSizes {
                rows: list.rows.len(),
                bytes: list.texts.len(),
            };
            write_list(&list.rows, &list.texts, rows, texts)
        }
        Err(stop) => Status::from(stop),
    }
}

// The values that were read as a list.
fn values_made(alloc: Global, end: Result<Vec<(Place, Scalar)>, Stop>) -> Result<CellList, Stop>
    ensures { Made (λ cells list. AreCells cells.items list) end result }
{
    let cells = end?;
    let list = values_list(alloc, &cells)?;
    Ok(list)
}

// The texts that were read as a list.
fn contents_made(alloc: Global, end: Result<Vec<(Place, Text)>, Stop>) -> Result<CellList, Stop>
    ensures { Made (λ cells list. AreCells (as_texts cells.items) list) end result }
{
    let cells = end?;
    let list = contents_list(alloc, &cells)?;
    Ok(list)
}

// Cells with what they show as a list.
fn values_list(alloc: Global, cells: &[(Place, Scalar)]) -> Result<CellList, AllocError>
    ensures { IfOk result (λ list. AreCells cells.now list) }
{
    let mut rows = Vec::with_capacity(alloc, cells.len())?;
    let mut texts = Vec::new(alloc);
    let mut rest = cells;
    'cells: while let Some((cell, after)) = rest.split_first() {
        rows.push(value_row(texts.len(), cell))?;
        texts.extend_from_slice(text_shown(cell))?;
        rest = after;
    }
    Ok(CellList { rows, texts })
}

// A cell with what it shows as a row, where its text begins there among the texts.
fn value_row(start: usize, cell: &(Place, Scalar)) -> CellRow
    ensures { result ≡ cell_row start cell.now }
{
    CellRow {
        row: cell.0.row,
        col: cell.0.col,
        shown: Shown::of(&cell.1),
        text_start: start,
    }
}

// The bytes of a text that a cell shows; none of any other value.
fn text_shown(cell: &(Place, Scalar)) -> &[u8]
    ensures { result.now ≡ value_text cell.now.1 }
{
    value_text(&cell.1)
}

// Cells with the texts that give them their contents as a list.
fn contents_list(alloc: Global, cells: &[(Place, Text)]) -> Result<CellList, AllocError>
    ensures { IfOk result (λ list. AreCells (as_texts cells.now) list) }
{
    let mut rows = Vec::with_capacity(alloc, cells.len())?;
    let mut texts = Vec::new(alloc);
    let mut rest = cells;
    'cells: while let Some((cell, after)) = rest.split_first() {
        rows.push(content_row(texts.len(), cell))?;
        texts.extend_from_slice(cell.1.as_bytes())?;
        rest = after;
    }
    Ok(CellList { rows, texts })
}

// A cell with such a text as a row, where the text begins there among the texts.
fn content_row(start: usize, cell: &(Place, Text)) -> CellRow
    ensures { result ≡ cell_row start (cell.now.0, scalars.Text cell.now.1) }
{
    CellRow {
        row: cell.0.row,
        col: cell.0.col,
        shown: Shown::of_text(cell.1.as_bytes()),
        text_start: start,
    }
}
