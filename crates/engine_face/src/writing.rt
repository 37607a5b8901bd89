// Many cells that are given their contents as one change.
ghost use Rattle.std.specs.Prelude.{◌≡◌, IfOk, None, [], map, option_map};
ghost use Rattle.book_model.specs.Operation as op;
ghost use Rattle.engine_face.specs.Written.{AreWritten, IsNoTable, written_cell, written_place};
ghost use Rattle.engine_face.specs.internal.Rising.{bytes_told, cells_told, is_behind, text_told};

use crate::session::Session;
use crate::status::Status;
use cell_addr::{Place, Text};
use std::alloc::{AllocError, Global};

/// A cell to write: its place, and where its text stands among the bytes of all texts.
#[repr(C)]
#[derive(Clone, Copy)]
pub struct WrittenRow {
    /// Its sheet.
    pub sheet: u32,
    /// Its row.
    pub row: u32,
    /// Its column.
    pub col: u32,
    /// Where the text begins.
    pub text_start: usize,
    /// How many bytes it has.
    pub text_length: usize,
}

impl Session {
    ghost use Rattle.engine_face.specs.Session.{Asks};

    /// Gives each of these cells the content that its text says, as one change: as [`Engine::write_all`]. `BadCells` where they
    /// don't stand in order of their sheets, rows and columns, each cell once, or a text isn't among the bytes, or is no UTF-8. Takes
    /// a copy of the texts while it lasts.
    ///
    /// [`Engine::write_all`]: book_engine::Engine::write_all
    pub fn write_all(&mut self, rows: &[WrittenRow], texts: &[u8]) -> Status
        ensures does { AreWritten texts.now rows.now → Asks (op.write_all (map (written_cell texts.now) rows.now)) self.old self.new result }
        ensures no_table { ¬ (AreWritten texts.now rows.now) → IsNoTable self.old self.new result }
    {
        match cells_told(self.alloc, rows, texts) {
            Ok(Some(cells)) => Status::of(self.engine.write_all(&cells)),
            Ok(None) => Status::BadCells,
            Err(_) => Status::NoMemory,
        }
    }
}

impl WrittenRow {
    // The place of the cell.
    fn place(&self) -> Place
        ensures { result ≡ written_place self.now }
    {
        Place {
            sheet: self.sheet,
            row: self.row,
            col: self.col,
        }
    }

    // The bytes of its text, where they stand among those of all texts.
    fn bytes<'t>(&self, texts: &'t [u8]) -> Option<&'t [u8]>
        ensures { option_map (λ bytes. bytes.now) result ≡ bytes_told texts.now self.now }
    {
        if self.text_start <= texts.len() && self.text_length <= texts.len() - self.text_start {
            Some(&texts[self.text_start..self.text_start + self.text_length])
        } else {
            None
        }
    }

    // Its text, where it has one.
    fn text(&self, alloc: Global, texts: &[u8]) -> Result<Option<Text>, AllocError>
        ensures { IfOk result (λ text. text ≡ text_told texts.now self.now) }
    {
        match self.bytes(texts) {
            Some(bytes) => Text::from_utf8(alloc, bytes),
            None => Ok(None),
        }
    }
}

// Whether a place stands behind the last one, where there is one.
fn is_behind(last: Option<Place>, at: Place) -> bool
    ensures { result ≡ is_behind last at }
{
    last.is_none_or(|last| last < at)
}

// The cells of the rows with their texts; `None` where the rows aren't such cells.
fn cells_told(
    alloc: Global,
    rows: &[WrittenRow],
    texts: &[u8],
) -> Result<Option<Vec<(Place, Text)>>, AllocError>
    ensures { IfOk result (λ told. option_map (λ cells. cells.items) told ≡ cells_told texts.now None [] rows.now) }
{
    let mut cells = Vec::new(alloc);
    let mut last = None;
    let mut rest = rows;
    'rows: while let Some((row, behind)) = rest.split_first() {
        let at = row.place();
        let Some(text) = row.text(alloc, texts)? else {
            return Ok(None);
        };
        if !is_behind(last, at) {
            return Ok(None);
        }
        cells.push((at, text))?;
        last = Some(at);
        rest = behind;
    }
    Ok(Some(cells))
}
