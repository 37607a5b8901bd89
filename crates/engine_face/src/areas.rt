// What is asked of cells and areas: kinds of contents, filled places, and how far a sheet is used.
ghost use Rattle.std.specs.Prelude.{◌≡◌, IfOk, length, map, true};
ghost use Rattle.book_model.specs.Operation as op;
ghost use Rattle.book_model.specs.Refusals.{cause};
ghost use Rattle.engine_face.specs.Areas.{SaysUsed, kind_at, kind_number, place_row, place_rows, rows_in_block, rows_on_cycle, rows_on_sheet, used_row};
ghost use Rattle.engine_face.specs.Lists.{Made};
ghost use Rattle.engine_face.specs.Shown.{EndFits, EndTold, fits};
ghost use Rattle.engine_face.specs.Status.{status_of_end};

use crate::room::write;
use crate::session::Session;
use crate::status::Status;
use book_engine::{Kind, Stop};
use cell_addr::{Block, Place};
use std::alloc::{AllocError, Global};

/// A place of a sheet.
#[repr(C)]
#[derive(Clone, Copy)]
pub struct PlaceRow {
    /// Its row.
    pub row: u32,
    /// Its column.
    pub col: u32,
}

/// How far a sheet is used: the least block over its filled cells.
#[repr(C)]
#[derive(Clone, Copy)]
pub struct UsedArea {
    /// 1; or 0 where no cell is filled, and so the next four.
    pub is_used: u32,
    /// The first row.
    pub top: u32,
    /// The first column.
    pub left: u32,
    /// The last row.
    pub bottom: u32,
    /// The last column.
    pub right: u32,
}

impl Session {
    ghost use Rattle.engine_face.specs.Session.{Finds, Tells, Told, Wrote};

    /// What kind of content a cell has, as [`Engine::kind`]: 0 for none, 1 for a number, 2 for a text, 3 for a truth value, 5
    /// for a formula and 6 for one that has no tree.
    ///
    /// [`Engine::kind`]: book_engine::Engine::kind
    pub fn kind(&self, at: Place, kind: &mut u32) -> Status
        ensures does { Finds (cause (op.content at)) (λ d. true) self.now self.now result }
        ensures told { Told (kind_at at) kind.old kind.new self.now result }
    {
        tell_kind(self.engine.kind(at), kind)
    }

    /// The filled places of a block, as [`Engine::filled`].
    ///
    /// [`Engine::filled`]: book_engine::Engine::filled
    pub fn filled(&self, area: Block, rows: &mut [PlaceRow], count: &mut usize) -> Status
        ensures does { Finds (cause (op.copy area)) (λ d. fits (rows_in_block area d) rows.old) self.now self.now result }
        ensures wrote { Wrote (rows_in_block area) rows.old rows.new self.now result }
        ensures told { Told (λ d. length (rows_in_block area d)) count.old count.new self.now result }
    {
        let end = rows_made(self.alloc, self.engine.filled(area));
        answer_places(end, rows, count)
    }

    /// The filled places of a sheet, as [`Engine::filled_in`].
    ///
    /// [`Engine::filled_in`]: book_engine::Engine::filled_in
    pub fn filled_in(&self, sheet: u32, rows: &mut [PlaceRow], count: &mut usize) -> Status
        ensures does { Finds (cause (op.clear_sheet sheet)) (λ d. fits (rows_on_sheet sheet d) rows.old) self.now self.now result }
        ensures wrote { Wrote (rows_on_sheet sheet) rows.old rows.new self.now result }
        ensures told { Told (λ d. length (rows_on_sheet sheet d)) count.old count.new self.now result }
    {
        let end = rows_made(self.alloc, self.engine.filled_in(sheet));
        answer_places(end, rows, count)
    }

    /// The cells of a sheet that are on a cycle, as [`Engine::on_cycle`].
    ///
    /// [`Engine::on_cycle`]: book_engine::Engine::on_cycle
    pub fn on_cycle(&mut self, sheet: u32, rows: &mut [PlaceRow], count: &mut usize) -> Status
        ensures does { Finds (cause (op.clear_sheet sheet)) (λ d. fits (rows_on_cycle sheet d) rows.old) self.old self.new result }
        ensures wrote { Wrote (rows_on_cycle sheet) rows.old rows.new self.old result }
        ensures told { Told (λ d. length (rows_on_cycle sheet d)) count.old count.new self.old result }
    {
        let end = rows_made(self.alloc, self.engine.on_cycle(sheet));
        answer_places(end, rows, count)
    }

    /// How far a sheet is used, as [`Engine::used_area`].
    ///
    /// [`Engine::used_area`]: book_engine::Engine::used_area
    pub fn used_area(&self, sheet: u32, used: &mut UsedArea) -> Status
        ensures does { Finds (cause (op.clear_sheet sheet)) (λ d. true) self.now self.now result }
        ensures told { Tells (λ d. SaysUsed sheet d.book) used.old used.new self.now result }
    {
        tell_used(self.engine.used_area(sheet), used)
    }
}

// Tells a kind, or says why there is none.
fn tell_kind(end: Result<Kind, Stop>, kind: &mut u32) -> Status
    ensures status { result ≡ status_of_end end }
    ensures told { EndTold kind_number end kind.old kind.new }
{
    match end {
        Ok(found) => {
            *kind = kind_number(found);
            Status::Done
        }
        Err(stop) => Status::from(stop),
    }
}

// The number of a kind of content.
fn kind_number(kind: Kind) -> u32
    ensures { result ≡ kind_number kind }
{
    match kind {
        Kind::Empty => 0,
        Kind::Number => 1,
        Kind::Text => 2,
        Kind::Truth => 3,
        Kind::Formula => 5,
        Kind::Unreadable => 6,
    }
}

// Tells how far a sheet is used, or says why that isn't known.
fn tell_used(end: Result<Option<Block>, Stop>, used: &mut UsedArea) -> Status
    ensures status { result ≡ status_of_end end }
    ensures told { EndTold used_row end used.old used.new }
{
    match end {
        Ok(area) => {
            *used = used_row(area);
            Status::Done
        }
        Err(stop) => Status::from(stop),
    }
}

// A used area as numbers.
fn used_row(area: Option<Block>) -> UsedArea
    ensures { result ≡ used_row area }
{
    match area {
        Some(area) => UsedArea {
            is_used: 1,
            top: area.top,
            left: area.left,
            bottom: area.bottom,
            right: area.right,
        },
        None => UsedArea {
            is_used: 0,
            top: 0,
            left: 0,
            bottom: 0,
            right: 0,
        },
    }
}

// Tells how many places there are and writes them, or says why there are none.
fn answer_places(
    end: Result<Vec<PlaceRow>, Stop>,
    room: &mut [PlaceRow],
    count: &mut usize,
) -> Status
    ensures fits { EndFits (λ rows. rows.items) end room.old room.new result }
    ensures told { EndTold (λ rows. length rows.items) end count.old count.new }
{
    match end {
        Ok(rows) => {
            *count = rows.len();
            write(&rows, room)
        }
        Err(stop) => Status::from(stop),
    }
}

// The places that were found as rows.
fn rows_made(alloc: Global, end: Result<Vec<Place>, Stop>) -> Result<Vec<PlaceRow>, Stop>
    ensures { Made (λ places rows. rows.items ≡ place_rows places.items) end result }
{
    let places = end?;
    let rows = rows_of(alloc, &places)?;
    Ok(rows)
}

// Places as rows.
fn rows_of(alloc: Global, places: &[Place]) -> Result<Vec<PlaceRow>, AllocError>
    ensures { IfOk result (λ rows. rows.items ≡ map place_row places.now) }
{
    let mut rows = Vec::with_capacity(alloc, places.len())?;
    'places: for at in places {
        rows.push(PlaceRow {
            row: at.row,
            col: at.col,
        })?;
    }
    Ok(rows)
}
