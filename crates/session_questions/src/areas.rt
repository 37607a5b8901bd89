// What is asked of cells and areas: kinds of cells, filled places, and how far a sheet is used.
ghost use Rattle.std.specs.Prelude.{◌≡◌, ◌==◌, [], IfOk, Some, map, option_copied, option_map};
ghost use Rattle.std.specs.FinMap as fin;
ghost use Rattle.cell_addr.specs.Place.{covers};
ghost use Rattle.book_model.specs.Operation as op;
ghost use Rattle.book_model.specs.Refusals.{cause};
ghost use Rattle.kept_book.specs.Numbered.{Numbered};
ghost use Rattle.kept_book.specs.Stored.{content_of};
ghost use Rattle.session_questions.specs.Areas.{IsUsedArea, filled_in_block, filled_on_sheet, filled_where, kind_of};
ghost use Rattle.session_operations.specs.Turns.{Answered};
ghost use Rattle.session_operations.specs.Seen.{Fits, state_of};
ghost use Rattle.session_questions.specs.internal.Areas.{area_over, widened};

use cell_addr::{Block, Place};
use grid_store::Cell;
use session_operations::{Parts, Stop, whole_sheet};
use std::alloc::{AllocError, Global};

/// What kind of content a cell has.
#[derive(Clone, Copy, PartialEq, Eq, Debug)]
pub enum Kind {
    /// None.
    Empty,
    /// A number.
    Number,
    /// A truth value.
    Truth,
    /// A text.
    Text,
    /// A formula.
    Formula,
    /// A formula that has no tree, kept as its text.
    Unreadable,
}

/// What kind of content a cell has. Costs a look-up.
///
/// # Errors
/// `NoSheet`, `Outside` where the place isn't within the limits of a sheet.
pub fn cell_kind(parts: &Parts, at: Place) -> Result<Kind, Stop>
    ensures { Answered (cause (op.content at) (state_of parts.now)) (λ kind. kind ≡ kind_of (fin.get (state_of parts.now).book.cells at)) result }
{
    parts.check_place(at)?;
    Ok(kind_at(parts, at))
}

// What kind of content a place has.
fn kind_at(parts: &Parts, at: Place) -> Kind
    ensures { result ≡ kind_of (fin.get (state_of parts.now).book.cells at) }
{
    kind_in(parts.session.book.grid.cell(at))
}

/// The filled places of a block, row by row. Costs about their number and that of the block's rows that hold any cell.
///
/// # Errors
/// `NoSheet`, `Outside` where the block isn't within the limits of a sheet.
pub fn filled(parts: &Parts, area: Block) -> Result<Vec<Place>, Stop>
    ensures { Answered (cause (op.copy area) (state_of parts.now)) (λ places. places.items ≡ filled_in_block area (state_of parts.now).book) result }
{
    parts.check_clear(area)?;
    let places = places(parts, area)?;
    Ok(places)
}

/// The filled places of a sheet, row by row. Costs about their number and that of the rows that hold any cell.
///
/// # Errors
/// `NoSheet`.
pub fn filled_in(parts: &Parts, sheet: u32) -> Result<Vec<Place>, Stop>
    requires { Fits parts.now }
    ensures { Answered (cause (op.clear_sheet sheet) (state_of parts.now)) (λ places. places.items ≡ filled_on_sheet sheet (state_of parts.now).book) result }
{
    parts.check_sheet(sheet)?;
    let places = places(parts, whole_sheet(sheet))?;
    Ok(places)
}

/// The least block over the filled places of a sheet; `None` where it has none. Costs what [`filled_in`] does, its memory too.
///
/// # Errors
/// `NoSheet`.
pub fn used_area(parts: &Parts, sheet: u32) -> Result<Option<Block>, Stop>
    requires { Fits parts.now }
    ensures { Answered (cause (op.clear_sheet sheet) (state_of parts.now)) (IsUsedArea sheet (state_of parts.now).book) result }
{
    let places = filled_in(parts, sheet)?;
    Ok(area_over(&places))
}

// The filled places of a block, without a look at its limits.
fn places(parts: &Parts, area: Block) -> Result<Vec<Place>, AllocError>
    ensures { IfOk result (λ places. places.items ≡ filled_where (covers area) (state_of parts.now).book) }
{
    let book = &parts.session.book;
    let cells = book.grid.listed_refs(area)?;
    places_of(book.alloc, &cells)
}

// What kind of content a kept cell has.
fn kind_in(cell: Option<&Cell>) -> Kind
    ensures { (stands : Numbered) → result ≡ kind_of (option_map (content_of stands) (option_copied cell.entry)) }
{
    match cell {
        None => Kind::Empty,
        Some(Cell::Number(_)) => Kind::Number,
        Some(Cell::Truth(_)) => Kind::Truth,
        Some(Cell::Text(_)) => Kind::Text,
        Some(Cell::Formula(_)) => Kind::Formula,
        Some(Cell::Broken(_)) => Kind::Unreadable,
    }
}

// The places of listed cells.
fn places_of<V>(alloc: Global, cells: &[(Place, V)]) -> Result<Vec<Place>, AllocError>
    ensures { IfOk result (λ places. places.items ≡ map (λ e. e.0) cells.now) }
{
    let mut places = Vec::with_capacity(alloc, cells.len())?;
    'cells: for cell in cells {
        places.push(cell.0)?;
    }
    Ok(places)
}

// The least block over the places, which are of one sheet; `None` where there are none.
fn area_over(places: &[Place]) -> Option<Block>
    ensures { result ≡ area_over None places.now }
{
    let mut area = None;
    'places: for at in places {
        area = Some(widened(area, *at));
    }
    area
}

// The least block over a block, if there is one, and a place.
fn widened(area: Option<Block>, at: Place) -> Block
    ensures { result ≡ widened area at }
{
    match area {
        Some(area) => Block {
            sheet: area.sheet,
            top: area.top.min(at.row),
            left: area.left.min(at.col),
            bottom: area.bottom.max(at.row),
            right: area.right.max(at.col),
        },
        None => Block {
            sheet: at.sheet,
            top: at.row,
            left: at.col,
            bottom: at.row,
            right: at.col,
        },
    }
}
