// Cells of the first sheet of an engine, and what is linked to them.
use crate::no_customs::NoCustoms;
use book_engine::Engine;
use cell_addr::{Block, Place};
use formula_tree::Link;

// The place of a row and a column.
pub(crate) fn place(row: u32, col: u32) -> Place {
    Place { sheet: 0, row, col }
}

// The block from the first cell to the one of a row and a column.
pub(crate) fn block(bottom: u32, right: u32) -> Block {
    Block {
        sheet: 0,
        top: 0,
        left: 0,
        bottom,
        right,
    }
}

// Whether the formula of the cell has this text.
pub(crate) fn reads(engine: &mut Engine<NoCustoms>, row: u32, col: u32, text: &str) -> bool {
    match engine.formula(place(row, col)) {
        Ok(Some(shown)) => shown.as_str() == text,
        _ => false,
    }
}

// Whether the links are the block of the first two cells, the first cell and the name RATE.
pub(crate) fn is_what_is_needed(links: &[Link]) -> bool {
    match links {
        [Link::Area(area), Link::Cell(cell), Link::Name(None, word)] => {
            *area == block(0, 1) && *cell == place(0, 0) && word.as_str() == "RATE"
        }
        _ => false,
    }
}

// Whether the links are the third cell of the first column and the name RATE.
pub(crate) fn is_what_needs(links: &[Link]) -> bool {
    match links {
        [Link::Cell(cell), Link::Name(None, word)] => {
            *cell == place(2, 0) && word.as_str() == "RATE"
        }
        _ => false,
    }
}
