//! Places, blocks and addresses of a workbook's cells, and the texts that name them.
//!
//! A [`Place`] is one cell, a [`Block`] a rectangle of cells on one sheet. Rows and columns are
//! counted from 0 in calls and from 1, or from A, in texts. An [`Axis`] is one of the two directions, so
//! that what holds of rows and columns alike is said once, of the lines along an axis; a [`Whole`] is all
//! rows or all columns from one to another. A [`Text`] is a list of bytes in UTF-8, and a [`Spot`] an address as it is written, with a sheet's name where one is wanted.
//!
//! `read_place(alloc, "Two!b3:A1")` is the spot of rows 0 to 2 and columns 0 to 1 on the sheet `Two`,
//! and `place_text(alloc, 4, 1)` is `B5`.
#![tactic(auto)]

mod address;
mod axis;
mod laws;
mod parts;
mod place;
mod print;
mod quote;
mod sheet_name;
mod sheets;
mod spot;
mod text;
mod whole;
mod word;

pub use address::{read_address, read_area, read_column, read_place, read_row};
pub use axis::{Axis, Span};
pub use laws::{
    addresses_are_read, blocks_cover, columns_are_read_back, columns_differ, contents_are_read,
    found_sheets_are_listed, places_are_read_back, places_are_written, same_is_equal,
    sheets_are_found, wholes_cover_their_lines,
};
pub use parts::{split_once, strip_prefix};
pub use place::{Block, COLS, NO_SHEET, Place, ROWS};
pub use print::{column_text, place_text};
pub use quote::{after_quoted, quoted_text};
pub use sheet_name::is_bare_name;
pub use sheets::{OneSheet, SheetNames};
pub use spot::{AddrError, Spot};
pub use text::{Text, capitals, fold_byte, same_folded};
pub use whole::Whole;
pub use word::is_word;
