// Where formulas of cases stand.
ghost use Rattle.cell_addr.specs.Place.{IsInside};

use crate::operation::numbers_of;
use cell_addr::Place;
use std::alloc::{AllocError, Global};

/// What cases are read for: one cell, where one sheet is listed, whose number is 0.
#[derive(Clone, Copy)]
pub(crate) struct Setting<'a> {
    /// The name of the listed sheet.
    pub(crate) sheet: &'a str,
    /// The cell whose formulas are read.
    pub(crate) cell: Place,
    ghost inside: { IsInside cell },
}

impl<'a> Setting<'a> {
    /// The first cell of the first sheet, which has this name.
    pub(crate) fn first(sheet: &'a str) -> Setting<'a> {
        Setting {
            sheet,
            cell: Place {
                sheet: 0,
                row: 0,
                col: 0,
            },
        }
    }

    /// The setting that a row gives: the word `home` with a cell by its sheet, its row and its column, and the sheet's name
    /// in the second cell. `None` where it gives none, or the cell lies on no sheet.
    pub(crate) fn of(
        alloc: Global,
        case: &str,
        sheet: &'a str,
    ) -> Result<Option<Setting<'a>>, AllocError> {
        let Some(home) = case.strip_prefix("home ") else {
            return Ok(None);
        };
        match numbers_of(alloc, home)? {
            Some(numbers) => Ok(at(&numbers, sheet)),
            None => Ok(None),
        }
    }
}

// The setting of a cell by its numbers.
fn at<'a>(numbers: &[u32], name: &'a str) -> Option<Setting<'a>> {
    match *numbers {
        [sheet, row, col] => {
            let cell = Place { sheet, row, col };
            if cell.inside() {
                Some(Setting { sheet: name, cell })
            } else {
                None
            }
        }
        _ => None,
    }
}
