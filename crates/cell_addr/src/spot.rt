// Addresses as they are written.
ghost use Rattle.std.specs.Prelude.{◌≡◌};

use crate::text::Text;
use thiserror::Error;

/// An address as written: a sheet's name or none, and one corner, or two in order. Rows and columns
/// are counted from 0. Rows go up to 9,999,998 and columns up to 18,277.
#[derive(Drop, Debug)]
pub struct Spot {
    /// The name of the sheet, where one was written.
    pub sheet: Option<Text>,
    /// The first row.
    pub top: u32,
    /// The first column.
    pub left: u32,
    /// The last row.
    pub bottom: u32,
    /// The last column.
    pub right: u32,
    /// Whether one address was written, and not two with a colon.
    pub single: bool,
}

/// Why a text could not be read as an address.
#[derive(Clone, Copy, PartialEq, Eq, Debug, Error)]
pub enum AddrError {
    /// The text has another form.
    #[error("the text is no address")]
    NotAnAddress,
    /// There was no memory for the sheet's name.
    #[error("there is no memory for the sheet's name")]
    NoMemory,
}

impl Spot {
    ghost use Rattle.cell_addr.specs.Address.{spot_at, spot_between};

    // One address, given by its row and column.
    pub(crate) fn at(address: (u32, u32)) -> Spot
        ensures { result ≡ spot_at address }
    {
        let (row, col) = address;
        Spot {
            sheet: None,
            top: row,
            left: col,
            bottom: row,
            right: col,
            single: true,
        }
    }

    // Two addresses, each given by its row and column, with the corners put in order.
    pub(crate) fn between(first: (u32, u32), last: (u32, u32)) -> Spot
        ensures { result ≡ spot_between (first, last) }
    {
        Spot {
            sheet: None,
            top: first.0.min(last.0),
            left: first.1.min(last.1),
            bottom: first.0.max(last.0),
            right: first.1.max(last.1),
            single: false,
        }
    }
}
