// Why a file is no sheet.
ghost use Rattle.std.specs.Prelude.{◌≡◌};

use std::alloc::AllocError;
use thiserror::Error;

/// Why a file is no sheet of a book. This project's own.
#[derive(Clone, Copy, PartialEq, Eq, Debug, Error)]
pub enum BookFault {
    /// The file isn't UTF-8.
    #[error("not UTF-8")]
    NotUtf8,
    /// The file's name gives no name that a sheet may have.
    #[error("sheet name invalid")]
    BadSheetName,
    /// A field stands below the last row of a sheet.
    #[error("too many rows")]
    Rows,
    /// A field stands behind the last column of a sheet.
    #[error("too many columns")]
    Columns,
    /// A field has more bytes than a text given to a cell may have.
    #[error("field too long")]
    FieldLength,
    /// A field would fill more cells of the book than may be filled.
    #[error("too many cells")]
    Cells,
    /// Memory ran out.
    #[error("out of memory")]
    NoMemory,
}

impl From<AllocError> for BookFault {
    ghost use Rattle.book_files.specs.declared.fault.BookFault.TheVariants.{NoMemory};

    ghost from_gives = { λ _ e. e ≡ NoMemory };

    fn from(_error: AllocError) -> BookFault {
        BookFault::NoMemory
    }
}
