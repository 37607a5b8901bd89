// Laws of the definitions: each function states one, and does nothing.
ghost use Rattle.cell_addr.specs.Laws.{ColumnsAreReadBack, ColumnsDiffer, PlacesAreReadBack, PlacesAreWritten, ContentsAreRead, AddressesAreRead, BlocksCover, WholesCoverTheirLines, SameIsEqual, SheetsAreFound, FoundSheetsAreListed};

/// What [`crate::column_text`] writes of a column is read back as that column.
pub fn columns_are_read_back()
    ensures { ColumnsAreReadBack }
{}

/// No two columns have the same letters.
pub fn columns_differ()
    ensures { ColumnsDiffer }
{}

/// What [`crate::place_text`] writes of a place inside is read back as that place.
pub fn places_are_read_back()
    ensures { PlacesAreReadBack }
{}

/// What [`crate::place_text`] writes of a place inside is one to three capitals, and then one to seven
/// digits without a leading 0.
pub fn places_are_written()
    ensures { PlacesAreWritten }
{}

/// A content is read between quotes exactly where it is written there, with its own quotes doubled.
pub fn contents_are_read()
    ensures { ContentsAreRead }
{}

/// An address is read exactly where it is a column's letters followed by a row's digits.
pub fn addresses_are_read()
    ensures { AddressesAreRead }
{}

/// The test whether a block covers a place says what the relation says.
pub fn blocks_cover()
    ensures { BlocksCover }
{}

/// The block of a whole range covers, of the places of the sheet, those on its lines.
pub fn wholes_cover_their_lines()
    ensures { WholesCoverTheirLines }
{}

/// The tests whether two places, two blocks or two whole ranges are the same say that they are equal.
pub fn same_is_equal()
    ensures { SameIsEqual }
{}

/// In a list of sheets the number and the name of each are found by each other.
pub fn sheets_are_found()
    ensures { SheetsAreFound }
{}

/// What is found in a list of sheets stands in it.
pub fn found_sheets_are_listed()
    ensures { FoundSheetsAreListed }
{}
