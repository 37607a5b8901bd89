//! What holds of the sheets that files are: laws, with nothing to run.
ghost use Rattle.book_files.specs.Laws.{FaultsAreTheFirst, SheetsAreTheirFields};

/// The cells of a file's sheet are exactly the fields of its records that have a byte, in reading order: each in the row
/// of its record's number and the column of its own, both counted from 0.
pub fn sheets_are_their_fields()
    ensures { SheetsAreTheirFields }
{}

/// A file is refused exactly where one of the documented causes holds, and by the first: it isn't UTF-8, its name gives
/// no sheet's name, or else the first field in reading order with which something is wrong, and the first thing there.
pub fn faults_are_the_first()
    ensures { FaultsAreTheFirst }
{}
