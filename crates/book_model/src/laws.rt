//! What holds of every session: laws, with nothing to run.
ghost use Rattle.book_model.specs.Laws.{GivenTextsSayIt, LinksAreInside, SessionsAreSound, RefusalsChangeNothing, WrittenCellsSayIt};

/// A session that begins with given sheets is sound, and operations lead from one sound session to another: each filled
/// cell is inside a sheet of the book, each formula's tree is proper, and its sheets are the book's.
pub fn sessions_are_sound()
    ensures { SessionsAreSound }
{}

/// A refused operation leaves the session as it was.
pub fn refusals_change_nothing()
    ensures { RefusalsChangeNothing }
{}

/// The places and blocks that a formula of a sound session needs, whole ranges by their blocks, stand within the limits of a sheet, and so do the cells
/// that need a cell.
pub fn links_are_inside()
    ensures { LinksAreInside }
{}

/// What a cell's content is where its text is that of a number, of a truth value, or the one that gives a text.
pub fn given_texts_say_it()
    ensures { GivenTextsSayIt }
{}

/// Cells that are written together, each of them once, hold what their own texts say, in whatever order these are listed, and every
/// other cell holds what it held.
pub fn written_cells_say_it()
    ensures { WrittenCellsSayIt }
{}
