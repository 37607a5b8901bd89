//! What structural operations and pastes do to every tree: laws, with nothing to run.

ghost use Rattle.tree_rewrite.specs.Laws.{ProperStays, ProperFits, FitStays, LevelsStay, OthersStay, SheetsFollow, ComesBackByReferences, CarriedComesBack, HomesFollow, PastesWell};

/// A proper tree stays proper, forward and backward.
pub fn proper_trees_stay_proper()
    ensures { ProperStays }
{}

/// The references, blocks and whole ranges of a proper tree lie within the limits of a sheet.
pub fn proper_trees_fit()
    ensures { ProperFits }
{}

/// References, blocks and whole ranges within the limits of a sheet stay so, forward and backward.
pub fn trees_stay_inside()
    ensures { FitStays }
{}

/// A tree keeps its number of levels, and the level of its outermost operator.
pub fn levels_stay()
    ensures { LevelsStay }
{}

/// A tree without references stays as it is, in both directions; so a fault `#REF!` stays.
pub fn other_trees_stay()
    ensures { OthersStay }
{}

/// A reference stays on its sheet, or follows a moved block of cells to another one; over a dropped sheet
/// none on that sheet is left.
pub fn sheets_follow()
    ensures { SheetsFollow }
{}

/// A proper tree comes back exactly where no reference of it is lost and each of its blocks and whole ranges comes
/// back.
pub fn trees_come_back_by_references()
    ensures { ComesBackByReferences }
{}

/// A proper tree comes back where no reference of it is lost, no block of it is bent or cut, and no whole range of it
/// is bent.
pub fn carried_trees_come_back()
    ensures { CarriedComesBack }
{}

/// Homes within the limits of a sheet stay so; a home comes back from where it goes, and goes where it came
/// from.
pub fn homes_follow()
    ensures { HomesFollow }
{}

/// A proper tree that is pasted stays proper, of as many levels, its sheets are listed, and its references,
/// blocks and whole ranges within the limits of a sheet. As seen from its home it stays as it is where it stays on
/// its sheet, nothing of it is lost, and no corners come out of order.
pub fn pasted_trees_are_sound()
    ensures { PastesWell }
{}
