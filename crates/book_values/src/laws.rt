//! What holds of the values of a workbook: laws, with nothing to run.

ghost use Rattle.book_values.specs.Laws.{CyclesReturn, NothingElseUnfolds, ValuesAlike, ValuesUnfold};

/// Each place and each name shows what it works out from what the others show, or `#CYCLE!` where it is on a
/// cycle.
pub fn values_unfold()
    ensures { ValuesUnfold }
{}

/// Nothing else unfolds so.
pub fn nothing_else_unfolds()
    ensures { NothingElseUnfolds }
{}

/// A node is on a cycle exactly where needs lead from it back to it.
pub fn cycles_return()
    ensures { CyclesReturn }
{}

/// Two workbooks with the same cells and the same tree of each name show the same: the order of names doesn't
/// count.
pub fn values_are_alike()
    ensures { ValuesAlike }
{}
