// What stays over an operation, as laws.
ghost use Rattle.carried_books.specs.Laws.{MovedValuesStay};

/// Cells and names whose formulas a sound operation carries along as they are, with all that they need, show what they showed;
/// a cell that it puts in shows nothing.
pub fn moved_values_stay()
    ensures { MovedValuesStay }
{}
