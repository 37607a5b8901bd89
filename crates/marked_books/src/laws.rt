// What the operations of a session leave of its workbook, as laws.
ghost use Rattle.marked_books.specs.Operations.{AcceptedShiftsLeadOn, AddingLeavesAlone, ChangingLeavesToNeeds, EmptyingLeavesAlone, NamingLeavesAlone, PastingLeavesAlone, RemovingLeavesAlone, SessionsAreInside, SettingLeavesAlone, SheetsLeaveAlone};

/// The workbook of a sound session lies within the limits of its sheets.
pub fn sessions_are_inside()
    ensures { SessionsAreInside }
{}

/// A structural operation that no cause refuses is sound, and the session's workbook is then the one after it.
pub fn accepted_shifts_lead_on()
    ensures { AcceptedShiftsLeadOn }
{}

/// A text that is given to a cell leaves all nodes alone but the cell.
pub fn setting_leaves_alone()
    ensures { SettingLeavesAlone }
{}

/// Emptied cells leave all nodes alone but those of them that were filled.
pub fn emptying_leaves_alone()
    ensures { EmptyingLeavesAlone }
{}

/// A pasted copy leaves all nodes alone but the cells where it comes that are filled before or after.
pub fn pasting_leaves_alone()
    ensures { PastingLeavesAlone }
{}

/// A name that is added, changed or removed leaves all nodes alone but the name and those whose formulas use its word.
pub fn naming_leaves_alone()
    ensures { NamingLeavesAlone }
{}

/// A name that is there and gets another formula comes by their needs to all nodes but its own.
pub fn changing_leaves_to_needs()
    ensures { ChangingLeavesToNeeds }
{}

/// A name that is removed leaves all nodes alone but its own and those that are linked to it.
pub fn removing_leaves_alone()
    ensures { RemovingLeavesAlone }
{}

/// A name that is added leaves all nodes alone but its own and those for whose formulas its word finds it then.
pub fn adding_leaves_alone()
    ensures { AddingLeavesAlone }
{}

/// A sheet that is added or renamed leaves the cells and the names of the workbook.
pub fn sheets_leave_alone()
    ensures { SheetsLeaveAlone }
{}
