// What holds of links and kept values that follow a workbook, as laws.
ghost use Rattle.marked_values.specs.Changes.{AllMarkedFollow, CellsAlone, ChangesFollow, FitsFollow, FollowFits, LinkedAnewFits, LinksAreInside, MoreMarksFollow, NameAlone, NodesLinkAnew, RightFollow};
ghost use Rattle.marked_values.specs.Gathered.{BentAreNoted, RestoredAreMarked, TouchedAreMarked};
ghost use Rattle.marked_values.specs.NameMarks.{AddedFollow, AddedLeavesAlone, ChangedFollow, ChangedLeavesToNeeds, LinkedOrMarked, RemovedFollow, RemovedLeavesAlone};
ghost use Rattle.marked_values.specs.Rebound.{AddedIsFound, AloneLeavesToNeeds, ChangedIsFoundAlike, NameLeavesToNeeds, NeedsFollow, ReboundLeavesAlone, RemovedWasFound};
ghost use Rattle.marked_values.specs.Shifts.{BooksStayInside, ReturnsFollow, ShiftsFollow, ShiftsGoBackFollow};

/// After a change, links and kept values follow where what it didn't leave alone is marked as well.
pub fn changes_follow()
    ensures { ChangesFollow }
{}

/// More marks do no harm.
pub fn more_marks_follow()
    ensures { MoreMarksFollow }
{}

/// A change of cells leaves all nodes alone but these cells.
pub fn cells_alone()
    ensures { CellsAlone }
{}

/// A change of one name leaves all nodes alone but the name and those whose formulas use its word.
pub fn name_alone()
    ensures { NameAlone }
{}

/// What a change leaves alone it leaves to its needs.
pub fn alone_leaves_to_needs()
    ensures { AloneLeavesToNeeds }
{}

/// After a change, links and kept values follow where all to which it didn't come by needs alone is marked as well.
pub fn needs_follow()
    ensures { NeedsFollow }
{}

/// Where a name is there before and after a change of it, each word finds the same.
pub fn changed_is_found_alike()
    ensures { ChangedIsFoundAlike }
{}

/// Where a name is removed, a word finds the same unless it found the name.
pub fn removed_was_found()
    ensures { RemovedWasFound }
{}

/// Where a name is added, a word finds the same unless it finds the name now, having found none, or the workbook's in place of the
/// sheet's.
pub fn added_is_found()
    ensures { AddedIsFound }
{}

/// A change of one name comes by their needs to all nodes but the name and those for whose formulas its word finds another one.
pub fn name_leaves_to_needs()
    ensures { NameLeavesToNeeds }
{}

/// A name that is added or removed leaves all nodes alone but the name and those for whose formulas its word finds another one.
pub fn rebound_leaves_alone()
    ensures { ReboundLeavesAlone }
{}

/// A formula that is linked to a node is so in the graph, or is marked.
pub fn linked_or_marked()
    ensures { LinkedOrMarked }
{}

/// A name that is removed leaves all nodes alone but its own and those that were linked to it.
pub fn removed_leaves_alone()
    ensures { RemovedLeavesAlone }
{}

/// A name that is added leaves all nodes alone but its own and those for whose formulas its word finds it now.
pub fn added_leaves_alone()
    ensures { AddedLeavesAlone }
{}

/// A name that gets another formula comes by their needs to all nodes but its own.
pub fn changed_leaves_to_needs()
    ensures { ChangedLeavesToNeeds }
{}

/// After a name was removed, links and kept values follow where its node and each that the graph links to it are marked as well.
pub fn removed_follow()
    ensures { RemovedFollow }
{}

/// After a name was added, they follow where its node and each for whose formula its word finds it now are marked as well.
pub fn added_follow()
    ensures { AddedFollow }
{}

/// After a name got another formula, they follow where its node alone is marked as well.
pub fn changed_follow()
    ensures { ChangedFollow }
{}

/// Of a workbook that isn't linked and of which nothing is kept, all that stands is to be marked.
pub fn all_marked_follow()
    ensures { AllMarkedFollow }
{}

/// A node that is linked anew needn't be marked for its links.
pub fn nodes_link_anew()
    ensures { NodesLinkAnew }
{}

/// The links of a workbook that lies within the limits of its sheets lie there too.
pub fn links_are_inside()
    ensures { LinksAreInside }
{}

/// Once all links are those of the workbook, what is kept fits the marks by the graph as well.
pub fn follow_fits()
    ensures { FollowFits }
{}

/// Once each marked node was linked anew, the links are those of the workbook, and what is kept fits the marks by the graph.
pub fn linked_anew_fits()
    ensures { LinkedAnewFits }
{}

/// What fits the marks by the graph follows.
pub fn fits_follow()
    ensures { FitsFollow }
{}

/// Values that are all right follow without marks.
pub fn right_follow()
    ensures { RightFollow }
{}

/// A structural operation leaves a workbook within the limits of its sheets.
pub fn books_stay_inside()
    ensures { BooksStayInside }
{}

/// After a structural operation, links and kept values that went along with their nodes follow.
pub fn shifts_follow()
    ensures { ShiftsFollow }
{}

/// What was marked before a structural operation, and what it touches, are the marks after it, where it takes them along.
pub fn touched_are_marked()
    ensures { TouchedAreMarked }
{}

/// After an operation was taken back by its opposite, links and kept values that went back with their nodes follow the workbook
/// from before it.
pub fn shifts_go_back_follow()
    ensures { ShiftsGoBackFollow }
{}

/// What an operation bends is known from the graph and the marks before it, where these are noted for when it is taken back.
pub fn bent_are_noted()
    ensures { BentAreNoted }
{}

/// What was marked before an operation is taken back, what asks for places or is moved, and what comes back, are the marks after
/// that.
pub fn restored_are_marked()
    ensures { RestoredAreMarked }
{}

/// After a dropped sheet came back, links and kept values that stayed as they were follow the workbook with the sheet.
pub fn returns_follow()
    ensures { ReturnsFollow }
{}
