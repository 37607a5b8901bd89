// What holds of the links of a workbook, and what changes leave of kept values. The functions do nothing: what each ensures is the law.
ghost use Rattle.recalc_core.specs.Laws.{ChainsAreNeeds, ChangesKeepFit, CyclesAgree, LinkingHolds};
ghost use Rattle.recalc_core.specs.Edits.{CellChangesAlone, NameChangesItsUsers};
ghost use Rattle.recalc_core.specs.Moves.{MovesKeepFit};
ghost use Rattle.recalc_core.specs.Shifted.{ShiftsGoBack};
ghost use Rattle.recalc_core.specs.Shown.{AllMarkedFit, NamesShowKept, PlacesShowKept};

/// Where links are the needs of a workbook, needs lead from one place or name to another in the graph exactly where they do
/// in the workbook.
pub fn chains_are_needs()
    ensures { ChainsAreNeeds }
{}

/// And a place or a name is on a cycle in the graph exactly where it shows `#CYCLE!` by itself.
pub fn cycles_agree()
    ensures { CyclesAgree }
{}

/// Links stay the needs of a workbook where one node's formula becomes another one and the node is linked anew.
pub fn linking_holds()
    ensures { LinkingHolds }
{}

/// Kept values fit the marks after a change of the workbook where each node that doesn't stand, need and work out what it did
/// before is marked as well.
pub fn changes_keep_fit()
    ensures { ChangesKeepFit }
{}

/// Kept values that come along with their nodes fit the marks where these come along too, and each node is marked as well that
/// doesn't do what the node did that it was.
pub fn moves_keep_fit()
    ensures { MovesKeepFit }
{}

/// After a cell was filled, emptied or given another content, all nodes but that cell do as before.
pub fn cell_changes_alone()
    ensures { CellChangesAlone }
{}

/// After a name was added, removed or given another formula, all nodes do as before but the name and those whose formulas use
/// its word.
pub fn name_changes_its_users()
    ensures { NameChangesItsUsers }
{}

/// Over every sound operation, nodes of the graph come from where their places and names do, and no two from one.
pub fn shifts_go_back()
    ensures { ShiftsGoBack }
{}

/// Where kept values are right, a place shows what is kept of it, and nothing where nothing is.
pub fn places_show_kept()
    ensures { PlacesShowKept }
{}

/// And a name that the workbook knows shows what is kept of it.
pub fn names_show_kept()
    ensures { NamesShowKept }
{}

/// Where nothing is kept, marks fit that are all filled cells and all names.
pub fn all_marked_fit()
    ensures { AllMarkedFit }
{}
