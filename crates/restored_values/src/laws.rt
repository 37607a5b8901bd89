// What of an operation is found in the workbook that it led to, as laws.
ghost use Rattle.restored_values.specs.Probes.{BentAreProbed, BentWholesAreProbed, ProbesAreSound, ProbesBendFew, ProbesBendFewWholes};
ghost use Rattle.restored_values.specs.Suspects.{LostAnywhere, LostAreSeen, SuspectsAreRestored, SuspectsBringBack};

/// The probe of a sound operation is sound.
pub fn probes_are_sound()
    ensures { ProbesAreSound }
{}

/// A block that an operation bends or cuts, and doesn't lose, its probe then bends or cuts.
pub fn bent_are_probed()
    ensures { BentAreProbed }
{}

/// A whole range that an operation bends, and doesn't lose, its probe then bends.
pub fn bent_wholes_are_probed()
    ensures { BentWholesAreProbed }
{}

/// A block that a probe bends or cuts has a line near what its operation changed.
pub fn probes_bend_few()
    ensures { ProbesBendFew }
{}

/// A whole range that a probe bends has such a line, or the operation edits lines across it.
pub fn probes_bend_few_wholes()
    ensures { ProbesBendFewWholes }
{}

/// A formula has a lost reference wherever it stands.
pub fn lost_anywhere()
    ensures { LostAnywhere }
{}

/// A formula that was linked to what an operation loses has a lost reference after it.
pub fn lost_are_seen()
    ensures { LostAreSeen }
{}

/// What was marked or suspect before an operation is taken back, and what it had removed, is what comes back then.
pub fn suspects_are_restored()
    ensures { SuspectsAreRestored }
{}

/// After an operation was taken back by its opposite, links and kept values that went back with their nodes follow the workbook from
/// before it, where what was marked, unsettled, suspect or removed is marked.
pub fn suspects_bring_back()
    ensures { SuspectsBringBack }
{}
