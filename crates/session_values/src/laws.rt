// When what is kept of values follows still, as laws.
ghost use Rattle.session_values.specs.Following.{CellsFollow, ReadsFollow};

/// After a change that leaves the names, and each cell that isn't marked, what is kept follows still.
pub fn cells_follow()
    ensures { CellsFollow }
{}

/// What reads leave it follows still.
pub fn reads_follow()
    ensures { ReadsFollow }
{}
