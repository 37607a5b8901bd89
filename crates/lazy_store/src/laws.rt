//! What holds of every formula that a store keeps: laws, with nothing to run.

ghost use Rattle.lazy_store.specs.Laws.{HistoriesAreStandings, SavedWhereLost, StandingsFollow};

/// From its lowest position on a formula has at each position the standing of the one before, taken over the operation
/// between them, as if each operation had rewritten it at once; elsewhere it has none.
pub fn standings_follow()
    ensures { StandingsFollow }
{}

/// A history along which a formula goes is that of its standings.
pub fn histories_are_standings()
    ensures { HistoriesAreStandings }
{}

/// A tree is saved exactly where an operation behind the formula loses something of it.
pub fn saved_where_lost()
    ensures { SavedWhereLost }
{}
