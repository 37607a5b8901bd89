//! What holds of every network: laws, with nothing to run. `K` is the type of nodes, `V` that of values.

ghost use Rattle.value_network.specs.Laws.{OfEach, WhateverIsBad, Unfolds, IsUnique, Settles, WorksInPlace, HasShortChains, CyclesReturn, StuckLeadsToCycle, StuckReturns, StuckSpreads, FreeNeedsFree, CyclicIsStuck, RanksForbidCycles, OrdersForbidCycles};

/// A good node shows what it works out from what the others show, a bad one a cycle's value.
pub fn values_unfold<K, V>()
    ensures { OfEach K V (WhateverIsBad Unfolds) }
{}

/// Nothing but the values unfolds so, also on any set of nodes with all that they need.
pub fn values_are_unique<K, V>()
    ensures { OfEach K V (WhateverIsBad IsUnique) }
{}

/// More rounds than there are formulas give the values, whatever the nodes showed at first.
pub fn values_settle<K, V>()
    ensures { OfEach K V (WhateverIsBad Settles) }
{}

/// A good node works out its own value where the nodes that following its needs comes to already show theirs.
pub fn values_come_in_place<K, V>()
    ensures { OfEach K V (WhateverIsBad WorksInPlace) }
{}

/// A chain of any number of needs can be cut to no more links than there are formulas.
pub fn chains_are_short<K, V>()
    ensures { OfEach K V HasShortChains }
{}

/// The nodes on a cycle are those from which following needs comes back to them.
pub fn cycles_return<K, V>()
    ensures { OfEach K V CyclesReturn }
{}

/// The stuck nodes are those on a cycle, and those from which following needs comes to one.
pub fn stuck_leads_to_cycle<K, V>()
    ensures { OfEach K V StuckLeadsToCycle }
{}

/// The stuck nodes are those from which following needs comes to a node from which it comes back to that node.
pub fn stuck_returns<K, V>()
    ensures { OfEach K V StuckReturns }
{}

/// What needs a stuck node is stuck.
pub fn stuck_spreads<K, V>()
    ensures { OfEach K V StuckSpreads }
{}

/// A node that is not stuck needs no stuck node.
pub fn free_needs_free<K, V>()
    ensures { OfEach K V FreeNeedsFree }
{}

/// A node on a cycle is stuck, so the stuck nodes may be taken as the bad ones.
pub fn cyclic_is_stuck<K, V>()
    ensures { OfEach K V CyclicIsStuck }
{}

/// Where each node needs only nodes of a lower rank, none is on a cycle.
pub fn ranks_forbid_cycles<K, V>()
    ensures { OfEach K V RanksForbidCycles }
{}

/// Where each node needs only earlier nodes, none is on a cycle.
pub fn orders_forbid_cycles<K, V>()
    ensures { OfEach K V OrdersForbidCycles }
{}
