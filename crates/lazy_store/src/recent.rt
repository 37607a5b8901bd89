// Which formulas may be kept as of a position beyond an earlier one.
ghost use Rattle.std.specs.Prelude.{◌≡◌, ◌≤◌, ℕ, ◌⊎◌};
ghost use Rattle.lazy_store.specs.internal.Recent.{AreLookedAt, AreNoted, IsNoted};

use crate::among::Among;
use crate::holder::Holder;
use indexmap::IndexMap;
use std::alloc::Global;

// So many formulas stand behind each id that is noted at most, and so many ids are noted in any case: but for a settle, and for
// want of memory, whoever has to look at all formulas has noted one for each so many of them before.
const FORMULAS_AN_ID: usize = 64;

// Ids of formulas: of each that is kept as of a position beyond `from`, and of others.
#[derive(Drop)]
pub(crate) struct Recent {
    pub(crate) from: u64,
    pub(crate) ids: Vec<u64>,
}

impl Recent {
    // No id, where each formula is kept as of position 0. Takes no memory.
    pub(crate) fn new(alloc: Global) -> Recent {
        Recent {
            from: 0,
            ids: Vec::new(alloc),
        }
    }

    // Notes that a formula may be kept as of any position up to the line's last one. Where too many ids are noted for the number
    // of formulas, or there is no memory for one more, all are let go.
    pub(crate) fn note(&mut self, id: u64, last: u64, formulas: usize)
        ensures noted { (k : ℕ) → k ≤ last → IsNoted self.new id k }
        ensures others { (other k : ℕ) → k ≤ last → IsNoted self.old other k → IsNoted self.new other k }
    {
        if last <= self.from {
            return;
        }
        let few = formulas / FORMULAS_AN_ID + FORMULAS_AN_ID;
        if few <= self.ids.len() || self.ids.push(id).is_err() {
            self.let_go(last);
        }
    }

    // Lets all ids go, where no formula is kept as of a position beyond this one.
    pub(crate) fn let_go(&mut self, position: u64)
        ensures from { self.new.from ≡ position }
        ensures noted { (id k : ℕ) → k ≤ position → IsNoted self.new id k }
    {
        self.from = position;
        self.ids.clear();
    }

    // Lets all ids go where they aren't all of those that may be kept as of a position beyond this one.
    pub(crate) fn let_go_behind(&mut self, position: u64, last: u64)
        ensures noted { (id k : ℕ) → k ≤ last → IsNoted self.old id k → IsNoted self.new id k }
        ensures either { (self.new.from ≤ position) ⊎ (last ≤ self.new.from) }
    {
        if position < self.from {
            self.let_go(last);
        }
    }

    // Those to look at for the formulas that are kept as of a position beyond this one.
    pub(crate) fn beyond(&self, position: u64, holders: &IndexMap<u64, Holder>) -> Among<'_>
        requires { AreNoted self.now holders.now }
        ensures { AreLookedAt result position holders.now }
    {
        if position < self.from {
            Among::All
        } else {
            Among::These(&self.ids)
        }
    }
}
