// Which formulas of a table are looked at.
ghost use Rattle.std.specs.Prelude.{◌≡◌, length, slice_get};
ghost use Rattle.lazy_store.specs.internal.Recent.{ids_among};

use crate::holder::Holder;
use indexmap::IndexMap;

// All formulas, or those of some ids.
#[derive(Clone, Copy)]
pub(crate) enum Among<'a> {
    All,
    These(&'a [u64]),
}

impl Among<'_> {
    // How many ids there are.
    pub(crate) fn len(self, holders: &IndexMap<u64, Holder>) -> usize
        ensures { result ≡ length (ids_among self.entry holders.now) }
    {
        match self {
            Among::All => holders.len(),
            Among::These(ids) => ids.len(),
        }
    }

    // The id at the index.
    pub(crate) fn id_at(self, holders: &IndexMap<u64, Holder>, index: usize) -> Option<u64>
        ensures { result ≡ slice_get (ids_among self.entry holders.now) index }
    {
        match self {
            Among::All => {
                let (id, _) = holders.get_index(index)?;
                Some(*id)
            }
            Among::These(ids) => ids.get(index).copied(),
        }
    }
}
