// A store whose cursor never goes back.
ghost use Rattle.formula_tree.specs.Reference.{IsHomeInside};
ghost use Rattle.formula_tree.specs.Relative.{relative};
ghost use Rattle.formula_tree.specs.StandsFor.{at_home};
ghost use Rattle.lazy_store.specs.Store.{AreBehind};
ghost use Rattle.tree_rewrite.specs.References.{FitsSheets};

use formula_tree::{Home, Pool, Tree};
use lazy_store::Lazy;
use shift_core::{Shift, sound};
use std::alloc::{AllocError, Global};

/// A store whose formulas are all kept as of a position up to the cursor.
#[derive(Drop)]
pub(crate) struct Onward {
    store: Lazy,
    ghost behind: { AreBehind store.line.cursor store },
}

impl Onward {
    /// A store of no formulas.
    pub(crate) fn new(alloc: Global) -> Result<Onward, AllocError> {
        Ok(Onward {
            store: Lazy::new(alloc)?,
        })
    }

    /// Adds a formula, where there is none under the id. The home and the tree's references and blocks lie within the limits
    /// of a sheet.
    pub(crate) fn insert(&mut self, id: u64, home: Home, tree: Tree) -> Result<(), AllocError>
        requires home { IsHomeInside home }
        requires fits { FitsSheets (at_home home (relative tree.value)) }
    {
        if self.store.is_live(id).is_some() {
            return Ok(());
        }
        self.store.insert(id, home, tree)
    }

    /// Puts an operation on the line, where it can be done.
    pub(crate) fn shift(&mut self, pool: &mut Pool, s: Shift) -> Result<(), AllocError> {
        if !sound(&s) || self.store.line().cursor() == u64::MAX {
            return Ok(());
        }
        self.store.shift(pool, s)
    }

    /// The store, whose cursor may go back from here on.
    pub(crate) fn into_store(self) -> Lazy {
        self.store
    }
}
