// Home and tree of a formula at one position of the line.
ghost use Rattle.std.specs.Prelude.{◌≢◌, None, IsTrue};
ghost use Rattle.formula_tree.specs.Relative.{relative};
ghost use Rattle.lazy_store.specs.Kept.{standing_at};
ghost use Rattle.lazy_store.specs.Standing.{IsFit};
ghost use Rattle.lazy_store.specs.internal.Props.{is_fit-prop};
ghost use Rattle.shift_core.specs.Sound.{IsSound};
ghost use Rattle.tree_rewrite.specs.Rewritten.{home_after};

use formula_tree::{Home, Pool, Tree};
use shift_core::{Shift, moved_place, sound};
use std::alloc::{AllocError, Global};
use tree_rewrite::{forward, loses};

/// Where a formula is at a position of the line, and its tree there.
#[derive(Drop)]
pub(crate) struct Known {
    pub(crate) home: Home,
    pub(crate) tree: Tree,
    ghost fits: { IsFit (standing_at home (relative tree.value)) } by { is_fit-prop (standing_at home (relative tree.value)) },
}

impl Known {
    /// The formula after the operation; `None` where the operation can't be done, or the home is lost.
    pub(crate) fn after(
        &self,
        alloc: Global,
        pool: &mut Pool,
        s: &Shift,
    ) -> Result<Option<Known>, AllocError> {
        if !leads_on(self.home, s) {
            return Ok(None);
        }
        let (tree, home) = forward(alloc, pool, &self.tree, self.home, s)?;
        Ok(Some(Known { home, tree }))
    }

    /// Whether the operation loses something of the tree.
    pub(crate) fn is_lost_over(&self, s: &Shift) -> bool {
        sound(s) && loses(&self.tree, self.home, s)
    }

    /// Whether the home and the tree are these. Trees of one pool are equal where they are the same one.
    pub(crate) fn is(&self, home: Home, tree: &Tree) -> bool {
        self.home == home && Tree::ptr_eq(&self.tree, tree)
    }
}

// Whether the operation can be done and leaves the home somewhere.
fn leads_on(home: Home, s: &Shift) -> bool
    ensures { IsTrue result → IsSound s.now × (home_after s.now home ≢ None) }
{
    if !sound(s) {
        return false;
    }
    match home {
        Home::Cell(at) => moved_place(s, at).is_some(),
        Home::Name { .. } => true,
    }
}
