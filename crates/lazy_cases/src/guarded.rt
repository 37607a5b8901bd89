// A store whose calls are made only where they may be.
ghost use Rattle.std.specs.Prelude.{◌≡◌, ℕ, ◌≤◌, None};
ghost use Rattle.lazy_cases.specs.declared.guarded.TheConstants.{IDS};
ghost use Rattle.lazy_store.specs.Store.{live_in};

use crate::clearing::{clear_before, clear_beyond};
use crate::known::Known;
use formula_tree::{Pool, Tree};
use lazy_store::Lazy;
use shift_core::{Shift, sound};
use std::alloc::{AllocError, Global};

/// All ids are below this.
pub(crate) const IDS: u64 = 12;

/// What becomes of a formula of the store.
#[derive(Clone, Copy)]
pub(crate) enum Change {
    Remove,
    PutBack,
    Forget,
}

/// A store of formulas under ids below [`IDS`].
pub(crate) struct Guarded {
    store: Lazy,
    ghost ids: { (id : ℕ) → IDS ≤ id → live_in store id ≡ None },
}

// Written out, so that whoever drops one calls one function.
impl Drop for Guarded {
    fn drop(self) {
        let Guarded { store: _store } = self;
    }
}

impl Guarded {
    /// A store of no formulas.
    pub(crate) fn new(alloc: Global) -> Result<Guarded, AllocError> {
        Ok(Guarded {
            store: Lazy::new(alloc)?,
        })
    }

    /// The store.
    pub(crate) fn store(&self) -> &Lazy {
        &self.store
    }

    /// Makes room for so many formulas and operations.
    pub(crate) fn reserve(&mut self, more: usize) -> Result<(), AllocError> {
        self.store.reserve(more)
    }

    /// Adds a formula where there is none under the id, and says whether it did.
    pub(crate) fn insert(&mut self, id: u64, standing: &Known) -> Result<bool, AllocError> {
        if id >= IDS || self.store.is_live(id).is_some() {
            return Ok(false);
        }
        let tree = standing.tree.clone()?;
        self.store.insert(id, standing.home, tree)?;
        Ok(true)
    }

    /// Changes the formula under the id where it may be, and says whether it did.
    pub(crate) fn change(&mut self, change: Change, id: u64) -> bool {
        match (change, self.store.is_live(id)) {
            (Change::Remove, Some(true)) => self.store.remove(id),
            (Change::PutBack, Some(false)) => self.store.put_back(id),
            (Change::Forget, Some(false)) => self.store.forget(id),
            _ => return false,
        }
        true
    }

    /// The tree of the formula under the id at the cursor, where it is live and has one there.
    pub(crate) fn read(&mut self, pool: &mut Pool, id: u64) -> Result<Option<Tree>, AllocError> {
        if self.store.is_live(id) != Some(true) {
            return Ok(None);
        }
        let cursor = self.store.line().cursor();
        if self.store.tree_at(pool, id, cursor)?.is_none() {
            return Ok(None);
        }
        let tree = self.store.read(pool, id)?;
        Ok(Some(tree))
    }

    /// Takes formulas that lag behind the cursor to it within the budget, and says whether none is left.
    pub(crate) fn catch_up(&mut self, pool: &mut Pool, budget: u64) -> Result<bool, AllocError> {
        self.store.catch_up(pool, budget)
    }

    /// Moves the cursor to a position of the line.
    pub(crate) fn move_cursor(&mut self, position: u64) {
        let (first, last) = (self.store.line().first(), self.store.line().last());
        if first <= position && position <= last {
            self.store.move_cursor(position);
        }
    }

    /// Puts an operation on the line where it can be done, and says whether it did. Formulas beyond the cursor that can't
    /// come back are dropped before.
    pub(crate) fn shift(&mut self, pool: &mut Pool, s: Shift) -> Result<bool, AllocError> {
        if !sound(&s) || self.store.line().cursor() == u64::MAX {
            return Ok(false);
        }
        clear_beyond(&mut self.store, pool)?;
        self.store.shift(pool, s)?;
        Ok(true)
    }

    /// Settles the store to the position, from the line's first to the cursor, and says whether it did. Formulas before it
    /// that can't go on to it are dropped before.
    pub(crate) fn settle(&mut self, pool: &mut Pool, position: u64) -> Result<bool, AllocError> {
        let (first, cursor) = (self.store.line().first(), self.store.line().cursor());
        if position < first || cursor < position {
            return Ok(false);
        }
        clear_before(&mut self.store, pool, position)?;
        self.store.settle(pool, position)?;
        Ok(true)
    }
}
