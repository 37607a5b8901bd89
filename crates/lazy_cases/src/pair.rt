// A store beside the plain machine: each call is made on both, and then all formulas are compared.

use crate::guarded::{Change, Guarded, IDS};
use crate::known::Known;
use crate::plain::Plain;
use crate::reading::read_formula;
use crate::tally::Tally;
use crate::whole::Whole;
use formula_tree::{Home, Pool, Tree};
use shift_core::Shift;
use std::alloc::{AllocError, Global};

/// A store and the plain machine, which share a pool.
pub(crate) struct Pair {
    alloc: Global,
    pool: Pool,
    store: Guarded,
    plain: Plain,
}

// Written out, so that whoever drops one calls one function.
impl Drop for Pair {
    fn drop(self) {
        let Pair {
            alloc: _,
            pool: _pool,
            store: _store,
            plain: _plain,
        } = self;
    }
}

impl Pair {
    /// A store without formulas, and a plain machine.
    pub(crate) fn new(alloc: Global) -> Result<Pair, AllocError> {
        Ok(Pair {
            alloc,
            pool: Pool::new(alloc)?,
            store: Guarded::new(alloc)?,
            plain: Plain::new(alloc)?,
        })
    }

    /// The positions of the first operation, the cursor and the last operation.
    pub(crate) fn positions(&self) -> (u64, u64, u64) {
        (self.plain.first, self.plain.cursor, self.plain.last())
    }

    /// Puts the formula that the text spells under a free id.
    pub(crate) fn insert(&mut self, id: u64, home: Home, text: &str) -> Result<(), AllocError> {
        let Some(standing) = read_formula(self.alloc, &mut self.pool, home, text)? else {
            return Ok(());
        };
        if self.plain.formula(id).is_none() && self.store.insert(id, &standing)? {
            self.plain.insert(&mut self.pool, id, standing)?;
        }
        Ok(())
    }

    /// Removes, puts back or forgets the formula under the id.
    pub(crate) fn change(&mut self, change: Change, id: u64) {
        let _ = self.store.change(change, id);
        self.plain.change(change, id);
    }

    /// Reads the formula under the id.
    pub(crate) fn read(&mut self, id: u64, tally: &mut Tally) -> Result<(), AllocError> {
        let read = self.store.read(&mut self.pool, id)?;
        let cursor = self.plain.cursor;
        let wanted = match self.plain.formula(id) {
            Some(formula) if formula.live => formula.at(cursor),
            _ => None,
        };
        tally.compare(match (&read, wanted) {
            (Some(tree), Some(standing)) => Tree::ptr_eq(tree, &standing.tree),
            (None, None) => true,
            _ => false,
        });
        if wanted.is_some() {
            self.plain.keep_at_cursor(id);
        }
        Ok(())
    }

    /// Moves the cursor to a position of the line.
    pub(crate) fn move_cursor(&mut self, position: u64) {
        self.store.move_cursor(position);
        self.plain.move_cursor(position);
    }

    /// Puts the operation on the line, where it can be done.
    pub(crate) fn shift(&mut self, s: Shift) -> Result<(), AllocError> {
        if self.store.shift(&mut self.pool, s)? {
            self.plain.rewrite(&mut self.pool, s)?;
        }
        Ok(())
    }

    /// Settles both to the position.
    pub(crate) fn settle(&mut self, position: u64) -> Result<(), AllocError> {
        if self.store.settle(&mut self.pool, position)? {
            self.plain.forget_before(position);
        }
        Ok(())
    }

    /// Compares the line, and all formulas at all positions and just beside them.
    pub(crate) fn compare(&mut self, tally: &mut Tally) -> Result<(), AllocError> {
        self.compare_line(tally);
        let (first, _, last) = self.positions();
        'formulas: for id in 0..IDS {
            self.compare_kept(id, tally);
            'positions: for position in first.saturating_sub(1)..last.saturating_add(2) {
                self.compare_standing(id, position, tally)?;
                self.compare_saved(id, position, tally);
            }
        }
        Ok(())
    }

    // Compares the positions of the line.
    fn compare_line(&self, tally: &mut Tally) {
        let line = self.store.store().line();
        let positions = (line.first(), line.cursor(), line.last());
        tally.compare(positions == self.positions());
    }

    // Compares home and tree of the formula at the position.
    fn compare_standing(
        &mut self,
        id: u64,
        position: u64,
        tally: &mut Tally,
    ) -> Result<(), AllocError> {
        let found = self.store.store().tree_at(&mut self.pool, id, position)?;
        let wanted = match self.plain.formula(id) {
            Some(formula) => formula.at(position),
            None => None,
        };
        tally.compare(is_same(wanted, found.as_ref()));
        Ok(())
    }

    // Compares whether the formula is live, and the position, home and tree as of which it is kept.
    fn compare_kept(&self, id: u64, tally: &mut Tally) {
        let formula = self.plain.formula(id);
        tally.compare(self.store.store().is_live(id) == formula.map(|f| f.live));
        tally.compare(match (self.store.store().stored(id), formula) {
            (Some(stored), Some(formula)) => {
                stored.position == formula.kept
                    && formula
                        .at(formula.kept)
                        .is_some_and(|standing| standing.is(stored.home, stored.tree))
            }
            (None, None) => true,
            _ => false,
        });
    }

    // Compares what is saved of the formula over the operation at the position.
    fn compare_saved(&self, id: u64, position: u64, tally: &mut Tally) {
        let wanted = self.plain.saved_at(id, position);
        let saved = self.store.store().saved(id, position);
        tally.compare(match (saved, wanted) {
            (Some(tree), Some(standing)) => Tree::ptr_eq(tree, &standing.tree),
            (None, None) => true,
            _ => false,
        });
    }
}

// Whether home and tree are the wanted ones.
fn is_same(wanted: Option<&Known>, found: Option<&(Home, Tree)>) -> bool {
    match (wanted, found) {
        (Some(standing), Some((home, tree))) => standing.is(*home, tree),
        (None, None) => true,
        _ => false,
    }
}
