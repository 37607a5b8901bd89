// The plain machine: every operation rewrites every tree at once, and the trees of all positions are kept.

use crate::guarded::{Change, IDS};
use crate::known::Known;
use crate::whole::Whole;
use formula_tree::Pool;
use shift_core::Shift;
use std::alloc::{AllocError, Global};
use std::collections::VecDeque;

/// Formulas under ids below [`IDS`], the operations, and a cursor.
#[derive(Drop)]
pub(crate) struct Plain {
    alloc: Global,
    pub(crate) first: u64,
    pub(crate) cursor: u64,
    shifts: VecDeque<Shift>,
    formulas: Vec<Option<Whole>>,
}

impl Plain {
    /// No operations and no formulas.
    pub(crate) fn new(alloc: Global) -> Result<Plain, AllocError> {
        let mut formulas = Vec::new(alloc);
        'ids: for _ in 0..IDS {
            formulas.push(None)?;
        }
        Ok(Plain {
            alloc,
            first: 0,
            cursor: 0,
            shifts: VecDeque::new(alloc),
            formulas,
        })
    }

    /// The position behind the last operation.
    pub(crate) fn last(&self) -> u64 {
        self.first.saturating_add(self.shifts.len() as u64)
    }

    /// The operation at the position.
    pub(crate) fn shift_at(&self, position: u64) -> Option<Shift> {
        let later = position.checked_sub(self.first)?;
        self.shifts.get(usize::try_from(later).ok()?).copied()
    }

    /// The formula under the id.
    pub(crate) fn formula(&self, id: u64) -> Option<&Whole> {
        self.formulas.get(usize::try_from(id).ok()?)?.as_ref()
    }

    /// What a store is to have saved of the formula over the operation at the position: the tree in front of it, where the
    /// formula is kept as of a position behind it and the operation loses something of the tree.
    pub(crate) fn saved_at(&self, id: u64, position: u64) -> Option<&Known> {
        let formula = self.formula(id)?;
        let s = self.shift_at(position)?;
        if position >= formula.kept {
            return None;
        }
        formula
            .at(position)
            .filter(|standing| standing.is_lost_over(&s))
    }

    /// Puts a formula under the id at the cursor, and rewrites it over the operations beyond.
    pub(crate) fn insert(
        &mut self,
        pool: &mut Pool,
        id: u64,
        standing: Known,
    ) -> Result<(), AllocError> {
        let mut formula = Whole::new(self.alloc, self.cursor, standing)?;
        'beyond: for position in self.cursor..self.last() {
            if let Some(s) = self.shift_at(position) {
                formula.rewrite(self.alloc, pool, position, &s)?;
            }
        }
        if let Some(slot) = slot_of(&mut self.formulas, id) {
            *slot = Some(formula);
        }
        Ok(())
    }

    /// Removes, puts back or forgets the formula under the id, where it may be.
    pub(crate) fn change(&mut self, change: Change, id: u64) {
        let Some(slot) = slot_of(&mut self.formulas, id) else {
            return;
        };
        let Some(formula) = slot else {
            return;
        };
        match (change, formula.live) {
            (Change::Remove, true) => formula.live = false,
            (Change::PutBack, false) => formula.live = true,
            (Change::Forget, false) => *slot = None,
            _ => {}
        }
    }

    /// The formula under the id was read.
    pub(crate) fn keep_at_cursor(&mut self, id: u64) {
        if let Some(Some(formula)) = slot_of(&mut self.formulas, id) {
            formula.kept = self.cursor;
        }
    }

    /// Moves the cursor to a position of the line.
    pub(crate) fn move_cursor(&mut self, position: u64) {
        if self.first <= position && position <= self.last() {
            self.cursor = position;
        }
    }

    /// Rewrites all formulas over the operation at the cursor, in place of the operations beyond it. Those that are kept as
    /// of a position beyond the cursor and can't come back are dropped.
    pub(crate) fn rewrite(&mut self, pool: &mut Pool, s: Shift) -> Result<(), AllocError> {
        'formulas: for slot in self.formulas.iter_mut() {
            if let Some(formula) = slot {
                if formula.can_come_back(self.cursor) {
                    formula.rewrite(self.alloc, pool, self.cursor, &s)?;
                    formula.come_back(self.cursor);
                } else {
                    *slot = None;
                }
            }
        }
        'beyond: for _ in self.cursor..self.last() {
            let _ = self.shifts.pop_back();
        }
        self.shifts.push_back(s)?;
        self.cursor = self.cursor.saturating_add(1);
        Ok(())
    }

    /// Forgets operations and trees before the position. Formulas that are kept as of one before and can't go on are dropped.
    pub(crate) fn forget_before(&mut self, position: u64) {
        'formulas: for slot in self.formulas.iter_mut() {
            if let Some(formula) = slot {
                if formula.can_go_on(position) {
                    formula.forget_before(position);
                } else {
                    *slot = None;
                }
            }
        }
        'before: for _ in self.first..position {
            let _ = self.shifts.pop_front();
        }
        self.first = self.first.max(position);
    }
}

// Where the formula under the id is kept.
fn slot_of(formulas: &mut Vec<Option<Whole>>, id: u64) -> Option<&mut Option<Whole>> {
    formulas.get_mut(usize::try_from(id).ok()?)
}
