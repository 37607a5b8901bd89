// A formula with its trees at all positions of the line, each made by the operation before it at once.

use crate::known::Known;
use formula_tree::Pool;
use shift_core::Shift;
use std::alloc::{AllocError, Global};
use std::collections::VecDeque;

/// A formula with its home and tree at each position from its earliest on.
#[derive(Drop)]
pub(crate) struct Whole {
    pub(crate) live: bool,
    /// The position as of which a store is to keep the formula.
    pub(crate) kept: u64,
    earliest: u64,
    standings: VecDeque<Known>,
}

impl Whole {
    /// A live formula that comes at the position.
    pub(crate) fn new(alloc: Global, position: u64, standing: Known) -> Result<Whole, AllocError> {
        let mut standings = VecDeque::new(alloc);
        standings.push_back(standing)?;
        Ok(Whole {
            live: true,
            kept: position,
            earliest: position,
            standings,
        })
    }

    /// Home and tree at the position.
    pub(crate) fn at(&self, position: u64) -> Option<&Known> {
        let later = position.checked_sub(self.earliest)?;
        self.standings.get(usize::try_from(later).ok()?)
    }

    /// Whether the formula can be brought back to a position in front of the one as of which it is kept.
    pub(crate) fn can_come_back(&self, position: u64) -> bool {
        self.kept <= position || (self.live && self.at(position).is_some())
    }

    /// Whether the formula can be taken on to a position behind the one as of which it is kept.
    pub(crate) fn can_go_on(&self, position: u64) -> bool {
        position <= self.kept || self.at(position).is_some()
    }

    /// Rewrites the formula at the position over the operation there; what was beyond the position is forgotten.
    pub(crate) fn rewrite(
        &mut self,
        alloc: Global,
        pool: &mut Pool,
        position: u64,
        s: &Shift,
    ) -> Result<(), AllocError> {
        self.forget_beyond(position);
        let next = match self.at(position) {
            Some(standing) => standing.after(alloc, pool, s)?,
            None => None,
        };
        if let Some(next) = next {
            self.standings.push_back(next)?;
        }
        Ok(())
    }

    // Forgets what is beyond the position.
    fn forget_beyond(&mut self, position: u64) {
        let count = match position.checked_sub(self.earliest) {
            Some(later) => later.saturating_add(1),
            None => 0,
        };
        self.standings
            .truncate(usize::try_from(count).unwrap_or(usize::MAX));
    }

    /// A formula that is kept as of a position beyond this one was brought back to it.
    pub(crate) fn come_back(&mut self, position: u64) {
        self.kept = self.kept.min(position);
    }

    /// Forgets what was before the position.
    pub(crate) fn forget_before(&mut self, position: u64) {
        'before: for _ in self.earliest..position {
            let _ = self.standings.pop_front();
        }
        self.earliest = self.earliest.max(position);
        self.kept = self.kept.max(position);
    }
}
