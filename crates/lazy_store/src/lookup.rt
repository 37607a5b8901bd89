// A formula looked up at a position of the line, without being taken there.
ghost use Rattle.std.specs.Prelude.{◌≡◌, ◌≢◌, ◌+◌, ◌≤◌, ◌<◌, None, Some, IfOk, is_some, option_map};
ghost use Rattle.formula_tree.specs.Pooled.{held};
ghost use Rattle.formula_tree.specs.Relative.{relative};
ghost use Rattle.lazy_store.specs.Holders.{IsFront, kept_of};
ghost use Rattle.lazy_store.specs.Kept.{IsCoherent, IsSoundLine, at, later, lowest, standing, standing_at};
ghost use Rattle.lazy_store.specs.Standing.{IsFit, before};
ghost use Rattle.shift_core.specs.Sound.{IsSound};
ghost use Rattle.tree_rewrite.specs.Rewritten.{home_before};

use crate::holder::{Holder, unsaved_from};
use crate::homes::home_before;
use formula_tree::{Home, Pool, Tree};
use run_walk::{backward_over, forward_over, home_over};
use shift_core::Shift;
use shift_line::Line;
use std::alloc::{AllocError, Global};

impl Holder {
    // Home and tree at the position; None where the formula has no standing there.
    pub(crate) fn found_at(
        &self,
        alloc: Global,
        pool: &mut Pool,
        line: &Line,
        position: u64,
    ) -> Result<Option<(Home, Tree)>, AllocError>
        requires sound { IsSoundLine line.now }
        requires coherent { IsCoherent line.now (kept_of self.now) }
        ensures at { IfOk result (λ r. option_map (λ p. standing_at p.0 (relative p.1.value)) r ≡ at line.now (kept_of self.now) position) }
        ensures pool { IsFront (held pool.old) (held pool.new) }
    {
        if position >= self.position {
            return self.found_later(alloc, pool, line, position);
        }
        if position < line.first().max(self.birth) {
            return Ok(None);
        }
        let found = self.found_earlier(alloc, pool, line, position)?;
        Ok(Some(found))
    }

    // Whether the formula has a standing at the position.
    pub(crate) fn stands_at(&self, line: &Line, position: u64) -> bool
        requires sound { IsSoundLine line.now }
        requires coherent { IsCoherent line.now (kept_of self.now) }
        ensures { result ≡ is_some (at line.now (kept_of self.now) position) }
    {
        if position < self.position {
            return line.first().max(self.birth) <= position;
        }
        self.stands_later(line, position)
    }

    // The same of a position from the formula's own on: its home alone is taken there.
    fn stands_later(&self, line: &Line, position: u64) -> bool
        requires sound { IsSoundLine line.now }
        requires from { self.now.position ≤ position }
        ensures { result ≡ is_some (at line.now (kept_of self.now) position) }
    {
        let mut home = self.home;
        let mut here = self.position;
        'later: while here < position {
            let run = line.run_from(here, position);
            if run.is_empty() {
                return false;
            }
            let Some(next) = home_over(run, home) else {
                return false;
            };
            home = next;
            here += run.len() as u64;
        }
        true
    }

    // Home and tree at a position from the formula's own on.
    fn found_later(
        &self,
        alloc: Global,
        pool: &mut Pool,
        line: &Line,
        position: u64,
    ) -> Result<Option<(Home, Tree)>, AllocError>
        requires sound { IsSoundLine line.now }
        requires from { self.now.position ≤ position }
        requires fit { IsFit (standing (kept_of self.now)) }
        ensures at { IfOk result (λ r. option_map (λ p. standing_at p.0 (relative p.1.value)) r ≡ at line.now (kept_of self.now) position) }
        ensures pool { IsFront (held pool.old) (held pool.new) }
    {
        let mut home = self.home;
        let mut tree = self.tree.clone()?;
        let mut here = self.position;
        'later: while here < position {
            let run = line.run_from(here, position);
            if run.is_empty() {
                return Ok(None);
            }
            if home_over(run, home).is_none() {
                return Ok(None);
            }
            let (next, to) = forward_over(alloc, pool, &tree, home, run)?;
            tree = next;
            home = to;
            here += run.len() as u64;
        }
        Ok(Some((home, tree)))
    }

    // The same at a position in front of the formula's own, back to its lowest.
    fn found_earlier(
        &self,
        alloc: Global,
        pool: &mut Pool,
        line: &Line,
        position: u64,
    ) -> Result<(Home, Tree), AllocError>
        requires sound { IsSoundLine line.now }
        requires coherent { IsCoherent line.now (kept_of self.now) }
        requires from { lowest line.now (kept_of self.now) ≤ position }
        requires to { position < self.now.position }
        ensures at { IfOk result (λ p. at line.now (kept_of self.now) position ≡ Some (standing_at p.0 (relative p.1.value))) }
        ensures pool { IsFront (held pool.old) (held pool.new) }
    {
        let mut home = self.home;
        let mut tree = self.tree.clone()?;
        let mut here = self.position;
        'earlier: while position < here {
            let run = line.run_to(unsaved_from(&self.saved, position, here), here);
            if !run.is_empty() {
                let (next, to) = backward_over(alloc, pool, &tree, home, run)?;
                tree = next;
                home = to;
                here -= run.len() as u64;
                continue;
            }
            here -= 1;
            let Some(s) = line.at(here) else {
                unreachable!()
            };
            let (next, to) = self.found_before(alloc, pool, &s, here, &tree, home)?;
            tree = next;
            home = to;
        }
        Ok((home, tree))
    }

    // The tree and the home before the operation at the position, from those after it: by the saved tree, or by the way
    // back.
    fn found_before(
        &self,
        alloc: Global,
        pool: &mut Pool,
        s: &Shift,
        position: u64,
        tree: &Tree,
        home: Home,
    ) -> Result<(Tree, Home), AllocError>
        requires sound { IsSound s.now }
        requires fit { IsFit (standing_at home (relative tree.now.value)) }
        requires kept { home_before s.now home ≢ None }
        ensures before { IfOk result (λ r. before s.now ((kept_of self.now).saved position) (standing_at home (relative tree.now.value)) ≡ Some (standing_at r.1 (relative r.0.value))) }
        ensures pool { IsFront (held pool.old) (held pool.new) }
    {
        match self.saved.get(&position) {
            Some(saved) => {
                let Some(to) = home_before(home, s) else {
                    unreachable!()
                };
                Ok((saved.clone()?, to))
            }
            None => Ok(tree_rewrite::backward(alloc, pool, tree, home, s)?),
        }
    }
}
