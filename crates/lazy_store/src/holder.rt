// One formula, and its steps along the line.
ghost use Rattle.std.specs.BTreeMap.{IsEmpty, IsLowerBound, get};
ghost use Rattle.std.specs.Ordering.{nat_cmp};
ghost use Rattle.std.specs.Prelude.{◌≡◌, ◌≢◌, ℕ, ◌+◌, ◌≤◌, ◌<◌, ◌-◌, ⊤, None, Some, MatchOption, IfOk, IfSome, OnOk, OnErr, length, take};
ghost use Rattle.formula_tree.specs.Pooled.{held};
ghost use Rattle.shift_core.specs.Sound.{IsSound};
ghost use Rattle.run_walk.specs.Run.{AreSound, home_back, home_over};
ghost use Rattle.shift_line.specs.Track.{last};
ghost use Rattle.tree_rewrite.specs.Rewritten.{home_after, home_before};

use crate::homes::home_before;
use crate::pending::{Listed, Pending, between};
use formula_tree::{Home, Pool, Tree};
use run_walk::{backward_over, forward_by, free_by};
use shift_core::Shift;
use shift_line::Line;
use std::alloc::{AllocError, Global};
use std::collections::BTreeMap;
use tree_rewrite::loses;

// A formula: home and tree as of a position of the line, and the trees from before losing operations by the
// positions of these.
#[derive(Drop)]
pub(crate) struct Holder {
    // The cursor as the formula came.
    pub(crate) birth: u64,
    pub(crate) position: u64,
    pub(crate) home: Home,
    pub(crate) tree: Tree,
    pub(crate) saved: BTreeMap<u64, Tree>,
    // Whether the formula is one of the workbook, and not removed from it.
    pub(crate) live: bool,
}

impl Holder {
    ghost use Rattle.lazy_store.specs.Holders.{IsFront, kept_of};
    ghost use Rattle.lazy_store.specs.Kept.{IsCoherent, IsSoundLine, at, fresh, standing, standing_at};
    ghost use Rattle.lazy_store.specs.Standing.{IsFit, before};
    ghost use Rattle.lazy_store.specs.internal.Pending.{IsListed, shifts_of};
    ghost use Rattle.lazy_store.specs.internal.Steps.{CutsOff, GoesAlong, GoesBack, GoesBackOver, GoesOn, GoesOver, Saves, Takes};
    ghost use Rattle.formula_tree.specs.Relative.{relative};

    // A live formula that comes at this position.
    pub(crate) fn new(alloc: Global, position: u64, home: Home, tree: Tree) -> Holder
        ensures { kept_of result ≡ fresh position home (relative tree.value) }
    {
        Holder {
            birth: position,
            position,
            home,
            tree,
            saved: BTreeMap::new(alloc),
            live: true,
        }
    }

    // Takes the formula to the position, over the operations between, by a list of those where there is one. For want of
    // memory it stays at one on the way.
    pub(crate) fn go_to(
        &mut self,
        alloc: Global,
        pool: &mut Pool,
        line: &Line,
        listed: Option<&Listed>,
        position: u64,
    ) -> Result<(), AllocError>
        requires sound { IsSoundLine line.now }
        requires listed { MatchOption listed ⊤ (λ l. IsListed line.now position l.now) }
        requires coherent { IsCoherent line.now (kept_of self.old) }
        requires within { position ≤ last line.now }
        requires there { at line.now (kept_of self.old) position ≢ None }
        ensures along { GoesAlong line.now (kept_of self.old) (kept_of self.new) }
        ensures ok { OnOk result (self.new.position ≡ position) }
        ensures pool { IsFront (held pool.old) (held pool.new) }
    {
        'forward: while self.position < position {
            let pending = between(line, listed, self.position, position);
            let free = free_by(&self.tree, self.home, &pending);
            if free > 0 {
                self.go_over(alloc, pool, &pending, free)?;
                continue;
            }
            let Some(s) = line.at(self.position) else {
                unreachable!()
            };
            self.go_on(alloc, pool, &s)?;
        }
        'back: while position < self.position {
            let passed = line.run_to(
                unsaved_from(&self.saved, position, self.position),
                self.position,
            );
            if !passed.is_empty() {
                self.go_back_over(alloc, pool, passed)?;
                continue;
            }
            let Some(s) = line.at(self.position - 1) else {
                unreachable!()
            };
            self.go_back(alloc, pool, &s)?;
        }
        Ok(())
    }

    // Takes the formula over so many operations from its position on, all at once. They are to lose nothing of it.
    fn go_over(
        &mut self,
        alloc: Global,
        pool: &mut Pool,
        way: &Pending<'_>,
        count: usize,
    ) -> Result<(), AllocError>
        requires sound { AreSound (shifts_of way.now) }
        requires within { count ≤ length (shifts_of way.now) }
        requires room { self.old.position + count ≤ u64.MAX }
        requires fit { IsFit (standing (kept_of self.old)) }
        requires kept { home_over (take count (shifts_of way.now)) self.old.home ≢ None }
        ensures ok { OnOk result (GoesOver (take count (shifts_of way.now)) (kept_of self.old) (kept_of self.new)) }
        ensures err { OnErr result (kept_of self.new ≡ kept_of self.old) }
        ensures pool { IsFront (held pool.old) (held pool.new) }
    {
        let (tree, home) = forward_by(alloc, pool, &self.tree, self.home, way, count)?;
        self.tree = tree;
        self.home = home;
        self.position += count as u64;
        Ok(())
    }

    // Takes the formula back over operations up to its position, all at once. Over none of them a tree is to be saved.
    fn go_back_over(
        &mut self,
        alloc: Global,
        pool: &mut Pool,
        run: &[Shift],
    ) -> Result<(), AllocError>
        requires sound { AreSound run.now }
        requires room { length run.now ≤ self.old.position }
        requires fit { IsFit (standing (kept_of self.old)) }
        requires kept { home_back run.now self.old.home ≢ None }
        ensures ok { OnOk result (GoesBackOver run.now (kept_of self.old) (kept_of self.new)) }
        ensures err { OnErr result (kept_of self.new ≡ kept_of self.old) }
        ensures pool { IsFront (held pool.old) (held pool.new) }
    {
        let (tree, home) = backward_over(alloc, pool, &self.tree, self.home, run)?;
        self.tree = tree;
        self.home = home;
        self.position -= run.len() as u64;
        Ok(())
    }

    // Takes the formula over the operation at its position.
    fn go_on(&mut self, alloc: Global, pool: &mut Pool, s: &Shift) -> Result<(), AllocError>
        requires sound { IsSound s.now }
        requires room { self.old.position < u64.MAX }
        requires fit { IsFit (standing (kept_of self.old)) }
        requires kept { home_after s.now self.old.home ≢ None }
        requires ahead { (kept_of self.old).saved self.old.position ≡ None }
        ensures ok { OnOk result (GoesOn s.now (kept_of self.old) (kept_of self.new)) }
        ensures err { OnErr result (kept_of self.new ≡ kept_of self.old) }
        ensures pool { IsFront (held pool.old) (held pool.new) }
    {
        let (tree, home) = tree_rewrite::forward(alloc, pool, &self.tree, self.home, s)?;
        self.save(s)?;
        self.tree = tree;
        self.home = home;
        self.position += 1;
        Ok(())
    }

    // Saves the tree where the operation at the formula's position loses something of it.
    fn save(&mut self, s: &Shift) -> Result<(), AllocError>
        requires sound { IsSound s.now }
        requires ahead { (kept_of self.old).saved self.old.position ≡ None }
        ensures ok { OnOk result (Saves s.now (kept_of self.old) (kept_of self.new)) }
        ensures err { OnErr result (kept_of self.new ≡ kept_of self.old) }
        ensures rest { self.new ≡ record self.old { saved = self.new.saved } }
    {
        if !loses(&self.tree, self.home, s) {
            return Ok(());
        }
        let before = self.tree.clone()?;
        self.saved.insert(self.position, before)?;
        Ok(())
    }

    // Takes the formula back over the operation in front of its position.
    fn go_back(&mut self, alloc: Global, pool: &mut Pool, s: &Shift) -> Result<(), AllocError>
        requires sound { IsSound s.now }
        requires room { 0 < self.old.position }
        requires fit { IsFit (standing (kept_of self.old)) }
        requires kept { home_before s.now self.old.home ≢ None }
        ensures ok { OnOk result (GoesBack s.now (kept_of self.old) (kept_of self.new)) }
        ensures err { OnErr result (kept_of self.new ≡ kept_of self.old) }
        ensures pool { IsFront (held pool.old) (held pool.new) }
    {
        let (tree, home) = self.take_back(alloc, pool, s)?;
        self.tree = tree;
        self.home = home;
        self.position -= 1;
        Ok(())
    }

    // The tree and the home before the operation in front of the formula's position: by the tree that was saved over it,
    // which is taken out, or by the way back.
    fn take_back(
        &mut self,
        alloc: Global,
        pool: &mut Pool,
        s: &Shift,
    ) -> Result<(Tree, Home), AllocError>
        requires sound { IsSound s.now }
        requires room { 0 < self.old.position }
        requires fit { IsFit (standing (kept_of self.old)) }
        requires kept { home_before s.now self.old.home ≢ None }
        ensures before { IfOk result (λ r. before s.now ((kept_of self.old).saved (self.old.position - 1)) (standing (kept_of self.old)) ≡ Some (standing_at r.1 (relative r.0.value))) }
        ensures taken { OnOk result (Takes (self.old.position - 1) (kept_of self.old) (kept_of self.new)) }
        ensures err { OnErr result (kept_of self.new ≡ kept_of self.old) }
        ensures rest { self.new ≡ record self.old { saved = self.new.saved } }
        ensures pool { IsFront (held pool.old) (held pool.new) }
    {
        match self.saved.remove(&(self.position - 1)) {
            Some(tree) => {
                let Some(home) = home_before(self.home, s) else {
                    unreachable!()
                };
                Ok((tree, home))
            }
            None => Ok(tree_rewrite::backward(alloc, pool, &self.tree, self.home, s)?),
        }
    }

    // Drops the trees that were saved before the position.
    pub(crate) fn drop_saved(&mut self, position: u64)
        ensures { CutsOff position (kept_of self.old) (kept_of self.new) }
    {
        drop_before(&mut self.saved, position);
    }
}

// The first position from which on, up to another one, no tree is saved; none before `from`.
pub(crate) fn unsaved_from(saved: &BTreeMap<u64, Tree>, from: u64, to: u64) -> u64
    requires { from ≤ to }
    ensures from { from ≤ result }
    ensures to { result ≤ to }
    ensures unsaved { (k : ℕ) → result ≤ k → k < to → get nat_cmp saved.now k ≡ None }
{
    match saved.range(from..to).next_back() {
        Some((last, _)) => *last + 1,
        None => from,
    }
}

// Drops the trees that are saved before the position.
fn drop_before(saved: &mut BTreeMap<u64, Tree>, position: u64)
    ensures below { (k : ℕ) → k < position → get nat_cmp saved.new k ≡ None }
    ensures others { (k : ℕ) → position ≤ k → get nat_cmp saved.new k ≡ get nat_cmp saved.old k }
{
    'saved: while let Some(first) = first_saved(saved) {
        if position <= first {
            break 'saved;
        }
        let _ = saved.remove(&first);
    }
}

// The least position at which a tree is saved.
fn first_saved(saved: &BTreeMap<u64, Tree>) -> Option<u64>
    ensures least { IfSome result (λ k. IsLowerBound nat_cmp saved.now k) }
    ensures there { IfSome result (λ k. get nat_cmp saved.now k ≢ None) }
    ensures none { result ≡ None → IsEmpty saved.now }
{
    let (position, _) = saved.first_key_value()?;
    Some(*position)
}
