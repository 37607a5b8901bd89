// The line with its formulas.
ghost use Rattle.std.specs.Prelude.{◌≡◌, ◌≢◌, ◌↔◌, [], ℕ, ◌+◌, ◌<◌, ◌≤◌, true, false, None, Some, IfOk, IfSome, OnOk, OnErr, IsOk, if◌then◌else◌, is_some, nat_eq, option_map, option_and_then};
ghost use Rattle.std.specs.HashSet.{contains};
ghost use Rattle.formula_tree.specs.Pooled.{held};
ghost use Rattle.formula_tree.specs.Reference.{IsHomeInside};
ghost use Rattle.formula_tree.specs.Relative.{relative};
ghost use Rattle.formula_tree.specs.StandsFor.{StandsFor, at_home};
ghost use Rattle.shift_core.specs.Sound.{IsSound};
ghost use Rattle.shift_line.specs.Track.{forgotten, last, pushed, with_spare};
ghost use Rattle.tree_rewrite.specs.References.{FitsSheets};
ghost use Rattle.lazy_store.specs.Holders.{AreCoherent, IsFront};
ghost use Rattle.lazy_store.specs.Kept.{IsSoundLine, fresh, standing_at, with_live};
ghost use Rattle.lazy_store.specs.internal.Pending.{IsListed};
ghost use Rattle.lazy_store.specs.internal.Recent.{AreNoted};
ghost use Rattle.lazy_store.specs.internal.Props.{are_coherent-prop, is_sound_line-prop};

use crate::among::Among;
use crate::catching_up::catch_up;
use crate::holder::Holder;
use crate::holders::{Side, bring, bring_all, cut_all, drop_born_beyond, keep_among};
use crate::pending::Listed;
use crate::recent::Recent;
use crate::stored::Stored;
use formula_tree::{Home, Pool, Tree};
use indexmap::{IndexMap, IndexSet};
use shift_core::Shift;
use shift_line::Line;
use std::alloc::{AllocError, Global};

/// A line of structural operations and formulas along it, each under an id.
pub struct Lazy {
    alloc: Global,
    line: Line,
    holders: IndexMap<u64, Holder>,
    // Of the formulas that are kept as of late positions, so that who cuts the line needn't look at all.
    recent: Recent,
    // Each operation of the line can be done.
    pub ghost sound: { IsSoundLine line } by { is_sound_line-prop line },
    // Each formula goes along the line with its standings, and what operations lost of it is saved.
    pub ghost coherent: { AreCoherent line holders } by { are_coherent-prop line holders },
    ghost noted: { AreNoted recent holders },
}

// Written out, so that whoever drops one calls one function.
impl Drop for Lazy {
    fn drop(self) {
        let Lazy {
            alloc: _,
            line: _line,
            holders: _holders,
            recent: _recent,
        } = self;
    }
}

impl Lazy {
    ghost use Rattle.lazy_store.specs.Store.{AreBehind, AreCaughtUp, AreReturned, CanComeBack, CanGoOn, ComeBackTo, GoOnTo, GoOnWithin, KeepsAll, KeepsBehind, KeepsBornBeyond, KeepsFrom, KeepsOthers, MovesLagging, ReturnTo, StandsAsBefore, StandsFrom, StandsOneOn, StandsUpTo, StayOrComeTo, at_in, if_born_by, kept_in, live_in, spare_in, stored_in};

    /// A store without operations and formulas, whose positions are all 0.
    pub fn new(alloc: Global) -> Result<Lazy, AllocError>
        ensures line { IfOk result (λ store. (store.line.shifts ≡ []) × (store.line.first ≡ 0) × (store.line.cursor ≡ 0)) }
        ensures kept { IfOk result (λ store. (id : ℕ) → kept_in store id ≡ None) }
    {
        Ok(Lazy {
            alloc,
            line: Line::new(alloc)?,
            holders: IndexMap::new(alloc),
            recent: Recent::new(alloc),
        })
    }

    /// The line of operations, with its cursor.
    pub fn line(&self) -> &Line
        ensures { result.now ≡ self.now.line }
    {
        &self.line
    }

    /// Adds a live formula at the cursor, under an id that no formula of the store has, live or removed. The home and the
    /// references and blocks of the tree lie within the limits of a sheet. Takes no memory where there is room; where there
    /// is no memory the store stays as it was.
    pub fn insert(&mut self, id: u64, home: Home, tree: Tree) -> Result<(), AllocError>
        requires new { kept_in self.old id ≡ None }
        requires home { IsHomeInside home }
        requires fits { FitsSheets (at_home home (relative tree.value)) }
        ensures kept { OnOk result (kept_in self.new id ≡ Some (fresh self.old.line.cursor home (relative tree.value))) }
        ensures others { KeepsOthers id self.old self.new }
        ensures err { OnErr result (kept_in self.new id ≡ None) }
        ensures line { self.new.line ≡ self.old.line }
        ensures room { 0 < spare_in self.old → IsOk result }
        ensures spare { spare_in self.old ≤ spare_in self.new + 1 }
    {
        self.recent.note(id, self.line.last(), self.holders.len());
        let holder = Holder::new(self.alloc, self.line.cursor(), home, tree);
        self.holders.insert(id, holder)?;
        Ok(())
    }

    /// Makes a live formula a removed one. It keeps its standings.
    pub fn remove(&mut self, id: u64)
        requires { live_in self.old id ≡ Some true }
        ensures removed { kept_in self.new id ≡ option_map (with_live false) (kept_in self.old id) }
        ensures others { KeepsOthers id self.old self.new }
        ensures line { self.new.line ≡ self.old.line }
        ensures spare { spare_in self.new ≡ spare_in self.old }
    {
        if let Some(holder) = self.holders.get_mut(&id) {
            holder.live = false;
        }
    }

    /// Makes a removed formula a live one again. It keeps its standings.
    pub fn put_back(&mut self, id: u64)
        requires { live_in self.old id ≡ Some false }
        ensures back { kept_in self.new id ≡ option_map (with_live true) (kept_in self.old id) }
        ensures others { KeepsOthers id self.old self.new }
        ensures line { self.new.line ≡ self.old.line }
        ensures spare { spare_in self.new ≡ spare_in self.old }
    {
        if let Some(holder) = self.holders.get_mut(&id) {
            holder.live = true;
        }
    }

    /// Drops a removed formula. Its id may be used again.
    pub fn forget(&mut self, id: u64)
        requires { live_in self.old id ≡ Some false }
        ensures forgotten { kept_in self.new id ≡ None }
        ensures others { KeepsOthers id self.old self.new }
        ensures line { self.new.line ≡ self.old.line }
        ensures spare { spare_in self.old ≤ spare_in self.new }
    {
        let _ = self.holders.swap_remove(&id);
    }

    /// Whether a formula is live, or else removed; `None` exactly where the store has none under the id.
    pub fn is_live(&self, id: u64) -> Option<bool>
        ensures { result ≡ live_in self.now id }
    {
        let holder = self.holders.get(&id)?;
        Some(holder.live)
    }

    /// A formula as it is kept, live or removed, without catching up; `None` exactly where the store has none under the id.
    pub fn stored(&self, id: u64) -> Option<Stored<'_>>
        ensures { option_map (λ s. (s.position, (s.home, relative s.tree.now.value))) result ≡ stored_in self.now id }
    {
        let holder = self.holders.get(&id)?;
        Some(Stored {
            position: holder.position,
            home: holder.home,
            tree: &holder.tree,
        })
    }

    /// The tree of a formula from before the operation at the position, where that is behind the position as of which the
    /// formula is kept and the operation loses something of the tree; else `None`.
    pub fn saved(&self, id: u64, position: u64) -> Option<&Tree>
        ensures { option_map (λ t. relative t.now.value) result ≡ option_and_then (λ h. h.saved position) (kept_in self.now id) }
    {
        let holder = self.holders.get(&id)?;
        holder.saved.get(&position)
    }

    /// Home and tree of a formula at any position, live or removed, with the pool for new trees; `None` exactly where the store
    /// has no formula under the id, or it has no standing there. No formula is touched. Costs the operations between the
    /// position and the one as of which the formula is kept, each about the references of the tree, with one new tree for all
    /// of them forward, and back as [`Lazy::read`].
    pub fn tree_at(
        &self,
        pool: &mut Pool,
        id: u64,
        position: u64,
    ) -> Result<Option<(Home, Tree)>, AllocError>
        ensures at { IfOk result (λ r. option_map (λ p. standing_at p.0 (relative p.1.value)) r ≡ at_in self.now id position) }
        ensures pool { IsFront (held pool.old) (held pool.new) }
    {
        match self.holders.get(&id) {
            Some(holder) => holder.found_at(self.alloc, pool, &self.line, position),
            None => Ok(None),
        }
    }

    /// Whether a formula, live or removed, has a standing at any position. No formula is touched, and no memory is taken. Costs the
    /// operations from the position as of which the formula is kept up to this one, each by the formula's home alone; nothing
    /// where this one lies before.
    pub fn stands_at(&self, id: u64, position: u64) -> bool
        ensures { result ≡ is_some (at_in self.now id position) }
    {
        match self.holders.get(&id) {
            Some(holder) => holder.stands_at(&self.line, position),
            None => false,
        }
    }

    /// Moves the cursor to a position from the line's first to its last. No formula changes, nor do its standings.
    pub fn move_cursor(&mut self, position: u64)
        requires first { self.old.line.first ≤ position }
        requires last { position ≤ last self.old.line }
        ensures line { self.new.line ≡ record self.old.line { cursor = position } }
        ensures kept { KeepsAll self.old self.new }
        ensures standings { StandsAsBefore self.old self.new }
        ensures spare { spare_in self.new ≡ spare_in self.old }
    {
        self.line.move_to(position);
    }

    /// How many formulas and operations are sure to be added without memory.
    pub fn spare(&self) -> usize
        ensures { result ≡ spare_in self.now }
    {
        let room = self.holders.capacity() - self.holders.len();
        self.line.spare().min(room)
    }

    /// Makes room for so many formulas and operations. Nothing else changes, whatever the answer.
    pub fn reserve(&mut self, more: usize) -> Result<(), AllocError>
        ensures room { OnOk result (more ≤ spare_in self.new) }
        ensures line { self.new.line ≡ with_spare self.new.line.spare self.old.line }
        ensures kept { KeepsAll self.old self.new }
        ensures standings { StandsAsBefore self.old self.new }
        ensures spare { spare_in self.old ≤ spare_in self.new }
        ensures succeeds { more ≤ spare_in self.old → IsOk result }
    {
        self.line.reserve(more)?;
        self.holders.reserve(more)
    }

    /// Takes a live formula to the cursor, over the operations between, and answers its tree there. The formula has a
    /// standing at the cursor. No formula's standings change, and no other formula is touched; the pool may get trees. For
    /// want of memory the formula may have come part of the way. Costs the operations between: forward each about the
    /// references of the tree, with one new tree for all that lose nothing of it one after the other, and one for each
    /// that does; back each about the references of the tree, with one new tree for all between two saved ones.
    pub fn read(&mut self, pool: &mut Pool, id: u64) -> Result<Tree, AllocError>
        requires live { live_in self.old id ≡ Some true }
        requires there { at_in self.old id self.old.line.cursor ≢ None }
        ensures tree { IfOk result (λ t. IfSome (at_in self.old id self.old.line.cursor) (λ x. StandsFor t x.home x.tree)) }
        ensures position { OnOk result (option_map (λ h. h.position) (kept_in self.new id) ≡ Some self.old.line.cursor) }
        ensures standings { StandsAsBefore self.old self.new }
        ensures others { KeepsOthers id self.old self.new }
        ensures line { self.new.line ≡ self.old.line }
        ensures spare { spare_in self.new ≡ spare_in self.old }
        ensures pool { IsFront (held pool.old) (held pool.new) }
    {
        self.recent.note(id, self.line.last(), self.holders.len());
        let cursor = self.line.cursor();
        bring(
            self.alloc,
            &mut self.holders,
            &self.line,
            None,
            pool,
            id,
            cursor,
        )?;
        let Some(holder) = self.holders.get(&id) else {
            unreachable!()
        };
        Ok(holder.tree.clone()?)
    }

    /// Takes live formulas that are kept as of a position before the cursor to it, in the order of the store, as far as the
    /// budget goes: each costs as many units of it as there are operations between, and one for which those that are left don't
    /// suffice stays as it is; so does, whatever was spent, one with more operations before it than the whole budget. The answer is
    /// whether none is left: whether each live formula with a standing at the cursor is kept as of that or a later position. Formulas
    /// that are kept as of these, removed ones, and those without a standing at the cursor are left alone. No formula's standings
    /// change, whatever the answer; for want of memory one formula may have come part of the way. Costs a look at each formula, for
    /// those that are taken what [`Lazy::read`] does, and for others, by their homes alone, the operations between, where the formula
    /// has no standing at the cursor up to the one that loses its home.
    pub fn catch_up(&mut self, pool: &mut Pool, budget: u64) -> Result<bool, AllocError>
        ensures standings { StandsAsBefore self.old self.new }
        ensures others { MovesLagging self.old.line.cursor self.old self.new }
        ensures placed { OnOk result (StayOrComeTo self.old.line.cursor self.old self.new) }
        ensures budget { OnOk result (GoOnWithin budget self.old self.new) }
        ensures all { IfOk result (λ all. (all ≡ true) ↔ AreCaughtUp self.new) }
        ensures line { self.new.line ≡ self.old.line }
        ensures spare { spare_in self.new ≡ spare_in self.old }
        ensures pool { IsFront (held pool.old) (held pool.new) }
    {
        let (alloc, recent) = (self.alloc, &mut self.recent);
        catch_up(alloc, &mut self.holders, recent, &self.line, pool, budget)
    }

    /// Puts an operation on the line at the cursor, in place of those beyond it, and moves the cursor behind it. The
    /// operation is sound, and the cursor below the greatest position. Formulas that are kept as of a position up to the
    /// cursor aren't touched; those beyond it are live, have a standing at the cursor, and are brought back to it before.
    /// Takes no memory where there is room and no formula is beyond the cursor; where there is no memory line and standings
    /// stay as they were. Costs nothing for formulas where the cursor is at the line's last position.
    pub fn shift(&mut self, pool: &mut Pool, s: Shift) -> Result<(), AllocError>
        requires sound { IsSound s }
        requires cursor { self.old.line.cursor < u64.MAX }
        requires back { CanComeBack self.old.line.cursor self.old }
        ensures line { OnOk result (self.new.line ≡ with_spare self.new.line.spare (pushed s self.old.line)) }
        ensures standings { OnOk result (StandsOneOn s self.old self.new) }
        ensures behind { OnOk result (AreBehind self.old.line.cursor self.new) }
        ensures placed { OnOk result (ComeBackTo self.old.line.cursor self.old self.new) }
        ensures line_err { OnErr result (self.new.line ≡ with_spare self.new.line.spare self.old.line) }
        ensures err { OnErr result (StandsAsBefore self.old self.new) }
        ensures kept { KeepsBehind self.old.line.cursor self.old self.new }
        ensures room { 0 < spare_in self.old → AreBehind self.old.line.cursor self.old → IsOk result }
        ensures spare { spare_in self.old ≤ spare_in self.new + 1 }
        ensures pool { IsFront (held pool.old) (held pool.new) }
    {
        self.come_back(pool)?;
        self.line.push(s)
    }

    /// Takes each formula, live or removed, that was born up to the cursor and is kept as of a position beyond it back to the
    /// cursor. Then only formulas that were born beyond it are kept as of a position beyond it, and `forget_beyond` drops
    /// them. No formula's standings change, whatever the answer; for want of memory some formulas may be back, or have come
    /// part of the way. Takes no memory where all are back. Costs the formulas that were read or added of late, and for each the
    /// operations that it is taken over; a look at all formulas where one in so many of them was read or added since a position
    /// beyond the cursor; nothing for formulas where the cursor is at the line's last position.
    pub fn return_born(&mut self, pool: &mut Pool) -> Result<(), AllocError>
        ensures standings { StandsAsBefore self.old self.new }
        ensures placed { OnOk result (ReturnTo self.old.line.cursor self.old self.new) }
        ensures returned { OnOk result (AreReturned self.old.line.cursor self.new) }
        ensures kept { KeepsBehind self.old.line.cursor self.old self.new }
        ensures born { KeepsBornBeyond self.old.line.cursor self.old self.new }
        ensures free { AreReturned self.old.line.cursor self.old → IsOk result }
        ensures line { self.new.line ≡ self.old.line }
        ensures spare { spare_in self.new ≡ spare_in self.old }
        ensures pool { IsFront (held pool.old) (held pool.new) }
    {
        let (cursor, last) = (self.line.cursor(), self.line.last());
        if last <= cursor {
            return Ok(());
        }
        self.recent.let_go_behind(cursor, last);
        let among = self.recent.beyond(cursor, &self.holders);
        let (alloc, side) = (self.alloc, Side::Returning);
        bring_all(
            alloc,
            &mut self.holders,
            among,
            &self.line,
            None,
            pool,
            side,
            cursor,
        )
    }

    /// Drops each formula, live or removed, that was born beyond the cursor; all others are kept as they were. Up to the
    /// cursor no standing changes. Where `return_born` went before, no formula is kept as of a position beyond the cursor
    /// then, so that `shift` can follow. Takes no memory. Costs what [`Lazy::return_born`] looks at; nothing where the cursor is at
    /// the line's last position.
    pub fn forget_beyond(&mut self)
        ensures kept { (id : ℕ) → kept_in self.new id ≡ option_and_then (if_born_by self.old.line.cursor) (kept_in self.old id) }
        ensures standings { StandsUpTo self.old.line.cursor self.old self.new }
        ensures behind { AreReturned self.old.line.cursor self.old → AreBehind self.old.line.cursor self.new }
        ensures line { self.new.line ≡ self.old.line }
        ensures spare { spare_in self.old ≤ spare_in self.new }
    {
        let cursor = self.line.cursor();
        if self.line.last() <= cursor {
            return;
        }
        let among = self.recent.beyond(cursor, &self.holders);
        drop_born_beyond(&mut self.holders, among, cursor);
    }

    /// Drops each formula, live or removed, whose id isn't one of these; all others are kept as they were. Takes no memory.
    /// Costs the number of formulas.
    pub fn keep_only(&mut self, ids: &IndexSet<u64>)
        ensures kept { (id : ℕ) → kept_in self.new id ≡ (if contains nat_eq ids.now id then kept_in self.old id else None) }
        ensures line { self.new.line ≡ self.old.line }
        ensures spare { spare_in self.old ≤ spare_in self.new }
    {
        keep_among(&mut self.holders, ids);
    }

    // Takes the formulas that are kept as of a position beyond the cursor back to it.
    fn come_back(&mut self, pool: &mut Pool) -> Result<(), AllocError>
        requires back { CanComeBack self.old.line.cursor self.old }
        ensures standings { StandsAsBefore self.old self.new }
        ensures behind { OnOk result (AreBehind self.old.line.cursor self.new) }
        ensures placed { OnOk result (ComeBackTo self.old.line.cursor self.old self.new) }
        ensures kept { KeepsBehind self.old.line.cursor self.old self.new }
        ensures free { AreBehind self.old.line.cursor self.old → IsOk result }
        ensures line { self.new.line ≡ self.old.line }
        ensures from { self.old.line.first ≤ self.old.line.cursor }
        ensures within { self.old.line.cursor ≤ last self.old.line }
        ensures spare { spare_in self.new ≡ spare_in self.old }
        ensures pool { IsFront (held pool.old) (held pool.new) }
    {
        let (cursor, last) = (self.line.cursor(), self.line.last());
        if last <= cursor {
            return Ok(());
        }
        self.recent.let_go_behind(cursor, last);
        let among = self.recent.beyond(cursor, &self.holders);
        let (alloc, side) = (self.alloc, Side::Beyond);
        bring_all(
            alloc,
            &mut self.holders,
            among,
            &self.line,
            None,
            pool,
            side,
            cursor,
        )?;
        self.recent.let_go(cursor);
        Ok(())
    }

    /// Takes every formula, live or removed, that is kept as of a position before this one to it, and forgets the operations
    /// and the saved trees before it. The position is from the line's first to the cursor, and each formula that is kept as
    /// of one before has a standing there. Standings from the position on stay; so does the place of a formula that is kept
    /// as of the position or a later one. Where there is no memory line and standings stay as they were. Costs the number
    /// of formulas and of operations before the position, and for each formula the operations that meet the sheets of its
    /// references, as [`Lazy::read`] does; they are listed by sheets for the call, where there are some formulas and there is
    /// memory for that, and else each is taken over all.
    pub fn settle(&mut self, pool: &mut Pool, position: u64) -> Result<(), AllocError>
        requires first { self.old.line.first ≤ position }
        requires cursor { position ≤ self.old.line.cursor }
        requires there { CanGoOn position self.old }
        ensures line { OnOk result (self.new.line ≡ with_spare self.new.line.spare (forgotten position self.old.line)) }
        ensures standings { OnOk result (StandsFrom position self.old self.new) }
        ensures placed { OnOk result (GoOnTo position self.old self.new) }
        ensures line_err { OnErr result (self.new.line ≡ self.old.line) }
        ensures err { OnErr result (StandsAsBefore self.old self.new) }
        ensures kept { KeepsFrom position self.old self.new }
        ensures spare { spare_in self.old ≤ spare_in self.new }
        ensures pool { IsFront (held pool.old) (held pool.new) }
    {
        prove!(self.line.cursor() <= self.line.last());
        self.recent.let_go(self.line.last());
        let listed = listed_for(self.alloc, &self.line, self.holders.len(), position);
        let (alloc, side) = (self.alloc, Side::Before);
        bring_all(
            alloc,
            &mut self.holders,
            Among::All,
            &self.line,
            listed.as_ref(),
            pool,
            side,
            position,
        )?;
        self.line.forget_before(position);
        cut_all(&mut self.holders, position);
        Ok(())
    }
}

// So few formulas are taken along without lists, which cost a look at each operation.
const FEW_FORMULAS: usize = 8;

// The operations before the position, listed for so many formulas; None for a few of them, or where there is no memory.
fn listed_for(alloc: Global, line: &Line, formulas: usize, position: u64) -> Option<Listed>
    requires { line.now.first ≤ position }
    ensures { IfSome result (λ l. IsListed line.now position l) }
{
    if formulas < FEW_FORMULAS {
        return None;
    }
    Listed::of(alloc, line, line.first(), position).ok()
}
