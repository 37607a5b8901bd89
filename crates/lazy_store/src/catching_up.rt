// Formulas that lag behind the cursor, taken to it within a budget.
ghost use Rattle.std.specs.Prelude.{◌≡◌, ◌↔◌, ◌⊎◌, ◌+◌, ◌-◌, ◌<◌, ◌≤◌, ℕ, Bool, true, false, List, Option, None, Some, IfOk, IfSome, is_some, nat_eq, option_and_then, slice_get};
ghost use Rattle.std.specs.HashMap as hash;
ghost use Rattle.std.specs.List.{sum_by};
ghost use Rattle.formula_tree.specs.Pooled.{held};
ghost use Rattle.lazy_store.specs.Holders.{AreCoherent, IsFront, kept_under};
ghost use Rattle.lazy_store.specs.Kept.{IsSoundLine, Kept, Lags};
ghost use Rattle.lazy_store.specs.internal.Passes.{HasPassed, gone_from};
ghost use Rattle.lazy_store.specs.internal.Recent.{AreNoted};
ghost use Rattle.lazy_store.specs.internal.Sweeps.{StandAlong, at_under};

use crate::among::Among;
use crate::holder::Holder;
use crate::holders::bring;
use crate::recent::Recent;
use formula_tree::Pool;
use indexmap::IndexMap;
use shift_line::Line;
use std::alloc::{AllocError, Global};

// How far a pass over the formulas has come: how many operations are left of its budget, and whether none lags of which it knows.
#[derive(Clone, Copy)]
pub(crate) struct Pass {
    pub(crate) left: u64,
    pub(crate) all: bool,
}

// Takes formulas that lag behind the cursor to it, as many as the budget of operations suffices for, and answers whether none is left.
pub(crate) fn catch_up(
    alloc: Global,
    holders: &mut IndexMap<u64, Holder>,
    recent: &mut Recent,
    line: &Line,
    pool: &mut Pool,
    budget: u64,
) -> Result<bool, AllocError>
    requires sound { IsSoundLine line.now }
    requires coherent { AreCoherent line.now holders.old }
    requires noted { AreNoted recent.old holders.old }
    ensures along { StandAlong line.now holders.old holders.new }
    ensures noted { AreNoted recent.new holders.new }
    ensures others { (id : ℕ) (h : Kept) → kept_under holders.old id ≡ Some h → ¬ Lags line.now line.now.cursor h → kept_under holders.new id ≡ Some h }
    ensures placed { IfOk result (λ _. (id : ℕ) (h : Kept) → kept_under holders.new id ≡ Some h → (kept_under holders.old id ≡ Some h) ⊎ (h.position ≡ line.now.cursor)) }
    ensures most { IfOk result (λ _. sum_by (gone_from (kept_under holders.old) (kept_under holders.new)) (hash.keys holders.old) ≤ budget) }
    ensures left { IfOk result (λ _. (id : ℕ) (h : Kept) → kept_under holders.new id ≡ Some h → Lags line.now line.now.cursor h → budget < sum_by (gone_from (kept_under holders.old) (kept_under holders.new)) (hash.keys holders.old) + (line.now.cursor - h.position)) }
    ensures all { IfOk result (λ all. (all ≡ true) ↔ ((id : ℕ) (h : Kept) → kept_under holders.new id ≡ Some h → ¬ Lags line.now line.now.cursor h)) }
    ensures pool { IsFront (held pool.old) (held pool.new) }
{
    let mut pass = Pass {
        left: budget,
        all: true,
    };
    'holders: for index in 0..holders.len() {
        pass = pass_by(alloc, holders, recent, line, pool, index, pass)?;
    }
    Ok(pass.all)
}

// Goes by the formula at the index: takes it to the cursor where it lags behind it, and the operations that are left suffice.
fn pass_by(
    alloc: Global,
    holders: &mut IndexMap<u64, Holder>,
    recent: &mut Recent,
    line: &Line,
    pool: &mut Pool,
    index: usize,
    pass: Pass,
) -> Result<Pass, AllocError>
    requires sound { IsSoundLine line.now }
    requires coherent { AreCoherent line.now holders.old }
    requires noted { AreNoted recent.old holders.old }
    requires distinct { hash.IsUnique nat_eq holders.old }
    ensures along { StandAlong line.now holders.old holders.new }
    ensures noted { AreNoted recent.new holders.new }
    ensures others { (id : ℕ) (h : Kept) → kept_under holders.old id ≡ Some h → ¬ Lags line.now line.now.cursor h → kept_under holders.new id ≡ Some h }
    ensures passed { IfOk result (λ next. (budget : ℕ) (first : ℕ → Option Kept) → HasPassed line.now line.now.cursor (hash.keys holders.old) budget index pass.left pass.all first (kept_under holders.old) → HasPassed line.now line.now.cursor (hash.keys holders.old) budget (index + 1) next.left next.all first (kept_under holders.new)) }
    ensures pool { IsFront (held pool.old) (held pool.new) }
{
    let Some((id, ahead)) = behind_at(holders, line, index) else {
        return Ok(pass);
    };
    if pass.left < ahead {
        let all = pass.all && !stands_at(holders, line, id);
        return Ok(Pass {
            left: pass.left,
            all,
        });
    }
    if !stands_at(holders, line, id) {
        return Ok(pass);
    }
    recent.note(id, line.last(), holders.len());
    bring(alloc, holders, line, None, pool, id, line.cursor())?;
    Ok(Pass {
        left: pass.left - ahead,
        all: pass.all,
    })
}

// The id of the formula at the index, where that is live and kept as of a position before the cursor, with the number of operations
// between.
fn behind_at(holders: &IndexMap<u64, Holder>, line: &Line, index: usize) -> Option<(u64, u64)>
    ensures at { IfSome result (λ r. slice_get (hash.keys holders.now) index ≡ Some r.0) }
    ensures behind { IfSome result (λ r. (h : Kept) → kept_under holders.now r.0 ≡ Some h → (h.live ≡ true) × (h.position < line.now.cursor) × (r.1 ≡ line.now.cursor - h.position)) }
    ensures none { result ≡ None → (id : ℕ) (h : Kept) → slice_get (hash.keys holders.now) index ≡ Some id → kept_under holders.now id ≡ Some h → ¬ Lags line.now line.now.cursor h }
{
    let id = Among::All.id_at(holders, index)?;
    let holder = holders.get(&id)?;
    if !holder.live || line.cursor() <= holder.position {
        return None;
    }
    Some((id, line.cursor() - holder.position))
}

// Whether the formula under the id has a standing at the cursor.
fn stands_at(holders: &IndexMap<u64, Holder>, line: &Line, id: u64) -> bool
    requires sound { IsSoundLine line.now }
    requires coherent { AreCoherent line.now holders.now }
    ensures { result ≡ is_some (at_under line.now holders.now id line.now.cursor) }
{
    match holders.get(&id) {
        Some(holder) => holder.stands_at(line, line.cursor()),
        None => false,
    }
}
