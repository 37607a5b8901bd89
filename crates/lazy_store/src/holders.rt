// The formulas of a store, taken along the line one after the other.
ghost use Rattle.std.specs.Prelude.{◌≡◌, ◌≢◌, ℕ, ◌<◌, ◌≤◌, true, false, ⊤, Some, None, MatchOption, IfSome, OnOk, IsOk, if◌then◌else◌, nat_eq, option_and_then, option_map, slice_get};
ghost use Rattle.std.specs.HashMap as hash;
ghost use Rattle.std.specs.HashSet.{contains};
ghost use Rattle.formula_tree.specs.Pooled.{held};
ghost use Rattle.shift_line.specs.Track.{last};
ghost use Rattle.lazy_store.specs.Holders.{AreCoherent, IsFront, kept_of, kept_under};
ghost use Rattle.lazy_store.specs.Kept.{IsSoundLine, Kept, at};
ghost use Rattle.lazy_store.specs.internal.Pending.{IsListed};
ghost use Rattle.lazy_store.specs.internal.Recent.{IsIn, ids_among};
ghost use Rattle.lazy_store.specs.internal.Sweeps.{ArePlaced, Brings, Cuts, CutsAll, Sweeps, holder_born_by, is_off};

use crate::among::Among;
use crate::holder::Holder;
use crate::pending::Listed;
use formula_tree::Pool;
use indexmap::{IndexMap, IndexSet};
use shift_line::Line;
use std::alloc::{AllocError, Global};

// Which formulas are taken to a position.
#[derive(Clone, Copy)]
pub(crate) enum Side {
    // Those that are kept as of one before it.
    Before,
    // Those that are kept as of one beyond it.
    Beyond,
    // Those of these that were born up to it.
    Returning,
}

impl Side {
    // Whether the formula is to be taken to the position.
    fn is_off(self, position: u64, holder: &Holder) -> bool
        ensures { result ≡ is_off self position (kept_of holder.now) }
    {
        match self {
            Side::Before => holder.position < position,
            Side::Beyond => position < holder.position,
            Side::Returning => position < holder.position && holder.birth <= position,
        }
    }
}

// Takes the formula under the id to the position, by a list of the operations before that where there is one.
pub(crate) fn bring(
    alloc: Global,
    holders: &mut IndexMap<u64, Holder>,
    line: &Line,
    listed: Option<&Listed>,
    pool: &mut Pool,
    id: u64,
    position: u64,
) -> Result<(), AllocError>
    requires sound { IsSoundLine line.now }
    requires listed { MatchOption listed ⊤ (λ l. IsListed line.now position l.now) }
    requires coherent { AreCoherent line.now holders.old }
    requires within { position ≤ last line.now }
    requires there { (h : Kept) → kept_under holders.old id ≡ Some h → at line.now h position ≢ None }
    ensures brings { Brings line.now id holders.old holders.new }
    ensures ok { OnOk result ((h : Kept) → kept_under holders.new id ≡ Some h → h.position ≡ position) }
    ensures pool { IsFront (held pool.old) (held pool.new) }
{
    match holders.get_mut(&id) {
        Some(holder) => holder.go_to(alloc, pool, line, listed, position),
        None => Ok(()),
    }
}

// The id of the formula at the index of those that are looked at, where it is to be taken to the position.
fn off_at(
    holders: &IndexMap<u64, Holder>,
    among: Among,
    index: usize,
    side: Side,
    position: u64,
) -> Option<u64>
    ensures off { IfSome result (λ id. slice_get (ids_among among.entry holders.now) index ≡ Some id) }
    ensures there { IfSome result (λ id. hash.get nat_eq holders.now id ≢ None) }
    ensures kept { IfSome result (λ id. (h : Kept) → kept_under holders.now id ≡ Some h → is_off side position h ≡ true) }
    ensures none { result ≡ None → (id : ℕ) (h : Kept) → slice_get (ids_among among.entry holders.now) index ≡ Some id → kept_under holders.now id ≡ Some h → is_off side position h ≡ false }
{
    let id = among.id_at(holders, index)?;
    let holder = holders.get(&id)?;
    side.is_off(position, holder).then_some(id)
}

// Takes all formulas of a side to the position, by a list of the operations before that where there is one; all of them are
// looked at. For want of memory some may be there.
pub(crate) fn bring_all(
    alloc: Global,
    holders: &mut IndexMap<u64, Holder>,
    among: Among,
    line: &Line,
    listed: Option<&Listed>,
    pool: &mut Pool,
    side: Side,
    position: u64,
) -> Result<(), AllocError>
    requires sound { IsSoundLine line.now }
    requires listed { MatchOption listed ⊤ (λ l. IsListed line.now position l.now) }
    requires coherent { AreCoherent line.now holders.old }
    requires within { position ≤ last line.now }
    requires there { (id : ℕ) (h : Kept) → kept_under holders.old id ≡ Some h → is_off side position h ≡ true → at line.now h position ≢ None }
    requires among { (id : ℕ) (h : Kept) → kept_under holders.old id ≡ Some h → is_off side position h ≡ true → IsIn id (ids_among among holders.old) }
    ensures sweeps { Sweeps line.now side position holders.old holders.new }
    ensures ok { OnOk result ((id : ℕ) (h : Kept) → kept_under holders.new id ≡ Some h → is_off side position h ≡ false) }
    ensures placed { OnOk result (ArePlaced position holders.old holders.new) }
    ensures free { ((id : ℕ) (h : Kept) → kept_under holders.old id ≡ Some h → is_off side position h ≡ false) → IsOk result }
    ensures pool { IsFront (held pool.old) (held pool.new) }
{
    'holders: for index in 0..among.len(holders) {
        if let Some(id) = off_at(holders, among, index, side, position) {
            bring(alloc, holders, line, listed, pool, id, position)?;
        }
    }
    Ok(())
}

// Drops the trees of the formula under the id that were saved before the position.
fn cut(holders: &mut IndexMap<u64, Holder>, id: u64, position: u64)
    ensures { Cuts position id holders.old holders.new }
{
    if let Some(holder) = holders.get_mut(&id) {
        holder.drop_saved(position);
    }
}

// Drops the trees of all formulas that were saved before the position.
pub(crate) fn cut_all(holders: &mut IndexMap<u64, Holder>, position: u64)
    ensures cuts { CutsAll position holders.old holders.new }
    ensures spare { hash.spare holders.new ≡ hash.spare holders.old }
{
    'holders: for index in 0..holders.len() {
        if let Some(id) = Among::All.id_at(holders, index) {
            cut(holders, id, position);
        }
    }
}

// Drops the formulas that were born beyond the position; all of them are looked at.
pub(crate) fn drop_born_beyond(holders: &mut IndexMap<u64, Holder>, among: Among, position: u64)
    requires { (id : ℕ) (h : Holder) → hash.get nat_eq holders.old id ≡ Some h → position < h.birth → IsIn id (ids_among among holders.old) }
    ensures found { (id : ℕ) → hash.get nat_eq holders.new id ≡ option_and_then (holder_born_by position) (hash.get nat_eq holders.old id) }
    ensures spare { hash.spare holders.old ≤ hash.spare holders.new }
{
    match among {
        Among::All => drop_all_born_beyond(holders, position),
        Among::These(ids) => drop_these_born_beyond(holders, ids, position),
    }
}

// Drops the formulas that were born beyond the position, by a look at each.
fn drop_all_born_beyond(holders: &mut IndexMap<u64, Holder>, position: u64)
    ensures found { (id : ℕ) → hash.get nat_eq holders.new id ≡ option_and_then (holder_born_by position) (hash.get nat_eq holders.old id) }
    ensures spare { hash.spare holders.old ≤ hash.spare holders.new }
{
    prove!(holders.len() <= holders.capacity());
    holders.retain(|_, holder| holder.birth <= position);
}

// Drops the formulas that were born beyond the position; each of them has one of these ids.
fn drop_these_born_beyond(holders: &mut IndexMap<u64, Holder>, ids: &[u64], position: u64)
    requires { (id : ℕ) (h : Holder) → hash.get nat_eq holders.old id ≡ Some h → position < h.birth → IsIn id ids.now }
    ensures found { (id : ℕ) → hash.get nat_eq holders.new id ≡ option_and_then (holder_born_by position) (hash.get nat_eq holders.old id) }
    ensures spare { hash.spare holders.old ≤ hash.spare holders.new }
{
    'ids: for index in 0..ids.len() {
        drop_if_born_beyond(holders, ids[index], position);
    }
}

// Drops the formula under the id where it was born beyond the position.
fn drop_if_born_beyond(holders: &mut IndexMap<u64, Holder>, id: u64, position: u64)
    ensures found { hash.get nat_eq holders.new id ≡ option_and_then (holder_born_by position) (hash.get nat_eq holders.old id) }
    ensures others { (other : ℕ) → nat_eq id other ≡ false → hash.get nat_eq holders.new other ≡ hash.get nat_eq holders.old other }
    ensures spare { hash.spare holders.old ≤ hash.spare holders.new }
{
    if is_born_beyond(holders, id, position) {
        let _ = holders.swap_remove(&id);
    }
}

// Whether there is a formula under the id that was born beyond the position.
fn is_born_beyond(holders: &IndexMap<u64, Holder>, id: u64, position: u64) -> bool
    ensures { option_and_then (holder_born_by position) (hash.get nat_eq holders.now id) ≡ (if result then None else hash.get nat_eq holders.now id) }
{
    match holders.get(&id) {
        Some(holder) => position < holder.birth,
        None => false,
    }
}

// Drops the formulas whose ids aren't among these.
pub(crate) fn keep_among(holders: &mut IndexMap<u64, Holder>, ids: &IndexSet<u64>)
    ensures found { (id : ℕ) → hash.get nat_eq holders.new id ≡ (if contains nat_eq ids.now id then hash.get nat_eq holders.old id else None) }
    ensures spare { hash.spare holders.old ≤ hash.spare holders.new }
{
    holders.retain(|id, _| ids.contains(id));
}
