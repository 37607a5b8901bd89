// Formulas dropped that stand in the way of an operation, or of settling.
ghost use Rattle.std.specs.Prelude.{◌≡◌, true, None, IfOk, OnOk};
ghost use Rattle.lazy_cases.specs.Ways.{AreFew, ComesBack, GoesOn};
ghost use Rattle.lazy_store.specs.Store.{CanComeBack, CanGoOn, KeepsOthers, kept_in, position_in};

use crate::guarded::IDS;
use formula_tree::Pool;
use lazy_store::Lazy;
use std::alloc::AllocError;

/// Drops each formula that is kept as of a position beyond the cursor and can't come back to it.
pub(crate) fn clear_beyond(store: &mut Lazy, pool: &mut Pool) -> Result<(), AllocError>
    requires { AreFew store.old }
    ensures few { AreFew store.new }
    ensures back { OnOk result (CanComeBack store.old.line.cursor store.new) }
    ensures line { store.new.line ≡ store.old.line }
{
    'ids: for id in 0..IDS {
        clear_way_back(store, pool, id)?;
    }
    Ok(())
}

// Drops the formula under the id where it is kept as of a position beyond the cursor and can't come back to it.
fn clear_way_back(store: &mut Lazy, pool: &mut Pool, id: u64) -> Result<(), AllocError>
    ensures back { OnOk result (ComesBack store.new id) }
    ensures others { KeepsOthers id store.old store.new }
    ensures line { store.new.line ≡ store.old.line }
{
    if can_come_back(store, pool, id)? {
        return Ok(());
    }
    drop_formula(store, id);
    Ok(())
}

// Whether the formula under the id is kept as of a position up to the cursor, or can come back to it; so it does where
// there is none.
fn can_come_back(store: &Lazy, pool: &mut Pool, id: u64) -> Result<bool, AllocError>
    ensures { IfOk result (λ can. can ≡ true → ComesBack store.now id) }
{
    let cursor = store.line().cursor();
    let Some(kept) = position_of(store, id) else {
        return Ok(true);
    };
    if kept <= cursor {
        return Ok(true);
    }
    if store.is_live(id) != Some(true) {
        return Ok(false);
    }
    let found = store.tree_at(pool, id, cursor)?;
    Ok(found.is_some())
}

/// Drops each formula that is kept as of a position before this one and has no tree here.
pub(crate) fn clear_before(
    store: &mut Lazy,
    pool: &mut Pool,
    position: u64,
) -> Result<(), AllocError>
    requires { AreFew store.old }
    ensures few { AreFew store.new }
    ensures on { OnOk result (CanGoOn position store.new) }
    ensures line { store.new.line ≡ store.old.line }
{
    'ids: for id in 0..IDS {
        clear_way_on(store, pool, id, position)?;
    }
    Ok(())
}

// Drops the formula under the id where it is kept as of a position before this one and has no tree here.
fn clear_way_on(store: &mut Lazy, pool: &mut Pool, id: u64, position: u64) -> Result<(), AllocError>
    ensures on { OnOk result (GoesOn position store.new id) }
    ensures others { KeepsOthers id store.old store.new }
    ensures line { store.new.line ≡ store.old.line }
{
    if can_go_on(store, pool, id, position)? {
        return Ok(());
    }
    drop_formula(store, id);
    Ok(())
}

// Whether the formula under the id is kept as of this position or a later one, or has a tree here; so it does where there
// is none.
fn can_go_on(store: &Lazy, pool: &mut Pool, id: u64, position: u64) -> Result<bool, AllocError>
    ensures { IfOk result (λ can. can ≡ true → GoesOn position store.now id) }
{
    let Some(kept) = position_of(store, id) else {
        return Ok(true);
    };
    if position <= kept {
        return Ok(true);
    }
    let found = store.tree_at(pool, id, position)?;
    Ok(found.is_some())
}

// As of which position the formula is kept.
fn position_of(store: &Lazy, id: u64) -> Option<u64>
    ensures { result ≡ position_in store.now id }
{
    let stored = store.stored(id)?;
    Some(stored.position)
}

// Drops the formula under the id, live or removed.
fn drop_formula(store: &mut Lazy, id: u64)
    ensures gone { kept_in store.new id ≡ None }
    ensures others { KeepsOthers id store.old store.new }
    ensures line { store.new.line ≡ store.old.line }
{
    match store.is_live(id) {
        Some(true) => {
            store.remove(id);
            store.forget(id);
        }
        Some(false) => store.forget(id),
        None => {}
    }
}
