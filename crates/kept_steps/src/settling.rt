// Operations of the line on which no step rests any more, which are forgotten now and then.
ghost use Rattle.std.specs.Prelude.{◌≡◌, ◌≤◌, ◌&&◌, ℕ, true, false, IfOk, IfSome, OnOk, OnErr, nat_eq};
ghost use Rattle.std.specs.HashSet.{contains};
ghost use Rattle.lazy_store.specs.Store.{CanGoOn, GoOnTo, KeepsFrom, StandsAsBefore, StandsFrom, position_in};
ghost use Rattle.shift_line.specs.Track.{forgotten, with_spare};
ghost use Rattle.kept_steps.specs.Fits.{changes_in, open_changes};
ghost use Rattle.kept_steps.specs.internal.Listed.{first_from, goes_on, is_from};

use crate::entry::Entry;
use crate::listing::add;
use crate::session::Session;
use crate::sweeping::{keep_only, next_sweep};
use formula_tree::Pool;
use indexmap::IndexSet;
use kept_book::Book;
use lazy_store::Lazy;
use std::alloc::{AllocError, Global};

/// So many operations on which no step rests stay on the line; with more of them a structural change settles first.
pub const LEAST_SETTLED: u64 = 4_096;

impl Session {
    ghost use Rattle.kept_steps.specs.Kept.{ComeToBase, KeepsFromBase};
    ghost use Rattle.kept_steps.specs.Session.{base_of, line_settled, settles, state_of};

    // Settles, where at least so many operations of the line lie before the base.
    pub(crate) fn settle_where_due(&mut self) -> Result<(), AllocError>
        ensures state { state_of self.new ≡ state_of self.old }
        ensures line { OnOk result (self.new.book.lazy.line ≡ with_spare self.new.book.lazy.line.spare (line_settled self.old)) }
        ensures line_err { OnErr result (self.new.book.lazy.line ≡ self.old.book.lazy.line) }
        ensures same { settles self.old ≡ false → self.new.book.lazy ≡ self.old.book.lazy }
        ensures names { self.new.book.names ≡ self.old.book.names }
        ensures kept { KeepsFromBase self.old self.new.book.lazy }
        ensures placed { OnOk result (settles self.old ≡ true → ComeToBase self.old self.new.book.lazy) }
    {
        let base = self.base();
        if base - self.book.lazy.line().first() < LEAST_SETTLED {
            return Ok(());
        }
        self.settle(base)
    }

    // The oldest position on which a step or the open batch rests; the cursor, where there is none.
    fn base(&self) -> u64
        ensures { result ≡ base_of self.now }
    {
        let done = self.steps.done();
        for index in 0..done.len() {
            if let Some(from) = start(done.get(index)) {
                return from;
            }
        }
        match open_start(&self.batch) {
            Some(from) => from,
            None => self.book.lazy.line().cursor(),
        }
    }

    // Takes the formulas of the session's workbooks that are kept as of a position before the base to it, drops those that
    // have no standing there, and forgets the operations before it.
    fn settle(&mut self, base: u64) -> Result<(), AllocError>
        requires { base ≡ base_of self.old }
        ensures state { state_of self.new ≡ state_of self.old }
        ensures line { OnOk result (self.new.book.lazy.line ≡ with_spare self.new.book.lazy.line.spare (forgotten base self.old.book.lazy.line)) }
        ensures line_err { OnErr result (self.new.book.lazy.line ≡ self.old.book.lazy.line) }
        ensures names { self.new.book.names ≡ self.old.book.names }
        ensures kept { KeepsFromBase self.old self.new.book.lazy }
        ensures placed { OnOk result (ComeToBase self.old self.new.book.lazy) }
    {
        let listed = self.listed()?;
        let book = &self.book;
        let ids = going_on(book.alloc, &book.lazy, &listed, base)?;
        keep_only(&mut self.book, &ids);
        self.sweep_at = next_sweep(self.book.next_id, ids.len() as u64);
        settle(&mut self.book, &mut self.pool, base)?;
        Ok(())
    }
}

// The position before a step, if there is one.
fn start(entry: Option<&Entry>) -> Option<u64>
    ensures { IfSome entry.entry (λ e. result ≡ first_from (changes_in e.now)) }
{
    let part = entry?.parts.first()?;
    Some(part.from)
}

// The position before the open batch, where something changed in it.
fn open_start(batch: &Option<Entry>) -> Option<u64>
    ensures { result ≡ first_from (open_changes batch.now) }
{
    match batch {
        Some(entry) => {
            let part = entry.parts.first()?;
            Some(part.from)
        }
        None => None,
    }
}

// Those of the ids whose formulas can be taken to the position, or are kept as of it or a later one.
fn going_on(
    alloc: Global,
    lazy: &Lazy,
    listed: &IndexSet<u64>,
    position: u64,
) -> Result<IndexSet<u64>, AllocError>
    ensures { IfOk result (λ ids. (id : ℕ) → contains nat_eq ids id ≡ (contains nat_eq listed.now id && goes_on lazy.now position id)) }
{
    let mut ids = IndexSet::new(alloc);
    for id in listed.as_slice() {
        let goes = goes_on(lazy, *id, position);
        add(&mut ids, goes.then_some(*id))?;
    }
    Ok(ids)
}

// Whether a formula is kept as of the position or a later one, or has a standing there.
fn goes_on(lazy: &Lazy, id: u64, position: u64) -> bool
    ensures { result ≡ goes_on lazy.now position id }
{
    is_from(lazy, id, position) || lazy.stands_at(id, position)
}

// Whether a formula is kept as of the position or a later one.
fn is_from(lazy: &Lazy, id: u64, position: u64) -> bool
    ensures { result ≡ is_from position (position_in lazy.now id) }
{
    match lazy.stored(id) {
        Some(stored) => position <= stored.position,
        None => false,
    }
}

// Takes the formulas before the position to it, and forgets the operations before it.
fn settle(book: &mut Book, pool: &mut Pool, position: u64) -> Result<(), AllocError>
    requires first { book.old.lazy.line.first ≤ position }
    requires cursor { position ≤ book.old.lazy.line.cursor }
    requires there { CanGoOn position book.old.lazy }
    ensures line { OnOk result (book.new.lazy.line ≡ with_spare book.new.lazy.line.spare (forgotten position book.old.lazy.line)) }
    ensures standings { OnOk result (StandsFrom position book.old.lazy book.new.lazy) }
    ensures placed { OnOk result (GoOnTo position book.old.lazy book.new.lazy) }
    ensures line_err { OnErr result (book.new.lazy.line ≡ book.old.lazy.line) }
    ensures err { OnErr result (StandsAsBefore book.old.lazy book.new.lazy) }
    ensures kept { KeepsFrom position book.old.lazy book.new.lazy }
    ensures grid { book.new.grid ≡ book.old.grid }
    ensures names { book.new.names ≡ book.old.names }
    ensures next { book.new.next_id ≡ book.old.next_id }
{
    book.lazy.settle(pool, position)
}
