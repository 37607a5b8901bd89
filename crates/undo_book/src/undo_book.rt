// The two lists of entries.
ghost use Rattle.std.specs.Prelude.{◌≡◌, ◌+◌, ◌-◌, ◌<◌, ◌≤◌, ◌↔◌, ◌++◌, [], length, take, IsTrue, IfOk, vec_len, vec_capacity};
ghost use Rattle.std.specs.Option.{option_to_list};
ghost use Rattle.std.specs.VecDeque.{deque_capacity, deque_len};
ghost use Rattle.undo_book.specs.History.{IsWithinLimit, all_but_last, last_of, pushed, stepped_back, stepped_forward, with_done, with_undone, without_entries, without_newest, without_next, without_undone};

use std::alloc::{AllocError, Global};
use std::collections::VecDeque;
use std::marker::Model;

/// Entries that were done and undone, the oldest forgotten beyond a limit.
#[derive(Drop)]
pub struct UndoBook<E> {
    limit: u16,
    done: VecDeque<E>,
    undone: Vec<E>,
}

impl<E> Model for UndoBook<E> {
    ghost use Rattle.std.specs.Prelude.{◌+◌, ◌<◌, ◌≤◌, vec_len, vec_capacity};
    ghost use Rattle.std.specs.VecDeque.{deque_capacity, deque_len};
    ghost use Rattle.undo_book.specs.History.{History, history_code};

    ghost Value = { History E };

    ghost coded = { history_code E.code };

    ghost view = { λ b. record {
      done = b.done.items;
      undone = b.undone.items;
      limit = b.limit;
    } };

    ghost invariant = { λ b. (deque_len b.done + vec_len b.undone ≤ b.limit)
        × (b.limit < deque_capacity b.done)
        × (b.limit < vec_capacity b.undone) };
}

impl<E: Drop> UndoBook<E> {
    /// A book without entries, which keeps at most so many. Takes the room for all of them, twice.
    pub fn new(alloc: Global, limit: u16) -> Result<UndoBook<E>, AllocError>
        ensures { IfOk result (λ book. book ≡ record { done = []; undone = []; limit = limit }) }
    {
        let room = limit as usize + 1;
        Ok(UndoBook {
            limit,
            done: VecDeque::with_capacity(alloc, room)?,
            undone: Vec::with_capacity(alloc, room)?,
        })
    }

    /// How many entries are kept at most, done and undone together.
    pub fn limit(&self) -> u16
        ensures result { result ≡ self.now.limit }
        ensures within { IsWithinLimit self.now }
    {
        self.limit
    }

    /// The entries that are done, the newest last.
    pub fn done(&self) -> &VecDeque<E>
        ensures result { result.now.items ≡ self.now.done }
        ensures within { IsWithinLimit self.now }
    {
        &self.done
    }

    /// The entries that are undone; the one that [`UndoBook::step_forward`] takes is the last.
    pub fn undone(&self) -> &[E]
        ensures result { result.now ≡ self.now.undone }
        ensures within { IsWithinLimit self.now }
    {
        &self.undone
    }

    /// Adds an entry as the newest that is done, and drops those that are undone; the oldest entry is dropped where there
    /// would be more than the limit. Takes no memory. Costs what it drops, and nothing for the entries that stay.
    pub fn push(&mut self, entry: E)
        ensures { self.new ≡ pushed entry self.old }
    {
        self.forget_undone();
        self.done.push_back_reserved(entry);
        drop_oldest(&mut self.done, self.limit);
    }

    /// Drops the entries that are undone. Costs what it drops.
    pub fn forget_undone(&mut self)
        ensures { self.new ≡ without_undone self.old }
    {
        self.undone.clear();
    }

    /// Drops all entries, done and undone. Takes no memory. Costs what it drops.
    pub fn clear(&mut self)
        ensures { self.new ≡ without_entries self.old }
    {
        self.done.clear();
        self.forget_undone();
    }

    /// Takes the entry that [`UndoBook::step_forward`] would take out of the book. `None` exactly where none is undone.
    pub fn take_undone(&mut self) -> Option<E>
        ensures entry { option_to_list result ≡ last_of 1 self.old.undone }
        ensures rest { self.new ≡ without_next self.old }
    {
        self.undone.pop()
    }

    /// Takes the newest entry that is done out of the book. `None` exactly where none is done.
    pub fn take_done(&mut self) -> Option<E>
        ensures entry { option_to_list result ≡ last_of 1 self.old.done }
        ensures rest { self.new ≡ without_newest self.old }
    {
        self.done.pop_back()
    }

    /// Puts an entry to those that are done, as the newest; the others stay. There must be a place for it, as there is
    /// after one was taken out. Takes no memory.
    pub fn put_done(&mut self, entry: E)
        requires { length self.old.done + length self.old.undone < self.old.limit }
        ensures { self.new ≡ with_done entry self.old }
    {
        self.done.push_back_reserved(entry);
    }

    /// Puts an entry to those that are undone, as the one that [`UndoBook::step_forward`] takes; the others stay. There must
    /// be a place for it, as there is after one was taken out. Takes no memory.
    pub fn put_undone(&mut self, entry: E)
        requires { length self.old.done + length self.old.undone < self.old.limit }
        ensures { self.new ≡ with_undone entry self.old }
    {
        self.undone.push_reserved(entry);
    }

    /// Moves the newest entry to those that are undone, as their last, and answers whether there was one. Takes no
    /// memory.
    pub fn step_back(&mut self) -> bool
        ensures moved { self.new ≡ stepped_back self.old }
        ensures result { IsTrue result ↔ (0 < length self.old.done) }
    {
        let Some(entry) = self.done.pop_back() else {
            return false;
        };
        self.undone.push_reserved(entry);
        true
    }

    /// Moves the last entry that is undone to those that are done, as the newest, and answers whether there was one.
    /// Takes no memory.
    pub fn step_forward(&mut self) -> bool
        ensures moved { self.new ≡ stepped_forward self.old }
        ensures result { IsTrue result ↔ (0 < length self.old.undone) }
    {
        let Some(entry) = self.undone.pop() else {
            return false;
        };
        self.done.push_back_reserved(entry);
        true
    }
}

// Drops the oldest entry where there is one more than the limit.
fn drop_oldest<E: Drop>(entries: &mut VecDeque<E>, limit: u16)
    requires { deque_len entries.old ≤ limit + 1 }
    ensures kept { entries.new.items ≡ last_of limit entries.old.items }
    ensures len { deque_len entries.new ≤ limit }
    ensures capacity { deque_capacity entries.new ≡ deque_capacity entries.old }
{
    if entries.len() > limit as usize {
        let _ = entries.pop_front();
    }
}
