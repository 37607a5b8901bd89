// The line of operations, with its cursor.
ghost use Rattle.std.specs.Prelude.{◌≡◌, ℕ, ◌+◌, ◌-◌, ◌<◌, ◌≤◌, ◌^◌, [], drop, min, max, length, MatchOption, Some, IfOk, OnOk, OnErr, IsOk};
ghost use Rattle.std.specs.VecDeque.{deque_capacity};
ghost use Rattle.shift_line.specs.Track.{IsRun, last, shift_at, pushed, forgotten, with_spare};

use shift_core::Shift;
use std::alloc::{AllocError, Global};
use std::collections::VecDeque;
use std::marker::Model;

/// The operations between the positions `first` and `last`, with a cursor between them. The operation at a
/// position leads from it to the next one.
#[derive(Drop)]
pub struct Line {
    shifts: VecDeque<Shift>,
    first: u64,
    cursor: u64,
}

impl Model for Line {
    ghost use Rattle.std.specs.Prelude.{◌+◌, ◌-◌, ◌<◌, ◌≤◌, ◌^◌, length};
    ghost use Rattle.std.specs.VecDeque.{deque_len, deque_capacity};
    ghost use Rattle.shift_line.specs.Track.{Track};

    ghost Value = { Track };

    ghost view = { λ l. record {
      shifts = l.shifts.items;
      first = l.first;
      cursor = l.cursor;
      spare = deque_capacity l.shifts - deque_len l.shifts;
    } };

    ghost invariant = { λ l. (l.first ≤ l.cursor) × (l.cursor ≤ l.first + length l.shifts.items)
        × (l.first + length l.shifts.items < 2 ^ 64) };
}

impl Line {
    /// A line of no operations, with all positions 0.
    pub fn new(alloc: Global) -> Result<Line, AllocError>
        ensures shifts { IfOk result (λ line. line.shifts ≡ []) }
        ensures positions { IfOk result (λ line. (line.first ≡ 0) × (line.cursor ≡ 0)) }
    {
        Ok(Line {
            shifts: VecDeque::new(alloc),
            first: 0,
            cursor: 0,
        })
    }

    /// The position in front of the oldest operation that is kept.
    pub fn first(&self) -> u64
        ensures { result ≡ self.now.first }
    {
        self.first
    }

    /// The position of the cursor.
    pub fn cursor(&self) -> u64
        ensures result { result ≡ self.now.cursor }
        ensures first { self.now.first ≤ result }
        ensures last { result ≤ last self.now }
    {
        self.cursor
    }

    /// The position behind the newest operation.
    pub fn last(&self) -> u64
        ensures { result ≡ last self.now }
    {
        self.first + self.shifts.len() as u64
    }

    /// The operation that leads from the position to the next one; None exactly where none is kept there.
    pub fn at(&self, position: u64) -> Option<Shift>
        ensures { result ≡ shift_at self.now position }
    {
        if position < self.first {
            return None;
        }
        let index = usize::try_from(position - self.first).ok()?;
        self.shifts.get(index).copied()
    }

    /// The operations from one position up to another one, in order: as many as lie side by side, which is at least one
    /// where one is kept there. Costs the same however many there are.
    pub fn run_from(&self, from: u64, to: u64) -> &[Shift]
        ensures run { IsRun self.now from result.now }
        ensures within { length result.now ≤ to - from }
        ensures some { self.now.first ≤ from → from < to → from < last self.now → 0 < length result.now }
    {
        let (front, back) = self.shifts.as_slices();
        let end = to.min(self.last());
        if from < self.first || end <= from {
            return &front[..0];
        }
        let (start, end) = ((from - self.first) as usize, (end - self.first) as usize);
        if start < front.len() {
            &front[start..end.min(front.len())]
        } else {
            &back[start - front.len()..end - front.len()]
        }
    }

    /// The operations from one position up to another one, in order: as many as lie side by side in front of the latter,
    /// which is at least one where one is kept there. Costs the same however many there are.
    pub fn run_to(&self, from: u64, to: u64) -> &[Shift]
        ensures run { IsRun self.now (to - length result.now) result.now }
        ensures within { length result.now ≤ to - from }
        ensures some { from < to → self.now.first < to → to ≤ last self.now → 0 < length result.now }
    {
        let (front, back) = self.shifts.as_slices();
        let start = from.max(self.first);
        if self.last() < to || to <= start {
            return &front[..0];
        }
        let (start, end) = ((start - self.first) as usize, (to - self.first) as usize);
        if end <= front.len() {
            &front[start..end]
        } else {
            &back[start.max(front.len()) - front.len()..end - front.len()]
        }
    }

    /// How many operations more fit without memory.
    pub fn spare(&self) -> usize
        ensures { result ≡ self.now.spare }
    {
        self.shifts.capacity() - self.shifts.len()
    }

    /// Makes room for so many operations more. The operations and positions stay, whatever the answer.
    pub fn reserve(&mut self, more: usize) -> Result<(), AllocError>
        ensures room { OnOk result (more ≤ self.new.spare) }
        ensures kept { self.new ≡ with_spare self.new.spare self.old }
        ensures spare { self.old.spare ≤ self.new.spare }
        ensures succeeds { more ≤ self.old.spare → IsOk result }
    {
        self.shifts.reserve(more)
    }

    /// Cuts off what lies beyond the cursor, puts the operation there, and moves the cursor behind it. The
    /// cursor is below the greatest position. Takes no memory where there is room, or something was cut off;
    /// where there is no memory the line stays as it was.
    pub fn push(&mut self, s: Shift) -> Result<(), AllocError>
        requires { self.old.cursor < u64.MAX }
        ensures ok { OnOk result (self.new ≡ with_spare self.new.spare (pushed s self.old)) }
        ensures err { OnErr result (self.new ≡ with_spare self.new.spare self.old) }
        ensures room { 0 < self.old.spare → IsOk result }
        ensures cut { self.old.cursor < last self.old → IsOk result }
        ensures spare { self.old.spare ≤ self.new.spare + 1 }
    {
        let kept = (self.cursor - self.first) as usize;
        if kept == self.shifts.len() {
            self.shifts.reserve(1)?;
        }
        self.shifts.truncate(kept);
        self.shifts.push_back_reserved(s);
        self.cursor += 1;
        Ok(())
    }

    /// Moves the cursor over the operation in front of it, and answers that; None exactly at `first`.
    pub fn back(&mut self) -> Option<Shift>
        ensures passed { MatchOption result (self.old.cursor ≡ self.old.first)
            (λ s. (self.old.first < self.old.cursor) × (shift_at self.old (self.old.cursor - 1) ≡ Some s)) }
        ensures cursor { self.new ≡ record self.old { cursor = max self.old.first (self.old.cursor - 1) } }
    {
        if self.cursor == self.first {
            return None;
        }
        self.cursor -= 1;
        self.at(self.cursor)
    }

    /// Moves the cursor over the operation behind it, and answers that; None exactly at `last`.
    pub fn forward(&mut self) -> Option<Shift>
        ensures passed { result ≡ shift_at self.old self.old.cursor }
        ensures cursor { self.new ≡ record self.old { cursor = min (last self.old) (self.old.cursor + 1) } }
    {
        let passed = self.at(self.cursor);
        if passed.is_some() {
            self.cursor += 1;
        }
        passed
    }

    /// Moves the cursor to a position from `first` to `last`.
    pub fn move_to(&mut self, position: u64)
        requires first { self.old.first ≤ position }
        requires last { position ≤ last self.old }
        ensures { self.new ≡ record self.old { cursor = position } }
    {
        self.cursor = position;
    }

    /// Forgets the operations in front of a position from `first` to the cursor, which becomes `first`. Costs
    /// about their number.
    pub fn forget_before(&mut self, position: u64)
        requires first { self.old.first ≤ position }
        requires cursor { position ≤ self.old.cursor }
        ensures kept { self.new ≡ with_spare self.new.spare (forgotten position self.old) }
        ensures spare { self.old.spare ≤ self.new.spare }
    {
        drop_front(&mut self.shifts, position - self.first);
        self.first = position;
    }
}

// Drops so many operations from the front.
fn drop_front(shifts: &mut VecDeque<Shift>, count: u64)
    ensures shifts { shifts.new.items ≡ drop count shifts.old.items }
    ensures capacity { deque_capacity shifts.new ≡ deque_capacity shifts.old }
{
    'dropped: for _ in 0..count {
        let _ = shifts.pop_front();
    }
}
