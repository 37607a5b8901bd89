// The lines along one axis of a sheet.
ghost use Rattle.std.specs.Prelude.{◌≡◌, ℕ, ◌<◌, ◌≤◌, ◌+◌, ◌-◌, ◌∷◌, [], Some, true, is_some, IfOk};
ghost use Rattle.stable_lines.specs.Runs.{AreInverse, image};
ghost use Rattle.stable_lines.specs.internal.Levels.{IsRead, IsReadBack, all_runs, back_through, runs_of, through};
ghost use Rattle.stable_lines.specs.internal.Turns.{whole};
ghost use Rattle.stable_lines.specs.internal.Tables.{end_by, is_table};

use crate::composed::{new_lines, new_positions, whole, with_run};
use crate::far::{Far, deepened, deepened_back};
use crate::level::Level;
use crate::levels::{LineLevels, PositionLevels};
use crate::run::Run;
use crate::turn::Turn;
use shift_core::Edit;
use std::alloc::{AllocError, Global};
use std::rc::Rc;

// No line has this number, 2 to the 63rd, or a greater one.
const END: u64 = 9_223_372_036_854_775_808;

// How many runs the near level has at most.
const NEAR: usize = 48;

/// The lines along one axis of a sheet: which stands at each position, and where each stands.
///
/// Positions are counted from 0 to before the limit. Runs of positions whose lines follow one another stand in levels: an
/// edit makes a few more of them in a small table, which is composed with larger ones as it fills, and copies share all
/// of them. So an edit costs as much as that table has runs, and over many edits the logarithm of their number more. A
/// look-up either way halves each level, of which there is one until some edits came.
pub struct LineTable {
    limit: u32,
    // No line has this number or a greater one.
    next: u64,
    // The same of the farther levels alone.
    base: u64,
    // From positions to lines.
    lines: LineLevels,
    // From lines to positions.
    positions: PositionLevels,
    pub ghost narrow: { limit < 4294967296 },
    pub ghost first: { limit ≤ base },
    pub ghost older: { base ≤ next },
    pub ghost low: { next ≤ 9223372036854775808 },
    pub ghost near_lines: { is_table 0 lines.near ≡ true },
    pub ghost near_lines_end: { end_by limit lines.near ≡ true },
    pub ghost near_positions: { is_table 0 positions.near ≡ true },
    pub ghost near_positions_end: { end_by (limit + (next - base)) positions.near ≡ true },
    pub ghost near_inverse: { AreInverse (image lines.near) (image positions.near) },
    pub ghost near_filled: { (p : ℕ) → p < limit → is_some (image lines.near p) ≡ true },
    pub ghost near_within: { (p l : ℕ) → image lines.near p ≡ Some l → p < limit },
    pub ghost near_below: { (p l : ℕ) → image lines.near p ≡ Some l → l < limit + (next - base) },
    pub ghost far_inverse: { AreInverse (through lines.far) (back_through positions.far) },
    pub ghost far_filled: { (y : ℕ) → y < limit → is_some (through lines.far y) ≡ true },
    pub ghost far_below: { (y l : ℕ) → y < limit → through lines.far y ≡ Some l → l < base },
    pub ghost far_fresh: { (y : ℕ) → limit ≤ y → base + (y - limit) < 9223372036854775808 → through lines.far y ≡ Some (base + (y - limit)) },
    pub ghost read: { IsRead lines },
    pub ghost read_back: { IsReadBack positions },
    pub ghost inverse: { AreInverse (image lines.items) (image positions.items) },
    pub ghost filled: { (p : ℕ) → p < limit → is_some (image lines.items p) ≡ true },
    pub ghost within: { (p l : ℕ) → image lines.items p ≡ Some l → p < limit },
    pub ghost below: { (p l : ℕ) → image lines.items p ≡ Some l → l < next },
}

// Written out, so that whoever drops one calls one function.
impl Drop for LineTable {
    fn drop(self) {
        let LineTable {
            limit: _,
            next: _,
            base: _,
            lines: _lines,
            positions: _positions,
        } = self;
    }
}

impl LineTable {
    ghost use Rattle.std.specs.Prelude.{◌↔◌, IfSome, IfNone, MatchOption, IsTrue, IsSome};
    ghost use Rattle.shift_core.specs.Lines.{line_after, line_before};
    ghost use Rattle.stable_lines.specs.Lines.{AreRenewed, AreSame, IsRunFrom, first_line, line_at, position_of};
    ghost use Rattle.stable_lines.specs.internal.Deepened.{LeadBack, LeadOn, near_next};
    ghost use Rattle.stable_lines.specs.internal.Turned.{IsTurned};
    ghost use Rattle.stable_lines.specs.internal.Turns.{IsTurn, MovesSoundly};

    /// The lines of a sheet with this many positions that was never edited: each at the position of its own number.
    pub fn new(alloc: Global, limit: u32) -> Result<LineTable, AllocError>
        ensures limit { IfOk result (λ t. (t.limit ≡ limit) × (t.next ≡ limit)) }
        ensures lines { IfOk result (λ t. (x : ℕ) → line_at t x ≡ first_line limit x) }
        ensures positions { IfOk result (λ t. (x : ℕ) → position_of t x ≡ first_line limit x) }
    {
        let sheet = whole_level(alloc, limit)?;
        let far = Rc::new(alloc, Vec::new(alloc))?;
        Ok(LineTable {
            limit,
            next: limit as u64,
            base: limit as u64,
            lines: LineLevels::new(sheet.clone()?, far.clone()?),
            positions: PositionLevels::new(sheet, far),
        })
    }

    /// How many positions there are.
    pub fn limit(&self) -> u32
        ensures { result ≡ self.now.limit }
    {
        self.limit
    }

    /// No line has this number or a greater one. An edit that makes lines gives them numbers from here on.
    pub fn next(&self) -> u64
        ensures { result ≡ self.now.next }
    {
        self.next
    }

    /// The line at the position; `None` past the limit. Costs the logarithm of the number of runs for each level.
    pub fn line(&self, position: u32) -> Option<u64>
        ensures { result ≡ line_at self.now position }
    {
        self.lines.line(position as u64)
    }

    /// Where the line stands; `None` where it stands nowhere. Costs the logarithm of the number of runs for each level.
    pub fn position(&self, line: u64) -> Option<u32>
        ensures { result ≡ position_of self.now line }
    {
        match self.positions.position(line) {
            Some(position) => Some(position as u32),
            None => None,
        }
    }

    /// Lines that follow one another from the position on; `None` past the limit. Costs what [`LineTable::line`] does.
    pub fn run_from(&self, position: u32) -> Option<Run>
        ensures found { IsTrue (is_some result) ↔ (position < self.now.limit) }
        ensures run { IfSome result (IsRunFrom self.now position) }
        ensures sum { IfSome result (λ run. run.to + run.count < 18446744073709551616) }
    {
        if position >= self.limit {
            return None;
        }
        self.lines.led(Run {
            from: position as u64,
            to: position as u64,
            count: (self.limit - position) as u64,
        })
    }

    /// The lines after the edit, which must fit the sheet where it is a move. Costs a small number of runs, and over many
    /// edits the logarithm of the number of runs more; one of them that fills a level costs the runs of the next.
    ///
    /// Lines keep their numbers. Those that come in have numbers that none had. Where these are used up, after more
    /// edits than fit a lifetime, the answer is want of memory.
    pub fn edited(&self, alloc: Global, edit: Edit) -> Result<LineTable, AllocError>
        requires { MovesSoundly self.now.limit edit }
        ensures { IfOk result (AreRenewed (line_before self.now.limit edit) self.now) }
    {
        self.turned(alloc, Turn::of(edit, self.limit))
    }

    /// The lines once the edit is taken back, in every other way as by `edited`.
    pub fn unedited(&self, alloc: Global, edit: Edit) -> Result<LineTable, AllocError>
        requires { MovesSoundly self.now.limit edit }
        ensures { IfOk result (AreRenewed (line_after self.now.limit edit) self.now) }
    {
        self.turned(alloc, Turn::back_of(edit, self.limit))
    }

    // The number of the next new line, of those that the near level counts.
    fn near_next(&self) -> u64
        ensures next { result ≡ near_next self.now }
        ensures end { result ≤ 9223372036854775808 }
    {
        self.limit as u64 + (self.next - self.base)
    }

    // The lines after a turn of them and of fresh ones.
    fn turned(&self, alloc: Global, turn: Turn) -> Result<LineTable, AllocError>
        requires turn { IsTurn turn }
        requires end { self.now.limit ≤ turn.end }
        ensures { IfOk result (IsTurned turn self.now) }
    {
        let table = self.turned_near(alloc, turn)?;
        if table.lines.near().len() > NEAR || table.positions.near().len() > NEAR {
            table.deepened(alloc)
        } else {
            Ok(table)
        }
    }

    // The lines after the turn, all of which the near level takes.
    fn turned_near(&self, alloc: Global, turn: Turn) -> Result<LineTable, AllocError>
        requires turn { IsTurn turn }
        requires end { self.now.limit ≤ turn.end }
        ensures { IfOk result (IsTurned turn self.now) }
    {
        let limit = self.limit as u64;
        let room = turn.end - limit;
        if END - self.next < room {
            return Err(AllocError);
        }
        let next = self.near_next();
        let fresh = Run {
            from: limit,
            to: next,
            count: room,
        };
        let lines = new_lines(alloc, self.lines.near(), limit, fresh, turn)?;
        let fresh_back = Run {
            from: next,
            to: limit,
            count: room,
        };
        let positions = new_positions(alloc, self.positions.near(), limit, fresh_back, turn)?;
        Ok(LineTable {
            limit: self.limit,
            next: self.next + room,
            base: self.base,
            lines: LineLevels::new(Level::new(alloc, lines)?, self.lines.far().clone()?),
            positions: PositionLevels::new(
                Level::new(alloc, positions)?,
                self.positions.far().clone()?,
            ),
        })
    }

    // The same lines, with nothing in the near level but the positions of the sheet.
    fn deepened(&self, alloc: Global) -> Result<LineTable, AllocError>
        ensures { IfOk result (λ new. AreSame new self.now) }
    {
        let sheet = whole_level(alloc, self.limit)?;
        let lines = self.deepened_lines(alloc)?;
        let positions = self.deepened_positions(alloc)?;
        Ok(LineTable {
            limit: self.limit,
            next: self.next,
            base: self.next,
            lines: LineLevels::new(sheet.clone()?, lines),
            positions: PositionLevels::new(sheet, positions),
        })
    }

    // The farther levels of lines with the near one as the first of them, from which fresh lines go on.
    fn deepened_lines(&self, alloc: Global) -> Result<Far, AllocError>
        ensures { IfOk result (λ far. LeadOn self.now (all_runs far.value.items)) }
    {
        let limit = self.limit as u64;
        let next = self.near_next();
        let fresh = Run {
            from: limit,
            to: next,
            count: END - next,
        };
        let table = with_run(alloc, self.lines.near(), fresh)?;
        deepened(alloc, table, self.lines.far())
    }

    // The farther levels of positions, in the same way.
    fn deepened_positions(&self, alloc: Global) -> Result<Far, AllocError>
        ensures { IfOk result (λ far. LeadBack self.now (all_runs far.value.items)) }
    {
        let limit = self.limit as u64;
        let next = self.near_next();
        let fresh = Run {
            from: next,
            to: limit,
            count: END - next,
        };
        let table = with_run(alloc, self.positions.near(), fresh)?;
        deepened_back(alloc, table, self.positions.far())
    }
}

// A level in which each position of a sheet stands for itself.
fn whole_level(alloc: Global, limit: u32) -> Result<Level, AllocError>
    ensures { IfOk result (λ level. runs_of level ≡ whole limit ∷ []) }
{
    Level::new(alloc, Vec::from_array(alloc, [whole(limit as u64)])?)
}

/// Copies share their runs, so that one costs no more than counts of their holders.
impl Clone for LineTable {
    ghost use Rattle.stable_lines.specs.Lines.{AreSame};

    ghost is_clone = { λ t copy. AreSame copy t };

    fn clone(&self) -> Result<LineTable, AllocError> {
        Ok(LineTable {
            limit: self.limit,
            next: self.next,
            base: self.base,
            lines: self.lines.clone()?,
            positions: self.positions.clone()?,
        })
    }
}
