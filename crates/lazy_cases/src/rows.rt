// Calls whose answers are known beforehand: each row is a list of steps.
ghost use Rattle.std.specs.Prelude.{◌≡◌};

use crate::guarded::{Change, Guarded};
use crate::reading::read_formula;
use cell_addr::Place;
use formula_tree::{Home, Pool, Tree};
use shift_core::Shift;
use shift_line::Line;
use std::alloc::{AllocError, Global};

// The ids of two formulas.
const ID: u64 = 7;

const OTHER: u64 = 3;

// One row put before row 2.
const INSERT: Shift = Shift::InsertRows {
    sheet: 0,
    at: 1,
    count: 1,
};

// Row 5 deleted, and rows 5 and 6.
const DELETE_FIFTH: Shift = Shift::DeleteRows {
    sheet: 0,
    at: 4,
    count: 1,
};

const DELETE_TWO: Shift = Shift::DeleteRows {
    sheet: 0,
    at: 4,
    count: 2,
};

// Row 1 deleted.
const DELETE_FIRST: Shift = Shift::DeleteRows {
    sheet: 0,
    at: 0,
    count: 1,
};

// One row put before row 4.
const INSERT_FOURTH: Shift = Shift::InsertRows {
    sheet: 0,
    at: 3,
    count: 1,
};

// Column B deleted.
const DELETE_COLUMN: Shift = Shift::DeleteCols {
    sheet: 0,
    at: 1,
    count: 1,
};

/// A call, or an answer that is wanted. Formulas stand in cells of column A, whose rows count from 0.
#[derive(Clone, Copy)]
pub(crate) enum Step {
    /// The formula of this id and row is put in.
    Put(u64, u32, &'static str),
    /// An operation is done.
    Shift(Shift),
    /// The cursor goes to the position.
    MoveTo(u64),
    /// Formulas that lag behind the cursor come to it within the budget; whether none is left.
    CatchUp(u64, bool),
    /// The store is settled to the position.
    Settle(u64),
    /// A formula is removed, put back or forgotten.
    Change(Change, u64),
    /// The formula reads so, in this row.
    Reads(u64, u32, &'static str),
    /// At the position, the second number, the formula is so, in this row.
    IsAt(u64, u64, u32, &'static str),
    /// It has no tree at the position.
    IsNowhere(u64, u64),
    /// It is kept so as of the position.
    Keeps(u64, u64, u32, &'static str),
    /// Whether a tree is saved over the operation at the position.
    Saves(u64, u64, bool),
    /// Whether it is live; `None` where it isn't there.
    IsLive(u64, Option<bool>),
    /// The line's first position.
    First(u64),
}

/// A formula is kept as it was, looked up at other positions, read, and settled.
pub(crate) const READ_AND_SETTLED: [Step; 9] = [
    Step::Put(ID, 0, "=B5"),
    Step::Shift(INSERT),
    Step::Keeps(ID, 0, 0, "=B5"),
    Step::IsAt(ID, 1, 0, "=B6"),
    Step::IsNowhere(ID, 2),
    Step::Reads(ID, 0, "=B6"),
    Step::Settle(1),
    Step::First(1),
    Step::IsNowhere(ID, 0),
];

/// Formulas catch up in their order within a budget, each whose operations it suffices for; one without a standing at the cursor
/// and a removed one are left alone, and so is one that is kept beyond it.
pub(crate) const CAUGHT_UP: [Step; 22] = [
    Step::Put(ID, 0, "=B5"),
    Step::Shift(INSERT),
    Step::Put(OTHER, 2, "=B3"),
    Step::Shift(INSERT),
    Step::CatchUp(1, false),
    Step::Keeps(ID, 0, 0, "=B5"),
    Step::Keeps(OTHER, 2, 3, "=B4"),
    Step::CatchUp(2, true),
    Step::Keeps(ID, 2, 0, "=B7"),
    Step::Shift(DELETE_FIRST),
    Step::CatchUp(0, false),
    Step::CatchUp(1, true),
    Step::Keeps(ID, 2, 0, "=B7"),
    Step::Keeps(OTHER, 3, 2, "=B3"),
    Step::IsNowhere(ID, 3),
    Step::Shift(INSERT),
    Step::Change(Change::Remove, OTHER),
    Step::CatchUp(0, true),
    Step::Keeps(OTHER, 3, 2, "=B3"),
    Step::MoveTo(2),
    Step::CatchUp(9, true),
    Step::Keeps(OTHER, 3, 2, "=B3"),
];

/// A reference that was lost is there again when the cursor goes back, whether the formula was read or not.
pub(crate) const LOST_AND_BACK: [Step; 13] = [
    Step::Put(ID, 0, "=B5"),
    Step::Put(OTHER, 1, "=B5"),
    Step::Shift(DELETE_FIFTH),
    Step::Reads(ID, 0, "=#REF!"),
    Step::Saves(ID, 0, true),
    Step::Saves(OTHER, 0, false),
    Step::MoveTo(0),
    Step::Reads(ID, 0, "=B5"),
    Step::Saves(ID, 0, false),
    Step::Reads(OTHER, 1, "=B5"),
    Step::MoveTo(1),
    Step::Reads(ID, 0, "=#REF!"),
    Step::Reads(OTHER, 1, "=#REF!"),
];

/// A block that lost rows has them again two operations back, and a new operation there takes the whole block along.
pub(crate) const CLIPPED_AND_WHOLE: [Step; 11] = [
    Step::Put(ID, 0, "=SUM(B5:B10)"),
    Step::Shift(DELETE_TWO),
    Step::Reads(ID, 0, "=SUM(B5:B8)"),
    Step::Change(Change::Remove, ID),
    Step::Shift(DELETE_FIRST),
    Step::IsNowhere(ID, 2),
    Step::Change(Change::PutBack, ID),
    Step::MoveTo(0),
    Step::Shift(INSERT_FOURTH),
    Step::Keeps(ID, 0, 0, "=SUM(B5:B10)"),
    Step::Reads(ID, 0, "=SUM(B6:B11)"),
];

/// Whole columns stay as they are where rows are put in, and whole rows go along; a column that they lost is there again
/// when the cursor goes back.
pub(crate) const WHOLE_AND_BACK: [Step; 15] = [
    Step::Put(ID, 0, "=SUM(B:D)"),
    Step::Put(OTHER, 1, "=SUM(2:$4)"),
    Step::Shift(INSERT),
    Step::Keeps(ID, 0, 0, "=SUM(B:D)"),
    Step::Reads(ID, 0, "=SUM(B:D)"),
    Step::Reads(OTHER, 2, "=SUM(3:$5)"),
    Step::Saves(ID, 0, false),
    Step::Shift(DELETE_COLUMN),
    Step::Reads(ID, 0, "=SUM(B:C)"),
    Step::Reads(OTHER, 2, "=SUM(3:$5)"),
    Step::Saves(ID, 1, true),
    Step::Saves(OTHER, 1, false),
    Step::MoveTo(0),
    Step::Reads(ID, 0, "=SUM(B:D)"),
    Step::Reads(OTHER, 1, "=SUM(2:$4)"),
];

/// A formula that was removed and is put back has the operations between still in front of it.
pub(crate) const REMOVED_AND_BACK: [Step; 11] = [
    Step::Put(ID, 0, "=B5"),
    Step::Change(Change::Remove, ID),
    Step::Shift(INSERT),
    Step::Shift(INSERT),
    Step::IsLive(ID, Some(false)),
    Step::Keeps(ID, 0, 0, "=B5"),
    Step::Change(Change::PutBack, ID),
    Step::Reads(ID, 0, "=B7"),
    Step::Change(Change::Remove, ID),
    Step::Change(Change::Forget, ID),
    Step::IsLive(ID, None),
];

/// A store, and the pool of its trees.
struct Scene {
    alloc: Global,
    pool: Pool,
    store: Guarded,
}

// Written out, so that whoever drops one calls one function.
impl Drop for Scene {
    fn drop(self) {
        let Scene {
            alloc: _,
            pool: _pool,
            store: _store,
        } = self;
    }
}

impl Scene {
    // A store without formulas.
    fn new(alloc: Global) -> Result<Scene, AllocError> {
        Ok(Scene {
            alloc,
            pool: Pool::new(alloc)?,
            store: Guarded::new(alloc)?,
        })
    }

    // Whether all steps hold, on a store that has room for a formula and an operation.
    fn all_hold(&mut self, steps: &[Step]) -> Result<bool, AllocError> {
        self.store.reserve(2)?;
        'steps: for step in steps {
            if !self.holds(*step)? {
                return Ok(false);
            }
        }
        Ok(true)
    }

    // Whether room that is made serves a formula.
    fn keeps_room(&mut self) -> Result<bool, AllocError> {
        self.store.reserve(3)?;
        let room = self.store.store().spare();
        let put = self.put(ID, 0, "=B5")?;
        let less = self.store.store().spare();
        Ok(put && room >= 3 && less.saturating_add(1) >= room)
    }

    // Puts the formula into a cell of column A, whose row counts from 0.
    fn put(&mut self, id: u64, row: u32, text: &str) -> Result<bool, AllocError> {
        match read_formula(self.alloc, &mut self.pool, cell(row), text)? {
            Some(standing) => self.store.insert(id, &standing),
            None => Ok(false),
        }
    }

    // Whether the call could be made, or the answer is the wanted one.
    fn holds(&mut self, step: Step) -> Result<bool, AllocError> {
        match step {
            Step::Put(id, row, text) => self.put(id, row, text),
            Step::Shift(s) => self.store.shift(&mut self.pool, s),
            Step::MoveTo(position) => {
                self.store.move_cursor(position);
                Ok(self.store.store().line().cursor() == position)
            }
            Step::CatchUp(budget, all) => {
                Ok(self.store.catch_up(&mut self.pool, budget)? == all)
            }
            Step::Settle(position) => self.store.settle(&mut self.pool, position),
            Step::Change(change, id) => Ok(self.store.change(change, id)),
            Step::Reads(id, row, text) => self.reads(id, row, text),
            Step::IsAt(id, position, row, text) => self.is_at(id, position, row, text),
            Step::IsNowhere(id, position) => self.is_nowhere_at(id, position),
            Step::Keeps(id, position, row, text) => self.keeps(id, position, row, text),
            Step::Saves(id, position, saves) => Ok(self.saves(id, position) == saves),
            Step::IsLive(id, live) => Ok(self.store.store().is_live(id) == live),
            Step::First(position) => Ok(self.store.store().line().first() == position),
        }
    }

    // Whether the formula reads so, and stands in this row.
    fn reads(&mut self, id: u64, row: u32, text: &str) -> Result<bool, AllocError> {
        let Some(tree) = self.store.read(&mut self.pool, id)? else {
            return Ok(false);
        };
        let kept = match self.store.store().stored(id) {
            Some(stored) => stored.home == cell(row) && Tree::ptr_eq(stored.tree, &tree),
            None => false,
        };
        Ok(kept && self.spells(row, text, &tree)?)
    }

    // Whether the formula is so at the position, and stands in this row there.
    fn is_at(&mut self, id: u64, position: u64, row: u32, text: &str) -> Result<bool, AllocError> {
        match self.store.store().tree_at(&mut self.pool, id, position)? {
            Some((home, tree)) => Ok(home == cell(row) && self.spells(row, text, &tree)?),
            None => Ok(false),
        }
    }

    // Whether the formula has no tree at the position.
    fn is_nowhere_at(&mut self, id: u64, position: u64) -> Result<bool, AllocError> {
        let found = self.store.store().tree_at(&mut self.pool, id, position)?;
        Ok(found.is_none())
    }

    // Whether the formula is kept so, as of this position, without catching up.
    fn keeps(&mut self, id: u64, position: u64, row: u32, text: &str) -> Result<bool, AllocError> {
        let tree = match self.store.store().stored(id) {
            Some(stored) if stored.position == position && stored.home == cell(row) => {
                stored.tree.clone()?
            }
            _ => return Ok(false),
        };
        self.spells(row, text, &tree)
    }

    // Whether a tree of the formula is saved over the operation at the position.
    fn saves(&self, id: u64, position: u64) -> bool {
        self.store.store().saved(id, position).is_some()
    }

    // Whether the text spells the tree for a formula in this row.
    fn spells(&mut self, row: u32, text: &str, tree: &Tree) -> Result<bool, AllocError> {
        let wanted = read_formula(self.alloc, &mut self.pool, cell(row), text)?;
        Ok(wanted.is_some_and(|standing| standing.is(cell(row), tree)))
    }
}

// The home of a cell of column A.
fn cell(row: u32) -> Home {
    Home::Cell(Place {
        sheet: 0,
        row,
        col: 0,
    })
}

/// Whether all steps hold, on a store that has room for a formula and an operation.
pub(crate) fn all_hold(alloc: Global, steps: &[Step]) -> Result<bool, AllocError> {
    let mut scene = Scene::new(alloc)?;
    scene.all_hold(steps)
}

/// Room that was made serves formulas and operations.
pub(crate) fn room_is_kept(alloc: Global) -> Result<bool, AllocError> {
    let mut scene = Scene::new(alloc)?;
    scene.keeps_room()
}

/// A line is cut, and its oldest operation forgotten.
pub(crate) fn a_line_is_cut_and_forgotten(alloc: Global) -> Result<bool, AllocError> {
    let mut line = Line::new(alloc)?;
    let cut = is_cut(&mut line)?;
    Ok(cut && is_forgotten(&mut line))
}

// Whether an operation takes the place of the one that the cursor went back over.
fn is_cut(line: &mut Line) -> Result<bool, AllocError>
    requires { line.old.cursor ≡ 0 }
{
    line.push(INSERT)?;
    line.push(INSERT_FOURTH)?;
    let back = line.back();
    line.push(DELETE_FIFTH)?;
    Ok(back == Some(INSERT_FOURTH) && line.last() == 2 && line.at(1) == Some(DELETE_FIFTH))
}

// Whether the first of two operations is forgotten, and the second one stays.
fn is_forgotten(line: &mut Line) -> bool {
    if line.first() > 1 || line.cursor() < 1 {
        return false;
    }
    line.forget_before(1);
    line.first() == 1 && line.back() == Some(DELETE_FIFTH) && line.back().is_none()
}
