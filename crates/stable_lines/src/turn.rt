// Turns: two bands of lines that stand side by side change places. Every edit is one, of the lines of the sheet and
// of fresh ones behind them.
ghost use Rattle.std.specs.Prelude.{◌≡◌};
ghost use Rattle.shift_core.specs.declared.edit.Edit.TheVariants.{Move};

use crate::run::Run;
use shift_core::Edit;

// The lines from `first` to before `middle` and those from `middle` to before `last` change places, of `end` lines.
#[derive(Clone, Copy, PartialEq, Eq, Debug)]
pub(crate) struct Turn {
    pub first: u64,
    pub middle: u64,
    pub last: u64,
    pub end: u64,
}

impl Turn {
    ghost use Rattle.stable_lines.specs.internal.Turns.{IsTurn, MovesSoundly, turn_of_insert, turn_of_delete, turn_of_move, turn_of_edit, turn_back, turned_back, swaps};

    // What the edit does to `limit` lines and to the fresh ones behind them.
    pub(crate) fn of(edit: Edit, limit: u32) -> Turn
        requires { MovesSoundly limit edit }
        ensures { result ≡ turn_of_edit limit edit }
    {
        match edit {
            Edit::Insert { at, count } => Turn::of_insert(at, count, limit),
            Edit::Delete { at, count } => Turn::of_delete(at, count, limit),
            Edit::Move {
                from,
                count,
                before,
            } => Turn::of_move(from, count, before, limit),
        }
    }

    // What takes the edit back.
    pub(crate) fn back_of(edit: Edit, limit: u32) -> Turn
        requires { MovesSoundly limit edit }
        ensures { result ≡ turn_back limit edit }
    {
        match edit {
            Edit::Insert { at, count } => Turn::of_delete(at, count, limit),
            Edit::Delete { at, count } => Turn::of_insert(at, count, limit),
            Edit::Move {
                from,
                count,
                before,
            } => Turn::of_move(from, count, before, limit).back(),
        }
    }

    // Fresh lines come before the line `at`, as many of them as fit.
    fn of_insert(at: u32, count: u32, limit: u32) -> Turn
        ensures { result ≡ turn_of_insert limit at count }
    {
        let first = at.min(limit);
        let room = count.min(limit - first);
        let last = limit as u64 + room as u64;
        Turn {
            first: first as u64,
            middle: limit as u64,
            last,
            end: last,
        }
    }

    // The lines from `at` go behind the others and as many fresh ones, past the sheet's end.
    fn of_delete(at: u32, count: u32, limit: u32) -> Turn
        ensures { result ≡ turn_of_delete limit at count }
    {
        let first = at.min(limit);
        let gone = count.min(limit - first);
        let last = limit as u64 + gone as u64;
        Turn {
            first: first as u64,
            middle: first as u64 + gone as u64,
            last,
            end: last,
        }
    }

    // The moved lines change places with those that they are moved over.
    fn of_move(from: u32, count: u32, before: u32, limit: u32) -> Turn
        requires { MovesSoundly limit (Move from count before) }
        ensures { result ≡ turn_of_move limit from count before }
    {
        let from = from as u64;
        let before = before as u64;
        let end = from + count as u64;
        if end < before {
            Turn {
                first: from,
                middle: end,
                last: before,
                end: limit as u64,
            }
        } else {
            Turn {
                first: before,
                middle: from,
                last: end,
                end: limit as u64,
            }
        }
    }

    // Where the bands go.
    pub(crate) fn swaps(self) -> [Run; 4]
        requires { IsTurn self }
        ensures { result ≡ swaps self }
    {
        let Turn {
            first,
            middle,
            last,
            end,
        } = self;
        [
            Run {
                from: 0,
                to: 0,
                count: first,
            },
            Run {
                from: first,
                to: first + (last - middle),
                count: middle - first,
            },
            Run {
                from: middle,
                to: first,
                count: last - middle,
            },
            Run {
                from: last,
                to: last,
                count: end - last,
            },
        ]
    }

    // The turn that takes this one back.
    pub(crate) fn back(self) -> Turn
        requires { IsTurn self }
        ensures { result ≡ turned_back self }
    {
        let middle = self.first + (self.last - self.middle);
        Turn { middle, ..self }
    }
}
