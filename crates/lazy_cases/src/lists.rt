// Random lists of calls.

use crate::guarded::{Change, IDS};
use crate::pair::Pair;
use crate::tally::Tally;
use cell_addr::NO_SHEET;
use draws::{Corner, Draws};
use formula_tree::Home;
use std::alloc::{AllocError, Global};

// How many lists there are, and how many calls in each.
const LISTS: u64 = 20;

const CALLS: u32 = 300;

// The formulas that are put into the store: references, blocks and whole ranges with `$` and without, on their own sheet
// and another one, at the ends of a sheet too.
const TEXTS: [&str; 18] = [
    "=B5",
    "=$C$3+1",
    "=A1*-D7%",
    "=SUM(B2:B9)",
    "=SUM(A1:C4,$B$6:$D$11)",
    "=One!B4&\"x\"",
    "=SUM(One!A2:D7)",
    "=IF(A3>B$8,C2,#REF!)",
    "=B1048576",
    "=SUM(B1:B1048576)",
    "=ZZZ2",
    "=MAX(A2:ZZZ3)",
    "=SUM(B:$C)",
    "=COUNT(2:$5,D:D)",
    "=SUM(One!C:A)-One!$3:4",
    "=MAX(B:ZZZ,3:1048576)",
    "=total+B2",
    "=12.5",
];

// A kind of call.
#[derive(Clone, Copy)]
enum Kind {
    Insert,
    Change(Change),
    Read,
    Shift,
    MoveCursor,
    Settle,
}

// The kinds, each as often as it is to come.
const KINDS: [Kind; 24] = [
    Kind::Insert,
    Kind::Insert,
    Kind::Insert,
    Kind::Change(Change::Remove),
    Kind::Change(Change::Remove),
    Kind::Change(Change::PutBack),
    Kind::Change(Change::PutBack),
    Kind::Change(Change::Forget),
    Kind::Read,
    Kind::Read,
    Kind::Read,
    Kind::Read,
    Kind::Shift,
    Kind::Shift,
    Kind::Shift,
    Kind::Shift,
    Kind::Shift,
    Kind::Shift,
    Kind::MoveCursor,
    Kind::MoveCursor,
    Kind::MoveCursor,
    Kind::MoveCursor,
    Kind::MoveCursor,
    Kind::Settle,
];

/// Makes lists of calls on a store and on the plain machine, and compares both after each call.
pub(crate) fn run_lists(alloc: Global) -> Result<Tally, AllocError> {
    let mut tally = Tally::default();
    'lists: for seed in 0..LISTS {
        let mut pair = Pair::new(alloc)?;
        run_list(&mut pair, &mut Draws::new(seed, Corner::First), &mut tally)?;
    }
    Ok(tally)
}

// Makes the calls of a list.
fn run_list(pair: &mut Pair, draws: &mut Draws, tally: &mut Tally) -> Result<(), AllocError> {
    'calls: for _ in 0..CALLS {
        make_call(pair, draws, tally)?;
        pair.compare(tally)?;
        tally.calls = tally.calls.saturating_add(1);
    }
    tally.lists = tally.lists.saturating_add(1);
    Ok(())
}

// Makes some call.
fn make_call(pair: &mut Pair, draws: &mut Draws, tally: &mut Tally) -> Result<(), AllocError> {
    let id = u64::from(draws.below(IDS as u32));
    match any_of(draws, &KINDS) {
        Some(Kind::Insert) => {
            let home = any_home(draws);
            let text = any_of(draws, &TEXTS).unwrap_or("");
            pair.insert(id, home, text)?;
        }
        Some(Kind::Change(change)) => pair.change(change, id),
        Some(Kind::Read) => pair.read(id, tally)?,
        Some(Kind::Shift) => pair.shift(draws.shift())?,
        Some(Kind::MoveCursor) => pair.move_cursor(near_cursor(pair, draws)),
        Some(Kind::Settle) => {
            let (first, cursor, _) = pair.positions();
            let position = first.saturating_add(up_to(draws, cursor.saturating_sub(first)));
            pair.settle(position)?;
        }
        None => {}
    }
    Ok(())
}

// One of the items.
fn any_of<T: Copy>(draws: &mut Draws, items: &[T]) -> Option<T> {
    let count = u32::try_from(items.len()).ok()?;
    if count == 0 {
        return None;
    }
    items.get(draws.below(count) as usize).copied()
}

// A number up to this one.
fn up_to(draws: &mut Draws, most: u64) -> u64 {
    let bound = u32::try_from(most).unwrap_or(u32::MAX).saturating_add(1);
    u64::from(draws.below(bound))
}

// A position at most eight operations from the cursor.
fn near_cursor(pair: &Pair, draws: &mut Draws) -> u64 {
    let (first, cursor, last) = pair.positions();
    let steps = u64::from(draws.below(9));
    match draws.below(2) {
        0 => cursor.saturating_sub(steps).max(first),
        _ => cursor.saturating_add(steps).min(last),
    }
}

// The home of a cell, or of a name.
fn any_home(draws: &mut Draws) -> Home {
    match draws.below(8) {
        0 => Home::Name {
            sheet: draws.sheet(),
        },
        1 => Home::Name { sheet: NO_SHEET },
        _ => Home::Cell(draws.place()),
    }
}
