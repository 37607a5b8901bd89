// Summaries that are given up because a cell of their block changes.
ghost use Rattle.std.specs.Prelude.{◌≡◌, ◌<◌, ◌∷◌, ℕ, [], true, length};
ghost use Rattle.std.specs.List.{list_any};
ghost use Rattle.block_index.specs.Index.{filed_in, slot_count};
ghost use Rattle.needs_order.specs.Needs.{has};
ghost use Rattle.place_lines.specs.Spots.{spot_of};
ghost use Rattle.range_table.specs.internal.Filed.{finds_at};
ghost use Rattle.range_table.specs.internal.GivenUp.{GivesUp, holds_at};

use crate::files::Files;
use crate::state::State;
use crate::table::Table;
use block_index::BlockIndex;
use cell_addr::Place;

// Gives up the summaries of all blocks that hold the place and that its cell finds. Where there is no memory for the list
// of its slots, all blocks are looked at.
pub(crate) fn give_up_found(table: &mut Table, files: &Files, at: Place)
    ensures { GivesUp at (λ n. finds_at files.now.cells (spot_of table.old.lines at) n ≡ true) table.old table.new }
{
    let spot = table.lines.spot(at);
    match files.cells.slots_at(spot.sheet, spot.row, spot.col) {
        Ok(slots) => give_up_under(table, &files.cells, &slots, at),
        Err(_) => give_up_all(table, at),
    }
}

// Gives up the summaries of those blocks that hold the place and are filed under one of the slots.
fn give_up_under(table: &mut Table, cells: &BlockIndex, slots: &[usize], at: Place)
    requires { (s : ℕ) → has s slots.now ≡ true → s < slot_count cells.now }
    ensures { GivesUp at (λ n. list_any (λ s. has n (filed_in cells.now s)) slots.now ≡ true) table.old table.new }
{
    'slots: for slot in slots {
        give_up_filed(table, cells.filed(*slot), at);
    }
}

// Gives up the summaries of those blocks of the numbers that hold the place.
fn give_up_filed(table: &mut Table, numbers: &[usize], at: Place)
    ensures { GivesUp at (λ n. has n numbers.now ≡ true) table.old table.new }
{
    'numbers: for number in numbers {
        give_up_one(table, *number, at);
    }
}

// Gives up the summaries of all blocks that hold the place.
fn give_up_all(table: &mut Table, at: Place)
    ensures { GivesUp at (λ n. n < length table.old.states.items) table.old table.new }
{
    'numbers: for number in 0..table.states.len() {
        give_up_one(table, number, at);
    }
}

// Gives up the summary of the block of a number where it holds the place.
fn give_up_one(table: &mut Table, number: usize, at: Place)
    ensures { GivesUp at (λ n. n ≡ number) table.old table.new }
{
    if let State::Kept(_) = table.state(number) {
        if holds(table, number, at) {
            table.set(number, State::Found);
        }
    }
}

// Whether the block of a number holds the place.
fn holds(table: &Table, number: usize, at: Place) -> bool
    ensures { result ≡ holds_at table.now number at }
{
    match table.block(number) {
        Some(block) => block.holds(at),
        None => false,
    }
}
