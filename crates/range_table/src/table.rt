// Blocks under numbers.
ghost use Rattle.std.specs.Prelude.{◌≡◌, ◌<◌, ◌==◌, ◌++◌, ◌∷◌, ℕ, [], false, Some, None, length, slice_get, if◌then◌else◌, IfSome, IfOk, OnOk, OnErr, IsNone, vec_capacity, vec_len};
ghost use Rattle.std.specs.List.{list_any};
ghost use Rattle.range_table.specs.internal.States.{AreOnce, block_under, same_area, state_at};

use crate::state::State;
use cell_addr::Block;
use indexmap::IndexSet;
use place_lines::{LineArea, PlaceLines};
use std::alloc::{AllocError, Global};

// The blocks that were kept at some time, under numbers from 0 on, by the numbers of their lines. So what an operation only
// carries along stands as it stood.
pub(crate) struct Table {
    // Where the lines stand.
    pub(crate) lines: PlaceLines,
    // The areas of the blocks, in the order in which they came.
    pub(crate) keys: IndexSet<LineArea>,
    // What is known of each.
    pub(crate) states: Vec<State>,
    pub ghost counts: { length states.items ≡ length keys.keys },
    pub ghost once: { AreOnce keys.keys },
}

// Written out, so that whoever drops one calls one function.
impl Drop for Table {
    fn drop(self) {
        let Table {
            lines: _lines,
            keys: _keys,
            states: _states,
        } = self;
    }
}

impl Table {
    ghost use Rattle.range_table.specs.internal.Tables.{Grows};

    // No blocks, on sheets that were never edited.
    pub(crate) fn new(alloc: Global) -> Result<Table, AllocError>
        ensures keys { IfOk result (λ table. table.keys.keys ≡ []) }
        ensures states { IfOk result (λ table. table.states.items ≡ []) }
    {
        Ok(Table {
            lines: PlaceLines::new(alloc)?,
            keys: IndexSet::new(alloc),
            states: Vec::new(alloc),
        })
    }

    // How many numbers there are.
    pub(crate) fn len(&self) -> usize
        ensures { result ≡ length self.now.keys.keys }
    {
        self.keys.len()
    }

    // The number of an area.
    pub(crate) fn number(&self, area: LineArea) -> Option<usize>
        ensures found { IfSome result (λ n. slice_get self.now.keys.keys n ≡ Some area) }
        ensures absent { IsNone result → list_any (same_area area) self.now.keys.keys ≡ false }
    {
        self.keys.get_index_of(&area)
    }

    // The block of a number; None past the last number, and where one of its lines stands nowhere.
    pub(crate) fn block(&self, number: usize) -> Option<Block>
        ensures { result ≡ block_under self.now.lines self.now.keys.keys number }
    {
        match self.keys.as_slice().get(number) {
            Some(area) => self.lines.block(*area),
            None => None,
        }
    }

    // What is known of the block of a number; nothing past the last one.
    pub(crate) fn state(&self, number: usize) -> State
        ensures { result ≡ state_at self.now.states.items number }
    {
        match self.states.as_slice().get(number) {
            Some(state) => *state,
            None => State::Left,
        }
    }

    // Sets what is known of the block of a number.
    pub(crate) fn set(&mut self, number: usize, state: State)
        requires { number < length self.old.states.items }
        ensures count { length self.new.states.items ≡ length self.old.states.items }
        ensures lines { self.new.lines ≡ self.old.lines }
        ensures keys { self.new.keys.keys ≡ self.old.keys.keys }
        ensures states { (n : ℕ) → state_at self.new.states.items n ≡ (if n == number then state else state_at self.old.states.items n) }
    {
        self.states[number] = state;
    }

    // Lets the lines stand elsewhere.
    pub(crate) fn set_lines(&mut self, lines: PlaceLines)
        ensures lines { self.new.lines ≡ lines }
        ensures keys { self.new.keys.keys ≡ self.old.keys.keys }
        ensures states { self.new.states.items ≡ self.old.states.items }
    {
        self.lines = lines;
    }

    // The number of an area, which is added where it isn't known.
    pub(crate) fn know(&mut self, area: LineArea) -> Result<usize, AllocError>
        ensures grown { Grows self.old self.new }
        ensures number { IfOk result (λ n. slice_get self.new.keys.keys n ≡ Some area) }
    {
        if let Some(number) = self.number(area) {
            return Ok(number);
        }
        let number = self.len();
        make_room(&mut self.states)?;
        add_key(&mut self.keys, area)?;
        push_last(&mut self.states, State::Left);
        Ok(number)
    }
}

// Makes room for one state more.
fn make_room(states: &mut Vec<State>) -> Result<(), AllocError>
    ensures items { states.new.items ≡ states.old.items }
    ensures room { OnOk result (vec_len states.new < vec_capacity states.new) }
{
    states.reserve(1)
}

// Adds one at the end, where there is room.
fn push_last<X: Copy>(list: &mut Vec<X>, x: X)
    requires { vec_len list.old < vec_capacity list.old }
    ensures { list.new.items ≡ list.old.items ++ x ∷ [] }
{
    list.push_reserved(x);
}

// Adds an area that isn't there at the end.
fn add_key(keys: &mut IndexSet<LineArea>, area: LineArea) -> Result<(), AllocError>
    requires { list_any (same_area area) keys.old.keys ≡ false }
    ensures keys { OnOk result (keys.new.keys ≡ keys.old.keys ++ area ∷ []) }
    ensures err { OnErr result (keys.new.keys ≡ keys.old.keys) }
    ensures once { AreOnce keys.new.keys }
{
    match keys.insert(area) {
        Ok(_) => Ok(()),
        Err(_) => Err(AllocError),
    }
}
