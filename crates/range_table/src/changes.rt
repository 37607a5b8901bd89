// What operations make of numbers.
ghost use Rattle.std.specs.Prelude.{◌≡◌, ◌<◌, ◌==◌, ◌++◌, ◌∷◌, ℕ, [], Some, length, unwrap_or, if◌then◌else◌, OnOk};
ghost use Rattle.std.specs.BTreeMap as tree;
ghost use Rattle.std.specs.Ordering.{nat_cmp};
ghost use Rattle.needs_order.specs.Needs.{has};
ghost use Rattle.range_table.specs.declared.state.State.{State};
ghost use Rattle.range_table.specs.declared.state.State.TheVariants.{Kept, Left};

use crate::state::State;
use crate::table::Table;
use cell_value::Summary;
use std::alloc::{AllocError, Global};
use std::collections::BTreeMap;

// What an operation makes of what is known of numbers.
#[derive(Drop)]
pub(crate) struct Changes {
    // The numbers of which nothing is known any more.
    pub(crate) left: Vec<usize>,
    // What is known then of the numbers of the blocks to which it takes others along.
    pub(crate) arrived: BTreeMap<usize, State>,
}

impl Changes {
    // None.
    pub(crate) fn new(alloc: Global) -> Changes
        ensures left { result.left.items ≡ [] }
        ensures arrived { result.arrived.entries ≡ [] }
    {
        Changes {
            left: Vec::new(alloc),
            arrived: BTreeMap::new(alloc),
        }
    }

    // Adds a number of which nothing is known any more.
    pub(crate) fn leave(&mut self, number: usize) -> Result<(), AllocError>
        ensures left { OnOk result (self.new.left.items ≡ self.old.left.items ++ number ∷ []) }
        ensures arrived { self.new.arrived ≡ self.old.arrived }
    {
        self.left.push(number)?;
        Ok(())
    }

    // Keeps a summary under a number. For want of memory nothing is changed.
    pub(crate) fn arrive(&mut self, number: usize, summary: Summary) -> Result<(), AllocError>
        ensures left { self.new.left ≡ self.old.left }
        ensures arrived { OnOk result ((n : ℕ) → tree.get nat_cmp self.new.arrived n ≡ (if n == number then Some (Kept summary) else tree.get nat_cmp self.old.arrived n)) }
    {
        let before: Option<State> = self.arrived.insert(number, State::Kept(summary))?;
        let _ = before;
        Ok(())
    }
}

impl Table {
    ghost use Rattle.range_table.specs.internal.Tables.{known, state_then};

    // Makes the changes. Takes no memory.
    pub(crate) fn change(&mut self, changes: &Changes)
        requires { (n : ℕ) (state : State) → tree.get nat_cmp changes.now.arrived n ≡ Some state → n < length self.old.states.items }
        ensures lines { self.new.lines ≡ self.old.lines }
        ensures keys { self.new.keys.keys ≡ self.old.keys.keys }
        ensures states { (n : ℕ) → known self.new n ≡ state_then changes.now self.old n }
    {
        self.leave_all(&changes.left);
        self.put_all(&changes.arrived);
    }

    // Forgets what is known of these numbers.
    fn leave_all(&mut self, left: &[usize])
        ensures lines { self.new.lines ≡ self.old.lines }
        ensures keys { self.new.keys.keys ≡ self.old.keys.keys }
        ensures count { length self.new.states.items ≡ length self.old.states.items }
        ensures states { (n : ℕ) → known self.new n ≡ (if has n left.now then Left else known self.old n) }
    {
        'numbers: for number in left {
            self.leave_one(*number);
        }
    }

    // Forgets what is known of a number.
    fn leave_one(&mut self, number: usize)
        ensures lines { self.new.lines ≡ self.old.lines }
        ensures keys { self.new.keys.keys ≡ self.old.keys.keys }
        ensures count { length self.new.states.items ≡ length self.old.states.items }
        ensures states { (n : ℕ) → known self.new n ≡ (if has n (number ∷ []) then Left else known self.old n) }
    {
        if number < self.states.len() {
            self.set(number, State::Left);
        }
    }

    // Sets what is known of these numbers.
    fn put_all(&mut self, arrived: &BTreeMap<usize, State>)
        requires { (n : ℕ) (state : State) → tree.get nat_cmp arrived.now n ≡ Some state → n < length self.old.states.items }
        ensures lines { self.new.lines ≡ self.old.lines }
        ensures keys { self.new.keys.keys ≡ self.old.keys.keys }
        ensures states { (n : ℕ) → known self.new n ≡ unwrap_or (tree.get nat_cmp arrived.now n) (known self.old n) }
    {
        'numbers: for (number, state) in arrived {
            self.set(*number, *state);
        }
    }
}
