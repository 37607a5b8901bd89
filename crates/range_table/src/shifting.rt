// Kept summaries taken along with structural operations.
ghost use Rattle.std.specs.Prelude.{◌≡◌, ◌++◌, ◌∷◌, ℕ, List, [], false, IfOk, OnOk, OnErr, IfSome, IsNone};
ghost use Rattle.cell_addr.specs.Place.{IsBlockInside};
ghost use Rattle.shift_core.specs.Sound.{IsSound};

use crate::changes::Changes;
use crate::fate::{Fate, fate_of};
use crate::kept::KeptSummaries;
use cell_addr::Block;
use place_lines::PlaceLines;
use shift_core::Shift;
use std::alloc::AllocError;

impl KeptSummaries {
    ghost use Rattle.cell_addr.specs.declared.place.Place.{Place};
    ghost use Rattle.cell_value.specs.declared.scalar.Scalar.{Scalar};
    ghost use Rattle.range_table.specs.Shifted.{AreMoved, TakesValues};
    ghost use Rattle.range_table.specs.Table.{AreFolds};
    ghost use Rattle.range_table.specs.internal.Files.{FindsGivenUp};
    ghost use Rattle.range_table.specs.internal.Kept.{Grows, map_of};
    ghost use Rattle.range_table.specs.internal.Shifting.{AreChanges, TakesTo};
    ghost use Rattle.range_table.specs.internal.States.{is_found};
    ghost use Rattle.range_table.specs.internal.Tables.{IsUnder, known};

    // Moves the summaries over the operation. Costs what the operation touches, and the runs of lines, which are copied.
    fn shift(&mut self, s: &Shift) -> Result<(), AllocError>
        requires { IsSound s.now }
        ensures ok { OnOk result (AreMoved s.now (map_of self.old) (map_of self.new)) }
        ensures err { OnErr result (map_of self.new ≡ map_of self.old) }
    {
        let lines = self.table.lines.moved(self.alloc, s)?;
        let found = self.files.touched(&self.table.lines, s)?;
        let changes = self.changes(&lines, s, &found)?;
        let left = changes.left.len().saturating_add(RUNS);
        self.left_behind = self.left_behind.saturating_add(left);
        self.table.change(&changes);
        self.table.set_lines(lines);
        Ok(())
    }

    // Does so, and makes all anew where much was left behind.
    pub(crate) fn shift_and_renew(&mut self, s: &Shift) -> Result<(), AllocError>
        requires { IsSound s.now }
        ensures ok { OnOk result (AreMoved s.now (map_of self.old) (map_of self.new)) }
        ensures right { OnOk result ((before after : Place → Scalar) → TakesValues s.now before after → AreFolds before (map_of self.old) → AreFolds after (map_of self.new)) }
        ensures err { OnErr result (map_of self.new ≡ map_of self.old) }
    {
        self.shift(s)?;
        self.renew_worn();
        Ok(())
    }

    // What the operation makes of the found numbers. The numbers of blocks to which it takes others along are added, and
    // these blocks are filed where they stand then; what is kept stays.
    fn changes(
        &mut self,
        lines: &PlaceLines,
        s: &Shift,
        found: &[usize],
    ) -> Result<Changes, AllocError>
        requires sound { IsSound s.now }
        ensures grown { Grows self.old self.new }
        ensures changes { IfOk result (AreChanges s.now lines.now self.new found.now) }
    {
        let mut changes = Changes::new(self.alloc);
        'numbers: for number in found {
            self.change_one(&mut changes, lines, s, *number)?;
        }
        Ok(changes)
    }

    // What the operation makes of a number.
    fn change_one(
        &mut self,
        changes: &mut Changes,
        lines: &PlaceLines,
        s: &Shift,
        number: usize,
    ) -> Result<(), AllocError>
        requires { IsSound s.now }
        ensures grown { Grows self.old self.new }
        ensures changed { OnOk result ((gone : List ℕ) → AreChanges s.now lines.now self.old gone changes.old → AreChanges s.now lines.now self.new (gone ++ number ∷ []) changes.new) }
    {
        match self.found_block(number) {
            Some(block) => self.change_block(changes, lines, s, number, block),
            None => Ok(()),
        }
    }

    // The block of a number of which something is known.
    fn found_block(&self, number: usize) -> Option<Block>
        ensures some { IfSome result (λ b. IsUnder self.now.table number b × IsBlockInside b) }
        ensures none { IsNone result → is_found (known self.now.table number) ≡ false }
    {
        if self.table.state(number).is_found() {
            self.table.block(number)
        } else {
            None
        }
    }

    // What the operation makes of the number of a block.
    fn change_block(
        &mut self,
        changes: &mut Changes,
        lines: &PlaceLines,
        s: &Shift,
        number: usize,
        block: Block,
    ) -> Result<(), AllocError>
        requires sound { IsSound s.now }
        requires under { IsUnder self.old.table number block }
        requires inside { IsBlockInside block }
        ensures grown { Grows self.old self.new }
        ensures changed { OnOk result ((gone : List ℕ) → AreChanges s.now lines.now self.old gone changes.old → AreChanges s.now lines.now self.new (gone ++ number ∷ []) changes.new) }
    {
        match fate_of(s, block) {
            Fate::Stays => Ok(()),
            Fate::Moves(after) => {
                self.take(changes, lines, number, after)?;
                changes.leave(number)
            }
            Fate::Ends => changes.leave(number),
        }
    }

    // Takes what is kept under a number along to the block that its block becomes.
    fn take(
        &mut self,
        changes: &mut Changes,
        lines: &PlaceLines,
        number: usize,
        after: Block,
    ) -> Result<(), AllocError>
        requires { IsBlockInside after }
        ensures grown { Grows self.old self.new }
        ensures left { changes.new.left ≡ changes.old.left }
        ensures taken { OnOk result (TakesTo lines.now number after self.new changes.old changes.new) }
    {
        if let Some(summary) = self.table.state(number).summary() {
            let arrival = self.table.know(lines.area(after))?;
            self.files.file(lines, after, arrival)?;
            changes.arrive(arrival, summary)?;
        }
        Ok(())
    }
}

// About how many runs of lines an edit adds.
const RUNS: usize = 2;
