// What formulas are worked out over.
ghost use Rattle.std.specs.Prelude.{◌≡◌, ◌+◌, ◌≤◌, ℕ, IfOk, true};
ghost use Rattle.std.specs.Option.{option_map};
ghost use Rattle.cell_value.specs.Summary.{IsBounded, summary_of};
ghost use Rattle.calc_terms.specs.Cells.{cells_in, filled_in, fits};
ghost use Rattle.calc_terms.specs.World.{World};
ghost use Rattle.calc_eval.specs.Named.{named_by};

use cell_addr::{Block, Place};
use cell_value::{Area, Scalar, Summary};
use formula_tree::{Home, Tree};
use std::alloc::{AllocError, Global};
use std::sync::ledger::Ledger;
use steps::Steps;

/// A named expression as a formula sees it.
#[derive(Clone, Copy)]
pub struct NameView<'a> {
    /// What it comes to.
    pub value: &'a Scalar,
    /// Its tree.
    pub tree: &'a Tree,
    /// Its home, from which the tree is seen.
    pub home: Home,
}

/// What formulas are worked out over: what places show, what names stand for, and the day. No call changes it.
pub trait View {
    // What it answers from.
    ghost world: { Self → World };

    /// What the place shows.
    fn scalar(&self, at: Place) -> &Scalar
        ensures { result.now ≡ (world self.now).shown at };

    /// The cells of a block within the limits of a sheet.
    fn area(&self, alloc: Global, block: Block) -> Result<Area, AllocError>
        requires { fits block ≡ true }
        ensures { IfOk result (λ area. area ≡ cells_in (world self.now).shown block) };

    /// What the numbers of such a block's cells come to, in at most one step for each cell that isn't empty.
    fn summary<L: Ledger>(
        &mut self,
        alloc: Global,
        block: Block,
        steps: &mut Steps<L>,
    ) -> Result<Summary, AllocError>
        requires { fits block ≡ true }
        ensures summary { IfOk result (λ summary. summary ≡ summary_of (cells_in (world self.old).shown block).values) }
        ensures bounded { IfOk result IsBounded }
        ensures leaves { world self.new ≡ world self.old }
        ensures least { steps.old ≤ steps.new }
        ensures most { steps.new ≤ steps.old + filled_in (world self.old).shown block };

    /// The named expression that the word finds on the sheet, in any case of its letters; `None` where it
    /// finds none.
    fn name(&self, word: &str, sheet: u32) -> Option<NameView>
        ensures { option_map named_by result ≡ (world self.now).named word.now sheet };

    /// The serial number of today.
    fn day(&self) -> i32
        ensures { result ≡ (world self.now).today };
}
