// What a recalculation asks of the workbook.
ghost use Rattle.std.specs.Prelude.{◌≡◌, ℕ, List, IfOk};
ghost use Rattle.book_values.specs.Workbook.{Workbook};
ghost use Rattle.recalc_core.specs.Given.{IsFound, IsGiven, IsOrder};

use cell_value::Scalar;
use dep_graph::Node;
use formula_tree::{Home, Tree};
use std::alloc::AllocError;

/// What a workbook has at a node.
#[derive(Drop)]
pub enum NodeContent {
    /// An empty cell, or a name that it doesn't know.
    Nothing,
    /// A cell without a tree, which shows this.
    Value(Scalar),
    /// A formula: its tree, as it is seen from its home.
    Formula(Tree, Home),
}

/// A workbook as a recalculation reads it: what stands at places and names, and which name a word finds. No call changes
/// it; formulas may be brought up to date as they are read.
pub trait Trees {
    // The workbook, and the words by their numbers.
    ghost workbook: { Self → Workbook };

    ghost words: { Self → List (List ℕ) };

    // What calls leave of it, beside the workbook and the words: any number of calls leaves what one does.
    ghost leaves: { Self → Self → Type 0 };

    ghost laws: { IsOrder leaves };

    /// What stands at the place or name; at a range nothing. A formula that can't be read is the value `#ERROR!`.
    fn given(&mut self, a: Node) -> Result<NodeContent, AllocError>
        ensures given { IfOk result (IsGiven (workbook self.old) (words self.old) a) }
        ensures leaves { workbook self.new ≡ workbook self.old }
        ensures words { words self.new ≡ words self.old }
        ensures reads { leaves self.old self.new };

    /// The name that the word finds on the sheet: the sheet's own, else that of the whole workbook; `None` where it finds
    /// none.
    fn find(&mut self, word: &str, sheet: u32) -> Result<Option<Node>, AllocError>
        ensures found { IfOk result (IsFound (workbook self.old) (words self.old) word.now sheet) }
        ensures leaves { workbook self.new ≡ workbook self.old }
        ensures words { words self.new ≡ words self.old }
        ensures reads { leaves self.old self.new };
}
