// Values that are brought up to date.
ghost use Rattle.std.specs.Prelude.{◌≡◌, ◌+◌, ◌≤◌, [], IfOk, OnErr, OnOk};
ghost use Rattle.formula_tree.specs.Reference.{sheet_of};
ghost use Rattle.formula_tree.specs.Relative.{relative};
ghost use Rattle.formula_tree.specs.StandsFor.{at_home};
ghost use Rattle.calc_terms.specs.Meaning.{meaning};
ghost use Rattle.book_values.specs.Values.{value_of, world_of};
ghost use Rattle.recalc_core.specs.Kept.{AreRight};
ghost use Rattle.recalc_core.specs.Nodes.{AreNumbered};
ghost use Rattle.recalc_core.specs.Steps.{formula_cost};
ghost use Rattle.marked_values.specs.Marks.{IsBookInside};

use crate::values::Values;
use calc_eval::Customs;
use cell_value::Scalar;
use formula_tree::{Home, Tree};
use recalc_core::Trees;
use std::alloc::AllocError;
use std::sync::ledger::Ledger;
use steps::Steps;

impl Values {
    ghost use Rattle.kept_values.specs.Values.{Follows, TakesSteps, asks_in, kept_in, links_in, loses_in, marks_in, seeks_in, unlinked_in};

    /// Brings the values up to date with the workbook that they follow, with these custom functions, on the day of this serial
    /// number: links the nodes that were marked since they were last linked, and works out all that reaches a mark, each node once.
    ///
    /// Afterwards what is kept of every place and every name is its value, and there are no marks. For want of memory the
    /// marks stay, and the values follow still. Costs the links of the nodes that were marked since they were last linked, and the
    /// steps of what reaches a mark; nothing where there are no marks.
    pub fn refresh<T: Trees, C: Customs, L: Ledger>(
        &mut self,
        trees: &mut T,
        customs: &C,
        day: i32,
        steps: &mut Steps<L>,
    ) -> Result<(), AllocError>
        requires inside { IsBookInside (T.workbook trees.old) }
        requires numbered { AreNumbered (T.words trees.old) (T.workbook trees.old).names }
        requires follows { Follows (T.workbook trees.old) (T.words trees.old) (C.customs customs.now) day self.old }
        ensures right { OnOk result (AreRight (T.workbook trees.old) (T.words trees.old) (C.customs customs.now) day (kept_in self.new)) }
        ensures unmarked { OnOk result (marks_in self.new ≡ []) }
        ensures marks { OnErr result (marks_in self.new ≡ marks_in self.old) }
        ensures follows { Follows (T.workbook trees.old) (T.words trees.old) (C.customs customs.now) day self.new }
        ensures least { steps.old ≤ steps.new }
        ensures most { TakesSteps (T.workbook trees.old) (T.words trees.old) (C.customs customs.now) day (marks_in self.old) steps.old steps.new }
        ensures leaves { T.workbook trees.new ≡ T.workbook trees.old }
        ensures words { T.words trees.new ≡ T.words trees.old }
        ensures reads { T.leaves trees.old trees.new }
    {
        if self.marks().items().is_empty() {
            return Ok(());
        }
        self.link(trees)?;
        self.recalc
            .recalculate(&self.graph, trees, customs, day, steps)
    }

    /// What the tree means in a formula at the home, where what is kept of every place and every name is its value. Nothing of it is
    /// kept, but for summaries of blocks. Costs its steps.
    pub fn tried<T: Trees, C: Customs, L: Ledger>(
        &mut self,
        trees: &mut T,
        tree: &Tree,
        home: Home,
        customs: &C,
        day: i32,
        steps: &mut Steps<L>,
    ) -> Result<Scalar, AllocError>
        requires right { AreRight (T.workbook trees.old) (T.words trees.old) (C.customs customs.now) day (kept_in self.old) }
        ensures means { IfOk result (λ value. value ≡ meaning (world_of (T.workbook trees.old).names day (value_of (T.workbook trees.old) (C.customs customs.now) day)) (C.customs customs.now) home (at_home home (relative tree.now.value))) }
        ensures links { links_in self.new ≡ links_in self.old }
        ensures asking { asks_in self.new ≡ asks_in self.old }
        ensures losing { loses_in self.new ≡ loses_in self.old }
        ensures seeking { seeks_in self.new ≡ seeks_in self.old }
        ensures kept { kept_in self.new ≡ kept_in self.old }
        ensures marks { marks_in self.new ≡ marks_in self.old }
        ensures unlinked { unlinked_in self.new ≡ unlinked_in self.old }
        ensures least { steps.old ≤ steps.new }
        ensures most { steps.new ≤ steps.old + formula_cost (T.workbook trees.old) (C.customs customs.now) day (sheet_of home) (at_home home (relative tree.now.value)) }
        ensures leaves { T.workbook trees.new ≡ T.workbook trees.old }
        ensures words { T.words trees.new ≡ T.words trees.old }
        ensures reads { T.leaves trees.old trees.new }
    {
        self.recalc.tried(trees, tree, home, customs, day, steps)
    }
}
