// Nodes that are worked out, one after another.
ghost use Rattle.std.specs.Prelude.{◌≡◌, ◌+◌, ◌≤◌, IfOk, OnOk};
ghost use Rattle.std.specs.List.{sum_by};
ghost use Rattle.formula_tree.specs.Reference.{sheet_of};
ghost use Rattle.formula_tree.specs.Relative.{relative};
ghost use Rattle.formula_tree.specs.StandsFor.{at_home};
ghost use Rattle.calc_terms.specs.Meaning.{meaning};
ghost use Rattle.book_values.specs.Values.{value_of, world_of};
ghost use Rattle.recalc_core.specs.Kept.{AreRight, IsRight};
ghost use Rattle.recalc_core.specs.Recalc.{kept_in, marks_in};
ghost use Rattle.recalc_core.specs.Steps.{formula_cost, node_cost};
ghost use Rattle.recalc_core.specs.internal.UnderWay.{DifferWithin, DiffersAt, IsMeaning, IsPlan, IsReady, IsUnderWay, IsWithinCost};

use crate::names::read_names;
use crate::recalc::Recalc;
use crate::seen::FormulaSight;
use crate::trees::{NodeContent, Trees};
use calc_eval::{Customs, eval};
use cell_value::Scalar;
use dep_graph::Node;
use formula_tree::{Home, Tree};
use range_table::Ranges;
use std::alloc::AllocError;
use std::mem;
use std::sync::ledger::Ledger;
use steps::Steps;

impl Recalc {
    /// What a tree, as it is seen from a home, means in a formula there: by the values that are kept, which are all right.
    /// Nothing more is kept for it but summaries of ranges. Errs for want of memory. Costs what the tree costs to work out.
    pub fn tried<T: Trees, C: Customs, L: Ledger>(
        &mut self,
        trees: &mut T,
        tree: &Tree,
        home: Home,
        customs: &C,
        day: i32,
        steps: &mut Steps<L>,
    ) -> Result<Scalar, AllocError>
        requires right { AreRight (T.workbook trees.old) (T.words trees.old) (C.customs customs.now) day (kept_in self.old) }
        ensures means { IfOk result (λ value. value ≡ meaning (world_of (T.workbook trees.old).names day (value_of (T.workbook trees.old) (C.customs customs.now) day)) (C.customs customs.now) home (at_home home (relative tree.now.value))) }
        ensures least { steps.old ≤ steps.new }
        ensures most { steps.new ≤ steps.old + formula_cost (T.workbook trees.old) (C.customs customs.now) day (sheet_of home) (at_home home (relative tree.now.value)) }
        ensures kept { kept_in self.new ≡ kept_in self.old }
        ensures marks { marks_in self.new ≡ marks_in self.old }
        ensures leaves { T.workbook trees.new ≡ T.workbook trees.old }
        ensures words { T.words trees.new ≡ T.words trees.old }
        ensures reads { T.leaves trees.old trees.new }
    {
        self.formula_value(trees, tree, home, customs, day, steps)
    }

    // What the tree means over what is kept, in a formula at the home.
    fn formula_value<T: Trees, C: Customs, L: Ledger>(
        &mut self,
        trees: &mut T,
        tree: &Tree,
        home: Home,
        customs: &C,
        day: i32,
        steps: &mut Steps<L>,
    ) -> Result<Scalar, AllocError>
        ensures means { IfOk result (λ value. IsMeaning (T.workbook trees.old) (T.words trees.old) (C.customs customs.now) day (kept_in self.old) home (at_home home (relative tree.now.value)) value) }
        ensures least { steps.old ≤ steps.new }
        ensures most { IsWithinCost (T.workbook trees.old) (T.words trees.old) day (kept_in self.old) home (at_home home (relative tree.now.value)) steps.old steps.new }
        ensures kept { kept_in self.new ≡ kept_in self.old }
        ensures marks { marks_in self.new ≡ marks_in self.old }
        ensures leaves { T.workbook trees.new ≡ T.workbook trees.old }
        ensures words { T.words trees.new ≡ T.words trees.old }
        ensures reads { T.leaves trees.old trees.new }
    {
        let names = read_names(self.alloc, trees, tree, home.sheet())?;
        let none = Ranges::new(self.alloc)?;
        let ranges = mem::replace(&mut self.ranges, none);
        let mut seen = FormulaSight::new(self.alloc, &self.kept, &names, ranges, day);
        let value = eval(self.alloc, tree, home, &mut seen, customs, steps);
        self.ranges = seen.into_ranges();
        value
    }

    // Works the node out, and keeps its value; of a range nothing is kept.
    fn renew<T: Trees, C: Customs, L: Ledger>(
        &mut self,
        trees: &mut T,
        a: Node,
        customs: &C,
        day: i32,
        steps: &mut Steps<L>,
    ) -> Result<(), AllocError>
        requires { IsReady (T.workbook trees.old) (T.words trees.old) (C.customs customs.now) day (kept_in self.old) a }
        ensures right { OnOk result (IsRight (T.workbook trees.old) (T.words trees.old) (C.customs customs.now) day (kept_in self.new) a) }
        ensures others { DiffersAt a (kept_in self.old) (kept_in self.new) }
        ensures least { steps.old ≤ steps.new }
        ensures most { steps.new ≤ steps.old + node_cost (T.workbook trees.old) (T.words trees.old) (C.customs customs.now) day a }
        ensures marks { marks_in self.new ≡ marks_in self.old }
        ensures leaves { T.workbook trees.new ≡ T.workbook trees.old }
        ensures words { T.words trees.new ≡ T.words trees.old }
        ensures reads { T.leaves trees.old trees.new }
    {
        match trees.given(a)? {
            NodeContent::Nothing => self.settle(a, None),
            NodeContent::Value(value) => self.settle(a, Some(value)),
            NodeContent::Formula(tree, home) => {
                let value = self.formula_value(trees, &tree, home, customs, day, steps)?;
                self.settle(a, Some(value))
            }
        }
    }

    // Works out each node of the order, one after another.
    pub(crate) fn renew_all<T: Trees, C: Customs, L: Ledger>(
        &mut self,
        trees: &mut T,
        order: &[Node],
        customs: &C,
        day: i32,
        steps: &mut Steps<L>,
    ) -> Result<(), AllocError>
        requires plan { IsPlan (T.workbook trees.old) (T.words trees.old) (C.customs customs.now) day order.now }
        requires others { IsUnderWay (T.workbook trees.old) (T.words trees.old) (C.customs customs.now) day order.now 0 (kept_in self.old) }
        ensures right { OnOk result (AreRight (T.workbook trees.old) (T.words trees.old) (C.customs customs.now) day (kept_in self.new)) }
        ensures others { DifferWithin order.now (kept_in self.old) (kept_in self.new) }
        ensures least { steps.old ≤ steps.new }
        ensures most { steps.new ≤ steps.old + sum_by (node_cost (T.workbook trees.old) (T.words trees.old) (C.customs customs.now) day) order.now }
        ensures marks { marks_in self.new ≡ marks_in self.old }
        ensures leaves { T.workbook trees.new ≡ T.workbook trees.old }
        ensures words { T.words trees.new ≡ T.words trees.old }
        ensures reads { T.leaves trees.old trees.new }
    {
        'nodes: for node in order {
            self.renew(trees, *node, customs, day, steps)?;
        }
        Ok(())
    }
}
