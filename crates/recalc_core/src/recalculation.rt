// Recalculation from marks.
ghost use Rattle.std.specs.Prelude.{◌≡◌, ◌≤◌, [], OnErr, OnOk};
ghost use Rattle.dep_graph.specs.Graph.{links_of};
ghost use Rattle.dep_graph.specs.Needs.{Reaches};
ghost use Rattle.dep_graph.specs.declared.node.Node.{Node};
ghost use Rattle.recalc_core.specs.Kept.{AreRight, IsFit};
ghost use Rattle.recalc_core.specs.Links.{AreLinksOf};
ghost use Rattle.recalc_core.specs.Recalc.{kept_in, marks_in};
ghost use Rattle.recalc_core.specs.Steps.{TakesSteps};

use crate::marks::Marks;
use crate::planning::planned;
use crate::recalc::Recalc;
use crate::trees::Trees;
use calc_eval::Customs;
use dep_graph::Graph;
use std::alloc::AllocError;
use std::sync::ledger::Ledger;
use steps::Steps;

impl Recalc {
    /// Works out all that reaches a mark, with these custom functions, on the day of this serial number. The graph has the
    /// needs of the workbook, and what is kept of each node that reaches no mark is its value.
    ///
    /// Afterwards what is kept of every place and every name is its value, and there are no marks. Only nodes that reach a
    /// mark are worked out, each once, within the steps that their formulas cost. Those on a cycle show `#CYCLE!`. For want
    /// of memory the marks stay, and what is kept still fits them. Costs what [`Graph::reach`] does, a sort of the nodes that
    /// reach a mark, and the steps. Of nodes that don't need one another those of upper rows come first, so that sums of
    /// blocks that grow downward take a row each.
    pub fn recalculate<T: Trees, C: Customs, L: Ledger>(
        &mut self,
        graph: &Graph,
        trees: &mut T,
        customs: &C,
        day: i32,
        steps: &mut Steps<L>,
    ) -> Result<(), AllocError>
        requires links { AreLinksOf (T.workbook trees.old) (T.words trees.old) (links_of graph.now) }
        requires fit { IsFit (T.workbook trees.old) (T.words trees.old) (C.customs customs.now) day (links_of graph.now) (marks_in self.old) (kept_in self.old) }
        ensures right { OnOk result (AreRight (T.workbook trees.old) (T.words trees.old) (C.customs customs.now) day (kept_in self.new)) }
        ensures unmarked { OnOk result (marks_in self.new ≡ []) }
        ensures marks { OnErr result (marks_in self.new ≡ marks_in self.old) }
        ensures fit { OnErr result (IsFit (T.workbook trees.old) (T.words trees.old) (C.customs customs.now) day (links_of graph.now) (marks_in self.new) (kept_in self.new)) }
        ensures others { (a : Node) → ¬ Reaches (links_of graph.now) (marks_in self.old) a → kept_in self.new a ≡ kept_in self.old a }
        ensures least { steps.old ≤ steps.new }
        ensures most { TakesSteps (T.workbook trees.old) (T.words trees.old) (C.customs customs.now) day (links_of graph.now) (marks_in self.old) steps.old steps.new }
        ensures leaves { T.workbook trees.new ≡ T.workbook trees.old }
        ensures words { T.words trees.new ≡ T.words trees.old }
        ensures reads { T.leaves trees.old trees.new }
    {
        let affected = graph.reach(&self.marks.list)?;
        let order = planned(self.alloc, graph, &affected)?;
        let none = Marks::new(self.alloc)?;
        self.settle_cycles(affected.items(), order.items())?;
        self.renew_all(trees, order.items(), customs, day, steps)?;
        self.marks = none;
        Ok(())
    }
}
