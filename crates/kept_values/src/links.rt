// Links that are brought up to date, and what they tell.
ghost use Rattle.std.specs.Prelude.{◌≡◌, ℕ, ℤ, [], IfOk, List, OnErr, OnOk};
ghost use Rattle.custom_fn.specs.declared.rule.Rule.{Rule};
ghost use Rattle.dep_graph.specs.Nodes.{has, items_of};
ghost use Rattle.dep_graph.specs.Users.{AreLinkedTo, AreUsers};
ghost use Rattle.dep_graph.specs.declared.node.Node.{Node as NodeSeen};
ghost use Rattle.recalc_core.specs.Nodes.{AreNumbered};
ghost use Rattle.marked_values.specs.Marks.{IsBookInside};

use crate::linking::link_all;
use crate::noting::note_all;
use crate::values::Values;
use cell_addr::Place;
use dep_graph::{Node, Nodes};
use indexmap::IndexSet;
use recalc_core::Trees;
use std::alloc::AllocError;

impl Values {
    ghost use Rattle.kept_values.specs.Values.{AddsNoted, Follows, asks_in, is_link_at, kept_in, links_in, loses_in, marks_in, seeks_in, unlinked_in};

    /// Links the nodes anew that were marked since they were last linked, and works out nothing: each node is then linked to exactly
    /// what its formula in the workbook that the values follow is linked to.
    ///
    /// The marks stay, but neither a second call nor the next refresh links these nodes once more. For want of memory some of them
    /// are linked, and the values follow still. Costs the links of the nodes that were marked since they were last linked.
    pub fn link<T: Trees>(&mut self, trees: &mut T) -> Result<(), AllocError>
        requires inside { IsBookInside (T.workbook trees.old) }
        requires numbered { AreNumbered (T.words trees.old) (T.workbook trees.old).names }
        requires follows { (customs : List (List ℕ × Rule)) × (today : ℤ) × Follows (T.workbook trees.old) (T.words trees.old) customs today self.old }
        ensures linked { OnOk result ((a c : NodeSeen) → has c (links_in self.new a) ≡ is_link_at (T.workbook trees.old) (T.words trees.old) a c) }
        ensures done { OnOk result (unlinked_in self.new ≡ []) }
        ensures left { OnErr result (unlinked_in self.new ≡ unlinked_in self.old) }
        ensures marks { marks_in self.new ≡ marks_in self.old }
        ensures asking { AddsNoted (unlinked_in self.old) (asks_in self.old) (asks_in self.new) }
        ensures losing { AddsNoted (unlinked_in self.old) (loses_in self.old) (loses_in self.new) }
        ensures seeking { (word : List ℕ) → AddsNoted (unlinked_in self.old) (seeks_in self.old word) (seeks_in self.new word) }
        ensures kept { kept_in self.new ≡ kept_in self.old }
        ensures follows { (customs : List (List ℕ × Rule)) (today : ℤ) → Follows (T.workbook trees.old) (T.words trees.old) customs today self.old → Follows (T.workbook trees.old) (T.words trees.old) customs today self.new }
        ensures leaves { T.workbook trees.new ≡ T.workbook trees.old }
        ensures words { T.words trees.new ≡ T.words trees.old }
        ensures reads { T.leaves trees.old trees.new }
    {
        let nodes = self.unlinked.as_slice();
        link_all(self.alloc, &mut self.graph, trees, nodes)?;
        note_all(self.alloc, trees, nodes, &mut self.noted)?;
        self.unlinked = IndexSet::new(self.alloc);
        Ok(())
    }

    /// Each node, once, that is linked to the cell itself or to a range, whole or not, that covers it. Costs what
    /// [`Graph::users`](dep_graph::Graph::users) does. Errs for want of memory.
    pub fn users(&self, at: Place) -> Result<Nodes, AllocError>
        ensures { IfOk result (λ nodes. AreUsers at (links_in self.now) (items_of nodes)) }
    {
        self.graph.users(at)
    }

    /// Each node, once, that is linked to the node itself. Costs what [`Graph::linked_to`](dep_graph::Graph::linked_to) does. Errs for
    /// want of memory.
    pub fn linked_to(&self, a: Node) -> Result<Nodes, AllocError>
        ensures { IfOk result (λ nodes. AreLinkedTo a (links_in self.now) (items_of nodes)) }
    {
        self.graph.linked_to(a)
    }
}
