// Links, kept values and marks.
ghost use Rattle.std.specs.Prelude.{◌≡◌, ◌++◌, ◌∷◌, ℕ, [], false, IfOk, List, None, OnErr, OnOk};
ghost use Rattle.std.specs.Option.{option_copied};
ghost use Rattle.dep_graph.specs.Nodes.{has, items_of};
ghost use Rattle.dep_graph.specs.declared.node.Node.{Node};

use crate::noting::Noted;
use cell_value::Scalar;
use dep_graph::{Graph, Node, Nodes};
use indexmap::IndexSet;
use recalc_core::Recalc;
use std::alloc::{AllocError, Global};

/// What is kept of the values of a workbook: the links of its formulas, which of these ask where a reference is, which have lost one
/// and which use a word that finds no name, by that word, the values of its cells and names, the marks of what was touched since
/// they were worked out, and which of these were marked since they were last linked.
pub struct Values {
    pub(crate) alloc: Global,
    pub(crate) graph: Graph,
    pub(crate) noted: Noted,
    pub(crate) unlinked: IndexSet<Node>,
    pub(crate) recalc: Recalc,
}

// Written out, so that whoever drops them calls one function.
impl Drop for Values {
    fn drop(self) {
        let Values {
            alloc: _,
            graph: _graph,
            noted: _noted,
            unlinked: _unlinked,
            recalc: _recalc,
        } = self;
    }
}

impl Values {
    ghost use Rattle.kept_values.specs.Values.{AreMarked, asks_in, kept_in, links_in, loses_in, marks_in, merged_in, seeks_in, unlinked_in};

    /// Nothing is linked, nothing is kept, and there are no marks. Errs for want of memory.
    pub fn new(alloc: Global) -> Result<Values, AllocError>
        ensures links { IfOk result (λ values. (a : Node) → links_in values a ≡ []) }
        ensures kept { IfOk result (λ values. (a : Node) → kept_in values a ≡ None) }
        ensures asking { IfOk result (λ values. (a : Node) → asks_in values a ≡ false) }
        ensures losing { IfOk result (λ values. (a : Node) → loses_in values a ≡ false) }
        ensures seeking { IfOk result (λ values. (word : List ℕ) (a : Node) → seeks_in values word a ≡ false) }
        ensures marks { IfOk result (λ values. marks_in values ≡ []) }
        ensures unlinked { IfOk result (λ values. unlinked_in values ≡ []) }
    {
        Ok(Values {
            alloc,
            graph: Graph::new(alloc)?,
            noted: Noted::new(alloc),
            unlinked: IndexSet::new(alloc),
            recalc: Recalc::new(alloc)?,
        })
    }

    /// Marks a node that a change touches: its formula is linked anew, even where it was marked before, and it and all that its value
    /// reaches are worked out, at the next refresh. For want of memory all is as it was. Costs a look-up or two.
    pub fn mark(&mut self, a: Node) -> Result<(), AllocError>
        ensures ok { OnOk result ((c : Node) → has c (marks_in self.new) ≡ has c (marks_in self.old ++ a ∷ [])) }
        ensures err { OnErr result (marks_in self.new ≡ marks_in self.old) }
        ensures unlinked { OnOk result ((c : Node) → has c (unlinked_in self.new) ≡ has c (unlinked_in self.old ++ a ∷ [])) }
        ensures unlinked_err { OnErr result (unlinked_in self.new ≡ unlinked_in self.old) }
        ensures links { links_in self.new ≡ links_in self.old }
        ensures asking { asks_in self.new ≡ asks_in self.old }
        ensures losing { loses_in self.new ≡ loses_in self.old }
        ensures seeking { seeks_in self.new ≡ seeks_in self.old }
        ensures kept { kept_in self.new ≡ kept_in self.old }
    {
        self.unlinked.reserve(1)?;
        self.recalc.mark(a)?;
        self.unlinked.insert(a)?;
        Ok(())
    }

    /// Marks each of the nodes. For want of memory some of them are marked. Costs a look-up or two for each.
    pub fn mark_all(&mut self, nodes: &[Node]) -> Result<(), AllocError>
        ensures ok { OnOk result ((c : Node) → has c (marks_in self.new) ≡ has c (marks_in self.old ++ nodes.now)) }
        ensures err { OnErr result (AreMarked nodes.now (marks_in self.old) (marks_in self.new)) }
        ensures unlinked { OnOk result ((c : Node) → has c (unlinked_in self.new) ≡ has c (unlinked_in self.old ++ nodes.now)) }
        ensures unlinked_err { OnErr result (AreMarked nodes.now (unlinked_in self.old) (unlinked_in self.new)) }
        ensures links { links_in self.new ≡ links_in self.old }
        ensures asking { asks_in self.new ≡ asks_in self.old }
        ensures losing { loses_in self.new ≡ loses_in self.old }
        ensures seeking { seeks_in self.new ≡ seeks_in self.old }
        ensures kept { kept_in self.new ≡ kept_in self.old }
    {
        'nodes: for node in nodes {
            self.mark(*node)?;
        }
        Ok(())
    }

    /// The value that is kept of the node; `None` where none is. Costs a look-up.
    pub fn value(&self, a: Node) -> Option<&Scalar>
        ensures { option_copied result ≡ kept_in self.now a }
    {
        self.recalc.value(a)
    }

    /// The marks.
    pub fn marks(&self) -> &Nodes
        ensures { items_of result.now ≡ marks_in self.now }
    {
        self.recalc.marks()
    }

    /// How many cells were merged so far for summaries of ranges; the count stays at the greatest number of 64 bits.
    pub fn merged(&self) -> u64
        ensures { result ≡ merged_in self.now }
    {
        self.recalc.merged()
    }
}
