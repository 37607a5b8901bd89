// Kept values, marks and kept summaries.
ghost use Rattle.std.specs.Prelude.{◌≡◌, [], IfOk, None, OnErr, OnOk};
ghost use Rattle.std.specs.Option.{option_copied};
ghost use Rattle.dep_graph.specs.Nodes.{has, items_of};
ghost use Rattle.dep_graph.specs.Walks.{IsOnce};
ghost use Rattle.dep_graph.specs.declared.node.Node.{Node};
ghost use Rattle.range_table.specs.Ranges.{table_of};
ghost use Rattle.range_table.specs.Table.{AreFolds};
ghost use Rattle.recalc_core.specs.internal.KeptValues.{kept_by};
ghost use Rattle.recalc_core.specs.internal.Seen.{shown_at};

use crate::kept::KeptValues;
use crate::marks::Marks;
use cell_value::Scalar;
use dep_graph::{Node, Nodes};
use range_table::Ranges;
use std::alloc::{AllocError, Global};

/// The values of a workbook as they are kept, the marks, and kept summaries of ranges.
///
/// It stands for a finite map from nodes to values, for the list of marks, each of which stands once, and for the number of
/// cells that were merged for summaries.
pub struct Recalc {
    pub(crate) alloc: Global,
    pub(crate) kept: KeptValues,
    pub(crate) marks: Marks,
    pub(crate) ranges: Ranges,

    // Each summary is that of its block's cells.
    pub ghost right: { AreFolds (shown_at (kept_by kept)) (table_of ranges).kept },
}

// Written out, so that whoever drops one calls one function.
impl Drop for Recalc {
    fn drop(self) {
        let Recalc {
            alloc: _,
            kept: _kept,
            marks: _marks,
            ranges: _ranges,
        } = self;
    }
}

impl Recalc {
    ghost use Rattle.recalc_core.specs.Recalc.{kept_in, marks_in, merged_in, with_mark};

    /// Nothing is kept, and there are no marks. Errs for want of memory.
    pub fn new(alloc: Global) -> Result<Recalc, AllocError>
        ensures kept { IfOk result (λ recalc. (a : Node) → kept_in recalc a ≡ None) }
        ensures marks { IfOk result (λ recalc. marks_in recalc ≡ []) }
        ensures merged { IfOk result (λ recalc. merged_in recalc ≡ 0) }
    {
        Ok(Recalc {
            alloc,
            kept: KeptValues::new(alloc)?,
            marks: Marks::new(alloc)?,
            ranges: Ranges::new(alloc)?,
        })
    }

    /// Marks a node, unless it is marked: what is kept of it, and of all that its value reaches, may not be its value any
    /// more. Costs a look-up. For want of memory all is as it was.
    pub fn mark(&mut self, a: Node) -> Result<(), AllocError>
        ensures ok { OnOk result (marks_in self.new ≡ with_mark a (marks_in self.old)) }
        ensures err { OnErr result (marks_in self.new ≡ marks_in self.old) }
        ensures kept { kept_in self.new ≡ kept_in self.old }
        ensures merged { merged_in self.new ≡ merged_in self.old }
    {
        self.marks.add(a)
    }

    /// Whether the node is marked. Costs a look-up.
    pub fn is_marked(&self, a: Node) -> bool
        ensures { result ≡ has a (marks_in self.now) }
    {
        self.marks.holds(a)
    }

    /// The marks, each once, in the order in which they came.
    pub fn marks(&self) -> &Nodes
        ensures list { items_of result.now ≡ marks_in self.now }
        ensures once { IsOnce (marks_in self.now) }
    {
        &self.marks.list
    }

    /// The value that is kept of the node; `None` where none is. Costs a look-up.
    pub fn value(&self, a: Node) -> Option<&Scalar>
        ensures { option_copied result ≡ kept_in self.now a }
    {
        self.kept.get(a)
    }

    /// How many cells were merged so far for summaries of ranges; the count stays at the greatest number of 64 bits.
    pub fn merged(&self) -> u64
        ensures { result ≡ merged_in self.now }
    {
        self.ranges.merged()
    }

    /// Equal values, marks and summaries. Costs their number. Errs for want of memory.
    pub fn copied(&self) -> Result<Recalc, AllocError>
        ensures kept { IfOk result (λ copy. (a : Node) → kept_in copy a ≡ kept_in self.now a) }
        ensures marks { IfOk result (λ copy. marks_in copy ≡ marks_in self.now) }
        ensures merged { IfOk result (λ copy. merged_in copy ≡ merged_in self.now) }
    {
        Ok(Recalc {
            alloc: self.alloc,
            kept: self.kept.copied(self.alloc)?,
            marks: self.marks.copied(self.alloc)?,
            ranges: self.ranges.copied()?,
        })
    }
}
