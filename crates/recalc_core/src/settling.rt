// What is kept of single nodes, and of those on a cycle.
ghost use Rattle.std.specs.Prelude.{◌≡◌, OnErr, OnOk};
ghost use Rattle.dep_graph.specs.declared.node.Node.{Node};
ghost use Rattle.range_table.specs.Ranges.{table_of};
ghost use Rattle.range_table.specs.Table.{AreFolds};
ghost use Rattle.recalc_core.specs.Kept.{Kept};
ghost use Rattle.recalc_core.specs.Recalc.{kept_in, marks_in};
ghost use Rattle.recalc_core.specs.internal.KeptTables.{AreSame, IsPut};
ghost use Rattle.recalc_core.specs.internal.Seen.{shown_at};
ghost use Rattle.recalc_core.specs.internal.UnderWay.{AreCycles, DifferWithin, DiffersAt, ShowsCycle};

use crate::marks::set_of;
use crate::recalc::Recalc;
use cell_value::{FaultKind, Scalar};
use dep_graph::Node;
use range_table::Ranges;
use std::alloc::AllocError;

impl Recalc {
    // Keeps this of the node, or nothing any more. For want of memory what is kept is as it was.
    pub(crate) fn settle(&mut self, a: Node, value: Option<Scalar>) -> Result<(), AllocError>
        ensures ok { OnOk result (IsPut a value (kept_in self.old) (kept_in self.new)) }
        ensures err { OnErr result (AreSame (kept_in self.old) (kept_in self.new)) }
        ensures marks { marks_in self.new ≡ marks_in self.old }
    {
        touch(&mut self.ranges, a);
        match value {
            Some(value) => self.kept.put(a, value),
            None => {
                self.kept.remove(a);
                Ok(())
            }
        }
    }

    // Keeps the cycle's value of the node, unless that is a range.
    fn settle_cycle(&mut self, a: Node) -> Result<(), AllocError>
        ensures shows { OnOk result (ShowsCycle (kept_in self.new) a) }
        ensures others { DiffersAt a (kept_in self.old) (kept_in self.new) }
        ensures marks { marks_in self.new ≡ marks_in self.old }
    {
        match a {
            Node::Cell(_) => self.settle(a, Some(Scalar::Fault(FaultKind::Cycle))),
            Node::Name { .. } => self.settle(a, Some(Scalar::Fault(FaultKind::Cycle))),
            Node::Range(_) => Ok(()),
            Node::Whole(_) => Ok(()),
        }
    }

    // Keeps the cycle's value of each of the nodes that isn't in the order, unless that is a range.
    pub(crate) fn settle_cycles(&mut self, nodes: &[Node], order: &[Node]) -> Result<(), AllocError>
        ensures shows { OnOk result (AreCycles nodes.now order.now (kept_in self.new)) }
        ensures others { DifferWithin nodes.now (kept_in self.old) (kept_in self.new) }
        ensures marks { marks_in self.new ≡ marks_in self.old }
    {
        let ordered = set_of(self.alloc, order)?;
        'nodes: for node in nodes {
            if !ordered.contains(node) {
                self.settle_cycle(*node)?;
            }
        }
        Ok(())
    }
}

// Gives up the summaries that rest on what is kept of the node.
fn touch(ranges: &mut Ranges, a: Node)
    ensures right { (before after : Kept) → DiffersAt a before after → AreFolds (shown_at before) (table_of ranges.old).kept → AreFolds (shown_at after) (table_of ranges.new).kept }
    ensures merged { (table_of ranges.new).merged ≡ (table_of ranges.old).merged }
{
    match a {
        Node::Cell(at) => ranges.touch(at),
        Node::Name { .. } => {}
        Node::Range(_) => {}
        Node::Whole(_) => {}
    }
}
