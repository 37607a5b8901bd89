// The order in which nodes are worked out.
ghost use Rattle.std.specs.Prelude.{◌≡◌, IfOk};
ghost use Rattle.dep_graph.specs.Graph.{links_of};
ghost use Rattle.dep_graph.specs.Nodes.{has, items_of};
ghost use Rattle.dep_graph.specs.Walks.{IsOrdered};
ghost use Rattle.dep_graph.specs.declared.node.Node.{Node};

use crate::marks::copied_nodes;
use dep_graph::{Graph, Node, Nodes};
use std::alloc::{AllocError, Global};
use std::cmp::Reverse;

// Those of the nodes that are on no cycle, each after all of them that its needs lead to. Where needs leave it open, places of
// upper rows stand before those of lower ones, so that sums of blocks that grow downward go on from one another. Costs what
// [`Graph::order`] does, and a sort of the nodes.
pub(crate) fn planned(alloc: Global, graph: &Graph, nodes: &Nodes) -> Result<Nodes, AllocError>
    ensures { IfOk result (λ order. IsOrdered (links_of graph.now) (items_of nodes.now) (items_of order)) }
{
    // (what the graph begins with it puts last)
    let falling = falling(alloc, nodes.items())?;
    graph.order(&falling)
}

// The same nodes: names, and then places from the last row to the first.
fn falling(alloc: Global, nodes: &[Node]) -> Result<Nodes, AllocError>
    ensures { IfOk result (λ list. (a : Node) → has a (items_of list) ≡ has a nodes.now) }
{
    let mut list = Vec::from_slice(alloc, nodes)?;
    list.sort_by_key(|node| match *node {
        Node::Cell(at) => Some(Reverse(at)),
        Node::Name { .. } => None,
        Node::Range(_) => None,
        Node::Whole(_) => None,
    })?;
    copied_nodes(alloc, list.as_slice())
}
