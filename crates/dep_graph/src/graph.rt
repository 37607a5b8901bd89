// The graph of needs.
ghost use Rattle.std.specs.Prelude.{◌≡◌, [], IfOk, OnOk, OnErr};
ghost use Rattle.dep_graph.specs.declared.node.Node.{Node};

use crate::net::Net;
use crate::node::Node;
use std::alloc::{AllocError, Global};

/// The graph of needs.
///
/// It stands for a finite map from nodes to lists of nodes, those that each was linked to. A node needs what it was
/// linked to, and a range that some node is linked to needs each cell that it covers as well.
#[derive(Drop)]
pub struct Graph {
    // On the heap, so that who drops a graph calls one function.
    pub(crate) net: Box<Net>,
}

impl Graph {
    ghost use Rattle.dep_graph.specs.Graph.{AreLinked, AreSame, links_of};

    /// A graph in which no node was linked. Errs for want of memory.
    pub fn new(alloc: Global) -> Result<Graph, AllocError>
        ensures { IfOk result (λ graph. (a : Node) → links_of graph a ≡ []) }
    {
        Graph::of(Net::new(alloc)?)
    }

    /// Replaces what the node was linked to. Where there is no memory all links stay as they were. Costs about the number
    /// of the node's old and new needs, and for a range that is new or that no node needs yet the number of its slots.
    pub fn link(&mut self, a: Node, needs: &[Node]) -> Result<(), AllocError>
        ensures ok { OnOk result (AreLinked a needs.now (links_of self.old) (links_of self.new)) }
        ensures err { OnErr result (AreSame (links_of self.old) (links_of self.new)) }
    {
        self.net.link(a, needs)
    }

    /// Lets the node be linked to none. Takes no memory. Costs about the number of its needs.
    pub fn unlink(&mut self, a: Node)
        ensures { AreLinked a [] (links_of self.old) (links_of self.new) }
    {
        self.net.unlink(a);
    }

    /// An equal graph. Costs about the number of nodes and links, and the number of the slots of the used ranges. Errs for
    /// want of memory.
    pub fn copied(&self) -> Result<Graph, AllocError>
        ensures { IfOk result (λ graph. AreSame (links_of self.now) (links_of graph)) }
    {
        Graph::of(self.net.copied()?)
    }

    // The graph of a net.
    fn of(net: Net) -> Result<Graph, AllocError>
        ensures { IfOk result (λ graph. graph.net.value ≡ net) }
    {
        Ok(Graph {
            net: Box::new(net.alloc, net)?,
        })
    }
}
