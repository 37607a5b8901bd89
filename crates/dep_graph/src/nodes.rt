// Lists of nodes.
ghost use Rattle.std.specs.Prelude.{◌≡◌, ◌++◌, ◌∷◌, [], IfOk, OnOk, OnErr};

use crate::node::Node;
use std::alloc::{AllocError, Global};

/// A list of nodes.
#[derive(Drop)]
pub struct Nodes {
    list: Vec<Node>,
}

impl Nodes {
    ghost use Rattle.dep_graph.specs.Nodes.{items_of};

    /// A list without nodes.
    pub fn new(alloc: Global) -> Result<Nodes, AllocError>
        ensures { IfOk result (λ nodes. items_of nodes ≡ []) }
    {
        Ok(Nodes {
            list: Vec::new(alloc),
        })
    }

    // The list of these nodes.
    pub(crate) fn of(alloc: Global, nodes: &[Node]) -> Result<Nodes, AllocError>
        ensures { IfOk result (λ list. items_of list ≡ nodes.now) }
    {
        Ok(Nodes {
            list: Vec::from_slice(alloc, nodes)?,
        })
    }

    /// Adds a node at the end. For want of memory the list is as it was.
    pub fn push(&mut self, node: Node) -> Result<(), AllocError>
        ensures ok { OnOk result (items_of self.new ≡ items_of self.old ++ node ∷ []) }
        ensures err { OnErr result (items_of self.new ≡ items_of self.old) }
    {
        self.list.push(node)?;
        Ok(())
    }

    /// The nodes, in order.
    pub fn items(&self) -> &[Node]
        ensures { result.now ≡ items_of self.now }
    {
        &self.list
    }
}
