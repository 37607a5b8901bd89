// Marks.
ghost use Rattle.std.specs.Prelude.{◌≡◌, [], IfOk, OnErr, OnOk};
ghost use Rattle.std.specs.HashSet as hash;
ghost use Rattle.dep_graph.specs.Nodes.{has, items_of, same_node};
ghost use Rattle.dep_graph.specs.Walks.{IsOnce};
ghost use Rattle.dep_graph.specs.declared.node.Node.{Node};

use dep_graph::{Node, Nodes};
use std::alloc::{AllocError, Global};
use std::collections::HashSet;

// Marked nodes, each once, in the order in which they were marked.
pub(crate) struct Marks {
    pub(crate) list: Nodes,
    set: HashSet<Node>,

    // The set has what the list has.
    pub ghost same: { (a : Node) → hash.contains same_node set a ≡ has a (items_of list) },
    pub ghost once: { IsOnce (items_of list) },
}

// Written out, so that whoever drops one calls one function.
impl Drop for Marks {
    fn drop(self) {
        let Marks {
            list: _list,
            set: _set,
        } = self;
    }
}

impl Marks {
    ghost use Rattle.recalc_core.specs.Recalc.{with_mark};
    ghost use Rattle.recalc_core.specs.internal.Marks.{marked_by};

    // No marks.
    pub(crate) fn new(alloc: Global) -> Result<Marks, AllocError>
        ensures { IfOk result (λ marks. marked_by marks ≡ []) }
    {
        Ok(Marks {
            list: Nodes::new(alloc)?,
            set: HashSet::new(alloc),
        })
    }

    // Whether the node is marked.
    pub(crate) fn holds(&self, a: Node) -> bool
        ensures { result ≡ has a (marked_by self.now) }
    {
        self.set.contains(&a)
    }

    // Marks the node, unless it is marked. For want of memory all is as it was.
    pub(crate) fn add(&mut self, a: Node) -> Result<(), AllocError>
        ensures ok { OnOk result (marked_by self.new ≡ with_mark a (marked_by self.old)) }
        ensures err { OnErr result (marked_by self.new ≡ marked_by self.old) }
    {
        if self.holds(a) {
            return Ok(());
        }
        self.set.insert(a)?;
        match self.list.push(a) {
            Ok(()) => Ok(()),
            Err(error) => {
                self.set.remove(&a);
                Err(error)
            }
        }
    }

    // Equal marks.
    pub(crate) fn copied(&self, alloc: Global) -> Result<Marks, AllocError>
        ensures { IfOk result (λ copy. marked_by copy ≡ marked_by self.now) }
    {
        let nodes = self.list.items();
        Ok(Marks {
            list: copied_nodes(alloc, nodes)?,
            set: set_of(alloc, nodes)?,
        })
    }
}

// The list of these nodes.
pub(crate) fn copied_nodes(alloc: Global, nodes: &[Node]) -> Result<Nodes, AllocError>
    ensures { IfOk result (λ copy. items_of copy ≡ nodes.now) }
{
    let mut copy = Nodes::new(alloc)?;
    'nodes: for node in nodes {
        copy.push(*node)?;
    }
    Ok(copy)
}

// The set of the nodes.
pub(crate) fn set_of(alloc: Global, nodes: &[Node]) -> Result<HashSet<Node>, AllocError>
    ensures { IfOk result (λ set. (a : Node) → hash.contains same_node set a ≡ has a nodes.now) }
{
    let mut set = HashSet::new(alloc);
    'nodes: for node in nodes {
        set.insert(*node)?;
    }
    Ok(set)
}
