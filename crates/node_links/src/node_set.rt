// Sets of nodes, most of which hold no more than one.
ghost use Rattle.std.specs.Prelude.{◌≡◌, ◌<◌, ◌==◌, ◌&&◌, ◌||◌, not, nat_lt, ℕ, length, IfOk, OnOk, OnErr};
ghost use Rattle.needs_order.specs.Needs.{has};
ghost use Rattle.node_links.specs.internal.Sets.{nodes_in};

use std::alloc::{AllocError, Global};
use std::collections::BTreeSet;

// A set of nodes, which takes no memory of its own for one node or none.
#[derive(Drop)]
pub(crate) enum NodeSet {
    Empty,
    One(usize),
    More(BTreeSet<usize>),
}

impl NodeSet {
    // Whether no node is in the set.
    pub(crate) fn is_empty(&self) -> bool
        ensures { result ≡ not (nat_lt 0 (length (nodes_in self.now))) }
    {
        match self {
            NodeSet::Empty => true,
            NodeSet::One(_) => false,
            NodeSet::More(set) => set.is_empty(),
        }
    }

    // Whether the node is in the set.
    pub(crate) fn contains(&self, node: usize) -> bool
        ensures { result ≡ has node (nodes_in self.now) }
    {
        match self {
            NodeSet::Empty => false,
            NodeSet::One(own) => *own == node,
            NodeSet::More(set) => set.contains(&node),
        }
    }

    // The nodes in the set, in their order.
    pub(crate) fn to_vec(&self, alloc: Global) -> Result<Vec<usize>, AllocError>
        ensures { IfOk result (λ nodes. nodes.items ≡ nodes_in self.now) }
    {
        match self {
            NodeSet::Empty => Ok(Vec::new(alloc)),
            NodeSet::One(own) => Vec::from_slice(alloc, &[*own]),
            NodeSet::More(set) => listed(alloc, set),
        }
    }

    // Adds the node, unless it is there. Where there is no memory the set stays as it was.
    pub(crate) fn insert(&mut self, alloc: Global, node: usize) -> Result<(), AllocError>
        ensures ok { OnOk result ((x : ℕ) → has x (nodes_in self.new) ≡ (has x (nodes_in self.old) || x == node)) }
        ensures err { OnErr result ((x : ℕ) → has x (nodes_in self.new) ≡ has x (nodes_in self.old)) }
    {
        match self {
            NodeSet::Empty => *self = NodeSet::One(node),
            NodeSet::One(own) if *own == node => (),
            NodeSet::One(own) => {
                let both = pair(alloc, *own, node)?;
                *self = NodeSet::More(both);
            }
            NodeSet::More(set) => {
                set.insert(node)?;
            }
        }
        Ok(())
    }

    // Takes the node out, if it is there.
    pub(crate) fn remove(&mut self, node: usize)
        ensures { (x : ℕ) → has x (nodes_in self.new) ≡ (has x (nodes_in self.old) && not (x == node)) }
    {
        match self {
            NodeSet::One(own) if *own == node => *self = NodeSet::Empty,
            NodeSet::Empty | NodeSet::One(_) => (),
            NodeSet::More(set) => {
                set.remove(&node);
            }
        }
    }
}

// A set of two nodes, or of one where they are the same.
fn pair(alloc: Global, a: usize, b: usize) -> Result<BTreeSet<usize>, AllocError>
    ensures { IfOk result (λ set. (x : ℕ) → has x set.keys ≡ (x == a || x == b)) }
{
    let mut set = BTreeSet::new(alloc);
    set.insert(a)?;
    set.insert(b)?;
    Ok(set)
}

// The nodes of a set, in their order.
fn listed(alloc: Global, set: &BTreeSet<usize>) -> Result<Vec<usize>, AllocError>
    ensures { IfOk result (λ nodes. nodes.items ≡ set.now.keys) }
{
    let mut nodes = Vec::with_capacity(alloc, set.len())?;
    'set: for node in set {
        nodes.push(*node)?;
    }
    Ok(nodes)
}
