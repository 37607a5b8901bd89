// What is reached, with the arrows between it.
ghost use Rattle.std.specs.Prelude.{◌≡◌, ◌≢◌, ◌<◌, ◌≤◌, [], length, IfOk, OnOk, MatchOption, slice_index_or};
ghost use Rattle.std.specs.List.{All, AllPairs};
ghost use Rattle.needs_order.specs.Needs.{lists_of};
ghost use Rattle.node_reach.specs.internal.Explored.{AreAt, ArePut, IsExplored, IsPut};

use crate::arrows::Arrows;
use indexmap::IndexSet;
use near_hash::NearHash;
use std::alloc::{AllocError, Global};

// The reached nodes, and the arrows between them.
#[derive(Drop)]
pub(crate) struct Explored {
    // The nodes, in the order in which they were found.
    pub(crate) nodes: IndexSet<usize, NearHash>,
    // For each of them the places, among the nodes, of those to which its arrows lead.
    pub(crate) lists: Vec<Vec<usize>>,
}

impl Explored {
    // Nothing was found yet; there is room for so many nodes.
    fn new(alloc: Global, count: usize) -> Result<Explored, AllocError>
        ensures nodes { IfOk result (λ found. length found.nodes.keys ≡ 0) }
        ensures lists { IfOk result (λ found. found.lists.items ≡ []) }
    {
        Ok(Explored {
            nodes: IndexSet::with_capacity_and_hasher(alloc, count, NearHash::new())?,
            lists: Vec::with_capacity(alloc, count)?,
        })
    }

    // The first node whose arrows weren't followed yet; None where there is none.
    #[tactic(auto, using(crate::proofs::Putting::once_from_distinct))]
    fn next(&self) -> Option<usize>
        ensures node { MatchOption result (length self.now.nodes.keys ≤ length (lists_of self.now.lists.items)) (λ node. (length (lists_of self.now.lists.items) < length self.now.nodes.keys) × (slice_index_or self.now.nodes.keys (length (lists_of self.now.lists.items)) 0 ≡ node)) }
        ensures once { AllPairs (λ a b. a ≢ b) self.now.nodes.keys }
    {
        let nodes = self.nodes.as_slice();
        let place = self.lists.as_slice().len();
        if place < nodes.len() {
            Some(nodes[place])
        } else {
            None
        }
    }
}

// All to which arrows lead from the starts, and the starts.
pub(crate) fn explore<A: Arrows>(
    alloc: Global,
    graph: &A,
    starts: &[usize],
) -> Result<Explored, AllocError>
    requires { All (λ a. a < A.count graph.now) starts.now }
    ensures { IfOk result (λ found. IsExplored (A.count graph.now) (A.targets graph.now) starts.now found.nodes.keys (lists_of found.lists.items)) }
{
    let mut found = Explored::new(alloc, starts.len())?;
    put_all(alloc, &mut found.nodes, starts)?;
    'exploring: while let Some(node) = found.next() {
        let targets = graph.arrows(alloc, node)?;
        let places = put_all(alloc, &mut found.nodes, targets.as_slice())?;
        found.lists.push(places)?;
    }
    Ok(found)
}

// The places of nodes in a set, where those that it hasn't are put at its end, in their order.
fn put_all(
    alloc: Global,
    set: &mut IndexSet<usize, NearHash>,
    nodes: &[usize],
) -> Result<Vec<usize>, AllocError>
    ensures put { OnOk result (ArePut set.old.keys nodes.now set.new.keys) }
    ensures places { IfOk result (λ places. AreAt set.new.keys nodes.now places.items) }
{
    let mut places = Vec::with_capacity(alloc, nodes.len())?;
    'nodes: for node in nodes {
        let place = put(set, *node)?;
        places.push(place)?;
    }
    Ok(places)
}

// The place of a node in a set, at whose end it is put unless the set has it.
fn put(set: &mut IndexSet<usize, NearHash>, node: usize) -> Result<usize, AllocError>
    ensures { IfOk result (λ place. IsPut set.old.keys node set.new.keys place) }
{
    let (place, _) = set.insert_full(node)?;
    Ok(place)
}
